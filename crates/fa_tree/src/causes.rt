//! Whether an error that a tree determines has its cause.

ghost use Rattle.std.specs.Prelude.{◌↔◌, ◌⊎◌, Option, IsTrue};
ghost use Rattle.fa_ledger.specs.Operations.{action_shown};
ghost use Rattle.fa_tree.specs.State.{OpenDirectory, IsFree, IsDirectory, IsLinked, IsThere};
ghost use Rattle.fa_tree.specs.Resolved.{OfOther};
ghost use Rattle.fa_tree.specs.Causes.{IsDirectoryThere, IsFullDirectoryThere, IsNonDirectoryThere};
ghost use Rattle.fa_tree.specs.Opening.{directory_rule};
ghost use Rattle.fa_tree.specs.Operations.{action_rule};
ghost use Rattle.fa_tree.specs.Rules.{HasCause};
ghost use Rattle.fa_tree.specs.parts.NamedParts.{named_shown, HasFileOfName};

use crate::id::FileId;
use crate::named::Named;
use crate::stored::Stored;
use bitflags::Flags;
use fa_bodies::FattrFlags;
use fa_bodies::errno::{EEXIST, EISDIR, ENOENT, ENOTDIR, ENOTEMPTY};
use fa_ledger::Action;

impl Stored {
    /// Whether a directory has a name.
    pub(crate) fn is_there(&self, directory: FileId, name: &[u8]) -> bool
        ensures { IsTrue result ↔ IsThere self.now.store directory name.now }
    {
        self.find(directory, name).is_some()
    }

    /// Whether it has it for a directory.
    fn is_directory_there(&self, directory: FileId, name: &[u8]) -> bool
        ensures { IsTrue result ↔ IsDirectoryThere self.now.store directory name.now }
    {
        match self.find(directory, name) {
            Some(file) => self.is_directory(file),
            None => false,
        }
    }

    /// Whether it has it for a directory that is not empty.
    fn is_full_directory_there(&self, directory: FileId, name: &[u8]) -> bool
        ensures { IsTrue result ↔ IsFullDirectoryThere self.now.store directory name.now }
    {
        match self.find(directory, name) {
            Some(file) => self.is_directory(file) && !self.is_empty_directory(file),
            None => false,
        }
    }

    /// Whether it has it for a file that is no directory.
    fn is_non_directory_there(&self, directory: FileId, name: &[u8]) -> bool
        ensures { IsTrue result ↔ IsNonDirectoryThere self.now.store directory name.now }
    {
        match self.find(directory, name) {
            Some(file) => !self.is_directory(file),
            None => false,
        }
    }

    /// Whether a directory does not have a name.
    pub(crate) fn is_absent(&self, directory: FileId, name: &[u8]) -> bool
        ensures { IsTrue result ↔ IsFree self.now.store directory name.now }
    {
        self.find(directory, name).is_none()
    }

    /// Whether a file is not linked.
    fn is_unlinked(&self, file: FileId) -> bool
        ensures { IsTrue result ↔ (IsLinked self.now.store file → ⊥) }
    {
        !self.is_linked(file)
    }

    /// Whether a second file is named that is not linked.
    fn is_other_unlinked(&self, other: Option<FileId>) -> bool
        ensures { IsTrue result ↔ OfOther other (λ file. IsLinked self.now.store file → ⊥) }
    {
        match other {
            Some(file) => !self.is_linked(file),
            None => false,
        }
    }

    /// Whether a file that is named is not linked.
    pub(crate) fn is_any_unlinked(&self, named: &Named) -> bool
        ensures { IsTrue result ↔ ((IsLinked self.now.store named.now.node → ⊥) ⊎ OfOther named.now.other (λ file. IsLinked self.now.store file → ⊥)) }
    {
        self.is_unlinked(named.node) || self.is_other_unlinked(named.other)
    }

    /// Whether ENOENT has its cause, by the file of the name.
    fn is_missing(&self, named: &Named, action: &Action<'_>) -> bool
        requires { HasFileOfName self.now.store named.now (action_shown action.now) }
        ensures { (handle : Option OpenDirectory) → IsTrue result ↔ (action_rule self.now.store (named_shown named.now handle) (action_shown action.now)).missing }
    {
        let node = named.node;
        let file = named.file;
        match action {
            Action::Lookup { .. } | Action::Unlink { .. } | Action::Rmdir { .. } => file.is_none(),
            Action::Rename { .. } => file.is_none() || self.is_any_unlinked(named),
            Action::Rename2 {
                flags,
                old_name,
                new_name,
                ..
            } => self.is_rename2_missing(*flags, named, old_name, new_name),
            Action::Link { .. } => self.is_any_unlinked(named),
            Action::Symlink { .. }
            | Action::Mknod { .. }
            | Action::Mkdir { .. }
            | Action::Create { .. }
            | Action::Getattr { .. }
            | Action::Setattr { .. }
            | Action::Readlink { .. }
            | Action::Open { .. }
            | Action::Read { .. }
            | Action::Write { .. }
            | Action::Opendir { .. } => self.is_unlinked(node),
        }
    }

    /// Whether a second file is named and has a name for a directory that is not empty.
    pub(crate) fn is_full_directory_in(&self, other: Option<FileId>, name: &[u8]) -> bool
        ensures { IsTrue result ↔ OfOther other (λ directory. IsFullDirectoryThere self.now.store directory name.now) }
    {
        match other {
            Some(directory) => self.is_full_directory_there(directory, name),
            None => false,
        }
    }

    /// Whether EEXIST has its cause, by the file of the name.
    fn is_taken(&self, named: &Named, action: &Action<'_>) -> bool
        requires { HasFileOfName self.now.store named.now (action_shown action.now) }
        ensures { (handle : Option OpenDirectory) → IsTrue result ↔ (action_rule self.now.store (named_shown named.now handle) (action_shown action.now)).taken }
    {
        let node = named.node;
        match action {
            Action::Symlink { .. }
            | Action::Mknod { .. }
            | Action::Mkdir { .. }
            | Action::Create { .. }
            | Action::Link { .. } => named.file.is_some(),
            Action::Rmdir { name, .. } => self.is_full_directory_there(node, name),
            Action::Rename { new_name, .. } => { self.is_full_directory_in(named.other, new_name) }
            Action::Rename2 {
                flags,
                new_name,
                ..
            } => self.is_rename2_taken(*flags, named, new_name),
            _ => false,
        }
    }

    /// Whether ENOTEMPTY has its cause.
    fn is_not_empty(&self, named: &Named, action: &Action<'_>) -> bool
        ensures { (handle : Option OpenDirectory) → IsTrue result ↔ (action_rule self.now.store (named_shown named.now handle) (action_shown action.now)).not_empty }
    {
        match action {
            Action::Rmdir { name, .. } => self.is_full_directory_there(named.node, name),
            Action::Rename { new_name, .. } => { self.is_full_directory_in(named.other, new_name) }
            Action::Rename2 {
                flags,
                new_name,
                ..
            } => self.is_rename2_not_empty(*flags, named, new_name),
            _ => false,
        }
    }

    /// Whether a second file is named that is no directory.
    pub(crate) fn is_other_no_directory(&self, other: Option<FileId>) -> bool
        ensures { IsTrue result ↔ OfOther other (λ directory. IsDirectory self.now.store directory → ⊥) }
    {
        match other {
            Some(directory) => !self.is_directory(directory),
            None => false,
        }
    }

    /// Whether a second file is named and has a name for a file that is no directory.
    fn is_other_in(&self, other: Option<FileId>, name: &[u8]) -> bool
        ensures { IsTrue result ↔ OfOther other (λ directory. IsNonDirectoryThere self.now.store directory name.now) }
    {
        match other {
            Some(directory) => self.is_non_directory_there(directory, name),
            None => false,
        }
    }

    /// Whether a RENAME is from or to what is no directory, or would put a directory in the place of a file that is none.
    pub(crate) fn is_no_place(&self, named: &Named, old_name: &[u8], new_name: &[u8]) -> bool
        ensures { IsTrue result ↔ ((IsDirectory self.now.store named.now.node → ⊥) ⊎ (OfOther named.now.other (λ directory. IsDirectory self.now.store directory → ⊥) ⊎ (IsDirectoryThere self.now.store named.now.node old_name.now × OfOther named.now.other (λ directory. IsNonDirectoryThere self.now.store directory new_name.now)))) }
    {
        !self.is_directory(named.node)
            || self.is_other_no_directory(named.other)
            || (self.is_directory_there(named.node, old_name)
                && self.is_other_in(named.other, new_name))
    }

    /// Whether ENOTDIR has its cause.
    fn is_no_directory(&self, named: &Named, action: &Action<'_>) -> bool
        ensures { (handle : Option OpenDirectory) → IsTrue result ↔ (action_rule self.now.store (named_shown named.now handle) (action_shown action.now)).no_directory }
    {
        let node = named.node;
        match action {
            Action::Rmdir { name, .. } => {
                !self.is_directory(node) || self.is_non_directory_there(node, name)
            }
            Action::Rename {
                old_name,
                new_name,
                ..
            } => self.is_no_place(named, old_name, new_name),
            Action::Rename2 {
                flags,
                old_name,
                new_name,
                ..
            } => self.is_rename2_no_directory(*flags, named, old_name, new_name),
            Action::Lookup { .. }
            | Action::Symlink { .. }
            | Action::Mknod { .. }
            | Action::Mkdir { .. }
            | Action::Unlink { .. }
            | Action::Link { .. }
            | Action::Create { .. }
            | Action::Opendir { .. } => !self.is_directory(node),
            _ => false,
        }
    }

    /// Whether a RENAME would put a file that is no directory in the place of a directory.
    pub(crate) fn is_in_the_way(&self, named: &Named, old_name: &[u8], new_name: &[u8]) -> bool
        ensures { IsTrue result ↔ (IsNonDirectoryThere self.now.store named.now.node old_name.now × OfOther named.now.other (λ directory. IsDirectoryThere self.now.store directory new_name.now)) }
    {
        match named.other {
            Some(directory) => {
                self.is_non_directory_there(named.node, old_name)
                    && self.is_directory_there(directory, new_name)
            }
            None => false,
        }
    }

    /// Whether EISDIR has its cause.
    fn is_a_directory(&self, named: &Named, action: &Action<'_>) -> bool
        ensures { (handle : Option OpenDirectory) → IsTrue result ↔ (action_rule self.now.store (named_shown named.now handle) (action_shown action.now)).a_directory }
    {
        let node = named.node;
        match action {
            Action::Unlink { name, .. } | Action::Create { name, .. } => {
                self.is_directory_there(node, name)
            }
            Action::Rename {
                old_name,
                new_name,
                ..
            } => self.is_in_the_way(named, old_name, new_name),
            Action::Rename2 {
                flags,
                old_name,
                new_name,
                ..
            } => self.is_rename2_a_directory(*flags, named, old_name, new_name),
            Action::Open { .. } | Action::Read { .. } | Action::Write { .. } => {
                self.is_directory(node)
            }
            Action::Setattr { setattr, .. } => {
                setattr.valid().contains(FattrFlags::SIZE) && self.is_directory(node)
            }
            _ => false,
        }
    }

    /// Whether an error of an action has its cause, by the file of its name, or is one that may come at any time.
    pub(crate) fn has_cause(&self, named: &Named, action: &Action<'_>, error: i32) -> bool
        requires { HasFileOfName self.now.store named.now (action_shown action.now) }
        ensures { (handle : Option OpenDirectory) → IsTrue result ↔ HasCause (action_rule self.now.store (named_shown named.now handle) (action_shown action.now)) error }
    {
        match error {
            ENOENT => self.is_missing(named, action),
            EEXIST => self.is_taken(named, action),
            ENOTDIR => self.is_no_directory(named, action),
            EISDIR => self.is_a_directory(named, action),
            ENOTEMPTY => self.is_not_empty(named, action),
            _ => true,
        }
    }

    /// The same of READDIR and READDIRPLUS on a directory.
    pub(crate) fn may_refuse_to_list(&self, directory: FileId, error: i32) -> bool
        ensures { IsTrue result ↔ HasCause (directory_rule self.now.store directory) error }
    {
        match error {
            ENOENT => self.is_unlinked(directory),
            ENOTDIR => !self.is_directory(directory),
            EEXIST | EISDIR | ENOTEMPTY => false,
            _ => true,
        }
    }
}
