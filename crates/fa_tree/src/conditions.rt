//! What a success of a request asks of a tree.

ghost use Rattle.std.specs.Prelude.{◌≡◌, ◌↔◌, ℕ, List, Option, Some, IsTrue};
ghost use Rattle.std.specs.FinMap.{get};
ghost use Rattle.fa_tree.specs.declared.id.FileId.{FileId};
ghost use Rattle.fa_bodies.specs.Views.{setattr_shown};
ghost use Rattle.fa_ledger.specs.Operations.{action_shown};
ghost use Rattle.fa_tree.specs.State.{IsDirectory, OpenDirectory};
ghost use Rattle.fa_tree.specs.Operations.{action_rule};
ghost use Rattle.fa_tree.specs.parts.NamedParts.{named_shown, HasFileOfName};
ghost use Rattle.fa_tree.specs.Lookups.{MayBeSet};
ghost use Rattle.fa_tree.specs.Making.{MayBeMade, HasMadeNone, MayBeCreated};
ghost use Rattle.fa_tree.specs.Removing.{MayBeUnlinked, MayBeRemoved};
ghost use Rattle.fa_tree.specs.Renaming.{MayReplace, MayComeInto, MayBeRenamed};
ghost use Rattle.fa_tree.specs.Linking.{MayBeLinked};

use crate::id::FileId;
use crate::named::Named;
use crate::stored::Stored;
use bitflags::Flags;
use fa_bodies::{FattrFlags, OpenFlags, SetattrBytes};
use fa_ledger::Action;

impl Stored {
    /// Whether SETATTR may succeed on a file.
    pub(crate) fn may_be_set(&self, file: FileId, setattr: &SetattrBytes<'_>) -> bool
        ensures { IsTrue result ↔ MayBeSet self.now.store file (setattr_shown setattr.now) }
    {
        !setattr.valid().contains(FattrFlags::SIZE) || self.is_regular(file)
    }

    /// Whether a file may be made in a directory under a name.
    pub(crate) fn may_be_made(&self, directory: FileId, name: &[u8]) -> bool
        ensures { IsTrue result ↔ MayBeMade self.now.store directory name.now }
    {
        self.may_be_made_for(directory, self.find(directory, name))
    }

    /// The same, by the file of the name.
    fn may_be_made_for(&self, directory: FileId, found: Option<FileId>) -> bool
        ensures { (name : List ℕ) → found ≡ get self.now.store.names (directory, name) → IsTrue result ↔ MayBeMade self.now.store directory name }
    {
        self.is_linked_directory(directory) && found.is_none()
    }

    /// Whether the request of this number has made no file.
    fn has_made_none(&self, asked: u32) -> bool
        ensures { IsTrue result ↔ HasMadeNone self.now.store asked }
    {
        self.files.get(FileId::Made(asked)).is_none()
    }

    /// Whether CREATE may succeed, by the file of the name.
    fn may_be_created(
        &self,
        asked: u32,
        directory: FileId,
        found: Option<FileId>,
        flags: OpenFlags,
    ) -> bool
        ensures { (name : List ℕ) → found ≡ get self.now.store.names (directory, name) → IsTrue result ↔ MayBeCreated self.now.store asked directory name flags }
    {
        self.is_linked_directory(directory)
            && match found {
                None => self.has_made_none(asked),
                Some(file) => self.is_regular(file) && !flags.contains(OpenFlags::EXCL),
            }
    }

    /// Whether UNLINK may succeed, by the file of the name.
    fn may_be_unlinked(&self, directory: FileId, found: Option<FileId>) -> bool
        ensures { (name : List ℕ) → found ≡ get self.now.store.names (directory, name) → IsTrue result ↔ MayBeUnlinked self.now.store directory name }
    {
        self.is_directory(directory)
            && match found {
                None => false,
                Some(file) => !self.is_directory(file),
            }
    }

    /// Whether RMDIR may succeed, by the file of the name.
    fn may_be_removed(&self, directory: FileId, found: Option<FileId>) -> bool
        ensures { (name : List ℕ) → found ≡ get self.now.store.names (directory, name) → IsTrue result ↔ MayBeRemoved self.now.store directory name }
    {
        self.is_directory(directory)
            && match found {
                None => false,
                Some(file) => self.is_empty_directory(file),
            }
    }

    /// Whether a file may take the name of another.
    fn may_replace(&self, file: FileId, other: FileId) -> bool
        ensures { IsTrue result ↔ MayReplace self.now.store file other }
    {
        other == file
            || if self.is_directory(file) {
                self.is_empty_directory(other)
            } else {
                !self.is_directory(other)
            }
    }

    /// Whether a file may get a name, by what has the name now.
    fn may_take(&self, file: FileId, taken: Option<FileId>) -> bool
        ensures { IsTrue result ↔ ((other : FileId) → taken ≡ Some other → MayReplace self.now.store file other) }
    {
        match taken {
            None => true,
            Some(other) => self.may_replace(file, other),
        }
    }

    /// Whether LINK may succeed, by the file of the name.
    fn may_be_linked(&self, directory: FileId, found: Option<FileId>, file: FileId) -> bool
        ensures { (name : List ℕ) → found ≡ get self.now.store.names (directory, name) → IsTrue result ↔ MayBeLinked self.now.store directory name file }
    {
        self.is_linked_directory(directory)
            && found.is_none()
            && self.is_linked(file)
            && !self.is_directory(file)
    }

    /// Whether a file may come into a directory, as for loops: a directory not into itself nor below itself.
    pub(crate) fn may_come_into(&self, directory: FileId, file: FileId) -> bool
        requires { IsDirectory self.now.store directory }
        ensures { IsTrue result ↔ MayComeInto self.now.store directory file }
    {
        !self.is_directory(file) || (directory != file && !self.is_below(file, directory))
    }

    /// Whether a file may move to a directory under a name, by what has the name now: the file itself, or it may come into the directory.
    fn may_move(&self, file: FileId, directory: FileId, taken: Option<FileId>) -> bool
        requires { IsDirectory self.now.store directory }
        ensures { IsTrue result ↔ ((taken ≡ Some file → ⊥) → MayComeInto self.now.store directory file) }
    {
        taken == Some(file) || self.may_come_into(directory, file)
    }

    /// Whether RENAME may succeed, by the file of the old name.
    pub(crate) fn may_be_renamed(
        &self,
        old_directory: FileId,
        found: Option<FileId>,
        new_directory: FileId,
        new_name: &[u8],
    ) -> bool
        ensures { (old_name : List ℕ) → found ≡ get self.now.store.names (old_directory, old_name) → IsTrue result ↔ MayBeRenamed self.now.store old_directory old_name new_directory new_name.now }
    {
        if !self.is_directory(old_directory) || !self.is_linked_directory(new_directory) {
            return false;
        }
        match found {
            None => false,
            Some(file) => {
                let taken = self.find(new_directory, new_name);
                self.may_take(file, taken) && self.may_move(file, new_directory, taken)
            }
        }
    }

    /// Whether a success of an action is allowed on the files that it names, by the file of its name.
    pub(crate) fn may_be_done(&self, named: &Named, action: &Action<'_>) -> bool
        requires { HasFileOfName self.now.store named.now (action_shown action.now) }
        ensures { (handle : Option OpenDirectory) → IsTrue result ↔ (action_rule self.now.store (named_shown named.now handle) (action_shown action.now)).needs }
    {
        let node = named.node;
        match action {
            Action::Getattr { .. } => true,
            Action::Setattr { setattr, .. } => self.may_be_set(node, setattr),
            Action::Readlink { .. } => self.is_symlink(node),
            Action::Symlink { .. } | Action::Mknod { .. } | Action::Mkdir { .. } => {
                self.may_be_made_for(node, named.file) && self.has_made_none(named.asked)
            }
            Action::Unlink { .. } => self.may_be_unlinked(node, named.file),
            Action::Rmdir { .. } => self.may_be_removed(node, named.file),
            Action::Rename { new_name, .. } => match named.other {
                Some(directory) => self.may_be_renamed(node, named.file, directory, new_name),
                None => false,
            },
            Action::Rename2 {
                flags,
                new_name,
                ..
            } => self.may_be_renamed2(*flags, named, new_name),
            Action::Link { .. } => match named.other {
                Some(file) => self.may_be_linked(node, named.file, file),
                None => false,
            },
            Action::Open { .. } | Action::Read { .. } | Action::Write { .. } => {
                self.is_regular(node)
            }
            Action::Lookup { .. } | Action::Opendir { .. } => self.is_directory(node),
            Action::Create { flags, .. } => {
                self.may_be_created(named.asked, node, named.file, *flags)
            }
        }
    }
}
