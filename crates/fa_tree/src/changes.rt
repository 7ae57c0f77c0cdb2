//! What actions make of what a tree stores.

ghost use Rattle.std.specs.Prelude.{◌≡◌, ◌∷◌, [], if◌then◌else◌, Option, None, Some, OnOk, OnErr};
ghost use Rattle.std.specs.FinMap.{get};
ghost use Rattle.fa_bodies.specs.FlagBits.{fattr_size};
ghost use Rattle.fa_bodies.specs.Flags.{HasFlag, fattr_bits};
ghost use Rattle.fa_bodies.specs.Views.{setattr_shown};
ghost use Rattle.fa_ledger.specs.Operations.{action_shown};
ghost use Rattle.fa_tree.specs.State.{OpenDirectory};
ghost use Rattle.fa_tree.specs.Edits.Edit.{Removed};
ghost use Rattle.fa_tree.specs.Lookups.{file_set};
ghost use Rattle.fa_tree.specs.Removing.{MayBeUnlinked};
ghost use Rattle.fa_tree.specs.Renaming.{MayBeRenamed, rename_edits};
ghost use Rattle.fa_tree.specs.Rules.{with_file};
ghost use Rattle.fa_store.specs.Contents.{resized};
ghost use Rattle.fa_tree.specs.Contents.{file_written};
ghost use Rattle.fa_tree.specs.Making.{MayBeMade, HasMadeNone, emptied, new_regular};
ghost use Rattle.fa_tree.specs.parts.FileParts.{with_bytes};
ghost use Rattle.fa_tree.specs.Operations.{action_rule};
ghost use Rattle.fa_tree.specs.Refusals.{MayGrow};
ghost use Rattle.fa_tree.specs.parts.NamedParts.{named_shown, HasFileOfName};
ghost use Rattle.fa_tree.specs.parts.StoredParts.{mode_set, stored_created, stored_changed, stored_edited, stored_with, stored_opened, stored_left};

use crate::file::permission_bits;
use crate::id::FileId;
use crate::making::{new_directory, new_node, new_regular, new_symlink};
use crate::named::Named;
use crate::stored::Stored;
use bitflags::Flags;
use fa_bodies::{FattrFlags, Mode, SetattrBytes};
use fa_ledger::Action;
use std::alloc::AllocError;

impl Stored {
    /// Cuts a file to this length, or fills it with zeros up to it.
    fn resize(&mut self, file: FileId, size: u64) -> Result<(), AllocError>
        ensures resized { OnOk result (self.new ≡ stored_with (with_file self.old.store.files file (with_bytes (λ bytes. resized bytes size))) self.old) }
        ensures unchanged { OnErr result (self.new ≡ self.old) }
    {
        self.files.resize(file, size)
    }

    /// Sets attributes of a file.
    fn set_attributes(&mut self, file: FileId, setattr: &SetattrBytes<'_>) -> Result<(), AllocError>
        ensures set { OnOk result (self.new ≡ stored_with (with_file self.old.store.files file (file_set (setattr_shown setattr.now))) self.old) }
        ensures grows { OnErr result (HasFlag (fattr_bits (setattr_shown setattr.now).valid) fattr_size) }
        ensures unchanged { OnErr result (self.new ≡ self.old) }
    {
        if setattr.valid().contains(FattrFlags::SIZE) {
            self.resize(file, setattr.size())?;
        }
        self.set_mode(file, setattr);
        Ok(())
    }

    /// Writes the first bytes of a payload, so many, at an offset of a file.
    fn write(
        &mut self,
        file: FileId,
        offset: u64,
        payload: &[u8],
        count: u32,
    ) -> Result<(), AllocError>
        ensures written { OnOk result (self.new ≡ stored_with (with_file self.old.store.files file (file_written offset payload.now count)) self.old) }
        ensures unchanged { OnErr result (self.new ≡ self.old) }
    {
        let count = payload.len().min(count as usize);
        self.files.write(file, offset, &payload[..count])
    }

    /// Takes all bytes of a file away, where it is to be emptied.
    fn empty(&mut self, file: FileId, truncates: bool)
        ensures { self.new ≡ stored_with (if truncates then with_file self.old.store.files file emptied else self.old.store.files) self.old }
    {
        if truncates {
            self.files.clear(file);
        }
    }

    /// Sets the permission bits of a file that SETATTR leaves.
    fn set_mode(&mut self, file: FileId, setattr: &SetattrBytes<'_>)
        ensures { self.new ≡ stored_with (with_file self.old.store.files file (mode_set (setattr_shown setattr.now))) self.old }
    {
        if setattr.valid().contains(FattrFlags::MODE) && !self.is_symlink(file) {
            self.files.set_bits(file, permission_bits(setattr.mode()));
        }
    }

    /// Takes a name away of a file that is no directory, and may have others.
    fn remove(&mut self, directory: FileId, name: &[u8])
        requires { MayBeUnlinked self.old.store directory name.now }
        ensures { self.new ≡ stored_edited (Removed directory name.now ∷ []) self.old }
    {
        match self.names.remove(directory, name) {
            Some(file) => self.files.count_removed(directory, file),
            None => {}
        }
    }

    /// Takes the name of a directory away, if it is there.
    fn remove_directory(&mut self, directory: FileId, name: &[u8])
        ensures { self.new ≡ stored_edited (Removed directory name.now ∷ []) self.old }
    {
        match self.names.remove(directory, name) {
            Some(file) => {
                self.files.count_removed(directory, file);
                self.parents.remove(file);
            }
            None => {}
        }
    }

    /// Moves a name, as RENAME does.
    pub(crate) fn rename(
        &mut self,
        old_directory: FileId,
        old_name: &[u8],
        new_directory: FileId,
        new_name: &[u8],
    ) -> Result<(), AllocError>
        requires { MayBeRenamed self.old.store old_directory old_name.now new_directory new_name.now }
        ensures renamed { OnOk result (self.new ≡ stored_edited (rename_edits self.old.store old_directory old_name.now new_directory new_name.now) self.old) }
        ensures unchanged { OnErr result (self.new ≡ self.old) }
    {
        let taken = self.names.get(new_directory, new_name);
        match self.names.get(old_directory, old_name) {
            None => Ok(()),
            Some(file) if taken == Some(file) => Ok(()),
            Some(file) => {
                // For the clause that names are few, as in `link`.
                let _ = self.names.places();
                self.names
                    .rename(old_directory, old_name, new_directory, new_name, file)?;
                self.files
                    .count_moved(old_directory, new_directory, file, taken);
                if let Some(other) = taken {
                    self.parents.remove(other);
                }
                self.parents.set(file, new_directory);
                Ok(())
            }
        }
    }

    /// Notes that the request of this number opens a directory.
    pub(crate) fn open(&mut self, asked: u32, directory: FileId) -> Result<(), AllocError>
        ensures opened { OnOk result (self.new ≡ stored_opened asked directory self.old) }
        ensures unchanged { OnErr result (self.new ≡ self.old) }
    {
        self.names.open(asked, directory)
    }

    /// Makes a regular file under a name, or opens the file that was found and empties that where it is to be emptied.
    fn create(
        &mut self,
        asked: u32,
        directory: FileId,
        name: &[u8],
        found: Option<FileId>,
        mode: Mode,
        umask: u32,
        truncates: bool,
    ) -> Result<(), AllocError>
        requires found { found ≡ get self.old.store.names (directory, name.now) }
        requires free { get self.old.store.names (directory, name.now) ≡ None → MayBeMade self.old.store directory name.now × HasMadeNone self.old.store asked }
        ensures created { OnOk result (self.new ≡ stored_created asked directory name.now truncates (new_regular mode umask) self.old) }
        ensures unchanged { OnErr result (self.new ≡ self.old) }
    {
        match found {
            Some(file) => self.empty(file, truncates),
            None => {
                let file = new_regular(self.alloc, mode, umask);
                self.make(FileId::Made(asked), directory, name, file)?;
            }
        }
        Ok(())
    }

    /// Makes the change of an action that may be done, by the file of its name, by whether it empties a file that is there, and by how many
    /// bytes it wrote.
    #[tactic(auto, using(crate::proofs::ChangedLemmas::still_changed))]
    pub(crate) fn change(
        &mut self,
        named: &Named,
        action: &Action<'_>,
        truncates: bool,
        count: u32,
    ) -> Result<(), AllocError>
        requires file { HasFileOfName self.old.store named.now (action_shown action.now) }
        requires needs { (handle : Option OpenDirectory) → (action_rule self.old.store (named_shown named.now handle) (action_shown action.now)).needs }
        ensures changed { OnOk result ((handle : Option OpenDirectory) → self.new ≡ stored_changed (named_shown named.now handle) truncates (action_shown action.now) count self.old) }
        ensures memory { OnErr result (MayGrow (action_shown action.now)) }
        ensures unchanged { OnErr result (self.new ≡ self.old) }
    {
        let alloc = self.alloc;
        let made = FileId::Made(named.asked);
        let node = named.node;
        match action {
            Action::Setattr { setattr, .. } => self.set_attributes(node, setattr)?,
            Action::Symlink { name, target, .. } => {
                let file = new_symlink(alloc, target)?;
                self.make(made, node, name, file)?;
            }
            Action::Mknod {
                mode,
                umask,
                name,
                ..
            } => {
                let file = new_node(alloc, *mode, *umask);
                self.make(made, node, name, file)?;
            }
            Action::Mkdir {
                mode,
                umask,
                name,
                ..
            } => {
                let file = new_directory(alloc, *mode, *umask);
                self.make(made, node, name, file)?;
            }
            Action::Create {
                mode,
                umask,
                name,
                ..
            } => self.create(
                named.asked,
                node,
                name,
                named.file,
                *mode,
                *umask,
                truncates,
            )?,
            Action::Unlink { name, .. } => self.remove(node, name),
            Action::Rmdir { name, .. } => self.remove_directory(node, name),
            Action::Rename {
                old_name,
                new_name,
                ..
            } => {
                if let Some(directory) = named.other {
                    self.rename(node, old_name, directory, new_name)?;
                }
            }
            Action::Rename2 {
                flags,
                old_name,
                new_name,
                ..
            } => {
                if let Some(directory) = named.other {
                    self.rename2(*flags, node, old_name, directory, new_name)?;
                }
            }
            Action::Link { new_name, .. } => {
                if let Some(file) = named.other {
                    self.link(node, new_name, file)?;
                }
            }
            Action::Open { .. } => self.empty(node, truncates),
            Action::Write {
                offset,
                payload,
                ..
            } => self.write(node, *offset, payload, count)?,
            Action::Lookup { .. }
            | Action::Getattr { .. }
            | Action::Readlink { .. }
            | Action::Read { .. }
            | Action::Opendir { .. } => {}
        }
        Ok(())
    }

    /// Makes the change of an action that may be done, by the file of its name, and notes the directory that its success opens, if it
    /// opens one anew.
    pub(crate) fn leave(
        &mut self,
        named: &Named,
        action: &Action<'_>,
        truncates: bool,
        count: u32,
        asked: u32,
        opens: bool,
    ) -> Result<(), AllocError>
        requires file { HasFileOfName self.old.store named.now (action_shown action.now) }
        requires needs { (handle : Option OpenDirectory) → (action_rule self.old.store (named_shown named.now handle) (action_shown action.now)).needs }
        ensures left { OnOk result ((handle : Option OpenDirectory) → self.new ≡ stored_left (named_shown named.now handle) truncates (action_shown action.now) asked opens count self.old) }
        ensures memory { OnErr result (MayGrow (action_shown action.now)) }
        ensures unchanged { OnErr result (self.new ≡ self.old) }
    {
        match action {
            Action::Opendir { .. } if opens => self.open(asked, named.node),
            _ => self.change(named, action, truncates, count),
        }
    }
}
