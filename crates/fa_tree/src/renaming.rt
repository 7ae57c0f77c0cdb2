//! RENAME2: what it asks of a tree, when its errors have their causes, and what it makes of the tree, by its flags.

ghost use Rattle.std.specs.Prelude.{◌≡◌, ◌≢◌, ◌↔◌, ℕ, List, Option, Some, IsTrue, OnOk, OnErr};
ghost use Rattle.fa_bodies.specs.declared.rename_flags.RenameFlags.TheVariants.{Exchange};
ghost use Rattle.std.specs.FinMap.{get};
ghost use Rattle.fa_tree.specs.State.{IsFree, IsThere};
ghost use Rattle.fa_tree.specs.Resolved.{OfOther};
ghost use Rattle.fa_tree.specs.Renaming.{MayBeExchanged, exchange_edits, rename2_rule};
ghost use Rattle.fa_tree.specs.parts.StoredParts.{stored_edited};

use crate::id::FileId;
use crate::named::Named;
use crate::stored::Stored;
use fa_bodies::RenameFlags;
use std::alloc::AllocError;

impl Stored {
    /// Whether two names may get each other's file, by that of the old name.
    fn may_be_exchanged(
        &self,
        old_directory: FileId,
        found: Option<FileId>,
        new_directory: FileId,
        new_name: &[u8],
    ) -> bool
        ensures { (old_name : List ℕ) → found ≡ get self.now.store.names (old_directory, old_name) → IsTrue result ↔ MayBeExchanged self.now.store old_directory old_name new_directory new_name.now }
    {
        if !self.is_directory(old_directory) || !self.is_directory(new_directory) {
            return false;
        }
        match found {
            None => false,
            Some(file) => match self.find(new_directory, new_name) {
                None => false,
                Some(other) => {
                    self.may_come_into(new_directory, file)
                        && self.may_come_into(old_directory, other)
                }
            },
        }
    }

    /// Whether RENAME2 may succeed, by the file of the old name.
    pub(crate) fn may_be_renamed2(&self, flags: RenameFlags, named: &Named, new_name: &[u8]) -> bool
        ensures { (old_name : List ℕ) → named.now.file ≡ get self.now.store.names (named.now.node, old_name) → IsTrue result ↔ (rename2_rule self.now.store named.now.node old_name flags named.now.other new_name.now).needs }
    {
        let node = named.node;
        match named.other {
            None => false,
            Some(directory) => match flags {
                RenameFlags::Replace => self.may_be_renamed(node, named.file, directory, new_name),
                RenameFlags::NoReplace => {
                    self.is_absent(directory, new_name)
                        && self.may_be_renamed(node, named.file, directory, new_name)
                }
                RenameFlags::Exchange => self.may_be_exchanged(
                    node, named.file, directory, new_name,
                ),
            },
        }
    }

    /// Whether a second file is named and does not have a name.
    fn is_absent_in(&self, other: Option<FileId>, name: &[u8]) -> bool
        ensures { IsTrue result ↔ OfOther other (λ directory. IsFree self.now.store directory name.now) }
    {
        match other {
            Some(directory) => self.is_absent(directory, name),
            None => false,
        }
    }

    /// Whether a second file is named and has a name.
    fn is_there_in(&self, other: Option<FileId>, name: &[u8]) -> bool
        ensures { IsTrue result ↔ OfOther other (λ directory. IsThere self.now.store directory name.now) }
    {
        match other {
            Some(directory) => self.is_there(directory, name),
            None => false,
        }
    }

    /// Whether ENOENT of RENAME2 has its cause.
    pub(crate) fn is_rename2_missing(
        &self,
        flags: RenameFlags,
        named: &Named,
        old_name: &[u8],
        new_name: &[u8],
    ) -> bool
        ensures { IsTrue result ↔ (rename2_rule self.now.store named.now.node old_name.now flags named.now.other new_name.now).missing }
    {
        match flags {
            RenameFlags::Replace => {
                self.is_absent(named.node, old_name) || self.is_any_unlinked(named)
            }
            RenameFlags::NoReplace => {
                self.is_absent(named.node, old_name) || self.is_any_unlinked(named)
            }
            RenameFlags::Exchange => {
                (self.is_absent(named.node, old_name) || self.is_absent_in(named.other, new_name))
                    || self.is_any_unlinked(named)
            }
        }
    }

    /// Whether EEXIST of RENAME2 has its cause.
    pub(crate) fn is_rename2_taken(
        &self,
        flags: RenameFlags,
        named: &Named,
        new_name: &[u8],
    ) -> bool
        ensures { (old_name : List ℕ) → IsTrue result ↔ (rename2_rule self.now.store named.now.node old_name flags named.now.other new_name.now).taken }
    {
        match flags {
            RenameFlags::Replace => self.is_full_directory_in(named.other, new_name),
            RenameFlags::NoReplace => self.is_there_in(named.other, new_name),
            RenameFlags::Exchange => false,
        }
    }

    /// Whether ENOTDIR of RENAME2 has its cause.
    pub(crate) fn is_rename2_no_directory(
        &self,
        flags: RenameFlags,
        named: &Named,
        old_name: &[u8],
        new_name: &[u8],
    ) -> bool
        ensures { IsTrue result ↔ (rename2_rule self.now.store named.now.node old_name.now flags named.now.other new_name.now).no_directory }
    {
        match flags {
            RenameFlags::Replace => self.is_no_place(named, old_name, new_name),
            RenameFlags::NoReplace => self.is_no_place(named, old_name, new_name),
            RenameFlags::Exchange => {
                !self.is_directory(named.node) || self.is_other_no_directory(named.other)
            }
        }
    }

    /// Whether EISDIR of RENAME2 has its cause.
    pub(crate) fn is_rename2_a_directory(
        &self,
        flags: RenameFlags,
        named: &Named,
        old_name: &[u8],
        new_name: &[u8],
    ) -> bool
        ensures { IsTrue result ↔ (rename2_rule self.now.store named.now.node old_name.now flags named.now.other new_name.now).a_directory }
    {
        match flags {
            RenameFlags::Replace => self.is_in_the_way(named, old_name, new_name),
            RenameFlags::NoReplace => self.is_in_the_way(named, old_name, new_name),
            RenameFlags::Exchange => false,
        }
    }

    /// Whether ENOTEMPTY of RENAME2 has its cause.
    pub(crate) fn is_rename2_not_empty(
        &self,
        flags: RenameFlags,
        named: &Named,
        new_name: &[u8],
    ) -> bool
        ensures { (old_name : List ℕ) → IsTrue result ↔ (rename2_rule self.now.store named.now.node old_name flags named.now.other new_name.now).not_empty }
    {
        match flags {
            RenameFlags::Replace => self.is_full_directory_in(named.other, new_name),
            RenameFlags::NoReplace => self.is_full_directory_in(named.other, new_name),
            RenameFlags::Exchange => false,
        }
    }

    /// Gives each of two names the other's file.
    fn exchange(
        &mut self,
        old_directory: FileId,
        old_name: &[u8],
        new_directory: FileId,
        new_name: &[u8],
    )
        requires { MayBeExchanged self.old.store old_directory old_name.now new_directory new_name.now }
        ensures { self.new ≡ stored_edited (exchange_edits self.old.store old_directory old_name.now new_directory new_name.now) self.old }
    {
        let other = self.names.get(new_directory, new_name);
        match self.names.get(old_directory, old_name) {
            None => {}
            Some(file) => match other {
                None => {}
                Some(other) => {
                    self.names.exchange(
                        old_directory,
                        old_name,
                        new_directory,
                        new_name,
                        file,
                        other,
                    );
                    self.parents.set(file, new_directory);
                    self.parents.set(other, old_directory);
                }
            },
        }
    }

    /// Makes the change of a RENAME2 that may be done.
    pub(crate) fn rename2(
        &mut self,
        flags: RenameFlags,
        old_directory: FileId,
        old_name: &[u8],
        new_directory: FileId,
        new_name: &[u8],
    ) -> Result<(), AllocError>
        requires { (rename2_rule self.old.store old_directory old_name.now flags (Some new_directory) new_name.now).needs }
        ensures renamed { OnOk result (self.new ≡ stored_edited (rename2_rule self.old.store old_directory old_name.now flags (Some new_directory) new_name.now).edits self.old) }
        ensures memory { OnErr result (flags ≢ Exchange) }
        ensures unchanged { OnErr result (self.new ≡ self.old) }
    {
        match flags {
            RenameFlags::Replace => self.rename(old_directory, old_name, new_directory, new_name),
            RenameFlags::NoReplace => self.rename(old_directory, old_name, new_directory, new_name),
            RenameFlags::Exchange => {
                self.exchange(old_directory, old_name, new_directory, new_name);
                Ok(())
            }
        }
    }
}
