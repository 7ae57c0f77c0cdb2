//! What the entries of a listing say of names, of types and of nodes.

ghost use Rattle.std.specs.Prelude.{◌≡◌, ◌≢◌, ◌↔◌, ◌*◌, ◌^◌, [], All, not, Some, IsTrue, IfOk};
ghost use Rattle.std.specs.FinMap as map;
ghost use Rattle.fa_bodies.specs.Dirents.{dirent_shown};
ghost use Rattle.fa_bodies.specs.Listing.{entries_left};
ghost use Rattle.fa_bodies.specs.Modes.{mode_bits, type_number, HasFileType};
ghost use Rattle.fa_ledger.specs.Counts.{is_dots, nodes_of_entry};
ghost use Rattle.fa_tree.specs.State.{File};
ghost use Rattle.fa_tree.specs.Directories.{judged, LooksUp, IsTypeOf, IsThereIfLookedUp, IsTypedIfLookedUp};
ghost use Rattle.fa_tree.specs.Directories.{files_listed};
ghost use Rattle.fa_tree.specs.Bindings.{bound};
ghost use Rattle.fa_tree.specs.parts.ListingParts.{IsTypedNow};

use crate::id::FileId;
use crate::stored::Stored;
use fa_bodies::{Dirent, Entries, Kind, Mode};
use fa_ledger::NodeName;
use std::alloc::AllocError;

/// Whether an entry is judged: all but `.` and `..`.
pub(crate) fn is_judged(dirent: &Dirent<'_>) -> bool
    ensures { result ≡ not (is_dots (dirent_shown dirent.now).name) }
{
    !(dirent.name == b".".as_slice() || dirent.name == b"..".as_slice())
}

/// Whether an entry looks its name up: it has a node id other than 0.
fn looks_up(dirent: &Dirent<'_>) -> bool
    ensures { IsTrue result ↔ LooksUp (dirent_shown dirent.now) }
{
    match &dirent.entry {
        Some(entry) => entry.nodeid != 0,
        None => false,
    }
}

/// Whether an entry gives a node: it looks its name up, and this is not `.` or `..`.
fn gives_node(dirent: &Dirent<'_>) -> bool
    ensures { IsTrue result ↔ (nodes_of_entry (dirent_shown dirent.now).entry (dirent_shown dirent.now).name ≢ []) }
{
    is_judged(dirent) && looks_up(dirent)
}

/// Whether a number is that of a type (`type` of `struct fuse_dirent`): the type bits of a mode, shifted right by 12.
fn is_number_of(number: u32, kind: Kind) -> bool
    ensures { IsTrue result ↔ (number * 2 ^ 12 ≡ type_number kind) }
{
    number < 16 && Mode::from_bits(number << 12).file_type() == Some(kind)
}

/// Whether a mode tells this type.
fn tells(mode: Mode, kind: Kind) -> bool
    ensures { IsTrue result ↔ HasFileType (mode_bits mode) (Some kind) }
{
    mode.file_type() == Some(kind)
}

impl Stored {
    /// Whether the type of an entry is 0 or that of a file.
    pub(crate) fn is_type_of(&self, file: FileId, dirent: &Dirent<'_>) -> bool
        ensures { IsTrue result ↔ IsTypeOf self.now.store file (dirent_shown dirent.now) }
    {
        dirent.kind == 0 || self.has_type(file, dirent.kind)
    }

    /// Whether there is this file, and its type has the number `number`.
    fn has_type(&self, file: FileId, number: u32) -> bool
        ensures { IsTrue result ↔ ((f : File) × (map.get self.now.store.files file ≡ Some f) × (number * 2 ^ 12 ≡ type_number f.kind)) }
    {
        match self.kind(file) {
            Some(kind) => is_number_of(number, kind),
            None => false,
        }
    }

    /// Whether the mode of attributes tells the type of a file, if it is there.
    fn is_typed(&self, file: FileId, mode: Mode) -> bool
        ensures { IsTrue result ↔ ((f : File) → map.get self.now.store.files file ≡ Some f → HasFileType (mode_bits mode) (Some f.kind)) }
    {
        match self.kind(file) {
            Some(kind) => tells(mode, kind),
            None => true,
        }
    }

    /// Whether the name of an entry is in the directory now, if the entry looks it up.
    pub(crate) fn is_there_if_looked_up(&self, directory: FileId, dirent: &Dirent<'_>) -> bool
        ensures { IsTrue result ↔ IsThereIfLookedUp self.now.store directory (dirent_shown dirent.now) }
    {
        !looks_up(dirent) || self.find(directory, dirent.name).is_some()
    }

    /// Whether the type in the attributes of an entry is that of the file which has its name, if it looks that up.
    fn is_typed_if_looked_up(&self, directory: FileId, dirent: &Dirent<'_>) -> bool
        ensures { IsTrue result ↔ IsTypedIfLookedUp self.now.store directory (dirent_shown dirent.now) }
    {
        match &dirent.entry {
            Some(entry) => {
                entry.nodeid == 0
                    || match self.find(directory, dirent.name) {
                        Some(file) => self.is_typed(file, entry.attr.mode),
                        None => true,
                    }
            }
            None => true,
        }
    }

    /// The same, as one fact.
    fn is_typed_now(&self, directory: FileId, dirent: &Dirent<'_>) -> bool
        ensures { IsTrue result ↔ IsTypedNow self.now.store directory (dirent_shown dirent.now) }
    {
        self.is_typed_if_looked_up(directory, dirent)
    }

    /// Whether the types in the attributes of the entries fit. In constant time where they are those of a READDIR, which have none.
    pub(crate) fn all_typed(&self, directory: FileId, mut entries: Entries<'_>) -> bool
        ensures { IsTrue result ↔ All (IsTypedIfLookedUp self.now.store directory) (judged (entries_left entries.entry)) }
    {
        if !entries.is_plus() {
            return true;
        }
        entries.all(|dirent| !is_judged(&dirent) || self.is_typed_now(directory, &dirent))
    }

    /// The names of nodes that a listing gives, each with the file of its entry's name.
    pub(crate) fn nodes_listed(
        &self,
        directory: FileId,
        names: &[NodeName],
        entries: Entries<'_>,
    ) -> Result<Vec<(NodeName, FileId)>, AllocError>
        ensures { IfOk result (λ given. given.items ≡ bound names.now (files_listed self.now.store directory (entries_left entries.entry))) }
    {
        let mut given = Vec::new(self.alloc);
        let mut left = names;
        if left.is_empty() {
            return Ok(given);
        }
        for dirent in entries {
            if gives_node(&dirent) {
                let Some((name, rest)) = left.split_first() else {
                    return Ok(given);
                };
                left = rest;
                if let Some(file) = self.find(directory, dirent.name) {
                    given.push((*name, file))?;
                }
            }
        }
        Ok(given)
    }
}
