//! Listings that are orderly: what stayed in the directory is named once, and all of it before the end.

ghost use Rattle.std.specs.Prelude.{◌≡◌, ◌↔◌, ◌++◌, ◌≤◌, [], ℕ, List, Some, IsTrue, IfOk};
ghost use Rattle.fa_tree.specs.declared.id.FileId.{FileId};
ghost use Rattle.std.specs.FinMap.{get};
ghost use Rattle.fa_bodies.specs.Dirents.{PlainDirent};
ghost use Rattle.fa_bodies.specs.Listing.{entries_left};
ghost use Rattle.fa_ledger.specs.SoFar.{listing_so_far};
ghost use Rattle.fa_tree.specs.Directories.{room_for_any, times_listed, IsOrderly};
ghost use Rattle.fa_tree.specs.parts.OpenParts.{open_of};
ghost use Rattle.fa_tree.specs.parts.TallyParts.{Tallies, ListsAt};

use crate::open_names::OpenNames;
use crate::replay::Replay;
use crate::tally::Tally;
use fa_bodies::{Entries, MAX_NAME};
use std::alloc::AllocError;

/// The least size of an answer into which any entry fits: 128 bytes for its node (`struct fuse_entry_out`), 24 for itself
/// (`struct fuse_dirent`) and the longest name.
const ROOM_FOR_ANY: usize = 128 + 24 + MAX_NAME;

/// A replay keeps so many names of listings more than the tree has or had places: each of twenty handles that are listed in turn has
/// room for the names of a directory of common size.
const MORE_KEPT: usize = 16_384;

/// Whether an answer of this size has no entry, though it had room for any.
fn is_end(entries: Entries<'_>, size: u32) -> bool
    ensures { IsTrue result ↔ ((entries_left entries.entry ≡ []) × (room_for_any ≤ size)) }
{
    let mut left = entries;
    size as usize >= ROOM_FOR_ANY && left.next().is_none()
}

impl OpenNames<'_> {
    /// Whether no name that stayed was listed more than once.
    fn none_twice(&self, tally: &Tally<'_>) -> bool
        ensures { (times : List ℕ → ℕ) → Tallies tally.now times → IsTrue result ↔ ((name : List ℕ) (file : FileId) → get (open_of self.now).stayed name ≡ Some file → times name ≤ 1) }
    {
        tally.all_repeated(|name| self.stayed(name).is_none())
    }

    /// Whether each name that stayed was listed. Takes time in the places of the directory that had ever had a name when it was opened.
    fn all_listed(&self, tally: &Tally<'_>) -> bool
        ensures { (times : List ℕ → ℕ) → Tallies tally.now times → IsTrue result ↔ ((name : List ℕ) (file : FileId) → get (open_of self.now).stayed name ≡ Some file → 1 ≤ times name) }
    {
        self.find_stayed(|name| !tally.has(name)).is_none()
    }

    /// Whether each name that stayed was listed, if this is the end of the listing.
    fn is_whole(&self, tally: &Tally<'_>, entries: Entries<'_>, size: u32) -> bool
        ensures { (times : List ℕ → ℕ) → Tallies tally.now times → IsTrue result ↔ (entries_left entries.entry ≡ [] → room_for_any ≤ size → (name : List ℕ) (file : FileId) → get (open_of self.now).stayed name ≡ Some file → 1 ≤ times name) }
    {
        !is_end(entries, size) || self.all_listed(tally)
    }

    /// Whether a listing is orderly that goes on with these entries, where the tally has what was listed so far and then these.
    fn is_orderly(&self, tally: &Tally<'_>, entries: Entries<'_>, size: u32) -> bool
        ensures { (so_far : List PlainDirent) → Tallies tally.now (λ name. times_listed name (so_far ++ entries_left entries.entry)) → IsTrue result ↔ IsOrderly (open_of self.now) so_far (entries_left entries.entry) size }
    {
        self.none_twice(tally) && self.is_whole(tally, entries, size)
    }
}

/// Whether a listing that began at the start, without gaps, on a handle of its own is orderly after what was listed so far for
/// the call at this place, whose answer has these entries. An error says that memory was refused.
///
/// Expected time and memory in the entries and in what [`Replay::take`] looks at, and time in the names that were listed more
/// than once; at the end of the listing time in the places of the directory that had ever had a name when it was opened.
pub(crate) fn is_orderly<'c>(
    names: &OpenNames<'_>,
    replay: &mut Replay<'c>,
    k: usize,
    entries: Entries<'c>,
    size: u32,
) -> Result<bool, AllocError>
    requires { ListsAt replay.old.list k (entries_left entries) }
    ensures orderly { IfOk result (λ is. IsTrue is ↔ IsOrderly (open_of names.now) (listing_so_far replay.old.list k) (entries_left entries.entry) size) }
    ensures same { replay.new ≡ replay.old }
{
    let listed = replay.take(k, entries)?;
    let is = names.is_orderly(&listed.tally, entries, size);
    if is && is_end(entries, size) {
        // Nothing goes on from the end.
        return Ok(true);
    }
    replay.keep(listed, names.places().saturating_add(MORE_KEPT));
    Ok(is)
}
