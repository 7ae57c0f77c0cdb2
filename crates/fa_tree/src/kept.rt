//! What was listed so far on the handles that are being listed.

ghost use Rattle.std.specs.Prelude.{◌≡◌, ◌⊎◌, ◌+◌, ◌≤◌, ℕ, List, nat_eq, [], Some};
ghost use Rattle.std.specs.Map.{lookup};
ghost use Rattle.fa_tree.specs.declared.kept.KeptListing.{KeptListing as TheListing};
ghost use Rattle.fa_tree.specs.parts.KeptParts.{AreAmong, size_of_listing, size_of_listings};
ghost use Rattle.fa_tree.specs.parts.TallyParts.{Tallies, TalliesAt};

use crate::tally::{Reach, Tally};
use fa_capture::Seed;
use indexmap::IndexMap;
use std::alloc::Global;

/// A listing takes as much memory as so many names, beside its own.
const PER_LISTING: usize = 16;

/// The names that were listed so far for a call, and then by its own answer.
#[derive(Drop)]
pub(crate) struct KeptListing<'c> {
    /// The place of the call.
    pub at: usize,
    pub tally: Tally<'c>,
    /// How far the tally reached before the answer.
    pub before: Reach,
    /// How many entries the answer has.
    pub count: usize,
}

impl<'c> KeptListing<'c> {
    /// What was listed so far for the call, without its answer. Takes no memory, and time in the names that the answer listed.
    pub fn without_answer(self) -> Tally<'c>
        ensures { (times : List ℕ → ℕ) → TalliesAt self.entry.tally self.entry.before times → Tallies result times }
    {
        let mut tally = self.tally;
        tally.go_back(self.before);
        tally
    }

    /// For how many names it takes room: its own, and [`PER_LISTING`]. Takes no memory, in constant time.
    fn size(&self) -> usize
        ensures { result ≡ size_of_listing self.now }
    {
        self.tally.len() + PER_LISTING
    }
}

/// For handles of directories, by the numbers of the requests that opened them, what was listed so far for a call on them.
///
/// No call tells that a handle is closed, so what is kept for all of them would grow without end. Whoever keeps something says for
/// how many names there is room in all, where each listing counts as some more.
#[derive(Drop)]
pub(crate) struct Kept<'c> {
    pub by_handle: IndexMap<u32, KeptListing<'c>, Seed>,
    /// For how many names it takes room.
    pub size: usize,
    ghost counted: { size_of_listings by_handle.entries ≤ size },
}

impl<'c> Kept<'c> {
    /// Nothing yet. The table takes memory from `alloc` later.
    ///
    /// Takes no memory, in constant time.
    pub fn new(alloc: Global, seed: Seed) -> Self
        ensures { result.by_handle.entries ≡ [] }
    {
        Kept {
            by_handle: IndexMap::with_hasher(alloc, seed),
            size: 0,
        }
    }

    /// Takes away what is kept for a handle, if it is.
    ///
    /// Takes no memory, in expected constant time.
    pub fn take(&mut self, handle: u32) -> Option<KeptListing<'c>>
        ensures taken { result ≡ lookup (nat_eq handle) self.old.by_handle.entries }
        ensures left { AreAmong self.new.by_handle.entries self.old.by_handle.entries }
    {
        let listed = self.by_handle.swap_remove(&handle)?;
        self.size -= listed.size();
        Some(listed)
    }

    /// Keeps a listing on a handle for which nothing is kept, where there is room for so many names in all. Where there is no room
    /// beside the others, these go. Where there is none without them, or memory is refused, it is not kept.
    ///
    /// Expected constant time, but for growing by a handle, and for giving back the names that go.
    pub fn put(&mut self, handle: u32, listing: KeptListing<'c>, room: usize)
        ensures kept { (other : ℕ) (kept : TheListing) → lookup (nat_eq other) self.new.by_handle.entries ≡ Some kept → ((handle ≡ other) × (listing.entry ≡ kept)) ⊎ (lookup (nat_eq other) self.old.by_handle.entries ≡ Some kept) }
        ensures few { size_of_listings self.new.by_handle.entries ≤ room }
    {
        self.make_room(listing.size(), room);
        self.put_beside(handle, listing, room);
    }

    /// Keeps a listing beside the others, where nothing is kept for its handle and there is room for so many names in all. Elsewhere,
    /// or where memory is refused, it is not kept.
    ///
    /// Expected constant time, but for growing by a handle.
    pub fn put_beside(&mut self, handle: u32, listing: KeptListing<'c>, room: usize)
        ensures kept { (other : ℕ) (kept : TheListing) → lookup (nat_eq other) self.new.by_handle.entries ≡ Some kept → ((handle ≡ other) × (listing.entry ≡ kept)) ⊎ (lookup (nat_eq other) self.old.by_handle.entries ≡ Some kept) }
        ensures few { self.old.size ≤ room → size_of_listings self.new.by_handle.entries ≤ room }
    {
        let size = listing.size();
        if size > room
            || self.size > room.saturating_sub(size)
            || self.by_handle.contains_key(&handle)
        {
            return;
        }
        match self.by_handle.insert(handle, listing) {
            Ok(_) => self.size += size,
            Err(_) => {}
        }
    }

    /// Where there is no room for a listing of this size beside them, all that are kept go.
    ///
    /// Takes no memory, in constant time, but for giving back the names that go.
    fn make_room(&mut self, size: usize, room: usize)
        ensures room { (self.new.size ≡ 0) ⊎ (self.new.size + size ≤ room) }
        ensures left { AreAmong self.new.by_handle.entries self.old.by_handle.entries }
    {
        if self.size > room.saturating_sub(size) {
            self.by_handle.clear();
            self.size = 0;
        }
    }
}
