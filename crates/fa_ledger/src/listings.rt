//! For each directory that is open: which answer on its handle has an entry with an offset last.

ghost use Rattle.std.specs.Prelude.{◌≡◌, ◌≢◌, ◌<◌, ◌≤◌, ◌+◌, ◌∷◌, ◌++◌, [], ℕ, cond, length, nat_eq, IfOk, IfSome, IsTrue, None, Some, OnOk, OnErr};
ghost use Rattle.indexmap.specs.IndexMap.{get, spare, IsUnchanged};
ghost use Rattle.fa_bodies.specs.Dirents.{dirent_shown};
ghost use Rattle.fa_bodies.specs.Listing.{entries_left};
ghost use Rattle.fa_ledger.specs.declared.key.Key.{Key};
ghost use Rattle.fa_ledger.specs.declared.listings.Place.{Place};
ghost use Rattle.fa_ledger.specs.Keys.{key_eq};
ghost use Rattle.fa_ledger.specs.Listings.{count_to};
ghost use Rattle.fa_ledger.specs.parts.ListingParts.{place_of, listed_shown, noted, noted_once, going_on, some_new, some_unreached, HasRoom, HasRoomIfNew, ListsNew, IsNotedBy};

use crate::call::Listing;
use crate::key::Key;
use fa_bodies::Entries;
use fa_capture::Seed;
use indexmap::IndexMap;
use std::alloc::{AllocError, Global};

/// Where an offset was last reached: by an entry of an answer.
#[derive(Clone, Copy, Debug)]
pub(crate) struct Place {
    /// The number of the request that was answered.
    pub asked: u32,
    /// How many entries of that answer come up to and with the first that has the offset.
    pub count: u32,
    /// Whether that request's listing is adrift.
    pub adrift: bool,
}

/// The entries that an answer lists on a file handle that is open still.
#[derive(Clone, Copy, Debug)]
pub(crate) struct ListedOn<'a> {
    /// The key of the handle.
    pub key: Key,
    /// Whether the listing of the request is adrift.
    pub adrift: bool,
    /// The entries.
    pub entries: Entries<'a>,
    /// How many there are, at least one.
    pub count: usize,
}

/// The offsets that were reached on one handle.
#[derive(Drop)]
pub(crate) struct Offsets {
    pub places: IndexMap<u64, Place, Seed>,
}

/// The offsets that were reached, by the keys that are open.
#[derive(Drop)]
pub(crate) struct Listings {
    alloc: Global,
    seed: Seed,
    pub by_key: IndexMap<Key, Offsets, Seed>,
}

impl Offsets {
    /// No offset was reached, and there is room for so many.
    fn with_capacity(alloc: Global, seed: Seed, capacity: usize) -> Result<Self, AllocError>
        ensures none { IfOk result (λ offsets. offsets.places.entries ≡ []) }
        ensures room { IfOk result (λ offsets. capacity ≤ spare offsets.places) }
    {
        let places = IndexMap::with_capacity_and_hasher(alloc, capacity, seed)?;
        Ok(Offsets { places })
    }

    /// Notes the answer to the request of this number, whose listing is adrift or not. Of the entries with one offset the
    /// first counts.
    fn note(&mut self, asked: u32, adrift: bool, listing: Entries<'_>)
        requires fresh { (offset : ℕ) (place : Place) → get nat_eq self.old.places offset ≡ Some place → place.asked ≢ asked }
        requires room { IsTrue (some_new self.old.places.entries (entries_left listing)) → length (entries_left listing) ≤ spare self.old.places }
        requires few { length (entries_left listing) ≤ 4294967295 }
        ensures { (offset : ℕ) → get nat_eq self.new.places offset ≡ noted asked adrift (count_to offset (entries_left listing.entry)) (get nat_eq self.old.places offset) }
    {
        let mut count = 0;
        for dirent in listing {
            count += 1;
            self.note_one(
                dirent.off,
                Place {
                    asked,
                    count,
                    adrift,
                },
            );
        }
    }

    /// Notes an entry with this offset, unless one of the same answer is noted.
    fn note_one(&mut self, offset: u64, place: Place)
        requires { get nat_eq self.old.places offset ≡ None → 0 < spare self.old.places }
        ensures noted { (other : ℕ) → get nat_eq self.new.places other ≡ cond (nat_eq offset other) (noted_once place (get nat_eq self.old.places offset)) (get nat_eq self.old.places other) }
        ensures room { spare self.old.places ≤ spare self.new.places + 1 }
    {
        let old = self.places.get(&offset);
        if old.is_none_or(|old| old.asked != place.asked) {
            self.places.insert(offset, place).unwrap();
        }
    }
}

impl Listings {
    /// No offset was reached. What is stored later takes memory from `alloc`.
    pub fn new(alloc: Global, seed: Seed) -> Self
        ensures { result.by_key.entries ≡ [] }
    {
        Listings {
            alloc,
            seed,
            by_key: IndexMap::with_hasher(alloc, seed),
        }
    }

    /// Where the offset was last reached on the handle of this key, if it was.
    fn place(&self, key: &Key, offset: u64) -> Option<Place>
        ensures { result ≡ place_of self.now.by_key.entries key.now offset }
    {
        self.by_key.get(key)?.places.get(&offset).copied()
    }

    /// What a request on the handle of this key goes on from that begins at this offset.
    pub fn listing(&self, key: &Key, offset: u64, shared: bool) -> Listing
        ensures { result ≡ going_on offset shared (place_of self.now.by_key.entries key.now offset) }
    {
        if offset == 0 {
            return Listing {
                before: None,
                adrift: false,
                shared,
            };
        }
        match self.place(key, offset) {
            Some(place) => Listing {
                before: Some((place.asked, place.count)),
                adrift: place.adrift,
                shared,
            },
            None => Listing {
                before: None,
                adrift: true,
                shared,
            },
        }
    }

    /// Makes room for what an answer lists, if some offset of it is new, so that it can be noted without memory.
    #[inline(always)]
    pub fn reserve(&mut self, listed: &Option<ListedOn<'_>>) -> Result<(), AllocError>
        ensures same { (other : Key) (offset : ℕ) → place_of self.new.by_key.entries other offset ≡ place_of self.old.by_key.entries other offset }
        ensures room { OnOk result (HasRoomIfNew self.new.by_key listed.now) }
        ensures unchanged { OnErr result (listed_shown self.new.by_key.entries ≡ listed_shown self.old.by_key.entries) }
        ensures wanted { OnErr result (ListsNew self.old.by_key.entries listed.now) }
    {
        match listed {
            Some(listed) => self.reserve_listed(*listed),
            None => Ok(()),
        }
    }

    /// Makes room for what an answer lists, if some offset of it is new. That comes by value, so that its caller's need not lie in memory.
    fn reserve_listed(&mut self, listed: ListedOn<'_>) -> Result<(), AllocError>
        ensures same { (other : Key) (offset : ℕ) → place_of self.new.by_key.entries other offset ≡ place_of self.old.by_key.entries other offset }
        ensures room { OnOk result (HasRoomIfNew self.new.by_key (Some listed.entry)) }
        ensures unchanged { OnErr result (listed_shown self.new.by_key.entries ≡ listed_shown self.old.by_key.entries) }
        ensures wanted { OnErr result (ListsNew self.old.by_key.entries (Some listed.entry)) }
    {
        if self.has_new(&listed) {
            self.reserve_on(&listed.key, listed.count)?;
        }
        Ok(())
    }

    /// Whether an answer lists an entry with an offset that was not reached on its handle.
    fn has_new(&self, listed: &ListedOn<'_>) -> bool
        ensures { result ≡ some_unreached self.now.by_key.entries listed.now.key (entries_left listed.now.entries) }
    {
        for dirent in listed.entries {
            if self.place(&listed.key, dirent.off).is_none() {
                return true;
            }
        }
        false
    }

    /// Notes what the answer to the request of this number lists, if anything.
    #[inline(always)]
    pub fn note(&mut self, asked: u32, listed: Option<ListedOn<'_>>)
        requires fresh { (key : Key) (offset : ℕ) (place : Place) → place_of self.old.by_key.entries key offset ≡ Some place → place.asked ≢ asked }
        requires room { HasRoomIfNew self.old.by_key listed }
        requires counted { IfSome listed (λ l. l.count ≡ length (entries_left l.entries)) }
        requires few { IfSome listed (λ l. l.count ≤ 4294967295) }
        ensures { IsNotedBy asked listed.entry self.old.by_key.entries self.new.by_key.entries }
    {
        if let Some(listed) = listed {
            self.note_on(listed.key, asked, listed.adrift, listed.entries);
        }
    }

    /// Makes room for so many offsets more on the handle of this key.
    fn reserve_on(&mut self, key: &Key, additional: usize) -> Result<(), AllocError>
        ensures same { (other : Key) (offset : ℕ) → place_of self.new.by_key.entries other offset ≡ place_of self.old.by_key.entries other offset }
        ensures room { OnOk result (HasRoom self.new.by_key key.now additional) }
        ensures unchanged { OnErr result (listed_shown self.new.by_key.entries ≡ listed_shown self.old.by_key.entries) }
    {
        match self.by_key.get_mut(key) {
            Some(offsets) => offsets.places.reserve(additional),
            None => {
                let offsets = Offsets::with_capacity(self.alloc, self.seed, additional)?;
                self.by_key.insert(*key, offsets)?;
                Ok(())
            }
        }
    }

    /// Notes the answer to the request of this number on the handle of this key.
    fn note_on(&mut self, key: Key, asked: u32, adrift: bool, listing: Entries<'_>)
        requires fresh { (offset : ℕ) (place : Place) → place_of self.old.by_key.entries key offset ≡ Some place → place.asked ≢ asked }
        requires room { IsTrue (some_unreached self.old.by_key.entries key (entries_left listing)) → HasRoom self.old.by_key key (length (entries_left listing)) }
        requires few { length (entries_left listing) ≤ 4294967295 }
        ensures { (other : Key) (offset : ℕ) → place_of self.new.by_key.entries other offset ≡ cond (key_eq key other) (noted asked adrift (count_to offset (entries_left listing.entry)) (place_of self.old.by_key.entries other offset)) (place_of self.old.by_key.entries other offset) }
    {
        match self.by_key.get_mut(&key) {
            Some(offsets) => offsets.note(asked, adrift, listing),
            // Without a table there is no entry: each offset would be new, and have room.
            None => {}
        }
    }

    /// Forgets what was reached on the handle of this key, which is closed.
    pub fn close(&mut self, key: &Key)
        ensures { (other : Key) (offset : ℕ) → place_of self.new.by_key.entries other offset ≡ cond (key_eq key.now other) None (place_of self.old.by_key.entries other offset) }
    {
        self.by_key.swap_remove(key);
    }
}

/// How many entries a listing has.
pub(crate) fn entries_count(listing: Entries<'_>) -> usize
    ensures { result ≡ length (entries_left listing.entry) }
{
    listing.count()
}
