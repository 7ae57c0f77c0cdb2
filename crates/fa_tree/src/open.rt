//! Directories that are open: all openings, and what was in a directory since one of them.

ghost use Rattle.std.specs.Prelude.{◌≡◌, ◌∷◌, ◌++◌, [], ℕ, List, None, Some, true, false, length, take, slice_get, IsTrue, IfSome, IfNone, IfOk, OnOk, OnErr};
ghost use Rattle.fa_tree.specs.declared.id.FileId.{FileId};
ghost use Rattle.fa_tree.specs.State.{OpenDirectory};
ghost use Rattle.fa_tree.specs.Alike.{IsInUse};
ghost use Rattle.fa_tree.specs.declared.slots.Place.{Place};
ghost use Rattle.fa_tree.specs.declared.slots.Slot.{Slot};
ghost use Rattle.std.specs.Fn.{FnReturnsAt};
ghost use Rattle.std.specs.FinMap as map;
ghost use Rattle.std.specs.FinMap.{get};
ghost use Rattle.std.specs.FinSet.{contains};
ghost use Rattle.std.specs.Option.{option_map};
ghost use Rattle.fa_tree.specs.parts.NameViews.{has_stayed, was_since, handles_shown};
ghost use Rattle.fa_tree.specs.parts.BirthParts.{AreOldPlaces};
ghost use Rattle.fa_tree.specs.parts.MemberParts.{members_of};
ghost use Rattle.fa_tree.specs.parts.OpenParts.{last_opening, open_of};
ghost use Rattle.fa_tree.specs.parts.SameParts.{IsMapWithin, IsOpenWithin, IsSlotWithin};

use crate::id::FileId;
use crate::in_use::InUse;
use crate::open_names::OpenNames;
use crate::slots::{Slot, Slots};
use fa_capture::Seed;
use fa_store::digest_of;
use indexmap::IndexMap;
use std::alloc::{AllocError, Global};
use std::marker::Model;

/// An opening takes about so many bytes, with its place in the list.
const OPENING_WEIGHT: u64 = 56;

/// The opening of a directory, by the request of this number.
#[derive(Clone, Copy)]
pub(crate) struct Opening {
    pub asked: u32,
    pub directory: FileId,
    /// How many places of the directory had ever had a name when it was opened.
    pub old_places: usize,
}

/// All openings of directories, the earlier before the later.
#[derive(Drop)]
pub(crate) struct Openings {
    list: Vec<Opening>,
    /// For each request that opened a directory the place of its last opening in the list.
    places: IndexMap<u32, usize, Seed>,
}

impl Model for Openings {
    ghost use Rattle.std.specs.Prelude.{List};
    ghost use Rattle.fa_tree.specs.declared.open.Opening.{Opening};

    ghost Value = { List Opening };

    ghost use Rattle.fa_tree.specs.parts.OpenParts.{AreLast};

    ghost view = { λ o. o.list.items };

    ghost invariant = { λ o. AreLast o.places.entries o.list.items };
}

impl Openings {
    /// No directory was opened. What is stored later takes memory from `alloc`.
    ///
    /// Takes no memory, in constant time.
    pub fn new(alloc: Global, seed: Seed) -> Self
        ensures { result ≡ [] }
    {
        Openings {
            list: Vec::new(alloc),
            places: IndexMap::with_hasher(alloc, seed),
        }
    }

    /// The same openings once more. Expected time and memory in their number.
    pub fn copy(&self) -> Result<Self, AllocError>
        ensures { IfOk result (λ openings. openings ≡ self.now) }
    {
        Ok(Openings {
            list: self.list.clone()?,
            places: self.places.clone()?,
        })
    }

    /// Whether the same directories are open by the same requests, each with its slots of names: the same was in each since, and
    /// the same files stayed.
    ///
    /// Takes no memory, and expected time in the requests, the places that each one's directory ever had, and the bytes of their
    /// names.
    pub fn is_same(&self, slots: &Slots, other: &Openings, other_slots: &Slots) -> bool
        ensures { IsTrue result → handles_shown slots.now.table.entries 0 map.empty self.now ≡ handles_shown other_slots.now.table.entries 0 map.empty other.now }
    {
        self.is_within(slots, other, other_slots) && other.is_within(other_slots, self, slots)
    }

    /// Whether each directory that is open by a request is open by it in others too, and the same was in it and stayed. Takes no
    /// memory, and time as [`is_same`](Openings::is_same) does.
    fn is_within(&self, slots: &Slots, other: &Openings, other_slots: &Slots) -> bool
        ensures { IsTrue result → IsMapWithin (handles_shown slots.now.table.entries 0 map.empty self.now) (handles_shown other_slots.now.table.entries 0 map.empty other.now) }
    {
        self.places
            .keys()
            .all(|asked| self.is_same_at(*asked, slots, other, other_slots))
    }

    /// Whether the request of this number opened a directory in both, and the same was in it since and stayed.
    ///
    /// Takes no memory, and expected time in the places that the directory ever had and the bytes of their names.
    fn is_same_at(&self, asked: u32, slots: &Slots, other: &Openings, other_slots: &Slots) -> bool
        ensures { IsTrue result → get (handles_shown slots.now.table.entries 0 map.empty self.now) asked ≡ get (handles_shown other_slots.now.table.entries 0 map.empty other.now) asked }
    {
        match (
            self.last_whole(asked, slots),
            other.last_whole(asked, other_slots),
        ) {
            (Some(names), Some(others)) => names.is_same(&others),
            _ => false,
        }
    }

    /// Whether of each opening that is of use the same is known in both, each with its slots of names.
    ///
    /// Takes no memory, and expected time in the requests, with a logarithm of the openings for each, the places that the directory of each
    /// one in use ever had, and the bytes of their names.
    pub fn is_alike(
        &self,
        slots: &Slots,
        other: &Openings,
        other_slots: &Slots,
        in_use: &InUse<'_>,
    ) -> bool
        ensures { IsTrue result → (opened : ℕ) → IsInUse in_use.now opened → get (handles_shown other_slots.now.table.entries 0 map.empty other.now) opened ≡ get (handles_shown slots.now.table.entries 0 map.empty self.now) opened }
    {
        self.is_alike_within(slots, other, other_slots, in_use)
            && other.is_alike_within(other_slots, self, slots, in_use)
    }

    /// Whether each directory that is open by a request, and of use, is open by it in others too, and the same was in it and stayed. Takes
    /// no memory, and time as [`is_alike`](Openings::is_alike) does.
    fn is_alike_within(
        &self,
        slots: &Slots,
        other: &Openings,
        other_slots: &Slots,
        in_use: &InUse<'_>,
    ) -> bool
        ensures { IsTrue result → (opened : ℕ) (h : OpenDirectory) → IsInUse in_use.now opened → get (handles_shown slots.now.table.entries 0 map.empty self.now) opened ≡ Some h → get (handles_shown other_slots.now.table.entries 0 map.empty other.now) opened ≡ Some h }
    {
        self.places.keys().all(|opened| {
            !in_use.has(*opened) || self.is_same_at(*opened, slots, other, other_slots)
        })
    }

    /// A number under the seed for the openings that are of use, with their slots of names: the same for such of which the same is known,
    /// in whichever order.
    ///
    /// Takes no memory, and time in the requests, with a logarithm of the openings for each, in the places that the directory of each one in
    /// use ever had, and in the bytes of their names.
    pub fn digest(&self, seed: Seed, slots: &Slots, in_use: &InUse<'_>) -> u64 {
        self.places.keys().fold(0_u64, |sum, opened| {
            sum.wrapping_add(self.digest_at(seed, *opened, slots, in_use))
        })
    }

    /// A number under the seed for the opening by this request, 0 where it is of no use.
    fn digest_at(&self, seed: Seed, opened: u32, slots: &Slots, in_use: &InUse<'_>) -> u64 {
        if !in_use.has(opened) {
            return 0;
        }
        match self.last_whole(opened, slots) {
            Some(names) => names.digest(seed, opened),
            None => 0,
        }
    }

    /// About so many bytes of memory are taken. Constant time.
    pub fn weight(&self) -> u64 {
        (self.list.len() as u64).saturating_mul(OPENING_WEIGHT)
    }

    /// How many there are.
    pub fn len(&self) -> usize
        ensures { result ≡ length self.now }
    {
        self.list.len()
    }

    /// One opening more. An error says that memory was refused, and nothing is changed.
    ///
    /// Expected constant time but for growing.
    pub fn push(&mut self, opening: Opening) -> Result<(), AllocError>
        ensures pushed { OnOk result (self.new ≡ self.old ++ opening ∷ []) }
        ensures unchanged { OnErr result (self.new ≡ self.old) }
    {
        let asked = opening.asked;
        let at = self.list.len();
        self.places.reserve(1)?;
        self.list.push(opening)?;
        self.places.insert(asked, at).unwrap();
        Ok(())
    }

    /// The last opening by the request of this number, if it opened a directory, with how many came before.
    ///
    /// Takes no memory, in expected constant time.
    fn find(&self, asked: u32) -> Option<(usize, Opening)>
        ensures last { option_map (λ f. (f.0, f.1.directory)) result ≡ last_opening asked 0 self.now }
        ensures there { IfSome result (λ f. slice_get self.now f.0 ≡ Some f.1) }
    {
        let at = *self.places.get(&asked)?;
        Some((at, self.list[at]))
    }

    /// The directory that the request of this number opened last, if it opened one, with the slots of its names.
    ///
    /// Takes no memory, in expected constant time.
    pub fn last<'a>(&self, asked: u32, slots: &'a Slots) -> Option<OpenNames<'a>>
        requires { AreOldPlaces slots.now.table.entries slots.now.members.table.entries self.now }
        ensures { option_map open_of result ≡ get (handles_shown slots.now.table.entries 0 map.empty self.now) asked }
    {
        let (at, opening) = self.find(asked)?;
        Some(OpenNames {
            slots,
            directory: opening.directory,
            at,
            old_places: opening.old_places,
        })
    }

    /// The same of any slots, of which all places of the directory are looked at.
    ///
    /// Takes no memory, in expected constant time.
    fn last_whole<'a>(&self, asked: u32, slots: &'a Slots) -> Option<OpenNames<'a>>
        ensures { option_map open_of result ≡ get (handles_shown slots.now.table.entries 0 map.empty self.now) asked }
    {
        let (at, opening) = self.find(asked)?;
        Some(OpenNames {
            slots,
            directory: opening.directory,
            at,
            old_places: slots.members.of(opening.directory).len(),
        })
    }
}

impl OpenNames<'_> {
    /// The directory that is open.
    ///
    /// Takes no memory, in constant time.
    pub fn directory(&self) -> FileId
        ensures { result ≡ (open_of self.now).directory }
    {
        self.directory
    }

    /// How many places the tree has or had, in all directories.
    ///
    /// Takes no memory, in constant time.
    pub fn places(&self) -> usize {
        self.slots.len()
    }

    /// Whether both are the same directory, the same names were in it since it was opened, and the same files stayed.
    ///
    /// Takes no memory, and expected time in the places that the directory ever had and the bytes of their names.
    fn is_same(&self, other: &OpenNames<'_>) -> bool
        ensures { IsTrue result → open_of self.now ≡ open_of other.now }
    {
        self.directory == other.directory && self.is_within(other) && other.is_within(self)
    }

    /// Whether each name that was in the directory since it was opened was in the other, and the same file stayed under it.
    ///
    /// Takes no memory, and expected time in the places that the directory ever had and the bytes of their names.
    fn is_within(&self, other: &OpenNames<'_>) -> bool
        ensures { IsTrue result → IsOpenWithin (open_of self.now) (open_of other.now) }
    {
        let indexes = self.slots.members.of(self.directory);
        indexes
            .iter()
            .all(|index| self.is_slot_within(*index, other))
    }

    /// A number under the seed for the directory that this request opened, the names that were in it since, and the files that stayed.
    /// Takes no memory, and time in the places that the directory ever had and the bytes of their names.
    fn digest(&self, seed: Seed, opened: u32) -> u64 {
        let indexes = self.slots.members.of(self.directory);
        indexes.iter().fold(
            digest_of(seed, &(opened, self.directory)),
            |sum, index| sum.wrapping_add(self.digest_of_slot(seed, opened, *index)),
        )
    }

    /// A number under the seed for the name of a place of the table, if it was in the directory since that was opened, and for its file, if
    /// it stayed; 0 if it was not.
    fn digest_of_slot(&self, seed: Seed, opened: u32, index: usize) -> u64 {
        match self.slots.table.get_index(index) {
            Some((place, slot)) => {
                if place.directory == self.directory && self.was_there(*slot) {
                    digest_of(seed, &(opened, place, self.file_stayed(*slot)))
                } else {
                    0
                }
            }
            None => 0,
        }
    }

    /// Whether the name of a place of the table was in the other directory, and the same file stayed under it, if it was in this
    /// one since it was opened.
    ///
    /// Takes no memory, in expected constant time but for reading the name.
    fn is_slot_within(&self, index: usize, other: &OpenNames<'_>) -> bool
        ensures { IsTrue result → IsSlotWithin self.now.directory self.now.at self.now.slots.now.table.entries index (open_of other.now) }
    {
        match self.slots.table.get_index(index) {
            Some((place, slot)) => {
                place.directory != self.directory
                    || !self.was_there(*slot)
                    || other.since(place.name.as_slice()) == (true, self.file_stayed(*slot))
            }
            None => true,
        }
    }

    /// Whether a name was in the directory at some moment since it was opened, and the file that stayed in it under that name
    /// since then, if one did.
    ///
    /// Takes no memory, in expected constant time but for reading the name.
    pub fn since(&self, name: &[u8]) -> (bool, Option<FileId>)
        ensures had { result.0 ≡ contains (open_of self.now).since name.now }
        ensures stayed { result.1 ≡ get (open_of self.now).stayed name.now }
    {
        match self.slots.get(self.directory, name) {
            Some(slot) => (self.was_there(slot), self.file_stayed(slot)),
            None => (false, None),
        }
    }

    /// The file that stayed in the directory under a name since it was opened, if one did.
    ///
    /// Takes no memory, in expected constant time but for reading the name.
    pub fn stayed(&self, name: &[u8]) -> Option<FileId>
        ensures { result ≡ get (open_of self.now).stayed name.now }
    {
        self.file_stayed(self.slots.get(self.directory, name)?)
    }

    /// The indexes of the places that may have a name whose file stayed since the directory was opened.
    fn oldest(&self) -> &[usize]
        ensures { result.now ≡ take self.now.old_places (members_of self.now.slots.now.members.table.entries self.now.directory) }
    {
        let members = self.slots.members.of(self.directory);
        members.get(..self.old_places).unwrap_or(members)
    }

    /// Whether the name of a slot was there at some moment since the directory was opened.
    fn was_there(&self, slot: Slot) -> bool
        ensures { result ≡ was_since self.now.at slot }
    {
        match slot {
            Slot::There { .. } => true,
            Slot::Gone { at } => self.at < at,
        }
    }

    /// The file of a slot, if it stayed since the directory was opened.
    fn file_stayed(&self, slot: Slot) -> Option<FileId>
        ensures { result ≡ has_stayed self.now.at slot }
    {
        match slot {
            Slot::There { file, born } => { if born <= self.at { Some(file) } else { None } }
            Slot::Gone { .. } => None,
        }
    }
}

impl<'t> OpenNames<'t> {
    /// A name of which this test holds, and whose file stayed in the directory since it was opened, if there is one.
    ///
    /// Takes no memory, and time in the places of the directory that had ever had a name when it was opened, and in the tests.
    pub fn find_stayed<F: Fn(&[u8]) -> bool>(&self, is_sought: F) -> Option<&'t [u8]>
        requires { F.IsAlwaysCallable is_sought }
        ensures found { IfSome result (λ name. (file : FileId) × (get (open_of self.now).stayed name.now ≡ Some file) × FnReturnsAt F.Fn is_sought name.now true) }
        ensures none { IfNone result ((name : List ℕ) (file : FileId) → get (open_of self.now).stayed name ≡ Some file → FnReturnsAt F.Fn is_sought name false) }
    {
        for index in self.oldest() {
            if let Some(name) = self.name_stayed(*index) {
                if is_sought(name) {
                    return Some(name);
                }
            }
        }
        None
    }

    /// The name of a place of the table, if it is one of the directory and its file stayed since that was opened.
    ///
    /// Takes no memory, in constant time.
    #[inline(always)]
    fn name_stayed(&self, index: usize) -> Option<&'t [u8]>
        ensures stayed { IfSome result (λ name. (file : FileId) × (get (open_of self.now).stayed name.now ≡ Some file)) }
        ensures named { IfSome result (λ name. (place : Place) (slot : Slot) → slice_get self.now.slots.now.table.entries index ≡ Some (place, slot) → place.name.items ≡ name.now) }
        ensures none { IfNone result ((place : Place) (slot : Slot) → slice_get self.now.slots.now.table.entries index ≡ Some (place, slot) → place.directory ≡ self.now.directory → has_stayed self.now.at slot ≡ None) }
    {
        let (place, slot) = self.slots.table.get_index(index)?;
        if place.directory == self.directory && self.file_stayed(*slot).is_some() {
            Some(place.name.as_slice())
        } else {
            None
        }
    }
}
