//! The table of places: for each place that a name was put at, the slot that says what is there.

ghost use Rattle.std.specs.Prelude.{◌≡◌, ◌≢◌, ◌↔◌, ◌<◌, ◌^◌, [], length, ◌==◌, IsTrue, Some, None, IfSome, IfNone, IfOk, OnOk, OnErr};
ghost use Rattle.fa_tree.specs.declared.id.FileId.{FileId};
ghost use Rattle.fa_tree.specs.declared.slots.Slot.TheVariants.{There};
ghost use Rattle.std.specs.FinMap as map;
ghost use Rattle.std.specs.Map.{keys_of};
ghost use Rattle.std.specs.Option.{option_map};
ghost use Rattle.std.specs.declared.cmp.Ordering.TheVariants.{Less, Greater};
ghost use Rattle.fa_tree.specs.State as state;
ghost use Rattle.fa_tree.specs.State.{place_cmp};
ghost use Rattle.fa_tree.specs.parts.BirthParts.{AreSamePlaces, ArePlacesKept};
ghost use Rattle.fa_tree.specs.parts.SlotParts.{place_of, slot_at, gone_at, file_in, names_shown, IsChangedAt, HaveSameSlots, AreAllThere, IsBefore};
ghost use Rattle.fa_tree.specs.parts.MemberParts.{AreMembers};
ghost use Rattle.fa_tree.specs.parts.SameParts.{IsMapWithin};

use crate::id::FileId;
use crate::members::Members;
use crate::name_hash::feed_name;
use fa_capture::Seed;
use fa_store::digest_of;
use indexmap::{Equivalent, IndexMap};
use std::alloc::{AllocError, Global};
use std::hash::{Hash, Hasher};

/// A place takes about so many bytes, with its slot and its index among those of its directory, beside those of its name.
const PLACE_WEIGHT: u64 = 96;

/// A place: a directory, and a name in it.
#[derive(Drop, PartialEq, Eq)]
pub(crate) struct Place {
    pub directory: FileId,
    pub name: Vec<u8>,
}

/// A place whose name is borrowed, to look a [`Place`] up without memory.
#[derive(Clone, Copy, PartialEq, Eq)]
pub(crate) struct PlaceAt<'a> {
    pub directory: FileId,
    pub name: &'a [u8],
}

/// What is at a place. Its stamps count openings of directories, of the whole tree.
#[derive(Clone, Copy)]
pub(crate) enum Slot {
    /// The place has a name, for this file, since so many directories had been opened.
    There { file: FileId, born: usize },
    /// The place had a name until so many directories had been opened.
    Gone { at: usize },
}

/// The slots, by their places.
#[derive(Drop)]
pub(crate) struct Slots {
    alloc: Global,
    /// No entry is ever removed, so that a place keeps its index.
    pub table: IndexMap<Place, Slot, Seed>,
    /// For each directory the indexes of its places in the table.
    pub members: Members,
    /// Set while no name went: a place that has no name has no slot then.
    all_there: bool,
    ghost complete: { AreMembers (keys_of table.entries) members.table.entries },
    ghost there: { IsTrue all_there → AreAllThere table.entries },
}

impl Hash for Place {
    ghost use Rattle.fa_tree.specs.parts.SlotParts.{place_of};
    ghost use Rattle.fa_tree.specs.parts.PlaceLaws.{place_fed, fed_alike};

    ghost hash_input = { λ p. place_fed (place_of p) };

    ghost respects_eq = { λ x y equal. fed_alike (place_of x) (place_of y) equal };

    fn hash<H: Hasher>(&self, state: &mut H) {
        self.directory.hash(state);
        feed_name(self.name.as_slice(), state);
    }
}

impl Hash for PlaceAt<'_> {
    ghost use Rattle.fa_tree.specs.parts.PlaceLaws.{place_fed, fed_alike};

    ghost hash_input = { λ p. place_fed (p.directory, p.name.now) };

    ghost respects_eq = { λ x y equal. fed_alike (x.directory, x.name.now) (y.directory, y.name.now) equal };

    fn hash<H: Hasher>(&self, state: &mut H) {
        self.directory.hash(state);
        feed_name(self.name, state);
    }
}

impl Clone for Place {
    ghost use Rattle.fa_tree.specs.parts.SlotParts.{place_of};

    ghost is_clone = { λ place copy. place_of copy ≡ place_of place };

    /// The same place, its name in memory of its own. Time and memory in the bytes of the name.
    fn clone(&self) -> Result<Self, AllocError> {
        Ok(Place {
            directory: self.directory,
            name: Vec::from_slice(*self.name.allocator(), self.name.as_slice())?,
        })
    }
}

impl Equivalent<Place> for &PlaceAt<'_> {
    ghost use Rattle.std.proofs.Common.{ap};
    ghost use Rattle.fa_tree.specs.parts.SlotParts.{is_at, place_of};
    ghost use Rattle.fa_tree.specs.parts.PlaceLaws.{same_place, place_fed, alike_test};

    ghost equivalent = { λ q. is_at (q.now.directory, q.now.name.now) };

    ghost respects_hash = { λ q k is. ap place_fed (same_place (q.now.directory, q.now.name.now) (place_of k) is) };

    ghost respects_eq = { λ q x y. alike_test (q.now.directory, q.now.name.now) (place_of x) (place_of y) };

    fn equivalent(&self, key: &Place) -> bool {
        self.directory == key.directory && *self.name == *key.name.as_slice()
    }
}

/// Whether a place comes before another, if there is another.
fn comes_before(place: &Place, other: Option<&Place>) -> bool
    ensures { IsTrue result ↔ IsBefore place.now (option_map (λ p. p.now) other.entry) }
{
    match other {
        Some(other) => is_less(place, other),
        None => true,
    }
}

/// Whether a place is less than another: its directory is, or that is the same and its name is.
fn is_less(place: &Place, other: &Place) -> bool
    ensures { IsTrue result ↔ (place_cmp (place_of place.now) (place_of other.now) ≡ Less) }
{
    let (made_by, number) = place.directory.rank();
    let (other_made_by, other_number) = other.directory.rank();
    let name = place.name.as_slice();
    made_by
        .cmp(&other_made_by)
        .then(number.cmp(&other_number))
        .then(name.cmp(other.name.as_slice()))
        .is_lt()
}

impl Slots {
    /// No place has a slot. The table takes memory from `alloc` later.
    pub fn new(alloc: Global, seed: Seed) -> Self
        ensures { result.table.entries ≡ [] }
    {
        Slots {
            alloc,
            table: IndexMap::with_hasher(alloc, seed),
            members: Members::new(alloc, seed),
            all_there: true,
        }
    }

    /// The same slots once more, in the same order. Expected time and memory in the places and the bytes of their names.
    pub fn copy(&self) -> Result<Self, AllocError>
        ensures slots { IfOk result (λ slots. HaveSameSlots slots.table.entries self.now.table.entries) }
        ensures places { IfOk result (λ slots. AreSamePlaces self.now.table.entries self.now.members.table.entries slots.table.entries slots.members.table.entries) }
    {
        let members = self.members.copy()?;
        let table = self.table.clone()?;
        Ok(Slots {
            alloc: self.alloc,
            table,
            members,
            all_there: self.all_there,
        })
    }

    /// The slot of a place, if it has one. Takes no memory, in expected constant time.
    pub fn get(&self, directory: FileId, name: &[u8]) -> Option<Slot>
        ensures { result ≡ slot_at self.now.table.entries (directory, name.now) }
    {
        self.table.get(&PlaceAt { directory, name }).copied()
    }

    /// Whether both have the same names, for the same files, whatever was at their places before. Takes no memory, and expected
    /// time in the places and the bytes of their names.
    pub fn is_same(&self, other: &Slots) -> bool
        ensures { IsTrue result → names_shown self.now.table.entries ≡ names_shown other.now.table.entries }
    {
        self.is_within(other) && other.is_within(self)
    }

    /// Whether each name that there is is for the same file in others. Takes no memory, and expected time in the places and the
    /// bytes of their names.
    fn is_within(&self, other: &Slots) -> bool
        ensures { IsTrue result → IsMapWithin (names_shown self.now.table.entries) (names_shown other.now.table.entries) }
    {
        self.table
            .iter()
            .all(|(place, slot)| other.has_name_of(place, *slot))
    }

    /// Whether a place has a name for the file that this slot says, if it says one. Takes no memory, in expected constant time but
    /// for reading the name.
    fn has_name_of(&self, place: &Place, slot: Slot) -> bool
        ensures { IsTrue result → (file : FileId) → file_in slot ≡ Some file → map.get (names_shown self.now.table.entries) (place_of place.now) ≡ Some file }
    {
        match slot {
            Slot::There { file, .. } => {
                self.file_at(place.directory, place.name.as_slice()) == Some(file)
            }
            Slot::Gone { .. } => true,
        }
    }

    /// The file of the name at a place, if there is one. Takes no memory, in expected constant time but for reading the name.
    fn file_at(&self, directory: FileId, name: &[u8]) -> Option<FileId>
        ensures { result ≡ map.get (names_shown self.now.table.entries) (directory, name.now) }
    {
        self.get(directory, name)?.file()
    }

    /// The least place that has a name for a file, if one has: in the order of directories, and in a directory of names. Takes no
    /// memory, and time in the places, and in the bytes of the names for the file.
    pub fn least_of(&self, file: FileId) -> Option<&Place>
        ensures found { IfSome result (λ place. map.get (names_shown self.now.table.entries) (place_of place.now) ≡ Some file) }
        ensures least { IfSome result (λ place. (other : state.Place) → map.get (names_shown self.now.table.entries) other ≡ Some file → place_cmp (place_of place.now) other ≢ Greater) }
        ensures none { IfNone result ((place : state.Place) → map.get (names_shown self.now.table.entries) place ≡ Some file → ⊥) }
    {
        let mut least: Option<&Place> = None;
        for index in 0..self.table.len() {
            match self.table.get_index(index) {
                Some((place, slot)) => {
                    if slot.is_for(file) && comes_before(place, least) {
                        least = Some(place);
                    }
                }
                None => {}
            }
        }
        least
    }

    /// A number under the seed for the names and their files, the same for the same ones, whatever was at their places before. Takes no
    /// memory, and time in the places and the bytes of their names.
    pub fn digest(&self, seed: Seed) -> u64 {
        self.table
            .iter()
            .fold(0_u64, |sum, (place, slot)| match slot.file() {
                Some(file) => sum.wrapping_add(digest_of(seed, &(place, file))),
                None => sum,
            })
    }

    /// About so many bytes of memory are taken, those of the members among them. Time in the places.
    pub fn weight(&self) -> u64 {
        self.table.keys().fold(0_u64, |sum, place| {
            sum.saturating_add(PLACE_WEIGHT)
                .saturating_add(place.name.len() as u64)
        })
    }

    /// How many there are.
    pub fn len(&self) -> usize
        ensures len { result ≡ length self.now.table.entries }
        ensures small { result < 2 ^ 63 }
    {
        self.table.len()
    }

    /// Puts a name at a place, for a file, and answers the file that the place had a name for, if it had one; `born` is how many
    /// directories had been opened. An error says that memory was refused for a place that had no slot, and nothing is changed.
    ///
    /// The name is copied where the place had no slot. Expected constant time, but for what growing costs.
    pub fn insert(
        &mut self,
        directory: FileId,
        name: &[u8],
        file: FileId,
        born: usize,
    ) -> Result<Option<FileId>, AllocError>
        ensures file { IfOk result (λ file. file ≡ map.get (names_shown self.old.table.entries) (directory, name.now)) }
        ensures put { OnOk result (IsChangedAt (directory, name.now) (λ _. Some (There file born)) self.old.table.entries self.new.table.entries) }
        ensures places { OnOk result (ArePlacesKept (directory, name.now) self.old.table.entries self.old.members.table.entries self.new.table.entries self.new.members.table.entries) }
        ensures kept { OnErr result (AreSamePlaces self.old.table.entries self.old.members.table.entries self.new.table.entries self.new.members.table.entries) }
        ensures unchanged { OnErr result (self.new.table.entries ≡ self.old.table.entries) }
    {
        match self.table.get_mut(&PlaceAt { directory, name }) {
            Some(slot) => {
                let old = slot.file();
                *slot = Slot::There { file, born };
                Ok(old)
            }
            None => {
                self.insert_new(directory, name, file, born)?;
                Ok(None)
            }
        }
    }

    /// Puts a name at a place that has none, as [`insert`](Slots::insert) does. While no name went, the place is looked for once
    /// less.
    pub fn insert_free(
        &mut self,
        directory: FileId,
        name: &[u8],
        file: FileId,
        born: usize,
    ) -> Result<(), AllocError>
        requires { map.get (names_shown self.old.table.entries) (directory, name.now) ≡ None }
        ensures put { OnOk result (IsChangedAt (directory, name.now) (λ _. Some (There file born)) self.old.table.entries self.new.table.entries) }
        ensures places { OnOk result (ArePlacesKept (directory, name.now) self.old.table.entries self.old.members.table.entries self.new.table.entries self.new.members.table.entries) }
        ensures kept { OnErr result (AreSamePlaces self.old.table.entries self.old.members.table.entries self.new.table.entries self.new.members.table.entries) }
        ensures unchanged { OnErr result (self.new.table.entries ≡ self.old.table.entries) }
    {
        if self.all_there {
            return self.insert_new(directory, name, file, born);
        }
        self.insert(directory, name, file, born)?;
        Ok(())
    }

    /// Puts a name at a place that has no slot. An error says that memory was refused, and nothing is changed.
    ///
    /// Copies the name. Expected constant time, but for what growing costs. What may be refused comes before the place and its
    /// index, which come together.
    fn insert_new(
        &mut self,
        directory: FileId,
        name: &[u8],
        file: FileId,
        born: usize,
    ) -> Result<(), AllocError>
        requires { slot_at self.old.table.entries (directory, name.now) ≡ None }
        ensures put { OnOk result (IsChangedAt (directory, name.now) (λ _. Some (There file born)) self.old.table.entries self.new.table.entries) }
        ensures places { OnOk result (ArePlacesKept (directory, name.now) self.old.table.entries self.old.members.table.entries self.new.table.entries self.new.members.table.entries) }
        ensures kept { OnErr result (AreSamePlaces self.old.table.entries self.old.members.table.entries self.new.table.entries self.new.members.table.entries) }
        ensures unchanged { OnErr result (self.new.table.entries ≡ self.old.table.entries) }
    {
        let name = name.to_vec(self.alloc)?;
        let index = self.table.len();
        self.table.reserve(1)?;
        self.members.add(directory, index)?;
        self.table
            .insert(Place { directory, name }, Slot::There { file, born })
            .unwrap();
        Ok(())
    }

    /// Puts a name at a place that has a slot, as [`insert`](Slots::insert) does. Takes no memory, in expected constant time.
    pub fn replace(&mut self, directory: FileId, name: &[u8], file: FileId, born: usize)
        ensures put { IsChangedAt (directory, name.now) (option_map (λ _. There file born)) self.old.table.entries self.new.table.entries }
        ensures places { AreSamePlaces self.old.table.entries self.old.members.table.entries self.new.table.entries self.new.members.table.entries }
    {
        match self.table.get_mut(&PlaceAt { directory, name }) {
            Some(slot) => *slot = Slot::There { file, born },
            None => {}
        }
    }

    /// Takes the name of a place away, and answers the file that it was for, if the place has one. Takes no memory, in expected
    /// constant time.
    pub fn remove(&mut self, directory: FileId, name: &[u8], at: usize) -> Option<FileId>
        ensures file { result ≡ map.get (names_shown self.old.table.entries) (directory, name.now) }
        ensures gone { IsChangedAt (directory, name.now) (gone_at at) self.old.table.entries self.new.table.entries }
        ensures places { AreSamePlaces self.old.table.entries self.old.members.table.entries self.new.table.entries self.new.members.table.entries }
    {
        match self.table.get_mut(&PlaceAt { directory, name }) {
            Some(slot) => {
                let file = slot.file();
                slot.remove(at);
                self.all_there = false;
                file
            }
            None => None,
        }
    }
}

impl Slot {
    /// The file of the name, if there is one.
    pub fn file(self) -> Option<FileId>
        ensures { result ≡ file_in self }
    {
        match self {
            Slot::There { file, .. } => Some(file),
            Slot::Gone { .. } => None,
        }
    }

    /// Whether there is a name, for this file.
    fn is_for(self, file: FileId) -> bool
        ensures { IsTrue result ↔ (file_in self ≡ Some file) }
    {
        self.file() == Some(file)
    }

    /// The name goes, if there is one.
    fn remove(&mut self, at: usize)
        ensures { Some self.new ≡ gone_at at (Some self.old) }
    {
        match self {
            Slot::There { .. } => *self = Slot::Gone { at },
            Slot::Gone { .. } => {}
        }
    }
}
