//! Which file each name of a directory is, and the directories that are open.

ghost use Rattle.std.specs.Prelude.{◌≡◌, ◌≢◌, ◌<◌, ◌≤◌, ◌^◌, ◌∷◌, [], ℕ, IsTrue, Some, None, IfSome, IfNone, IfOk, OnOk, OnErr};
ghost use Rattle.std.specs.FinMap as map;
ghost use Rattle.fa_tree.specs.declared.id.FileId.{FileId};
ghost use Rattle.std.specs.FinMap.{get};
ghost use Rattle.std.specs.Option.{option_map};
ghost use Rattle.std.specs.declared.cmp.Ordering.TheVariants.{Greater};
ghost use Rattle.fa_tree.specs.State as state;
ghost use Rattle.fa_tree.specs.State.{place_cmp};
ghost use Rattle.fa_tree.specs.Alike.{IsInUse};
ghost use Rattle.fa_tree.specs.Edits.Edit.{Added, Removed};
ghost use Rattle.fa_tree.specs.Renaming.{moved, exchanged};
ghost use Rattle.fa_tree.specs.parts.NameParts.{NamesShown, no_names, edited, opened_by};
ghost use Rattle.fa_tree.specs.parts.OpenParts.{open_of};

use crate::id::FileId;
use crate::in_use::InUse;
use crate::open::{Opening, Openings};
use crate::open_names::OpenNames;
use crate::slots::Slots;
use fa_capture::Seed;
use fa_store::digest_of;
use std::alloc::{AllocError, Global};
use std::marker::Model;

/// The names of directories, with their files, and the directories that are open, with what was in them since then.
///
/// Of the names of a directory that is open nothing is copied: each name has the number of openings before it came, or
/// before it went, and each opening is told by its number.
#[derive(Drop)]
pub(crate) struct Names {
    /// For each place that ever had a name what is there.
    slots: Slots,
    /// All openings.
    openings: Openings,
}

impl Model for Names {
    ghost use Rattle.fa_tree.specs.Renaming.{moved, exchanged};
    ghost use Rattle.fa_tree.specs.parts.NameParts.{NamesShown, names_code};

    ghost Value = { NamesShown };

    ghost coded = { names_code };

    ghost use Rattle.std.specs.Prelude.{length};
    ghost use Rattle.fa_tree.specs.parts.NameViews.{shown, AreStampsWithin};

    ghost view = { λ n. shown n.slots.table.entries n.openings };

    ghost use Rattle.fa_tree.specs.parts.BirthParts.{AreOldPlaces};

    ghost invariant = { λ n. AreStampsWithin (length n.openings) n.slots.table.entries × AreOldPlaces n.slots.table.entries n.slots.members.table.entries n.openings };
}

impl Names {
    /// No name, and no directory that is open. What is stored later takes memory from `alloc`.
    ///
    /// Takes no memory, in constant time.
    pub fn new(alloc: Global, seed: Seed) -> Self
        ensures { result ≡ no_names }
    {
        Names {
            slots: Slots::new(alloc, seed),
            openings: Openings::new(alloc, seed),
        }
    }

    /// The same names and open directories once more. Expected time and memory in the places that ever had a name, the bytes of
    /// their names, and the openings.
    pub fn copy(&self) -> Result<Self, AllocError>
        ensures { IfOk result (λ names. names ≡ self.now) }
    {
        let openings = self.openings.copy()?;
        let slots = self.slots.copy()?;
        Ok(Names { slots, openings })
    }

    /// The file that a name in a directory is for, if it is there.
    ///
    /// Takes no memory, in expected constant time but for reading the name, as of hash tables.
    pub fn get(&self, directory: FileId, name: &[u8]) -> Option<FileId>
        ensures { result ≡ get self.now.names (directory, name.now) }
    {
        match self.slots.get(directory, name) {
            Some(slot) => slot.file(),
            None => None,
        }
    }

    /// Whether both have the same names, for the same files, and the same open directories, in whichever order they came.
    ///
    /// Takes no memory. Expected time in the places that ever had a name and the bytes of their names, and for each request that
    /// opened a directory in the places that this ever had.
    pub fn is_same(&self, other: &Names) -> bool
        ensures { IsTrue result → self.now ≡ other.now }
    {
        self.slots.is_same(&other.slots)
            && self
                .openings
                .is_same(&self.slots, &other.openings, &other.slots)
    }

    /// Whether both have the same names, for the same files, and of each opening that is of use the same is known, in whichever order
    /// all this came.
    ///
    /// Takes no memory. Expected time in the places that ever had a name and the bytes of their names, in the openings, and for each
    /// request that opened a directory, and is of use, in the places that this ever had.
    pub fn is_alike(&self, other: &Names, in_use: &InUse<'_>) -> bool
        ensures names { IsTrue result → other.now.names ≡ self.now.names }
        ensures handles { IsTrue result → (opened : ℕ) → IsInUse in_use.now opened → get other.now.handles opened ≡ get self.now.handles opened }
    {
        self.slots.is_same(&other.slots)
            && self
                .openings
                .is_alike(&self.slots, &other.openings, &other.slots, in_use)
    }

    /// A number under the seed for the names and the openings that are of use, with what is known of these: the same for the same ones, in
    /// whichever order they came.
    ///
    /// Takes no memory, and time as [`is_alike`](Names::is_alike) does.
    pub fn digest(&self, seed: Seed, in_use: &InUse<'_>) -> u64 {
        digest_of(
            seed,
            &(
                self.slots.digest(seed),
                self.openings.digest(seed, &self.slots, in_use),
            ),
        )
    }

    /// About so many bytes of memory are taken. Time in the places.
    pub fn weight(&self) -> u64 {
        self.slots.weight().saturating_add(self.openings.weight())
    }

    /// How many places ever had a name.
    ///
    /// Takes no memory, in constant time.
    pub fn places(&self) -> usize
        ensures most { map.len self.now.names ≤ result }
        ensures few { result < 2 ^ 63 }
    {
        self.slots.len()
    }

    /// The least place that has a name for a file, if one has: in the order of directories, and in a directory of names.
    ///
    /// Takes no memory, and time in the places that ever had a name, and in the bytes of the names for the file.
    pub fn least_of(&self, file: FileId) -> Option<(FileId, &[u8])>
        ensures found { IfSome result (λ place. get self.now.names (place.0, place.1.now) ≡ Some file) }
        ensures least { IfSome result (λ place. (other : state.Place) → get self.now.names other ≡ Some file → place_cmp (place.0, place.1.now) other ≢ Greater) }
        ensures none { IfNone result ((place : state.Place) → get self.now.names place ≡ Some file → ⊥) }
    {
        match self.slots.least_of(file) {
            Some(place) => Some((place.directory, place.name.as_slice())),
            None => None,
        }
    }

    /// Puts a name into a directory, for a file. A name that is there already is another's from then on. An error says that
    /// memory was refused, and nothing is changed.
    ///
    /// Takes no memory where the directory ever had the name, and copies it where it is new. Expected constant time but for reading
    /// the name and for growing.
    pub fn put(&mut self, directory: FileId, name: &[u8], file: FileId) -> Result<(), AllocError>
        ensures put { OnOk result (self.new ≡ edited (Removed directory name.now ∷ Added directory name.now file ∷ []) self.old) }
        ensures unchanged { OnErr result (self.new ≡ self.old) }
    {
        let born = self.openings.len();
        self.slots.insert(directory, name, file, born)?;
        Ok(())
    }

    /// Puts a name into a directory that has none like it, for a file. An error says that memory was refused, and nothing is
    /// changed.
    ///
    /// Takes memory as [`put`](Names::put) does. Expected constant time but for reading the name and for growing.
    pub fn add(&mut self, directory: FileId, name: &[u8], file: FileId) -> Result<(), AllocError>
        requires { get self.old.names (directory, name.now) ≡ None }
        ensures added { OnOk result (self.new ≡ edited (Added directory name.now file ∷ []) self.old) }
        ensures unchanged { OnErr result (self.new ≡ self.old) }
    {
        let born = self.openings.len();
        self.slots.insert_free(directory, name, file, born)
    }

    /// Takes a name out of a directory, and answers the file that it was for, if it is there.
    ///
    /// Takes no memory, and the place stays. Expected constant time but for reading the name.
    pub fn remove(&mut self, directory: FileId, name: &[u8]) -> Option<FileId>
        ensures file { result ≡ get self.old.names (directory, name.now) }
        ensures gone { self.new ≡ edited (Removed directory name.now ∷ []) self.old }
    {
        let at = self.openings.len();
        self.slots.remove(directory, name, at)
    }

    /// Moves the name of a file to another place. A name that is there already is the file's from then on. An error says that
    /// memory was refused, and nothing is changed.
    ///
    /// Takes memory as [`put`](Names::put) does. Expected constant time but for reading the names and for growing.
    pub fn rename(
        &mut self,
        old_directory: FileId,
        old_name: &[u8],
        new_directory: FileId,
        new_name: &[u8],
        file: FileId,
    ) -> Result<(), AllocError>
        requires there { get self.old.names (old_directory, old_name.now) ≡ Some file }
        requires apart { get self.old.names (new_directory, new_name.now) ≢ Some file }
        ensures renamed { OnOk result (self.new ≡ edited (moved old_directory old_name.now new_directory new_name.now file (get self.old.names (new_directory, new_name.now))) self.old) }
        ensures unchanged { OnErr result (self.new ≡ self.old) }
    {
        let _ = &self.slots;
        self.put(new_directory, new_name, file)?;
        self.remove(old_directory, old_name);
        Ok(())
    }

    /// Gives each of two names the other's file.
    ///
    /// Takes no memory. Expected constant time but for reading the names.
    pub fn exchange(
        &mut self,
        old_directory: FileId,
        old_name: &[u8],
        new_directory: FileId,
        new_name: &[u8],
        file: FileId,
        other: FileId,
    )
        requires there { get self.old.names (old_directory, old_name.now) ≡ Some file }
        requires also { get self.old.names (new_directory, new_name.now) ≡ Some other }
        ensures { self.new ≡ edited (exchanged old_directory old_name.now new_directory new_name.now file other) self.old }
    {
        let _ = &self.slots;
        if other != file {
            let born = self.openings.len();
            self.slots.replace(old_directory, old_name, other, born);
            self.slots.replace(new_directory, new_name, file, born);
        }
    }

    /// Notes that the request of this number opens a directory. An error says that memory was refused, and nothing is
    /// changed.
    ///
    /// Expected constant time but for growing, and nothing is copied of what is in the directory.
    pub fn open(&mut self, asked: u32, directory: FileId) -> Result<(), AllocError>
        ensures opened { OnOk result (self.new ≡ opened_by asked directory self.old) }
        ensures unchanged { OnErr result (self.new ≡ self.old) }
    {
        let old_places = self.slots.members.of(directory).len();
        self.openings.push(Opening {
            asked,
            directory,
            old_places,
        })
    }

    /// The directory that the request of this number opened, if one did.
    ///
    /// Takes no memory, in expected constant time.
    pub fn open_directory(&self, asked: u32) -> Option<OpenNames<'_>>
        ensures { option_map open_of result ≡ get self.now.handles asked }
    {
        self.openings.last(asked, &self.slots)
    }
}
