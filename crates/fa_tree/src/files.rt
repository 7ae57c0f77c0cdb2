//! The files of a tree, by what made them, and what is counted of each.

ghost use Rattle.std.specs.Prelude.{◌≡◌, ◌≢◌, ◌<◌, ◌^◌, [], ℕ, List, cond, option_map, Option, Some, None, IsTrue, IfSome, IfOk, OnOk, OnErr};
ghost use Rattle.std.specs.FinMap as map;
ghost use Rattle.std.specs.FinMap.{FinMap};
ghost use Rattle.fa_bodies.specs.declared.mode.Kind.TheVariants.{Directory};
ghost use Rattle.fa_tree.specs.declared.id.FileId.{FileId};
ghost use Rattle.fa_tree.specs.State.{root, place_cmp, file_eq};
ghost use Rattle.fa_tree.specs.Edits.{names_after};
ghost use Rattle.fa_tree.specs.Renaming.{moved};
ghost use Rattle.fa_tree.specs.Rules.{with_file};
ghost use Rattle.fa_store.specs.Contents.{resized, written};
ghost use Rattle.fa_tree.specs.Making.{emptied};
ghost use Rattle.fa_tree.specs.parts.FileParts.{file_shown, files_shown, with_bits, with_bytes};
ghost use Rattle.fa_tree.specs.parts.CountParts.{nothing_counted, counts_of, one_link_more, one_link_less, one_inside_more, one_inside_less, IsKnown, AreCounted, IsCountedAt, IsMovedAt};
ghost use Rattle.fa_tree.specs.parts.SameParts.{IsMapWithin};

use crate::file::File;
use crate::id::FileId;
use fa_bodies::Kind;
use fa_capture::Seed;
use fa_store::{Contents, digest_of};
use indexmap::IndexMap;
use std::alloc::{AllocError, Global};

/// An entry of the table takes about so many bytes, beside the pages.
const FILE_WEIGHT: u64 = 72;

/// What is counted of a file, so that it need not be looked for among all names.
#[derive(Clone, Copy)]
pub(crate) struct Counts {
    /// How many names it has.
    pub links: usize,
    /// How many names are in it.
    pub inside: usize,
}

/// What is counted of a file that has no name, nor one in it.
pub(crate) const NOTHING_COUNTED: Counts = Counts {
    links: 0,
    inside: 0,
};

/// A file, and what is counted of it.
#[derive(Drop)]
pub(crate) struct CountedFile {
    pub file: File,
    pub counts: Counts,
}

impl Clone for CountedFile {
    ghost is_clone = { λ entry copy. copy ≡ entry };

    /// The same once more, the bytes of the file in memory of their own. Time and memory in the pages that store them.
    fn clone(&self) -> Result<Self, AllocError> {
        Ok(CountedFile {
            file: self.file.clone()?,
            counts: self.counts,
        })
    }
}

/// The files of a tree. Each stays, whatever names it has.
#[derive(Drop)]
pub(crate) struct Files {
    pub by_id: IndexMap<FileId, CountedFile, Seed>,
}

impl Files {
    /// A directory with these permission bits, the root.
    pub fn new(alloc: Global, seed: Seed, bits: u32) -> Result<Self, AllocError>
        ensures files { IfOk result (λ files. files_shown files.by_id.entries ≡ map.insert map.empty root (record { kind = Directory; bits = bits; bytes = [] })) }
        ensures counts { IfOk result (λ files. (of : FileId) → counts_of files.by_id.entries of ≡ nothing_counted) }
    {
        let mut by_id = IndexMap::with_hasher(alloc, seed);
        let file = File {
            kind: Kind::Directory,
            bits,
            contents: Contents::new(alloc),
        };
        by_id.insert(
            FileId::Root,
            CountedFile {
                file,
                counts: NOTHING_COUNTED,
            },
        )?;
        Ok(Files { by_id })
    }

    /// The same files once more. Expected time and memory in the files and in the pages that store their bytes.
    pub fn copy(&self) -> Result<Self, AllocError>
        ensures files { IfOk result (λ files. files_shown files.by_id.entries ≡ files_shown self.now.by_id.entries) }
        ensures counts { IfOk result (λ files. (of : FileId) → counts_of files.by_id.entries of ≡ counts_of self.now.by_id.entries of) }
    {
        Ok(Files {
            by_id: self.by_id.clone()?,
        })
    }

    /// How many there are.
    pub fn len(&self) -> usize
        ensures { result ≡ map.len (files_shown self.now.by_id.entries) }
    {
        self.by_id.len()
    }

    /// Whether both are the same files, in whichever order they came. Takes no memory. Expected time in the files and in the pages
    /// that store their bytes.
    pub fn is_same(&self, other: &Files) -> bool
        ensures { IsTrue result → files_shown self.now.by_id.entries ≡ files_shown other.now.by_id.entries }
    {
        self.is_within(other) && other.is_within(self)
    }

    /// Whether each file is the same in others. Takes no memory. Expected time in the files and in the pages that store their bytes.
    fn is_within(&self, other: &Files) -> bool
        ensures { IsTrue result → IsMapWithin (files_shown self.now.by_id.entries) (files_shown other.now.by_id.entries) }
    {
        self.by_id
            .iter()
            .all(|(id, entry)| other.has(*id, &entry.file))
    }

    /// Whether this file is the one that is known by this. Takes no memory. Expected time in the pages that store its bytes.
    fn has(&self, id: FileId, file: &File) -> bool
        ensures { IsTrue result → map.get (files_shown self.now.by_id.entries) id ≡ Some (file_shown file.now) }
    {
        match self.get(id) {
            Some(own) => own.file.is_same(file),
            None => false,
        }
    }

    /// A number under the seed for the files, the same for the same ones, in whichever order they came. Takes no memory, and time in the
    /// files and in the pages that store their bytes.
    pub fn digest(&self, seed: Seed) -> u64 {
        self.by_id.iter().fold(0_u64, |sum, (id, entry)| {
            sum.wrapping_add(digest_of(seed, &(*id, entry.file.digest(seed))))
        })
    }

    /// About so many bytes of memory are taken. Time in the files and the pages that are there.
    pub fn weight(&self) -> u64 {
        self.by_id.values().fold(0_u64, |sum, entry| {
            sum.saturating_add(FILE_WEIGHT)
                .saturating_add(entry.file.weight())
        })
    }

    /// The file that is known by this, if there is one, and what is counted of it.
    ///
    /// Takes no memory, in expected constant time.
    pub fn get(&self, id: FileId) -> Option<&CountedFile>
        ensures file { option_map (λ entry. file_shown entry.now.file) result ≡ map.get (files_shown self.now.by_id.entries) id }
        ensures counts { IfSome result (λ entry. entry.now.counts ≡ counts_of self.now.by_id.entries id) }
    {
        self.by_id.get(&id)
    }

    /// What is counted of a file, of one that is not there nothing.
    ///
    /// Takes no memory, in expected constant time.
    pub fn counts(&self, id: FileId) -> Counts
        ensures { result ≡ counts_of self.now.by_id.entries id }
    {
        match self.by_id.get(&id) {
            Some(entry) => entry.counts,
            None => NOTHING_COUNTED,
        }
    }

    /// Puts a file in that is to be known by this, and counts its one name. An error says that memory was refused, and nothing is changed.
    ///
    /// Expected constant time but for growing.
    pub fn insert(&mut self, id: FileId, file: File) -> Result<(), AllocError>
        ensures inserted { OnOk result (files_shown self.new.by_id.entries ≡ map.insert (files_shown self.old.by_id.entries) id (file_shown file)) }
        ensures counts { OnOk result ((of : FileId) → counts_of self.new.by_id.entries of ≡ cond (file_eq of id) (one_link_more nothing_counted) (counts_of self.old.by_id.entries of)) }
        ensures kept { OnOk result ((of : FileId) → IsKnown self.old.by_id.entries of → IsKnown self.new.by_id.entries of) }
        ensures unchanged { OnErr result (self.new.by_id.entries ≡ self.old.by_id.entries) }
    {
        let counts = Counts {
            links: 1,
            inside: 0,
        };
        self.by_id.insert(id, CountedFile { file, counts })?;
        Ok(())
    }

    /// Takes a file away, if it is there.
    ///
    /// Takes no memory, in expected constant time.
    pub fn remove(&mut self, id: FileId)
        ensures files { files_shown self.new.by_id.entries ≡ map.remove (files_shown self.old.by_id.entries) id }
        ensures counts { (of : FileId) → counts_of self.new.by_id.entries of ≡ cond (file_eq of id) nothing_counted (counts_of self.old.by_id.entries of) }
    {
        self.by_id.swap_remove(&id);
    }

    /// Gives a file these permission bits.
    pub fn set_bits(&mut self, id: FileId, bits: u32)
        ensures files { files_shown self.new.by_id.entries ≡ with_file (files_shown self.old.by_id.entries) id (with_bits bits) }
        ensures counts { (of : FileId) → counts_of self.new.by_id.entries of ≡ counts_of self.old.by_id.entries of }
    {
        match self.by_id.get_mut(&id) {
            Some(entry) => entry.file.bits = bits,
            None => {}
        }
    }

    /// Writes bytes at an offset of a file, if it is there, with zeros between its end and the offset. An error says that
    /// memory was refused, or that the bytes would end at 2^64 or behind it, which no memory holds; nothing is changed. Time as
    /// `Contents::write` has it.
    pub fn write(&mut self, id: FileId, offset: u64, payload: &[u8]) -> Result<(), AllocError>
        ensures written { OnOk result (files_shown self.new.by_id.entries ≡ with_file (files_shown self.old.by_id.entries) id (with_bytes (λ bytes. written bytes offset payload.now))) }
        ensures unchanged { OnErr result (files_shown self.new.by_id.entries ≡ files_shown self.old.by_id.entries) }
        ensures counts { (of : FileId) → counts_of self.new.by_id.entries of ≡ counts_of self.old.by_id.entries of }
    {
        match self.by_id.get_mut(&id) {
            Some(entry) => entry.file.contents.write(offset, payload),
            None => Ok(()),
        }
    }

    /// Cuts a file to this length, or fills it with zeros up to it, if it is there. No length is refused: it takes no memory, as
    /// `Contents::resize` does. An error would leave all as it was.
    pub fn resize(&mut self, id: FileId, size: u64) -> Result<(), AllocError>
        ensures resized { OnOk result (files_shown self.new.by_id.entries ≡ with_file (files_shown self.old.by_id.entries) id (with_bytes (λ bytes. resized bytes size))) }
        ensures unchanged { OnErr result (files_shown self.new.by_id.entries ≡ files_shown self.old.by_id.entries) }
        ensures counts { (of : FileId) → counts_of self.new.by_id.entries of ≡ counts_of self.old.by_id.entries of }
    {
        match self.by_id.get_mut(&id) {
            Some(entry) => entry.file.contents.resize(size),
            None => Ok(()),
        }
    }

    /// Takes all bytes of a file away, if it is there.
    pub fn clear(&mut self, id: FileId)
        ensures files { files_shown self.new.by_id.entries ≡ with_file (files_shown self.old.by_id.entries) id emptied }
        ensures counts { (of : FileId) → counts_of self.new.by_id.entries of ≡ counts_of self.old.by_id.entries of }
    {
        match self.by_id.get_mut(&id) {
            Some(entry) => entry.file.contents.clear(),
            None => {}
        }
    }

    /// Counts one name more of a file.
    ///
    /// Takes no memory, in expected constant time.
    fn add_link(&mut self, file: FileId)
        requires known { IsKnown self.old.by_id.entries file }
        requires few { (counts_of self.old.by_id.entries file).links < 2 ^ 63 }
        ensures counts { (of : FileId) → counts_of self.new.by_id.entries of ≡ cond (file_eq of file) (one_link_more (counts_of self.old.by_id.entries file)) (counts_of self.old.by_id.entries of) }
        ensures kept { (of : FileId) → IsKnown self.old.by_id.entries of → IsKnown self.new.by_id.entries of }
        ensures files { files_shown self.new.by_id.entries ≡ files_shown self.old.by_id.entries }
    {
        match self.by_id.get_mut(&file) {
            Some(entry) => entry.counts.links += 1,
            None => {}
        }
    }

    /// Counts one name less of a file that has one.
    ///
    /// Takes no memory, in expected constant time.
    fn remove_link(&mut self, file: FileId)
        requires { 0 < (counts_of self.old.by_id.entries file).links }
        ensures counts { (of : FileId) → counts_of self.new.by_id.entries of ≡ cond (file_eq of file) (one_link_less (counts_of self.old.by_id.entries file)) (counts_of self.old.by_id.entries of) }
        ensures kept { (of : FileId) → IsKnown self.old.by_id.entries of → IsKnown self.new.by_id.entries of }
        ensures files { files_shown self.new.by_id.entries ≡ files_shown self.old.by_id.entries }
    {
        match self.by_id.get_mut(&file) {
            Some(entry) => entry.counts.links -= 1,
            None => {}
        }
    }

    /// Counts one name more in a directory.
    ///
    /// Takes no memory, in expected constant time.
    pub fn add_inside(&mut self, directory: FileId)
        requires known { IsKnown self.old.by_id.entries directory }
        requires few { (counts_of self.old.by_id.entries directory).inside < 2 ^ 63 }
        ensures counts { (of : FileId) → counts_of self.new.by_id.entries of ≡ cond (file_eq of directory) (one_inside_more (counts_of self.old.by_id.entries directory)) (counts_of self.old.by_id.entries of) }
        ensures kept { (of : FileId) → IsKnown self.old.by_id.entries of → IsKnown self.new.by_id.entries of }
        ensures files { files_shown self.new.by_id.entries ≡ files_shown self.old.by_id.entries }
    {
        match self.by_id.get_mut(&directory) {
            Some(entry) => entry.counts.inside += 1,
            None => {}
        }
    }

    /// Counts one name less in a directory that has one.
    ///
    /// Takes no memory, in expected constant time.
    fn remove_inside(&mut self, directory: FileId)
        requires { 0 < (counts_of self.old.by_id.entries directory).inside }
        ensures counts { (of : FileId) → counts_of self.new.by_id.entries of ≡ cond (file_eq of directory) (one_inside_less (counts_of self.old.by_id.entries directory)) (counts_of self.old.by_id.entries of) }
        ensures kept { (of : FileId) → IsKnown self.old.by_id.entries of → IsKnown self.new.by_id.entries of }
        ensures files { files_shown self.new.by_id.entries ≡ files_shown self.old.by_id.entries }
    {
        match self.by_id.get_mut(&directory) {
            Some(entry) => entry.counts.inside -= 1,
            None => {}
        }
    }

    /// Counts a name that comes into a directory, for a file.
    ///
    /// Takes no memory, in expected constant time.
    pub fn count_added(&mut self, directory: FileId, file: FileId)
        requires directory { IsKnown self.old.by_id.entries directory }
        requires file { IsKnown self.old.by_id.entries file }
        requires counted { (at : IsCountedAt (counts_of self.old.by_id.entries) directory None) × (map.len at.names < 2 ^ 63) }
        ensures counted { (names : FinMap place_cmp FileId) (name : List ℕ) → map.get names (directory, name) ≡ None → AreCounted names (counts_of self.old.by_id.entries) → AreCounted (map.insert names (directory, name) file) (counts_of self.new.by_id.entries) }
        ensures kept { (of : FileId) → IsKnown self.old.by_id.entries of → IsKnown self.new.by_id.entries of }
        ensures files { files_shown self.new.by_id.entries ≡ files_shown self.old.by_id.entries }
    {
        self.add_link(file);
        self.add_inside(directory);
    }

    /// Counts a name that goes out of a directory, and was for this file.
    ///
    /// Takes no memory, in expected constant time.
    pub fn count_removed(&mut self, directory: FileId, file: FileId)
        requires { IsCountedAt (counts_of self.old.by_id.entries) directory (Some file) }
        ensures counted { (names : FinMap place_cmp FileId) (name : List ℕ) → map.get names (directory, name) ≡ Some file → AreCounted names (counts_of self.old.by_id.entries) → AreCounted (map.remove names (directory, name)) (counts_of self.new.by_id.entries) }
        ensures kept { (of : FileId) → IsKnown self.old.by_id.entries of → IsKnown self.new.by_id.entries of }
        ensures files { files_shown self.new.by_id.entries ≡ files_shown self.old.by_id.entries }
    {
        self.remove_link(file);
        self.remove_inside(directory);
    }

    /// Counts a name for a file that goes out of one directory and comes into another, or into the same, under the name that was for the
    /// file taken, if one was.
    ///
    /// Takes no memory, in expected constant time.
    pub fn count_moved(
        &mut self,
        old_directory: FileId,
        new_directory: FileId,
        file: FileId,
        taken: Option<FileId>,
    )
        requires directory { IsKnown self.old.by_id.entries new_directory }
        requires counted { (at : IsMovedAt (counts_of self.old.by_id.entries) old_directory new_directory file taken) × (map.len at.names < 2 ^ 63) }
        ensures counted { (names : FinMap place_cmp FileId) (old_name new_name : List ℕ) → map.get names (old_directory, old_name) ≡ Some file → map.get names (new_directory, new_name) ≡ taken → taken ≢ Some file
            → AreCounted names (counts_of self.old.by_id.entries) → AreCounted (names_after (moved old_directory old_name new_directory new_name file taken) names) (counts_of self.new.by_id.entries) }
        ensures files { files_shown self.new.by_id.entries ≡ files_shown self.old.by_id.entries }
    {
        self.count_removed(old_directory, file);
        if let Some(other) = taken {
            self.count_removed(new_directory, other);
        }
        self.count_added(new_directory, file);
    }
}
