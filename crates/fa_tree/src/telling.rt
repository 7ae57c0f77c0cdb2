//! What a tree tells of its files: what they are, the names that lead to them, and their bytes.

ghost use Rattle.std.specs.Prelude.{◌≡◌, ◌↔◌, ◌<◌, ℕ, List, length, slice_get, IsTrue, IfSome, IfNone};
ghost use Rattle.std.specs.FinMap as map;
ghost use Rattle.std.specs.Option.{option_and_then};
ghost use Rattle.fa_tree.specs.declared.id.FileId.{FileId};
ghost use Rattle.fa_tree.specs.State.{HasName, IsLinked};
ghost use Rattle.fa_tree.specs.Telling.{AreFactsTold, IsLeastName, names_inside};

use crate::id::FileId;
use crate::stored::Stored;
use crate::tree::Tree;
use fa_bodies::Kind;

/// What is told of a file.
#[derive(Clone, Copy, Debug, PartialEq, Eq)]
pub struct FileFacts {
    /// Its type.
    pub kind: Kind,
    /// Its permission bits, of the bits 0777 of its mode.
    pub bits: u32,
    /// How many bytes it has; of a symbolic link, those of its target.
    pub size: u64,
    /// How many names in directories are for it; of the root none.
    pub names: usize,
}

impl Stored {
    /// What is told of a file, if it is there.
    fn file_facts(&self, file: FileId) -> Option<FileFacts>
        ensures told { IfSome result (λ facts. AreFactsTold self.now.store file facts) }
        ensures none { IfNone result (map.get self.now.store.files file ≡ None) }
    {
        match self.files.get(file) {
            Some(there) => Some(FileFacts {
                kind: there.file.kind,
                bits: there.file.bits,
                size: there.file.contents.len() as u64,
                names: there.counts.links,
            }),
            None => None,
        }
    }

    /// How many names are in a directory.
    fn count_names_in(&self, directory: FileId) -> usize
        ensures { result ≡ names_inside self.now.store directory }
    {
        self.files.counts(directory).inside
    }

    /// The least place that has a name for a file, if one has.
    fn name_of(&self, file: FileId) -> Option<(FileId, &[u8])>
        ensures least { IfSome result (λ place. IsLeastName self.now.store place.0 place.1.now file) }
        ensures none { IfNone result ((directory : FileId) (name : List ℕ) → HasName self.now.store directory name file → ⊥) }
    {
        self.names.least_of(file)
    }

    /// The byte of a file at an offset, if there is one.
    fn byte(&self, file: FileId, offset: u64) -> Option<u8>
        ensures { result ≡ option_and_then (λ f. slice_get f.bytes offset) (map.get self.now.store.files file) }
    {
        match self.files.get(file) {
            Some(there) => there.file.contents.byte(offset),
            None => None,
        }
    }
}

impl Tree {
    /// What is told of a file, if it is there. A file stays when its last name goes.
    ///
    /// Takes no memory, in expected constant time.
    pub fn facts(&self, file: FileId) -> Option<FileFacts>
        ensures told { IfSome result (λ facts. AreFactsTold self.now.store file facts) }
        ensures none { IfNone result (map.get self.now.store.files file ≡ None) }
    {
        self.stored.file_facts(file)
    }

    /// Whether a file is linked: it is the root or has a name.
    ///
    /// Takes no memory, in expected constant time.
    pub fn is_linked(&self, file: FileId) -> bool
        ensures { IsTrue result ↔ IsLinked self.now.store file }
    {
        self.stored.is_linked(file)
    }

    /// A directory that has a name for a file, and this name, if one has; of the root none has. Of several it is the one in the least
    /// directory, and there the least name: the root comes first, then files that were put in by name, then those that requests made,
    /// each by its number; names are in the order of their bytes. So of several paths this name need not end the least one.
    ///
    /// Takes no memory, and time in the places that ever had a name, and in the bytes of the names for the file.
    pub fn name_of(&self, file: FileId) -> Option<(FileId, &[u8])>
        ensures least { IfSome result (λ place. IsLeastName self.now.store place.0 place.1.now file) }
        ensures none { IfNone result ((directory : FileId) (name : List ℕ) → HasName self.now.store directory name file → ⊥) }
    {
        self.stored.name_of(file)
    }

    /// How many names are in a directory; those that are for it do not count. In a file that is none, or is not there, are none.
    ///
    /// Takes no memory, in expected constant time.
    pub fn count_names_in(&self, directory: FileId) -> usize
        ensures { result ≡ names_inside self.now.store directory }
    {
        self.stored.count_names_in(directory)
    }

    /// The byte of a file at an offset; of a symbolic link, that of its target. None where the file is not there or has ended.
    ///
    /// Takes no memory, in expected constant time, and in the logarithm of the pages of the file that were written far behind those
    /// before them, or behind 16 MiB, where it is in one or behind the first of them.
    pub fn byte(&self, file: FileId, offset: u64) -> Option<u8>
        ensures { result ≡ option_and_then (λ f. slice_get f.bytes offset) (map.get self.now.store.files file) }
    {
        self.stored.byte(file, offset)
    }
}
