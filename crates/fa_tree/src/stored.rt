//! What a tree stores: files, the names of directories, the parents of these, and the directories that are open.

ghost use Rattle.std.specs.Prelude.{◌≡◌, ℕ, None, IsTrue, IfOk, OnOk, OnErr};
ghost use Rattle.std.specs.FinMap as map;
ghost use Rattle.std.specs.FinMap.{get};
ghost use Rattle.std.specs.Option.{option_map};
ghost use Rattle.fa_tree.specs.State as state;
ghost use Rattle.fa_tree.specs.State.{IsFile, IsDirectory};
ghost use Rattle.fa_tree.specs.Alike.{IsInUse};
ghost use Rattle.fa_tree.specs.Making.{MayBeMade};
ghost use Rattle.fa_tree.specs.Building.{empty_tree, next_added, tree_added, tree_linked};
ghost use Rattle.fa_tree.specs.parts.FileParts.{file_shown};
ghost use Rattle.fa_tree.specs.parts.OpenParts.{open_of};
ghost use Rattle.fa_tree.specs.parts.StoredParts.{as_tree, stored_of, stored_made, IsMadeOrNext};

use crate::file::File;
use crate::files::Files;
use crate::id::FileId;
use crate::in_use::InUse;
use crate::names::Names;
use crate::open_names::OpenNames;
use crate::parents::Parents;
use fa_capture::Seed;
use fa_store::digest_of;
use std::alloc::{AllocError, Global};
use std::marker::Model;

/// The files of a tree, the names of its directories, the parents of these, and the directories that are open.
#[derive(Drop)]
pub(crate) struct Stored {
    pub alloc: Global,
    pub seed: Seed,
    pub files: Files,
    pub names: Names,
    pub parents: Parents,
}

impl Model for Stored {
    ghost use Rattle.fa_tree.specs.parts.StoredParts.{StoredShown};
    ghost use Rattle.fa_tree.specs.parts.StateCodes.{stored_code};

    ghost Value = { StoredShown };

    ghost coded = { stored_code };

    ghost use Rattle.fa_tree.specs.parts.StoredView.{stored_shown, HoldsTree};

    ghost view = { stored_shown };

    ghost invariant = { HoldsTree };
}

impl Stored {
    /// A root with these permission bits, and nothing in it.
    pub fn new(alloc: Global, seed: Seed, bits: u32) -> Result<Self, AllocError>
        ensures { IfOk result (λ stored. stored ≡ stored_of (empty_tree bits)) }
    {
        let files = Files::new(alloc, seed, bits)?;
        Ok(Stored {
            alloc,
            seed,
            files,
            names: Names::new(alloc, seed),
            parents: Parents::new(alloc, seed),
        })
    }

    /// The same once more. Expected time and memory in all of it.
    pub fn copy(&self) -> Result<Self, AllocError>
        ensures { IfOk result (λ stored. stored ≡ self.now) }
    {
        let parents = self.parents.copy()?;
        let names = self.names.copy()?;
        let files = self.files.copy()?;
        Ok(Stored {
            alloc: self.alloc,
            seed: self.seed,
            files,
            names,
            parents,
        })
    }

    /// Whether both show the same. Takes no memory. Expected time in all of both.
    pub fn is_same(&self, other: &Stored) -> bool
        ensures { IsTrue result → self.now ≡ other.now }
    {
        self.names.is_same(&other.names) && self.files.is_same(&other.files)
    }

    /// Whether both show the same, but for openings that are of no use. Takes no memory. Expected time in all of both.
    pub fn is_alike(&self, other: &Stored, in_use: &InUse<'_>) -> bool
        ensures store { IsTrue result → other.now.store ≡ self.now.store }
        ensures handles { IsTrue result → (opened : ℕ) → IsInUse in_use.now opened → get other.now.handles opened ≡ get self.now.handles opened }
    {
        self.names.is_alike(&other.names, in_use) && self.files.is_same(&other.files)
    }

    /// A number under its seed for what it shows, without openings that are of no use: the same for the same. Takes no memory, and time in
    /// all of it.
    pub fn digest(&self, in_use: &InUse<'_>) -> u64 {
        let seed = self.seed;
        digest_of(
            seed,
            &(self.names.digest(seed, in_use), self.files.digest(seed)),
        )
    }

    /// About so many bytes of memory are taken. Time in the names, the files and the pages that are there.
    pub fn weight(&self) -> u64 {
        self.names
            .weight()
            .saturating_add(self.files.weight())
            .saturating_add(self.parents.weight())
    }

    /// The root.
    pub fn root(&self) -> FileId
        ensures { result ≡ state.root }
    {
        FileId::Root
    }

    /// The file of a name in a directory, if the name is there.
    ///
    /// Takes no memory, in expected constant time but for reading the name.
    pub fn find(&self, directory: FileId, name: &[u8]) -> Option<FileId>
        ensures { result ≡ map.get self.now.store.names (directory, name.now) }
    {
        self.names.get(directory, name)
    }

    /// The directory that the request of this number opened, if one did.
    ///
    /// Takes no memory, in expected constant time.
    pub fn open_directory(&self, asked: u32) -> Option<OpenNames<'_>>
        ensures { option_map open_of result ≡ map.get self.now.handles asked }
    {
        self.names.open_directory(asked)
    }

    /// Adds a name to a directory, for a file that is there and no directory.
    pub fn link(&mut self, directory: FileId, name: &[u8], file: FileId) -> Result<(), AllocError>
        requires free { MayBeMade self.old.store directory name.now }
        requires there { IsFile self.old.store file }
        requires other { IsDirectory self.old.store file → ⊥ }
        ensures linked { OnOk result (self.new ≡ stored_of (tree_linked (as_tree self.old) directory name.now file)) }
        ensures unchanged { OnErr result (self.new ≡ self.old) }
    {
        // The places are counted for the clause that names are few, so that no count of them is too large.
        let _ = self.names.places();
        self.names.add(directory, name, file)?;
        self.files.count_added(directory, file);
        Ok(())
    }

    /// Makes a file in a directory under a name, which is to be known by this.
    pub fn make(
        &mut self,
        id: FileId,
        directory: FileId,
        name: &[u8],
        file: File,
    ) -> Result<(), AllocError>
        requires free { MayBeMade self.old.store directory name.now }
        requires new { map.get self.old.store.files id ≡ None }
        requires made { IsMadeOrNext self.old.store.files id }
        ensures made { OnOk result (self.new ≡ stored_made id directory name.now (file_shown file) self.old) }
        ensures unchanged { OnErr result (self.new ≡ self.old) }
    {
        let kind = file.kind;
        // For the clause that names are few, as in `link`.
        let _ = self.names.places();
        self.files.insert(id, file)?;
        match self.parents.add(id, kind, directory) {
            Ok(()) => {}
            Err(error) => {
                self.files.remove(id);
                return Err(error);
            }
        }
        match self.names.add(directory, name, id) {
            Ok(()) => {
                self.files.add_inside(directory);
                Ok(())
            }
            Err(error) => {
                self.parents.remove(id);
                self.files.remove(id);
                Err(error)
            }
        }
    }

    /// Puts a file into a directory under a name, and answers what it is known by. Where there are 2^32 files, it is as if memory were
    /// refused.
    pub fn add(&mut self, directory: FileId, name: &[u8], file: File) -> Result<FileId, AllocError>
        requires { MayBeMade self.old.store directory name.now }
        ensures next { IfOk result (λ id. id ≡ next_added (as_tree self.old)) }
        ensures fresh { IfOk result (λ id. map.get self.old.store.files id ≡ None) }
        ensures added { OnOk result (self.new ≡ stored_of (tree_added (as_tree self.old) directory name.now (file_shown file))) }
        ensures unchanged { OnErr result (self.new ≡ self.old) }
    {
        let Ok(number) = u32::try_from(self.files.len()) else {
            return Err(AllocError);
        };
        let id = FileId::Added(number);
        self.make(id, directory, name, file)?;
        Ok(id)
    }
}
