//! The directory that each directory is in, so that it need not be looked for among all names.

ghost use Rattle.std.specs.Prelude.{◌≡◌, ◌≢◌, cond, [], Some, None, IfOk, OnOk, OnErr};
ghost use Rattle.std.specs.Option.{option_map};
ghost use Rattle.fa_bodies.specs.declared.mode.Kind.TheVariants.{Directory};
ghost use Rattle.fa_tree.specs.declared.id.FileId.{FileId};
ghost use Rattle.fa_tree.specs.State.{file_eq};
ghost use Rattle.fa_tree.specs.parts.ParentParts.{parent_noted};

use crate::id::FileId;
use fa_bodies::Kind;
use fa_capture::Seed;
use indexmap::IndexMap;
use std::alloc::{AllocError, Global};

/// An entry of the table takes about so many bytes.
const PARENT_WEIGHT: u64 = 56;

/// The directory that a directory is in, and a hint for the next step up: where the entry of that one stood in the table when this was
/// noted. It may stand elsewhere by now, or have none, as the root, so no clause speaks of it.
#[derive(Clone, Copy)]
pub(crate) struct Parent {
    pub directory: FileId,
    pub hint: usize,
}

/// For each directory that has a name the directory that the name is in. No other file has an entry.
#[derive(Drop)]
pub(crate) struct Parents {
    pub table: IndexMap<FileId, Parent, Seed>,
}

impl Parents {
    /// No directory has a name. What is stored later takes memory from `alloc`.
    ///
    /// Takes no memory, in constant time.
    pub fn new(alloc: Global, seed: Seed) -> Self
        ensures { result.table.entries ≡ [] }
    {
        Parents {
            table: IndexMap::with_hasher(alloc, seed),
        }
    }

    /// The same notes once more. Expected time and memory in the directories.
    pub fn copy(&self) -> Result<Self, AllocError>
        ensures { IfOk result (λ parents. parents.table.entries ≡ self.now.table.entries) }
    {
        Ok(Parents {
            table: self.table.clone()?,
        })
    }

    /// About so many bytes of memory are taken. Constant time.
    pub fn weight(&self) -> u64 {
        (self.table.len() as u64).saturating_mul(PARENT_WEIGHT)
    }

    /// The directory that is noted for a file, if one is, whatever the hint.
    ///
    /// Takes no memory. Constant time where the file's entry stands where the hint says, else expected constant time.
    pub fn of(&self, file: FileId, hint: usize) -> Option<Parent>
        ensures { option_map (λ parent. parent.directory) result ≡ parent_noted self.now.table.entries file }
    {
        if let Some((key, parent)) = self.table.get_index(hint) {
            if *key == file {
                return Some(*parent);
            }
        }
        self.table.get(&file).copied()
    }

    /// Where the entry of a file stands, if it has one, and else any number: the hint for it.
    ///
    /// Takes no memory, in expected constant time.
    fn hint(&self, file: FileId) -> usize {
        self.table.get_index_of(&file).unwrap_or(0)
    }

    /// Notes for a file of this type, if it is a directory, the directory that it is in. An error says that memory was refused, and
    /// nothing is changed.
    ///
    /// Expected constant time but for growing, and for any other file nothing is done.
    pub fn add(&mut self, file: FileId, kind: Kind, directory: FileId) -> Result<(), AllocError>
        ensures noted { OnOk result (kind ≡ Directory → parent_noted self.new.table.entries file ≡ Some directory) }
        ensures others { OnOk result ((of : FileId) → of ≢ file → parent_noted self.new.table.entries of ≡ parent_noted self.old.table.entries of) }
        ensures other_kinds { OnOk result (kind ≢ Directory → self.new.table.entries ≡ self.old.table.entries) }
        ensures unchanged { OnErr result (self.new.table.entries ≡ self.old.table.entries) }
    {
        if kind == Kind::Directory {
            let hint = self.hint(directory);
            self.table.insert(file, Parent { directory, hint })?;
        }
        Ok(())
    }

    /// Notes another directory for a file that has an entry.
    ///
    /// Takes no memory, in expected constant time.
    pub fn set(&mut self, file: FileId, directory: FileId)
        ensures { (of : FileId) → parent_noted self.new.table.entries of ≡ cond (file_eq of file) (option_map (λ _. directory) (parent_noted self.old.table.entries file)) (parent_noted self.old.table.entries of) }
    {
        let hint = self.hint(directory);
        match self.table.get_mut(&file) {
            Some(parent) => *parent = Parent { directory, hint },
            None => {}
        }
    }

    /// Takes the entry of a file away, if it has one.
    ///
    /// Takes no memory, in expected constant time.
    pub fn remove(&mut self, file: FileId)
        ensures { (of : FileId) → parent_noted self.new.table.entries of ≡ cond (file_eq of file) None (parent_noted self.old.table.entries of) }
    {
        self.table.swap_remove(&file);
    }
}
