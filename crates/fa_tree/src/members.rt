//! The places of each directory, by their indexes in the table of all places, so that they need not be looked for among all.

ghost use Rattle.std.specs.Prelude.{◌≡◌, ◌∷◌, ◌++◌, cond, [], IfOk, OnOk, OnErr};
ghost use Rattle.fa_tree.specs.declared.id.FileId.{FileId};
ghost use Rattle.fa_tree.specs.State.{file_eq};
ghost use Rattle.fa_tree.specs.parts.MemberParts.{members_of};

use crate::id::FileId;
use fa_capture::Seed;
use indexmap::IndexMap;
use std::alloc::{AllocError, Global};

/// For each directory indexes of places.
#[derive(Drop)]
pub(crate) struct Members {
    alloc: Global,
    pub table: IndexMap<FileId, Vec<usize>, Seed>,
}

impl Members {
    /// No directory has a place. What is stored later takes memory from `alloc`.
    ///
    /// Takes no memory, in constant time.
    pub fn new(alloc: Global, seed: Seed) -> Self
        ensures { result.table.entries ≡ [] }
    {
        Members {
            alloc,
            table: IndexMap::with_hasher(alloc, seed),
        }
    }

    /// The same indexes once more. Expected time and memory in the indexes.
    pub fn copy(&self) -> Result<Self, AllocError>
        ensures { IfOk result (λ members. (of : FileId) → members_of members.table.entries of ≡ members_of self.now.table.entries of) }
    {
        Ok(Members {
            alloc: self.alloc,
            table: self.table.clone()?,
        })
    }

    /// The indexes of a directory, the earlier before the later.
    ///
    /// Takes no memory, in expected constant time.
    pub fn of(&self, directory: FileId) -> &[usize]
        ensures { result.now ≡ members_of self.now.table.entries directory }
    {
        match self.table.get(&directory) {
            Some(indexes) => indexes.as_slice(),
            None => &[],
        }
    }

    /// One index more for a directory. An error says that memory was refused, and nothing is changed.
    ///
    /// Expected constant time but for growing.
    pub fn add(&mut self, directory: FileId, index: usize) -> Result<(), AllocError>
        ensures added { OnOk result ((of : FileId) → members_of self.new.table.entries of ≡ cond (file_eq of directory) (members_of self.old.table.entries of ++ index ∷ []) (members_of self.old.table.entries of)) }
        ensures unchanged { OnErr result ((of : FileId) → members_of self.new.table.entries of ≡ members_of self.old.table.entries of) }
    {
        match self.table.get_mut(&directory) {
            Some(indexes) => {
                indexes.push(index)?;
                Ok(())
            }
            None => {
                let mut indexes = Vec::new(self.alloc);
                indexes.push(index)?;
                self.table.insert(directory, indexes)?;
                Ok(())
            }
        }
    }
}
