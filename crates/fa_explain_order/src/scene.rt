//! What is told of an entry that a tree refuses.

use fa_ledger::Calls;
use fa_refusal::{Case, Earlier, History, path_of};
use fa_tree::{FileId, Kind, Tree};
use std::alloc::{AllocError, Global};
use std::cell::Cell;

/// The memory for what the lines tell, as paths and targets. That some was refused is noted, so that what writes a line need not say so:
/// what found none is not told, and the text is given up at its end.
#[derive(Drop)]
pub(crate) struct Memory {
    pub alloc: Global,
    is_refused: Cell<bool>,
}

impl Memory {
    /// None was refused yet.
    pub fn new(alloc: Global) -> Self {
        Memory {
            alloc,
            is_refused: Cell::new(false),
        }
    }

    /// What was made; where memory for it was refused nothing, and that is noted.
    pub fn noted<T>(&self, made: Result<T, AllocError>) -> Option<T> {
        match made {
            Ok(made) => Some(made),
            Err(AllocError) => {
                self.is_refused.set(true);
                None
            }
        }
    }

    /// Whether some was refused.
    pub fn is_refused(&self) -> bool {
        self.is_refused.get()
    }
}

/// A request whose step a tree refuses, with what the entries before it did.
#[derive(Clone, Copy)]
pub(crate) struct Scene<'a> {
    pub memory: &'a Memory,
    pub calls: &'a Calls<'a>,
    pub tree: &'a Tree,
    pub history: &'a History,
    pub earlier: Earlier,
    pub case: Case<'a>,
}

impl Scene<'_> {
    /// The path of a file, if names lead to it.
    pub fn path(&self, file: FileId) -> Option<Vec<u8>> {
        match self
            .memory
            .noted(path_of(self.memory.alloc, self.tree, file))
        {
            Some(path) => path,
            None => None,
        }
    }

    /// Whether a file is of this type.
    pub fn is_of(&self, file: FileId, kind: Kind) -> bool {
        match self.tree.facts(file) {
            Some(facts) => facts.kind == kind,
            None => false,
        }
    }
}
