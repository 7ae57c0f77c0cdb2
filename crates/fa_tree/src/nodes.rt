//! The files that names of nodes stand for.

ghost use Rattle.std.specs.Prelude.{◌≡◌, ◌≤◌, ◌<◌, ◌+◌, ◌↔◌, Some, length, IsTrue, IfOk, OnOk};
ghost use Rattle.fa_tree.specs.declared.id.FileId.{FileId};
ghost use Rattle.std.specs.FinMap as map;
ghost use Rattle.indexmap.specs.IndexMap.{spare};
ghost use Rattle.fa_tree.specs.Bindings.{AreBound, nodes_after};
ghost use Rattle.fa_tree.specs.parts.NodeParts.{nodes_shown};
ghost use Rattle.fa_tree.specs.parts.SameParts.{IsMapWithin};

use crate::id::FileId;
use fa_capture::Seed;
use fa_ledger::NodeName;
use fa_store::digest_of;
use indexmap::IndexMap;
use std::alloc::{AllocError, Global};

/// An entry of the table takes about so many bytes.
const NODE_WEIGHT: u64 = 56;

/// The files that names of nodes stand for.
#[derive(Drop)]
pub(crate) struct Nodes {
    pub files: IndexMap<NodeName, FileId, Seed>,
}

impl Nodes {
    /// No name stands for a file.
    pub fn new(alloc: Global, seed: Seed) -> Self
        ensures { nodes_shown result ≡ map.empty }
    {
        Nodes {
            files: IndexMap::with_hasher(alloc, seed),
        }
    }

    /// The same names once more, for the same files. Expected time and memory in the names.
    pub fn copy(&self) -> Result<Self, AllocError>
        ensures { IfOk result (λ nodes. nodes_shown nodes ≡ nodes_shown self.now) }
    {
        Ok(Nodes {
            files: self.files.clone()?,
        })
    }

    /// Whether in both the same names stand for the same files, in whichever order they came.
    ///
    /// Takes no memory, and expected time in the names.
    pub fn is_same(&self, other: &Nodes) -> bool
        ensures { IsTrue result → nodes_shown self.now ≡ nodes_shown other.now }
    {
        self.is_within(other) && other.is_within(self)
    }

    /// Whether each name stands for the same file in others.
    ///
    /// Takes no memory, and expected time in the names.
    fn is_within(&self, other: &Nodes) -> bool
        ensures { IsTrue result → IsMapWithin (nodes_shown self.now) (nodes_shown other.now) }
    {
        self.files
            .iter()
            .all(|(name, file)| other.stands_for(name, *file))
    }

    /// Whether the name stands for this file.
    fn stands_for(&self, name: &NodeName, file: FileId) -> bool
        ensures { IsTrue result → map.get (nodes_shown self.now) name.now ≡ Some file }
    {
        match self.get(name) {
            Some(other) => other == file,
            None => false,
        }
    }

    /// A number under the seed for the names and their files, the same for the same ones, in whichever order they came. Takes no memory, and
    /// time in the names.
    pub fn digest(&self, seed: Seed) -> u64 {
        self.files.iter().fold(0_u64, |sum, (name, file)| {
            sum.wrapping_add(digest_of(seed, &(*name, *file)))
        })
    }

    /// About so many bytes of memory are taken. Constant time.
    pub fn weight(&self) -> u64 {
        (self.files.len() as u64).saturating_mul(NODE_WEIGHT)
    }

    /// The file that the name stands for, if it stands for one.
    pub fn get(&self, name: &NodeName) -> Option<FileId>
        ensures { result ≡ map.get (nodes_shown self.now) name.now }
    {
        self.files.get(name).copied()
    }

    /// Makes room for a name.
    pub fn reserve(&mut self) -> Result<(), AllocError>
        ensures same { nodes_shown self.new ≡ nodes_shown self.old }
        ensures room { OnOk result (0 < spare self.new.files) }
    {
        self.reserve_for(1)
    }

    /// Makes room for so many names.
    pub fn reserve_for(&mut self, count: usize) -> Result<(), AllocError>
        ensures same { nodes_shown self.new ≡ nodes_shown self.old }
        ensures room { OnOk result (count ≤ spare self.new.files) }
    {
        self.files.reserve(count)
    }

    /// The name stands for the file from now on. There is room for it.
    pub fn bind(&mut self, given: (NodeName, FileId))
        requires room { 0 < spare self.old.files }
        ensures bound { nodes_shown self.new ≡ map.insert (nodes_shown self.old) given.0 given.1 }
        ensures left { spare self.old.files ≤ spare self.new.files + 1 }
    {
        self.files.insert(given.0, given.1).unwrap();
    }

    /// Names stand for files from now on. There is room for them.
    pub fn bind_all(&mut self, given: &[(NodeName, FileId)])
        requires room { length given.now ≤ spare self.old.files }
        ensures bound { nodes_shown self.new ≡ nodes_after given.now (nodes_shown self.old) }
    {
        for one in given {
            self.bind(*one);
        }
    }

    /// Whether a name may be given for this file: it stands for no other.
    fn may_bind(&self, given: &(NodeName, FileId)) -> bool
        ensures { IsTrue result ↔ ((other : FileId) → map.get (nodes_shown self.now) given.now.0 ≡ Some other → given.now.1 ≡ other) }
    {
        match self.get(&given.0) {
            Some(other) => other == given.1,
            None => true,
        }
    }

    /// Whether names may be given for these files: none stands for another file, and none is given for two.
    ///
    /// Time linear in them, with memory for a table of them.
    pub fn may_bind_all(
        &self,
        alloc: Global,
        given: &[(NodeName, FileId)],
    ) -> Result<bool, AllocError>
        ensures { IfOk result (λ may. IsTrue may ↔ AreBound (nodes_shown self.now) given.now) }
    {
        let mut seen = Nodes::new(alloc, *self.files.hasher());
        seen.reserve_for(given.len())?;
        for one in given {
            if !self.may_bind(one) || !seen.may_bind(one) {
                return Ok(false);
            }
            seen.bind(*one);
        }
        Ok(true)
    }
}
