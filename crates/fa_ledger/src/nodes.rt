//! The nodes that are known, with their lookup counts.

ghost use Rattle.std.specs.Prelude.{◌≡◌, ◌≢◌, ℕ, ◌+◌, ◌<◌, ◌≤◌, [], ◌∷◌, cond, nat_eq, length, take, Some, OnOk, OnErr, IfErr, IsTrue};
ghost use Rattle.indexmap.specs.IndexMap.{get, spare, IsUnchanged};
ghost use Rattle.fa_bodies.specs.declared.requests.TheConstants.{ROOT_ID};
ghost use Rattle.fa_bodies.specs.Items.{items_in};
ghost use Rattle.fa_capture.specs.declared.codes.TheConstants.{FORGOTTEN_TOO_OFTEN};
ghost use Rattle.fa_ledger.specs.declared.nodes.Lookups.{Lookups};
ghost use Rattle.fa_ledger.specs.Counts.{total_taken};
ghost use Rattle.fa_ledger.specs.parts.Steps.{named_by, given_to, given_again, lowered, raised, left_over, count_left, times_named, is_new, some_new, but_root, AreWithin, IsTakenFrom, IsDropped};

use crate::name::NodeName;
use fa_bodies::{ROOT_ID, items};
use fa_capture::{Seed, codes};
use indexmap::IndexMap;
use std::alloc::{AllocError, Global};

/// What is known of a node that was given.
#[derive(Clone, Copy, Debug)]
pub(crate) struct Lookups {
    /// How many lookups were given and not taken back, more than none.
    pub count: u64,
    /// The number of the reply since which there were some.
    pub by: u32,
}

/// The nodes that are known but for the root, which is always known.
#[derive(Drop)]
pub(crate) struct Nodes {
    pub known: IndexMap<u64, Lookups, Seed>,
}

impl Nodes {
    /// No node but the root is known. The table takes memory from `alloc` later.
    pub fn new(alloc: Global, seed: Seed) -> Self
        ensures { result.known.entries ≡ [] }
    {
        Nodes {
            known: IndexMap::with_hasher(alloc, seed),
        }
    }

    /// The name of a node, if it is known.
    #[inline(always)]
    pub fn name_of(&self, id: u64) -> Option<NodeName>
        ensures { result ≡ named_by id (get nat_eq self.now.known id) }
    {
        if id == ROOT_ID {
            return Some(NodeName::Root);
        }
        let lookups = self.known.get(&id)?;
        Some(NodeName::Given { id, by: lookups.by })
    }

    /// The name that a node has once the reply of this number has given it.
    #[inline(always)]
    pub fn name_given(&self, id: u64, at: u32) -> NodeName
        ensures { result ≡ given_to id at (get nat_eq self.now.known id) }
    {
        let by = match self.known.get(&id) {
            Some(lookups) => lookups.by,
            None => at,
        };
        NodeName::Given { id, by }
    }

    /// Makes room for nodes of these names, so that they can be given without memory.
    pub fn reserve(&mut self, names: &[NodeName]) -> Result<(), AllocError>
        ensures kept { IsUnchanged self.old.known self.new.known }
        ensures room { OnOk result (IsTrue (some_new self.old.known.entries names.now) → length names.now ≤ spare self.new.known) }
        ensures wanted { OnErr result (IsTrue (some_new self.old.known.entries names.now)) }
    {
        if self.has_new(names) {
            self.known.reserve(names.len())?;
        }
        Ok(())
    }

    /// Counts one lookup more of the node of each name, by the reply of this number.
    #[inline(always)]
    pub fn give(&mut self, names: &[NodeName], at: u32)
        requires room { IsTrue (some_new self.old.known.entries names.now) → length names.now ≤ spare self.old.known }
        requires few { (node : ℕ) → count_left (get nat_eq self.old.known node) + length names.now ≤ 18446744073709551615 }
        ensures { (node : ℕ) → get nat_eq self.new.known node ≡ given_again at (times_named node names.now) (get nat_eq self.old.known node) }
    {
        for name in names {
            self.give_one(*name, at);
        }
    }

    /// Takes back so many lookups of a node: FORGET. The error is the code where that is more than are left, and the node is
    /// as it was.
    pub fn forget(&mut self, id: u64, nlookup: u64) -> Result<(), u16>
        requires { (node : ℕ) (l : Lookups) → get nat_eq self.old.known node ≡ Some l → 0 < l.count }
        ensures within { OnOk result (AreWithin self.old.known.entries (but_root ((id, nlookup) ∷ []))) }
        ensures taken { OnOk result ((node : ℕ) → IsTakenFrom (total_taken node (but_root ((id, nlookup) ∷ []))) (get nat_eq self.old.known node) (get nat_eq self.new.known node)) }
        ensures refused { IfErr result (λ code. (code ≡ FORGOTTEN_TOO_OFTEN) × (AreWithin self.old.known.entries (but_root ((id, nlookup) ∷ [])) → ⊥)) }
        ensures unchanged { OnErr result (IsUnchanged self.old.known self.new.known) }
    {
        self.lower(id, nlookup)?;
        self.drop_forgotten(id);
        Ok(())
    }

    /// Takes back lookups of several nodes, item by item, as the items of a BATCH_FORGET say. The error is the code where an
    /// item takes more than are left behind the earlier items, and all nodes are as they were.
    pub fn forget_all(&mut self, bytes: &[u8]) -> Result<(), u16>
        requires few { (node : ℕ) → count_left (get nat_eq self.old.known node) < 18446744073709551616 }
        requires some { (node : ℕ) (l : Lookups) → get nat_eq self.old.known node ≡ Some l → 0 < l.count }
        ensures within { OnOk result (AreWithin self.old.known.entries (but_root (items_in bytes.now))) }
        ensures taken { OnOk result ((node : ℕ) → IsTakenFrom (total_taken node (but_root (items_in bytes.now))) (get nat_eq self.old.known node) (get nat_eq self.new.known node)) }
        ensures refused { IfErr result (λ code. (code ≡ FORGOTTEN_TOO_OFTEN) × (AreWithin self.old.known.entries (but_root (items_in bytes.now)) → ⊥)) }
        ensures unchanged { OnErr result ((node : ℕ) → get nat_eq self.new.known node ≡ get nat_eq self.old.known node) }
    {
        match self.lower_all(bytes) {
            Ok(()) => {
                self.drop_all(bytes);
                Ok(())
            }
            Err(done) => {
                self.raise_all(bytes, done);
                Err(codes::FORGOTTEN_TOO_OFTEN)
            }
        }
    }

    /// Takes back the lookups of items one after the other, and leaves the nodes in the table. The error is the number of
    /// items before the first that takes more than are left; these were taken.
    fn lower_all(&mut self, bytes: &[u8]) -> Result<(), usize>
        ensures within { OnOk result (AreWithin self.old.known.entries (but_root (items_in bytes.now))) }
        ensures lowered { OnOk result ((node : ℕ) → get nat_eq self.new.known node ≡ lowered (total_taken node (but_root (items_in bytes.now))) (get nat_eq self.old.known node)) }
        ensures fewer { OnOk result ((node : ℕ) → total_taken node (but_root (items_in bytes.now)) ≤ count_left (get nat_eq self.old.known node)) }
        ensures refused { IfErr result (λ done. AreWithin self.old.known.entries (but_root (items_in bytes.now)) → ⊥) }
        ensures front { IfErr result (λ done. (node : ℕ) → total_taken node (but_root (take done (items_in bytes.now))) ≤ count_left (get nat_eq self.old.known node)) }
        ensures front_lowered { IfErr result (λ done. (node : ℕ) → get nat_eq self.new.known node ≡ lowered (total_taken node (but_root (take done (items_in bytes.now)))) (get nat_eq self.old.known node)) }
    {
        let mut done = 0;
        for (id, nlookup) in items(bytes) {
            match self.lower(id, nlookup) {
                Ok(()) => done += 1,
                Err(_) => return Err(done),
            }
        }
        Ok(())
    }

    /// Gives back the lookups of the first items.
    fn raise_all(&mut self, bytes: &[u8], done: usize)
        requires { (node : ℕ) → count_left (get nat_eq self.old.known node) + total_taken node (but_root (take done (items_in bytes.now))) < 18446744073709551616 }
        ensures { (node : ℕ) → get nat_eq self.new.known node ≡ raised (total_taken node (but_root (take done (items_in bytes.now)))) (get nat_eq self.old.known node) }
    {
        let mut left = done;
        for (id, nlookup) in items(bytes) {
            if left == 0 {
                return;
            }
            self.raise(id, nlookup);
            left -= 1;
        }
    }

    /// Takes the nodes of items of which no lookup is left out of the table.
    fn drop_all(&mut self, bytes: &[u8])
        ensures { (node : ℕ) → IsDropped (total_taken node (but_root (items_in bytes.now))) (get nat_eq self.old.known node) (get nat_eq self.new.known node) }
    {
        for (id, _) in items(bytes) {
            self.drop_forgotten(id);
        }
    }

    /// Takes back so many lookups of a node, which stays in the table even where none is left.
    fn lower(&mut self, id: u64, nlookup: u64) -> Result<(), u16>
        ensures ok { OnOk result (id ≢ ROOT_ID → nlookup ≤ count_left (get nat_eq self.old.known id)) }
        ensures lowered { OnOk result ((node : ℕ) → get nat_eq self.new.known node ≡ lowered (total_taken node (but_root ((id, nlookup) ∷ []))) (get nat_eq self.old.known node)) }
        ensures refused { IfErr result (λ code. (code ≡ FORGOTTEN_TOO_OFTEN) × (id ≢ ROOT_ID) × (count_left (get nat_eq self.old.known id) < nlookup)) }
        ensures unchanged { OnErr result (IsUnchanged self.old.known self.new.known) }
    {
        if id == ROOT_ID {
            return Ok(());
        }
        let Some(lookups) = self.known.get(&id).copied() else {
            return if nlookup == 0 {
                Ok(())
            } else {
                Err(codes::FORGOTTEN_TOO_OFTEN)
            };
        };
        if nlookup > lookups.count {
            return Err(codes::FORGOTTEN_TOO_OFTEN);
        }
        let left = Lookups {
            count: lookups.count - nlookup,
            ..lookups
        };
        self.known.insert(id, left).unwrap();
        Ok(())
    }

    /// Gives back so many lookups of a node that is in the table.
    fn raise(&mut self, id: u64, nlookup: u64)
        requires { id ≢ ROOT_ID → count_left (get nat_eq self.old.known id) + nlookup < 18446744073709551616 }
        ensures { (node : ℕ) → get nat_eq self.new.known node ≡ raised (total_taken node (but_root ((id, nlookup) ∷ []))) (get nat_eq self.old.known node) }
    {
        if id == ROOT_ID {
            return;
        }
        if let Some(lookups) = self.known.get(&id).copied() {
            let more = Lookups {
                count: lookups.count + nlookup,
                ..lookups
            };
            self.known.insert(id, more).unwrap();
        }
    }

    /// Takes a node of which no lookup is left out of the table.
    fn drop_forgotten(&mut self, id: u64)
        ensures { (node : ℕ) → get nat_eq self.new.known node ≡ cond (nat_eq id node) (left_over (get nat_eq self.old.known node)) (get nat_eq self.old.known node) }
    {
        if self
            .known
            .get(&id)
            .is_some_and(|lookups| lookups.count == 0)
        {
            self.known.swap_remove(&id);
        }
    }

    /// Whether the node of some of the names is none that is known.
    #[inline(always)]
    fn has_new(&self, names: &[NodeName]) -> bool
        ensures { result ≡ some_new self.now.known.entries names.now }
    {
        names.iter().any(|name| self.is_new(*name))
    }

    /// Whether the node of a name is none that is known.
    #[inline(always)]
    fn is_new(&self, name: NodeName) -> bool
        ensures { result ≡ is_new self.now.known.entries name }
    {
        match name {
            NodeName::Root => false,
            NodeName::Given { id, .. } => !self.known.contains_key(&id),
        }
    }

    /// Counts one lookup more of the node of a name, by the reply of this number.
    #[inline(always)]
    fn give_one(&mut self, name: NodeName, at: u32)
        requires room { IsTrue (is_new self.old.known.entries name) → 0 < spare self.old.known }
        requires few { (node : ℕ) → count_left (get nat_eq self.old.known node) < 18446744073709551615 }
        ensures given { (node : ℕ) → get nat_eq self.new.known node ≡ given_again at (times_named node (name ∷ [])) (get nat_eq self.old.known node) }
        ensures room { spare self.old.known ≤ spare self.new.known + 1 }
    {
        let NodeName::Given { id, .. } = name else {
            return;
        };
        match self.known.get_mut(&id) {
            Some(lookups) => lookups.count += 1,
            None => {
                self.known.insert(id, Lookups { count: 1, by: at }).unwrap();
            }
        }
    }
}
