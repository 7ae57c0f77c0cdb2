//! How often names were listed.

ghost use Rattle.std.specs.Prelude.{◌≡◌, ◌↔◌, ◌≤◌, ◌<◌, ◌+◌, ◌^◌, cond, ℕ, true, false, List, length, IsTrue, OnOk, OnErr};
ghost use Rattle.std.specs.Bool.{MatchBool};
ghost use Rattle.std.specs.Fn.{FnReturnsAt};
ghost use Rattle.std.specs.Str.{bytes_eq};
ghost use Rattle.fa_tree.specs.declared.tally.Tally.{Tally as TheTally};
ghost use Rattle.fa_tree.specs.parts.TallyParts.{Tallies, TalliesAt, Grows};

use crate::name_hash::feed_name;
use fa_capture::Seed;
use indexmap::IndexSet;
use std::alloc::{AllocError, Global};
use std::hash::{Hash, Hasher};

/// A name that was listed.
#[derive(Clone, Copy, PartialEq, Eq)]
pub(crate) struct Listed<'a> {
    pub name: &'a [u8],
}

impl Hash for Listed<'_> {
    ghost use Rattle.fa_tree.specs.parts.NameFed.{name_fed};
    ghost use Rattle.fa_tree.specs.parts.TallyParts.{listed_alike};

    ghost hash_input = { λ listed. name_fed listed.name.now };

    ghost respects_eq = { λ x y equal. listed_alike x.name.now y.name.now equal };

    fn hash<H: Hasher>(&self, state: &mut H) {
        feed_name(self.name, state);
    }
}

/// Names that were listed.
#[derive(Drop)]
pub(crate) struct Tally<'a> {
    /// Each, in the order in which they were listed first.
    pub names: IndexSet<Listed<'a>, Seed>,
    /// Those that were listed more than once, in the order in which they were listed again first.
    pub again: IndexSet<Listed<'a>, Seed>,
}

/// How far a tally reached at some time, to go back there.
#[derive(Clone, Copy, Drop)]
pub(crate) struct Reach {
    /// So many names were listed.
    pub names: usize,
    /// So many of them more than once.
    pub again: usize,
}

/// Gives back memory of names where less than a quarter of it is needed.
fn give_back(names: &mut IndexSet<Listed<'_>, Seed>)
    ensures { names.new.keys ≡ names.old.keys }
{
    if names.capacity() / 4 > names.len() {
        names.shrink_to_fit();
    }
}

impl<'a> Tally<'a> {
    /// No name was listed. What is noted later takes memory from `alloc`.
    pub fn new(alloc: Global, seed: Seed) -> Self
        ensures { Tallies result (λ name. 0) }
    {
        Tally {
            names: IndexSet::with_hasher(alloc, seed),
            again: IndexSet::with_hasher(alloc, seed),
        }
    }

    /// How many names were listed, each counted once. Takes no memory, in constant time.
    pub fn len(&self) -> usize
        ensures len { result ≡ length self.now.names.keys }
        ensures small { result < 2 ^ 63 }
    {
        self.names.len()
    }

    /// How far this reaches. Takes no memory, in constant time.
    pub fn reach(&self) -> Reach
        ensures { (new : TheTally) (times : List ℕ → ℕ) → Grows self.now new → Tallies self.now times → TalliesAt new result times }
    {
        Reach {
            names: self.names.len(),
            again: self.again.len(),
        }
    }

    /// Forgets what was noted since this reached so far. Takes no memory, and time in the names that were listed since. Their memory is
    /// kept for others.
    pub fn go_back(&mut self, reach: Reach)
        ensures { (times : List ℕ → ℕ) → TalliesAt self.old reach times → Tallies self.new times }
    {
        self.names.truncate(reach.names);
        self.again.truncate(reach.again);
    }

    /// Gives back memory where less than a quarter of it is needed, as when names were forgotten. Takes then time in the names.
    pub fn give_back(&mut self)
        ensures names { self.new.names.keys ≡ self.old.names.keys }
        ensures again { self.new.again.keys ≡ self.old.again.keys }
    {
        give_back(&mut self.names);
        give_back(&mut self.again);
    }

    /// Notes that the name was listed once more. An error says that memory was refused, and nothing is changed.
    ///
    /// Expected time in the bytes of the name, but for what growing costs.
    pub fn note(&mut self, name: &'a [u8]) -> Result<(), AllocError>
        ensures noted { OnOk result ((times : List ℕ → ℕ) → Tallies self.old times → Tallies self.new (λ other. times other + cond (bytes_eq name.now other) 1 0)) }
        ensures grows { OnOk result (Grows self.old self.new) }
        ensures unchanged { OnErr result ((times : List ℕ → ℕ) → Tallies self.old times → Tallies self.new times) }
    {
        if !self.names.insert(Listed { name })? {
            self.again.insert(Listed { name })?;
        }
        Ok(())
    }

    /// Whether the name was listed. Takes no memory, in expected time of the bytes of the name.
    pub fn has(&self, name: &[u8]) -> bool
        ensures { (times : List ℕ → ℕ) → Tallies self.now times → IsTrue result ↔ (1 ≤ times name.now) }
    {
        self.names.contains(&Listed { name })
    }

    /// Whether this holds of each name that was listed more than once. Takes no memory, in time of those names and of what it asks.
    pub fn all_repeated<F: Fn(&[u8]) -> bool + Drop>(&self, holds: F) -> bool
        requires { F.IsAlwaysCallable holds }
        ensures { (times : List ℕ → ℕ) → Tallies self.now times → MatchBool result ((name : List ℕ) → 1 < times name → FnReturnsAt F.Fn holds name true) ((name : List ℕ) × (1 < times name) × FnReturnsAt F.Fn holds name false) }
    {
        self.again.iter().all(|listed| holds(listed.name))
    }
}
