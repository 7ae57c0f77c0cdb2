//! How far a search has come.

ghost use Rattle.std.specs.Prelude.{◌≡◌, ◌↔◌, ◌∷◌, ◌++◌, [], List, Contains, IsTrue, IfOk, IfErr, OnOk};
ghost use Rattle.fa_capture.specs.Message.{Message};
ghost use Rattle.fa_tree.specs.Alike.{IsInUse};
ghost use Rattle.fa_check.specs.Verdicts.{AreMessagesOf};
ghost use Rattle.fa_search.specs.parts.Configurations.{PlainConfiguration, IsOneMore, IsWithout};
ghost use Rattle.fa_search.specs.parts.Placed.{MayBePlacedAt, IsPlacedIn, IsRefusedIn, IsSameAs};
ghost use Rattle.fa_search.specs.parts.Settling.{IsPushedNew};

use fa_order::Entry;
use fa_tree::{InUse, Replay, StepError, Tree};
use std::alloc::{AllocError, Global};
use std::collections::{BTreeMap, BTreeSet};
use std::hash::{BuildHasher, Hasher};
use std::marker::Model;
use std::mem;

/// About how many bytes an entry holds.
const ENTRY_WEIGHT: u64 = 12;

/// With how many of one number another of that number is compared. Where nobody knows the seed there is hardly ever more than one.
const MOST_COMPARED: usize = 16;

/// How many bytes are copied by a step.
const COPIED_BY_A_STEP: u64 = 4_096;

/// Which of the requests in flight are placed, and the tree behind the entries that placed them and all before.
#[derive(Drop)]
pub(crate) struct Configuration {
    /// The numbers of the requests in flight that are placed.
    placed: BTreeSet<u32>,
    tree: Tree,
    /// The entries that lead to it, behind those that all configurations have in common.
    entries: Vec<Entry>,
    /// A number that is the same for the same ones, once it was reckoned.
    digest: u64,
    /// About how many bytes it holds, once that was reckoned.
    weight: u64,
    alloc: Global,
}

impl Model for Configuration {
    ghost use Rattle.fa_search.specs.parts.Configurations.{PlainConfiguration};
    ghost use Rattle.fa_search.specs.parts.Shown.{configuration_code};

    ghost Value = { PlainConfiguration };

    ghost coded = { configuration_code };

    ghost view = { λ x. record { placed = x.placed.keys; tree = x.tree; entries = x.entries.items } };
}

impl Configuration {
    /// The first one: nothing is placed in this tree.
    pub fn first(alloc: Global, tree: Tree) -> Self
        ensures { result ≡ record { placed = []; tree = tree; entries = [] } }
    {
        Configuration {
            placed: BTreeSet::new(alloc),
            tree,
            entries: Vec::new(alloc),
            digest: 0,
            weight: 0,
            alloc,
        }
    }

    /// The same once more.
    ///
    /// Time and memory of [`Tree::copy`], and in what is placed and the entries.
    pub fn copy(&self) -> Result<Self, AllocError>
        ensures { IfOk result (λ copy. copy ≡ self.now) }
    {
        let placed = self.placed.clone()?;
        let tree = self.tree.copy()?;
        let entries = self.entries.clone()?;
        Ok(Configuration {
            placed,
            tree,
            entries,
            digest: self.digest,
            weight: self.weight,
            alloc: self.alloc,
        })
    }

    /// Whether this request is one of those in flight that are placed.
    pub fn has(&self, asked: u32) -> bool
        ensures { IsTrue result ↔ Contains self.now.placed asked }
    {
        self.placed.contains(&asked)
    }

    /// Places a call: takes its step, and notes it. After a refusal all is as it was; where memory was refused nothing is said.
    pub fn place(
        &mut self,
        replay: &mut Replay<'_>,
        place: usize,
        entry: Entry,
    ) -> Result<(), StepError>
        requires { MayBePlacedAt replay.old.list place entry }
        ensures placed { OnOk result ((c : List Message) → AreMessagesOf replay.old c → IsPlacedIn c self.old entry self.new) }
        ensures refused { IfErr result (IsRefusedIn replay.old self.old self.new entry) }
        ensures same { replay.new ≡ replay.old }
    {
        self.tree.step_in(replay, place, entry.wrote)?;
        self.note(entry)?;
        Ok(())
    }

    /// Notes an entry whose step was taken.
    fn note(&mut self, entry: Entry) -> Result<(), AllocError>
        ensures placed { OnOk result (IsOneMore self.old.placed entry.at self.new.placed) }
        ensures entries { OnOk result (self.new.entries ≡ self.old.entries ++ entry ∷ []) }
        ensures tree { OnOk result (self.new.tree ≡ self.old.tree) }
    {
        self.placed.insert(entry.at)?;
        self.entries.push(entry)?;
        Ok(())
    }

    /// Takes note that the request was answered: it is in flight no more.
    pub fn forget(&mut self, asked: u32)
        ensures without { IsWithout self.old asked self.new }
        ensures entries { self.new.entries ≡ self.old.entries }
    {
        self.placed.remove(&asked);
    }

    /// The entries that lead to it, which it has no more.
    pub fn take_entries(&mut self) -> Vec<Entry>
        ensures taken { result.items ≡ self.old.entries }
        ensures left { self.new ≡ record { placed = self.old.placed; tree = self.old.tree; entries = [] } }
    {
        mem::replace(&mut self.entries, Vec::new(self.alloc))
    }

    /// An order that leads to it: the entries that all configurations have in common, and then its own.
    pub fn order(&self, common: &[Entry]) -> Result<Vec<Entry>, AllocError>
        ensures { IfOk result (λ order. order.items ≡ common.now ++ self.now.entries) }
    {
        let mut order = Vec::new(self.alloc);
        order.extend_from_slice(common)?;
        order.extend_from_slice(&self.entries)?;
        Ok(order)
    }

    /// Reckons the number by which the same ones are found, where these openings are of use, and about how many bytes it holds.
    ///
    /// Takes no memory, and time of [`Tree::digest`] and [`Tree::weight`].
    pub fn reckon(&mut self, in_use: &InUse<'_>)
        ensures { self.new ≡ self.old }
    {
        let mut digest = self.tree.seed().build_hasher();
        digest.write_u64(self.tree.digest(in_use));
        for asked in self.placed.iter() {
            digest.write_u32(*asked);
        }
        self.digest = digest.finish();
        let entries = (self.entries.len() as u64).saturating_mul(ENTRY_WEIGHT);
        self.weight = self.tree.weight().saturating_add(entries);
    }

    /// Whether the same requests are placed in both, and both have the same tree, but for openings that are of no use. True where this is
    /// so, if the trees of both have one seed and the numbers of both were reckoned with these openings.
    pub fn is_same(&self, other: &Configuration, in_use: &InUse<'_>) -> bool
        ensures { IsTrue result → IsSameAs (IsInUse in_use.now) self.now other.now }
    {
        self.digest == other.digest
            && self.placed == other.placed
            && self.tree.is_alike(&other.tree, in_use)
    }

    /// Whether both have the same tree.
    pub fn has_same_tree(&self, other: &Configuration) -> bool
        ensures { IsTrue result → self.now.tree ≡ other.now.tree }
    {
        self.tree.is_same(&other.tree)
    }

    /// About how many bytes it holds, as that was reckoned last.
    pub fn weight(&self) -> u64 {
        self.weight
    }

    /// How many steps it costs to copy it.
    pub fn copy_steps(&self) -> u64 {
        self.weight / COPIED_BY_A_STEP
    }
}

/// Configurations by their numbers, for those that are the same to be found.
#[derive(Drop)]
pub(crate) struct Known {
    /// Where in the list those with a number stand.
    places: BTreeMap<u64, Vec<usize>>,
    alloc: Global,
}

impl Known {
    /// None.
    pub fn new(alloc: Global) -> Self {
        Known {
            places: BTreeMap::new(alloc),
            alloc,
        }
    }

    /// Pushes a configuration, unless the same one is found to be known, where these openings are of use: how many bytes were added. Its
    /// number was reckoned, and so were theirs.
    ///
    /// Time in the logarithm of the list, and that of a comparison with each of the first 16 that have its number.
    pub fn push_new(
        &mut self,
        list: &mut Vec<Configuration>,
        one: Configuration,
        in_use: &InUse<'_>,
    ) -> Result<u64, AllocError>
        ensures { OnOk result (IsPushedNew (IsInUse in_use.now) list.old.items one list.new.items) }
    {
        if self.has(list, &one, in_use) {
            return Ok(0);
        }
        let weight = one.weight();
        self.note(one.digest, list.len())?;
        push(list, one)?;
        Ok(weight)
    }

    /// Takes note of the place of one with this number.
    fn note(&mut self, digest: u64, place: usize) -> Result<(), AllocError> {
        if let Some(places) = self.places.get_mut(&digest) {
            places.push(place)?;
            return Ok(());
        }
        self.places.insert(digest, vec![in self.alloc; place]?)?;
        Ok(())
    }

    /// Whether one of the first that are known by its number is the same.
    fn has(&self, list: &[Configuration], other: &Configuration, in_use: &InUse<'_>) -> bool
        ensures { IsTrue result → (one : PlainConfiguration) × Contains list.now one × IsSameAs (IsInUse in_use.now) other.now one }
    {
        match self.places.get(&other.digest) {
            Some(places) => {
                let first = places.get(..MOST_COMPARED).unwrap_or(places);
                is_among(list, first, other, in_use)
            }
            None => false,
        }
    }
}

/// Whether one at these places is the same.
fn is_among(
    list: &[Configuration],
    places: &[usize],
    other: &Configuration,
    in_use: &InUse<'_>,
) -> bool
    ensures { IsTrue result → (one : PlainConfiguration) × Contains list.now one × IsSameAs (IsInUse in_use.now) other.now one }
{
    for place in places {
        if is_there(list, *place, other, in_use) {
            return true;
        }
    }
    false
}

/// Whether the one at this place is the same.
fn is_there(list: &[Configuration], place: usize, other: &Configuration, in_use: &InUse<'_>) -> bool
    ensures { IsTrue result → (one : PlainConfiguration) × Contains list.now one × IsSameAs (IsInUse in_use.now) other.now one }
{
    if list.len() <= place {
        return false;
    }
    other.is_same(&list[place], in_use)
}

/// Pushes a configuration.
pub(crate) fn push(list: &mut Vec<Configuration>, one: Configuration) -> Result<(), AllocError>
    ensures { OnOk result (list.new.items ≡ list.old.items ++ one ∷ []) }
{
    list.push(one)?;
    Ok(())
}
