//! Entries by the ranks of their calls.

ghost use Rattle.std.specs.Prelude.{◌≡◌, [], drop, slice_get, AllPairs, OnOk, OnErr};
ghost use Rattle.std.specs.BTreeMap.{insert_entry, is_at};
ghost use Rattle.std.specs.Map.{remove_entry};
ghost use Rattle.fa_propose.specs.parts.Candidates.{cmp};
ghost use Rattle.fa_propose.specs.parts.Ready.{IsRankedBefore};

use crate::rank::Rank;
use fa_order::Entry;
use std::alloc::{AllocError, Global};
use std::cmp::Ordering;
use std::collections::BTreeMap;
use std::marker::Model;

/// Entries by the ranks of their calls.
///
/// The one of the least rank stands apart from the map of the others, which is empty, and is not asked, where each request is
/// answered before the next one is sent.
#[derive(Drop)]
pub(crate) struct Candidates {
    /// The one of the least rank, with its rank.
    first: Option<(Rank, Entry)>,
    /// The others. There are none without a first.
    others: BTreeMap<Rank, Entry>,
}

impl Model for Candidates {
    ghost use Rattle.std.specs.Prelude.{List};
    ghost use Rattle.fa_order.specs.declared.entry.Entry.{Entry};
    ghost use Rattle.fa_propose.specs.declared.rank.Rank.{Rank};

    ghost Value = { List (Rank × Entry) };

    ghost use Rattle.fa_propose.specs.parts.Candidates.{candidates_shown, IsFirstApart};

    ghost view = { candidates_shown };

    ghost invariant = { IsFirstApart };
}

impl Candidates {
    /// None. The map takes memory from `alloc` later.
    ///
    /// Takes no memory, in constant time.
    pub fn new(alloc: Global) -> Self
        ensures { result ≡ [] }
    {
        Candidates {
            first: None,
            others: BTreeMap::new(alloc),
        }
    }

    /// The one of the least rank, with its rank.
    ///
    /// Takes no memory, in constant time.
    #[inline(always)]
    pub fn first(&self) -> Option<(Rank, Entry)>
        ensures first { result ≡ slice_get self.now 0 }
        ensures ordered { AllPairs IsRankedBefore self.now }
    {
        self.first
    }

    /// All but the first.
    ///
    /// Takes no memory, in constant time.
    #[inline(always)]
    pub fn others(&self) -> &BTreeMap<Rank, Entry>
        ensures { result.now.entries ≡ drop 1 self.now }
    {
        &self.others
    }

    /// Takes in an entry at its rank, in the place of one that stands there. An error says that memory was refused, and nothing is
    /// changed.
    ///
    /// For the only one it takes no memory, in constant time; else memory for one more in the map, in logarithmic time.
    #[inline(always)]
    pub fn insert(&mut self, rank: Rank, entry: Entry) -> Result<(), AllocError>
        ensures inserted { OnOk result (self.new ≡ insert_entry cmp self.old rank entry) }
        ensures unchanged { OnErr result (self.new ≡ self.old) }
    {
        let Some(first) = self.first else {
            self.first = Some((rank, entry));
            return Ok(());
        };
        match rank.cmp(&first.0) {
            Ordering::Less => {
                insert_other(&mut self.others, first.0, first.1)?;
                self.first = Some((rank, entry));
                Ok(())
            }
            Ordering::Equal => {
                self.first = Some((rank, entry));
                Ok(())
            }
            Ordering::Greater => {
                insert_other(&mut self.others, rank, entry)?;
                Ok(())
            }
        }
    }

    /// Takes the entry at this rank away, if there is one.
    ///
    /// Takes no memory; for the only one constant time, else logarithmic time.
    #[inline(always)]
    pub fn remove(&mut self, rank: Rank)
        ensures { self.new ≡ remove_entry (is_at (cmp rank)) self.old }
    {
        let Some(first) = self.first else {
            return;
        };
        if rank.cmp(&first.0).is_ne() {
            self.others.remove(&rank);
        } else if self.others.is_empty() {
            self.first = None;
        } else {
            self.first = self.others.pop_first();
        }
    }
}

/// Puts an entry into the map of the others. An error says that memory was refused, and nothing is changed.
// It is kept out of `insert`, so that where no map is asked no room is made for what one answers.
#[inline(never)]
fn insert_other(
    others: &mut BTreeMap<Rank, Entry>,
    rank: Rank,
    entry: Entry,
) -> Result<(), AllocError>
    ensures entries { OnOk result (others.new.entries ≡ insert_entry cmp others.old.entries rank entry) }
    ensures unchanged { OnErr result (others.new.entries ≡ others.old.entries) }
{
    others.insert(rank, entry)?;
    Ok(())
}
