//! The outstanding requests by their uniques.

ghost use Rattle.std.specs.Prelude.{◌≡◌, ℕ, nat_eq, cond, false, [], Some, None, OnOk, OnErr, IfOk, IfSome, IfErr, map};
ghost use Rattle.std.specs.Map.{lookup};
ghost use Rattle.std.specs.Option.{option_copied, option_map_or};
ghost use Rattle.fa_session.specs.declared.error.SessionError.TheVariants.{Memory};
ghost use Rattle.fa_session.specs.parts.View.{entries_shown, by_unique, owned_shown, owned_by_unique};

use crate::error::SessionError;
use crate::waiting::{OwnedWaiting, Waiting};
use fa_capture::Seed;
use indexmap::IndexMap;
use std::alloc::{AllocError, Global};
use std::marker::Model;

/// The requests that wait for their answers, by their uniques.
///
/// That of the highest unique so far is kept apart from the table of the others. Where uniques rise, as the kernel gives them, it
/// is the newest one too: the table is empty, and is not asked, where each request is answered before the next one is sent. And a
/// unique above all before is not looked for.
#[derive(Drop)]
pub(crate) struct Outstanding<'a> {
    /// The request of the highest unique so far, if it waits. It is the newest one only where uniques rise.
    newest: Option<Waiting<'a>>,
    /// Those of lower uniques, which came earlier where uniques rise.
    earlier: IndexMap<u64, Waiting<'a>, Seed>,
    /// The highest unique that a request had, or 0.
    highest: u64,
}

impl<'a> Model for Outstanding<'a> {
    ghost use Rattle.std.specs.Prelude.{ℕ, List};
    ghost use Rattle.fa_session.specs.declared.waiting.Waiting.{Waiting};

    ghost Value = { List (ℕ × Waiting) };

    ghost use Rattle.fa_session.specs.parts.View.{outstanding_shown, AreOutstanding};

    ghost view = { outstanding_shown };

    ghost invariant = { AreOutstanding };
}

impl<'a> Outstanding<'a> {
    /// None. The table takes memory from `alloc` later, and is hashed with the seed.
    ///
    /// Takes no memory, in constant time.
    pub fn new(alloc: Global, seed: Seed) -> Self
        ensures { result ≡ [] }
    {
        Outstanding {
            newest: None,
            earlier: IndexMap::with_hasher(alloc, seed),
            highest: 0,
        }
    }

    /// The request with this unique.
    ///
    /// Takes no memory, in expected constant time.
    #[inline(always)]
    pub fn get(&self, unique: u64) -> Option<&Waiting<'a>>
        ensures found { option_copied result ≡ lookup (nat_eq unique) self.now }
        ensures unique { IfSome result (λ waiting. waiting.now.unique ≡ unique) }
    {
        if unique > self.highest {
            return None;
        }
        match &self.newest {
            Some(newest) if newest.unique == unique => Some(newest),
            _ => self.earlier.get(&unique),
        }
    }

    /// Takes in a request, in the place of one with its unique if there is one. `Memory` tells that memory was refused; then
    /// there is none, and nothing is changed.
    ///
    /// Expected constant time but for growing.
    #[inline(always)]
    pub fn insert(&mut self, waiting: Waiting<'a>) -> Result<(), SessionError>
        ensures inserted { OnOk result ((unique : ℕ) → lookup (nat_eq unique) self.new ≡ cond (nat_eq waiting.entry.unique unique) (Some waiting.entry) (lookup (nat_eq unique) self.old)) }
        ensures memory { IfErr result (λ error. (error ≡ Memory) × (lookup (nat_eq waiting.entry.unique) self.old ≡ None)) }
        ensures unchanged { OnErr result (self.new ≡ self.old) }
    {
        let unique = waiting.unique;
        if unique > self.highest {
            if let Some(newest) = self.newest {
                self.earlier.insert(newest.unique, newest)?;
            }
            self.newest = Some(waiting);
            self.highest = unique;
        } else if has_unique(&self.newest, unique) {
            self.newest = Some(waiting);
        } else {
            self.earlier.insert(unique, waiting)?;
        }
        Ok(())
    }

    /// Takes the request with this unique away, if there is one.
    ///
    /// Takes no memory, in expected constant time.
    #[inline(always)]
    pub fn remove(&mut self, unique: u64)
        ensures { (other : ℕ) → lookup (nat_eq other) self.new ≡ cond (nat_eq unique other) None (lookup (nat_eq other) self.old) }
    {
        if has_unique(&self.newest, unique) {
            self.newest = None;
        } else {
            self.earlier.swap_remove(&unique);
        }
    }

    /// The same requests, each with a copy of its message.
    ///
    /// Takes memory for the copies and a row for each of them, in linear time.
    pub fn to_owned(&self, alloc: Global) -> Result<Vec<OwnedWaiting>, AllocError>
        ensures { IfOk result (λ owned. map owned_shown owned.items ≡ entries_shown self.now) }
    {
        let mut owned = Vec::with_capacity(alloc, self.earlier.len() + 1)?;
        if let Some(newest) = &self.newest {
            owned.push(newest.to_owned(alloc)?)?;
        }
        for waiting in self.earlier.values() {
            owned.push(waiting.to_owned(alloc)?)?;
        }
        Ok(owned)
    }

    /// The same requests, which borrow the messages. `Memory` tells that memory was refused.
    ///
    /// Takes memory for the table, in expected linear time.
    pub fn from_owned(
        alloc: Global,
        seed: Seed,
        owned: &'a [OwnedWaiting],
    ) -> Result<Self, SessionError>
        ensures { IfOk result (λ outstanding. by_unique outstanding ≡ owned_by_unique owned.now) }
    {
        let mut outstanding = Outstanding::new(alloc, seed);
        // The last first: were there two with one unique, the first would stand, which a look-up finds.
        for waiting in owned.iter().rev() {
            outstanding.insert(waiting.as_waiting())?;
        }
        Ok(outstanding)
    }
}

/// Whether this request is there and has this unique.
#[inline(always)]
fn has_unique(waiting: &Option<Waiting<'_>>, unique: u64) -> bool
    ensures { result ≡ option_map_or (λ w. nat_eq w.unique unique) waiting.now false }
{
    match waiting {
        Some(waiting) => waiting.unique == unique,
        None => false,
    }
}
