//! How much a search may take.

ghost use Rattle.std.specs.Prelude.{◌≡◌, ◌+◌, ◌-◌, ◌<◌, ◌≤◌, ◌^◌, ◌⊎◌, min, IfErr, OnOk, OnErr};
ghost use Rattle.fa_search.specs.Searches.{IsEndless};
ghost use Rattle.fa_search.specs.declared.budget.Halt.TheVariants.{Spent};

use std::alloc::AllocError;

/// How much a search may take before it gives up. It has no clock: the same budget gives up at the same message on each machine.
#[derive(Clone, Copy, Debug, PartialEq, Eq)]
pub struct Budget {
    /// How many steps may be spent where there is a choice: more than one request in flight, or more than one tree. A step is a request
    /// in flight that is looked at from a tree, one that is tried, each count of an unanswered WRITE, or 4,096 bytes of a tree that is
    /// copied or looked through. A request that may change something and is never answered stays in flight to the end.
    pub steps: u64,
    /// How many trees may be held at once.
    pub trees: usize,
    /// How many bytes these may hold, as [`Tree::weight`](fa_tree::Tree::weight) reckons, with the orders that led to them. Where one request
    /// alone is in flight that is looked at behind some of the replies.
    pub bytes: u64,
}

impl Budget {
    /// A budget without an end: a search that has it never gives up. It ends with an order, or with the message past which none goes, or for
    /// want of memory.
    pub fn endless() -> Self
        ensures { IsEndless result }
    {
        Budget {
            steps: u64::MAX,
            trees: usize::MAX,
            bytes: u64::MAX,
        }
    }
}

impl Default for Budget {
    /// Ten million steps, 65,536 trees and a gibibyte.
    fn default() -> Self {
        Budget {
            steps: 10_000_000,
            trees: 65_536,
            bytes: 1_073_741_824,
        }
    }
}

/// Why a search goes no further.
#[derive(Clone, Copy, Debug, PartialEq, Eq)]
pub(crate) enum Halt {
    /// The budget is spent.
    Spent,
    /// Memory was refused.
    Memory,
}

impl From<AllocError> for Halt {
    ghost use Rattle.std.specs.Prelude.{◌≡◌};
    ghost use Rattle.fa_search.specs.declared.budget.Halt.TheVariants.{Memory};

    ghost from_gives = { λ _ e. e ≡ Memory };

    fn from(_: AllocError) -> Halt {
        Halt::Memory
    }
}

/// A budget, and what is spent of it.
#[derive(Clone, Copy, Debug)]
pub(crate) struct Spending {
    budget: Budget,
    /// How many steps are spent; as many as a `u64` counts where there were more.
    steps: u64,
}

impl Spending {
    /// Nothing is spent.
    pub fn new(budget: Budget) -> Self
        ensures budget { result.budget ≡ budget }
        ensures steps { result.steps ≡ 0 }
    {
        Spending { budget, steps: 0 }
    }

    /// How many steps are left.
    pub fn steps_left(&self) -> u64
        ensures { result ≡ self.now.budget.steps - self.now.steps }
    {
        self.budget.steps.saturating_sub(self.steps)
    }

    /// Spends so many steps, if as many are left: of as many as a `u64` counts there always are.
    pub fn spend(&mut self, steps: u64) -> Result<(), Halt>
        ensures halt { IfErr result (λ halt. halt ≡ Spent) }
        ensures spent { OnOk result (self.new.steps ≡ min (self.old.steps + steps) (2 ^ 64 - 1)) }
        ensures within { OnOk result (self.new.steps ≤ self.old.budget.steps) }
        ensures short { OnErr result (self.old.budget.steps < min (self.old.steps + steps) (2 ^ 64 - 1)) }
        ensures budget { self.new.budget ≡ self.old.budget }
        ensures endless { OnErr result (IsEndless self.old.budget → ⊥) }
    {
        let spent = self.steps.saturating_add(steps);
        if self.budget.steps < spent {
            return Err(Halt::Spent);
        }
        self.steps = spent;
        Ok(())
    }

    /// Whether so many trees may be held in two lists, with so many bytes. Holds nothing.
    pub fn hold(&self, work: usize, settled: usize, bytes: u64) -> Result<(), Halt>
        ensures halt { IfErr result (λ halt. halt ≡ Spent) }
        ensures trees { OnOk result (min (work + settled) (2 ^ 64 - 1) ≤ self.now.budget.trees) }
        ensures bytes { OnOk result (bytes ≤ self.now.budget.bytes) }
        ensures over { OnErr result ((self.now.budget.trees < min (work + settled) (2 ^ 64 - 1)) ⊎ (self.now.budget.bytes < bytes)) }
        ensures endless { OnErr result (IsEndless self.now.budget → ⊥) }
    {
        if self.budget.trees < work.saturating_add(settled) || self.budget.bytes < bytes {
            return Err(Halt::Spent);
        }
        Ok(())
    }
}
