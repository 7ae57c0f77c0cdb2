//! Which trees were alive where no order goes on, each by an order that leads to it.

ghost use Rattle.std.specs.Prelude.{◌≡◌, ◌<◌, ℕ, List, length, min, IfOk, IfSome};
ghost use Rattle.fa_capture.specs.Message.{Message};
ghost use Rattle.fa_tree.specs.State.{TreeState};
ghost use Rattle.fa_check.specs.Verdicts.{AreMessagesOf};
ghost use Rattle.fa_search.specs.Searches.{IsStop, EachComesTo, ComeToSoMany};
ghost use Rattle.fa_search.specs.parts.Flight.{IsFlight, CoversFrom};
ghost use Rattle.fa_search.specs.parts.Settling.{IsSearching, AreLeft, EachLeadsTo, CameTo};

use crate::budget::{Budget, Halt};
use crate::configuration::Configuration;
use crate::listener::Listener;
use crate::searching::{Ended, Progress, merged_if_due};
use fa_ledger::Calls;
use fa_order::Entry;
use fa_tree::{InUse, Tree};
use std::alloc::{AllocError, Global};
use std::mem;

/// Orders that come to a reply past which none goes: each explains all replies before it, and leaves out its request, which is refused
/// then.
#[derive(Debug, Drop)]
pub struct Alternatives {
    /// An order for each of the first trees.
    pub orders: Vec<Vec<Entry>>,
    /// How many trees there are, those with others of the requests in flight placed counted apart. An opening of a directory makes no
    /// difference where no request lists on it whose answer is still to come.
    pub trees: usize,
}

/// Searches all orders up to message `at`, as [`search`](crate::search) does, and gives such as come to it, if none goes past it: one for each
/// of the first `most` trees to which any lead. They are what [`NoOrder`](crate::Finding::NoOrder) rests on.
///
/// `None` where the calls end before that message, where it answers no request that an order may name, where some order goes past it, where
/// none comes to it, and where the budget is spent.
///
/// # Errors
///
/// `AllocError` where memory was refused.
///
/// # Cost
///
/// That of a search of all orders up to that message, and memory for the orders, each as long as all requests that were answered before,
/// and some in flight. The listener is told of it as by a search.
pub fn orders_to<L: Listener>(
    alloc: Global,
    calls: &Calls<'_>,
    tree: Tree,
    at: u32,
    budget: Budget,
    most: usize,
    listener: &mut L,
) -> Result<Option<Alternatives>, AllocError>
    ensures stop { IfOk result (λ found. IfSome found (λ found. (c : List Message) → AreMessagesOf calls.now c → IsStop c tree at)) }
    ensures orders { IfOk result (λ found. IfSome found (λ found. (c : List Message) → AreMessagesOf calls.now c → EachComesTo c tree at found)) }
    ensures trees { IfOk result (λ found. IfSome found (λ found. (c : List Message) → AreMessagesOf calls.now c → ComeToSoMany c tree at found.trees)) }
    ensures some { IfOk result (λ found. IfSome found (λ found. 0 < found.trees)) }
    ensures most { IfOk result (λ found. IfSome found (λ found. length found.orders.items ≡ min most found.trees)) }
{
    let mut progress = Progress::new(alloc, calls, tree, budget)?;
    let found = progress.orders_to(alloc, at, most, listener);
    // It has many tables: they are proved to go in one place.
    drop(progress);
    found
}

impl<'c> Progress<'c> {
    /// Orders that come to a message, as [`orders_to`], from before the first one. After that it is of no use any more.
    fn orders_to<L: Listener>(
        &mut self,
        alloc: Global,
        at: u32,
        most: usize,
        listener: &mut L,
    ) -> Result<Option<Alternatives>, AllocError>
        requires first { self.old.flight.at ≡ 0 }
        requires flight { IsFlight self.old.tries.replay.list self.old.flight }
        requires some { 0 < length self.old.held.items }
        ensures comes { IfOk result (λ found. IfSome found (λ found. (c : List Message) (first : TreeState) → AreMessagesOf self.old.tries.replay c → IsSearching c first self.old →
            CameTo c first at found)) }
        ensures most { IfOk result (λ found. IfSome found (λ found. length found.orders.items ≡ min most found.trees)) }
    {
        if self.tries.replay.calls().messages <= at {
            return Ok(None);
        }
        match self.pass_until(alloc, at + 1, listener)? {
            Some(Ended::Stop { at: stop, .. }) => {
                if stop == at {
                    return self.orders_left(alloc, at, most);
                }
                Ok(None)
            }
            _ => Ok(None),
        }
    }

    /// The orders that lead to what is held at this message, of the first so many; `None` where the budget is spent.
    fn orders_left(
        &mut self,
        alloc: Global,
        at: u32,
        most: usize,
    ) -> Result<Option<Alternatives>, AllocError>
        ensures comes { IfOk result (λ found. IfSome found (λ found. (c : List Message) (first : TreeState) →
            AreLeft c first self.old.common.items at self.old.held.items → CoversFrom c at self.old.flight.last_uses → CameTo c first at found)) }
        ensures most { IfOk result (λ found. IfSome found (λ found. length found.orders.items ≡ min most found.trees)) }
    {
        let held = mem::replace(&mut self.held, Vec::new(alloc));
        let in_use = InUse {
            last: &self.flight.last_uses,
            from: at,
        };
        // Where each took its step by itself, some may be the same.
        match merged_if_due(alloc, &mut self.tries.spending, held, true, &in_use) {
            Ok(left) => Ok(Some(alternatives_of(alloc, &self.common, left, most)?)),
            Err(Halt::Spent) => Ok(None),
            Err(Halt::Memory) => Err(AllocError),
        }
    }
}

/// The orders that lead to the first of these configurations, to so many at most.
fn alternatives_of(
    alloc: Global,
    common: &[Entry],
    left: Vec<Configuration>,
    most: usize,
) -> Result<Alternatives, AllocError>
    ensures each { IfOk result (λ found. EachLeadsTo common.now left.items found.orders.items) }
    ensures trees { IfOk result (λ found. found.trees ≡ length left.items) }
    ensures most { IfOk result (λ found. length found.orders.items ≡ min most found.trees) }
{
    let trees = left.len();
    let orders = orders_of(alloc, common, &left, most);
    // They have many tables: they are proved to go in one place.
    drop(left);
    Ok(Alternatives {
        orders: orders?,
        trees,
    })
}

/// The same, of configurations that are lent.
fn orders_of(
    alloc: Global,
    common: &[Entry],
    left: &[Configuration],
    most: usize,
) -> Result<Vec<Vec<Entry>>, AllocError>
    ensures each { IfOk result (λ orders. EachLeadsTo common.now left.now orders.items) }
    ensures most { IfOk result (λ orders. length orders.items ≡ min most (length left.now)) }
{
    let count = most.min(left.len());
    let mut orders = Vec::new(alloc);
    for one in &left[..count] {
        orders.push(one.order(common)?)?;
    }
    Ok(orders)
}
