//! How many of the first messages of a capture have no order alone.

ghost use Rattle.std.specs.Prelude.{◌≡◌, ◌≤◌, ◌<◌, List, length, take, IfOk, IfErr, IfSome};
ghost use Rattle.std.specs.Option.{option_copied};
ghost use Rattle.fa_capture.specs.Message.{Message};
ghost use Rattle.fa_tree.specs.State.{TreeState};
ghost use Rattle.fa_order.specs.declared.lines.TheConstants.{MAX_TEXT_BYTES};
ghost use Rattle.fa_check.specs.Runs.{HasOrder};
ghost use Rattle.fa_check.specs.Verdicts.{AreMessagesOf};
ghost use Rattle.fa_search.specs.Searches.{HasNoOrder};
ghost use Rattle.fa_audit.specs.Verdict.{IsGivenTree};
ghost use Rattle.fa_audit.specs.Searched.{IsShortestWithout};
ghost use Rattle.fa_audit.specs.parts.Answers.{IsTreeRefused};
ghost use Rattle.fa_audit.specs.parts.Protocol.{messages_of};
ghost use Rattle.fa_audit.specs.parts.Searching.{known_by, IsKnownOf};

use crate::deciding::found_from;
use crate::judge::given_tree;
use crate::protocol::{Broken, calls_of_front};
use crate::verdict::StartError;
use fa_capture::Capture;
use fa_ledger::Calls;
use fa_search::{Budget, Finding, Listener};
use fa_tree::Tree;
use std::alloc::{AllocError, Global};

/// How many trees the search of some first messages may hold.
const MAX_FRONT_TREES: usize = 4_096;
/// How many bytes these may hold.
const MAX_FRONT_BYTES: u64 = 67_108_864;

/// What is known of some messages.
#[derive(Clone, Copy, Debug, PartialEq, Eq)]
pub(crate) enum Known {
    /// They have an order.
    Order,
    /// They have none.
    NoOrder,
    /// A search gave up.
    Nothing,
}

/// How many of the first messages of a capture without an order have none alone, while one fewer have one; where that is found. No order
/// goes past the reply at message `stop`.
///
/// The messages before `stop` alone are searched, and then more of them: one more, and where these have an order again more, by twice
/// as many each time but never by more than half of those that are left, until the number lies between one with an order and the next,
/// without. For nearly all captures that is `stop` + 1, and two searches tell it. There are at most 2 + 2 log₂(messages) of them, each
/// with a tenth of the steps of the budget, at most 4,096 trees and 64 MiB. Where one gives up nothing is found. The listener is told of
/// each. That the messages before `stop` have an order is known by [`ExplainedFrontHasOrder`](fa_search::explained_front_has_order), but not
/// which: so they are searched.
///
/// # Errors
///
/// - [`StartError::TreeText`] where the tree text that is handed in is not in its grammar.
/// - [`StartError::Memory`] where memory was refused.
///
/// # Cost
///
/// For each search that of [`calls_of_front`] and of [`search`](fa_search::search) on the messages that are tried, and a copy of the
/// tree.
pub(crate) fn shortest_without<L: Listener>(
    alloc: Global,
    capture: &Capture<'_>,
    tree: Option<&[u8]>,
    stop: u32,
    budget: Budget,
    listener: &mut L,
) -> Result<Option<u32>, StartError>
    requires text { IfSome (option_copied tree) (λ text. length text ≤ MAX_TEXT_BYTES) }
    requires within { stop < capture.now.messages }
    requires none { (first : TreeState) → IsGivenTree (option_copied tree) first → HasNoOrder (messages_of capture.now) first }
    ensures found { IfOk result (λ shortest. (first : TreeState) → IsGivenTree (option_copied tree.entry) first →
        IfSome shortest (IsShortestWithout (messages_of capture.now) first)) }
    ensures refused { IfErr result (IsTreeRefused (option_copied tree.entry)) }
{
    let first = given_tree(alloc, capture.seed, tree)?;
    let shortest = shortest_from(alloc, capture, &first, stop, of_a_front(budget), listener);
    // It has many tables: they are proved to go in one place.
    drop(first);
    Ok(shortest?)
}

/// How much of a budget the search of some first messages may take: a tenth of its steps, and no more trees and bytes than most captures
/// ask for, since the answer stands already, and what is searched is a number beside it.
fn of_a_front(budget: Budget) -> Budget {
    Budget {
        steps: budget.steps / 10,
        trees: budget.trees.min(MAX_FRONT_TREES),
        bytes: budget.bytes.min(MAX_FRONT_BYTES),
    }
}

/// The same from a tree that is lent.
fn shortest_from<L: Listener>(
    alloc: Global,
    capture: &Capture<'_>,
    first: &Tree,
    stop: u32,
    budget: Budget,
    listener: &mut L,
) -> Result<Option<u32>, AllocError>
    requires within { stop < capture.now.messages }
    requires none { HasNoOrder (messages_of capture.now) first.now }
    ensures { IfOk result (λ shortest. IfSome shortest (IsShortestWithout (messages_of capture.now) first.now)) }
{
    match known_of_front(alloc, capture, stop, first, budget, listener)? {
        Known::Order => between(alloc, capture, first, stop, budget, listener),
        Known::NoOrder | Known::Nothing => Ok(None),
    }
}

/// The same, where the messages before `stop` alone have an order.
fn between<L: Listener>(
    alloc: Global,
    capture: &Capture<'_>,
    first: &Tree,
    stop: u32,
    budget: Budget,
    listener: &mut L,
) -> Result<Option<u32>, AllocError>
    requires within { stop < capture.now.messages }
    requires order { HasOrder (take stop (messages_of capture.now)) first.now }
    requires none { HasNoOrder (messages_of capture.now) first.now }
    ensures { IfOk result (λ shortest. IfSome shortest (IsShortestWithout (messages_of capture.now) first.now)) }
{
    let mut ordered = stop;
    let mut unordered = capture.messages;
    let mut step = 1;
    while unordered - ordered > 1 {
        let tried = ordered + step.min((unordered - ordered) / 2);
        match known_of_front(alloc, capture, tried, first, budget, listener)? {
            Known::Order => {
                ordered = tried;
                step = step.saturating_mul(2);
            }
            Known::NoOrder => unordered = tried,
            Known::Nothing => return Ok(None),
        }
    }
    Ok(Some(unordered))
}

/// What is known of the first messages of a capture, as a capture of their own.
fn known_of_front<L: Listener>(
    alloc: Global,
    capture: &Capture<'_>,
    messages: u32,
    first: &Tree,
    budget: Budget,
    listener: &mut L,
) -> Result<Known, AllocError>
    ensures { IfOk result (IsKnownOf (take messages (messages_of capture.now)) first.now) }
{
    match calls_of_front(alloc, capture, messages as usize) {
        Ok(calls) => known_of_calls(alloc, &calls, first, budget, listener),
        // Of a good capture each message keeps the protocol.
        Err(Broken::Fault { .. }) => Ok(Known::Nothing),
        Err(Broken::Memory) => Err(AllocError),
    }
}

/// The same of messages with these calls.
fn known_of_calls<L: Listener>(
    alloc: Global,
    calls: &Calls<'_>,
    first: &Tree,
    budget: Budget,
    listener: &mut L,
) -> Result<Known, AllocError>
    ensures { IfOk result (λ known. (c : List Message) → AreMessagesOf calls.now c → IsKnownOf c first.now known) }
{
    let finding = found_from(alloc, calls, first.copy()?, budget, listener)?;
    Ok(known_by(&finding))
}

/// What is known by what was found.
fn known_by(finding: &Finding) -> Known
    ensures { result ≡ known_by finding.now }
{
    match finding {
        Finding::Found { .. } => Known::Order,
        Finding::NoOrder { .. } => Known::NoOrder,
        Finding::GaveUp { .. } => Known::Nothing,
    }
}
