//! Whether an order is legal.

ghost use Rattle.std.specs.Prelude.{◌≡◌, ℕ, List, Ok};
ghost use Rattle.fa_capture.specs.declared.codes.TheConstants.{UNKNOWN_HERE};
ghost use Rattle.fa_capture.specs.Message.{Message};
ghost use Rattle.fa_check.specs.Faults.{IsOrderAtFault};
ghost use Rattle.fa_check.specs.Verdicts.{AreMessagesOf, IsLegalWith, Exactly};
ghost use Rattle.fa_check.specs.parts.Answers.{answer_to};
ghost use Rattle.fa_check.specs.declared.verdict.Verdict.TheVariants.{Legal, Fault, NotShown};

use crate::placing::Placing;
use crate::verdict::Verdict;
use fa_ledger::Calls;
use fa_order::Entry;
use fa_tree::{Replay, StepError, Tree};
use std::alloc::{AllocError, Global};

/// Whether an order of the tree requests of a capture is legal: it is valid, and its entries are a run of the tree machine from
/// this tree that gives every recorded reply.
///
/// Each entry is checked in turn, the place first and then the step: `NO_TREE_REQUEST` where no tree request has its message
/// number; `PLACED_TWICE` where an earlier entry has it; `EARLIER_NOT_PLACED` where a tree request that was answered before this
/// one was sent is not among the earlier entries; `CHOICE_NOT_ALLOWED` where it carries a count and is no unanswered WRITE, where
/// it is one and carries none or one above its size, and where it only reads and was not answered; then what
/// [`Tree::step`](fa_tree::Tree::step) refuses (rules of this profile, and of POSIX).
///
/// [`Verdict::NotShown`] tells the first entry that fails a check, its message number and the code of the first check that it
/// fails, one of [`codes`](fa_capture::codes). Where all entries pass, it tells the number of entries, the least message number of
/// an answered tree request that is in no entry, and `ANSWERED_LEFT_OUT`. Where there is none the answer is [`Verdict::Legal`]: with
/// the number of messages, that of entries, and that of the unanswered tree requests that are in no entry, those that only read
/// among them. [`Verdict::Fault`] is never answered, and `UNKNOWN_HERE` is never told: what a request names came from an answer
/// before it, and the request of that answer is placed first.
///
/// # Errors
///
/// `AllocError` where memory was refused.
///
/// # Cost
///
/// A byte of memory for each message and each call, and what the steps take, along one [`Replay`](fa_tree::Replay). Time linear
/// in the messages, the calls and the entries, with a logarithm of the calls for each entry, beside the steps.
pub fn check(
    alloc: Global,
    calls: &Calls<'_>,
    tree: Tree,
    order: &[Entry],
) -> Result<Verdict, AllocError>
    ensures legal { (c : List Message) → AreMessagesOf calls.now c → (messages placed left : ℕ) → Exactly result (Legal messages placed left) (IsLegalWith c tree order.now messages placed left) }
    ensures not_shown { (c : List Message) → AreMessagesOf calls.now c → (entry at code : ℕ) → Exactly result (NotShown entry at code) (IsOrderAtFault c tree order.now entry at code) }
    ensures never_fault { (at code : ℕ) → result ≡ Ok (Fault at code) → ⊥ }
    ensures never_unknown { (entry at : ℕ) → result ≡ Ok (NotShown entry at UNKNOWN_HERE) → ⊥ }
{
    let mut tree = tree;
    let verdict = verdict_along(alloc, calls, &mut tree, order);
    // It has many tables: they are proved to go in one place.
    drop(tree);
    verdict
}

/// The same from a tree that is lent, which the entries change up to the first that fails.
fn verdict_along(
    alloc: Global,
    calls: &Calls<'_>,
    tree: &mut Tree,
    order: &[Entry],
) -> Result<Verdict, AllocError>
    ensures legal { (c : List Message) → AreMessagesOf calls.now c → (messages placed left : ℕ) → Exactly result (Legal messages placed left) (IsLegalWith c tree.old order.now messages placed left) }
    ensures not_shown { (c : List Message) → AreMessagesOf calls.now c → (entry at code : ℕ) → Exactly result (NotShown entry at code) (IsOrderAtFault c tree.old order.now entry at code) }
    ensures never_fault { (at code : ℕ) → result ≡ Ok (Fault at code) → ⊥ }
    ensures never_unknown { (entry at : ℕ) → result ≡ Ok (NotShown entry at UNKNOWN_HERE) → ⊥ }
{
    let mut placing = Placing::new(alloc, calls)?;
    let mut replay = Replay::new(alloc, tree.seed(), calls);
    for entry in order {
        if let Err(error) = placing.place_in(&mut replay, tree, *entry) {
            return told(placing.count, entry.at, error);
        }
    }
    Ok(placing.verdict(calls))
}

/// What is answered of an entry that fails so.
fn told(entry: u32, at: u32, error: StepError) -> Result<Verdict, AllocError>
    ensures { result ≡ answer_to entry at error }
{
    match error {
        StepError::Refused(code) => Ok(Verdict::NotShown { entry, at, code }),
        StepError::Memory => Err(AllocError),
    }
}
