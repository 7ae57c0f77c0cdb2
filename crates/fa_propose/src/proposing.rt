//! An order, guessed.

ghost use Rattle.std.specs.Prelude.{List, IfOk};
ghost use Rattle.fa_capture.specs.Message.{Message};
ghost use Rattle.fa_check.specs.Verdicts.{AreMessagesOf};
ghost use Rattle.fa_propose.specs.Proposals.{IsProposal};

use crate::ready::Ready;
use fa_check::Placing;
use fa_ledger::Calls;
use fa_order::Entry;
use fa_tree::{Replay, Tree};
use std::alloc::{AllocError, Global};

/// How many candidates are tried at a place, at most.
pub const MAX_TRIED: usize = 64;

/// Guesses an order of the tree requests of a capture, from the tree that the server began with.
///
/// At each place the candidates are the tree requests whose entry passes the checks of its place
/// ([`check`](fa_check::check) has them): they are in no entry so far, each tree request that was answered before they were sent is
/// in one, and a request without an answer is one that changes something. They are tried in this order: first the answered ones
/// that leave what is stored as it is, since they only read or were refused; then the other answered ones, both by the places of
/// their answers; then those without an answer, by their own places, a WRITE with its full size. Of the first [`MAX_TRIED`] the
/// first that has a step from the tree is taken. The order ends where all answered tree requests are in it, or none that is tried
/// has a step (this profile).
///
/// It is a guess: where requests overlap, the order that explains them may be another one. Where each tree request but at most the
/// last was answered before the next was sent, it is legal if any order is ([`laws`](crate::laws)).
///
/// # Errors
///
/// `AllocError` where memory was refused.
///
/// # Cost
///
/// Memory for a byte a message, for a byte, a rank and an entry a call, and for what the steps take, along one
/// [`Replay`](fa_tree::Replay). Time linear in the messages, with a logarithm of the calls for each call and each try, and that of
/// [`Call::operation`](fa_ledger::Call::operation) for each answered call, which is read for its rank, beside the steps that are
/// tried: at most [`MAX_TRIED`] at a place. Those that are refused are tried again at the next.
pub fn propose(alloc: Global, calls: &Calls<'_>, tree: Tree) -> Result<Vec<Entry>, AllocError>
    ensures { IfOk result (λ order. (c : List Message) → AreMessagesOf calls.now c → IsProposal c tree order.items) }
{
    let mut tree = tree;
    let order = guess(alloc, calls, &mut tree);
    // It has many tables: they are proved to go in one place.
    drop(tree);
    order
}

/// The same from a tree that is lent, which the entries of the order change.
fn guess(alloc: Global, calls: &Calls<'_>, tree: &mut Tree) -> Result<Vec<Entry>, AllocError>
    ensures { IfOk result (λ order. (c : List Message) → AreMessagesOf calls.now c → IsProposal c tree.old order.items) }
{
    let mut placing = Placing::new(alloc, calls)?;
    let mut replay = Replay::new(alloc, tree.seed(), calls);
    let mut ready = Ready::new(alloc);
    let mut order = Vec::new(alloc);
    while placing.front() < calls.messages as usize {
        ready.admit(calls, placing.front())?;
        let Some(entry) = ready.place_next(&mut replay, tree, &mut placing)? else {
            break;
        };
        order.push(entry)?;
    }
    Ok(order)
}
