//! Orders that are cut at a message.

ghost use Rattle.std.specs.Prelude.{◌≡◌, ◌≤◌, ◌↔◌, List, length, IsTrue, IfOk, IfSome, IfNone};
ghost use Rattle.fa_capture.specs.Message.{Message};
ghost use Rattle.fa_ledger.specs.Operations.{operation_shown};
ghost use Rattle.fa_check.specs.Verdicts.{AreMessagesOf};
ghost use Rattle.fa_check.specs.Cuts.{wrote_without, Goes, Stays, IsAnsweredEntry, IsCut};
ghost use Rattle.fa_check.specs.parts.Cutting.{IsEndOfFront};

use fa_ledger::{Action, Calls, Operation, Outcome};
use fa_order::Entry;
use std::alloc::{AllocError, Global};

/// What is left of an order for the first `messages` messages of a capture.
///
/// The entries up to and with the last one that names a tree request which one of these messages answers; none where there is no such
/// entry. Of them an entry whose request was answered later stays where the answer is a success of a changing request, and that of a
/// WRITE then carries the count which the answer tells; where it is an error, or the request only reads, the entry goes. An entry that
/// names no tree request goes. All others stay as they are: those whose request was answered by one of these messages, or never.
///
/// Any list of entries is cut so; how it is cut is this profile's. Where the order is legal, what is left is legal for these messages ([`laws`](crate::laws)). With more
/// messages than there are, what stands behind the last entry whose request was answered goes, and what names no tree request.
///
/// # Errors
///
/// `AllocError` where memory was refused.
///
/// # Cost
///
/// Memory for the entries that are left. Time linear in the entries, with a logarithm of the calls for each, and that of
/// [`Call::operation`](fa_ledger::Call::operation) for those whose requests were answered later.
pub fn cut(
    alloc: Global,
    calls: &Calls<'_>,
    order: &[Entry],
    messages: u32,
) -> Result<Vec<Entry>, AllocError>
    ensures { IfOk result (λ left. (c : List Message) → AreMessagesOf calls.now c → IsCut c messages order.now left.items) }
{
    let end = end_of_front(calls, order, messages);
    let mut left = Vec::new(alloc);
    for entry in &order[..end] {
        if let Some(stays) = left_of(calls, *entry, messages) {
            left.push(stays)?;
        }
    }
    Ok(left)
}

/// How many entries come up to and with the last one that names a tree request which the first messages answer.
fn end_of_front(calls: &Calls<'_>, order: &[Entry], messages: u32) -> usize
    ensures within { result ≤ length order.now }
    ensures exact { (c : List Message) → AreMessagesOf calls.now c → IsEndOfFront c messages order.now result }
{
    let mut end = 0;
    for (place, entry) in order.iter().enumerate() {
        if is_answered_entry(calls, *entry, messages) {
            end = place + 1;
        }
    }
    end
}

/// Whether the entry names a tree request that one of the first messages answers.
fn is_answered_entry(calls: &Calls<'_>, entry: Entry, messages: u32) -> bool
    ensures { (c : List Message) → AreMessagesOf calls.now c → IsTrue result ↔ IsAnsweredEntry c messages entry }
{
    let Some(place) = calls.find(entry.at) else {
        return false;
    };
    match calls.list.call(place).answer {
        Some(answer) => answer.at < messages,
        None => false,
    }
}

/// What is left of an entry, if it stays.
fn left_of(calls: &Calls<'_>, entry: Entry, messages: u32) -> Option<Entry>
    ensures stays { IfSome result (λ left. (c : List Message) → AreMessagesOf calls.now c → Stays c messages entry left) }
    ensures goes { IfNone result ((c : List Message) → AreMessagesOf calls.now c → Goes c messages entry) }
{
    let Some(place) = calls.find(entry.at) else {
        return None;
    };
    let call = calls.list.call(place);
    let Some(answer) = &call.answer else {
        return Some(entry);
    };
    if answer.at < messages {
        return Some(entry);
    }
    let operation = call.operation();
    if operation.keeps_tree() {
        return None;
    }
    Some(Entry {
        at: entry.at,
        wrote: wrote_without(&operation, entry.wrote),
    })
}

/// What an entry carries when its request's answer is taken away: of a WRITE that succeeded the count of its answer, of any
/// other what it carried.
fn wrote_without(operation: &Operation<'_>, wrote: Option<u32>) -> Option<u32>
    ensures { result ≡ wrote_without (operation_shown operation.now) wrote }
{
    match operation {
        Operation::Act(
            Action::Write {
                outcome: Outcome::Succeeds(count),
                ..
            },
        ) => Some(*count),
        _ => wrote,
    }
}
