//! Which requests were under way with another, so that another order may explain its answer.

use crate::case::Case;
use crate::refused::Refused;
use crate::replaying::refused_by;
use fa_ledger::Calls;
use fa_tree::{Replay, Tree};
use std::alloc::AllocError;

/// So many requests are kept that were under way with another.
const FEW: usize = 6;

/// Which requests were under way at once, so that another order may explain the answer to one.
#[derive(Drop)]
pub enum Overlaps {
    /// It was never answered: an order may leave it out, or have it elsewhere.
    Unanswered,
    /// No two that were sent before its answer, which is this message, were under way at once: there is one order.
    Serial {
        /// The number of the answer.
        answered: u32,
    },
    /// None was under way with it, but two were that were sent before its answer.
    Earlier {
        /// The number of the first of them,
        first: u32,
        /// and of the second.
        second: u32,
    },
    /// Some were under way with it.
    Beside {
        /// The first six of them.
        first: Vec<Beside>,
        /// How many there are.
        count: usize,
    },
}

/// A request that was under way with another.
#[derive(Clone, Copy)]
pub struct Beside {
    /// The number of its message.
    pub asked: u32,
    /// What comes of it as the next entry.
    pub next: Next,
}

/// What comes of a request as the next entry of an order.
#[derive(Clone, Copy)]
pub enum Next {
    /// The entry of this number names it already.
    Placed(u32),
    /// It has to wait: a request that was answered before it was sent is in no entry.
    Waits,
    /// The tree refuses it, with this code.
    Refused(u16),
    /// It fits.
    Fits,
}

impl Overlaps {
    /// Whether another order may explain the answer to a request, from this tree to which the entries before one lead.
    ///
    /// # Errors
    ///
    /// [`AllocError`] where memory was refused.
    ///
    /// # Cost
    ///
    /// A few walks over the calls, and one for each request that is kept, of which a step is tried.
    pub fn of(refused: &Refused<'_>, tree: &Tree, case: &Case<'_>) -> Result<Self, AllocError> {
        let Some(answer) = &case.call.answer else {
            return Ok(Overlaps::Unanswered);
        };
        let Some((first, second)) = first_overlap(refused.calls, answer.at) else {
            return Ok(Overlaps::Serial {
                answered: answer.at,
            });
        };
        let count = count_beside(refused.calls, case);
        if count == 0 {
            return Ok(Overlaps::Earlier { first, second });
        }
        let first = first_beside(refused, tree, case)?;
        Ok(Overlaps::Beside { first, count })
    }
}

/// When a request is answered: behind all messages where it never is.
fn end_of(case: &Case<'_>) -> u32 {
    match &case.call.answer {
        Some(answer) => answer.at,
        None => u32::MAX,
    }
}

/// The first two requests that an order may name which were sent before a message, and were under way at once.
fn first_overlap(calls: &Calls<'_>, before: u32) -> Option<(u32, u32)> {
    let mut last: Option<(u32, u32)> = None;
    for place in 0..calls.list.len() {
        let case = Case::at(calls, place)?;
        if case.call.asked >= before || !case.may_be_placed() {
            continue;
        }
        let end = end_of(&case);
        match last {
            Some((asked, until)) if until > case.call.asked => {
                return Some((asked, case.call.asked));
            }
            Some((_, until)) if until >= end => {}
            _ => last = Some((case.call.asked, end)),
        }
    }
    None
}

/// Whether another request, which an order may name, was under way with one that was answered.
fn is_beside(case: &Case<'_>, other: &Case<'_>) -> bool {
    other.place != case.place
        && other.call.asked < end_of(case)
        && end_of(other) > case.call.asked
        && other.may_be_placed()
}

/// How many requests were under way with one.
fn count_beside(calls: &Calls<'_>, case: &Case<'_>) -> usize {
    let mut count: usize = 0;
    for place in 0..calls.list.len() {
        if let Some(other) = Case::at(calls, place) {
            if is_beside(case, &other) {
                count = count.saturating_add(1);
            }
        }
    }
    count
}

/// The first requests that were under way with one, each with what comes of it as the next entry.
fn first_beside(
    refused: &Refused<'_>,
    tree: &Tree,
    case: &Case<'_>,
) -> Result<Vec<Beside>, AllocError> {
    let mut replay = Replay::new(refused.alloc, tree.seed(), refused.calls);
    first_beside_along(refused, tree, &mut replay, case)
}

/// The same with what was listed so far lent, which is nothing.
fn first_beside_along(
    refused: &Refused<'_>,
    tree: &Tree,
    replay: &mut Replay<'_>,
    case: &Case<'_>,
) -> Result<Vec<Beside>, AllocError> {
    let mut beside = Vec::new(refused.alloc);
    for place in 0..refused.calls.list.len() {
        let Some(other) = Case::at(refused.calls, place) else {
            break;
        };
        if beside.len() < FEW && is_beside(case, &other) {
            beside.push(Beside {
                asked: other.call.asked,
                next: next_of(refused, tree, replay, &other)?,
            })?;
        }
    }
    Ok(beside)
}

/// What comes of a request as the next entry.
fn next_of(
    refused: &Refused<'_>,
    tree: &Tree,
    replay: &mut Replay<'_>,
    case: &Case<'_>,
) -> Result<Next, AllocError> {
    if let Some(entry) = refused.placed.entry(case.place) {
        return Ok(Next::Placed(entry));
    }
    if has_to_wait(refused, case) {
        return Ok(Next::Waits);
    }
    Ok(match refused_by(tree, replay, case.place)? {
        Some(code) => Next::Refused(code),
        None => Next::Fits,
    })
}

/// Whether a request was answered before another was sent and is in no entry.
fn has_to_wait(refused: &Refused<'_>, case: &Case<'_>) -> bool {
    match refused.placed.first_left(refused.calls) {
        Some((_, answered)) => answered < case.call.asked,
        None => false,
    }
}
