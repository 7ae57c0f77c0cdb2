//! Whether another order explains an answer.

use crate::all_orders::{AllOrders, Search};
use crate::wording::{self, begin_request};
use fa_ledger::Calls;
use fa_refusal::{Beside, Case, Next, Overlaps, Refused};
use fa_show::Text;
use fa_tree::Tree;
use std::alloc::AllocError;

/// Whether another order explains an answer, and all answers before it.
#[derive(Clone, Copy)]
pub(crate) enum Another {
    /// One is legal.
    Legal,
    /// One does, and none explains the answer of this later message as well.
    Until(u32),
    /// One does, and more is not known.
    SoFar,
    /// None does.
    Never,
    /// None does, and none explains the answer of this earlier message with all before it.
    NeverPast(u32),
    /// It was not found out.
    Unknown,
    /// There is no answer.
    Unanswered,
}

impl Another {
    /// Whether one explains the answer to a request, where these were under way at once. Only where some were is anything searched.
    pub fn of<S: Search>(
        case: &Case<'_>,
        overlaps: &Overlaps,
        search: &mut S,
    ) -> Result<Another, AllocError> {
        let Some(answer) = &case.call.answer else {
            return Ok(Another::Unanswered);
        };
        if let Overlaps::Serial { .. } = overlaps {
            return Ok(Another::Never);
        }
        Ok(match search.all_orders()? {
            None => Another::Unknown,
            Some(AllOrders::Legal) => Another::Legal,
            Some(AllOrders::Stop(at)) => Another::with_stop(answer.at, at),
            Some(AllOrders::GaveUp(at)) if at > answer.at => Another::SoFar,
            Some(AllOrders::GaveUp(_)) => Another::Unknown,
        })
    }

    /// The same of the answer at this message, where no order goes past that one.
    fn with_stop(answer: u32, stop: u32) -> Another {
        if stop > answer {
            Another::Until(stop)
        } else if stop == answer {
            Another::Never
        } else {
            Another::NeverPast(stop)
        }
    }

    /// Whether it is known that no order is legal.
    pub fn is_without_order(self) -> bool {
        matches!(
            self,
            Another::Until(_) | Another::Never | Another::NeverPast(_)
        )
    }
}

/// Writes whether another order explains the answer to a request that this tree refuses, and which requests were under way at once:
/// whether one does. Where requests overlap, all orders are searched.
pub(crate) fn order_line<S: Search>(
    text: &mut Text,
    refused: &Refused<'_>,
    search: &mut S,
    tree: &Tree,
    case: &Case<'_>,
) -> Result<Another, AllocError> {
    let overlaps = Overlaps::of(refused, tree, case)?;
    let another = Another::of(case, &overlaps, search)?;
    text.word("order    ");
    match &overlaps {
        Overlaps::Unanswered => {
            text.field("message ", u64::from(case.call.asked));
            text.word(" was never answered: the order may leave it out, or have it elsewhere");
        }
        Overlaps::Serial { answered } => {
            text.field("before message ", u64::from(*answered));
            text.word(
                " no two requests that an order may name were under way at once: from the tree at the start no order explains this answer",
            );
        }
        Overlaps::Earlier { first, second } => {
            earlier_overlap(text, refused.calls, (*first, *second), another);
        }
        Overlaps::Beside { first, count } => {
            beside(text, refused.calls, first, *count, another);
        }
    }
    text.end_line();
    Ok(another)
}

/// Writes what was found out of other orders: whether anything was.
fn others(text: &mut Text, calls: &Calls<'_>, another: Another) -> bool {
    match another {
        Another::Legal => text.word("another is legal (`fa_audit search`)"),
        Another::SoFar => text.word(
            "another explains this answer, and more is not known (`fa_audit search`)",
        ),
        Another::Never => text.word("no order explains this answer"),
        Another::Until(stop) => {
            asked_by(
                text,
                calls,
                "another explains this answer, but none the one to ",
                stop,
            );
            text.word(" as well (`fa_audit judge --explain`)");
        }
        Another::NeverPast(stop) => {
            asked_by(
                text,
                calls,
                "no order explains this answer, nor the one to ",
                stop,
            );
            text.word(" before it (`fa_audit judge --explain`)");
        }
        Another::Unknown | Another::Unanswered => return false,
    }
    true
}

/// Writes a word, and behind it the request that a message answers.
pub(crate) fn asked_by(text: &mut Text, calls: &Calls<'_>, word: &str, answer: u32) {
    match answered_by(calls, answer) {
        Some(case) => wording::request(text, calls, word, case.call.asked),
        None => text.word(word),
    }
}

/// The request that a message answers, if it acts on the tree.
pub(crate) fn answered_by<'c>(calls: &'c Calls<'_>, at: u32) -> Option<Case<'c>> {
    for place in 0..calls.list.len() {
        if let Some(case) = Case::at(calls, place) {
            if is_answered_at(&case, at) {
                return Some(case);
            }
        }
    }
    None
}

/// Whether this message answers a request.
fn is_answered_at(case: &Case<'_>, at: u32) -> bool {
    match &case.call.answer {
        Some(answer) => answer.at == at,
        None => false,
    }
}

/// Writes that two requests were under way at once before one, with what was found out of other orders.
fn earlier_overlap(text: &mut Text, calls: &Calls<'_>, pair: (u32, u32), another: Another) {
    if others(text, calls, another) {
        two_requests(text, calls, "; ", pair);
        text.word(" were under way at once before it");
    } else {
        two_requests(text, calls, "none was under way with it, but ", pair);
        text.word(
            " were at once: another order of what came before may explain it (`fa_audit judge`, with more `--steps` where it gives up)",
        );
    }
}

/// Writes a word, and behind it two requests.
fn two_requests(text: &mut Text, calls: &Calls<'_>, word: &str, (first, second): (u32, u32)) {
    wording::request(text, calls, word, first);
    wording::request(text, calls, " and ", second);
}

/// Writes the first requests that were under way with one, and how many there are, with what was found out of other orders.
fn beside(text: &mut Text, calls: &Calls<'_>, first: &[Beside], count: usize, another: Another) {
    if others(text, calls, another) {
        text.word("; ");
    } else {
        text.word(
            "another may explain it (`fa_audit judge`, with more `--steps` where it gives up): ",
        );
    }
    text.word("under way with it ");
    text.word(if count == 1 { "was " } else { "were " });
    let mut word = "";
    for beside in first {
        request_beside(text, calls, word, beside);
        word = ", ";
    }
    if count > first.len() {
        text.field(", and ", (count - first.len()) as u64);
        text.word(" more");
    }
}

/// Writes a word, and behind it a request that was under way with another, with its entry or with what comes of it as the next.
fn request_beside(text: &mut Text, calls: &Calls<'_>, word: &str, beside: &Beside) {
    begin_request(text, calls, word, beside.asked);
    text.word(", ");
    match beside.next {
        Next::Placed(entry) => text.field("entry ", u64::from(entry)),
        Next::Waits => text.word("not yet"),
        Next::Refused(code) => {
            text.field("code ", u64::from(code));
            text.word(" next");
        }
        Next::Fits => text.word("fits next"),
    }
    text.word(")");
}
