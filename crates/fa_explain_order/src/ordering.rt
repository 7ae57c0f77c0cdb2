//! The lines that say why an order does not explain a capture.

use crate::all_orders::Search;
use crate::{misplaced, stepping};
use fa_capture::{Capture, codes};
use fa_check::Verdict;
use fa_explain::{Advice, cite, look_at};
use fa_ledger::Calls;
use fa_order::Entry;
use fa_refusal::{Case, Placed, Refused, entries_before};
use fa_show::Text;
use fa_tree::Tree;
use std::alloc::{AllocError, Global};

/// How many bytes of text there is room for. Fourteen lines of which names and data are shortened are fewer.
const ROOM: usize = 65_536;

/// So many requests that an order leaves out are written.
const FEW: usize = 8;

/// Why an order does not explain a capture, or what it leaves out.
#[derive(Drop)]
pub struct OrderReasons {
    /// The lines behind the line of its verdict.
    pub text: Text,
    /// Whether no order of the requests is legal, as far as they tell.
    pub is_without_order: bool,
}

/// Why an order does not explain a capture, or what it leaves out: the lines behind the line of its verdict, which is
/// [`check`](fa_check::check)'s of these calls, this first tree and these entries.
///
/// The calls are those of the capture. A line is a label, padded to eight characters, a blank and a text; fourteen come at most. For
/// [`Verdict::NotShown`] they say what the request asks for and what it was answered, which rule the answer breaks, what the tree
/// holds there and which request made it so, which answers the tree allows, up to which entry the answer was right, whether another
/// order explains it, and what to look at; for an entry whose place or form is at fault, why. Where requests overlapped, the search is
/// asked for what is known of other orders. For [`Verdict::Legal`] they are the first requests that are left out, which were never
/// answered. For [`Verdict::Fault`] there are none, and where the verdict is not that of the order nothing is said of them. They are
/// printing ASCII and line feeds alone, whatever the capture holds.
///
/// # Errors
///
/// [`AllocError`] where memory was refused.
///
/// # Cost
///
/// That of two runs of [`check`](fa_check::check) over the entries before the one at fault, of a walk over the calls for each request
/// that was under way with the one at fault, of trying the answer at 65,536 moments of the order at most, and of the search. Memory for
/// two copies of the tree, four bytes and more a call, and the text.
pub fn order_reasons<S: Search>(
    alloc: Global,
    capture: &Capture<'_>,
    calls: &Calls<'_>,
    entries: &[Entry],
    first: &Tree,
    verdict: &Verdict,
    search: &mut S,
) -> Result<OrderReasons, AllocError> {
    let mut text = Text::new(alloc, ROOM, false)?;
    let is_without_order = match *verdict {
        Verdict::Legal { .. } => {
            let placed = Placed::by(alloc, calls, entries)?;
            left_out(&mut text, capture, calls, &placed);
            false
        }
        Verdict::Fault { .. } => false,
        Verdict::NotShown { entry, at, code } => {
            let before = entries_before(entries, entry);
            let placed = Placed::by(alloc, calls, before)?;
            let refused = Refused {
                alloc,
                calls,
                first,
                entries,
                before,
                placed: &placed,
                entry,
                at,
                code,
            };
            not_shown(&mut text, capture, &refused, search)?
        }
    };
    Ok(OrderReasons {
        text,
        is_without_order,
    })
}

/// Writes the lines of the first requests that an order leaves out.
fn left_out(text: &mut Text, capture: &Capture<'_>, calls: &Calls<'_>, placed: &Placed) {
    let mut told: usize = 0;
    for place in 0..calls.list.len() {
        if told >= FEW {
            break;
        }
        if placed.entry(place).is_some() {
            continue;
        }
        if let Some(case) = Case::at(calls, place) {
            text.word("left out ");
            cite(text, capture, case.call.asked, None);
            told = told.saturating_add(1);
        }
    }
    if told > 0 {
        text.word(
            "look at  These were never answered. A server that hangs looks like this, and so does a recording that was ended.",
        );
        text.end_line();
    }
}

/// Writes why an entry is at fault: whether it is known that no order is legal.
fn not_shown<S: Search>(
    text: &mut Text,
    capture: &Capture<'_>,
    refused: &Refused<'_>,
    search: &mut S,
) -> Result<bool, AllocError> {
    match refused.code {
        codes::NO_TREE_REQUEST => misplaced::no_tree_request(text, capture, refused),
        codes::PLACED_TWICE => misplaced::placed_twice(text, capture, refused),
        codes::EARLIER_NOT_PLACED => misplaced::earlier_not_placed(text, capture, refused),
        codes::CHOICE_NOT_ALLOWED => misplaced::choice_not_allowed(text, capture, refused),
        _ => return stepping::explain(text, capture, refused, search),
    }
    look_at(text, refused.code, Advice::First);
    Ok(false)
}
