//! Entries whose step a tree refuses, and requests that an order leaves out: codes 73 and 81 to 86.

use crate::all_orders::Search;
use crate::allowed::allowed_line;
use crate::another::{Another, answered_by, asked_by, order_line};
use crate::answers::exchange;
use crate::causes::About;
use crate::holding::tree_lines;
use crate::looks::Looks;
use crate::misplaced::entry_of;
use crate::rules::{error_line, never_answered, never_lines};
use crate::scene::{Memory, Scene};
use crate::wording::{self, error_name};
use crate::{attributes, bindings, contents, directories, emptiness, start, unmet};
use fa_bodies::errno::ENOENT;
use fa_capture::{Capture, codes};
use fa_explain::advice_of;
use fa_refusal::{Case, Earlier, Finding, Past, Reached, Refused};
use fa_show::Text;
use fa_tree::Tree;
use std::alloc::AllocError;

/// Writes why the tree that the entries before one lead to refuses its step, or that of the request that is left out: whether it is known
/// that no order is legal. Where requests overlap, all orders are searched.
pub(crate) fn explain<S: Search>(
    text: &mut Text,
    capture: &Capture<'_>,
    refused: &Refused<'_>,
    search: &mut S,
) -> Result<bool, AllocError> {
    let mut tree = refused.first.copy()?;
    let explained = explain_along(text, capture, refused, search, &mut tree);
    // It has many tables: they are proved to go in one place.
    drop(tree);
    explained
}

/// The same with a tree that is lent, which becomes the one that the entries lead to.
fn explain_along<S: Search>(
    text: &mut Text,
    capture: &Capture<'_>,
    refused: &Refused<'_>,
    search: &mut S,
    tree: &mut Tree,
) -> Result<bool, AllocError> {
    let Some(reached) = refused.reach(tree)? else {
        return Ok(false);
    };
    let case = &reached.case;
    exchange(refused.alloc, text, capture, case)?;
    if refused.code == codes::ANSWERED_LEFT_OUT {
        next_line(text, refused, &reached);
    }
    let Some(code) = reached.code else {
        return Ok(false);
    };
    let Some(looks) = because(text, refused, tree, case, code)? else {
        return Ok(false);
    };
    if code == codes::ERROR_WITHOUT_CAUSE {
        if let Some(error) = never_answered(case) {
            never_lines(text, case, error);
            return Ok(true);
        }
    }
    let another = order_line(text, refused, search, tree, case)?;
    look_at_lines(text, refused, code, &looks, case, another);
    Ok(another.is_without_order())
}

/// Writes which code a request has that is left out, were it the next entry.
fn next_line(text: &mut Text, refused: &Refused<'_>, reached: &Reached<'_>) {
    text.field("next     as entry ", u64::from(refused.entry));
    match reached.code {
        Some(code) => {
            text.field(" it has code ", u64::from(code));
            text.word(": ");
            text.word(codes::text(code).unwrap_or(""));
        }
        None => text.word(" it fits: the order only leaves it out"),
    }
    if reached.case.call.asked != refused.at {
        wording::request(
            text,
            refused.calls,
            "; it is shown in place of ",
            refused.at,
        );
        text.word(", since its answer came first and is left out too");
    }
    text.end_line();
    if reached.code.is_none() {
        look_at_line(
            text,
            refused.code,
            "it would fit as the next entry",
            &reached.case,
            "",
        );
    }
}

/// Writes which rule an answer breaks that this tree refuses with a code, what the tree holds and when the answer was right: which of the
/// lines of what to look at fit. None, and nothing is written, where it does not refuse it so.
pub(crate) fn because<'a>(
    text: &mut Text,
    refused: &Refused<'a>,
    tree: &Tree,
    case: &Case<'a>,
    code: u16,
) -> Result<Option<Looks>, AllocError> {
    match Finding::of(refused, tree, case, code)? {
        Some(finding) => Ok(Some(because_of(text, refused, tree, case, &finding)?)),
        None => Ok(None),
    }
}

/// The same by what was found.
fn because_of(
    text: &mut Text,
    refused: &Refused<'_>,
    tree: &Tree,
    case: &Case<'_>,
    finding: &Finding<'_, '_>,
) -> Result<Looks, AllocError> {
    let past = Past::of(refused, tree, case, finding)?;
    let memory = Memory::new(refused.alloc);
    let scene = Scene {
        memory: &memory,
        calls: refused.calls,
        tree,
        history: &past.history,
        earlier: past.earlier,
        case: *case,
    };
    let looks = why(text, &scene, finding);
    earlier_line(text, &scene, finding);
    if memory.is_refused() {
        return Err(AllocError);
    }
    Ok(looks)
}

/// Writes which rule an answer breaks, and what the tree holds: which of the lines of what to look at fit.
fn why(text: &mut Text, scene: &Scene<'_>, finding: &Finding<'_, '_>) -> Looks {
    match finding {
        Finding::NotAllowed(unmet) => unmet::explain(text, scene, unmet),
        Finding::WithoutCause(error) => without_cause(text, scene, *error),
        Finding::Attributes(other) => attributes::explain(text, scene, other),
        Finding::Given(binding) => bindings::explain(text, scene, binding),
        Finding::Read(reading) => contents::explain(text, scene, reading),
        Finding::Listed(listing) => directories::explain(text, scene, listing),
    }
}

/// Writes that an error has no cause: which of the lines of what to look at fit.
fn without_cause(text: &mut Text, scene: &Scene<'_>, error: i32) -> Looks {
    let about = error_line(text, &scene.case, error);
    tree_lines(text, scene);
    allowed_line(text, scene);
    match about {
        Some(about) => looks_of(scene, error, about),
        None => Looks::at(error_name(error), false),
    }
}

/// Which of the lines of what to look at fit an error that has no cause, by what that would be about.
fn looks_of(scene: &Scene<'_>, error: i32, about: About) -> Looks {
    let is_from_start = start::is_from_start(scene, about);
    let case = match about {
        About::Directory => "ENOENT to a request that makes a name",
        About::File => "ENOENT to a request without a name",
        _ if error == ENOENT && is_from_start => "ENOENT of a name that no request changed",
        _ => emptiness::of(scene, error, about).unwrap_or(error_name(error)),
    };
    Looks::at(case, is_from_start)
}

/// The line of an answer that was right at no moment of an order.
pub(crate) const NEVER_RIGHT: &str = "earlier  the same answer was never right before";

/// Writes whether the answer was right before. A node that is given for another file was free before it was given.
fn earlier_line(text: &mut Text, scene: &Scene<'_>, finding: &Finding<'_, '_>) {
    if let Finding::Given(_) = finding {
        return;
    }
    if let Finding::Attributes(other) = finding {
        if attributes::are_those_before(other) {
            text.word("earlier  these are the attributes from before the request");
            return text.end_line();
        }
    }
    match scene.earlier {
        Earlier::Until(asked) => {
            wording::request(
                text,
                scene.calls,
                "earlier  the same answer was right until ",
                asked,
            );
            text.end_line();
        }
        Earlier::Never => {
            text.word(NEVER_RIGHT);
            text.end_line();
        }
        Earlier::Unknown => {}
    }
}

/// What stands in the line of code 82 for the operation.
const THE_OPERATION: &str = "the operation";

/// Where nothing is known of other orders.
const IF_NO_ORDER: &str = "If no order explains it: ";

/// Where one of two answers is wrong.
const IF_THIS_ONE: &str = "If it is this one: ";

/// Writes the lines of what to look at: the order, where another one is better; the answer past which no order goes, where that is not this
/// one; and else the server, with a condition where nothing is known of other orders.
fn look_at_lines(
    text: &mut Text,
    refused: &Refused<'_>,
    code: u16,
    looks: &Looks,
    case: &Case<'_>,
    another: Another,
) {
    match another {
        Another::Never => look_at_server(text, code, looks, case, ""),
        Another::NeverPast(stop) => {
            asked_by(text, refused.calls, "look at  First the answer to ", stop);
            text.word(": no order explains it, with all answers before it.");
            text.end_line();
            look_at_server(text, code, looks, case, "");
        }
        Another::Unknown => look_at_server(text, code, looks, case, IF_NO_ORDER),
        Another::Until(stop) if is_placed(refused, stop) => {
            asked_by(
                text,
                refused.calls,
                "look at  This answer and the one to ",
                stop,
            );
            text.word(": no order explains both.");
            text.end_line();
            look_at_server(text, code, looks, case, IF_THIS_ONE);
        }
        Another::Until(stop) => {
            asked_by(text, refused.calls, "look at  The answer to ", stop);
            text.word(", which no order explains: this one is explained by another.");
            text.end_line();
        }
        Another::Legal => order_at_fault(
            text,
            "another is legal, and `fa_audit search` prints it.",
        ),
        Another::SoFar => order_at_fault(
            text,
            "another explains this answer. `fa_audit search` looks for one that is legal, with more `--steps` where it gives up.",
        ),
        Another::Unanswered => order_at_fault(text, "leave it out, or have it elsewhere."),
    }
}

/// Whether the request that a message answers is placed before the entry.
fn is_placed(refused: &Refused<'_>, answer: u32) -> bool {
    match answered_by(refused.calls, answer) {
        Some(case) => entry_of(refused.before, case.call.asked).is_some(),
        None => false,
    }
}

/// Writes that it is the order that is to be looked at.
fn order_at_fault(text: &mut Text, why: &str) {
    text.word("look at  The order: ");
    text.word(why);
    text.end_line();
}

/// The case of the line of what to look at where the first tree may be wrong.
const FROM_THE_START: &str = "from the start";

/// Writes whether the tree text may be wrong, and what to look at in a server.
fn look_at_server(text: &mut Text, code: u16, looks: &Looks, case: &Case<'_>, condition: &str) {
    if looks.is_from_start {
        look_at_start(text, code, case, condition);
    }
    look_at_answer(text, code, looks, case, condition);
}

/// Writes what to look at in a server: a line or two.
pub(crate) fn look_at_answer(
    text: &mut Text,
    code: u16,
    looks: &Looks,
    case: &Case<'_>,
    condition: &str,
) {
    look_at_line(text, code, looks.first, case, condition);
    if let Some(second) = looks.second {
        look_at_line(text, code, second, case, condition);
    }
}

/// Writes that the tree text may be wrong.
pub(crate) fn look_at_start(text: &mut Text, code: u16, case: &Case<'_>, condition: &str) {
    look_at_line(text, code, FROM_THE_START, case, condition);
}

/// Writes a line of what to look at in a server behind a condition, if there is one.
fn look_at_line(text: &mut Text, code: u16, key: &str, case: &Case<'_>, condition: &str) {
    let Some(advice) = advice_of(code, key) else {
        return;
    };
    text.word("look at  ");
    text.word(condition);
    match parted(code, advice) {
        Some((before, behind)) => {
            begun(text, before, condition);
            wording::operation(text, case);
            text.word(behind);
        }
        None => begun(text, advice, condition),
    }
    text.end_line();
}

/// The line of code 82, parted where the operation is to stand.
fn parted(code: u16, advice: &str) -> Option<(&str, &str)> {
    if code == codes::ERROR_WITHOUT_CAUSE {
        advice.split_once(THE_OPERATION)
    } else {
        None
    }
}

/// Writes words that go on behind a condition, or begin a sentence where there is none.
fn begun(text: &mut Text, sentence: &str, condition: &str) {
    let mut is_first = !condition.is_empty();
    for byte in sentence.as_bytes() {
        if is_first {
            text.character(byte.to_ascii_lowercase());
        } else {
            text.character(*byte);
        }
        is_first = false;
    }
}
