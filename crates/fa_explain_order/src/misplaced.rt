//! Entries whose place or form is at fault: codes 70, 71, 72 and 74.

use crate::answers::request_line;
use fa_bodies::opcodes;
use fa_capture::{Capture, Direction};
use fa_explain::{asked_before, cite};
use fa_ledger::{Action, Calls};
use fa_order::Entry;
use fa_refusal::{Case, Refused};
use fa_show::{Text, request_in, words};

/// Writes why an entry names no tree request.
pub(crate) fn no_tree_request(text: &mut Text, capture: &Capture<'_>, refused: &Refused<'_>) {
    let at = refused.at;
    let Some(packet) = capture.packets().nth(at as usize) else {
        text.word("because  the capture has ");
        text.count(refused.calls.messages as usize, " message", " messages");
        text.word(", counted from 0");
        text.end_line();
        return next_to(text, capture, refused.calls, at);
    };
    text.word("message  ");
    cite_any(text, capture, at, packet.direction);
    text.word("because  ");
    if packet.direction == Direction::FromServer {
        text.word("it is a message of the server");
    } else if let Some(asked) = request_in(&packet) {
        words::operation(text, asked.opcode);
        text.word(" does not act on the tree");
        if asked.opcode == opcodes::RENAME2 {
            text.word(" with these flags");
        }
    }
    text.end_line();
    next_to(text, capture, refused.calls, at);
}

/// Writes the rest of a line: a message of either direction, with what it answers.
fn cite_any(text: &mut Text, capture: &Capture<'_>, at: u32, direction: Direction) {
    match direction {
        Direction::ToServer => cite(text, capture, at, None),
        Direction::FromServer => cite(text, capture, at, asked_before(capture, at)),
    }
}

/// Writes the line of a tree request that stands right before or behind a message.
fn next_to(text: &mut Text, capture: &Capture<'_>, calls: &Calls<'_>, at: u32) {
    if let Some(number) = tree_request_at(calls, at) {
        text.word("next to  ");
        cite(text, capture, number, None);
    }
}

/// The number of the tree request that stands right before or behind a message, if one does.
fn tree_request_at(calls: &Calls<'_>, at: u32) -> Option<u32> {
    if let Some(before) = at.checked_sub(1) {
        if calls.find(before).is_some() {
            return Some(before);
        }
    }
    match at.checked_add(1) {
        Some(behind) if calls.find(behind).is_some() => Some(behind),
        _ => None,
    }
}

/// Writes which entry names a request already.
pub(crate) fn placed_twice(text: &mut Text, capture: &Capture<'_>, refused: &Refused<'_>) {
    request_line(text, capture, refused.at);
    text.word("because  ");
    if let Some(case) = Case::of(refused.calls, refused.at) {
        if let Some(entry) = refused.placed.entry(case.place) {
            text.field("entry ", u64::from(entry));
            text.word(" names it already");
        }
    }
    text.end_line();
}

/// Writes which request was answered before that of an entry was sent, and is not placed yet.
pub(crate) fn earlier_not_placed(text: &mut Text, capture: &Capture<'_>, refused: &Refused<'_>) {
    let at = refused.at;
    request_line(text, capture, at);
    let Some((missing, answered)) = refused.placed.first_left(refused.calls) else {
        return;
    };
    let asked = missing.call.asked;
    text.word("missing  ");
    cite(text, capture, asked, None);
    text.field("because  ", u64::from(asked));
    text.field(" was answered by ", u64::from(answered));
    text.field(", before ", u64::from(at));
    text.word(" was sent, and is in no entry before this one");
    if let Some(entry) = entry_of(refused.entries, asked) {
        text.field(", but in entry ", u64::from(entry));
    }
    text.end_line();
}

/// The first entry that names a request.
pub(crate) fn entry_of(entries: &[Entry], asked: u32) -> Option<u32> {
    let mut number: u32 = 0;
    for entry in entries {
        if entry.at == asked {
            return Some(number);
        }
        number = number.saturating_add(1);
    }
    None
}

/// Writes why an entry may not carry the count that it carries, or has to carry one.
pub(crate) fn choice_not_allowed(text: &mut Text, capture: &Capture<'_>, refused: &Refused<'_>) {
    request_line(text, capture, refused.at);
    text.word("because  ");
    if let Some(case) = Case::of(refused.calls, refused.at) {
        choice(text, &case, refused.wrote());
    }
    text.end_line();
}

/// Writes why a request may not be named with this count.
fn choice(text: &mut Text, case: &Case<'_>, wrote: Option<u32>) {
    if case.call.answer.is_some() {
        return text.word("it was answered, so it carries no count");
    }
    if case.operation.keeps_tree() {
        return text.word("it only reads and was never answered");
    }
    let Some(Action::Write { size, .. }) = case.action() else {
        return text.word("it is no WRITE, so it carries no count");
    };
    match wrote {
        Some(count) => {
            text.field("its size is ", u64::from(*size));
            text.field(", and the entry says ", u64::from(count));
        }
        None => {
            text.field(
                "it was never answered: the entry has to say how many of its ",
                u64::from(*size),
            );
            text.word(" bytes were written");
        }
    }
}
