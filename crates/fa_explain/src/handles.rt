//! File handles that are not open: code 50.

use crate::advice::Advice;
use crate::citing::earlier_two;
use crate::exchange::Answered;
use crate::fault::Fault;
use crate::given::{Handle, handle_used};
use crate::misplaced::{Sought, given_behind, late_answer, may_be_late_behind};
use crate::nodes::NodePast;
use crate::past::Past;
use fa_capture::Capture;
use fa_show::Text;
use std::alloc::{AllocError, Global};

/// What the messages so far say of a file handle.
#[derive(Clone, Copy)]
pub(crate) struct HandlePast {
    handle: Handle,
    /// How many of its openings are open.
    open: usize,
    /// How many answers opened it since it last had none.
    answers: usize,
    /// The last of them.
    opened: Option<Answered>,
    /// The last request that closed one of its openings.
    closed: Option<u32>,
    /// The last answer that opened it before its node was given anew.
    before: Option<Answered>,
    /// The request that took the last lookup of its node back before that.
    forgotten: Option<u32>,
    /// The last answer that opened it as another kind.
    as_other: Option<Answered>,
    /// The last answer that opened it for another node, and that node.
    elsewhere: Option<(u64, Answered)>,
}

impl HandlePast {
    /// No message came.
    pub fn of(handle: Handle) -> Self {
        HandlePast {
            handle,
            open: 0,
            answers: 0,
            opened: None,
            closed: None,
            before: None,
            forgotten: None,
            as_other: None,
            elsewhere: None,
        }
    }

    /// Notes that a node which was not known is given, where this request took its last lookup back.
    pub fn node_begins_anew(&mut self, node: u64, taken: Option<u32>) {
        if node == self.handle.node {
            *self = HandlePast {
                before: self.opened.or(self.before),
                forgotten: taken,
                elsewhere: self.elsewhere,
                ..HandlePast::of(self.handle)
            };
        }
    }

    /// Notes that an answer opens a handle, on a node that is still known or was given since.
    pub fn open(&mut self, answered: Answered, of: Handle, is_lasting: bool) {
        if of.fh != self.handle.fh {
            return;
        }
        if of.node != self.handle.node {
            if of.kind == self.handle.kind {
                self.elsewhere = Some((of.node, answered));
            }
        } else if of.kind != self.handle.kind {
            self.as_other = Some(answered);
        } else if is_lasting {
            self.add(answered);
        } else {
            self.before = Some(answered);
        }
    }

    /// Notes one opening more.
    fn add(&mut self, answered: Answered) {
        if self.open == 0 {
            self.answers = 0;
        }
        self.open = self.open.saturating_add(1);
        self.answers = self.answers.saturating_add(1);
        self.opened = Some(answered);
    }

    /// Notes that a request closes an opening of a handle.
    pub fn close(&mut self, at: u32, of: Handle) {
        if of == self.handle {
            self.open = self.open.saturating_sub(1);
            self.closed = Some(at);
        }
    }
}

/// Why a file handle is not open.
#[derive(Clone, Copy)]
enum Cause {
    /// All its openings were closed, the last by this request.
    Closed(u32),
    /// It was opened as another kind.
    OtherKind,
    /// It was opened before its node was taken back and given anew, by this answer.
    BeforeItsNode(Answered),
    /// It was opened for this node, another one.
    Elsewhere(u64),
    /// No answer opened it.
    Never,
}

/// Why a file handle is not open, and the messages that say so.
#[derive(Clone, Copy)]
struct NotOpen {
    cause: Cause,
    /// The answer that opened it, if one did.
    opened: Option<Answered>,
    /// The request that ended its opening, if one did.
    ended: Option<u32>,
}

impl NotOpen {
    /// Why a handle is not open, by what the messages say of it and of its node.
    fn of(past: &HandlePast, node: &NodePast) -> Self {
        if let (Some(_), Some(closed)) = (past.opened, past.closed) {
            return NotOpen {
                cause: Cause::Closed(closed),
                opened: past.opened,
                ended: past.closed,
            };
        }
        if past.as_other.is_some() {
            return NotOpen {
                cause: Cause::OtherKind,
                opened: past.as_other,
                ended: None,
            };
        }
        if let (Some(_), Some(anew)) = (past.before, node.first) {
            return NotOpen {
                cause: Cause::BeforeItsNode(anew),
                opened: past.before,
                ended: past.forgotten,
            };
        }
        let (cause, opened) = match past.elsewhere {
            Some((node, opened)) => (Cause::Elsewhere(node), Some(opened)),
            None => (Cause::Never, None),
        };
        NotOpen {
            cause,
            opened,
            ended: None,
        }
    }
}

/// Writes why a file handle is not open, and what opened and closed it: what to look at. Nothing was asked of the past.
pub(crate) fn explain(
    alloc: Global,
    text: &mut Text,
    capture: &Capture<'_>,
    fault: &Fault<'_>,
    past: &mut Past,
) -> Result<Advice, AllocError> {
    let Some(request) = fault.request() else {
        return Ok(Advice::First);
    };
    let Some(handle) = handle_used(&request) else {
        return Ok(Advice::First);
    };
    past.ask_for_handle(handle);
    past.read(alloc, capture, fault.number)?;
    let late = late_answer(alloc, capture, fault.number, Sought::Handle(handle))?;
    let node = past.node(handle.node);
    let Some(past) = past.handle else {
        return Ok(Advice::First);
    };
    let not_open = NotOpen::of(&past, &node);
    write_not_open(text, capture, &past, &not_open, late);
    Ok(advice_on(capture, fault, &not_open, late))
}

/// What to look at: an answer that was recorded too late, or one that is missing and the request, which may have been recorded too late
/// behind a RELEASE, or a handle that was mistaken for another one.
fn advice_on(
    capture: &Capture<'_>,
    fault: &Fault<'_>,
    not_open: &NotOpen,
    late: Option<Answered>,
) -> Advice {
    if late.is_some() {
        return Advice::Fourth;
    }
    if may_be_late_behind(capture, fault, not_open.ended) {
        return Advice::FirstAndThird;
    }
    match not_open.cause {
        Cause::Closed(_) | Cause::Never => Advice::First,
        Cause::OtherKind | Cause::BeforeItsNode(_) | Cause::Elsewhere(_) => Advice::FirstAndSecond,
    }
}

/// Writes why a file handle is not open, and the messages that say so.
fn write_not_open(
    text: &mut Text,
    capture: &Capture<'_>,
    past: &HandlePast,
    not_open: &NotOpen,
    late: Option<Answered>,
) {
    text.field("fh ", past.handle.fh);
    if let Cause::Elsewhere(node) = not_open.cause {
        text.field(" was opened for node ", node);
        text.field(", and is used with node ", past.handle.node);
    } else {
        text.field(" of node ", past.handle.node);
    }
    match not_open.cause {
        Cause::Closed(closed) => {
            text.word(" is closed: ");
            text.count(past.answers, " answer", " answers");
            text.field(" opened it, and ", u64::from(closed));
            text.word(" closed the last opening");
        }
        Cause::OtherKind => {
            text.word(" was opened as a ");
            text.word(past.handle.kind.other().word());
            text.word(", and is used as a ");
            text.word(past.handle.kind.word());
        }
        Cause::BeforeItsNode(anew) => {
            text.field(" was opened before ", u64::from(anew.at));
            text.word(" gave the node anew");
        }
        Cause::Elsewhere(_) => {}
        Cause::Never => text.word(" was opened by no answer before"),
    }
    if let Some(late) = late {
        given_behind(text, capture, late, "opens it");
    }
    text.end_line();
    earlier_two(text, capture, not_open.opened, not_open.ended);
}
