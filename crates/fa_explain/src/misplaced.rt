//! Messages that may stand at another place than they were sent.

ghost use Rattle.std.specs.Prelude.{[]};
ghost use Rattle.fa_session.specs.Shows.{Shows};

use crate::exchange::{Answered, unique_of};
use crate::fault::Fault;
use crate::given::{Given, Handle, Opened};
use fa_bodies::{Reply, Request};
use fa_capture::Capture;
use fa_capture::limits::MAX_MESSAGES;
use fa_session::{Event, Session, SessionError};
use fa_show::{Text, request_in, words};
use std::alloc::{AllocError, Global};

/// What an answer is looked for to give.
#[derive(Clone, Copy)]
pub(crate) enum Sought {
    Node(u64),
    Handle(Handle),
}

impl Sought {
    /// Whether a reply to a request gives it.
    fn is_given(self, request: &Request<'_>, reply: &Reply<'_>) -> bool {
        match self {
            Sought::Node(node) => Given::by(request, reply).has(node),
            Sought::Handle(handle) => match Opened::by(request, reply) {
                Some(opened) => opened.handle == handle,
                None => false,
            },
        }
    }

    /// The answer that a message is, if it gives what is looked for and its request stands before the message of this number.
    fn given_by(self, event: &Event<'_>, number: u32) -> Option<Answered> {
        let Event::Answered {
            at,
            asked,
            messages,
            ..
        } = event
        else {
            return None;
        };
        if *at > number && *asked < number && self.is_given(&messages.to.request, &messages.reply) {
            Some(Answered {
                at: *at,
                asked: *asked,
            })
        } else {
            None
        }
    }
}

/// The first answer behind the message of this number to a request before it that gives what the message lacks, if the messages up to
/// there keep a session.
pub(crate) fn late_answer(
    alloc: Global,
    capture: &Capture<'_>,
    number: u32,
    sought: Sought,
) -> Result<Option<Answered>, AllocError> {
    let mut session = Session::new(alloc, capture.seed);
    late_answer_in(&mut session, capture, number, sought)
}

/// The same with a session lent, in which no message came.
fn late_answer_in<'a>(
    session: &mut Session<'a>,
    capture: &Capture<'a>,
    number: u32,
    sought: Sought,
) -> Result<Option<Answered>, AllocError>
    requires { Shows [] session.old }
{
    let mut packets = capture.packets();
    for taken in 0..MAX_MESSAGES {
        let Some(packet) = packets.next() else {
            break;
        };
        match session.accept(&packet) {
            Ok(event) => {
                if let Some(answered) = sought.given_by(&event, number) {
                    return Ok(Some(answered));
                }
            }
            Err(SessionError::Refused(_)) => break,
            Err(SessionError::Memory) => return Err(AllocError),
        }
    }
    Ok(None)
}

/// Writes which answer behind the message at fault gives what it lacks.
pub(crate) fn given_behind(text: &mut Text, capture: &Capture<'_>, late: Answered, does: &str) {
    text.field("; ", u64::from(late.at));
    text.field(", the answer of ", u64::from(late.asked));
    if let Some(packet) = capture.packets().nth(late.asked as usize) {
        if let Some(asked) = request_in(&packet) {
            text.word(" (");
            words::operation(text, asked.opcode);
            text.word(")");
        }
    }
    text.word(", ");
    text.word(does);
}

/// Whether the request at fault may have been recorded too late, behind one that was sent after it: that stands right before it, or has a
/// higher unique, so that Linux made it later. Not where there is none.
pub(crate) fn may_be_late_behind(
    capture: &Capture<'_>,
    fault: &Fault<'_>,
    before: Option<u32>,
) -> bool {
    let Some(before) = before else {
        return false;
    };
    if before.saturating_add(1) == fault.number {
        return true;
    }
    match capture.packets().nth(before as usize) {
        Some(packet) => unique_of(&packet).unwrap_or(0) > fault.unique(),
        None => false,
    }
}
