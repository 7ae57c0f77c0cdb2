//! Messages that a session does not allow: codes 20 to 34.

use crate::advice::Advice;
use crate::citing::earlier;
use crate::exchange::{Exchange, last_asked};
use crate::fault::Fault;
use bitflags::Flags;
use fa_bodies::{InitIn, Negotiated, Reply, RequestBody, opcodes};
use fa_capture::{Capture, Direction, codes};
use fa_show::words::{self, INIT_FLAGS, RENAME_FLAGS};
use fa_show::{Asked, Text, request_in, said, u32_at};

/// The minor version of the protocol that is judged.
const MINOR: u32 = 31;

/// The flags of INIT that both sides may not set: WRITEBACK_CACHE and POSIX_ACL.
const NOT_JUDGED: u32 = 1 << 16 | 1 << 20;

/// Where `flags` stands in `struct fuse_rename2_in`.
const RENAME2_FLAGS: usize = 8;

/// Writes which rule of a session a message breaks, and what it conflicts with: what to look at.
pub(crate) fn explain(
    text: &mut Text,
    capture: &Capture<'_>,
    fault: &Fault<'_>,
    exchange: Option<Exchange<'_>>,
) -> Advice {
    match fault.code {
        codes::FIRST_NOT_INIT => first_not_init(text, capture, fault),
        codes::SECOND_INIT => after_init(text, capture, "a capture has one INIT"),
        codes::BEFORE_INIT_ANSWERED => {
            after_init(text, capture, "no success to INIT stands before it")
        }
        codes::UNIQUE_IN_USE => in_use(text, capture, fault, exchange),
        codes::NO_REQUEST_WAITS => none_waits(text, capture, fault, exchange),
        codes::UNIQUE_ZERO => sentence(text, "unique is 0, which stands for notifications"),
        _ => reply_not_allowed(text, fault, exchange),
    }
}

/// Writes a sentence, and ends the line.
fn sentence(text: &mut Text, words: &str) -> Advice {
    text.word(words);
    text.end_line();
    Advice::First
}

/// Writes that INIT is not in front.
fn first_not_init(text: &mut Text, capture: &Capture<'_>, fault: &Fault<'_>) -> Advice {
    let advice = sentence(text, "message 0 of a capture is the request INIT");
    match fault.packet.direction {
        Direction::ToServer => advice,
        // Any request of the capture may be the one that it answers.
        Direction::FromServer => match last_asked(capture, capture.messages, fault.unique()) {
            Some(_) => Advice::Second,
            None => Advice::Third,
        },
    }
}

/// Writes what a request breaks that comes behind INIT, and the line of INIT.
fn after_init(text: &mut Text, capture: &Capture<'_>, words: &str) -> Advice {
    let advice = sentence(text, words);
    earlier(text, capture, 0, None);
    advice
}

/// Writes which request has the unique. Another request than the one at fault was not recorded twice.
fn in_use(
    text: &mut Text,
    capture: &Capture<'_>,
    fault: &Fault<'_>,
    exchange: Option<Exchange<'_>>,
) -> Advice {
    let Some(exchange) = exchange else {
        return Advice::First;
    };
    unique_of_message(text, fault, " is that of message ", exchange.asked);
    let advice = sentence(text, ", which still waits for its answer");
    earlier(text, capture, exchange.asked, None);
    if exchange.packet.bytes == fault.packet.bytes {
        advice
    } else {
        Advice::Second
    }
}

/// Writes whose unique it is.
fn unique_of_message(text: &mut Text, fault: &Fault<'_>, is: &str, number: u32) {
    text.field("unique ", fault.unique());
    text.field(is, u64::from(number));
}

/// Writes why no request waits for a reply.
fn none_waits(
    text: &mut Text,
    capture: &Capture<'_>,
    fault: &Fault<'_>,
    exchange: Option<Exchange<'_>>,
) -> Advice {
    let Some(exchange) = exchange else {
        text.field("no request before it has unique ", fault.unique());
        text.end_line();
        return Advice::Third;
    };
    match exchange.answer {
        Some(answer) => {
            unique_of_message(text, fault, " was last that of message ", exchange.asked);
            text.field(", which ", u64::from(answer));
            let advice = sentence(text, " has answered");
            earlier(text, capture, exchange.asked, None);
            earlier(text, capture, answer, Some(exchange.asked));
            advice
        }
        None => {
            unique_of_message(text, fault, " is that of message ", exchange.asked);
            text.word(", and ");
            if let Some(asked) = request_in(&exchange.packet) {
                words::operation(text, asked.opcode);
            }
            sentence(text, " has no answer");
            earlier(text, capture, exchange.asked, None);
            Advice::Second
        }
    }
}

/// Writes what the reply to a request may not say.
fn reply_not_allowed(text: &mut Text, fault: &Fault<'_>, exchange: Option<Exchange<'_>>) -> Advice {
    let Some(exchange) = exchange else {
        return Advice::First;
    };
    let Some(asked) = request_in(&exchange.packet) else {
        return Advice::First;
    };
    let advice = match fault.code {
        codes::INIT_REFUSED => {
            text.word("INIT has to be answered by a success");
            Advice::First
        }
        codes::VERSION => versions(text, fault, &asked),
        codes::NEGOTIATED_FLAGS => flags(text, fault, &asked),
        codes::LEFT_OUT_SUCCEEDED => left_out(text, &asked),
        _ => without_handle(text, &asked),
    };
    text.end_line();
    advice
}

/// What the kernel says in INIT, and the server in its answer.
fn both_inits(fault: &Fault<'_>, asked: &Asked<'_>) -> Option<(InitIn, Negotiated)> {
    let Ok(request) = &asked.request else {
        return None;
    };
    match (&request.body, said(request, &fault.packet)) {
        (RequestBody::Init(init), Some(Reply::Negotiated(negotiated))) => Some((*init, negotiated)),
        _ => None,
    }
}

/// Writes which versions do not go together.
fn versions(text: &mut Text, fault: &Fault<'_>, asked: &Asked<'_>) -> Advice {
    let Some((kernel, server)) = both_inits(fault, asked) else {
        return Advice::First;
    };
    text.field("the kernel says ", u64::from(kernel.major));
    text.field(".", u64::from(kernel.minor));
    text.field(" and the server ", u64::from(server.major));
    text.field(".", u64::from(server.minor));
    text.word(": both have to say 7, and the lesser of the minors has to be 31");
    if kernel.minor < MINOR {
        Advice::Second
    } else {
        Advice::First
    }
}

/// Writes which flags both sides set.
fn flags(text: &mut Text, fault: &Fault<'_>, asked: &Asked<'_>) -> Advice {
    if let Some((kernel, server)) = both_inits(fault, asked) {
        text.word("both sides set ");
        words::flags(
            text,
            kernel.agreed(&server).bits() & NOT_JUDGED,
            &INIT_FLAGS,
        );
    }
    Advice::First
}

/// Writes which operation is not judged.
fn left_out(text: &mut Text, asked: &Asked<'_>) -> Advice {
    text.word("this profile does not say what ");
    words::operation(text, asked.opcode);
    if asked.opcode == opcodes::RENAME2 {
        text.word(" with ");
        let bits = u32_at(asked.behind, RENAME2_FLAGS).unwrap_or(0);
        words::flags(text, bits, &RENAME_FLAGS);
    }
    text.word(" does to files, so its success can't be judged");
    Advice::First
}

/// Writes which operation opens no handles any more.
fn without_handle(text: &mut Text, asked: &Asked<'_>) -> Advice {
    text.word("after ENOSYS the kernel sends no ");
    words::operation(text, asked.opcode);
    text.word(" any more, and names no handles");
    Advice::First
}
