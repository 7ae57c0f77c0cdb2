//! Lines that cite messages.

use crate::exchange::{Answered, Exchange, last_asked, unique_of};
use crate::fault::Fault;
use fa_capture::{Capture, Direction, Packet, codes};
use fa_show::{Fate, InitFields, Line, Text};

/// So many first bytes of a message are written.
const FRONT: usize = 48;

/// Writes the line of the message at fault.
pub(crate) fn message_line(text: &mut Text, fault: &Fault<'_>, exchange: Option<Exchange<'_>>) {
    text.word("message  ");
    let line = Line {
        number: fault.number,
        packet: fault.packet,
        fate: Fate {
            partner: None,
            code: Some(fault.code),
        },
        partner: match exchange {
            Some(exchange) if fault.is_of_reply() => Some((exchange.asked, exchange.packet)),
            _ => None,
        },
    };
    // Where the flags are at fault, they are told.
    let fields = if fault.code == codes::NEGOTIATED_FLAGS {
        InitFields::All
    } else {
        InitFields::Version
    };
    line.cite(text, fields);
    text.end_line();
}

/// Writes the line of an earlier message: of an answer with what it answers.
pub(crate) fn earlier(text: &mut Text, capture: &Capture<'_>, number: u32, asked: Option<u32>) {
    text.word("earlier  ");
    cite(text, capture, number, asked);
}

/// Writes the lines of an earlier answer and of an earlier request, where there are such.
pub(crate) fn earlier_two(
    text: &mut Text,
    capture: &Capture<'_>,
    answered: Option<Answered>,
    request: Option<u32>,
) {
    if let Some(answered) = answered {
        earlier(text, capture, answered.at, Some(answered.asked));
    }
    if let Some(request) = request {
        earlier(text, capture, request, None);
    }
}

/// The number of the request that the message of this number answers, if it is a reply: the last one before it with its unique.
///
/// Takes no memory, and time linear in the capture up to the message.
pub fn asked_before(capture: &Capture<'_>, number: u32) -> Option<u32> {
    let packet = capture.packets().nth(number as usize)?;
    let unique = unique_of(&packet)?;
    Some(last_asked(capture, number, unique)?.asked)
}

/// Writes what an answer that is at fault answers.
pub(crate) fn request_line(text: &mut Text, number: u32, packet: Packet<'_>) {
    text.word("request  ");
    let line = Line {
        number,
        packet,
        // The message at fault is its reply.
        fate: Fate {
            partner: Some(number),
            code: None,
        },
        partner: None,
    };
    line.cite(text, InitFields::All);
    text.end_line();
}

/// Writes the rest of a line: what the message of this number asks for, or answers to the request of that one, as
/// [`show`](fa_show::show) does, but of INIT the version alone. A number that no message has ends the line.
///
/// Takes no memory, and time linear in the capture.
pub fn cite(text: &mut Text, capture: &Capture<'_>, number: u32, asked: Option<u32>) {
    if let Some(packet) = capture.packets().nth(number as usize) {
        let line = Line {
            number,
            packet,
            fate: Fate {
                partner: answer_behind(capture, number, &packet),
                code: None,
            },
            partner: request_at(capture, asked),
        };
        line.cite(text, InitFields::Version);
    }
    text.end_line();
}

/// The message of this number, behind the number.
fn request_at<'a>(capture: &Capture<'a>, number: Option<u32>) -> Option<(u32, Packet<'a>)> {
    let Some(number) = number else {
        return None;
    };
    match capture.packets().nth(number as usize) {
        Some(packet) => Some((number, packet)),
        None => None,
    }
}

/// The number of the message that answers a request, if one does: the first message of the server behind it with its unique.
fn answer_behind(capture: &Capture<'_>, number: u32, packet: &Packet<'_>) -> Option<u32> {
    let (Direction::ToServer, Some(unique)) = (packet.direction, unique_of(packet)) else {
        return None;
    };
    let mut at: u32 = 0;
    for packet in capture.packets() {
        if at > number
            && packet.direction == Direction::FromServer
            && unique_of(&packet) == Some(unique)
        {
            return Some(at);
        }
        at = at.saturating_add(1);
    }
    None
}

/// Writes how a message begins, in groups of four bytes; no line of one that has none.
pub(crate) fn bytes_line(text: &mut Text, bytes: &[u8]) {
    if bytes.is_empty() {
        return;
    }
    text.word("bytes    ");
    let mut place: usize = 0;
    let (front, behind) = bytes.split_at(FRONT.min(bytes.len()));
    for byte in front {
        if place != 0 && place % 4 == 0 {
            text.word(" ");
        }
        text.digits(*byte);
        place = place.saturating_add(1);
    }
    if !behind.is_empty() {
        text.word(" ..");
    }
    text.end_line();
}
