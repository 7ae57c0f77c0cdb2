//! Requests, and their answers.

use fa_bodies::Request;
use fa_capture::{Capture, Direction, Packet};
use fa_show::{request_in, u64_at};

/// Where the unique stands in the header of a message of either direction.
const UNIQUE: usize = 8;

/// The unique that a message has, if there is room for it.
pub(crate) fn unique_of(packet: &Packet<'_>) -> Option<u64> {
    u64_at(packet.bytes, UNIQUE)
}

/// An answer, by the number of its message and by that of its request.
#[derive(Clone, Copy)]
pub(crate) struct Answered {
    pub at: u32,
    pub asked: u32,
}

/// The last request before a message with the unique that it has.
#[derive(Clone, Copy)]
pub(crate) struct Exchange<'a> {
    /// The number of the request.
    pub asked: u32,
    pub packet: Packet<'a>,
    /// The number of its answer, if one came before the message.
    pub answer: Option<u32>,
}

/// The request that a message is, if it is one.
pub(crate) fn request_of<'a>(packet: &Packet<'a>) -> Option<Request<'a>> {
    match request_in(packet) {
        Some(asked) => asked.request.ok(),
        None => None,
    }
}

/// The last request with this unique before the message of this number.
pub(crate) fn last_asked<'a>(
    capture: &Capture<'a>,
    number: u32,
    unique: u64,
) -> Option<Exchange<'a>> {
    let mut last = None;
    let mut at: u32 = 0;
    for packet in capture.packets().take(number as usize) {
        if unique_of(&packet) == Some(unique) {
            if packet.direction == Direction::ToServer {
                last = Some(Exchange {
                    asked: at,
                    packet,
                    answer: None,
                });
            } else if let Some(last) = &mut last {
                last.answer = Some(at);
            }
        }
        at = at.saturating_add(1);
    }
    last
}
