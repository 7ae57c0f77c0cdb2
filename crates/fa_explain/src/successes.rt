//! Replies whose body is none of their request: code 16.

use crate::bodies::stand_behind;
use crate::exchange::{Exchange, request_of};
use crate::fault::Fault;
use crate::listings;
use crate::shapes::success_of;
use fa_bodies::{RequestBody, opcodes};
use fa_show::{Asked, Text, message_in, request_in, u32_at, words};

/// The bytes of `struct fuse_write_out`.
const WRITE_OUT: usize = 8;

/// Writes why the body of a reply is none of its request.
pub(crate) fn refused(text: &mut Text, fault: &Fault<'_>, exchange: Option<Exchange<'_>>) {
    let Some(told) = message_in(&fault.packet) else {
        return;
    };
    if told.error != 0 {
        text.word("an error is the header alone: ");
        return stand_behind(text, told.behind, "it");
    }
    let Some(exchange) = exchange else {
        return;
    };
    if let Some(asked) = request_in(&exchange.packet) {
        success_refused(text, &asked, told.behind);
    }
}

/// Whether a reply has as many bytes as a listing may have, so that an entry of it is none.
pub(crate) fn is_of_entries(fault: &Fault<'_>, exchange: Option<Exchange<'_>>) -> bool {
    match (message_in(&fault.packet), listed_at_most(exchange)) {
        (Some(told), Some(most)) => told.error == 0 && told.behind.len() <= most,
        _ => false,
    }
}

/// How many bytes the request of an exchange asks for, if it lists.
fn listed_at_most(exchange: Option<Exchange<'_>>) -> Option<usize> {
    let exchange = exchange?;
    let request = request_of(&exchange.packet)?;
    match &request.body {
        RequestBody::Readdir(read) | RequestBody::Readdirplus(read) => Some(read.size as usize),
        _ => None,
    }
}

/// Writes why a body is none of the success of a request.
fn success_refused(text: &mut Text, asked: &Asked<'_>, body: &[u8]) {
    let Ok(request) = &asked.request else {
        return;
    };
    match &request.body {
        RequestBody::Passed => {
            text.word("INTERRUPT is answered by the header alone: ");
            stand_behind(text, body, "it");
        }
        RequestBody::Init(_) => {
            text.word("a success of INIT has 24 to 64 bytes: ");
            text.number(body.len() as u64);
            text.word(" stand behind the header");
        }
        RequestBody::Read(read) => more_than_asked(text, body, read.size),
        RequestBody::Readdir(read) | RequestBody::Readdirplus(read) => {
            if body.len() > read.size as usize {
                more_than_asked(text, body, read.size);
            } else {
                listings::refused(text, asked.opcode == opcodes::READDIRPLUS, body);
            }
        }
        RequestBody::Write { size, .. } => {
            if body.len() == WRITE_OUT {
                more_than_written(text, body, *size);
            } else {
                other_size(text, asked.opcode, body);
            }
        }
        _ => other_size(text, asked.opcode, body),
    }
}

/// Writes that more bytes came than were asked for.
fn more_than_asked(text: &mut Text, body: &[u8], size: u32) {
    text.word("it has ");
    text.count(body.len(), " byte", " bytes");
    text.field(", and ", u64::from(size));
    text.word(" were asked for");
}

/// Writes that more bytes were written than there were.
fn more_than_written(text: &mut Text, body: &[u8], size: u32) {
    text.field("it says that ", u64::from(u32_at(body, 0).unwrap_or(0)));
    text.field(" bytes of ", u64::from(size));
    text.word(" were written");
}

/// Writes what the body of a success is.
fn other_size(text: &mut Text, opcode: u32, body: &[u8]) {
    text.word("a success of ");
    words::operation(text, opcode);
    match success_of(opcode) {
        Some(structs) => {
            text.word(" is ");
            text.word(structs);
            text.field(": ", body.len() as u64);
            text.word(" stand behind the header");
        }
        None => {
            text.word(" is the header alone: ");
            stand_behind(text, body, "it");
        }
    }
}
