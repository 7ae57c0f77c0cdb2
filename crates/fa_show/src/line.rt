//! The line of a message.

use crate::asked::{Asked, message_in, request_in, said};
use crate::pairing::Fate;
use crate::text::Text;
use crate::{replies, requests};
use fa_bodies::{Negotiated, Reply, opcodes};
use fa_capture::{Direction, Packet, codes};

/// How much of INIT, and of its success, a line says.
#[derive(Clone, Copy, PartialEq, Eq)]
pub enum InitFields {
    /// The version of the protocol alone.
    Version,
    /// The version, how much is read ahead at most, and the flags.
    All,
}

/// What the line of a message is made of.
#[derive(Clone, Copy)]
pub struct Line<'a> {
    /// The number of the message.
    pub number: u32,
    pub packet: Packet<'a>,
    /// What came of it. Of a reply the number in it is not looked at.
    pub fate: Fate,
    /// The message that goes with it, with its number.
    pub partner: Option<(u32, Packet<'a>)>,
}

impl Line<'_> {
    /// Writes the line.
    ///
    /// Takes no memory, in time linear in the message and in the one that goes with it.
    pub fn write(&self, text: &mut Text) {
        self.cite(text, InitFields::All);
        if let Some(code) = self.fate.code {
            refused(text, code);
        }
        text.end_line();
    }

    /// Writes the line as another one cites it: without the code with which the message is refused, and without the line feed.
    ///
    /// Takes no memory, in time linear in the message and in the one that goes with it.
    pub fn cite(&self, text: &mut Text, fields: InitFields) {
        text.number(u64::from(self.number));
        match self.packet.direction {
            Direction::ToServer => self.request(text, fields),
            Direction::FromServer => self.reply(text, fields),
        }
    }

    /// Writes a request.
    fn request(&self, text: &mut Text, fields: InitFields) {
        text.word(" > ");
        let Some(asked) = request_in(&self.packet) else {
            return bytes(text, self.packet.bytes);
        };
        text.field("unique ", asked.unique);
        text.word(" ");
        requests::about(text, &asked);
        if fields == InitFields::All || asked.opcode != opcodes::INIT {
            requests::further(text, &asked);
        }
        if is_never_answered(self.fate, &asked) {
            text.word(", never answered");
        }
    }

    /// Writes a message of the server.
    fn reply(&self, text: &mut Text, fields: InitFields) {
        text.word(" < ");
        let Some(told) = message_in(&self.packet) else {
            return bytes(text, self.packet.bytes);
        };
        text.field("unique ", told.unique);
        text.word(" ");
        let Some((number, packet)) = self.partner else {
            return replies::say(text, &self.packet, &told, None);
        };
        let request = request_in(&packet);
        match version_told(fields, request.as_ref(), &self.packet) {
            Some(init) => replies::version(text, &init),
            None => replies::say(text, &self.packet, &told, request.as_ref()),
        }
        text.field(", answers ", u64::from(number));
        if let Some(request) = &request {
            text.word(" (");
            requests::about(text, request);
            text.word(")");
        }
        duration(text, packet.time, self.packet.time);
    }
}

/// What a success of INIT says, where its version alone is to be written.
fn version_told(
    fields: InitFields,
    asked: Option<&Asked<'_>>,
    packet: &Packet<'_>,
) -> Option<Negotiated> {
    if fields == InitFields::All {
        return None;
    }
    let Ok(request) = &asked?.request else {
        return None;
    };
    match said(request, packet)? {
        Reply::Negotiated(init) => Some(init),
        _ => None,
    }
}

/// Whether a request that may be answered has no reply, not even one that was refused.
pub(crate) fn is_never_answered(fate: Fate, asked: &Asked<'_>) -> bool {
    match &asked.request {
        Ok(request) => {
            fate.partner.is_none() && fate.code.is_none() && request.body.may_be_answered()
        }
        Err(_) => false,
    }
}

/// Writes a message that is too short for its header.
fn bytes(text: &mut Text, bytes: &[u8]) {
    text.count(bytes.len(), " byte ", " bytes ");
    text.data(bytes);
}

/// Writes the code with which a message is refused.
fn refused(text: &mut Text, code: u16) {
    text.word(", ");
    coded(text, code);
}

/// Writes a code and its text.
pub(crate) fn coded(text: &mut Text, code: u16) {
    text.field("code ", u64::from(code));
    text.word(": ");
    text.word(codes::text(code).unwrap_or(""));
}

/// Writes how long an answer took, in thousandths of a millisecond, where both times are known.
fn duration(text: &mut Text, asked: u64, answered: u64) {
    if asked == 0 || answered == 0 {
        return;
    }
    text.word(if answered < asked { ", -" } else { ", " });
    milliseconds(text, asked.abs_diff(answered));
    text.word(" ms");
}

/// Nanoseconds as microseconds, rounded.
pub(crate) fn microseconds(nanoseconds: u64) -> u64 {
    nanoseconds / 1000 + (nanoseconds % 1000 + 500) / 1000
}

/// Writes nanoseconds as milliseconds, rounded to thousandths.
pub(crate) fn milliseconds(text: &mut Text, nanoseconds: u64) {
    let microseconds = microseconds(nanoseconds);
    text.number(microseconds / 1000);
    text.word(".");
    text.padded(microseconds % 1000, 3);
}
