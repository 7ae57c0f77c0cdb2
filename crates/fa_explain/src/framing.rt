//! Why bytes are no capture, or only in front.

use crate::advice::{Advice, look_at};
use crate::citing::{asked_before, earlier};
use fa_capture::limits::{MAX_CAPTURE_BYTES, MAX_MESSAGE_BYTES, MAX_MESSAGES};
use fa_capture::{Capture, Format, codes};
use fa_show::{Text, u32_at};

/// The bytes that a capture begins with.
const MAGIC: usize = 8;

/// The bytes of a record before its time and its length: its direction.
const DIRECTION_SIZE: usize = 1;

/// The bytes of the length of a message in its record.
const LENGTH: usize = 4;

/// The bytes of the time of a record.
const TIME: usize = 8;

/// The record that is none: its number, where it begins, and the bytes from there on.
#[derive(Clone, Copy)]
struct Record<'a> {
    number: u32,
    begins: usize,
    bytes: &'a [u8],
    /// The bytes of its time, if the records of the capture have one.
    time: usize,
}

impl<'a> Record<'a> {
    /// The record behind those that are whole.
    fn behind(bytes: &'a [u8], capture: &Capture<'_>, number: u32) -> Self {
        let time = if bytes.starts_with(Format::Timed.magic()) {
            TIME
        } else {
            0
        };
        let mut begins = MAGIC;
        for packet in capture.packets() {
            begins = begins
                .saturating_add(DIRECTION_SIZE + LENGTH)
                .saturating_add(time)
                .saturating_add(packet.bytes.len());
        }
        let (_, bytes) = bytes.split_at(begins.min(bytes.len()));
        Record {
            number,
            begins,
            bytes,
            time,
        }
    }

    /// How many bytes of it stand before its message.
    fn header(&self) -> usize {
        self.time.saturating_add(DIRECTION_SIZE + LENGTH)
    }

    /// The length that it states for its message, if that is there.
    fn length(&self) -> Option<u32> {
        u32_at(self.bytes, self.time.saturating_add(DIRECTION_SIZE))
    }

    /// Writes its number and where it begins.
    fn place(&self, text: &mut Text) {
        text.field("record ", u64::from(self.number));
        text.field(", at byte ", self.begins as u64);
    }
}

/// Writes why the bytes of a capture end with no record.
pub(crate) fn explain(
    text: &mut Text,
    bytes: &[u8],
    capture: &Capture<'_>,
    number: u32,
    code: u16,
) {
    let record = Record::behind(bytes, capture, number);
    text.word("because  ");
    match code {
        codes::CUT_OFF => cut_off(text, &record),
        codes::DIRECTION => direction(text, &record),
        codes::MESSAGE_TOO_LONG => too_long(text, &record),
        codes::CAPTURE_TOO_LARGE => too_large(text, &record),
        _ => no_magic(text, bytes),
    }
    text.end_line();
    if code == codes::DIRECTION && number > 0 {
        let before = number - 1;
        earlier(text, capture, before, asked_before(capture, before));
    }
    look_at(text, code, Advice::All);
}

/// Writes what stands where the magic is to stand.
fn no_magic(text: &mut Text, bytes: &[u8]) {
    if bytes.is_empty() {
        return text.word("the file is empty");
    }
    text.word("the file has ");
    text.count(bytes.len(), " byte", " bytes");
    text.word(" and begins with ");
    let (front, _) = bytes.split_at(bytes.len().min(MAGIC));
    text.quoted(front);
}

/// Writes which part of a record is there.
fn cut_off(text: &mut Text, record: &Record<'_>) {
    let header = record.header();
    record.place(text);
    match record.length() {
        None => {
            text.field(", has ", record.bytes.len() as u64);
            text.field(" of its first ", header as u64);
            text.word(" bytes");
        }
        Some(length) => {
            text.word(", states a message of ");
            text.count(length as usize, " byte", " bytes");
            text.field(", and ", record.bytes.len().saturating_sub(header) as u64);
            text.word(" are left");
        }
    }
}

/// Writes what stands where the direction is to stand.
fn direction(text: &mut Text, record: &Record<'_>) {
    text.field("record ", u64::from(record.number));
    text.field(" begins at byte ", record.begins as u64);
    let found = record.bytes.first().unwrap_or(&0);
    text.field(", with ", u64::from(*found));
    text.word(" where the direction stands: 0 or 1");
}

/// Writes how long a message would be.
fn too_long(text: &mut Text, record: &Record<'_>) {
    let length = record.length().unwrap_or(0);
    record.place(text);
    text.field(", states a message of ", u64::from(length));
    text.field(" bytes: at most ", MAX_MESSAGE_BYTES as u64);
    let big_endian = length.swap_bytes();
    if big_endian as usize <= MAX_MESSAGE_BYTES {
        text.field("; read big-endian it is ", u64::from(big_endian));
    }
}

/// Writes which limit on a capture is passed.
fn too_large(text: &mut Text, record: &Record<'_>) {
    if record.number as usize >= MAX_MESSAGES {
        text.number(u64::from(record.number));
        text.field(" messages stand before byte ", record.begins as u64);
        return text.word(", which are the most");
    }
    let ends = (record.begins as u64)
        .saturating_add(record.header() as u64)
        .saturating_add(u64::from(record.length().unwrap_or(0)));
    let times = (u64::from(record.number) + 1).saturating_mul(record.time as u64);
    record.place(text);
    text.field(", ends at byte ", ends.saturating_sub(times));
    if record.time > 0 {
        text.word(", where no time is counted");
    }
    text.field(": at most ", MAX_CAPTURE_BYTES as u64);
}
