//! The table of messages.

use crate::escape::{write_content, write_markup};
use crate::exchanges::Exchanges;
use crate::fault::Fault;
use crate::pieces::{behind, number_in_front};
use crate::reasons::write_link;
use crate::table::{Row, Table};
use fa_bodies::split_at_byte;
use fa_capture::{Direction, Packet};
use fa_show::{Text, message_in};

/// What stands in a line before the number of the request that a message answers.
const ANSWERS: &[u8] = b", answers ";

/// Writes the rows of the messages, and between them how many are left out of so many. `line` has room for a line.
pub(crate) fn write_rows(
    text: &mut Text,
    line: &mut Text,
    table: &Table<'_>,
    exchanges: &Exchanges,
    messages: u32,
) {
    let mut next: u32 = 0;
    for row in table.rows.iter() {
        write_gap(text, next, row.number);
        write_row(text, line, table, exchanges, row);
        next = row.number.saturating_add(1);
    }
    write_gap(text, next, messages);
}

/// Writes how many messages are left out from one to before another, if any are.
fn write_gap(text: &mut Text, from: u32, to: u32) {
    let count = to.saturating_sub(from);
    if count == 0 {
        return;
    }
    write_markup(text, "<tr class=\"gap\"><td colspan=\"4\">");
    text.count(count as usize, " message", " messages");
    write_markup(text, " not in this page</td></tr>\n");
}

/// Writes the row of a message.
fn write_row(
    text: &mut Text,
    line: &mut Text,
    table: &Table<'_>,
    exchanges: &Exchanges,
    row: &Row<'_>,
) {
    let partner = exchanges.partner(row.number);
    let answered = answered_by(table, row, partner);
    line.begin(0);
    exchanges.line(row.number, row.packet, answered).write(line);
    open_row(text, exchanges.fault, row, partner);
    let words = Words::of(line.as_bytes());
    write_content(text, words.way);
    text.word("</td><td class=\"n\">");
    write_content(text, words.unique);
    text.word("</td><td class=\"t\">");
    write_words(text, words.behind, row, answered);
    text.word("</td><td class=\"n\">");
    if let Some(entry) = row.entry {
        text.number(u64::from(entry));
    }
    write_markup(text, "</td></tr>\n");
}

/// The request that a message answers, behind its number, where this one goes with it.
fn answered_by<'a>(
    table: &Table<'a>,
    row: &Row<'_>,
    partner: Option<u32>,
) -> Option<(u32, Packet<'a>)> {
    match (row.packet.direction, partner) {
        (Direction::FromServer, Some(asked)) => match table.row(asked) {
            Some(request) => Some((asked, request.packet)),
            None => None,
        },
        _ => None,
    }
}

/// Writes the beginning of a row, up to which way the message went.
fn open_row(text: &mut Text, fault: Fault, row: &Row<'_>, partner: Option<u32>) {
    let number = u64::from(row.number);
    text.field("<tr id=\"m", number);
    text.field("\" data-n=\"", number);
    text.word("\" data-pair=\"");
    if let Some(partner) = partner {
        text.number(u64::from(partner));
    }
    text.word(
        match (is_at_fault(fault, row, partner), row.packet.direction) {
            (false, Direction::ToServer) => "\"",
            (false, Direction::FromServer) => "\" class=\"answer\"",
            (true, Direction::ToServer) => "\" class=\"bad\"",
            (true, Direction::FromServer) => "\" class=\"bad answer\"",
        },
    );
    text.field("><td class=\"n\">", number);
    text.word(" ");
}

/// Whether a message is at fault, or answers what is.
fn is_at_fault(fault: Fault, row: &Row<'_>, partner: Option<u32>) -> bool {
    match (row.packet.direction, partner) {
        (Direction::FromServer, Some(asked)) if fault.is_at(asked) => true,
        _ => fault.is_at(row.number),
    }
}

/// The words of a line.
#[derive(Clone, Copy)]
struct Words<'t> {
    /// Which way the message went: `>` or `<`.
    way: &'t [u8],
    /// The unique of its header; nothing, where it is too short for one.
    unique: &'t [u8],
    /// What it says.
    behind: &'t [u8],
}

impl<'t> Words<'t> {
    /// The words of a line: a number, which way the message went, the word `unique` and the unique, and what it says.
    fn of(line: &'t [u8]) -> Self {
        let (line, _) = parted_at(line, b'\n');
        let (_, behind) = parted_at(line, b' ');
        let (way, behind) = parted_at(behind, b' ');
        let (word, rest) = parted_at(behind, b' ');
        if word != b"unique".as_slice() {
            return Words {
                way,
                unique: &[],
                behind,
            };
        }
        let (unique, behind) = parted_at(rest, b' ');
        Words {
            way,
            unique,
            behind,
        }
    }
}

/// What stands before the first byte of this value, and behind it: all and nothing, if there is none.
fn parted_at(bytes: &[u8], byte: u8) -> (&[u8], &[u8]) {
    match split_at_byte(bytes, byte) {
        Some((front, behind)) => (front, behind),
        None => (bytes, &[]),
    }
}

/// Writes what a message says: an error so that it is seen, and the number of the request that it answers as a link.
fn write_words(text: &mut Text, words: &[u8], row: &Row<'_>, answered: Option<(u32, Packet<'_>)>) {
    let mut left = words;
    if is_error(&row.packet) {
        let (error, _) = parted_at(words, b',');
        write_markup(text, "<span class=\"err\">");
        write_content(text, error);
        write_markup(text, "</span>");
        left = behind(words, error.len());
    }
    let Some((asked, _)) = answered else {
        return write_content(text, left);
    };
    let Some((said, rest)) = split_behind_answers(left) else {
        return write_content(text, left);
    };
    write_content(text, said);
    write_link(text, asked);
    let (digits, _) = number_in_front(rest);
    write_content(text, behind(rest, digits));
}

/// Whether a message is a reply that tells an error.
fn is_error(packet: &Packet<'_>) -> bool {
    match (packet.direction, message_in(packet)) {
        (Direction::FromServer, Some(told)) => told.unique != 0 && told.error != 0,
        _ => false,
    }
}

/// What stands in a line before the number of the request that a message answers, and what stands from there on: not between quotes, where
/// the capture's own bytes stand.
fn split_behind_answers(words: &[u8]) -> Option<(&[u8], &[u8])> {
    let mut is_quoted = false;
    let mut left = words;
    for place in 0..words.len() {
        if !is_quoted && left.starts_with(ANSWERS) {
            return words.split_at_checked(place.saturating_add(ANSWERS.len()));
        }
        let Some((first, rest)) = left.split_first() else {
            break;
        };
        is_quoted = is_quoted != (*first == b'"');
        left = rest;
    }
    None
}
