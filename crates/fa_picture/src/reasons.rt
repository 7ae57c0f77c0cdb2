//! Why a verdict is as it is, line by line.

use crate::escape::{write_content, write_markup};
use crate::pieces::{Piece, Pieces};
use crate::table::Table;
use fa_show::Text;
use std::alloc::AllocError;

/// The label of the line that says what to look at: a sentence, where others are of data.
const LOOK_AT: &[u8] = b"look at";

/// Notes the messages that the reasons name.
pub(crate) fn mention(reasons: &[u8], numbers: &mut Vec<u32>) -> Result<(), AllocError> {
    let mut pieces = Pieces::of(reasons);
    for _ in 0..reasons.len().saturating_mul(2) {
        match pieces.next() {
            Some(Piece::Message(number)) => numbers.push(number)?,
            Some(_) => {}
            None => break,
        }
    }
    Ok(())
}

/// Writes the reasons as a list, with links to the messages that the table has.
pub(crate) fn write_reasons(text: &mut Text, reasons: &[u8], table: &Table<'_>) {
    text.word("<dl>");
    let mut pieces = Pieces::of(reasons);
    for _ in 0..reasons.len().saturating_mul(2) {
        match pieces.next() {
            Some(piece) => write_piece(text, piece, table),
            None => break,
        }
    }
    write_markup(text, "</dl>\n");
}

/// Writes a piece of the reasons.
fn write_piece(text: &mut Text, piece: Piece<'_>, table: &Table<'_>) {
    match piece {
        Piece::Label(label) => write_label(text, label),
        Piece::Words(words) => write_content(text, words),
        Piece::Code(code) => {
            text.word("<code>");
            write_content(text, code);
            text.word("</code>");
        }
        Piece::Message(number) if table.row(number).is_some() => write_link(text, number),
        Piece::Message(number) => text.number(u64::from(number)),
        Piece::End => text.word("</dd>"),
    }
}

/// Writes the label of a line, and the beginning of its text.
fn write_label(text: &mut Text, label: &[u8]) {
    text.word("<dt>");
    write_content(text, label);
    text.word(if label == LOOK_AT {
        "</dt><dd class=\"look\">"
    } else {
        "</dt><dd>"
    });
}

/// Writes the number of a message as a link to it.
pub(crate) fn write_link(text: &mut Text, number: u32) {
    text.field("<a href=\"#m", u64::from(number));
    text.field("\">", u64::from(number));
    text.word("</a>");
}
