//! Lines of order texts and tree texts that do not fit: codes 60 and 61.

use crate::advice::{Advice, look_at};
use crate::misfits::Misfit;
use crate::{order_lines, tree_lines};
use fa_capture::codes;
use fa_show::Text;
use std::alloc::{AllocError, Global};

/// How many bytes of text there is room for. The three lines are fewer.
const ROOM: usize = 4_096;

/// Why an order text is none: the lines behind the line of its verdict, which says the number of a line, counted from 1.
///
/// A line is a label, padded to eight characters, a blank and a text: `line` has the bytes of the line, `because` says why it does not
/// fit, where that can be told, and `look at` what is often wrong. They are printing ASCII and line feeds alone, whatever the text
/// holds. Where the text has no such line, it is told as one without bytes.
///
/// # Errors
///
/// [`AllocError`] where memory was refused.
///
/// # Cost
///
/// Linear time in the text up to the line: a few walks over it. Memory for what is written.
pub fn order_text_reasons(alloc: Global, bytes: &[u8], line: u32) -> Result<Text, AllocError> {
    reasons(alloc, bytes, line, codes::NOT_AN_ORDER_TEXT)
}

/// Why a tree text is none, as [`order_text_reasons`] says it of an order text.
///
/// # Errors
///
/// Those of [`order_text_reasons`].
///
/// # Cost
///
/// That of [`order_text_reasons`].
pub fn tree_text_reasons(alloc: Global, bytes: &[u8], line: u32) -> Result<Text, AllocError> {
    reasons(alloc, bytes, line, codes::NOT_A_TREE_TEXT)
}

/// The lines that say which line does not fit, why, and what to look at.
fn reasons(alloc: Global, bytes: &[u8], line: u32, code: u16) -> Result<Text, AllocError> {
    let mut text = Text::new(alloc, ROOM, false)?;
    let line = Misfit::of(bytes, line);
    text.word("line     ");
    line.write(&mut text);
    text.end_line();
    because(&mut text, &line, code);
    look_at(&mut text, code, Advice::First);
    Ok(text)
}

/// Writes why a line does not fit, where it can be told.
fn because(text: &mut Text, line: &Misfit<'_>, code: u16) {
    if code == codes::NOT_AN_ORDER_TEXT {
        if let Some(words) = order_lines::cause_of(line) {
            text.word("because  ");
            text.word(words);
            text.end_line();
        }
    } else if let Some(cause) = tree_lines::cause_of(line) {
        text.word("because  ");
        cause.write(text);
        text.end_line();
    }
}
