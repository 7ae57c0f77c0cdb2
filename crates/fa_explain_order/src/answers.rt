//! The lines of a request and of its answer.

use fa_capture::Capture;
use fa_explain::cite;
use fa_refusal::Case;
use fa_show::Text;
use std::alloc::{AllocError, Global};

/// Room for the line of an answer with its request.
const ROOM: usize = 16_384;

/// What stands between an answer and the request that it answers.
const ANSWERS: &[u8; 10] = b", answers ";

/// Writes the lines of a request and of its answer.
pub(crate) fn exchange(
    alloc: Global,
    text: &mut Text,
    capture: &Capture<'_>,
    case: &Case<'_>,
) -> Result<(), AllocError> {
    request_line(text, capture, case.call.asked);
    text.word("answer   ");
    match &case.call.answer {
        Some(answer) => answer_alone(alloc, text, capture, case.call.asked, answer.at)?,
        None => text.word("never answered: the order takes it as done"),
    }
    text.end_line();
    Ok(())
}

/// Writes the line of a request.
pub(crate) fn request_line(text: &mut Text, capture: &Capture<'_>, asked: u32) {
    text.word("request  ");
    cite(text, capture, asked, None);
}

/// Writes an answer without the request that it answers, which stands before it.
fn answer_alone(
    alloc: Global,
    text: &mut Text,
    capture: &Capture<'_>,
    asked: u32,
    at: u32,
) -> Result<(), AllocError> {
    let mut line = Text::new(alloc, ROOM, false)?;
    cite(&mut line, capture, at, Some(asked));
    let (front, behind) = split_at_answers(line.as_bytes());
    printed(text, front);
    printed(text, behind_request(behind));
    Ok(())
}

/// Writes bytes that print, up to the end of the line.
pub(crate) fn printed(text: &mut Text, bytes: &[u8]) {
    for byte in bytes {
        if *byte != b'\n' {
            text.character(*byte);
        }
    }
}

/// The line of an answer, parted where it comes to the request. No quotes stand between quotes.
fn split_at_answers(line: &[u8]) -> (&[u8], &[u8]) {
    let mut is_quoted = false;
    let mut place: usize = 0;
    for byte in line {
        let (front, behind) = line.split_at(place.min(line.len()));
        if !is_quoted && behind.starts_with(ANSWERS.as_slice()) {
            return (front, behind);
        }
        if *byte == b'"' {
            is_quoted = !is_quoted;
        }
        place = place.saturating_add(1);
    }
    (line, &[])
}

/// What stands behind the request: how long the answer took, where it is told.
fn behind_request(line: &[u8]) -> &[u8] {
    let mut end = line.len();
    for (place, byte) in line.iter().enumerate() {
        if *byte == b')' {
            end = place.saturating_add(1);
        }
    }
    let (_, behind) = line.split_at(end.min(line.len()));
    behind
}
