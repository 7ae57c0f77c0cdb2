//! The lines that say why a capture has a fault.

use crate::advice::Advice;
use crate::citing::message_line;
use crate::exchange::{Exchange, last_asked};
use crate::fault::Fault;
use crate::past::Past;
use crate::{advice, framing, handles, headers, nodes, sessions};
use fa_capture::{Capture, codes};
use fa_show::Text;
use std::alloc::{AllocError, Global};

/// How many bytes of text there is room for. A dozen lines of which names and data are shortened are fewer.
const ROOM: usize = 65_536;

/// Why a capture has a fault: the lines behind the line of its verdict, which says the number of the message, or of the record
/// that is none, and one of the codes 1 to 50 of [`fa_capture::codes`].
///
/// `bytes` are all bytes of the capture. A line is a label, padded to eight characters, a blank and a text; twelve come at most. The
/// first line of a message says what it asks for or answers, as [`show`](fa_show::show) does; `because` says which check fails,
/// `bytes` how the message begins, `earlier` what it conflicts with, `request` what it answers, and `look at` where a server or a
/// recorder goes wrong so. Where the number and the code are not those of the capture's first fault, nothing is said of the
/// lines. They are printing ASCII and line feeds alone, whatever the capture holds.
///
/// # Errors
///
/// [`AllocError`] where memory was refused.
///
/// # Cost
///
/// Linear time in the capture: a few walks over where the records lie, and for a node or a file handle that is not known twice the time
/// of [`Session::accept`](fa_session::Session::accept) for each message. Memory for the outstanding requests, for the nodes that the
/// message names, and for the text.
pub fn fault_reasons(
    alloc: Global,
    bytes: &[u8],
    capture: &Capture<'_>,
    number: u32,
    code: u16,
) -> Result<Text, AllocError> {
    let mut text = Text::new(alloc, ROOM, false)?;
    if code <= codes::CAPTURE_TOO_LARGE {
        framing::explain(&mut text, bytes, capture, number, code);
        return Ok(text);
    }
    if let Some(packet) = capture.packets().nth(number as usize) {
        let fault = Fault {
            number,
            packet,
            code,
        };
        explain_message(alloc, &mut text, capture, &fault)?;
    }
    Ok(text)
}

/// Writes why a message is refused.
fn explain_message(
    alloc: Global,
    text: &mut Text,
    capture: &Capture<'_>,
    fault: &Fault<'_>,
) -> Result<(), AllocError> {
    let exchange = last_asked(capture, fault.number, fault.unique());
    message_line(text, fault, exchange);
    text.word("because  ");
    let advice = match fault.code {
        codes::HEADER_TOO_SHORT..=codes::NOTIFICATION => { headers::explain(text, fault, exchange) }
        codes::FIRST_NOT_INIT..=codes::UNIQUE_ZERO => {
            sessions::explain(text, capture, fault, exchange)
        }
        _ => explain_by_past(alloc, text, capture, fault, exchange)?,
    };
    advice::look_at(text, fault.code, advice);
    Ok(())
}

/// Writes why a message is refused by what those before it say of its nodes, or of its file handle: what to look at.
fn explain_by_past(
    alloc: Global,
    text: &mut Text,
    capture: &Capture<'_>,
    fault: &Fault<'_>,
    exchange: Option<Exchange<'_>>,
) -> Result<Advice, AllocError> {
    let mut past = Past::new(alloc, capture.seed);
    match fault.code {
        codes::CLOSED_HANDLE => handles::explain(alloc, text, capture, fault, &mut past),
        _ => nodes::explain(alloc, text, capture, fault, exchange, &mut past),
    }
}
