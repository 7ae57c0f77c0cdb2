//! The lines of the messages of a capture, or the table of its requests.

ghost use Rattle.std.specs.Prelude.{◌≡◌, ◌↔◌, ◌||◌, true, false, OnOk, IsErrOf, is_err};
ghost use Rattle.std.specs.Io.KnownBytes.{Keeps};
ghost use Rattle.fa_show.specs.Shown.{IsPrintingAdded};

use crate::choice::Choice;
use crate::counting::Counts;
use crate::error::ShowError;
use crate::following::pair;
use crate::line::{Line, coded};
use crate::pairing::Pairing;
use crate::summary::{Columns, totals};
use crate::text::Text;
use fa_capture::{Broken, Capture, CaptureFault, Output, Packet};
use std::alloc::{AllocError, Global};

/// How many bytes of text are kept at most until they are written, but for a longer line.
const BLOCK: usize = 65_536;

/// How many bytes of text there is room for. What is longer is written in parts, each made anew.
const ROOM: usize = 1_048_576;

/// How many such parts a line has at most.
const PARTS: usize = 64;

/// The line of a message.
fn line_of<'a>(pairing: &Pairing<'a>, number: u32, packet: Packet<'a>) -> Line<'a> {
    let fate = pairing.fate(number);
    Line {
        number,
        packet,
        fate,
        partner: pairing.partner(fate),
    }
}

/// Writes a line into the text, and the text where it has come to a block.
fn write_line<W: Output>(line: &Line<'_>, text: &mut Text, out: &mut W) -> Result<(), Broken>
    ensures added { OnOk result (IsPrintingAdded (W.written out.old) (W.written out.new)) }
    ensures broken { W.is_broken out.new ≡ W.is_broken out.old || is_err result }
{
    let before = text.len();
    line.write(text);
    if text.len() < BLOCK {
        return Ok(());
    }
    let written = text.len().saturating_sub(before);
    out.put(text.as_bytes())?;
    write_rest(line, written, text, out)?;
    text.begin(0);
    Ok(())
}

/// Writes what found no room of a line of which so many bytes were written.
fn write_rest<W: Output>(
    line: &Line<'_>,
    written: usize,
    text: &mut Text,
    out: &mut W,
) -> Result<(), Broken>
    ensures added { OnOk result (IsPrintingAdded (W.written out.old) (W.written out.new)) }
    ensures broken { W.is_broken out.new ≡ W.is_broken out.old || is_err result }
{
    let mut written = written;
    for _ in 0..PARTS {
        if text.lost() == 0 {
            break;
        }
        text.begin(written);
        line.write(text);
        written = written.saturating_add(text.len());
        out.put(text.as_bytes())?;
    }
    Ok(())
}

/// Writes the line of a framing fault.
fn fault_line(text: &mut Text, fault: &CaptureFault) {
    text.number(u64::from(fault.whole));
    text.word(" ! ");
    coded(text, fault.code);
    text.end_line();
}

/// Writes the lines of the messages that are chosen.
fn write_lines<'a, W: Output>(
    capture: &Capture<'a>,
    pairing: &Pairing<'a>,
    choice: &Choice<'_>,
    text: &mut Text,
    out: &mut W,
) -> Result<(), Broken>
    ensures added { OnOk result (IsPrintingAdded (W.written out.old) (W.written out.new)) }
    ensures broken { W.is_broken out.new ≡ W.is_broken out.old || is_err result }
{
    let mut number: u32 = 0;
    for packet in capture.packets() {
        let line = line_of(pairing, number, packet);
        if choice.takes(pairing, &line) {
            write_line(&line, text, out)?;
        }
        number = number.saturating_add(1);
    }
    if let Some(fault) = &capture.fault {
        fault_line(text, fault);
    }
    out.put(text.as_bytes())
}

/// Counts the messages that are chosen.
fn count<'a>(
    alloc: Global,
    capture: &Capture<'a>,
    pairing: &Pairing<'a>,
    choice: &Choice<'_>,
    counts: &mut Counts,
) -> Result<(), AllocError> {
    let mut number: u32 = 0;
    for packet in capture.packets() {
        let line = line_of(pairing, number, packet);
        counts.take(alloc, pairing, choice, &line)?;
        number = number.saturating_add(1);
    }
    counts.sort()
}

/// Writes the text where it has come to a block.
fn write_block<W: Output>(text: &mut Text, out: &mut W) -> Result<(), Broken>
    ensures added { OnOk result (IsPrintingAdded (W.written out.old) (W.written out.new)) }
    ensures broken { W.is_broken out.new ≡ W.is_broken out.old || is_err result }
{
    if text.len() < BLOCK {
        return Ok(());
    }
    out.put(text.as_bytes())?;
    text.begin(0);
    Ok(())
}

/// Writes the table of what was counted, and the lines behind it.
fn write_table<W: Output>(
    capture: &Capture<'_>,
    counts: &Counts,
    text: &mut Text,
    out: &mut W,
) -> Result<(), Broken>
    ensures added { OnOk result (IsPrintingAdded (W.written out.old) (W.written out.new)) }
    ensures broken { W.is_broken out.new ≡ W.is_broken out.old || is_err result }
{
    let columns = Columns::of(counts);
    columns.heads(text);
    for (opcode, operation) in counts.operations.iter() {
        columns.row(text, *opcode, operation);
        write_block(text, out)?;
    }
    totals(text, counts);
    if let Some(fault) = &capture.fault {
        fault_line(text, fault);
    }
    out.put(text.as_bytes())
}

/// Writes what the messages that are chosen come to.
fn summarize<'a, W: Output>(
    alloc: Global,
    capture: &Capture<'a>,
    pairing: &Pairing<'a>,
    choice: &Choice<'_>,
    text: &mut Text,
    out: &mut W,
) -> Result<(), ShowError>
    requires unbroken { W.is_broken out.old ≡ false }
    ensures printing { OnOk result (IsPrintingAdded (W.written out.old) (W.written out.new)) }
    ensures memory { IsErrOf result ShowError.Memory → Keeps (W.written out.old) (W.written out.new) }
    ensures write { IsErrOf result ShowError.Write ↔ (W.is_broken out.new ≡ true) }
{
    let mut counts = Counts::new(alloc);
    count(alloc, capture, pairing, choice, &mut counts)?;
    write_table(capture, &counts, text, out)?;
    Ok(())
}

/// Writes a line for each message of a capture that is chosen, by rising numbers, and one for its framing fault, if it has one. Where a
/// [`summary`](Choice::summary) is asked for, a table of the requests that are chosen stands in the place of the lines of messages.
///
/// A line tells what the message asks for or answers, what other messages say of it, and the code with which it is refused, one of
/// [`codes`](fa_capture::codes). The messages are judged as by [`Session::accept`](fa_session::Session::accept) and
/// [`Standing::accept`](fa_ledger::Standing::accept), and one that is refused is left out of what follows. A request that is refused
/// for its node or its file handle is left out too, so its reply finds no request.
///
/// The table has a row for each operation: how many requests of it there are, how many answers are successes, how many requests have no
/// answer, and how many answers have each error; where times are known, how many milliseconds an answer took, in the middle, in 99 of a
/// hundred, and at most. A difference of more than 292 years counts as one of so many. Lines behind it say how many messages and
/// notifications there are, how many requests waited for their answers at most, and at which one these were first as many; how many
/// requests act on the tree, and how many of them waited while another one did; and the first eight requests that were never answered.
/// A reply counts where its request does, whatever number it has itself. A message that is refused is left out of all of this: a line of
/// its own says how many these are. A request to which all replies are refused has no answer.
///
/// What is written is printing ASCII and line feeds alone, whatever the capture holds. The output is not broken at the call. What was
/// written is said where the output tells its bytes.
///
/// # Errors
///
/// - [`ShowError::Memory`] where memory was refused. Nothing was written then.
/// - [`ShowError::Write`] where the output did not take what was written. Nothing is said of what went out.
///
/// # Cost
///
/// Expected the time of these two calls for each message; the session takes each twice at most. Behind a megabyte of messages, or as
/// many bytes as the outstanding requests have, these are copied once, and once more for each message that is refused for its node or
/// its file handle: a capture of many such messages costs as many copies. Then for each line linear time in its message and in the one
/// that goes with it, which is found behind fifteen others at most; a line of several mebibytes is made as often as it has them. Where
/// more is chosen by than numbers, each message between these is read with the one that goes with it. A table takes expected linear time
/// in the messages, and that of sorting the durations of each operation.
///
/// Memory for what came of each message and for where each sixteenth lies, for the most outstanding requests, twice, and the most nodes,
/// keys and openings that were alive at once, for where the messages of that megabyte lie, and for a mebibyte of text. For a table also
/// an entry for each operation and for each error of it, and eight bytes for each answer whose duration is known.
pub fn show<W: Output>(
    alloc: Global,
    capture: &Capture<'_>,
    choice: &Choice<'_>,
    out: &mut W,
) -> Result<(), ShowError>
    requires unbroken { W.is_broken out.old ≡ false }
    ensures printing { OnOk result (IsPrintingAdded (W.written out.old) (W.written out.new)) }
    ensures memory { IsErrOf result ShowError.Memory → Keeps (W.written out.old) (W.written out.new) }
    ensures write { IsErrOf result ShowError.Write ↔ (W.is_broken out.new ≡ true) }
{
    let pairing = pair(alloc, capture)?;
    let mut text = Text::new(alloc, ROOM, choice.whole)?;
    if choice.summary {
        return summarize(alloc, capture, &pairing, choice, &mut text, out);
    }
    write_lines(capture, &pairing, choice, &mut text, out)?;
    Ok(())
}
