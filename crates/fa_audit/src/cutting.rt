//! From the inputs of a cut to the order text that is left.

ghost use Rattle.std.specs.Prelude.{◌≡◌, ◌≢◌, ◌≤◌, ◌↔◌, ◌⊎◌, ℕ, false, true, List, Err, length, IfOk, IfErr, IsOk, OnOk, IsErrOf};
ghost use Rattle.std.specs.Io.KnownBytes.{IsAtEnd, Keeps};
ghost use Rattle.fa_capture.specs.Captures.{IsCaptureOf};
ghost use Rattle.fa_ledger.specs.Passing.{IsFirstFault};
ghost use Rattle.fa_order.specs.declared.lines.TheConstants.{MAX_TEXT_BYTES};
ghost use Rattle.fa_audit.specs.Verdict.{ExactlyRefused};
ghost use Rattle.fa_audit.specs.Line.{IsCoded};
ghost use Rattle.fa_audit.specs.Run.{IsUnread, FailedOrInterrupted, IsAtEndOrFault};
ghost use Rattle.fa_audit.specs.declared.running.TheConstants.{MAX_TEXT_INPUT_BYTES};
ghost use Rattle.fa_audit.specs.CutOrders.{IsCuttable, IsCutText, IsUncutAtLine, IsCutTold, IsCutFrom, answer_of_uncut};
ghost use Rattle.fa_audit.specs.parts.Answers.{IsNoCut, text_answered};

use crate::protocol::good_calls;
use crate::running::{MAX_TEXT_INPUT_BYTES, RunFault, input_bytes, stored_capture, tell};
use crate::status::Status;
use crate::verdict::CutError;
use fa_capture::{Capture, Input, Output, Seed, read_capture};
use fa_check::cut;
use fa_order::{read_order, write_order};
use std::alloc::Global;

/// The text of what is left of an order for the first `messages` messages of a capture.
///
/// The whole capture is judged and the order text is read as [`audit`](crate::audit) does it, without a tree. What is left is that
/// of [`cut`](fa_check::cut): where the order is legal for the capture, it is legal for these messages. The order text has at most
/// 268,435,456 bytes.
///
/// # Errors
///
/// - [`CutError::Fault`] exactly where the capture is not good: at the least number of a message that does not pass or of the
///   framing fault, with the first check that it fails, as one of [`codes`](fa_capture::codes).
/// - [`CutError::OrderText`] exactly where the capture is good and the order text is not in its grammar.
/// - [`CutError::Memory`] where memory was refused.
///
/// # Cost
///
/// That of [`audit`](crate::audit) up to the tree text, of [`read_order`], of [`cut`](fa_check::cut) and of [`write_order`].
pub fn cut_order(
    alloc: Global,
    capture: &[u8],
    order: &[u8],
    messages: u32,
) -> Result<Vec<u8>, CutError>
    requires { length order.now ≤ MAX_TEXT_BYTES }

    // An order is cut exactly where the capture is good and the order text is in its grammar.
    ensures left { IfOk result (λ text. IsCutText capture.now order.now messages text.items) }
    ensures cuttable { IsCuttable capture.now order.now → IsOk result ⊎ IsErrOf result CutError.Memory }

    ensures fault { (at code : ℕ) → ExactlyRefused result CutError.Memory
        (CutError.Fault at code) (IsFirstFault capture.now at code) }
    ensures order_text { (line : ℕ) → ExactlyRefused result CutError.Memory
        (CutError.OrderText line) (IsUncutAtLine capture.now order.now line) }

    // A code that is told has a text.
    ensures codes { IfErr result (λ error. IfOk (answer_of_uncut error) IsCoded) }
{
    left_of(alloc, &read_capture(capture), order, messages)
}

/// The text of what is left, for a capture that was read.
fn left_of(
    alloc: Global,
    capture: &Capture<'_>,
    order: &[u8],
    messages: u32,
) -> Result<Vec<u8>, CutError>
    requires { length order.now ≤ MAX_TEXT_BYTES }
    ensures text { IfOk result (λ text. (bytes : List ℕ) → IsCaptureOf bytes capture.now → IsCutText bytes order.now messages text.items) }
    ensures none { IfErr result (λ error. (bytes : List ℕ) → IsCaptureOf bytes capture.now → IsNoCut bytes order.now error) }
{
    let calls = good_calls(alloc, capture)?;
    let entries = read_order(alloc, order)?;
    let left = cut(alloc, &calls, &entries, messages)?;
    Ok(write_order(alloc, &left)?)
}

/// Writes the text of what is left, or the line of the fault and a line feed: the status of the answer.
fn tell_cut<W: Output>(
    alloc: Global,
    left: Result<Vec<u8>, CutError>,
    out: &mut W,
) -> Result<u8, RunFault>
    requires coded { IfErr left (λ error. IfOk (answer_of_uncut error) IsCoded) }
    requires unbroken { W.is_broken out.old ≡ false }
    ensures told { IfOk result (IsCutTold (text_answered left) (W.written out.old) (W.written out.new)) }
    ensures answered { OnOk result (left ≢ Err CutError.Memory) }
    ensures memory { IsErrOf result RunFault.Memory →
        Keeps (W.written out.old) (W.written out.new) }
    ensures read { IsErrOf result RunFault.Read → ⊥ }
    ensures write { IsErrOf result RunFault.Write ↔ (W.is_broken out.new ≡ true) }
{
    match left {
        Ok(text) => {
            out.put(&text)?;
            Ok(Status::Legal.number())
        }
        Err(error) => tell(alloc, error.answer(), out),
    }
}

/// Cuts an order: reads the capture and then the order, writes the text of what is left for the first `messages` messages by one put,
/// and answers the status.
///
/// Where the capture has a fault or the order text is not in its grammar, the line of the fault and a line feed are written, as
/// [`run`](crate::run) writes them. The status is 0 with an order text, 1 at a fault of the capture, and 3 where the order text is not in its
/// grammar. The inputs are read before anything is judged, as [`run`](crate::run) reads them, and no tree is read. Tables are hashed with the
/// seed. No mark of an input or of the output is set at the call.
///
/// Which bytes were read and written is said where the inputs and the output tell their bytes, as those over memory do. Files and
/// standard output do not: of a call on them it is said alone that the status is that of an answer on some bytes.
///
/// # Errors
///
/// - [`RunFault::Read`] where an input failed or did not come to its end, or where a text has more than [`MAX_TEXT_INPUT_BYTES`]
///   bytes.
/// - [`RunFault::Write`] where the output did not take the whole text.
/// - [`RunFault::Memory`] where memory was refused.
///
/// Nothing was written at `Read` and `Memory`, where the output tells its bytes. At `Write` nothing is said of what went out.
///
/// # Cost
///
/// That of [`run`](crate::run) for the inputs, and of [`cut_order`].
pub fn run_cut<R: Input, W: Output>(
    alloc: Global,
    seed: Seed,
    capture: &mut R,
    order: &mut R,
    messages: u32,
    out: &mut W,
) -> Result<u8, RunFault>
    requires capture_unfailed { R.has_failed capture.old ≡ false }
    requires capture_uninterrupted { R.was_interrupted capture.old ≡ false }
    requires order_unfailed { R.has_failed order.old ≡ false }
    requires order_uninterrupted { R.was_interrupted order.old ≡ false }
    requires unbroken { W.is_broken out.old ≡ false }

    // What is left of the order that was read, or the line of the fault of the bytes that were read.
    ensures told { IfOk result (IsCutFrom (R.remaining capture.old) (R.remaining order.old) messages
        (W.written out.old) (W.written out.new)) }

    // The capture is read to its end, or as far as it has a framing fault whatever follows; the order to its end.
    ensures end { OnOk result (IsAtEndOrFault (R.remaining capture.old) (R.remaining capture.new) × IsAtEnd (R.remaining order.new)) }

    // The order is read after the capture.
    ensures capture_first { R.has_failed capture.new ≡ true → order.new ≡ order.old }

    // When each fault comes.
    ensures read { IsErrOf result RunFault.Read →
        FailedOrInterrupted (R.has_failed capture.new) (R.was_interrupted capture.new)
        ⊎ IsUnread MAX_TEXT_INPUT_BYTES (R.remaining order.old) (R.has_failed order.new) (R.was_interrupted order.new) }
    ensures failed { (R.has_failed capture.new ≡ true) ⊎ (R.has_failed order.new ≡ true) →
        IsErrOf result RunFault.Read }
    ensures write { IsErrOf result RunFault.Write ↔ (W.is_broken out.new ≡ true) }

    // Nothing was written.
    ensures unread { IsErrOf result RunFault.Read → Keeps (W.written out.old) (W.written out.new) }
    ensures refused { IsErrOf result RunFault.Memory → Keeps (W.written out.old) (W.written out.new) }
{
    let stored = stored_capture(alloc, capture)?;
    let order = input_bytes(alloc, order, MAX_TEXT_INPUT_BYTES)?;
    tell_cut(
        alloc,
        left_of(alloc, &stored.capture().with_seed(seed), &order, messages),
        out,
    )
}
