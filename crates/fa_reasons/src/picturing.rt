//! From a capture to its picture.

ghost use Rattle.std.specs.Prelude.{◌≡◌, ◌↔◌, false, true, IfOk, OnOk, IsErrOf};
ghost use Rattle.std.specs.Io.KnownBytes.{IsAtEnd, Keeps};
ghost use Rattle.fa_audit.specs.Run.{IsUnread};
ghost use Rattle.fa_audit.specs.declared.running.TheConstants.{MAX_CAPTURE_INPUT_BYTES};
ghost use Rattle.fa_audit.specs.Showing.{IsShown};

use crate::pages::{fault_of, tell_text};
use fa_audit::{
    MAX_CAPTURE_INPUT_BYTES, RunFault, StartError, Status, input_bytes, start, verdict_text,
};
use fa_capture::{Capture, Input, Output, Seed, read_capture};
use fa_check::Verdict;
use fa_picture::{Fault, Subject, View, picture};
use fa_show::Text;
use std::alloc::{AllocError, Global};

/// Draws a capture: reads it, and writes a picture of its requests: its status, which is 0 whenever it was written, since a picture is no
/// verdict.
///
/// The picture is that of [`picture`], without an order. Where the capture has a fault, its line stands above, and a message at fault is red.
/// What is written is printing ASCII and line feeds alone, whatever the capture holds; what is drawn, and that there is anything, no clause
/// says. The input is read to its end before anything is written. Tables are hashed with the seed. No mark of the input or of the output is
/// set at the call.
///
/// Which bytes were read and written is said where the input and the output tell their bytes, as those over memory do. Files and
/// standard output do not: of a call on them it is said alone how it ends.
///
/// # Errors
///
/// - [`RunFault::Read`] where the input failed, did not come to its end, or has more than [`MAX_CAPTURE_INPUT_BYTES`] bytes.
/// - [`RunFault::Write`] where the output did not take all bytes.
/// - [`RunFault::Memory`] where memory was refused.
///
/// Nothing was written at `Read` and `Memory`, where the output tells its bytes. At `Write` nothing is said of what went out.
///
/// # Cost
///
/// That of [`read_all`](fa_capture::read_all), of judging the messages and of [`picture`].
pub fn run_picture<R: Input, W: Output>(
    alloc: Global,
    seed: Seed,
    capture: &mut R,
    view: View,
    out: &mut W,
) -> Result<u8, RunFault>
    requires capture_unfailed { R.has_failed capture.old ≡ false }
    requires capture_uninterrupted { R.was_interrupted capture.old ≡ false }
    requires unbroken { W.is_broken out.old ≡ false }

    // Printing ASCII and line feeds alone were written, and the status is 0.
    ensures told { IfOk result (IsShown (W.written out.old) (W.written out.new)) }

    ensures end { OnOk result (IsAtEnd (R.remaining capture.new)) }

    // When each fault comes.
    ensures read { IsErrOf result RunFault.Read →
        IsUnread MAX_CAPTURE_INPUT_BYTES (R.remaining capture.old) (R.has_failed capture.new) (R.was_interrupted capture.new) }
    ensures failed { R.has_failed capture.new ≡ true → IsErrOf result RunFault.Read }
    ensures write { IsErrOf result RunFault.Write ↔ (W.is_broken out.new ≡ true) }

    // Nothing was written.
    ensures unread { IsErrOf result RunFault.Read → Keeps (W.written out.old) (W.written out.new) }
    ensures refused { IsErrOf result RunFault.Memory → Keeps (W.written out.old) (W.written out.new) }
{
    let bytes = input_bytes(alloc, capture, MAX_CAPTURE_INPUT_BYTES)?;
    let text = drawn(alloc, seed, &bytes, view)?;
    tell_text(&text, Status::Legal, out)
}

/// The picture of the capture that these bytes are.
fn drawn(alloc: Global, seed: Seed, bytes: &[u8], view: View) -> Result<Text, AllocError> {
    let capture = read_capture(bytes).with_seed(seed);
    match start(alloc, &capture, None) {
        Ok(_) => picture(alloc, &without_order(capture, Fault::Nothing), None, view),
        Err(StartError::Fault { at, code }) => {
            let verdict = Verdict::Fault { at, code };
            let line = verdict_text(alloc, &verdict)?;
            let subject = without_order(capture, fault_of(verdict));
            picture(alloc, &subject, Some(&line), view)
        }
        // No tree text is handed in.
        Err(StartError::TreeText { .. } | StartError::Memory) => Err(AllocError),
    }
}

/// A capture in which this is at fault, as what a picture is of, without an order.
fn without_order(capture: Capture<'_>, fault: Fault) -> Subject<'_, 'static> {
    Subject {
        capture,
        order: &[],
        fault,
    }
}
