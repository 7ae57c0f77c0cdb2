//! From a capture to the capture of its first messages.

ghost use Rattle.std.specs.Prelude.{◌≡◌, ◌↔◌, ℕ, false, true, IfOk, OnOk, IsErrOf};
ghost use Rattle.std.specs.Io.KnownBytes.{IsAtEnd, Keeps};
ghost use Rattle.fa_audit.specs.Run.{IsUnread};
ghost use Rattle.fa_audit.specs.declared.running.TheConstants.{MAX_CAPTURE_INPUT_BYTES};
ghost use Rattle.fa_audit.specs.Fronts.{IsFrontTold, IsFrontFrom};

use crate::running::{MAX_CAPTURE_INPUT_BYTES, RunFault, input_bytes, tell};
use crate::status::Status;
use fa_capture::{Input, Output, codes, front};
use fa_check::Verdict;
use std::alloc::Global;

/// Writes the capture of the first messages, or the line of the fault and a line feed where the bytes don't begin as a capture: the
/// status of the answer.
fn tell_front<W: Output>(
    alloc: Global,
    bytes: &[u8],
    messages: u32,
    out: &mut W,
) -> Result<u8, RunFault>
    requires unbroken { W.is_broken out.old ≡ false }
    ensures told { IfOk result (IsFrontTold bytes.now messages (W.written out.old) (W.written out.new)) }
    ensures memory { IsErrOf result RunFault.Memory →
        Keeps (W.written out.old) (W.written out.new) }
    ensures read { IsErrOf result RunFault.Read → ⊥ }
    ensures write { IsErrOf result RunFault.Write ↔ (W.is_broken out.new ≡ true) }
{
    let Some(front) = front(bytes, messages as usize) else {
        let fault = Verdict::Fault {
            at: 0,
            code: codes::NO_MAGIC,
        };
        return tell(alloc, Ok(fault), out);
    };
    out.put(front)?;
    Ok(Status::Legal.number())
}

/// Cuts a capture: reads it, writes the capture of its first `messages` messages by one put, and answers the status.
///
/// That is the magic with the first whole records, or with all whole records where there are fewer. No message is judged, so that a
/// capture may be cut before one that is at fault. Where the bytes don't begin with the magic, the line of that fault and a line feed are
/// written, as [`run`](crate::run) writes them. The status is 0 with a capture and 1 with a fault. The input is read to its end before
/// anything is written. No mark of the input or of the output is set at the call.
///
/// Which bytes were read and written is said where the input and the output tell their bytes, as those over memory do. Files and
/// standard output do not: of a call on them it is said alone that the status is that of an answer on some bytes.
///
/// # Errors
///
/// - [`RunFault::Read`] where the input failed, did not come to its end, or has more than
///   [`MAX_CAPTURE_INPUT_BYTES`](crate::MAX_CAPTURE_INPUT_BYTES) bytes.
/// - [`RunFault::Write`] where the output did not take all bytes.
/// - [`RunFault::Memory`] where memory was refused.
///
/// Nothing was written at `Read` and `Memory`, where the output tells its bytes. At `Write` nothing is said of what went out.
///
/// # Cost
///
/// That of [`read_all`](fa_capture::read_all) and of [`front`](fa_capture::front). Message bytes are not copied.
pub fn run_front<R: Input, W: Output>(
    alloc: Global,
    capture: &mut R,
    messages: u32,
    out: &mut W,
) -> Result<u8, RunFault>
    requires capture_unfailed { R.has_failed capture.old ≡ false }
    requires capture_uninterrupted { R.was_interrupted capture.old ≡ false }
    requires unbroken { W.is_broken out.old ≡ false }

    // The capture of the first messages of the bytes that were read, or the line of their fault.
    ensures told { IfOk result (IsFrontFrom (R.remaining capture.old) messages (W.written out.old) (W.written out.new)) }

    ensures end { OnOk result (IsAtEnd (R.remaining capture.new)) }

    // When each fault comes.
    ensures read { IsErrOf result RunFault.Read →
        IsUnread MAX_CAPTURE_INPUT_BYTES (R.remaining capture.old) (R.has_failed capture.new) (R.was_interrupted capture.new) }
    ensures failed { R.has_failed capture.new ≡ true → IsErrOf result RunFault.Read }
    ensures write { IsErrOf result RunFault.Write ↔ (W.is_broken out.new ≡ true) }

    // Nothing was written.
    ensures unread { IsErrOf result RunFault.Read → Keeps (W.written out.old) (W.written out.new) }
    ensures refused { IsErrOf result RunFault.Memory → Keeps (W.written out.old) (W.written out.new) }
{
    let bytes = input_bytes(alloc, capture, MAX_CAPTURE_INPUT_BYTES)?;
    tell_front(alloc, &bytes, messages, out)
}
