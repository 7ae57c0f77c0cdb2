//! From a capture in either format to one with times.

ghost use Rattle.std.specs.Prelude.{◌≡◌, ◌↔◌, ℕ, false, true, IfOk, OnOk, IsErrOf};
ghost use Rattle.std.specs.Io.KnownBytes.{IsAtEnd, Keeps};
ghost use Rattle.fa_audit.specs.Run.{IsUnread};
ghost use Rattle.fa_audit.specs.declared.running.TheConstants.{MAX_CAPTURE_INPUT_BYTES};
ghost use Rattle.fa_audit.specs.Migrated.{IsMigratedTold, IsMigratedFrom};

use crate::running::{MAX_CAPTURE_INPUT_BYTES, RunFault, input_bytes, tell};
use crate::status::Status;
use fa_capture::{Input, Output, put_migrated, read_capture};
use fa_check::Verdict;
use std::alloc::Global;

/// Writes the migrated capture, or the line of its framing fault and a line feed: the status of the answer.
fn tell_migrated<W: Output>(alloc: Global, bytes: &[u8], out: &mut W) -> Result<u8, RunFault>
    requires unbroken { W.is_broken out.old ≡ false }
    ensures told { IfOk result (IsMigratedTold bytes.now (W.written out.old) (W.written out.new)) }
    ensures memory { IsErrOf result RunFault.Memory →
        Keeps (W.written out.old) (W.written out.new) }
    ensures read { IsErrOf result RunFault.Read → ⊥ }
    ensures write { IsErrOf result RunFault.Write ↔ (W.is_broken out.new ≡ true) }
{
    let capture = read_capture(bytes);
    if let Some(fault) = capture.fault {
        let verdict = Verdict::Fault {
            at: fault.whole,
            code: fault.code,
        };
        return tell(alloc, Ok(verdict), out);
    }
    put_migrated(&capture, out)?;
    Ok(Status::Legal.number())
}

/// Migrates a capture: reads it, writes the capture with times that holds the same messages, and answers the status.
///
/// That is the capture of [`migrate`](fa_capture::migrate): times are those that the capture has, and 0 where it has none. No message is
/// judged. Where the capture has a framing fault, the line of that fault and a line feed are written, as [`run`](crate::run) writes them.
/// The status is 0 with a capture and 1 with a fault. The input is read to its end before anything is written. No mark of the input or of
/// the output is set at the call.
///
/// Which bytes were read and written is said where the input and the output tell their bytes, as those over memory do. Files and
/// standard output do not: of a call on them it is said alone that the status is that of an answer on some bytes.
///
/// # Errors
///
/// - [`RunFault::Read`] where the input failed, did not come to its end, or has more than [`MAX_CAPTURE_INPUT_BYTES`] bytes.
/// - [`RunFault::Write`] where the output did not take all bytes.
/// - [`RunFault::Memory`] where memory was refused.
///
/// Nothing was written at `Read` and `Memory`, where the output tells its bytes. At `Write` nothing is said of what went out.
///
/// # Cost
///
/// That of [`read_all`](fa_capture::read_all) and of [`put_migrated`]: the capture is held, and what is written is not.
pub fn run_migrate<R: Input, W: Output>(
    alloc: Global,
    capture: &mut R,
    out: &mut W,
) -> Result<u8, RunFault>
    requires capture_unfailed { R.has_failed capture.old ≡ false }
    requires capture_uninterrupted { R.was_interrupted capture.old ≡ false }
    requires unbroken { W.is_broken out.old ≡ false }

    // The migrated capture of the bytes that were read, or the line of their fault.
    ensures told { IfOk result (IsMigratedFrom (R.remaining capture.old) (W.written out.old) (W.written out.new)) }

    ensures end { OnOk result (IsAtEnd (R.remaining capture.new)) }

    // When each fault comes.
    ensures read { IsErrOf result RunFault.Read →
        IsUnread MAX_CAPTURE_INPUT_BYTES (R.remaining capture.old) (R.has_failed capture.new) (R.was_interrupted capture.new) }
    ensures failed { R.has_failed capture.new ≡ true → IsErrOf result RunFault.Read }
    ensures write { IsErrOf result RunFault.Write ↔ (W.is_broken out.new ≡ true) }

    // Nothing was written.
    ensures unread { IsErrOf result RunFault.Read → Keeps (W.written out.old) (W.written out.new) }
    ensures refused { IsErrOf result RunFault.Memory → Keeps (W.written out.old) (W.written out.new) }
{
    let bytes = input_bytes(alloc, capture, MAX_CAPTURE_INPUT_BYTES)?;
    tell_migrated(alloc, &bytes, out)
}
