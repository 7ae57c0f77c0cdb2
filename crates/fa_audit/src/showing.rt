//! From a capture to the lines of its messages.

ghost use Rattle.std.specs.Prelude.{◌≡◌, ◌↔◌, false, true, IfOk, OnOk, IsErrOf};
ghost use Rattle.std.specs.Io.KnownBytes.{IsAtEnd, Keeps};
ghost use Rattle.fa_audit.specs.Run.{IsUnread};
ghost use Rattle.fa_audit.specs.declared.running.TheConstants.{MAX_CAPTURE_INPUT_BYTES};
ghost use Rattle.fa_audit.specs.Showing.{IsShown};

use crate::running::{MAX_CAPTURE_INPUT_BYTES, RunFault, input_bytes};
use crate::status::Status;
use fa_capture::{Input, Output, Seed, read_capture};
use fa_show::{Choice, ShowError, show};
use std::alloc::Global;

impl From<ShowError> for RunFault {
    ghost use Rattle.fa_audit.specs.parts.Showings.{show_fault};
    ghost use Rattle.std.specs.Prelude.{◌≡◌};

    ghost from_gives = { λ error fault. fault ≡ show_fault error };

    fn from(error: ShowError) -> RunFault {
        match error {
            ShowError::Write => RunFault::Write,
            ShowError::Memory => RunFault::Memory,
        }
    }
}

/// Shows a capture: reads it, and writes a line for each of its messages that is chosen, in the field's own terms: its status, which is
/// 0 whenever the lines were written, since what is shown is no verdict.
///
/// The lines are those of [`show`], written in blocks. A message that is refused is shown with its code and left out of what follows; a
/// framing fault is the last line. What is written is printing ASCII and line feeds alone, whatever the capture holds. The input is read to
/// its end before anything is written. Tables are hashed with the seed. No mark of the input or of the output is set at the call.
///
/// Which bytes were read and written is said where the input and the output tell their bytes, as those over memory do. Files and
/// standard output do not: of a call on them it is said alone how it ends.
///
/// # Errors
///
/// - [`RunFault::Read`] where the input failed, did not come to its end, or has more than [`MAX_CAPTURE_INPUT_BYTES`] bytes.
/// - [`RunFault::Write`] where the output did not take all bytes.
/// - [`RunFault::Memory`] where memory was refused.
///
/// Nothing was written at `Read` and `Memory`, where the output tells its bytes. At `Write` nothing is said of what went out.
///
/// # Cost
///
/// That of [`read_all`](fa_capture::read_all) and of [`show`].
pub fn run_show<R: Input, W: Output>(
    alloc: Global,
    seed: Seed,
    capture: &mut R,
    choice: &Choice<'_>,
    out: &mut W,
) -> Result<u8, RunFault>
    requires capture_unfailed { R.has_failed capture.old ≡ false }
    requires capture_uninterrupted { R.was_interrupted capture.old ≡ false }
    requires unbroken { W.is_broken out.old ≡ false }

    // Printing ASCII and line feeds alone were written, and the status is 0.
    ensures told { IfOk result (IsShown (W.written out.old) (W.written out.new)) }

    ensures end { OnOk result (IsAtEnd (R.remaining capture.new)) }

    // When each fault comes.
    ensures read { IsErrOf result RunFault.Read →
        IsUnread MAX_CAPTURE_INPUT_BYTES (R.remaining capture.old) (R.has_failed capture.new) (R.was_interrupted capture.new) }
    ensures failed { R.has_failed capture.new ≡ true → IsErrOf result RunFault.Read }
    ensures write { IsErrOf result RunFault.Write ↔ (W.is_broken out.new ≡ true) }

    // Nothing was written.
    ensures unread { IsErrOf result RunFault.Read → Keeps (W.written out.old) (W.written out.new) }
    ensures refused { IsErrOf result RunFault.Memory → Keeps (W.written out.old) (W.written out.new) }
{
    let bytes = input_bytes(alloc, capture, MAX_CAPTURE_INPUT_BYTES)?;
    show(alloc, &read_capture(&bytes).with_seed(seed), choice, out)?;
    Ok(Status::Legal.number())
}
