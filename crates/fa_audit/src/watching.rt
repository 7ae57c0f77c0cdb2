//! From a stream to the line that tells its first fault, or that it has none.

ghost use Rattle.std.specs.Prelude.{◌≡◌, ◌↔◌, false, true, IfOk, IsErrOf};
ghost use Rattle.std.specs.Io.KnownBytes.{Keeps};
ghost use Rattle.fa_audit.specs.Run.{FailedOrInterrupted};
ghost use Rattle.fa_audit.specs.Watching.{IsSeenTold, IsWatchTold};
ghost use Rattle.fa_audit.specs.parts.Seeing.{IsCodedSeen};

use crate::running::{RunFault, tell};
use crate::status::Status;
use fa_capture::{Input, Output, Seed};
use fa_check::Verdict;
use fa_watch::{Seen, WatchError, watch};
use std::alloc::Global;

impl From<WatchError> for RunFault {
    ghost use Rattle.fa_audit.specs.parts.Seeing.{watch_fault};
    ghost use Rattle.std.specs.Prelude.{◌≡◌};

    ghost from_gives = { λ error fault. fault ≡ watch_fault error };

    fn from(error: WatchError) -> RunFault {
        match error {
            WatchError::Read => RunFault::Read,
            WatchError::Memory => RunFault::Memory,
        }
    }
}

/// Writes the line of what was seen and a line feed: its status.
fn tell_seen<W: Output>(alloc: Global, seen: Seen, out: &mut W) -> Result<u8, RunFault>
    requires coded { IsCodedSeen seen }
    requires unbroken { W.is_broken out.old ≡ false }
    ensures told { IfOk result (IsSeenTold seen (W.written out.old) (W.written out.new)) }
    ensures memory { IsErrOf result RunFault.Memory → Keeps (W.written out.old) (W.written out.new) }
    ensures read { IsErrOf result RunFault.Read → ⊥ }
    ensures write { IsErrOf result RunFault.Write ↔ (W.is_broken out.new ≡ true) }
{
    let messages = match seen {
        Seen::Good { messages } => messages,
        Seen::Fault { at, code } => return tell(alloc, Ok(Verdict::Fault { at, code }), out),
    };
    let mut line = format!(in alloc; "good: {messages} messages")?;
    line.push('\n')?;
    out.put(line.as_bytes())?;
    Ok(Status::Legal.number())
}

/// Watches a stream: reads a capture as it comes, and writes a line and a line feed by one put where its first fault was read, with at
/// most [`PIECE`](fa_capture::PIECE) bytes behind it, or once it came to its end without one.
///
/// The line is `fault: message N: code C: TEXT`, as [`run`](crate::run) writes it, with the status 1, or `good: M messages` with the status
/// 0. No order is judged, and no message is kept. Tables are hashed with the seed. No mark of the input or of the output is set at the call.
///
/// Which bytes were read and written is said where the input and the output tell their bytes, as those over memory do. Files, pipes and
/// standard output do not: of a call on them it is said alone that the status is that of an answer on some bytes.
///
/// # Errors
///
/// - [`RunFault::Read`] where the input failed, or was interrupted so often that [`MAX_PULLS`](fa_watch::MAX_PULLS) came to no end.
/// - [`RunFault::Write`] where the output did not take the whole line.
/// - [`RunFault::Memory`] where memory was refused.
///
/// Nothing was written at `Read` and `Memory`, where the output tells its bytes. At `Write` nothing is said of what went out.
///
/// # Cost
///
/// That of [`watch`].
pub fn run_watch<R: Input, W: Output>(
    alloc: Global,
    seed: Seed,
    capture: &mut R,
    out: &mut W,
) -> Result<u8, RunFault>
    requires capture_unfailed { R.has_failed capture.old ≡ false }
    requires capture_uninterrupted { R.was_interrupted capture.old ≡ false }
    requires unbroken { W.is_broken out.old ≡ false }

    // The line of the first fault of the bytes that were read, or that they have none to their end.
    ensures told { IfOk result (IsWatchTold (R.remaining capture.old) (R.remaining capture.new) (W.written out.old) (W.written out.new)) }

    // When each fault comes.
    ensures read { IsErrOf result RunFault.Read → FailedOrInterrupted (R.has_failed capture.new) (R.was_interrupted capture.new) }
    ensures failed { R.has_failed capture.new ≡ true → IsErrOf result RunFault.Read }
    ensures write { IsErrOf result RunFault.Write ↔ (W.is_broken out.new ≡ true) }

    // Nothing was written.
    ensures unread { IsErrOf result RunFault.Read → Keeps (W.written out.old) (W.written out.new) }
    ensures refused { IsErrOf result RunFault.Memory → Keeps (W.written out.old) (W.written out.new) }
{
    let seen = watch(alloc, seed, capture)?;
    tell_seen(alloc, seen, out)
}
