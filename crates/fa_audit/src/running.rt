//! An audit from its inputs to the line that tells its answer.

ghost use Rattle.std.specs.Prelude.{◌≡◌, ◌≢◌, ◌≤◌, ◌↔◌, ◌⊎◌, true, false, None, vec_len, string_bytes, IfOk, IfErr, IfSome, OnOk, IsErrOf};
ghost use Rattle.std.specs.Io.KnownBytes.{IsAtEnd, Keeps};
ghost use Rattle.fa_audit.specs.Line.{IsCoded, answer_line, answer_status};
ghost use Rattle.fa_audit.specs.Status.{status_number};
ghost use Rattle.fa_audit.specs.Run.{IsTold, IfHandedIn, IsHandedIn, IsSomeRead, IsReadIfAny, IsAudited, IsUnread, FailedOrInterrupted, IsAtEndOrFault};
ghost use Rattle.fa_capture.specs.Captures.{IsCaptureOf};
ghost use Rattle.fa_capture.specs.declared.capture.Capture.{Capture};
ghost use Rattle.fa_capture.specs.declared.input.TheConstants.{MAX_READ_LIMIT};
ghost use Rattle.fa_audit.specs.declared.running.TheConstants.{MAX_TEXT_INPUT_BYTES};

use crate::judge::audit_capture;
use crate::line::{order_fault_text, tree_fault_text, verdict_text};
use crate::status::Status;
use crate::verdict::AuditError;
use fa_capture::{
    Broken, Feed, FeedError, Input, Output, Pull, ReadError, SPARE_PULLS, Seed, Stored, read_all,
};
use fa_check::Verdict;
use std::alloc::{AllocError, AllocFailed, Global};
use thiserror::Error;

/// How many bytes the input of a capture may have that is read whole before it is looked at, as [`run_front`](crate::run_front),
/// [`run_migrate`](crate::run_migrate), [`run_show`](crate::run_show) and the runs of `fa_reasons` do: as many as a capture has at most with
/// times, which do not count for its limit.
pub const MAX_CAPTURE_INPUT_BYTES: usize = 402_653_184;

/// How many bytes the input of a tree text or of an order text may have.
pub const MAX_TEXT_INPUT_BYTES: usize = 268_435_456;

/// How many pulls of a capture are made at most. A capture that no framing fault was told of has fewer bytes, so they come to an end
/// unless some are interrupted.
const MAX_PULLS: usize = MAX_CAPTURE_INPUT_BYTES + SPARE_PULLS;

/// Why no answer was told.
#[derive(Clone, Copy, Debug, PartialEq, Eq, Hash, Error)]
pub enum RunFault {
    /// An input could not be opened or read, or has more bytes than [`MAX_TEXT_INPUT_BYTES`], for a text, or
    /// [`MAX_CAPTURE_INPUT_BYTES`], for a capture that is read whole.
    #[error("read")]
    Read,
    /// The output did not take the whole text.
    #[error("write")]
    Write,
    /// Memory was refused.
    #[error("memory")]
    Memory,
}

impl From<AllocError> for RunFault {
    ghost use Rattle.std.specs.Prelude.{◌≡◌};
    ghost use Rattle.fa_audit.specs.declared.running.RunFault.TheVariants.{Memory};

    ghost from_gives = { λ _ e. e ≡ Memory };

    fn from(_: AllocError) -> RunFault {
        RunFault::Memory
    }
}

impl<T: Drop> From<AllocFailed<T>> for RunFault {
    ghost use Rattle.std.specs.Prelude.{◌≡◌};
    ghost use Rattle.fa_audit.specs.declared.running.RunFault.TheVariants.{Memory};

    ghost from_gives = { λ _ e. e ≡ Memory };

    fn from(_: AllocFailed<T>) -> RunFault {
        RunFault::Memory
    }
}

impl From<ReadError> for RunFault {
    ghost use Rattle.fa_audit.specs.Run.{IsReadFault};

    ghost from_gives = { IsReadFault };

    fn from(error: ReadError) -> RunFault {
        match error {
            ReadError::Memory => RunFault::Memory,
            ReadError::Failed | ReadError::TooLong | ReadError::Turns => RunFault::Read,
        }
    }
}

impl From<Broken> for RunFault {
    ghost use Rattle.std.specs.Prelude.{◌≡◌};
    ghost use Rattle.fa_audit.specs.declared.running.RunFault.TheVariants.{Write};

    ghost from_gives = { λ _ e. e ≡ Write };

    fn from(_: Broken) -> RunFault {
        RunFault::Write
    }
}

/// The status of a verdict.
fn status_of(verdict: Verdict) -> Status
    ensures { status_number result ≡ answer_status (Ok verdict) }
{
    match verdict {
        Verdict::Legal { .. } => Status::Legal,
        Verdict::Fault { .. } => Status::Fault,
        Verdict::NotShown { .. } => Status::NotShown,
    }
}

/// The whole of an input of at most `limit` bytes. No mark of the input is set at the call.
///
/// # Errors
///
/// - [`RunFault::Read`] where the input failed, did not come to its end, or has more bytes.
/// - [`RunFault::Memory`] where memory was refused.
///
/// # Cost
///
/// That of [`read_all`].
pub fn input_bytes<R: Input>(
    alloc: Global,
    input: &mut R,
    limit: usize,
) -> Result<Vec<u8>, RunFault>
    requires readable { limit ≤ MAX_READ_LIMIT }
    requires unfailed { R.has_failed input.old ≡ false }
    requires uninterrupted { R.was_interrupted input.old ≡ false }
    ensures bytes { IfOk result (λ v. IfSome (R.remaining input.old) (λ bytes. v.items ≡ bytes)) }
    ensures within { IfOk result (λ v. vec_len v ≤ limit) }
    ensures end { OnOk result (IsAtEnd (R.remaining input.new)) }
    ensures read { IsErrOf result RunFault.Read →
        IsUnread limit (R.remaining input.old) (R.has_failed input.new) (R.was_interrupted input.new) }
    ensures failed { R.has_failed input.new ≡ true → IsErrOf result RunFault.Read }
    ensures write { IsErrOf result RunFault.Write → ⊥ }
{
    Ok(read_all(alloc, input, limit)?)
}

/// The capture that an input holds, in pieces as they come: all of them, or up to the one with which it has a framing fault whatever
/// follows.
///
/// An interrupted pull is made again, and no more than [`MAX_PULLS`] are made.
///
/// # Errors
///
/// - [`RunFault::Read`] at the first pull that fails, or where so many pulls came to no end; some of them were interrupted.
/// - [`RunFault::Memory`] where memory for the bytes was refused.
///
/// What was pulled before an error is lost.
///
/// # Cost
///
/// That of [`Feed::pull_from`] for each pull.
pub(crate) fn stored_capture<R: Input>(alloc: Global, input: &mut R) -> Result<Stored, RunFault>
    requires unfailed { R.has_failed input.old ≡ false }
    requires uninterrupted { R.was_interrupted input.old ≡ false }
    ensures capture { IfOk result (λ stored. IfSome (R.remaining input.old) (λ bytes. (capture : Capture) →
        IsCaptureOf stored capture → IsCaptureOf bytes capture)) }
    ensures end { OnOk result (IsAtEndOrFault (R.remaining input.old) (R.remaining input.new)) }
    ensures read { IsErrOf result RunFault.Read → FailedOrInterrupted (R.has_failed input.new) (R.was_interrupted input.new) }
    ensures failed { R.has_failed input.new ≡ true → IsErrOf result RunFault.Read }
    ensures write { IsErrOf result RunFault.Write → ⊥ }
{
    let mut feed = Feed::new(alloc);
    for _ in 0..MAX_PULLS {
        let pull = match feed.pull_from(input) {
            Ok(pull) => pull,
            Err(FeedError::Fault(_)) => return Ok(feed.finish()),
            Err(FeedError::Memory) => return Err(RunFault::Memory),
        };
        if pull == Pull::Failed {
            return Err(RunFault::Read);
        }
        if pull == Pull::Got(0) {
            return Ok(feed.finish());
        }
    }
    Err(RunFault::Read)
}

/// The line that tells an answer of [`audit`], without a line feed, and its status. The code of a verdict is one that has a text, as
/// in each answer of [`audit`].
///
/// # Errors
///
/// [`RunFault::Memory`] where memory was refused: to the answer, or to its line.
///
/// # Cost
///
/// Time and memory for the line.
pub fn line_and_status(
    alloc: Global,
    answer: Result<Verdict, AuditError>,
) -> Result<(String, Status), RunFault>
    requires { IfOk answer IsCoded }
    ensures line { IfOk result (λ told. string_bytes told.0 ≡ answer_line answer) }
    ensures status { IfOk result (λ told. status_number told.1 ≡ answer_status answer) }
    ensures answered { OnOk result (answer ≢ Err AuditError.Memory) }
    ensures memory { IfErr result (λ fault. fault ≡ RunFault.Memory) }
{
    match answer {
        Ok(verdict) => Ok((verdict_text(alloc, &verdict)?, status_of(verdict))),
        Err(AuditError::TreeText { line }) => Ok((tree_fault_text(alloc, line)?, Status::Text)),
        Err(AuditError::OrderText { line }) => Ok((order_fault_text(alloc, line)?, Status::Text)),
        Err(AuditError::Memory) => Err(RunFault::Memory),
    }
}

/// Writes the line of an answer and a line feed: the status of the answer.
pub(crate) fn tell<W: Output>(
    alloc: Global,
    answer: Result<Verdict, AuditError>,
    out: &mut W,
) -> Result<u8, RunFault>
    requires coded { IfOk answer IsCoded }
    requires unbroken { W.is_broken out.old ≡ false }
    ensures told { IfOk result (IsTold answer (W.written out.old) (W.written out.new)) }
    ensures answered { OnOk result (answer ≢ Err AuditError.Memory) }
    ensures memory { IsErrOf result RunFault.Memory →
        Keeps (W.written out.old) (W.written out.new) }
    ensures read { IsErrOf result RunFault.Read → ⊥ }
    ensures write { IsErrOf result RunFault.Write ↔ (W.is_broken out.new ≡ true) }
{
    let (mut line, status) = line_and_status(alloc, answer)?;
    line.push('\n')?;
    out.put(line.as_bytes())?;
    Ok(status.number())
}

/// Reads the capture and then the order, and tells what the audit answers of them on an empty root.
fn run_on_empty_root<R: Input, W: Output>(
    alloc: Global,
    seed: Seed,
    capture: &mut R,
    order: &mut R,
    out: &mut W,
) -> Result<u8, RunFault>
    requires capture_unfailed { R.has_failed capture.old ≡ false }
    requires capture_uninterrupted { R.was_interrupted capture.old ≡ false }
    requires order_unfailed { R.has_failed order.old ≡ false }
    requires order_uninterrupted { R.was_interrupted order.old ≡ false }
    requires unbroken { W.is_broken out.old ≡ false }
    ensures told { IfOk result (IsAudited (R.remaining capture.old) (λ read. read ≡ None) (R.remaining order.old)
        (W.written out.old) (W.written out.new)) }
    ensures end { OnOk result (IsAtEndOrFault (R.remaining capture.old) (R.remaining capture.new) × IsAtEnd (R.remaining order.new)) }
    ensures capture_first { R.has_failed capture.new ≡ true → order.new ≡ order.old }
    ensures read { IsErrOf result RunFault.Read →
        FailedOrInterrupted (R.has_failed capture.new) (R.was_interrupted capture.new)
        ⊎ IsUnread MAX_TEXT_INPUT_BYTES (R.remaining order.old) (R.has_failed order.new) (R.was_interrupted order.new) }
    ensures failed { (R.has_failed capture.new ≡ true) ⊎ (R.has_failed order.new ≡ true) →
        IsErrOf result RunFault.Read }
    ensures write { IsErrOf result RunFault.Write ↔ (W.is_broken out.new ≡ true) }
    ensures unread { IsErrOf result RunFault.Read → Keeps (W.written out.old) (W.written out.new) }
    ensures refused { IsErrOf result RunFault.Memory → Keeps (W.written out.old) (W.written out.new) }
{
    let stored = stored_capture(alloc, capture)?;
    let order = input_bytes(alloc, order, MAX_TEXT_INPUT_BYTES)?;
    tell(
        alloc,
        audit_capture(alloc, &stored.capture().with_seed(seed), None, &order),
        out,
    )
}

/// Reads the capture, the tree and then the order, and tells what the audit answers of them.
fn run_on_tree<R: Input, W: Output>(
    alloc: Global,
    seed: Seed,
    capture: &mut R,
    tree: &mut R,
    order: &mut R,
    out: &mut W,
) -> Result<u8, RunFault>
    requires capture_unfailed { R.has_failed capture.old ≡ false }
    requires capture_uninterrupted { R.was_interrupted capture.old ≡ false }
    requires tree_unfailed { R.has_failed tree.old ≡ false }
    requires tree_uninterrupted { R.was_interrupted tree.old ≡ false }
    requires order_unfailed { R.has_failed order.old ≡ false }
    requires order_uninterrupted { R.was_interrupted order.old ≡ false }
    requires unbroken { W.is_broken out.old ≡ false }
    ensures told { IfOk result (IsAudited (R.remaining capture.old) (IsSomeRead (R.remaining tree.old)) (R.remaining order.old)
        (W.written out.old) (W.written out.new)) }
    ensures end { OnOk result (IsAtEndOrFault (R.remaining capture.old) (R.remaining capture.new) × IsAtEnd (R.remaining tree.new) × IsAtEnd (R.remaining order.new)) }
    ensures capture_first { R.has_failed capture.new ≡ true → (tree.new ≡ tree.old) × (order.new ≡ order.old) }
    ensures tree_first { R.has_failed tree.new ≡ true → order.new ≡ order.old }
    ensures read { IsErrOf result RunFault.Read →
        FailedOrInterrupted (R.has_failed capture.new) (R.was_interrupted capture.new)
        ⊎ IsUnread MAX_TEXT_INPUT_BYTES (R.remaining tree.old) (R.has_failed tree.new) (R.was_interrupted tree.new)
        ⊎ IsUnread MAX_TEXT_INPUT_BYTES (R.remaining order.old) (R.has_failed order.new) (R.was_interrupted order.new) }
    ensures failed { (R.has_failed capture.new ≡ true) ⊎ (R.has_failed tree.new ≡ true) ⊎ (R.has_failed order.new ≡ true) →
        IsErrOf result RunFault.Read }
    ensures write { IsErrOf result RunFault.Write ↔ (W.is_broken out.new ≡ true) }
    ensures unread { IsErrOf result RunFault.Read → Keeps (W.written out.old) (W.written out.new) }
    ensures refused { IsErrOf result RunFault.Memory → Keeps (W.written out.old) (W.written out.new) }
{
    let stored = stored_capture(alloc, capture)?;
    let tree = input_bytes(alloc, tree, MAX_TEXT_INPUT_BYTES)?;
    let order = input_bytes(alloc, order, MAX_TEXT_INPUT_BYTES)?;
    tell(
        alloc,
        audit_capture(
            alloc,
            &stored.capture().with_seed(seed),
            Some(&tree),
            &order,
        ),
        out,
    )
}

/// Audits a capture against an order: reads the capture, the tree if one is handed in, and then the order, writes the line of
/// the audit's answer and a line feed by one put, and answers the status.
///
/// The status is 0 where the verdict is legal, 1 at a fault of the capture, 2 where the order is not shown to explain the capture, and 3
/// where the tree text or the order text is not in its grammar. All inputs are read before anything is judged: the texts to their end, and so
/// is the capture, unless its framing has a fault before that no byte behind it could mend; what it has behind that fault is not read. Tables
/// are hashed with the seed. No mark of an input or of the output is set at the call.
///
/// Which bytes were read and written is said where the inputs and the output tell their bytes, as those over memory do. Files and
/// standard output do not: of a call on them it is said alone that the status is that of an answer on some bytes.
///
/// # Errors
///
/// - [`RunFault::Read`] where an input failed or did not come to its end, or where a text has more than [`MAX_TEXT_INPUT_BYTES`]
///   bytes.
/// - [`RunFault::Write`] where the output did not take the whole line.
/// - [`RunFault::Memory`] where memory was refused.
///
/// Nothing was written at `Read` and `Memory`, where the output tells its bytes. At `Write` nothing is said of what went out.
///
/// # Cost
///
/// That of [`Feed::pull_from`] for each pull of the capture, of [`read_all`] for each text, and of [`audit_capture`]: the capture takes
/// memory for its bytes, a thirty-second part more, and room for one pull.
pub fn run<R: Input, W: Output>(
    alloc: Global,
    seed: Seed,
    capture: &mut R,
    tree: Option<&mut R>,
    order: &mut R,
    out: &mut W,
) -> Result<u8, RunFault>
    requires capture_unfailed { R.has_failed capture.old ≡ false }
    requires capture_uninterrupted { R.was_interrupted capture.old ≡ false }
    requires tree_unfailed { IfSome tree (λ r. R.has_failed r.now ≡ false) }
    requires tree_uninterrupted { IfSome tree (λ r. R.was_interrupted r.now ≡ false) }
    requires order_unfailed { R.has_failed order.old ≡ false }
    requires order_uninterrupted { R.was_interrupted order.old ≡ false }
    requires unbroken { W.is_broken out.old ≡ false }

    // The line of the audit's answer on the bytes that were read.
    ensures told { IfOk result (IsAudited (R.remaining capture.old) (IsReadIfAny R.remaining tree.entry) (R.remaining order.old)
        (W.written out.old) (W.written out.new)) }

    // The capture is read to its end, or as far as it has a framing fault whatever follows; each text to its end.
    ensures end { OnOk result (IsAtEndOrFault (R.remaining capture.old) (R.remaining capture.new)
        × IfHandedIn tree.entry tree.exit (λ old new. IsAtEnd (R.remaining new)) × IsAtEnd (R.remaining order.new)) }

    // The tree is read after the capture, and the order after both.
    ensures capture_first { R.has_failed capture.new ≡ true → IfHandedIn tree.entry tree.exit (λ old new. new ≡ old) × (order.new ≡ order.old) }
    ensures tree_first { IsHandedIn tree.entry tree.exit (λ old new. R.has_failed new ≡ true) → order.new ≡ order.old }

    // When each fault comes.
    ensures read { IsErrOf result RunFault.Read →
        FailedOrInterrupted (R.has_failed capture.new) (R.was_interrupted capture.new)
        ⊎ IsHandedIn tree.entry tree.exit (λ old new. IsUnread MAX_TEXT_INPUT_BYTES (R.remaining old) (R.has_failed new) (R.was_interrupted new))
        ⊎ IsUnread MAX_TEXT_INPUT_BYTES (R.remaining order.old) (R.has_failed order.new)
        (R.was_interrupted order.new) }
    ensures failed { (R.has_failed capture.new ≡ true) ⊎ IsHandedIn tree.entry tree.exit (λ old new. R.has_failed new ≡ true)
        ⊎ (R.has_failed order.new ≡ true) → IsErrOf result RunFault.Read }
    ensures write { IsErrOf result RunFault.Write ↔ (W.is_broken out.new ≡ true) }

    // Nothing was written.
    ensures unread { IsErrOf result RunFault.Read →
        Keeps (W.written out.old) (W.written out.new) }
    ensures refused { IsErrOf result RunFault.Memory →
        Keeps (W.written out.old) (W.written out.new) }
{
    match tree {
        None => run_on_empty_root(alloc, seed, capture, order, out),
        Some(tree) => run_on_tree(alloc, seed, capture, tree, order, out),
    }
}
