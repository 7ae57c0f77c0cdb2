//! From the inputs of a proposal to the order text that is proposed.

ghost use Rattle.std.specs.Prelude.{◌≡◌, ◌≢◌, ◌≤◌, ◌↔◌, ◌⊎◌, ℕ, false, true, List, Option, None, Err, length, IfOk, IfErr, IfSome, IsOk, OnOk, IsErrOf};
ghost use Rattle.std.specs.Option.{option_copied};
ghost use Rattle.std.specs.Io.KnownBytes.{IsAtEnd, Keeps};
ghost use Rattle.fa_capture.specs.Captures.{IsCaptureOf};
ghost use Rattle.fa_ledger.specs.Passing.{IsFirstFault};
ghost use Rattle.fa_order.specs.declared.lines.TheConstants.{MAX_TEXT_BYTES};
ghost use Rattle.fa_audit.specs.Verdict.{IsTreeTextAtFault, ExactlyRefused};
ghost use Rattle.fa_audit.specs.Line.{IsCoded};
ghost use Rattle.fa_audit.specs.Run.{IfHandedIn, IsHandedIn, IsSomeRead, IsReadIfAny, IsUnread, FailedOrInterrupted, IsAtEndOrFault};
ghost use Rattle.fa_audit.specs.declared.running.TheConstants.{MAX_TEXT_INPUT_BYTES};
ghost use Rattle.fa_audit.specs.Proposed.{IsStart, IsProposed, IsProposalTold, IsProposedFrom, answer_of};
ghost use Rattle.fa_audit.specs.Starts.{IsStartOf, IsNoStart};
ghost use Rattle.fa_audit.specs.parts.Answers.{text_answered};

use crate::judge::{start, start_of_bytes};
use crate::running::{MAX_TEXT_INPUT_BYTES, RunFault, input_bytes, stored_capture, tell};
use crate::status::Status;
use crate::verdict::StartError;
use fa_capture::{Capture, Input, Output, Seed};
use fa_ledger::Calls;
use fa_order::write_order;
use fa_propose::propose;
use fa_tree::Tree;
use std::alloc::Global;

/// The text of the order that is proposed for a capture, from the tree that the server began with.
///
/// The capture is judged and the tree text is read as [`audit`](crate::audit) does it. The order is that of
/// [`propose`](fa_propose::propose), a guess: [`audit`](crate::audit) tells whether it explains the capture. The tree text
/// has at most 268,435,456 bytes.
///
/// # Errors
///
/// - [`StartError::Fault`] exactly where the capture is not good: at the least number of a message that does not pass or of the
///   framing fault, with the first check that it fails, as one of [`codes`](fa_capture::codes).
/// - [`StartError::TreeText`] exactly where the capture is good and the tree text that is handed in is not in its grammar.
/// - [`StartError::Memory`] where memory was refused.
///
/// # Cost
///
/// That of [`audit`](crate::audit) up to the order text, of [`propose`](fa_propose::propose) and of [`write_order`].
pub fn proposal(alloc: Global, capture: &[u8], tree: Option<&[u8]>) -> Result<Vec<u8>, StartError>
    requires { IfSome (option_copied tree) (λ text. length text ≤ MAX_TEXT_BYTES) }

    // An order is proposed exactly where the capture is good and a tree text that is handed in is in its grammar.
    ensures order { IfOk result (λ text. IsProposed capture.now (option_copied tree.entry) text.items) }
    ensures start { IsStart capture.now (option_copied tree.entry) → IsOk result ⊎ IsErrOf result StartError.Memory }

    ensures fault { (at code : ℕ) → ExactlyRefused result StartError.Memory
        (StartError.Fault at code) (IsFirstFault capture.now at code) }
    ensures tree_text { (line : ℕ) → ExactlyRefused result StartError.Memory
        (StartError.TreeText line) (IsTreeTextAtFault capture.now (option_copied tree.entry) line) }

    // A code that is told has a text.
    ensures codes { IfErr result (λ error. IfOk (answer_of error) IsCoded) }
{
    proposed_of_bytes(alloc, capture, tree)
}

/// The text of an order that is proposed for a capture that was read, as [`proposal`] is for one by its bytes.
///
/// # Errors
///
/// Those of [`proposal`].
///
/// # Cost
///
/// That of [`proposal`], but for the framing.
pub fn proposed(
    alloc: Global,
    capture: &Capture<'_>,
    tree: Option<&[u8]>,
) -> Result<Vec<u8>, StartError>
    requires { IfSome (option_copied tree) (λ text. length text ≤ MAX_TEXT_BYTES) }
    ensures text { IfOk result (λ text. (bytes : List ℕ) → IsCaptureOf bytes capture.now → IsProposed bytes (option_copied tree.entry) text.items) }
    ensures none { IfErr result (λ error. (bytes : List ℕ) → IsCaptureOf bytes capture.now → IsNoStart bytes (option_copied tree.entry) error) }
{
    let (calls, first) = start(alloc, capture, tree)?;
    text_from(alloc, &calls, first)
}

/// The text of an order that is proposed for a capture by its bytes, whose records are gone through once.
fn proposed_of_bytes(
    alloc: Global,
    capture: &[u8],
    tree: Option<&[u8]>,
) -> Result<Vec<u8>, StartError>
    requires { IfSome (option_copied tree) (λ text. length text ≤ MAX_TEXT_BYTES) }
    ensures text { IfOk result (λ text. IsProposed capture.now (option_copied tree.entry) text.items) }
    ensures none { IfErr result (IsNoStart capture.now (option_copied tree.entry)) }
{
    let (calls, first) = start_of_bytes(alloc, capture, tree)?;
    text_from(alloc, &calls, first)
}

/// The text of an order that is proposed from what it starts with.
fn text_from(alloc: Global, calls: &Calls<'_>, first: Tree) -> Result<Vec<u8>, StartError>
    ensures text { IfOk result (λ text. (bytes : List ℕ) (tree : Option (List ℕ)) → IsStartOf bytes tree calls.now first → IsProposed bytes tree text.items) }
    ensures memory { IfErr result (λ error. error ≡ StartError.Memory) }
{
    let order = propose(alloc, calls, first)?;
    Ok(write_order(alloc, &order)?)
}

/// Writes the order text that is proposed, or the line of the fault and a line feed: the status of the answer.
fn tell_proposal<W: Output>(
    alloc: Global,
    proposal: Result<Vec<u8>, StartError>,
    out: &mut W,
) -> Result<u8, RunFault>
    requires coded { IfErr proposal (λ error. IfOk (answer_of error) IsCoded) }
    requires unbroken { W.is_broken out.old ≡ false }
    ensures told { IfOk result (IsProposalTold (text_answered proposal) (W.written out.old) (W.written out.new)) }
    ensures answered { OnOk result (proposal ≢ Err StartError.Memory) }
    ensures memory { IsErrOf result RunFault.Memory →
        Keeps (W.written out.old) (W.written out.new) }
    ensures read { IsErrOf result RunFault.Read → ⊥ }
    ensures write { IsErrOf result RunFault.Write ↔ (W.is_broken out.new ≡ true) }
{
    match proposal {
        Ok(text) => {
            out.put(&text)?;
            Ok(Status::Legal.number())
        }
        Err(error) => tell(alloc, error.answer(), out),
    }
}

/// Reads the capture, and tells what is proposed on an empty root.
fn propose_on_empty_root<R: Input, W: Output>(
    alloc: Global,
    seed: Seed,
    capture: &mut R,
    out: &mut W,
) -> Result<u8, RunFault>
    requires capture_unfailed { R.has_failed capture.old ≡ false }
    requires capture_uninterrupted { R.was_interrupted capture.old ≡ false }
    requires unbroken { W.is_broken out.old ≡ false }
    ensures told { IfOk result (IsProposedFrom (R.remaining capture.old) (λ read. read ≡ None)
        (W.written out.old) (W.written out.new)) }
    ensures end { OnOk result (IsAtEndOrFault (R.remaining capture.old) (R.remaining capture.new)) }
    ensures read { IsErrOf result RunFault.Read →
        FailedOrInterrupted (R.has_failed capture.new) (R.was_interrupted capture.new) }
    ensures failed { R.has_failed capture.new ≡ true → IsErrOf result RunFault.Read }
    ensures write { IsErrOf result RunFault.Write ↔ (W.is_broken out.new ≡ true) }
    ensures unread { IsErrOf result RunFault.Read → Keeps (W.written out.old) (W.written out.new) }
    ensures refused { IsErrOf result RunFault.Memory → Keeps (W.written out.old) (W.written out.new) }
{
    let stored = stored_capture(alloc, capture)?;
    tell_proposal(
        alloc,
        proposed(alloc, &stored.capture().with_seed(seed), None),
        out,
    )
}

/// Reads the capture and then the tree, and tells what is proposed on that tree.
fn propose_on_tree<R: Input, W: Output>(
    alloc: Global,
    seed: Seed,
    capture: &mut R,
    tree: &mut R,
    out: &mut W,
) -> Result<u8, RunFault>
    requires capture_unfailed { R.has_failed capture.old ≡ false }
    requires capture_uninterrupted { R.was_interrupted capture.old ≡ false }
    requires tree_unfailed { R.has_failed tree.old ≡ false }
    requires tree_uninterrupted { R.was_interrupted tree.old ≡ false }
    requires unbroken { W.is_broken out.old ≡ false }
    ensures told { IfOk result (IsProposedFrom (R.remaining capture.old) (IsSomeRead (R.remaining tree.old))
        (W.written out.old) (W.written out.new)) }
    ensures end { OnOk result (IsAtEndOrFault (R.remaining capture.old) (R.remaining capture.new) × IsAtEnd (R.remaining tree.new)) }
    ensures capture_first { R.has_failed capture.new ≡ true → tree.new ≡ tree.old }
    ensures read { IsErrOf result RunFault.Read →
        FailedOrInterrupted (R.has_failed capture.new) (R.was_interrupted capture.new)
        ⊎ IsUnread MAX_TEXT_INPUT_BYTES (R.remaining tree.old) (R.has_failed tree.new) (R.was_interrupted tree.new) }
    ensures failed { (R.has_failed capture.new ≡ true) ⊎ (R.has_failed tree.new ≡ true) →
        IsErrOf result RunFault.Read }
    ensures write { IsErrOf result RunFault.Write ↔ (W.is_broken out.new ≡ true) }
    ensures unread { IsErrOf result RunFault.Read → Keeps (W.written out.old) (W.written out.new) }
    ensures refused { IsErrOf result RunFault.Memory → Keeps (W.written out.old) (W.written out.new) }
{
    let stored = stored_capture(alloc, capture)?;
    let tree = input_bytes(alloc, tree, MAX_TEXT_INPUT_BYTES)?;
    tell_proposal(
        alloc,
        proposed(alloc, &stored.capture().with_seed(seed), Some(&tree)),
        out,
    )
}

/// Proposes an order for a capture: reads the capture, and then the tree if one is handed in, writes the text of the order that
/// is proposed by one put, and answers the status.
///
/// Where there is no order to propose, the line of the fault and a line feed are written, as [`run`](crate::run) writes them. The status is 0
/// with an order text, 1 at a fault of the capture, and 3 where the tree text is not in its grammar. The inputs are read before anything is
/// judged, as [`run`](crate::run) reads them. Tables are hashed with the seed. No mark of an input or of the output is set at the call.
///
/// Which bytes were read and written is said where the inputs and the output tell their bytes, as those over memory do. Files and
/// standard output do not: of a call on them it is said alone that the status is that of an answer on some bytes.
///
/// # Errors
///
/// - [`RunFault::Read`] where an input failed or did not come to its end, or where a text has more than [`MAX_TEXT_INPUT_BYTES`]
///   bytes.
/// - [`RunFault::Write`] where the output did not take the whole text.
/// - [`RunFault::Memory`] where memory was refused.
///
/// Nothing was written at `Read` and `Memory`, where the output tells its bytes. At `Write` nothing is said of what went out.
///
/// # Cost
///
/// That of [`run`](crate::run) for the inputs, and of [`proposal`].
pub fn run_propose<R: Input, W: Output>(
    alloc: Global,
    seed: Seed,
    capture: &mut R,
    tree: Option<&mut R>,
    out: &mut W,
) -> Result<u8, RunFault>
    requires capture_unfailed { R.has_failed capture.old ≡ false }
    requires capture_uninterrupted { R.was_interrupted capture.old ≡ false }
    requires tree_unfailed { IfSome tree (λ r. R.has_failed r.now ≡ false) }
    requires tree_uninterrupted { IfSome tree (λ r. R.was_interrupted r.now ≡ false) }
    requires unbroken { W.is_broken out.old ≡ false }

    // The order text that is proposed on the bytes that were read, or the line of their fault.
    ensures told { IfOk result (IsProposedFrom (R.remaining capture.old) (IsReadIfAny R.remaining tree.entry)
        (W.written out.old) (W.written out.new)) }

    // The capture is read to its end, or as far as it has a framing fault whatever follows; the tree to its end.
    ensures end { OnOk result (IsAtEndOrFault (R.remaining capture.old) (R.remaining capture.new)
        × IfHandedIn tree.entry tree.exit (λ old new. IsAtEnd (R.remaining new))) }

    // The tree is read after the capture.
    ensures capture_first { R.has_failed capture.new ≡ true → IfHandedIn tree.entry tree.exit (λ old new. new ≡ old) }

    // When each fault comes.
    ensures read { IsErrOf result RunFault.Read →
        FailedOrInterrupted (R.has_failed capture.new) (R.was_interrupted capture.new)
        ⊎ IsHandedIn tree.entry tree.exit (λ old new. IsUnread MAX_TEXT_INPUT_BYTES (R.remaining old) (R.has_failed new) (R.was_interrupted new)) }
    ensures failed { (R.has_failed capture.new ≡ true) ⊎ IsHandedIn tree.entry tree.exit (λ old new. R.has_failed new ≡ true)
        → IsErrOf result RunFault.Read }
    ensures write { IsErrOf result RunFault.Write ↔ (W.is_broken out.new ≡ true) }

    // Nothing was written.
    ensures unread { IsErrOf result RunFault.Read →
        Keeps (W.written out.old) (W.written out.new) }
    ensures refused { IsErrOf result RunFault.Memory →
        Keeps (W.written out.old) (W.written out.new) }
{
    match tree {
        None => propose_on_empty_root(alloc, seed, capture, out),
        Some(tree) => propose_on_tree(alloc, seed, capture, tree, out),
    }
}
