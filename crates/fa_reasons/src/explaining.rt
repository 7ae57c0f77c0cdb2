//! An answer of the audit, with the reasons for it.

ghost use Rattle.std.specs.Prelude.{[], ◌≡◌, ◌≢◌, ◌↔◌, ◌≤◌, ◌⊎◌, ℕ, List, None, true, false, Err, length, IfOk, IfSome, OnOk, IsErrOf};
ghost use Rattle.std.specs.Option.{option_copied};
ghost use Rattle.std.specs.Io.KnownBytes.{IsAtEnd, Keeps};
ghost use Rattle.fa_capture.specs.Captures.{IsCaptureOf};
ghost use Rattle.fa_order.specs.declared.lines.TheConstants.{MAX_TEXT_BYTES};
ghost use Rattle.fa_audit.specs.Line.{IsCoded};
ghost use Rattle.fa_audit.specs.Proposed.{IsStart, IsProposed};
ghost use Rattle.fa_audit.specs.Verdict.{IsAnswer};
ghost use Rattle.fa_audit.specs.Run.{IfHandedIn, IsHandedIn, IsReadIfAny, IsSomeRead, IsUnread};
ghost use Rattle.fa_audit.specs.declared.running.TheConstants.{MAX_CAPTURE_INPUT_BYTES, MAX_TEXT_INPUT_BYTES};
ghost use Rattle.fa_audit.specs.Status.{status_number};
ghost use Rattle.fa_reasons.specs.Explained.{IsExplained, IsExplanationTold, IsWrittenWithReasons, IsExplainedFrom};

use fa_audit::{
    AuditError, MAX_CAPTURE_INPUT_BYTES, MAX_TEXT_INPUT_BYTES, RunFault, StartError, Status,
    audit_capture, entries_of, input_bytes, line_and_status, proposed, start,
};
use fa_capture::{Capture, Input, Output, Seed, read_capture};
use fa_check::Verdict;
use fa_explain::{fault_reasons, order_text_reasons, tree_text_reasons};
use fa_explain_order::{AllOrders, OrderReasons, Search, order_reasons};
use fa_ledger::Calls;
use fa_order::Entry;
use fa_search::{Budget, Finding, Nobody, search};
use fa_show::Text;
use fa_tree::Tree;
use std::alloc::{AllocError, Global};

/// An answer of the audit, and why it is answered.
#[derive(Drop)]
pub struct Explanation {
    /// The answer.
    pub answer: Result<Verdict, AuditError>,
    /// The lines behind its line.
    pub reasons: Text,
    /// Whether no order of the requests is legal, as far as they tell.
    pub is_without_order: bool,
}

/// Judges a capture and an order of its requests as [`audit`](fa_audit::audit) does, and says why it answers so: which message or entry is at
/// fault, what it conflicts with, what the tree holds there, and what to look at in the server.
///
/// Where no order is handed in, it is the one that [`proposal`](fa_audit::proposal) gives, if there is one. Where requests overlapped, the
/// lines say whether another order explains the answer, if a search of all of them finds that out with 100,000 steps, 4,096 trees and 32
/// MiB. What they say, and that there are any, no clause says. The tree text and the order text have at most 268,435,456 bytes each. Tables
/// are hashed with the seed.
///
/// # Errors
///
/// [`AllocError`] where memory was refused.
///
/// # Cost
///
/// That of [`proposal`](fa_audit::proposal), where no order is handed in; twice that of [`audit`](fa_audit::audit); and that of
/// [`fault_reasons`] or [`order_reasons`], which take the messages or the entries once more up to what is at fault, and may ask for that
/// search.
pub fn explain(
    alloc: Global,
    seed: Seed,
    capture: &[u8],
    tree: Option<&[u8]>,
    order: Option<&[u8]>,
) -> Result<Explanation, AllocError>
    requires tree_text { IfSome (option_copied tree) (λ text. length text ≤ MAX_TEXT_BYTES) }
    requires order_text { IfSome (option_copied order) (λ text. length text ≤ MAX_TEXT_BYTES) }
    ensures answer { IfOk result (λ told. IsExplained capture.now (option_copied tree.entry) (option_copied order.entry) told.answer) }

    // A code that is told has a text.
    ensures codes { IfOk result (λ told. IfOk told.answer IsCoded) }
{
    let parsed = read_capture(capture).with_seed(seed);
    match order {
        Some(order) => explain_order(alloc, capture, &parsed, tree, order),
        None => {
            let order = order_to_explain(alloc, &parsed, tree)?;
            explain_order(alloc, capture, &parsed, tree, &order)
        }
    }
}

/// The text of the order that is proposed, or none where there is no proposal.
fn order_to_explain(
    alloc: Global,
    capture: &Capture<'_>,
    tree: Option<&[u8]>,
) -> Result<Vec<u8>, AllocError>
    requires { IfSome (option_copied tree) (λ text. length text ≤ MAX_TEXT_BYTES) }
    ensures proposed { IfOk result (λ text. (bytes : List ℕ) → IsCaptureOf bytes capture.now → IsStart bytes (option_copied tree.entry) → IsProposed bytes (option_copied tree.entry) text.items) }
    ensures within { IfOk result (λ text. length text.items ≤ MAX_TEXT_BYTES) }
{
    match proposed(alloc, capture, tree) {
        Ok(text) if text.len() <= MAX_TEXT_INPUT_BYTES => Ok(text),
        // No capture has so many requests that their order is longer.
        Ok(_) => Err(AllocError),
        Err(error) => no_order(alloc, error),
    }
}

/// An order of nothing where there is no start for one: no answer looks at it.
fn no_order(alloc: Global, error: StartError) -> Result<Vec<u8>, AllocError>
    ensures nothing { IfOk result (λ text. text.items ≡ []) }
    ensures fault { OnOk result (error ≢ StartError.Memory) }
{
    match error {
        StartError::Memory => Err(AllocError),
        StartError::Fault { .. } | StartError::TreeText { .. } => Ok(Vec::new(alloc)),
    }
}

/// The answer for a capture that was read of these bytes, with its reasons.
fn explain_order(
    alloc: Global,
    bytes: &[u8],
    capture: &Capture<'_>,
    tree: Option<&[u8]>,
    order: &[u8],
) -> Result<Explanation, AllocError>
    requires tree_text { IfSome (option_copied tree) (λ text. length text ≤ MAX_TEXT_BYTES) }
    requires order_text { length order.now ≤ MAX_TEXT_BYTES }
    requires read { IsCaptureOf bytes.now capture.now }
    ensures answer { IfOk result (λ told. IsAnswer bytes.now (option_copied tree.entry) order.now told.answer) }
    ensures codes { IfOk result (λ told. IfOk told.answer IsCoded) }
{
    let answer = audit_capture(alloc, capture, tree, order);
    let OrderReasons {
        text,
        is_without_order,
    } = match &answer {
        Ok(Verdict::Fault { at, code }) => {
            not_of_an_order(fault_reasons(alloc, bytes, capture, *at, *code)?)
        }
        Ok(verdict) => reasons_of(alloc, capture, tree, order, verdict)?,
        Err(AuditError::TreeText { line }) => {
            not_of_an_order(tree_text_reasons(alloc, tree.unwrap_or(&[]), *line)?)
        }
        Err(AuditError::OrderText { line }) => {
            not_of_an_order(order_text_reasons(alloc, order, *line)?)
        }
        Err(AuditError::Memory) => return Err(AllocError),
    };
    Ok(Explanation {
        answer,
        reasons: text,
        is_without_order,
    })
}

/// Reasons that are not of an order.
fn not_of_an_order(text: Text) -> OrderReasons {
    OrderReasons {
        text,
        is_without_order: false,
    }
}

/// The reasons of a verdict on an order.
fn reasons_of(
    alloc: Global,
    capture: &Capture<'_>,
    tree: Option<&[u8]>,
    order: &[u8],
    verdict: &Verdict,
) -> Result<OrderReasons, AllocError>
    requires tree_text { IfSome (option_copied tree) (λ text. length text ≤ MAX_TEXT_BYTES) }
    requires order_text { length order.now ≤ MAX_TEXT_BYTES }
{
    let Ok(entries) = entries_of(alloc, order) else {
        return Err(AllocError);
    };
    let Ok((calls, first)) = start(alloc, capture, tree) else {
        return Err(AllocError);
    };
    let reasons = reasons_from(alloc, capture, &calls, &entries, &first, verdict);
    // They have many tables: they are proved to go in one place.
    drop(calls);
    drop(first);
    reasons
}

/// The same from a tree that is lent.
fn reasons_from(
    alloc: Global,
    capture: &Capture<'_>,
    calls: &Calls<'_>,
    entries: &[Entry],
    first: &Tree,
    verdict: &Verdict,
) -> Result<OrderReasons, AllocError> {
    let mut search = SideSearch {
        alloc,
        calls,
        first,
    };
    order_reasons(alloc, capture, calls, entries, first, verdict, &mut search)
}

/// How much the search may take that tells whether another order explains an answer: little, since the verdict stands already.
const LITTLE: Budget = Budget {
    steps: 100_000,
    trees: 4_096,
    bytes: 33_554_432,
};

/// A search of all orders beside a verdict on one.
#[derive(Drop)]
struct SideSearch<'s, 'c> {
    alloc: Global,
    calls: &'s Calls<'c>,
    first: &'s Tree,
}

impl Search for SideSearch<'_, '_> {
    fn all_orders(&mut self) -> Result<Option<AllOrders>, AllocError> {
        let first = self.first.copy()?;
        Ok(Some(
            match search(self.alloc, self.calls, first, LITTLE, &mut Nobody)? {
                Finding::Found { .. } => AllOrders::Legal,
                Finding::NoOrder { at, .. } => AllOrders::Stop(at),
                Finding::GaveUp { at } => AllOrders::GaveUp(at),
            },
        ))
    }
}

/// Writes the line of an answer, a line feed and its reasons: the status of the answer.
pub(crate) fn tell_explanation<W: Output>(
    alloc: Global,
    explanation: Explanation,
    out: &mut W,
) -> Result<u8, RunFault>
    requires coded { IfOk explanation.answer IsCoded }
    requires unbroken { W.is_broken out.old ≡ false }
    ensures told { IfOk result (IsExplanationTold explanation.answer (W.written out.old) (W.written out.new)) }
    ensures answered { OnOk result (explanation.answer ≢ Err AuditError.Memory) }
    ensures memory { IsErrOf result RunFault.Memory → Keeps (W.written out.old) (W.written out.new) }
    ensures read { IsErrOf result RunFault.Read → ⊥ }
    ensures write { IsErrOf result RunFault.Write ↔ (W.is_broken out.new ≡ true) }
{
    let Explanation {
        answer,
        reasons,
        ..
    } = explanation;
    let (mut line, status) = line_and_status(alloc, answer)?;
    line.push('\n')?;
    tell_with_reasons(&line, status, &reasons, out)
}

/// Writes lines and the reasons behind them: the number of the status.
pub(crate) fn tell_with_reasons<W: Output>(
    lines: &str,
    status: Status,
    reasons: &Text,
    out: &mut W,
) -> Result<u8, RunFault>
    requires unbroken { W.is_broken out.old ≡ false }
    ensures told { IfOk result (IsWrittenWithReasons lines.now (status_number status) (W.written out.old) (W.written out.new)) }
    ensures memory { IsErrOf result RunFault.Memory → ⊥ }
    ensures read { IsErrOf result RunFault.Read → ⊥ }
    ensures write { IsErrOf result RunFault.Write ↔ (W.is_broken out.new ≡ true) }
{
    out.put(lines.as_bytes())?;
    out.put(reasons.as_bytes())?;
    Ok(status.number())
}

/// Reads the capture, and tells what is answered of it and of the order that is proposed, from an empty root, and why.
fn explain_proposal_on_empty_root<R: Input, W: Output>(
    alloc: Global,
    seed: Seed,
    capture: &mut R,
    out: &mut W,
) -> Result<u8, RunFault>
    requires capture_unfailed { R.has_failed capture.old ≡ false }
    requires capture_uninterrupted { R.was_interrupted capture.old ≡ false }
    requires unbroken { W.is_broken out.old ≡ false }
    ensures told { IfOk result (IsExplainedFrom (R.remaining capture.old) (λ read. read ≡ None) (λ read. read ≡ None)
        (W.written out.old) (W.written out.new)) }
    ensures end { OnOk result (IsAtEnd (R.remaining capture.new)) }
    ensures read { IsErrOf result RunFault.Read →
        IsUnread MAX_CAPTURE_INPUT_BYTES (R.remaining capture.old) (R.has_failed capture.new) (R.was_interrupted capture.new) }
    ensures failed { (R.has_failed capture.new ≡ true) → IsErrOf result RunFault.Read }
    ensures write { IsErrOf result RunFault.Write ↔ (W.is_broken out.new ≡ true) }
    ensures unread { IsErrOf result RunFault.Read → Keeps (W.written out.old) (W.written out.new) }
    ensures refused { IsErrOf result RunFault.Memory → Keeps (W.written out.old) (W.written out.new) }
{
    let capture = input_bytes(alloc, capture, MAX_CAPTURE_INPUT_BYTES)?;
    let explanation = explain(alloc, seed, &capture, None, None)?;
    tell_explanation(alloc, explanation, out)
}

/// Reads the capture and then the tree, and tells what is answered of them and of the order that is proposed, and why.
fn explain_proposal_on_tree<R: Input, W: Output>(
    alloc: Global,
    seed: Seed,
    capture: &mut R,
    tree: &mut R,
    out: &mut W,
) -> Result<u8, RunFault>
    requires capture_unfailed { R.has_failed capture.old ≡ false }
    requires capture_uninterrupted { R.was_interrupted capture.old ≡ false }
    requires tree_unfailed { R.has_failed tree.old ≡ false }
    requires tree_uninterrupted { R.was_interrupted tree.old ≡ false }
    requires unbroken { W.is_broken out.old ≡ false }
    ensures told { IfOk result (IsExplainedFrom (R.remaining capture.old) (IsSomeRead (R.remaining tree.old)) (λ read. read ≡ None)
        (W.written out.old) (W.written out.new)) }
    ensures end { OnOk result (IsAtEnd (R.remaining capture.new) × IsAtEnd (R.remaining tree.new)) }
    ensures capture_first { R.has_failed capture.new ≡ true → (tree.new ≡ tree.old) }
    ensures read { IsErrOf result RunFault.Read →
        IsUnread MAX_CAPTURE_INPUT_BYTES (R.remaining capture.old) (R.has_failed capture.new) (R.was_interrupted capture.new)
        ⊎ IsUnread MAX_TEXT_INPUT_BYTES (R.remaining tree.old) (R.has_failed tree.new) (R.was_interrupted tree.new) }
    ensures failed { (R.has_failed capture.new ≡ true) ⊎ (R.has_failed tree.new ≡ true) → IsErrOf result RunFault.Read }
    ensures write { IsErrOf result RunFault.Write ↔ (W.is_broken out.new ≡ true) }
    ensures unread { IsErrOf result RunFault.Read → Keeps (W.written out.old) (W.written out.new) }
    ensures refused { IsErrOf result RunFault.Memory → Keeps (W.written out.old) (W.written out.new) }
{
    let capture = input_bytes(alloc, capture, MAX_CAPTURE_INPUT_BYTES)?;
    let tree = input_bytes(alloc, tree, MAX_TEXT_INPUT_BYTES)?;
    let explanation = explain(alloc, seed, &capture, Some(&tree), None)?;
    tell_explanation(alloc, explanation, out)
}

/// Reads the capture and then the order, and tells what is answered of them from an empty root, and why.
fn explain_order_on_empty_root<R: Input, W: Output>(
    alloc: Global,
    seed: Seed,
    capture: &mut R,
    order: &mut R,
    out: &mut W,
) -> Result<u8, RunFault>
    requires capture_unfailed { R.has_failed capture.old ≡ false }
    requires capture_uninterrupted { R.was_interrupted capture.old ≡ false }
    requires order_unfailed { R.has_failed order.old ≡ false }
    requires order_uninterrupted { R.was_interrupted order.old ≡ false }
    requires unbroken { W.is_broken out.old ≡ false }
    ensures told { IfOk result (IsExplainedFrom (R.remaining capture.old) (λ read. read ≡ None) (IsSomeRead (R.remaining order.old))
        (W.written out.old) (W.written out.new)) }
    ensures end { OnOk result (IsAtEnd (R.remaining capture.new) × IsAtEnd (R.remaining order.new)) }
    ensures capture_first { R.has_failed capture.new ≡ true → (order.new ≡ order.old) }
    ensures read { IsErrOf result RunFault.Read →
        IsUnread MAX_CAPTURE_INPUT_BYTES (R.remaining capture.old) (R.has_failed capture.new) (R.was_interrupted capture.new)
        ⊎ IsUnread MAX_TEXT_INPUT_BYTES (R.remaining order.old) (R.has_failed order.new) (R.was_interrupted order.new) }
    ensures failed { (R.has_failed capture.new ≡ true) ⊎ (R.has_failed order.new ≡ true) → IsErrOf result RunFault.Read }
    ensures write { IsErrOf result RunFault.Write ↔ (W.is_broken out.new ≡ true) }
    ensures unread { IsErrOf result RunFault.Read → Keeps (W.written out.old) (W.written out.new) }
    ensures refused { IsErrOf result RunFault.Memory → Keeps (W.written out.old) (W.written out.new) }
{
    let capture = input_bytes(alloc, capture, MAX_CAPTURE_INPUT_BYTES)?;
    let order = input_bytes(alloc, order, MAX_TEXT_INPUT_BYTES)?;
    let explanation = explain(alloc, seed, &capture, None, Some(&order))?;
    tell_explanation(alloc, explanation, out)
}

/// Reads the capture, the tree and then the order, and tells what is answered of them, and why.
fn explain_order_on_tree<R: Input, W: Output>(
    alloc: Global,
    seed: Seed,
    capture: &mut R,
    tree: &mut R,
    order: &mut R,
    out: &mut W,
) -> Result<u8, RunFault>
    requires capture_unfailed { R.has_failed capture.old ≡ false }
    requires capture_uninterrupted { R.was_interrupted capture.old ≡ false }
    requires tree_unfailed { R.has_failed tree.old ≡ false }
    requires tree_uninterrupted { R.was_interrupted tree.old ≡ false }
    requires order_unfailed { R.has_failed order.old ≡ false }
    requires order_uninterrupted { R.was_interrupted order.old ≡ false }
    requires unbroken { W.is_broken out.old ≡ false }
    ensures told { IfOk result (IsExplainedFrom (R.remaining capture.old) (IsSomeRead (R.remaining tree.old)) (IsSomeRead (R.remaining order.old))
        (W.written out.old) (W.written out.new)) }
    ensures end { OnOk result (IsAtEnd (R.remaining capture.new) × IsAtEnd (R.remaining tree.new) × IsAtEnd (R.remaining order.new)) }
    ensures capture_first { R.has_failed capture.new ≡ true → (tree.new ≡ tree.old) × (order.new ≡ order.old) }
    ensures tree_first { R.has_failed tree.new ≡ true → order.new ≡ order.old }
    ensures read { IsErrOf result RunFault.Read →
        IsUnread MAX_CAPTURE_INPUT_BYTES (R.remaining capture.old) (R.has_failed capture.new) (R.was_interrupted capture.new)
        ⊎ IsUnread MAX_TEXT_INPUT_BYTES (R.remaining tree.old) (R.has_failed tree.new) (R.was_interrupted tree.new)
        ⊎ IsUnread MAX_TEXT_INPUT_BYTES (R.remaining order.old) (R.has_failed order.new) (R.was_interrupted order.new) }
    ensures failed { (R.has_failed capture.new ≡ true) ⊎ (R.has_failed tree.new ≡ true) ⊎ (R.has_failed order.new ≡ true) → IsErrOf result RunFault.Read }
    ensures write { IsErrOf result RunFault.Write ↔ (W.is_broken out.new ≡ true) }
    ensures unread { IsErrOf result RunFault.Read → Keeps (W.written out.old) (W.written out.new) }
    ensures refused { IsErrOf result RunFault.Memory → Keeps (W.written out.old) (W.written out.new) }
{
    let capture = input_bytes(alloc, capture, MAX_CAPTURE_INPUT_BYTES)?;
    let tree = input_bytes(alloc, tree, MAX_TEXT_INPUT_BYTES)?;
    let order = input_bytes(alloc, order, MAX_TEXT_INPUT_BYTES)?;
    let explanation = explain(alloc, seed, &capture, Some(&tree), Some(&order))?;
    tell_explanation(alloc, explanation, out)
}

/// Says why the audit answers as it does: reads the capture, the tree if one is handed in, and the order if one is, and writes the line of
/// the audit's answer and the lines of its reasons: the status of the answer.
///
/// Where no order is handed in it is the one that is proposed. The line and the statuses are those of [`run`](fa_audit::run), of a capture of
/// at most [`MAX_CAPTURE_INPUT_BYTES`] bytes. All inputs are read to their ends before anything is judged. What is written behind the line is
/// printing ASCII and line feeds alone, whatever the capture holds; what it says, and that there is anything, no clause says. Line and
/// reasons are two puts. Tables are hashed with the seed. No mark of an input or of the output is set at the call.
///
/// Which bytes were read and written is said where the inputs and the output tell their bytes, as those over memory do. Files and
/// standard output do not: of a call on them it is said alone that the status is that of an answer on some bytes.
///
/// # Errors
///
/// - [`RunFault::Read`] where an input failed, did not come to its end, or has more than [`MAX_CAPTURE_INPUT_BYTES`] bytes or, of a text,
///   [`MAX_TEXT_INPUT_BYTES`].
/// - [`RunFault::Write`] where the output did not take all.
/// - [`RunFault::Memory`] where memory was refused.
///
/// Nothing was written at `Read` and `Memory`, where the output tells its bytes. At `Write` nothing is said of what went out.
///
/// # Cost
///
/// That of [`read_all`](fa_capture::read_all) for each input, and of [`explain`].
pub fn run_explain<R: Input, W: Output>(
    alloc: Global,
    seed: Seed,
    capture: &mut R,
    tree: Option<&mut R>,
    order: Option<&mut R>,
    out: &mut W,
) -> Result<u8, RunFault>
    requires capture_unfailed { R.has_failed capture.old ≡ false }
    requires capture_uninterrupted { R.was_interrupted capture.old ≡ false }
    requires tree_unfailed { IfSome tree (λ r. R.has_failed r.now ≡ false) }
    requires tree_uninterrupted { IfSome tree (λ r. R.was_interrupted r.now ≡ false) }
    requires order_unfailed { IfSome order (λ r. R.has_failed r.now ≡ false) }
    requires order_uninterrupted { IfSome order (λ r. R.was_interrupted r.now ≡ false) }
    requires unbroken { W.is_broken out.old ≡ false }

    // The line of the audit's answer on the bytes that were read, and its reasons behind it.
    ensures told { IfOk result (IsExplainedFrom (R.remaining capture.old) (IsReadIfAny R.remaining tree.entry) (IsReadIfAny R.remaining order.entry)
        (W.written out.old) (W.written out.new)) }

    // Each input is read to its end.
    ensures end { OnOk result (IsAtEnd (R.remaining capture.new)
        × IfHandedIn tree.entry tree.exit (λ old new. IsAtEnd (R.remaining new))
        × IfHandedIn order.entry order.exit (λ old new. IsAtEnd (R.remaining new))) }

    // The tree is read after the capture, and the order after both.
    ensures capture_first { R.has_failed capture.new ≡ true →
        IfHandedIn tree.entry tree.exit (λ old new. new ≡ old) × IfHandedIn order.entry order.exit (λ old new. new ≡ old) }
    ensures tree_first { IsHandedIn tree.entry tree.exit (λ old new. R.has_failed new ≡ true) →
        IfHandedIn order.entry order.exit (λ old new. new ≡ old) }

    // When each fault comes.
    ensures read { IsErrOf result RunFault.Read →
        IsUnread MAX_CAPTURE_INPUT_BYTES (R.remaining capture.old) (R.has_failed capture.new) (R.was_interrupted capture.new)
        ⊎ IsHandedIn tree.entry tree.exit (λ old new. IsUnread MAX_TEXT_INPUT_BYTES (R.remaining old) (R.has_failed new) (R.was_interrupted new))
        ⊎ IsHandedIn order.entry order.exit (λ old new. IsUnread MAX_TEXT_INPUT_BYTES (R.remaining old) (R.has_failed new) (R.was_interrupted new)) }
    ensures failed { (R.has_failed capture.new ≡ true) ⊎ IsHandedIn tree.entry tree.exit (λ old new. R.has_failed new ≡ true)
        ⊎ IsHandedIn order.entry order.exit (λ old new. R.has_failed new ≡ true) → IsErrOf result RunFault.Read }
    ensures write { IsErrOf result RunFault.Write ↔ (W.is_broken out.new ≡ true) }

    // Nothing was written.
    ensures unread { IsErrOf result RunFault.Read → Keeps (W.written out.old) (W.written out.new) }
    ensures refused { IsErrOf result RunFault.Memory → Keeps (W.written out.old) (W.written out.new) }
{
    let Some(tree) = tree else {
        return match order {
            None => explain_proposal_on_empty_root(alloc, seed, capture, out),
            Some(order) => explain_order_on_empty_root(alloc, seed, capture, order, out),
        };
    };
    let Some(order) = order else {
        return explain_proposal_on_tree(alloc, seed, capture, tree, out);
    };
    explain_order_on_tree(alloc, seed, capture, tree, order, out)
}
