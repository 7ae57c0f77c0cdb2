//! From an answer on an order to its picture or its report.

ghost use Rattle.std.specs.Prelude.{◌≡◌, ◌≤◌, ◌↔◌, ◌⊎◌, false, true, None, Ok, length, IfOk, IfSome, OnOk, IsErrOf};
ghost use Rattle.std.specs.Option.{option_copied};
ghost use Rattle.std.specs.Io.KnownBytes.{IsAtEnd, Keeps};
ghost use Rattle.fa_order.specs.declared.lines.TheConstants.{MAX_TEXT_BYTES};
ghost use Rattle.fa_audit.specs.Line.{answer_status};
ghost use Rattle.fa_reasons.specs.Pages.{IsPageOf, IsPageFrom, page_status};
ghost use Rattle.fa_audit.specs.Run.{IfHandedIn, IsHandedIn, IsReadIfAny, IsSomeRead, IsUnread};
ghost use Rattle.fa_audit.specs.Status.{status_number};
ghost use Rattle.fa_audit.specs.declared.running.TheConstants.{MAX_CAPTURE_INPUT_BYTES, MAX_TEXT_INPUT_BYTES};

use crate::explaining::{Explanation, explain, tell_explanation};
use crate::pages::{ReportView, fault_of, tell_text};
use fa_audit::{
    MAX_CAPTURE_INPUT_BYTES, MAX_TEXT_INPUT_BYTES, RunFault, Status, entries_of, input_bytes,
    line_and_status,
};
use fa_capture::{Input, Output, Seed, read_capture};
use fa_check::Verdict;
use fa_order::Entry;
use fa_picture::{Findings, Outcome, Subject, View, picture, report};
use fa_show::Text;
use std::alloc::{AllocError, Global};

/// What is made of an answer on an order.
#[derive(Clone, Copy)]
pub enum OrderPage<'t> {
    /// A picture, which is no verdict.
    Picture(View),
    /// A report, which is one.
    Report(ReportView<'t>),
}

impl OrderPage<'_> {
    /// The status for a verdict that has this one.
    fn status(&self, verdict: Verdict, status: Status) -> Status
        requires { status_number status ≡ answer_status (Ok verdict) }
        ensures { status_number result ≡ page_status self.now verdict }
    {
        match self {
            OrderPage::Picture(_) => Status::Legal,
            OrderPage::Report(_) => status,
        }
    }

    /// The page for a verdict with this line.
    fn text(
        &self,
        alloc: Global,
        subject: &Subject<'_, '_>,
        line: &str,
        explanation: &Explanation,
    ) -> Result<Text, AllocError> {
        match self {
            OrderPage::Picture(view) => picture(alloc, subject, Some(line), *view),
            OrderPage::Report(shown) => {
                let findings = Findings {
                    outcome: Outcome::of(subject.fault, explanation.is_without_order),
                    verdict: line,
                    reasons: &explanation.reasons,
                    source: shown.source,
                };
                report(alloc, subject, findings, shown.messages)
            }
        }
    }
}

/// The entries of the order that was judged; none, where the capture is at fault, since then it was not.
fn judged_entries(alloc: Global, order: &[u8], verdict: Verdict) -> Result<Vec<Entry>, AllocError>
    requires { length order.now ≤ MAX_TEXT_BYTES }
{
    match verdict {
        Verdict::Legal { .. } | Verdict::NotShown { .. } => {
            entries_of(alloc, order).map_err(|_| AllocError)
        }
        Verdict::Fault { .. } => Ok(Vec::new(alloc)),
    }
}

/// Audits an order, and writes the page of the answer: its status.
fn tell_page<W: Output>(
    alloc: Global,
    seed: Seed,
    capture: &[u8],
    tree: Option<&[u8]>,
    order: &[u8],
    page: &OrderPage<'_>,
    out: &mut W,
) -> Result<u8, RunFault>
    requires tree_text { IfSome (option_copied tree) (λ text. length text ≤ MAX_TEXT_BYTES) }
    requires order_text { length order.now ≤ MAX_TEXT_BYTES }
    requires unbroken { W.is_broken out.old ≡ false }
    ensures told { IfOk result (IsPageOf page.now capture.now (option_copied tree.entry) order.now (W.written out.old) (W.written out.new)) }
    ensures memory { IsErrOf result RunFault.Memory → Keeps (W.written out.old) (W.written out.new) }
    ensures read { IsErrOf result RunFault.Read → ⊥ }
    ensures write { IsErrOf result RunFault.Write ↔ (W.is_broken out.new ≡ true) }
{
    let explanation = explain(alloc, seed, capture, tree, Some(order))?;
    let Ok(verdict) = explanation.answer else {
        return tell_explanation(alloc, explanation, out);
    };
    let (line, status) = line_and_status(alloc, Ok(verdict))?;
    let entries = judged_entries(alloc, order, verdict)?;
    let subject = Subject {
        capture: read_capture(capture).with_seed(seed),
        order: &entries,
        fault: fault_of(verdict),
    };
    let text = page.text(alloc, &subject, &line, &explanation)?;
    tell_text(&text, page.status(verdict, status), out)
}

/// Reads the capture and then the order, and writes the page of the answer from an empty root.
fn page_on_empty_root<R: Input, W: Output>(
    alloc: Global,
    seed: Seed,
    capture: &mut R,
    order: &mut R,
    page: &OrderPage<'_>,
    out: &mut W,
) -> Result<u8, RunFault>
    requires capture_unfailed { R.has_failed capture.old ≡ false }
    requires capture_uninterrupted { R.was_interrupted capture.old ≡ false }
    requires order_unfailed { R.has_failed order.old ≡ false }
    requires order_uninterrupted { R.was_interrupted order.old ≡ false }
    requires unbroken { W.is_broken out.old ≡ false }
    ensures told { IfOk result (IsPageFrom page.now (R.remaining capture.old) (λ read. read ≡ None) (R.remaining order.old)
        (W.written out.old) (W.written out.new)) }
    ensures end { OnOk result (IsAtEnd (R.remaining capture.new) × IsAtEnd (R.remaining order.new)) }
    ensures capture_first { R.has_failed capture.new ≡ true → order.new ≡ order.old }
    ensures read { IsErrOf result RunFault.Read →
        IsUnread MAX_CAPTURE_INPUT_BYTES (R.remaining capture.old) (R.has_failed capture.new) (R.was_interrupted capture.new)
        ⊎ IsUnread MAX_TEXT_INPUT_BYTES (R.remaining order.old) (R.has_failed order.new) (R.was_interrupted order.new) }
    ensures failed { (R.has_failed capture.new ≡ true) ⊎ (R.has_failed order.new ≡ true) → IsErrOf result RunFault.Read }
    ensures write { IsErrOf result RunFault.Write ↔ (W.is_broken out.new ≡ true) }
    ensures unread { IsErrOf result RunFault.Read → Keeps (W.written out.old) (W.written out.new) }
    ensures refused { IsErrOf result RunFault.Memory → Keeps (W.written out.old) (W.written out.new) }
{
    let capture = input_bytes(alloc, capture, MAX_CAPTURE_INPUT_BYTES)?;
    let order = input_bytes(alloc, order, MAX_TEXT_INPUT_BYTES)?;
    tell_page(alloc, seed, &capture, None, &order, page, out)
}

/// Reads the capture, the tree and then the order, and writes the page of the answer.
fn page_on_tree<R: Input, W: Output>(
    alloc: Global,
    seed: Seed,
    capture: &mut R,
    tree: &mut R,
    order: &mut R,
    page: &OrderPage<'_>,
    out: &mut W,
) -> Result<u8, RunFault>
    requires capture_unfailed { R.has_failed capture.old ≡ false }
    requires capture_uninterrupted { R.was_interrupted capture.old ≡ false }
    requires tree_unfailed { R.has_failed tree.old ≡ false }
    requires tree_uninterrupted { R.was_interrupted tree.old ≡ false }
    requires order_unfailed { R.has_failed order.old ≡ false }
    requires order_uninterrupted { R.was_interrupted order.old ≡ false }
    requires unbroken { W.is_broken out.old ≡ false }
    ensures told { IfOk result (IsPageFrom page.now (R.remaining capture.old) (IsSomeRead (R.remaining tree.old)) (R.remaining order.old)
        (W.written out.old) (W.written out.new)) }
    ensures end { OnOk result (IsAtEnd (R.remaining capture.new) × IsAtEnd (R.remaining tree.new) × IsAtEnd (R.remaining order.new)) }
    ensures capture_first { R.has_failed capture.new ≡ true → (tree.new ≡ tree.old) × (order.new ≡ order.old) }
    ensures tree_first { R.has_failed tree.new ≡ true → order.new ≡ order.old }
    ensures read { IsErrOf result RunFault.Read →
        IsUnread MAX_CAPTURE_INPUT_BYTES (R.remaining capture.old) (R.has_failed capture.new) (R.was_interrupted capture.new)
        ⊎ IsUnread MAX_TEXT_INPUT_BYTES (R.remaining tree.old) (R.has_failed tree.new) (R.was_interrupted tree.new)
        ⊎ IsUnread MAX_TEXT_INPUT_BYTES (R.remaining order.old) (R.has_failed order.new) (R.was_interrupted order.new) }
    ensures failed { (R.has_failed capture.new ≡ true) ⊎ (R.has_failed tree.new ≡ true) ⊎ (R.has_failed order.new ≡ true) → IsErrOf result RunFault.Read }
    ensures write { IsErrOf result RunFault.Write ↔ (W.is_broken out.new ≡ true) }
    ensures unread { IsErrOf result RunFault.Read → Keeps (W.written out.old) (W.written out.new) }
    ensures refused { IsErrOf result RunFault.Memory → Keeps (W.written out.old) (W.written out.new) }
{
    let capture = input_bytes(alloc, capture, MAX_CAPTURE_INPUT_BYTES)?;
    let tree = input_bytes(alloc, tree, MAX_TEXT_INPUT_BYTES)?;
    let order = input_bytes(alloc, order, MAX_TEXT_INPUT_BYTES)?;
    tell_page(alloc, seed, &capture, Some(&tree), &order, page, out)
}

/// Audits an order, and writes the picture or the report of its answer: reads the capture, the tree if one is handed in, and the order, and
/// writes the text: of a report the status of the answer, of a picture 0, since it is no verdict.
///
/// The answer is that of [`run`](fa_audit::run), of a capture of at most [`MAX_CAPTURE_INPUT_BYTES`] bytes. The picture is that of
/// [`picture`] with the order, if that was judged, and the report is that of [`report`], with the reasons of [`explain`]. Where a text is not
/// in its grammar there is none: what [`run_explain`](crate::run_explain) writes stands in its place, with the status of the answer. All
/// inputs are read to their ends before anything is judged. What is written is printing ASCII and line feeds alone, whatever the capture
/// holds; what a page says, and that there is anything, no clause says. Tables are hashed with the seed. No mark of an input or of the output
/// is set at the call.
///
/// Which bytes were read and written is said where the inputs and the output tell their bytes, as those over memory do. Files and
/// standard output do not: of a call on them it is said alone that the status is due to an answer on some bytes.
///
/// # Errors
///
/// - [`RunFault::Read`] where an input failed, did not come to its end, or has more than [`MAX_CAPTURE_INPUT_BYTES`] bytes or, of a text,
///   [`MAX_TEXT_INPUT_BYTES`].
/// - [`RunFault::Write`] where the output did not take all.
/// - [`RunFault::Memory`] where memory was refused.
///
/// Nothing was written at `Read` and `Memory`, where the output tells its bytes. At `Write` nothing is said of what went out.
///
/// # Cost
///
/// That of [`read_all`](fa_capture::read_all) for each input, of [`explain`], and of [`picture`] or [`report`].
pub fn run_order_page<R: Input, W: Output>(
    alloc: Global,
    seed: Seed,
    capture: &mut R,
    tree: Option<&mut R>,
    order: &mut R,
    page: &OrderPage<'_>,
    out: &mut W,
) -> Result<u8, RunFault>
    requires capture_unfailed { R.has_failed capture.old ≡ false }
    requires capture_uninterrupted { R.was_interrupted capture.old ≡ false }
    requires tree_unfailed { IfSome tree (λ r. R.has_failed r.now ≡ false) }
    requires tree_uninterrupted { IfSome tree (λ r. R.was_interrupted r.now ≡ false) }
    requires order_unfailed { R.has_failed order.old ≡ false }
    requires order_uninterrupted { R.was_interrupted order.old ≡ false }
    requires unbroken { W.is_broken out.old ≡ false }

    // A page of printing bytes, with the status that is due to the audit's answer on the bytes that were read.
    ensures told { IfOk result (IsPageFrom page.now (R.remaining capture.old) (IsReadIfAny R.remaining tree.entry) (R.remaining order.old)
        (W.written out.old) (W.written out.new)) }

    // Each input is read to its end.
    ensures end { OnOk result (IsAtEnd (R.remaining capture.new)
        × IfHandedIn tree.entry tree.exit (λ old new. IsAtEnd (R.remaining new))
        × IsAtEnd (R.remaining order.new)) }

    // The tree is read after the capture, and the order after both.
    ensures capture_first { R.has_failed capture.new ≡ true →
        IfHandedIn tree.entry tree.exit (λ old new. new ≡ old) × (order.new ≡ order.old) }
    ensures tree_first { IsHandedIn tree.entry tree.exit (λ old new. R.has_failed new ≡ true) → order.new ≡ order.old }

    // When each fault comes.
    ensures read { IsErrOf result RunFault.Read →
        IsUnread MAX_CAPTURE_INPUT_BYTES (R.remaining capture.old) (R.has_failed capture.new) (R.was_interrupted capture.new)
        ⊎ IsHandedIn tree.entry tree.exit (λ old new. IsUnread MAX_TEXT_INPUT_BYTES (R.remaining old) (R.has_failed new) (R.was_interrupted new))
        ⊎ IsUnread MAX_TEXT_INPUT_BYTES (R.remaining order.old) (R.has_failed order.new) (R.was_interrupted order.new) }
    ensures failed { (R.has_failed capture.new ≡ true) ⊎ IsHandedIn tree.entry tree.exit (λ old new. R.has_failed new ≡ true)
        ⊎ (R.has_failed order.new ≡ true) → IsErrOf result RunFault.Read }
    ensures write { IsErrOf result RunFault.Write ↔ (W.is_broken out.new ≡ true) }

    // Nothing was written.
    ensures unread { IsErrOf result RunFault.Read → Keeps (W.written out.old) (W.written out.new) }
    ensures refused { IsErrOf result RunFault.Memory → Keeps (W.written out.old) (W.written out.new) }
{
    match tree {
        None => page_on_empty_root(alloc, seed, capture, order, page, out),
        Some(tree) => page_on_tree(alloc, seed, capture, tree, order, page, out),
    }
}
