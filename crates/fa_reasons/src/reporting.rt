//! From what is judged by a search of all orders to its report.

ghost use Rattle.std.specs.Prelude.{◌≡◌, ◌≤◌, ◌↔◌, ◌⊎◌, false, true, None, Err, length, IfOk, IfSome, OnOk, IsErrOf};
ghost use Rattle.std.specs.Option.{option_copied};
ghost use Rattle.std.specs.Io.KnownBytes.{IsAtEnd, Keeps};
ghost use Rattle.fa_order.specs.declared.lines.TheConstants.{MAX_TEXT_BYTES};
ghost use Rattle.fa_audit.specs.Line.{IsCoded, IsCodedJudgement, judgement_status};
ghost use Rattle.fa_audit.specs.Searched.{judgement_of};
ghost use Rattle.fa_reasons.specs.Pages.{IsReportOf, IsReportTold, IsReportFrom};
ghost use Rattle.fa_audit.specs.Proposed.{answer_of};
ghost use Rattle.fa_audit.specs.Showing.{IsPrintingWritten};
ghost use Rattle.fa_audit.specs.Status.{status_number};
ghost use Rattle.fa_audit.specs.declared.status.Status.TheVariants as status;
ghost use Rattle.fa_audit.specs.Run.{IfHandedIn, IsHandedIn, IsReadIfAny, IsSomeRead, IsUnread};
ghost use Rattle.fa_audit.specs.declared.running.TheConstants.{MAX_CAPTURE_INPUT_BYTES, MAX_TEXT_INPUT_BYTES};

use crate::explaining_judgement::{ExplainedJudgement, explain_judgement, tell_explained};
use crate::pages::{ReportView, fault_of, tell_text, write_lines};
use fa_audit::{
    Judgement, MAX_CAPTURE_INPUT_BYTES, MAX_TEXT_INPUT_BYTES, RunFault, StartError, Status,
    input_bytes, judged_line_and_status, judgement_of, shortest_text, verdict_text,
};
use fa_capture::{Capture, Input, Output, Seed, read_capture};
use fa_check::Verdict;
use fa_order::Entry;
use fa_picture::{Exchanges, Fault, Findings, Outcome, Subject, View, report};
use fa_search::{Budget, Listener};
use fa_show::Text;
use std::alloc::{AllocError, Global};

/// What stands in front of the line that tells how many of the first messages alone have no order.
const SHORTEST: &str = "shortest ";

/// What is told of what was judged.
#[derive(Clone, Copy)]
struct Told<'t> {
    line: &'t str,
    reasons: &'t Text,
    shown: ReportView<'t>,
}

impl Told<'_> {
    /// The report on a capture of which this is judged, with these entries.
    fn judged(
        &self,
        alloc: Global,
        capture: Capture<'_>,
        entries: &[Entry],
        judgement: Judgement,
    ) -> Result<Text, AllocError> {
        let mut subject = Subject {
            capture,
            order: entries,
            fault: Fault::Nothing,
        };
        match judgement {
            Judgement::Legal { .. } => self.report(alloc, &subject, Outcome::Legal),
            Judgement::GaveUp { at } => self.around(at).report(alloc, &subject, Outcome::Open),
            Judgement::NoOrder { at, code, shortest } => {
                subject.fault = stop(alloc, &subject, at, code)?;
                self.around(at).without_order(alloc, &subject, shortest)
            }
        }
    }

    /// The report on a capture with this fault.
    fn faulty(
        &self,
        alloc: Global,
        capture: Capture<'_>,
        fault: Verdict,
    ) -> Result<Text, AllocError> {
        let subject = Subject {
            capture,
            order: &[],
            fault: fault_of(fault),
        };
        self.report(alloc, &subject, Outcome::Fault)
    }

    /// The same, around this message where none is asked for.
    fn around(&self, at: u32) -> Self {
        let asked = self.shown.messages;
        let messages = View {
            around: asked.around.or(Some(at)),
            ..asked
        };
        Told {
            shown: ReportView {
                messages,
                ..self.shown
            },
            ..*self
        }
    }

    /// The report.
    fn report(
        &self,
        alloc: Global,
        subject: &Subject<'_, '_>,
        outcome: Outcome,
    ) -> Result<Text, AllocError> {
        let findings = Findings {
            outcome,
            verdict: self.line,
            reasons: self.reasons,
            source: self.shown.source,
        };
        report(alloc, subject, findings, self.shown.messages)
    }

    /// The report on a capture that no order explains, of which so many first messages alone have none, if that is told.
    fn without_order(
        &self,
        alloc: Global,
        subject: &Subject<'_, '_>,
        shortest: Option<u32>,
    ) -> Result<Text, AllocError> {
        let Some(messages) = shortest else {
            return self.report(alloc, subject, Outcome::Fault);
        };
        let reasons = reasons_with_shortest(alloc, self.reasons, messages)?;
        let told = Told {
            reasons: &reasons,
            ..*self
        };
        told.report(alloc, subject, Outcome::Fault)
    }
}

/// Writes the report on a capture of which this is judged: the status of what is judged.
fn tell_judged<W: Output>(
    alloc: Global,
    capture: Capture<'_>,
    explained: &ExplainedJudgement,
    judgement: Judgement,
    shown: ReportView<'_>,
    out: &mut W,
) -> Result<u8, RunFault>
    requires coded { IsCodedJudgement judgement }
    requires unbroken { W.is_broken out.old ≡ false }
    ensures told { IfOk result (IsPrintingWritten (judgement_status judgement) (W.written out.old) (W.written out.new)) }
    ensures memory { IsErrOf result RunFault.Memory → Keeps (W.written out.old) (W.written out.new) }
    ensures read { IsErrOf result RunFault.Read → ⊥ }
    ensures write { IsErrOf result RunFault.Write ↔ (W.is_broken out.new ≡ true) }
{
    let (line, status) = judged_line_and_status(alloc, Ok(judgement))?;
    let told = Told {
        line: &line,
        reasons: &explained.reasons,
        shown,
    };
    let text = told.judged(alloc, capture, explained.shown_entries(), judgement)?;
    tell_text(&text, status, out)
}

/// Writes the report on a capture with this fault: the status of the fault.
fn tell_faulty<W: Output>(
    alloc: Global,
    capture: Capture<'_>,
    explained: &ExplainedJudgement,
    fault: Verdict,
    shown: ReportView<'_>,
    out: &mut W,
) -> Result<u8, RunFault>
    requires coded { IsCoded fault }
    requires unbroken { W.is_broken out.old ≡ false }
    ensures told { IfOk result (IsPrintingWritten (status_number status.Fault) (W.written out.old) (W.written out.new)) }
    ensures memory { IsErrOf result RunFault.Memory → Keeps (W.written out.old) (W.written out.new) }
    ensures read { IsErrOf result RunFault.Read → ⊥ }
    ensures write { IsErrOf result RunFault.Write ↔ (W.is_broken out.new ≡ true) }
{
    let line = verdict_text(alloc, &fault)?;
    let told = Told {
        line: &line,
        reasons: &explained.reasons,
        shown,
    };
    let text = told.faulty(alloc, capture, fault)?;
    tell_text(&text, Status::Fault, out)
}

/// Writes the report where there is no start for an order: the status of the answer that says so.
fn tell_no_start<W: Output>(
    alloc: Global,
    capture: Capture<'_>,
    explained: &ExplainedJudgement,
    error: StartError,
    shown: ReportView<'_>,
    out: &mut W,
) -> Result<u8, RunFault>
    requires is { judgement_of explained.now.decision ≡ Err error }
    requires coded { IfOk (answer_of error) IsCoded }
    requires unbroken { W.is_broken out.old ≡ false }
    ensures told { IfOk result (IsReportTold (Err error) (W.written out.old) (W.written out.new)) }
    ensures memory { IsErrOf result RunFault.Memory → Keeps (W.written out.old) (W.written out.new) }
    ensures read { IsErrOf result RunFault.Read → ⊥ }
    ensures write { IsErrOf result RunFault.Write ↔ (W.is_broken out.new ≡ true) }
{
    match error {
        StartError::Fault { at, code } => {
            let fault = Verdict::Fault { at, code };
            tell_faulty(alloc, capture, explained, fault, shown, out)
        }
        StartError::TreeText { .. } => tell_explained(alloc, explained, out),
        StartError::Memory => Err(RunFault::Memory),
    }
}

/// Judges a capture, and writes the report on it: the status of the answer.
fn tell_report<L: Listener, W: Output>(
    alloc: Global,
    seed: Seed,
    bytes: &[u8],
    tree: Option<&[u8]>,
    budget: Budget,
    listener: &mut L,
    shown: ReportView<'_>,
    out: &mut W,
) -> Result<u8, RunFault>
    requires tree_text { IfSome (option_copied tree) (λ text. length text ≤ MAX_TEXT_BYTES) }
    requires unbroken { W.is_broken out.old ≡ false }
    ensures told { IfOk result (IsReportOf bytes.now (option_copied tree.entry) (W.written out.old) (W.written out.new)) }
    ensures memory { IsErrOf result RunFault.Memory → Keeps (W.written out.old) (W.written out.new) }
    ensures read { IsErrOf result RunFault.Read → ⊥ }
    ensures write { IsErrOf result RunFault.Write ↔ (W.is_broken out.new ≡ true) }
{
    let explained = explain_judgement(alloc, seed, bytes, tree, budget, listener)?;
    let capture = read_capture(bytes).with_seed(seed);
    match judgement_of(&explained.decision) {
        Ok(judgement) => tell_judged(alloc, capture, &explained, judgement, shown, out),
        Err(error) => tell_no_start(alloc, capture, &explained, error, shown, out),
    }
}

/// What is at fault where no order goes past this reply: its request, behind all entries.
fn stop(
    alloc: Global,
    subject: &Subject<'_, '_>,
    reply: u32,
    code: u16,
) -> Result<Fault, AllocError> {
    let exchanges = Exchanges::of(alloc, &subject.capture, subject.fault)?;
    Ok(Fault::Entry {
        entry: u32::try_from(subject.order.len()).unwrap_or(u32::MAX),
        at: exchanges.partner(reply).unwrap_or(reply),
        code,
    })
}

/// The reasons behind a line that tells how many of the first messages alone have no order.
fn reasons_with_shortest(alloc: Global, reasons: &Text, messages: u32) -> Result<Text, AllocError> {
    let line = shortest_text(alloc, messages)?;
    let room = SHORTEST
        .len()
        .saturating_add(line.len())
        .saturating_add(1)
        .saturating_add(reasons.len());
    let mut text = Text::new(alloc, room, false)?;
    text.word(SHORTEST);
    text.word(&line);
    text.end_line();
    write_lines(&mut text, reasons.as_bytes());
    Ok(text)
}

/// Reads the capture, and writes the report on what is judged on an empty root.
fn reported_on_empty_root<R: Input, L: Listener, W: Output>(
    alloc: Global,
    seed: Seed,
    capture: &mut R,
    budget: Budget,
    listener: &mut L,
    shown: ReportView<'_>,
    out: &mut W,
) -> Result<u8, RunFault>
    requires capture_unfailed { R.has_failed capture.old ≡ false }
    requires capture_uninterrupted { R.was_interrupted capture.old ≡ false }
    requires unbroken { W.is_broken out.old ≡ false }
    ensures told { IfOk result (IsReportFrom (R.remaining capture.old) (λ read. read ≡ None) (W.written out.old) (W.written out.new)) }
    ensures end { OnOk result (IsAtEnd (R.remaining capture.new)) }
    ensures read { IsErrOf result RunFault.Read →
        IsUnread MAX_CAPTURE_INPUT_BYTES (R.remaining capture.old) (R.has_failed capture.new) (R.was_interrupted capture.new) }
    ensures failed { (R.has_failed capture.new ≡ true) → IsErrOf result RunFault.Read }
    ensures write { IsErrOf result RunFault.Write ↔ (W.is_broken out.new ≡ true) }
    ensures unread { IsErrOf result RunFault.Read → Keeps (W.written out.old) (W.written out.new) }
    ensures refused { IsErrOf result RunFault.Memory → Keeps (W.written out.old) (W.written out.new) }
{
    let capture = input_bytes(alloc, capture, MAX_CAPTURE_INPUT_BYTES)?;
    tell_report(alloc, seed, &capture, None, budget, listener, shown, out)
}

/// Reads the capture and then the tree, and writes the report on what is judged on that tree.
fn reported_on_tree<R: Input, L: Listener, W: Output>(
    alloc: Global,
    seed: Seed,
    capture: &mut R,
    tree: &mut R,
    budget: Budget,
    listener: &mut L,
    shown: ReportView<'_>,
    out: &mut W,
) -> Result<u8, RunFault>
    requires capture_unfailed { R.has_failed capture.old ≡ false }
    requires capture_uninterrupted { R.was_interrupted capture.old ≡ false }
    requires tree_unfailed { R.has_failed tree.old ≡ false }
    requires tree_uninterrupted { R.was_interrupted tree.old ≡ false }
    requires unbroken { W.is_broken out.old ≡ false }
    ensures told { IfOk result (IsReportFrom (R.remaining capture.old) (IsSomeRead (R.remaining tree.old)) (W.written out.old) (W.written out.new)) }
    ensures end { OnOk result (IsAtEnd (R.remaining capture.new) × IsAtEnd (R.remaining tree.new)) }
    ensures capture_first { R.has_failed capture.new ≡ true → tree.new ≡ tree.old }
    ensures read { IsErrOf result RunFault.Read →
        IsUnread MAX_CAPTURE_INPUT_BYTES (R.remaining capture.old) (R.has_failed capture.new) (R.was_interrupted capture.new)
        ⊎ IsUnread MAX_TEXT_INPUT_BYTES (R.remaining tree.old) (R.has_failed tree.new) (R.was_interrupted tree.new) }
    ensures failed { (R.has_failed capture.new ≡ true) ⊎ (R.has_failed tree.new ≡ true) → IsErrOf result RunFault.Read }
    ensures write { IsErrOf result RunFault.Write ↔ (W.is_broken out.new ≡ true) }
    ensures unread { IsErrOf result RunFault.Read → Keeps (W.written out.old) (W.written out.new) }
    ensures refused { IsErrOf result RunFault.Memory → Keeps (W.written out.old) (W.written out.new) }
{
    let capture = input_bytes(alloc, capture, MAX_CAPTURE_INPUT_BYTES)?;
    let tree = input_bytes(alloc, tree, MAX_TEXT_INPUT_BYTES)?;
    tell_report(
        alloc,
        seed,
        &capture,
        Some(&tree),
        budget,
        listener,
        shown,
        out,
    )
}

/// Judges a capture by a search of all its orders, and writes the report on it: reads the capture, and the tree if one is handed in, and
/// writes the page: the status of the answer.
///
/// The answer and the statuses are those of [`run_judge`](fa_audit::run_judge), of a capture of at most [`MAX_CAPTURE_INPUT_BYTES`] bytes.
/// The report is that of [`report`], with the reasons of [`explain_judgement`]; in its picture stand the places of the order that was found,
/// or of entries that explain all replies before the one past which no order goes: those that lead to the first tree in the reasons. Where
/// the tree text is not in its grammar there is none: what [`run_explained_judge`](crate::run_explained_judge) writes stands in its place.
/// All inputs are read to their ends before anything is judged. What is written is printing ASCII and line feeds alone, whatever the capture
/// holds; what a report says, and that there is anything, no clause says. The listener is told how far each search for the answer has come.
/// Tables are hashed with the seed. No mark of an input or of the output is set at the call.
///
/// Which bytes were read and written is said where the inputs and the output tell their bytes, as those over memory do. Files and
/// standard output do not: of a call on them it is said alone that the status is that of an answer on some bytes.
///
/// # Errors
///
/// - [`RunFault::Read`] where an input failed, did not come to its end, or has more than [`MAX_CAPTURE_INPUT_BYTES`] bytes or, of a text,
///   [`MAX_TEXT_INPUT_BYTES`].
/// - [`RunFault::Write`] where the output did not take all.
/// - [`RunFault::Memory`] where memory was refused.
///
/// Nothing was written at `Read` and `Memory`, where the output tells its bytes. At `Write` nothing is said of what went out.
///
/// # Cost
///
/// That of [`read_all`](fa_capture::read_all) for each input, of [`explain_judgement`] and of [`report`].
pub fn run_report<R: Input, L: Listener, W: Output>(
    alloc: Global,
    seed: Seed,
    capture: &mut R,
    tree: Option<&mut R>,
    budget: Budget,
    listener: &mut L,
    shown: ReportView<'_>,
    out: &mut W,
) -> Result<u8, RunFault>
    requires capture_unfailed { R.has_failed capture.old ≡ false }
    requires capture_uninterrupted { R.was_interrupted capture.old ≡ false }
    requires tree_unfailed { IfSome tree (λ r. R.has_failed r.now ≡ false) }
    requires tree_uninterrupted { IfSome tree (λ r. R.was_interrupted r.now ≡ false) }
    requires unbroken { W.is_broken out.old ≡ false }

    // A report of printing bytes, with the status of what is judged of the bytes that were read.
    ensures told { IfOk result (IsReportFrom (R.remaining capture.old) (IsReadIfAny R.remaining tree.entry) (W.written out.old) (W.written out.new)) }

    // Each input is read to its end.
    ensures end { OnOk result (IsAtEnd (R.remaining capture.new) × IfHandedIn tree.entry tree.exit (λ old new. IsAtEnd (R.remaining new))) }

    // The tree is read after the capture.
    ensures capture_first { R.has_failed capture.new ≡ true → IfHandedIn tree.entry tree.exit (λ old new. new ≡ old) }

    // When each fault comes.
    ensures read { IsErrOf result RunFault.Read →
        IsUnread MAX_CAPTURE_INPUT_BYTES (R.remaining capture.old) (R.has_failed capture.new) (R.was_interrupted capture.new)
        ⊎ IsHandedIn tree.entry tree.exit (λ old new. IsUnread MAX_TEXT_INPUT_BYTES (R.remaining old) (R.has_failed new) (R.was_interrupted new)) }
    ensures failed { (R.has_failed capture.new ≡ true) ⊎ IsHandedIn tree.entry tree.exit (λ old new. R.has_failed new ≡ true)
        → IsErrOf result RunFault.Read }
    ensures write { IsErrOf result RunFault.Write ↔ (W.is_broken out.new ≡ true) }

    // Nothing was written.
    ensures unread { IsErrOf result RunFault.Read → Keeps (W.written out.old) (W.written out.new) }
    ensures refused { IsErrOf result RunFault.Memory → Keeps (W.written out.old) (W.written out.new) }
{
    match tree {
        None => reported_on_empty_root(alloc, seed, capture, budget, listener, shown, out),
        Some(tree) => reported_on_tree(alloc, seed, capture, tree, budget, listener, shown, out),
    }
}
