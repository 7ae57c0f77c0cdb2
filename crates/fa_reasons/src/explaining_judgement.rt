//! What is judged by a search of all orders, with the reasons for it.

ghost use Rattle.std.specs.Prelude.{◌≡◌, ◌≢◌, ◌≤◌, ◌↔◌, ◌⊎◌, ℕ, List, None, false, true, Err, length, IfOk, IfErr, IfSome, OnOk, IsErrOf};
ghost use Rattle.std.specs.Option.{option_copied};
ghost use Rattle.std.specs.Io.KnownBytes.{IsAtEnd, Keeps};
ghost use Rattle.fa_order.specs.declared.lines.TheConstants.{MAX_TEXT_BYTES};
ghost use Rattle.fa_audit.specs.Line.{IsCoded, IsCodedJudgement};
ghost use Rattle.fa_audit.specs.Proposed.{answer_of};
ghost use Rattle.fa_audit.specs.Run.{IfHandedIn, IsHandedIn, IsReadIfAny, IsSomeRead, IsUnread};
ghost use Rattle.fa_audit.specs.declared.running.TheConstants.{MAX_CAPTURE_INPUT_BYTES, MAX_TEXT_INPUT_BYTES};
ghost use Rattle.fa_audit.specs.Searched.{IsDecisionAnswer, IsOrderWritten, judgement_of, order_found};
ghost use Rattle.fa_reasons.specs.Explained.{IsJudgementExplained, IsJudgementExplainedFrom, IsJudgementExplainedAndKept, IsNoFurtherLine};
ghost use Rattle.fa_show.specs.Printing.{IsPrinting};

use fa_audit::{
    Decision, MAX_CAPTURE_INPUT_BYTES, MAX_TEXT_INPUT_BYTES, RunFault, StartError, decided,
    found_order_text, input_bytes, judged_lines_and_status, judgement_of, keep_order, start,
};
use fa_capture::{Capture, Input, Output, Seed, read_capture};
use fa_check::Verdict;
use fa_explain::{fault_reasons, tree_text_reasons};
use fa_explain_order::{
    Coming, NoOrderReasons, NoSearch, OrderReasons, gave_up_reasons, no_order_reasons,
    order_reasons,
};
use fa_ledger::Calls;
use fa_order::Entry;
use fa_search::{Alternatives, Budget, Listener, Nobody, orders_to};
use fa_show::Text;
use fa_tree::Tree;
use std::alloc::{AllocError, Global};

/// So many trees that were alive where no order goes further are looked at.
const MOST_TREES: usize = 64;

/// What is judged of a capture, and why.
#[derive(Drop)]
pub struct ExplainedJudgement {
    /// What is decided; what [`judge_capture`](fa_audit::judge_capture) answers is the [`judgement_of`] it.
    pub decision: Result<Decision, StartError>,
    /// The lines behind its lines.
    pub reasons: Text,
    /// Where no order is legal, entries that explain all replies before the one past which none goes: those that lead to the first tree in
    /// the reasons. Else nothing.
    entries: Vec<Entry>,
}

impl ExplainedJudgement {
    /// The entries with which the reasons are shown: the order that was found, or those that come to where none goes further.
    pub(crate) fn shown_entries(&self) -> &[Entry] {
        match &self.decision {
            Ok(Decision::Legal { order, .. }) => order,
            Ok(_) | Err(_) => &self.entries,
        }
    }
}

/// Judges a capture by a search of all its orders as [`judge_capture`](fa_audit::judge_capture) does, and says why it answers so: for a fault what
/// [`explain`](crate::explain) says of it; where no order is legal, what is asked and answered at the reply past which none goes, and what
/// differs there on each tree that was alive; and for a legal order which requests were never answered.
///
/// What the lines say, and that there are any, no clause says. The tree text has at most 268,435,456 bytes. Tables are hashed with the
/// seed.
///
/// # Errors
///
/// [`AllocError`] where memory was refused.
///
/// # Cost
///
/// That of [`judge_capture`](fa_audit::judge_capture); where the capture is good that of [`start`] once more, and where no order is legal
/// that of a search up to the message past which none goes; and of [`fault_reasons`], [`order_reasons`] or [`no_order_reasons`].
pub fn explain_judgement<L: Listener>(
    alloc: Global,
    seed: Seed,
    capture: &[u8],
    tree: Option<&[u8]>,
    budget: Budget,
    listener: &mut L,
) -> Result<ExplainedJudgement, AllocError>
    requires { IfSome (option_copied tree) (λ text. length text ≤ MAX_TEXT_BYTES) }
    ensures answer { IfOk result (λ told. IsDecisionAnswer capture.now (option_copied tree.entry) told.decision) }

    // A code that is told has a text.
    ensures codes { IfOk result (λ told. IfOk (judgement_of told.decision) IsCodedJudgement) }
    ensures fault_codes { IfOk result (λ told. IfErr (judgement_of told.decision) (λ error. IfOk (answer_of error) IsCoded)) }
{
    let parsed = read_capture(capture).with_seed(seed);
    let decision = decided(alloc, &parsed, tree, budget, listener);
    let Reasons { text, entries } = reasons_for(alloc, capture, &parsed, tree, budget, &decision)?;
    Ok(ExplainedJudgement {
        decision,
        reasons: text,
        entries,
    })
}

/// Why something is judged, and the entries with which that is shown.
#[derive(Drop)]
struct Reasons {
    text: Text,
    entries: Vec<Entry>,
}

impl Reasons {
    /// A text without entries.
    fn without_entries(alloc: Global, text: Text) -> Self {
        Reasons {
            text,
            entries: Vec::new(alloc),
        }
    }
}

/// The reasons of a decision, which is not that memory was refused.
fn reasons_for(
    alloc: Global,
    bytes: &[u8],
    capture: &Capture<'_>,
    tree: Option<&[u8]>,
    budget: Budget,
    decision: &Result<Decision, StartError>,
) -> Result<Reasons, AllocError>
    requires { IfSome (option_copied tree) (λ text. length text ≤ MAX_TEXT_BYTES) }
    ensures { OnOk result (decision.now ≢ Err StartError.Memory) }
{
    match decision {
        Ok(decision) => decision_reasons(alloc, capture, tree, budget, decision),
        Err(error) => start_reasons(alloc, bytes, capture, tree, error),
    }
}

/// The reasons for which there is no start for an order.
fn start_reasons(
    alloc: Global,
    bytes: &[u8],
    capture: &Capture<'_>,
    tree: Option<&[u8]>,
    error: &StartError,
) -> Result<Reasons, AllocError>
    ensures { OnOk result (error.now ≢ StartError.Memory) }
{
    let text = match error {
        StartError::Fault { at, code } => fault_reasons(alloc, bytes, capture, *at, *code)?,
        StartError::TreeText { line } => tree_text_reasons(alloc, tree.unwrap_or(&[]), *line)?,
        StartError::Memory => return Err(AllocError),
    };
    Ok(Reasons::without_entries(alloc, text))
}

/// The reasons of what is decided from a tree.
fn decision_reasons(
    alloc: Global,
    capture: &Capture<'_>,
    tree: Option<&[u8]>,
    budget: Budget,
    decision: &Decision,
) -> Result<Reasons, AllocError>
    requires { IfSome (option_copied tree) (λ text. length text ≤ MAX_TEXT_BYTES) }
{
    let Ok((calls, first)) = start(alloc, capture, tree) else {
        return Err(AllocError);
    };
    let reasons = reasons_from(alloc, capture, &calls, &first, budget, decision);
    // They have many tables: they are proved to go in one place.
    drop(calls);
    drop(first);
    reasons
}

/// The same from a tree that is lent.
fn reasons_from(
    alloc: Global,
    capture: &Capture<'_>,
    calls: &Calls<'_>,
    first: &Tree,
    budget: Budget,
    decision: &Decision,
) -> Result<Reasons, AllocError> {
    match decision {
        Decision::Legal {
            order,
            messages,
            placed,
            left,
        } => {
            let verdict = Verdict::Legal {
                messages: *messages,
                placed: *placed,
                left: *left,
            };
            legal_reasons(alloc, capture, calls, first, order, &verdict)
        }
        Decision::NoOrder { at, .. } => stop_reasons(alloc, capture, calls, first, budget, *at),
        Decision::GaveUp { at } => {
            Ok(Reasons::without_entries(alloc, gave_up_reasons(alloc, *at)?))
        }
    }
}

/// Which requests an order that is legal leaves out.
fn legal_reasons(
    alloc: Global,
    capture: &Capture<'_>,
    calls: &Calls<'_>,
    first: &Tree,
    order: &[Entry],
    verdict: &Verdict,
) -> Result<Reasons, AllocError> {
    let OrderReasons { text, .. } = order_reasons(
        alloc,
        capture,
        calls,
        order,
        first,
        verdict,
        &mut NoSearch,
    )?;
    Ok(Reasons::without_entries(alloc, text))
}

/// What differs on the trees that were alive at a reply past which no order goes.
fn stop_reasons(
    alloc: Global,
    capture: &Capture<'_>,
    calls: &Calls<'_>,
    first: &Tree,
    budget: Budget,
    at: u32,
) -> Result<Reasons, AllocError> {
    let found = orders_to(
        alloc,
        calls,
        first.copy()?,
        at,
        budget,
        MOST_TREES,
        &mut Nobody,
    )?;
    match found {
        Some(mut found) => reasons_of_orders(alloc, capture, calls, first, &mut found, at),
        None => Ok(Reasons::without_entries(alloc, Text::new(alloc, 0, false)?)),
    }
}

/// What differs on the trees to which these orders lead: that to the first of which is told is taken out of them.
fn reasons_of_orders(
    alloc: Global,
    capture: &Capture<'_>,
    calls: &Calls<'_>,
    first: &Tree,
    found: &mut Alternatives,
    at: u32,
) -> Result<Reasons, AllocError> {
    let coming = Coming {
        orders: &found.orders,
        trees: found.trees,
        at,
    };
    let NoOrderReasons { text, order } = no_order_reasons(alloc, capture, calls, first, &coming)?;
    let entries = match order {
        Some(place) if place < found.orders.len() => found.orders.swap_remove(place),
        _ => Vec::new(alloc),
    };
    Ok(Reasons { text, entries })
}

/// Writes the lines of what is judged, and its reasons: the status of the answer.
pub(crate) fn tell_explained<W: Output>(
    alloc: Global,
    explained: &ExplainedJudgement,
    out: &mut W,
) -> Result<u8, RunFault>
    requires coded { IfOk (judgement_of explained.now.decision) IsCodedJudgement }
    requires coded_fault { IfErr (judgement_of explained.now.decision) (λ error. IfOk (answer_of error) IsCoded) }
    requires unbroken { W.is_broken out.old ≡ false }
    ensures told { IfOk result (IsJudgementExplained (judgement_of explained.now.decision) (W.written out.old) (W.written out.new)) }
    ensures answered { OnOk result (judgement_of explained.now.decision ≢ Err StartError.Memory) }
    ensures memory { IsErrOf result RunFault.Memory → Keeps (W.written out.old) (W.written out.new) }
    ensures read { IsErrOf result RunFault.Read → ⊥ }
    ensures write { IsErrOf result RunFault.Write ↔ (W.is_broken out.new ≡ true) }
{
    let (lines, status) = judged_lines_and_status(alloc, judgement_of(&explained.decision))?;
    out.put(lines.as_bytes())?;
    out.put(apart(explained.reasons.as_bytes()))?;
    Ok(status.number())
}

/// The same, and then writes the order that was found to an output of its own.
fn tell_and_keep<V: Output, W: Output>(
    alloc: Global,
    explained: &ExplainedJudgement,
    order_out: &mut V,
    out: &mut W,
) -> Result<u8, RunFault>
    requires coded { IfOk (judgement_of explained.now.decision) IsCodedJudgement }
    requires coded_fault { IfErr (judgement_of explained.now.decision) (λ error. IfOk (answer_of error) IsCoded) }
    requires order_unbroken { V.is_broken order_out.old ≡ false }
    requires unbroken { W.is_broken out.old ≡ false }
    ensures told { IfOk result (IsJudgementExplained (judgement_of explained.now.decision) (W.written out.old) (W.written out.new)) }
    ensures kept { OnOk result (IsOrderWritten (order_found explained.now.decision) (V.written order_out.old) (V.written order_out.new)) }
    ensures untouched { result ≢ Ok 0 → V.is_broken order_out.new ≡ false → order_out.new ≡ order_out.old }
    ensures lines_stand { V.is_broken order_out.new ≡ true → IsJudgementExplained (judgement_of explained.now.decision) (W.written out.old) (W.written out.new) 0 }
    ensures memory { IsErrOf result RunFault.Memory → Keeps (W.written out.old) (W.written out.new) }
    ensures read { IsErrOf result RunFault.Read → ⊥ }
    ensures write { IsErrOf result RunFault.Write ↔ ((W.is_broken out.new ≡ true) ⊎ (V.is_broken order_out.new ≡ true)) }
{
    let text = found_order_text(alloc, &explained.decision)?;
    let status = tell_explained(alloc, explained, out)?;
    keep_order(text, order_out)?;
    Ok(status)
}

/// Reasons that are not taken for a further line of what is judged: those that begin like one are left out.
fn apart(reasons: &[u8]) -> &[u8]
    requires { IsPrinting reasons.now }
    ensures printing { IsPrinting result.now }
    ensures apart { IsNoFurtherLine result.now }
{
    if reasons.starts_with(b"the first ") {
        return &[];
    }
    reasons
}

/// Reads the capture, and tells what is judged on an empty root, and why.
fn explained_on_empty_root<R: Input, L: Listener, W: Output>(
    alloc: Global,
    seed: Seed,
    capture: &mut R,
    budget: Budget,
    listener: &mut L,
    out: &mut W,
) -> Result<u8, RunFault>
    requires capture_unfailed { R.has_failed capture.old ≡ false }
    requires capture_uninterrupted { R.was_interrupted capture.old ≡ false }
    requires unbroken { W.is_broken out.old ≡ false }
    ensures told { IfOk result (IsJudgementExplainedFrom (R.remaining capture.old) (λ read. read ≡ None)
        (W.written out.old) (W.written out.new)) }
    ensures end { OnOk result (IsAtEnd (R.remaining capture.new)) }
    ensures read { IsErrOf result RunFault.Read →
        IsUnread MAX_CAPTURE_INPUT_BYTES (R.remaining capture.old) (R.has_failed capture.new) (R.was_interrupted capture.new) }
    ensures failed { (R.has_failed capture.new ≡ true) → IsErrOf result RunFault.Read }
    ensures write { IsErrOf result RunFault.Write ↔ (W.is_broken out.new ≡ true) }
    ensures unread { IsErrOf result RunFault.Read → Keeps (W.written out.old) (W.written out.new) }
    ensures refused { IsErrOf result RunFault.Memory → Keeps (W.written out.old) (W.written out.new) }
{
    let capture = input_bytes(alloc, capture, MAX_CAPTURE_INPUT_BYTES)?;
    let explained = explain_judgement(alloc, seed, &capture, None, budget, listener)?;
    tell_explained(alloc, &explained, out)
}

/// Reads the capture and then the tree, and tells what is judged on that tree, and why.
fn explained_on_tree<R: Input, L: Listener, W: Output>(
    alloc: Global,
    seed: Seed,
    capture: &mut R,
    tree: &mut R,
    budget: Budget,
    listener: &mut L,
    out: &mut W,
) -> Result<u8, RunFault>
    requires capture_unfailed { R.has_failed capture.old ≡ false }
    requires capture_uninterrupted { R.was_interrupted capture.old ≡ false }
    requires tree_unfailed { R.has_failed tree.old ≡ false }
    requires tree_uninterrupted { R.was_interrupted tree.old ≡ false }
    requires unbroken { W.is_broken out.old ≡ false }
    ensures told { IfOk result (IsJudgementExplainedFrom (R.remaining capture.old) (IsSomeRead (R.remaining tree.old))
        (W.written out.old) (W.written out.new)) }
    ensures end { OnOk result (IsAtEnd (R.remaining capture.new) × IsAtEnd (R.remaining tree.new)) }
    ensures capture_first { R.has_failed capture.new ≡ true → tree.new ≡ tree.old }
    ensures read { IsErrOf result RunFault.Read →
        IsUnread MAX_CAPTURE_INPUT_BYTES (R.remaining capture.old) (R.has_failed capture.new) (R.was_interrupted capture.new)
        ⊎ IsUnread MAX_TEXT_INPUT_BYTES (R.remaining tree.old) (R.has_failed tree.new) (R.was_interrupted tree.new) }
    ensures failed { (R.has_failed capture.new ≡ true) ⊎ (R.has_failed tree.new ≡ true) → IsErrOf result RunFault.Read }
    ensures write { IsErrOf result RunFault.Write ↔ (W.is_broken out.new ≡ true) }
    ensures unread { IsErrOf result RunFault.Read → Keeps (W.written out.old) (W.written out.new) }
    ensures refused { IsErrOf result RunFault.Memory → Keeps (W.written out.old) (W.written out.new) }
{
    let capture = input_bytes(alloc, capture, MAX_CAPTURE_INPUT_BYTES)?;
    let tree = input_bytes(alloc, tree, MAX_TEXT_INPUT_BYTES)?;
    let explained = explain_judgement(alloc, seed, &capture, Some(&tree), budget, listener)?;
    tell_explained(alloc, &explained, out)
}

/// Judges a capture by a search of all its orders, and says why: reads the capture, and the tree if one is handed in, and writes the lines
/// that [`run_judge`](fa_audit::run_judge) writes and those of the reasons: the status of the answer.
///
/// The lines and the statuses are those of [`run_judge`](fa_audit::run_judge), of a capture of at most [`MAX_CAPTURE_INPUT_BYTES`] bytes. All
/// inputs are read to their ends before anything is judged. What is written behind the lines of the answer is printing ASCII and line feeds
/// alone, whatever the capture holds, and begins as no line of an answer; what it says, and that there is anything, no clause says. The lines
/// of the answer and the reasons are two puts. The listener is told how far each search for the answer has come. Tables are hashed with the
/// seed. No mark of an input or of the output is set at the call.
///
/// Which bytes were read and written is said where the inputs and the output tell their bytes, as those over memory do. Files and
/// standard output do not: of a call on them it is said alone that the status is that of an answer on some bytes.
///
/// # Errors
///
/// - [`RunFault::Read`] where an input failed, did not come to its end, or has more than [`MAX_CAPTURE_INPUT_BYTES`] bytes or, of a text,
///   [`MAX_TEXT_INPUT_BYTES`].
/// - [`RunFault::Write`] where the output did not take all.
/// - [`RunFault::Memory`] where memory was refused.
///
/// Nothing was written at `Read` and `Memory`, where the output tells its bytes. At `Write` nothing is said of what went out.
///
/// # Cost
///
/// That of [`read_all`](fa_capture::read_all) for each input, and of [`explain_judgement`].
pub fn run_explained_judge<R: Input, L: Listener, W: Output>(
    alloc: Global,
    seed: Seed,
    capture: &mut R,
    tree: Option<&mut R>,
    budget: Budget,
    listener: &mut L,
    out: &mut W,
) -> Result<u8, RunFault>
    requires capture_unfailed { R.has_failed capture.old ≡ false }
    requires capture_uninterrupted { R.was_interrupted capture.old ≡ false }
    requires tree_unfailed { IfSome tree (λ r. R.has_failed r.now ≡ false) }
    requires tree_uninterrupted { IfSome tree (λ r. R.was_interrupted r.now ≡ false) }
    requires unbroken { W.is_broken out.old ≡ false }

    // What is told of the bytes that were read, with its reasons.
    ensures told { IfOk result (IsJudgementExplainedFrom (R.remaining capture.old) (IsReadIfAny R.remaining tree.entry)
        (W.written out.old) (W.written out.new)) }

    // Each input is read to its end.
    ensures end { OnOk result (IsAtEnd (R.remaining capture.new) × IfHandedIn tree.entry tree.exit (λ old new. IsAtEnd (R.remaining new))) }

    // The tree is read after the capture.
    ensures capture_first { R.has_failed capture.new ≡ true → IfHandedIn tree.entry tree.exit (λ old new. new ≡ old) }

    // When each fault comes.
    ensures read { IsErrOf result RunFault.Read →
        IsUnread MAX_CAPTURE_INPUT_BYTES (R.remaining capture.old) (R.has_failed capture.new) (R.was_interrupted capture.new)
        ⊎ IsHandedIn tree.entry tree.exit (λ old new. IsUnread MAX_TEXT_INPUT_BYTES (R.remaining old) (R.has_failed new) (R.was_interrupted new)) }
    ensures failed { (R.has_failed capture.new ≡ true) ⊎ IsHandedIn tree.entry tree.exit (λ old new. R.has_failed new ≡ true)
        → IsErrOf result RunFault.Read }
    ensures write { IsErrOf result RunFault.Write ↔ (W.is_broken out.new ≡ true) }

    // Nothing was written.
    ensures unread { IsErrOf result RunFault.Read → Keeps (W.written out.old) (W.written out.new) }
    ensures refused { IsErrOf result RunFault.Memory → Keeps (W.written out.old) (W.written out.new) }
{
    match tree {
        None => explained_on_empty_root(alloc, seed, capture, budget, listener, out),
        Some(tree) => explained_on_tree(alloc, seed, capture, tree, budget, listener, out),
    }
}

/// Reads the capture, tells what is judged on an empty root, and why, and keeps the order.
fn keep_on_empty_root<R: Input, L: Listener, V: Output, W: Output>(
    alloc: Global,
    seed: Seed,
    capture: &mut R,
    budget: Budget,
    listener: &mut L,
    order_out: &mut V,
    out: &mut W,
) -> Result<u8, RunFault>
    requires capture_unfailed { R.has_failed capture.old ≡ false }
    requires capture_uninterrupted { R.was_interrupted capture.old ≡ false }
    requires order_unbroken { V.is_broken order_out.old ≡ false }
    requires unbroken { W.is_broken out.old ≡ false }
    ensures told { IfOk result (IsJudgementExplainedAndKept (R.remaining capture.old) (λ read. read ≡ None)
        (V.written order_out.old) (V.written order_out.new) (W.written out.old) (W.written out.new)) }
    ensures end { OnOk result (IsAtEnd (R.remaining capture.new)) }
    ensures read { IsErrOf result RunFault.Read →
        IsUnread MAX_CAPTURE_INPUT_BYTES (R.remaining capture.old) (R.has_failed capture.new) (R.was_interrupted capture.new) }
    ensures failed { (R.has_failed capture.new ≡ true) → IsErrOf result RunFault.Read }
    ensures write { IsErrOf result RunFault.Write ↔ ((W.is_broken out.new ≡ true) ⊎ (V.is_broken order_out.new ≡ true)) }
    ensures untouched { result ≢ Ok 0 → V.is_broken order_out.new ≡ false → order_out.new ≡ order_out.old }
    ensures lines_stand { V.is_broken order_out.new ≡ true → IsJudgementExplainedFrom (R.remaining capture.old) (λ read. read ≡ None)
        (W.written out.old) (W.written out.new) 0 }
    ensures unread { IsErrOf result RunFault.Read →
        Keeps (W.written out.old) (W.written out.new) }
    ensures refused { IsErrOf result RunFault.Memory →
        Keeps (W.written out.old) (W.written out.new) }
{
    let capture = input_bytes(alloc, capture, MAX_CAPTURE_INPUT_BYTES)?;
    let explained = explain_judgement(alloc, seed, &capture, None, budget, listener)?;
    tell_and_keep(alloc, &explained, order_out, out)
}

/// Reads the capture and then the tree, tells what is judged on that tree, and why, and keeps the order.
fn keep_on_tree<R: Input, L: Listener, V: Output, W: Output>(
    alloc: Global,
    seed: Seed,
    capture: &mut R,
    tree: &mut R,
    budget: Budget,
    listener: &mut L,
    order_out: &mut V,
    out: &mut W,
) -> Result<u8, RunFault>
    requires capture_unfailed { R.has_failed capture.old ≡ false }
    requires capture_uninterrupted { R.was_interrupted capture.old ≡ false }
    requires tree_unfailed { R.has_failed tree.old ≡ false }
    requires tree_uninterrupted { R.was_interrupted tree.old ≡ false }
    requires order_unbroken { V.is_broken order_out.old ≡ false }
    requires unbroken { W.is_broken out.old ≡ false }
    ensures told { IfOk result (IsJudgementExplainedAndKept (R.remaining capture.old) (IsSomeRead (R.remaining tree.old))
        (V.written order_out.old) (V.written order_out.new) (W.written out.old) (W.written out.new)) }
    ensures end { OnOk result (IsAtEnd (R.remaining capture.new) × IsAtEnd (R.remaining tree.new)) }
    ensures capture_first { R.has_failed capture.new ≡ true → tree.new ≡ tree.old }
    ensures read { IsErrOf result RunFault.Read →
        IsUnread MAX_CAPTURE_INPUT_BYTES (R.remaining capture.old) (R.has_failed capture.new) (R.was_interrupted capture.new)
        ⊎ IsUnread MAX_TEXT_INPUT_BYTES (R.remaining tree.old) (R.has_failed tree.new) (R.was_interrupted tree.new) }
    ensures failed { (R.has_failed capture.new ≡ true) ⊎ (R.has_failed tree.new ≡ true) → IsErrOf result RunFault.Read }
    ensures write { IsErrOf result RunFault.Write ↔ ((W.is_broken out.new ≡ true) ⊎ (V.is_broken order_out.new ≡ true)) }
    ensures untouched { result ≢ Ok 0 → V.is_broken order_out.new ≡ false → order_out.new ≡ order_out.old }
    ensures lines_stand { V.is_broken order_out.new ≡ true → IsJudgementExplainedFrom (R.remaining capture.old) (IsSomeRead (R.remaining tree.old))
        (W.written out.old) (W.written out.new) 0 }
    ensures unread { IsErrOf result RunFault.Read →
        Keeps (W.written out.old) (W.written out.new) }
    ensures refused { IsErrOf result RunFault.Memory →
        Keeps (W.written out.old) (W.written out.new) }
{
    let capture = input_bytes(alloc, capture, MAX_CAPTURE_INPUT_BYTES)?;
    let tree = input_bytes(alloc, tree, MAX_TEXT_INPUT_BYTES)?;
    let explained = explain_judgement(alloc, seed, &capture, Some(&tree), budget, listener)?;
    tell_and_keep(alloc, &explained, order_out, out)
}

/// Judges a capture by a search of all its orders and says why, as [`run_explained_judge`] does, and keeps the order that was found: behind
/// the lines and the reasons its text is written to an output of its own, by one put, where the answer is `legal`. Else that output is not
/// touched. No mark of an input or of an output is set at the call.
///
/// # Errors
///
/// - [`RunFault::Read`] as of [`run_explained_judge`].
/// - [`RunFault::Write`] where one of the outputs did not take all. The lines are written first.
/// - [`RunFault::Memory`] where memory was refused.
///
/// Nothing was written at `Read` and `Memory`, where the outputs tell their bytes. At `Write` nothing is said of what went out.
///
/// # Cost
///
/// That of [`run_explained_judge`], and of [`write_order`](fa_order::write_order).
pub fn run_explained_judge_and_keep<R: Input, L: Listener, V: Output, W: Output>(
    alloc: Global,
    seed: Seed,
    capture: &mut R,
    tree: Option<&mut R>,
    budget: Budget,
    listener: &mut L,
    order_out: &mut V,
    out: &mut W,
) -> Result<u8, RunFault>
    requires capture_unfailed { R.has_failed capture.old ≡ false }
    requires capture_uninterrupted { R.was_interrupted capture.old ≡ false }
    requires tree_unfailed { IfSome tree (λ r. R.has_failed r.now ≡ false) }
    requires tree_uninterrupted { IfSome tree (λ r. R.was_interrupted r.now ≡ false) }
    requires order_unbroken { V.is_broken order_out.old ≡ false }
    requires unbroken { W.is_broken out.old ≡ false }

    // What is told of the bytes that were read, with its reasons, and of which order the text was kept.
    ensures told { IfOk result (IsJudgementExplainedAndKept (R.remaining capture.old) (IsReadIfAny R.remaining tree.entry)
        (V.written order_out.old) (V.written order_out.new) (W.written out.old) (W.written out.new)) }

    // Each input is read to its end.
    ensures end { OnOk result (IsAtEnd (R.remaining capture.new) × IfHandedIn tree.entry tree.exit (λ old new. IsAtEnd (R.remaining new))) }

    // The tree is read after the capture.
    ensures capture_first { R.has_failed capture.new ≡ true → IfHandedIn tree.entry tree.exit (λ old new. new ≡ old) }

    // When each fault comes.
    ensures read { IsErrOf result RunFault.Read →
        IsUnread MAX_CAPTURE_INPUT_BYTES (R.remaining capture.old) (R.has_failed capture.new) (R.was_interrupted capture.new)
        ⊎ IsHandedIn tree.entry tree.exit (λ old new. IsUnread MAX_TEXT_INPUT_BYTES (R.remaining old) (R.has_failed new) (R.was_interrupted new)) }
    ensures failed { (R.has_failed capture.new ≡ true) ⊎ IsHandedIn tree.entry tree.exit (λ old new. R.has_failed new ≡ true)
        → IsErrOf result RunFault.Read }
    ensures write { IsErrOf result RunFault.Write ↔ ((W.is_broken out.new ≡ true) ⊎ (V.is_broken order_out.new ≡ true)) }

    // The output of the order is touched only where the answer is `legal` and its lines were taken.
    ensures untouched { result ≢ Ok 0 → V.is_broken order_out.new ≡ false → order_out.new ≡ order_out.old }

    // Where it did not take the order the lines of `legal` stand.
    ensures lines_stand { V.is_broken order_out.new ≡ true → IsJudgementExplainedFrom (R.remaining capture.old) (IsReadIfAny R.remaining tree.entry)
        (W.written out.old) (W.written out.new) 0 }

    // Nothing was written.
    ensures unread { IsErrOf result RunFault.Read →
        Keeps (W.written out.old) (W.written out.new) }
    ensures refused { IsErrOf result RunFault.Memory →
        Keeps (W.written out.old) (W.written out.new) }
{
    match tree {
        None => keep_on_empty_root(alloc, seed, capture, budget, listener, order_out, out),
        Some(tree) => keep_on_tree(alloc, seed, capture, tree, budget, listener, order_out, out),
    }
}
