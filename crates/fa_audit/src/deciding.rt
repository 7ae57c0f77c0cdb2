//! What is judged of a capture by a search of all its orders.

ghost use Rattle.std.specs.Prelude.{◌≡◌, ◌≢◌, ◌≤◌, ◌↔◌, ◌⊎◌, ℕ, false, true, List, None, Ok, Err, length, IfOk, IfErr, IfSome, IsOk, OnOk, IsErrOf, string_bytes};
ghost use Rattle.std.specs.Option.{option_copied};
ghost use Rattle.std.specs.Io.KnownBytes.{IsAtEnd, Keeps};
ghost use Rattle.fa_capture.specs.Message.{Message};
ghost use Rattle.fa_capture.specs.Captures.{IsCaptureOf};
ghost use Rattle.fa_ledger.specs.Passing.{IsFirstFault};
ghost use Rattle.fa_order.specs.declared.lines.TheConstants.{MAX_TEXT_BYTES};
ghost use Rattle.fa_check.specs.Verdicts.{AreMessagesOf};
ghost use Rattle.fa_search.specs.Searches.{IsEndless};
ghost use Rattle.fa_search.specs.declared.finding.Finding.TheVariants as Finding;
ghost use Rattle.fa_audit.specs.Verdict.{IsTreeTextAtFault, ExactlyRefused};
ghost use Rattle.fa_audit.specs.Line.{IsCoded, IsCodedJudgement, judgement_status};
ghost use Rattle.fa_audit.specs.Run.{IfHandedIn, IsHandedIn, IsSomeRead, IsReadIfAny, IsUnread, FailedOrInterrupted, IsAtEndOrFault};
ghost use Rattle.fa_audit.specs.declared.found.Judgement.TheVariants.{GaveUp};
ghost use Rattle.fa_audit.specs.declared.found.Decision.TheVariants as Decision;
ghost use Rattle.fa_audit.specs.declared.running.TheConstants.{MAX_TEXT_INPUT_BYTES};
ghost use Rattle.fa_audit.specs.Proposed.{IsStart, answer_of};
ghost use Rattle.fa_audit.specs.Status.{status_number};
ghost use Rattle.fa_audit.specs.Searched.{IsJudged, IsDecision, IsJudgementTold, IsJudgedFrom, IsJudgedAndKept, judgement_of, order_found, IsTextOfOrder, IsTextWritten, IsOrderWritten, judged_line, judged_lines, judged_status, told_shortest, shortest_part};
ghost use Rattle.fa_audit.specs.Starts.{IsNoStart};
ghost use Rattle.fa_audit.specs.parts.Searching.{IsFindingIn, IsDecisionIn};

use crate::found::{Decision, Judgement};
use crate::judge::start;
use crate::line::{judgement_text, shortest_text};
use crate::running::{
    MAX_TEXT_INPUT_BYTES, RunFault, input_bytes, line_and_status, stored_capture,
};
use crate::shortest::shortest_without;
use crate::status::Status;
use crate::verdict::StartError;
use fa_capture::{Capture, Input, Output, Seed, read_capture};
use fa_ledger::Calls;
use fa_order::write_order;
use fa_search::{Budget, Finding, Listener, Nobody, search};
use fa_tree::Tree;
use std::alloc::{AllocError, Global};

/// Whether some order is legal for a capture, from the tree that the server began with: with the numbers of one that is, or the message
/// past which none goes.
///
/// The capture is judged and the tree text is read as [`audit`](crate::audit) does it. All orders are searched, as
/// [`search`](fa_search::search) does it within the budget, and what is told of one that is found is what
/// [`check`](fa_check::check) tells. It gives up only where requests overlap and the order of [`proposal`](crate::proposal) is not legal,
/// and never with [`Budget::endless`]. Where there is no order, the first messages alone are searched too, as
/// [`search_order`](crate::search_order) does it. The tree text has at most 268,435,456 bytes.
///
/// # Errors
///
/// - [`StartError::Fault`] exactly where the capture is not good: at the least number of a message that does not pass or of the
///   framing fault, with the first check that it fails, as one of [`codes`](fa_capture::codes).
/// - [`StartError::TreeText`] exactly where the capture is good and the tree text that is handed in is not in its grammar.
/// - [`StartError::Memory`] where memory was refused.
///
/// # Cost
///
/// That of [`audit`](crate::audit) up to the order text, and of [`search`](fa_search::search); where there is no order, of each further
/// search too.
pub fn judge_capture(
    alloc: Global,
    capture: &[u8],
    tree: Option<&[u8]>,
    budget: Budget,
) -> Result<Judgement, StartError>
    requires { IfSome (option_copied tree) (λ text. length text ≤ MAX_TEXT_BYTES) }

    // It is answered exactly where the capture is good and a tree text that is handed in is in its grammar.
    ensures answer { IfOk result (IsJudged capture.now (option_copied tree.entry)) }
    ensures start { IsStart capture.now (option_copied tree.entry) → IsOk result ⊎ IsErrOf result StartError.Memory }
    ensures decides { (at : ℕ) → IsEndless budget → result ≡ Ok (GaveUp at) → ⊥ }

    ensures fault { (at code : ℕ) → ExactlyRefused result StartError.Memory
        (StartError.Fault at code) (IsFirstFault capture.now at code) }
    ensures tree_text { (line : ℕ) → ExactlyRefused result StartError.Memory
        (StartError.TreeText line) (IsTreeTextAtFault capture.now (option_copied tree.entry) line) }

    // A code that is told has a text.
    ensures codes { IfOk result IsCodedJudgement }
    ensures fault_codes { IfErr result (λ error. IfOk (answer_of error) IsCoded) }
{
    judgement_of(&decided(alloc, &read_capture(capture), tree, budget, &mut Nobody))
}

/// What is judged of a capture that was read, as [`judge_capture`] judges one by its bytes, with the order that was found. Where no order
/// is legal, it is told with how many of the first messages alone have none. The listener is told how far each search has come.
///
/// # Errors
///
/// Those of [`judge_capture`].
///
/// # Cost
///
/// That of [`judge_capture`] without [`read_capture`].
pub fn decided<L: Listener>(
    alloc: Global,
    capture: &Capture<'_>,
    tree: Option<&[u8]>,
    budget: Budget,
    listener: &mut L,
) -> Result<Decision, StartError>
    requires { IfSome (option_copied tree) (λ text. length text ≤ MAX_TEXT_BYTES) }
    ensures answer { IfOk result (λ decision. (bytes : List ℕ) → IsCaptureOf bytes capture.now → IsDecision bytes (option_copied tree.entry) decision) }
    ensures none { IfErr result (λ error. (bytes : List ℕ) → IsCaptureOf bytes capture.now → IsNoStart bytes (option_copied tree.entry) error) }
    ensures decides { (at : ℕ) → IsEndless budget → result ≡ Ok (Decision.GaveUp at) → ⊥ }
{
    match decided_whole(alloc, capture, tree, budget, listener)? {
        Decision::NoOrder { at, code, .. } => {
            let shortest = shortest_without(alloc, capture, tree, at, budget, listener)?;
            Ok(Decision::NoOrder { at, code, shortest })
        }
        decision => Ok(decision),
    }
}

/// What is decided of all messages alone.
fn decided_whole<L: Listener>(
    alloc: Global,
    capture: &Capture<'_>,
    tree: Option<&[u8]>,
    budget: Budget,
    listener: &mut L,
) -> Result<Decision, StartError>
    requires { IfSome (option_copied tree) (λ text. length text ≤ MAX_TEXT_BYTES) }
    ensures answer { IfOk result (λ decision. (bytes : List ℕ) → IsCaptureOf bytes capture.now → IsDecision bytes (option_copied tree.entry) decision) }
    ensures none { IfErr result (λ error. (bytes : List ℕ) → IsCaptureOf bytes capture.now → IsNoStart bytes (option_copied tree.entry) error) }
    ensures decides { (at : ℕ) → IsEndless budget → result ≡ Ok (Decision.GaveUp at) → ⊥ }
{
    let (calls, first) = start(alloc, capture, tree)?;
    Ok(decide(alloc, &calls, first, budget, listener)?)
}

/// What is decided from a tree.
fn decide<L: Listener>(
    alloc: Global,
    calls: &Calls<'_>,
    first: Tree,
    budget: Budget,
    listener: &mut L,
) -> Result<Decision, AllocError>
    ensures decided { IfOk result (λ decision. (c : List Message) → AreMessagesOf calls.now c → IsDecisionIn c first decision) }
    ensures decides { (at : ℕ) → IsEndless budget → result ≡ Ok (Decision.GaveUp at) → ⊥ }
{
    match found_from(alloc, calls, first, budget, listener)? {
        Finding::Found {
            order,
            placed,
            left,
        } => Ok(Decision::Legal {
            order,
            messages: calls.messages,
            placed,
            left,
        }),
        Finding::NoOrder { at, code } => Ok(Decision::NoOrder {
            at,
            code,
            shortest: None,
        }),
        Finding::GaveUp { at } => Ok(Decision::GaveUp { at }),
    }
}

/// What a search finds from a tree.
pub(crate) fn found_from<L: Listener>(
    alloc: Global,
    calls: &Calls<'_>,
    first: Tree,
    budget: Budget,
    listener: &mut L,
) -> Result<Finding, AllocError>
    ensures found { IfOk result (λ finding. (c : List Message) → AreMessagesOf calls.now c → IsFindingIn c first finding) }
    ensures decides { (at : ℕ) → IsEndless budget → result ≡ Ok (Finding.GaveUp at) → ⊥ }
{
    search(alloc, calls, first, budget, listener)
}

/// What is judged by a decision, or why there is none.
///
/// Takes no memory, in constant time.
pub fn judgement_of(decision: &Result<Decision, StartError>) -> Result<Judgement, StartError>
    ensures { result ≡ judgement_of decision.now }
{
    match decision {
        Ok(decision) => Ok(decision.judgement()),
        Err(error) => Err(*error),
    }
}

/// The text of the order that was found, where one was.
///
/// # Errors
///
/// [`AllocError`] where memory was refused.
///
/// # Cost
///
/// That of [`write_order`].
pub fn found_order_text(
    alloc: Global,
    decision: &Result<Decision, StartError>,
) -> Result<Option<Vec<u8>>, AllocError>
    ensures { IfOk result (IsTextOfOrder (order_found decision.now)) }
{
    match decision {
        Ok(Decision::Legal { order, .. }) => Ok(Some(write_order(alloc, order)?)),
        Ok(_) | Err(_) => Ok(None),
    }
}

/// The status of what is judged.
fn status_of(judgement: Judgement) -> Status
    ensures { status_number result ≡ judgement_status judgement }
{
    match judgement {
        Judgement::Legal { .. } => Status::Legal,
        Judgement::NoOrder { .. } => Status::NoOrder,
        Judgement::GaveUp { .. } => Status::GaveUp,
    }
}

/// The line that tells an answer of [`judge_capture`], the first where two do, without a line feed, and its status. A code that it tells is
/// one that has a text, as in each answer of [`judge_capture`].
///
/// # Errors
///
/// [`RunFault::Memory`] where memory was refused: to the answer, or to its line.
///
/// # Cost
///
/// Time and memory for the line.
pub fn judged_line_and_status(
    alloc: Global,
    answer: Result<Judgement, StartError>,
) -> Result<(String, Status), RunFault>
    requires coded { IfOk answer IsCodedJudgement }
    requires coded_fault { IfErr answer (λ error. IfOk (answer_of error) IsCoded) }
    ensures line { IfOk result (λ told. string_bytes told.0 ≡ judged_line answer) }
    ensures status { IfOk result (λ told. status_number told.1 ≡ judged_status answer) }
    ensures answered { OnOk result (answer ≢ Err StartError.Memory) }
    ensures memory { IfErr result (λ fault. fault ≡ RunFault.Memory) }
{
    match answer {
        Ok(judgement) => Ok((judgement_text(alloc, &judgement)?, status_of(judgement))),
        Err(error) => line_and_status(alloc, error.answer()),
    }
}

/// How many of the first messages alone have no order, where that is told.
fn shortest_of(answer: &Result<Judgement, StartError>) -> Option<u32>
    ensures { result ≡ told_shortest answer.now }
{
    match answer {
        Ok(Judgement::NoOrder { shortest, .. }) => *shortest,
        Ok(_) | Err(_) => None,
    }
}

/// The line that tells it, with a line feed.
fn shortest_part(alloc: Global, shortest: Option<u32>) -> Result<String, AllocError>
    ensures { IfOk result (λ text. string_bytes text ≡ shortest_part shortest) }
{
    let Some(messages) = shortest else {
        return Ok(String::new(alloc));
    };
    let mut line = shortest_text(alloc, messages)?;
    line.push('\n')?;
    Ok(line)
}

/// The lines of what is judged, each with a line feed, and the status of the answer: its line, and behind `no order` the line of the first
/// messages alone.
///
/// # Errors
///
/// [`RunFault::Memory`] where memory was refused.
///
/// # Cost
///
/// Constant time; memory for the lines.
pub fn judged_lines_and_status(
    alloc: Global,
    answer: Result<Judgement, StartError>,
) -> Result<(String, Status), RunFault>
    requires coded { IfOk answer IsCodedJudgement }
    requires coded_fault { IfErr answer (λ error. IfOk (answer_of error) IsCoded) }
    ensures lines { IfOk result (λ told. string_bytes told.0 ≡ judged_lines answer) }
    ensures status { IfOk result (λ told. status_number told.1 ≡ judged_status answer) }
    ensures answered { OnOk result (answer ≢ Err StartError.Memory) }
    ensures memory { IfErr result (λ fault. fault ≡ RunFault.Memory) }
{
    let shortest = shortest_of(&answer);
    let (mut lines, status) = judged_line_and_status(alloc, answer)?;
    lines.push('\n')?;
    lines.push_str(&shortest_part(alloc, shortest)?)?;
    Ok((lines, status))
}

/// Writes the lines of what is judged: the status of the answer.
pub(crate) fn tell_judgement<W: Output>(
    alloc: Global,
    answer: Result<Judgement, StartError>,
    out: &mut W,
) -> Result<u8, RunFault>
    requires coded { IfOk answer IsCodedJudgement }
    requires coded_fault { IfErr answer (λ error. IfOk (answer_of error) IsCoded) }
    requires unbroken { W.is_broken out.old ≡ false }
    ensures told { IfOk result (IsJudgementTold answer (W.written out.old) (W.written out.new)) }
    ensures answered { OnOk result (answer ≢ Err StartError.Memory) }
    ensures memory { IsErrOf result RunFault.Memory →
        Keeps (W.written out.old) (W.written out.new) }
    ensures read { IsErrOf result RunFault.Read → ⊥ }
    ensures write { IsErrOf result RunFault.Write ↔ (W.is_broken out.new ≡ true) }
{
    let (lines, status) = judged_lines_and_status(alloc, answer)?;
    out.put(lines.as_bytes())?;
    Ok(status.number())
}

/// Writes the text of the order that was found, where one was. Where none was it does not touch the output.
///
/// # Errors
///
/// [`RunFault::Write`] where the output did not take the whole text.
///
/// # Cost
///
/// That of one put.
pub fn keep_order<V: Output>(text: Option<Vec<u8>>, order_out: &mut V) -> Result<(), RunFault>
    requires unbroken { V.is_broken order_out.old ≡ false }
    ensures kept { OnOk result (IsTextWritten text (V.written order_out.old) (V.written order_out.new)) }
    ensures untouched { text ≡ None → order_out.new ≡ order_out.old }
    ensures write { IsErrOf result RunFault.Write ↔ (V.is_broken order_out.new ≡ true) }
    ensures only { IfErr result (λ fault. fault ≡ RunFault.Write) }
{
    if let Some(text) = text {
        order_out.put(&text)?;
    }
    Ok(())
}

/// Writes the lines of what is judged, and then the order to an output of its own: the status of the answer.
fn tell_and_keep<V: Output, W: Output>(
    alloc: Global,
    decision: &Result<Decision, StartError>,
    order_out: &mut V,
    out: &mut W,
) -> Result<u8, RunFault>
    requires coded { IfOk (judgement_of decision.now) IsCodedJudgement }
    requires coded_fault { IfErr (judgement_of decision.now) (λ error. IfOk (answer_of error) IsCoded) }
    requires order_unbroken { V.is_broken order_out.old ≡ false }
    requires unbroken { W.is_broken out.old ≡ false }
    ensures told { IfOk result (IsJudgementTold (judgement_of decision.now) (W.written out.old) (W.written out.new)) }
    ensures kept { OnOk result (IsOrderWritten (order_found decision.now) (V.written order_out.old) (V.written order_out.new)) }
    ensures untouched { result ≢ Ok 0 → V.is_broken order_out.new ≡ false → order_out.new ≡ order_out.old }
    ensures lines_stand { V.is_broken order_out.new ≡ true → IsJudgementTold (judgement_of decision.now) (W.written out.old) (W.written out.new) 0 }
    ensures answered { OnOk result (judgement_of decision.now ≢ Err StartError.Memory) }
    ensures memory { IsErrOf result RunFault.Memory →
        Keeps (W.written out.old) (W.written out.new) }
    ensures read { IsErrOf result RunFault.Read → ⊥ }
    ensures write { IsErrOf result RunFault.Write ↔ ((W.is_broken out.new ≡ true) ⊎ (V.is_broken order_out.new ≡ true)) }
{
    let text = found_order_text(alloc, decision)?;
    let status = tell_judgement(alloc, judgement_of(decision), out)?;
    keep_order(text, order_out)?;
    Ok(status)
}

/// Reads the capture, and tells what is judged on an empty root.
fn judge_on_empty_root<R: Input, L: Listener, W: Output>(
    alloc: Global,
    seed: Seed,
    capture: &mut R,
    budget: Budget,
    listener: &mut L,
    out: &mut W,
) -> Result<u8, RunFault>
    requires capture_unfailed { R.has_failed capture.old ≡ false }
    requires capture_uninterrupted { R.was_interrupted capture.old ≡ false }
    requires unbroken { W.is_broken out.old ≡ false }
    ensures told { IfOk result (IsJudgedFrom (R.remaining capture.old) (λ read. read ≡ None)
        (W.written out.old) (W.written out.new)) }
    ensures end { OnOk result (IsAtEndOrFault (R.remaining capture.old) (R.remaining capture.new)) }
    ensures read { IsErrOf result RunFault.Read →
        FailedOrInterrupted (R.has_failed capture.new) (R.was_interrupted capture.new) }
    ensures failed { R.has_failed capture.new ≡ true → IsErrOf result RunFault.Read }
    ensures write { IsErrOf result RunFault.Write ↔ (W.is_broken out.new ≡ true) }
    ensures unread { IsErrOf result RunFault.Read → Keeps (W.written out.old) (W.written out.new) }
    ensures refused { IsErrOf result RunFault.Memory → Keeps (W.written out.old) (W.written out.new) }
{
    let stored = stored_capture(alloc, capture)?;
    let decision = decided(
        alloc,
        &stored.capture().with_seed(seed),
        None,
        budget,
        listener,
    );
    tell_judgement(alloc, judgement_of(&decision), out)
}

/// Reads the capture and then the tree, and tells what is judged on that tree.
fn judge_on_tree<R: Input, L: Listener, W: Output>(
    alloc: Global,
    seed: Seed,
    capture: &mut R,
    tree: &mut R,
    budget: Budget,
    listener: &mut L,
    out: &mut W,
) -> Result<u8, RunFault>
    requires capture_unfailed { R.has_failed capture.old ≡ false }
    requires capture_uninterrupted { R.was_interrupted capture.old ≡ false }
    requires tree_unfailed { R.has_failed tree.old ≡ false }
    requires tree_uninterrupted { R.was_interrupted tree.old ≡ false }
    requires unbroken { W.is_broken out.old ≡ false }
    ensures told { IfOk result (IsJudgedFrom (R.remaining capture.old) (IsSomeRead (R.remaining tree.old))
        (W.written out.old) (W.written out.new)) }
    ensures end { OnOk result (IsAtEndOrFault (R.remaining capture.old) (R.remaining capture.new) × IsAtEnd (R.remaining tree.new)) }
    ensures capture_first { R.has_failed capture.new ≡ true → tree.new ≡ tree.old }
    ensures read { IsErrOf result RunFault.Read →
        FailedOrInterrupted (R.has_failed capture.new) (R.was_interrupted capture.new)
        ⊎ IsUnread MAX_TEXT_INPUT_BYTES (R.remaining tree.old) (R.has_failed tree.new) (R.was_interrupted tree.new) }
    ensures failed { (R.has_failed capture.new ≡ true) ⊎ (R.has_failed tree.new ≡ true) →
        IsErrOf result RunFault.Read }
    ensures write { IsErrOf result RunFault.Write ↔ (W.is_broken out.new ≡ true) }
    ensures unread { IsErrOf result RunFault.Read → Keeps (W.written out.old) (W.written out.new) }
    ensures refused { IsErrOf result RunFault.Memory → Keeps (W.written out.old) (W.written out.new) }
{
    let stored = stored_capture(alloc, capture)?;
    let tree = input_bytes(alloc, tree, MAX_TEXT_INPUT_BYTES)?;
    let decision = decided(
        alloc,
        &stored.capture().with_seed(seed),
        Some(&tree),
        budget,
        listener,
    );
    tell_judgement(alloc, judgement_of(&decision), out)
}

/// Judges a capture by a search of all its orders: reads the capture, and then the tree if one is handed in, writes the line of what is
/// judged and a line feed by one put, and answers the status.
///
/// The line is `legal: M messages, P placed, L left out` with the status 0, `no order: message N: code C: TEXT` with 6, or `gave up: message
/// N` with 7. Behind `no order`, where M is found, a second line is written, `the first M messages alone have no order`. Where there is no
/// start for an order the line of the fault is written, as [`run`](crate::run) writes it, with the status 1 at a fault of the capture, and 3
/// where the tree text is not in its grammar. The inputs are read before anything is judged, as [`run`](crate::run) reads them. The listener
/// is told how far each search has come, as [`search`](fa_search::search) tells it. Tables are hashed with the seed. No mark of an input or
/// of the output is set at the call.
///
/// Which bytes were read and written is said where the inputs and the output tell their bytes, as those over memory do. Files and
/// standard output do not: of a call on them it is said alone that the status is that of an answer on some bytes.
///
/// # Errors
///
/// - [`RunFault::Read`] where an input failed or did not come to its end, or where a text has more than [`MAX_TEXT_INPUT_BYTES`]
///   bytes.
/// - [`RunFault::Write`] where the output did not take the whole text.
/// - [`RunFault::Memory`] where memory was refused.
///
/// Nothing was written at `Read` and `Memory`, where the output tells its bytes. At `Write` nothing is said of what went out.
///
/// # Cost
///
/// That of [`run`](crate::run) for the inputs, and of [`judge_capture`].
pub fn run_judge<R: Input, L: Listener, W: Output>(
    alloc: Global,
    seed: Seed,
    capture: &mut R,
    tree: Option<&mut R>,
    budget: Budget,
    listener: &mut L,
    out: &mut W,
) -> Result<u8, RunFault>
    requires capture_unfailed { R.has_failed capture.old ≡ false }
    requires capture_uninterrupted { R.was_interrupted capture.old ≡ false }
    requires tree_unfailed { IfSome tree (λ r. R.has_failed r.now ≡ false) }
    requires tree_uninterrupted { IfSome tree (λ r. R.was_interrupted r.now ≡ false) }
    requires unbroken { W.is_broken out.old ≡ false }

    // What is told of the bytes that were read, or the line of their fault.
    ensures told { IfOk result (IsJudgedFrom (R.remaining capture.old) (IsReadIfAny R.remaining tree.entry)
        (W.written out.old) (W.written out.new)) }

    // The capture is read to its end, or as far as it has a framing fault whatever follows; the tree to its end.
    ensures end { OnOk result (IsAtEndOrFault (R.remaining capture.old) (R.remaining capture.new)
        × IfHandedIn tree.entry tree.exit (λ old new. IsAtEnd (R.remaining new))) }

    // The tree is read after the capture.
    ensures capture_first { R.has_failed capture.new ≡ true → IfHandedIn tree.entry tree.exit (λ old new. new ≡ old) }

    // When each fault comes.
    ensures read { IsErrOf result RunFault.Read →
        FailedOrInterrupted (R.has_failed capture.new) (R.was_interrupted capture.new)
        ⊎ IsHandedIn tree.entry tree.exit (λ old new. IsUnread MAX_TEXT_INPUT_BYTES (R.remaining old) (R.has_failed new) (R.was_interrupted new)) }
    ensures failed { (R.has_failed capture.new ≡ true) ⊎ IsHandedIn tree.entry tree.exit (λ old new. R.has_failed new ≡ true)
        → IsErrOf result RunFault.Read }
    ensures write { IsErrOf result RunFault.Write ↔ (W.is_broken out.new ≡ true) }

    // Nothing was written.
    ensures unread { IsErrOf result RunFault.Read →
        Keeps (W.written out.old) (W.written out.new) }
    ensures refused { IsErrOf result RunFault.Memory →
        Keeps (W.written out.old) (W.written out.new) }
{
    match tree {
        None => judge_on_empty_root(alloc, seed, capture, budget, listener, out),
        Some(tree) => judge_on_tree(alloc, seed, capture, tree, budget, listener, out),
    }
}

/// Reads the capture, tells what is judged on an empty root, and keeps the order.
fn keep_on_empty_root<R: Input, L: Listener, V: Output, W: Output>(
    alloc: Global,
    seed: Seed,
    capture: &mut R,
    budget: Budget,
    listener: &mut L,
    order_out: &mut V,
    out: &mut W,
) -> Result<u8, RunFault>
    requires capture_unfailed { R.has_failed capture.old ≡ false }
    requires capture_uninterrupted { R.was_interrupted capture.old ≡ false }
    requires order_unbroken { V.is_broken order_out.old ≡ false }
    requires unbroken { W.is_broken out.old ≡ false }
    ensures told { IfOk result (IsJudgedAndKept (R.remaining capture.old) (λ read. read ≡ None)
        (V.written order_out.old) (V.written order_out.new) (W.written out.old) (W.written out.new)) }
    ensures end { OnOk result (IsAtEndOrFault (R.remaining capture.old) (R.remaining capture.new)) }
    ensures read { IsErrOf result RunFault.Read →
        FailedOrInterrupted (R.has_failed capture.new) (R.was_interrupted capture.new) }
    ensures failed { R.has_failed capture.new ≡ true → IsErrOf result RunFault.Read }
    ensures write { IsErrOf result RunFault.Write ↔ ((W.is_broken out.new ≡ true) ⊎ (V.is_broken order_out.new ≡ true)) }
    ensures untouched { result ≢ Ok 0 → V.is_broken order_out.new ≡ false → order_out.new ≡ order_out.old }
    ensures lines_stand { V.is_broken order_out.new ≡ true → IsJudgedFrom (R.remaining capture.old) (λ read. read ≡ None)
        (W.written out.old) (W.written out.new) 0 }
    ensures unread { IsErrOf result RunFault.Read →
        Keeps (W.written out.old) (W.written out.new) }
    ensures refused { IsErrOf result RunFault.Memory →
        Keeps (W.written out.old) (W.written out.new) }
{
    let stored = stored_capture(alloc, capture)?;
    let decision = decided(
        alloc,
        &stored.capture().with_seed(seed),
        None,
        budget,
        listener,
    );
    tell_and_keep(alloc, &decision, order_out, out)
}

/// Reads the capture and then the tree, tells what is judged on that tree, and keeps the order.
fn keep_on_tree<R: Input, L: Listener, V: Output, W: Output>(
    alloc: Global,
    seed: Seed,
    capture: &mut R,
    tree: &mut R,
    budget: Budget,
    listener: &mut L,
    order_out: &mut V,
    out: &mut W,
) -> Result<u8, RunFault>
    requires capture_unfailed { R.has_failed capture.old ≡ false }
    requires capture_uninterrupted { R.was_interrupted capture.old ≡ false }
    requires tree_unfailed { R.has_failed tree.old ≡ false }
    requires tree_uninterrupted { R.was_interrupted tree.old ≡ false }
    requires order_unbroken { V.is_broken order_out.old ≡ false }
    requires unbroken { W.is_broken out.old ≡ false }
    ensures told { IfOk result (IsJudgedAndKept (R.remaining capture.old) (IsSomeRead (R.remaining tree.old))
        (V.written order_out.old) (V.written order_out.new) (W.written out.old) (W.written out.new)) }
    ensures end { OnOk result (IsAtEndOrFault (R.remaining capture.old) (R.remaining capture.new) × IsAtEnd (R.remaining tree.new)) }
    ensures capture_first { R.has_failed capture.new ≡ true → tree.new ≡ tree.old }
    ensures read { IsErrOf result RunFault.Read →
        FailedOrInterrupted (R.has_failed capture.new) (R.was_interrupted capture.new)
        ⊎ IsUnread MAX_TEXT_INPUT_BYTES (R.remaining tree.old) (R.has_failed tree.new) (R.was_interrupted tree.new) }
    ensures failed { (R.has_failed capture.new ≡ true) ⊎ (R.has_failed tree.new ≡ true) →
        IsErrOf result RunFault.Read }
    ensures write { IsErrOf result RunFault.Write ↔ ((W.is_broken out.new ≡ true) ⊎ (V.is_broken order_out.new ≡ true)) }
    ensures untouched { result ≢ Ok 0 → V.is_broken order_out.new ≡ false → order_out.new ≡ order_out.old }
    ensures lines_stand { V.is_broken order_out.new ≡ true → IsJudgedFrom (R.remaining capture.old) (IsSomeRead (R.remaining tree.old))
        (W.written out.old) (W.written out.new) 0 }
    ensures unread { IsErrOf result RunFault.Read →
        Keeps (W.written out.old) (W.written out.new) }
    ensures refused { IsErrOf result RunFault.Memory →
        Keeps (W.written out.old) (W.written out.new) }
{
    let stored = stored_capture(alloc, capture)?;
    let tree = input_bytes(alloc, tree, MAX_TEXT_INPUT_BYTES)?;
    let decision = decided(
        alloc,
        &stored.capture().with_seed(seed),
        Some(&tree),
        budget,
        listener,
    );
    tell_and_keep(alloc, &decision, order_out, out)
}

/// Judges a capture by a search of all its orders as [`run_judge`] does, and keeps the order that was found: behind the lines of the answer
/// its text is written to an output of its own, by one put, where the answer is `legal`. Else that output is not touched.
///
/// So whoever is told that a capture is legal has what [`run`](crate::run) checks that by. No mark of an input or of an output is set at the
/// call.
///
/// # Errors
///
/// - [`RunFault::Read`] as of [`run_judge`].
/// - [`RunFault::Write`] where one of the outputs did not take the whole text. The lines are written first.
/// - [`RunFault::Memory`] where memory was refused.
///
/// Nothing was written at `Read` and `Memory`, where the outputs tell their bytes. At `Write` nothing is said of what went out.
///
/// # Cost
///
/// That of [`run_judge`], and of [`write_order`].
pub fn run_judge_and_keep<R: Input, L: Listener, V: Output, W: Output>(
    alloc: Global,
    seed: Seed,
    capture: &mut R,
    tree: Option<&mut R>,
    budget: Budget,
    listener: &mut L,
    order_out: &mut V,
    out: &mut W,
) -> Result<u8, RunFault>
    requires capture_unfailed { R.has_failed capture.old ≡ false }
    requires capture_uninterrupted { R.was_interrupted capture.old ≡ false }
    requires tree_unfailed { IfSome tree (λ r. R.has_failed r.now ≡ false) }
    requires tree_uninterrupted { IfSome tree (λ r. R.was_interrupted r.now ≡ false) }
    requires order_unbroken { V.is_broken order_out.old ≡ false }
    requires unbroken { W.is_broken out.old ≡ false }

    // What is told of the bytes that were read, or the line of their fault, and of which order the text was kept.
    ensures told { IfOk result (IsJudgedAndKept (R.remaining capture.old) (IsReadIfAny R.remaining tree.entry)
        (V.written order_out.old) (V.written order_out.new) (W.written out.old) (W.written out.new)) }

    // The capture is read to its end, or as far as it has a framing fault whatever follows; the tree to its end.
    ensures end { OnOk result (IsAtEndOrFault (R.remaining capture.old) (R.remaining capture.new)
        × IfHandedIn tree.entry tree.exit (λ old new. IsAtEnd (R.remaining new))) }

    // The tree is read after the capture.
    ensures capture_first { R.has_failed capture.new ≡ true → IfHandedIn tree.entry tree.exit (λ old new. new ≡ old) }

    // When each fault comes.
    ensures read { IsErrOf result RunFault.Read →
        FailedOrInterrupted (R.has_failed capture.new) (R.was_interrupted capture.new)
        ⊎ IsHandedIn tree.entry tree.exit (λ old new. IsUnread MAX_TEXT_INPUT_BYTES (R.remaining old) (R.has_failed new) (R.was_interrupted new)) }
    ensures failed { (R.has_failed capture.new ≡ true) ⊎ IsHandedIn tree.entry tree.exit (λ old new. R.has_failed new ≡ true)
        → IsErrOf result RunFault.Read }
    ensures write { IsErrOf result RunFault.Write ↔ ((W.is_broken out.new ≡ true) ⊎ (V.is_broken order_out.new ≡ true)) }

    // The output of the order is touched only where the answer is `legal` and its lines were taken.
    ensures untouched { result ≢ Ok 0 → V.is_broken order_out.new ≡ false → order_out.new ≡ order_out.old }

    // Where it did not take the order the lines of `legal` stand.
    ensures lines_stand { V.is_broken order_out.new ≡ true → IsJudgedFrom (R.remaining capture.old) (IsReadIfAny R.remaining tree.entry)
        (W.written out.old) (W.written out.new) 0 }

    // Nothing was written.
    ensures unread { IsErrOf result RunFault.Read →
        Keeps (W.written out.old) (W.written out.new) }
    ensures refused { IsErrOf result RunFault.Memory →
        Keeps (W.written out.old) (W.written out.new) }
{
    match tree {
        None => keep_on_empty_root(alloc, seed, capture, budget, listener, order_out, out),
        Some(tree) => keep_on_tree(alloc, seed, capture, tree, budget, listener, order_out, out),
    }
}
