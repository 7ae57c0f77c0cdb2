//! From the inputs of a search to the text of an order that is legal.

ghost use Rattle.std.specs.Prelude.{◌≡◌, ◌≢◌, ◌≤◌, ◌↔◌, ◌⊎◌, ℕ, false, true, List, None, Ok, Err, length, IfOk, IfErr, IfSome, IsOk, OnOk, IsErrOf};
ghost use Rattle.std.specs.Option.{option_copied};
ghost use Rattle.std.specs.Io.KnownBytes.{IsAtEnd, Keeps};
ghost use Rattle.fa_capture.specs.Captures.{IsCaptureOf};
ghost use Rattle.fa_ledger.specs.Passing.{IsFirstFault};
ghost use Rattle.fa_order.specs.declared.lines.TheConstants.{MAX_TEXT_BYTES};
ghost use Rattle.fa_search.specs.Searches.{IsEndless};
ghost use Rattle.fa_audit.specs.Verdict.{IsTreeTextAtFault, ExactlyRefused};
ghost use Rattle.fa_audit.specs.Line.{IsCoded, IsCodedSearch};
ghost use Rattle.fa_audit.specs.Run.{IfHandedIn, IsHandedIn, IsSomeRead, IsReadIfAny, IsUnread, FailedOrInterrupted, IsAtEndOrFault};
ghost use Rattle.fa_audit.specs.declared.found.Searched.TheVariants.{GaveUp};
ghost use Rattle.fa_audit.specs.declared.running.TheConstants.{MAX_TEXT_INPUT_BYTES};
ghost use Rattle.fa_audit.specs.Proposed.{IsStart, answer_of};
ghost use Rattle.fa_audit.specs.Searched.{IsSearched, IsSearchTold, IsSearchedFrom};
ghost use Rattle.fa_audit.specs.Starts.{IsNoStart};

use crate::deciding::{decided, tell_judgement};
use crate::found::{Decision, Judgement, Searched};
use crate::running::{MAX_TEXT_INPUT_BYTES, RunFault, input_bytes, stored_capture};
use crate::status::Status;
use crate::verdict::StartError;
use fa_capture::{Capture, Input, Output, Seed, read_capture};
use fa_order::write_order;
use fa_search::{Budget, Listener, Nobody};
use std::alloc::Global;

/// The text of an order that is legal for a capture, from the tree that the server began with; or that there is none.
///
/// The capture is judged and the tree text is read as [`audit`](crate::audit) does it. All orders are searched, as
/// [`search`](fa_search::search) does it within the budget. It gives up only where requests overlap and the order of
/// [`proposal`](crate::proposal) is not legal, and never with [`Budget::endless`]. Where there is no order, the first messages alone are
/// searched too: mostly twice, and 2 + 2 log₂(messages) times at most, each time with a tenth of the steps, at most 4,096 trees and 64 MiB.
/// The tree text has at most 268,435,456 bytes.
///
/// # Errors
///
/// - [`StartError::Fault`] exactly where the capture is not good: at the least number of a message that does not pass or of the
///   framing fault, with the first check that it fails, as one of [`codes`](fa_capture::codes).
/// - [`StartError::TreeText`] exactly where the capture is good and the tree text that is handed in is not in its grammar.
/// - [`StartError::Memory`] where memory was refused.
///
/// # Cost
///
/// That of [`audit`](crate::audit) up to the order text, of [`search`](fa_search::search) and of [`write_order`]. Where there is no order,
/// that of each further search too, with the calls made and the tree copied anew.
pub fn search_order(
    alloc: Global,
    capture: &[u8],
    tree: Option<&[u8]>,
    budget: Budget,
) -> Result<Searched, StartError>
    requires { IfSome (option_copied tree) (λ text. length text ≤ MAX_TEXT_BYTES) }

    // It is answered exactly where the capture is good and a tree text that is handed in is in its grammar.
    ensures answer { IfOk result (IsSearched capture.now (option_copied tree.entry)) }
    ensures start { IsStart capture.now (option_copied tree.entry) → IsOk result ⊎ IsErrOf result StartError.Memory }
    ensures decides { (at : ℕ) → IsEndless budget → result ≡ Ok (GaveUp at) → ⊥ }

    ensures fault { (at code : ℕ) → ExactlyRefused result StartError.Memory
        (StartError.Fault at code) (IsFirstFault capture.now at code) }
    ensures tree_text { (line : ℕ) → ExactlyRefused result StartError.Memory
        (StartError.TreeText line) (IsTreeTextAtFault capture.now (option_copied tree.entry) line) }

    // A code that is told has a text.
    ensures codes { IfOk result IsCodedSearch }
    ensures fault_codes { IfErr result (λ error. IfOk (answer_of error) IsCoded) }
{
    searched(alloc, &read_capture(capture), tree, budget, &mut Nobody)
}

/// What a search answers of a capture that was read.
fn searched<L: Listener>(
    alloc: Global,
    capture: &Capture<'_>,
    tree: Option<&[u8]>,
    budget: Budget,
    listener: &mut L,
) -> Result<Searched, StartError>
    requires { IfSome (option_copied tree) (λ text. length text ≤ MAX_TEXT_BYTES) }
    ensures answer { IfOk result (λ searched. (bytes : List ℕ) → IsCaptureOf bytes capture.now → IsSearched bytes (option_copied tree.entry) searched) }
    ensures none { IfErr result (λ error. (bytes : List ℕ) → IsCaptureOf bytes capture.now → IsNoStart bytes (option_copied tree.entry) error) }
    ensures decides { (at : ℕ) → IsEndless budget → result ≡ Ok (GaveUp at) → ⊥ }
{
    match decided(alloc, capture, tree, budget, listener)? {
        Decision::Legal { order, .. } => Ok(Searched::Order(write_order(alloc, &order)?)),
        Decision::NoOrder { at, code, shortest } => Ok(Searched::NoOrder { at, code, shortest }),
        Decision::GaveUp { at } => Ok(Searched::GaveUp { at }),
    }
}

/// Writes the order text that was found, or the lines of any other answer: the status of the answer.
fn tell_search<W: Output>(
    alloc: Global,
    searched: Result<Searched, StartError>,
    out: &mut W,
) -> Result<u8, RunFault>
    requires coded { IfOk searched IsCodedSearch }
    requires coded_fault { IfErr searched (λ error. IfOk (answer_of error) IsCoded) }
    requires unbroken { W.is_broken out.old ≡ false }
    ensures told { IfOk result (IsSearchTold searched (W.written out.old) (W.written out.new)) }
    ensures answered { OnOk result (searched ≢ Err StartError.Memory) }
    ensures memory { IsErrOf result RunFault.Memory →
        Keeps (W.written out.old) (W.written out.new) }
    ensures read { IsErrOf result RunFault.Read → ⊥ }
    ensures write { IsErrOf result RunFault.Write ↔ (W.is_broken out.new ≡ true) }
{
    match searched {
        Ok(Searched::Order(text)) => {
            out.put(&text)?;
            Ok(Status::Legal.number())
        }
        Ok(Searched::NoOrder { at, code, shortest }) => {
            tell_judgement(alloc, Ok(Judgement::NoOrder { at, code, shortest }), out)
        }
        Ok(Searched::GaveUp { at }) => tell_judgement(alloc, Ok(Judgement::GaveUp { at }), out),
        Err(error) => tell_judgement(alloc, Err(error), out),
    }
}

/// Reads the capture, and tells what is found on an empty root.
fn search_on_empty_root<R: Input, L: Listener, W: Output>(
    alloc: Global,
    seed: Seed,
    capture: &mut R,
    budget: Budget,
    listener: &mut L,
    out: &mut W,
) -> Result<u8, RunFault>
    requires capture_unfailed { R.has_failed capture.old ≡ false }
    requires capture_uninterrupted { R.was_interrupted capture.old ≡ false }
    requires unbroken { W.is_broken out.old ≡ false }
    ensures told { IfOk result (IsSearchedFrom (R.remaining capture.old) (λ read. read ≡ None)
        (W.written out.old) (W.written out.new)) }
    ensures end { OnOk result (IsAtEndOrFault (R.remaining capture.old) (R.remaining capture.new)) }
    ensures read { IsErrOf result RunFault.Read →
        FailedOrInterrupted (R.has_failed capture.new) (R.was_interrupted capture.new) }
    ensures failed { R.has_failed capture.new ≡ true → IsErrOf result RunFault.Read }
    ensures write { IsErrOf result RunFault.Write ↔ (W.is_broken out.new ≡ true) }
    ensures unread { IsErrOf result RunFault.Read → Keeps (W.written out.old) (W.written out.new) }
    ensures refused { IsErrOf result RunFault.Memory → Keeps (W.written out.old) (W.written out.new) }
{
    let stored = stored_capture(alloc, capture)?;
    tell_search(
        alloc,
        searched(
            alloc,
            &stored.capture().with_seed(seed),
            None,
            budget,
            listener,
        ),
        out,
    )
}

/// Reads the capture and then the tree, and tells what is found on that tree.
fn search_on_tree<R: Input, L: Listener, W: Output>(
    alloc: Global,
    seed: Seed,
    capture: &mut R,
    tree: &mut R,
    budget: Budget,
    listener: &mut L,
    out: &mut W,
) -> Result<u8, RunFault>
    requires capture_unfailed { R.has_failed capture.old ≡ false }
    requires capture_uninterrupted { R.was_interrupted capture.old ≡ false }
    requires tree_unfailed { R.has_failed tree.old ≡ false }
    requires tree_uninterrupted { R.was_interrupted tree.old ≡ false }
    requires unbroken { W.is_broken out.old ≡ false }
    ensures told { IfOk result (IsSearchedFrom (R.remaining capture.old) (IsSomeRead (R.remaining tree.old))
        (W.written out.old) (W.written out.new)) }
    ensures end { OnOk result (IsAtEndOrFault (R.remaining capture.old) (R.remaining capture.new) × IsAtEnd (R.remaining tree.new)) }
    ensures capture_first { R.has_failed capture.new ≡ true → tree.new ≡ tree.old }
    ensures read { IsErrOf result RunFault.Read →
        FailedOrInterrupted (R.has_failed capture.new) (R.was_interrupted capture.new)
        ⊎ IsUnread MAX_TEXT_INPUT_BYTES (R.remaining tree.old) (R.has_failed tree.new) (R.was_interrupted tree.new) }
    ensures failed { (R.has_failed capture.new ≡ true) ⊎ (R.has_failed tree.new ≡ true) →
        IsErrOf result RunFault.Read }
    ensures write { IsErrOf result RunFault.Write ↔ (W.is_broken out.new ≡ true) }
    ensures unread { IsErrOf result RunFault.Read → Keeps (W.written out.old) (W.written out.new) }
    ensures refused { IsErrOf result RunFault.Memory → Keeps (W.written out.old) (W.written out.new) }
{
    let stored = stored_capture(alloc, capture)?;
    let tree = input_bytes(alloc, tree, MAX_TEXT_INPUT_BYTES)?;
    tell_search(
        alloc,
        searched(
            alloc,
            &stored.capture().with_seed(seed),
            Some(&tree),
            budget,
            listener,
        ),
        out,
    )
}

/// Searches all orders of a capture: reads the capture, and then the tree if one is handed in, writes the text of an order that is legal
/// by one put, and answers the status.
///
/// Where there is none, `no order: message N: code C: TEXT` and a line feed are written, and behind them, where M is found, `the first M
/// messages alone have no order` and a line feed; where the budget was spent before it is known whether there is one, `gave up: message N`
/// and a line feed; and where there is no start for an order the line of the fault and a line feed, as [`run`](crate::run) writes them. The
/// status is 0 with an order text, 1 at a fault of the capture, 3 where the tree text is not in its grammar, 6 where there is no order, and 7
/// where the search gave up. The inputs are read before anything is judged, as [`run`](crate::run) reads them. The listener is told how far
/// each search has come, as [`search`] tells it. Tables are hashed with the seed. No mark of an input or of the output is set at the call.
///
/// Which bytes were read and written is said where the inputs and the output tell their bytes, as those over memory do. Files and
/// standard output do not: of a call on them it is said alone that the status is that of an answer on some bytes.
///
/// # Errors
///
/// - [`RunFault::Read`] where an input failed or did not come to its end, or where a text has more than [`MAX_TEXT_INPUT_BYTES`]
///   bytes.
/// - [`RunFault::Write`] where the output did not take the whole text.
/// - [`RunFault::Memory`] where memory was refused.
///
/// Nothing was written at `Read` and `Memory`, where the output tells its bytes. At `Write` nothing is said of what went out.
///
/// # Cost
///
/// That of [`run`](crate::run) for the inputs, and of [`search_order`].
pub fn run_search<R: Input, L: Listener, W: Output>(
    alloc: Global,
    seed: Seed,
    capture: &mut R,
    tree: Option<&mut R>,
    budget: Budget,
    listener: &mut L,
    out: &mut W,
) -> Result<u8, RunFault>
    requires capture_unfailed { R.has_failed capture.old ≡ false }
    requires capture_uninterrupted { R.was_interrupted capture.old ≡ false }
    requires tree_unfailed { IfSome tree (λ r. R.has_failed r.now ≡ false) }
    requires tree_uninterrupted { IfSome tree (λ r. R.was_interrupted r.now ≡ false) }
    requires unbroken { W.is_broken out.old ≡ false }

    // What is told of the bytes that were read, or the line of their fault.
    ensures told { IfOk result (IsSearchedFrom (R.remaining capture.old) (IsReadIfAny R.remaining tree.entry)
        (W.written out.old) (W.written out.new)) }

    // The capture is read to its end, or as far as it has a framing fault whatever follows; the tree to its end.
    ensures end { OnOk result (IsAtEndOrFault (R.remaining capture.old) (R.remaining capture.new)
        × IfHandedIn tree.entry tree.exit (λ old new. IsAtEnd (R.remaining new))) }

    // The tree is read after the capture.
    ensures capture_first { R.has_failed capture.new ≡ true → IfHandedIn tree.entry tree.exit (λ old new. new ≡ old) }

    // When each fault comes.
    ensures read { IsErrOf result RunFault.Read →
        FailedOrInterrupted (R.has_failed capture.new) (R.was_interrupted capture.new)
        ⊎ IsHandedIn tree.entry tree.exit (λ old new. IsUnread MAX_TEXT_INPUT_BYTES (R.remaining old) (R.has_failed new) (R.was_interrupted new)) }
    ensures failed { (R.has_failed capture.new ≡ true) ⊎ IsHandedIn tree.entry tree.exit (λ old new. R.has_failed new ≡ true)
        → IsErrOf result RunFault.Read }
    ensures write { IsErrOf result RunFault.Write ↔ (W.is_broken out.new ≡ true) }

    // Nothing was written.
    ensures unread { IsErrOf result RunFault.Read →
        Keeps (W.written out.old) (W.written out.new) }
    ensures refused { IsErrOf result RunFault.Memory →
        Keeps (W.written out.old) (W.written out.new) }
{
    match tree {
        None => search_on_empty_root(alloc, seed, capture, budget, listener, out),
        Some(tree) => search_on_tree(alloc, seed, capture, tree, budget, listener, out),
    }
}
