//! The audit: what a capture, a tree and an order are.

ghost use Rattle.std.specs.Prelude.{◌≡◌, ◌≤◌, ℕ, List, Option, length, Ok, Err, IfOk, IfErr, IfSome};
ghost use Rattle.std.specs.Option.{option_copied};
ghost use Rattle.fa_capture.specs.Captures.{IsCaptureOf};
ghost use Rattle.fa_ledger.specs.Passing.{IsFirstFault};
ghost use Rattle.fa_order.specs.declared.lines.TheConstants.{MAX_TEXT_BYTES};
ghost use Rattle.fa_order.specs.Order.{IsOrderText};
ghost use Rattle.fa_audit.specs.Verdict.{IsGivenTree, IsLegal, IsTreeTextAtFault, IsOrderTextAtFault, IsNotShown, Exactly};
ghost use Rattle.fa_audit.specs.Line.{IsCoded};
ghost use Rattle.fa_audit.specs.Starts.{IsStartOf, IsNoStart, IsOrderRefused};
ghost use Rattle.fa_audit.specs.parts.Answers.{Tells, IsTreeRefused};

use crate::protocol::{good_calls, good_calls_of_bytes};
use crate::verdict::{AuditError, StartError};
use fa_capture::{Capture, Seed};
use fa_check::{Verdict, check};
use fa_ledger::Calls;
use fa_order::{Entry, TextError, read_order};
use fa_tree::Tree;
use fa_tree_text::read_tree;
use std::alloc::Global;

/// The permission bits of the root where no tree text is handed in.
pub const ROOT_BITS: u16 = 0o755;

/// Judges a capture and an order of its requests, from the tree that the server began with.
///
/// The capture is judged message by message, by the message grammar of fuse.h 7.31 and this profile's rules of a session, of
/// nodes and of file handles. Then the tree text is read, if one is handed in, and the order text, both in this profile's formats;
/// without a tree text the tree is an empty root with the permission bits 755 (octal). Then each entry is placed and carried out
/// on the tree, by steps modelled on POSIX.1-2017. Each text has at most 268,435,456 bytes.
///
/// - [`Verdict::Fault`] exactly where the capture is not good: at the least number of a message that does not pass or
///   of the framing fault, with the first check that it fails, as one of [`codes`](fa_capture::codes).
/// - [`Verdict::NotShown`] exactly where the capture is good, the texts are in their grammar, and an entry fails a check or an
///   answered request is in no entry: at the first such entry, with the first check that it fails, or after all entries at the
///   least such request.
/// - [`Verdict::Legal`] exactly where the capture is good, the texts are in their grammar and the entries are a valid
///   order and a run of the tree machine from that tree that gives each recorded reply.
///
/// # Errors
///
/// - [`AuditError::TreeText`] exactly where the capture is good and the tree text that is handed in is not in its grammar.
/// - [`AuditError::OrderText`] exactly where the capture is good, no tree text that is handed in is at fault, and the order text
///   is not in its grammar.
/// - [`AuditError::Memory`] where memory was refused.
///
/// # Cost
///
/// Expected time, as of hash tables, linear in the bytes of the capture and of the texts, but for a logarithm for each entry and
/// for what the steps and the lines of the tree text take ([`Tree::step`], [`Tree::add`]). Memory for two bytes a
/// message, for what the session and the ledger keep, for a call a tree request, for an entry a line and for the tree; message
/// bytes are not copied but where files hold them.
pub fn audit(
    alloc: Global,
    capture: &[u8],
    tree: Option<&[u8]>,
    order: &[u8],
) -> Result<Verdict, AuditError>
    requires tree_text { IfSome (option_copied tree) (λ text. length text ≤ MAX_TEXT_BYTES) }
    requires order_text { length order.now ≤ MAX_TEXT_BYTES }

    ensures legal { (messages placed left : ℕ) → Exactly result
        (Ok (Verdict.Legal messages placed left)) (IsLegal capture.now (option_copied tree.entry) order.now messages placed left) }
    ensures fault { (at code : ℕ) → Exactly result
        (Ok (Verdict.Fault at code)) (IsFirstFault capture.now at code) }
    ensures tree_text { (line : ℕ) → Exactly result
        (Err (AuditError.TreeText line)) (IsTreeTextAtFault capture.now (option_copied tree.entry) line) }
    ensures order_text { (line : ℕ) → Exactly result
        (Err (AuditError.OrderText line)) (IsOrderTextAtFault capture.now (option_copied tree.entry) order.now line) }
    ensures not_shown { (entry at code : ℕ) → Exactly result
        (Ok (Verdict.NotShown entry at code)) (IsNotShown capture.now (option_copied tree.entry) order.now entry at code) }

    // A code that is told has a text.
    ensures codes { IfOk result IsCoded }
{
    answer_of_bytes(alloc, capture, tree, order)
}

/// Judges a capture that was read, as [`audit`] judges one by its bytes.
///
/// It may have come in pieces, as those of a [`Feed`](fa_capture::Feed). Where it is judged against several orders, its framing is
/// judged once. Of one by its bytes [`audit`] judges the framing as it comes to each record, and goes through the bytes once.
///
/// # Errors
///
/// Those of [`audit`].
///
/// # Cost
///
/// That of [`audit`], but for the framing.
pub fn audit_capture(
    alloc: Global,
    capture: &Capture<'_>,
    tree: Option<&[u8]>,
    order: &[u8],
) -> Result<Verdict, AuditError>
    requires tree_text { IfSome (option_copied tree) (λ text. length text ≤ MAX_TEXT_BYTES) }
    requires order_text { length order.now ≤ MAX_TEXT_BYTES }

    // What is answered is said of the bytes that this is the capture of.
    ensures legal { (bytes : List ℕ) → IsCaptureOf bytes capture.now → (messages placed left : ℕ) → Exactly result
        (Ok (Verdict.Legal messages placed left)) (IsLegal bytes (option_copied tree.entry) order.now messages placed left) }
    ensures fault { (bytes : List ℕ) → IsCaptureOf bytes capture.now → (at code : ℕ) → Exactly result
        (Ok (Verdict.Fault at code)) (IsFirstFault bytes at code) }
    ensures tree_text { (bytes : List ℕ) → IsCaptureOf bytes capture.now → (line : ℕ) → Exactly result
        (Err (AuditError.TreeText line)) (IsTreeTextAtFault bytes (option_copied tree.entry) line) }
    ensures order_text { (bytes : List ℕ) → IsCaptureOf bytes capture.now → (line : ℕ) → Exactly result
        (Err (AuditError.OrderText line)) (IsOrderTextAtFault bytes (option_copied tree.entry) order.now line) }
    ensures not_shown { (bytes : List ℕ) → IsCaptureOf bytes capture.now → (entry at code : ℕ) → Exactly result
        (Ok (Verdict.NotShown entry at code)) (IsNotShown bytes (option_copied tree.entry) order.now entry at code) }

    // A code that is told has a text.
    ensures codes { IfOk result IsCoded }
{
    answer(alloc, capture, tree, order)
}

/// The tree that the server began with.
pub(crate) fn given_tree(alloc: Global, seed: Seed, tree: Option<&[u8]>) -> Result<Tree, StartError>
    requires { IfSome (option_copied tree) (λ text. length text ≤ MAX_TEXT_BYTES) }
    ensures given { IfOk result (IsGivenTree (option_copied tree.entry)) }
    ensures refused { IfErr result (IsTreeRefused (option_copied tree.entry)) }
{
    let Some(text) = tree else {
        return Ok(Tree::empty(alloc, seed, ROOT_BITS)?);
    };
    match read_tree(alloc, seed, text) {
        Ok(tree) => Ok(tree),
        Err(TextError::Line(line)) => Err(StartError::TreeText { line }),
        Err(TextError::Memory) => Err(StartError::Memory),
    }
}

/// What an order starts with: the calls of a good capture, and the tree that the server began with.
///
/// # Errors
///
/// - [`StartError::Fault`] at the first fault of a capture that is not good.
/// - [`StartError::TreeText`] where the capture is good and the tree text that is handed in is not in its grammar.
/// - [`StartError::Memory`] where memory was refused.
///
/// # Cost
///
/// That of [`Session::accept`](fa_session::Session::accept) and [`Ledger::accept`](fa_ledger::Ledger::accept) for each message, and of
/// [`read_tree`].
pub fn start<'a>(
    alloc: Global,
    capture: &Capture<'a>,
    tree: Option<&[u8]>,
) -> Result<(Calls<'a>, Tree), StartError>
    requires { IfSome (option_copied tree) (λ text. length text ≤ MAX_TEXT_BYTES) }
    ensures good { IfOk result (λ start. (bytes : List ℕ) → IsCaptureOf bytes capture.now → IsStartOf bytes (option_copied tree.entry) start.0 start.1) }
    ensures none { IfErr result (λ error. (bytes : List ℕ) → IsCaptureOf bytes capture.now → IsNoStart bytes (option_copied tree.entry) error) }
{
    let calls = good_calls(alloc, capture)?;
    let first = given_tree(alloc, capture.seed, tree)?;
    Ok((calls, first))
}

/// What an order starts with, as [`start`] tells it, where the capture is given by its bytes: their records are gone through once.
///
/// # Errors
///
/// Those of [`start`].
///
/// # Cost
///
/// That of [`start`], and constant time for each record, which is judged for the framing here.
pub(crate) fn start_of_bytes<'a>(
    alloc: Global,
    bytes: &'a [u8],
    tree: Option<&[u8]>,
) -> Result<(Calls<'a>, Tree), StartError>
    requires { IfSome (option_copied tree) (λ text. length text ≤ MAX_TEXT_BYTES) }
    ensures good { IfOk result (λ start. IsStartOf bytes.now (option_copied tree.entry) start.0 start.1) }
    ensures none { IfErr result (IsNoStart bytes.now (option_copied tree.entry)) }
{
    let calls = good_calls_of_bytes(alloc, bytes)?;
    let first = given_tree(alloc, Seed::default(), tree)?;
    Ok((calls, first))
}

/// The entries of an order text of at most 268,435,456 bytes.
///
/// # Errors
///
/// - [`AuditError::OrderText`] where it is not in its grammar.
/// - [`AuditError::Memory`] where memory was refused.
///
/// # Cost
///
/// That of [`read_order`].
pub fn entries_of(alloc: Global, order: &[u8]) -> Result<Vec<Entry>, AuditError>
    requires { length order.now ≤ MAX_TEXT_BYTES }
    ensures text { IfOk result (λ entries. IsOrderText order.now entries.items) }
    ensures refused { IfErr result (IsOrderRefused order.now) }
{
    match read_order(alloc, order) {
        Ok(entries) => Ok(entries),
        Err(TextError::Line(line)) => Err(AuditError::OrderText { line }),
        Err(TextError::Memory) => Err(AuditError::Memory),
    }
}

/// An answer for the capture, the tree and the order.
fn answer(
    alloc: Global,
    capture: &Capture<'_>,
    tree: Option<&[u8]>,
    order: &[u8],
) -> Result<Verdict, AuditError>
    requires tree_text { IfSome (option_copied tree) (λ text. length text ≤ MAX_TEXT_BYTES) }
    requires order_text { length order.now ≤ MAX_TEXT_BYTES }
    ensures { (bytes : List ℕ) → IsCaptureOf bytes capture.now → Tells bytes (option_copied tree.entry) order.now result }
{
    match start(alloc, capture, tree) {
        Ok((calls, first)) => answer_from(alloc, &calls, first, order),
        Err(error) => error.answer(),
    }
}

/// An answer for the capture by its bytes, the tree and the order.
fn answer_of_bytes(
    alloc: Global,
    capture: &[u8],
    tree: Option<&[u8]>,
    order: &[u8],
) -> Result<Verdict, AuditError>
    requires tree_text { IfSome (option_copied tree) (λ text. length text ≤ MAX_TEXT_BYTES) }
    requires order_text { length order.now ≤ MAX_TEXT_BYTES }
    ensures { Tells capture.now (option_copied tree.entry) order.now result }
{
    match start_of_bytes(alloc, capture, tree) {
        Ok((calls, first)) => answer_from(alloc, &calls, first, order),
        Err(error) => error.answer(),
    }
}

/// An answer for an order, from what it starts with.
fn answer_from(
    alloc: Global,
    calls: &Calls<'_>,
    first: Tree,
    order: &[u8],
) -> Result<Verdict, AuditError>
    requires { length order.now ≤ MAX_TEXT_BYTES }
    ensures { (bytes : List ℕ) (tree : Option (List ℕ)) → IsStartOf bytes tree calls.now first → Tells bytes tree order.now result }
{
    let entries = entries_of(alloc, order)?;
    Ok(check(alloc, calls, first, &entries)?)
}
