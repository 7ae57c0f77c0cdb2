//! The audit for C, and for each language that calls C: two functions over bytes, which `c/fa_audit.h` of the repository declares.
#![tactic(auto)]

ghost use Rattle.std.specs.Prelude.{◌≡◌, ◌≢◌, ◌≤◌, ◌<◌, ◌++◌, length, take, drop, string_bytes, IfOk, IfSome};
ghost use Rattle.std.specs.Option.{option_copied};
ghost use Rattle.fa_order.specs.declared.lines.TheConstants.{MAX_TEXT_BYTES};
ghost use Rattle.fa_audit.specs.Status.{status_number};
ghost use Rattle.fa_audit_c.specs.Told.{IsAnswered, IsToldInto, IsJudgementOf, IsJudgementToldInto, text_if};

use fa_audit::{
    Budget, MAX_CAPTURE_INPUT_BYTES, RunFault, Status, audit, judge_capture,
    judged_line_and_status, line_and_status,
};
use fa_order::MAX_TEXT_BYTES;
use std::alloc::Global;

/// Judges a capture and an order of its requests, as [`audit`] does: the status with which the program ends on files of these bytes.
///
/// The tree text is `tree` where `has_tree` is true; else the tree is an empty root. The line of the answer, without a line feed, is
/// written to the front of `line`, as much as there is room for, and `size` is the size of the whole line; 128 bytes have room for each.
/// The status is 5, the size 0 and `line` as it was, where memory was refused, or the capture has more than 402,653,184 bytes or a text
/// more than 268,435,456.
///
/// # Cost
///
/// That of [`audit`].
#[unsafe(no_mangle)]
pub extern "C" fn fa_audit_check(
    alloc: Global,
    capture: &[u8],
    tree: &[u8],
    has_tree: bool,
    order: &[u8],
    line: &mut [u8],
    size: &mut usize,
) -> u8
    ensures told { result < 5 →
        IsToldInto capture.now (text_if has_tree tree.now) order.now result size.new line.old line.new }
    ensures failed { result ≡ 5 → (size.new ≡ 0) × (line.new ≡ line.old) }
    ensures status { result ≤ 5 }
{
    *size = 0;
    let tree_length = if has_tree { tree.len() } else { 0 };
    if capture.len() > MAX_CAPTURE_INPUT_BYTES
        || tree_length > MAX_TEXT_BYTES
        || order.len() > MAX_TEXT_BYTES
    {
        return Status::Failed.number();
    }
    let Ok((text, status)) = answered(alloc, capture, text_of(tree, has_tree), order) else {
        return Status::Failed.number();
    };
    let text = text.as_bytes();
    *size = text.len();
    put_front(text, line);
    status.number()
}

/// Judges a capture by a search of all its orders, as [`judge_capture`] does: the status with which the program ends on files of these
/// bytes.
///
/// The tree text is `tree` where `has_tree` is true; else the tree is an empty root. The search may spend `steps` steps, and of the rest
/// it may take as much as [`Budget`] has. The line of the answer, without a line feed, is written to the front of `line`, as much as there
/// is room for, and `size` is the size of the whole line; 128 bytes have room for each. The status is 5, the size 0 and `line` as it was,
/// where memory was refused, or the capture has more than 402,653,184 bytes or the text more than 268,435,456.
///
/// # Cost
///
/// That of [`judge_capture`].
#[unsafe(no_mangle)]
pub extern "C" fn fa_audit_judge(
    alloc: Global,
    capture: &[u8],
    tree: &[u8],
    has_tree: bool,
    steps: u64,
    line: &mut [u8],
    size: &mut usize,
) -> u8
    ensures told { result ≢ 5 →
        IsJudgementToldInto capture.now (text_if has_tree tree.now) result size.new line.old line.new }
    ensures failed { result ≡ 5 → (size.new ≡ 0) × (line.new ≡ line.old) }
    ensures status { result ≤ 7 }
{
    *size = 0;
    let tree_length = if has_tree { tree.len() } else { 0 };
    if capture.len() > MAX_CAPTURE_INPUT_BYTES || tree_length > MAX_TEXT_BYTES {
        return Status::Failed.number();
    }
    let Ok((text, status)) = judged(alloc, capture, text_of(tree, has_tree), steps) else {
        return Status::Failed.number();
    };
    let whole = text.as_bytes();
    *size = whole.len();
    put_front(whole, line);
    status.number()
}

/// The tree text, where one is handed in.
fn text_of(text: &[u8], is_there: bool) -> Option<&[u8]>
    ensures text { option_copied result ≡ text_if is_there text.now }
{
    if is_there { Some(text) } else { None }
}

/// The line of the audit's answer, and its status.
fn answered(
    alloc: Global,
    capture: &[u8],
    tree: Option<&[u8]>,
    order: &[u8],
) -> Result<(String, Status), RunFault>
    requires tree_text { IfSome (option_copied tree) (λ text. length text ≤ MAX_TEXT_BYTES) }
    requires order_text { length order.now ≤ MAX_TEXT_BYTES }
    ensures told { IfOk result (λ told. IsAnswered capture.now (option_copied tree.entry) order.now (string_bytes told.0) (status_number told.1)) }
    ensures low { IfOk result (λ told. status_number told.1 < 5) }
{
    line_and_status(alloc, audit(alloc, capture, tree, order))
}

/// The line of what is judged, and its status.
fn judged(
    alloc: Global,
    capture: &[u8],
    tree: Option<&[u8]>,
    steps: u64,
) -> Result<(String, Status), RunFault>
    requires tree_text { IfSome (option_copied tree) (λ text. length text ≤ MAX_TEXT_BYTES) }
    ensures told { IfOk result (λ told. IsJudgementOf capture.now (option_copied tree.entry) (string_bytes told.0) (status_number told.1)) }
    ensures answered { IfOk result (λ told. status_number told.1 ≢ 5) }
    ensures status { IfOk result (λ told. status_number told.1 ≤ 7) }
{
    let budget = Budget {
        steps,
        ..Budget::default()
    };
    judged_line_and_status(alloc, judge_capture(alloc, capture, tree, budget))
}

/// Writes as much of a text as there is room for to the front of a place.
fn put_front(text: &[u8], place: &mut [u8])
    ensures { place.new ≡ take (length place.old) text.now ++ drop (length text.now) place.old }
{
    let count = text.len().min(place.len());
    place[..count].copy_from_slice(&text[..count]);
}
