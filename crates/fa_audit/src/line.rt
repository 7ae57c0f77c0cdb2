//! The line that tells an answer.

ghost use Rattle.std.specs.Prelude.{◌≡◌, IsSome, IfOk, string_bytes};
ghost use Rattle.fa_capture.specs.Codes.{text_of};
ghost use Rattle.fa_audit.specs.Line.{IsCoded, IsCodedJudgement, verdict_line, judgement_line, shortest_line, order_line, tree_line, code_text};

use crate::found::Judgement;
use fa_capture::codes;
use fa_check::Verdict;
use std::alloc::{AllocError, Global};

/// The line of a verdict, without a line feed. The code that the verdict tells, if any, is one of [`codes`].
///
/// - `legal: M messages, P placed, L left out`
/// - `fault: message N: code C: TEXT`
/// - `not shown: entry E: message N: code C: TEXT`
///
/// # Errors
///
/// `AllocError` where memory for the line was refused.
///
/// # Cost
///
/// Constant time and memory.
pub fn verdict_text(alloc: Global, verdict: &Verdict) -> Result<String, AllocError>
    requires { IsCoded verdict.now }
    ensures { IfOk result (λ line. string_bytes line ≡ verdict_line verdict.now) }
{
    match *verdict {
        Verdict::Legal {
            messages,
            placed,
            left,
        } => format!(in alloc; "legal: {messages} messages, {placed} placed, {left} left out"),
        Verdict::Fault { at, code } => {
            let text = text_of_code(code);
            format!(in alloc; "fault: message {at}: code {code}: {text}")
        }
        Verdict::NotShown { entry, at, code } => {
            let text = text_of_code(code);
            format!(in alloc; "not shown: entry {entry}: message {at}: code {code}: {text}")
        }
    }
}

/// The line of what is judged by a search, without a line feed. The code that it tells, if any, is one of [`codes`].
///
/// - `legal: M messages, P placed, L left out`
/// - `no order: message N: code C: TEXT`
/// - `gave up: message N`
///
/// # Errors
///
/// `AllocError` where memory for the line was refused.
///
/// # Cost
///
/// Constant time and memory.
pub fn judgement_text(alloc: Global, judgement: &Judgement) -> Result<String, AllocError>
    requires { IsCodedJudgement judgement.now }
    ensures { IfOk result (λ line. string_bytes line ≡ judgement_line judgement.now) }
{
    match *judgement {
        Judgement::Legal {
            messages,
            placed,
            left,
        } => verdict_text(
            alloc,
            &Verdict::Legal {
                messages,
                placed,
                left,
            },
        ),
        Judgement::NoOrder { at, code, .. } => {
            let text = text_of_code(code);
            format!(in alloc; "no order: message {at}: code {code}: {text}")
        }
        Judgement::GaveUp { at } => format!(in alloc; "gave up: message {at}"),
    }
}

/// The line that stands behind that of `no order`, without a line feed: `the first M messages alone have no order`.
///
/// # Errors
///
/// `AllocError` where memory for the line was refused.
///
/// # Cost
///
/// Constant time and memory.
pub fn shortest_text(alloc: Global, messages: u32) -> Result<String, AllocError>
    ensures { IfOk result (λ line. string_bytes line ≡ shortest_line messages) }
{
    format!(in alloc; "the first {messages} messages alone have no order")
}

/// The line of an order text that is not in its grammar, without a line feed: `order: line L: code 60: TEXT`, with its
/// first line that does not fit, counted from 1.
///
/// # Errors
///
/// `AllocError` where memory for the line was refused.
///
/// # Cost
///
/// Constant time and memory.
pub fn order_fault_text(alloc: Global, line: u32) -> Result<String, AllocError>
    ensures { IfOk result (λ text. string_bytes text ≡ order_line line) }
{
    let code = codes::NOT_AN_ORDER_TEXT;
    let text = text_of_code(code);
    format!(in alloc; "order: line {line}: code {code}: {text}")
}

/// The line of a tree text that is not in its grammar, without a line feed: `tree: line L: code 61: TEXT`, with its
/// first line that does not fit, counted from 1.
///
/// # Errors
///
/// `AllocError` where memory for the line was refused.
///
/// # Cost
///
/// Constant time and memory.
pub fn tree_fault_text(alloc: Global, line: u32) -> Result<String, AllocError>
    ensures { IfOk result (λ text. string_bytes text ≡ tree_line line) }
{
    let code = codes::NOT_A_TREE_TEXT;
    let text = text_of_code(code);
    format!(in alloc; "tree: line {line}: code {code}: {text}")
}

/// The text of a code.
fn text_of_code(code: u16) -> &'static str
    requires { IsSome (text_of code) }
    ensures { result.now ≡ code_text code }
{
    codes::text(code).unwrap()
}
