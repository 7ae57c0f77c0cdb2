//! Which answers wait for an entry that places their requests.

ghost use Rattle.std.specs.Prelude.{◌≡◌, ◌↔◌, ℕ, ◌<◌, ◌^◌, false, length, set, position, IsTrue, IfOk};
ghost use Rattle.fa_check.specs.Marks.{AreUnset, IsFirstSet, IsSet};
ghost use Rattle.fa_check.specs.parts.Placing.{AreAnswers};

use fa_ledger::Calls;
use std::alloc::{AllocError, Global};

/// Which messages answer tree requests that are not placed.
#[derive(Debug, Drop)]
pub(crate) struct UnplacedAnswers {
    /// For each message whether it is such an answer.
    answers: Vec<bool>,
    /// The number of the first that is, or that of all messages where none is.
    pub front: usize,
}

impl UnplacedAnswers {
    /// All answers of these calls.
    pub fn all(alloc: Global, calls: &Calls<'_>) -> Result<Self, AllocError>
        ensures wide { IfOk result (λ unplaced. length unplaced.answers.items ≡ calls.now.messages) }
        ensures few { IfOk result (λ unplaced. length unplaced.answers.items < 2 ^ 32) }
        ensures answers { IfOk result (λ unplaced. AreAnswers calls.now.list unplaced.answers.items) }
        ensures front { IfOk result (λ unplaced. IsFirstSet unplaced.answers.items unplaced.front) }
    {
        let answers = answers_of(alloc, calls)?;
        let front = first_set(&answers);
        Ok(UnplacedAnswers { answers, front })
    }

    /// Whether none waits.
    pub fn is_empty(&self) -> bool
        requires { IsFirstSet self.now.answers.items self.now.front }
        ensures { IsTrue result ↔ ((at : ℕ) → IsSet self.now.answers.items at → ⊥) }
    {
        self.front == self.answers.len()
    }

    /// Takes an answer away, since its request is placed.
    pub fn remove(&mut self, at: u32)
        requires within { at < length self.old.answers.items }
        requires front { IsFirstSet self.old.answers.items self.old.front }
        ensures removed { self.new.answers.items ≡ set self.old.answers.items at false }
        ensures front { IsFirstSet self.new.answers.items self.new.front }
    {
        self.answers[at as usize] = false;
        let (_, rest) = self.answers.split_at(self.front);
        self.front += first_set(rest);
    }
}

/// For each message whether it answers a tree request.
fn answers_of(alloc: Global, calls: &Calls<'_>) -> Result<Vec<bool>, AllocError>
    ensures wide { IfOk result (λ marks. length marks.items ≡ calls.now.messages) }
    ensures few { IfOk result (λ marks. length marks.items < 2 ^ 32) }
    ensures answers { IfOk result (λ marks. AreAnswers calls.now.list marks.items) }
{
    let mut marks = unset(alloc, calls.messages as usize)?;
    for place in 0..calls.list.len() {
        if let Some(answer) = calls.list.call(place).answer {
            marks[answer.at as usize] = true;
        }
    }
    Ok(marks)
}

/// So many marks that are not set.
pub(crate) fn unset(alloc: Global, count: usize) -> Result<Vec<bool>, AllocError>
    ensures { IfOk result (λ marks. AreUnset count marks.items) }
{
    vec![in alloc; false; count]
}

/// The place of the first mark that is set.
fn position_set(marks: &[bool]) -> Option<usize>
    ensures { result ≡ position (λ is_set. is_set) marks.now }
{
    marks.iter().position(|is_set| *is_set)
}

/// The place of the first mark that is set, or how many there are where none is.
fn first_set(marks: &[bool]) -> usize
    ensures { IsFirstSet marks.now result }
{
    match position_set(marks) {
        Some(place) => place,
        None => marks.len(),
    }
}
