//! How far an order is placed.

ghost use Rattle.std.specs.Prelude.{◌≡◌, ◌↔◌, ◌+◌, ◌<◌, ◌++◌, ◌∷◌, [], ℕ, List, Some, length, set, slice_get, true, IsTrue, IfSome, IfNone, IfOk, IfErr, OnOk, OnErr};
ghost use Rattle.fa_capture.specs.Checks.{AllHold, FirstFailure};
ghost use Rattle.fa_capture.specs.Message.{Message};
ghost use Rattle.fa_ledger.specs.Calls.{PlainCall};
ghost use Rattle.fa_ledger.specs.Choices.{Allows};
ghost use Rattle.fa_ledger.specs.declared.calls.Calls.{Calls as TheCalls};
ghost use Rattle.fa_tree.specs.State.{TreeState};
ghost use Rattle.fa_order.specs.declared.entry.Entry.{Entry as TheEntry};
ghost use Rattle.fa_check.specs.Verdicts.{AreMessagesOf, IsVerdict};
ghost use Rattle.fa_check.specs.Marks.{IsUnset};
ghost use Rattle.fa_check.specs.Replays.{IsPlacing, IsCallOf, IsReplayed, NextFails, IsFront};
ghost use Rattle.fa_check.specs.parts.Placing.{place_checks, IsLeastLeft};

use crate::unplaced_answers::{UnplacedAnswers, unset};
use crate::verdict::Verdict;
use fa_capture::codes;
use fa_ledger::Calls;
use fa_order::Entry;
use fa_tree::{Replay, StepError, Tree};
use std::alloc::{AllocError, Global};

/// Which calls are placed by the entries of an order so far, one entry after the other.
#[derive(Debug, Drop)]
pub struct Placing {
    /// For each call, by its place in the list, whether it is placed.
    marks: Vec<bool>,
    /// The answers of those that are not.
    waiting: UnplacedAnswers,
    /// How many are placed, which is how many entries there were.
    pub(crate) count: u32,
}

impl Placing {
    /// None of these calls.
    ///
    /// `AllocError` where memory was refused. A byte for each message and each call, in linear time.
    pub fn new(alloc: Global, calls: &Calls<'_>) -> Result<Self, AllocError>
        ensures { IfOk result (λ placing. (first : TreeState) → IsReplayed calls.now first first [] placing) }
    {
        Ok(Placing {
            marks: unset(alloc, calls.list.len())?,
            waiting: UnplacedAnswers::all(alloc, calls)?,
            count: 0,
        })
    }

    /// The place in the list of the call of this message number, if there is one.
    ///
    /// Takes no memory. Constant time where as many calls are placed as stand before it, as in an order in which all are placed one
    /// after the other; logarithmic in the calls otherwise.
    fn place_of(&self, calls: &Calls<'_>, at: u32) -> Option<usize>
        ensures found { IfSome result (λ place. (call : PlainCall) × (slice_get calls.now.list place ≡ Some call) × (call.asked ≡ at)) }
        ensures none { IfNone result ((place : ℕ) (call : PlainCall) → slice_get calls.now.list place ≡ Some call → call.asked ≡ at → ⊥) }
    {
        let next = self.count as usize;
        if next < calls.list.len() && calls.list.call(next).asked == at {
            return Some(next);
        }
        calls.find(at)
    }

    /// The place of the call that an entry names, where the entry may come next. The error is the code of the first check of
    /// its place that it fails.
    fn check(&self, calls: &Calls<'_>, entry: Entry) -> Result<usize, u16>
        requires { IsPlacing calls.now.list calls.now.messages self.now }
        ensures found { IfOk result (λ place. IsCallOf calls.now.list place entry.at) }
        ensures holds { OnOk result (AllHold (place_checks calls.now.list self.now.marks.items entry)) }
        ensures fault { IfErr result (FirstFailure (place_checks calls.now.list self.now.marks.items entry)) }
    {
        let Some(place) = self.place_of(calls, entry.at) else {
            return Err(codes::NO_TREE_REQUEST);
        };
        if self.marks[place] {
            return Err(codes::PLACED_TWICE);
        }
        if self.waiting.front < entry.at as usize {
            return Err(codes::EARLIER_NOT_PLACED);
        }
        if !allows(calls, place, entry.wrote) {
            return Err(codes::CHOICE_NOT_ALLOWED);
        }
        Ok(place)
    }

    /// Notes that the call at this place is placed.
    fn note(&mut self, calls: &Calls<'_>, place: usize)
        requires shape { IsPlacing calls.now.list calls.now.messages self.old }
        requires unplaced { IsUnset self.old.marks.items place }
        ensures shape { IsPlacing calls.now.list calls.now.messages self.new }
        ensures marked { self.new.marks.items ≡ set self.old.marks.items place true }
        ensures counted { self.new.count ≡ self.old.count + 1 }
    {
        self.marks[place] = true;
        self.count += 1;
        if let Some(answer) = calls.list.call(place).answer {
            self.waiting.remove(answer.at);
        }
    }

    /// The number of the first message that answers a tree request which is not placed, or that of all messages where none
    /// does. No request that was sent behind it may come next.
    ///
    /// Takes no memory, in constant time.
    pub fn front(&self) -> usize
        ensures { (calls : TheCalls) (first tree : TreeState) (es : List TheEntry) → IsReplayed calls first tree es self.now → (c : List Message) → AreMessagesOf calls c → IsFront c es result }
    {
        self.waiting.front
    }

    /// Places the next entry of an order, and takes the step of its call from the tree that the entries before it left. The calls
    /// are those of [`new`](Placing::new).
    ///
    /// # Errors
    ///
    /// Nothing is placed then, and the tree is as it was.
    ///
    /// - `Refused` with the code of the first check that the entry fails, of its place or else of its step
    ///   ([`check`](crate::check) has them in order).
    /// - `Memory` where memory was refused.
    ///
    /// # Cost
    ///
    /// Time logarithmic in the calls, beside that of the step. To find the next answer that waits, all entries of an order
    /// together look at each message once.
    pub fn place(
        &mut self,
        calls: &Calls<'_>,
        tree: &mut Tree,
        entry: Entry,
    ) -> Result<(), StepError>
        requires { IsPlacing calls.now.list calls.now.messages self.old }
        ensures placed { OnOk result ((first : TreeState) (es : List TheEntry) → IsReplayed calls.now first tree.old es self.old → IsReplayed calls.now first tree.new (es ++ entry ∷ []) self.new) }
        ensures refused { IfErr result (NextFails calls.now tree.old entry self.old) }
        ensures unchanged { OnErr result ((self.new ≡ self.old) × (tree.new ≡ tree.old)) }
    {
        let mut replay = Replay::new(*self.marks.allocator(), tree.seed(), calls);
        self.place_in(&mut replay, tree, entry)
    }

    /// The same, for whoever places several entries of an order: the calls are those of the replay, which stay the same.
    ///
    /// # Errors
    ///
    /// Those of [`place`](Placing::place). Nothing is placed then, the tree is as it was, and the next entry may be placed along
    /// the same replay.
    ///
    /// # Cost
    ///
    /// That of `place`, with the step's as [`Tree::step_in`](fa_tree::Tree::step_in) has it.
    pub fn place_in(
        &mut self,
        replay: &mut Replay<'_>,
        tree: &mut Tree,
        entry: Entry,
    ) -> Result<(), StepError>
        requires { IsPlacing replay.old.list replay.old.messages self.old }
        ensures placed { OnOk result ((first : TreeState) (es : List TheEntry) → IsReplayed replay.old first tree.old es self.old → IsReplayed replay.old first tree.new (es ++ entry ∷ []) self.new) }
        ensures refused { IfErr result (NextFails replay.old tree.old entry self.old) }
        ensures unchanged { OnErr result ((self.new ≡ self.old) × (tree.new ≡ tree.old)) }
        ensures same { replay.new ≡ replay.old }
    {
        let calls = replay.calls();
        let place = self.check(calls, entry)?;
        tree.step_in(replay, place, entry.wrote)?;
        self.note(calls, place);
        Ok(())
    }

    /// The least message number of an answered call that is not placed.
    ///
    /// Takes no memory. Constant time where no answer waits, as after a legal order; linear in the calls otherwise.
    fn least_left(&self, calls: &Calls<'_>) -> Option<u32>
        requires { IsPlacing calls.now.list calls.now.messages self.now }
        ensures { IsLeastLeft calls.now.list self.now.marks.items result }
    {
        if self.waiting.is_empty() {
            return None;
        }
        for place in 0..calls.list.len() {
            let call = calls.list.call(place);
            if call.answer.is_some() && !self.marks[place] {
                return Some(call.asked);
            }
        }
        None
    }

    /// What is answered after all entries.
    pub(crate) fn verdict(&self, calls: &Calls<'_>) -> Verdict
        requires { IsPlacing calls.now.list calls.now.messages self.now }
        ensures { (first last : TreeState) (es : List TheEntry) → IsReplayed calls.now first last es self.now → (c : List Message) → AreMessagesOf calls.now c → IsVerdict c first es result }
    {
        match self.least_left(calls) {
            Some(at) => Verdict::NotShown {
                entry: self.count,
                at,
                code: codes::ANSWERED_LEFT_OUT,
            },
            None => Verdict::Legal {
                messages: calls.messages,
                placed: self.count,
                left: calls.list.len() as u32 - self.count,
            },
        }
    }
}

/// Whether an order may name the call at this place with this count of bytes written, or without one, as
/// [`Call::allows`](fa_ledger::Call::allows) says. Of a call with an answer it looks at nothing else.
#[inline(always)]
fn allows(calls: &Calls<'_>, place: usize, wrote: Option<u32>) -> bool
    requires { place < length calls.now.list }
    ensures { (call : PlainCall) → slice_get calls.now.list place ≡ Some call → IsTrue result ↔ Allows call wrote }
{
    match calls.list.call(place).answer {
        Some(_) => wrote.is_none(),
        None => calls.list.call(place).allows(wrote),
    }
}
