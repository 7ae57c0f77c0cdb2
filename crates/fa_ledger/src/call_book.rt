//! The calls so far: a row of each, and what only some have.

ghost use Rattle.std.specs.Prelude.{◌≡◌, ◌<◌, ℕ, [], ◌∷◌, ◌++◌, length, map, slice_get, Some, None, OnOk, OnErr, IfSome, IfNone};
ghost use Rattle.std.specs.List.Sorted.{IsStrictlyIncreasing};
ghost use Rattle.fa_ledger.specs.Calls.{PlainCall, call_shown};
ghost use Rattle.fa_ledger.specs.parts.CallParts.{WaitsAt, waiting_of};
ghost use Rattle.fa_ledger.specs.parts.RowParts.{AreNotBoth};
ghost use Rattle.fa_ledger.specs.parts.Ids.{IsGivenIn, IsIdIn};
ghost use Rattle.fa_ledger.specs.parts.Steps.{given_names_shown, with_answer, IsSeveral};

use crate::call::Call;
use crate::giving::GivenNames;
use crate::messages::CallMessages;
use crate::row::{Aside, Beside, Gives, Row, WaitingCall};
use std::alloc::{AllocError, Global};
use std::marker::Model;

/// Calls in the order in which they were added, by rising numbers of their requests. To the books it is its calls, and room for
/// the names of some listings more.
#[derive(Drop)]
pub(crate) struct CallBook<'a> {
    /// What is kept of each, as plain data.
    pub rows: Vec<Row<'a>>,
    /// What only some have. Their rows have the places.
    pub aside: Aside,
}

impl<'a> Model for CallBook<'a> {
    ghost use Rattle.fa_ledger.specs.parts.CallsKept.{CallsKept};

    ghost Value = { CallsKept };

    ghost use Rattle.fa_ledger.specs.parts.CallParts.{book_shown, AllStand};

    ghost view = { book_shown };

    ghost invariant = { AllStand };
}

impl<'a> CallBook<'a> {
    /// No calls. What it stores later takes memory from `alloc`.
    pub fn new(alloc: Global) -> Self
        ensures { result.calls ≡ [] }
    {
        CallBook {
            rows: Vec::new(alloc),
            aside: Aside {
                besides: Vec::new(alloc),
                listed: Vec::new(alloc),
            },
        }
    }

    /// Adds a call that waits for its answer.
    ///
    /// Takes memory for a row, and for the other node or the listing if there is one. In constant time but for growing.
    #[inline(always)]
    pub fn push(&mut self, call: Call<'a>) -> Result<(), AllocError>
        requires waits { call.answer ≡ None }
        requires named { IsIdIn call.messages.request.now call.node }
        requires apart { AreNotBoth call.other call.listing }
        ensures pushed { OnOk result (self.new.calls ≡ self.old.calls ++ call_shown call.entry ∷ []) }
        ensures unchanged { OnErr result (self.new.calls ≡ self.old.calls) }
    {
        self.rows.reserve(1)?;
        let beside = Beside::new(call.other, call.listing).put_in(&mut self.aside.besides)?;
        self.rows.push_reserved(Row::waiting(call, beside));
        Ok(())
    }

    /// The place of the call that waits under this number, and what is known of it. It is looked for at the place `hint` first.
    ///
    /// Takes no memory. In constant time where it stands there, and in logarithmic time otherwise.
    #[inline(always)]
    pub fn find(&self, asked: u32, hint: usize) -> Option<(usize, WaitingCall)>
        requires rising { IsStrictlyIncreasing (map (λ call. call.asked) self.now.calls) }
        ensures some { IfSome result (λ found. (call : PlainCall) × WaitsAt self.now.calls asked found.0 call × (found.1 ≡ waiting_of call)) }
        ensures none { IfNone result ((place : ℕ) (call : PlainCall) → WaitsAt self.now.calls asked place call → ⊥) }
    {
        let place = self.place_hinted(asked, hint)?;
        let waiting = self.rows[place].waiting_call(&self.aside)?;
        Some((place, waiting))
    }

    /// The place of the call of this message number, looked for at the place `hint` first.
    ///
    /// Takes no memory. In constant time where it stands there, and in logarithmic time otherwise.
    #[inline(always)]
    fn place_hinted(&self, at: u32, hint: usize) -> Option<usize>
        requires rising { IsStrictlyIncreasing (map (λ call. call.asked) self.now.calls) }
        ensures found { IfSome result (λ place. (call : PlainCall) × (slice_get self.now.calls place ≡ Some call) × (call.asked ≡ at)) }
        ensures none { IfNone result ((place : ℕ) (call : PlainCall) → slice_get self.now.calls place ≡ Some call → call.asked ≡ at → ⊥) }
    {
        match self.rows.get(hint) {
            Some(row) if row.asked == at => Some(hint),
            _ => self.place_of(at),
        }
    }

    /// Makes room for the names that an answer gives, so that it can be noted without memory. Only those of a listing want some.
    #[inline(always)]
    pub fn reserve_names(&mut self, given: &GivenNames) -> Result<(), AllocError>
        ensures same { self.new.calls ≡ self.old.calls }
        ensures room { OnOk result (IsSeveral given.now → 0 < self.new.room) }
        ensures wanted { OnErr result (IsSeveral given.now) }
    {
        match given {
            GivenNames::Several(_) => {
                // Their place is a number of four bytes. There are fewer than 2 ^ 24 messages, so it always is one.
                if u32::try_from(self.aside.listed.len()).is_err() {
                    return Err(AllocError);
                }
                self.aside.listed.reserve(1)
            }
            GivenNames::Nothing | GivenNames::One(_) => Ok(()),
        }
    }

    /// Notes the answer of this number to the call at a place, which waits for it, with both messages.
    ///
    /// Takes no memory, in constant time.
    #[inline(always)]
    pub fn answer(
        &mut self,
        place: usize,
        messages: CallMessages<'a>,
        at: u32,
        given: GivenNames,
        opens: bool,
    )
        requires waits { (asked : ℕ) × (call : PlainCall) × WaitsAt self.old.calls asked place call }
        requires rising { IsStrictlyIncreasing (map (λ call. call.asked) self.old.calls) }
        requires named { (asked : ℕ) (call : PlainCall) → WaitsAt self.old.calls asked place call → IsIdIn messages.request.now call.node }
        requires given { IsGivenIn messages.reply.now given }
        requires room { IsSeveral given → 0 < self.old.room }
        ensures { (asked : ℕ) (call : PlainCall) → WaitsAt self.old.calls asked place call
            → self.new.calls ≡ with_answer self.old.calls asked messages.entry.said.0 (record { at = at; given = given_names_shown given; opens = opens }) }
    {
        let gives = Gives::new(given, &mut self.aside.listed);
        self.rows[place].note_answer(messages, at, gives, opens);
    }

    /// How many calls there are.
    #[inline(always)]
    pub fn len(&self) -> usize
        ensures { result ≡ length self.now.calls }
    {
        self.rows.len()
    }

    /// The place of the call of this message number, if there is one. Where the numbers rise, None says that there is none.
    ///
    /// Takes no memory, in logarithmic time.
    pub fn place_of(&self, at: u32) -> Option<usize>
        ensures found { IfSome result (λ place. (call : PlainCall) × (slice_get self.now.calls place ≡ Some call) × (call.asked ≡ at)) }
        ensures none { IsStrictlyIncreasing (map (λ call. call.asked) self.now.calls) → IfNone result ((place : ℕ) (call : PlainCall) → slice_get self.now.calls place ≡ Some call → call.asked ≡ at → ⊥) }
    {
        self.rows.binary_search_by_key(&at, |row| row.asked).ok()
    }
}
