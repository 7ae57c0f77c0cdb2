//! The calls of messages, as they are handed out.

ghost use Rattle.std.specs.Prelude.{◌≡◌, ◌<◌, ℕ, length, map, slice_get, Some, option_map, IfSome, IfNone};
ghost use Rattle.std.specs.List.Sorted.{IsStrictlyIncreasing};
ghost use Rattle.fa_ledger.specs.Calls.{PlainCall, call_shown};

use crate::call::Call;
use crate::call_book::CallBook;
use std::marker::Model;

/// Calls in the order in which they were added, by rising numbers of their requests in a [`Calls`](crate::Calls). To its callers
/// a list is its calls.
#[derive(Drop)]
pub struct CallList<'a> {
    /// Where they are kept. [`get`](CallList::get) and [`call`](CallList::call) go to its rows themselves: with one function more
    /// on the way, the compiler clears room for a call before it is read.
    book: CallBook<'a>,
}

impl<'a> Model for CallList<'a> {
    ghost use Rattle.std.specs.Prelude.{List};
    ghost use Rattle.fa_ledger.specs.Calls.{PlainCall};

    ghost Value = { List PlainCall };

    ghost use Rattle.fa_ledger.specs.parts.CallParts.{list_shown};

    ghost view = { list_shown };
}

impl<'a> CallList<'a> {
    /// The calls of a book.
    pub(crate) fn new(book: CallBook<'a>) -> Self
        ensures { result ≡ book.entry.calls }
    {
        CallList { book }
    }

    /// How many calls there are.
    ///
    /// Takes no memory, in constant time.
    #[inline(always)]
    pub fn len(&self) -> usize
        ensures { result ≡ length self.now }
    {
        self.book.len()
    }

    /// The call at this place, if there is one.
    ///
    /// Takes no memory, in constant time.
    #[inline(always)]
    pub fn get(&self, place: usize) -> Option<Call<'_>>
        ensures { option_map call_shown result ≡ slice_get self.now place }
    {
        let book = &self.book;
        let row = book.rows.get(place)?;
        Some(row.call(&book.aside))
    }

    /// The call at this place, which is below [`len`](CallList::len).
    ///
    /// Takes no memory, in constant time.
    #[inline(always)]
    pub fn call(&self, place: usize) -> Call<'_>
        requires { place < length self.now }
        ensures { slice_get self.now place ≡ Some (call_shown result) }
    {
        let book = &self.book;
        book.rows[place].call(&book.aside)
    }

    /// The place of the call of this message number, if there is one. Where the numbers rise, None says that there is none.
    ///
    /// Takes no memory, in logarithmic time.
    #[inline(always)]
    pub(crate) fn place_of(&self, at: u32) -> Option<usize>
        ensures found { IfSome result (λ place. (call : PlainCall) × (slice_get self.now place ≡ Some call) × (call.asked ≡ at)) }
        ensures none { IsStrictlyIncreasing (map (λ call. call.asked) self.now) → IfNone result ((place : ℕ) (call : PlainCall) → slice_get self.now place ≡ Some call → call.asked ≡ at → ⊥) }
    {
        self.book.place_of(at)
    }
}
