//! The calls of a capture.

ghost use Rattle.std.specs.Prelude.{◌≡◌, ℕ, List, length, slice_get, Some, IfSome, IfNone};
ghost use Rattle.fa_capture.specs.Message.{Message};
ghost use Rattle.fa_ledger.specs.Passing.{AreGood};
ghost use Rattle.fa_ledger.specs.Calls.{PlainCall, AreCalls};

use crate::call_list::CallList;

/// The tree requests of a capture whose messages all keep the protocol. Made by [`Ledger::into_calls`](crate::Ledger).
#[derive(Drop)]
pub struct Calls<'a> {
    /// How many messages came.
    pub messages: u32,
    /// Each tree request once, by rising numbers of their messages.
    pub list: CallList<'a>,
    // They are the calls of some messages that all keep the protocol.
    pub ghost good: { ∥ ((c : List Message) × AreGood c × (messages ≡ length c) × AreCalls c list) ∥₁ },
}

impl Calls<'_> {
    /// The place in the list of the tree request of this message number, if there is one.
    ///
    /// Takes no memory, in logarithmic time.
    pub fn find(&self, at: u32) -> Option<usize>
        ensures found { IfSome result (λ place. (call : PlainCall) × (slice_get self.now.list place ≡ Some call) × (call.asked ≡ at)) }
        ensures none { IfNone result ((place : ℕ) (call : PlainCall) → slice_get self.now.list place ≡ Some call → call.asked ≡ at → ⊥) }
    {
        self.list.place_of(at)
    }
}
