//! What is answered of an order.

/// What is answered of a capture, a first tree and an order.
#[derive(Clone, Copy, Debug, PartialEq, Eq, Hash)]
pub enum Verdict {
    /// The capture is good, and the order explains each recorded reply.
    Legal {
        /// The messages in the capture.
        messages: u32,
        /// The entries of the order.
        placed: u32,
        /// The unanswered tree requests that the order leaves out.
        left: u32,
    },
    /// The first fault of the capture.
    Fault {
        /// The number of the message that does not pass, counted from 0, or the number of whole messages where the
        /// bytes behind them are no record.
        at: u32,
        /// The first check that fails there, one of [`codes`](fa_capture::codes).
        code: u16,
    },
    /// The capture is good, but this order is not valid or no run of the tree machine that gives the recorded replies.
    NotShown {
        /// The first entry at fault, counted from 0, or the number of entries where an answered request is left out.
        entry: u32,
        /// The message number in that entry, or the least one of an answered request that is left out.
        at: u32,
        /// The first check that the entry fails, one of [`codes`](fa_capture::codes).
        code: u16,
    },
}
