//! What a search finds.

use fa_order::Entry;

/// What a search finds.
#[derive(Debug, Drop)]
pub enum Finding {
    /// This order is legal, with the numbers that [`check`](fa_check::check) tells of it.
    Found {
        /// The entries.
        order: Vec<Entry>,
        /// How many they are.
        placed: u32,
        /// How many unanswered tree requests are in none of them, those that only read among them.
        left: u32,
    },
    /// No order is: no entries explain the reply of message `at` and all replies before it, and some explain all before it.
    NoOrder {
        /// The number of that message.
        at: u32,
        /// The code with which its request is refused after whatever entries explain the replies before, one of
        /// [`codes`](fa_capture::codes); the least where it is refused with several.
        code: u16,
    },
    /// The search gave up at message `at`, where its budget was spent: some entries explain the replies before it, and nothing is known from
    /// it on.
    GaveUp {
        /// The number of that message, which answers a tree request.
        at: u32,
    },
}
