//! What a search of all orders answers, what is decided by it, and what is judged.

ghost use Rattle.std.specs.Prelude.{◌≡◌};
ghost use Rattle.fa_audit.specs.Searched.{judgement_by};

use fa_order::Entry;

/// What a search answers of a capture that is good and a tree that is given.
#[derive(Debug, Drop)]
pub enum Searched {
    /// The text of an order that explains each recorded reply.
    Order(Vec<u8>),
    /// No order does.
    NoOrder {
        /// The number of the message past which none goes: some entries explain all replies before it, and none explain its own
        /// too.
        at: u32,
        /// The code with which its request is refused after entries that do, one of [`codes`](fa_capture::codes); the least
        /// where there are several.
        code: u16,
        /// How many of the first messages have no order alone, as a capture of their own, while one fewer have one: `at` + 1 or more.
        /// None where that was not found within the budget.
        shortest: Option<u32>,
    },
    /// The budget was spent before an answer was found.
    GaveUp {
        /// The number of the message at which the search ended: all replies before it are explained, and nothing is known from it
        /// on.
        at: u32,
    },
}

/// What is judged of a capture that is good and a tree that is given, by a search of all orders.
#[derive(Clone, Copy, Debug, PartialEq, Eq, Hash)]
pub enum Judgement {
    /// An order explains each recorded reply.
    Legal {
        /// The messages in the capture.
        messages: u32,
        /// The entries of the order that was found.
        placed: u32,
        /// The unanswered tree requests that it leaves out.
        left: u32,
    },
    /// No order does, as in [`Searched::NoOrder`].
    NoOrder {
        /// The number of the message past which none goes.
        at: u32,
        /// The least code with which its request is refused.
        code: u16,
        /// How many of the first messages alone have no order, while one fewer have one; where that was found.
        shortest: Option<u32>,
    },
    /// The budget was spent before an answer was found, as in [`Searched::GaveUp`].
    GaveUp {
        /// The number of the message at which the search ended.
        at: u32,
    },
}

/// What is judged of a capture that is good and a tree that is given, by a search of all orders, with the order that was found.
#[derive(Debug, Drop)]
pub enum Decision {
    /// This order explains each recorded reply.
    Legal {
        /// Its entries.
        order: Vec<Entry>,
        /// The messages in the capture.
        messages: u32,
        /// How many entries it has.
        placed: u32,
        /// The unanswered tree requests that it leaves out.
        left: u32,
    },
    /// No order does, as in [`Searched::NoOrder`].
    NoOrder {
        /// The number of the message past which none goes.
        at: u32,
        /// The least code with which its request is refused.
        code: u16,
        /// How many of the first messages alone have no order, while one fewer have one; where that was found.
        shortest: Option<u32>,
    },
    /// The budget was spent before an answer was found, as in [`Searched::GaveUp`].
    GaveUp {
        /// The number of the message at which the search ended.
        at: u32,
    },
}

impl Decision {
    /// What is judged, without the order.
    ///
    /// Takes no memory, in constant time.
    pub fn judgement(&self) -> Judgement
        ensures { result ≡ judgement_by self.now }
    {
        match *self {
            Decision::Legal {
                messages,
                placed,
                left,
                ..
            } => Judgement::Legal {
                messages,
                placed,
                left,
            },
            Decision::NoOrder { at, code, shortest } => Judgement::NoOrder { at, code, shortest },
            Decision::GaveUp { at } => Judgement::GaveUp { at },
        }
    }
}
