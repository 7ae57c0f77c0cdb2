//! What a page says of a server.

use crate::fault::Fault;

/// What was found of a server, which is seen in the colour of the verdict.
#[derive(Clone, Copy)]
pub enum Outcome {
    /// Nothing is at fault: green.
    Legal,
    /// Another order may explain what this one does not, or it is not known whether one does: amber.
    Open,
    /// A message breaks the protocol, or no order is legal: red.
    Fault,
}

impl Outcome {
    /// That of an order in which this is at fault: it is open where an entry is, unless no order is legal.
    ///
    /// Takes no memory, in constant time.
    pub fn of(fault: Fault, is_without_order: bool) -> Outcome {
        match fault {
            Fault::Nothing => Outcome::Legal,
            Fault::Entry { .. } if !is_without_order => Outcome::Open,
            Fault::Entry { .. } | Fault::Message { .. } => Outcome::Fault,
        }
    }

    /// The tag in front of the verdict, with its class.
    pub(crate) fn opening_tag(self) -> &'static str {
        match self {
            Outcome::Legal => "<h1 class=\"legal\">",
            Outcome::Open => "<h1 class=\"open\">",
            Outcome::Fault => "<h1 class=\"fault\">",
        }
    }
}
