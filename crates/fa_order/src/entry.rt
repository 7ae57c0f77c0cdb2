//! The entries of an order.

/// An entry of an order: a request, by the number of its message, and where it is an unanswered WRITE how many bytes it wrote.
#[derive(Clone, Copy, Debug, PartialEq, Eq, Hash)]
pub struct Entry {
    pub at: u32,
    pub wrote: Option<u32>,
}
