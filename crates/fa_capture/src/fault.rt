//! What is wrong with the framing of a capture.

/// The place and the code of a framing fault.
#[derive(Clone, Copy, Debug, PartialEq, Eq, Hash)]
pub struct CaptureFault {
    /// How many whole records stand before the fault: the number of the message that it would be.
    pub whole: u32,
    /// One of the codes 1 to 5 of [`codes`](crate::codes).
    pub code: u16,
}
