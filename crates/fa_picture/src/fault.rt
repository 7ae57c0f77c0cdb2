//! What is at fault.

use fa_order::Entry;

/// What is at fault in a capture, or in an order that is to explain it.
#[derive(Clone, Copy)]
pub enum Fault {
    /// Nothing.
    Nothing,
    /// A message breaks the protocol, or a record is none.
    Message {
        /// The number of the message or record.
        at: u32,
        /// One of the codes 1 to 50 of [`fa_capture::codes`].
        code: u16,
    },
    /// An entry of the order is refused, or one is missing there.
    Entry {
        /// Its place in the order.
        entry: u32,
        /// The number of its request.
        at: u32,
        /// One of the codes 70 to 86 of [`fa_capture::codes`].
        code: u16,
    },
}

impl Fault {
    /// The number of the message at fault, and the code, if there is one.
    ///
    /// Takes no memory, in constant time.
    pub fn coded(self) -> Option<(u32, u16)> {
        match self {
            Fault::Nothing => None,
            Fault::Message { at, code } | Fault::Entry { at, code, .. } => Some((at, code)),
        }
    }

    /// Whether the message of this number is at fault.
    ///
    /// Takes no memory, in constant time.
    pub fn is_at(self, number: u32) -> bool {
        match self.coded() {
            Some((at, _)) => at == number,
            None => false,
        }
    }

    /// The code with which the message of this number is refused, if it is.
    ///
    /// Takes no memory, in constant time.
    pub(crate) fn refusal(self, number: u32) -> Option<u16> {
        match self {
            Fault::Message { at, code } if at == number => Some(code),
            _ => None,
        }
    }

    /// The entries of an order that stand before what is at fault: none, where that is a message, since then the order is not judged.
    ///
    /// Takes no memory, in constant time.
    pub fn entries_before(self, order: &[Entry]) -> &[Entry] {
        match self {
            Fault::Entry { entry, .. } => match order.split_at_checked(entry as usize) {
                Some((before, _)) => before,
                None => order,
            },
            Fault::Nothing => order,
            Fault::Message { .. } => &[],
        }
    }
}
