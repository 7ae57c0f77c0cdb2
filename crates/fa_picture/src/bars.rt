//! Requests as bars.

use crate::fault::Fault;
use crate::mark::{Mark, Share};
use crate::numbered::Numbered;
use fa_bodies::Request;
use fa_capture::Packet;

/// The bar of a request, from it to its answer.
#[derive(Clone, Copy)]
pub(crate) struct Bar<'a> {
    /// The number of the request.
    pub begins: u32,
    /// The number of the message with which the bar ends: its answer, or the request itself where it waits for none; where it was never
    /// answered, one behind the messages that are drawn.
    pub ends: u32,
    pub packet: Packet<'a>,
    pub request: Request<'a>,
    /// The answer.
    pub answer: Option<Packet<'a>>,
    /// In which lane it lies.
    pub lane: u32,
    /// The place of its entry in the order, if it stands before what is at fault.
    pub entry: Option<u32>,
    /// Where the order places it, if that is between its request and its answer.
    pub mark: Option<Mark>,
}

impl Numbered for Bar<'_> {
    fn number(&self) -> u32 {
        self.begins
    }
}

impl Bar<'_> {
    /// Whether its request was to be answered, and was not.
    pub fn is_unanswered(&self) -> bool {
        self.answer.is_none() && self.ends > self.begins
    }

    /// Whether its request or its answer is at fault.
    pub fn is_at_fault(&self, fault: Fault) -> bool {
        fault.is_at(self.begins) || (self.answer.is_some() && fault.is_at(self.ends))
    }

    /// Notes that the entry of this place in the order is its own, and lies behind a message, beside others.
    pub fn place(&mut self, entry: u32, behind: u32, share: Share) {
        self.entry = Some(entry);
        self.mark = Mark::between(self.begins, self.ends, behind, share);
    }
}
