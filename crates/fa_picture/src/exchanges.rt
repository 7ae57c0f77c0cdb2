//! Which message answers which.

use crate::fault::Fault;
use crate::scene::readable;
use fa_bodies::{Request, opcodes};
use fa_capture::{Capture, Direction, Packet, Seed};
use fa_show::{Fate, Line, message_in};
use indexmap::IndexMap;
use std::alloc::{AllocError, Global};

/// Of each message of a capture the one that goes with it.
#[derive(Drop)]
pub struct Exchanges {
    /// By the numbers of messages: of a request its reply, of a reply its request.
    partners: Vec<Option<u32>>,
    /// What is at fault, which is left out of what follows.
    pub(crate) fault: Fault,
}

impl Exchanges {
    /// Which messages of a capture go together: a message of the server goes with the request that waits for its answer with the same
    /// unique (`struct fuse_out_header` of `fuse.h`), and that one waits no longer.
    ///
    /// In a capture that keeps the protocol these are the replies with their requests. The message at fault is left out of what follows:
    /// a request that is refused waits for no answer, and behind a reply that is refused its request waits on.
    ///
    /// # Errors
    ///
    /// [`AllocError`] where memory was refused.
    ///
    /// # Cost
    ///
    /// Expected the time of [`request_in`](fa_show::request_in) for each message. Eight bytes for each, and an entry for each of the most
    /// requests that wait at once.
    pub fn of(alloc: Global, capture: &Capture<'_>, fault: Fault) -> Result<Exchanges, AllocError> {
        let mut exchanges = Exchanges {
            partners: Vec::new(alloc),
            fault,
        };
        let mut waiting = IndexMap::with_hasher(alloc, capture.seed);
        exchanges.take(capture, &mut waiting)?;
        Ok(exchanges)
    }

    /// Takes in the messages of a capture.
    fn take(
        &mut self,
        capture: &Capture<'_>,
        waiting: &mut IndexMap<u64, u32, Seed>,
    ) -> Result<(), AllocError> {
        let mut number: u32 = 0;
        for packet in capture.packets() {
            let mut partner = None;
            if packet.direction == Direction::FromServer {
                partner = self.answer(number, &packet, waiting);
            } else if let Some(unique) = self.unique_to_answer(number, &packet) {
                waiting.insert(unique, number)?;
            }
            self.partners.push(partner)?;
            number = number.saturating_add(1);
        }
        Ok(())
    }

    /// The unique with which a message is a request that waits for an answer, if it is one.
    fn unique_to_answer(&self, number: u32, packet: &Packet<'_>) -> Option<u64> {
        if self.fault.refusal(number).is_some() {
            return None;
        }
        match readable(packet) {
            Some(request) if request.body.may_be_answered() => Some(request.unique),
            _ => None,
        }
    }

    /// The number of the request that a message of the server answers, if there is one: they go together.
    fn answer(
        &mut self,
        number: u32,
        packet: &Packet<'_>,
        waiting: &mut IndexMap<u64, u32, Seed>,
    ) -> Option<u32> {
        let Some(told) = message_in(packet) else {
            return None;
        };
        let Some(asked) = waiting.get(&told.unique).copied() else {
            return None;
        };
        if let Some(partner) = self.partners.get_mut(asked as usize) {
            *partner = Some(number);
        }
        if self.fault.refusal(number).is_none() {
            let _ = waiting.swap_remove(&told.unique);
        }
        Some(asked)
    }

    /// The number of the message that goes with the one of this number, if there is one: of a request its reply, or the last that was
    /// refused; of a reply its request.
    ///
    /// Takes no memory, in constant time.
    pub fn partner(&self, number: u32) -> Option<u32> {
        match self.partners.get(number as usize) {
            Some(partner) => *partner,
            None => None,
        }
    }

    /// Whether a request of this number that has no reply is taken to wait for one: not where it is refused, or is an INTERRUPT, which a
    /// server need not answer.
    ///
    /// Takes no memory, in constant time.
    pub(crate) fn waits(&self, number: u32, request: &Request<'_>) -> bool {
        let is_due = request.body.may_be_answered() && request.opcode != opcodes::INTERRUPT;
        is_due && self.fault.refusal(number).is_none()
    }

    /// The number of the request that ends with the message of this number, if it is the reply to one, and none came behind it.
    ///
    /// Takes no memory, in constant time.
    pub fn ended_by(&self, number: u32) -> Option<u32> {
        match self.partner(number) {
            Some(asked) if self.partner(asked) == Some(number) => Some(asked),
            _ => None,
        }
    }

    /// The line of a message, to be written as [`show`](fa_show::show) does: that of this number, with the request that it answers if it
    /// is a reply.
    ///
    /// Takes no memory, in constant time.
    pub fn line<'a>(
        &self,
        number: u32,
        packet: Packet<'a>,
        answered: Option<(u32, Packet<'a>)>,
    ) -> Line<'a> {
        Line {
            number,
            packet,
            fate: Fate {
                partner: self.partner(number),
                code: self.fault.refusal(number),
            },
            partner: answered,
        }
    }
}
