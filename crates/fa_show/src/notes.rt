//! What came of the messages so far.

use crate::asked::message_in;
use crate::pairing::{Fate, Pairing};
use fa_capture::{Capture, Direction, Packet, Packets, Seed};
use fa_session::Event;
use indexmap::IndexMap;
use std::alloc::{AllocError, Global};

/// The messages that are still to come, what came of those before, and which requests wait for their answers.
#[derive(Drop)]
pub(crate) struct Notes<'a> {
    packets: Packets<'a>,
    pairing: Pairing<'a>,
    /// The numbers of the requests that wait, by their uniques.
    waiting: IndexMap<u64, u32, Seed>,
}

impl<'a> Notes<'a> {
    /// Nothing came of these messages yet.
    pub fn new(alloc: Global, capture: &Capture<'a>) -> Self {
        Notes {
            packets: capture.packets(),
            pairing: Pairing::new(alloc),
            waiting: IndexMap::with_hasher(alloc, capture.seed),
        }
    }

    /// What came of the messages.
    pub fn into_pairing(self) -> Pairing<'a> {
        self.pairing
    }

    /// The next message, with its number.
    pub fn next(&mut self) -> Result<Option<(u32, Packet<'a>)>, AllocError> {
        let packets = self.packets;
        let Some(packet) = self.packets.next() else {
            return Ok(None);
        };
        let number = self.pairing.begin(packets)?;
        Ok(Some((number, packet)))
    }

    /// Notes that a message is taken.
    pub fn take(&mut self, number: u32, event: &Event<'_>) -> Result<(), AllocError> {
        match event {
            Event::Asked { message, .. } => {
                if message.request.body.may_be_answered() {
                    self.waiting.insert(message.request.unique, number)?;
                }
            }
            Event::Answered { messages, .. } => {
                let asked = self.waiting.swap_remove(&messages.to.request.unique);
                self.answer(number, asked, None);
            }
            Event::Notice { .. } => {}
        }
        Ok(())
    }

    /// Notes that a message is refused.
    pub fn refuse(&mut self, number: u32, packet: &Packet<'_>, code: u16) {
        let asked = self.refused_reply_to(packet);
        self.answer(number, asked, Some(code));
    }

    /// Notes a reply to a request, with the code if it is refused.
    fn answer(&mut self, number: u32, asked: Option<u32>, code: Option<u16>) {
        if let Some(asked) = asked {
            self.pairing.pair(asked, number);
        }
        self.pairing.set(
            number,
            Fate {
                partner: asked,
                code,
            },
        );
    }

    /// The request whose reply is refused: the one that waits with its unique.
    fn refused_reply_to(&self, packet: &Packet<'_>) -> Option<u32> {
        if packet.direction == Direction::ToServer {
            return None;
        }
        let told = message_in(packet)?;
        self.waiting.get(&told.unique).copied()
    }
}
