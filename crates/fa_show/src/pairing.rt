//! Which message answers which, and which are refused.

use fa_capture::{Packet, Packets};
use std::alloc::{AllocError, Global};

/// A place is kept of each message whose number this divides.
const STRIDE: u32 = 16;

/// What came of a message.
#[derive(Clone, Copy, Default)]
pub struct Fate {
    /// Of a request the number of its reply, or of the last that was refused; of a reply the number of its request.
    pub partner: Option<u32>,
    /// The code with which it was refused.
    pub code: Option<u16>,
}

/// The messages of a capture by their numbers, with what came of each.
#[derive(Drop)]
pub(crate) struct Pairing<'a> {
    fates: Vec<Fate>,
    /// Where the messages 0, 16, 32 and so on begin.
    places: Vec<Packets<'a>>,
}

impl<'a> Pairing<'a> {
    /// No messages.
    pub fn new(alloc: Global) -> Self {
        Pairing {
            fates: Vec::new(alloc),
            places: Vec::new(alloc),
        }
    }

    /// Takes in the next message, with these packets from it on: its number.
    pub fn begin(&mut self, packets: Packets<'a>) -> Result<u32, AllocError> {
        let number = u32::try_from(self.fates.len()).map_err(|_| AllocError)?;
        if number % STRIDE == 0 {
            self.places.push(packets)?;
        }
        self.fates.push(Fate::default())?;
        Ok(number)
    }

    /// Notes what came of a message.
    pub fn set(&mut self, number: u32, fate: Fate) {
        if let Some(place) = self.fates.get_mut(number as usize) {
            *place = fate;
        }
    }

    /// Notes that a reply answers a request, or was refused as its reply.
    pub fn pair(&mut self, asked: u32, reply: u32) {
        if let Some(place) = self.fates.get_mut(asked as usize) {
            place.partner = Some(reply);
        }
    }

    /// What came of a message.
    pub fn fate(&self, number: u32) -> Fate {
        match self.fates.get(number as usize) {
            Some(fate) => *fate,
            None => Fate::default(),
        }
    }

    /// The message of this number.
    pub fn packet(&self, number: u32) -> Option<Packet<'a>> {
        let mut packets = *self.places.get((number / STRIDE) as usize)?;
        for _ in 0..number % STRIDE {
            packets.next()?;
        }
        packets.next()
    }

    /// The message that goes with one of this fate, with its number.
    pub fn partner(&self, fate: Fate) -> Option<(u32, Packet<'a>)> {
        let number = fate.partner?;
        Some((number, self.packet(number)?))
    }
}
