//! A session that is put aside behind each message, with a count of the messages that were handed in.

ghost use Rattle.std.specs.Prelude.{◌≡◌, IfOk};
ghost use Rattle.fa_tests.specs.Tried.{ShowsAtMost};

use crate::tried::{Seen, Tried};
use fa_capture::{Packet, Seed};
use fa_session::{Parked, Session};
use std::alloc::{AllocError, Global};

/// A session that is put aside behind each message, and how many messages were handed in.
#[derive(Drop)]
pub struct Generations {
    parked: Parked,
    taken: usize,
}

/// A session put aside, at a second try where memory was refused.
fn put_aside(alloc: Global, session: &Session<'_>) -> Result<Parked, AllocError>
    ensures { IfOk result (λ parked. parked ≡ session.now) }
{
    match session.park(alloc) {
        Err(_) => session.park(alloc),
        parked => parked,
    }
}

/// A session taken up again, at a second try where memory was refused.
fn taken_up(alloc: Global, parked: &Parked) -> Result<Session<'_>, AllocError>
    ensures { IfOk result (λ session. session ≡ parked.now) }
{
    match parked.resume(alloc, Seed::default()) {
        Err(_) => parked.resume(alloc, Seed::default()),
        session => session,
    }
}

impl Generations {
    pub fn new(alloc: Global) -> Self
        ensures { ShowsAtMost result.taken result.parked }
    {
        Generations {
            parked: Parked::new(alloc),
            taken: 0,
        }
    }

    /// Takes the session up again, hands in a message and puts the session aside: what it tells of the message. None where memory
    /// was refused twice.
    fn tell(&mut self, alloc: Global, packet: &Packet<'_>) -> Option<Seen>
        requires { ShowsAtMost self.old.taken self.old.parked }
        ensures { ShowsAtMost self.new.taken self.new.parked }
    {
        let mut tried = Tried {
            session: taken_up(alloc, &self.parked).ok()?,
            taken: self.taken,
        };
        let seen = tried.tell(packet);
        let taken = tried.taken;
        let parked = put_aside(alloc, &tried.session);
        drop(tried);
        self.parked = parked.ok()?;
        self.taken = taken;
        Some(seen)
    }

    /// Hands in messages one after the other: what the session tells of each. False where memory was refused.
    pub fn tell_each(&mut self, alloc: Global, packets: &[Packet<'_>], seen: &mut [Seen]) -> bool
        requires { ShowsAtMost self.old.taken self.old.parked }
        ensures { ShowsAtMost self.new.taken self.new.parked }
    {
        for (packet, seen) in packets.iter().zip(seen.iter_mut()) {
            match self.tell(alloc, packet) {
                Some(told) => *seen = told,
                None => return false,
            }
        }
        true
    }

    /// How many bytes are kept.
    pub fn bytes(&self) -> usize {
        self.parked.bytes()
    }
}
