//! A session with a count of the messages that were handed in, and what it tells of each.

ghost use Rattle.std.specs.Prelude.{◌≡◌, ◌+◌, ◌<◌, ◌≤◌};
ghost use Rattle.fa_capture.specs.declared.limits.TheConstants.{MAX_MESSAGES};
ghost use Rattle.fa_tests.specs.Tried.{ShowsAtMost};

use fa_bodies::Reply;
use fa_capture::limits::MAX_MESSAGES;
use fa_capture::{Packet, Seed};
use fa_session::{Event, Session, SessionError};
use std::alloc::Global;

/// What a session tells of a message.
#[derive(Clone, Copy, PartialEq, Eq)]
pub enum Told {
    /// A request, by its number.
    Asked(u32),
    /// A reply, by its number and that of the request that it answers.
    Answered(u32, u32),
    /// A notification, by its number.
    Notified(u32),
    /// Not allowed, with this code.
    Refused(u16),
    /// Memory was refused.
    Memory,
}

/// What a session tells of a message, and the flags that are settled then. Of a request or its reply also the request's
/// unique and node, the error of a refusal, and of a reply the tag of the request; else these are 0.
#[derive(Clone, Copy, PartialEq, Eq)]
pub struct Seen {
    pub told: Told,
    pub negotiated: Option<u32>,
    pub unique: u64,
    pub node: u64,
    pub error: i32,
    pub tag: u32,
}

/// Nothing seen yet.
pub const UNSEEN: Seen = Seen {
    told: Told::Memory,
    negotiated: None,
    unique: 0,
    node: 0,
    error: 0,
    tag: 0,
};

/// What an event shows.
fn seen_in(event: &Event<'_>) -> Seen {
    match event {
        Event::Asked { at, message } => Seen {
            told: Told::Asked(*at),
            unique: message.request.unique,
            node: message.request.node,
            ..UNSEEN
        },
        Event::Answered {
            at,
            asked,
            tag,
            messages,
        } => Seen {
            told: Told::Answered(*at, *asked),
            unique: messages.to.request.unique,
            node: messages.to.request.node,
            error: match &messages.reply {
                Reply::Refused(error) => *error,
                _ => 0,
            },
            tag: *tag,
            ..UNSEEN
        },
        Event::Notice { at } => Seen {
            told: Told::Notified(*at),
            ..UNSEEN
        },
    }
}

/// A session, and how many messages were handed in.
#[derive(Drop)]
pub struct Tried<'a> {
    pub session: Session<'a>,
    pub taken: usize,
}

impl<'a> Tried<'a> {
    pub fn new(alloc: Global) -> Self
        ensures { ShowsAtMost result.taken result.session }
    {
        Tried {
            session: Session::new(alloc, Seed::default()),
            taken: 0,
        }
    }

    /// Hands in a message, under its place among those that were handed in, counted from 1, as its tag: what the session tells of
    /// it.
    pub fn hand_in(&mut self, packet: &Packet<'a>) -> Seen
        requires { ShowsAtMost self.old.taken self.old.session }
        ensures { ShowsAtMost self.new.taken self.new.session }
    {
        if self.taken >= MAX_MESSAGES {
            return UNSEEN;
        }
        self.taken += 1;
        self.session.set_tag(u32::try_from(self.taken).unwrap_or(0));
        match self.session.accept(packet) {
            Ok(event) => seen_in(&event),
            Err(SessionError::Refused(code)) => Seen {
                told: Told::Refused(code),
                ..UNSEEN
            },
            Err(SessionError::Memory) => UNSEEN,
        }
    }

    /// Hands in a message, and again where memory was refused: what the session tells of it.
    pub fn tell(&mut self, packet: &Packet<'a>) -> Seen
        requires { ShowsAtMost self.old.taken self.old.session }
        ensures { ShowsAtMost self.new.taken self.new.session }
    {
        let mut seen = self.hand_in(packet);
        if seen.told == Told::Memory {
            seen = self.hand_in(packet);
        }
        seen.negotiated = self.session.negotiated();
        seen
    }

    /// Hands in messages one after the other: what the session tells of each.
    pub fn tell_each(&mut self, packets: &[Packet<'a>], seen: &mut [Seen])
        requires { ShowsAtMost self.old.taken self.old.session }
        ensures { ShowsAtMost self.new.taken self.new.session }
    {
        for (packet, seen) in packets.iter().zip(seen.iter_mut()) {
            *seen = self.tell(packet);
        }
    }
}
