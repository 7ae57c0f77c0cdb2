//! Outstanding requests.

ghost use Rattle.std.specs.Prelude.{◌≡◌, ◌↔◌, IfOk, IsTrue};
ghost use Rattle.fa_bodies.specs.Requests.{request_shown};
ghost use Rattle.fa_session.specs.Rules.{IsInterrupt};
ghost use Rattle.fa_session.specs.parts.RequestSaid.{RequestSaid, RequestSaid-prop};

use crate::event::RequestMessage;
use crate::rules::is_interrupt;
use fa_bodies::known_request;
use fa_capture::{Direction, Packet};
use std::alloc::{AllocError, Global};
use std::mem::size_of;

/// A request that waits for its answer. What it asks for is read again when that comes.
#[derive(Clone, Copy, Debug)]
pub(crate) struct Waiting<'a> {
    /// The number of its message.
    pub at: u32,
    /// The tag that the session had when it came.
    pub tag: u32,
    /// Its unique.
    pub unique: u64,
    /// Its message.
    pub bytes: &'a [u8],
    // Which request, with this unique, the message is.
    pub ghost said: { RequestSaid bytes.now unique } by { RequestSaid-prop bytes.now unique },
}

const _: () = prove!(size_of::<Waiting<'static>>() <= 32);

impl<'a> Waiting<'a> {
    /// The request of this number, with a tag.
    #[inline(always)]
    pub fn new(at: u32, tag: u32, message: &RequestMessage<'a>) -> Self
        ensures at { result.at ≡ at }
        ensures unique { result.unique ≡ message.now.request.unique }
        ensures bytes { result.bytes.now ≡ message.now.bytes.now }
    {
        Waiting {
            at,
            tag,
            unique: message.request.unique,
            bytes: message.bytes,
        }
    }

    /// Its message, read again.
    #[inline(always)]
    pub fn message(&self) -> RequestMessage<'a>
        ensures request { request_shown result.request ≡ self.now.said.0 }
        ensures unique { result.request.unique ≡ self.now.unique }
    {
        let packet = Packet {
            direction: Direction::ToServer,
            time: 0,
            bytes: self.bytes,
        };
        RequestMessage {
            bytes: self.bytes,
            request: known_request(&packet),
        }
    }

    /// Whether it is INTERRUPT, for which its message is read again.
    // Two requests rarely have one unique, so this is not inlined.
    pub fn is_interrupt(&self) -> bool
        ensures { IsTrue result ↔ IsInterrupt self.now.said.0 }
    {
        is_interrupt(&self.message().request)
    }

    /// The same request, with a copy of its message.
    pub fn to_owned(&self, alloc: Global) -> Result<OwnedWaiting, AllocError>
        ensures at { IfOk result (λ owned. owned.at ≡ self.now.at) }
        ensures unique { IfOk result (λ owned. owned.unique ≡ self.now.unique) }
        ensures request { IfOk result (λ owned. owned.said.0 ≡ self.now.said.0) }
    {
        let bytes = self.bytes.to_vec(alloc)?;
        Ok(OwnedWaiting {
            at: self.at,
            tag: self.tag,
            unique: self.unique,
            bytes,
        })
    }
}

/// A request that waits for its answer, with its message in memory of its own.
#[derive(Drop)]
pub(crate) struct OwnedWaiting {
    /// The number of its message.
    pub at: u32,
    /// The tag that the session had when it came.
    pub tag: u32,
    /// Its unique.
    pub unique: u64,
    /// Its message.
    pub bytes: Vec<u8>,
    // Which request, with this unique, the message is.
    pub ghost said: { RequestSaid bytes.items unique } by { RequestSaid-prop bytes.items unique },
}

impl OwnedWaiting {
    /// The same request, which borrows the message.
    pub fn as_waiting(&self) -> Waiting<'_>
        ensures at { result.at ≡ self.now.at }
        ensures unique { result.unique ≡ self.now.unique }
        ensures request { result.said.0 ≡ self.now.said.0 }
    {
        Waiting {
            at: self.at,
            tag: self.tag,
            unique: self.unique,
            bytes: self.bytes.as_slice(),
        }
    }
}
