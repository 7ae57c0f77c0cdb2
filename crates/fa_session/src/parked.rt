//! Sessions that are put aside.

ghost use Rattle.std.specs.Prelude.{◌≡◌, [], IfOk};
ghost use Rattle.fa_session.specs.Shows.{Shows};

use crate::outstanding::Outstanding;
use crate::session::Session;
use crate::waiting::OwnedWaiting;
use fa_capture::Seed;
use std::alloc::{AllocError, Global};
use std::marker::Model;

/// A session that is put aside, with the messages of its outstanding requests in memory of its own: what held the bytes of its
/// messages may go.
#[derive(Drop)]
pub struct Parked {
    /// How many messages came.
    messages: u32,
    /// The flags that both sides set at INIT, once it was answered.
    negotiated: Option<u32>,
    /// The outstanding requests.
    waiting: Vec<OwnedWaiting>,
}

impl Model for Parked {
    ghost use Rattle.fa_session.specs.Plain.{PlainSession};

    ghost Value = { PlainSession };

    ghost use Rattle.fa_session.specs.parts.View.{parked_shown};

    ghost view = { parked_shown };
}

impl Parked {
    /// A session of no messages.
    ///
    /// Takes no memory, in constant time.
    pub fn new(alloc: Global) -> Self
        ensures { Shows [] result }
    {
        Parked {
            messages: 0,
            negotiated: None,
            waiting: Vec::new(alloc),
        }
    }

    /// The session again, which borrows the messages that are kept here. Its table takes memory from `alloc`, and is hashed with the seed.
    ///
    /// # Errors
    ///
    /// `AllocError` where memory for the table was refused.
    ///
    /// # Cost
    ///
    /// Expected linear time in the number of outstanding requests, however long they are. The table keeps three numbers and where
    /// the message lies for each of them. No message bytes are copied.
    pub fn resume(&self, alloc: Global, seed: Seed) -> Result<Session<'_>, AllocError>
        ensures { IfOk result (λ session. session ≡ self.now) }
    {
        let waiting = Outstanding::from_owned(alloc, seed, &self.waiting).map_err(|_| AllocError)?;
        Ok(Session {
            messages: self.messages,
            tag: 0,
            negotiated: self.negotiated,
            waiting,
        })
    }

    /// How many bytes the messages have that are kept here, those of the outstanding requests.
    ///
    /// Takes no memory, in linear time in the number of outstanding requests.
    // A session as a value has requests and not their bytes, so no clause says how many there are.
    pub fn bytes(&self) -> usize {
        self.waiting.iter().fold(
            0,
            |bytes: usize, waiting| bytes.saturating_add(waiting.bytes.len()),
        )
    }
}

impl Session<'_> {
    /// The session put aside, with copies of the messages of its outstanding requests. The session stays as it is.
    ///
    /// # Errors
    ///
    /// `AllocError` where memory for the copies was refused.
    ///
    /// # Cost
    ///
    /// Linear time in the number of outstanding requests and in their bytes. Takes memory for one copy of these bytes, and for
    /// three numbers and where the copy lies of each request.
    pub fn park(&self, alloc: Global) -> Result<Parked, AllocError>
        ensures { IfOk result (λ parked. parked ≡ self.now) }
    {
        let waiting = self.waiting.to_owned(alloc)?;
        Ok(Parked {
            messages: self.messages,
            negotiated: self.negotiated,
            waiting,
        })
    }
}
