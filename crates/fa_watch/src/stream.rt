//! A stream, piece by piece.

ghost use Rattle.std.specs.Prelude.{◌≡◌, ◌<◌, ◌∷◌, ◌++◌, ℕ, List, [], length, IfOk, IfErr, IfSome, IsNone, OnOk};
ghost use Rattle.fa_capture.specs.Message.{Message, Recorded, message};
ghost use Rattle.fa_capture.specs.declared.limits.TheConstants.{MAX_MESSAGES};
ghost use Rattle.fa_capture.specs.Incoming.{HasCome};
ghost use Rattle.fa_session.specs.Plain.{PlainSession};
ghost use Rattle.fa_ledger.specs.Standing.{ShowsStanding};
ghost use Rattle.fa_watch.specs.Refusals.{IsRefusal};
ghost use Rattle.fa_watch.specs.Watched.{IsSeen};
ghost use Rattle.fa_watch.specs.parts.Streams.{AreShown, HasBeen, IsReadFurther, IsSeenAtOnce};

use crate::message::MessageError;
use crate::watching::Seen;
use bumpalo::Bump;
use fa_capture::{Arrived, CaptureFault, Incoming, Packet, Seed};
use fa_ledger::Standing;
use fa_session::Session;
use std::alloc::{AllocError, Global};

/// What is kept of a stream, beside its outstanding requests.
#[derive(Drop)]
pub(crate) struct Stream {
    /// The record that is begun.
    incoming: Incoming,
    /// The nodes that are known, and the file handles that are open.
    standing: Standing,
}

impl Stream {
    /// A stream of which nothing has come.
    pub fn new(alloc: Global, seed: Seed) -> Self
        ensures incoming { HasCome [] [] result.incoming }
        ensures standing { ShowsStanding [] result.standing }
    {
        Stream {
            incoming: Incoming::new(alloc),
            standing: Standing::new(alloc, seed),
        }
    }

    /// Takes the next piece: what is seen with it, if the stream has a fault now, whatever follows. The session and the messages in
    /// it borrow from the arena.
    ///
    /// After a fault and after an error all is of no use any more.
    pub fn take<'a>(
        &mut self,
        piece: &[u8],
        session: &mut Session<'a>,
        arena: &'a Bump,
    ) -> Result<Option<Seen>, AllocError>
        requires { (bytes : List ℕ) × (rs : List Recorded) × HasBeen bytes rs self.old session.old }
        ensures on { IfOk result (λ seen. IsNone seen → (bytes : List ℕ) (rs : List Recorded) → HasBeen bytes rs self.old session.old → IsReadFurther (bytes ++ piece.now) rs self.new session.new) }
        ensures told { IfOk result (λ seen. IfSome seen (λ s. (bytes : List ℕ) (rs : List Recorded) → HasBeen bytes rs self.old session.old → IsSeenAtOnce (bytes ++ piece.now) s)) }
    {
        let Arrived { packets, fault } = self.incoming.take(piece, arena)?;
        for packet in packets {
            match accept(session, &mut self.standing, &packet) {
                Ok(()) => {}
                Err(MessageError::Refused(code)) => {
                    let at = self.standing.len();
                    return Ok(Some(Seen::Fault { at, code }));
                }
                Err(MessageError::Memory) => return Err(AllocError),
            }
        }
        let Some(CaptureFault { whole, code }) = fault else {
            return Ok(None);
        };
        Ok(Some(Seen::Fault { at: whole, code }))
    }

    /// What is seen where nothing follows.
    pub fn end(&self) -> Seen
        ensures { (bytes : List ℕ) (rs : List Recorded) (session : PlainSession) → HasBeen bytes rs self.now session → IsSeen bytes result }
    {
        match self.incoming.end() {
            Some(CaptureFault { whole, code }) => Seen::Fault { at: whole, code },
            None => Seen::Good {
                messages: self.standing.len(),
            },
        }
    }
}

/// Takes the next message into the session and into what stands behind it. After an error the session may have taken it, and both are
/// of no use any more.
fn accept<'a>(
    session: &mut Session<'a>,
    standing: &mut Standing,
    packet: &Packet<'a>,
) -> Result<(), MessageError>
    requires { (c : List Message) × AreShown c session.old standing.old × (length c < MAX_MESSAGES) }
    ensures shows { OnOk result ((c : List Message) → AreShown c session.old standing.old → length c < MAX_MESSAGES → AreShown (c ++ message packet.now ∷ []) session.new standing.new) }
    ensures refused { IfErr result (λ error. (c : List Message) → AreShown c session.old standing.old → length c < MAX_MESSAGES → IsRefusal c (message packet.now) error) }
    ensures kept { IfErr result (λ error. standing.new ≡ standing.old) }
{
    let event = session.accept(packet)?;
    standing.accept(&event)?;
    Ok(())
}
