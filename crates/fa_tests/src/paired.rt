//! A ledger beside sessions that took the same messages.
//!
//! What owns many tables is let go by `drop` here and in the tests: where it goes at the end of a function, or at a `?`, all of its tables are
//! proved to go there.

ghost use Rattle.std.specs.Prelude.{◌≡◌, ◌<◌, ◌∷◌, ◌++◌, List, [], IfOk, IfSome, OnOk, OnErr};
ghost use Rattle.fa_capture.specs.declared.limits.TheConstants.{MAX_MESSAGES};
ghost use Rattle.fa_capture.specs.Message.{Message, message};
ghost use Rattle.fa_session.specs.Allowed.{IsAllowed};
ghost use Rattle.fa_session.specs.Events.{event_shown, IsEvent};
ghost use Rattle.fa_session.specs.Shows.{Shows};
ghost use Rattle.fa_ledger.specs.Refusals.{IsNext};
ghost use Rattle.fa_ledger.specs.Shows as ledgers;
ghost use Rattle.fa_tests.specs.Paired.{AreLevel, IsAhead};

use fa_capture::limits::MAX_MESSAGES;
use fa_capture::{Packet, Seed, read_capture};
use fa_ledger::{Calls, Ledger, LedgerError};
use fa_session::{Event, Session, SessionError};
use std::alloc::Global;

/// What stands for a code where memory was refused twice, or where no session is left.
pub const UNTOLD: u16 = 999;

/// What a session says of the next message, which is handed in again where memory was refused.
pub fn told<'a>(session: &mut Session<'a>, packet: &Packet<'a>) -> Result<Event<'a>, SessionError>
    requires { session.old.messages < MAX_MESSAGES }
    ensures passes { OnOk result ((c : List Message) → Shows c session.old → IsAllowed c (message packet.now)) }
    ensures shows { OnOk result ((c : List Message) → Shows c session.old → Shows (c ++ message packet.now ∷ []) session.new) }
    ensures event { IfOk result (λ event. (c : List Message) → Shows c session.old → IsEvent c (message packet.now) (event_shown event)) }
    ensures unchanged { OnErr result (session.new ≡ session.old) }
{
    match session.accept(packet) {
        Err(SessionError::Memory) => session.accept(packet),
        told => told,
    }
}

/// Whether a ledger takes the next event, which is handed in again where memory was refused.
fn noted<'a>(ledger: &mut Ledger<'a>, event: &Event<'a>) -> Result<(), LedgerError>
    requires { (c : List Message) × (m : Message) × IsNext c m ledger.old (event_shown event.now) }
    ensures shows { OnOk result ((c : List Message) (m : Message) → IsNext c m ledger.old (event_shown event.now) → ledgers.Shows (c ++ m ∷ []) ledger.new) }
    ensures unchanged { OnErr result (ledger.new ≡ ledger.old) }
{
    match ledger.accept(event) {
        Err(LedgerError::Memory) => ledger.accept(event),
        noted => noted,
    }
}

/// A session that takes one message more, if it does.
fn further<'a>(session: Option<Session<'a>>, packet: &Packet<'a>) -> Option<Session<'a>>
    requires { IfSome session (λ s. s.messages < MAX_MESSAGES) }
    ensures { (c : List Message) → IfSome session.entry (Shows c) → IfSome result (Shows (c ++ message packet.now ∷ [])) }
{
    let Some(mut session) = session else {
        return None;
    };
    match told(&mut session, packet) {
        Ok(_) => Some(session),
        Err(_) => None,
    }
}

/// A ledger, sessions that took the same messages as it did, and how many these are. A session cannot give back a message
/// that the ledger refuses, so the spare one goes on then.
#[derive(Drop)]
pub struct Paired<'a> {
    pub ledger: Ledger<'a>,
    pub session: Option<Session<'a>>,
    pub spare: Option<Session<'a>>,
    pub taken: usize,
}

impl<'a> Paired<'a> {
    pub fn new(alloc: Global) -> Self
        ensures { AreLevel result.taken result.ledger result.session result.spare }
    {
        Paired {
            ledger: Ledger::new(alloc, Seed::default()),
            session: Some(Session::new(alloc, Seed::default())),
            spare: Some(Session::new(alloc, Seed::default())),
            taken: 0,
        }
    }

    /// Hands in a message: its code, 0 where it is taken.
    fn take(&mut self, packet: &Packet<'a>) -> u16
        requires { AreLevel self.old.taken self.old.ledger self.old.session self.old.spare }
        ensures { AreLevel self.new.taken self.new.ledger self.new.session self.new.spare }
    {
        if self.taken >= MAX_MESSAGES {
            return UNTOLD;
        }
        let Some(mut session) = self.session.take() else {
            return UNTOLD;
        };
        match told(&mut session, packet) {
            Ok(event) => self.note(session, packet, event),
            Err(error) => {
                self.session = Some(session);
                match error {
                    SessionError::Refused(code) => code,
                    SessionError::Memory => UNTOLD,
                }
            }
        }
    }

    /// Notes what a session says of a message, which it took: the message's code, 0 where the ledger takes it too.
    fn note(&mut self, session: Session<'a>, packet: &Packet<'a>, event: Event<'a>) -> u16
        requires { IsAhead self.old.taken self.old.ledger self.old.spare (message packet.now) session (event_shown event) }
        ensures { AreLevel self.new.taken self.new.ledger self.new.session self.new.spare }
    {
        let spare = self.spare.take();
        match noted(&mut self.ledger, &event) {
            Ok(()) => {
                self.taken += 1;
                self.session = Some(session);
                self.spare = further(spare, packet);
                0
            }
            Err(error) => {
                self.session = spare;
                match error {
                    LedgerError::Refused(code) => code,
                    LedgerError::Memory => UNTOLD,
                }
            }
        }
    }

    /// Hands in messages one after the other: the code of each.
    pub fn take_each(&mut self, packets: &[Packet<'a>], codes: &mut [u16])
        requires { AreLevel self.old.taken self.old.ledger self.old.session self.old.spare }
        ensures { AreLevel self.new.taken self.new.ledger self.new.session self.new.spare }
    {
        for (packet, code) in packets.iter().zip(codes.iter_mut()) {
            *code = self.take(packet);
        }
    }

    /// The calls of the messages that were taken.
    pub fn into_calls(self) -> Calls<'a> {
        let Paired {
            ledger,
            session,
            spare,
            ..
        } = self;
        drop(session);
        drop(spare);
        ledger.into_calls()
    }
}

/// A ledger and sessions that were handed these messages, and the code of each, 0 where it is taken. None where memory was refused.
pub fn handed_in<'a>(alloc: Global, packets: &[Packet<'a>]) -> Option<(Paired<'a>, Vec<u16>)> {
    let mut codes = vec![in alloc; 0; packets.len()].ok()?;
    let mut paired = Paired::new(alloc);
    paired.take_each(packets, &mut codes);
    Some((paired, codes))
}

/// Whether all of these are codes of messages that are taken.
pub fn all_taken(codes: &[u16]) -> bool {
    codes.iter().all(|code| *code == 0)
}

/// The calls of a capture whose messages are all taken.
pub fn calls_of<'a>(alloc: Global, packets: &[Packet<'a>]) -> Option<Calls<'a>> {
    let (paired, codes) = handed_in(alloc, packets)?;
    if all_taken(&codes) {
        Some(paired.into_calls())
    } else {
        drop(paired);
        None
    }
}

/// The packets of a capture of these bytes. None where memory was refused.
pub fn packets_of<'a>(alloc: Global, bytes: &'a [u8]) -> Option<Vec<Packet<'a>>> {
    let mut packets = Vec::new(alloc);
    for packet in read_capture(bytes).packets() {
        packets.push(packet).ok()?;
    }
    Some(packets)
}

/// The calls of a capture of these bytes, if its messages are all taken.
pub fn calls_in<'a>(alloc: Global, bytes: &'a [u8]) -> Option<Calls<'a>> {
    let packets = packets_of(alloc, bytes)?;
    calls_of(alloc, &packets)
}
