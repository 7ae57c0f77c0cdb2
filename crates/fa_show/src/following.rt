//! The messages of a capture, judged one after the other: one that is refused is left out of what follows.

ghost use Rattle.std.specs.Prelude.{◌≡◌, ◌<◌, ◌≤◌, ◌+◌, ◌∷◌, ◌++◌, List, [], map, length, OnOk, OnErr, IfOk, IfErr, IfSome};
ghost use Rattle.fa_capture.specs.Message.{Message, message};
ghost use Rattle.fa_capture.specs.declared.limits.TheConstants.{MAX_MESSAGES};
ghost use Rattle.fa_session.specs.Shows.{Shows};
ghost use Rattle.fa_show.specs.parts.Following.{AreShown, IsHeld, IsBySession};

use crate::notes::Notes;
use crate::pairing::Pairing;
use fa_capture::limits::MAX_MESSAGES;
use fa_capture::{Capture, Packet, Seed};
use fa_ledger::{LedgerError, Standing};
use fa_session::{Event, Parked, Session, SessionError};
use std::alloc::{AllocError, Global};

/// How many bytes of messages are taken at least before the outstanding requests are copied.
const GENERATION: usize = 1_048_576;

/// Why a message is not taken.
#[derive(Clone, Copy)]
pub(crate) enum Refusal {
    /// The session refuses it, with this code, and is as it was.
    BySession(u16),
    /// What stands behind the messages refuses it, with this code. The session has taken it.
    Behind(u16),
    /// Memory was refused.
    Memory,
}

/// Takes the next message into the session and into what stands behind it.
fn accept<'a>(
    session: &mut Session<'a>,
    standing: &mut Standing,
    packet: &Packet<'a>,
) -> Result<Event<'a>, Refusal>
    requires { (c : List Message) × AreShown c session.old standing.old × (length c < MAX_MESSAGES) }
    ensures shows { OnOk result ((c : List Message) → AreShown c session.old standing.old → length c < MAX_MESSAGES → AreShown (c ++ message packet.now ∷ []) session.new standing.new) }
    ensures kept { OnErr result (standing.new ≡ standing.old) }
    ensures session { IfErr result (λ refusal. IsBySession refusal → session.new ≡ session.old) }
{
    let event = match session.accept(packet) {
        Ok(event) => event,
        Err(SessionError::Refused(code)) => return Err(Refusal::BySession(code)),
        Err(SessionError::Memory) => return Err(Refusal::Memory),
    };
    match standing.accept(&event) {
        Ok(()) => Ok(event),
        Err(LedgerError::Refused(code)) => Err(Refusal::Behind(code)),
        Err(LedgerError::Memory) => Err(Refusal::Memory),
    }
}

/// The session behind these messages more, put aside. They were taken before, so nothing but memory may be refused.
fn rewound(
    alloc: Global,
    seed: Seed,
    parked: &Parked,
    since: &[Packet<'_>],
) -> Result<Parked, AllocError>
    requires { (c : List Message) × Shows c parked.now × (length c + length since.now ≤ MAX_MESSAGES) }
    ensures { IfOk result (λ next. (c : List Message) → Shows c parked.now → Shows (c ++ map message since.now) next) }
{
    let mut session = parked.resume(alloc, seed)?;
    for packet in since {
        match session.accept(packet) {
            Ok(_) => {}
            Err(_) => return Err(AllocError),
        }
    }
    Ok(session.park(alloc)?)
}

/// Takes messages until one is refused by what stands behind them, or some bytes of them are taken: the session then, put aside; none
/// where no message is left.
fn turn(
    alloc: Global,
    seed: Seed,
    parked: &Parked,
    standing: &mut Standing,
    notes: &mut Notes<'_>,
) -> Result<Option<Parked>, AllocError>
    requires { (c : List Message) × IsHeld c parked.now standing.old }
    ensures { IfOk result (λ next. IfSome next (λ n. (c : List Message) × IsHeld c n standing.new)) }
{
    let mut session = parked.resume(alloc, seed)?;
    turn_along(alloc, seed, parked, &mut session, standing, notes)
}

/// The same with the session lent, as it was put aside.
fn turn_along<'s, 'a: 's>(
    alloc: Global,
    seed: Seed,
    parked: &Parked,
    session: &mut Session<'s>,
    standing: &mut Standing,
    notes: &mut Notes<'a>,
) -> Result<Option<Parked>, AllocError>
    requires held { (c : List Message) × IsHeld c parked.now standing.old }
    requires resumed { session.old ≡ parked.now }
    ensures { IfOk result (λ next. IfSome next (λ n. (c : List Message) × IsHeld c n standing.new)) }
{
    let mut since = Vec::new(alloc);
    let room = parked.bytes().max(GENERATION);
    let mut taken: usize = 0;
    for _ in 0..MAX_MESSAGES {
        if taken >= room || standing.len() as usize >= MAX_MESSAGES {
            break;
        }
        let Some((number, packet)) = notes.next()? else {
            return Ok(None);
        };
        match accept(session, standing, &packet) {
            Ok(event) => {
                notes.take(number, &event)?;
                taken = taken.saturating_add(packet.bytes.len());
                since.push(packet)?;
            }
            Err(Refusal::BySession(code)) => notes.refuse(number, &packet, code),
            Err(Refusal::Behind(code)) => {
                notes.refuse(number, &packet, code);
                return Ok(Some(rewound(alloc, seed, parked, &since)?));
            }
            Err(Refusal::Memory) => return Err(AllocError),
        }
    }
    Ok(Some(session.park(alloc)?))
}

/// What came of the messages of a capture.
pub(crate) fn pair<'a>(alloc: Global, capture: &Capture<'a>) -> Result<Pairing<'a>, AllocError> {
    let mut notes = Notes::new(alloc, capture);
    take_turns(alloc, capture, &mut notes)?;
    Ok(notes.into_pairing())
}

/// Takes the messages of a capture, turn by turn.
fn take_turns(
    alloc: Global,
    capture: &Capture<'_>,
    notes: &mut Notes<'_>,
) -> Result<(), AllocError> {
    let mut standing = Standing::new(alloc, capture.seed);
    let mut parked = Parked::new(alloc);
    // Each turn but the last one takes a message.
    for _ in 0..=capture.messages {
        match turn(alloc, capture.seed, &parked, &mut standing, notes)? {
            Some(next) => parked = next,
            None => break,
        }
    }
    Ok(())
}
