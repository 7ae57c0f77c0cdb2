//! Standings of a few messages, by the tables of ledgers: a standing refuses first what a ledger refuses first.

ghost use Rattle.std.specs.Prelude.{◌<◌, ◌∷◌, ◌++◌, [], List, length, OnOk};
ghost use Rattle.fa_capture.specs.declared.limits.TheConstants.{MAX_MESSAGES};
ghost use Rattle.fa_capture.specs.Message.{Message, message};
ghost use Rattle.fa_session.specs.Events.{event_shown};
ghost use Rattle.fa_session.specs.Shows.{Shows};
ghost use Rattle.fa_ledger.specs.Standing.{ShowsStanding, IsNextBehind};
ghost use Rattle.fa_tests.specs.Level.{ShowSome};

use crate::ledgers::{CALLS, COURSES, OPENED};
use crate::messages::begun;
use crate::paired::{UNTOLD, packets_of, told};
use crate::sent::{Sent, with, with_all};
use fa_capture::limits::MAX_MESSAGES;
use fa_capture::{Packet, Seed};
use fa_ledger::{LedgerError, Standing};
use fa_sample::Sample;
use fa_session::{Event, Session, SessionError};
use std::alloc::Global;

/// Whether a standing takes the next event, which is handed in again where memory was refused.
fn noted(standing: &mut Standing, event: &Event<'_>) -> Result<(), LedgerError>
    requires { (c : List Message) × (m : Message) × IsNextBehind c m standing.old (event_shown event.now) }
    ensures shows { OnOk result ((c : List Message) (m : Message) → IsNextBehind c m standing.old (event_shown event.now) → ShowsStanding (c ++ m ∷ []) standing.new) }
{
    match standing.accept(event) {
        Err(LedgerError::Memory) => standing.accept(event),
        noted => noted,
    }
}

/// Hands a message to a session and a standing that took the same messages. The error is its code.
fn hand_in<'a>(
    session: &mut Session<'a>,
    standing: &mut Standing,
    packet: &Packet<'a>,
) -> Result<(), u16>
    requires { (c : List Message) × Shows c session.old × ShowsStanding c standing.old × (length c < MAX_MESSAGES) }
    ensures { OnOk result ((c : List Message) → Shows c session.old → ShowsStanding c standing.old → length c < MAX_MESSAGES → Shows (c ++ message packet.now ∷ []) session.new × ShowsStanding (c ++ message packet.now ∷ []) standing.new) }
{
    match told(session, packet) {
        Ok(event) => match noted(standing, &event) {
            Ok(()) => Ok(()),
            Err(LedgerError::Refused(code)) => Err(code),
            Err(LedgerError::Memory) => Err(UNTOLD),
        },
        Err(SessionError::Refused(code)) => Err(code),
        Err(SessionError::Memory) => Err(UNTOLD),
    }
}

/// Hands in messages up to the first that is refused: its code, if there is one.
fn hand_in_all<'a>(
    session: &mut Session<'a>,
    standing: &mut Standing,
    packets: &[Packet<'a>],
) -> Option<u16>
    requires { ShowSome 0 session.old standing.old }
{
    for (place, packet) in packets.iter().enumerate() {
        if place >= MAX_MESSAGES {
            return Some(UNTOLD);
        }
        if let Err(code) = hand_in(session, standing, packet) {
            return Some(code);
        }
    }
    None
}

/// How many messages a standing takes, and the code of the one behind them, if there is one.
pub(crate) fn taken<'a>(alloc: Global, packets: &[Packet<'a>]) -> (u32, Option<u16>) {
    let mut session = Session::new(alloc, Seed::default());
    let mut standing = Standing::new(alloc, Seed::default());
    let code = hand_in_all(&mut session, &mut standing, packets);
    let count = standing.len();
    drop(session);
    drop(standing);
    (count, code)
}

/// How many messages of a capture a standing takes, and the code of the one behind them. None where memory was refused.
fn taken_of(alloc: Global, sample: Sample) -> Option<(u32, Option<u16>)> {
    let bytes = sample.capture().ok()?;
    let packets = packets_of(alloc, &bytes)?;
    Some(taken(alloc, &packets))
}

/// How many of these messages, behind six, come before the first that is refused, and its code.
fn first_refused(course: &[(Sent, u16)]) -> (u32, Option<u16>) {
    let mut count = 6u32;
    for (_, code) in course {
        if *code != 0 {
            return (count, Some(*code));
        }
        count = count.saturating_add(1);
    }
    (count, None)
}

#[test]
fn refuse_first_what_a_ledger_refuses(rt: HostRuntime) {
    for (number, course) in COURSES.iter().enumerate() {
        let mut sample = with_all(begun(rt.alloc(), (0, 0)), OPENED);
        for (message, _) in *course {
            sample = with(sample, *message);
        }
        assert!(rt;
            taken_of(rt.alloc(), sample) == Some(first_refused(course)),
            "course {number}"
        );
    }
}

#[test]
fn take_what_a_ledger_takes(rt: HostRuntime) {
    for (number, (flags, messages, _)) in CALLS.iter().enumerate() {
        let sample = with_all(begun(rt.alloc(), *flags), messages);
        let count = messages.len().saturating_add(2);
        let found = taken_of(rt.alloc(), sample);
        assert!(rt;
            found.is_some_and(|(taken, code)| taken as usize == count && code.is_none()),
            "messages {number}"
        );
    }
}
