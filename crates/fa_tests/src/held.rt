//! Messages for which memory is refused to a session and to a ledger, between two marks for `bench/held`, which counts the bytes that are
//! held at each.

ghost use Rattle.std.specs.Prelude.{List};
ghost use Rattle.fa_capture.specs.Message.{Message};
ghost use Rattle.fa_session.specs.Events.{event_shown};
ghost use Rattle.fa_ledger.specs.Refusals.{IsNext};
ghost use Rattle.fa_tests.specs.Paired.{AreLevel};

use crate::messages::begun;
use crate::paired::{Paired, packets_of, told};
use crate::pieces::mark;
use crate::sent::Sent::{self, *};
use crate::sent::with_all;
use crate::tried::{Told, Tried, UNSEEN};
use fa_bodies::ROOT_ID as ROOT;
use fa_capture::Packet;
use fa_capture::limits::MAX_MESSAGES;
use fa_ledger::{Ledger, LedgerError};
use fa_session::Event;
use std::alloc::Global;

/// Whether a session takes the last of these messages, a request, between two marks, and again behind them where memory was refused.
fn asks_again(alloc: Global, packets: &[Packet<'_>]) -> Option<bool> {
    let [front @ .., last] = packets else {
        return None;
    };
    let mut seen = vec![in alloc; UNSEEN; front.len()].ok()?;
    let mut tried = Tried::new(alloc);
    tried.tell_each(front, &mut seen);
    let is_begun = mark(alloc);
    let first = tried.hand_in(last).told;
    let is_ended = mark(alloc);
    let told = if first == Told::Memory {
        tried.hand_in(last).told
    } else {
        first
    };
    drop(tried);
    Some(is_begun && is_ended && matches!(told, Told::Asked(_)))
}

/// Whether a ledger takes the next event between two marks, and again behind them where memory was refused.
fn accepts_again<'a>(alloc: Global, ledger: &mut Ledger<'a>, event: &Event<'a>) -> bool
    requires { (c : List Message) × (m : Message) × IsNext c m ledger.old (event_shown event.now) }
{
    let is_begun = mark(alloc);
    let first = ledger.accept(event);
    let is_ended = mark(alloc);
    let is_taken = match first {
        Err(LedgerError::Memory) => ledger.accept(event).is_ok(),
        first => first.is_ok(),
    };
    is_begun && is_ended && is_taken
}

/// Whether the ledger takes the next message so, which the session takes.
fn notes_again<'a>(alloc: Global, paired: &mut Paired<'a>, packet: &Packet<'a>) -> bool
    requires { AreLevel paired.old.taken paired.old.ledger paired.old.session paired.old.spare }
{
    if paired.taken >= MAX_MESSAGES {
        return false;
    }
    let Some(mut session) = paired.session.take() else {
        return false;
    };
    let is_noted = match told(&mut session, packet) {
        Ok(event) => accepts_again(alloc, &mut paired.ledger, &event),
        Err(_) => false,
    };
    drop(session);
    is_noted
}

/// Whether a ledger takes the last of these messages so.
fn ends_again(alloc: Global, packets: &[Packet<'_>]) -> Option<bool> {
    let [front @ .., last] = packets else {
        return None;
    };
    let mut codes = vec![in alloc; 0; front.len()].ok()?;
    let mut paired = Paired::new(alloc);
    paired.take_each(front, &mut codes);
    let is_noted = notes_again(alloc, &mut paired, last);
    drop(paired);
    Some(is_noted)
}

/// Two requests of which the first is put into the table of those that wait.
static TWO_ASKED: [Sent; 2] = [Getattr(2, ROOT, 0, 0), Getattr(4, ROOT, 0, 0)];

/// A request for which the list of the calls is made.
static ONE_ASKED: [Sent; 1] = [Getattr(2, ROOT, 0, 0)];

/// A listing that gives nodes, and offsets on its handle.
static LISTED: [Sent; 4] = [
    Opendir(2, ROOT),
    Opened(2, 7, 0),
    Readdirplus(4, ROOT, 7, 0),
    DirentsOfTwo(4, 2, 3),
];

#[test]
fn a_request_between_two_marks(rt: HostRuntime) {
    let alloc = rt.alloc();
    let bytes = with_all(begun(alloc, (0, 0)), &TWO_ASKED)
        .capture()
        .expect(&rt, "memory");
    let packets = packets_of(alloc, &bytes).expect(&rt, "a capture, and memory");
    assert!(rt; asks_again(alloc, &packets) == Some(true));
}

#[test]
fn a_call_between_two_marks(rt: HostRuntime) {
    let alloc = rt.alloc();
    let bytes = with_all(begun(alloc, (0, 0)), &ONE_ASKED)
        .capture()
        .expect(&rt, "memory");
    let packets = packets_of(alloc, &bytes).expect(&rt, "a capture, and memory");
    assert!(rt; ends_again(alloc, &packets) == Some(true));
}

#[test]
fn a_listing_between_two_marks(rt: HostRuntime) {
    let alloc = rt.alloc();
    let bytes = with_all(begun(alloc, (0, 0)), &LISTED)
        .capture()
        .expect(&rt, "memory");
    let packets = packets_of(alloc, &bytes).expect(&rt, "a capture, and memory");
    assert!(rt; ends_again(alloc, &packets) == Some(true));
}
