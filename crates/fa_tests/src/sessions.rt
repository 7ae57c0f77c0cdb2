//! Sessions of a few messages. Where two rules are broken at once, the row shows which of them is told.

use crate::generations::Generations;
use crate::paired::packets_of;
use crate::sent::Sent::{self, *};
use crate::sent::with;
use crate::tried::{Seen, Told, Tried, UNSEEN};
use Told::{Answered, Asked, Notified, Refused};
use bitflags::Flags;
use fa_bodies::errno::{EEXIST, ENOENT, ENOSYS, EPROTO};
use fa_bodies::{InitFlags, ROOT_ID};
use fa_capture::{Direction, Packet, codes};
use fa_sample::Sample;
use std::alloc::Global;

/// EAGAIN.
const EAGAIN: i32 = -11;
/// ENOTTY.
const ENOTTY: i32 = -25;

/// The code of a session that tells something else than a code.
const MISREAD: u16 = 999;

/// What a session sees of each message of a capture. None where memory was refused, or the bytes are no capture.
fn seen_of_each(alloc: Global, sample: Sample) -> Option<Vec<Seen>> {
    let bytes = sample.capture().ok()?;
    let packets = packets_of(alloc, &bytes)?;
    let mut seen = vec![in alloc; UNSEEN; packets.len()].ok()?;
    let mut tried = Tried::new(alloc);
    tried.tell_each(&packets, &mut seen);
    drop(tried);
    Some(seen)
}

/// The same where the session is put aside behind each message, and taken up again for the next one.
fn seen_of_each_apart(alloc: Global, sample: Sample) -> Option<Vec<Seen>> {
    let bytes = sample.capture().ok()?;
    let packets = packets_of(alloc, &bytes)?;
    let mut seen = vec![in alloc; UNSEEN; packets.len()].ok()?;
    let mut generations = Generations::new(alloc);
    let is_seen = generations.tell_each(alloc, &packets, &mut seen);
    drop(generations);
    if is_seen { Some(seen) } else { None }
}

/// The code of what is told, 0 where the message is taken.
fn code_of(told: Told) -> u16 {
    match told {
        Asked(_) | Answered(..) | Notified(_) => 0,
        Refused(code) => code,
        Told::Memory => MISREAD,
    }
}

const OLD_ANSWER: &[u8; 24] = b"\x07\0\0\0\x1e\0\0\0\0\0\0\0\0\0\0\0\0\0\0\0\0\0\0\0";

const HANDLE: &[u8; 16] = &[0; 16];

/// What is told of each message. Those that are refused stand among them, and change nothing.
type Course = &'static [(Sent, Told)];

static NUMBERED: Course = &[
    (Init(2), Asked(0)),
    (InitAnswer(2), Answered(1, 0)),
    (Lookup(4, ROOT_ID), Asked(2)),
    (Lookup(6, ROOT_ID), Asked(3)),
    (Forget(8, ROOT_ID, 1), Asked(4)),
    (Notice(2), Notified(5)),
    (Error(6, ENOENT), Answered(6, 3)),
    (Error(4, ENOENT), Answered(7, 2)),
];

static REFUSED_BEFORE_INITS_ANSWER: Course = &[
    (Lookup(2, ROOT_ID), Refused(codes::FIRST_NOT_INIT)),
    (Error(2, ENOENT), Refused(codes::FIRST_NOT_INIT)),
    (Notice(2), Refused(codes::FIRST_NOT_INIT)),
    (Init(0), Refused(codes::UNIQUE_ZERO)),
    (Init(2), Asked(0)),
    (Init(4), Refused(codes::SECOND_INIT)),
    (Lookup(4, ROOT_ID), Refused(codes::BEFORE_INIT_ANSWERED)),
    (Error(2, EPROTO), Refused(codes::INIT_REFUSED)),
    (Success(2, OLD_ANSWER), Refused(codes::VERSION)),
    (Error(4, ENOENT), Refused(codes::NO_REQUEST_WAITS)),
    (InitAnswer(2), Answered(1, 0)),
    (Lookup(4, ROOT_ID), Asked(2)),
];

static REFUSED_LATER: Course = &[
    (Init(2), Asked(0)),
    (InitAnswer(2), Answered(1, 0)),
    // The unique of a request that was refused is free, and that of one that waits is not.
    (NoName(4, ROOT_ID), Refused(codes::REQUEST_BODY)),
    (Open(4, ROOT_ID, 0), Asked(2)),
    (Lookup(4, ROOT_ID), Refused(codes::UNIQUE_IN_USE)),
    (Forget(4, ROOT_ID, 1), Refused(codes::UNIQUE_IN_USE)),
    (Lookup(0, ROOT_ID), Refused(codes::UNIQUE_ZERO)),
    (Error(6, ENOENT), Refused(codes::NO_REQUEST_WAITS)),
    (Notice(5), Refused(codes::NOTIFICATION)),
    // A request whose reply is refused waits on.
    (Error(4, 1), Refused(codes::ERROR_VALUE)),
    (Error(4, ENOSYS), Refused(codes::OPEN_WITHOUT_HANDLE)),
    (Success(4, b""), Refused(codes::REPLY_BODY)),
    (Success(4, HANDLE), Answered(3, 2)),
    (Error(4, ENOENT), Refused(codes::NO_REQUEST_WAITS)),
    (Lookup(4, ROOT_ID), Asked(4)),
];

static NOTIFICATIONS: Course = &[
    (Notice(2), Refused(codes::FIRST_NOT_INIT)),
    (Init(2), Asked(0)),
    (Notice(1), Notified(1)),
    (InitAnswer(2), Answered(2, 0)),
    (NoticeOf(6, b"x"), Notified(3)),
    (Lookup(4, ROOT_ID), Asked(4)),
    (Notice(3), Notified(5)),
    (Error(4, ENOENT), Answered(6, 4)),
    (Notice(4), Notified(7)),
];

/// The last request with the unique is answered.
static REPEATED: Course = &[
    (Init(2), Asked(0)),
    (InitAnswer(2), Answered(1, 0)),
    (Interrupt(4, ROOT_ID), Asked(2)),
    (Interrupt(4, ROOT_ID), Asked(3)),
    (Error(4, EAGAIN), Answered(4, 3)),
    (Error(4, EAGAIN), Refused(codes::NO_REQUEST_WAITS)),
    (Lookup(4, ROOT_ID), Asked(5)),
    (Error(4, ENOENT), Answered(6, 5)),
    (Forget(4, ROOT_ID, 1), Asked(7)),
    (Error(4, ENOENT), Refused(codes::NO_REQUEST_WAITS)),
];

/// The messages of a course.
fn sample_of(alloc: Global, course: &[(Sent, Told)]) -> Sample {
    let mut sample = Sample::new(alloc);
    for (message, _) in course {
        sample = with(sample, *message);
    }
    sample
}

/// Whether this is what a course tells of each message.
fn is_as_told(seen: &[Seen], course: &[(Sent, Told)]) -> bool {
    let mut is_told = seen.len() == course.len();
    for (seen, (_, told)) in seen.iter().zip(course) {
        is_told = is_told && seen.told == *told;
    }
    is_told
}

/// Whether a session tells this of each message.
fn is_told(alloc: Global, course: &[(Sent, Told)]) -> Option<bool> {
    let seen = seen_of_each(alloc, sample_of(alloc, course))?;
    Some(is_as_told(&seen, course))
}

/// Whether a session that is put aside behind each message tells this of each.
fn is_told_apart(alloc: Global, course: &[(Sent, Told)]) -> Option<bool> {
    let seen = seen_of_each_apart(alloc, sample_of(alloc, course))?;
    Some(is_as_told(&seen, course))
}

#[test]
fn each_message_of_a_session(rt: HostRuntime) {
    let courses = [
        NUMBERED,
        REFUSED_BEFORE_INITS_ANSWER,
        REFUSED_LATER,
        NOTIFICATIONS,
        REPEATED,
    ];
    for (number, course) in courses.iter().enumerate() {
        assert!(rt;
            is_told(rt.alloc(), course) == Some(true),
            "course {number}"
        );
        assert!(rt;
            is_told_apart(rt.alloc(), course) == Some(true),
            "course {number}, put aside behind each message"
        );
    }
}

/// The major and the minor version and the flags of INIT, those of its answer, and the code of the answer, 0 where it is
/// taken.
type Versions = ((u32, u32, u32), (u32, u32, u32), u16);

const WRITEBACK: u32 = 0x1_0000;

const ACL: u32 = 0x10_0000;

const OTHERS: u32 = 0xffee_ffff;

static VERSIONS: [Versions; 30] = [
    ((7, 31, 0), (7, 31, 0), 0),
    ((7, 38, 0), (7, 31, 0), 0),
    ((7, 31, 0), (7, 38, 0), 0),
    ((7, u32::MAX, 0), (7, 31, 0), 0),
    ((7, 31, 0), (7, 30, 0), codes::VERSION),
    ((7, 30, 0), (7, 31, 0), codes::VERSION),
    ((7, 30, 0), (7, 30, 0), codes::VERSION),
    ((7, 32, 0), (7, 32, 0), codes::VERSION),
    ((7, 38, 0), (7, 38, 0), codes::VERSION),
    ((7, 31, 0), (8, 31, 0), codes::VERSION),
    ((8, 31, 0), (7, 31, 0), codes::VERSION),
    ((8, 31, 0), (8, 31, 0), codes::VERSION),
    ((7, 31, 0), (6, 31, 0), codes::VERSION),
    ((6, 31, 0), (7, 31, 0), codes::VERSION),
    // The version is looked at before the flags.
    ((7, 31, u32::MAX), (7, 30, u32::MAX), codes::VERSION),
    ((7, 31, WRITEBACK), (8, 31, WRITEBACK), codes::VERSION),
    (
        (7, 31, WRITEBACK),
        (7, 31, WRITEBACK),
        codes::NEGOTIATED_FLAGS,
    ),
    ((7, 31, ACL), (7, 31, ACL), codes::NEGOTIATED_FLAGS),
    (
        (7, 31, u32::MAX),
        (7, 31, WRITEBACK),
        codes::NEGOTIATED_FLAGS,
    ),
    ((7, 31, ACL), (7, 31, u32::MAX), codes::NEGOTIATED_FLAGS),
    (
        (7, 31, u32::MAX),
        (7, 31, u32::MAX),
        codes::NEGOTIATED_FLAGS,
    ),
    ((7, 31, WRITEBACK), (7, 31, 0), 0),
    ((7, 31, 0), (7, 31, WRITEBACK), 0),
    ((7, 31, ACL), (7, 31, 0), 0),
    ((7, 31, 0), (7, 31, ACL), 0),
    ((7, 31, WRITEBACK), (7, 31, ACL), 0),
    ((7, 31, ACL), (7, 31, WRITEBACK), 0),
    ((7, 31, u32::MAX), (7, 31, OTHERS), 0),
    ((7, 31, OTHERS), (7, 31, u32::MAX), 0),
    ((7, 38, 0x8001_000c), (7, 31, 0x8000_000a), 0),
];

/// INIT of a major and a minor version and flags, an error that does not settle it, its answer, and a LOOKUP with its
/// reply.
fn versioned(alloc: Global, asked: (u32, u32, u32), answered: (u32, u32, u32)) -> Sample {
    let asked_flags = InitFlags::from_bits_retain(asked.2);
    let flags = InitFlags::from_bits_retain(answered.2);
    Sample::new(alloc)
        .init_with(2, asked.0, asked.1, asked_flags)
        .error(2, EPROTO)
        .init_answer_with(2, answered.0, answered.1, flags, 64)
        .lookup(4, ROOT_ID, b"a")
        .error(4, ENOENT)
}

/// The code of INIT's answer, and the flags that are settled behind each message of such a session.
fn settled(alloc: Global, sample: Sample) -> Option<(u16, [Option<u32>; 5])> {
    let seen = seen_of_each(alloc, sample)?;
    let mut flags = [None; 5];
    for (flags, seen) in flags.iter_mut().zip(&seen) {
        *flags = seen.negotiated;
    }
    Some((code_of(seen.get(2)?.told), flags))
}

/// The flags are settled from INIT's answer on, where it is taken.
#[test]
fn versions_and_flags(rt: HostRuntime) {
    for (number, (asked, answered, code)) in VERSIONS.iter().enumerate() {
        let both = if *code == 0 {
            Some(asked.2 & answered.2)
        } else {
            None
        };
        let found = settled(rt.alloc(), versioned(rt.alloc(), *asked, *answered));
        let expected = (*code, [None, None, both, both, both]);
        assert!(rt; found == Some(expected), "row {number}");
    }
}

/// INIT and its answer, 1,000 LOOKUPs of the uniques 4, 6 and so on, in the nodes 1, 2 and so on, and their refusals in
/// reverse: 2,002 messages.
fn refused_in_reverse(alloc: Global) -> Sample {
    let mut sample = Sample::new(alloc).init(2).init_answer(2);
    for place in 0..1000u64 {
        sample = sample.lookup(4 + 2 * place, 1 + place, b"a");
    }
    for place in 0..1000u64 {
        sample = sample.error(4 + 2 * (999 - place), EEXIST);
    }
    sample
}

/// What is seen of the message with this number in such a session. Message 1,002 answers the last request, 1,001, whose tag is
/// 1,002.
fn seen_in_reverse(number: u32) -> (Told, u64, u64, i32, u32) {
    let asked = if number < 1002 {
        number
    } else {
        2003u32.saturating_sub(number)
    };
    let unique = u64::from(asked).saturating_mul(2);
    let node = u64::from(asked).saturating_sub(1);
    match number {
        0 => (Asked(0), 2, 0, 0, 0),
        1 => (Answered(1, 0), 2, 0, 0, 1),
        2..=1001 => (Asked(number), unique, node, 0, 0),
        _ => (
            Answered(number, asked),
            unique,
            node,
            EEXIST,
            asked.saturating_add(1),
        ),
    }
}

#[test]
fn many_requests_answered_in_reverse(rt: HostRuntime) {
    let seen = seen_of_each(rt.alloc(), refused_in_reverse(rt.alloc())).expect(&rt, "memory");
    assert_eq!(rt; seen.len(), 2002);
    for (number, seen) in (0..2002).zip(&seen) {
        let found = (seen.told, seen.unique, seen.node, seen.error, seen.tag);
        assert!(rt; found == seen_in_reverse(number), "message {number}");
    }
}

#[test]
fn tags_outlast_a_session_that_is_put_aside(rt: HostRuntime) {
    let sample = Sample::new(rt.alloc())
        .init(2)
        .init_answer(2)
        .lookup(4, 1, b"a")
        .lookup(6, 1, b"b")
        .error(6, ENOENT)
        .error(4, ENOENT);
    let seen = seen_of_each_apart(rt.alloc(), sample).expect(&rt, "memory");
    // INIT is the first message that is handed in, the LOOKUPs the third and the fourth.
    assert!(rt; seen.iter().map(|seen| seen.tag).eq([0, 1, 0, 0, 4, 3]));
}

static INIT: &[u8; 56] = b"\x38\0\0\0\x1a\0\0\0\x02\0\0\0\0\0\0\0\0\0\0\0\0\0\0\0\
\0\0\0\0\0\0\0\0\0\0\0\0\0\0\0\0\x07\0\0\0\x1f\0\0\0\0\0\0\0\0\0\0\0";

/// The answer to it, of 24 bytes behind the header.
static INIT_ANSWER: &[u8; 40] =
    b"\x28\0\0\0\0\0\0\0\x02\0\0\0\0\0\0\0\x07\0\0\0\x1f\0\0\0\0\0\0\0\0\0\0\0\0\0\0\0\0\0\0\0";

/// READLINK of the root with the unique 4, and its refusal with ENOENT.
static READLINK: &[u8; 40] =
    b"\x28\0\0\0\x05\0\0\0\x04\0\0\0\0\0\0\0\x01\0\0\0\0\0\0\0\0\0\0\0\0\0\0\0\0\0\0\0\0\0\0\0";

static REFUSAL: &[u8; 16] = b"\x10\0\0\0\xfe\xff\xff\xff\x04\0\0\0\0\0\0\0";

/// A hundred READLINKs of the uniques 4, 6 and so on.
fn readlinks() -> [[u8; 40]; 100] {
    let mut messages = [*READLINK; 100];
    let mut unique = 4u8;
    for message in &mut messages {
        message[8] = unique;
        unique = unique.wrapping_add(2);
    }
    messages
}

/// A message in this direction.
fn packet(direction: Direction, bytes: &[u8]) -> Packet<'_> {
    Packet {
        direction,
        time: 0,
        bytes,
    }
}

/// The session alone takes memory here. An ordinary run has ample memory: `bench/refused` refuses each allocation in turn, which
/// shows what the session does without it: the message is handed in again, and what is told of it and of the others is the same.
#[test]
fn a_message_without_memory_is_handed_in_again(rt: HostRuntime) {
    let messages = readlinks();
    let mut packets = [packet(Direction::ToServer, INIT); 203];
    let mut seen = [UNSEEN; 203];
    packets[1] = packet(Direction::FromServer, INIT_ANSWER);
    packets[202] = packet(Direction::FromServer, REFUSAL);
    for place in 0..100 {
        packets[2 + 2 * place] = packet(Direction::ToServer, &messages[place]);
        packets[3 + 2 * place] = packet(Direction::ToServer, &messages[place]);
    }
    let mut tried = Tried::new(rt.alloc());
    tried.tell_each(&packets, &mut seen);
    drop(tried);
    assert!(rt; seen[0].told == Asked(0) && seen[0].negotiated.is_none());
    assert!(rt; seen[1].told == Answered(1, 0) && seen[1].negotiated == Some(0));
    assert!(rt; seen[202].told == Answered(102, 2));
    for place in 0..100 {
        assert!(rt;
            seen[2 + 2 * place].told == Asked(2 + place as u32),
            "at {place}"
        );
        assert!(rt;
            seen[3 + 2 * place].told == Refused(codes::UNIQUE_IN_USE),
            "at {place}"
        );
    }
}

/// The session alone takes memory here too, and is put aside behind each message. As above, `bench/refused` shows what
/// it does without memory: it is put aside or taken up again at a second try, and what is told of each message is the same.
#[test]
fn a_session_without_memory_is_put_aside_again(rt: HostRuntime) {
    let messages = readlinks();
    let packets = [
        packet(Direction::ToServer, INIT),
        packet(Direction::FromServer, INIT_ANSWER),
        packet(Direction::ToServer, &messages[0]),
        packet(Direction::ToServer, &messages[2]),
        packet(Direction::ToServer, &messages[1]),
        packet(Direction::FromServer, REFUSAL),
        packet(Direction::ToServer, &messages[2]),
        packet(Direction::ToServer, &messages[0]),
    ];
    let expected = [
        Asked(0),
        Answered(1, 0),
        Asked(2),
        Asked(3),
        Asked(4),
        Answered(5, 2),
        Refused(codes::UNIQUE_IN_USE),
        Asked(6),
    ];
    let mut seen = [UNSEEN; 8];
    let mut generations = Generations::new(rt.alloc());
    let is_seen = generations.tell_each(rt.alloc(), &packets, &mut seen);
    let bytes = generations.bytes();
    drop(generations);
    assert!(rt; is_seen);
    assert_eq!(rt; bytes, 3 * READLINK.len());
    for (seen, told) in seen.iter().zip(&expected) {
        assert!(rt; seen.told == *told);
    }
}

#[test]
fn laws_do_nothing() {
    fa_session::laws::answers_one();
    fa_session::laws::answered_once();
    fa_session::laws::each_reply_answers();
}
