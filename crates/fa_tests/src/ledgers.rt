//! Ledgers of a few messages. The unique of each request is the number of its message.

use crate::messages::{INIT, INIT_ANSWER, begun, packet, spelled, thirty};
use crate::paired::{Paired, calls_in, handed_in, packets_of};
use crate::sent::Sent::{self, *};
use crate::sent::{CREAT, with, with_all};
use crate::standings::taken;
use Mark::*;
use NodeName::{Given, Root};
use bitflags::Flags;
use fa_bodies::errno::{EACCES, EIO, ENOENT};
use fa_capture::Direction;
use fa_capture::codes::{CLOSED_HANDLE, FORGOTTEN_NODE, FORGOTTEN_TOO_OFTEN, NODE_ID_NOT_ALLOWED};
use fa_ledger::{Call, CallList, Calls, NodeName, Outcome};
use fa_sample::Sample;
use std::alloc::Global;

/// `GETATTR_FH` of `fuse.h`, and another flag.
const GETATTR_FH: u32 = 1;

const GETATTR_OTHER: u32 = 2;
/// `FATTR_SIZE` and `FATTR_FH` of `fuse.h`.
const FATTR_SIZE: u32 = 8;

const FATTR_FH: u32 = 64;
/// `FOPEN_DIRECT_IO` of `fuse.h`.
const DIRECT: u32 = 1;
/// `O_TRUNC` of POSIX `open`.
const TRUNC: u32 = 0x200;
/// `FUSE_ATOMIC_O_TRUNC` of `fuse.h`.
const ATOMIC_O_TRUNC: u32 = 8;

/// The code of each message of a capture, 0 where it is taken. None where memory was refused, or the bytes are no capture.
fn codes_of(alloc: Global, sample: Sample) -> Option<Vec<u16>> {
    let bytes = sample.capture().ok()?;
    let packets = packets_of(alloc, &bytes)?;
    let (paired, codes) = handed_in(alloc, &packets)?;
    drop(paired);
    Some(codes)
}

/// Whether all messages but the last are taken, and that one has this code, 0 where it is taken.
fn ends_with(codes: &[u16], last: u16) -> bool {
    match codes {
        [front @ .., code] => *code == last && front.iter().all(|code| *code == 0),
        [] => false,
    }
}

const TWICE: &[(u64, u64)] = &[(5, 1), (5, 1)];

/// The node 5 is given, and opened with the file handle 7: the messages 2 to 5.
pub(crate) static OPENED: &[Sent] = &[Lookup(2, 1), Entry(2, 5), Open(4, 5, 0), Opened(4, 7, 0)];

/// The code of each message, 0 where it is taken. These stand behind INIT, its answer and `OPENED`, and those that are
/// refused change nothing.
pub(crate) type Course = &'static [(Sent, u16)];

pub(crate) static COURSES: [Course; 10] = [
    &[
        (BatchForget(6, TWICE), FORGOTTEN_TOO_OFTEN),
        (Forget(6, 5, 1), 0),
        (Readlink(7, 5), FORGOTTEN_NODE),
    ],
    &[
        (BatchForget(6, &[(5, 1), (9, 1)]), FORGOTTEN_TOO_OFTEN),
        (Read(6, 5, 7), 0),
        (BatchForget(7, &[(5, 1)]), 0),
        (BatchForget(8, &[(5, 1)]), FORGOTTEN_TOO_OFTEN),
    ],
    &[
        (Forget(6, 5, 2), FORGOTTEN_TOO_OFTEN),
        (Readlink(6, 5), 0),
        (Forget(7, 5, 1), 0),
        (Forget(8, 5, 1), FORGOTTEN_TOO_OFTEN),
    ],
    &[
        (Rename(6, 5, 9), FORGOTTEN_NODE),
        (Rename(6, 5, 1), 0),
        (Done(6), 0),
        (Rename(8, 9, 1), FORGOTTEN_NODE),
    ],
    &[
        (Rename2(6, 5, 2, 9), FORGOTTEN_NODE),
        (Rename2(6, 5, 2, 1), 0),
        (Done(6), 0),
        (Rename2(8, 9, 1, 1), FORGOTTEN_NODE),
    ],
    &[
        (Release(6, 5, 8), CLOSED_HANDLE),
        (Release(6, 5, 7), 0),
        (Release(7, 5, 7), CLOSED_HANDLE),
    ],
    // The request of a refused reply waits on.
    &[
        (Create(6, 1, CREAT), 0),
        (Created(6, 1, 8), NODE_ID_NOT_ALLOWED),
        (Created(6, 6, 8), 0),
        (Read(8, 6, 8), 0),
        (Forget(9, 6, 2), FORGOTTEN_TOO_OFTEN),
    ],
    &[
        (Opendir(6, 1), 0),
        (Opened(6, 8, 0), 0),
        (Readdirplus(8, 1, 8, 0), 0),
        (DirentsOfTwo(8, 6, 1), NODE_ID_NOT_ALLOWED),
        (DirentsOfTwo(8, 6, 6), 0),
        (Forget(10, 6, 2), 0),
        (Readlink(11, 6), FORGOTTEN_NODE),
    ],
    // An OPEN that waits opens under the name that its node had when it was asked.
    &[
        (Open(6, 5, 0), 0),
        (Forget(7, 5, 1), 0),
        (Lookup(8, 1), 0),
        (Entry(8, 5), 0),
        (Opened(6, 8, 0), 0),
        (Read(11, 5, 8), CLOSED_HANDLE),
        (Open(11, 5, 0), 0),
        (Opened(11, 8, 0), 0),
        (Read(13, 5, 8), 0),
    ],
    // One that fails opens nothing.
    &[
        (Open(6, 5, 0), 0),
        (Opendir(7, 1), 0),
        (Error(6, EACCES), 0),
        (Opened(7, 8, 0), 0),
        (Releasedir(10, 1, 8), 0),
        (Read(11, 5, 8), CLOSED_HANDLE),
    ],
];

/// Whether the messages have these codes.
fn is_told(alloc: Global, course: &[(Sent, u16)]) -> Option<bool> {
    let mut sample = with_all(begun(alloc, (0, 0)), OPENED);
    for (message, _) in course {
        sample = with(sample, *message);
    }
    let codes = codes_of(alloc, sample)?;
    let codes = codes.get(6..)?;
    let mut is_told = codes.len() == course.len();
    for (found, (_, code)) in codes.iter().zip(course) {
        is_told = is_told && found == code;
    }
    Some(is_told)
}

#[test]
fn behind_a_message_that_is_refused(rt: HostRuntime) {
    for (number, course) in COURSES.iter().enumerate() {
        assert!(rt;
            is_told(rt.alloc(), course) == Some(true),
            "course {number}"
        );
    }
}

/// The node 5, and 1,000 file handles of it that are open together and closed one after the other. In front of the last
/// message, a READ of this one, are 3,004.
fn opened_and_closed(alloc: Global, fh: u64) -> Sample {
    let mut sample = with_all(begun(alloc, (0, 0)), &[Lookup(2, 1), Entry(2, 5)]);
    for fh in 0..1000u64 {
        sample = sample.open(4 + 2 * fh, 5).opened(4 + 2 * fh, fh);
    }
    for fh in 0..1000u64 {
        sample = sample.release(2004 + fh, 5, fh);
    }
    sample.read(3004, 5, fh, 0, 4096)
}

#[test]
fn many_handles_opened_and_closed(rt: HostRuntime) {
    for fh in [0, 500, 999] {
        let sample = opened_and_closed(rt.alloc(), fh);
        let codes = codes_of(rt.alloc(), sample).expect(&rt, "memory");
        assert_eq!(rt; codes.len(), 3005);
        assert!(rt; ends_with(&codes, CLOSED_HANDLE), "handle {fh}");
    }
}

/// What a call shows besides its request and its node, where it is not none or false.
#[derive(Clone, Copy)]
pub(crate) enum Mark {
    Other(NodeName),
    Handle(u32),
    Direct,
    Truncates,
    /// What it goes on from, whether its listing is adrift, and whether its handle is shared.
    Listing(Option<(u32, u32)>, bool, bool),
    /// The number of its answer, and what that says.
    Answer(u32),
    Refusal(i32),
    Gives(&'static [NodeName]),
    Opens,
}

/// The number of a call's request, its node, and what else it shows.
pub(crate) type Shows = (u32, NodeName, &'static [Mark]);

/// The node 5 by the reply 3.
const FIVE: NodeName = Given { id: 5, by: 3 };

/// Flags of INIT and of its answer, messages behind these, and their calls.
pub(crate) type Called = ((u32, u32), &'static [Sent], &'static [Shows]);

/// The node 5 is forgotten and given again, while it is open.
const GIVEN_AGAIN: Called = (
    (0, 0),
    &[
        Lookup(2, 1),
        Entry(2, 5),
        Open(4, 5, 0),
        Opened(4, 7, 0),
        Lookup(6, 1),
        Write(7, 5, 7, 0),
        Written(7),
        Release(9, 5, 7),
        Done(9),
        Forget(11, 5, 1),
        Entry(6, 5),
        Lookup(13, 1),
        Entry(13, 6),
        Open(15, 5, 0),
        Opened(15, 7, 0),
        Read(17, 5, 7),
    ],
    &[
        (2, Root, &[Answer(3), Gives(&[FIVE])]),
        (4, FIVE, &[Answer(5), Opens]),
        (6, Root, &[Answer(12), Gives(&[Given { id: 5, by: 12 }])]),
        (7, FIVE, &[Handle(4), Answer(8)]),
        (13, Root, &[Answer(14), Gives(&[Given { id: 6, by: 14 }])]),
        (15, Given { id: 5, by: 12 }, &[Answer(16), Opens]),
        (17, Given { id: 5, by: 12 }, &[Handle(15)]),
    ],
);

/// CREATE of a new node, and of one that is known. GETXATTR is no call.
const CREATED: Called = (
    (0, 0),
    &[
        Create(2, 1, CREAT),
        Created(2, 5, 7),
        Write(4, 5, 7, 0),
        Getxattr(5, 99),
        Create(6, 1, CREAT),
        Created(6, 5, 8),
        Read(8, 5, 8),
        Error(8, EIO),
    ],
    &[
        (2, Root, &[Answer(3), Gives(&[FIVE]), Opens]),
        (4, FIVE, &[Handle(2)]),
        (6, Root, &[Answer(7), Gives(&[FIVE]), Opens]),
        (8, FIVE, &[Handle(6), Answer(9), Refusal(EIO)]),
    ],
);

/// The other node of RENAME and of LINK.
const OTHERS: Called = (
    (0, 0),
    &[
        Mkdir(2, 1),
        Entry(2, 5),
        Rename(4, 1, 5),
        Done(4),
        Link(6, 1, 5),
        Entry(6, 6),
        Rename(8, 5, 1),
        Error(8, EACCES),
        Link(10, 5, 6),
        Rename2(12, 5, 1, 6),
        Done(12),
    ],
    &[
        (2, Root, &[Answer(3), Gives(&[FIVE])]),
        (4, Root, &[Other(FIVE), Answer(5)]),
        (
            6,
            Root,
            &[Other(FIVE), Answer(7), Gives(&[Given { id: 6, by: 7 }])],
        ),
        (8, FIVE, &[Other(Root), Answer(9), Refusal(EACCES)]),
        (10, FIVE, &[Other(Given { id: 6, by: 7 })]),
        (11, FIVE, &[Other(Given { id: 6, by: 7 }), Answer(12)]),
    ],
);

/// Of two OPENs of one key that wait together the first answer opens it, and names its handle until it is closed.
const OVERLAPPING: Called = (
    (0, 0),
    &[
        Lookup(2, 1),
        Entry(2, 5),
        Open(4, 5, 0),
        Open(5, 5, 0),
        Opened(5, 7, 0),
        Opened(4, 7, 0),
        Read(8, 5, 7),
        Release(9, 5, 7),
        Read(10, 5, 7),
        Release(11, 5, 7),
        Open(12, 5, 0),
        Opened(12, 7, 0),
        Read(14, 5, 7),
    ],
    &[
        (2, Root, &[Answer(3), Gives(&[FIVE])]),
        (4, FIVE, &[Answer(7)]),
        (5, FIVE, &[Answer(6), Opens]),
        (8, FIVE, &[Handle(5)]),
        (10, FIVE, &[Handle(5)]),
        (12, FIVE, &[Answer(13), Opens]),
        (14, FIVE, &[Handle(12)]),
    ],
);

/// A handle is direct by any opening that was answered before the request, until it is closed.
const DIRECTLY: Called = (
    (0, 0),
    &[
        Lookup(2, 1),
        Entry(2, 5),
        Open(4, 5, 0),
        Opened(4, 7, 0),
        Open(6, 5, 0),
        Read(7, 5, 7),
        Opened(6, 7, DIRECT),
        Read(9, 5, 7),
        Release(10, 5, 7),
        Getattr(11, 5, GETATTR_FH, 7),
        Getattr(12, 5, 0, 7),
        Release(13, 5, 7),
        Open(14, 5, 0),
        Opened(14, 7, 0),
        Setattr(16, 5, FATTR_FH, 7),
    ],
    &[
        (2, Root, &[Answer(3), Gives(&[FIVE])]),
        (4, FIVE, &[Answer(5), Opens]),
        (6, FIVE, &[Answer(8)]),
        (7, FIVE, &[Handle(4)]),
        (9, FIVE, &[Handle(4), Direct]),
        (11, FIVE, &[Handle(4), Direct]),
        (12, FIVE, &[]),
        (14, FIVE, &[Answer(15), Opens]),
        (16, FIVE, &[Handle(14)]),
    ],
);

/// Listings, and errors. A listing of nodes that were known gives them by their names.
const LISTINGS: Called = (
    (0, 0),
    &[
        Opendir(2, 1),
        Error(2, EACCES),
        Lookup(4, 1),
        Error(4, ENOENT),
        Lookup(6, 1),
        Entry(6, 0),
        Opendir(8, 1),
        Opened(8, 7, 0),
        Readdirplus(10, 1, 7, 0),
        DirentsOfTwo(10, 5, 5),
        Readdirplus(12, 1, 7, 0),
        DirentsOfTwo(12, 6, 5),
        Readdir(14, 1, 7, 0),
    ],
    &[
        (2, Root, &[Answer(3), Refusal(EACCES)]),
        (4, Root, &[Answer(5), Refusal(ENOENT)]),
        (6, Root, &[Answer(7)]),
        (8, Root, &[Answer(9), Opens]),
        (
            10,
            Root,
            &[
                Handle(8),
                Listing(None, false, false),
                Answer(11),
                Gives(&[Given { id: 5, by: 11 }, Given { id: 5, by: 11 }]),
            ],
        ),
        (
            12,
            Root,
            &[
                Handle(8),
                Listing(None, false, false),
                Answer(13),
                Gives(&[Given { id: 6, by: 13 }, Given { id: 5, by: 11 }]),
            ],
        ),
        (14, Root, &[Handle(8), Listing(None, false, false)]),
    ],
);

const TRUNCATING: &[Sent] = &[
    Open(2, 1, TRUNC),
    Opened(2, 7, 0),
    Open(4, 1, 0),
    Create(5, 1, CREAT | TRUNC),
    Create(6, 1, CREAT),
];

/// OPEN does not empty a file unless both sides say so at INIT.
const BY_CREATE: &[Shows] = &[
    (2, Root, &[Answer(3), Opens]),
    (4, Root, &[]),
    (5, Root, &[Truncates]),
    (6, Root, &[]),
];

const BY_OPEN: &[Shows] = &[
    (2, Root, &[Truncates, Answer(3), Opens]),
    (4, Root, &[]),
    (5, Root, &[Truncates]),
    (6, Root, &[]),
];

pub(crate) static CALLS: [Called; 10] = [
    GIVEN_AGAIN,
    CREATED,
    OTHERS,
    OVERLAPPING,
    DIRECTLY,
    LISTINGS,
    ((0, 0), TRUNCATING, BY_CREATE),
    ((ATOMIC_O_TRUNC, 0), TRUNCATING, BY_CREATE),
    ((0, ATOMIC_O_TRUNC), TRUNCATING, BY_CREATE),
    ((ATOMIC_O_TRUNC, ATOMIC_O_TRUNC), TRUNCATING, BY_OPEN),
];

/// The error that came of a call, or 0 where none did, and whether it was answered.
fn ended(call: &Call<'_>) -> (i32, bool) {
    match call.operation().ended() {
        Outcome::Fails(error) => (error, true),
        Outcome::Succeeds(()) => (0, true),
        Outcome::Unanswered => (0, false),
    }
}

/// Whether an answer shows this.
fn is_answer(found: &fa_ledger::Answer, at: u32, marks: &[Mark]) -> bool {
    let mut shown = (at, false);
    let mut given: &[NodeName] = &[];
    for mark in marks {
        match mark {
            Opens => shown.1 = true,
            Gives(names) => given = names,
            _ => {}
        }
    }
    (found.at, found.opens) == shown && found.given.names() == given
}

/// Whether a call shows this.
fn is_call(found: &Call<'_>, shows: &Shows) -> bool {
    let (asked, node, marks) = shows;
    let (mut other, mut handle, mut answer) = (None, None, None);
    let mut listing = None;
    let mut flags = (false, false);
    let mut error = 0;
    for mark in *marks {
        match mark {
            Refusal(number) => error = *number,
            Other(name) => other = Some(*name),
            Handle(name) => handle = Some(*name),
            Direct => flags.0 = true,
            Truncates => flags.1 = true,
            Listing(before, adrift, shared) => {
                listing = Some(fa_ledger::Listing {
                    before: *before,
                    adrift: *adrift,
                    shared: *shared,
                });
            }
            Answer(at) => answer = Some(*at),
            _ => {}
        }
    }
    let is_answered = match (&found.answer, answer) {
        (Some(found), Some(at)) => is_answer(found, at, marks),
        (None, None) => true,
        _ => false,
    };
    let is_request = (found.asked, found.node, found.other) == (*asked, *node, other);
    let is_use = (found.handle, found.direct, found.truncates) == (handle, flags.0, flags.1);
    let is_end = ended(found) == (error, answer.is_some());
    is_answered && is_end && is_request && is_use && found.listing == listing
}

/// Whether the calls are these, and as many messages were handed in.
fn are_calls(calls: &Calls<'_>, shown: &[Shows], messages: usize) -> bool {
    let mut are_calls = calls.list.len() == shown.len();
    for (place, shows) in shown.iter().enumerate() {
        are_calls = are_calls
            && calls
                .list
                .get(place)
                .is_some_and(|call| is_call(&call, shows));
    }
    are_calls && calls.messages as usize == messages && are_found(calls)
}

/// Whether the calls of messages behind INIT and its answer are these.
fn are_called(alloc: Global, called: &Called) -> Option<bool> {
    let (flags, messages, shown) = called;
    let bytes = with_all(begun(alloc, *flags), messages).capture().ok()?;
    let calls = calls_in(alloc, &bytes)?;
    let are_called = are_calls(&calls, shown, messages.len().saturating_add(2));
    drop(calls);
    Some(are_called)
}

/// Whether each call is found by the number of its request, and by no other.
fn are_found(calls: &Calls<'_>) -> bool {
    let mut count = 0;
    for at in 0..=calls.messages {
        if let Some(place) = calls.find(at) {
            if place != count || calls.list.get(place).is_none_or(|call| call.asked != at) {
                return false;
            }
            count = count.saturating_add(1);
        }
    }
    count == calls.list.len()
}

#[test]
fn what_calls_show(rt: HostRuntime) {
    for (number, called) in CALLS.iter().enumerate() {
        assert!(rt;
            are_called(rt.alloc(), called) == Some(true),
            "calls {number}"
        );
    }
}

/// Whether an order may name a call without a count of bytes written, with 0, with 1 and with 2.
type Choices = [bool; 4];

/// Without one alone, with at most the byte that is written, and not at all.
const ALONE: Choices = [true, false, false, false];

const COUNTED: Choices = [false, true, true, false];

const LEFT_OUT: Choices = [false; 4];

/// The messages 6 to 9, behind INIT, its answer and `OPENED`: a directory is opened, and a WRITE is answered.
static IN_FRONT: [Sent; 4] = [
    Opendir(6, 1),
    Opened(6, 7, 0),
    Write(8, 5, 7, 0),
    Written(8),
];

/// Each tree request, and what an order may name it with where it is not answered. These stand behind `IN_FRONT`.
static CHOICES: [(Sent, Choices); 19] = [
    (Lookup(10, 1), LEFT_OUT),
    (Getattr(11, 5, 0, 0), LEFT_OUT),
    (Setattr(12, 5, 0, 0), ALONE),
    (Readlink(13, 5), LEFT_OUT),
    (Symlink(14, 1), ALONE),
    (Mknod(15, 1), ALONE),
    (Mkdir(16, 1), ALONE),
    (Unlink(17, 1), ALONE),
    (Rmdir(18, 1), ALONE),
    (Rename(19, 1, 1), ALONE),
    (Rename2(28, 1, 2, 1), ALONE),
    (Link(20, 1, 5), ALONE),
    (Open(21, 5, 0), ALONE),
    (Read(22, 5, 7), LEFT_OUT),
    (Write(23, 5, 7, 0), COUNTED),
    (Opendir(24, 1), LEFT_OUT),
    (Readdir(25, 1, 7, 0), LEFT_OUT),
    (Create(26, 1, CREAT), ALONE),
    (Readdirplus(27, 1, 7, 0), LEFT_OUT),
];

/// Whether an order may name the calls of these requests so, and the four in front of them, which are answered, without a count
/// alone.
fn are_choices(calls: &CallList<'_>, rows: &[(Sent, Choices)]) -> bool {
    let mut are_choices = calls.len() == rows.len().saturating_add(4);
    for place in 0..4 {
        are_choices = are_choices && calls.get(place).is_some_and(|call| choices(&call) == ALONE);
    }
    for (place, (_, expected)) in (4..usize::MAX).zip(rows) {
        are_choices = are_choices
            && calls
                .get(place)
                .is_some_and(|call| choices(&call) == *expected);
    }
    are_choices
}

/// The same of the calls of these requests. None also where a message is refused, or memory was.
fn have_choices(alloc: Global, rows: &[(Sent, Choices)]) -> Option<bool> {
    let mut sample = with_all(with_all(begun(alloc, (0, 0)), OPENED), &IN_FRONT);
    for (message, _) in rows {
        sample = with(sample, *message);
    }
    let bytes = sample.capture().ok()?;
    let calls = calls_in(alloc, &bytes)?;
    let are_choices = are_choices(&calls.list, rows);
    drop(calls);
    Some(are_choices)
}

/// What an order may name a call with.
fn choices(call: &Call<'_>) -> Choices {
    [
        call.allows(None),
        call.allows(Some(0)),
        call.allows(Some(1)),
        call.allows(Some(2)),
    ]
}

#[test]
fn what_an_order_may_name(rt: HostRuntime) {
    assert!(rt; have_choices(rt.alloc(), &CHOICES) == Some(true));
}

/// LOOKUP of `a` in the root, an entry, OPEN, and a file handle.
static LOOKUP: &[(usize, u8)] = &[(0, 42), (4, 1), (16, 1), (40, b'a')];

static ENTRY: &[(usize, u8)] = &[(0, 144)];

static OPEN: &[(usize, u8)] = &[(0, 48), (4, 14)];

static HANDLE: &[(usize, u8)] = &[(0, 32)];
/// OPENDIR of the root, its file handle, and READDIRPLUS of 4,096 bytes.
static OPENDIR: &[(usize, u8)] = &[(0, 48), (4, 27), (8, 1), (16, 1)];

static DIRECTORY: &[(usize, u8)] = &[(0, 32), (8, 1)];

static READDIRPLUS: &[(usize, u8)] = &[(0, 80), (4, 44), (8, 1), (16, 1), (57, 16)];
/// Its answer: 336 bytes, of which two entries have 160 each, `a` with the node 10 and the off 1, and `b` with the node 90
/// and the off 2.
static LISTING: &[(usize, u8)] = &[
    (0, 80),
    (1, 1),
    (8, 1),
    (16, 10),
    (152, 1),
    (160, 1),
    (168, b'a'),
    (176, 90),
    (312, 2),
    (320, 1),
    (328, b'b'),
];
/// READDIR of 4,096 bytes at the offset 2.
static READDIR: &[(usize, u8)] = &[(0, 80), (4, 28), (8, 1), (16, 1), (48, 2), (57, 16)];

/// Whether a call is answered so: by this message, giving these nodes.
fn gives(call: &Call<'_>, at: u32, names: &[NodeName]) -> bool {
    match &call.answer {
        Some(answer) => answer.at == at && answer.given.names() == names,
        None => false,
    }
}

/// Whether the calls are of 30 LOOKUPs, the messages 2 to 31, which are answered by 32 to 61, of 30 OPENs, 62 to 91, of the
/// nodes that these give, of OPENDIR, 122, of READDIRPLUS, 124, and of READDIR, 126, which goes on from both of its entries.
fn are_grown(calls: &Calls<'_>) -> bool {
    let (Some(opendir), Some(listing), Some(further)) = (
        calls.list.get(60),
        calls.list.get(61),
        calls.list.get(62),
    ) else {
        return false;
    };
    let mut are_grown = calls.list.len() == 63
        && opendir.asked == 122
        && listing.handle == Some(122);
    for (by, place) in (32..62u32).zip(0..30usize) {
        let (Some(looked_up), Some(opened)) = (
            calls.list.get(place),
            calls.list.get(place.saturating_add(30)),
        ) else {
            return false;
        };
        let id = u64::from(by).saturating_sub(22);
        are_grown = are_grown
            && gives(&looked_up, by, &[Given { id, by }])
            && opened.node == Given { id, by }
            && gives(&opened, by.saturating_add(60), &[]);
    }
    let given = [Given { id: 10, by: 32 }, Given { id: 90, by: 125 }];
    let listed = Some(fa_ledger::Listing {
        before: Some((124, 2)),
        adrift: false,
        shared: false,
    });
    are_grown && gives(&listing, 125, &given) && further.listing == listed
}

/// The sessions, the ledger and the standing alone take memory here. An ordinary run has ample memory: `bench/refused` refuses
/// each allocation in turn, which shows what they do without it: the event is handed in again, and what is told of it and of the
/// others is the same.
#[test]
fn an_event_without_memory_is_handed_in_again(rt: HostRuntime) {
    let (to, from) = (Direction::ToServer, Direction::FromServer);
    let (init, init_answer): ([u8; 56], [u8; 40]) = (spelled(INIT), spelled(INIT_ANSWER));
    let (lookups, entries): ([[u8; 42]; 30], [[u8; 144]; 30]) = (
        thirty(LOOKUP, 8),
        thirty(ENTRY, 16),
    );
    let (opens, handles): ([[u8; 48]; 30], [[u8; 32]; 30]) = (thirty(OPEN, 16), thirty(HANDLE, 16));
    let (opendir, directory): ([u8; 48], [u8; 32]) = (spelled(OPENDIR), spelled(DIRECTORY));
    let (readdirplus, listing): ([u8; 80], [u8; 336]) = (spelled(READDIRPLUS), spelled(LISTING));
    let readdir: [u8; 80] = spelled(READDIR);
    let mut packets = [packet(to, &init); 127];
    packets[1] = packet(from, &init_answer);
    for place in 0..30 {
        packets[2 + place] = packet(to, &lookups[place]);
        packets[32 + place] = packet(from, &entries[place]);
        packets[62 + place] = packet(to, &opens[place]);
        packets[92 + place] = packet(from, &handles[place]);
    }
    packets[122] = packet(to, &opendir);
    packets[123] = packet(from, &directory);
    packets[124] = packet(to, &readdirplus);
    packets[125] = packet(from, &listing);
    packets[126] = packet(to, &readdir);
    let mut codes = [0; 127];
    let mut paired = Paired::new(rt.alloc());
    paired.take_each(&packets, &mut codes);
    assert!(rt; codes == [0; 127]);
    // 30 LOOKUPs and 30 OPENs, OPENDIR, READDIRPLUS and READDIR are calls.
    assert_eq!(rt; paired.ledger.next_place(), 63);
    let calls = paired.into_calls();
    let are_grown = are_grown(&calls);
    drop(calls);
    assert!(rt; are_grown);
    assert!(rt; taken(rt.alloc(), &packets) == (127, None));
}

#[test]
fn laws_do_nothing() {
    fa_ledger::laws::name_is_least();
    fa_ledger::laws::events_are_one();
    fa_ledger::laws::calls_are_one();
    fa_ledger::laws::names_look_back();
    fa_ledger::laws::calls_stay();
    fa_ledger::laws::listed_is_one();
    fa_ledger::laws::listed_is_there();
    fa_ledger::laws::count_is_first();
    fa_ledger::laws::calls_list_so_far();
}
