//! What `check`, `cut` and `propose` answer of one capture, and of its messages before each. Other captures stand in the repository's
//! folder `cases`, as calls of the program.

use fa_bodies::ROOT_ID as ROOT;
use fa_capture::Seed;
use fa_capture::codes::BYTES_READ;
use fa_check::{Verdict, check, cut};
use fa_ledger::Calls;
use fa_order::Entry;
use fa_propose::propose;
use fa_tests::messages::begun;
use fa_tests::paired::{calls_in, calls_of, packets_of};
use fa_tests::sent::Sent::{self, *};
use fa_tests::sent::{CREAT, with_all};
use fa_tree::Tree;
use std::alloc::Global;
use std::process::Abort;

/// A new file, the messages 2 and 3, and a WRITE of one byte, of which a READ tells before its answer: the messages 4 to 7.
static WRITTEN: &[Sent] = &[
    Create(2, ROOT, CREAT),
    Created(2, 2, 1),
    Write(4, 2, 1, 0),
    Read(5, 2, 1),
    Success(5, b"x"),
    Written(4),
];

/// The entries of these requests, and that of the WRITE where it has no answer.
const MADE: Entry = Entry { at: 2, wrote: None };

const WROTE: Entry = Entry { at: 4, wrote: None };

const WROTE_ONE: Entry = Entry {
    at: 4,
    wrote: Some(1),
};

const FOUND: Entry = Entry { at: 5, wrote: None };

/// The order that explains the replies, and one that does not.
const ORDER: &[Entry] = &[MADE, WROTE, FOUND];

static TOO_EARLY: &[Entry] = &[MADE, FOUND, WROTE];

/// What is left of the first for the messages before each, from the first message to behind the last.
static LEFT: [&[Entry]; 9] = [
    &[],
    &[],
    &[],
    &[],
    &[MADE],
    &[MADE],
    &[MADE],
    &[MADE, WROTE_ONE, FOUND],
    ORDER,
];

/// The bytes of the capture.
fn written(rt: &impl Abort, alloc: Global) -> Vec<u8> {
    with_all(begun(alloc, (0, 0)), WRITTEN)
        .capture()
        .expect(rt, "memory")
}

/// The verdict on an order of these calls, from a tree of its root alone.
fn verdict_on(rt: &impl Abort, alloc: Global, calls: &Calls<'_>, order: &[Entry]) -> Verdict {
    let tree = Tree::empty(alloc, Seed::default(), 0o755).expect(rt, "memory");
    check(alloc, calls, tree, order).expect(rt, "memory")
}

/// Whether the order is cut so at this message, and what is left is legal for the messages before.
fn is_cut(rt: &impl Abort, alloc: Global, at: u32, left: &[Entry]) -> bool {
    let bytes = written(rt, alloc);
    let packets = packets_of(alloc, &bytes).expect(rt, "memory");
    let calls = calls_of(alloc, &packets).expect(rt, "calls");
    let entries = cut(alloc, &calls, ORDER, at).expect(rt, "memory");
    drop(calls);
    let front = packets.get(..at as usize).expect(rt, "so many messages");
    let before = calls_of(alloc, front).expect(rt, "calls");
    let verdict = verdict_on(rt, alloc, &before, &entries);
    drop(before);
    matches!(verdict, Verdict::Legal { .. }) && entries.as_slice() == left
}

#[test]
fn what_is_left_of_an_order(rt: HostRuntime) {
    for (at, left) in (0..9).zip(&LEFT) {
        assert!(rt; is_cut(&rt, rt.alloc(), at, left), "cut at {at}");
    }
}

/// The verdict on an order of the whole capture.
fn verdict(rt: &impl Abort, alloc: Global, order: &[Entry]) -> Verdict {
    let bytes = written(rt, alloc);
    let calls = calls_in(alloc, &bytes).expect(rt, "calls");
    let verdict = verdict_on(rt, alloc, &calls, order);
    drop(calls);
    verdict
}

#[test]
fn what_is_answered_of_orders(rt: HostRuntime) {
    let legal = Verdict::Legal {
        messages: 8,
        placed: 3,
        left: 0,
    };
    let not_shown = Verdict::NotShown {
        entry: 1,
        at: 5,
        code: BYTES_READ,
    };
    assert_eq!(rt; verdict(&rt, rt.alloc(), ORDER), legal);
    assert_eq!(rt; verdict(&rt, rt.alloc(), TOO_EARLY), not_shown);
}

/// The order that is proposed for the whole capture.
fn proposed(rt: &impl Abort, alloc: Global) -> Vec<Entry> {
    let bytes = written(rt, alloc);
    let calls = calls_in(alloc, &bytes).expect(rt, "calls");
    let tree = Tree::empty(alloc, Seed::default(), 0o755).expect(rt, "memory");
    let order = propose(alloc, &calls, tree).expect(rt, "memory");
    drop(calls);
    order
}

#[test]
fn what_is_proposed(rt: HostRuntime) {
    assert!(rt; proposed(&rt, rt.alloc()).as_slice() == ORDER);
}
