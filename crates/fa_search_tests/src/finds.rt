//! What a search finds of small captures.

use fa_bodies::ROOT_ID as ROOT;
use fa_capture::Seed;
use fa_capture::codes::{ATTRIBUTES, BYTES_READ};
use fa_order::Entry;
use fa_search::{Alternatives, Budget, Finding, Nobody, orders_to, search};
use fa_tests::messages::begun;
use fa_tests::paired::calls_in;
use fa_tests::sent::Sent::{self, *};
use fa_tests::sent::{CREAT, with_all};
use fa_tree::Tree;
use std::alloc::Global;
use std::process::Abort;

/// `FATTR_SIZE` of `fuse.h`; the size of each SETATTR here is 0.
const SIZE: u32 = 8;

/// A new file, the messages 2 and 3; a WRITE of one byte and a SETATTR that cuts the file off, the messages 4 and 5, whose answers are 6
/// and 7; a READ, the message 8, and what it read.
static ONE_BYTE: &[Sent] = &[
    Create(2, ROOT, CREAT),
    Created(2, 2, 1),
    Write(4, 2, 1, 0),
    Setattr(5, 2, SIZE, 0),
    Written(4),
    Attr(5),
    Read(6, 2, 1),
    Success(6, b"x"),
];

static NO_BYTE: &[Sent] = &[
    Create(2, ROOT, CREAT),
    Created(2, 2, 1),
    Write(4, 2, 1, 0),
    Setattr(5, 2, SIZE, 0),
    Written(4),
    Attr(5),
    Read(6, 2, 1),
    Success(6, b""),
];

static ANOTHER_BYTE: &[Sent] = &[
    Create(2, ROOT, CREAT),
    Created(2, 2, 1),
    Write(4, 2, 1, 0),
    Setattr(5, 2, SIZE, 0),
    Written(4),
    Attr(5),
    Read(6, 2, 1),
    Success(6, b"y"),
];

/// A new file and a WRITE that is never answered; a READ of nothing, and one of its byte.
static UNANSWERED: &[Sent] = &[
    Create(2, ROOT, CREAT),
    Created(2, 2, 1),
    Write(4, 2, 1, 0),
    Read(6, 2, 1),
    Success(6, b""),
    Read(8, 2, 1),
    Success(8, b"x"),
];

/// The same READs the other way round.
static UNDONE: &[Sent] = &[
    Create(2, ROOT, CREAT),
    Created(2, 2, 1),
    Write(4, 2, 1, 0),
    Read(6, 2, 1),
    Success(6, b"x"),
    Read(8, 2, 1),
    Success(8, b""),
];

/// One request after the other: the bytes of a file that has none, and its attributes after a WRITE.
static SERIAL_BYTES: &[Sent] = &[
    Create(2, ROOT, CREAT),
    Created(2, 2, 1),
    Read(4, 2, 1),
    Success(4, b"x"),
];

static SERIAL_SIZE: &[Sent] = &[
    Create(2, ROOT, CREAT),
    Created(2, 2, 1),
    Write(4, 2, 1, 0),
    Written(4),
    Getattr(6, 2, 0, 0),
    Attr(6),
];

/// A directory is opened while a name is made in it, the messages 2 and 3, and listed; at last the name is denied (ENOENT). In the second the listing
/// is answered behind that.
static LISTED: &[Sent] = &[
    Opendir(2, ROOT),
    Mknod(4, ROOT),
    Opened(2, 1, 0),
    Sent::Entry(4, 2),
    Readdir(6, ROOT, 1, 0),
    Dirents(6, &[("a", 1)]),
    Lookup(8, ROOT),
    Error(8, -2),
];

static LISTED_LATER: &[Sent] = &[
    Opendir(2, ROOT),
    Mknod(4, ROOT),
    Opened(2, 1, 0),
    Sent::Entry(4, 2),
    Readdir(6, ROOT, 1, 0),
    Lookup(8, ROOT),
    Error(8, -2),
    Dirents(6, &[("a", 1)]),
];

const fn entry(at: u32) -> Entry {
    Entry { at, wrote: None }
}

const fn wrote(at: u32, count: u32) -> Entry {
    Entry {
        at,
        wrote: Some(count),
    }
}

/// What is found of the messages behind a negotiation, from a tree of its root alone.
fn found(rt: &impl Abort, alloc: Global, messages: &[Sent], budget: Budget) -> Finding {
    let bytes = with_all(begun(alloc, (0, 0)), messages)
        .capture()
        .expect(rt, "memory");
    let calls = calls_in(alloc, &bytes).expect(rt, "calls");
    let tree = Tree::empty(alloc, Seed::default(), 0o755).expect(rt, "memory");
    let finding = search(alloc, &calls, tree, budget, &mut Nobody).expect(rt, "memory");
    drop(calls);
    finding
}

/// Whether this order is found.
fn is_order(finding: &Finding, order: &[Entry]) -> bool {
    match finding {
        Finding::Found {
            order: found,
            placed,
            left: 0,
        } => { found.as_slice() == order && *placed as usize == order.len() }
        _ => false,
    }
}

/// Whether no order goes past this message, and this is the code.
fn is_none(finding: &Finding, message: u32, refusal: u16) -> bool {
    matches!(finding, Finding::NoOrder { at, code } if *at == message && *code == refusal)
}

/// Whether the search gave up at this message.
fn is_given_up(finding: &Finding, message: u32) -> bool {
    matches!(finding, Finding::GaveUp { at } if *at == message)
}

/// The orders that come to a message, of eight trees at most.
fn orders_found(
    rt: &impl Abort,
    alloc: Global,
    messages: &[Sent],
    at: u32,
    budget: Budget,
) -> Option<Alternatives> {
    let bytes = with_all(begun(alloc, (0, 0)), messages)
        .capture()
        .expect(rt, "memory");
    let calls = calls_in(alloc, &bytes).expect(rt, "calls");
    let tree = Tree::empty(alloc, Seed::default(), 0o755).expect(rt, "memory");
    let found = orders_to(alloc, &calls, tree, at, budget, 8, &mut Nobody).expect(rt, "memory");
    drop(calls);
    found
}

/// Whether there are as many trees as these orders, and each order is told.
fn are_orders(found: &Option<Alternatives>, orders: &[&[Entry]]) -> bool {
    match found {
        Some(found) => {
            found.trees == orders.len()
                && found.orders.len() == orders.len()
                && orders.iter().all(|order| found
                    .orders
                    .iter()
                    .any(|told| told.as_slice() == *order))
        }
        None => false,
    }
}

/// How many trees are told, 0 where none are.
fn count_trees(found: &Option<Alternatives>) -> usize {
    match found {
        Some(found) => found.trees,
        None => 0,
    }
}

#[test]
fn trees_that_differ_in_an_opening(rt: HostRuntime) {
    let budget = Budget::default();
    let found = orders_found(&rt, rt.alloc(), LISTED, 9, budget);
    assert!(rt; count_trees(&found) == 1);
    let found = orders_found(&rt, rt.alloc(), LISTED_LATER, 8, budget);
    assert!(rt; count_trees(&found) == 2);
}

#[test]
fn orders_that_are_proposed(rt: HostRuntime) {
    let finding = found(&rt, rt.alloc(), NO_BYTE, Budget::default());
    assert!(rt; is_order(&finding, &[entry(2), entry(4), entry(5), entry(8)]));
    let finding = found(&rt, rt.alloc(), UNANSWERED, Budget::default());
    assert!(rt; is_order(&finding, &[entry(2), entry(5), wrote(4, 1), entry(7)]));
}

#[test]
fn an_order_that_is_not_proposed(rt: HostRuntime) {
    for budget in [Budget::default(), Budget::endless()] {
        let finding = found(&rt, rt.alloc(), ONE_BYTE, budget);
        assert!(rt; is_order(&finding, &[entry(2), entry(5), entry(4), entry(8)]));
    }
}

#[test]
fn no_order(rt: HostRuntime) {
    let ample = Budget::default();
    for (messages, budget, at, code) in [
        (ANOTHER_BYTE, ample, 9, BYTES_READ),
        (ANOTHER_BYTE, Budget::endless(), 9, BYTES_READ),
        (UNDONE, ample, 8, BYTES_READ),
        (SERIAL_BYTES, ample, 5, BYTES_READ),
        (SERIAL_SIZE, ample, 7, ATTRIBUTES),
    ] {
        let finding = found(&rt, rt.alloc(), messages, budget);
        assert!(rt; is_none(&finding, at, code), "stop at {at}");
    }
}

#[test]
fn budgets_that_are_spent(rt: HostRuntime) {
    let ample = Budget::default();
    let spent = [
        Budget { steps: 0, ..ample },
        Budget { trees: 1, ..ample },
        Budget { bytes: 1, ..ample },
    ];
    for budget in spent {
        let finding = found(&rt, rt.alloc(), ONE_BYTE, budget);
        assert!(rt; is_given_up(&finding, 6));
        let finding = found(&rt, rt.alloc(), SERIAL_SIZE, budget);
        assert!(rt; is_none(&finding, 7, ATTRIBUTES));
    }
}

/// The CREATE, message 2.
const CREATE: Entry = Entry { at: 2, wrote: None };
/// The WRITE, message 4, as it was answered.
const WRITE: Entry = Entry { at: 4, wrote: None };
/// The same with its byte written, where it was never answered.
const WRITE_OF_ONE: Entry = Entry {
    at: 4,
    wrote: Some(1),
};
/// The message 5: the SETATTR, or the READ.
const FIFTH: Entry = Entry { at: 5, wrote: None };

/// The WRITE before the SETATTR, message 5, which takes its byte away, and behind it.
static EITHER: [&[Entry]; 2] = [&[CREATE, WRITE, FIFTH], &[CREATE, FIFTH, WRITE]];

/// The WRITE before the READ of its byte.
static WRITTEN_FIRST: [&[Entry]; 1] = [&[CREATE, WRITE_OF_ONE, FIFTH]];

#[test]
fn orders_that_come_to_a_message(rt: HostRuntime) {
    let budget = Budget::default();
    let found = orders_found(&rt, rt.alloc(), ANOTHER_BYTE, 9, budget);
    assert!(rt; are_orders(&found, &EITHER));
    let found = orders_found(&rt, rt.alloc(), UNDONE, 8, budget);
    assert!(rt; are_orders(&found, &WRITTEN_FIRST));
    // A request, behind the last message, an answer that an order explains.
    assert!(rt; orders_found(&rt, rt.alloc(), ANOTHER_BYTE, 8, budget).is_none());
    assert!(rt; orders_found(&rt, rt.alloc(), ANOTHER_BYTE, 10, budget).is_none());
    assert!(rt; orders_found(&rt, rt.alloc(), ONE_BYTE, 9, budget).is_none());
    let spent = Budget { steps: 0, ..budget };
    assert!(rt; orders_found(&rt, rt.alloc(), ANOTHER_BYTE, 9, spent).is_none());
}
