//! A check to which memory is refused.

use fa_capture::{Direction, Seed};
use fa_check::{Verdict, check};
use fa_ledger::Calls;
use fa_order::Entry;
use fa_tests::messages::{INIT, INIT_ANSWER, packet, spelled};
use fa_tests::paired::Paired;
use fa_tree::Tree;
use std::alloc::Global;

/// CREATE of `f`, of the mode 0100644 with the umask 022, and its answer: the node 2 and the file handle 0.
static CREATE: &[(usize, u8)] = &[
    (0, 58),
    (4, 35),
    (8, 2),
    (16, 1),
    (40, 0x42),
    (44, 0xA4),
    (45, 0x81),
    (48, 0o22),
    (56, b'f'),
];

static CREATED: &[(usize, u8)] = &[
    (0, 160),
    (8, 2),
    (16, 2),
    (116, 0xA4),
    (117, 0x81),
    (120, 1),
];
/// WRITE of `x` at the start, without an answer.
static WRITE: &[(usize, u8)] = &[(0, 81), (4, 16), (8, 4), (16, 2), (56, 1), (80, b'x')];
/// READ of 4,096 bytes from the start, and its answer.
static READ: &[(usize, u8)] = &[(0, 80), (4, 15), (8, 5), (16, 2), (57, 16)];

static DATA: &[(usize, u8)] = &[(0, 17), (8, 5), (16, b'x')];

/// The order of these three.
static ORDER: &[Entry] = &[
    Entry { at: 2, wrote: None },
    Entry {
        at: 4,
        wrote: Some(1),
    },
    Entry { at: 5, wrote: None },
];

/// A tree of its root alone, asked for again where memory was refused.
fn empty_again(alloc: Global) -> Option<Tree> {
    match Tree::empty(alloc, Seed::default(), 0o755) {
        Ok(tree) => Some(tree),
        Err(_) => Tree::empty(alloc, Seed::default(), 0o755).ok(),
    }
}

/// The verdict on an order from that tree, asked for again where memory was refused.
fn verdict_again(alloc: Global, calls: &Calls<'_>, order: &[Entry]) -> Option<Verdict> {
    match check(alloc, calls, empty_again(alloc)?, order) {
        Ok(verdict) => Some(verdict),
        Err(_) => check(alloc, calls, empty_again(alloc)?, order).ok(),
    }
}

/// The sessions, the ledger, the tree and the check alone take memory here. An ordinary run has ample memory: `bench/refused`
/// refuses each allocation in turn, which shows what the check does without it: it tells no verdict then, and the right one where
/// it is asked again.
#[test]
fn a_check_without_memory_is_made_again(rt: HostRuntime) {
    let (to, from) = (Direction::ToServer, Direction::FromServer);
    let (init, init_answer): ([u8; 56], [u8; 40]) = (spelled(INIT), spelled(INIT_ANSWER));
    let (create, created): ([u8; 58], [u8; 160]) = (spelled(CREATE), spelled(CREATED));
    let write: [u8; 81] = spelled(WRITE);
    let (read, data): ([u8; 80], [u8; 17]) = (spelled(READ), spelled(DATA));
    let packets = [
        packet(to, &init),
        packet(from, &init_answer),
        packet(to, &create),
        packet(from, &created),
        packet(to, &write),
        packet(to, &read),
        packet(from, &data),
    ];
    let mut codes = [0; 7];
    let mut paired = Paired::new(rt.alloc());
    paired.take_each(&packets, &mut codes);
    assert!(rt; codes == [0; 7]);
    let calls = paired.into_calls();
    let verdict = verdict_again(rt.alloc(), &calls, ORDER);
    drop(calls);
    let legal = Verdict::Legal {
        messages: 7,
        placed: 3,
        left: 0,
    };
    assert!(rt; verdict == Some(legal));
}
