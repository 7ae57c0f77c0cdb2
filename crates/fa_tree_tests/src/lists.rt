//! Listings: of a directory of many names, and of the directory that a handle is open on.

use crate::steps::{step, step_in};
use crate::trees::Added::{self, File};
use crate::trees::{empty_tree, tree_of};
use fa_bodies::ROOT_ID as ROOT;
use fa_capture::Seed;
use fa_capture::codes::{ATTRIBUTES, LISTING};
use fa_ledger::Calls;
use fa_sample::{Listed, Sample};
use fa_tests::messages::begun;
use fa_tests::paired::{UNTOLD, calls_in};
use fa_tests::sent::Sent::{self, *};
use fa_tests::sent::{Entries, with_all};
use fa_tree::{Kind, Replay, Tree};
use std::alloc::Global;
use std::process::Abort;

/// How many names a large directory has, and how many of them an answer gives.
const NAMES: u32 = 3_000;

const PIECE: u32 = 30;

/// The name of this number.
fn name_of(number: u32) -> [u8; 2] {
    let (high, low) = (number / 60 % 60, number % 60);
    [b'0'.wrapping_add(high as u8), b'0'.wrapping_add(low as u8)]
}

/// A tree of a file of each name.
fn large(rt: &impl Abort, alloc: Global) -> Tree {
    let mut tree = empty_tree(rt, alloc);
    let root = tree.root();
    for number in 0..NAMES {
        let added = tree.add(root, &name_of(number), Kind::Regular, 0o644, b"");
        assert!(rt; added.is_ok());
    }
    tree
}

/// The names behind so many, as many as an answer gives.
fn names_behind(number: u32) -> [[u8; 2]; 30] {
    let mut names = [[0; 2]; 30];
    for (place, name) in (0..PIECE).zip(names.iter_mut()) {
        *name = name_of(number.saturating_add(place));
    }
    names
}

/// Their entries.
fn entries_of(names: &[[u8; 2]; 30], number: u32) -> [Listed<'_>; 30] {
    let [first, ..] = names;
    let mut entries = [Listed {
        name: first,
        off: 0,
        file_type: 8,
    }; 30];
    let mut off = u64::from(number);
    for (name, entry) in names.iter().zip(entries.iter_mut()) {
        off = off.saturating_add(1);
        entry.name = name;
        entry.off = off;
    }
    entries
}

/// The root is opened as the file handle 1.
static OPENED: &[Sent] = &[Opendir(2, ROOT), Opened(2, 1, 0)];

/// Another directory is made, the names behind so many are listed, and it is removed.
fn with_piece(sample: Sample, number: u32) -> Sample {
    let unique = u64::from(number).saturating_add(4);
    let front = [
        Mkdir(unique, ROOT),
        Directory(unique, unique),
        Readdir(unique, ROOT, 1, u64::from(number)),
    ];
    let names = names_behind(number);
    let listed = with_all(sample, &front).listing(unique, &entries_of(&names, number));
    with_all(listed, &[Rmdir(unique, ROOT), Done(unique)])
}

/// The root is listed up to this name, in pieces, and then to its end.
fn listed_to(alloc: Global, end: u32) -> Sample {
    let mut sample = with_all(begun(alloc, (0, 0)), OPENED);
    for piece in 0..end / PIECE {
        sample = with_piece(sample, piece.saturating_mul(PIECE));
    }
    let last = [Readdir(2, ROOT, 1, u64::from(end)), Dirents(2, &[])];
    with_all(sample, &last)
}

/// The code that a call is told, 0 where it steps, if it is told the same along the replay and by itself.
fn told_both(along: &mut Tree, alone: &mut Tree, replay: &mut Replay<'_>, at: u32) -> u16 {
    let code = step(alone, replay.calls(), at);
    if step_in(along, replay, at) == code {
        code
    } else {
        UNTOLD
    }
}

/// How many calls step, how many do not, and the greatest code that one of these is told, 0 where there is none. `UNTOLD` is greater than
/// all others.
type Steps = (u32, u32, u16);

/// What comes of all calls in their order.
fn steps_told(alloc: Global, along: &mut Tree, alone: &mut Tree, calls: &Calls<'_>) -> Steps {
    let mut replay = Replay::new(alloc, Seed::default(), calls);
    let (mut steps, mut others, mut greatest) = (0u32, 0u32, 0);
    for place in 0..calls.list.len() {
        let asked = calls.list.call(place).asked;
        let code = told_both(along, alone, &mut replay, asked);
        if code == 0 {
            steps = steps.saturating_add(1);
        } else {
            others = others.saturating_add(1);
        }
        if code > greatest {
            greatest = code;
        }
    }
    drop(replay);
    (steps, others, greatest)
}

/// The same of the calls of a sample.
fn steps_of(
    rt: &impl Abort,
    alloc: Global,
    along: &mut Tree,
    alone: &mut Tree,
    sample: Sample,
) -> Steps {
    let bytes = sample.capture().expect(rt, "memory");
    let calls = calls_in(alloc, &bytes).expect(rt, "calls");
    let told = steps_told(alloc, along, alone, &calls);
    drop(calls);
    told
}

/// A directory of many names, listed in pieces while another name comes and goes: to its end, and up to its last names.
#[test]
fn a_large_directory(rt: HostRuntime) {
    let alloc = rt.alloc();
    for (end, expected) in [(NAMES, (302, 0, 0)), (NAMES - PIECE, (298, 1, LISTING))] {
        let mut along = large(&rt, alloc);
        let mut alone = large(&rt, alloc);
        let told = steps_of(&rt, alloc, &mut along, &mut alone, listed_to(alloc, end));
        drop(along);
        drop(alone);
        assert!(rt; told == expected, "up to {end}");
    }
}

/// A directory `a`, and files `b` in the root and in `a`: one is regular, and the other a directory.
static REGULAR_IN_ROOT: &[Added] = &[
    File(0, b"a", Kind::Directory, b""),
    File(0, b"b", Kind::Regular, b""),
    File(1, b"b", Kind::Directory, b""),
];

static REGULAR_BELOW: &[Added] = &[
    File(0, b"a", Kind::Directory, b""),
    File(0, b"b", Kind::Directory, b""),
    File(1, b"b", Kind::Regular, b""),
];

/// LOOKUP of `a`, which is the node 5, the message 2; and OPENDIR of the root as the file handle 1, the message 4.
static ROOT_OPENED: &[Sent] = &[
    Lookup(2, ROOT),
    Directory(2, 5),
    Opendir(4, ROOT),
    Opened(4, 1, 0),
];

/// The same of `a`; and READDIRPLUS of it, the message 6, whose answer gives `b` a node, as a regular file.
static BELOW_LISTED: &[Sent] = &[
    Lookup(2, ROOT),
    Directory(2, 5),
    Opendir(4, 5),
    Opened(4, 1, 0),
    Readdirplus(6, 5, 1, 0),
    DirentsPlus(6, 7, &[("b", 1)]),
];

/// The code that the last of these calls is told, each by the number of its request, where a tree takes them in turn.
fn told_last(
    rt: &impl Abort,
    alloc: Global,
    tree: &mut Tree,
    messages: &[Sent],
    numbers: &[u32],
) -> u16 {
    let bytes = with_all(begun(alloc, (0, 0)), messages)
        .capture()
        .expect(rt, "memory");
    let calls = calls_in(alloc, &bytes).expect(rt, "calls");
    let mut told = UNTOLD;
    for at in numbers {
        told = step(tree, &calls, *at);
    }
    drop(calls);
    told
}

/// The names and types of a listing are those of the directory that its handle is open on, also where the request names another: the
/// calls of another capture opened the root by the same message.
#[test]
fn the_directory_that_is_open(rt: HostRuntime) {
    let alloc = rt.alloc();
    for (files, code) in [(REGULAR_IN_ROOT, 0), (REGULAR_BELOW, ATTRIBUTES)] {
        let mut tree = tree_of(&rt, alloc, files);
        let opened = told_last(&rt, alloc, &mut tree, ROOT_OPENED, &[4]);
        let listed = told_last(&rt, alloc, &mut tree, BELOW_LISTED, &[2, 6]);
        drop(tree);
        assert!(rt; (opened, listed) == (0, code));
    }
}

/// Files `a` to `e` in the root.
static FIVE: &[Added] = &[
    File(0, b"a", Kind::Regular, b""),
    File(0, b"b", Kind::Regular, b""),
    File(0, b"c", Kind::Regular, b""),
    File(0, b"d", Kind::Regular, b""),
    File(0, b"e", Kind::Regular, b""),
];

/// The root is opened as the file handle 1, and listed up to `d`.
static LISTED_BACK_AND_FORTH: &[Sent] = &[
    Opendir(2, ROOT),
    Opened(2, 1, 0),
    Readdir(4, ROOT, 1, 0),
    Dirents(4, &[("a", 1), ("b", 2)]),
    Readdir(6, ROOT, 1, 2),
    Dirents(6, &[("c", 3)]),
    Readdir(8, ROOT, 1, 3),
    Dirents(8, &[("d", 4)]),
    // Back, and on from an answer of which one entry counts; the end is too early, and comes again behind `e`.
    Readdir(10, ROOT, 1, 2),
    Dirents(10, &[("c", 3), ("d", 4), ("x", 7)]),
    Readdir(12, ROOT, 1, 3),
    Dirents(12, &[("d", 4)]),
    Readdir(14, ROOT, 1, 4),
    Dirents(14, &[]),
    Readdir(16, ROOT, 1, 4),
    Dirents(16, &[("e", 5)]),
    Readdir(18, ROOT, 1, 5),
    Dirents(18, &[]),
    // Behind `a`: `b`, and then `a` once more, which is refused, also where it comes twice at once.
    Readdir(20, ROOT, 1, 1),
    Dirents(20, &[("b", 2)]),
    Readdir(22, ROOT, 1, 2),
    Dirents(22, &[("a", 1)]),
    Readdir(24, ROOT, 1, 0),
    Dirents(24, &[("a", 1), ("a", 2)]),
    // On from an answer of which two entries of three count; then `a` and `b` once more, which is refused, and the end in their place.
    Readdir(26, ROOT, 1, 0),
    Dirents(26, &[("a", 1)]),
    Readdir(28, ROOT, 1, 1),
    Dirents(28, &[("b", 2), ("c", 3), ("d", 4)]),
    Readdir(30, ROOT, 1, 3),
    Dirents(30, &[("d", 4), ("e", 5)]),
    Readdir(32, ROOT, 1, 5),
    Dirents(32, &[("a", 8), ("b", 9)]),
    Readdir(34, ROOT, 1, 5),
    Dirents(34, &[]),
];

/// The five files of the root as entries, in pieces, each with the offset that it is asked for at.
static PIECES: &[(u64, Entries)] = &[
    (0, &[("a", 1)]),
    (1, &[("b", 2)]),
    (2, &[("c", 3), ("d", 4), ("e", 5)]),
    (5, &[]),
];

/// The root is opened as so many handles.
fn opened_as(alloc: Global, handles: u64) -> Sample {
    let mut sample = begun(alloc, (0, 0));
    for handle in 1..=handles {
        sample = with_all(sample, &[Opendir(2, ROOT), Opened(2, handle, 0)]);
    }
    sample
}

/// The root is listed on each of these handles, from this offset.
fn listed_on_each(mut sample: Sample, handles: u64, offset: u64, entries: Entries) -> Sample {
    for handle in 1..=handles {
        let listed = [Readdir(2, ROOT, handle, offset), Dirents(2, entries)];
        sample = with_all(sample, &listed);
    }
    sample
}

/// The root is listed on all of these handles in turn, by these pieces.
fn listed_in_turn(alloc: Global, handles: u64, pieces: &[(u64, Entries)]) -> Sample {
    let mut sample = opened_as(alloc, handles);
    for (offset, entries) in pieces {
        sample = listed_on_each(sample, handles, *offset, entries);
    }
    sample
}

/// What comes of the calls of a sample on two trees of the five files.
fn steps_on_five(rt: &impl Abort, alloc: Global, sample: Sample) -> Steps {
    let mut along = tree_of(rt, alloc, FIVE);
    let mut alone = tree_of(rt, alloc, FIVE);
    let told = steps_of(rt, alloc, &mut along, &mut alone, sample);
    drop(along);
    drop(alone);
    told
}

/// What is kept of a listing shows nowhere, where it goes on, where it goes back, and where it ends; nor where there are more handles
/// than it is kept for.
#[test]
fn a_listing_along_one_replay(rt: HostRuntime) {
    let alloc = rt.alloc();
    let back_and_forth = with_all(begun(alloc, (0, 0)), LISTED_BACK_AND_FORTH);
    assert!(rt; steps_on_five(&rt, alloc, back_and_forth) == (12, 5, LISTING));
    let in_turn = listed_in_turn(alloc, 20, PIECES);
    assert!(rt; steps_on_five(&rt, alloc, in_turn) == (100, 0, 0));
}
