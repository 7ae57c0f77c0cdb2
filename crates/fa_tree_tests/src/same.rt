//! Trees that the same requests made in two orders, with openings of directories that are of use or not, and copies.

use crate::steps::step;
use crate::trees::Added::{self, File};
use crate::trees::tree_of;
use fa_bodies::ROOT_ID as ROOT;
use fa_ledger::Calls;
use fa_sample::Sample;
use fa_tests::messages::begun;
use fa_tests::paired::calls_in;
use fa_tests::sent::Sent::{self, *};
use fa_tests::sent::{CREAT, with_all};
use fa_tree::{InUse, Kind, Tree};
use std::alloc::{AllocError, Global};
use std::collections::BTreeMap;
use std::process::Abort;

/// A directory.
const A_DIRECTORY: &[Added] = &[File(0, b"a", Kind::Directory, b"")];

/// Behind INIT and its answer: the directory is looked up (the message 2), a directory is made in it (4), the root is opened (6), and
/// the directory is opened (8).
const MESSAGES: &[Sent] = &[
    Lookup(2, ROOT),
    Directory(2, 2),
    Mkdir(4, 2),
    Directory(4, 3),
    Opendir(6, ROOT),
    Opened(6, 1, 0),
    Opendir(8, 2),
    Opened(8, 2, 0),
];

/// An order of the requests.
const FIRST: &[u32] = &[2, 4, 6, 8];

/// Others, and whether each leaves the same tree, and one that is alike where the opening of the directory is of no use. The root may be
/// opened before the directory is made, in which it is not; where the directory above it is opened before, what was made did not stay in it
/// since. A root that is never opened is another, since that opening is of use.
static OTHERS: [(&[u32], bool, bool); 5] = [
    (&[2, 4, 6, 8], true, true),
    (&[2, 6, 4, 8], true, true),
    (&[2, 6, 8, 4], false, true),
    (&[2, 4, 6], false, true),
    (&[2, 4, 8], false, false),
];

/// The openings, each with the message of the last answer to what lists on it.
const LAST_USES: [(u32, u32); 2] = [(6, 20), (8, 10)];

/// The tree after these requests.
fn tree_after(rt: &impl Abort, alloc: Global, calls: &Calls<'_>, order: &[u32]) -> Tree {
    let mut tree = tree_of(rt, alloc, A_DIRECTORY);
    for at in order {
        assert!(rt; step(&mut tree, calls, *at) == 0);
    }
    tree
}

/// The table of the openings.
fn last_uses(alloc: Global) -> Result<BTreeMap<u32, u32>, AllocError> {
    let mut last = BTreeMap::new(alloc);
    for (opened, at) in LAST_USES.iter() {
        last.insert(*opened, *at)?;
    }
    Ok(last)
}

/// Whether trees are alike where these openings are of use, and whether their digests are the same then.
fn are_alike(tree: &Tree, others: &Tree, in_use: &InUse<'_>) -> (bool, bool) {
    (
        tree.is_alike(others, in_use) && others.is_alike(tree, in_use),
        tree.digest(in_use) == others.digest(in_use),
    )
}

/// Whether two orders leave the same tree, and trees that are alike, with whether the digests are the same: where both openings are of use,
/// from the message 10 on, where that of the root alone is, and where none is.
fn are_same(
    rt: &impl Abort,
    alloc: Global,
    calls: &Calls<'_>,
    one: &[u32],
    other: &[u32],
) -> (bool, [(bool, bool); 3]) {
    let last = last_uses(alloc).expect(rt, "memory");
    let tree = tree_after(rt, alloc, calls, one);
    let others = tree_after(rt, alloc, calls, other);
    let alike = [10, 11, 21].map(|from| are_alike(&tree, &others, &InUse { last: &last, from }));
    let same = tree.is_same(&others);
    drop(tree);
    drop(others);
    (same, alike)
}

/// Whether a copy is the same tree and weighs as much, and whether it is the same after a step of the copy alone.
fn is_copied(rt: &impl Abort, alloc: Global, calls: &Calls<'_>) -> (bool, bool) {
    let tree = tree_after(rt, alloc, calls, &[2, 6]);
    let mut copy = tree.copy().expect(rt, "memory");
    let before = tree.is_same(&copy) && tree.weight() == copy.weight();
    assert!(rt; step(&mut copy, calls, 4) == 0);
    let behind = tree.is_same(&copy);
    drop(tree);
    drop(copy);
    (before, behind)
}

#[test]
fn orders_that_leave_the_same_tree(rt: HostRuntime) {
    let bytes = with_all(begun(rt.alloc(), (0, 0)), MESSAGES)
        .capture()
        .expect(&rt, "memory");
    let calls = calls_in(rt.alloc(), &bytes).expect(&rt, "calls");
    for (number, (other, same, alike)) in OTHERS.iter().enumerate() {
        let told = are_same(&rt, rt.alloc(), &calls, FIRST, other);
        assert!(rt; told.0 == *same, "row {number}");
        let [both, root, none] = told.1;
        assert!(rt; both.0 == *same, "row {number}");
        assert!(rt; root.0 == *alike, "row {number}");
        assert!(rt; none.0, "row {number}");
        assert!(rt;
            (both.1 || !both.0) && (root.1 || !root.0) && none.1,
            "row {number}"
        );
    }
    let copied = is_copied(&rt, rt.alloc(), &calls);
    drop(calls);
    assert!(rt; copied == (true, false));
}

// ---- bytes that lie otherwise in memory

/// So far behind the beginning of a file the list of its pages still goes on.
const AHEAD: u64 = 64 << 12;

/// So far behind the first byte a second one is, and behind the beginning too far.
const APART: u64 = 63 << 12;

/// The directory is looked up (the message 2), a file is made in it (4), and two bytes are written behind its beginning (6 and 8).
fn two_bytes(alloc: Global) -> Sample {
    with_all(
        begun(alloc, (0, 0)),
        &[
            Lookup(2, ROOT),
            Directory(2, 2),
            Create(4, 2, CREAT),
            Created(4, 3, 1),
        ],
    )
    .write(6, 3, 1, AHEAD, b"x")
    .written(6, 1)
    .write(8, 3, 1, AHEAD + APART, b"y")
    .written(8, 1)
}

/// Where the second byte is written first, its page is in no list, and it stays where it is.
#[test]
fn bytes_that_lie_otherwise(rt: HostRuntime) {
    let bytes = two_bytes(rt.alloc()).capture().expect(&rt, "memory");
    let calls = calls_in(rt.alloc(), &bytes).expect(&rt, "calls");
    let there = are_same(&rt, rt.alloc(), &calls, &[2, 4, 6, 8], &[2, 4, 8, 6]);
    let back = are_same(&rt, rt.alloc(), &calls, &[2, 4, 8, 6], &[2, 4, 6, 8]);
    drop(calls);
    assert!(rt; there == (true, [(true, true); 3]));
    assert!(rt; back == (true, [(true, true); 3]));
}
