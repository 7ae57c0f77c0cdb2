//! Calls of a tree to which memory is refused, between two marks for `bench/held`, which counts the bytes that are held at each.

use crate::steps::{MEMORY, step};
use crate::trees::empty_tree;
use fa_bodies::{MAX_FILE_BYTES, ROOT_ID as ROOT};
use fa_ledger::Calls;
use fa_sample::Sample;
use fa_tests::messages::begun;
use fa_tests::paired::calls_in;
use fa_tests::sent::Sent::{self, Create, Created, Directory, Mkdir, Opendir, Opened};
use fa_tests::sent::{CREAT, with_all};
use fa_tree::{FileId, Kind, StepError, Tree};
use std::alloc::Global;
use std::process::Abort;

/// How many bytes the WRITE has, the most that FUSE sends at a time.
const WRITTEN: u32 = 1 << 20;

/// Where a WRITE begins that the list of a file's pages goes on to.
const NEAR: u64 = 10 << 12;

/// Where a byte stands that it does not go on to.
const FAR: u64 = 100 << 12;

/// A mark is a request for so many bytes of memory, which nothing else asks for.
const MARK: usize = 1_000_003;

/// Marks this moment: whether memory was there.
fn mark(alloc: Global) -> bool {
    let bytes: Result<Vec<u8>, _> = Vec::with_capacity(alloc, MARK);
    bytes.is_ok()
}

/// CREATE, the message 2, and WRITE of these bytes, so many, at an offset, the message 4, each with its answer.
fn created_and_written(alloc: Global, offset: u64, payload: &[u8], count: u32) -> Sample {
    let created = with_all(
        begun(alloc, (0, 0)),
        &[Create(2, ROOT, CREAT), Created(2, 2, 1)],
    );
    created.write(4, 2, 1, offset, payload).written(4, count)
}

/// Whether a call steps between two marks, and again behind them where memory was refused.
fn steps_again(alloc: Global, tree: &mut Tree, calls: &Calls<'_>, at: u32) -> bool {
    let is_begun = mark(alloc);
    let told = step(tree, calls, at);
    let is_ended = mark(alloc);
    let is_stepped = told == 0 || told == MEMORY && step(tree, calls, at) == 0;
    is_begun && is_ended && is_stepped
}

/// Whether the CREATE steps, and between two marks the WRITE.
fn writes_again(alloc: Global, tree: &mut Tree, calls: &Calls<'_>) -> bool {
    step(tree, calls, 2) == 0 && steps_again(alloc, tree, calls, 4)
}

/// Whether a file without bytes is added between two marks, and again behind them where memory was refused.
fn adds_again(alloc: Global, tree: &mut Tree) -> bool {
    let is_begun = mark(alloc);
    let added = tree.add(FileId::Root, b"a", Kind::Regular, 0o644, b"");
    let is_ended = mark(alloc);
    let is_added = match added {
        Err(StepError::Memory) => tree
            .add(FileId::Root, b"a", Kind::Regular, 0o644, b"")
            .is_ok(),
        added => added.is_ok(),
    };
    is_begun && is_ended && is_added
}

/// Whether the CREATE and the WRITE step, and between two marks a copy is made of the tree behind them. It is made again where memory was
/// refused.
fn copies_again(alloc: Global, tree: &mut Tree, calls: &Calls<'_>) -> bool {
    let is_written = step(tree, calls, 2) == 0 && step(tree, calls, 4) == 0;
    let is_begun = mark(alloc);
    let copy = tree.copy();
    let is_ended = mark(alloc);
    let is_copied = match copy {
        Ok(copy) => copy.is_same(tree),
        Err(_) => tree.copy().is_ok(),
    };
    is_written && is_begun && is_ended && is_copied
}

/// The capture of a CREATE and of a WRITE at an offset.
fn captured_at(rt: &impl Abort, alloc: Global, offset: u64) -> Vec<u8> {
    let payload = vec![in alloc; 1u8; WRITTEN as usize].expect(rt, "memory");
    created_and_written(alloc, offset, &payload, WRITTEN)
        .capture()
        .expect(rt, "memory")
}

/// Whether a WRITE at an offset steps, between two marks.
fn is_written_at(rt: &impl Abort, alloc: Global, offset: u64) -> bool {
    let bytes = captured_at(rt, alloc, offset);
    let calls = calls_in(alloc, &bytes).expect(rt, "good calls, and memory");
    let mut tree = empty_tree(rt, alloc);
    let is_written = writes_again(alloc, &mut tree, &calls);
    drop(tree);
    drop(calls);
    is_written
}

/// The capture of a CREATE, of a WRITE of a byte far behind the beginning of the file, and of a WRITE that begins in front of that byte and
/// ends behind it, the message 6.
fn captured_around_a_byte(rt: &impl Abort, alloc: Global) -> Vec<u8> {
    let payload = vec![in alloc; 1u8; WRITTEN as usize].expect(rt, "memory");
    created_and_written(alloc, FAR, b"x", 1)
        .write(6, 2, 1, NEAR, &payload)
        .written(6, WRITTEN)
        .capture()
        .expect(rt, "memory")
}

/// Whether a WRITE steps, between two marks, that goes over a byte far behind the beginning of the file.
fn is_written_over_a_byte(rt: &impl Abort, alloc: Global) -> bool {
    let bytes = captured_around_a_byte(rt, alloc);
    let calls = calls_in(alloc, &bytes).expect(rt, "good calls, and memory");
    let mut tree = empty_tree(rt, alloc);
    let is_there = step(&mut tree, &calls, 2) == 0 && step(&mut tree, &calls, 4) == 0;
    let is_written = steps_again(alloc, &mut tree, &calls, 6);
    drop(tree);
    drop(calls);
    is_there && is_written
}

/// Whether a tree with what a WRITE wrote is copied, between two marks.
fn is_copied(rt: &impl Abort, alloc: Global) -> bool {
    let bytes = captured_at(rt, alloc, 0);
    let calls = calls_in(alloc, &bytes).expect(rt, "good calls, and memory");
    let mut tree = empty_tree(rt, alloc);
    let is_copied = copies_again(alloc, &mut tree, &calls);
    drop(tree);
    drop(calls);
    is_copied
}

/// Whether the first of these messages, the message 2, steps on an empty tree between two marks.
fn is_stepped(rt: &impl Abort, alloc: Global, messages: &[Sent]) -> bool {
    let bytes = with_all(begun(alloc, (0, 0)), messages)
        .capture()
        .expect(rt, "memory");
    let calls = calls_in(alloc, &bytes).expect(rt, "good calls, and memory");
    let mut tree = empty_tree(rt, alloc);
    let is_stepped = steps_again(alloc, &mut tree, &calls, 2);
    drop(tree);
    drop(calls);
    is_stepped
}

/// A file, a parent, counts of both, a name, its place, and a node.
#[test]
fn a_directory_between_two_marks(rt: HostRuntime) {
    assert!(rt; is_stepped(&rt, rt.alloc(), &[Mkdir(2, ROOT), Directory(2, 2)]));
}

#[test]
fn an_opening_between_two_marks(rt: HostRuntime) {
    assert!(rt; is_stepped(&rt, rt.alloc(), &[Opendir(2, ROOT), Opened(2, 7, 0)]));
}

#[test]
fn an_addition_between_two_marks(rt: HostRuntime) {
    let alloc = rt.alloc();
    let mut tree = empty_tree(&rt, alloc);
    let is_added = adds_again(alloc, &mut tree);
    drop(tree);
    assert!(rt; is_added);
}

#[test]
fn a_write_between_two_marks(rt: HostRuntime) {
    assert!(rt; is_written_at(&rt, rt.alloc(), 0));
}

/// The same of the last bytes that a file may have.
#[test]
fn a_far_write_between_two_marks(rt: HostRuntime) {
    let offset = MAX_FILE_BYTES - u64::from(WRITTEN);
    assert!(rt; is_written_at(&rt, rt.alloc(), offset));
}

/// The same over a page that the list of pages does not reach: it goes on to that page, and those behind it are in the table.
#[test]
fn a_write_over_a_far_byte_between_two_marks(rt: HostRuntime) {
    assert!(rt; is_written_over_a_byte(&rt, rt.alloc()));
}

#[test]
fn a_copy_between_two_marks(rt: HostRuntime) {
    assert!(rt; is_copied(&rt, rt.alloc()));
}
