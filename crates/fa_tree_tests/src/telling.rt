//! What a tree tells of itself: its files, their names and bytes, directories that are open, and what it allows a call.

ghost use Rattle.std.specs.Prelude.{◌<◌, length, IfSome};

use crate::steps::step;
use crate::trees::Added::{self, File, Name};
use crate::trees::{empty_tree, tree_of};
use fa_bodies::errno::{EACCES, EEXIST, ENOENT};
use fa_bodies::{MAX_FILE_BYTES, ROOT_ID as ROOT};
use fa_capture::Seed;
use fa_capture::codes::{
    ATTRIBUTES, ERROR_WITHOUT_CAUSE, LISTING, SUCCESS_NOT_ALLOWED, UNKNOWN_HERE,
};
use fa_ledger::{Calls, NodeName};
use fa_sample::Sample;
use fa_tests::messages::begun;
use fa_tests::paired::{UNTOLD, calls_in};
use fa_tests::sent::Sent::{self, *};
use fa_tests::sent::{CREAT, with_all};
use fa_tree::{FileFacts, FileId, Kind, Replay, StepError, Tree};
use std::alloc::Global;
use std::process::Abort;

// ---- files

/// A file with four names in three directories, and others.
const FILES: &[Added] = &[
    File(0, b"d", Kind::Directory, b""),
    File(1, b"f", Kind::Regular, b"hello"),
    File(0, b"s", Kind::Symlink, b"d/f"),
    File(1, b"e", Kind::Directory, b""),
    Name(0, b"g", 2),
    Name(4, b"a", 2),
    Name(0, b"b", 2),
    File(0, b"p", Kind::Fifo, b""),
];

/// A file by its number, the root as 0.
fn file(number: u32) -> FileId {
    if number == 0 {
        FileId::Root
    } else {
        FileId::Added(number)
    }
}

/// A file by its number; its type, its permission bits, how many bytes and how many names it has; how many names are in it; and the
/// number of the least directory that has a name for it, with the least name there.
type Told = (
    u32,
    (Kind, u32, u64, usize),
    usize,
    Option<(u32, &'static [u8])>,
);

static FILES_TOLD: [Told; 6] = [
    (0, (Kind::Directory, 0o755, 0, 0), 5, None),
    (1, (Kind::Directory, 0o755, 0, 1), 2, Some((0, b"d"))),
    (2, (Kind::Regular, 0o644, 5, 4), 0, Some((0, b"b"))),
    (3, (Kind::Symlink, 0o777, 3, 1), 0, Some((0, b"s"))),
    (4, (Kind::Directory, 0o755, 0, 1), 1, Some((1, b"e"))),
    (5, (Kind::Fifo, 0o644, 0, 1), 0, Some((0, b"p"))),
];

/// Whether a file is told so.
fn is_told(tree: &Tree, told: &Told) -> bool {
    let (number, (kind, bits, size, names), inside, place) = *told;
    let id = file(number);
    let facts = FileFacts {
        kind,
        bits,
        size,
        names,
    };
    let named = match place {
        Some((directory, name)) => Some((file(directory), name)),
        None => None,
    };
    tree.facts(id) == Some(facts)
        && tree.count_names_in(id) == inside
        && tree.name_of(id) == named
        && tree.is_linked(id)
}

/// The number of a file, an offset, and the byte there.
static BYTES: [(u32, u64, Option<u8>); 8] = [
    (2, 0, Some(b'h')),
    (2, 4, Some(b'o')),
    (2, 5, None),
    (2, u64::MAX, None),
    (3, 2, Some(b'f')),
    (3, 3, None),
    (0, 0, None),
    (6, 0, None),
];

/// Whether each row is told of the tree of these files, and of no other file anything.
fn are_told(tree: &Tree) -> bool {
    let other = FileId::Made(2);
    FILES_TOLD.iter().all(|told| is_told(tree, told))
        && BYTES.iter().all(|(number, offset, byte)| tree.byte(file(*number), *offset) == *byte)
        && tree.facts(other) == None
        && tree.name_of(other) == None
        && !tree.is_linked(other)
}

#[test]
fn files_with_their_names_and_bytes(rt: HostRuntime) {
    let tree = tree_of(&rt, rt.alloc(), FILES);
    let are_told = are_told(&tree);
    drop(tree);
    assert!(rt; are_told);
}

// ---- steps

/// The calls of a capture.
fn calls_of<'a>(rt: &impl Abort, alloc: Global, bytes: &'a [u8]) -> Calls<'a> {
    calls_in(alloc, bytes).expect(rt, "calls, and memory")
}

/// The bytes of a capture behind INIT and its answer.
fn capture_of(rt: &impl Abort, alloc: Global, messages: &[Sent]) -> Vec<u8> {
    let sample = with_all(begun(alloc, (0, 0)), messages);
    sample.capture().expect(rt, "memory")
}

/// Where the last byte of a file may be.
const LAST: u64 = MAX_FILE_BYTES - 1;

/// A file is made, message 2, and its last byte is written, message 4.
fn last_written(alloc: Global) -> Sample {
    let created = with_all(
        begun(alloc, (0, 0)),
        &[Create(2, ROOT, CREAT), Created(2, 2, 1)],
    );
    created.write(4, 2, 1, LAST, b"x").written(4, 1)
}

/// The bytes of a file of which the last one alone was written: before it are zeros, near the beginning and far from it.
static AROUND_A_HOLE: [(u64, Option<u8>); 6] = [
    (0, Some(0)),
    (4096, Some(0)),
    (1 << 39, Some(0)),
    (LAST - 1, Some(0)),
    (LAST, Some(b'x')),
    (MAX_FILE_BYTES, None),
];

#[test]
fn bytes_of_a_hole(rt: HostRuntime) {
    let bytes = last_written(rt.alloc()).capture().expect(&rt, "memory");
    let calls = calls_of(&rt, rt.alloc(), &bytes);
    let mut tree = empty_tree(&rt, rt.alloc());
    let stepped = (step(&mut tree, &calls, 2), step(&mut tree, &calls, 4));
    let are_told = AROUND_A_HOLE.iter().all(|(offset, byte)| tree.byte(FileId::Made(2), *offset)
        == *byte);
    drop(tree);
    drop(calls);
    assert!(rt; stepped == (0, 0));
    assert!(rt; are_told);
}

// ---- a directory that is open

/// Files `a`, `b` and `c` in the root.
const THREE: &[Added] = &[
    File(0, b"a", Kind::Regular, b""),
    File(0, b"b", Kind::Regular, b""),
    File(0, b"c", Kind::Regular, b""),
];

/// The root is opened, the message 2; `a` is taken away (4), and comes again (6).
const OPENED: &[Sent] = &[
    Opendir(2, ROOT),
    Opened(2, 1, 0),
    Unlink(4, ROOT),
    Done(4),
    Create(6, ROOT, CREAT),
    Created(6, 2, 2),
];

/// A name, whether it was there since the root was opened, and the number of the file that stayed.
static SINCE: [(&[u8], bool, Option<u32>); 4] = [
    (b"a", true, None),
    (b"b", true, Some(2)),
    (b"c", true, Some(3)),
    (b"d", false, None),
];

/// Whether a name was there, and a file stayed under it, as a row says.
fn is_since(tree: &Tree, name: &[u8], had: bool, stayed: Option<u32>) -> bool {
    let expected = match stayed {
        Some(number) => Some(file(number)),
        None => None,
    };
    match tree.open_directory(2) {
        Some(names) => {
            names.directory() == FileId::Root
                && names.had(name) == had
                && names.stayed(name) == expected
        }
        None => false,
    }
}

/// The names that stayed.
const B: &[u8] = b"b";

const C: &[u8] = b"c";

/// Whether of the names that stayed `c` is found behind `b`, and none behind both.
fn are_found(tree: &Tree) -> bool {
    match tree.open_directory(2) {
        Some(names) => {
            names.find_stayed(|name| name != B) == Some(C)
                && names.find_stayed(|name| name != B && name != C) == None
        }
        None => false,
    }
}

/// Whether the first file is told without its name, of which nothing else is left.
fn is_unlinked(tree: &Tree) -> bool {
    let names = tree.facts(file(1)).map(|facts| facts.names);
    names == Some(0) && !tree.is_linked(file(1)) && tree.name_of(file(1)) == None
}

#[test]
fn a_directory_that_is_open(rt: HostRuntime) {
    let bytes = capture_of(&rt, rt.alloc(), OPENED);
    let calls = calls_of(&rt, rt.alloc(), &bytes);
    let mut tree = tree_of(&rt, rt.alloc(), THREE);
    for at in [2, 4, 6] {
        assert!(rt; step(&mut tree, &calls, at) == 0);
    }
    let told = SINCE
        .iter()
        .all(|(name, had, stayed)| is_since(&tree, name, *had, *stayed));
    let found = are_found(&tree);
    let unlinked = is_unlinked(&tree);
    let closed = tree.open_directory(4).is_none();
    drop(tree);
    drop(calls);
    assert!(rt; (told, found, unlinked, closed) == (true, true, true, true));
}

// ---- what a call may come to

/// A directory `a` with a file in it.
const FULL: &[Added] = &[
    File(0, b"a", Kind::Directory, b""),
    File(1, b"f", Kind::Regular, b""),
];

/// The errors that a tree determines, as a reply has them: ENOENT, EEXIST, ENOTDIR, EISDIR and ENOTEMPTY.
const ERRORS: [i32; 5] = [-2, -17, -20, -21, -39];

/// A request, the message 4, behind a LOOKUP of `a`, which is the node 2; whether its success is allowed, and which of the errors have
/// their cause.
type Allowed = (Sent, bool, [bool; 5]);

static ALLOWED: [Allowed; 11] = [
    (Lookup(4, ROOT), true, [false; 5]),
    (Lookup(4, 2), true, [true, false, false, false, false]),
    (Getattr(4, 2, 0, 0), true, [false; 5]),
    (Readlink(4, 2), false, [false; 5]),
    (Mkdir(4, ROOT), false, [false, true, false, false, false]),
    (Mkdir(4, 2), true, [false; 5]),
    (Unlink(4, ROOT), false, [false, false, false, true, false]),
    (Rmdir(4, ROOT), false, [false, true, false, false, true]),
    (Rmdir(4, 2), false, [true, false, false, false, false]),
    (Rename(4, ROOT, 2), false, [false; 5]),
    (Opendir(4, 2), true, [false; 5]),
];

/// The place of the call of this number, if there is one.
fn place_of(calls: &Calls<'_>, at: u32) -> Option<usize>
    ensures { IfSome result (λ place. place < length calls.now.list) }
{
    let place = calls.find(at)?;
    if place < calls.list.len() {
        Some(place)
    } else {
        None
    }
}

/// What the tree tells of the message 4: whether a success is allowed, and which errors have their cause.
fn allowed(tree: &Tree, calls: &Calls<'_>) -> Option<(bool, [bool; 5])> {
    let place = place_of(calls, 4)?;
    let mut causes = [false; 5];
    for (error, cause) in ERRORS.iter().zip(causes.iter_mut()) {
        *cause = tree.gives_cause(calls, place, *error)?;
    }
    let other = tree.gives_cause(calls, place, EACCES)?;
    let success = tree.allows_success(calls, place)?;
    if other { Some((success, causes)) } else { None }
}

/// What is told of a request that is answered by EACCES, before its node is known and behind that; and whether the node stands for its
/// file then.
fn told_of(
    rt: &impl Abort,
    alloc: Global,
    request: Sent,
) -> (Option<(bool, [bool; 5])>, Option<(bool, [bool; 5])>) {
    let messages = [Lookup(2, ROOT), Directory(2, 2), request, Error(4, EACCES)];
    let bytes = capture_of(rt, alloc, &messages);
    let calls = calls_of(rt, alloc, &bytes);
    let mut tree = tree_of(rt, alloc, FULL);
    let before = allowed(&tree, &calls);
    assert!(rt; step(&mut tree, &calls, 2) == 0);
    let told = allowed(&tree, &calls);
    drop(tree);
    drop(calls);
    (before, told)
}

#[test]
fn what_is_allowed(rt: HostRuntime) {
    for (number, (request, success, causes)) in ALLOWED.iter().enumerate() {
        let (before, told) = told_of(&rt, rt.alloc(), *request);
        assert!(rt; told == Some((*success, *causes)), "row {number}");
        assert!(rt; before.is_none() || before == told, "row {number}");
    }
}

/// The root is opened, the message 2, and listed, the message 4.
const LISTED: &[Sent] = &[
    Opendir(2, ROOT),
    Opened(2, 1, 0),
    Readdir(4, ROOT, 1, 0),
    Error(4, EACCES),
];

#[test]
fn what_is_allowed_of_a_listing(rt: HostRuntime) {
    let bytes = capture_of(&rt, rt.alloc(), LISTED);
    let calls = calls_of(&rt, rt.alloc(), &bytes);
    let mut tree = tree_of(&rt, rt.alloc(), FULL);
    let before = allowed(&tree, &calls);
    let code = step(&mut tree, &calls, 2);
    let told = allowed(&tree, &calls);
    drop(tree);
    drop(calls);
    assert!(rt; (before, code) == (None, 0));
    assert!(rt; told == Some((true, [false; 5])));
}

/// The files of the nodes that the requests name, before the LOOKUP and behind it.
fn files_named(tree: &mut Tree, calls: &Calls<'_>) -> Option<[Option<FileId>; 3]> {
    let name = calls.list.call(place_of(calls, 4)?).node;
    let root = tree.file_of(&NodeName::Root);
    let before = tree.file_of(&name);
    step(tree, calls, 2);
    Some([root, before, tree.file_of(&name)])
}

#[test]
fn the_file_of_a_node(rt: HostRuntime) {
    let messages = [
        Lookup(2, ROOT),
        Directory(2, 2),
        Getattr(4, 2, 0, 0),
        Error(4, EACCES),
    ];
    let bytes = capture_of(&rt, rt.alloc(), &messages);
    let calls = calls_of(&rt, rt.alloc(), &bytes);
    let mut tree = tree_of(&rt, rt.alloc(), FULL);
    let named = files_named(&mut tree, &calls);
    drop(tree);
    drop(calls);
    assert!(rt; named == Some([Some(FileId::Root), None, Some(file(1))]));
}

/// A request and its answer, the messages 4 and 5, behind a LOOKUP of `a`, which is the node 2; and the code that a step would tell.
static WOULD: [(Sent, Sent, u16); 6] = [
    (Mkdir(4, ROOT), Error(4, EEXIST), 0),
    (Mkdir(4, ROOT), Directory(4, 3), SUCCESS_NOT_ALLOWED),
    (Mkdir(4, ROOT), Error(4, ENOENT), ERROR_WITHOUT_CAUSE),
    (Mkdir(4, 2), Directory(4, 3), 0),
    (Getattr(4, 2, 0, 0), Attr(4), ATTRIBUTES),
    (Rmdir(4, ROOT), Done(4), SUCCESS_NOT_ALLOWED),
];

/// The code that a step of the message 4 would tell, if the tree stays as it is.
fn would(tree: &Tree, alloc: Global, calls: &Calls<'_>) -> u16 {
    let Some(place) = place_of(calls, 4) else {
        return UNTOLD;
    };
    let mut replay = Replay::new(alloc, Seed::default(), calls);
    let told = tree.would(&mut replay, place);
    drop(replay);
    match told {
        Ok(()) => 0,
        Err(StepError::Refused(code)) => code,
        Err(StepError::Memory) => UNTOLD,
    }
}

/// The codes that the message 4 would tell before the message 2 and behind it.
fn codes_of(rt: &impl Abort, alloc: Global, files: &[Added], messages: &[Sent]) -> (u16, u16) {
    let bytes = capture_of(rt, alloc, messages);
    let calls = calls_of(rt, alloc, &bytes);
    let mut tree = tree_of(rt, alloc, files);
    let before = would(&tree, alloc, &calls);
    assert!(rt; step(&mut tree, &calls, 2) == 0);
    let behind = would(&tree, alloc, &calls);
    drop(tree);
    drop(calls);
    (before, behind)
}

#[test]
fn what_a_step_would_answer(rt: HostRuntime) {
    for (number, (request, answer, code)) in WOULD.iter().enumerate() {
        let messages = [Lookup(2, ROOT), Directory(2, 2), *request, *answer];
        let (_, told) = codes_of(&rt, rt.alloc(), FULL, &messages);
        assert!(rt; told == *code, "row {number}");
    }
    let listed = [
        Opendir(2, ROOT),
        Opened(2, 1, 0),
        Readdir(4, ROOT, 1, 0),
        Dirents(4, &[]),
    ];
    let told = codes_of(&rt, rt.alloc(), THREE, &listed);
    assert!(rt; told == (UNKNOWN_HERE, LISTING));
}
