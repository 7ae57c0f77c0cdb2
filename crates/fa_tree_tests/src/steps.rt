//! Steps of a tree that no order of a capture shows: those of requests whose node is not known here yet, that which is made twice, and
//! those to which memory is refused.

ghost use Rattle.std.specs.Prelude.{◌<◌, None, length, IfSome};
ghost use Rattle.fa_ledger.specs.Choices.{Allows};
ghost use Rattle.fa_tree.specs.Steps.{OfCallAt};

use crate::trees::Added::{self, File};
use crate::trees::{empty_again, tree_of};
use fa_bodies::ROOT_ID as ROOT;
use fa_bodies::errno::EACCES;
use fa_capture::Direction;
use fa_capture::codes::{SUCCESS_NOT_ALLOWED, UNKNOWN_HERE};
use fa_ledger::Calls;
use fa_tests::messages::{INIT, INIT_ANSWER, begun, packet, spelled, thirty};
use fa_tests::paired::{Paired, UNTOLD, calls_in};
use fa_tests::sent::Sent::{self, *};
use fa_tests::sent::with_all;
use fa_tree::{FileId, Kind, Replay, StepError, Tree};
use std::alloc::Global;
use std::process::Abort;

/// What stands for a code where memory was refused.
pub const MEMORY: u16 = 998;

/// The place of the call of this number, if there is one, and an order may name it without a count of bytes.
fn place_of(calls: &Calls<'_>, at: u32) -> Option<usize>
    ensures there { IfSome result (λ place. place < length calls.now.list) }
    ensures allowed { IfSome result (λ place. OfCallAt calls.now.list place (λ call. Allows call None)) }
{
    let place = calls.find(at)?;
    let call = calls.list.get(place)?;
    if call.allows(None) { Some(place) } else { None }
}

/// The code that is told of a step, 0 where there is one.
fn code_of(told: Result<(), StepError>) -> u16 {
    match told {
        Ok(()) => 0,
        Err(StepError::Refused(code)) => code,
        Err(StepError::Memory) => MEMORY,
    }
}

/// The code of one step, by the number of its request.
pub fn step(tree: &mut Tree, calls: &Calls<'_>, at: u32) -> u16 {
    match place_of(calls, at) {
        Some(place) => code_of(tree.step(calls, place, None)),
        None => UNTOLD,
    }
}

/// The code of one step along a replay, by the number of its request.
pub fn step_in(tree: &mut Tree, replay: &mut Replay<'_>, at: u32) -> u16 {
    match place_of(replay.calls(), at) {
        Some(place) => code_of(tree.step_in(replay, place, None)),
        None => UNTOLD,
    }
}

/// A file, and a directory.
const A_FILE: &[Added] = &[File(0, b"a", Kind::Regular, b"")];

const A_DIRECTORY: &[Added] = &[File(0, b"a", Kind::Directory, b"")];

/// A tree, and messages behind INIT and its answer: one that gives a node or a directory handle, the message 2, its answer, and a
/// request that names what it gives, the message 4.
type Row = (&'static [Added], &'static [Sent]);

/// The node stands in the header or behind it, and the request is answered or not.
static BEFORE_IT_IS_GIVEN: [Row; 6] = [
    (
        A_FILE,
        &[Lookup(2, ROOT), Entry(2, 2), Getattr(4, 2, 0, 0), Attr(4)],
    ),
    (
        A_FILE,
        &[
            Lookup(2, ROOT),
            Entry(2, 2),
            Getattr(4, 2, 0, 0),
            Error(4, EACCES),
        ],
    ),
    (
        A_DIRECTORY,
        &[Lookup(2, ROOT), Directory(2, 2), Rename(4, ROOT, 2)],
    ),
    (
        A_DIRECTORY,
        &[Lookup(2, ROOT), Directory(2, 2), Rename2(4, ROOT, 0, 2)],
    ),
    (
        A_FILE,
        &[Lookup(2, ROOT), Entry(2, 2), Link(4, ROOT, 2), Entry(4, 2)],
    ),
    (
        A_FILE,
        &[
            Opendir(2, ROOT),
            Opened(2, 1, 0),
            Readdir(4, ROOT, 1, 0),
            Dirents(4, &[("a", 1)]),
        ],
    ),
];

/// The code of the step of the message 4, by itself.
fn code_alone(rt: &impl Abort, alloc: Global, row: &Row) -> u16 {
    let (files, messages) = row;
    let bytes = with_all(begun(alloc, (0, 0)), messages)
        .capture()
        .expect(rt, "memory");
    let calls = calls_in(alloc, &bytes).expect(rt, "calls");
    let mut tree = tree_of(rt, alloc, files);
    let code = step(&mut tree, &calls, 4);
    drop(tree);
    drop(calls);
    code
}

#[test]
fn what_a_request_names_has_to_be_known(rt: HostRuntime) {
    for (number, row) in BEFORE_IT_IS_GIVEN.iter().enumerate() {
        assert!(rt;
            code_alone(&rt, rt.alloc(), row) == UNKNOWN_HERE,
            "row {number}"
        );
    }
}

/// OPENDIR of the root, and its file handle.
static OPENDIR: &[(usize, u8)] = &[(0, 48), (4, 27), (8, 1), (16, 1)];

static HANDLE: &[(usize, u8)] = &[(0, 32), (8, 1)];
/// CREATE of a name of one byte, of the mode 0100644 with the umask 022, and its answer.
static CREATE: &[(usize, u8)] = &[
    (0, 58),
    (4, 35),
    (16, 1),
    (40, 0x42),
    (44, 0xA4),
    (45, 0x81),
    (48, 0o22),
];

static CREATED: &[(usize, u8)] = &[(0, 160), (116, 0xA4), (117, 0x81), (120, 1)];
/// The message of SYMLINK.
const SYMLINK_AT: u32 = 64;

/// SYMLINK of `s` with the target `t`, its answer, RENAME of `s` to `t`, and its answer.
static SYMLINK: &[(usize, u8)] = &[(0, 44), (4, 6), (8, 1), (16, 1), (40, b's'), (42, b't')];

static SYMLINKED: &[(usize, u8)] = &[(0, 144), (8, 1), (16, 50), (117, 0xA0), (120, 1)];

static RENAME: &[(usize, u8)] = &[
    (0, 52),
    (4, 12),
    (8, 1),
    (16, 1),
    (40, 1),
    (48, b's'),
    (50, b't'),
];

static RENAMED: &[(usize, u8)] = &[(0, 16), (8, 1)];

/// READDIRPLUS of 4,096 bytes, and its answer: the first of those names, of a node that was not given yet.
static READDIRPLUS: &[(usize, u8)] = &[(0, 80), (4, 44), (8, 1), (16, 1), (57, 16)];

static LISTING: &[(usize, u8)] = &[
    (0, 176),
    (8, 1),
    (16, 60),
    (116, 0xA4),
    (117, 0x81),
    (120, 1),
    (152, 1),
    (160, 1),
    (164, 8),
    (168, 10),
];

/// The files of the names of one byte in the root, by these.
fn named(tree: &Tree) -> [Option<FileId>; 128] {
    let mut named = [None; 128];
    for (byte, file) in (0u8..128).zip(named.iter_mut()) {
        *file = tree.find(tree.root(), &[byte]);
    }
    named
}

/// Whether a call steps, also where memory was refused at first, which leaves the names as they were.
fn steps_again(tree: &mut Tree, calls: &Calls<'_>, at: u32) -> bool {
    let before = named(tree);
    match step(tree, calls, at) {
        MEMORY => named(tree) == before && step(tree, calls, at) == 0,
        code => code == 0,
    }
}

/// Whether the SYMLINK, whose name was moved away, is refused when it is done again: it has made its file.
fn is_made_once(tree: &mut Tree, calls: &Calls<'_>) -> bool {
    step(tree, calls, SYMLINK_AT) == SUCCESS_NOT_ALLOWED
}

/// Whether all calls step from an empty tree, and leave `t` and the names of 30 files, and the file that was made is made once.
fn all_step(tree: &mut Tree, calls: &Calls<'_>) -> bool {
    let mut all_step = true;
    for at in 0..calls.messages {
        if calls.find(at).is_some() {
            all_step = all_step && steps_again(tree, calls, at);
        }
    }
    let names = named(tree).iter().filter(|file| file.is_some()).count();
    let is_there = tree.find(tree.root(), b"t").is_some();
    all_step && names == 31 && is_there && is_made_once(tree, calls)
}

/// The sessions, the ledger and the tree alone take memory here. An ordinary run has ample memory: `bench/refused` refuses each
/// allocation in turn, which shows what the tree does without it: the call is handed in again, and steps.
#[test]
fn a_step_without_memory_is_taken_again(rt: HostRuntime) {
    let (to, from) = (Direction::ToServer, Direction::FromServer);
    let (init, init_answer): ([u8; 56], [u8; 40]) = (spelled(INIT), spelled(INIT_ANSWER));
    let (opendir, handle): ([u8; 48], [u8; 32]) = (spelled(OPENDIR), spelled(HANDLE));
    let (creates, created): ([[u8; 58]; 30], [[u8; 160]; 30]) = (
        thirty(CREATE, 56),
        thirty(CREATED, 16),
    );
    let (symlink, symlinked): ([u8; 44], [u8; 144]) = (spelled(SYMLINK), spelled(SYMLINKED));
    let (rename, renamed): ([u8; 52], [u8; 16]) = (spelled(RENAME), spelled(RENAMED));
    let (readdirplus, listing): ([u8; 80], [u8; 176]) = (spelled(READDIRPLUS), spelled(LISTING));
    let mut packets = [packet(to, &init); 72];
    packets[1] = packet(from, &init_answer);
    packets[2] = packet(to, &opendir);
    packets[3] = packet(from, &handle);
    for place in 0..30 {
        packets[4 + place] = packet(to, &creates[place]);
        packets[34 + place] = packet(from, &created[place]);
    }
    packets[SYMLINK_AT as usize] = packet(to, &symlink);
    packets[65] = packet(from, &symlinked);
    packets[66] = packet(to, &rename);
    packets[67] = packet(from, &renamed);
    packets[68] = packet(to, &opendir);
    packets[69] = packet(from, &handle);
    packets[70] = packet(to, &readdirplus);
    packets[71] = packet(from, &listing);
    let mut codes = [0; 72];
    let mut paired = Paired::new(rt.alloc());
    paired.take_each(&packets, &mut codes);
    assert!(rt; codes == [0; 72]);
    let calls = paired.into_calls();
    let mut tree = empty_again(&rt, rt.alloc());
    let all_step = all_step(&mut tree, &calls);
    drop(tree);
    drop(calls);
    assert!(rt; all_step);
}
