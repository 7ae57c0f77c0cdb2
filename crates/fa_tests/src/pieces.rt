//! Captures that come in pieces.

ghost use Rattle.std.specs.Prelude.{◌<◌};

use crate::captures::{ENDINGS, Ending, FIRST, ending};
use fa_capture::{CaptureFault, Device, Feed, FeedError, Pull, codes};
use std::alloc::Global;
use std::process::Abort;

/// Hands in a piece, and again where memory was refused.
fn fed_again(feed: &mut Feed, piece: &[u8]) -> Result<(), FeedError> {
    match feed.feed(piece) {
        Err(FeedError::Memory) => feed.feed(piece),
        told => told,
    }
}

/// At which piece a fault is first told, counted from 1, or 0, and how the capture ends that was stored. None where memory was refused
/// again, or a later piece was answered otherwise.
fn fed(alloc: Global, bytes: &[u8], size: usize) -> Option<(usize, Ending)>
    requires { 0 < size }
{
    let mut feed = Feed::new(alloc);
    let mut told = 0;
    let mut is_told_again = true;
    for (number, piece) in bytes.chunks(size).enumerate() {
        match fed_again(&mut feed, piece) {
            Ok(()) => is_told_again = is_told_again && told == 0,
            Err(FeedError::Fault(_)) if told == 0 => told = number + 1,
            Err(FeedError::Fault(_)) => {}
            Err(FeedError::Memory) => is_told_again = false,
        }
    }
    let stored = feed.finish();
    let end = ending(&stored.capture());
    drop(stored);
    if is_told_again {
        Some((told, end?))
    } else {
        None
    }
}

/// The byte that decides the fault of each of `ENDINGS`, counted from 1; 0 where none does.
static DECIDED: [usize; 23] = [
    0, 0, 8, 1, 1, 0, 0, 9, 9, 0, 0, 13, 13, 0, 15, 0, 0, 9, 0, 0, 0, 21, 23,
];

#[test]
fn the_byte_that_decides(rt: HostRuntime) {
    for ((bytes, expected), decided) in ENDINGS.iter().zip(&DECIDED) {
        assert_eq!(rt;
            fed(rt.alloc(), bytes, 1),
            Some((*decided, *expected)),
            "{bytes:?}"
        );
    }
}

/// An ordinary run has ample memory: `bench/refused` refuses each allocation in turn.
#[test]
fn pieces_of_each_size(rt: HostRuntime) {
    for size in 1..=222 {
        assert_eq!(rt;
            fed(rt.alloc(), &FIRST, size),
            Some((0, (4, 0))),
            "pieces of {size}"
        );
    }
}

/// How the capture ends that was pulled from an input of these bytes, to its end or until a fault was told. None where memory was refused
/// again.
fn pulled(alloc: Global, bytes: &[u8]) -> Option<Ending> {
    let mut input = Device::new(bytes);
    let mut feed = Feed::new(alloc);
    let mut is_told = false;
    for _ in 0..bytes.len().saturating_add(2) {
        match feed.pull_from(&mut input) {
            Ok(Pull::Got(0)) | Err(FeedError::Fault(_)) => {
                is_told = true;
                break;
            }
            Ok(_) | Err(FeedError::Memory) => {}
        }
    }
    let stored = feed.finish();
    let end = ending(&stored.capture());
    drop(stored);
    if is_told { end } else { None }
}

#[test]
fn pieces_that_are_pulled(rt: HostRuntime) {
    for (bytes, expected) in &ENDINGS {
        assert_eq!(rt; pulled(rt.alloc(), bytes), Some(*expected), "{bytes:?}");
    }
    assert_eq!(rt; pulled(rt.alloc(), &FIRST), Some((4, 0)));
}

#[test]
fn a_fault_is_told_again(rt: HostRuntime) {
    let fault = CaptureFault {
        whole: 1,
        code: codes::DIRECTION,
    };
    let mut feed = Feed::new(rt.alloc());
    let is_taken = feed.feed(&FIRST[..69]).is_ok();
    let tells = feed.feed(b"\x02") == Err(FeedError::Fault(fault))
        && feed.feed(&FIRST[69..]) == Err(FeedError::Fault(fault))
        && feed.feed(b"") == Err(FeedError::Fault(fault));
    let stored = feed.finish();
    let is_kept = stored.capture().messages == 1 && stored.capture().fault == Some(fault);
    drop(stored);
    assert!(rt; is_taken && tells && is_kept);
}

/// How many bytes a large piece has.
const LARGE: usize = 1 << 20;

/// A mark for `bench/held` is a request for so many bytes of memory, which nothing else asks for.
const MARK: usize = 1_000_003;

/// Marks this moment: whether memory was there.
pub(crate) fn mark(alloc: Global) -> bool {
    let bytes: Result<Vec<u8>, _> = Vec::with_capacity(alloc, MARK);
    bytes.is_ok()
}

/// A message of 1 MiB behind its header, between two marks for `bench/held`, which counts the bytes that are held at each. It is fed
/// again behind them where memory was refused.
#[test]
fn a_piece_between_two_marks(rt: HostRuntime) {
    let alloc = rt.alloc();
    let large = vec![in alloc; 7u8; LARGE].expect(&rt, "memory");
    let mut feed = Feed::new(alloc);
    let is_begun = feed.feed(b"FUSECAP1\x00\x00\x00\x10\x00").is_ok() && mark(alloc);
    let told = feed.feed(&large);
    let is_ended = mark(alloc);
    let is_fed = told.is_ok() || told == Err(FeedError::Memory) && feed.feed(&large).is_ok();
    let stored = feed.finish();
    let end = ending(&stored.capture());
    drop(stored);
    assert!(rt; is_begun && is_ended && is_fed && end == Some((1, 0)));
}
