//! What a READDIR or READDIRPLUS goes on from. The unique of each request is the number of its message.

use crate::messages::begun;
use crate::paired::{all_taken, handed_in, packets_of};
use crate::sent::Sent::{self, *};
use crate::sent::{listed, with_all};
use fa_bodies::ROOT_ID;
use fa_bodies::errno::EIO;
use fa_capture::codes::{NODE_ID_NOT_ALLOWED, REPLY_BODY};
use fa_ledger::CallList;
use fa_sample::{Listed, Sample};
use std::alloc::Global;

/// The number of a request that lists, and what it goes on from: the number of the earlier request and how many entries of
/// its answer count, whether the listing is adrift, and whether the handle is shared.
type Expected = (u32, Option<(u32, u32)>, bool, bool);

const WHOLE: bool = false;

const ADRIFT: bool = true;

const ALONE: bool = false;

const SHARED: bool = true;

/// The place of the one message that is refused, and its code. It is 0 where each is taken.
type Refused = (usize, u16);

const NONE: Refused = (0, 0);

/// Messages, and the listings of their calls.
type Row = (&'static [Sent], &'static [Expected]);

/// The root is opened with the file handle 1: the messages 2 and 3.
static OPENED: &[Sent] = &[Opendir(2, ROOT_ID), Opened(2, 1, 0)];

/// Which reply counts, and how many of its entries. These rows stand behind INIT, its answer and `OPENED`.
static REPLIES: [Row; 14] = [
    (
        &[
            Readdir(4, ROOT_ID, 1, 0),
            Dirents(4, &[("a", 1)]),
            Readdir(6, ROOT_ID, 1, 1),
            Dirents(6, &[]),
        ],
        &[(4, None, WHOLE, ALONE), (6, Some((4, 1)), WHOLE, ALONE)],
    ),
    (
        &[
            Readdir(4, ROOT_ID, 1, 0),
            Dirents(4, &[("a", 1)]),
            Unlink(6, ROOT_ID),
            Done(6),
            Readdir(8, ROOT_ID, 1, 1),
            Dirents(8, &[]),
        ],
        &[(4, None, WHOLE, ALONE), (8, Some((4, 1)), WHOLE, ALONE)],
    ),
    (
        &[
            Readdirplus(4, ROOT_ID, 1, 0),
            DirentsPlus(4, 2, &[("a", 1)]),
            Getattr(6, 2, 0, 0),
            Attr(6),
        ],
        &[(4, None, WHOLE, ALONE)],
    ),
    // Of two replies with one off the last counts, whichever was asked for first.
    (
        &[
            Readdir(4, ROOT_ID, 1, 0),
            Readdir(5, ROOT_ID, 1, 0),
            Dirents(5, &[("a", 1)]),
            Dirents(4, &[("b", 9), ("a", 1)]),
            Readdir(8, ROOT_ID, 1, 1),
            Readdir(9, ROOT_ID, 1, 9),
        ],
        &[
            (4, None, WHOLE, ALONE),
            (5, None, WHOLE, ALONE),
            (8, Some((4, 2)), WHOLE, ALONE),
            (9, Some((4, 1)), WHOLE, ALONE),
        ],
    ),
    (
        &[
            Readdir(4, ROOT_ID, 1, 0),
            Readdir(5, ROOT_ID, 1, 0),
            Dirents(4, &[("b", 9), ("a", 1)]),
            Dirents(5, &[("a", 1)]),
            Readdir(8, ROOT_ID, 1, 1),
            Readdir(9, ROOT_ID, 1, 9),
        ],
        &[
            (4, None, WHOLE, ALONE),
            (5, None, WHOLE, ALONE),
            (8, Some((5, 1)), WHOLE, ALONE),
            (9, Some((4, 1)), WHOLE, ALONE),
        ],
    ),
    // Of the entries of one reply with one off the first counts.
    (
        &[
            Readdir(4, ROOT_ID, 1, 0),
            Dirents(4, &[("a", 1), ("b", 1)]),
            Readdir(6, ROOT_ID, 1, 1),
        ],
        &[(4, None, WHOLE, ALONE), (6, Some((4, 1)), WHOLE, ALONE)],
    ),
    (
        &[
            Readdir(4, ROOT_ID, 1, 0),
            Dirents(4, &[("a", 7), ("b", 2), ("c", 7), ("d", 3), ("e", 2)]),
            Readdir(6, ROOT_ID, 1, 2),
            Readdir(7, ROOT_ID, 1, 3),
            Readdir(8, ROOT_ID, 1, 7),
        ],
        &[
            (4, None, WHOLE, ALONE),
            (6, Some((4, 2)), WHOLE, ALONE),
            (7, Some((4, 4)), WHOLE, ALONE),
            (8, Some((4, 1)), WHOLE, ALONE),
        ],
    ),
    // READDIR and READDIRPLUS go on from one another.
    (
        &[
            Readdir(4, ROOT_ID, 1, 0),
            Dirents(4, &[("a", 1), ("b", 2)]),
            Readdirplus(6, ROOT_ID, 1, 2),
            DirentsPlus(6, 2, &[("c", 3)]),
            Readdir(8, ROOT_ID, 1, 3),
        ],
        &[
            (4, None, WHOLE, ALONE),
            (6, Some((4, 2)), WHOLE, ALONE),
            (8, Some((6, 1)), WHOLE, ALONE),
        ],
    ),
    // `.` and `..` are entries too, and so are those that give no node.
    (
        &[
            Readdir(4, ROOT_ID, 1, 0),
            Dirents(4, &[(".", 1), ("..", 2), ("a", 3)]),
            Readdir(6, ROOT_ID, 1, 1),
            Readdir(7, ROOT_ID, 1, 2),
            Readdirplus(8, ROOT_ID, 1, 3),
            DirentsPlus(8, 0, &[(".", 4), ("..", 5), ("b", 6)]),
            Readdir(10, ROOT_ID, 1, 5),
            Readdir(11, ROOT_ID, 1, 6),
        ],
        &[
            (4, None, WHOLE, ALONE),
            (6, Some((4, 1)), WHOLE, ALONE),
            (7, Some((4, 2)), WHOLE, ALONE),
            (8, Some((4, 3)), WHOLE, ALONE),
            (10, Some((8, 2)), WHOLE, ALONE),
            (11, Some((8, 3)), WHOLE, ALONE),
        ],
    ),
    // The offset 0 begins anew, though an entry has it, which counts for those behind it.
    (
        &[
            Readdir(4, ROOT_ID, 1, 0),
            Dirents(4, &[("a", 0), ("b", 3)]),
            Readdir(6, ROOT_ID, 1, 0),
            Readdir(7, ROOT_ID, 1, 3),
        ],
        &[
            (4, None, WHOLE, ALONE),
            (6, None, WHOLE, ALONE),
            (7, Some((4, 2)), WHOLE, ALONE),
        ],
    ),
    // What is refused lists nothing, and neither does what is empty.
    (
        &[
            Readdir(4, ROOT_ID, 1, 0),
            Error(4, EIO),
            Readdir(6, ROOT_ID, 1, 1),
        ],
        &[(4, None, WHOLE, ALONE), (6, None, ADRIFT, ALONE)],
    ),
    (
        &[
            Readdir(4, ROOT_ID, 1, 0),
            Dirents(4, &[("a", 1)]),
            Readdir(6, ROOT_ID, 1, 0),
            Dirents(6, &[]),
            Readdir(8, ROOT_ID, 1, 0),
            Error(8, EIO),
            Readdir(10, ROOT_ID, 1, 1),
        ],
        &[
            (4, None, WHOLE, ALONE),
            (6, None, WHOLE, ALONE),
            (8, None, WHOLE, ALONE),
            (10, Some((4, 1)), WHOLE, ALONE),
        ],
    ),
    // Any number is an offset.
    (
        &[
            Readdir(4, ROOT_ID, 1, 0),
            Dirents(4, &[("a", u64::MAX), ("b", 1)]),
            Readdir(6, ROOT_ID, 1, u64::MAX),
            Readdir(7, ROOT_ID, 1, 1 << 32),
        ],
        &[
            (4, None, WHOLE, ALONE),
            (6, Some((4, 1)), WHOLE, ALONE),
            (7, None, ADRIFT, ALONE),
        ],
    ),
    // It goes on from itself where the offset stays.
    (
        &[
            Readdir(4, ROOT_ID, 1, 0),
            Dirents(4, &[("a", 1)]),
            Readdir(6, ROOT_ID, 1, 1),
            Dirents(6, &[("b", 2), ("c", 1)]),
            Readdir(8, ROOT_ID, 1, 1),
        ],
        &[
            (4, None, WHOLE, ALONE),
            (6, Some((4, 1)), WHOLE, ALONE),
            (8, Some((6, 2)), WHOLE, ALONE),
        ],
    ),
];

/// What is adrift. These rows stand behind INIT, its answer and `OPENED`.
static ADRIFT_ONES: [Row; 5] = [
    (
        &[
            Readdir(4, ROOT_ID, 1, 7),
            Dirents(4, &[("a", 1)]),
            Readdir(6, ROOT_ID, 1, 1),
        ],
        &[(4, None, ADRIFT, ALONE), (6, Some((4, 1)), ADRIFT, ALONE)],
    ),
    // It is passed on, until a reply that is not adrift has the offset.
    (
        &[
            Readdir(4, ROOT_ID, 1, 7),
            Dirents(4, &[("a", 1)]),
            Readdir(6, ROOT_ID, 1, 1),
            Dirents(6, &[("b", 2)]),
            Readdir(8, ROOT_ID, 1, 2),
            Readdir(9, ROOT_ID, 1, 0),
            Dirents(9, &[("a", 1)]),
            Readdir(11, ROOT_ID, 1, 1),
            Readdir(12, ROOT_ID, 1, 2),
        ],
        &[
            (4, None, ADRIFT, ALONE),
            (6, Some((4, 1)), ADRIFT, ALONE),
            (8, Some((6, 1)), ADRIFT, ALONE),
            (9, None, WHOLE, ALONE),
            (11, Some((9, 1)), WHOLE, ALONE),
            (12, Some((6, 1)), ADRIFT, ALONE),
        ],
    ),
    (
        &[
            Readdir(4, ROOT_ID, 1, 0),
            Dirents(4, &[("a", 1)]),
            Readdir(6, ROOT_ID, 1, 9),
            Dirents(6, &[("b", 1)]),
            Readdir(8, ROOT_ID, 1, 1),
        ],
        &[
            (4, None, WHOLE, ALONE),
            (6, None, ADRIFT, ALONE),
            (8, Some((6, 1)), ADRIFT, ALONE),
        ],
    ),
    // A reply that comes after the next request.
    (
        &[
            Readdir(4, ROOT_ID, 1, 0),
            Readdir(5, ROOT_ID, 1, 1),
            Dirents(4, &[("a", 1)]),
            Dirents(5, &[("b", 2)]),
            Readdir(8, ROOT_ID, 1, 2),
            Readdir(9, ROOT_ID, 1, 1),
        ],
        &[
            (4, None, WHOLE, ALONE),
            (5, None, ADRIFT, ALONE),
            (8, Some((5, 1)), ADRIFT, ALONE),
            (9, Some((4, 1)), WHOLE, ALONE),
        ],
    ),
    // Another file handle of the same directory.
    (
        &[
            Opendir(4, ROOT_ID),
            Opened(4, 2, 0),
            Readdir(6, ROOT_ID, 1, 0),
            Dirents(6, &[("a", 1)]),
            Readdir(8, ROOT_ID, 2, 1),
            Readdir(9, ROOT_ID, 1, 1),
        ],
        &[
            (6, None, WHOLE, ALONE),
            (8, None, ADRIFT, ALONE),
            (9, Some((6, 1)), WHOLE, ALONE),
        ],
    ),
];

/// File handles that are closed, and opened while they are open. These rows stand behind INIT, its answer and `OPENED`.
static OPENINGS: [Row; 8] = [
    // What was listed is forgotten when the handle is closed.
    (
        &[
            Readdir(4, ROOT_ID, 1, 0),
            Dirents(4, &[("a", 1)]),
            Releasedir(6, ROOT_ID, 1),
            Done(6),
            Opendir(8, ROOT_ID),
            Opened(8, 1, 0),
            Readdir(10, ROOT_ID, 1, 1),
            Readdir(11, ROOT_ID, 1, 0),
        ],
        &[
            (4, None, WHOLE, ALONE),
            (10, None, ADRIFT, ALONE),
            (11, None, WHOLE, ALONE),
        ],
    ),
    // A reply to a request on a handle that is closed does not count for the one that follows.
    (
        &[
            Readdir(4, ROOT_ID, 1, 0),
            Releasedir(5, ROOT_ID, 1),
            Done(5),
            Opendir(7, ROOT_ID),
            Opened(7, 1, 0),
            Dirents(4, &[("a", 1)]),
            Readdir(10, ROOT_ID, 1, 1),
        ],
        &[(4, None, WHOLE, ALONE), (10, None, ADRIFT, ALONE)],
    ),
    (
        &[
            Readdir(4, ROOT_ID, 1, 0),
            Releasedir(5, ROOT_ID, 1),
            Dirents(4, &[("a", 1)]),
            Done(5),
            Opendir(8, ROOT_ID),
            Opened(8, 1, 0),
            Readdir(10, ROOT_ID, 1, 1),
        ],
        &[(4, None, WHOLE, ALONE), (10, None, ADRIFT, ALONE)],
    ),
    // It counts while the handle is open still, by the other of two openings.
    (
        &[
            Opendir(4, ROOT_ID),
            Opened(4, 1, 0),
            Readdir(6, ROOT_ID, 1, 0),
            Releasedir(7, ROOT_ID, 1),
            Done(7),
            Dirents(6, &[("a", 1)]),
            Readdir(10, ROOT_ID, 1, 1),
        ],
        &[(6, None, WHOLE, SHARED), (10, Some((6, 1)), WHOLE, SHARED)],
    ),
    // Shared is what is asked for behind the second opening, also when that or the first is closed.
    (
        &[
            Readdir(4, ROOT_ID, 1, 0),
            Opendir(5, ROOT_ID),
            Readdir(6, ROOT_ID, 1, 0),
            Opened(5, 1, 0),
            Dirents(4, &[("a", 1)]),
            Readdir(9, ROOT_ID, 1, 1),
            Releasedir(10, ROOT_ID, 1),
            Readdir(11, ROOT_ID, 1, 1),
        ],
        &[
            (4, None, WHOLE, ALONE),
            (6, None, WHOLE, ALONE),
            (9, Some((4, 1)), WHOLE, SHARED),
            (11, Some((4, 1)), WHOLE, SHARED),
        ],
    ),
    // Until both are closed.
    (
        &[
            Opendir(4, ROOT_ID),
            Opened(4, 1, 0),
            Readdir(6, ROOT_ID, 1, 0),
            Releasedir(7, ROOT_ID, 1),
            Releasedir(8, ROOT_ID, 1),
            Opendir(9, ROOT_ID),
            Opened(9, 1, 0),
            Readdir(11, ROOT_ID, 1, 0),
        ],
        &[(6, None, WHOLE, SHARED), (11, None, WHOLE, ALONE)],
    ),
    // An OPENDIR that is refused opens nothing.
    (
        &[
            Opendir(4, ROOT_ID),
            Error(4, EIO),
            Readdir(6, ROOT_ID, 1, 5),
        ],
        &[(6, None, ADRIFT, ALONE)],
    ),
    // Shared and adrift at once.
    (
        &[
            Opendir(4, ROOT_ID),
            Opened(4, 1, 0),
            Readdir(6, ROOT_ID, 1, 5),
        ],
        &[(6, None, ADRIFT, SHARED)],
    ),
];

/// These rows stand behind INIT and its answer.
static FROM_START: [Row; 4] = [
    // Two openings of the file handle 0.
    (
        &[
            Opendir(2, ROOT_ID),
            Opened(2, 0, 0),
            Opendir(4, ROOT_ID),
            Opened(4, 0, 0),
            Readdir(6, ROOT_ID, 0, 0),
            Dirents(6, &[]),
        ],
        &[(6, None, WHOLE, SHARED)],
    ),
    (
        &[
            Opendir(2, ROOT_ID),
            Opened(2, 0, 0),
            Opendir(4, ROOT_ID),
            Opened(4, 0, 0),
            Readdir(6, ROOT_ID, 0, 0),
            Dirents(6, &[("z", 1)]),
        ],
        &[(6, None, WHOLE, SHARED)],
    ),
    // One number on two directories.
    (
        &[
            Lookup(2, ROOT_ID),
            Directory(2, 5),
            Opendir(4, ROOT_ID),
            Opened(4, 1, 0),
            Opendir(6, 5),
            Opened(6, 1, 0),
            Readdir(8, 5, 1, 0),
            Dirents(8, &[("a", 1)]),
            Readdir(10, ROOT_ID, 1, 1),
            Readdir(11, 5, 1, 1),
            Dirents(10, &[("b", 1)]),
            Readdir(13, 5, 1, 1),
            Readdir(14, ROOT_ID, 1, 1),
        ],
        &[
            (8, None, WHOLE, ALONE),
            (10, None, ADRIFT, ALONE),
            (11, Some((8, 1)), WHOLE, ALONE),
            (13, Some((8, 1)), WHOLE, ALONE),
            (14, Some((10, 1)), ADRIFT, ALONE),
        ],
    ),
    // A directory whose node id was forgotten and given again.
    (
        &[
            Lookup(2, ROOT_ID),
            Directory(2, 5),
            Opendir(4, 5),
            Opened(4, 1, 0),
            Readdir(6, 5, 1, 0),
            Forget(7, 5, 1),
            Lookup(8, ROOT_ID),
            Directory(8, 5),
            Opendir(10, 5),
            Opened(10, 1, 0),
            Dirents(6, &[("a", 1)]),
            Readdir(13, 5, 1, 1),
        ],
        &[(6, None, WHOLE, ALONE), (13, None, ADRIFT, ALONE)],
    ),
];

/// 24 bytes that are no whole entry: the name is to have 4,294,967,295.
const BROKEN: &[u8; 24] = b"\0\0\0\0\0\0\0\0\0\0\0\0\0\0\0\0\xff\xff\xff\xff\0\0\0\0";

/// Rows whose sixth message has this code, behind INIT, its answer and `OPENED`. What is refused lists nothing, and the next
/// message has its number.
static REFUSED: [(u16, Row); 3] = [
    (
        REPLY_BODY,
        (
            &[Readdir(4, ROOT_ID, 1, 0), Success(4, BROKEN)],
            &[(4, None, WHOLE, ALONE)],
        ),
    ),
    (
        REPLY_BODY,
        (
            &[
                Readdir(4, ROOT_ID, 1, 0),
                Success(4, BROKEN),
                Dirents(4, &[("a", 1)]),
                Readdir(6, ROOT_ID, 1, 1),
            ],
            &[(4, None, WHOLE, ALONE), (6, Some((4, 1)), WHOLE, ALONE)],
        ),
    ),
    (
        NODE_ID_NOT_ALLOWED,
        (
            &[
                Readdirplus(4, ROOT_ID, 1, 0),
                DirentsPlus(4, ROOT_ID, &[("a", 1)]),
                DirentsPlus(4, 2, &[("b", 3), ("a", 2)]),
                Readdir(6, ROOT_ID, 1, 1),
                Readdir(7, ROOT_ID, 1, 2),
            ],
            &[
                (4, None, WHOLE, ALONE),
                (6, None, ADRIFT, ALONE),
                (7, Some((4, 2)), WHOLE, ALONE),
            ],
        ),
    ),
];

/// Whether the calls that list are these, by their numbers, and go on from these.
fn are_listed(calls: &CallList<'_>, expected: &[Expected]) -> bool {
    let mut rest = expected;
    for place in 0..calls.len() {
        let Some(call) = calls.get(place) else {
            return false;
        };
        if let Some(listing) = &call.listing {
            let [first, others @ ..] = rest else {
                return false;
            };
            if (call.asked, listing.before, listing.adrift, listing.shared) != *first {
                return false;
            }
            rest = others;
        }
    }
    rest.is_empty()
}

/// Whether each message is taken but this one.
fn are_taken(codes: &mut [u16], refused: Refused) -> bool {
    let (place, refusal) = refused;
    let Some(code) = codes.get_mut(place) else {
        return false;
    };
    let is_refused = *code == refusal;
    *code = 0;
    is_refused && all_taken(codes)
}

/// Whether the messages of a capture are taken but this one, and their calls list so.
fn is_listed(
    alloc: Global,
    sample: Sample,
    refused: Refused,
    expected: &[Expected],
) -> Option<bool> {
    let bytes = sample.capture().ok()?;
    let packets = packets_of(alloc, &bytes)?;
    let (paired, mut codes) = handed_in(alloc, &packets)?;
    let is_taken = are_taken(&mut codes, refused);
    let calls = paired.into_calls();
    let are_listed = are_listed(&calls.list, expected);
    drop(calls);
    Some(is_taken && are_listed)
}

/// The number of the first row whose calls list otherwise, where there is one. The rows stand behind INIT, its answer and
/// the messages in front.
fn first_wrong(alloc: Global, front: &[Sent], refused: Refused, rows: &[Row]) -> Option<usize> {
    for (number, (messages, expected)) in rows.iter().enumerate() {
        let sample = with_all(begun(alloc, (0, 0)), front);
        let sample = with_all(sample, messages);
        if is_listed(alloc, sample, refused, expected) != Some(true) {
            return Some(number);
        }
    }
    None
}

#[test]
fn what_a_listing_goes_on_from(rt: HostRuntime) {
    let alloc = rt.alloc();
    assert_eq!(rt; first_wrong(alloc, OPENED, NONE, &REPLIES), None);
    assert_eq!(rt; first_wrong(alloc, OPENED, NONE, &ADRIFT_ONES), None);
    assert_eq!(rt; first_wrong(alloc, OPENED, NONE, &OPENINGS), None);
    assert_eq!(rt; first_wrong(alloc, &[], NONE, &FROM_START), None);
    for (code, row) in &REFUSED {
        assert_eq!(rt;
            first_wrong(alloc, OPENED, (5, *code), &[*row]),
            None,
            "code {code}"
        );
    }
}

/// How many requests list a directory of 3,000 entries: 100 are answered by 30 each, and the last by none.
const PARTS: u32 = 101;

/// The 30 entries whose offs follow this number.
fn thirty(mut off: u64) -> [Listed<'static>; 30] {
    let mut entries = [listed("a", 0); 30];
    for entry in &mut entries {
        off = off.saturating_add(1);
        entry.off = off;
    }
    entries
}

/// The directory, listed twice: each request has the number 4 or two more than the one before it.
fn listed_twice(alloc: Global) -> Sample {
    let mut sample = with_all(begun(alloc, (0, 0)), OPENED);
    for number in 0..2 * u64::from(PARTS) {
        let unique = 4 + 2 * number;
        let offset = 30 * (number % u64::from(PARTS));
        sample = sample.readdir(unique, ROOT_ID, 1, offset, 4096);
        sample = if offset < 3000 {
            sample.listing(unique, &thirty(offset))
        } else {
            sample.listing(unique, &[])
        };
    }
    sample
}

/// Each request goes on from the one before it, of the same pass, though the other pass has its offset too.
#[test]
fn a_directory_of_many_entries(rt: HostRuntime) {
    let mut expected = [(0, None, WHOLE, ALONE); 2 * PARTS as usize];
    for (number, expected) in (0..2 * PARTS).zip(expected.iter_mut()) {
        let asked = number.saturating_mul(2).saturating_add(4);
        let before = if number % PARTS == 0 {
            None
        } else {
            Some((asked.saturating_sub(2), 30))
        };
        *expected = (asked, before, WHOLE, ALONE);
    }
    let sample = listed_twice(rt.alloc());
    assert!(rt; is_listed(rt.alloc(), sample, NONE, &expected) == Some(true));
}
