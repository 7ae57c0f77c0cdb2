//! Captures as bytes, and the codes.

use fa_capture::limits::MAX_MESSAGES;
use fa_capture::{Capture, MigrateError, Walk, codes, migrate, read_capture};
use std::alloc::Global;

/// INIT, its answer, LOOKUP of `a` on the root, and ENOENT.
pub static FIRST: [u8; 222] = *b"FUSECAP1\
\x00\x38\x00\x00\x00\
\x38\x00\x00\x00\x1a\x00\x00\x00\x02\x00\x00\x00\x00\x00\x00\x00\x00\x00\x00\x00\x00\x00\x00\x00\
\x00\x00\x00\x00\x00\x00\x00\x00\x00\x00\x00\x00\x00\x00\x00\x00\
\x07\x00\x00\x00\x1f\x00\x00\x00\x00\x00\x00\x00\x00\x00\x00\x00\
\x01\x50\x00\x00\x00\
\x50\x00\x00\x00\x00\x00\x00\x00\x02\x00\x00\x00\x00\x00\x00\x00\
\x07\x00\x00\x00\x1f\x00\x00\x00\
\x00\x00\x00\x00\x00\x00\x00\x00\x00\x00\x00\x00\x00\x00\x00\x00\x00\x00\x00\x00\x00\x00\x00\x00\
\x00\x00\x00\x00\x00\x00\x00\x00\x00\x00\x00\x00\x00\x00\x00\x00\x00\x00\x00\x00\x00\x00\x00\x00\
\x00\x00\x00\x00\x00\x00\x00\x00\
\x00\x2a\x00\x00\x00\
\x2a\x00\x00\x00\x01\x00\x00\x00\x04\x00\x00\x00\x00\x00\x00\x00\x01\x00\x00\x00\x00\x00\x00\x00\
\x00\x00\x00\x00\x00\x00\x00\x00\x00\x00\x00\x00\x00\x00\x00\x00\
\x61\x00\
\x01\x10\x00\x00\x00\
\x10\x00\x00\x00\xfe\xff\xff\xff\x04\x00\x00\x00\x00\x00\x00\x00";

/// How many packets a capture has, and the code of its fault behind them, 0 for none.
pub type Ending = (u32, u16);

/// How a capture ends. None where it counts its packets otherwise than they come, or has its fault elsewhere.
pub fn ending(capture: &Capture<'_>) -> Option<Ending> {
    let count = capture.packets().count() as u32;
    match capture.fault {
        _ if capture.messages != count => None,
        None => Some((count, 0)),
        Some(fault) if fault.whole == count => Some((count, fault.code)),
        Some(_) => None,
    }
}

/// How the capture of these bytes ends by a walk over its records, which judges each as it comes to it.
fn walked(bytes: &[u8]) -> Ending {
    let Some(mut walk) = Walk::new(bytes) else {
        return (0, codes::NO_MAGIC);
    };
    for count in 0..=MAX_MESSAGES as u32 {
        match walk.next() {
            Ok(Some(_)) => {}
            Ok(None) => return (count, 0),
            Err(code) => return (count, code),
        }
    }
    (MAX_MESSAGES as u32, 0)
}

pub static ENDINGS: [(&[u8], Ending); 23] = [
    (b"", (0, 1)),
    (b"FUSECAP", (0, 1)),
    (b"FUSECAP3", (0, 1)),
    (b"fUSECAP1\x00\x00\x00\x00\x00", (0, 1)),
    (b"\nFUSECAP1", (0, 1)),
    (b"FUSECAP1", (0, 0)),
    // Two messages of no bytes.
    (b"FUSECAP1\x00\x00\x00\x00\x00\x01\x00\x00\x00\x00", (2, 0)),
    // The direction is looked at before the length, and a length above the limit before the bytes that are missing.
    (b"FUSECAP1\x02", (0, 3)),
    (b"FUSECAP1\xff\x01\x00\x20\x00", (0, 3)),
    (b"FUSECAP1\x01\x10\x00\x00", (0, 2)),
    (b"FUSECAP1\x00\x00\x00\x20\x00", (0, 2)),
    (b"FUSECAP1\x00\x01\x00\x20\x00", (0, 4)),
    (b"FUSECAP1\x00\xff\xff\xff\xff", (0, 4)),
    (b"FUSECAP1\x00\x02\x00\x00\x00a", (0, 2)),
    (b"FUSECAP1\x00\x01\x00\x00\x00a\x02", (1, 3)),
    // The same with times, which may fall: seven of their bytes are too few, and so are three of a length.
    (b"FUSECAP2", (0, 0)),
    (
        b"FUSECAP2\x00\x09\x00\x00\x00\x00\x00\x00\x00\x00\x00\x00\x00\
\x01\x08\x00\x00\x00\x00\x00\x00\x00\x01\x00\x00\x00a",
        (2, 0),
    ),
    (b"FUSECAP2\x02", (0, 3)),
    (b"FUSECAP2\x01\x10\x00\x00\x00\x00\x00\x00", (0, 2)),
    (
        b"FUSECAP2\x00\x00\x00\x00\x00\x00\x00\x00\x00\x00\x00\x20",
        (0, 2),
    ),
    (
        b"FUSECAP2\x00\x00\x00\x00\x00\x00\x00\x00\x00\x00\x00\x20\x00",
        (0, 2),
    ),
    (
        b"FUSECAP2\x00\x00\x00\x00\x00\x00\x00\x00\x00\x01\x00\x20\x00",
        (0, 4),
    ),
    (
        b"FUSECAP2\x00\xff\xff\xff\xff\xff\xff\xff\xff\x01\x00\x00\x00a\x02",
        (1, 3),
    ),
];

#[test]
fn where_captures_end(rt: HostRuntime) {
    for (bytes, expected) in &ENDINGS {
        assert_eq!(rt; ending(&read_capture(bytes)), Some(*expected), "{bytes:?}");
        assert_eq!(rt; walked(bytes), *expected, "{bytes:?}");
    }
    // The first capture, cut at each length.
    for length in 0..=222 {
        let expected = match length {
            0..=7 => (0, 1),
            8 => (0, 0),
            9..=68 => (0, 2),
            69 => (1, 0),
            70..=153 => (1, 2),
            154 => (2, 0),
            155..=200 => (2, 2),
            201 => (3, 0),
            222 => (4, 0),
            _ => (3, 2),
        };
        assert_eq!(rt;
            ending(&read_capture(&FIRST[..length])),
            Some(expected),
            "cut at {length}"
        );
    }
}

#[test]
fn a_record_that_fails_a_check(rt: HostRuntime) {
    for (at, byte, expected) in [
        // The direction bytes of the first two records.
        (8, 2, (0, 3)),
        (69, 255, (1, 3)),
        // The third record's length with 2,097,152 added: above the limit, and longer than what is left.
        (157, 0x20, (2, 4)),
        // With 2,031,616 added it is within the limit, and what is left is too short.
        (157, 0x1f, (2, 2)),
    ] {
        let mut bytes = FIRST;
        if let Some(place) = bytes.get_mut(at) {
            *place = byte;
        }
        assert_eq!(rt;
            ending(&read_capture(&bytes)),
            Some(expected),
            "byte {at} as {byte}"
        );
    }
}

/// Adds a record of the first capture, with the time 0 behind its direction.
fn add_timed(bytes: &mut Vec<u8>, record: &[u8]) -> Option<()> {
    let (direction, behind) = record.split_first()?;
    bytes.push(*direction).ok()?;
    bytes.extend_from_slice(&[0; 8]).ok()?;
    bytes.extend_from_slice(behind).ok()
}

/// The first capture with times, all of them 0: the magic, and eight bytes more in each of its four records.
fn first_with_times(alloc: Global) -> Option<Vec<u8>> {
    let mut bytes = Vec::from_slice(alloc, b"FUSECAP2").ok()?;
    add_timed(&mut bytes, &FIRST[8..69])?;
    add_timed(&mut bytes, &FIRST[69..154])?;
    add_timed(&mut bytes, &FIRST[154..201])?;
    add_timed(&mut bytes, &FIRST[201..222])?;
    Some(bytes)
}

/// What a capture is migrated to: the bytes, or the number and the code of the fault that stands in its way. None where memory was
/// refused.
fn migrated(alloc: Global, bytes: &[u8]) -> Option<Result<Vec<u8>, (u32, u16)>> {
    match migrate(alloc, bytes) {
        Ok(written) => Some(Ok(written)),
        Err(MigrateError::Fault(fault)) => Some(Err((fault.whole, fault.code))),
        Err(MigrateError::Memory) => None,
    }
}

#[test]
fn migrated_captures(rt: HostRuntime) {
    let alloc = rt.alloc();
    let timed = first_with_times(alloc).expect(&rt, "memory");
    assert_eq!(rt; timed.len(), 254);
    assert!(rt; timed.starts_with(b"FUSECAP2\x00\x00\x00\x00\x00\x00\x00\x00\x00\x38\x00\x00\x00"));
    let written = migrate(alloc, &FIRST).ok().expect(&rt, "no fault");
    assert!(rt; written == timed);
    // One with times comes out as it is, whatever they are.
    let mut later = timed;
    if let Some(place) = later.get_mut(9) {
        *place = 7;
    }
    let written = migrate(alloc, &later).ok().expect(&rt, "no fault");
    assert!(rt; written == later);
    // The faults are those of the reader.
    for (bytes, (count, code)) in &ENDINGS {
        let answer = migrated(alloc, bytes).expect(&rt, "memory");
        assert_eq!(rt; answer.is_ok(), *code == 0, "{bytes:?}");
        if let Err((at, told)) = answer {
            assert_eq!(rt; (at, told), (*count, *code), "{bytes:?}");
        }
    }
}

#[test]
fn times_are_read(rt: HostRuntime) {
    let bytes = b"FUSECAP2\x00\x01\x02\x00\x00\x00\x00\x00\x00\x00\x00\x00\x00\
\x01\x00\x00\x00\x00\x00\x00\x00\x80\x00\x00\x00\x00";
    assert!(rt;
        read_capture(bytes)
            .packets()
            .map(|packet| packet.time)
            .eq([0x201, 0x8000_0000_0000_0000])
    );
    assert!(rt;
        read_capture(&FIRST)
            .packets()
            .all(|packet| packet.time == 0)
    );
}

/// Each code with its text, as the documents have them.
static TABLE: [(u16, &str); 42] = [
    (1, "no FUSECAP1 or FUSECAP2 at the start"),
    (2, "record cut off"),
    (3, "direction byte"),
    (4, "message too long"),
    (5, "too many messages or bytes"),
    (10, "header too short"),
    (11, "length field differs from the record"),
    (12, "operation out of the set"),
    (13, "request body"),
    (14, "limit of this profile"),
    (15, "error value out of range"),
    (16, "reply body"),
    (17, "notification"),
    (20, "first message is not INIT"),
    (21, "second INIT"),
    (22, "request before INIT was answered"),
    (23, "INIT refused"),
    (24, "version"),
    (25, "negotiated flags"),
    (30, "unique in use"),
    (31, "no request waits for this reply"),
    (32, "success of an operation left out"),
    (33, "open without a file handle"),
    (34, "request with unique 0"),
    (40, "forgotten node"),
    (41, "forgotten too often"),
    (42, "node id not allowed"),
    (50, "closed file handle"),
    (60, "not an order text"),
    (61, "not a tree text"),
    (70, "no tree request"),
    (71, "placed twice"),
    (72, "an earlier answered request is not placed yet"),
    (73, "answered request left out"),
    (74, "choice not allowed"),
    (80, "node or file handle not known here"),
    (81, "success not allowed"),
    (82, "error without a cause"),
    (83, "attributes"),
    (84, "node id of another file"),
    (85, "bytes read"),
    (86, "listing"),
];

#[test]
fn each_code_has_its_text_and_no_other_number_has_one(rt: HostRuntime) {
    let mut rows = TABLE.iter();
    let mut row = rows.next();
    for number in 0..=u16::MAX {
        match row {
            Some((code, text)) if *code == number => {
                assert!(rt; codes::text(number) == Some(*text), "of {number}");
                row = rows.next();
            }
            _ => assert!(rt; codes::text(number).is_none(), "of {number}"),
        }
    }
    assert!(rt; row.is_none());
}
