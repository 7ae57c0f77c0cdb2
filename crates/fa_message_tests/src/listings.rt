//! Walks over the items of BATCH_FORGET and over directory entries.

use crate::messages::answer_code;
use fa_bodies::{Dirent, entries, items, opcodes};
use fa_sample::Field;
use fa_sample::Field::{Bytes, U32, U64, Zeros};
use std::alloc::Global;

/// Two items of BATCH_FORGET. Each byte of the first has a value of its own.
#[rattlefmt::skip]
static FORGOTTEN: [u8; 32] = [
    0x01, 0x02, 0x03, 0x04, 0x05, 0x06, 0x07, 0xf8, 0x09, 0x0a, 0x0b, 0x0c, 0x0d, 0x0e, 0x0f, 0xf0,
    0x02, 0, 0, 0, 0, 0, 0, 0, 0xff, 0xff, 0xff, 0xff, 0xff, 0xff, 0xff, 0xff,
];

/// The two items: node id and number of lookups.
static FORGOTTEN_ITEMS: [(u64, u64); 2] = [
    (0xf807_0605_0403_0201, 0xf00f_0e0d_0c0b_0a09),
    (2, u64::MAX),
];

/// The item at this place, from 0: node id and number of lookups.
fn item_at(bytes: &[u8], place: usize) -> Option<(u64, u64)> {
    let mut walk = items(bytes);
    for _ in 0..place {
        walk.next()?;
    }
    walk.next()
}

/// The walk ends before a rest of fewer than 16 bytes.
#[test]
fn items_of_batch_forget(rt: HostRuntime) {
    for (len, count) in [(0, 0), (15, 0), (16, 1), (17, 1), (31, 1), (32, 2)] {
        let bytes = FORGOTTEN.get(..len).expect(&rt, "so many bytes");
        for place in 0..4 {
            let expected = if place < count {
                FORGOTTEN_ITEMS.get(place).copied()
            } else {
                None
            };
            assert!(rt; item_at(bytes, place) == expected, "{place} in {len} bytes");
        }
    }
}

/// The entries `.`, `..` and `a.b` of a READDIR reply. Each byte of the first entry's head has a value of its own, but
/// for its name's length. The padding is not zero.
#[rattlefmt::skip]
static DIRECTORY: [u8; 96] = [
    // ino, off, namelen, type
    0x01, 0x02, 0x03, 0x04, 0x05, 0x06, 0x07, 0xf8, 0x09, 0x0a, 0x0b, 0x0c, 0x0d, 0x0e, 0x0f, 0xf0,
    0x01, 0, 0, 0, 0x11, 0x12, 0x13, 0xf4,
    // name, padding
    b'.', 1, 2, 3, 4, 5, 6, 7,
    0x02, 0, 0, 0, 0, 0, 0, 0, 0xff, 0xff, 0xff, 0xff, 0xff, 0xff, 0xff, 0xff,
    0x02, 0, 0, 0, 0x04, 0, 0, 0,
    b'.', b'.', b'/', 0, b'/', 0, b'/', 0,
    0, 0, 0, 0, 0, 0, 0, 0, 0, 0, 0, 0, 0, 0, 0, 0,
    0x03, 0, 0, 0, 0, 0, 0, 0,
    b'a', b'.', b'b', 0, 0, 0, 0, 0,
];

/// The three entries: number, offset, type and name.
static DIRECTORY_ENTRIES: [(u64, u64, u32, &[u8]); 3] = [
    (
        0xf807_0605_0403_0201,
        0xf00f_0e0d_0c0b_0a09,
        0xf413_1211,
        b".",
    ),
    (2, u64::MAX, 4, b".."),
    (0, 0, 0, b"a.b"),
];

/// The entry at this place, from 0.
fn entry_at(plus: bool, bytes: &[u8], place: usize) -> Option<Dirent<'_>> {
    let mut walk = entries(plus, bytes);
    for _ in 0..place {
        walk.next()?;
    }
    walk.next()
}

/// Whether the entry at this place is the one of the directory, where it has any there.
fn is_in_place(bytes: &[u8], place: usize, count: usize) -> bool {
    match (entry_at(false, bytes, place), DIRECTORY_ENTRIES.get(place)) {
        (Some(found), Some((ino, off, kind, name))) => {
            place < count
                && (found.ino, found.off, found.kind) == (*ino, *off, *kind)
                && found.name == *name
                && found.entry.is_none()
        }
        (None, _) => place >= count,
        _ => false,
    }
}

/// Whether bytes are a listing as a whole, as READDIR or READDIRPLUS answers it.
fn is_whole(alloc: Global, plus: bool, bytes: &[u8]) -> Option<bool> {
    let opcode = if plus {
        opcodes::READDIRPLUS
    } else {
        opcodes::READDIR
    };
    Some(answer_code(alloc, (opcode, 8192), 0, bytes)? == 0)
}

/// The walk ends before the first bytes that are no entry.
#[test]
fn entries_of_a_directory(rt: HostRuntime) {
    for (len, count, whole) in [
        (0, 0, true),
        (1, 0, false),
        (31, 0, false),
        (32, 1, true),
        (33, 1, false),
        (64, 2, true),
        (95, 2, false),
        (96, 3, true),
    ] {
        let bytes = DIRECTORY.get(..len).expect(&rt, "so many bytes");
        for place in 0..4 {
            assert!(rt; is_in_place(bytes, place, count), "{place} in {len} bytes");
        }
        assert!(rt;
            is_whole(rt.alloc(), false, bytes) == Some(whole),
            "{len} bytes"
        );
    }
}

static NAME: [u8; 1025] = [b'x'; 1025];

static PADDING: [u8; 8] = [0xff; 8];

/// The length of a name as an entry states it, how many bytes `x` the name has, and how many bytes 0xff stand behind it.
static PADDED: [(u32, usize, usize); 11] = [
    (1, 1, 7),
    (2, 2, 6),
    (3, 3, 5),
    (4, 4, 4),
    (5, 5, 3),
    (6, 6, 2),
    (7, 7, 1),
    (8, 8, 0),
    (9, 9, 7),
    (1023, 1023, 1),
    (1024, 1024, 0),
];

/// The same of bytes that are no entry.
static UNPADDED: [(u32, usize, usize); 12] = [
    (0, 0, 0),
    (0, 0, 8),
    (1, 1, 0),
    (1, 1, 6),
    (7, 7, 0),
    (8, 7, 0),
    (9, 8, 0),
    (1024, 1023, 0),
    (1025, 1025, 7),
    (0xffff_ffff, 8, 0),
    (0xffff_ffe8, 8, 0),
    (0x8000_0008, 8, 0),
];

/// How many entries are read from one with the number 1, the offset 2 and the type 3, this length of its name, and these
/// bytes, and whether it is a listing. For READDIRPLUS node 7 stands before it.
fn read_from<'x>(
    alloc: Global,
    plus: bool,
    namelen: u32,
    name: &'x [u8],
    padding: &'x [u8],
) -> Option<(usize, bool)> {
    let front = if plus {
        [U64(7), Zeros(120)]
    } else {
        [Zeros(0), Zeros(0)]
    };
    let [node, attributes] = front;
    let fields: [Field<'_>; 8] = [
        node,
        attributes,
        U64(1),
        U64(2),
        U32(namelen),
        U32(3),
        Bytes(name),
        Bytes(padding),
    ];
    let bytes = fa_sample::spelled(alloc, &fields).ok()?;
    let mut count = 0_usize;
    for found in entries(plus, &bytes) {
        let node = found.entry.map(|entry| entry.nodeid);
        if (found.ino, found.off, found.kind) == (1, 2, 3)
            && found.name == name
            && node == plus.then_some(7)
        {
            count = count.saturating_add(1);
        }
    }
    Some((count, is_whole(alloc, plus, &bytes)?))
}

/// Padding fills an entry up to eight bytes, without the 128 bytes of READDIRPLUS before it.
#[test]
fn entries_with_their_padding(rt: HostRuntime) {
    for plus in [false, true] {
        for (rows, expected) in [
            (PADDED.as_slice(), (1, true)),
            (UNPADDED.as_slice(), (0, false)),
        ] {
            for (namelen, len, padding) in rows {
                let name = NAME.get(..*len).expect(&rt, "so many bytes");
                let behind = PADDING.get(..*padding).expect(&rt, "so many bytes");
                let found = read_from(rt.alloc(), plus, *namelen, name, behind);
                assert!(rt; found == Some(expected), "{namelen} of {len} bytes");
            }
        }
        for name in [b"a/b", b"ab\0"] {
            let found = read_from(rt.alloc(), plus, 3, name, &PADDING[..5]);
            assert!(rt; found == Some((0, false)), "{name:?}");
        }
    }
}
