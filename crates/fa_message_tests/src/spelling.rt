//! Samples, against bytes written by hand.

use bitflags::Flags;
use fa_bodies::{FopenFlags, GetattrFlags, OpenFlags};
use fa_capture::Direction;
use fa_sample::Field::Bytes;
use fa_sample::{Listed, Sample};

/// READ, READDIR and READDIRPLUS of 8 bytes at 7 by the handle 6.
#[rattlefmt::skip]
const READING: [u8; 40] = [
    6, 0, 0, 0, 0, 0, 0, 0, 7, 0, 0, 0, 0, 0, 0, 0, 8, 0, 0, 0,
    0, 0, 0, 0, 0, 0, 0, 0, 0, 0, 0, 0, 0, 0, 0, 0, 0, 0, 0, 0,
];

/// WRITE of three bytes at 7 by the handle 6.
#[rattlefmt::skip]
const WRITING: [u8; 43] = [
    6, 0, 0, 0, 0, 0, 0, 0, 7, 0, 0, 0, 0, 0, 0, 0, 3, 0, 0, 0,
    0, 0, 0, 0, 0, 0, 0, 0, 0, 0, 0, 0, 0, 0, 0, 0, 0, 0, 0, 0, b'a', b'b', b'c',
];

/// RELEASE, RELEASEDIR and FLUSH of the handle 6.
const CLOSING: [u8; 24] = [
    6, 0, 0, 0, 0, 0, 0, 0, 0, 0, 0, 0, 0, 0, 0, 0, 0, 0, 0, 0, 0, 0, 0, 0,
];

/// BATCH_FORGET of one lookup of node 2 and four of node 3.
#[rattlefmt::skip]
const FORGETTING: [u8; 40] = [
    2, 0, 0, 0, 0, 0, 0, 0,
    2, 0, 0, 0, 0, 0, 0, 0, 1, 0, 0, 0, 0, 0, 0, 0,
    3, 0, 0, 0, 0, 0, 0, 0, 4, 0, 0, 0, 0, 0, 0, 0,
];

/// The entry `a` at 1 of a regular file.
#[rattlefmt::skip]
const LISTED: [u8; 32] = [
    0, 0, 0, 0, 0, 0, 0, 0, 1, 0, 0, 0, 0, 0, 0, 0, 1, 0, 0, 0, 8, 0, 0, 0, b'a', 0, 0, 0, 0, 0, 0, 0,
];

/// SETATTR of the size 7.
#[rattlefmt::skip]
const RESIZING: [u8; 88] = [
    8, 0, 0, 0, 0, 0, 0, 0, 0, 0, 0, 0, 0, 0, 0, 0, 7, 0, 0, 0, 0, 0, 0, 0,
    0, 0, 0, 0, 0, 0, 0, 0, 0, 0, 0, 0, 0, 0, 0, 0, 0, 0, 0, 0, 0, 0, 0, 0,
    0, 0, 0, 0, 0, 0, 0, 0, 0, 0, 0, 0, 0, 0, 0, 0, 0, 0, 0, 0, 0, 0, 0, 0,
    0, 0, 0, 0, 0, 0, 0, 0, 0, 0, 0, 0, 0, 0, 0, 0,
];

/// What a call of a sample adds in `all_requests`: the opcode, the node and the body.
static REQUESTS: [(u32, u64, &[u8]); 26] = [
    (2, 5, b"\x02\0\0\0\0\0\0\0"),
    (3, 5, b"\0\0\0\0\0\0\0\0\0\0\0\0\0\0\0\0"),
    (3, 5, b"\x01\0\0\0\0\0\0\0\x06\0\0\0\0\0\0\0"),
    (4, 5, &RESIZING),
    (5, 5, b""),
    (6, 5, b"a\0/b\0"),
    (8, 5, b"\xa4\x11\0\0\0\0\0\0\0\0\0\0\0\0\0\0a\0"),
    (9, 5, b"\xed\x01\0\0\x12\0\0\0a\0"),
    (10, 5, b"a\0"),
    (11, 5, b"a\0"),
    (12, 5, b"\x06\0\0\0\0\0\0\0a\0b\0"),
    (45, 5, b"\x06\0\0\0\0\0\0\0\x01\0\0\0\0\0\0\0a\0b\0"),
    (13, 5, b"\x06\0\0\0\0\0\0\0a\0"),
    (14, 5, b"\0\0\0\0\0\0\0\0"),
    (14, 5, b"\0\x02\0\0\0\0\0\0"),
    (15, 5, &READING),
    (16, 5, &WRITING),
    (18, 5, &CLOSING),
    (25, 5, &CLOSING),
    (27, 5, b"\0\0\0\0\0\0\0\0"),
    (28, 5, &READING),
    (29, 5, &CLOSING),
    (35, 5, b"\x42\0\0\0\xa4\x81\0\0\x12\0\0\0\0\0\0\0a\0"),
    (35, 5, b"\x80\0\0\0\xc0\x41\0\0\x12\0\0\0\0\0\0\0a\0"),
    (44, 5, &READING),
    (42, 0, &FORGETTING),
];

/// Each request that a sample has a call for.
fn all_requests(sample: Sample) -> Sample {
    sample
        .forget(4, 5, 2)
        .getattr(4, 5)
        .getattr_with(4, 5, GetattrFlags::FH, 6)
        .setattr_size(4, 5, 7)
        .readlink(4, 5)
        .symlink(4, 5, b"a", b"/b")
        .mknod(4, 5, fa_sample::FIFO | 0o644, b"a")
        .mkdir(4, 5, b"a")
        .unlink(4, 5, b"a")
        .rmdir(4, 5, b"a")
        .rename(4, 5, b"a", 6, b"b")
        .rename2(4, 5, b"a", 1, 6, b"b")
        .link(4, 5, b"a", 6)
        .open(4, 5)
        .open_with(4, 5, OpenFlags::TRUNC)
        .read(4, 5, 6, 7, 8)
        .write(4, 5, 6, 7, b"abc")
        .release(4, 5, 6)
        .flush(4, 5, 6)
        .opendir(4, 5)
        .readdir(4, 5, 6, 7, 8)
        .releasedir(4, 5, 6)
        .create(4, 5, b"a")
        .create_with(4, 5, OpenFlags::EXCL, fa_sample::DIR | 0o700, b"a")
        .readdirplus(4, 5, 6, 7, 8)
        .batch_forget(4, &[(2, 1), (3, 4)])
}

/// An entry of node 2: a regular file of 5 bytes with one link.
#[rattlefmt::skip]
const ENTRY: [u8; 128] = [
    2, 0, 0, 0, 0, 0, 0, 0, 0, 0, 0, 0, 0, 0, 0, 0, 0, 0, 0, 0, 0, 0, 0, 0, 0, 0, 0, 0, 0, 0, 0, 0,
    0, 0, 0, 0, 0, 0, 0, 0, 0, 0, 0, 0, 0, 0, 0, 0, 5, 0, 0, 0, 0, 0, 0, 0, 0, 0, 0, 0, 0, 0, 0, 0,
    0, 0, 0, 0, 0, 0, 0, 0, 0, 0, 0, 0, 0, 0, 0, 0, 0, 0, 0, 0, 0, 0, 0, 0, 0, 0, 0, 0, 0, 0, 0, 0,
    0, 0, 0, 0, 0xa4, 0x81, 0, 0, 1, 0, 0, 0, 0, 0, 0, 0, 0, 0, 0, 0, 0, 0, 0, 0, 0, 0, 0, 0, 0, 0, 0, 0,
];

/// The attributes of a directory of 5 bytes with two links.
#[rattlefmt::skip]
const ATTRIBUTES: [u8; 104] = [
    0, 0, 0, 0, 0, 0, 0, 0, 0, 0, 0, 0, 0, 0, 0, 0, 0, 0, 0, 0, 0, 0, 0, 0, 5, 0, 0, 0, 0, 0, 0, 0,
    0, 0, 0, 0, 0, 0, 0, 0, 0, 0, 0, 0, 0, 0, 0, 0, 0, 0, 0, 0, 0, 0, 0, 0, 0, 0, 0, 0, 0, 0, 0, 0,
    0, 0, 0, 0, 0, 0, 0, 0, 0, 0, 0, 0, 0xed, 0x41, 0, 0, 2, 0, 0, 0, 0, 0, 0, 0, 0, 0, 0, 0, 0, 0, 0, 0,
    0, 0, 0, 0, 0, 0, 0, 0,
];

/// The entry `12345678` at 258 of a file of no known type.
const LONG: &[u8; 32] = b"\0\0\0\0\0\0\0\0\x02\x01\0\0\0\0\0\0\x08\0\0\0\0\0\0\x0012345678";

/// What a call of a sample adds in `all_replies`: the body in two parts.
static REPLIES: [(&[u8], &[u8]); 11] = [
    (&ENTRY, b""),
    (&ENTRY, b"\x09\0\0\0\0\0\0\0\0\0\0\0\0\0\0\0"),
    (&ATTRIBUTES, b""),
    (b"\x09\0\0\0\0\0\0\0", b"\0\0\0\0\0\0\0\0"),
    (b"\x09\0\0\0\0\0\0\0", b"\x01\0\0\0\0\0\0\0"),
    (b"\x03\0\0\0", b"\0\0\0\0"),
    (b"abc", b""),
    (b"", b""),
    (&LISTED, LONG),
    (&ENTRY, &LISTED),
    (b"", b""),
];

/// Each success that a sample has a call for.
fn all_replies(sample: Sample) -> Sample {
    let regular = fa_sample::REG | 0o644;
    let listed = Listed {
        name: b"a",
        off: 1,
        file_type: 8,
    };
    let long = Listed {
        name: b"12345678",
        off: 258,
        file_type: 0,
    };
    let found = fa_sample::entry_out(2, regular, 5, 1);
    sample
        .entry(4, 2, regular, 5, 1)
        .created(4, 2, regular, 5, 1, 9)
        .attr(4, fa_sample::DIR | 0o755, 5, 2)
        .opened(4, 9)
        .opened_with(4, 9, FopenFlags::DIRECT_IO)
        .written(4, 3)
        .data(4, b"abc")
        .listing(4, &[])
        .listing(4, &[listed, long])
        .listing_plus(4, &[(found, listed)])
        .ok(4)
}

/// Each message of a sample has the header and the body that its call names.
#[test]
fn messages_of_samples(rt: HostRuntime) {
    let found = all_replies(all_requests(Sample::new(rt.alloc())));
    let found = found.raw(Direction::FromServer, b"x").capture();
    let mut expected = Sample::new(rt.alloc());
    for (opcode, node, body) in &REQUESTS {
        expected = expected.request(4, *opcode, *node, body);
    }
    for (front, behind) in &REPLIES {
        expected = expected.success_of(4, &[Bytes(front), Bytes(behind)]);
    }
    let expected = expected.capture().expect(&rt, "memory");
    let found = found.expect(&rt, "memory");
    assert!(rt; found.split_last_chunk::<6>() == Some((expected.as_slice(), b"\x01\x01\0\0\0x")));
}
