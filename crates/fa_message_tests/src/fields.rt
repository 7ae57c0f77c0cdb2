//! Where the fields of bodies stand. In a body whose bytes all differ, the number that is read shows its place.

use crate::messages::{answer_code, asked_bytes, said, to_server};
use bitflags::Flags;
use fa_bodies::{
    Attributes, AttributesBytes, EntryBytes, FattrFlags, FopenFlags, GetattrFlags, InitFlags, Kind,
    Mode, OpenFlags, OpenOut, ReadIn, ReleaseIn, RenameFlags, Reply, Request, RequestBody,
    SetattrBytes, known_request, request,
};
use fa_capture::codes::REPLY_BODY;
use std::alloc::{AllocError, Global};

/// Fields of a body as numbers, and 0 behind the last.
type Numbers = [u64; 15];

/// The offset of a field and its size.
type Place = (usize, usize);

/// These numbers, and 0 behind the last.
fn numbers(listed: &[u64]) -> Numbers {
    let mut all = [0; 15];
    for (place, number) in all.iter_mut().zip(listed) {
        *place = *number;
    }
    all
}

/// The number of so many bytes at this offset, low byte first.
fn number_at(body: &[u8], (offset, size): Place) -> u64 {
    let mut bytes = [0; 8];
    for (place, byte) in bytes.iter_mut().zip(body.iter().skip(offset).take(size)) {
        *place = *byte;
    }
    u64::from_le_bytes(bytes)
}

/// The numbers at these places.
fn numbers_at(body: &[u8], places: &[Place]) -> Numbers {
    let mut all = [0; 15];
    for (number, place) in all.iter_mut().zip(places) {
        *number = number_at(body, *place);
    }
    all
}

/// The bytes 0, 1, 2 and so on.
fn counted(alloc: Global, len: usize) -> Result<Vec<u8>, AllocError> {
    let mut body = Vec::new(alloc);
    for byte in (0..=255).take(len) {
        body.push(byte)?;
    }
    Ok(body)
}

fn of_setattr(setattr: &SetattrBytes<'_>) -> Numbers {
    let s = setattr.read();
    numbers(&[
        u64::from(setattr.valid().bits()),
        setattr.fh(),
        setattr.size(),
        s.lock_owner,
        s.atime,
        s.mtime,
        s.ctime,
        u64::from(s.atimensec),
        u64::from(s.mtimensec),
        u64::from(s.ctimensec),
        u64::from(setattr.mode().bits()),
        u64::from(s.uid),
        u64::from(s.gid),
        u64::from(s.mode.bits()),
    ])
}

fn of_read(r: &ReadIn) -> Numbers {
    let flags = u64::from(r.flags.bits());
    numbers(&[
        r.fh,
        r.offset,
        u64::from(r.size),
        u64::from(r.read_flags),
        r.lock_owner,
        flags,
    ])
}

fn of_release(r: &ReleaseIn) -> Numbers {
    let flags = u64::from(r.flags.bits());
    numbers(&[r.fh, flags, u64::from(r.release_flags), r.lock_owner])
}

fn of_rename_flags(flags: RenameFlags) -> u64 {
    match flags {
        RenameFlags::Replace => 0,
        RenameFlags::NoReplace => 1,
        RenameFlags::Exchange => 2,
    }
}

/// The number of a body's operation, and the fields in it that are numbers. READLINK and what is read by the header alone
/// have none.
fn of_request(body: &RequestBody<'_>) -> (u32, Numbers) {
    match *body {
        RequestBody::Lookup { .. } => (1, numbers(&[])),
        RequestBody::Forget { nlookup } => (2, numbers(&[nlookup])),
        RequestBody::Getattr(g) => (3, numbers(&[u64::from(g.getattr_flags.bits()), g.fh])),
        RequestBody::Setattr(s) => (4, of_setattr(&s)),
        RequestBody::Readlink => (5, numbers(&[])),
        RequestBody::Symlink { .. } => (6, numbers(&[])),
        RequestBody::Unlink { .. } => (10, numbers(&[])),
        RequestBody::Rmdir { .. } => (11, numbers(&[])),
        RequestBody::Rename { newdir, .. } => (12, numbers(&[newdir])),
        RequestBody::Rename2 { newdir, flags, .. } => {
            (45, numbers(&[newdir, of_rename_flags(flags)]))
        }
        RequestBody::Link { oldnodeid, .. } => (13, numbers(&[oldnodeid])),
        RequestBody::Open(o) => (14, numbers(&[u64::from(o.flags.bits())])),
        RequestBody::Read(r) => (15, of_read(&r)),
        RequestBody::Release(r) => (18, of_release(&r)),
        RequestBody::Flush(f) => (25, numbers(&[f.fh, f.lock_owner])),
        RequestBody::Opendir(o) => (27, numbers(&[u64::from(o.flags.bits())])),
        RequestBody::Readdir(r) => (28, of_read(&r)),
        RequestBody::Releasedir(r) => (29, of_release(&r)),
        RequestBody::BatchForget { count, .. } => (42, numbers(&[u64::from(count)])),
        RequestBody::Readdirplus(r) => (44, of_read(&r)),
        _ => of_longer_request(body),
    }
}

/// The same of the bodies with several fields of their own.
fn of_longer_request(body: &RequestBody<'_>) -> (u32, Numbers) {
    match body {
        RequestBody::Mknod {
            mode,
            rdev,
            umask,
            ..
        } => {
            let mode = u64::from(mode.bits());
            (8, numbers(&[mode, u64::from(*rdev), u64::from(*umask)]))
        }
        RequestBody::Mkdir { mode, umask, .. } => {
            (9, numbers(&[u64::from(mode.bits()), u64::from(*umask)]))
        }
        RequestBody::Init(i) => {
            let flags = u64::from(i.flags.bits());
            let version = [u64::from(i.major), u64::from(i.minor)];
            (
                26,
                numbers(&[version[0], version[1], u64::from(i.max_readahead), flags]),
            )
        }
        RequestBody::Create {
            flags,
            mode,
            umask,
            ..
        } => {
            let flags = u64::from(flags.bits());
            (
                35,
                numbers(&[flags, u64::from(mode.bits()), u64::from(*umask)]),
            )
        }
        _ => of_write(body),
    }
}

/// The same of WRITE.
fn of_write(body: &RequestBody<'_>) -> (u32, Numbers) {
    let RequestBody::Write {
        fh,
        offset,
        size,
        write_flags,
        lock_owner,
        flags,
        ..
    } = *body
    else {
        return (0, numbers(&[]));
    };
    let flags = u64::from(flags.bits());
    let listed = [
        fh,
        offset,
        u64::from(size),
        u64::from(write_flags),
        lock_owner,
        flags,
    ];
    (16, numbers(&listed))
}

/// The names, the target, the payload or the items of a body, one behind the other.
fn bytes_of<'a>(body: &RequestBody<'a>) -> (&'a [u8], &'a [u8]) {
    match *body {
        RequestBody::Lookup { name }
        | RequestBody::Mknod { name, .. }
        | RequestBody::Mkdir { name, .. }
        | RequestBody::Unlink { name }
        | RequestBody::Rmdir { name }
        | RequestBody::Create { name, .. } => (name, b""),
        RequestBody::Symlink { name, target } => (name, target),
        RequestBody::Rename {
            old_name,
            new_name,
            ..
        }
        | RequestBody::Rename2 {
            old_name,
            new_name,
            ..
        } => (old_name, new_name),
        RequestBody::Link { new_name, .. } => (new_name, b""),
        RequestBody::Write { payload, .. } => (payload, b""),
        RequestBody::BatchForget { items, .. } => (items, b""),
        _ => (b"", b""),
    }
}

const SETATTR: &[Place] = &[
    (0, 4),
    (8, 8),
    (16, 8),
    (24, 8),
    (32, 8),
    (40, 8),
    (48, 8),
    (56, 4),
    (60, 4),
    (64, 4),
    (68, 4),
    (76, 4),
    (80, 4),
    (68, 4),
];

const READ: &[Place] = &[(0, 8), (8, 8), (16, 4), (20, 4), (24, 8), (32, 4)];

const RELEASE: &[Place] = &[(0, 8), (8, 4), (12, 4), (16, 8)];

const FLUSH: &[Place] = &[(0, 8), (16, 8)];

const WHOLE: &[Place] = &[(0, 8)];

const FLAGS: &[Place] = &[(0, 4)];

/// An operation, the number of counted bytes at the front of its body, the places of its fields, what stands behind them,
/// and what is read of that.
type Body = (
    u32,
    usize,
    &'static [Place],
    &'static [u8],
    (&'static [u8], &'static [u8]),
);

static BODIES: [Body; 23] = [
    (1, 0, &[], b"name\0", (b"name", b"")),
    (2, 8, WHOLE, b"", (b"", b"")),
    (3, 16, &[(0, 4), (8, 8)], b"", (b"", b"")),
    (4, 88, SETATTR, b"", (b"", b"")),
    (5, 0, &[], b"", (b"", b"")),
    (6, 0, &[], b"name\0/to a\0", (b"name", b"/to a")),
    (8, 16, &[(0, 4), (4, 4), (8, 4)], b"name\0", (b"name", b"")),
    (9, 8, &[(0, 4), (4, 4)], b"name\0", (b"name", b"")),
    (10, 0, &[], b"name\0", (b"name", b"")),
    (11, 0, &[], b"name\0", (b"name", b"")),
    (12, 8, WHOLE, b"name\0other\0", (b"name", b"other")),
    (13, 8, WHOLE, b"name\0", (b"name", b"")),
    (14, 8, FLAGS, b"", (b"", b"")),
    (15, 40, READ, b"", (b"", b"")),
    (18, 24, RELEASE, b"", (b"", b"")),
    (25, 24, FLUSH, b"", (b"", b"")),
    (26, 16, &[(0, 4), (4, 4), (8, 4), (12, 4)], b"", (b"", b"")),
    (
        26,
        16,
        &[(0, 4), (4, 4), (8, 4), (12, 4)],
        b"more",
        (b"", b""),
    ),
    (27, 8, FLAGS, b"", (b"", b"")),
    (28, 40, READ, b"", (b"", b"")),
    (29, 24, RELEASE, b"", (b"", b"")),
    (35, 16, &[(0, 4), (4, 4), (8, 4)], b"name\0", (b"name", b"")),
    (44, 40, READ, b"", (b"", b"")),
];

/// A WRITE of three bytes. Its offset is within the limit, and each other byte behind the first 16 is its own place.
#[rattlefmt::skip]
static WRITE: [u8; 43] = [
    // fh, offset
    0x00, 0x01, 0x02, 0x03, 0x04, 0x05, 0x06, 0x07, 0x08, 0x09, 0x0a, 0x00, 0x00, 0x00, 0x00, 0x00,
    // size, write_flags, lock_owner
    0x03, 0x00, 0x00, 0x00, 0x14, 0x15, 0x16, 0x17, 0x18, 0x19, 0x1a, 0x1b, 0x1c, 0x1d, 0x1e, 0x1f,
    // flags, padding, the bytes
    0x20, 0x21, 0x22, 0x23, 0x24, 0x25, 0x26, 0x27, b'a', 0x00, b'c',
];

/// A RENAME2 of these flags. Each byte in front of the names but those of the flags is its own place.
#[rattlefmt::skip]
fn rename2(flags: u8) -> [u8; 27] {
    [
        // newdir, flags, padding, the names
        0x00, 0x01, 0x02, 0x03, 0x04, 0x05, 0x06, 0x07, flags, 0x00, 0x00, 0x00, 0x0c, 0x0d, 0x0e, 0x0f,
        b'n', b'a', b'm', b'e', 0x00, b'o', b't', b'h', b'e', b'r', 0x00,
    ]
}

/// A BATCH_FORGET of one item.
#[rattlefmt::skip]
static BATCH_FORGET: [u8; 24] = [
    // count, dummy
    0x01, 0x00, 0x00, 0x00, 0x04, 0x05, 0x06, 0x07,
    b'i', b'n', b' ', b's', b'i', b'x', b't', b'e', b'e', b'n', b' ', b'b', b'y', b't', b'e', b's',
];

/// Whether a request has this operation, the fields at these places of its body and these bytes behind them.
fn has_fields(
    asked: &Request<'_>,
    opcode: u32,
    body: &[u8],
    places: &[Place],
    behind: (&[u8], &[u8]),
) -> bool {
    let (front, back) = bytes_of(&asked.body);
    let (operation, found) = of_request(&asked.body);
    let is_of = (asked.unique, asked.node, asked.opcode, operation) == (4, 1, opcode, opcode);
    is_of && found == numbers_at(body, places) && front == behind.0 && back == behind.1
}

/// Whether a request of this operation and body is read as the fields at these places and these bytes behind them, and read again
/// as the same.
fn is_read(
    alloc: Global,
    opcode: u32,
    body: &[u8],
    places: &[Place],
    behind: (&[u8], &[u8]),
) -> Option<bool> {
    let message = fa_sample::request_bytes(alloc, 4, opcode, 1, body).ok()?;
    let packet = to_server(&message);
    let asked = request(&packet).ok()?;
    let again = known_request(&packet);
    Some(
        has_fields(&asked, opcode, body, places, behind)
            && has_fields(&again, opcode, body, places, behind),
    )
}

/// The same of a body whose front is counted bytes.
fn is_read_counted(alloc: Global, (opcode, len, places, behind, bytes): Body) -> Option<bool> {
    let mut body = counted(alloc, len).ok()?;
    body.extend_from_slice(behind).ok()?;
    is_read(alloc, opcode, &body, places, bytes)
}

#[test]
fn fields_of_requests(rt: HostRuntime) {
    for (number, body) in BODIES.iter().enumerate() {
        assert!(rt;
            is_read_counted(rt.alloc(), *body) == Some(true),
            "row {number}"
        );
    }
    let written = is_read(rt.alloc(), 16, &WRITE, READ, (b"a\0c", b""));
    assert!(rt; written == Some(true));
    for flags in 0..3 {
        let renamed = is_read(
            rt.alloc(),
            45,
            &rename2(flags),
            &[(0, 8), (8, 4)],
            (b"name", b"other"),
        );
        assert!(rt; renamed == Some(true), "RENAME2 with the flags {flags}");
    }
    let forgotten = is_read(
        rt.alloc(),
        42,
        &BATCH_FORGET,
        FLAGS,
        (b"in sixteen bytes", b""),
    );
    assert!(rt; forgotten == Some(true));
}

fn of_entry(entry: &EntryBytes<'_>) -> Numbers {
    let e = entry.read();
    numbers(&[
        entry.nodeid(),
        e.generation,
        e.entry_valid,
        e.attr_valid,
        u64::from(e.entry_valid_nsec),
        u64::from(e.attr_valid_nsec),
    ])
}

fn of_attributes(a: &Attributes) -> Numbers {
    numbers(&[
        a.ino,
        a.size,
        a.blocks,
        a.atime,
        a.mtime,
        a.ctime,
        u64::from(a.atimensec),
        u64::from(a.mtimensec),
        u64::from(a.ctimensec),
        u64::from(a.mode.bits()),
        u64::from(a.nlink),
        u64::from(a.uid),
        u64::from(a.gid),
        u64::from(a.rdev),
        u64::from(a.blksize),
    ])
}

/// The same where they lie, with each field that is read alone read so.
fn of_fields(attributes: &AttributesBytes<'_>) -> Numbers {
    let mut a = attributes.read();
    a.size = attributes.size();
    a.mode = attributes.mode();
    a.nlink = attributes.nlink();
    of_attributes(&a)
}

fn of_open(o: &OpenOut) -> Numbers {
    numbers(&[o.fh, u64::from(o.open_flags.bits())])
}

/// The fields of a success before its attributes, its attributes, twice, and those of an open handle.
fn of_reply(reply: &Reply<'_>) -> [Numbers; 4] {
    let none = [0; 15];
    match reply {
        Reply::Entry(entry) => [
            of_entry(entry),
            of_attributes(&entry.read().attr),
            of_fields(&entry.attributes()),
            none,
        ],
        Reply::Created { entry, open } => [
            of_entry(entry),
            of_attributes(&entry.read().attr),
            of_fields(&entry.attributes()),
            of_open(open),
        ],
        Reply::Attributes(attributes) => {
            let a = attributes.read();
            let valid = numbers(&[a.attr_valid, u64::from(a.attr_valid_nsec)]);
            let fields = of_fields(&attributes.attributes());
            [valid, of_attributes(&a.attr), fields, none]
        }
        Reply::Opened(o) => [none, none, none, of_open(o)],
        Reply::Negotiated(n) => {
            let flags = u64::from(n.flags.bits());
            let listed = [
                u64::from(n.major),
                u64::from(n.minor),
                u64::from(n.max_readahead),
                flags,
            ];
            [numbers(&listed), none, none, none]
        }
        _ => [none, none, none, none],
    }
}

const ENTRY: &[Place] = &[(0, 8), (8, 8), (16, 8), (24, 8), (32, 4), (36, 4)];

/// `struct fuse_attr` behind the 40 bytes before it in an entry.
const IN_ENTRY: &[Place] = &[
    (40, 8),
    (48, 8),
    (56, 8),
    (64, 8),
    (72, 8),
    (80, 8),
    (88, 4),
    (92, 4),
    (96, 4),
    (100, 4),
    (104, 4),
    (108, 4),
    (112, 4),
    (116, 4),
    (120, 4),
];
/// `struct fuse_attr` behind the 16 bytes before it in the answer of GETATTR and SETATTR.
const IN_ATTR: &[Place] = &[
    (16, 8),
    (24, 8),
    (32, 8),
    (40, 8),
    (48, 8),
    (56, 8),
    (64, 4),
    (68, 4),
    (72, 4),
    (76, 4),
    (80, 4),
    (84, 4),
    (88, 4),
    (92, 4),
    (96, 4),
];

/// An operation, the bytes of its success, and the places of its fields.
static SUCCESSES: [(u32, usize, [&[Place]; 3]); 11] = [
    (1, 128, [ENTRY, IN_ENTRY, &[]]),
    (3, 104, [&[(0, 8), (8, 4)], IN_ATTR, &[]]),
    (4, 104, [&[(0, 8), (8, 4)], IN_ATTR, &[]]),
    (6, 128, [ENTRY, IN_ENTRY, &[]]),
    (8, 128, [ENTRY, IN_ENTRY, &[]]),
    (9, 128, [ENTRY, IN_ENTRY, &[]]),
    (13, 128, [ENTRY, IN_ENTRY, &[]]),
    (14, 16, [&[], &[], &[(0, 8), (8, 4)]]),
    (26, 64, [&[(0, 4), (4, 4), (8, 4), (12, 4)], &[], &[]]),
    (27, 16, [&[], &[], &[(0, 8), (8, 4)]]),
    (35, 144, [ENTRY, IN_ENTRY, &[(128, 8), (136, 4)]]),
];

/// Whether a success of this operation is read as the fields at these places.
fn is_success_read(alloc: Global, opcode: u32, len: usize, places: [&[Place]; 3]) -> Option<bool> {
    let asked = asked_bytes(alloc, opcode, 20).ok()?;
    let body = counted(alloc, len).ok()?;
    let message = fa_sample::reply_bytes(alloc, 4, 0, &body).ok()?;
    let reply = said(&request(&to_server(&asked)).ok()?, &message).ok()?;
    let [before, attributes, behind] = places;
    let expected = [
        numbers_at(&body, before),
        numbers_at(&body, attributes),
        numbers_at(&body, attributes),
        numbers_at(&body, behind),
    ];
    Some(of_reply(&reply) == expected)
}

#[test]
fn fields_of_successes(rt: HostRuntime) {
    for (opcode, len, places) in &SUCCESSES {
        let found = is_success_read(rt.alloc(), *opcode, *len, *places);
        assert!(rt; found == Some(true), "the answer of {opcode}");
    }
}

/// Each flag is its bit of `fuse.h` or of the C library's open, and bits that no flag names are kept.
#[test]
fn flags_are_their_bits(rt: HostRuntime) {
    for (bits, expected) in [
        (InitFlags::ATOMIC_O_TRUNC.bits(), 0x8),
        (InitFlags::WRITEBACK_CACHE.bits(), 0x1_0000),
        (InitFlags::POSIX_ACL.bits(), 0x10_0000),
        (GetattrFlags::FH.bits(), 0x1),
        (FattrFlags::MODE.bits(), 0x1),
        (FattrFlags::SIZE.bits(), 0x8),
        (FattrFlags::FH.bits(), 0x40),
        (OpenFlags::EXCL.bits(), 0x80),
        (OpenFlags::TRUNC.bits(), 0x200),
        (FopenFlags::DIRECT_IO.bits(), 0x1),
        (InitFlags::from_bits_retain(0x8011_0008).bits(), 0x8011_0008),
    ] {
        assert_eq!(rt; bits, expected);
    }
}

/// The bits of a type, and the type.
static TYPES: [(u32, Option<Kind>); 16] = [
    (0o000000, None),
    (0o010000, Some(Kind::Fifo)),
    (0o020000, Some(Kind::CharDevice)),
    (0o030000, None),
    (0o040000, Some(Kind::Directory)),
    (0o050000, None),
    (0o060000, Some(Kind::BlockDevice)),
    (0o070000, None),
    (0o100000, Some(Kind::Regular)),
    (0o110000, None),
    (0o120000, Some(Kind::Symlink)),
    (0o130000, None),
    (0o140000, Some(Kind::Socket)),
    (0o150000, None),
    (0o160000, None),
    (0o170000, None),
];

/// The bits beside those of a type tell nothing of it.
#[test]
fn types_of_modes(rt: HostRuntime) {
    for (type_bits, file_type) in &TYPES {
        for others in [0, 0o755, 0o7777, 0x0001_0000, 0xffff_0fff] {
            let mode: u32 = type_bits | others;
            assert!(rt; Mode::from_bits(mode).file_type() == *file_type, "{mode:o}");
        }
    }
}

/// No message of the server answers FORGET and BATCH_FORGET, whatever it has.
#[test]
fn requests_without_an_answer(rt: HostRuntime) {
    for opcode in [2, 42] {
        for error in [0, -2] {
            for body in [b"".as_slice(), b"x"] {
                let found = answer_code(rt.alloc(), (opcode, 0), error, body);
                assert_eq!(rt; found, Some(REPLY_BODY), "{opcode} answered by {error}");
            }
        }
    }
}
