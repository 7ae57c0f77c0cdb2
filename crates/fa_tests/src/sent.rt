//! Messages as plain data, for tables. Names of files are `a` or `b`.

use Sent::*;
use bitflags::Flags;
use fa_bodies::{FopenFlags, GetattrFlags, OpenFlags, ROOT_ID, opcodes};
use fa_sample::Field::{U32, U64, Zeros};
use fa_sample::{DIR, Listed, REG, Sample, entry_out};

/// `O_RDWR | O_CREAT` of POSIX `open`.
pub const CREAT: u32 = 0x42;

/// Entries of a listing by name and place, at most five, all of regular files.
pub type Entries = &'static [(&'static str, u64)];

/// A message. The first number is its unique, but of a notification its code; the second of a request is its node.
#[derive(Clone, Copy)]
pub enum Sent {
    Init(u64),
    Lookup(u64, u64),
    /// So many lookups.
    Forget(u64, u64, u64),
    BatchForget(u64, &'static [(u64, u64)]),
    /// With these flags and this file handle.
    Getattr(u64, u64, u32, u64),
    Setattr(u64, u64, u32, u64),
    Readlink(u64, u64),
    /// Read by their headers alone.
    Getxattr(u64, u64),
    Interrupt(u64, u64),
    Symlink(u64, u64),
    Mknod(u64, u64),
    Mkdir(u64, u64),
    Unlink(u64, u64),
    Rmdir(u64, u64),
    /// To this directory.
    Rename(u64, u64, u64),
    /// With these flags, to this directory.
    Rename2(u64, u64, u32, u64),
    /// Of this file.
    Link(u64, u64, u64),
    /// With these flags.
    Open(u64, u64, u32),
    Create(u64, u64, u32),
    Opendir(u64, u64),
    /// From this file handle.
    Read(u64, u64, u64),
    /// From this file handle, at this offset.
    Readdir(u64, u64, u64, u64),
    Readdirplus(u64, u64, u64, u64),
    /// Of one byte `x` to this file handle, at this offset.
    Write(u64, u64, u64, u64),
    Release(u64, u64, u64),
    Releasedir(u64, u64, u64),
    Flush(u64, u64, u64),
    /// LOOKUP of a name without bytes.
    NoName(u64, u64),
    InitAnswer(u64),
    Error(u64, i32),
    Done(u64),
    /// A regular file of this node without bytes, with one link, and a directory.
    Entry(u64, u64),
    Directory(u64, u64),
    /// A regular file of this node, and this file handle.
    Created(u64, u64, u64),
    /// A regular file without bytes, with one link.
    Attr(u64),
    /// This file handle, with these flags.
    Opened(u64, u64, u32),
    Written(u64),
    /// What READDIR gives.
    Dirents(u64, Entries),
    /// What READDIRPLUS gives, each entry with this node.
    DirentsPlus(u64, u64, Entries),
    /// What READDIRPLUS gives: `.` and `..` with the node 1, `a` and `b` with these nodes.
    DirentsOfTwo(u64, u64, u64),
    /// A success of these bytes.
    Success(u64, &'static [u8]),
    /// INVAL_INODE and others by their codes, and one with this body.
    Notice(i32),
    NoticeOf(i32, &'static [u8]),
}

/// A capture and a message behind its last one.
pub fn with(sample: Sample, message: Sent) -> Sample {
    match message {
        Init(unique) => sample.init(unique),
        Lookup(unique, node) => sample.lookup(unique, node, b"a"),
        Forget(unique, node, nlookup) => sample.forget(unique, node, nlookup),
        BatchForget(unique, items) => sample.batch_forget(unique, items),
        Getattr(unique, node, flags, fh) => with_getattr(sample, unique, node, flags, fh),
        Setattr(unique, node, flags, fh) => with_setattr(sample, unique, node, flags, fh),
        Readlink(unique, node) => sample.readlink(unique, node),
        Getxattr(unique, node) => sample.request(unique, opcodes::GETXATTR, node, b""),
        Interrupt(unique, node) => sample.request(unique, opcodes::INTERRUPT, node, b""),
        Symlink(unique, node) => sample.symlink(unique, node, b"a", b"b"),
        Mknod(unique, node) => sample.mknod(unique, node, REG | 0o644, b"a"),
        Mkdir(unique, node) => sample.mkdir(unique, node, b"a"),
        Unlink(unique, node) => sample.unlink(unique, node, b"a"),
        Rmdir(unique, node) => sample.rmdir(unique, node, b"a"),
        Rename(unique, node, newdir) => sample.rename(unique, node, b"a", newdir, b"b"),
        Rename2(unique, node, flags, newdir) => {
            sample.rename2(unique, node, b"a", flags, newdir, b"b")
        }
        Link(unique, node, old) => sample.link(unique, node, b"b", old),
        Open(unique, node, flags) => with_open(sample, unique, node, flags),
        Create(unique, node, flags) => with_create(sample, unique, node, flags),
        Opendir(unique, node) => sample.opendir(unique, node),
        Read(unique, node, fh) => sample.read(unique, node, fh, 0, 4096),
        Readdir(unique, node, fh, offset) => sample.readdir(unique, node, fh, offset, 4096),
        Readdirplus(unique, node, fh, offset) => sample.readdirplus(unique, node, fh, offset, 4096),
        Write(unique, node, fh, offset) => sample.write(unique, node, fh, offset, b"x"),
        Release(unique, node, fh) => sample.release(unique, node, fh),
        Releasedir(unique, node, fh) => sample.releasedir(unique, node, fh),
        Flush(unique, node, fh) => sample.flush(unique, node, fh),
        NoName(unique, node) => sample.lookup(unique, node, b""),
        InitAnswer(unique) => sample.init_answer(unique),
        Error(unique, error) => sample.error(unique, error),
        Done(unique) => sample.ok(unique),
        Entry(unique, node) => sample.entry(unique, node, REG | 0o644, 0, 1),
        Directory(unique, node) => sample.entry(unique, node, DIR | 0o755, 0, 2),
        Created(unique, node, fh) => sample.created(unique, node, REG | 0o644, 0, 1, fh),
        Attr(unique) => sample.attr(unique, REG | 0o644, 0, 1),
        Opened(unique, fh, flags) => with_opened(sample, unique, fh, flags),
        Written(unique) => sample.written(unique, 1),
        Dirents(unique, entries) => with_listing(sample, unique, entries),
        DirentsPlus(unique, node, entries) => with_listing_plus(sample, unique, node, entries),
        DirentsOfTwo(unique, a, b) => with_two(sample, unique, a, b),
        Success(unique, body) => sample.data(unique, body),
        Notice(code) => sample.error(0, code),
        NoticeOf(code, body) => sample.reply(0, code, body),
    }
}

/// A capture and these messages behind its last one.
pub fn with_all(mut sample: Sample, messages: &[Sent]) -> Sample {
    for message in messages {
        sample = with(sample, *message);
    }
    sample
}

fn with_getattr(sample: Sample, unique: u64, node: u64, flags: u32, fh: u64) -> Sample {
    sample.getattr_with(unique, node, GetattrFlags::from_bits_retain(flags), fh)
}

fn with_setattr(sample: Sample, unique: u64, node: u64, flags: u32, fh: u64) -> Sample {
    let fields = [U32(flags), Zeros(4), U64(fh), Zeros(72)];
    sample.request_of(unique, opcodes::SETATTR, node, &fields)
}

fn with_open(sample: Sample, unique: u64, node: u64, flags: u32) -> Sample {
    sample.open_with(unique, node, OpenFlags::from_bits_retain(flags))
}

fn with_create(sample: Sample, unique: u64, node: u64, flags: u32) -> Sample {
    let flags = OpenFlags::from_bits_retain(flags);
    sample.create_with(unique, node, flags, REG | 0o644, b"a")
}

fn with_opened(sample: Sample, unique: u64, fh: u64, flags: u32) -> Sample {
    sample.opened_with(unique, fh, FopenFlags::from_bits_retain(flags))
}

/// An entry of a file.
pub fn listed(name: &str, off: u64) -> Listed<'_> {
    Listed {
        name: name.as_bytes(),
        off,
        file_type: 8,
    }
}

/// The entry at this place, of a file, and one without a name behind the last.
fn nth(entries: Entries, place: usize) -> Listed<'static> {
    match entries.get(place) {
        Some((name, off)) => listed(name, *off),
        None => listed("", 0),
    }
}

/// The entries, and others behind them.
fn five(entries: Entries) -> [Listed<'static>; 5] {
    [
        nth(entries, 0),
        nth(entries, 1),
        nth(entries, 2),
        nth(entries, 3),
        nth(entries, 4),
    ]
}

fn with_listing(sample: Sample, unique: u64, entries: Entries) -> Sample {
    let five = five(entries);
    sample.listing(unique, five.get(..entries.len()).unwrap_or(&five))
}

fn with_listing_plus(sample: Sample, unique: u64, node: u64, entries: Entries) -> Sample {
    let entry = entry_out(node, REG | 0o644, 0, 1);
    let [a, b, c, d, e] = five(entries);
    let five = [(entry, a), (entry, b), (entry, c), (entry, d), (entry, e)];
    sample.listing_plus(unique, five.get(..entries.len()).unwrap_or(&five))
}

fn with_two(sample: Sample, unique: u64, a: u64, b: u64) -> Sample {
    let entries = [
        (entry_out(ROOT_ID, 0, 0, 0), listed(".", 1)),
        (entry_out(ROOT_ID, 0, 0, 0), listed("..", 1)),
        (entry_out(a, 0, 0, 0), listed("a", 1)),
        (entry_out(b, 0, 0, 0), listed("b", 1)),
    ];
    sample.listing_plus(unique, &entries)
}
