//! Captures for tests, from short calls. No part of the product rests on this crate.
//!
//! Each call of a [`Sample`] adds one message. Memory that is refused to a call is told by
//! [`Sample::capture`] at the end. Whatever a call does not name is 0, but for these:
//! the lengths of records and headers, the size of a WRITE, the count of a BATCH_FORGET and the
//! length of a name in a listing are those of what is written; INIT has version 7.31 in both
//! messages, and its answer has 64 bytes of body; CREATE has the flags 0x42, which are O_RDWR and
//! O_CREAT, the mode of a regular file with the bits 644 and the umask 022; MKDIR has the bits 755
//! and the umask 022. The capture of one LOOKUP that is refused with ENOENT, 222 bytes:
//!
//! ```
//! let bytes = Sample::new(alloc)
//!     .init(2)
//!     .init_answer(2)
//!     .lookup(4, 1, b"a")
//!     .error(4, -2)
//!     .capture()?;
//! ```
//!
//! The first line of a call's comment spells its message in short: `>` is a request and `<` a reply,
//! `uU` its unique U, and N the node of a request.
#![tactic(auto)]

use Field::{Bytes, Name, U32, U64, Zeros};
use bitflags::Flags;
use fa_bodies::{
    Attributes, EntryOut, FattrFlags, FopenFlags, GetattrFlags, InitFlags, Mode, OpenFlags,
    SetattrIn, opcodes,
};
use fa_capture::Direction;
use std::alloc::{AllocError, Global};

/// The type of a pipe with a name, in `mode`.
pub const FIFO: u32 = 0o010000;
/// The type of a character device, in `mode`.
pub const CHR: u32 = 0o020000;
/// The type of a directory, in `mode`.
pub const DIR: u32 = 0o040000;
/// The type of a block device, in `mode`.
pub const BLK: u32 = 0o060000;
/// The type of a regular file, in `mode`.
pub const REG: u32 = 0o100000;
/// The type of a symbolic link, in `mode`.
pub const LNK: u32 = 0o120000;
/// The type of a socket, in `mode`.
pub const SOCK: u32 = 0o140000;

/// A part of a body.
#[derive(Clone, Copy, Debug)]
pub enum Field<'a> {
    U32(u32),
    U64(u64),
    /// So many zero bytes.
    Zeros(usize),
    /// A name or a target, and the zero byte behind it.
    Name(&'a [u8]),
    /// Bytes as they are.
    Bytes(&'a [u8]),
}

/// An entry of a listing: a name, the place behind it, and the type of its file, which is the type in
/// `mode` divided by 4,096, as 8 for a regular file.
#[derive(Clone, Copy, Debug)]
pub struct Listed<'a> {
    pub name: &'a [u8],
    pub off: u64,
    pub file_type: u32,
}

/// A capture that grows by a message with each call.
#[derive(Drop)]
pub struct Sample {
    alloc: Global,
    /// The bytes so far, unless memory was refused to a call.
    bytes: Result<Vec<u8>, AllocError>,
}

impl Sample {
    /// A capture with no message.
    pub fn new(alloc: Global) -> Sample {
        Sample {
            alloc,
            bytes: Vec::from_slice(alloc, b"FUSECAP1"),
        }
    }

    /// The bytes of the capture.
    ///
    /// # Errors
    ///
    /// [`AllocError`] where memory was refused to any call of this sample.
    pub fn capture(self) -> Result<Vec<u8>, AllocError> {
        self.bytes
    }

    /// Adds a message with these bytes.
    pub fn raw(mut self, direction: Direction, message: &[u8]) -> Sample {
        self.bytes = self
            .bytes
            .and_then(|bytes| with_record(bytes, direction, message));
        self
    }

    /// Adds a message, where there was memory for it.
    fn message(mut self, direction: Direction, message: Result<Vec<u8>, AllocError>) -> Sample {
        self.bytes = self
            .bytes
            .and_then(|bytes| with_record(bytes, direction, &message?));
        self
    }

    /// Adds a request: `> uU OPCODE N` with this body.
    pub fn request(self, unique: u64, opcode: u32, node: u64, body: &[u8]) -> Sample {
        let message = request_bytes(self.alloc, unique, opcode, node, body);
        self.message(Direction::ToServer, message)
    }

    /// Adds a request with this body, where there was memory for it.
    fn request_with(
        self,
        unique: u64,
        opcode: u32,
        node: u64,
        body: Result<Vec<u8>, AllocError>,
    ) -> Sample {
        let alloc = self.alloc;
        let message = body.and_then(|body| request_bytes(alloc, unique, opcode, node, &body));
        self.message(Direction::ToServer, message)
    }

    /// Adds a request: `> uU OPCODE N` with a body of these fields.
    pub fn request_of(self, unique: u64, opcode: u32, node: u64, fields: &[Field<'_>]) -> Sample {
        let body = spelled(self.alloc, fields);
        self.request_with(unique, opcode, node, body)
    }

    /// Adds a message from the server: `< uU` with this error and body.
    pub fn reply(self, unique: u64, error: i32, body: &[u8]) -> Sample {
        let message = reply_bytes(self.alloc, unique, error, body);
        self.message(Direction::FromServer, message)
    }

    /// Adds a success with this body, where there was memory for it.
    fn success_with(self, unique: u64, body: Result<Vec<u8>, AllocError>) -> Sample {
        let alloc = self.alloc;
        let message = body.and_then(|body| reply_bytes(alloc, unique, 0, &body));
        self.message(Direction::FromServer, message)
    }

    /// Adds a success: `< uU` with a body of these fields.
    pub fn success_of(self, unique: u64, fields: &[Field<'_>]) -> Sample {
        let body = spelled(self.alloc, fields);
        self.success_with(unique, body)
    }

    /// `> uU INIT` of version 7.31 without flags.
    pub fn init(self, unique: u64) -> Sample {
        self.init_with(unique, 7, 31, InitFlags::empty())
    }

    /// `> uU INIT major J minor M flags F`
    pub fn init_with(self, unique: u64, major: u32, minor: u32, flags: InitFlags) -> Sample {
        let body = init_bytes(self.alloc, major, minor, flags, 16);
        self.request_with(unique, opcodes::INIT, 0, body)
    }

    /// `> uU LOOKUP N name`
    pub fn lookup(self, unique: u64, node: u64, name: &[u8]) -> Sample {
        self.request_of(unique, opcodes::LOOKUP, node, &[Name(name)])
    }

    /// `> uU FORGET N nlookup L`
    pub fn forget(self, unique: u64, node: u64, nlookup: u64) -> Sample {
        self.request_of(unique, opcodes::FORGET, node, &[U64(nlookup)])
    }

    /// `> uU BATCH_FORGET 0` with these items, each a node id and how many lookups it loses.
    pub fn batch_forget(self, unique: u64, items: &[(u64, u64)]) -> Sample {
        let body = batch_forget_bytes(self.alloc, items);
        self.request_with(unique, opcodes::BATCH_FORGET, 0, body)
    }

    /// `> uU GETATTR N`
    pub fn getattr(self, unique: u64, node: u64) -> Sample {
        self.getattr_with(unique, node, GetattrFlags::empty(), 0)
    }

    /// `> uU GETATTR N flags F fh H`
    pub fn getattr_with(self, unique: u64, node: u64, flags: GetattrFlags, fh: u64) -> Sample {
        self.request_of(
            unique,
            opcodes::GETATTR,
            node,
            &[U32(flags.bits()), Zeros(4), U64(fh)],
        )
    }

    /// `> uU SETATTR N size S`, of which the size alone counts.
    pub fn setattr_size(self, unique: u64, node: u64, size: u64) -> Sample {
        let wanted = SetattrIn {
            valid: FattrFlags::SIZE,
            size,
            ..no_attributes()
        };
        self.setattr(unique, node, &wanted)
    }

    /// `> uU SETATTR N` with these attributes.
    pub fn setattr(self, unique: u64, node: u64, wanted: &SetattrIn) -> Sample {
        let body = setattr_bytes(self.alloc, wanted);
        self.request_with(unique, opcodes::SETATTR, node, body)
    }

    /// `> uU READLINK N`
    pub fn readlink(self, unique: u64, node: u64) -> Sample {
        self.request(unique, opcodes::READLINK, node, &[])
    }

    /// `> uU SYMLINK N name target`
    pub fn symlink(self, unique: u64, node: u64, name: &[u8], target: &[u8]) -> Sample {
        self.request_of(unique, opcodes::SYMLINK, node, &[Name(name), Name(target)])
    }

    /// `> uU MKNOD N name T B`. `mode` is the type and the bits, as `FIFO | 0o644`.
    pub fn mknod(self, unique: u64, node: u64, mode: u32, name: &[u8]) -> Sample {
        self.request_of(
            unique,
            opcodes::MKNOD,
            node,
            &[U32(mode), Zeros(12), Name(name)],
        )
    }

    /// `> uU MKDIR N name`
    pub fn mkdir(self, unique: u64, node: u64, name: &[u8]) -> Sample {
        self.request_of(
            unique,
            opcodes::MKDIR,
            node,
            &[U32(0o755), U32(0o022), Name(name)],
        )
    }

    /// `> uU CREATE N name`
    pub fn create(self, unique: u64, node: u64, name: &[u8]) -> Sample {
        let flags = OpenFlags::from_bits_retain(0x42);
        self.create_with(unique, node, flags, REG | 0o644, name)
    }

    /// `> uU CREATE N name flags F T B`. `mode` is the type and the bits.
    pub fn create_with(
        self,
        unique: u64,
        node: u64,
        flags: OpenFlags,
        mode: u32,
        name: &[u8],
    ) -> Sample {
        self.request_of(
            unique,
            opcodes::CREATE,
            node,
            &[
                U32(flags.bits()),
                U32(mode),
                U32(0o022),
                Zeros(4),
                Name(name),
            ],
        )
    }

    /// `> uU UNLINK N name`
    pub fn unlink(self, unique: u64, node: u64, name: &[u8]) -> Sample {
        self.request_of(unique, opcodes::UNLINK, node, &[Name(name)])
    }

    /// `> uU RMDIR N name`
    pub fn rmdir(self, unique: u64, node: u64, name: &[u8]) -> Sample {
        self.request_of(unique, opcodes::RMDIR, node, &[Name(name)])
    }

    /// `> uU RENAME N old to M new`
    pub fn rename<'a>(
        self,
        unique: u64,
        node: u64,
        old_name: &'a [u8],
        newdir: u64,
        new_name: &'a [u8],
    ) -> Sample {
        self.request_of(
            unique,
            opcodes::RENAME,
            node,
            &[U64(newdir), Name(old_name), Name(new_name)],
        )
    }

    /// `> uU RENAME2 N old flags F to M new`
    pub fn rename2<'a>(
        self,
        unique: u64,
        node: u64,
        old_name: &'a [u8],
        flags: u32,
        newdir: u64,
        new_name: &'a [u8],
    ) -> Sample {
        self.request_of(
            unique,
            opcodes::RENAME2,
            node,
            &[
                U64(newdir),
                U32(flags),
                Zeros(4),
                Name(old_name),
                Name(new_name),
            ],
        )
    }

    /// `> uU LINK N name oldnodeid M`: the file of M gets this name in the directory N.
    pub fn link(self, unique: u64, node: u64, new_name: &[u8], oldnodeid: u64) -> Sample {
        self.request_of(
            unique,
            opcodes::LINK,
            node,
            &[U64(oldnodeid), Name(new_name)],
        )
    }

    /// `> uU OPEN N`
    pub fn open(self, unique: u64, node: u64) -> Sample {
        self.open_with(unique, node, OpenFlags::empty())
    }

    /// `> uU OPEN N flags F`
    pub fn open_with(self, unique: u64, node: u64, flags: OpenFlags) -> Sample {
        self.request_of(unique, opcodes::OPEN, node, &[U32(flags.bits()), Zeros(4)])
    }

    /// `> uU OPENDIR N`
    pub fn opendir(self, unique: u64, node: u64) -> Sample {
        self.request_of(unique, opcodes::OPENDIR, node, &[Zeros(8)])
    }

    /// `> uU READ N fh H off O size S`
    pub fn read(self, unique: u64, node: u64, fh: u64, offset: u64, size: u32) -> Sample {
        self.request_of(unique, opcodes::READ, node, &reading(fh, offset, size))
    }

    /// `> uU READDIR N fh H off O size S`
    pub fn readdir(self, unique: u64, node: u64, fh: u64, offset: u64, size: u32) -> Sample {
        self.request_of(unique, opcodes::READDIR, node, &reading(fh, offset, size))
    }

    /// `> uU READDIRPLUS N fh H off O size S`
    pub fn readdirplus(self, unique: u64, node: u64, fh: u64, offset: u64, size: u32) -> Sample {
        self.request_of(
            unique,
            opcodes::READDIRPLUS,
            node,
            &reading(fh, offset, size),
        )
    }

    /// `> uU WRITE N fh H off O "data"`
    pub fn write(self, unique: u64, node: u64, fh: u64, offset: u64, data: &[u8]) -> Sample {
        self.request_of(
            unique,
            opcodes::WRITE,
            node,
            &[
                U64(fh),
                U64(offset),
                U32(len_of(data)),
                Zeros(20),
                Bytes(data),
            ],
        )
    }

    /// `> uU RELEASE N fh H`
    pub fn release(self, unique: u64, node: u64, fh: u64) -> Sample {
        self.request_of(unique, opcodes::RELEASE, node, &closing(fh))
    }

    /// `> uU RELEASEDIR N fh H`
    pub fn releasedir(self, unique: u64, node: u64, fh: u64) -> Sample {
        self.request_of(unique, opcodes::RELEASEDIR, node, &closing(fh))
    }

    /// `> uU FLUSH N fh H`
    pub fn flush(self, unique: u64, node: u64, fh: u64) -> Sample {
        self.request_of(unique, opcodes::FLUSH, node, &closing(fh))
    }

    /// `< uU -E`, where the error is `-E`.
    pub fn error(self, unique: u64, error: i32) -> Sample {
        self.reply(unique, error, &[])
    }

    /// `< uU ok`
    pub fn ok(self, unique: u64) -> Sample {
        self.reply(unique, 0, &[])
    }

    /// `< uU init` of version 7.31 without flags.
    pub fn init_answer(self, unique: u64) -> Sample {
        self.init_answer_with(unique, 7, 31, InitFlags::empty(), 64)
    }

    /// `< uU init major J minor M flags F` with a body of this length.
    pub fn init_answer_with(
        self,
        unique: u64,
        major: u32,
        minor: u32,
        flags: InitFlags,
        body_len: usize,
    ) -> Sample {
        let body = init_bytes(self.alloc, major, minor, flags, body_len);
        self.success_with(unique, body)
    }

    /// `< uU entry X T B size S nlink L`. `mode` is the type and the bits, as `DIR | 0o755`.
    pub fn entry(self, unique: u64, nodeid: u64, mode: u32, size: u64, nlink: u32) -> Sample {
        let body = entry_bytes(self.alloc, &entry_out(nodeid, mode, size, nlink));
        self.success_with(unique, body)
    }

    /// `< uU created X T B size S nlink L fh H`. `mode` is the type and the bits.
    pub fn created(
        self,
        unique: u64,
        nodeid: u64,
        mode: u32,
        size: u64,
        nlink: u32,
        fh: u64,
    ) -> Sample {
        let entry = entry_out(nodeid, mode, size, nlink);
        let body = created_bytes(self.alloc, &entry, fh);
        self.success_with(unique, body)
    }

    /// `< uU attr T B size S nlink L`. `mode` is the type and the bits.
    pub fn attr(self, unique: u64, mode: u32, size: u64, nlink: u32) -> Sample {
        let body = attr_bytes(self.alloc, &attributes(mode, size, nlink));
        self.success_with(unique, body)
    }

    /// `< uU opened fh H`
    pub fn opened(self, unique: u64, fh: u64) -> Sample {
        self.opened_with(unique, fh, FopenFlags::empty())
    }

    /// `< uU opened fh H flags F`
    pub fn opened_with(self, unique: u64, fh: u64, flags: FopenFlags) -> Sample {
        self.success_of(unique, &[U64(fh), U32(flags.bits()), Zeros(4)])
    }

    /// `< uU written S`
    pub fn written(self, unique: u64, size: u32) -> Sample {
        self.success_of(unique, &[U32(size), Zeros(4)])
    }

    /// `< uU "data"`: what READ or READLINK gives.
    pub fn data(self, unique: u64, data: &[u8]) -> Sample {
        self.reply(unique, 0, data)
    }

    /// `< uU [name off O type T, ..]`: what READDIR gives.
    pub fn listing(self, unique: u64, entries: &[Listed<'_>]) -> Sample {
        let body = listing_bytes(self.alloc, entries);
        self.success_with(unique, body)
    }

    /// `< uU [entry X T B name off O type T, ..]`: what READDIRPLUS gives.
    pub fn listing_plus(self, unique: u64, entries: &[(EntryOut, Listed<'_>)]) -> Sample {
        let body = listing_plus_bytes(self.alloc, entries);
        self.success_with(unique, body)
    }
}

/// The bytes of a capture with one more record behind them.
fn with_record(
    mut bytes: Vec<u8>,
    direction: Direction,
    message: &[u8],
) -> Result<Vec<u8>, AllocError> {
    bytes.push(match direction {
        Direction::ToServer => 0,
        Direction::FromServer => 1,
    })?;
    put(&mut bytes, &[U32(len_of(message)), Bytes(message)])?;
    Ok(bytes)
}

/// The fields one after the other.
pub fn spelled(alloc: Global, fields: &[Field<'_>]) -> Result<Vec<u8>, AllocError> {
    let mut bytes = Vec::new(alloc);
    put(&mut bytes, fields)?;
    Ok(bytes)
}

/// The bytes of a request.
pub fn request_bytes(
    alloc: Global,
    unique: u64,
    opcode: u32,
    node: u64,
    body: &[u8],
) -> Result<Vec<u8>, AllocError> {
    let len = len_of(body).saturating_add(40);
    let fields = [
        U32(len),
        U32(opcode),
        U64(unique),
        U64(node),
        Zeros(16),
        Bytes(body),
    ];
    spelled(alloc, &fields)
}

/// The bytes of a message from the server.
pub fn reply_bytes(
    alloc: Global,
    unique: u64,
    error: i32,
    body: &[u8],
) -> Result<Vec<u8>, AllocError> {
    let len = len_of(body).saturating_add(16);
    let fields = [
        U32(len),
        U32(error.cast_unsigned()),
        U64(unique),
        Bytes(body),
    ];
    spelled(alloc, &fields)
}

/// The first `len` bytes of the body of INIT or of its answer, zeros behind the fields.
pub fn init_bytes(
    alloc: Global,
    major: u32,
    minor: u32,
    flags: InitFlags,
    len: usize,
) -> Result<Vec<u8>, AllocError> {
    let mut body = spelled(alloc, &[U32(major), U32(minor), U32(0), U32(flags.bits())])?;
    body.resize(len, 0)?;
    Ok(body)
}

/// The body of a BATCH_FORGET.
fn batch_forget_bytes(alloc: Global, items: &[(u64, u64)]) -> Result<Vec<u8>, AllocError> {
    let count = u32::try_from(items.len()).unwrap_or(u32::MAX);
    let mut body = spelled(alloc, &[U32(count), Zeros(4)])?;
    for (nodeid, nlookup) in items {
        put(&mut body, &[U64(*nodeid), U64(*nlookup)])?;
    }
    Ok(body)
}

/// A SETATTR that changes nothing.
fn no_attributes() -> SetattrIn {
    SetattrIn {
        valid: FattrFlags::empty(),
        fh: 0,
        size: 0,
        lock_owner: 0,
        atime: 0,
        mtime: 0,
        ctime: 0,
        atimensec: 0,
        mtimensec: 0,
        ctimensec: 0,
        mode: Mode::from_bits(0),
        uid: 0,
        gid: 0,
    }
}

/// The body of a SETATTR.
fn setattr_bytes(alloc: Global, wanted: &SetattrIn) -> Result<Vec<u8>, AllocError> {
    let fields = [
        U32(wanted.valid.bits()),
        Zeros(4),
        U64(wanted.fh),
        U64(wanted.size),
        U64(wanted.lock_owner),
        U64(wanted.atime),
        U64(wanted.mtime),
        U64(wanted.ctime),
        U32(wanted.atimensec),
        U32(wanted.mtimensec),
        U32(wanted.ctimensec),
        U32(wanted.mode.bits()),
        Zeros(4),
        U32(wanted.uid),
        U32(wanted.gid),
        Zeros(4),
    ];
    spelled(alloc, &fields)
}

/// An entry of this node. `mode` is the type and the bits.
pub fn entry_out(nodeid: u64, mode: u32, size: u64, nlink: u32) -> EntryOut {
    EntryOut {
        nodeid,
        attr: attributes(mode, size, nlink),
        ..EntryOut::default()
    }
}

/// The bytes of an entry.
fn entry_bytes(alloc: Global, entry: &EntryOut) -> Result<Vec<u8>, AllocError> {
    let mut body = Vec::new(alloc);
    put_entry(&mut body, entry)?;
    Ok(body)
}

/// The body of a success of CREATE.
fn created_bytes(alloc: Global, entry: &EntryOut, fh: u64) -> Result<Vec<u8>, AllocError> {
    let mut body = entry_bytes(alloc, entry)?;
    put(&mut body, &[U64(fh), Zeros(8)])?;
    Ok(body)
}

/// The body of a success of GETATTR or SETATTR.
fn attr_bytes(alloc: Global, attr: &Attributes) -> Result<Vec<u8>, AllocError> {
    let mut body = spelled(alloc, &[Zeros(16)])?;
    put_attributes(&mut body, attr)?;
    Ok(body)
}

/// What READDIR gives.
fn listing_bytes(alloc: Global, entries: &[Listed<'_>]) -> Result<Vec<u8>, AllocError> {
    let mut body = Vec::new(alloc);
    for listed in entries {
        put_listed(&mut body, listed)?;
    }
    Ok(body)
}

/// What READDIRPLUS gives.
fn listing_plus_bytes(
    alloc: Global,
    entries: &[(EntryOut, Listed<'_>)],
) -> Result<Vec<u8>, AllocError> {
    let mut body = Vec::new(alloc);
    for (entry, listed) in entries {
        put_entry(&mut body, entry)?;
        put_listed(&mut body, listed)?;
    }
    Ok(body)
}

fn attributes(mode: u32, size: u64, nlink: u32) -> Attributes {
    Attributes {
        mode: Mode::from_bits(mode),
        size,
        nlink,
        ..Attributes::default()
    }
}

/// The fields of READ, READDIR and READDIRPLUS.
fn reading(fh: u64, offset: u64, size: u32) -> [Field<'static>; 4] {
    [U64(fh), U64(offset), U32(size), Zeros(20)]
}

/// The fields of RELEASE, RELEASEDIR and FLUSH.
fn closing(fh: u64) -> [Field<'static>; 2] {
    [U64(fh), Zeros(16)]
}

fn put_entry(out: &mut Vec<u8>, entry: &EntryOut) -> Result<(), AllocError> {
    let fields = [
        U64(entry.nodeid),
        U64(entry.generation),
        U64(entry.entry_valid),
        U64(entry.attr_valid),
        U32(entry.entry_valid_nsec),
        U32(entry.attr_valid_nsec),
    ];
    put(out, &fields)?;
    put_attributes(out, &entry.attr)
}

fn put_attributes(out: &mut Vec<u8>, attr: &Attributes) -> Result<(), AllocError> {
    let fields = [
        U64(attr.ino),
        U64(attr.size),
        U64(attr.blocks),
        U64(attr.atime),
        U64(attr.mtime),
        U64(attr.ctime),
        U32(attr.atimensec),
        U32(attr.mtimensec),
        U32(attr.ctimensec),
        U32(attr.mode.bits()),
        U32(attr.nlink),
        U32(attr.uid),
        U32(attr.gid),
        U32(attr.rdev),
        U32(attr.blksize),
        Zeros(4),
    ];
    put(out, &fields)
}

/// An entry of a listing, padded to a multiple of 8 bytes.
fn put_listed(out: &mut Vec<u8>, listed: &Listed<'_>) -> Result<(), AllocError> {
    let fields = [
        U64(0),
        U64(listed.off),
        U32(len_of(listed.name)),
        U32(listed.file_type),
        Bytes(listed.name),
        Zeros((8 - listed.name.len() % 8) % 8),
    ];
    put(out, &fields)
}

fn put(out: &mut Vec<u8>, fields: &[Field<'_>]) -> Result<(), AllocError> {
    for field in fields {
        match *field {
            U32(number) => out.extend_from_slice(&number.to_le_bytes())?,
            U64(number) => out.extend_from_slice(&number.to_le_bytes())?,
            Zeros(count) => out.resize(out.len().saturating_add(count), 0)?,
            Name(name) => {
                out.extend_from_slice(name)?;
                out.push(0)?;
            }
            Bytes(bytes) => out.extend_from_slice(bytes)?,
        }
    }
    Ok(())
}

/// The length of bytes as a field. A test has no longer ones.
fn len_of(bytes: &[u8]) -> u32 {
    u32::try_from(bytes.len()).unwrap_or(u32::MAX)
}
