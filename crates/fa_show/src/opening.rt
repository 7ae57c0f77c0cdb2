//! Requests on open files, on attributes, and INIT.

use crate::text::Text;
use crate::words::{self, INIT_FLAGS, WRITE_FLAGS};
use bitflags::Flags;
use fa_bodies::{FattrFlags, GetattrFlags, GetattrIn, InitFlags, OpenFlags, SetattrIn};

// Which fields of a SETATTR count (`FATTR_` of `fuse.h`), beside those of `FattrFlags`.
const FATTR_UID: u32 = 1 << 1;

const FATTR_GID: u32 = 1 << 2;

const FATTR_ATIME: u32 = 1 << 4;

const FATTR_MTIME: u32 = 1 << 5;

const FATTR_ATIME_NOW: u32 = 1 << 7;

const FATTR_MTIME_NOW: u32 = 1 << 8;

const FATTR_CTIME: u32 = 1 << 10;

/// Writes whose attributes are asked for by a file handle.
pub(crate) fn getattr(text: &mut Text, getattr: &GetattrIn) {
    if getattr.getattr_flags.contains(GetattrFlags::FH) {
        text.field(" fh ", getattr.fh);
    }
}

/// Writes whose attributes are set by a file handle, and the size that is set.
pub(crate) fn setattr(text: &mut Text, setattr: &SetattrIn) {
    if setattr.valid.contains(FattrFlags::FH) {
        text.field(" fh ", setattr.fh);
    }
    if setattr.valid.contains(FattrFlags::SIZE) {
        text.field(" size ", setattr.size);
    }
}

/// Writes the other attributes that are set.
pub(crate) fn set(text: &mut Text, setattr: &SetattrIn) {
    if setattr.valid.contains(FattrFlags::MODE) {
        text.word(" ");
        words::mode(text, setattr.mode.bits());
    }
    set_owner(text, setattr);
    set_times(text, setattr);
}

/// Writes the owners that are set.
fn set_owner(text: &mut Text, setattr: &SetattrIn) {
    let valid = setattr.valid.bits();
    if valid & FATTR_UID != 0 {
        text.field(" uid ", u64::from(setattr.uid));
    }
    if valid & FATTR_GID != 0 {
        text.field(" gid ", u64::from(setattr.gid));
    }
}

/// Writes the times that are set.
fn set_times(text: &mut Text, setattr: &SetattrIn) {
    let valid = setattr.valid.bits();
    if valid & FATTR_ATIME != 0 {
        text.word(" atime ");
        time(
            text,
            valid & FATTR_ATIME_NOW != 0,
            setattr.atime,
            setattr.atimensec,
        );
    }
    if valid & FATTR_MTIME != 0 {
        text.word(" mtime ");
        time(
            text,
            valid & FATTR_MTIME_NOW != 0,
            setattr.mtime,
            setattr.mtimensec,
        );
    }
    if valid & FATTR_CTIME != 0 {
        text.word(" ctime ");
        time(text, false, setattr.ctime, setattr.ctimensec);
    }
}

/// Writes a time, in seconds and nanoseconds, or that it is now.
fn time(text: &mut Text, now: bool, seconds: u64, nanoseconds: u32) {
    if now {
        text.word("now");
    } else {
        text.number(seconds);
        text.word(".");
        text.padded(u64::from(nanoseconds), 9);
    }
}

/// Writes which bytes, or which entries, are read or written.
pub(crate) fn range(text: &mut Text, fh: u64, offset: u64, size: u32) {
    text.field(" fh ", fh);
    text.field(" offset ", offset);
    text.field(" size ", u64::from(size));
}

/// Writes how a file is opened.
pub(crate) fn flags(text: &mut Text, flags: OpenFlags) {
    text.word(" flags ");
    words::open_flags(text, flags.bits());
}

/// Writes the flags and the bytes of a WRITE.
pub(crate) fn payload(text: &mut Text, write_flags: u32, payload: &[u8]) {
    text.word(" ");
    if write_flags != 0 {
        words::flags(text, write_flags, &WRITE_FLAGS);
        text.word(" ");
    }
    text.data(payload);
}

/// Writes a version of the protocol.
pub(crate) fn version(text: &mut Text, major: u32, minor: u32) {
    text.field(" ", u64::from(major));
    text.field(".", u64::from(minor));
}

/// Writes what else INIT or its answer says.
pub(crate) fn init(text: &mut Text, max_readahead: u32, flags: InitFlags) {
    text.field(" max_readahead ", u64::from(max_readahead));
    text.word(" flags ");
    words::flags(text, flags.bits(), &INIT_FLAGS);
}
