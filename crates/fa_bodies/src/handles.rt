//! What requests on open files and directories say, and what is answered.

ghost use Rattle.std.specs.Prelude.{refl};
ghost use Rattle.fa_bodies.specs.Structs.{open_in, read_in, write_in, release_in, flush_in, open_out, write_out};

use crate::block::Block;
use crate::fields::{skip, u32_at, u64_at};
use crate::flags::{FopenFlags, OpenFlags};
use bitflags::Flags;

/// How a file or directory is opened (`struct fuse_open_in`).
#[derive(Clone, Copy, Debug)]
pub struct OpenIn {
    pub flags: OpenFlags,
}

/// Which bytes of a file, or which entries of a directory, are read (`struct fuse_read_in`): `size` bytes at most, from
/// `offset` on.
#[derive(Clone, Copy, Debug)]
pub struct ReadIn {
    pub fh: u64,
    pub offset: u64,
    pub size: u32,
    pub read_flags: u32,
    pub lock_owner: u64,
    pub flags: OpenFlags,
}

/// Which bytes of a file are written (`struct fuse_write_in`).
#[derive(Clone, Copy)]
pub(crate) struct WriteIn {
    pub fh: u64,
    pub offset: u64,
    pub size: u32,
    pub write_flags: u32,
    pub lock_owner: u64,
    pub flags: OpenFlags,
}

/// Which handle is closed for good (`struct fuse_release_in`).
#[derive(Clone, Copy, Debug)]
pub struct ReleaseIn {
    pub fh: u64,
    pub flags: OpenFlags,
    pub release_flags: u32,
    pub lock_owner: u64,
}

/// Of which handle a descriptor was closed (`struct fuse_flush_in`).
#[derive(Clone, Copy, Debug)]
pub struct FlushIn {
    pub fh: u64,
    pub lock_owner: u64,
}

/// An open handle (`struct fuse_open_out`), and how the kernel may use it.
#[derive(Clone, Copy, Debug)]
pub struct OpenOut {
    pub fh: u64,
    pub open_flags: FopenFlags,
}

/// How many bytes were written (`struct fuse_write_out`).
#[derive(Clone, Copy)]
pub(crate) struct WriteOut {
    pub size: u32,
}

impl Block for OpenIn {
    const LEN: usize = 8;

    ghost LEN = { 8 };

    ghost fields = { open_in };

    fn at(bytes: &[u8]) -> (OpenIn, &[u8]) {
        let (flags, rest) = u32_at(bytes);
        let rest = skip(rest, 4);
        let flags = OpenFlags::from_bits_retain(flags);
        (OpenIn { flags }, rest)
    }

    ghost sized = { λ block. refl };
}

impl Block for ReadIn {
    const LEN: usize = 40;

    ghost LEN = { 40 };

    ghost fields = { read_in };

    fn at(bytes: &[u8]) -> (ReadIn, &[u8]) {
        let (fh, rest) = u64_at(bytes);
        let (offset, rest) = u64_at(rest);
        let (size, rest) = u32_at(rest);
        let (read_flags, rest) = u32_at(rest);
        let (lock_owner, rest) = u64_at(rest);
        let (flags, rest) = u32_at(rest);
        let rest = skip(rest, 4);
        let read = ReadIn {
            fh,
            offset,
            size,
            read_flags,
            lock_owner,
            flags: OpenFlags::from_bits_retain(flags),
        };
        (read, rest)
    }

    ghost sized = { λ block. refl };
}

impl Block for WriteIn {
    const LEN: usize = 40;

    ghost LEN = { 40 };

    ghost fields = { λ w. write_in w.fh w.offset w.size w.write_flags w.lock_owner w.flags };

    fn at(bytes: &[u8]) -> (WriteIn, &[u8]) {
        let (fh, rest) = u64_at(bytes);
        let (offset, rest) = u64_at(rest);
        let (size, rest) = u32_at(rest);
        let (write_flags, rest) = u32_at(rest);
        let (lock_owner, rest) = u64_at(rest);
        let (flags, rest) = u32_at(rest);
        let rest = skip(rest, 4);
        let write = WriteIn {
            fh,
            offset,
            size,
            write_flags,
            lock_owner,
            flags: OpenFlags::from_bits_retain(flags),
        };
        (write, rest)
    }

    ghost sized = { λ block. refl };
}

impl Block for ReleaseIn {
    const LEN: usize = 24;

    ghost LEN = { 24 };

    ghost fields = { release_in };

    fn at(bytes: &[u8]) -> (ReleaseIn, &[u8]) {
        let (fh, rest) = u64_at(bytes);
        let (flags, rest) = u32_at(rest);
        let (release_flags, rest) = u32_at(rest);
        let (lock_owner, rest) = u64_at(rest);
        let release = ReleaseIn {
            fh,
            flags: OpenFlags::from_bits_retain(flags),
            release_flags,
            lock_owner,
        };
        (release, rest)
    }

    ghost sized = { λ block. refl };
}

impl Block for FlushIn {
    const LEN: usize = 24;

    ghost LEN = { 24 };

    ghost fields = { flush_in };

    fn at(bytes: &[u8]) -> (FlushIn, &[u8]) {
        let (fh, rest) = u64_at(bytes);
        let rest = skip(rest, 8);
        let (lock_owner, rest) = u64_at(rest);
        (FlushIn { fh, lock_owner }, rest)
    }

    ghost sized = { λ block. refl };
}

impl Block for OpenOut {
    const LEN: usize = 16;

    ghost LEN = { 16 };

    ghost fields = { open_out };

    fn at(bytes: &[u8]) -> (OpenOut, &[u8]) {
        let (fh, rest) = u64_at(bytes);
        let (flags, rest) = u32_at(rest);
        let rest = skip(rest, 4);
        let open = OpenOut {
            fh,
            open_flags: FopenFlags::from_bits_retain(flags),
        };
        (open, rest)
    }

    ghost sized = { λ block. refl };
}

impl Block for WriteOut {
    const LEN: usize = 8;

    ghost LEN = { 8 };

    ghost fields = { λ w. write_out w.size };

    fn at(bytes: &[u8]) -> (WriteOut, &[u8]) {
        let (size, rest) = u32_at(bytes);
        let rest = skip(rest, 4);
        (WriteOut { size }, rest)
    }

    ghost sized = { λ block. refl };
}
