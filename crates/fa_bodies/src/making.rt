//! What requests that give a file a name say before the name.

ghost use Rattle.std.specs.Prelude.{refl};
ghost use Rattle.fa_bodies.specs.Structs.{create_in, link_in, mkdir_in, mknod_in, rename_in, rename2_in};

use crate::block::Block;
use crate::fields::{skip, u32_at, u64_at};
use crate::flags::OpenFlags;
use crate::mode::Mode;
use bitflags::Flags;

/// The file that MKNOD makes (`struct fuse_mknod_in`).
#[derive(Clone, Copy)]
pub(crate) struct MknodIn {
    pub mode: Mode,
    pub rdev: u32,
    pub umask: u32,
}

/// The directory that MKDIR makes (`struct fuse_mkdir_in`).
#[derive(Clone, Copy)]
pub(crate) struct MkdirIn {
    pub mode: Mode,
    pub umask: u32,
}

/// The file that CREATE makes and how it is opened (`struct fuse_create_in`).
#[derive(Clone, Copy)]
pub(crate) struct CreateIn {
    pub flags: OpenFlags,
    pub mode: Mode,
    pub umask: u32,
}

/// Where RENAME moves a name (`struct fuse_rename_in`).
#[derive(Clone, Copy)]
pub(crate) struct RenameIn {
    pub newdir: u64,
}

/// The new directory of RENAME2, and its flags (`struct fuse_rename2_in`).
#[derive(Clone, Copy)]
pub(crate) struct Rename2In {
    pub newdir: u64,
    pub flags: u32,
}

/// Which file LINK gives a name (`struct fuse_link_in`).
#[derive(Clone, Copy)]
pub(crate) struct LinkIn {
    pub oldnodeid: u64,
}

impl Block for MknodIn {
    const LEN: usize = 16;

    ghost LEN = { 16 };

    ghost fields = { λ m. mknod_in m.mode m.rdev m.umask };

    fn at(bytes: &[u8]) -> (MknodIn, &[u8]) {
        let (mode, rest) = u32_at(bytes);
        let (rdev, rest) = u32_at(rest);
        let (umask, rest) = u32_at(rest);
        let rest = skip(rest, 4);
        let mode = Mode::from_bits(mode);
        (MknodIn { mode, rdev, umask }, rest)
    }

    ghost sized = { λ block. refl };
}

impl Block for MkdirIn {
    const LEN: usize = 8;

    ghost LEN = { 8 };

    ghost fields = { λ m. mkdir_in m.mode m.umask };

    fn at(bytes: &[u8]) -> (MkdirIn, &[u8]) {
        let (mode, rest) = u32_at(bytes);
        let (umask, rest) = u32_at(rest);
        let mode = Mode::from_bits(mode);
        (MkdirIn { mode, umask }, rest)
    }

    ghost sized = { λ block. refl };
}

impl Block for CreateIn {
    const LEN: usize = 16;

    ghost LEN = { 16 };

    ghost fields = { λ c. create_in c.flags c.mode c.umask };

    fn at(bytes: &[u8]) -> (CreateIn, &[u8]) {
        let (flags, rest) = u32_at(bytes);
        let (mode, rest) = u32_at(rest);
        let (umask, rest) = u32_at(rest);
        let rest = skip(rest, 4);
        let create = CreateIn {
            flags: OpenFlags::from_bits_retain(flags),
            mode: Mode::from_bits(mode),
            umask,
        };
        (create, rest)
    }

    ghost sized = { λ block. refl };
}

impl Block for RenameIn {
    const LEN: usize = 8;

    ghost LEN = { 8 };

    ghost fields = { λ r. rename_in r.newdir };

    fn at(bytes: &[u8]) -> (RenameIn, &[u8]) {
        let (newdir, rest) = u64_at(bytes);
        (RenameIn { newdir }, rest)
    }

    ghost sized = { λ block. refl };
}

impl Block for Rename2In {
    const LEN: usize = 16;

    ghost LEN = { 16 };

    ghost fields = { λ r. rename2_in r.newdir r.flags };

    fn at(bytes: &[u8]) -> (Rename2In, &[u8]) {
        let (newdir, rest) = u64_at(bytes);
        let (flags, rest) = u32_at(rest);
        let rest = skip(rest, 4);
        (Rename2In { newdir, flags }, rest)
    }

    ghost sized = { λ block. refl };
}

impl Block for LinkIn {
    const LEN: usize = 8;

    ghost LEN = { 8 };

    ghost fields = { λ l. link_in l.oldnodeid };

    fn at(bytes: &[u8]) -> (LinkIn, &[u8]) {
        let (oldnodeid, rest) = u64_at(bytes);
        (LinkIn { oldnodeid }, rest)
    }

    ghost sized = { λ block. refl };
}
