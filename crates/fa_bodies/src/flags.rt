//! The flag words of messages. Bits without a name are kept.

ghost use Rattle.std.specs.Prelude.{⊤, [], ◌∷◌, codes};
ghost use Rattle.fa_bodies.specs.FlagBits.{atomic_o_trunc, writeback_cache, posix_acl, getattr_fh, fattr_mode, fattr_size, fattr_fh, o_excl, o_trunc, fopen_direct_io};

use bitflags::{Flag, Flags, bitflag_items};

/// The flags of INIT (`flags` of `struct fuse_init_in` and `struct fuse_init_out`).
#[derive(Clone, Copy, Debug, PartialEq, Eq)]
pub struct InitFlags(u32);

bitflag_items! {
    impl InitFlags: u32 {
        /// The server empties a file that is opened with O_TRUNC.
        const ATOMIC_O_TRUNC = 1 << 3;
        /// The kernel holds writes back.
        const WRITEBACK_CACHE = 1 << 16;
        /// POSIX access control lists.
        const POSIX_ACL = 1 << 20;
    }
}

impl Flags for InitFlags {
    type Bits = u32;

    ghost exact = { ⊤ };

    ghost table = { (codes "ATOMIC_O_TRUNC", atomic_o_trunc) ∷ (codes "WRITEBACK_CACHE", writeback_cache) ∷ (codes "POSIX_ACL", posix_acl) ∷ [] };

    ghost set_of = { λ f. f.0 };

    fn flags<'a>() -> &'a [Flag<InitFlags>] {
        InitFlags::FLAGS
    }

    fn bits(&self) -> u32 {
        self.0
    }

    fn from_bits_retain(bits: u32) -> InitFlags {
        InitFlags(bits)
    }
}

/// The flags of GETATTR (`getattr_flags` of `struct fuse_getattr_in`).
#[derive(Clone, Copy, Debug, PartialEq, Eq)]
pub struct GetattrFlags(u32);

bitflag_items! {
    impl GetattrFlags: u32 {
        /// The request has a file handle (`FUSE_GETATTR_FH`).
        const FH = 1 << 0;
    }
}

impl Flags for GetattrFlags {
    type Bits = u32;

    ghost exact = { ⊤ };

    ghost table = { (codes "FH", getattr_fh) ∷ [] };

    ghost set_of = { λ f. f.0 };

    fn flags<'a>() -> &'a [Flag<GetattrFlags>] {
        GetattrFlags::FLAGS
    }

    fn bits(&self) -> u32 {
        self.0
    }

    fn from_bits_retain(bits: u32) -> GetattrFlags {
        GetattrFlags(bits)
    }
}

/// Which fields of a SETATTR count (`valid` of `struct fuse_setattr_in`).
#[derive(Clone, Copy, Debug, PartialEq, Eq)]
pub struct FattrFlags(u32);

bitflag_items! {
    impl FattrFlags: u32 {
        /// The mode (`FATTR_MODE`).
        const MODE = 1 << 0;
        /// The size (`FATTR_SIZE`).
        const SIZE = 1 << 3;
        /// The file handle (`FATTR_FH`).
        const FH = 1 << 6;
    }
}

impl Flags for FattrFlags {
    type Bits = u32;

    ghost exact = { ⊤ };

    ghost table = { (codes "MODE", fattr_mode) ∷ (codes "SIZE", fattr_size) ∷ (codes "FH", fattr_fh) ∷ [] };

    ghost set_of = { λ f. f.0 };

    fn flags<'a>() -> &'a [Flag<FattrFlags>] {
        FattrFlags::FLAGS
    }

    fn bits(&self) -> u32 {
        self.0
    }

    fn from_bits_retain(bits: u32) -> FattrFlags {
        FattrFlags(bits)
    }
}

/// How a file is opened (the flags of `open` in POSIX, with the generic numbers of Linux).
#[derive(Clone, Copy, Debug, PartialEq, Eq)]
pub struct OpenFlags(u32);

bitflag_items! {
    impl OpenFlags: u32 {
        /// The name may not be there (`O_EXCL`).
        const EXCL = 1 << 7;
        /// A file that is there is emptied (`O_TRUNC`).
        const TRUNC = 1 << 9;
    }
}

impl Flags for OpenFlags {
    type Bits = u32;

    ghost exact = { ⊤ };

    ghost table = { (codes "EXCL", o_excl) ∷ (codes "TRUNC", o_trunc) ∷ [] };

    ghost set_of = { λ f. f.0 };

    fn flags<'a>() -> &'a [Flag<OpenFlags>] {
        OpenFlags::FLAGS
    }

    fn bits(&self) -> u32 {
        self.0
    }

    fn from_bits_retain(bits: u32) -> OpenFlags {
        OpenFlags(bits)
    }
}

/// How the kernel may use an open file (`open_flags` of `struct fuse_open_out`).
#[derive(Clone, Copy, Debug, PartialEq, Eq)]
pub struct FopenFlags(u32);

bitflag_items! {
    impl FopenFlags: u32 {
        /// Each read goes to the server (`FOPEN_DIRECT_IO`).
        const DIRECT_IO = 1 << 0;
    }
}

impl Flags for FopenFlags {
    type Bits = u32;

    ghost exact = { ⊤ };

    ghost table = { (codes "DIRECT_IO", fopen_direct_io) ∷ [] };

    ghost set_of = { λ f. f.0 };

    fn flags<'a>() -> &'a [Flag<FopenFlags>] {
        FopenFlags::FLAGS
    }

    fn bits(&self) -> u32 {
        self.0
    }

    fn from_bits_retain(bits: u32) -> FopenFlags {
        FopenFlags(bits)
    }
}
