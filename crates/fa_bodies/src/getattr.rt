//! What GETATTR asks for.

ghost use Rattle.std.specs.Prelude.{refl};
ghost use Rattle.fa_bodies.specs.Structs.{getattr_in};

use crate::block::Block;
use crate::fields::{skip, u32_at, u64_at};
use crate::flags::GetattrFlags;
use bitflags::Flags;

/// Whose attributes are asked for (`struct fuse_getattr_in`): `fh` counts where the flags say so.
#[derive(Clone, Copy, Debug)]
pub struct GetattrIn {
    pub getattr_flags: GetattrFlags,
    pub fh: u64,
}

impl Block for GetattrIn {
    const LEN: usize = 16;

    ghost LEN = { 16 };

    ghost fields = { getattr_in };

    fn at(bytes: &[u8]) -> (GetattrIn, &[u8]) {
        let (flags, rest) = u32_at(bytes);
        let rest = skip(rest, 4);
        let (fh, rest) = u64_at(rest);
        let getattr = GetattrIn {
            getattr_flags: GetattrFlags::from_bits_retain(flags),
            fh,
        };
        (getattr, rest)
    }

    ghost sized = { λ block. refl };
}
