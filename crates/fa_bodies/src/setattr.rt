//! What SETATTR asks for.

ghost use Rattle.std.specs.Prelude.{◌≡◌, ◌≤◌, length, refl};
ghost use Rattle.fa_bodies.specs.Structs.{setattr_in};
ghost use Rattle.fa_bodies.specs.Views.{setattr_in_in};

use crate::block::Block;
use crate::fields::{skip, u32_at, u64_at};
use crate::flags::FattrFlags;
use crate::mode::Mode;
use crate::views::SetattrBytes;
use bitflags::Flags;

/// The attributes to be set (`struct fuse_setattr_in`), of which those count that `valid` names. Times are seconds and
/// nanoseconds, and `size` counts bytes.
#[derive(Clone, Copy, Debug)]
pub struct SetattrIn {
    pub valid: FattrFlags,
    pub fh: u64,
    pub size: u64,
    pub lock_owner: u64,
    pub atime: u64,
    pub mtime: u64,
    pub ctime: u64,
    pub atimensec: u32,
    pub mtimensec: u32,
    pub ctimensec: u32,
    pub mode: Mode,
    pub uid: u32,
    pub gid: u32,
}

impl Block for SetattrIn {
    const LEN: usize = 88;

    ghost LEN = { 88 };

    ghost fields = { setattr_in };

    fn at(bytes: &[u8]) -> (SetattrIn, &[u8]) {
        let (valid, rest) = u32_at(bytes);
        let rest = skip(rest, 4);
        let (fh, rest) = u64_at(rest);
        let (size, rest) = u64_at(rest);
        let (lock_owner, rest) = u64_at(rest);
        let (atime, rest) = u64_at(rest);
        let (mtime, rest) = u64_at(rest);
        let (ctime, rest) = u64_at(rest);
        let (atimensec, rest) = u32_at(rest);
        let (mtimensec, rest) = u32_at(rest);
        let (ctimensec, rest) = u32_at(rest);
        let (mode, rest) = u32_at(rest);
        let rest = skip(rest, 4);
        let (uid, rest) = u32_at(rest);
        let (gid, rest) = u32_at(rest);
        let rest = skip(rest, 4);
        let setattr = SetattrIn {
            valid: FattrFlags::from_bits_retain(valid),
            fh,
            size,
            lock_owner,
            atime,
            mtime,
            ctime,
            atimensec,
            mtimensec,
            ctimensec,
            mode: Mode::from_bits(mode),
            uid,
            gid,
        };
        (setattr, rest)
    }

    ghost sized = { λ block. refl };
}

/// What bytes ask for at their front.
fn setattr_at(bytes: &[u8]) -> SetattrIn
    requires { 88 ≤ length bytes.now }
    ensures { result ≡ setattr_in_in bytes.now }
{
    let (setattr, _rest) = SetattrIn::at(bytes);
    setattr
}

impl<'a> SetattrBytes<'a> {
    ghost use Rattle.std.specs.Prelude.{◌≡◌, IfSome, IfNone};
    ghost use Rattle.fa_bodies.specs.Fields.{IsSpelled};
    ghost use Rattle.fa_bodies.specs.Views.{setattr_shown};

    /// What bytes as a whole ask for.
    pub(crate) fn whole(bytes: &'a [u8]) -> Option<Self>
        ensures found { IfSome result (λ setattr. IsSpelled bytes.now (setattr_in (setattr_shown setattr))) }
        ensures none { IfNone result
            ((setattr : SetattrIn) → IsSpelled bytes.now (setattr_in setattr) → ⊥) }
    {
        if bytes.len() != SetattrIn::LEN {
            return None;
        }
        Some(SetattrBytes { bytes })
    }

    /// The whole struct, as [`SetattrIn`] has it.
    ///
    /// Takes no memory, in constant time.
    pub fn read(&self) -> SetattrIn
        ensures { result ≡ setattr_shown self.now }
    {
        setattr_at(self.bytes)
    }

    /// Which fields count.
    ///
    /// Takes no memory, in constant time.
    #[inline(always)]
    pub fn valid(&self) -> FattrFlags
        ensures { result ≡ (setattr_shown self.now).valid }
    {
        let (valid, _rest) = u32_at(self.bytes);
        FattrFlags::from_bits_retain(valid)
    }

    /// The file handle, which counts only where `valid` has [`FattrFlags::FH`], and may be anything otherwise.
    ///
    /// Takes no memory, in constant time.
    #[inline(always)]
    pub fn fh(&self) -> u64
        ensures { result ≡ (setattr_shown self.now).fh }
    {
        let (fh, _rest) = u64_at(skip(self.bytes, 8));
        fh
    }

    /// The size in bytes, which counts only where `valid` has [`FattrFlags::SIZE`], and may be anything otherwise.
    ///
    /// Takes no memory, in constant time.
    #[inline(always)]
    pub fn size(&self) -> u64
        ensures { result ≡ (setattr_shown self.now).size }
    {
        let (size, _rest) = u64_at(skip(self.bytes, 16));
        size
    }

    /// The mode, which counts only where `valid` has [`FattrFlags::MODE`], and may be anything otherwise.
    ///
    /// Takes no memory, in constant time.
    #[inline(always)]
    pub fn mode(&self) -> Mode
        ensures { result ≡ (setattr_shown self.now).mode }
    {
        let (mode, _rest) = u32_at(skip(self.bytes, 68));
        Mode::from_bits(mode)
    }
}
