//! Attributes of files, as replies have them.

ghost use Rattle.std.specs.Prelude.{◌≡◌, ◌≤◌, length, refl};
ghost use Rattle.fa_bodies.specs.Structs.{attr, attr_out};
ghost use Rattle.fa_bodies.specs.Listing.{attributes_in};
ghost use Rattle.fa_bodies.specs.Views.{attr_out_in};

use crate::block::Block;
use crate::fields::{skip, u32_at, u64_at};
use crate::mode::Mode;
use crate::views::{AttrBytes, AttributesBytes};

/// Attributes of a file (`struct fuse_attr`). Times are seconds and nanoseconds, `size` counts
/// bytes, and `blocks` counts 512 of them.
#[derive(Clone, Copy, Debug, Default)]
pub struct Attributes {
    pub ino: u64,
    pub size: u64,
    pub blocks: u64,
    pub atime: u64,
    pub mtime: u64,
    pub ctime: u64,
    pub atimensec: u32,
    pub mtimensec: u32,
    pub ctimensec: u32,
    pub mode: Mode,
    pub nlink: u32,
    pub uid: u32,
    pub gid: u32,
    pub rdev: u32,
    pub blksize: u32,
}

/// Attributes as a reply gives them (`struct fuse_attr_out`), and how long they stay valid, in seconds
/// and nanoseconds.
#[derive(Clone, Copy, Debug, Default)]
pub struct AttrOut {
    pub attr_valid: u64,
    pub attr_valid_nsec: u32,
    pub attr: Attributes,
}

impl Block for Attributes {
    const LEN: usize = 88;

    ghost LEN = { 88 };

    ghost fields = { attr };

    fn at(bytes: &[u8]) -> (Attributes, &[u8]) {
        let (ino, rest) = u64_at(bytes);
        let (size, rest) = u64_at(rest);
        let (blocks, rest) = u64_at(rest);
        let (atime, rest) = u64_at(rest);
        let (mtime, rest) = u64_at(rest);
        let (ctime, rest) = u64_at(rest);
        let (atimensec, rest) = u32_at(rest);
        let (mtimensec, rest) = u32_at(rest);
        let (ctimensec, rest) = u32_at(rest);
        let (mode, rest) = u32_at(rest);
        let (nlink, rest) = u32_at(rest);
        let (uid, rest) = u32_at(rest);
        let (gid, rest) = u32_at(rest);
        let (rdev, rest) = u32_at(rest);
        let (blksize, rest) = u32_at(rest);
        let rest = skip(rest, 4);
        let attributes = Attributes {
            ino,
            size,
            blocks,
            atime,
            mtime,
            ctime,
            atimensec,
            mtimensec,
            ctimensec,
            mode: Mode::from_bits(mode),
            nlink,
            uid,
            gid,
            rdev,
            blksize,
        };
        (attributes, rest)
    }

    ghost sized = { λ block. refl };
}

impl Block for AttrOut {
    const LEN: usize = 104;

    ghost LEN = { 104 };

    ghost fields = { attr_out };

    fn at(bytes: &[u8]) -> (AttrOut, &[u8]) {
        let (attr_valid, rest) = u64_at(bytes);
        let (attr_valid_nsec, rest) = u32_at(rest);
        let rest = skip(rest, 4);
        let (attr, rest) = Attributes::at(rest);
        let attributes = AttrOut {
            attr_valid,
            attr_valid_nsec,
            attr,
        };
        (attributes, rest)
    }

    ghost sized = { λ block. refl };
}

/// The attributes at the front of bytes.
fn attributes_at(bytes: &[u8]) -> Attributes
    requires { 88 ≤ length bytes.now }
    ensures { result ≡ attributes_in bytes.now }
{
    let (attributes, _rest) = Attributes::at(bytes);
    attributes
}

/// The attributes at the front of bytes, and how long they stay valid.
fn attr_out_at(bytes: &[u8]) -> AttrOut
    requires { 104 ≤ length bytes.now }
    ensures { result ≡ attr_out_in bytes.now }
{
    let (attributes, _rest) = AttrOut::at(bytes);
    attributes
}

impl<'a> AttrBytes<'a> {
    ghost use Rattle.std.specs.Prelude.{◌≡◌, IfSome, IfNone};
    ghost use Rattle.fa_bodies.specs.Fields.{IsSpelled};
    ghost use Rattle.fa_bodies.specs.Views.{attr_shown, attributes_shown};

    /// The attributes that bytes are as a whole.
    pub(crate) fn whole(bytes: &'a [u8]) -> Option<Self>
        ensures found { IfSome result (λ attributes. IsSpelled bytes.now (attr_out (attr_shown attributes))) }
        ensures none { IfNone result
            ((attributes : AttrOut) → IsSpelled bytes.now (attr_out attributes) → ⊥) }
    {
        if bytes.len() != AttrOut::LEN {
            return None;
        }
        Some(AttrBytes { bytes })
    }

    /// The whole struct, as [`AttrOut`] has it.
    ///
    /// Takes no memory, in constant time.
    pub fn read(&self) -> AttrOut
        ensures { result ≡ attr_shown self.now }
    {
        attr_out_at(self.bytes)
    }

    /// The attributes of the file, where they lie.
    ///
    /// Takes no memory, in constant time.
    #[inline(always)]
    pub fn attributes(&self) -> AttributesBytes<'a>
        ensures { attributes_shown result ≡ (attr_shown self.now).attr }
    {
        AttributesBytes {
            bytes: skip(self.bytes, 16),
        }
    }
}

impl<'a> AttributesBytes<'a> {
    ghost use Rattle.std.specs.Prelude.{◌≡◌};
    ghost use Rattle.fa_bodies.specs.Views.{attributes_shown};

    /// The whole struct, as [`Attributes`] has it.
    ///
    /// Takes no memory, in constant time.
    pub fn read(&self) -> Attributes
        ensures { result ≡ attributes_shown self.now }
    {
        attributes_at(self.bytes)
    }

    /// How many bytes the reply says that the file has.
    ///
    /// Takes no memory, in constant time.
    #[inline(always)]
    pub fn size(&self) -> u64
        ensures { result ≡ (attributes_shown self.now).size }
    {
        let (size, _rest) = u64_at(skip(self.bytes, 8));
        size
    }

    /// The type and the permission bits that the reply says that the file has.
    ///
    /// Takes no memory, in constant time.
    #[inline(always)]
    pub fn mode(&self) -> Mode
        ensures { result ≡ (attributes_shown self.now).mode }
    {
        let (mode, _rest) = u32_at(skip(self.bytes, 60));
        Mode::from_bits(mode)
    }

    /// How many links the reply says that the file has; of a directory, as the server counts them.
    ///
    /// Takes no memory, in constant time.
    #[inline(always)]
    pub fn nlink(&self) -> u32
        ensures { result ≡ (attributes_shown self.now).nlink }
    {
        let (nlink, _rest) = u32_at(skip(self.bytes, 64));
        nlink
    }
}
