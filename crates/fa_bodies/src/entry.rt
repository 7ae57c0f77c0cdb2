//! The entry of a name, as replies have it.

ghost use Rattle.std.specs.Prelude.{◌≡◌, ◌≤◌, length, refl};
ghost use Rattle.fa_bodies.specs.Structs.{entry_out};
ghost use Rattle.fa_bodies.specs.Listing.{entry_out_in};

use crate::attributes::Attributes;
use crate::block::Block;
use crate::fields::{skip, u32_at, u64_at};
use crate::views::{AttributesBytes, EntryBytes};

/// A file as a reply gives it for a name (`struct fuse_entry_out`): its node id, how long the name and the attributes
/// stay valid, in seconds and nanoseconds, and the attributes.
#[derive(Clone, Copy, Debug, Default)]
pub struct EntryOut {
    /// The node id of the file. In the answer of a LOOKUP 0 says that the name is not there, for as long as
    /// `entry_valid` tells. In an entry of a READDIRPLUS 0 says that the name is listed without a look-up, so that no node
    /// is given.
    pub nodeid: u64,
    pub generation: u64,
    pub entry_valid: u64,
    pub attr_valid: u64,
    pub entry_valid_nsec: u32,
    pub attr_valid_nsec: u32,
    pub attr: Attributes,
}

impl Block for EntryOut {
    const LEN: usize = 128;

    ghost LEN = { 128 };

    ghost fields = { entry_out };

    fn at(bytes: &[u8]) -> (EntryOut, &[u8]) {
        let (nodeid, rest) = u64_at(bytes);
        let (generation, rest) = u64_at(rest);
        let (entry_valid, rest) = u64_at(rest);
        let (attr_valid, rest) = u64_at(rest);
        let (entry_valid_nsec, rest) = u32_at(rest);
        let (attr_valid_nsec, rest) = u32_at(rest);
        let (attr, rest) = Attributes::at(rest);
        let entry = EntryOut {
            nodeid,
            generation,
            entry_valid,
            attr_valid,
            entry_valid_nsec,
            attr_valid_nsec,
            attr,
        };
        (entry, rest)
    }

    ghost sized = { λ block. refl };
}

/// The entry at the front of bytes.
fn entry_at(bytes: &[u8]) -> EntryOut
    requires { 128 ≤ length bytes.now }
    ensures { result ≡ entry_out_in bytes.now }
{
    let (entry, _rest) = EntryOut::at(bytes);
    entry
}

impl<'a> EntryBytes<'a> {
    ghost use Rattle.std.specs.Prelude.{◌≡◌, ℕ, List, IfSome, IfNone};
    ghost use Rattle.fa_bodies.specs.Fields.{BeginsWith, IsSpelled};
    ghost use Rattle.fa_bodies.specs.Views.{attributes_shown, entry_shown};

    /// The entry at the front of bytes, and what stands behind it, if there are bytes enough.
    pub(crate) fn front(bytes: &'a [u8]) -> Option<(Self, &'a [u8])>
        ensures found { IfSome result (λ r. BeginsWith bytes.now (entry_out (entry_shown r.0)) r.1.now) }
        ensures none { IfNone result
            ((entry : EntryOut) (rest : List ℕ) → BeginsWith bytes.now (entry_out entry) rest → ⊥) }
    {
        if bytes.len() < EntryOut::LEN {
            return None;
        }
        let (_entry, rest) = bytes.split_at(EntryOut::LEN);
        Some((EntryBytes { bytes }, rest))
    }

    /// The entry that bytes are as a whole.
    pub(crate) fn whole(bytes: &'a [u8]) -> Option<Self>
        ensures found { IfSome result (λ entry. IsSpelled bytes.now (entry_out (entry_shown entry))) }
        ensures none { IfNone result ((entry : EntryOut) → IsSpelled bytes.now (entry_out entry) → ⊥) }
    {
        if bytes.len() != EntryOut::LEN {
            return None;
        }
        Some(EntryBytes { bytes })
    }

    /// The whole struct, as [`EntryOut`] has it.
    ///
    /// Takes no memory, in constant time.
    pub fn read(&self) -> EntryOut
        ensures { result ≡ entry_shown self.now }
    {
        entry_at(self.bytes)
    }

    /// The node id of the file, as [`EntryOut`] has it.
    ///
    /// Takes no memory, in constant time.
    #[inline(always)]
    pub fn nodeid(&self) -> u64
        ensures { result ≡ (entry_shown self.now).nodeid }
    {
        let (nodeid, _rest) = u64_at(self.bytes);
        nodeid
    }

    /// The attributes of the file, where they lie.
    ///
    /// Takes no memory, in constant time.
    #[inline(always)]
    pub fn attributes(&self) -> AttributesBytes<'a>
        ensures { attributes_shown result ≡ (entry_shown self.now).attr }
    {
        AttributesBytes {
            bytes: skip(self.bytes, 40),
        }
    }
}
