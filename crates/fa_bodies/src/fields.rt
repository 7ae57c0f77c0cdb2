//! Single fields at the front of bytes. Each reader answers the value and the bytes behind it.

ghost use Rattle.std.specs.Prelude.{◌≡◌, ◌+◌, ◌≤◌, ◌++◌, ℕ, List, length};
ghost use Rattle.std.specs.Int.{w32, cast_unsigned};
ghost use Rattle.fa_bodies.specs.Fields.{le32, le64};

use byteorder::{ByteOrder, LittleEndian};

pub(crate) fn u32_at(bytes: &[u8]) -> (u32, &[u8])
    requires { 4 ≤ length bytes.now }
    ensures value { bytes.now ≡ le32 result.0 ++ result.1.now }
    ensures left { length result.1.now + 4 ≡ length bytes.now }
{
    let (field, rest) = bytes.split_at(4);
    (LittleEndian::read_u32(field), rest)
}

pub(crate) fn i32_at(bytes: &[u8]) -> (i32, &[u8])
    requires { 4 ≤ length bytes.now }
    ensures value { bytes.now ≡ le32 (cast_unsigned w32 result.0) ++ result.1.now }
    ensures left { length result.1.now + 4 ≡ length bytes.now }
{
    let (bits, rest) = u32_at(bytes);
    (bits.cast_signed(), rest)
}

pub(crate) fn u64_at(bytes: &[u8]) -> (u64, &[u8])
    requires { 8 ≤ length bytes.now }
    ensures value { bytes.now ≡ le64 result.0 ++ result.1.now }
    ensures left { length result.1.now + 8 ≡ length bytes.now }
{
    let (field, rest) = bytes.split_at(8);
    (LittleEndian::read_u64(field), rest)
}

/// What stands behind so many bytes that are not read.
pub(crate) fn skip(bytes: &[u8], count: usize) -> &[u8]
    requires { count ≤ length bytes.now }
    ensures value { (skipped : List ℕ) × (length skipped ≡ count) × (bytes.now ≡ skipped ++ result.now) }
    ensures left { length result.now + count ≡ length bytes.now }
{
    bytes.split_at(count).1
}
