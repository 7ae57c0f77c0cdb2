//! The headers of messages.

ghost use Rattle.std.specs.Prelude.{◌≤◌, length, OnOk, IfErr};
ghost use Rattle.fa_capture.specs.Checks.{AllHold, FirstFailure};
ghost use Rattle.fa_bodies.specs.Fields.{BeginsWith};
ghost use Rattle.fa_bodies.specs.Structs.{in_header, out_header};
ghost use Rattle.fa_bodies.specs.Requests.{length_checks};

use crate::fields::{i32_at, u32_at, u64_at};
use fa_capture::codes;

/// The bytes of a header of a request.
pub(crate) const IN_HEADER: usize = 40;
/// The bytes of a header of a reply.
pub(crate) const OUT_HEADER: usize = 16;

/// The header of a request, as far as it is read (`struct fuse_in_header`).
#[derive(Clone, Copy)]
pub(crate) struct InHeader {
    /// The length of the whole message. Clauses speak of it, and no code reads it.
    pub len: u32,
    pub opcode: u32,
    pub unique: u64,
    pub nodeid: u64,
}

/// The header of a reply (`struct fuse_out_header`).
#[derive(Clone, Copy)]
pub(crate) struct OutHeader {
    /// The length of the whole message. Clauses speak of it, and no code reads it.
    pub len: u32,
    pub error: i32,
    pub unique: u64,
}

/// Looks whether a message has room for a header of this size, and is as long as its first field
/// says.
pub(crate) fn check_length(bytes: &[u8], header: usize) -> Result<(), u16>
    requires { 4 ≤ header }
    ensures ok { OnOk result (AllHold (length_checks header bytes.now)) }
    ensures fault { IfErr result (λ code. FirstFailure (length_checks header bytes.now) code) }
{
    if bytes.len() < header {
        return Err(codes::HEADER_TOO_SHORT);
    }
    let (len, _rest) = u32_at(bytes);
    if len as usize != bytes.len() {
        return Err(codes::LENGTH_FIELD);
    }
    Ok(())
}

/// The header of a request at the front of bytes, and the body behind it.
pub(crate) fn in_header_at(bytes: &[u8]) -> (InHeader, &[u8])
    requires { 40 ≤ length bytes.now }
    ensures { let h = result.0 in
        BeginsWith bytes.now (in_header h.len h.opcode h.unique h.nodeid) result.1.now }
{
    let (len, rest) = u32_at(bytes);
    let (opcode, rest) = u32_at(rest);
    let (unique, rest) = u64_at(rest);
    let (nodeid, rest) = u64_at(rest);
    let (_ids, body) = rest.split_at(16);
    let header = InHeader {
        len,
        opcode,
        unique,
        nodeid,
    };
    (header, body)
}

/// The header of a reply at the front of bytes, and the body behind it.
pub(crate) fn out_header_at(bytes: &[u8]) -> (OutHeader, &[u8])
    requires { 16 ≤ length bytes.now }
    ensures { let h = result.0 in
        BeginsWith bytes.now (out_header h.len h.error h.unique) result.1.now }
{
    let (len, rest) = u32_at(bytes);
    let (error, rest) = i32_at(rest);
    let (unique, body) = u64_at(rest);
    (OutHeader { len, error, unique }, body)
}
