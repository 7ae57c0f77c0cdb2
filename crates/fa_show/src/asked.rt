//! Requests, as far as they can be read.

use fa_bodies::{Reply, Request, reply_body, reply_head, request};
use fa_capture::Packet;

/// The four bytes at this place, as a number, low byte first; none where there are fewer.
///
/// Takes no memory, in constant time.
pub fn u32_at(bytes: &[u8], place: usize) -> Option<u32> {
    let (_, behind) = bytes.split_at_checked(place)?;
    match behind {
        [a, b, c, d, ..] => Some(u32::from_le_bytes([*a, *b, *c, *d])),
        _ => None,
    }
}

/// The eight bytes at this place, as a number, low byte first; none where there are fewer.
///
/// Takes no memory, in constant time.
pub fn u64_at(bytes: &[u8], place: usize) -> Option<u64> {
    let (_, behind) = bytes.split_at_checked(place)?;
    match behind {
        [a, b, c, d, e, f, g, h, ..] => {
            Some(u64::from_le_bytes([*a, *b, *c, *d, *e, *f, *g, *h]))
        }
        _ => None,
    }
}

/// The bytes of the header of a request (`struct fuse_in_header`).
const IN_HEADER: usize = 40;

/// The bytes of the header of a message of the server (`struct fuse_out_header`).
const OUT_HEADER: usize = 16;

/// A request, as far as it can be read: the fields of its header, and what it is.
#[derive(Clone, Copy)]
pub struct Asked<'a> {
    pub opcode: u32,
    pub unique: u64,
    pub node: u64,
    /// What stands behind the header.
    pub behind: &'a [u8],
    /// What it is, or the code with which it is none.
    pub request: Result<Request<'a>, u16>,
}

/// A request, if there is room for its header. The direction of the message is not looked at.
///
/// Takes no memory, in the time of [`fa_bodies::request`].
pub fn request_in<'a>(packet: &Packet<'a>) -> Option<Asked<'a>> {
    let (_, behind) = packet.bytes.split_at_checked(IN_HEADER)?;
    Some(Asked {
        opcode: u32_at(packet.bytes, 4)?,
        unique: u64_at(packet.bytes, 8)?,
        node: u64_at(packet.bytes, 16)?,
        behind,
        request: request(packet),
    })
}

/// A message of the server, as far as it can be read: the fields of its header, and what stands behind it.
#[derive(Clone, Copy)]
pub struct Told<'a> {
    /// The error of a reply, or the code of a notification.
    pub error: i32,
    pub unique: u64,
    /// What stands behind the header.
    pub behind: &'a [u8],
}

/// A message of the server, if there is room for its header. The direction of the message is not looked at.
///
/// Takes no memory, in constant time.
pub fn message_in<'a>(packet: &Packet<'a>) -> Option<Told<'a>> {
    let (_, behind) = packet.bytes.split_at_checked(OUT_HEADER)?;
    Some(Told {
        error: u32_at(packet.bytes, 4)?.cast_signed(),
        unique: u64_at(packet.bytes, 8)?,
        behind,
    })
}

/// What a message says to a request, if it is a reply to it.
///
/// Takes no memory, in the time of [`fa_bodies::reply_body`].
pub fn said<'a>(asked: &Request<'_>, packet: &Packet<'a>) -> Option<Reply<'a>> {
    let Ok(head) = reply_head(packet) else {
        return None;
    };
    if head.unique != asked.unique {
        return None;
    }
    reply_body(asked, packet).ok()
}
