//! Messages as the tests build them, and what the readers say of them.

use fa_bodies::{Reply, Request, opcodes, reply_body, reply_head, request};
use fa_capture::{Direction, Packet};
use fa_sample::Field;
use std::alloc::{AllocError, Global};

/// Where a message is read, but as something else than it is.
pub const MISREAD: u16 = 999;

/// A message to the server.
pub fn to_server(bytes: &[u8]) -> Packet<'_> {
    Packet {
        direction: Direction::ToServer,
        time: 0,
        bytes,
    }
}

/// A message from the server.
pub fn from_server(bytes: &[u8]) -> Packet<'_> {
    Packet {
        direction: Direction::FromServer,
        time: 0,
        bytes,
    }
}

/// The code of a request of these bytes, 0 where it is read.
pub fn request_code(bytes: &[u8]) -> u16 {
    request(&to_server(bytes)).err().unwrap_or(0)
}

/// The code of the head of a message from the server, 0 where it is read.
pub fn head_code(bytes: &[u8]) -> u16 {
    reply_head(&from_server(bytes)).err().unwrap_or(0)
}

/// An operation, how many zeros stand before the names in its body, and the names.
static BODIES: [(u32, usize, &[u8]); 20] = [
    (opcodes::LOOKUP, 0, b"a\0"),
    (opcodes::FORGET, 8, b""),
    (opcodes::GETATTR, 16, b""),
    (opcodes::SETATTR, 88, b""),
    (opcodes::SYMLINK, 0, b"a\0b\0"),
    (opcodes::MKNOD, 16, b"a\0"),
    (opcodes::MKDIR, 8, b"a\0"),
    (opcodes::UNLINK, 0, b"a\0"),
    (opcodes::RMDIR, 0, b"a\0"),
    (opcodes::RENAME, 8, b"a\0b\0"),
    (opcodes::LINK, 8, b"a\0"),
    (opcodes::OPEN, 8, b""),
    (opcodes::RELEASE, 24, b""),
    (opcodes::FLUSH, 24, b""),
    (opcodes::INIT, 16, b""),
    (opcodes::OPENDIR, 8, b""),
    (opcodes::RELEASEDIR, 24, b""),
    (opcodes::CREATE, 16, b"a\0"),
    (opcodes::BATCH_FORGET, 8, b""),
    (opcodes::RENAME2, 16, b"a\0b\0"),
];

/// The body of such a request as [`asked_bytes`] makes.
fn asking(alloc: Global, opcode: u32, size: u32) -> Result<Vec<u8>, AllocError> {
    let payload = if opcode == opcodes::WRITE { size } else { 0 };
    if matches!(
        opcode,
        opcodes::READ | opcodes::WRITE | opcodes::READDIR | opcodes::READDIRPLUS
    ) {
        let zeros = 20_usize.saturating_add(payload as usize);
        return fa_sample::spelled(
            alloc,
            &[Field::Zeros(16), Field::U32(size), Field::Zeros(zeros)],
        );
    }
    for (of, zeros, names) in &BODIES {
        if *of == opcode {
            return fa_sample::spelled(alloc, &[Field::Zeros(*zeros), Field::Bytes(names)]);
        }
    }
    Ok(Vec::new(alloc))
}

/// What a message from the server says to a request, its head included.
pub fn said<'a>(asked: &Request<'_>, message: &'a [u8]) -> Result<Reply<'a>, u16> {
    let packet = from_server(message);
    let head = reply_head(&packet)?;
    if head.unique != asked.unique {
        return Err(MISREAD);
    }
    reply_body(asked, &packet)
}

/// Whether a reply says what its message has: its error, or as many bytes or the number that its body says.
fn is_as_sent(reply: &Reply<'_>, error: i32, body: &[u8]) -> bool {
    match reply {
        Reply::Refused(found) => *found == error && body.is_empty(),
        Reply::Bytes(found) => error == 0 && *found == body,
        Reply::Written(found) => error == 0 && body.starts_with(&found.to_le_bytes()),
        Reply::Empty => error == 0 && body.is_empty(),
        _ => error == 0,
    }
}

/// A request of this operation, with the unique 4, which asks for `size` bytes where it asks for bytes.
pub fn asked_bytes(alloc: Global, opcode: u32, size: u32) -> Result<Vec<u8>, AllocError> {
    fa_sample::request_bytes(alloc, 4, opcode, 1, &asking(alloc, opcode, size)?)
}

/// The code of a reply to a request of this operation and size, 0 where it is read.
pub fn answer_code(
    alloc: Global,
    (opcode, size): (u32, u32),
    error: i32,
    body: &[u8],
) -> Option<u16> {
    let asked = asked_bytes(alloc, opcode, size).ok()?;
    let message = fa_sample::reply_bytes(alloc, 4, error, body).ok()?;
    let asked = request(&to_server(&asked)).ok()?;
    match said(&asked, &message) {
        Ok(reply) if is_as_sent(&reply, error, body) => Some(0),
        Ok(_) => Some(MISREAD),
        Err(code) => Some(code),
    }
}
