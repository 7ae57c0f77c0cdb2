//! Requests whose body is refused: what of it could be read.

use crate::asked::{Asked, u32_at, u64_at};
use crate::text::Text;
use crate::{naming, opening};
use fa_bodies::{Mode, is_name, opcodes, split_at_byte};

/// The bytes of `struct fuse_write_in`, before the bytes that are written.
const WRITE_IN: usize = 40;
/// The bytes of `struct fuse_mknod_in`, before the name.
const MKNOD_IN: usize = 16;
/// The bytes of `struct fuse_setattr_in`.
const SETATTR_IN: usize = 88;

/// The name that stands at this place of a body.
fn name_at(body: &[u8], place: usize) -> Option<&[u8]> {
    let (_, behind) = body.split_at_checked(place)?;
    let (name, _) = split_at_byte(behind, 0)?;
    if is_name(name) { Some(name) } else { None }
}

/// Writes the name at this place, if there is one.
fn first_name(text: &mut Text, body: &[u8], place: usize) {
    if let Some(name) = name_at(body, place) {
        naming::name(text, name);
    }
}

/// Writes what could be read of names, the file handle, the offset and the size.
pub(crate) fn about(text: &mut Text, asked: &Asked<'_>) {
    match asked.opcode {
        opcodes::SYMLINK => first_name(text, asked.behind, 0),
        opcodes::RENAME => first_name(text, asked.behind, 8),
        opcodes::LINK => linked(text, asked.behind),
        opcodes::RENAME2 | opcodes::MKNOD => first_name(text, asked.behind, MKNOD_IN),
        opcodes::WRITE if asked.behind.len() >= WRITE_IN => range(text, asked.behind),
        opcodes::SETATTR if asked.behind.len() == SETATTR_IN => sized(text, asked.behind),
        _ => {}
    }
}

/// Writes which file LINK is to give a name.
fn linked(text: &mut Text, body: &[u8]) {
    if let Some(oldnodeid) = u64_at(body, 0) {
        text.field(" of node ", oldnodeid);
    }
}

/// Writes which bytes a WRITE is to write.
fn range(text: &mut Text, body: &[u8]) {
    let fh = u64_at(body, 0).unwrap_or(0);
    let offset = u64_at(body, 8).unwrap_or(0);
    let size = u32_at(body, 16).unwrap_or(0);
    opening::range(text, fh, offset, size);
}

/// Writes the size that a SETATTR is to set.
fn sized(text: &mut Text, body: &[u8]) {
    let valid = u32_at(body, 0).unwrap_or(0);
    if valid & (1 << 6) != 0 {
        text.field(" fh ", u64_at(body, 8).unwrap_or(0));
    }
    if valid & (1 << 3) != 0 {
        text.field(" size ", u64_at(body, 16).unwrap_or(0));
    }
}

/// Writes what else could be read.
pub(crate) fn further(text: &mut Text, asked: &Asked<'_>) {
    match asked.opcode {
        opcodes::WRITE => written(text, asked.behind),
        opcodes::MKNOD => made(text, asked.behind),
        _ => {}
    }
}

/// Writes the flags and the bytes of a WRITE.
fn written(text: &mut Text, body: &[u8]) {
    if let Some((head, payload)) = body.split_at_checked(WRITE_IN) {
        opening::payload(text, u32_at(head, 20).unwrap_or(0), payload);
    }
}

/// Writes the mode of a file that MKNOD does not make.
fn made(text: &mut Text, body: &[u8]) {
    if name_at(body, MKNOD_IN).is_none() {
        return;
    }
    let mode = Mode::from_bits(u32_at(body, 0).unwrap_or(0));
    naming::made(text, mode, u32_at(body, 8).unwrap_or(0));
    naming::device(text, u32_at(body, 4).unwrap_or(0));
}
