//! Requests that are read by their header alone, and RENAME2 with flags that are not judged.

use crate::asked::{Asked, u32_at, u64_at};
use crate::naming;
use crate::text::Text;
use fa_bodies::{opcodes, split_at_byte};

/// The bytes of `struct fuse_rename2_in`, which stands before two names.
const RENAME2_IN: usize = 16;
/// The bytes of `struct fuse_setxattr_in` and of `struct fuse_getxattr_in`, which stand before the name of an attribute.
const XATTR_IN: usize = 8;
/// The bytes of `struct fuse_interrupt_in`.
const INTERRUPT_IN: usize = 8;
/// The bytes of `struct fuse_fallocate_in`.
const FALLOCATE_IN: usize = 32;

/// A RENAME2 as it stands in its body: the new directory, the flags, and two names.
#[derive(Clone, Copy)]
pub(crate) struct Moved<'a> {
    pub newdir: u64,
    pub flags: u32,
    pub old_name: &'a [u8],
    pub new_name: &'a [u8],
}

/// The RENAME2 of a body.
pub(crate) fn moved_in(body: &[u8]) -> Option<Moved<'_>> {
    let (_, names) = body.split_at_checked(RENAME2_IN)?;
    let (old_name, behind) = split_at_byte(names, 0)?;
    let (new_name, _) = split_at_byte(behind, 0)?;
    Some(Moved {
        newdir: u64_at(body, 0)?,
        flags: u32_at(body, 8)?,
        old_name,
        new_name,
    })
}

/// Writes the names of a RENAME2.
pub(crate) fn about(text: &mut Text, asked: &Asked<'_>) {
    if asked.opcode != opcodes::RENAME2 {
        return;
    }
    if let Some(moved) = moved_in(asked.behind) {
        naming::moved(text, moved.newdir, moved.old_name, moved.new_name);
        naming::rename_bits(text, moved.flags);
    }
}

/// Writes what is told of a body that is not judged.
pub(crate) fn further(text: &mut Text, asked: &Asked<'_>) {
    match asked.opcode {
        opcodes::RENAME2 => {}
        opcodes::INTERRUPT if asked.behind.len() == INTERRUPT_IN => interrupt(text, asked.behind),
        opcodes::FALLOCATE if asked.behind.len() == FALLOCATE_IN => fallocate(text, asked.behind),
        opcodes::SETXATTR | opcodes::GETXATTR => attribute(text, asked.behind, XATTR_IN),
        opcodes::REMOVEXATTR => attribute(text, asked.behind, 0),
        _ => length(text, asked.behind),
    }
}

/// Writes which request is to be given up.
fn interrupt(text: &mut Text, body: &[u8]) {
    text.field(" of unique ", u64_at(body, 0).unwrap_or(0));
}

/// Writes which part of a file gets room.
fn fallocate(text: &mut Text, body: &[u8]) {
    text.field(" fh ", u64_at(body, 0).unwrap_or(0));
    text.field(" offset ", u64_at(body, 8).unwrap_or(0));
    text.field(" length ", u64_at(body, 16).unwrap_or(0));
    text.field(" mode ", u64::from(u32_at(body, 24).unwrap_or(0)));
}

/// The name of an attribute, which stands at this place of a body.
fn attribute_at(body: &[u8], place: usize) -> Option<&[u8]> {
    let (_, behind) = body.split_at_checked(place)?;
    let (name, _) = split_at_byte(behind, 0)?;
    if name.is_empty() { None } else { Some(name) }
}

/// Writes the name of an attribute, or how many bytes the body has where there is none.
fn attribute(text: &mut Text, body: &[u8], place: usize) {
    match attribute_at(body, place) {
        Some(name) => naming::name(text, name),
        None => length(text, body),
    }
}

/// Writes how many bytes a body has.
fn length(text: &mut Text, body: &[u8]) {
    if !body.is_empty() {
        text.word(" body ");
        text.count(body.len(), " byte", " bytes");
    }
}
