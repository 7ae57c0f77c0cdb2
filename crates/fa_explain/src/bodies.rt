//! Requests whose body is none of their operation, or passes a limit: codes 13 and 14.

use crate::fault::Fault;
use crate::names::{behind_name, last_name, last_names};
use crate::shapes::{Rest, Shape, shape_of};
use fa_bodies::{MAX_FILE_BYTES, opcodes};
use fa_show::{Asked, Text, request_in, u32_at, u64_at, words};

/// Where `size` stands in `struct fuse_write_in`.
const WRITE_SIZE: usize = 16;

/// Where `offset` stands in `struct fuse_write_in`.
const WRITE_OFFSET: usize = 8;

/// Where `size` stands in `struct fuse_setattr_in`.
const SETATTR_SIZE: usize = 16;

/// Writes why a body is none of its operation.
pub(crate) fn refused(text: &mut Text, fault: &Fault<'_>) {
    let Some(asked) = request_in(&fault.packet) else {
        return;
    };
    let Some(shape) = shape_of(asked.opcode) else {
        return;
    };
    text.word("the body of ");
    words::operation(text, asked.opcode);
    text.word(" is ");
    text.word(shape.words);
    text.word(": ");
    match asked.behind.split_at_checked(shape.size) {
        Some((_, rest)) => rest_refused(text, &asked, &shape, rest),
        None => this_one(text, asked.behind),
    }
}

/// Whether a request looks up `.` or `..`.
pub(crate) fn looks_up_a_dot(fault: &Fault<'_>) -> bool {
    match request_in(&fault.packet) {
        Some(asked) => {
            asked.opcode == opcodes::LOOKUP && matches!(asked.behind, [b'.', 0] | [b'.', b'.', 0])
        }
        None => false,
    }
}

/// Writes how many bytes a message or a body has.
pub(crate) fn this_one(text: &mut Text, bytes: &[u8]) {
    text.word("this one has ");
    text.count(bytes.len(), " byte", " bytes");
}

/// Writes how many bytes stand behind something.
pub(crate) fn stand_behind(text: &mut Text, bytes: &[u8], what: &str) {
    text.count(bytes.len(), " byte stands behind ", " bytes stand behind ");
    text.word(what);
}

/// Writes why what stands behind the struct of a body is none of its operation.
fn rest_refused(text: &mut Text, asked: &Asked<'_>, shape: &Shape, rest: &[u8]) {
    match shape.rest {
        Rest::Nothing | Rest::Any => this_one(text, asked.behind),
        Rest::Name => match last_name(rest) {
            Some(fault) => fault.write(text),
            None => mode(text, asked.behind),
        },
        Rest::Names => {
            if let Some(fault) = last_names(rest) {
                fault.write(text);
            }
        }
        Rest::NameAndTarget => match behind_name(rest) {
            Err(fault) => fault.write(text),
            Ok(_) => { text.word("the target is empty, or its one zero byte is not at its end") }
        },
        Rest::Payload => {
            let size = u32_at(asked.behind, WRITE_SIZE).unwrap_or(0);
            text.field("size says ", u64::from(size));
            text.word(", and ");
            stand_behind(text, rest, "the struct");
        }
        Rest::Items => {
            let count = u32_at(asked.behind, 0).unwrap_or(0);
            text.field("count says ", u64::from(count));
            text.word(", and ");
            stand_behind(text, rest, "it");
        }
    }
}

/// Writes that a mode is one of no file that MKNOD makes.
fn mode(text: &mut Text, body: &[u8]) {
    text.word("mode ");
    text.octal(u32_at(body, 0).unwrap_or(0), 7);
    text.word(" has no type that MKNOD makes");
}

/// Writes which limit a request passes.
pub(crate) fn beyond(text: &mut Text, fault: &Fault<'_>) {
    let Some(asked) = request_in(&fault.packet) else {
        return;
    };
    text.field("a file has ", MAX_FILE_BYTES);
    text.word(" bytes at most here: ");
    if asked.opcode == opcodes::WRITE {
        text.field("offset ", u64_at(asked.behind, WRITE_OFFSET).unwrap_or(0));
        text.field(
            " and size ",
            u64::from(u32_at(asked.behind, WRITE_SIZE).unwrap_or(0)),
        );
    } else {
        text.field("size ", u64_at(asked.behind, SETATTR_SIZE).unwrap_or(0));
    }
}
