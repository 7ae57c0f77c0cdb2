//! Words for requests and files.

use fa_bodies::{Kind, ROOT_ID};
use fa_ledger::{Calls, NodeName};
use fa_refusal::Case;
use fa_show::{Text, u32_at, words};

/// Where `opcode` stands in `struct fuse_in_header`.
const OPCODE: usize = 4;

/// Writes the operation of a request.
pub(crate) fn operation(text: &mut Text, case: &Case<'_>) {
    words::operation(
        text,
        u32_at(case.call.messages.request, OPCODE).unwrap_or(0),
    );
}

/// Writes a word, and behind it the number of a request and its operation.
pub(crate) fn request(text: &mut Text, calls: &Calls<'_>, word: &str, asked: u32) {
    begin_request(text, calls, word, asked);
    text.word(")");
}

/// The same of a request that may be none: there nothing is written.
pub(crate) fn request_if_any(text: &mut Text, calls: &Calls<'_>, word: &str, asked: Option<u32>) {
    if let Some(asked) = asked {
        request(text, calls, word, asked);
    }
}

/// Writes a word, and behind it the number of a request and its operation, in parentheses that stay open.
pub(crate) fn begin_request(text: &mut Text, calls: &Calls<'_>, word: &str, asked: u32) {
    text.field(word, u64::from(asked));
    text.word(" (");
    if let Some(case) = Case::of(calls, asked) {
        operation(text, &case);
    }
}

/// The number of a node.
pub(crate) fn node_number(node: &NodeName) -> u64 {
    match node {
        NodeName::Root => ROOT_ID,
        NodeName::Given { id, .. } => *id,
    }
}

/// Writes since which request something is so, or that it was so from the start.
pub(crate) fn since(text: &mut Text, calls: &Calls<'_>, asked: Option<u32>) {
    match asked {
        Some(asked) => request(text, calls, "since ", asked),
        None => text.word("from the start"),
    }
}

/// The word for a type of files.
pub(crate) fn kind(kind: Kind) -> &'static str {
    match kind {
        Kind::Fifo => "FIFO",
        Kind::CharDevice => "CHR",
        Kind::Directory => "DIR",
        Kind::BlockDevice => "BLK",
        Kind::Regular => "REG",
        Kind::Symlink => "LNK",
        Kind::Socket => "SOCK",
    }
}

/// The name of an error, empty where it has none.
pub(crate) fn error_name(error: i32) -> &'static str {
    words::error_name(error).unwrap_or("")
}

/// Writes the type of files of this number in `struct fuse_dirent`, by its word where it has one.
pub(crate) fn numbered_kind(text: &mut Text, number: u32) {
    let word = match number {
        1 => "FIFO",
        2 => "CHR",
        4 => "DIR",
        6 => "BLK",
        8 => "REG",
        10 => "LNK",
        12 => "SOCK",
        _ => return text.number(u64::from(number)),
    };
    text.word(word);
}
