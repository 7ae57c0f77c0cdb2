//! Messages of /dev/fuse: from the bytes of a packet to requests and replies.
//!
//! The structs and numbers are those of `fuse.h` at protocol 7.31, little-endian. No reader takes
//! memory: each name, target and payload is a slice of the message that it was read from, and the large structs, of
//! entries, attributes and SETATTR, are read field by field where they lie in it ([`EntryBytes`] and its like). The readers
//! do not look at a packet's direction.
#![tactic(auto)]

mod attributes;
mod block;
mod bodies;
mod dirent;
mod entry;
pub mod errno;
mod fields;
mod flags;
mod forget;
mod forget_one;
mod getattr;
mod handles;
mod headers;
mod init;
pub mod laws;
mod making;
mod mode;
mod names;
pub mod opcodes;
mod reading;
mod rename_flags;
mod replies;
mod requests;
mod setattr;
mod successes;
mod views;
mod walking;

pub use attributes::{AttrOut, Attributes};
pub use bodies::MAX_FILE_BYTES;
pub use dirent::{Dirent, Entries};
pub use entry::EntryOut;
pub use flags::{FattrFlags, FopenFlags, GetattrFlags, InitFlags, OpenFlags};
pub use forget_one::Items;
pub use getattr::GetattrIn;
pub use handles::{FlushIn, OpenIn, OpenOut, ReadIn, ReleaseIn};
pub use init::{InitIn, Negotiated};
pub use mode::{Kind, Mode};
pub use names::{MAX_NAME, is_name, is_target, split_at_byte};
pub use reading::{known_reply, known_request, reply_body, reply_head, request};
pub use rename_flags::RenameFlags;
pub use replies::{Reply, ReplyHead};
pub use requests::{ROOT_ID, Request, RequestBody};
pub use setattr::SetattrIn;
pub use views::{AttrBytes, AttributesBytes, EntryBytes, SetattrBytes};
pub use walking::{entries, items};
