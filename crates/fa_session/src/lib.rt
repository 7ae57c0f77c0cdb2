//! Sessions of /dev/fuse: which request a reply answers, and the first message that breaks the protocol.
//!
//! A [`Session`] takes the messages of a capture one after the other. It tells what each of them is, or the code of the
//! first check that it fails. The rules of a session are those of `fuse.h` at protocol 7.31 and of this profile.
#![tactic(auto)]

mod error;
mod event;
pub mod laws;
mod outstanding;
mod parked;
mod rules;
mod session;
mod waiting;

pub use error::SessionError;
pub use event::{Event, ReplyMessages, RequestMessage};
pub use parked::Parked;
pub use session::Session;
