//! Streams of /dev/fuse traffic, judged while they are written.
//!
//! [`watch`] reads a capture as it comes and tells the first message that breaks the protocol, with what was read behind it a piece at
//! most. It keeps what is alive behind the messages, and neither these nor their calls.
#![tactic(auto)]

mod message;
mod stream;
mod watching;

pub use message::MessageError;
pub use watching::{MAX_PULLS, Seen, WatchError, watch};
