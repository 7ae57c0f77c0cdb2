//! The message at fault.

use crate::exchange::{request_of, unique_of};
use fa_bodies::Request;
use fa_capture::{Packet, codes};

/// A message that is refused.
#[derive(Clone, Copy)]
pub(crate) struct Fault<'a> {
    /// The number of the message.
    pub number: u32,
    pub packet: Packet<'a>,
    /// The code with which it is refused.
    pub code: u16,
}

impl<'a> Fault<'a> {
    /// The request that it is, if it is one.
    pub fn request(&self) -> Option<Request<'a>> {
        request_of(&self.packet)
    }

    /// Whether it is the reply to a request, and is refused for what it says to that.
    pub fn is_of_reply(&self) -> bool {
        matches!(
            self.code,
            codes::REPLY_BODY
                | codes::INIT_REFUSED
                | codes::VERSION
                | codes::NEGOTIATED_FLAGS
                | codes::LEFT_OUT_SUCCEEDED
                | codes::OPEN_WITHOUT_HANDLE
                | codes::NODE_ID_NOT_ALLOWED
        )
    }

    /// The unique of its header, or 0 where there is no room for one.
    pub fn unique(&self) -> u64 {
        unique_of(&self.packet).unwrap_or(0)
    }
}
