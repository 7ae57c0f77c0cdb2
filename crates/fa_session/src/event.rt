//! What the messages of a session are.

ghost use Rattle.fa_bodies.specs.Requests.{IsRequest, request_shown};
ghost use Rattle.fa_bodies.specs.Replies.{IsReply, reply_shown};

use fa_bodies::{Reply, Request};
use std::mem::size_of;

/// A request, with the message that it is.
#[derive(Clone, Copy, Debug)]
pub struct RequestMessage<'a> {
    /// The message.
    pub bytes: &'a [u8],
    /// What it asks for.
    pub request: Request<'a>,
    // The message is this request.
    pub ghost read: { ∥ IsRequest bytes.now (request_shown request) ∥₁ },
}

/// A reply to a request, with both messages.
#[derive(Clone, Copy, Debug)]
pub struct ReplyMessages<'a> {
    /// The request that it answers.
    pub to: RequestMessage<'a>,
    /// The reply's message.
    pub bytes: &'a [u8],
    /// What the server says to it.
    pub reply: Reply<'a>,
    // The message is this reply to the request.
    pub ghost read: { ∥ IsReply (request_shown to.request) bytes.now (reply_shown reply) ∥₁ },
}

/// What a message that is allowed is. Messages are numbered from 0, in the order of their records.
#[derive(Clone, Copy, Debug)]
pub enum Event<'a> {
    /// A request.
    Asked {
        /// The number of the message.
        at: u32,
        /// The request.
        message: RequestMessage<'a>,
    },
    /// The reply to a request.
    Answered {
        /// The number of the message.
        at: u32,
        /// The number of the request's message.
        asked: u32,
        /// The tag that the session had when the request came ([`Session::set_tag`](crate::Session::set_tag)).
        tag: u32,
        /// Both messages.
        messages: ReplyMessages<'a>,
    },
    /// A notification, which answers nothing.
    Notice {
        /// The number of the message.
        at: u32,
    },
}

const _: () = prove!(size_of::<Event<'static>>() <= 176);
