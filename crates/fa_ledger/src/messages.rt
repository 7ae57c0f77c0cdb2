//! The two messages of a tree request.

ghost use Rattle.std.specs.Prelude.{◌≡◌, ◌≢◌, ◌↔◌, IsTrue, Option, Some, None, option_map};
ghost use Rattle.fa_bodies.specs.Requests.{PlainRequest, IsRequest, request_shown, body_shown};
ghost use Rattle.fa_bodies.specs.Replies.{PlainReply, reply_shown};
ghost use Rattle.fa_ledger.specs.Kinds.{IsTreeRequest};
ghost use Rattle.fa_ledger.specs.declared.operation.Outcome.TheVariants.{Unanswered};
ghost use Rattle.fa_ledger.specs.Operations.{ended, operation_of, operation_shown};
ghost use Rattle.fa_ledger.specs.Said.{IsReplyIfAny, OperationSaid};
ghost use Rattle.fa_ledger.specs.parts.SaidLaws.{OperationSaid-prop};
ghost use Rattle.fa_ledger.specs.parts.Ids.{id_in};

use crate::operation::Operation;
use byteorder::{ByteOrder, LittleEndian};
use fa_bodies::{Reply, Request, known_reply, known_request};
use fa_capture::{Direction, Packet};
use fa_session::{ReplyMessages, RequestMessage};

/// A tree request and its reply, if it has one, as they were recorded.
#[derive(Clone, Copy, Debug)]
pub struct CallMessages<'a> {
    /// The request.
    pub request: &'a [u8],
    /// The reply. No bytes stand for none: an `Option` would take 8 bytes more.
    pub reply: &'a [u8],
    // They are a tree request and the reply to it, and what they say.
    pub ghost said: { OperationSaid request.now reply.now } by { OperationSaid-prop request.now reply.now },
}

impl<'a> CallMessages<'a> {
    /// The message of a tree request without a reply.
    #[inline(always)]
    pub(crate) fn asked(message: &RequestMessage<'a>) -> Self
        requires { IsTreeRequest (body_shown message.now.request.body) }
        ensures said { operation_of (body_shown message.now.request.body) None ≡ Some result.said.0 }
        ensures request { result.request.now ≡ message.now.bytes.now }
    {
        CallMessages {
            request: message.bytes,
            reply: &[],
        }
    }

    /// The messages of a tree request and its reply.
    #[inline(always)]
    pub(crate) fn answered(messages: &ReplyMessages<'a>) -> Self
        requires { IsTreeRequest (body_shown messages.now.to.request.body) }
        ensures said { operation_of (body_shown messages.now.to.request.body) (Some (reply_shown messages.now.reply)) ≡ Some result.said.0 }
        ensures request { result.request.now ≡ messages.now.to.bytes.now }
        ensures reply { result.reply.now ≡ messages.now.bytes.now }
    {
        CallMessages {
            request: messages.to.bytes,
            reply: messages.bytes,
        }
    }

    /// Whether there is a reply.
    ///
    /// Takes no memory, in constant time.
    #[inline(always)]
    pub fn is_answered(&self) -> bool
        ensures { IsTrue result ↔ (ended self.now.said.0 ≢ Unanswered) }
    {
        !self.reply.is_empty()
    }

    /// What is asked for, with what came of it.
    ///
    /// Takes no memory, in constant time, but for the bytes of the names and targets of MKNOD, SYMLINK, RENAME and RENAME2: both
    /// messages are read again.
    pub fn operation(&self) -> Operation<'a>
        ensures { operation_shown result ≡ self.now.said.0 }
    {
        let asked = asked_in(self.request);
        let answer = answer_in(&asked, self.reply);
        Operation::of(&asked.body, answer.as_ref()).unwrap()
    }
}

/// The node id behind the first 16 bytes: that of the node which a request is on (`nodeid` of `struct fuse_in_header`), and of the one which
/// a reply with an entry gives (`nodeid` of `struct fuse_entry_out`, behind `struct fuse_out_header`).
#[inline(always)]
pub(crate) fn id_in(bytes: &[u8]) -> u64
    ensures { result ≡ id_in bytes.now }
{
    if bytes.len() < 24 {
        return 0;
    }
    LittleEndian::read_u64(&bytes[16..24])
}

/// The request that these bytes are.
#[inline(always)]
fn asked_in<'a>(bytes: &'a [u8]) -> Request<'a>
    requires { ∥ ((r : PlainRequest) × IsRequest bytes.now r) ∥₁ }
    ensures { ∥ IsRequest bytes.now (request_shown result) ∥₁ }
{
    let packet = Packet {
        direction: Direction::ToServer,
        time: 0,
        bytes,
    };
    known_request(&packet)
}

/// What these bytes, if there are some, say to a request.
#[inline(always)]
fn answer_in<'a>(asked: &Request<'_>, bytes: &'a [u8]) -> Option<Reply<'a>>
    requires { ∥ ((answer : Option PlainReply) × IsReplyIfAny (request_shown asked.now) bytes.now answer) ∥₁ }
    ensures { ∥ IsReplyIfAny (request_shown asked.now) bytes.now (option_map reply_shown result) ∥₁ }
{
    if bytes.is_empty() {
        return None;
    }
    let packet = Packet {
        direction: Direction::FromServer,
        time: 0,
        bytes,
    };
    Some(known_reply(asked, &packet))
}
