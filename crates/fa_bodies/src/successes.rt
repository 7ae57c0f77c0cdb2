//! The bodies of successes: one reader for each shape.

ghost use Rattle.std.specs.Prelude.{IfSome, IfNone};
ghost use Rattle.fa_bodies.specs.Requests.{body_shown};
ghost use Rattle.fa_bodies.specs.Replies.{PlainReply, IsEntryBody, IsAttributesBody, IsOpenedBody, IsNegotiatedBody, IsCreatedBody, IsWrittenBody, IsBytesBody, IsListedBody, IsEmptyBody, IsSuccessBody, reply_shown};

use crate::block::whole;
use crate::handles::WriteOut;
use crate::init::negotiated_body;
use crate::opcodes::INTERRUPT;
use crate::replies::Reply;
use crate::requests::RequestBody;
use crate::views::{AttrBytes, EntryBytes};
use crate::walking::listing;

/// What the body of a success says to a request with this opcode and body.
#[inline(always)]
pub(crate) fn success<'a>(opcode: u32, asked: &RequestBody<'_>, body: &'a [u8]) -> Option<Reply<'a>>
    ensures found { IfSome result
        (λ reply. IsSuccessBody opcode (body_shown asked.now) body.now (reply_shown reply)) }
    ensures none { IfNone result
        ((reply : PlainReply) → IsSuccessBody opcode (body_shown asked.now) body.now reply → ⊥) }
{
    match asked {
        RequestBody::Lookup { .. }
        | RequestBody::Symlink { .. }
        | RequestBody::Mknod { .. }
        | RequestBody::Mkdir { .. }
        | RequestBody::Link { .. } => entry(body),
        RequestBody::Create { .. } => created(body),
        RequestBody::Getattr(_) | RequestBody::Setattr(_) => attributes(body),
        RequestBody::Open(_) | RequestBody::Opendir(_) => opened(body),
        RequestBody::Read(read) => at_most(read.size, body),
        RequestBody::Readlink => Some(Reply::Bytes(body)),
        RequestBody::Write { size, .. } => written(*size, body),
        RequestBody::Unlink { .. }
        | RequestBody::Rmdir { .. }
        | RequestBody::Rename { .. }
        | RequestBody::Rename2 { .. }
        | RequestBody::Release(_)
        | RequestBody::Releasedir(_)
        | RequestBody::Flush(_) => empty(body),
        RequestBody::Readdir(read) => listed(false, read.size, body),
        RequestBody::Readdirplus(read) => listed(true, read.size, body),
        RequestBody::Init(_) => negotiated(body),
        RequestBody::Passed if opcode == INTERRUPT && !body.is_empty() => None,
        RequestBody::Passed => Some(Reply::Skipped),
        RequestBody::Forget { .. } | RequestBody::BatchForget { .. } => None,
    }
}

/// The file of a name.
fn entry(body: &[u8]) -> Option<Reply<'_>>
    ensures found { IfSome result (λ reply. IsEntryBody body.now (reply_shown reply)) }
    ensures none { IfNone result ((reply : PlainReply) → IsEntryBody body.now reply → ⊥) }
{
    Some(Reply::Entry(EntryBytes::whole(body)?))
}

/// The attributes of a file.
fn attributes(body: &[u8]) -> Option<Reply<'_>>
    ensures found { IfSome result (λ reply. IsAttributesBody body.now (reply_shown reply)) }
    ensures none { IfNone result ((reply : PlainReply) → IsAttributesBody body.now reply → ⊥) }
{
    Some(Reply::Attributes(AttrBytes::whole(body)?))
}

/// An open handle.
fn opened(body: &[u8]) -> Option<Reply<'_>>
    ensures found { IfSome result (λ reply. IsOpenedBody body.now (reply_shown reply)) }
    ensures none { IfNone result ((reply : PlainReply) → IsOpenedBody body.now reply → ⊥) }
{
    Some(Reply::Opened(whole(body)?))
}

/// The file and the open handle that CREATE is answered.
fn created(body: &[u8]) -> Option<Reply<'_>>
    ensures found { IfSome result (λ reply. IsCreatedBody body.now (reply_shown reply)) }
    ensures none { IfNone result ((reply : PlainReply) → IsCreatedBody body.now reply → ⊥) }
{
    let (entry, rest) = EntryBytes::front(body)?;
    let open = whole(rest)?;
    Some(Reply::Created { entry, open })
}

/// How many bytes were written, at most as many as were asked.
fn written(asked: u32, body: &[u8]) -> Option<Reply<'_>>
    ensures found { IfSome result (λ reply. IsWrittenBody asked body.now (reply_shown reply)) }
    ensures none { IfNone result ((reply : PlainReply) → IsWrittenBody asked body.now reply → ⊥) }
{
    let WriteOut { size } = whole(body)?;
    if size > asked {
        return None;
    }
    Some(Reply::Written(size))
}

/// Bytes, at most as many as were asked.
fn at_most(asked: u32, body: &[u8]) -> Option<Reply<'_>>
    ensures found { IfSome result (λ reply. IsBytesBody asked body.now (reply_shown reply)) }
    ensures none { IfNone result ((reply : PlainReply) → IsBytesBody asked body.now reply → ⊥) }
{
    if body.len() > asked as usize {
        return None;
    }
    Some(Reply::Bytes(body))
}

/// Entries of a directory, of at most as many bytes as were asked.
fn listed(plus: bool, asked: u32, body: &[u8]) -> Option<Reply<'_>>
    ensures found { IfSome result (λ reply. IsListedBody plus asked body.now (reply_shown reply)) }
    ensures none { IfNone result ((reply : PlainReply) → IsListedBody plus asked body.now reply → ⊥) }
{
    if body.len() > asked as usize {
        return None;
    }
    Some(Reply::Listed(listing(plus, body)?))
}

/// An empty body.
fn empty(body: &[u8]) -> Option<Reply<'_>>
    ensures found { IfSome result (λ reply. IsEmptyBody body.now (reply_shown reply)) }
    ensures none { IfNone result ((reply : PlainReply) → IsEmptyBody body.now reply → ⊥) }
{
    if !body.is_empty() {
        return None;
    }
    Some(Reply::Empty)
}

/// What INIT is answered.
fn negotiated(body: &[u8]) -> Option<Reply<'_>>
    ensures found { IfSome result (λ reply. IsNegotiatedBody body.now (reply_shown reply)) }
    ensures none { IfNone result ((reply : PlainReply) → IsNegotiatedBody body.now reply → ⊥) }
{
    Some(Reply::Negotiated(negotiated_body(body)?))
}
