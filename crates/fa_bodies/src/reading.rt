//! The readers of whole messages.

ghost use Rattle.std.specs.Prelude.{◌≡◌, ◌↔◌, IsTrue, IfOk, IfErr, OnOk, IfSome, IfNone};
ghost use Rattle.fa_capture.specs.Checks.{AllHold, FirstFailure, checks_of};
ghost use Rattle.fa_bodies.specs.Requests.{PlainRequest, IsRequest, request_shown, request_checks};
ghost use Rattle.fa_bodies.specs.Replies.{PlainReply, IsErrorValue, IsNotificationCode, IsReplyHead, IsReply, Says, RepeatsUnique, head_rules, reply_shown, reply_head_checks, reply_checks};

use crate::bodies::{known_body, request_body};
use crate::headers::{IN_HEADER, InHeader, OUT_HEADER, check_length, in_header_at, out_header_at};
use crate::replies::{Reply, ReplyHead};
use crate::requests::{Request, RequestBody};
use crate::successes::success;
use crate::walking::known_entries;
use fa_capture::{Packet, codes};

/// The least error that a reply may have.
const LEAST_ERROR: i32 = -999;

/// The request that a message is.
///
/// The message has the header `struct fuse_in_header` of `fuse.h` (40 bytes), whose length is that of
/// the message, and the body of its operation, as [`RequestBody`](crate::RequestBody) lists them: a
/// struct of `fuse.h`, names or both. A name has 1 to 1,024 bytes without zero byte and slash, is
/// neither `.` nor `..`, and ends at one zero byte; a target has one byte or more and ends likewise.
/// Bystanders and changers are read by their header alone, but RENAME2, whose body has its form whatever its flags.
///
/// Errors are codes of [`fa_capture::codes`], the first that applies: `HEADER_TOO_SHORT` for fewer
/// than 40 bytes, `LENGTH_FIELD` where the header's length is not that of the message, `OPERATION`
/// for an opcode that is not 1 to 47 or is 7, 19 or 41, `REQUEST_BODY` for a body that its operation
/// does not have, `PROFILE_LIMIT` for a WRITE or a SETATTR of a size that goes past
/// [`MAX_FILE_BYTES`](crate::MAX_FILE_BYTES).
///
/// Takes no memory. The time is constant but for the bytes of names and targets.
#[inline(always)]
pub fn request<'a>(p: &Packet<'a>) -> Result<Request<'a>, u16>
    ensures found { IfOk result (λ r. IsRequest p.now.bytes.now (request_shown r)) }
    ensures only { IfOk result
        (λ r. (other : PlainRequest) → IsRequest p.now.bytes.now other → other ≡ request_shown r) }
    ensures passes { OnOk result (AllHold (request_checks p.now.bytes.now)) }
    ensures fault { IfErr result (FirstFailure (request_checks p.now.bytes.now)) }
{
    check_length(p.bytes, IN_HEADER)?;
    let (header, body) = in_header_at(p.bytes);
    let body = request_body(header.opcode, body)?;
    Ok(request_of(header, body))
}

/// The request that a message is known to be, as where [`request`] answered `Ok`.
///
/// Takes no memory, in constant time, but for MKNOD, SYMLINK, RENAME and RENAME2, whose names and targets are looked at.
#[inline(always)]
pub fn known_request<'a>(p: &Packet<'a>) -> Request<'a>
    requires { ∥ ((r : PlainRequest) × IsRequest p.now.bytes.now r) ∥₁ }
    ensures { ∥ IsRequest p.now.bytes.now (request_shown result) ∥₁ }
{
    let (header, body) = in_header_at(p.bytes);
    request_of(header, known_body(header.opcode, body))
}

/// The request of a header and a body.
#[inline(always)]
fn request_of<'a>(header: InHeader, body: RequestBody<'a>) -> Request<'a>
    ensures { result ≡ record { unique = header.unique; node = header.nodeid; opcode = header.opcode; body = body.entry } }
{
    Request {
        unique: header.unique,
        node: header.nodeid,
        opcode: header.opcode,
        body,
    }
}

/// The head of a message from the server: of a reply, or of a notification, whose unique is 0.
///
/// The message has the header `struct fuse_out_header` of `fuse.h` (16 bytes): its length, an error
/// from -999 to 0, and a unique. A notification has its code in the place of the error: 1 POLL, 2
/// INVAL_INODE, 3 INVAL_ENTRY, 4 STORE or 6 DELETE.
///
/// Errors are codes of [`fa_capture::codes`], the first that applies: `HEADER_TOO_SHORT` for fewer
/// than 16 bytes, `LENGTH_FIELD` where the header's length is not that of the message,
/// `ERROR_VALUE` for an error that is above 0 or below -999 in a message with a unique other than
/// 0, `NOTIFICATION` for another code in one with unique 0.
///
/// Takes no memory, in constant time. The body is not looked at.
#[inline(always)]
pub fn reply_head(p: &Packet<'_>) -> Result<ReplyHead, u16>
    ensures found { IfOk result (IsReplyHead p.now.bytes.now) }
    ensures only { IfOk result
        (λ head. (other : ReplyHead) → IsReplyHead p.now.bytes.now other → other ≡ head) }
    ensures passes { OnOk result (AllHold (reply_head_checks p.now.bytes.now)) }
    ensures fault { IfErr result (FirstFailure (reply_head_checks p.now.bytes.now)) }
{
    check_length(p.bytes, OUT_HEADER)?;
    let (header, _body) = out_header_at(p.bytes);
    let head = ReplyHead {
        unique: header.unique,
        error: header.error,
    };
    check_head(head)?;
    Ok(head)
}

/// Looks whether the error of a reply, or the code of a notification, is right.
fn check_head(head: ReplyHead) -> Result<(), u16>
    ensures ok { OnOk result (AllHold (checks_of (λ Such. Such head) head_rules)) }
    ensures fault { IfErr result (FirstFailure (checks_of (λ Such. Such head) head_rules)) }
{
    if head.unique == 0 {
        if !is_notification_code(head.error) {
            return Err(codes::NOTIFICATION);
        }
    } else if !is_error_value(head.error) {
        return Err(codes::ERROR_VALUE);
    }
    Ok(())
}

/// Whether a notification has this code (`enum fuse_notify_code`): POLL, INVAL_INODE, INVAL_ENTRY,
/// STORE and DELETE do, and RETRIEVE does not.
fn is_notification_code(code: i32) -> bool
    ensures { IsTrue result ↔ IsNotificationCode code }
{
    matches!(code, 1 | 2 | 3 | 4 | 6)
}

/// Whether a reply may have this error.
fn is_error_value(error: i32) -> bool
    ensures { IsTrue result ↔ IsErrorValue error }
{
    LEAST_ERROR <= error && error <= 0
}

/// What a reply says to the request that it answers.
///
/// A reply with an error other than 0 is the header alone. A success has the body of the request's
/// operation, as [`Reply`] lists them: a struct of `fuse.h`, at most as many bytes as were asked for,
/// any bytes for READLINK, or nothing. INIT has the first 24 to 64 bytes of `struct fuse_init_out`. INTERRUPT is answered by
/// the header alone, and other operations that are read by their header by any bytes; so is RENAME2 with
/// flags that this profile does not read. FORGET and BATCH_FORGET have no answer.
///
/// The one error is the code `REPLY_BODY` of [`fa_capture::codes`], for any other body. The caller
/// has read the head by [`reply_head`], and its unique is that of the request.
///
/// Takes no memory. The time is constant, but for READDIR and READDIRPLUS linear in the payload.
#[inline(always)]
pub fn reply_body<'a>(asked: &Request<'_>, p: &Packet<'a>) -> Result<Reply<'a>, u16>
    requires { RepeatsUnique p.now.bytes.now asked.now.unique }
    ensures found { IfOk result
        (λ reply. IsReply (request_shown asked.now) p.now.bytes.now (reply_shown reply)) }
    ensures only { IfOk result
        (λ reply. (other : PlainReply) → IsReply (request_shown asked.now) p.now.bytes.now other → other ≡ reply_shown reply) }
    ensures fault { IfErr result (FirstFailure (reply_checks (request_shown asked.now) p.now.bytes.now)) }
{
    let (header, body) = out_header_at(p.bytes);
    said(asked, header.error, body).ok_or(codes::REPLY_BODY)
}

/// The reply to a request that a message is known to be, as where [`reply_body`] answered `Ok`.
///
/// Takes no memory. The time is constant: the entries of a listing are not looked at.
pub fn known_reply<'a>(asked: &Request<'_>, p: &Packet<'a>) -> Reply<'a>
    requires { ∥ ((reply : PlainReply) × IsReply (request_shown asked.now) p.now.bytes.now reply) ∥₁ }
    ensures { ∥ IsReply (request_shown asked.now) p.now.bytes.now (reply_shown result) ∥₁ }
{
    let (header, body) = out_header_at(p.bytes);
    if header.error == 0 {
        match &asked.body {
            RequestBody::Readdir(_) => return Reply::Listed(known_entries(false, body)),
            RequestBody::Readdirplus(_) => return Reply::Listed(known_entries(true, body)),
            _ => {}
        }
    }
    said(asked, header.error, body).unwrap()
}

/// What a reply with this error and body says to a request.
#[inline(always)]
fn said<'a>(asked: &Request<'_>, error: i32, body: &'a [u8]) -> Option<Reply<'a>>
    ensures found { IfSome result
        (λ reply. Says (request_shown asked.now) error body.now (reply_shown reply)) }
    ensures none { IfNone result
        ((reply : PlainReply) → Says (request_shown asked.now) error body.now reply → ⊥) }
{
    if error == 0 {
        success(asked.opcode, &asked.body, body)
    } else if error < 0 && body.is_empty() && asked.body.may_be_answered() {
        Some(Reply::Refused(error))
    } else {
        None
    }
}
