//! The rules of a session that look at one request, or at a request and the reply to it.

ghost use Rattle.std.specs.Prelude.{◌≡◌, ◌↔◌, IsTrue, OnOk, IfErr};
ghost use Rattle.fa_capture.specs.Checks.{AllHold, FirstFailure};
ghost use Rattle.fa_bodies.specs.Requests.{body_shown, request_shown};
ghost use Rattle.fa_bodies.specs.Replies.{reply_shown};
ghost use Rattle.fa_session.specs.Rules.{IsInit, IsInterrupt};
ghost use Rattle.fa_session.specs.parts.Steps.{init_checked, reply_checked, flags_of};

use crate::waiting::Waiting;
use bitflags::Flags;
use fa_bodies::{InitFlags, InitIn, Negotiated, Reply, Request, RequestBody, errno, opcodes};
use fa_capture::codes;

/// The major that both sides speak (`FUSE_KERNEL_VERSION` of `fuse.h`).
const MAJOR: u32 = 7;
/// The least of the minors of both sides (`FUSE_KERNEL_MINOR_VERSION` of `fuse.h` 7.31).
const MINOR: u32 = 31;

/// Whether a request is INIT.
#[inline(always)]
pub(crate) fn is_init(body: &RequestBody<'_>) -> bool
    ensures { IsTrue result ↔ IsInit (body_shown body.now) }
{
    matches!(body, RequestBody::Init(_))
}

/// Whether a request is INTERRUPT.
#[inline(always)]
pub(crate) fn is_interrupt(request: &Request<'_>) -> bool
    ensures { IsTrue result ↔ IsInterrupt (request_shown request.now) }
{
    request.opcode == opcodes::INTERRUPT
}

/// Whether a request may take the place of an outstanding one with its unique: both are INTERRUPT.
#[inline(always)]
pub(crate) fn may_replace(waiting: &Waiting<'_>, request: &Request<'_>) -> bool
    ensures { IsTrue result ↔ (IsInterrupt (request_shown request.now) × IsInterrupt waiting.now.said.0) }
{
    is_interrupt(request) && waiting.is_interrupt()
}

/// Looks whether a success of INIT keeps the rules. The error is the code of the first rule that it breaks.
#[inline(always)]
fn check_init_answer(init: &InitIn, answer: &Negotiated) -> Result<(), u16>
    ensures ok { OnOk result (AllHold (init_checked init.now answer.now)) }
    ensures fault { IfErr result (FirstFailure (init_checked init.now answer.now)) }
{
    if init.major != MAJOR || answer.major != MAJOR || init.minor.min(answer.minor) != MINOR {
        return Err(codes::VERSION);
    }
    let agreed = init.agreed(answer);
    if agreed.contains(InitFlags::WRITEBACK_CACHE) || agreed.contains(InitFlags::POSIX_ACL) {
        return Err(codes::NEGOTIATED_FLAGS);
    }
    Ok(())
}

/// Looks whether what a reply says to a request keeps the rules. The error is the code of the first rule that it
/// breaks.
#[inline(always)]
pub(crate) fn check_reply(asked: &Request<'_>, reply: &Reply<'_>) -> Result<(), u16>
    ensures ok { OnOk result (AllHold (reply_checked (request_shown asked.now) (reply_shown reply.now))) }
    ensures fault { IfErr result (FirstFailure (reply_checked (request_shown asked.now) (reply_shown reply.now))) }
{
    match (&asked.body, reply) {
        (RequestBody::Init(_), Reply::Refused(_)) => Err(codes::INIT_REFUSED),
        (RequestBody::Init(init), Reply::Negotiated(answer)) => check_init_answer(init, answer),
        (_, Reply::Skipped) if opcodes::is_changer(asked.opcode) => Err(codes::LEFT_OUT_SUCCEEDED),
        (RequestBody::Open(_) | RequestBody::Opendir(_), Reply::Refused(errno::ENOSYS)) => {
            Err(codes::OPEN_WITHOUT_HANDLE)
        }
        _ => Ok(()),
    }
}

/// The flags that both sides set, where a reply answers INIT.
#[inline(always)]
pub(crate) fn agreed_flags(asked: &RequestBody<'_>, reply: &Reply<'_>) -> Option<u32>
    ensures { result ≡ flags_of (body_shown asked.now) (reply_shown reply.now) }
{
    match (asked, reply) {
        (RequestBody::Init(init), Reply::Negotiated(answer)) => { Some(init.agreed(answer).bits()) }
        _ => None,
    }
}
