//! The messages of a capture, one after the other: whether they keep the protocol, and their calls.

ghost use Rattle.std.specs.Prelude.{◌≡◌, ℕ, ◌<◌, ◌∷◌, ◌++◌, [], List, length, take, IfOk, IfErr, OnOk};
ghost use Rattle.fa_capture.specs.Message.{Message, message};
ghost use Rattle.fa_capture.specs.Captures.{IsCaptureOf};
ghost use Rattle.fa_capture.specs.declared.limits.TheConstants.{MAX_MESSAGES};
ghost use Rattle.fa_capture.specs.declared.packet.Direction.TheVariants.{ToServer, FromServer};
ghost use Rattle.fa_ledger.specs.Passing.{Passes};
ghost use Rattle.fa_watch.specs.Refusals.{IsRefusal};
ghost use Rattle.fa_check.specs.Verdicts.{AreMessagesOf};
ghost use Rattle.fa_audit.specs.parts.Protocol.{ShowBoth, messages_of};
ghost use Rattle.fa_audit.specs.parts.Answers.{AreCallsOf, IsCaptureRefused};

use fa_capture::{Capture, CaptureFault, Direction, Packet, Seed, Walk, codes};
use fa_ledger::{Calls, Ledger};
use fa_session::Session;
use fa_watch::MessageError;
use std::alloc::{AllocError, Global};

/// Why a capture has no calls.
#[derive(Clone, Copy, Debug, PartialEq, Eq)]
pub(crate) enum Broken {
    /// The number of the first message that does not keep the protocol, or of the framing fault of a capture, and the code of the
    /// first check that it fails.
    Fault { at: u32, code: u16 },
    /// Memory was refused.
    Memory,
}

impl From<AllocError> for Broken {
    ghost use Rattle.std.specs.Prelude.{◌≡◌};
    ghost use Rattle.fa_audit.specs.declared.protocol.Broken.TheVariants.{Memory};

    ghost from_gives = { λ _ e. e ≡ Memory };

    fn from(_: AllocError) -> Broken {
        Broken::Memory
    }
}

/// Takes the next message into the session and into the ledger. After an error the session may have taken it, and both are of
/// no use any more.
fn accept<'a>(
    session: &mut Session<'a>,
    ledger: &mut Ledger<'a>,
    packet: &Packet<'a>,
) -> Result<(), MessageError>
    requires { (c : List Message) × ShowBoth c session.old ledger.old × (length c < MAX_MESSAGES) }
    ensures passes { OnOk result ((c : List Message) → ShowBoth c session.old ledger.old → length c < MAX_MESSAGES → Passes c (message packet.now)) }
    ensures shows { OnOk result ((c : List Message) → ShowBoth c session.old ledger.old → length c < MAX_MESSAGES → ShowBoth (c ++ message packet.now ∷ []) session.new ledger.new) }
    ensures refused { IfErr result (λ error. (c : List Message) → ShowBoth c session.old ledger.old → length c < MAX_MESSAGES → IsRefusal c (message packet.now) error) }
{
    match packet.direction {
        Direction::ToServer => accept_to_server(session, ledger, packet),
        Direction::FromServer => accept_from_server(session, ledger, packet),
    }
}

/// Takes the next message, one to the server, as [`accept`] does.
fn accept_to_server<'a>(
    session: &mut Session<'a>,
    ledger: &mut Ledger<'a>,
    packet: &Packet<'a>,
) -> Result<(), MessageError>
    requires show { (c : List Message) × ShowBoth c session.old ledger.old × (length c < MAX_MESSAGES) }
    requires direction { packet.now.direction ≡ ToServer }
    ensures passes { OnOk result ((c : List Message) → ShowBoth c session.old ledger.old → length c < MAX_MESSAGES → Passes c (message packet.now)) }
    ensures shows { OnOk result ((c : List Message) → ShowBoth c session.old ledger.old → length c < MAX_MESSAGES → ShowBoth (c ++ message packet.now ∷ []) session.new ledger.new) }
    ensures refused { IfErr result (λ error. (c : List Message) → ShowBoth c session.old ledger.old → length c < MAX_MESSAGES → IsRefusal c (message packet.now) error) }
{
    session.set_tag(ledger.next_place());
    let asked = session.accept_to_server(packet)?;
    ledger.accept(&asked)?;
    Ok(())
}

/// Takes the next message, one from the server, as [`accept`] does.
fn accept_from_server<'a>(
    session: &mut Session<'a>,
    ledger: &mut Ledger<'a>,
    packet: &Packet<'a>,
) -> Result<(), MessageError>
    requires show { (c : List Message) × ShowBoth c session.old ledger.old × (length c < MAX_MESSAGES) }
    requires direction { packet.now.direction ≡ FromServer }
    ensures passes { OnOk result ((c : List Message) → ShowBoth c session.old ledger.old → length c < MAX_MESSAGES → Passes c (message packet.now)) }
    ensures shows { OnOk result ((c : List Message) → ShowBoth c session.old ledger.old → length c < MAX_MESSAGES → ShowBoth (c ++ message packet.now ∷ []) session.new ledger.new) }
    ensures refused { IfErr result (λ error. (c : List Message) → ShowBoth c session.old ledger.old → length c < MAX_MESSAGES → IsRefusal c (message packet.now) error) }
{
    let said = session.accept_from_server(packet)?;
    ledger.accept(&said)?;
    Ok(())
}

/// The calls of the first messages of a capture, or of all where there are fewer, as a capture of their own. What stands behind them is
/// not looked at.
///
/// # Errors
///
/// - [`Broken::Fault`] where one of them does not keep the protocol. It is the first fault of the capture.
/// - [`Broken::Memory`] where memory was refused.
///
/// # Cost
///
/// One pass, at each message that of [`Session::accept`] and [`Ledger::accept`]; no list of the messages is made.
pub(crate) fn calls_of_front<'a>(
    alloc: Global,
    capture: &Capture<'a>,
    messages: usize,
) -> Result<Calls<'a>, Broken>
    ensures calls { IfOk result (λ calls. AreMessagesOf calls (take messages (messages_of capture.now))) }
    ensures fault { IfErr result (λ broken. (bytes : List ℕ) → IsCaptureOf bytes capture.now → IsCaptureRefused bytes broken) }
{
    let mut session = Session::new(alloc, capture.seed);
    let mut ledger = Ledger::new(alloc, capture.seed);
    let mut at = 0;
    for packet in capture.packets().take(messages) {
        match accept(&mut session, &mut ledger, &packet) {
            Ok(()) => at += 1,
            Err(MessageError::Refused(code)) => return Err(Broken::Fault { at, code }),
            Err(MessageError::Memory) => return Err(Broken::Memory),
        }
    }
    Ok(ledger.into_calls())
}

/// The calls of a good capture.
///
/// # Errors
///
/// - [`Broken::Fault`] at the first fault of a capture that is not good.
/// - [`Broken::Memory`] where memory was refused.
///
/// # Cost
///
/// That of [`calls_of_front`] for all messages.
pub(crate) fn good_calls<'a>(alloc: Global, capture: &Capture<'a>) -> Result<Calls<'a>, Broken>
    ensures good { IfOk result (λ calls. (bytes : List ℕ) → IsCaptureOf bytes capture.now → AreCallsOf bytes calls) }
    ensures fault { IfErr result (λ broken. (bytes : List ℕ) → IsCaptureOf bytes capture.now → IsCaptureRefused bytes broken) }
{
    let calls = calls_of_front(alloc, capture, capture.messages as usize)?;
    match capture.fault {
        Some(CaptureFault { whole, code }) => Err(Broken::Fault { at: whole, code }),
        None => Ok(calls),
    }
}

/// The calls of a good capture by its bytes. Each record is judged for the framing as the walk comes to it, so the records are gone
/// through once, where a [`Capture`] would be read before its messages are.
///
/// # Errors
///
/// Those of [`good_calls`].
///
/// # Cost
///
/// One pass, at each message that of [`Walk::next`], [`Session::accept`] and [`Ledger::accept`].
pub(crate) fn good_calls_of_bytes(alloc: Global, bytes: &[u8]) -> Result<Calls<'_>, Broken>
    ensures good { IfOk result (AreCallsOf bytes.now) }
    ensures fault { IfErr result (IsCaptureRefused bytes.now) }
{
    let Some(mut walk) = Walk::new(bytes) else {
        return Err(Broken::Fault {
            at: 0,
            code: codes::NO_MAGIC,
        });
    };
    let seed = Seed::default();
    let mut session = Session::new(alloc, seed);
    let mut ledger = Ledger::new(alloc, seed);
    let mut taken = 0;
    loop {
        let packet = match walk.next() {
            Ok(Some(packet)) => packet,
            Ok(None) => return Ok(ledger.into_calls()),
            Err(code) => return Err(Broken::Fault { at: taken, code }),
        };
        match accept(&mut session, &mut ledger, &packet) {
            Ok(()) => taken += 1,
            Err(MessageError::Refused(code)) => return Err(Broken::Fault { at: taken, code }),
            Err(MessageError::Memory) => return Err(Broken::Memory),
        }
    }
}
