//! Why a message is not taken.

use fa_ledger::LedgerError;
use fa_session::SessionError;

/// Why a message is not taken.
#[derive(Clone, Copy, Debug, PartialEq, Eq)]
pub enum MessageError {
    /// It does not keep the protocol: the code of the first check that it fails, one of [`fa_capture::codes`].
    Refused(u16),
    /// Memory was refused.
    Memory,
}

impl From<SessionError> for MessageError {
    ghost use Rattle.fa_watch.specs.Refusals.{session_refusal};
    ghost use Rattle.std.specs.Prelude.{◌≡◌};

    ghost from_gives = { λ s e. e ≡ session_refusal s };

    fn from(error: SessionError) -> MessageError {
        match error {
            SessionError::Refused(code) => MessageError::Refused(code),
            SessionError::Memory => MessageError::Memory,
        }
    }
}

impl From<LedgerError> for MessageError {
    ghost use Rattle.fa_watch.specs.Refusals.{ledger_refusal};
    ghost use Rattle.std.specs.Prelude.{◌≡◌};

    ghost from_gives = { λ l e. e ≡ ledger_refusal l };

    fn from(error: LedgerError) -> MessageError {
        match error {
            LedgerError::Refused(code) => MessageError::Refused(code),
            LedgerError::Memory => MessageError::Memory,
        }
    }
}
