//! Why a session does not take a message.

use std::alloc::AllocFailed;
use thiserror::Error;

/// Why a session does not take a message. The session is as it was.
#[derive(Clone, Copy, Debug, PartialEq, Eq, Hash, Error)]
pub enum SessionError {
    /// The message is not allowed: the code of the first check that it fails, one of [`codes`](fa_capture::codes).
    #[error("not allowed, by code {0}")]
    Refused(u16),
    /// Memory for an outstanding request was refused.
    #[error("out of memory")]
    Memory,
}

/// The codes of the readers of fa_bodies and of the session's own checks.
impl From<u16> for SessionError {
    ghost use Rattle.std.specs.Prelude.{◌≡◌};
    ghost use Rattle.fa_session.specs.declared.error.SessionError.TheVariants.{Refused};

    ghost from_gives = { λ code e. e ≡ Refused code };

    fn from(code: u16) -> SessionError {
        SessionError::Refused(code)
    }
}

impl<T: Drop> From<AllocFailed<T>> for SessionError {
    ghost use Rattle.std.specs.Prelude.{◌≡◌};
    ghost use Rattle.fa_session.specs.declared.error.SessionError.TheVariants.{Memory};

    ghost from_gives = { λ _ e. e ≡ Memory };

    fn from(_: AllocFailed<T>) -> SessionError {
        SessionError::Memory
    }
}
