//! Why a ledger does not take a message.

use std::alloc::AllocError;
use thiserror::Error;

/// Why a ledger does not take a message. The ledger is as it was.
#[derive(Clone, Copy, Debug, PartialEq, Eq, Hash, Error)]
pub enum LedgerError {
    /// The message breaks a rule of nodes or file handles: the code of the first that it breaks, one of
    /// [`codes`](fa_capture::codes).
    #[error("not allowed, by code {0}")]
    Refused(u16),
    /// Memory for one more call, node or file handle, or for the nodes and the offsets of a listing, was refused.
    #[error("out of memory")]
    Memory,
}

/// The codes of the ledger's checks.
impl From<u16> for LedgerError {
    ghost use Rattle.std.specs.Prelude.{◌≡◌};
    ghost use Rattle.fa_ledger.specs.declared.error.LedgerError.TheVariants.{Refused};

    ghost from_gives = { λ code e. e ≡ Refused code };

    fn from(code: u16) -> LedgerError {
        LedgerError::Refused(code)
    }
}

/// Memory that was refused.
impl From<AllocError> for LedgerError {
    ghost use Rattle.std.specs.Prelude.{◌≡◌};
    ghost use Rattle.fa_ledger.specs.declared.error.LedgerError.TheVariants.{Memory};

    ghost from_gives = { λ _ e. e ≡ Memory };

    fn from(_: AllocError) -> LedgerError {
        LedgerError::Memory
    }
}
