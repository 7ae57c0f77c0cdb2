//! Why a tree refuses.

use std::alloc::AllocError;
use thiserror::Error;

/// Why a tree does not take a step, or a name that is to be added. The tree is as it was.
#[derive(Clone, Copy, Debug, PartialEq, Eq, Hash, Error)]
pub enum StepError {
    /// The tree does not allow it: the code of the first check that fails, one of [`codes`](fa_capture::codes).
    #[error("not allowed, by code {0}")]
    Refused(u16),
    /// Memory for a file, its bytes, a name, a node or an open directory, or for what was listed so far, was refused; or a file was to be
    /// put in by name where there are 2^32.
    #[error("out of memory")]
    Memory,
}

/// The codes of the tree's checks.
impl From<u16> for StepError {
    ghost use Rattle.std.specs.Prelude.{◌≡◌};
    ghost use Rattle.fa_tree.specs.declared.error.StepError.TheVariants.{Refused};

    ghost from_gives = { λ code e. e ≡ Refused code };

    fn from(code: u16) -> StepError {
        StepError::Refused(code)
    }
}

/// Memory that was refused.
impl From<AllocError> for StepError {
    ghost use Rattle.std.specs.Prelude.{◌≡◌};
    ghost use Rattle.fa_tree.specs.declared.error.StepError.TheVariants.{Memory};

    ghost from_gives = { λ _ e. e ≡ Memory };

    fn from(_: AllocError) -> StepError {
        StepError::Memory
    }
}
