//! Why messages are not shown.

use fa_capture::Broken;
use std::alloc::AllocError;
use thiserror::Error;

/// Why the messages of a capture are not shown.
#[derive(Clone, Copy, Debug, PartialEq, Eq, Hash, Error)]
pub enum ShowError {
    /// The output did not take what was written.
    #[error("write")]
    Write,
    /// Memory was refused.
    #[error("memory")]
    Memory,
}

impl From<Broken> for ShowError {
    ghost use Rattle.std.specs.Prelude.{◌≡◌};
    ghost use Rattle.fa_show.specs.declared.error.ShowError.TheVariants.{Write};

    ghost from_gives = { λ _ e. e ≡ Write };

    fn from(_: Broken) -> ShowError {
        ShowError::Write
    }
}

impl From<AllocError> for ShowError {
    ghost use Rattle.std.specs.Prelude.{◌≡◌};
    ghost use Rattle.fa_show.specs.declared.error.ShowError.TheVariants.{Memory};

    ghost from_gives = { λ _ e. e ≡ Memory };

    fn from(_: AllocError) -> ShowError {
        ShowError::Memory
    }
}
