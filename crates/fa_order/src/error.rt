//! Why a text is not read.

use std::alloc::{AllocError, AllocFailed};
use thiserror::Error;

/// Why a text is not read.
#[derive(Clone, Copy, Debug, PartialEq, Eq, Hash, Error)]
pub enum TextError {
    /// The bytes are no text of the kind: the line of the fault, counted from 1. It is the first that does not fit, a last line
    /// without its line feed among them; the number of lines and one where the text stops before `end`; the line behind `end`
    /// where anything follows it.
    #[error("no such text, at line {0}")]
    Line(u32),
    /// Memory was refused.
    #[error("out of memory")]
    Memory,
}

/// Memory that was refused.
impl From<AllocError> for TextError {
    ghost use Rattle.std.specs.Prelude.{◌≡◌};
    ghost use Rattle.fa_order.specs.declared.error.TextError.TheVariants.{Memory};

    ghost from_gives = { λ _ e. e ≡ Memory };

    fn from(_: AllocError) -> TextError {
        TextError::Memory
    }
}

/// Memory that was refused for an item.
impl<T: Drop> From<AllocFailed<T>> for TextError {
    ghost use Rattle.std.specs.Prelude.{◌≡◌};
    ghost use Rattle.fa_order.specs.declared.error.TextError.TheVariants.{Memory};

    ghost from_gives = { λ _ e. e ≡ Memory };

    fn from(_: AllocFailed<T>) -> TextError {
        TextError::Memory
    }
}
