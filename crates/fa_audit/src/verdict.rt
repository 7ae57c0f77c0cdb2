//! Why the audit has no verdict, and why there is nothing to judge.

ghost use Rattle.std.specs.Prelude.{◌≡◌};
ghost use Rattle.fa_audit.specs.Proposed.{answer_of};
ghost use Rattle.fa_audit.specs.CutOrders.{answer_of_uncut};

use crate::protocol::Broken;
use fa_check::Verdict;
use fa_order::TextError;
use std::alloc::AllocError;
use thiserror::Error;

/// Why there is no verdict.
#[derive(Clone, Copy, Debug, PartialEq, Eq, Hash, Error)]
pub enum AuditError {
    /// The tree text is not in its grammar: the first line that does not fit, counted from 1.
    #[error("not a tree text, at line {line}")]
    TreeText { line: u32 },
    /// The order text is not in its grammar: the first line that does not fit, counted from 1.
    #[error("not an order text, at line {line}")]
    OrderText { line: u32 },
    /// Memory was refused.
    #[error("out of memory")]
    Memory,
}

impl From<AllocError> for AuditError {
    ghost use Rattle.std.specs.Prelude.{◌≡◌};
    ghost use Rattle.fa_audit.specs.declared.verdict.AuditError.TheVariants.{Memory};

    ghost from_gives = { λ _ e. e ≡ Memory };

    fn from(_: AllocError) -> AuditError {
        AuditError::Memory
    }
}

/// Why a capture and a tree text are no start for an order.
#[derive(Clone, Copy, Debug, PartialEq, Eq, Hash, Error)]
pub enum StartError {
    /// The capture is not good: the number of the first message that does not pass or of the framing fault, and the code of the
    /// first check that it fails.
    #[error("a fault of the capture, at message {at}: code {code}")]
    Fault { at: u32, code: u16 },
    /// The tree text is not in its grammar: the first line that does not fit, counted from 1.
    #[error("not a tree text, at line {line}")]
    TreeText { line: u32 },
    /// Memory was refused.
    #[error("out of memory")]
    Memory,
}

impl StartError {
    /// As which answer of the audit it is told.
    ///
    /// Takes no memory, in constant time.
    pub fn answer(self) -> Result<Verdict, AuditError>
        ensures { result ≡ answer_of self }
    {
        match self {
            StartError::Fault { at, code } => Ok(Verdict::Fault { at, code }),
            StartError::TreeText { line } => Err(AuditError::TreeText { line }),
            StartError::Memory => Err(AuditError::Memory),
        }
    }
}

impl From<AllocError> for StartError {
    ghost use Rattle.std.specs.Prelude.{◌≡◌};
    ghost use Rattle.fa_audit.specs.declared.verdict.StartError.TheVariants.{Memory};

    ghost from_gives = { λ _ e. e ≡ Memory };

    fn from(_: AllocError) -> StartError {
        StartError::Memory
    }
}

impl From<Broken> for StartError {
    ghost use Rattle.std.specs.Prelude.{◌≡◌};
    ghost use Rattle.fa_audit.specs.parts.Answers.{start_refused};

    ghost from_gives = { λ b e. e ≡ start_refused b };

    fn from(broken: Broken) -> StartError {
        match broken {
            Broken::Fault { at, code } => StartError::Fault { at, code },
            Broken::Memory => StartError::Memory,
        }
    }
}

/// Why an order is not cut.
#[derive(Clone, Copy, Debug, PartialEq, Eq, Hash, Error)]
pub enum CutError {
    /// The capture is not good: the number of the first message that does not pass or of the framing fault, and the code of the
    /// first check that it fails.
    #[error("a fault of the capture, at message {at}: code {code}")]
    Fault { at: u32, code: u16 },
    /// The order text is not in its grammar: the first line that does not fit, counted from 1.
    #[error("not an order text, at line {line}")]
    OrderText { line: u32 },
    /// Memory was refused.
    #[error("out of memory")]
    Memory,
}

impl CutError {
    /// As which answer of the audit it is told.
    ///
    /// Takes no memory, in constant time.
    pub fn answer(self) -> Result<Verdict, AuditError>
        ensures { result ≡ answer_of_uncut self }
    {
        match self {
            CutError::Fault { at, code } => Ok(Verdict::Fault { at, code }),
            CutError::OrderText { line } => Err(AuditError::OrderText { line }),
            CutError::Memory => Err(AuditError::Memory),
        }
    }
}

impl From<AllocError> for CutError {
    ghost use Rattle.std.specs.Prelude.{◌≡◌};
    ghost use Rattle.fa_audit.specs.declared.verdict.CutError.TheVariants.{Memory};

    ghost from_gives = { λ _ e. e ≡ Memory };

    fn from(_: AllocError) -> CutError {
        CutError::Memory
    }
}

impl From<Broken> for CutError {
    ghost use Rattle.std.specs.Prelude.{◌≡◌};
    ghost use Rattle.fa_audit.specs.parts.Answers.{cut_refused};

    ghost from_gives = { λ b e. e ≡ cut_refused b };

    fn from(broken: Broken) -> CutError {
        match broken {
            Broken::Fault { at, code } => CutError::Fault { at, code },
            Broken::Memory => CutError::Memory,
        }
    }
}

impl From<TextError> for CutError {
    ghost use Rattle.std.specs.Prelude.{◌≡◌};
    ghost use Rattle.fa_audit.specs.parts.Answers.{cut_text_refused};

    ghost from_gives = { λ t e. e ≡ cut_text_refused t };

    fn from(error: TextError) -> CutError {
        match error {
            TextError::Line(line) => CutError::OrderText { line },
            TextError::Memory => CutError::Memory,
        }
    }
}
