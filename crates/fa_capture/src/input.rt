//! Bytes that come in, some at a time, and the whole of them.

ghost use Rattle.std.specs.Prelude.{◌≡◌, ◌≤◌, ◌<◌, ◌↔◌, ◌||◌, ℕ, Bool, true, false, List, length, vec_len, Option, None, IfOk, IfSome, OnOk, IsErrOf};
ghost use Rattle.std.specs.Io.KnownBytes.{IsAtEnd};
ghost use Rattle.fa_capture.specs.Streams.{is_failed, is_interrupted, pulled_count, IsWithin, Pulls};
ghost use Rattle.fa_capture.specs.declared.input.TheConstants.{MAX_READ_LIMIT};

use std::alloc::{AllocError, Global};
use thiserror::Error;

/// What one pull gave.
#[derive(Clone, Copy, Debug, PartialEq, Eq, Hash)]
pub enum Pull {
    /// So many bytes. None only at the end, or where there was no room for any.
    Got(usize),
    /// No bytes this time; the next pull may give some.
    Interrupted,
    /// The pull failed, and took no bytes.
    Failed,
}

impl Pull {
    /// How many bytes it gave.
    pub(crate) fn count(self) -> usize
        ensures { result ≡ pulled_count self }
    {
        match self {
            Pull::Got(count) => count,
            Pull::Interrupted | Pull::Failed => 0,
        }
    }
}

/// A source of bytes that remembers whether it failed and whether it was interrupted.
///
/// Each of these two marks is set by the answer of its name and by nothing else, and is never cleared.
pub trait Input {
    /// The bytes that pulls will give from here on, where the input tells them.
    ghost remaining: { Self → Option (List ℕ) } = { λ _. None };

    /// Whether a pull has failed.
    ghost has_failed: { Self → Bool };

    /// Whether a pull was interrupted.
    ghost was_interrupted: { Self → Bool };

    /// Puts the next bytes first in `into`. What stands behind them in `into` is left open.
    fn pull(&mut self, into: &mut [u8]) -> Pull
        ensures bound { IsWithin result into.new }
        ensures bytes { Pulls (remaining self.old) (remaining self.new) result into.new }
        ensures failed { has_failed self.new ≡ has_failed self.old || is_failed result }
        ensures interrupted { was_interrupted self.new ≡ was_interrupted self.old || is_interrupted result };

    /// Whether some pull answered [`Pull::Failed`].
    fn failed(&self) -> bool
        ensures { result ≡ has_failed self.now };

    /// Whether some pull answered [`Pull::Interrupted`].
    fn interrupted(&self) -> bool
        ensures { result ≡ was_interrupted self.now };
}

/// The greatest limit that [`read_all`] takes.
pub const MAX_READ_LIMIT: usize = 402_653_184;

/// How many bytes one pull asks for at most, where an input is read to its end.
pub const PIECE: usize = 65_536;

/// How many pulls may be made beyond one for each byte, where an input is read to its end: so many may be interrupted.
pub const SPARE_PULLS: usize = 65_536;

/// Why an input could not be read to its end.
#[derive(Clone, Copy, Debug, PartialEq, Eq, Hash, Error)]
pub enum ReadError {
    /// A pull failed.
    #[error("the input failed")]
    Failed,
    /// More bytes came than the limit allows.
    #[error("the input is longer than its limit")]
    TooLong,
    /// The end did not come in so many pulls as the limit and [`SPARE_PULLS`] are.
    #[error("the input was interrupted too often")]
    Turns,
    /// Memory for the bytes was refused.
    #[error("out of memory")]
    Memory,
}

impl From<AllocError> for ReadError {
    ghost use Rattle.std.specs.Prelude.{◌≡◌};
    ghost use Rattle.fa_capture.specs.declared.input.ReadError.TheVariants.{Memory};

    ghost from_gives = { λ _ e. e ≡ Memory };

    fn from(_: AllocError) -> ReadError {
        ReadError::Memory
    }
}

/// All the bytes that an input has left.
///
/// An interrupted pull is made again. No more than `limit` and [`SPARE_PULLS`] pulls are made. The limit is at
/// most [`MAX_READ_LIMIT`], and no mark of the reader is set at the call.
///
/// # Errors
///
/// - [`ReadError::Failed`] at the first pull that fails.
/// - [`ReadError::TooLong`] as soon as more than `limit` bytes have come.
/// - [`ReadError::Turns`] where so many pulls did not reach the end; some of them were interrupted.
/// - [`ReadError::Memory`] where memory for the bytes was refused.
///
/// What was pulled before an error is lost.
///
/// # Cost
///
/// Each pull asks for [`PIECE`] bytes. Each byte is copied into the result once, and the result grows by
/// doubling: time is linear in the bytes and the pulls, memory in the bytes.
pub fn read_all<R: Input>(alloc: Global, reader: &mut R, limit: usize) -> Result<Vec<u8>, ReadError>
    requires limit { limit ≤ MAX_READ_LIMIT }
    requires unfailed { R.has_failed reader.old ≡ false }
    requires uninterrupted { R.was_interrupted reader.old ≡ false }

    // All the bytes that the input had left, within the limit, and nothing is left.
    ensures bytes { IfOk result (λ v. IfSome (R.remaining reader.old) (λ bytes. v.items ≡ bytes)) }
    ensures within { IfOk result (λ v. vec_len v ≤ limit) }
    ensures end { OnOk result (IsAtEnd (R.remaining reader.new)) }

    // When each error comes.
    ensures failed { IsErrOf result ReadError.Failed ↔ (R.has_failed reader.new ≡ true) }
    ensures too_long { IsErrOf result ReadError.TooLong → IfSome (R.remaining reader.old) (λ bytes. limit < length bytes) }
    ensures turns { IsErrOf result ReadError.Turns → R.was_interrupted reader.new ≡ true }
{
    let mut bytes = Vec::new(alloc);
    let mut piece = [0; PIECE];
    for _ in 0..limit + SPARE_PULLS {
        match reader.pull(&mut piece) {
            Pull::Got(0) => return Ok(bytes),
            Pull::Got(count) if count > limit - bytes.len() => return Err(ReadError::TooLong),
            Pull::Got(count) => bytes.extend_from_slice(&piece[..count])?,
            Pull::Interrupted => {}
            Pull::Failed => return Err(ReadError::Failed),
        }
    }
    Err(ReadError::Turns)
}
