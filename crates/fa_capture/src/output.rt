//! Bytes that go out.

ghost use Rattle.std.specs.Prelude.{◌≡◌, ℕ, Bool, ◌||◌, List, Option, None, OnOk, is_err};
ghost use Rattle.std.specs.Io.KnownBytes.{Appends};

use thiserror::Error;

/// An output did not take all of the bytes.
#[derive(Clone, Copy, Debug, PartialEq, Eq, Hash, Error)]
#[error("the output is broken")]
pub struct Broken;

/// A sink of bytes that remembers whether it broke.
///
/// This mark is set by [`Broken`] and by nothing else, and is never cleared.
pub trait Output {
    /// The bytes that stand written, where the output tells them.
    ghost written: { Self → Option (List ℕ) } = { λ _. None };

    /// Whether a put has failed.
    ghost is_broken: { Self → Bool };

    /// Appends all of the bytes. Nothing is said of what went out where it answers [`Broken`].
    fn put(&mut self, bytes: &[u8]) -> Result<(), Broken>
        ensures bytes { OnOk result (Appends (written self.old) (written self.new) bytes.now) }
        ensures broken { is_broken self.new ≡ is_broken self.old || is_err result };

    /// Whether some put answered [`Broken`].
    fn broken(&self) -> bool
        ensures { result ≡ is_broken self.now };
}
