//! Readers and writers as inputs and outputs.

ghost use Rattle.std.specs.Prelude.{◌≡◌, ◌||◌, false, OnOk, is_err};
ghost use Rattle.std.specs.Io.KnownBytes.{Appends};
ghost use Rattle.fa_capture.specs.Streams.{is_failed, is_interrupted, IsWithin, Pulls};
ghost use Rattle.fa_capture.specs.Device.{device_inner, device_failed, device_interrupted, device_broken};

use crate::input::{Input, Pull};
use crate::output::{Broken, Output};
use std::io::{ErrorKind, Read, Write};

/// An [`Input`] over a [`Read`], or an [`Output`] over a [`Write`].
///
/// A pull is one call of `read`. A put is a `write_all` and a `flush`, so that a writer that buffers
/// tells its fault at the put and not later; a writer that takes none of the bytes is broken too.
/// Neither takes memory of its own.
#[derive(Debug, Drop)]
pub struct Device<T> {
    inner: T,
    failed: bool,
    interrupted: bool,
    broken: bool,
}

impl<T> Device<T> {
    /// A device with no mark set. Takes no memory.
    pub fn new(inner: T) -> Self
        ensures inner { device_inner result ≡ inner }
        ensures failed { device_failed result ≡ false }
        ensures interrupted { device_interrupted result ≡ false }
        ensures broken { device_broken result ≡ false }
    {
        Device {
            inner,
            failed: false,
            interrupted: false,
            broken: false,
        }
    }

    /// The reader or the writer that it stands over. Takes no memory.
    pub fn into_inner(self) -> T
        ensures { result ≡ device_inner self }
    {
        let Device { inner, .. } = self;
        inner
    }
}

impl<R: Read> Input for Device<R> {
    ghost remaining = { λ d. R.remaining (device_inner d) };

    ghost has_failed = { device_failed };

    ghost was_interrupted = { device_interrupted };

    fn pull(&mut self, into: &mut [u8]) -> Pull
        ensures bound { IsWithin result into.new }
        ensures bytes { Pulls (R.remaining (device_inner self.old)) (R.remaining (device_inner self.new)) result into.new }
        ensures failed { device_failed self.new ≡ device_failed self.old || is_failed result }
        ensures interrupted { device_interrupted self.new ≡ device_interrupted self.old || is_interrupted result }
        ensures broken { device_broken self.new ≡ device_broken self.old }
    {
        match self.inner.read(into) {
            Ok(count) => Pull::Got(count),
            Err(error) if error.kind() == ErrorKind::Interrupted => {
                self.interrupted = true;
                Pull::Interrupted
            }
            Err(_) => {
                self.failed = true;
                Pull::Failed
            }
        }
    }

    fn failed(&self) -> bool {
        self.failed
    }

    fn interrupted(&self) -> bool {
        self.interrupted
    }
}

impl<W: Write> Output for Device<W> {
    ghost written = { λ d. W.contents (device_inner d) };

    ghost is_broken = { device_broken };

    fn put(&mut self, bytes: &[u8]) -> Result<(), Broken>
        ensures bytes { OnOk result (Appends (W.contents (device_inner self.old)) (W.contents (device_inner self.new)) bytes.now) }
        ensures broken { device_broken self.new ≡ device_broken self.old || is_err result }
        ensures failed { device_failed self.new ≡ device_failed self.old }
        ensures interrupted { device_interrupted self.new ≡ device_interrupted self.old }
    {
        if self.inner.write_all(bytes).is_err() || self.inner.flush().is_err() {
            self.broken = true;
            return Err(Broken);
        }
        Ok(())
    }

    fn broken(&self) -> bool {
        self.broken
    }
}
