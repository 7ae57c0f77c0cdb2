//! A capture.

ghost use Rattle.std.specs.Prelude.{◌≡◌, length, ℕ, List};
ghost use Rattle.fa_capture.specs.Message.{without_times};
ghost use Rattle.fa_capture.specs.Framing.{IsFramed};
ghost use Rattle.fa_capture.specs.Reading.{IsRecording};

use crate::fault::CaptureFault;
use crate::packets::Packets;
use crate::seed::Seed;

/// A capture: its packets, and the fault of the framing that ends them, if there is one.
#[derive(Clone, Copy, Debug)]
pub struct Capture<'a> {
    pub(crate) packets: Packets<'a>,
    /// How many packets there are: the whole records before the fault.
    pub messages: u32,
    /// Why the packets end before the bytes do: no magic, or the first record that fails a check.
    pub fault: Option<CaptureFault>,
    /// What the tables of what is made of it are hashed with: [`Seed::default`] where [`with_seed`](Capture::with_seed) gave no other.
    pub seed: Seed,
    // It is the capture of some bytes; its messages are within the limits, and as many as are told.
    pub ghost framed: { IsFramed (without_times packets.records.0) },
    pub ghost of_bytes: { ∥ ((bytes : List ℕ) × IsRecording bytes packets.records.0 fault) ∥₁ },
    pub ghost counted: { messages ≡ length packets.records.0 },
}
