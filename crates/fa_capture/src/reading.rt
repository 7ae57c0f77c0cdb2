//! From bytes to captures, and to the front of one.

ghost use Rattle.std.specs.Prelude.{◌≡◌, ℕ, List, IfSome, IsNone};
ghost use Rattle.fa_capture.specs.Captures.{records_left, records_of, IsCaptureOf};
ghost use Rattle.fa_capture.specs.Reading.{HasMagic, IsFrontOf};
ghost use Rattle.fa_capture.specs.parts.Walks.{IsStop};

use crate::capture::Capture;
use crate::codes;
use crate::fault::CaptureFault;
use crate::format::Format;
use crate::packets::Packets;
use crate::seed::Seed;
use crate::walk::{Stop, Walk};

impl<'a> Capture<'a> {
    /// The messages before the fault, in the order of their records.
    ///
    /// Takes no memory, in constant time.
    pub fn packets(&self) -> Packets<'a>
        ensures { records_left result ≡ records_of self.now }
    {
        self.packets
    }

    /// The same capture, with this seed in the place of its own: the tables of what is made of it are hashed with that.
    ///
    /// Takes no memory, in constant time.
    pub fn with_seed(self, seed: Seed) -> Self
        ensures same { (bytes : List ℕ) → IsCaptureOf bytes self.entry → IsCaptureOf bytes result }
        ensures messages { result.messages ≡ self.entry.messages }
        ensures seeded { result.seed ≡ seed }
    {
        Capture {
            packets: self.packets,
            messages: self.messages,
            fault: self.fault,
            seed,
        }
    }

    /// The capture of bytes, by where the walk over their records stopped.
    pub(crate) fn up_to(bytes: &'a [u8], stop: &Stop) -> Self
        requires { ∥ IsStop bytes.now stop.now ∥₁ }
        ensures { IsCaptureOf bytes.now result }
    {
        let packets = Packets::of(
            stop.so_far.format,
            &bytes[stop.so_far.format.magic().len()..stop.read],
        );
        Capture {
            packets,
            messages: stop.so_far.count as u32,
            fault: stop.fault(),
            seed: Seed::default(),
        }
    }

    /// The capture of bytes that begin with no magic.
    pub(crate) fn without_magic() -> Self
        ensures { (bytes : List ℕ) → (HasMagic bytes → ⊥) → IsCaptureOf bytes result }
    {
        Capture {
            packets: Packets::of(Format::Plain, &[]),
            messages: 0,
            fault: Some(NO_MAGIC_FAULT),
            seed: Seed::default(),
        }
    }
}

/// The fault of bytes that begin with no magic.
pub(crate) const NO_MAGIC_FAULT: CaptureFault = CaptureFault {
    whole: 0,
    code: codes::NO_MAGIC,
};

/// Splits a capture into its packets.
///
/// A capture is the magic of its [`Format`] and then records: a direction byte (0 to the server, 1 from it), in `FUSECAP2` the time of
/// the recording in eight bytes, the length of the message in four bytes, and that many bytes; numbers have their low byte first. The
/// packets are the whole records before the first fault; each packet's bytes are a slice of `bytes`.
///
/// Where the first 8 bytes are no magic, or there are fewer, the fault is [`codes::NO_MAGIC`] and there are no packets. Otherwise it is
/// told at the first record that fails one of these checks, in this order:
///
/// - [`codes::CAPTURE_TOO_LARGE`]: [`MAX_MESSAGES`](crate::limits::MAX_MESSAGES) records came before it;
/// - [`codes::DIRECTION`]: its direction byte is above 1;
/// - [`codes::CUT_OFF`]: fewer bytes are there than its time and its length take;
/// - [`codes::MESSAGE_TOO_LONG`]: its length is above [`MAX_MESSAGE_BYTES`](crate::limits::MAX_MESSAGE_BYTES);
/// - [`codes::CAPTURE_TOO_LARGE`]: it ends past byte [`MAX_CAPTURE_BYTES`](crate::limits::MAX_CAPTURE_BYTES) of the capture, where
///   times are not counted;
/// - [`codes::CUT_OFF`]: fewer bytes are left than its length says.
///
/// Times are not judged, and may fall. The formats and their limits are this profile's.
///
/// # Cost
///
/// One pass over the records, in time linear in their number; message bytes are neither read nor copied. Takes no memory.
pub fn read_capture(bytes: &[u8]) -> Capture<'_>
    ensures { IsCaptureOf bytes.now result }
{
    let Some(walk) = Walk::new(bytes) else {
        return Capture::without_magic();
    };
    Capture::up_to(bytes, &walk.into_stop(bytes))
}

/// The capture of the first messages of a capture.
///
/// That is the magic with their whole records, or with every whole record before the first fault where there are fewer: so the
/// front is in the format of the capture and has no fault of the framing, and of one behind its records it says nothing. `None` where
/// the first 8 bytes are no magic, or there are fewer: then there is no capture. The formats, their limits and their faults are those
/// of [`read_capture`], and this profile's.
///
/// # Cost
///
/// One pass over the records that are kept, in time linear in their number; message bytes are neither read nor copied. Takes no
/// memory: the front is a slice of `bytes`.
pub fn front(bytes: &[u8], messages: usize) -> Option<&[u8]>
    ensures kept { IfSome result (λ front. IsFrontOf bytes.now messages front.now) }
    ensures none { IsNone result → HasMagic bytes.now → ⊥ }
{
    let mut records = Walk::new(bytes)?;
    let mut kept = 0;
    while kept < messages {
        match records.next() {
            Ok(Some(_)) => kept += 1,
            Ok(None) => break,
            Err(_) => break,
        }
    }
    Some(&bytes[..bytes.len() - records.left()])
}
