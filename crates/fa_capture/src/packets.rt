//! The packets of a capture, one after the other.

ghost use Rattle.std.specs.Prelude.{◌≡◌};
ghost use Rattle.fa_capture.specs.Records.{SpelledRecords, AreSpelled};
ghost use Rattle.fa_capture.specs.parts.RecordsLaws.{SpelledRecords-prop};

use crate::format::Format;
use crate::packet::{Direction, Packet};
use crate::walk::read_header;

/// The packets of a capture, in the order of their records. Made by [`Capture::packets`](crate::Capture::packets).
///
/// Each comes in constant time and takes no memory: its bytes are a slice of the capture.
#[derive(Clone, Copy, Debug)]
pub struct Packets<'a> {
    format: Format,
    /// The records of the packets that are still to come.
    bytes: &'a [u8],
    // These are whole records, within the limits.
    ghost records: { SpelledRecords format bytes.now } by { SpelledRecords-prop format bytes.now },
}

impl<'a> Packets<'a> {
    /// The packets whose records these bytes are.
    pub(crate) fn of(format: Format, bytes: &'a [u8]) -> Self
        requires { AreSpelled format bytes.now }
        ensures format { result.format ≡ format }
        ensures bytes { result.bytes.now ≡ bytes.now }
    {
        Packets { format, bytes }
    }
}

impl<'a> Iterator for Packets<'a> {
    ghost use Rattle.std.specs.Iterator.{YieldsFirstBy, item_count};
    ghost use Rattle.fa_capture.specs.Message.{recorded};
    ghost use Rattle.fa_capture.specs.Captures.{records_left};

    type Item = Packet<'a>;

    ghost next_gives = { YieldsFirstBy recorded records_left };

    ghost remaining = { item_count records_left };

    #[inline(always)]
    fn next(&mut self) -> Option<Packet<'a>> {
        let (&direction, behind) = self.bytes.split_first()?;
        let direction = Direction::from_byte(direction)?;
        let (time, length, body) = read_header(self.format, behind)?;
        let (bytes, left) = body.split_at_checked(length as usize)?;
        self.bytes = left;
        Some(Packet {
            direction,
            time,
            bytes,
        })
    }
}
