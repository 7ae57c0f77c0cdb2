//! The formats of captures.

ghost use Rattle.std.specs.Prelude.{◌≡◌};
ghost use Rattle.fa_capture.specs.Framing.{magic};

/// A format of captures: this profile's. Each is 8 bytes, its magic, and then a record for each message.
#[derive(Clone, Copy, Debug, PartialEq, Eq, Hash)]
pub enum Format {
    /// `FUSECAP1`. A record is a direction byte (0 to the server, 1 from it), the length of the message in four bytes, low byte first,
    /// and that many bytes.
    Plain,
    /// `FUSECAP2`. Between its direction and its length a record has the time of the message in eight bytes, low byte first:
    /// nanoseconds of a clock that the recorder chose, or 0 where the time is not known.
    Timed,
}

impl Format {
    /// What a capture in this format begins with.
    ///
    /// Takes no memory, in constant time.
    pub fn magic(self) -> &'static [u8]
        ensures { result.now ≡ magic self }
    {
        match self {
            Format::Plain => b"FUSECAP1",
            Format::Timed => b"FUSECAP2",
        }
    }
}
