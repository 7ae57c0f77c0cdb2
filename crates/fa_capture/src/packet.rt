//! One recorded message.

ghost use Rattle.std.specs.Prelude.{◌≡◌, ◌<◌, IfSome, IsNone};
ghost use Rattle.fa_capture.specs.Framing.{direction_byte};

/// Which way a message went over /dev/fuse.
#[derive(Clone, Copy, Debug, PartialEq, Eq, Hash)]
pub enum Direction {
    /// From the kernel to the server: a request.
    ToServer,
    /// From the server to the kernel: a reply or a notification.
    FromServer,
}

impl Direction {
    /// The way that a record tells by this byte.
    #[inline(always)]
    pub(crate) fn from_byte(byte: u8) -> Option<Self>
        ensures told { IfSome result (λ direction. direction_byte direction ≡ byte) }
        ensures none { IsNone result → 1 < byte }
    {
        match byte {
            0 => Some(Direction::ToServer),
            1 => Some(Direction::FromServer),
            _ => None,
        }
    }

    /// The byte by which a record tells it.
    pub(crate) fn to_byte(self) -> u8
        ensures { result ≡ direction_byte self }
    {
        match self {
            Direction::ToServer => 0,
            Direction::FromServer => 1,
        }
    }
}

/// A message as it was recorded. Its bytes are a slice of the capture.
#[derive(Clone, Copy, Debug)]
pub struct Packet<'a> {
    pub direction: Direction,
    /// The time in its record, in nanoseconds; 0 where that is not known, as in a capture without times. No verdict looks at it.
    pub time: u64,
    pub bytes: &'a [u8],
}
