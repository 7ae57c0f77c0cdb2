//! Lines of texts.

/// How many bytes a text may have.
pub const MAX_TEXT_BYTES: usize = 268_435_456;

/// What each line ends with.
pub const LINE_FEED: &[u8; 1] = b"\n";
/// The line that a text ends with.
pub const END_LINE: &[u8; 4] = b"end\n";
