//! The limits of this profile.

/// How many messages a capture may have.
pub const MAX_MESSAGES: usize = 16_777_216;
/// How many bytes a message may have.
pub const MAX_MESSAGE_BYTES: usize = 2_097_152;
/// How many bytes a capture may have, its magic among them.
pub const MAX_CAPTURE_BYTES: usize = 268_435_456;
