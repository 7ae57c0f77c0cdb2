//! Messages that are no part of a bar.

use crate::numbered::Numbered;
use fa_capture::Packet;

/// A message that stands alone: a notification, a message of the server with which no bar ends, or one that is not read.
#[derive(Clone, Copy)]
pub(crate) struct Diamond<'a> {
    /// Its number.
    pub at: u32,
    pub packet: Packet<'a>,
    /// The request that it answers, behind its number, where it is a reply that was refused and another one came behind it.
    pub answered: Option<(u32, Packet<'a>)>,
    /// In which lane it lies.
    pub lane: u32,
}

impl Numbered for Diamond<'_> {
    fn number(&self) -> u32 {
        self.at
    }
}
