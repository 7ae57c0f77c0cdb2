//! Which openings of directories are of use.

ghost use Rattle.std.specs.Prelude.{◌↔◌, IsTrue};
ghost use Rattle.fa_tree.specs.Alike.{IsInUse};

use std::collections::BTreeMap;

/// Which openings of directories are of use from a message on: those that a table has with that message or a later one. An opening is
/// told by the number of the OPENDIR request that made it.
#[derive(Clone, Copy)]
pub struct InUse<'u> {
    /// For each opening on which an answered READDIR or READDIRPLUS lists the message of the last of these answers.
    pub last: &'u BTreeMap<u32, u32>,
    /// The message.
    pub from: u32,
}

impl InUse<'_> {
    /// Whether an opening is of use.
    ///
    /// Takes no memory, and time in the logarithm of the openings.
    pub fn has(&self, opened: u32) -> bool
        ensures { IsTrue result ↔ IsInUse self.now opened }
    {
        match self.last.get(&opened) {
            Some(last) => self.from <= *last,
            None => false,
        }
    }
}
