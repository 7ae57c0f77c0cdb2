//! An order, and the entry of it that is at fault.

ghost use Rattle.std.specs.Prelude.{◌≡◌, take};

use crate::placed::Placed;
use fa_ledger::Calls;
use fa_order::Entry;
use fa_tree::Tree;
use std::alloc::Global;

/// An order of the requests of a capture from a tree, and the entry of it that is at fault, with its code.
#[derive(Clone, Copy)]
pub struct Refused<'a> {
    /// From which memory is taken.
    pub alloc: Global,
    /// The calls of the capture.
    pub calls: &'a Calls<'a>,
    /// The tree that the order begins with.
    pub first: &'a Tree,
    /// All entries of the order.
    pub entries: &'a [Entry],
    /// [Those before](entries_before) the one at fault,
    pub before: &'a [Entry],
    /// and which requests they place.
    pub placed: &'a Placed,
    /// The number of the entry, counted from 0: how many there are, where an answer is left out.
    pub entry: u32,
    /// The number of its message, or of the request whose answer is left out.
    pub at: u32,
    /// The code of its fault, one of [`codes`](fa_capture::codes).
    pub code: u16,
}

impl Refused<'_> {
    /// How many bytes the entry at fault says that its request wrote.
    pub fn wrote(&self) -> Option<u32> {
        match self.entries.get(self.entry as usize) {
            Some(entry) => entry.wrote,
            None => None,
        }
    }
}

/// The entries before the one of this number, or all where there is none.
///
/// Takes no memory, in constant time.
pub fn entries_before(entries: &[Entry], entry: u32) -> &[Entry]
    ensures { result.now ≡ take entry entries.now }
{
    let (before, _) = entries.split_at((entry as usize).min(entries.len()));
    before
}
