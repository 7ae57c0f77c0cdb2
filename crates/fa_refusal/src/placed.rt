//! Which requests entries place.

use crate::case::Case;
use fa_ledger::Calls;
use fa_order::Entry;
use std::alloc::{AllocError, Global};

/// For each tree request, by its place among the calls, the first entry that names it, if one does.
#[derive(Drop)]
pub struct Placed {
    entries: Vec<Option<u32>>,
}

impl Placed {
    /// Which requests these entries place, counted from 0.
    ///
    /// # Errors
    ///
    /// [`AllocError`] where memory was refused: eight bytes a call.
    ///
    /// # Cost
    ///
    /// Time linear in the calls, and logarithmic in them for each entry.
    pub fn by(alloc: Global, calls: &Calls<'_>, entries: &[Entry]) -> Result<Self, AllocError> {
        let mut placed = Placed {
            entries: vec![in alloc; None; calls.list.len()]?,
        };
        let mut number: u32 = 0;
        for entry in entries {
            placed.note(calls, entry.at, number);
            number = number.saturating_add(1);
        }
        Ok(placed)
    }

    /// Notes that an entry names a request.
    fn note(&mut self, calls: &Calls<'_>, asked: u32, number: u32) {
        let Some(place) = calls.find(asked) else {
            return;
        };
        if let Some(entry) = self.entries.get_mut(place) {
            if entry.is_none() {
                *entry = Some(number);
            }
        }
    }

    /// The entry that names the request at this place among the calls, if one does. In constant time.
    pub fn entry(&self, place: usize) -> Option<u32> {
        match self.entries.get(place) {
            Some(entry) => *entry,
            None => None,
        }
    }

    /// The request of the first answer that is in no entry, with the number of that answer: these are the calls that it was made by.
    ///
    /// Takes no memory, and time linear in the calls.
    pub fn first_left<'c>(&self, calls: &'c Calls<'_>) -> Option<(Case<'c>, u32)> {
        let mut first = None;
        let mut front = u32::MAX;
        for place in 0..calls.list.len() {
            if let Some(at) = self.answer_left(calls, place) {
                if first.is_none() || at < front {
                    first = Some(place);
                    front = at;
                }
            }
        }
        match Case::at(calls, first?) {
            Some(case) => Some((case, front)),
            None => None,
        }
    }

    /// The number of the answer to the request at this place, if it is answered and in no entry.
    fn answer_left(&self, calls: &Calls<'_>, place: usize) -> Option<u32> {
        if self.entry(place).is_some() {
            return None;
        }
        match calls.list.get(place)?.answer {
            Some(answer) => Some(answer.at),
            None => None,
        }
    }
}
