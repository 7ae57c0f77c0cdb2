//! The first of several, and how many there are.

use std::alloc::Global;

/// So many are kept.
const FEW: usize = 3;

/// The first three that were found, and how many were.
#[derive(Drop)]
pub struct Found<T> {
    /// The first.
    pub first: Vec<T>,
    /// How many were found.
    pub count: usize,
    /// Whether memory was refused for one of the first.
    pub(crate) lacks_memory: bool,
}

impl<T: Copy> Found<T> {
    /// None.
    pub(crate) fn new(alloc: Global) -> Self {
        Found {
            first: Vec::new(alloc),
            count: 0,
            lacks_memory: false,
        }
    }

    /// One more.
    pub(crate) fn add(&mut self, found: T) {
        if self.count < FEW && self.first.push(found).is_err() {
            self.lacks_memory = true;
        }
        self.count = self.count.saturating_add(1);
    }
}
