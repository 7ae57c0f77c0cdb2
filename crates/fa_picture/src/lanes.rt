//! Lanes, one below the other, in which bars lie.

use std::alloc::{AllocError, Global};

/// The lanes, each by the number of the last message that it is taken up to.
#[derive(Drop)]
pub(crate) struct Lanes {
    taken_up_to: Vec<u32>,
}

impl Lanes {
    /// No lane is taken.
    pub fn new(alloc: Global) -> Lanes {
        Lanes {
            taken_up_to: Vec::new(alloc),
        }
    }

    /// Takes the first lane that is free for what lies from one message to another: its place. What is handed in later begins later.
    pub fn take(&mut self, begins: u32, ends: u32) -> Result<u32, AllocError> {
        let lane = self.first_free(begins);
        match self.taken_up_to.get_mut(lane as usize) {
            Some(taken) => *taken = ends,
            None => self.taken_up_to.push(ends)?,
        }
        Ok(lane)
    }

    /// The place of the first lane that is free from a message on: behind all others, if none of them is.
    fn first_free(&self, begins: u32) -> u32 {
        let mut lane: u32 = 0;
        for taken in self.taken_up_to.iter() {
            if *taken < begins {
                break;
            }
            lane = lane.saturating_add(1);
        }
        lane
    }
}
