//! What is counted of requests: how many of each operation, how they were answered, and how many came together.

use crate::words::error_name;
use indexmap::IndexMap;
use std::alloc::{AllocError, Global};
use std::cmp::Reverse;

/// A count, and one more.
#[inline(always)]
pub(crate) fn one_more(count: u32) -> u32 {
    count.saturating_add(1)
}

/// What a reply says to its request: its error, or 0 for a success, and how many nanoseconds behind it it came, if that is known.
#[derive(Clone, Copy)]
pub(crate) struct Answer {
    pub error: i32,
    pub duration: Option<i64>,
}

/// What is counted of the requests of an operation.
#[derive(Drop)]
pub(crate) struct Operation {
    /// Whether such requests may be answered.
    pub may_be_answered: bool,
    pub requests: u32,
    pub successes: u32,
    /// How many answers have each error.
    pub errors: IndexMap<i32, u32>,
    /// How many nanoseconds each answer took, where that is known.
    durations: Vec<i64>,
    pub unanswered: u32,
}

impl Operation {
    /// No requests.
    pub fn new(alloc: Global, may_be_answered: bool) -> Operation {
        Operation {
            may_be_answered,
            requests: 0,
            successes: 0,
            errors: IndexMap::new(alloc),
            durations: Vec::new(alloc),
            unanswered: 0,
        }
    }

    /// Counts a request, with its answer if it has one.
    pub fn ask(&mut self, answer: Option<Answer>) -> Result<(), AllocError> {
        self.requests = one_more(self.requests);
        match answer {
            Some(answer) => self.answer(&answer)?,
            None if self.may_be_answered => self.unanswered = one_more(self.unanswered),
            None => {}
        }
        Ok(())
    }

    /// Counts an answer.
    fn answer(&mut self, answer: &Answer) -> Result<(), AllocError> {
        if answer.error == 0 {
            self.successes = one_more(self.successes);
        } else {
            let before = self.errors.get(&answer.error).copied().unwrap_or(0);
            self.errors.insert(answer.error, one_more(before))?;
        }
        if let Some(duration) = answer.duration {
            self.durations.push(duration)?;
        }
        Ok(())
    }

    /// Sorts the durations, and the errors by falling counts and then by rising names.
    pub fn sort(&mut self) -> Result<(), AllocError> {
        self.durations.sort_unstable();
        self.errors
            .sort_unstable_by_key(|error, count| (Reverse(*count), error_key(*error)))
    }

    /// Whether it is known of an answer how long it took.
    pub fn is_timed(&self) -> bool {
        !self.durations.is_empty()
    }

    /// Of the sorted durations the one that so many of a hundred stand before, or the last.
    pub fn percentile(&self, hundredths: usize) -> Option<i64> {
        let last = self.durations.len().checked_sub(1)?;
        let place = self.durations.len().saturating_mul(hundredths) / 100;
        self.durations.get(place.min(last)).copied()
    }
}

/// By what errors are sorted that come as often: their names, or their numbers if they have none.
fn error_key(error: i32) -> (&'static str, u32) {
    (error_name(error).unwrap_or("error"), error.unsigned_abs())
}

/// The requests that are in flight: that may be answered, and are not yet.
#[derive(Clone, Copy, Default)]
pub(crate) struct Flight {
    now: u32,
    /// How many were at most.
    pub most: u32,
    /// The number of the request that made them as many first.
    pub first: u32,
}

impl Flight {
    /// The request of this number came.
    pub fn begin(&mut self, number: u32) {
        self.now = one_more(self.now);
        if self.now > self.most {
            self.most = self.now;
            self.first = number;
        }
    }

    /// One was answered.
    pub fn end(&mut self) {
        self.now = self.now.saturating_sub(1);
    }
}

/// The requests that act on the tree.
#[derive(Clone, Copy, Default)]
pub(crate) struct TreeRequests {
    pub requests: u32,
    /// How many of them were under way with another.
    pub together: u32,
    under_way: u32,
    /// Whether one is under way that was so with no other.
    is_alone: bool,
}

impl TreeRequests {
    /// One came.
    pub fn begin(&mut self) {
        self.requests = one_more(self.requests);
        if self.under_way > 0 {
            self.together = one_more(self.together);
            if self.is_alone {
                self.together = one_more(self.together);
            }
        }
        self.is_alone = self.under_way == 0;
        self.under_way = one_more(self.under_way);
    }

    /// One was answered.
    pub fn end(&mut self) {
        self.under_way = self.under_way.saturating_sub(1);
    }
}
