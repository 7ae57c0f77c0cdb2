//! Bands of columns, and which of these a bar covers.

ghost use Rattle.std.specs.Prelude.{◌≡◌, ◌≤◌, ◌+◌, ◌↔◌, ℕ, IsTrue};

use crate::layout::{COLUMN, COLUMNS, INSET, SIDE};
use crate::mark::Mark;
use crate::window::Window;

/// The columns of some messages, side by side.
#[derive(Clone, Copy)]
pub(crate) struct Band {
    /// The number of the first message.
    pub first: u32,
    /// The number of the last one.
    pub last: u32,
    pub ghost some: { first ≤ last },
}

/// From where to where a bar lies.
#[derive(Clone, Copy)]
pub(crate) struct Extent {
    pub left: u64,
    pub right: u64,
}

impl Band {
    ghost use Rattle.fa_picture.specs.Columns.{column_left, IsCovered};
    ghost use Rattle.fa_picture.specs.declared.layout.TheConstants.{SIDE, INSET};

    /// The band of a window that begins with this message, if that is drawn.
    pub fn of(window: Window, first: u32) -> Option<Band> {
        if first > window.last {
            return None;
        }
        let last = first.saturating_add(COLUMNS - 1).min(window.last);
        Some(Band { first, last })
    }

    /// Whether a bar from one message to another has a part here.
    pub fn meets(&self, begins: u32, ends: u32) -> bool
        ensures { IsTrue result ↔ ((begins ≤ self.now.last) × (self.now.first ≤ ends)) }
    {
        begins <= self.last && ends >= self.first
    }

    /// Where the column of a message begins.
    pub fn left_of(&self, number: u32) -> u64
        requires { self.now.first ≤ number }
        ensures { result ≡ column_left self.now.first number }
    {
        SIDE + u64::from(number - self.first) * COLUMN
    }

    /// Where a bar begins that begins with a message: at the side, if that one stands in a band before.
    fn left_end(&self, begins: u32) -> u64
        ensures covers { (n : ℕ) → self.now.first ≤ n → begins ≤ n → result ≤ column_left self.now.first n + INSET }
        ensures within { self.now.first ≤ begins → column_left self.now.first begins ≤ result }
        ensures beside { SIDE ≤ result }
    {
        if begins < self.first {
            SIDE
        } else {
            self.left_of(begins) + INSET
        }
    }

    /// Where a bar ends that ends with a message: with the last column, if that one stands in a band behind.
    fn right_end(&self, ends: u32) -> u64
        requires { self.now.first ≤ ends }
        ensures covers { (n : ℕ) → self.now.first ≤ n → n ≤ self.now.last → n ≤ ends → column_left self.now.first (n + 1) ≤ result + INSET }
        ensures within { ends ≤ self.now.last → result ≤ column_left self.now.first (ends + 1) }
        ensures beside { result ≤ column_left self.now.first (self.now.last + 1) }
    {
        if ends > self.last {
            self.left_of(self.last) + COLUMN
        } else {
            self.left_of(ends) + COLUMN - INSET
        }
    }

    /// From where to where the bar of a request lies here: it covers the columns from its request to its answer, and no others.
    pub fn extent(&self, begins: u32, ends: u32) -> Extent
        requires { self.now.first ≤ ends }
        ensures covers { (n : ℕ) → self.now.first ≤ n → n ≤ self.now.last → begins ≤ n → n ≤ ends → IsCovered result self.now.first n }
        ensures from_request { self.now.first ≤ begins → column_left self.now.first begins ≤ result.left }
        ensures to_answer { ends ≤ self.now.last → result.right ≤ column_left self.now.first (ends + 1) }
        ensures from_side { SIDE ≤ result.left }
        ensures to_last { result.right ≤ column_left self.now.first (self.now.last + 1) }
    {
        Extent {
            left: self.left_end(begins),
            right: self.right_end(ends),
        }
    }

    /// Where the middle of a mark lies, if its column is here.
    pub fn place_of(&self, mark: &Mark) -> Option<u64> {
        let middle = mark.middle();
        let column = middle / COLUMN;
        if column < u64::from(self.first) || column > u64::from(self.last) {
            return None;
        }
        let left = u64::from(self.first) * COLUMN;
        Some(middle.saturating_sub(left).saturating_add(SIDE))
    }
}
