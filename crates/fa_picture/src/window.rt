//! Which messages are drawn.

ghost use Rattle.std.specs.Prelude.{◌≤◌, ◌<◌};

use crate::layout::COLUMNS;

/// How many messages a picture has, where nothing else is asked for.
pub const DEFAULT_MESSAGES: u32 = 48;

/// Of the messages drawn this part stands before the one that they are drawn around.
const PART_BEFORE: u32 = 3;

/// Which messages are to be drawn.
#[derive(Clone, Copy)]
pub struct View {
    /// The number of the message around which they are: where nothing is asked for that at fault, or else the first request on the tree that
    /// came while another one had no answer yet, or else the first message.
    pub around: Option<u32>,
    /// How many there are; none count as one.
    pub messages: u32,
}

impl View {
    /// The default.
    pub fn new() -> View {
        View {
            around: None,
            messages: DEFAULT_MESSAGES,
        }
    }
}

/// The messages that are drawn, from the first to the last.
#[derive(Clone, Copy)]
pub(crate) struct Window {
    pub first: u32,
    pub last: u32,
}

impl Window {
    /// So many messages of a capture, a third of them before the one around which they are; the last ones of the capture where it has
    /// fewer behind. Else they begin one earlier where the first has an odd number, if that one is still drawn: where requests come one
    /// after the other, these have even numbers.
    pub fn around(around: u32, messages: u32, count: u32) -> Window
        requires { around < count }
        ensures has_first { result.first ≤ around }
        ensures has_last { around ≤ result.last }
        ensures within { result.last < count }
    {
        let most = messages.max(1);
        let last_ones = count - count.min(most);
        let first = (around - around.min(most / PART_BEFORE)).min(last_ones);
        let is_odd = first > 1 && first % 2 == 1;
        let is_early = is_odd && first < last_ones && around - first < most - 1;
        let first = if is_early { first - 1 } else { first };
        Window {
            first,
            last: first.saturating_add(most - 1).min(count - 1),
        }
    }

    /// The place of the band in which a message stands: the first one, if it stands before the window.
    pub fn band_of(self, number: u32) -> u32 {
        number.saturating_sub(self.first) / COLUMNS
    }

    /// Whether the message of this number is drawn.
    pub fn has(self, number: u32) -> bool {
        self.first <= number && number <= self.last
    }
}
