//! The measures of a picture, in tenths of its unit.

/// How wide a picture is: 900 units, so that letters of 11 can be read where it is shown 800 pixels wide.
pub(crate) const WIDTH: u64 = 9000;

/// What is free at each side of it.
pub(crate) const SIDE: u64 = 180;

/// How many columns a band has.
pub(crate) const COLUMNS: u32 = 16;

/// How wide a column is.
pub(crate) const COLUMN: u64 = 540;

/// What a bar leaves free of its columns at each side.
pub(crate) const INSET: u64 = 20;

/// What is free at each side of the words in a bar.
pub(crate) const PADDING: u64 = 40;

/// How high the numbers above a band are.
pub(crate) const HEAD: u64 = 200;

/// How high a bar is.
pub(crate) const BAR: u64 = 300;

/// How far a bar is from the one in the next lane.
pub(crate) const PITCH: u64 = 460;

/// What is free between two bands.
pub(crate) const GAP: u64 = 80;

/// How far below the top of a band its numbers stand.
pub(crate) const NUMBER_LINE: u64 = 110;

/// What the lines between columns leave free above, and below.
pub(crate) const RULE_MARGINS: (u64, u64) = (30, 80);

/// How far below the top of a bar the two lines of its words stand.
pub(crate) const WORD_LINES: (u64, u64) = (125, 250);

/// How far below the top of a bar the code stands of what is at fault.
pub(crate) const CODE_LINE: u64 = BAR + 120;

/// How wide the room is that a code has at least.
pub(crate) const CODE_ROOM: u64 = 700;

/// How round the corners of a bar are.
pub(crate) const ROUNDING: u64 = 40;

/// How high a mark is.
pub(crate) const MARK_HEIGHT: u64 = 140;

/// How far below the top of a bar a mark begins, and its number stands.
pub(crate) const MARK_LINES: (u64, u64) = (BAR - 15, BAR + 90);

/// Half of the width of a mark, but for its digits.
pub(crate) const MARK_HALF: u64 = 50;

/// Half of the width of a digit.
pub(crate) const DIGIT_HALF: u64 = 30;

/// How far below the top of a lane the middle of a diamond is, its words stand, and the code.
pub(crate) const DIAMOND_LINES: (u64, u64, u64) = (100, 320, 450);

/// How far below the top of a picture its heading stands.
pub(crate) const HEADING_LINE: u64 = 200;
