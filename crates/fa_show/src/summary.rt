//! The table of requests, and the lines behind it.

use crate::counting::Counts;
use crate::line::{microseconds, milliseconds};
use crate::tally::Operation;
use crate::text::Text;
use crate::words;
use indexmap::IndexMap;

/// How many columns stand before that of the errors.
const COLUMNS: usize = 7;

/// How many of these stand before those of the times.
const UNTIMED: usize = 4;

/// How many spaces stand between two columns.
const GAP: usize = 2;

/// What stands in a column of a row.
#[derive(Clone, Copy)]
enum Cell {
    Nothing,
    Word(&'static str),
    Count(u32),
    /// A duration in nanoseconds, which is shown in milliseconds.
    Duration(i64),
}

impl Cell {
    /// A duration, if it is known.
    fn duration(nanoseconds: Option<i64>) -> Cell {
        match nanoseconds {
            Some(nanoseconds) => Cell::Duration(nanoseconds),
            None => Cell::Nothing,
        }
    }

    /// How many characters it has.
    fn width(&self) -> usize {
        match self {
            Cell::Nothing => 0,
            Cell::Word(word) => word.len(),
            Cell::Count(count) => digits(u64::from(*count)),
            Cell::Duration(nanoseconds) => {
                let digits = digits(microseconds(nanoseconds.unsigned_abs()) / 1000);
                digits.saturating_add(if *nanoseconds < 0 {
                    "-.000".len()
                } else {
                    ".000".len()
                })
            }
        }
    }

    /// Writes it.
    fn write(&self, text: &mut Text) {
        match self {
            Cell::Nothing => {}
            Cell::Word(word) => text.word(word),
            Cell::Count(count) => text.number(u64::from(*count)),
            Cell::Duration(nanoseconds) => {
                text.word(if *nanoseconds < 0 { "-" } else { "" });
                milliseconds(text, nanoseconds.unsigned_abs());
            }
        }
    }
}

/// How many digits a number has.
fn digits(number: u64) -> usize {
    match number.checked_ilog10() {
        Some(tens) => (tens as usize).saturating_add(1),
        None => 1,
    }
}

/// What stands in a row before the errors.
type Cells = [Cell; COLUMNS];

/// The names of the columns.
static HEADS: Cells = [
    Cell::Word("operation"),
    Cell::Word("requests"),
    Cell::Word("success"),
    Cell::Word("unanswered"),
    Cell::Word("median ms"),
    Cell::Word("99% ms"),
    Cell::Word("most ms"),
];

/// The row of an operation.
fn cells_of(opcode: u32, operation: &Operation) -> Cells {
    [
        Cell::Word(words::operation_name(opcode).unwrap_or("")),
        Cell::Count(operation.requests),
        if operation.may_be_answered {
            Cell::Count(operation.successes)
        } else {
            Cell::Nothing
        },
        if operation.unanswered > 0 {
            Cell::Count(operation.unanswered)
        } else {
            Cell::Nothing
        },
        Cell::duration(operation.percentile(50)),
        Cell::duration(operation.percentile(99)),
        Cell::duration(operation.percentile(100)),
    ]
}

/// The columns of a table before that of the errors.
#[derive(Clone, Copy)]
pub(crate) struct Columns {
    /// How many there are.
    shown: usize,
    /// How many characters the widest cell of each has.
    widths: [usize; COLUMNS],
}

impl Columns {
    /// The columns in which these counts find room.
    pub fn of(counts: &Counts) -> Columns {
        let mut columns = Columns {
            shown: if counts.is_timed() { COLUMNS } else { UNTIMED },
            widths: [0; COLUMNS],
        };
        columns.widen(&HEADS);
        for (opcode, operation) in counts.operations.iter() {
            columns.widen(&cells_of(*opcode, operation));
        }
        columns
    }

    /// Makes room for the cells of a row.
    fn widen(&mut self, cells: &Cells) {
        for (width, cell) in self.widths.iter_mut().zip(cells.iter()) {
            *width = (*width).max(cell.width());
        }
    }

    /// Writes the cells of a row, the first to the left of its column, the others to the right: how many spaces stand before what follows.
    fn write(&self, text: &mut Text, cells: &Cells) -> usize {
        let mut before: usize = 0;
        let mut is_first = true;
        for (cell, width) in cells.iter().zip(self.widths.iter()).take(self.shown) {
            let free = width.saturating_sub(cell.width());
            if is_first {
                cell.write(text);
                before = free;
            } else {
                before = before.saturating_add(GAP).saturating_add(free);
                if !matches!(cell, Cell::Nothing) {
                    spaces(text, before);
                    cell.write(text);
                    before = 0;
                }
            }
            is_first = false;
        }
        before.saturating_add(GAP)
    }

    /// Writes the names of the columns.
    pub fn heads(&self, text: &mut Text) {
        let before = self.write(text, &HEADS);
        spaces(text, before);
        text.word("errors");
        text.end_line();
    }

    /// Writes the row of an operation.
    pub fn row(&self, text: &mut Text, opcode: u32, operation: &Operation) {
        let before = self.write(text, &cells_of(opcode, operation));
        errors(text, before, &operation.errors);
        text.end_line();
    }
}

/// Writes so many spaces.
fn spaces(text: &mut Text, count: usize) {
    for _ in 0..count {
        text.word(" ");
    }
}

/// Writes how many answers have each error, behind so many spaces.
fn errors(text: &mut Text, before: usize, errors: &IndexMap<i32, u32>) {
    let mut is_first = true;
    for (error, count) in errors.iter() {
        if is_first {
            spaces(text, before);
        } else {
            text.word(", ");
        }
        words::error(text, *error);
        text.field(" ", u64::from(*count));
        is_first = false;
    }
}

/// Writes the lines behind the table.
pub(crate) fn totals(text: &mut Text, counts: &Counts) {
    text.end_line();
    messages(text, counts);
    text.field("tree requests: ", u64::from(counts.tree.requests));
    text.field(", of which ", u64::from(counts.tree.together));
    text.word(" were under way with another");
    text.end_line();
    if counts.refused > 0 {
        text.field("refused messages: ", u64::from(counts.refused));
        text.end_line();
    }
    if counts.unanswered > 0 {
        unanswered(text, counts);
    }
}

/// Writes how many messages there are, and how many were in flight at most.
fn messages(text: &mut Text, counts: &Counts) {
    text.count(counts.messages as usize, " message", " messages");
    text.word(", ");
    text.count(
        counts.notifications as usize,
        " notification",
        " notifications",
    );
    text.field("; most requests in flight: ", u64::from(counts.flight.most));
    if counts.flight.most > 0 {
        text.field(", first at message ", u64::from(counts.flight.first));
    }
    text.end_line();
}

/// Writes the numbers of the first requests that were never answered.
fn unanswered(text: &mut Text, counts: &Counts) {
    let mut between = "never answered: ";
    for number in counts.first_unanswered.iter() {
        text.field(between, u64::from(*number));
        between = ", ";
    }
    if counts.unanswered as usize > counts.first_unanswered.len() {
        text.word(" ..");
    }
    text.end_line();
}
