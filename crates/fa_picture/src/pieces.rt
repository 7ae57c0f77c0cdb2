//! The lines of an explanation, taken apart.

use fa_bodies::split_at_byte;

/// How many bytes of a line stand before its text: its label, padded to eight, and a blank.
const LABEL: usize = 9;

/// A piece of some lines.
#[derive(Clone, Copy)]
pub(crate) enum Piece<'t> {
    /// The label of a line, with which this begins.
    Label(&'t [u8]),
    /// Words that mean no more than they say. What stands in quotes is of the capture.
    Words(&'t [u8]),
    /// What stands between two backticks.
    Code(&'t [u8]),
    /// The number of a message.
    Message(u32),
    /// The end of a line.
    End,
}

/// The pieces of some lines that are left.
#[derive(Clone, Copy)]
pub(crate) struct Pieces<'t> {
    /// What is left of the text of a line.
    left: &'t [u8],
    /// The lines behind that one.
    lines: &'t [u8],
    /// Whether a line was begun, and not ended.
    is_within_line: bool,
    /// Whether no piece of its text was taken yet.
    is_start: bool,
    /// Whether the last one ended within a word.
    is_within_word: bool,
}

impl<'t> Pieces<'t> {
    /// The pieces of some lines, of which each ends with a line feed. There are at most twice as many as bytes: two of an empty line.
    pub fn of(lines: &'t [u8]) -> Self {
        Pieces {
            left: &[],
            lines,
            is_within_line: false,
            is_start: false,
            is_within_word: false,
        }
    }

    /// The next piece, if one is left.
    pub fn next(&mut self) -> Option<Piece<'t>> {
        if !self.is_within_line {
            return self.label();
        }
        let Some(first) = self.left.first().copied() else {
            self.is_within_line = false;
            return Some(Piece::End);
        };
        let piece = match first {
            b'"' => Piece::Words(self.take(length_between(self.left, first))),
            b'`' => self.code(),
            b'0'..=b'9' if !self.is_within_word => self.number(),
            _ => Piece::Words(self.take(1)),
        };
        self.is_start = false;
        self.is_within_word = first.is_ascii_alphanumeric() || first == b'_';
        Some(piece)
    }

    /// Begins the next line, if one is left: its label.
    fn label(&mut self) -> Option<Piece<'t>> {
        let Some((line, lines)) = split_at_byte(self.lines, b'\n') else {
            return None;
        };
        self.lines = lines;
        self.is_within_line = true;
        self.is_start = true;
        self.is_within_word = false;
        match line.split_at_checked(LABEL) {
            Some((label, text)) => {
                self.left = text;
                Some(Piece::Label(label.trim_ascii_end()))
            }
            None => Some(Piece::Label(line)),
        }
    }

    /// Takes so many bytes, or all that are left.
    fn take(&mut self, count: usize) -> &'t [u8] {
        match self.left.split_at_checked(count) {
            Some((taken, left)) => {
                self.left = left;
                taken
            }
            None => {
                let taken = self.left;
                self.left = &[];
                taken
            }
        }
    }

    /// Takes what stands between backticks.
    fn code(&mut self) -> Piece<'t> {
        let quoted = self.take(length_between(self.left, b'`'));
        match quoted {
            [b'`', code @ .., b'`'] => Piece::Code(code),
            _ => Piece::Words(quoted),
        }
    }

    /// Takes a number: that of a message, if `>` or `<` stands behind it at the start of a line, or an operation in parentheses.
    fn number(&mut self) -> Piece<'t> {
        let is_start = self.is_start;
        let (count, number) = number_in_front(self.left);
        let digits = self.take(count);
        let is_message = match self.left {
            [b' ', b'>' | b'<', ..] => is_start,
            [b' ', b'(', b'A'..=b'Z', ..] => true,
            _ => false,
        };
        match u32::try_from(number) {
            Ok(number) if is_message => Piece::Message(number),
            _ => Piece::Words(digits),
        }
    }
}

/// How many bytes stand at the front from a mark to the next one, with both: all, if there is no other.
fn length_between(bytes: &[u8], mark: u8) -> usize {
    match split_at_byte(behind(bytes, 1), mark) {
        Some((between, _)) => between.len().saturating_add(2),
        None => bytes.len(),
    }
}

/// How many digits stand at the front, and the number that they are: a larger one is as good as the largest.
pub(crate) fn number_in_front(bytes: &[u8]) -> (usize, u64) {
    let mut count: usize = 0;
    let mut number: u64 = 0;
    for byte in bytes {
        if !byte.is_ascii_digit() {
            break;
        }
        count = count.saturating_add(1);
        let digit = u64::from(byte.wrapping_sub(b'0'));
        number = number.saturating_mul(10).saturating_add(digit);
    }
    (count, number)
}

/// What stands behind so many bytes.
pub(crate) fn behind(bytes: &[u8], count: usize) -> &[u8] {
    match bytes.split_at_checked(count) {
        Some((_, behind)) => behind,
        None => &[],
    }
}
