//! Lines of texts that do not fit, and why: what order texts and tree texts have in common.

use fa_bodies::split_at_byte;
use fa_show::Text;

/// What stands in front of a text that some editors write.
const BYTE_ORDER_MARK: [u8; 3] = [0xef, 0xbb, 0xbf];

/// A line of a text that does not fit.
#[derive(Clone, Copy)]
pub(crate) struct Misfit<'a> {
    /// Its number, counted from 1.
    pub number: u32,
    /// Its bytes, without its line feed.
    pub bytes: &'a [u8],
    /// Whether the text ends behind its bytes, where its line feed is to stand.
    is_unended: bool,
    /// The lines before it.
    pub before: &'a [u8],
}

impl<'a> Misfit<'a> {
    /// The line of this number, counted from 1: without bytes where the text ends before it.
    pub fn of(text: &'a [u8], number: u32) -> Self {
        let left = behind_lines(text, number);
        let (before, _) = text.split_at(text.len().saturating_sub(left.len()));
        let (bytes, is_unended) = match split_at_byte(left, b'\n') {
            Some((bytes, _)) => (bytes, false),
            None => (left, true),
        };
        Misfit {
            number,
            bytes,
            is_unended,
            before,
        }
    }

    /// Whether the text ends where it would begin.
    fn is_missing(&self) -> bool {
        self.is_unended && self.bytes.is_empty()
    }

    /// Writes it.
    pub fn write(&self, text: &mut Text) {
        text.name(self.bytes);
        if self.is_missing() {
            text.word(", where the text ends");
        } else if self.is_unended {
            text.word(", without its line feed");
        }
    }

    /// Why it does not fit into a text that has this first line, as far as texts of both kinds have it in common.
    pub fn common_cause(&self, first_line: &[u8]) -> Option<&'static str> {
        let is_first = self.number == 1;
        let words = if self.is_missing() {
            if is_first {
                "the text is empty"
            } else {
                "the text ends without the line `end`"
            }
        } else if self.before.ends_with(b"\nend\n".as_slice()) {
            "nothing may stand behind the line `end`"
        } else if self.bytes.ends_with(b"\r".as_slice()) {
            "the line ends with a carriage return"
        } else if self.is_unended && (!is_first || self.bytes == first_line) {
            "each line ends with a line feed, the last one too"
        } else if is_first && self.bytes.starts_with(BYTE_ORDER_MARK.as_slice()) {
            "a byte order mark stands in front of the first line"
        } else if self.bytes.is_empty() {
            "the line is empty"
        } else {
            return None;
        };
        Some(words)
    }
}

/// What stands behind the lines before the one of this number.
fn behind_lines(bytes: &[u8], line: u32) -> &[u8] {
    let mut left = bytes;
    for _ in 1..line {
        match split_at_byte(left, b'\n') {
            Some((_, behind)) => left = behind,
            None => return &[],
        }
    }
    left
}
