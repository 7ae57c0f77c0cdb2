//! Text that is written: printing ASCII and line feeds alone.

ghost use Rattle.std.specs.Prelude.{◌≡◌, IfOk};
ghost use Rattle.fa_show.specs.Printing.{IsPrinting, IsPrintingByte};

use std::alloc::{AllocError, Global};
use std::marker::Model;

/// A name or a target of more bytes than these is shortened, unless all is shown.
const LONG_NAME: usize = 48;
/// So many first bytes of it are shown.
const NAME_FRONT: usize = 24;
/// So many last bytes of it are shown.
const NAME_BACK: usize = 16;
/// So many bytes of data are shown, unless all are.
const LONG_DATA: usize = 16;

/// Text in room of a fixed size. What finds no room is lost, and noted to be.
///
/// All that is written goes through its methods, and each of them writes printing ASCII, whatever it is handed. Writing takes no memory,
/// and time linear in what is handed over.
#[derive(Drop)]
pub struct Text {
    /// The text, and spaces behind it.
    room: Vec<u8>,
    /// How many bytes of the room are text.
    taken: usize,
    /// How many bytes are to be left out still.
    left_out: usize,
    /// How many bytes found no room.
    lost: usize,
    /// Whether nothing is shortened.
    whole: bool,
}

impl Model for Text {
    ghost use Rattle.std.specs.Prelude.{List, ℕ};

    ghost Value = { List ℕ };

    ghost use Rattle.fa_show.specs.parts.Texts.{text_shown, IsText};

    ghost view = { text_shown };

    ghost invariant = { IsText };
}

impl Text {
    /// No text, with room for so many bytes. Names and data are shortened as they are written, unless all of it is to be `whole`.
    ///
    /// # Errors
    ///
    /// [`AllocError`] where memory for the room was refused.
    pub fn new(alloc: Global, room: usize, whole: bool) -> Result<Text, AllocError> {
        let room = vec![in alloc; b' '; room]?;
        Ok(Text {
            room,
            taken: 0,
            left_out: 0,
            lost: 0,
            whole,
        })
    }

    /// The text.
    pub fn as_bytes(&self) -> &[u8]
        ensures { IsPrinting result.now }
    {
        &self.room[..self.taken]
    }

    /// How many bytes it has.
    pub fn len(&self) -> usize {
        self.taken
    }

    /// How many bytes found no room.
    pub fn lost(&self) -> usize {
        self.lost
    }

    /// Whether nothing is shortened.
    pub fn is_whole(&self) -> bool {
        self.whole
    }

    /// Begins anew, with no text. So many bytes of what is to be written are left out.
    pub fn begin(&mut self, left_out: usize) {
        self.taken = 0;
        self.left_out = left_out;
        self.lost = 0;
    }

    /// Writes a byte, where there is room.
    #[inline(always)]
    fn push(&mut self, byte: u8)
        requires { IsPrintingByte byte }
    {
        if self.left_out > 0 {
            self.left_out -= 1;
        } else if self.taken < self.room.len() {
            self.room[self.taken] = byte;
            self.taken += 1;
        } else {
            self.lost = self.lost.saturating_add(1);
        }
    }

    /// Writes a character of ASCII; in the place of one that does not print, a question mark.
    #[inline(always)]
    pub fn character(&mut self, byte: u8) {
        self.push(printing(byte));
    }

    /// Ends the line.
    pub fn end_line(&mut self) {
        self.push(b'\n');
    }

    /// Writes a word.
    pub fn word(&mut self, word: &str) {
        for byte in word.as_bytes() {
            self.character(*byte);
        }
    }

    /// Writes a number.
    pub fn number(&mut self, number: u64) {
        self.padded(number, 1);
    }

    /// Writes a number with at least so many digits.
    pub fn padded(&mut self, number: u64, least: usize) {
        let mut digits = [b'0'; 20];
        let mut left = number;
        let mut first = 19;
        for place in (0..20usize).rev() {
            digits[place] = b'0' + (left % 10) as u8;
            first = place;
            left /= 10;
            if left == 0 && 20 - place >= least {
                break;
            }
        }
        for digit in digits.iter().skip(first) {
            self.character(*digit);
        }
    }

    /// Writes a number in hexadecimal digits behind `0x`.
    pub fn hexadecimal(&mut self, number: u32) {
        self.word("0x");
        let mut shown = false;
        for place in (0..8u32).rev() {
            let digit = (number >> (4 * place)) & 15;
            shown = shown || digit != 0 || place == 0;
            if shown {
                self.character(hexadecimal_digit(digit as u8));
            }
        }
    }

    /// Writes a number in octal digits, at least so many.
    pub fn octal(&mut self, number: u32, least: u32) {
        let mut shown = false;
        for place in (0..11u32).rev() {
            let digit = (number >> (3 * place)) & 7;
            shown = shown || digit != 0 || place < least;
            if shown {
                self.character(b'0' + digit as u8);
            }
        }
    }

    /// Writes a byte in two hexadecimal digits.
    #[inline(always)]
    pub fn digits(&mut self, byte: u8) {
        self.character(hexadecimal_digit(byte >> 4));
        self.character(hexadecimal_digit(byte & 15));
    }

    /// Writes bytes between quotes: what prints stands for itself but for quotes and backslashes, and all else is `\x` and two digits.
    pub fn quoted(&mut self, bytes: &[u8]) {
        self.character(b'"');
        self.escaped(bytes);
        self.character(b'"');
    }

    /// Writes bytes as they stand between quotes.
    fn escaped(&mut self, bytes: &[u8]) {
        for byte in bytes {
            self.escaped_byte(*byte);
        }
    }

    /// Writes a byte as it stands between quotes.
    #[inline(always)]
    fn escaped_byte(&mut self, byte: u8) {
        if is_plain(byte) {
            self.character(byte);
        } else {
            self.word("\\x");
            self.digits(byte);
        }
    }

    /// Writes a name or a target in quotes: of a long one the first and the last bytes, and how many there are.
    pub fn name(&mut self, name: &[u8]) {
        if self.whole || name.len() <= LONG_NAME {
            self.quoted(name);
        } else {
            let (front, _) = name.split_at(NAME_FRONT);
            let (_, back) = name.split_at(name.len() - NAME_BACK);
            self.quoted(front);
            self.word("..");
            self.quoted(back);
            self.word(" (");
            self.number(name.len() as u64);
            self.word(" bytes)");
        }
    }

    /// Writes data in quotes: of much the first bytes, and of much that is zero that it is.
    pub fn data(&mut self, bytes: &[u8]) {
        if bytes.len() <= LONG_DATA {
            self.quoted(bytes);
        } else if bytes.iter().all(|byte| *byte == 0) {
            self.word("zeros");
        } else if self.whole {
            self.quoted(bytes);
        } else {
            let (front, _) = bytes.split_at(LONG_DATA);
            self.quoted(front);
            self.word("..");
        }
    }

    /// Writes how many there are.
    pub fn count(&mut self, number: usize, one: &str, several: &str) {
        self.number(number as u64);
        self.word(if number == 1 { one } else { several });
    }

    /// Writes a word and a number behind it.
    pub fn field(&mut self, word: &str, number: u64) {
        self.word(word);
        self.number(number);
    }
}

/// Whether a byte stands for itself between quotes.
#[inline(always)]
pub(crate) fn is_plain(byte: u8) -> bool {
    b' ' <= byte && byte <= b'~' && byte != b'"' && byte != b'\\'
}

/// The digit of a number below 16; of another one a question mark.
#[inline(always)]
pub(crate) fn hexadecimal_digit(digit: u8) -> u8 {
    match digit {
        0..=9 => b'0' + digit,
        10..=15 => b'a' + (digit - 10),
        _ => b'?',
    }
}

/// The byte, or a question mark where it does not print.
#[inline(always)]
fn printing(byte: u8) -> u8
    ensures { IsPrintingByte result }
{
    if b' ' <= byte && byte <= b'~' {
        byte
    } else {
        b'?'
    }
}
