//! Names as the lines spell them.

use crate::text::{hexadecimal_digit, is_plain};

/// Whether a name is spelled so, without its quotes.
pub(crate) fn is_spelled(name: &[u8], spelling: &str) -> bool {
    let mut left = spelling.as_bytes();
    for byte in name {
        match behind_spelled(*byte, left) {
            Some(behind) => left = behind,
            None => return false,
        }
    }
    left.is_empty()
}

/// What stands behind the spelling of a byte, if it stands in front.
fn behind_spelled(byte: u8, spelling: &[u8]) -> Option<&[u8]> {
    if is_plain(byte) {
        let (first, behind) = spelling.split_first()?;
        return if *first == byte { Some(behind) } else { None };
    }
    let (escape, behind) = spelling.split_at_checked(4)?;
    let wanted = [
        b'\\',
        b'x',
        hexadecimal_digit(byte >> 4),
        hexadecimal_digit(byte & 15),
    ];
    if escape == wanted.as_slice() {
        Some(behind)
    } else {
        None
    }
}
