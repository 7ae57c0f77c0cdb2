//! Lines that do not fit into an order text: code 60.

use crate::misfits::Misfit;

const FIRST_LINE: &str = "the first line is not `fuse-order 1`";

const OTHER_LINE: &str = "the line is neither `end` nor `N` nor `N w K`, with decimal numbers";

const BLANK_IN_FRONT: &str = "a blank stands in front of the line";

const BLANK_AT_END: &str = "a blank stands at the end of the line";

const SIGN: &str = "a number has no sign";

const ZERO_IN_FRONT: &str = "a number has no zero in front";

const TOO_LARGE: &str = "a number is at most 4294967295";

const NO_COUNT: &str = "no count stands behind `w`";

/// Why a line does not fit into an order text, where it can be told.
pub(crate) fn cause_of(line: &Misfit<'_>) -> Option<&'static str> {
    match line.common_cause(b"fuse-order 1".as_slice()) {
        Some(cause) => Some(cause),
        None if line.number == 1 => Some(FIRST_LINE),
        None => entry_cause(line.bytes),
    }
}

/// Why a line is no entry. It has a byte or more.
fn entry_cause(line: &[u8]) -> Option<&'static str> {
    if is_blank(line.first()) {
        Some(BLANK_IN_FRONT)
    } else if line.ends_with(b" w ".as_slice()) {
        Some(NO_COUNT)
    } else if is_blank(line.last()) {
        Some(BLANK_AT_END)
    } else {
        numbers_cause(line)
    }
}

/// Whether a byte of a line is a blank.
fn is_blank(byte: Option<&u8>) -> bool {
    matches!(byte, Some(b' ' | b'\t'))
}

/// Why a line is neither a number nor one with a count behind it.
fn numbers_cause(line: &[u8]) -> Option<&'static str> {
    let behind = match behind_number(line) {
        Ok(behind) => behind,
        Err(cause) => return Some(cause),
    };
    if behind.is_empty() {
        return None;
    }
    if behind == b" w".as_slice() {
        return Some(NO_COUNT);
    }
    let Some(count) = behind.strip_prefix(b" w ".as_slice()) else {
        return Some(OTHER_LINE);
    };
    match behind_number(count) {
        Ok(behind) if behind.is_empty() => None,
        Ok(_) => Some(OTHER_LINE),
        Err(cause) => Some(cause),
    }
}

/// What stands behind the number at the front of bytes, or why there is none.
fn behind_number(bytes: &[u8]) -> Result<&[u8], &'static str> {
    let mut digits: usize = 0;
    let mut number: u64 = 0;
    for byte in bytes {
        if !byte.is_ascii_digit() {
            break;
        }
        digits = digits.saturating_add(1);
        let value = u64::from(byte.saturating_sub(b'0'));
        number = number.saturating_mul(10).saturating_add(value);
    }
    let cause = if digits == 0 {
        match bytes.first() {
            Some(b'+' | b'-') => SIGN,
            _ => OTHER_LINE,
        }
    } else if digits > 1 && bytes.starts_with(b"0".as_slice()) {
        ZERO_IN_FRONT
    } else if number > u64::from(u32::MAX) {
        TOO_LARGE
    } else {
        let (_, behind) = bytes.split_at(digits.min(bytes.len()));
        return Ok(behind);
    };
    Err(cause)
}
