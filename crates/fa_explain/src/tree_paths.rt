//! Paths of tree texts that are none.

use crate::names::is_dots;
use fa_bodies::{MAX_NAME, split_at_byte};

/// Why bytes spell no path, where it can be told.
pub(crate) fn path_cause(path: &[u8]) -> Option<&'static str> {
    if path.is_empty() {
        Some("a path is missing")
    } else if path.starts_with(b"/".as_slice()) {
        Some("a path begins with a slash")
    } else if path.ends_with(b"/".as_slice()) {
        Some("a path ends with a slash")
    } else {
        spelling_cause(path).or(names_cause(path))
    }
}

/// Why the bytes of a path are not spelled as they are to be: a `%` has two hexadecimal digits behind it.
fn spelling_cause(path: &[u8]) -> Option<&'static str> {
    let mut wanted: u8 = 0;
    // What is told first is a byte that does not print, wherever it stands.
    let mut is_open = false;
    for byte in path {
        if !byte.is_ascii_graphic() {
            return Some("a byte outside 21 to 7E is spelled as % and two hexadecimal digits");
        }
        if wanted == 0 {
            if *byte == b'%' {
                wanted = 2;
            }
        } else if byte.is_ascii_hexdigit() {
            wanted = wanted.saturating_sub(1);
        } else {
            is_open = true;
        }
    }
    if is_open || wanted > 0 {
        return Some("a % has two hexadecimal digits behind it: it is itself spelled %25");
    }
    None
}

/// Why the names of a path, which slashes part, are none.
fn names_cause(path: &[u8]) -> Option<&'static str> {
    let mut left = path;
    for _ in 0..=path.len() {
        let Some((name, behind)) = split_at_byte(left, b'/') else {
            break;
        };
        if let Some(cause) = name_cause(name) {
            return Some(cause);
        }
        left = behind;
    }
    name_cause(left)
}

/// Why a name of a path is none. Nothing is told of the length of one with a byte that is spelled by its digits.
fn name_cause(name: &[u8]) -> Option<&'static str> {
    if name.is_empty() {
        Some("two slashes stand side by side in a path")
    } else if is_dots(name) {
        Some("a name of a path is neither `.` nor `..`")
    } else if name.len() > MAX_NAME && !name.contains(&b'%') {
        Some("a name of a path has at most 1024 bytes")
    } else {
        None
    }
}
