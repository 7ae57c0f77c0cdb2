//! Why bytes are no name of a request.

use fa_bodies::{MAX_NAME, split_at_byte};
use fa_show::Text;

/// Why bytes do not begin with a name, or do not end with it.
#[derive(Clone, Copy)]
pub(crate) enum NameFault<'a> {
    /// No zero byte ends it.
    Unended,
    Empty,
    /// It is `.` or `..`.
    Dots(&'a [u8]),
    /// A slash is in it.
    Slash(&'a [u8]),
    /// It has so many bytes.
    Long(usize),
    /// So many bytes stand behind it.
    Behind(usize),
}

impl NameFault<'_> {
    /// Writes it.
    pub fn write(self, text: &mut Text) {
        match self {
            NameFault::Unended => text.word("no zero byte ends the name"),
            NameFault::Empty => text.word("the name is empty"),
            NameFault::Dots(name) => {
                text.word("the name is ");
                text.quoted(name);
            }
            NameFault::Slash(name) => {
                text.word("a slash is in the name ");
                text.name(name);
            }
            NameFault::Long(bytes) => {
                text.field("the name has ", bytes as u64);
                text.field(" bytes, and at most ", MAX_NAME as u64);
                text.word(" are allowed");
            }
            NameFault::Behind(bytes) => {
                text.count(bytes, " byte stands", " bytes stand");
                text.word(" behind the name");
            }
        }
    }
}

/// Whether a name is `.` or `..`.
pub(crate) fn is_dots(name: &[u8]) -> bool {
    matches!(name, [b'.'] | [b'.', b'.'])
}

/// What stands behind the name at the front of bytes.
pub(crate) fn behind_name(bytes: &[u8]) -> Result<&[u8], NameFault<'_>> {
    let Some((name, behind)) = split_at_byte(bytes, 0) else {
        return Err(NameFault::Unended);
    };
    let fault = if name.is_empty() {
        NameFault::Empty
    } else if is_dots(name) {
        NameFault::Dots(name)
    } else if name.contains(&b'/') {
        NameFault::Slash(name)
    } else if name.len() > MAX_NAME {
        NameFault::Long(name.len())
    } else {
        return Ok(behind);
    };
    Err(fault)
}

/// Why bytes are no name with a zero byte behind it.
pub(crate) fn last_name(bytes: &[u8]) -> Option<NameFault<'_>> {
    match behind_name(bytes) {
        Err(fault) => Some(fault),
        Ok(behind) if !behind.is_empty() => Some(NameFault::Behind(behind.len())),
        Ok(_) => None,
    }
}

/// Why bytes are no two names, each with a zero byte behind it.
pub(crate) fn last_names(bytes: &[u8]) -> Option<NameFault<'_>> {
    match behind_name(bytes) {
        Err(fault) => Some(fault),
        Ok(behind) => last_name(behind),
    }
}
