//! Lines that do not fit into a tree text: code 61.

use crate::misfits::Misfit;
use crate::tree_paths::path_cause;
use fa_bodies::split_at_byte;
use fa_show::Text;

const FIRST_LINE: &str = "the first line is not `fuse-tree 1`";

const ROOT_LINE: &str = "the second line is not `root` and the permission bits, three octal digits";

const NO_LETTER: &str = "the line does not begin with one of d, f, s, p, c, b, k and h and a blank";

const BITS: &str = "the permission bits are not three octal digits with a blank behind them";

const TOO_MANY_BLANKS: &str = "a blank too many: in a name it is spelled %20";

const BODY: &str =
    "nothing stands behind the path in such a line: a blank in a name is spelled %20";

const BITS_OF_A_NAME: &str =
    "such a line has two paths and no permission bits: a blank in a name is spelled %20";

const NO_BYTES: &str = "the bytes in hexadecimal are missing behind the path: `-` stands for none";

const NO_TARGET: &str = "the target in hexadecimal is missing behind the path";

const NO_DIGIT: &str = "the bytes behind the path are not all hexadecimal digits";

const ODD_DIGITS: &str = "the hexadecimal digits are odd in number";

const EMPTY_TARGET: &str = "a target has one byte or more";

const ZERO_IN_TARGET: &str = "a target has no zero byte";

const NO_OLDER_PATH: &str = "the older path is missing behind the new one";

/// Why a line does not fit into a tree text.
#[derive(Clone, Copy)]
pub(crate) enum Cause<'a> {
    /// As these words say.
    Words(&'static str),
    /// The line of this number has its path already.
    PathTwice(u32),
    /// No line before it adds the directory of its path.
    NoDirectory(&'a [u8]),
    /// No line before it has the older path.
    NoOlderFile(&'a [u8]),
    /// The older path is that of a directory, which this line adds.
    OlderDirectory(u32),
}

impl Cause<'_> {
    /// Writes it.
    pub fn write(self, text: &mut Text) {
        match self {
            Cause::Words(words) => text.word(words),
            Cause::PathTwice(line) => {
                text.field("line ", u64::from(line));
                text.word(" has the path already");
            }
            Cause::NoDirectory(path) => {
                text.word("no line before it begins with d and has the path ");
                text.name(path);
            }
            Cause::NoOlderFile(path) => {
                text.word("no line before it has the path ");
                text.name(path);
            }
            Cause::OlderDirectory(line) => {
                text.field(
                    "the older path is that of a directory, of line ",
                    u64::from(line),
                );
            }
        }
    }
}

/// What a line adds, by the letter that it begins with.
#[derive(Clone, Copy)]
enum Kind {
    Directory,
    File,
    Symlink,
    /// A file without bytes.
    Special,
    /// A further name.
    Name,
}

impl Kind {
    /// What a letter stands for.
    fn of(letter: u8) -> Option<Self> {
        match letter {
            b'd' => Some(Kind::Directory),
            b'f' => Some(Kind::File),
            b's' => Some(Kind::Symlink),
            b'p' | b'c' | b'b' | b'k' => Some(Kind::Special),
            b'h' => Some(Kind::Name),
            _ => None,
        }
    }
}

/// What a line adds, and at which path.
#[derive(Clone, Copy)]
struct Added<'a> {
    kind: Kind,
    path: &'a [u8],
    /// What stands behind the path and a blank, if one does.
    behind: Option<&'a [u8]>,
}

impl<'a> Added<'a> {
    /// What a line adds, or why it adds nothing.
    fn by(line: &'a [u8]) -> Result<Self, &'static str> {
        let [letter, b' ', fields @ ..] = line else {
            return Err(NO_LETTER);
        };
        let Some(kind) = Kind::of(*letter) else {
            return Err(NO_LETTER);
        };
        let fields = match (kind, fields) {
            (Kind::Name, _) => fields,
            (_, [b'0'..=b'7', b'0'..=b'7', b'0'..=b'7', b' ', fields @ ..]) => fields,
            _ => return Err(BITS),
        };
        let (path, behind) = match split_at_byte(fields, b' ') {
            Some((path, behind)) => (path, Some(behind)),
            None => (fields, None),
        };
        Ok(Added { kind, path, behind })
    }
}

/// Why a line does not fit into a tree text, where it can be told.
pub(crate) fn cause_of<'a>(line: &Misfit<'a>) -> Option<Cause<'a>> {
    match line_cause(line) {
        Some(words) => Some(Cause::Words(words)),
        None => cause_behind(line),
    }
}

/// Why a line is none of a tree text, whatever the lines before it add.
fn line_cause(line: &Misfit<'_>) -> Option<&'static str> {
    match line.common_cause(b"fuse-tree 1".as_slice()) {
        Some(words) => Some(words),
        None => match line.number {
            1 => Some(FIRST_LINE),
            2 => Some(ROOT_LINE),
            _ => entry_cause(line.bytes),
        },
    }
}

/// Why a line is no entry.
fn entry_cause(line: &[u8]) -> Option<&'static str> {
    match Added::by(line) {
        Ok(added) => behind_path_cause(&added).or(paths_cause(&added)),
        Err(words) => Some(words),
    }
}

/// Why the path, or the two of a further name, are none.
fn paths_cause(added: &Added<'_>) -> Option<&'static str> {
    match (added.kind, added.behind) {
        (Kind::Name, Some(older)) => path_cause(added.path).or(path_cause(older)),
        _ => path_cause(added.path),
    }
}

/// Why what stands behind the path is not what its kind has there.
fn behind_path_cause(added: &Added<'_>) -> Option<&'static str> {
    match added.kind {
        Kind::Directory | Kind::Special => match added.behind {
            Some(_) => Some(BODY),
            None => None,
        },
        Kind::Name => match added.behind {
            Some(older) if older.contains(&b' ') => Some(BITS_OF_A_NAME),
            Some(_) => None,
            None => Some(NO_OLDER_PATH),
        },
        Kind::File => digits_cause(added.behind.unwrap_or(&[]), false),
        Kind::Symlink => digits_cause(added.behind.unwrap_or(&[]), true),
    }
}

/// Why hexadecimal digits are none of the bytes of a file, or none of a target.
fn digits_cause(digits: &[u8], is_target: bool) -> Option<&'static str> {
    if digits.contains(&b' ') {
        Some(TOO_MANY_BLANKS)
    } else if digits.is_empty() {
        Some(if is_target { NO_TARGET } else { NO_BYTES })
    } else if digits == b"-".as_slice() {
        if is_target { Some(EMPTY_TARGET) } else { None }
    } else if !digits.iter().all(u8::is_ascii_hexdigit) {
        Some(NO_DIGIT)
    } else if digits.len() % 2 != 0 {
        Some(ODD_DIGITS)
    } else if is_target && has_zero_byte(digits) {
        Some(ZERO_IN_TARGET)
    } else {
        None
    }
}

/// Whether one of the bytes that hexadecimal digits spell is zero.
fn has_zero_byte(digits: &[u8]) -> bool {
    let mut high = None;
    for digit in digits {
        high = match high {
            None => Some(*digit),
            Some(b'0') if *digit == b'0' => return true,
            Some(_) => None,
        };
    }
    false
}

/// Why an entry does not fit behind the lines before it. Nothing is told where a byte of a path is spelled by its digits.
fn cause_behind<'a>(line: &Misfit<'a>) -> Option<Cause<'a>> {
    if line.before.contains(&b'%') {
        return None;
    }
    let Ok(added) = Added::by(line.bytes) else {
        return None;
    };
    let path = path_cause_behind(added.path, line.before);
    match (added.kind, added.behind) {
        (Kind::Name, Some(older)) => older_cause(older, line.before).or(path),
        _ => path,
    }
}

/// Why a path does not fit behind the lines before it.
fn path_cause_behind<'a>(path: &'a [u8], before: &[u8]) -> Option<Cause<'a>> {
    if path.contains(&b'%') {
        return None;
    }
    if let Some((line, _)) = line_with(before, path) {
        return Some(Cause::PathTwice(line));
    }
    let Some(directory) = directory_of(path) else {
        return None;
    };
    match line_with(before, directory) {
        Some((_, Kind::Directory)) => None,
        _ => Some(Cause::NoDirectory(directory)),
    }
}

/// Why a further name has no file with the older path.
fn older_cause<'a>(older: &'a [u8], before: &[u8]) -> Option<Cause<'a>> {
    if older.contains(&b'%') {
        return None;
    }
    match line_with(before, older) {
        Some((line, Kind::Directory)) => Some(Cause::OlderDirectory(line)),
        Some(_) => None,
        None => Some(Cause::NoOlderFile(older)),
    }
}

/// What stands before the last slash of a path, if it has one.
fn directory_of(path: &[u8]) -> Option<&[u8]> {
    let mut directory = None;
    for (place, byte) in path.iter().enumerate() {
        if *byte == b'/' {
            let (before, _) = path.split_at(place.min(path.len()));
            directory = Some(before);
        }
    }
    directory
}

/// The number of the first line with a path, counted from 1, and what it adds.
fn line_with(lines: &[u8], path: &[u8]) -> Option<(u32, Kind)> {
    let mut left = lines;
    let mut number: u32 = 0;
    for _ in 0..lines.len() {
        let Some((line, behind)) = split_at_byte(left, b'\n') else {
            break;
        };
        number = number.saturating_add(1);
        if let Ok(added) = Added::by(line) {
            if added.path == path {
                return Some((number, added.kind));
            }
        }
        left = behind;
    }
    None
}
