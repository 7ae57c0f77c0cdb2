//! Tree texts.

ghost use Rattle.std.specs.Prelude.{◌≤◌, length};
ghost use Rattle.fa_order.specs.declared.lines.TheConstants.{MAX_TEXT_BYTES};

use Told::*;
use fa_capture::Seed;
use fa_order::{MAX_TEXT_BYTES, TextError};
use fa_tree::{FileId, Tree};
use fa_tree_text::read_tree;
use std::alloc::Global;

/// What comes of a text.
#[derive(Clone, Copy, Debug, PartialEq, Eq)]
enum Told {
    /// It is read.
    Read,
    /// It is no tree text: the line of its fault.
    Line(u32),
    /// Memory was refused, or it is too long.
    Nothing,
}

/// Lines that may stand behind `root 755`, before `end`, and what comes of the text.
static LINES: [(&[u8], Told); 160] = [
    (b"", Read),
    (b"\n", Line(3)),
    // Each type.
    (b"d 755 a\n", Read),
    (b"f 644 a 78\n", Read),
    (b"f 644 a -\n", Read),
    (b"s 777 a 78\n", Read),
    (b"s 000 a 2e2e2f62\n", Read),
    (b"p 600 a\n", Read),
    (b"c 600 a\n", Read),
    (b"b 600 a\n", Read),
    (b"k 600 a\n", Read),
    (b"x 600 a\n", Line(3)),
    (b"D 755 a\n", Line(3)),
    (b"F 644 a -\n", Line(3)),
    (b"dd 755 a\n", Line(3)),
    (b" 755 a\n", Line(3)),
    // Permission bits.
    (b"d 000 a\n", Read),
    (b"d 777 a\n", Read),
    (b"d 778 a\n", Line(3)),
    (b"d 75 a\n", Line(3)),
    (b"d 0755 a\n", Line(3)),
    (b"d 7555 a\n", Line(3)),
    (b"d 75a a\n", Line(3)),
    (b"s 778 a 78\n", Line(3)),
    (b"s a 78\n", Line(3)),
    (b"d a\n", Line(3)),
    // Fields and the spaces between them.
    (b"d  755 a\n", Line(3)),
    (b"d 755  a\n", Line(3)),
    (b"d 755 a \n", Line(3)),
    (b" d 755 a\n", Line(3)),
    (b"d\t755 a\n", Line(3)),
    (b"d 755 a\r\n", Line(3)),
    (b"d 755 \n", Line(3)),
    (b"d 755\n", Line(3)),
    (b"d 755 a 78\n", Line(3)),
    (b"d 755 a -\n", Line(3)),
    (b"p 600 a -\n", Line(3)),
    (b"f 644 a\n", Line(3)),
    (b"f 644 a \n", Line(3)),
    (b"f 644 a 78 \n", Line(3)),
    (b"f 644 a 78 78\n", Line(3)),
    (b"f 644 a  78\n", Line(3)),
    (b"f 644 a\t78\n", Line(3)),
    (b"f 644 a 78\r\n", Line(3)),
    (b"f 644 a b -\n", Line(3)),
    // Hexadecimal digits.
    (b"f 644 a 0aBcDeF9\n", Read),
    (b"f 644 a 7\n", Line(3)),
    (b"f 644 a 787\n", Line(3)),
    (b"f 644 a 7g\n", Line(3)),
    (b"f 644 a 0x78\n", Line(3)),
    (b"f 644 a --\n", Line(3)),
    (b"f 644 a -78\n", Line(3)),
    (b"f 644 a 78-\n", Line(3)),
    (b"s 777 a 7\n", Line(3)),
    (b"s 777 a 787\n", Line(3)),
    (b"s 777 a 7G\n", Line(3)),
    (b"s 777 a -\n", Line(3)),
    (b"s 777 a\n", Line(3)),
    (b"s 777 a 610062\n", Line(3)),
    (b"s 777 a 00\n", Line(3)),
    (b"f 644 a 610062\n", Read),
    // Names and how they are spelled.
    (b"f 644 !~ -\n", Read),
    (b"f 644 %61 -\nf 644 b -\n", Read),
    (b"f 644 a -\nf 644 A -\n", Read),
    (b"f 644 a -\nf 644 %61 -\n", Line(4)),
    (b"f 644 %4a -\nf 644 %4A -\n", Line(4)),
    (b"f 644 %4a -\nf 644 J -\n", Line(4)),
    (b"f 644 a%20b%25%ff -\n", Read),
    (b"f 644 %2525 -\nf 644 %25 -\n", Read),
    (b"f 644 % -\n", Line(3)),
    (b"f 644 %6 -\n", Line(3)),
    (b"f 644 %6g -\n", Line(3)),
    (b"f 644 %%61 -\n", Line(3)),
    (b"f 644 a% -\n", Line(3)),
    (b"f 644 a%6 -\n", Line(3)),
    (b"f 644 %-1 -\n", Line(3)),
    (b"d 755 %6\nf 644 %6/1 -\n", Line(3)),
    (b"f 644 a%00b -\n", Line(3)),
    (b"f 644 a%2fb -\n", Line(3)),
    (b"f 644 . -\n", Line(3)),
    (b"f 644 %2e -\n", Line(3)),
    (b"f 644 .%2E -\n", Line(3)),
    (b"f 644 .. -\n", Line(3)),
    (b"f 644 ..\n", Line(3)),
    (b"f 644 %2e%2e -\n", Line(3)),
    (b"f 644 ... -\n", Read),
    (b"f 644 a\x7f -\n", Line(3)),
    (b"f 644 a\x80 -\n", Line(3)),
    (b"f 644 a\xff -\n", Line(3)),
    (b"f 644 \xc3\xa4 -\n", Line(3)),
    (b"f 644 a\x1f -\n", Line(3)),
    // Paths.
    (b"d 755 a\nf 644 a/b -\n", Read),
    (b"d 755 a\nd 755 %61/b\nd 755 a/%62/c\n", Read),
    (b"f 644 x/y -\n", Line(3)),
    (b"f 644 x -\nf 644 x/y -\n", Line(4)),
    (b"f 644 x -\nh z x\nf 644 z/y -\n", Line(5)),
    (b"p 600 x\nd 755 x/y\n", Line(4)),
    (b"s 777 x 2e\nf 644 x/y -\n", Line(4)),
    (b"f 644 a/b -\nd 755 a\n", Line(3)),
    (b"d 755 a\nf 644 a/ -\n", Line(4)),
    (b"d 755 a\nf 644 /a -\n", Line(4)),
    (b"d 755 a\nf 644 a//b -\n", Line(4)),
    (b"d 755 a\nf 644 a%2fb -\n", Line(4)),
    (b"d 755 a\nd 755 a/b\nf 644 a/%62 -\n", Line(5)),
    (b"d 755 a\nf 644 a/./b -\n", Line(4)),
    (b"d 755 a\nf 644 a/../b -\n", Line(4)),
    (b"d 755 a\nd 755 a\n", Line(4)),
    (b"d 755 a\nf 644 a -\n", Line(4)),
    (b"d 755 /\n", Line(3)),
    // Folders that come again, and that are spelled in two ways.
    (
        b"d 755 a\nd 755 b\nf 644 a/x -\nf 644 b/x -\nf 644 a/y -\nf 644 b/y -\n",
        Read,
    ),
    (
        b"d 755 a\nd 755 a/b\nf 644 a/b/x -\nf 644 a/x -\nf 644 x -\nf 644 a/b/x -\n",
        Line(8),
    ),
    (b"d 755 a\nf 644 a/x -\nf 644 %61/y -\nf 644 a/z -\n", Read),
    (
        b"d 755 a\nf 644 a/x -\nf 644 %61/y -\nf 644 a/y -\n",
        Line(6),
    ),
    (b"d 755 a\nf 644 a/x -\nf 644 ab/x -\n", Line(5)),
    (b"d 755 ab\nf 644 ab/x -\nf 644 a/x -\n", Line(5)),
    (b"d 755 a\nd 755 a/b\nf 644 a/b/x -\nf 644 b/x -\n", Line(6)),
    (b"d 755 a\nf 644 a/x -\nf 644 a/b/x -\nd 755 a/b\n", Line(5)),
    (b"d 755 a\nf 644 a/x -\nf 644 a/x/y -\n", Line(5)),
    (b"d 755 a\nf 644 a/x -\nf 644 a/. -\n", Line(5)),
    (b"d 755 a\nf 644 a/x -\nf 644 a/%6 -\n", Line(5)),
    (b"d 755 a\nf 644 a/x -\nf 644 a/ -\n", Line(5)),
    (b"d 755 a\nf 644 a/x -\nf 644 /y -\n", Line(5)),
    (b"d 755 a\nf 644 a/x -\nf 644 a//y -\n", Line(5)),
    (
        b"d 755 a\nd 755 b\nf 644 a/x -\nh b/x a/x\nh a/y b/x\nf 644 b/y -\n",
        Read,
    ),
    (b"d 755 a\nf 644 a/x -\nh y a/x\nh z a/y\n", Line(6)),
    // Further names.
    (b"f 644 a 78\nh b a\n", Read),
    (b"f 644 a -\nh b a\nh c b\n", Read),
    (b"s 777 a 78\nh b %61\n", Read),
    (
        b"p 600 a\nc 600 b\nb 600 c\nk 600 d\nh e a\nh f b\nh g c\nh h d\n",
        Read,
    ),
    (b"d 755 d\nf 644 d/a -\nh a d/%61\n", Read),
    (b"d 755 a\nh b a\n", Line(4)),
    (b"d 755 a\nd 755 a/b\nh c a/b\n", Line(5)),
    (b"f 644 a -\nf 644 b -\nh b a\n", Line(5)),
    (b"f 644 a -\nh %61 a\n", Line(4)),
    (b"f 644 a -\nh x/b a\n", Line(4)),
    (b"f 644 a -\nh a/b a\n", Line(4)),
    (b"f 644 a -\nh b x/a\n", Line(4)),
    (b"f 644 a -\nh b a/a\n", Line(4)),
    (b"f 644 a -\nh . a\n", Line(4)),
    (b"f 644 a -\nh .. a\n", Line(4)),
    (b"f 644 a -\nh b .\n", Line(4)),
    (b"f 644 a -\nh b/ a\n", Line(4)),
    (b"f 644 a -\nh /b a\n", Line(4)),
    (b"f 644 a -\nh b a/\n", Line(4)),
    (b"f 644 a -\nh b /a\n", Line(4)),
    (b"f 644 a -\nh b %6\n", Line(4)),
    (b"f 644 a -\nh %6 a\n", Line(4)),
    (b"f 644 a -\nh a a\n", Line(4)),
    (b"f 644 a -\nh b c\n", Line(4)),
    (b"h b a\nf 644 a -\n", Line(3)),
    (b"f 644 a -\nd 755 d\nh d/b a\nh c d/b\nh e c/b\n", Line(7)),
    (b"f 644 a -\nh b a \n", Line(4)),
    (b"f 644 a -\nh  b a\n", Line(4)),
    (b"f 644 a -\nh b  a\n", Line(4)),
    (b"f 644 a -\nh b a a\n", Line(4)),
    (b"f 644 a -\nh\tb a\n", Line(4)),
    (b"f 644 a -\nH b a\n", Line(4)),
    (b"f 644 a -\nh b\n", Line(4)),
    (b"f 644 a -\nh b \n", Line(4)),
    (b"f 644 a -\nh 644 b a\n", Line(4)),
];

/// Whole texts, and what comes of them.
static TEXTS: [(&[u8], Told); 33] = [
    (b"fuse-tree 1\nroot 755\nend\n", Read),
    (b"fuse-tree 1\nroot 000\nend\n", Read),
    (b"fuse-tree 1\nroot 755\nf 644 x/y -\nend\n", Line(3)),
    (b"fuse-tree 1\nroot 755\nf 644 a 78\nh b a\nend\n", Read),
    (b"", Line(1)),
    (b"\n", Line(1)),
    (b"fuse-tree 1", Line(1)),
    (b"fuse-tree 2\nroot 755\nend\n", Line(1)),
    (b"fuse-order 1\nroot 755\nend\n", Line(1)),
    (b"fuse-tree 1\r\nroot 755\nend\n", Line(1)),
    (b"fuse-tree 1\n", Line(2)),
    (b"fuse-tree 1\nend\n", Line(2)),
    (b"fuse-tree 1\nroot 755", Line(2)),
    (b"fuse-tree 1\nroot755\nend\n", Line(2)),
    (b"fuse-tree 1\nroot 75\nend\n", Line(2)),
    (b"fuse-tree 1\nroot 7555\nend\n", Line(2)),
    (b"fuse-tree 1\nroot 0755\nend\n", Line(2)),
    (b"fuse-tree 1\nroot 755\r\nend\n", Line(2)),
    (b"fuse-tree 1\nroot 758\nend\n", Line(2)),
    (b"fuse-tree 1\nroot  755\nend\n", Line(2)),
    (b"fuse-tree 1\nroot 755 \nend\n", Line(2)),
    (b"fuse-tree 1\nroot 755\n", Line(3)),
    (b"fuse-tree 1\nroot 755\nend", Line(3)),
    (b"fuse-tree 1\nroot 755\nroot 755\nend\n", Line(3)),
    (b"fuse-tree 1\nroot 755\nf 644 a -", Line(3)),
    (b"fuse-tree 1\nroot 755\nf 644 a -\nh b a", Line(4)),
    (b"fuse-tree 1\nroot 755\nend\r\n", Line(3)),
    (b"fuse-tree 1\nroot 755\nEND\n", Line(3)),
    (b"fuse-tree 1\nroot 755\nf 644 a -\n", Line(4)),
    (b"fuse-tree 1\nroot 755\nend\n\n", Line(4)),
    (b"fuse-tree 1\nroot 755\nend\nf 644 a -\n", Line(4)),
    (b"fuse-tree 1\nroot 755\nf 644 a -\nend\nend\n", Line(5)),
    (b"fuse-tree 1\nroot 755\nf 644 a -\nend\nx", Line(5)),
];

/// Lines in which a part stands many times: what stands before it, the part, how often, and what stands behind.
type Repeated = (&'static [u8], &'static [u8], u32, &'static [u8]);

/// Lines at the limit of a name, and what comes of the text. A name has at most 1,024 bytes as it is decoded, and a path any number.
/// A file of more than 16 MiB is tried by cases of the built program: a row takes a minute under `rt try`.
static LIMITS: [(Repeated, Told); 12] = [
    ((b"f 644 ", b"a", 1_024, b" -\n"), Read),
    ((b"f 644 ", b"a", 1_025, b" -\n"), Line(3)),
    ((b"f 644 ", b"%61", 1_024, b" -\n"), Read),
    ((b"f 644 ", b"%61", 1_025, b" -\n"), Line(3)),
    ((b"f 644 ", b"%61", 1_023, b"b -\n"), Read),
    ((b"f 644 ", b"%61", 1_024, b"b -\n"), Line(3)),
    ((b"d 755 a\nf 644 a/", b"b", 1_024, b" -\n"), Read),
    ((b"d 755 a\nf 644 a/", b"b", 1_025, b" -\n"), Line(4)),
    ((b"f 644 ", b"b", 1_025, b"/a -\n"), Line(3)),
    ((b"f 644 a -\nh ", b"b", 1_024, b" a\n"), Read),
    ((b"f 644 a -\nh ", b"b", 1_025, b" a\n"), Line(4)),
    ((b"f 644 a -\nh b ", b"a", 1_025, b"\n"), Line(4)),
];

/// What comes of a text.
fn outcome_of(alloc: Global, text: &[u8]) -> Told {
    if text.len() > MAX_TEXT_BYTES {
        return Nothing;
    }
    match read_tree(alloc, Seed::default(), text) {
        Ok(tree) => {
            drop(tree);
            Read
        }
        Err(TextError::Line(line)) => Line(line),
        Err(TextError::Memory) => Nothing,
    }
}

/// The text with these lines between the root's and the last. None where memory was refused.
fn text_with(alloc: Global, lines: &[u8]) -> Option<Vec<u8>> {
    let mut text = Vec::new(alloc);
    text.extend_from_slice(b"fuse-tree 1\nroot 755\n").ok()?;
    text.extend_from_slice(lines).ok()?;
    text.extend_from_slice(b"end\n").ok()?;
    Some(text)
}

/// What comes of the text with these lines.
fn outcome_with(alloc: Global, lines: &[u8]) -> Told {
    match text_with(alloc, lines) {
        Some(text) => outcome_of(alloc, &text),
        None => Nothing,
    }
}

/// The lines with their part as often as it stands there. None where memory was refused.
fn repeated_lines(alloc: Global, (front, part, times, behind): Repeated) -> Option<Vec<u8>> {
    let mut lines = Vec::from_slice(alloc, front).ok()?;
    for _ in 0..times {
        lines.extend_from_slice(part).ok()?;
    }
    lines.extend_from_slice(behind).ok()?;
    Some(lines)
}

/// The number of the first text of which something else comes.
fn first_wrong_text(alloc: Global, rows: &[(&[u8], Told)]) -> Option<usize> {
    rows.iter()
        .position(|(text, expected)| outcome_of(alloc, text) != *expected)
}

/// The number of the first lines of which something else comes.
fn first_wrong_lines(alloc: Global, rows: &[(&[u8], Told)]) -> Option<usize> {
    rows.iter().position(|(lines, expected)| outcome_with(alloc, lines) != *expected)
}

/// The number of the first repeated lines of which something else comes.
fn first_wrong_limit(alloc: Global, rows: &[(Repeated, Told)]) -> Option<usize> {
    for (number, (row, expected)) in rows.iter().enumerate() {
        match repeated_lines(alloc, *row) {
            Some(lines) if outcome_with(alloc, &lines) == *expected => {}
            _ => return Some(number),
        }
    }
    None
}

#[test]
fn lines_that_add(rt: HostRuntime) {
    assert_eq!(rt; first_wrong_lines(rt.alloc(), &LINES), None);
}

#[test]
fn limits_of_names(rt: HostRuntime) {
    assert_eq!(rt; first_wrong_limit(rt.alloc(), &LIMITS), None);
}

#[test]
fn whole_texts(rt: HostRuntime) {
    assert_eq!(rt; first_wrong_text(rt.alloc(), &TEXTS), None);
}

/// A text of ten lines.
static TEN: [u8; 121] = *b"fuse-tree 1
root 755
d 755 a
f 640 a/%66 6869
s 777 s 2e2e2f78
p 600 p
c 600 c
b 600 b
k 600 k
h a/hello%20world a/f
end
";

/// The line, counted from 1, in which a byte of the text stands.
fn line_of(text: &[u8], place: usize) -> usize {
    1 + text
        .iter()
        .take(place)
        .filter(|byte| **byte == b'\n')
        .count()
}

/// The same text, but for a `*` where a byte may be a `7` instead: each permission digit, each hexadecimal digit of a body, each
/// name that no other line names, and in the path of line 10 each byte behind `a`. There `a7hello world` is a name in the root, and
/// `%70` and `%27` are escapes. What else becomes a `7` breaks its line, or a path that a later line names.
static SEVENS: [u8; 121] = *b"fuse-tree 1
root ***
d *** a
f *** a/%66 ****
s *** * ********
p *** *
c *** *
b *** *
k *** *
h a************** a/f
end
";

/// Whether the text of ten lines with another byte in this line may be at fault here. A line that is broken in two may be at fault
/// in its second part. Lines 4 and 10 name the directory of line 3, and line 10 the file of line 4.
fn may_be_at_fault(line: usize, byte: u8, at: usize) -> bool {
    at == line
        || (byte == b'\n' && at > line && at - line == 1)
        || (line == 3 && at == 4)
        || (line == 4 && at == 10)
}

/// What comes of the text with another byte at this place.
fn outcome_changed(alloc: Global, text: &[u8], place: usize, byte: u8) -> Told {
    let Ok(mut changed) = Vec::from_slice(alloc, text) else {
        return Nothing;
    };
    match changed.get_mut(place) {
        Some(old) => *old = byte,
        None => return Nothing,
    }
    outcome_of(alloc, &changed)
}

/// The first place of the text, and the byte there, with which something else comes than has to. The text has to be read where the
/// byte stood there before, or the mask has a `*`, and nowhere else.
fn first_wrong_byte(alloc: Global, text: &[u8], mask: &[u8], bytes: &[u8]) -> Option<(usize, u8)> {
    for (place, old) in text.iter().enumerate() {
        let is_free = mask.get(place) == Some(&b'*');
        for byte in bytes {
            let is_expected = match outcome_changed(alloc, text, place, *byte) {
                Read => is_free || *byte == *old,
                Line(at) => {
                    !is_free
                        && *byte != *old
                        && may_be_at_fault(line_of(text, place), *byte, at as usize)
                }
                Nothing => false,
            };
            if !is_expected {
                return Some((place, *byte));
            }
        }
    }
    None
}

#[test]
fn one_byte_changed(rt: HostRuntime) {
    // No byte of the text may be one of these instead: they part lines, fields and names, begin an escape, or stand nowhere.
    assert_eq!(rt;
        first_wrong_byte(rt.alloc(), &TEN, b"", b"\n /%\x7f\xff"),
        None
    );
    assert_eq!(rt; first_wrong_byte(rt.alloc(), &TEN, &SEVENS, b"7"), None);
}

/// The file to which these names lead from the root.
fn file_at(tree: &Tree, names: &[&[u8]]) -> Option<FileId> {
    let mut file = tree.root();
    for name in names {
        file = tree.find(file, name)?;
    }
    Some(file)
}

/// Whether two ways down lead to one file. None where one leads nowhere.
fn lead_to_one(tree: &Tree, left: &[&[u8]], right: &[&[u8]]) -> Option<bool> {
    Some(file_at(tree, left)? == file_at(tree, right)?)
}

/// The same of the tree of a text. None also where the text is not read.
fn are_one(alloc: Global, text: &[u8], left: &[&[u8]], right: &[&[u8]]) -> Option<bool> {
    if text.len() > MAX_TEXT_BYTES {
        return None;
    }
    let tree = read_tree(alloc, Seed::default(), text).ok()?;
    let are_one = lead_to_one(&tree, left, right);
    drop(tree);
    are_one
}

/// The tree of a recorded capture, with a shorter `big`.
static RECORDED: [u8; 240] = *b"fuse-tree 1
root 755
d 755 a
d 755 a/b
f 644 a/b/again 68656c6c6f0a
d 700 a/c
h a/hello a/b/again
f 644 a/na%20me%251 6f64640a
s 777 a/sym 2e2e2f646967697473
f 644 big 310a320a
f 640 digits 30313233343536373839
f 644 empty -
p 644 fifo
end
";

#[test]
fn a_recorded_tree(rt: HostRuntime) {
    let again = [b"a".as_slice(), b"b".as_slice(), b"again".as_slice()];
    let hello = [b"a".as_slice(), b"hello".as_slice()];
    let name = [b"a".as_slice(), b"na me%1".as_slice()];
    assert_eq!(rt; are_one(rt.alloc(), &RECORDED, &again, &hello), Some(true));
    assert_eq!(rt; are_one(rt.alloc(), &RECORDED, &again, &name), Some(false));
}

#[test]
fn names_are_decoded(rt: HostRuntime) {
    let one = are_one(
        rt.alloc(),
        &TEN,
        &[b"a".as_slice(), b"hello world".as_slice()],
        &[b"a".as_slice(), b"f".as_slice()],
    );
    assert_eq!(rt; one, Some(true));
    let other = are_one(
        rt.alloc(),
        &TEN,
        &[b"s".as_slice()],
        &[b"a".as_slice(), b"f".as_slice()],
    );
    assert_eq!(rt; other, Some(false));
    let encoded = are_one(
        rt.alloc(),
        &TEN,
        &[b"s".as_slice()],
        &[b"a".as_slice(), b"%66".as_slice()],
    );
    assert_eq!(rt; encoded, None);
}

#[test]
fn want_of_memory_tells_no_line(rt: HostRuntime) {
    // Where `bench/refused` refuses an allocation, the text is not read, and no line is told.
    let outcome = outcome_of(rt.alloc(), &TEN);
    assert!(rt; outcome == Read || outcome == Nothing);
}
