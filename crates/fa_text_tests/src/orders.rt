//! Order texts.

ghost use Rattle.std.specs.Prelude.{◌≤◌, length};
ghost use Rattle.fa_order.specs.declared.lines.TheConstants.{MAX_TEXT_BYTES};

use fa_order::{Entry, MAX_TEXT_BYTES, TextError, read_order, write_order};
use std::alloc::Global;

const TWO: Entry = Entry { at: 2, wrote: None };

const FOUR_WROTE_THREE: Entry = Entry {
    at: 4,
    wrote: Some(3),
};

const GREATEST: Entry = Entry {
    at: 4_294_967_295,
    wrote: Some(4_294_967_295),
};

const ZERO: Entry = Entry {
    at: 0,
    wrote: Some(0),
};

/// Texts and their entries.
static TEXTS: [(&[u8], &[Entry]); 5] = [
    (b"fuse-order 1\nend\n", &[]),
    (b"fuse-order 1\n2\nend\n", &[TWO]),
    (b"fuse-order 1\n4 w 3\nend\n", &[FOUR_WROTE_THREE]),
    (
        b"fuse-order 1\n2\n4 w 3\n2\nend\n",
        &[TWO, FOUR_WROTE_THREE, TWO],
    ),
    (
        b"fuse-order 1\n4294967295 w 4294967295\n0 w 0\nend\n",
        &[GREATEST, ZERO],
    ),
];

/// Bytes that are no order text, and the line of their fault.
static FAULTS: [(&[u8], u32); 40] = [
    (b"", 1),
    (b"\n", 1),
    (b"fuse-order 1", 1),
    (b"fuse-order 2\nend\n", 1),
    (b"fuse-order 1\r\nend\r\n", 1),
    (b"fuse-order 1 \nend\n", 1),
    (b" fuse-order 1\nend\n", 1),
    (b"fuse-tree 1\nend\n", 1),
    (b"fuse-order 1\n", 2),
    (b"fuse-order 1\n\nend\n", 2),
    (b"fuse-order 1\nend", 2),
    (b"fuse-order 1\nen\n", 2),
    (b"fuse-order 1\n2", 2),
    (b"fuse-order 1\n2\n", 3),
    (b"fuse-order 1\n2\n3", 3),
    (b"fuse-order 1\n02\nend\n", 2),
    (b"fuse-order 1\n00\nend\n", 2),
    (b"fuse-order 1\n+2\nend\n", 2),
    (b"fuse-order 1\n-2\nend\n", 2),
    (b"fuse-order 1\n4294967296\nend\n", 2),
    (b"fuse-order 1\n18446744073709551618\nend\n", 2),
    (b"fuse-order 1\n2 \nend\n", 2),
    (b"fuse-order 1\n 2\nend\n", 2),
    (b"fuse-order 1\n2 w\nend\n", 2),
    (b"fuse-order 1\n2 w \nend\n", 2),
    (b"fuse-order 1\n2  w 3\nend\n", 2),
    (b"fuse-order 1\n2 w  3\nend\n", 2),
    (b"fuse-order 1\n2\tw 3\nend\n", 2),
    (b"fuse-order 1\n2 w\t3\nend\n", 2),
    (b"fuse-order 1\n2 W 3\nend\n", 2),
    (b"fuse-order 1\n2 w 3 4\nend\n", 2),
    (b"fuse-order 1\n2 w -3\nend\n", 2),
    (b"fuse-order 1\n2 3\nend\n", 2),
    (b"fuse-order 1\n2 w 03\nend\n", 2),
    (b"fuse-order 1\n2 w 4294967296\nend\n", 2),
    (b"fuse-order 1\n2 r 3\nend\n", 2),
    (b"fuse-order 1\n2\n4 w 3 \nend\n", 3),
    (b"fuse-order 1\n2\nend\n\n", 4),
    (b"fuse-order 1\n2\nend\nend\n", 4),
    (b"fuse-order 1\n2\nend\nx", 4),
];

/// Whether the text is read as these entries. None where memory was refused.
fn is_read(alloc: Global, text: &[u8], entries: &[Entry]) -> Option<bool>
    requires { length text.now ≤ MAX_TEXT_BYTES }
{
    match read_order(alloc, text) {
        Ok(read) => Some(read.as_slice() == entries),
        Err(TextError::Line(_)) => Some(false),
        Err(TextError::Memory) => None,
    }
}

/// Whether the text is what is written for these entries. None where memory was refused.
fn is_written(alloc: Global, text: &[u8], entries: &[Entry]) -> Option<bool> {
    Some(write_order(alloc, entries).ok()?.as_slice() == text)
}

/// The number of the first text that is not read as its entries, or not written for them.
fn first_wrong_text(alloc: Global, rows: &[(&[u8], &[Entry])]) -> Option<usize> {
    for (number, (text, entries)) in rows.iter().enumerate() {
        if text.len() > MAX_TEXT_BYTES
            || is_read(alloc, text, entries) != Some(true)
            || is_written(alloc, text, entries) != Some(true)
        {
            return Some(number);
        }
    }
    None
}

/// The number of the first text of which another line is told.
fn first_wrong_line(alloc: Global, rows: &[(&[u8], u32)]) -> Option<usize> {
    for (number, (text, line)) in rows.iter().enumerate() {
        if text.len() > MAX_TEXT_BYTES {
            return Some(number);
        }
        match read_order(alloc, text) {
            Err(TextError::Line(told)) if told == *line => {}
            _ => return Some(number),
        }
    }
    None
}

#[test]
fn texts_of_entries(rt: HostRuntime) {
    assert_eq!(rt; first_wrong_text(rt.alloc(), &TEXTS), None);
}

#[test]
fn lines_of_faults(rt: HostRuntime) {
    assert_eq!(rt; first_wrong_line(rt.alloc(), &FAULTS), None);
}
