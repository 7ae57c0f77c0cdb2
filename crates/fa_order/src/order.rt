//! Order texts: the entries of an order, read from bytes.
//!
//! An order text is the line `fuse-order 1`, a line for each entry and the line `end`. An entry's line
//! is `N`, the number of a message, or `N w K`, where the message is an unanswered WRITE that wrote K
//! bytes. Each line ends with one line feed, and one space parts two fields. A decimal has no leading
//! zero (0 itself is `0`) and is at most 4294967295. The format is this profile's.

ghost use Rattle.std.specs.Prelude.{◌≡◌, ℕ, ◌^◌, ◌<◌, ◌≤◌, ◌++◌, List, Option, length, IfOk, IfErr, IfSome, IfNone, OnOk, string_bytes};
ghost use Rattle.std.specs.Char.{is_ascii_digit};
ghost use Rattle.std.specs.Fmt.{decimal};
ghost use Rattle.std.specs.List.{prefix_len};
ghost use Rattle.std.specs.Str.Parse.{AllDigits};
ghost use Rattle.fa_order.specs.Lines.{LacksLine};
ghost use Rattle.fa_order.specs.Order.{IsInRange, IsCount, line_end, entry_line, LacksEntry, IsOrderText};
ghost use Rattle.fa_order.specs.Faults.{IsOrderFaultTold};
ghost use Rattle.fa_order.specs.parts.Digits.{LacksDigit};

use crate::entry::Entry;
use crate::error::TextError;
use crate::lines::{END_LINE, LINE_FEED, MAX_TEXT_BYTES};
use std::alloc::{AllocError, Global};

/// The line that a text begins with.
const FIRST_LINE: &[u8; 13] = b"fuse-order 1\n";
/// What stands between the number of a message and how many bytes it wrote.
const WROTE: &[u8; 3] = b" w ";
/// How many digits a decimal has at most: so many fit in 64 bits, whichever they are.
const MAX_DIGITS: usize = 10;

/// The decimal at the front, up to the first byte that is no digit, and what stands behind it.
fn read_decimal(left: &[u8]) -> Option<(u32, &[u8])>
    ensures in_range { IfSome result (λ r. r.0 < 2 ^ 32) }
    ensures number { IfSome result (λ r. left.now ≡ decimal r.0 ++ r.1.now) }
    ensures whole { IfSome result (λ r. LacksDigit r.1.now) }
    ensures none { IfNone result ((n : ℕ) (rest : List ℕ) → n < 2 ^ 32 → LacksDigit rest
        → left.now ≡ decimal n ++ rest → ⊥) }
{
    // With more than ten digits the number may wrap, and is not looked at.
    let mut number: u64 = 0;
    let mut count: usize = 0;
    for byte in left {
        if !byte.is_ascii_digit() {
            break;
        }
        number = number
            .wrapping_mul(10)
            .wrapping_add(u64::from(*byte - b'0'));
        count += 1;
    }
    if count == 0 || count > MAX_DIGITS || (count > 1 && left[0] == b'0') {
        return None;
    }
    Some((u32::try_from(number).ok()?, &left[count..]))
}

/// What a line says of the bytes written, read behind the number of its message, and what stands behind
/// the line.
fn read_line_end(left: &[u8]) -> Option<(Option<u32>, &[u8])>
    ensures in_range { IfSome result (λ r. IsCount r.0) }
    ensures found { IfSome result (λ r. left.now ≡ line_end r.0 ++ r.1.now) }
    ensures none { IfNone result ((wrote : Option ℕ) → IsCount wrote
        → LacksLine left.now (line_end wrote)) }
{
    if let Some(rest) = left.strip_prefix(LINE_FEED.as_slice()) {
        return Some((None, rest));
    }
    let (count, rest) = read_decimal(left.strip_prefix(WROTE.as_slice())?)?;
    Some((Some(count), rest.strip_prefix(LINE_FEED.as_slice())?))
}

/// The entry whose line stands at the front, and what stands behind that line.
fn read_entry(left: &[u8]) -> Option<(Entry, &[u8])>
    ensures found { IfSome result (λ r. left.now ≡ entry_line r.0 ++ r.1.now) }
    ensures in_range { IfSome result (λ r. IsInRange r.0) }
    ensures none { IfNone result (LacksEntry left.now) }
{
    let (at, rest) = read_decimal(left)?;
    let (wrote, rest) = read_line_end(rest)?;
    Some((Entry { at, wrote }, rest))
}

/// The entries of an order text, in the order of their lines.
///
/// The text is the line `fuse-order 1`, a line `N` or `N w K` for each entry, and the line `end`, as the
/// head of this module says; nothing may follow it. The format and its limits are this profile's.
///
/// # Errors
///
/// [`TextError::Line`] where the bytes are no order text, with the line of the fault;
/// [`TextError::Memory`] where memory for the list of entries was refused.
///
/// # Cost
///
/// Time linear in the number of bytes, up to the fault or the end. Memory for the list of entries alone,
/// which grows by doubling.
pub fn read_order(alloc: Global, bytes: &[u8]) -> Result<Vec<Entry>, TextError>
    requires { length bytes.now ≤ MAX_TEXT_BYTES }
    ensures found { IfOk result (λ entries. IsOrderText bytes.now entries.items) }
    ensures fault { IfErr result (IsOrderFaultTold bytes.now) }
{
    let Some(mut left) = bytes.strip_prefix(FIRST_LINE.as_slice()) else {
        return Err(TextError::Line(1));
    };
    let mut entries = Vec::new(alloc);
    while let Some((entry, rest)) = read_entry(left) {
        entries.push(entry)?;
        left = rest;
    }
    let line = entries.len() as u32 + 2;
    match left.strip_prefix(END_LINE.as_slice()) {
        None => Err(TextError::Line(line)),
        Some([]) => Ok(entries),
        Some(_) => Err(TextError::Line(line + 1)),
    }
}

/// Writes an entry's line at the end of a text.
fn write_entry(text: &mut String, entry: &Entry) -> Result<(), AllocError>
    ensures written { OnOk result (string_bytes text.new ≡ string_bytes text.old ++ entry_line entry.now) }
    ensures in_range { IsInRange entry.now }
{
    let at = entry.at;
    match entry.wrote {
        None => writeln!(text, "{at}"),
        Some(count) => writeln!(text, "{at} w {count}"),
    }
}

/// The order text of entries. [`read_order`] reads them from it, where it has at most [`MAX_TEXT_BYTES`] bytes.
///
/// The format is this profile's, as the head of this module says.
///
/// # Errors
///
/// `AllocError` where memory for the text was refused.
///
/// # Cost
///
/// Time linear in the number of entries. Memory for the text alone, which grows by doubling.
pub fn write_order(alloc: Global, entries: &[Entry]) -> Result<Vec<u8>, AllocError>
    ensures { IfOk result (λ text. IsOrderText text.items entries.now) }
{
    let mut text = String::new(alloc);
    text.push_str("fuse-order 1\n")?;
    for entry in entries {
        write_entry(&mut text, entry)?;
    }
    text.push_str("end\n")?;
    Ok(text.into_bytes())
}
