//! Tree texts: the tree that a capture begins with, read from bytes.
//!
//! A tree text is the line `fuse-tree 1`, the line `root BBB`, a line for each file and each further name, and the line `end`.
//! BBB is three octal digits, the permission bits. A file's line is a letter, BBB, a path, and for some types a body:
//!
//! | line | adds |
//! |---|---|
//! | `d BBB path` | a directory |
//! | `f BBB path hex` | a regular file with these bytes; `-` stands for no bytes |
//! | `s BBB path hex` | a symbolic link to this target, one byte or more, none of them zero; BBB is not used |
//! | `p BBB path`, `c BBB path`, `b BBB path`, `k BBB path` | a FIFO, a character device, a block device, a socket |
//! | `h newpath oldpath` | a further name for the file at an earlier path, which is no directory |
//!
//! `hex` is an even number of hexadecimal digits of either case, two at least. A path is names parted by slashes, with none before
//! the first and none behind the last. In a name a byte stands for itself if it is visible ASCII (0x21 to 0x7e) and neither a slash
//! nor `%`; `%` and two hexadecimal digits stand for any byte. A name has 1 to 1,024 bytes, none of them zero or a slash, and is
//! neither `.` nor `..`. The directory of a path is that of an earlier `d` line or the root, and the path is new; paths are
//! compared as decoded. A target has one byte at least. Each line ends with one line feed, and one space parts
//! two fields. The format is this profile's.

ghost use Rattle.std.specs.Prelude.{◌≡◌, ◌≤◌, ◌++◌, ℕ, List, [], length, IfOk, IfErr, IfSome, IfNone, OnOk};
ghost use Rattle.fa_tree.specs.Attributes.{all_bits};
ghost use Rattle.fa_tree_text.specs.TreeText.{root_line, BeginsTree, LacksRoot, IsTreeText};
ghost use Rattle.fa_tree_text.specs.Faults.{IsTreeFaultTold};

use crate::additions::add_line;
use crate::fields::read_bits;
use crate::folders::Folders;
use fa_capture::Seed;
use fa_order::{END_LINE, LINE_FEED, MAX_TEXT_BYTES, TextError};
use fa_tree::Tree;
use std::alloc::Global;

/// The line that a text begins with.
const FIRST_LINE: &[u8; 12] = b"fuse-tree 1\n";
/// What stands in the root's line before its permission bits.
const ROOT: &[u8; 5] = b"root ";

/// The permission bits in the root's line at the front, and what stands behind that line.
fn read_root(left: &[u8]) -> Option<(u16, &[u8])>
    ensures found { IfSome result (λ r. left.now ≡ root_line r.0 ++ r.1.now) }
    ensures in_range { IfSome result (λ r. r.0 ≤ all_bits) }
    ensures none { IfNone result (LacksRoot left.now) }
{
    let (bits, rest) = read_bits(left.strip_prefix(ROOT.as_slice())?)?;
    Some((bits, rest.strip_prefix(LINE_FEED.as_slice())?))
}

/// The tree of a tree text. Its tables are hashed with the seed.
///
/// The text is the line `fuse-tree 1`, the line `root BBB`, a line for each file and each further name, and the line `end`, as the
/// head of this module says; nothing may follow it. Files are numbered as their lines come, the root as 0. The format and its
/// limits are this profile's.
///
/// # Errors
///
/// [`TextError::Line`] where the bytes are no tree text, with the line of the fault;
/// [`TextError::Memory`] where memory for the tree, or for what is decoded of a line, was refused.
///
/// # Cost
///
/// Expected time linear in the number of bytes, up to the fault or the end, but for what [`Tree::add`] and [`Tree::add_link`] take
/// for each line. Of a path the last name alone is decoded and looked up where the path before it is spelled as that of the line
/// before, or as that of the directory which was added last; elsewhere each name of it is, from the root on. Memory for the tree,
/// and for one name and one body at a time.
pub fn read_tree(alloc: Global, seed: Seed, bytes: &[u8]) -> Result<Tree, TextError>
    requires { length bytes.now ≤ MAX_TEXT_BYTES }
    ensures found { IfOk result (λ tree. IsTreeText bytes.now tree) }
    ensures fault { IfErr result (IsTreeFaultTold bytes.now) }
{
    let Some(left) = bytes.strip_prefix(FIRST_LINE.as_slice()) else {
        return Err(TextError::Line(1));
    };
    let Some((bits, left)) = read_root(left) else {
        return Err(TextError::Line(2));
    };
    let mut tree = Tree::empty(alloc, seed, bits)?;
    add_lines(alloc, &mut tree, left)?;
    Ok(tree)
}

/// Adds what the lines behind the root's say to the tree of the root alone, up to the end of the text. On an error the tree has what the
/// lines before that one added.
fn add_lines(alloc: Global, tree: &mut Tree, left: &[u8]) -> Result<(), TextError>
    requires { length left.now ≤ MAX_TEXT_BYTES }
    ensures read { OnOk result ((bytes : List ℕ) (bits : ℕ) → BeginsTree bytes bits [] tree.old left.now → IsTreeText bytes tree.new) }
    ensures fault { IfErr result (λ error. (bytes : List ℕ) (bits : ℕ) → BeginsTree bytes bits [] tree.old left.now → IsTreeFaultTold bytes error) }
{
    let mut folders = Folders::new();
    let mut last_name = Vec::new(alloc);
    let mut left = left;
    let mut line = 3;
    while let Some(rest) = add_line(alloc, tree, &mut folders, &mut last_name, left)? {
        left = rest;
        line += 1;
    }
    match left.strip_prefix(END_LINE.as_slice()) {
        None => Err(TextError::Line(line)),
        Some([]) => Ok(()),
        Some(_) => Err(TextError::Line(line + 1)),
    }
}
