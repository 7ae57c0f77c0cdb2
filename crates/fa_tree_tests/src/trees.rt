//! Trees that are put together. Files are numbered as they are added, the root as 0.
//!
//! A tree is let go by `drop` in all of these tests: where it goes at the end of a function, or at a `?`, all of its tables are proved to go there.

ghost use Rattle.std.specs.Prelude.{◌≤◌};

use Added::*;
use fa_capture::Seed;
use fa_capture::codes::SUCCESS_NOT_ALLOWED;
use fa_tree::{FileId, Kind, StepError, Tree};
use std::alloc::Global;
use std::process::Abort;

/// A name of as many bytes as a name may have, and one byte more.
const LONG: &[u8] = &[b'n'; 1_024];

const TOO_LONG: &[u8] = &[b'n'; 1_025];

/// What is added: in the directory of this number, under this name,
#[derive(Clone, Copy)]
pub enum Added {
    /// a file of this type with this body,
    File(usize, &'static [u8], Kind, &'static [u8]),
    /// a further name for the file of this number.
    Name(usize, &'static [u8], usize),
}

/// What is added in turn, and the code that is told, 0 where it is taken.
static ADDED: [(Added, u16); 34] = [
    (File(0, b"f", Kind::Regular, b"x"), 0),
    (File(0, b"d", Kind::Directory, b""), 0),
    (File(2, b"f", Kind::Regular, b""), 0),
    (File(2, b"s", Kind::Symlink, b"../f"), 0),
    (File(0, b"p", Kind::Fifo, b""), 0),
    (File(0, b"c", Kind::CharDevice, b""), 0),
    (File(0, b"b", Kind::BlockDevice, b""), 0),
    (File(0, b"k", Kind::Socket, b""), 0),
    (File(2, b"e", Kind::Directory, b""), 0),
    (File(9, LONG, Kind::Regular, b""), 0),
    // The name is there.
    (File(0, b"f", Kind::Regular, b""), SUCCESS_NOT_ALLOWED),
    (File(2, b"e", Kind::Directory, b""), SUCCESS_NOT_ALLOWED),
    // The parent is no directory.
    (File(1, b"g", Kind::Regular, b""), SUCCESS_NOT_ALLOWED),
    (File(4, b"g", Kind::Regular, b""), SUCCESS_NOT_ALLOWED),
    // The name is not permitted.
    (File(0, b"", Kind::Regular, b""), SUCCESS_NOT_ALLOWED),
    (File(0, b".", Kind::Regular, b""), SUCCESS_NOT_ALLOWED),
    (File(0, b"..", Kind::Directory, b""), SUCCESS_NOT_ALLOWED),
    (File(0, b"a/b", Kind::Regular, b""), SUCCESS_NOT_ALLOWED),
    (File(0, b"a\0", Kind::Regular, b""), SUCCESS_NOT_ALLOWED),
    (File(0, TOO_LONG, Kind::Regular, b""), SUCCESS_NOT_ALLOWED),
    // A file of this type may not have this body.
    (File(0, b"g", Kind::Symlink, b""), SUCCESS_NOT_ALLOWED),
    (File(0, b"g", Kind::Symlink, b"a\0b"), SUCCESS_NOT_ALLOWED),
    (File(0, b"g", Kind::Fifo, b"x"), SUCCESS_NOT_ALLOWED),
    (File(0, b"g", Kind::Directory, b"x"), SUCCESS_NOT_ALLOWED),
    // Further names, of a regular file, of a symbolic link, and of a socket.
    (Name(2, b"h", 1), 0),
    (Name(0, b"t", 4), 0),
    (Name(9, b"k", 8), 0),
    (Name(0, b"h", 1), 0),
    (Name(0, b"h", 1), SUCCESS_NOT_ALLOWED),
    (Name(0, b"d", 1), SUCCESS_NOT_ALLOWED),
    (Name(0, b"g", 2), SUCCESS_NOT_ALLOWED),
    (Name(0, b"g", 0), SUCCESS_NOT_ALLOWED),
    (Name(1, b"g", 1), SUCCESS_NOT_ALLOWED),
    (Name(0, b"a/b", 1), SUCCESS_NOT_ALLOWED),
];

/// In the directory of this number, this name, and the number of its file, if it is there.
type Found = (usize, &'static [u8], Option<usize>);

/// What is found after all that.
static FOUND: [Found; 17] = [
    (0, b"f", Some(1)),
    (0, b"d", Some(2)),
    (2, b"f", Some(3)),
    (2, b"s", Some(4)),
    (0, b"p", Some(5)),
    (0, b"c", Some(6)),
    (0, b"b", Some(7)),
    (0, b"k", Some(8)),
    (2, b"e", Some(9)),
    (9, LONG, Some(10)),
    (2, b"h", Some(1)),
    (0, b"t", Some(4)),
    (9, b"k", Some(8)),
    (0, b"h", Some(1)),
    (0, b"g", None),
    (2, b"d", None),
    (1, b"f", None),
];

/// The permission bits of what is added.
fn bits_of(kind: Kind) -> u16
    ensures { result ≤ 511 }
{
    match kind {
        Kind::Directory => 0o755,
        _ => 0o644,
    }
}

/// The code that is told where this is added, 0 where it is taken; None where a file of this number is not there, or memory
/// was refused.
fn told(tree: &mut Tree, files: &mut Vec<FileId>, added: Added) -> Option<u16> {
    let taken = match added {
        File(parent, name, kind, body) => match tree.add(
            *files.get(parent)?,
            name,
            kind,
            bits_of(kind),
            body,
        ) {
            Ok(file) => files.push(file).map_err(|_| StepError::Memory),
            Err(error) => Err(error),
        },
        Name(parent, name, file) => tree.add_link(*files.get(parent)?, name, *files.get(file)?),
    };
    match taken {
        Ok(()) => Some(0),
        Err(StepError::Refused(code)) => Some(code),
        Err(StepError::Memory) => None,
    }
}

/// Whether these files are added to an empty tree: not where one is refused, or memory for it was. None where memory for their numbers
/// was refused.
fn are_added(alloc: Global, tree: &mut Tree, files: &[Added]) -> Option<bool> {
    let mut numbered = Vec::new(alloc);
    numbered.push(tree.root()).ok()?;
    for added in files {
        if told(tree, &mut numbered, *added) != Some(0) {
            return Some(false);
        }
    }
    Some(true)
}

/// A tree of its root alone.
pub fn empty_tree(rt: &impl Abort, alloc: Global) -> Tree {
    Tree::empty(alloc, Seed::default(), 0o755).expect(rt, "memory")
}

/// A tree of these files.
pub fn tree_of(rt: &impl Abort, alloc: Global, files: &[Added]) -> Tree {
    let mut tree = empty_tree(rt, alloc);
    assert!(rt; are_added(alloc, &mut tree, files) == Some(true));
    tree
}

/// The number of the first row that is told another code, where there is one.
fn first_wrong_code(
    tree: &mut Tree,
    files: &mut Vec<FileId>,
    rows: &[(Added, u16)],
) -> Option<usize> {
    for (number, (added, code)) in rows.iter().enumerate() {
        if told(tree, files, *added) != Some(*code) {
            return Some(number);
        }
    }
    None
}

/// Whether a name is found so. None where a file of this number is not there.
fn is_found(tree: &Tree, files: &[FileId], found: &Found) -> Option<bool> {
    let (directory, name, file) = found;
    let expected = match file {
        Some(file) => Some(*files.get(*file)?),
        None => None,
    };
    Some(tree.find(*files.get(*directory)?, name) == expected)
}

/// The number of the first row that is not found so, where there is one.
fn first_wrong_file(tree: &Tree, files: &[FileId], rows: &[Found]) -> Option<usize> {
    rows.iter()
        .position(|found| is_found(tree, files, found) != Some(true))
}

/// The numbers of the first row that is told another code by an empty tree, and of the first that finds another file then. None where
/// memory was refused.
fn first_wrong(
    alloc: Global,
    tree: &mut Tree,
    added: &[(Added, u16)],
    found: &[Found],
) -> Option<(Option<usize>, Option<usize>)> {
    let mut files = Vec::new(alloc);
    files.push(tree.root()).ok()?;
    let told = first_wrong_code(tree, &mut files, added);
    Some((told, first_wrong_file(tree, &files, found)))
}

#[test]
fn what_may_be_added(rt: HostRuntime) {
    let mut tree = empty_tree(&rt, rt.alloc());
    let wrong = first_wrong(rt.alloc(), &mut tree, &ADDED, &FOUND);
    drop(tree);
    assert_eq!(rt; wrong, Some((None, None)));
}

/// The code that is told where a file of so many bytes is added to an empty tree, 0 where it is taken, and whether its name is there
/// then. None where memory was refused.
fn size_told(alloc: Global, tree: &mut Tree, size: usize) -> Option<(u16, bool)> {
    let body = vec![in alloc; 0u8; size].ok()?;
    let root = tree.root();
    let code = match tree.add(root, b"f", Kind::Regular, 0o644, &body) {
        Ok(_) => 0,
        Err(StepError::Refused(code)) => code,
        Err(StepError::Memory) => return None,
    };
    Some((code, tree.find(root, b"f").is_some()))
}

/// A file of as many bytes as a list of pages holds, and one of one byte more. Of more bytes than a file may have no memory
/// is at hand.
#[test]
fn how_many_bytes_may_be_added(rt: HostRuntime) {
    for size in [16_777_216, 16_777_217] {
        let mut tree = empty_tree(&rt, rt.alloc());
        let told = size_told(rt.alloc(), &mut tree, size);
        drop(tree);
        assert_eq!(rt; told, Some((0, true)));
    }
}

/// Adds a file, and again where memory was refused, which leaves no name.
fn add_again(tree: &mut Tree, parent: FileId, name: &[u8], kind: Kind) -> Option<FileId> {
    match tree.add(parent, name, kind, 0o644, b"") {
        Err(StepError::Memory) if tree.find(parent, name).is_none() => {
            tree.add(parent, name, kind, 0o644, b"").ok()
        }
        added => added.ok(),
    }
}

/// Adds a further name, and again where memory was refused, which leaves no name.
fn link_again(tree: &mut Tree, parent: FileId, name: &[u8], file: FileId) -> Option<()> {
    match tree.add_link(parent, name, file) {
        Err(StepError::Memory) if tree.find(parent, name).is_none() => {
            tree.add_link(parent, name, file).ok()
        }
        added => added.ok(),
    }
}

/// A tree of its root alone, asked for again where memory was refused.
pub fn empty_again(rt: &impl Abort, alloc: Global) -> Tree {
    match Tree::empty(alloc, Seed::default(), 0o755) {
        Ok(tree) => tree,
        Err(_) => empty_tree(rt, alloc),
    }
}

/// Whether files of these names are found that were added to a directory, and then to the root under a name of two bytes.
fn are_found(tree: &Tree, directory: FileId) -> bool {
    let mut are_found = true;
    for letter in b'a'..=b'z' {
        let file = tree.find(directory, &[letter]);
        let again = tree.find(tree.root(), &[letter, letter]);
        are_found = are_found && file.is_some() && again == file;
    }
    are_found
}

/// Adds a directory, a file of each letter to it, and a further name of two letters for it to the root.
fn grown(tree: &mut Tree) -> Option<bool> {
    let root = tree.root();
    let directory = add_again(tree, root, b"d", Kind::Directory)?;
    for letter in b'a'..=b'z' {
        let file = add_again(tree, directory, &[letter], Kind::Regular)?;
        link_again(tree, root, &[letter, letter], file)?;
    }
    Some(are_found(tree, directory))
}

/// Whether a copy, made again where memory was refused, is the same tree.
fn is_copied(tree: &Tree) -> Option<bool> {
    let copy = match tree.copy() {
        Ok(copy) => copy,
        Err(_) => tree.copy().ok()?,
    };
    let is_same = tree.is_same(&copy);
    drop(copy);
    Some(is_same)
}

/// The tree alone takes memory here. An ordinary run has ample memory: `bench/refused` refuses each allocation in turn, which shows
/// what the tree does without it.
#[test]
fn what_memory_was_refused_for_is_added_again(rt: HostRuntime) {
    let mut tree = empty_again(&rt, rt.alloc());
    let has_grown = grown(&mut tree);
    let is_copied = is_copied(&tree);
    drop(tree);
    assert!(rt; has_grown == Some(true) && is_copied == Some(true));
}
