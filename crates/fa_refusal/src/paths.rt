//! Paths of files.

use fa_tree::{FileId, Tree};
use std::alloc::{AllocError, Global};

/// A path has at most so many names: each directory was made by a message or by a line.
const MOST_NAMES: u32 = 33_554_432;

/// The path of a file from the root by its least names, if names lead to it.
///
/// # Errors
///
/// [`AllocError`] where memory was refused for the path.
///
/// # Cost
///
/// Time in the path, and in what [`name_of`](Tree::name_of) takes for each of its names. Memory for the path.
pub fn path_of(alloc: Global, tree: &Tree, file: FileId) -> Result<Option<Vec<u8>>, AllocError> {
    let mut path = Vec::new(alloc);
    if !put_backwards(&mut path, tree, file)? {
        return Ok(None);
    }
    path.reverse();
    Ok(Some(path))
}

/// Puts the path of a file into an empty list, its last byte first: whether names lead to the file.
fn put_backwards(path: &mut Vec<u8>, tree: &Tree, file: FileId) -> Result<bool, AllocError> {
    if file == tree.root() {
        path.push(b'/')?;
        return Ok(true);
    }
    let mut at = file;
    for _ in 0..MOST_NAMES {
        let Some((directory, name)) = tree.name_of(at) else {
            return Ok(false);
        };
        put_name_backwards(path, name)?;
        if directory == tree.root() {
            return Ok(true);
        }
        at = directory;
    }
    Ok(false)
}

/// Puts a name into a path that is put together backwards, and behind it the slash that it has in front.
fn put_name_backwards(path: &mut Vec<u8>, name: &[u8]) -> Result<(), AllocError> {
    for byte in name.iter().rev() {
        path.push(*byte)?;
    }
    path.push(b'/')?;
    Ok(())
}

/// Whether a directory is another file, or below it.
pub(crate) fn is_within(tree: &Tree, above: FileId, directory: FileId) -> bool {
    let mut at = directory;
    for _ in 0..MOST_NAMES {
        if at == above {
            return true;
        }
        match tree.name_of(at) {
            Some((parent, _)) => at = parent,
            None => return false,
        }
    }
    false
}
