//! A tree that is there, and walks through it: `find`, `ls -lR`, a backup.

use crate::pool::Pool;
use crate::random::Random;
use crate::volume::{Child, DIR, LNK, REG, Volume};
use fa_bodies::opcodes;
use std::alloc::{AllocError, Global};

/// How many directories there are for each twelve files.
const PER_DIRECTORY: u64 = 12;

/// A tree text with so many lines, and the capture of the walks.
pub fn volume(alloc: Global, seed: u64, lines: u64) -> Result<(Vec<u8>, Volume), AllocError> {
    let mut random = Random::new(seed);
    let pool = Pool::new(alloc, &mut random)?;
    let mut volume = Volume::new(alloc, 16);
    let text = plant(&mut volume, &pool, &mut random, lines)?;
    for directory in 0..volume.directories.len() {
        list_long(&mut volume, directory);
    }
    for directory in 0..volume.directories.len() {
        volume.list_whole(directory, opcodes::READDIRPLUS, 4096);
        back_up(&mut volume, &pool, directory);
    }
    Ok((text, volume))
}

/// Puts files and directories into the tree: the text of it.
fn plant(
    volume: &mut Volume,
    pool: &Pool,
    random: &mut Random,
    lines: u64,
) -> Result<Vec<u8>, AllocError> {
    let mut text = Vec::from_slice(volume.alloc, b"fuse-tree 1\nroot 755\n")?;
    let mut paths: Vec<Vec<u8>> = Vec::new(volume.alloc);
    paths.push(Vec::new(volume.alloc))?;
    for line in 0..lines {
        if line % PER_DIRECTORY == 0 {
            plant_directory(volume, random, &mut paths, &mut text)?;
        } else {
            plant_file(volume, pool, random, paths.as_slice(), &mut text)?;
        }
    }
    text.extend_from_slice(b"end\n")?;
    Ok(text)
}

/// Puts a directory into one of these paths, and its line into the text.
fn plant_directory(
    volume: &mut Volume,
    random: &mut Random,
    paths: &mut Vec<Vec<u8>>,
    text: &mut Vec<u8>,
) -> Result<(), AllocError> {
    let parent = random.place(paths.len());
    let label = volume.fresh_label();
    let node = volume.add_node(DIR, 0);
    volume.add_directory(node);
    volume.add_child(parent, label, node);
    let mut path = Vec::new(volume.alloc);
    path.extend_from_slice(path_at(paths.as_slice(), parent))?;
    volume.spell_behind(&mut path, label)?;
    text.extend_from_slice(b"d 755 ")?;
    text.extend_from_slice(path.as_slice())?;
    text.push(b'\n')?;
    path.push(b'/')?;
    paths.push(path).map_err(AllocError::from)
}

/// Puts a file or a symbolic link into one of these paths, and its line into the text.
fn plant_file(
    volume: &mut Volume,
    pool: &Pool,
    random: &mut Random,
    paths: &[Vec<u8>],
    text: &mut Vec<u8>,
) -> Result<(), AllocError> {
    let parent = random.place(paths.len());
    let label = volume.fresh_label();
    let size = random.below(48);
    let is_symbolic = random.percent(4);
    let size = if is_symbolic { size + 1 } else { size };
    let node = volume.add_node(if is_symbolic { LNK } else { REG }, size);
    volume.add_child(parent, label, node);
    text.extend_from_slice(if is_symbolic { b"s 777 " } else { b"f 644 " })?;
    text.extend_from_slice(path_at(paths, parent))?;
    volume.spell_behind(text, label)?;
    text.push(b' ')?;
    put_hex(text, pool.content(node, 0, size))?;
    text.push(b'\n').map_err(AllocError::from)
}

/// The path at a place, which ends with a slash unless it is that of the root.
fn path_at(paths: &[Vec<u8>], place: usize) -> &[u8] {
    match paths.get(place) {
        Some(path) => path.as_slice(),
        None => b"",
    }
}

/// Bytes in hexadecimal, none of them zero, or `-` for none.
fn put_hex(text: &mut Vec<u8>, bytes: &[u8]) -> Result<(), AllocError> {
    if bytes.is_empty() {
        return text.push(b'-').map_err(AllocError::from);
    }
    for byte in bytes {
        let byte = printable(*byte);
        text.push(b'0' + byte / 16)?;
        text.push(b'0' + byte % 16 % 10)?;
    }
    Ok(())
}

/// A byte of which both digits in hexadecimal are decimal, and which is not zero.
fn printable(byte: u8) -> u8 {
    16 * (1 + byte % 7) + byte / 16 % 10
}

/// OPENDIR, READDIR and RELEASEDIR, and a LOOKUP for each name
fn list_long(volume: &mut Volume, directory: usize) {
    volume.list_whole(directory, opcodes::READDIR, 4096);
    for place in 0..u32::MAX as usize {
        let Some(child) = child_at(volume, directory, place) else {
            break;
        };
        volume.lookup(directory, child);
        if volume.attributes(child.node).mode != REG {
            volume.getattr(child.node);
        }
    }
}

/// Each regular file of a directory is read.
fn back_up(volume: &mut Volume, pool: &Pool, directory: usize) {
    for place in 0..u32::MAX as usize {
        let Some(child) = child_at(volume, directory, place) else {
            break;
        };
        let attributes = volume.attributes(child.node);
        if attributes.mode == REG {
            read_whole(
                volume,
                child.node,
                pool.content(child.node, 0, attributes.size),
            );
        }
    }
}

/// OPEN, a READ that gives these bytes as they stand in the tree text, FLUSH and RELEASE
fn read_whole(volume: &mut Volume, node: u64, content: &[u8]) {
    let handle = volume.open(node);
    let mut bytes = Vec::new(volume.alloc);
    for byte in content {
        volume.recording.note_refusal(bytes.push(printable(*byte)));
    }
    volume.read(node, handle, 0, 4096, bytes.as_slice());
    volume.close(node, handle);
}

/// The name at a place of a directory, if there is one.
fn child_at(volume: &Volume, directory: usize, place: usize) -> Option<Child> {
    let there = volume.directories.get(directory)?;
    there.children.get(place).copied()
}
