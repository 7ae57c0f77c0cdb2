//! A tree text of very many files in one folder, and a few requests on it.

use crate::random::Random;
use crate::volume::{DIR, REG, Volume};
use fa_bodies::opcodes;
use std::alloc::{AllocError, Global};

/// How many of the files are looked at.
const LOOKS: u64 = 20;

/// A tree text with so many files, and the capture of the requests.
pub fn volume(alloc: Global, seed: u64, files: u64) -> Result<(Vec<u8>, Volume), AllocError> {
    let mut random = Random::new(seed);
    let mut volume = Volume::seeded(alloc, 16, seed);
    let node = volume.add_node(DIR, 0);
    let folder = volume.add_directory(node);
    let label = volume.fresh_label();
    volume.add_child(0, label, node);
    let text = plant(&mut volume, folder, label, files)?;
    if let Some((_, child)) = volume.last_child(0) {
        volume.lookup(0, child);
    }
    for _ in 0..LOOKS {
        look(&mut volume, &mut random, folder);
    }
    Ok((text, volume))
}

/// Puts so many files into a folder, which has this name: the text of the tree.
fn plant(
    volume: &mut Volume,
    folder: usize,
    label: u64,
    files: u64,
) -> Result<Vec<u8>, AllocError> {
    let mut path = Vec::new(volume.alloc);
    volume.spell_behind(&mut path, label)?;
    let mut text = Vec::from_slice(volume.alloc, b"fuse-tree 1\nroot 755\nd 755 ")?;
    text.extend_from_slice(path.as_slice())?;
    text.push(b'\n')?;
    for _ in 0..files {
        plant_file(volume, folder, path.as_slice(), &mut text)?;
    }
    text.extend_from_slice(b"end\n")?;
    Ok(text)
}

/// Puts a file into a folder, which has this path, and its line into the text.
fn plant_file(
    volume: &mut Volume,
    folder: usize,
    path: &[u8],
    text: &mut Vec<u8>,
) -> Result<(), AllocError> {
    let label = volume.fresh_label();
    let node = volume.add_node(REG, 5);
    volume.add_child(folder, label, node);
    text.extend_from_slice(b"f 644 ")?;
    text.extend_from_slice(path)?;
    text.push(b'/')?;
    volume.spell_behind(text, label)?;
    text.extend_from_slice(b" 68656c6c6f\n")
}

/// LOOKUP of a file, which is opened and read, and of a name that is not there
fn look(volume: &mut Volume, random: &mut Random, folder: usize) {
    if let Some((_, child)) = volume.some_child(random, folder) {
        volume.lookup(folder, child);
        let handle = volume.open(child.node);
        volume.read(child.node, handle, 0, 4096, b"hello");
        volume.close(child.node, handle);
    }
    volume.miss(opcodes::LOOKUP, folder);
}
