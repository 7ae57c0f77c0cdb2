//! A build, a clone, an untar: folders in folders, files that are written, read, and moved into place.

use crate::pool::Pool;
use crate::random::Random;
use crate::volume::{DIR, REG, Volume};
use fa_bodies::opcodes;
use std::alloc::{AllocError, Global};

/// The capture of so many steps.
pub fn volume(alloc: Global, seed: u64, steps: u64) -> Result<Volume, AllocError> {
    let mut random = Random::new(seed);
    let pool = Pool::new(alloc, &mut random)?;
    let mut volume = Volume::new(alloc, 17);
    for _ in 0..20 {
        let parent = random.place(volume.directories.len());
        volume.mkdir(parent);
    }
    for _ in 0..steps {
        step(&mut volume, &pool, &mut random);
    }
    Ok(volume)
}

/// Some requests of such a run.
fn step(volume: &mut Volume, pool: &Pool, random: &mut Random) {
    let directory = random.place(volume.directories.len());
    match random.below(100) {
        0..14 => put_file(volume, pool, random, directory),
        14..18 => {
            volume.miss_next(directory);
            volume.mkdir(directory);
        }
        18..50 => find(volume, random, directory),
        50..60 => {
            volume.miss(opcodes::LOOKUP, directory);
            volume.miss(opcodes::LOOKUP, directory);
            find(volume, random, directory);
        }
        60..70 => read_file(volume, pool, random, directory),
        70..75 => remove(volume, random, directory),
        75..81 => volume.list_whole(directory, opcodes::READDIR, 4096),
        81..90 => {
            let node = volume.directory_node(directory);
            volume.getattr(node);
        }
        _ => stat(volume, random, directory),
    }
}

/// A file that is written, and moved into place one time of four.
fn put_file(volume: &mut Volume, pool: &Pool, random: &mut Random, directory: usize) {
    volume.miss_next(directory);
    let (node, handle) = volume.create(directory);
    volume.getxattr(node);
    let size = random.below(12_000);
    let mut offset = 0u64;
    for _ in 0..4 {
        if offset >= size {
            break;
        }
        let end = size.min(offset.saturating_add(4096));
        volume.write(node, handle, offset, pool.content(node, offset, end));
        offset = end;
    }
    volume.getattr(node);
    volume.close(node, handle);
    if random.percent(25) {
        if let Some((place, child)) = volume.last_child(directory) {
            volume.rename(directory, place, child, directory);
        }
    }
}

/// A name that is looked up, and the attributes of its file.
fn find(volume: &mut Volume, random: &mut Random, directory: usize) {
    match volume.some_child(random, directory) {
        Some((_, child)) => volume.lookup(directory, child),
        None => volume.miss(opcodes::LOOKUP, directory),
    }
}

fn stat(volume: &mut Volume, random: &mut Random, directory: usize) {
    if let Some((_, child)) = volume.some_child(random, directory) {
        volume.getxattr(child.node);
        volume.getattr(child.node);
    }
}

fn read_file(volume: &mut Volume, pool: &Pool, random: &mut Random, directory: usize) {
    let Some((_, child)) = volume.some_child(random, directory) else {
        return;
    };
    let node = child.node;
    let attributes = volume.attributes(node);
    if attributes.mode == REG {
        volume.lookup(directory, child);
        let handle = volume.open(node);
        volume.getattr(node);
        let content = pool.content(node, 0, attributes.size);
        volume.read(node, handle, 0, 131_072, content);
        volume.close(node, handle);
    }
}

fn remove(volume: &mut Volume, random: &mut Random, directory: usize) {
    if let Some((place, child)) = volume.some_child(random, directory) {
        if volume.attributes(child.node).mode != DIR {
            volume.unlink(directory, place, child);
        }
    }
}
