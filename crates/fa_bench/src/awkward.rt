//! What hurts and was met: renames in a deep tree, `rm -r`, a large directory that is listed by few names at a time, a handle
//! that is listed again, files that grow by truncation, many hard links.

use crate::random::Random;
use crate::volume::Volume;
use fa_bodies::opcodes;
use std::alloc::Global;

/// A directory moves between the root and the end of a chain of so many directories, so many times.
pub fn deep(alloc: Global, seed: u64, depth: u64) -> Volume {
    let mut random = Random::new(seed);
    let mut volume = Volume::new(alloc, 14);
    let mut at = 0;
    for _ in 0..depth {
        at = volume.mkdir(at);
        for _ in 0..random.below(4) {
            volume.mknod(at);
        }
    }
    volume.mkdir(0);
    for _ in 0..depth {
        if let Some((place, child)) = volume.last_child(0) {
            volume.rename(0, place, child, at);
        }
        if let Some((place, child)) = volume.last_child(at) {
            volume.rename(at, place, child, 0);
        }
    }
    volume
}

/// So many folders are made and removed with what is in them.
pub fn removal(alloc: Global, seed: u64, folders: u64) -> Volume {
    let mut random = Random::new(seed);
    let mut volume = Volume::new(alloc, 14);
    let mut parents: Vec<usize> = Vec::new(alloc);
    for _ in 0..folders {
        let parent = random.place(volume.directories.len());
        volume.recording.note_refusal(parents.push(parent));
        let directory = volume.mkdir(parent);
        for _ in 0..random.below(3) {
            volume.mknod(directory);
        }
    }
    for directory in (1..volume.directories.len()).rev() {
        volume.list_whole(directory, opcodes::READDIR, 4096);
        empty(&mut volume, directory);
        let parent = parents.pop().unwrap_or(0);
        let node = volume.directory_node(directory);
        if let Some((place, child)) = volume.last_named(parent, node) {
            volume.rmdir(parent, place, child);
        }
    }
    volume
}

/// Each name of a directory is removed.
fn empty(volume: &mut Volume, directory: usize) {
    for _ in 0..u32::MAX {
        let Some((place, child)) = volume.last_child(directory) else {
            break;
        };
        volume.unlink(directory, place, child);
    }
}

/// A directory of so many names is listed some thirty at a time, and again on the same handle.
pub fn listing(alloc: Global, seed: u64, names: u64) -> Volume {
    let mut random = Random::new(seed);
    let mut volume = Volume::new(alloc, 10);
    for _ in 0..names.saturating_add(random.below(9)) {
        volume.mknod(0);
    }
    let handle = volume.opendir(0);
    volume.list(0, handle, opcodes::READDIR, 1200);
    volume.list(0, handle, opcodes::READDIR, 1200);
    volume.releasedir(0, handle);
    volume
}

/// Files that are grown by truncation so many times, and written here and there.
pub fn growth(alloc: Global, seed: u64, times: u64) -> Volume {
    let mut random = Random::new(seed);
    let mut volume = Volume::new(alloc, 14);
    let mut files = [(0, 0); 4];
    for file in files.iter_mut() {
        *file = volume.create(0);
    }
    for _ in 0..times {
        if let Some((node, handle)) = files.get(random.place(files.len())).copied() {
            grow(&mut volume, &mut random, node, handle);
        }
    }
    volume
}

/// A file is emptied, made long, and written at a few places.
fn grow(volume: &mut Volume, random: &mut Random, node: u64, handle: u64) {
    let size = (8 << 20) + random.below(8 << 20);
    volume.truncate(node, 0);
    volume.truncate(node, size);
    for _ in 0..4 {
        let payload = [1u8; 100];
        volume.write(node, handle, random.below(size - 100), &payload);
    }
    volume.getattr(node);
}

/// So many files with nine names each, which are looked up, and go one by one.
pub fn links(alloc: Global, seed: u64, files: u64) -> Volume {
    let mut random = Random::new(seed);
    let mut volume = Volume::new(alloc, 14);
    for _ in 0..7 {
        volume.mkdir(0);
    }
    for _ in 0..files {
        let node = volume.mknod(1 + random.below(7) as usize);
        for _ in 0..8 {
            volume.link(node, 1 + random.below(7) as usize);
        }
    }
    for _ in 0..files.saturating_mul(6) {
        let directory = 1 + random.below(7) as usize;
        if let Some((place, child)) = volume.some_child(&mut random, directory) {
            volume.lookup(directory, child);
            if random.percent(70) {
                volume.unlink(directory, place, child);
            }
        }
    }
    volume
}
