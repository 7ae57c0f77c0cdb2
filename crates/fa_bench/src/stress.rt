//! A stress run of a server: files and further names come and go by the ten thousand in a few directories.

use crate::random::Random;
use crate::recording::EEXIST;
use crate::volume::{DIR, LNK, REG, ROOT, Volume};
use fa_bodies::opcodes;
use std::alloc::Global;

/// How many directories there are.
const DIRECTORIES: u64 = 6;

/// The capture of so many steps, before which a twelfth as many files are made.
pub fn volume(alloc: Global, seed: u64, steps: u64) -> Volume {
    let mut random = Random::new(seed);
    let mut volume = Volume::new(alloc, 28);
    begin(&mut volume, &mut random, steps / 12);
    take_steps(&mut volume, &mut random, steps);
    volume
}

/// The same, but that a request is answered twice when so many steps are taken, behind which there are a fiftieth as many.
pub fn answered_twice(alloc: Global, seed: u64, steps: u64) -> Volume {
    let mut random = Random::new(seed);
    let mut volume = Volume::seeded(alloc, 28, seed);
    begin(&mut volume, &mut random, steps / 12);
    take_steps(&mut volume, &mut random, steps);
    let unique = volume.recording.bare(opcodes::STATFS, ROOT);
    volume.recording.done(unique, 80);
    volume.recording.done(unique, 80);
    take_steps(&mut volume, &mut random, steps / 50);
    volume
}

/// The directories, and so many files in them.
fn begin(volume: &mut Volume, random: &mut Random, files: u64) {
    for _ in 1..DIRECTORIES {
        volume.mkdir(0);
    }
    for _ in 0..files {
        let directory = random.below(DIRECTORIES) as usize;
        volume.mknod(directory);
    }
}

fn take_steps(volume: &mut Volume, random: &mut Random, steps: u64) {
    for _ in 0..steps {
        step(volume, random);
    }
}

/// One of the requests of such a run, by their shares of a thousand.
fn step(volume: &mut Volume, random: &mut Random) {
    let directory = random.below(DIRECTORIES) as usize;
    match random.below(1000) {
        0..370 => volume.statfs(),
        370..480 => look(volume, random, directory),
        480..560 => volume.miss(opcodes::LOOKUP, directory),
        560..710 => stat(volume, random, directory),
        710..775 => remove(volume, random, directory),
        775..790 => volume.miss(opcodes::UNLINK, directory),
        790..860 => read_link(volume, random, directory),
        860..905 => link(volume, random, directory),
        905..915 => link_refused(volume, random, directory),
        915..940 => opened(volume, directory),
        940..965 => {
            volume.symlink(directory);
        }
        965..985 => {
            volume.mknod(directory);
        }
        _ => rename(volume, random, directory),
    }
}

fn look(volume: &mut Volume, random: &mut Random, directory: usize) {
    if let Some((_, child)) = volume.some_child(random, directory) {
        volume.lookup(directory, child);
    }
}

fn stat(volume: &mut Volume, random: &mut Random, directory: usize) {
    if let Some((_, child)) = volume.some_child(random, directory) {
        volume.getattr(child.node);
    }
}

fn remove(volume: &mut Volume, random: &mut Random, directory: usize) {
    if let Some((place, child)) = volume.some_child(random, directory) {
        if volume.attributes(child.node).mode != DIR {
            volume.unlink(directory, place, child);
        }
    }
}

/// READLINK of a symbolic link, if one of a few names is one
fn read_link(volume: &mut Volume, random: &mut Random, directory: usize) {
    for _ in 0..8 {
        if let Some((_, child)) = volume.some_child(random, directory) {
            if volume.attributes(child.node).mode == LNK {
                volume.readlink(child.node);
                break;
            }
        }
    }
}

fn link(volume: &mut Volume, random: &mut Random, directory: usize) {
    let from = random.below(DIRECTORIES) as usize;
    if let Some((_, child)) = volume.some_child(random, from) {
        if volume.attributes(child.node).mode == REG {
            volume.link(child.node, directory);
        }
    }
}

/// LINK to a name that is there
fn link_refused(volume: &mut Volume, random: &mut Random, directory: usize) {
    if let Some((_, child)) = volume.some_child(random, directory) {
        if volume.attributes(child.node).mode == REG {
            volume.link_refused(child.node, directory, child, EEXIST);
        }
    }
}

fn opened(volume: &mut Volume, directory: usize) {
    let handle = volume.opendir(directory);
    volume.releasedir(directory, handle);
}

fn rename(volume: &mut Volume, random: &mut Random, directory: usize) {
    let to = random.below(DIRECTORIES) as usize;
    if let Some((place, child)) = volume.some_child(random, directory) {
        if volume.attributes(child.node).mode != DIR {
            volume.rename(directory, place, child, to);
        }
    }
}
