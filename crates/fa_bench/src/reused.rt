//! Files that come and go, whose node ids and handle numbers are used again: BATCH_FORGET, and RENAME2 of each kind.

use crate::random::Random;
use crate::recording::{EEXIST, EINVAL};
use crate::volume::Volume;
use fa_bodies::opcodes;
use std::alloc::Global;

/// How many directories there are.
const DIRECTORIES: u64 = 4;
/// How many nodes are forgotten at once.
const FORGOTTEN: usize = 24;
/// The flags of RENAME2 (Linux renameat2).
const NOREPLACE: u32 = 1;

const EXCHANGE: u32 = 2;

const WHITEOUT: u32 = 4;

/// The capture of so many steps.
pub fn volume(alloc: Global, seed: u64, steps: u64) -> Volume {
    let mut random = Random::new(seed);
    let mut volume = Volume::seeded(alloc, 20, seed);
    for _ in 0..DIRECTORIES {
        volume.mkdir(0);
    }
    let mut gone: Vec<u64> = Vec::new(alloc);
    for _ in 0..steps {
        step(&mut volume, &mut random, &mut gone);
        if gone.len() >= FORGOTTEN {
            volume.forget_all(gone.as_slice());
            gone.clear();
        }
    }
    volume
}

fn step(volume: &mut Volume, random: &mut Random, gone: &mut Vec<u64>) {
    let directory = some_directory(random);
    match random.below(100) {
        0..30 => {
            let (node, handle) = volume.create(directory);
            volume.write(node, handle, 0, b"new bytes");
            volume.close_for_good(node, handle);
        }
        30..45 => read(volume, random, directory),
        45..60 => look(volume, random, directory),
        60..75 => remove(volume, random, directory, gone),
        75..82 => move_to_new(volume, random, directory),
        82..90 => replace(volume, random, directory, gone),
        90..96 => exchange(volume, random, directory),
        96..98 => refused(volume, random, directory, NOREPLACE, EEXIST),
        _ => refused(volume, random, directory, WHITEOUT, EINVAL),
    }
}

fn some_directory(random: &mut Random) -> usize {
    1 + random.below(DIRECTORIES) as usize
}

fn read(volume: &mut Volume, random: &mut Random, directory: usize) {
    let Some((_, child)) = volume.some_child(random, directory) else {
        return;
    };
    let handle = volume.open(child.node);
    volume.read(child.node, handle, 0, 4096, b"new bytes");
    volume.close_for_good(child.node, handle);
}

fn look(volume: &mut Volume, random: &mut Random, directory: usize) {
    match volume.some_child(random, directory) {
        Some((_, child)) => volume.lookup(directory, child),
        None => volume.miss(opcodes::LOOKUP, directory),
    }
}

/// UNLINK, whose file is forgotten later
fn remove(volume: &mut Volume, random: &mut Random, directory: usize, gone: &mut Vec<u64>) {
    let Some((place, child)) = volume.some_child(random, directory) else {
        return;
    };
    let unique = volume.ask_named(opcodes::UNLINK, directory, child.label);
    volume.recording.done(unique, 0);
    volume.take_child(directory, place);
    volume.recording.note_refusal(gone.push(child.node));
}

/// RENAME2 to a new name, which may not be there
fn move_to_new(volume: &mut Volume, random: &mut Random, directory: usize) {
    let to = some_directory(random);
    let Some((place, child)) = volume.some_child(random, directory) else {
        return;
    };
    let label = volume.fresh_label();
    let unique = volume.ask_rename2(directory, child.label, to, label, NOREPLACE);
    volume.recording.done(unique, 0);
    volume.take_child(directory, place);
    volume.add_child(to, label, child.node);
}

/// RENAME2 without a flag to a name of another directory, whose file loses it
fn replace(volume: &mut Volume, random: &mut Random, directory: usize, gone: &mut Vec<u64>) {
    let to = directory % DIRECTORIES as usize + 1;
    let Some((place, child)) = volume.some_child(random, directory) else {
        return;
    };
    let Some((new_place, replaced)) = volume.some_child(random, to) else {
        return;
    };
    let unique = volume.ask_rename2(directory, child.label, to, replaced.label, 0);
    volume.recording.done(unique, 0);
    volume.give_child(to, new_place, child.node);
    volume.take_child(directory, place);
    volume.recording.note_refusal(gone.push(replaced.node));
}

/// RENAME2 of two names that get each other's file
fn exchange(volume: &mut Volume, random: &mut Random, directory: usize) {
    let to = some_directory(random);
    let Some((place, child)) = volume.some_child(random, directory) else {
        return;
    };
    let Some((new_place, other)) = volume.some_child(random, to) else {
        return;
    };
    let unique = volume.ask_rename2(directory, child.label, to, other.label, EXCHANGE);
    volume.recording.done(unique, 0);
    volume.give_child(directory, place, other.node);
    volume.give_child(to, new_place, child.node);
}

/// RENAME2 to a name that is there, which is refused
fn refused(volume: &mut Volume, random: &mut Random, directory: usize, flags: u32, error: i32) {
    let to = some_directory(random);
    let Some((_, child)) = volume.some_child(random, directory) else {
        return;
    };
    let Some((_, other)) = volume.some_child(random, to) else {
        return;
    };
    let unique = volume.ask_rename2(directory, child.label, to, other.label, flags);
    volume.recording.error(unique, error);
}
