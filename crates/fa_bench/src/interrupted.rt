//! Requests that are given up: INTERRUPT, once and again, and requests that are never answered, of which some were carried out.

use crate::random::Random;
use crate::recording::{EAGAIN, EINTR, ENOENT};
use crate::volume::{REG, Volume};
use fa_bodies::opcodes;
use std::alloc::Global;

/// How many directories there are.
const DIRECTORIES: u64 = 4;
/// How many files are open, whose names stay.
const OPEN: usize = 16;
/// How many bytes a WRITE has.
const BLOCK: u64 = 100;

/// The capture of so many steps.
pub fn volume(alloc: Global, seed: u64, steps: u64) -> Volume {
    let mut random = Random::new(seed);
    let mut volume = Volume::seeded(alloc, 20, seed);
    for _ in 0..DIRECTORIES {
        volume.mkdir(0);
    }
    let mut open = [(0, 0); OPEN];
    for file in open.iter_mut() {
        *file = volume.create(0);
    }
    for _ in 0..steps {
        step(&mut volume, &mut random, &open);
    }
    volume
}

fn step(volume: &mut Volume, random: &mut Random, open: &[(u64, u64)]) {
    let directory = 1 + random.below(DIRECTORIES) as usize;
    match random.below(100) {
        0..30 => look(volume, random, directory),
        30..40 => {
            volume.mknod(directory);
        }
        40..55 => leave(volume, random, directory),
        55..65 => give_up(volume, random, directory),
        65..75 => go_on(volume, random, directory),
        75..85 => create_untold(volume, directory),
        85..93 => remove_untold(volume, random, directory),
        _ => write_untold(volume, random, open),
    }
}

/// LOOKUP of a name, and GETATTR of its file
fn look(volume: &mut Volume, random: &mut Random, directory: usize) {
    match volume.some_child(random, directory) {
        Some((_, child)) => {
            volume.lookup(directory, child);
            volume.getattr(child.node);
        }
        None => volume.statfs(),
    }
}

/// LOOKUP of a name that is never answered
fn leave(volume: &mut Volume, random: &mut Random, directory: usize) {
    if let Some((_, child)) = volume.some_child(random, directory) {
        volume.ask_named(opcodes::LOOKUP, directory, child.label);
    }
}

/// UNLINK of a name, which is interrupted and given up
fn give_up(volume: &mut Volume, random: &mut Random, directory: usize) {
    if let Some((_, child)) = volume.some_child(random, directory) {
        let unique = volume.ask_named(opcodes::UNLINK, directory, child.label);
        volume.recording.interrupt(unique);
        volume.recording.error(unique, EINTR);
    }
}

/// LOOKUP of a name, which is interrupted three times, once to be told to try again, and answered all the same
fn go_on(volume: &mut Volume, random: &mut Random, directory: usize) {
    if let Some((_, child)) = volume.some_child(random, directory) {
        let unique = volume.ask_named(opcodes::LOOKUP, directory, child.label);
        let own = volume.recording.interrupt(unique);
        volume.recording.error(own, EAGAIN);
        volume.recording.interrupt(unique);
        volume.recording.interrupt(unique);
        volume.looked_up(child.node);
        volume.entry(unique, child.node);
    }
}

/// CREATE of a file that is never answered, whose name is found
fn create_untold(volume: &mut Volume, directory: usize) {
    let label = volume.fresh_label();
    let unique = volume.ask_create(directory, label);
    volume.recording.interrupt(unique);
    let node = volume.add_node(REG, 0);
    volume.add_child(directory, label, node);
    let unique = volume.ask_named(opcodes::LOOKUP, directory, label);
    volume.entry(unique, node);
}

/// UNLINK of a name that is never answered, which is then not found
fn remove_untold(volume: &mut Volume, random: &mut Random, directory: usize) {
    if let Some((place, child)) = volume.some_child(random, directory) {
        volume.ask_named(opcodes::UNLINK, directory, child.label);
        volume.take_child(directory, place);
        volume.set_links(child.node, 0);
        let unique = volume.ask_named(opcodes::LOOKUP, directory, child.label);
        volume.recording.error(unique, ENOENT);
    }
}

/// WRITE at the end of a file that is never answered, after which the file is longer
fn write_untold(volume: &mut Volume, random: &mut Random, open: &[(u64, u64)]) {
    let Some((node, handle)) = open.get(random.place(open.len())).copied() else {
        return;
    };
    let size = volume.attributes(node).size;
    let payload = [b'x'; BLOCK as usize];
    volume.recording.write(node, handle, size, &payload);
    volume.set_size(node, size.saturating_add(BLOCK));
    volume.getattr(node);
}
