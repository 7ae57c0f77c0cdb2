//! Files that are written and read where no block begins, 100 bytes or 128 KiB at a time, with holes.

use crate::open_file::OpenFile;
use crate::pool::Pool;
use crate::random::Random;
use crate::volume::Volume;
use std::alloc::{AllocError, Global};

/// How many files there are.
const FILES: u64 = 8;
/// How many bytes one has at most.
const MOST: u64 = 4 << 20;
/// How many bytes a WRITE has.
const SHORT: u64 = 100;

const LONG: u64 = 128 << 10;
/// How far behind its end a file is written at most.
const GAP: u64 = 10_000;

/// The capture of so many steps.
pub fn volume(alloc: Global, seed: u64, steps: u64) -> Result<Volume, AllocError> {
    let mut random = Random::new(seed);
    let pool = Pool::new(alloc, &mut random)?;
    let mut volume = Volume::seeded(alloc, 20, seed);
    let mut files = Vec::new(alloc);
    for _ in 0..FILES {
        let file = OpenFile::create(&mut volume);
        volume.recording.note_refusal(files.push(file));
    }
    for _ in 0..steps {
        let place = random.place(files.len());
        if let Some(file) = files.get_mut(place) {
            step(&mut volume, &pool, &mut random, file);
        }
    }
    Ok(volume)
}

fn step(volume: &mut Volume, pool: &Pool, random: &mut Random, file: &mut OpenFile) {
    let size = file.size();
    let within = random.below(size.saturating_add(1));
    let beyond = random.below(size.saturating_add(GAP));
    match random.below(100) {
        0..35 => write(volume, pool, random, file, size, SHORT),
        35..65 => write(volume, pool, random, file, beyond, SHORT),
        65..69 => write(volume, pool, random, file, size, LONG),
        69..73 => write(volume, pool, random, file, beyond, LONG),
        73..85 => file.read(volume, within, SHORT as u32),
        85..92 => file.read(volume, within, LONG as u32),
        92..94 => file.set_size(volume, within),
        94..96 => file.set_size(volume, beyond.min(MOST)),
        _ => volume.getattr(file.node),
    }
}

/// WRITE of so many bytes at a place, or before it where the file would be too long
fn write(
    volume: &mut Volume,
    pool: &Pool,
    random: &mut Random,
    file: &mut OpenFile,
    offset: u64,
    len: u64,
) {
    let from = random.below(500_000);
    let payload = pool.range(from, from.saturating_add(len));
    let last = MOST.saturating_sub(len).saturating_sub(random.below(GAP));
    file.write(volume, offset.min(last), payload);
}
