//! Files that are written and read: blocks at random offsets and one after the other, rewritten, cut.

use crate::open_file::OpenFile;
use crate::pool::Pool;
use crate::random::Random;
use crate::volume::Volume;
use std::alloc::{AllocError, Global};

/// How many files there are.
const FILES: usize = 16;
/// How many bytes one has at most.
const MOST: u64 = 4 << 20;
/// How many bytes a WRITE has.
const BLOCK: u64 = 4096;
/// How many bytes a READ asks for.
const ASKED: u32 = 65_536;

/// The capture of so many steps.
pub fn volume(alloc: Global, seed: u64, steps: u64) -> Result<Volume, AllocError> {
    let mut random = Random::new(seed);
    let pool = Pool::new(alloc, &mut random)?;
    let mut volume = Volume::new(alloc, 12);
    let mut files = files(&mut volume);
    take_steps(&mut volume, &pool, &mut random, files.as_mut_slice(), steps);
    Ok(volume)
}

/// The same, but that a READ gives a wrong byte when so many steps are taken, behind which there are a fiftieth as many.
pub fn wrong_byte(alloc: Global, seed: u64, steps: u64) -> Result<Volume, AllocError> {
    let mut random = Random::new(seed);
    let pool = Pool::new(alloc, &mut random)?;
    let mut volume = Volume::seeded(alloc, 12, seed);
    let mut files = files(&mut volume);
    take_steps(&mut volume, &pool, &mut random, files.as_mut_slice(), steps);
    if let Some(file) = files.first_mut() {
        file.write(&mut volume, 0, pool.range(0, BLOCK));
        file.read_wrong(&mut volume, 0, ASKED);
    }
    take_steps(
        &mut volume,
        &pool,
        &mut random,
        files.as_mut_slice(),
        steps / 50,
    );
    Ok(volume)
}

/// The files, which are empty.
fn files(volume: &mut Volume) -> Vec<OpenFile> {
    let mut files = Vec::new(volume.alloc);
    for _ in 0..FILES {
        let file = OpenFile::create(volume);
        volume.recording.note_refusal(files.push(file));
    }
    files
}

fn take_steps(
    volume: &mut Volume,
    pool: &Pool,
    random: &mut Random,
    files: &mut [OpenFile],
    steps: u64,
) {
    for _ in 0..steps {
        let place = random.place(files.len());
        if let Some(file) = files.get_mut(place) {
            step(volume, pool, random, file);
        }
    }
}

fn step(volume: &mut Volume, pool: &Pool, random: &mut Random, file: &mut OpenFile) {
    let size = file.size();
    match random.below(100) {
        0..35 => {
            let offset = if size.saturating_add(BLOCK) > MOST {
                0
            } else {
                size
            };
            write(volume, pool, random, file, offset);
        }
        35..72 => {
            let offset = random.below(MOST / BLOCK) * BLOCK;
            write(volume, pool, random, file, offset.min(size));
        }
        72..92 => {
            let offset = random.below(size / BLOCK + 1).saturating_mul(BLOCK);
            file.read(volume, offset, ASKED);
        }
        92..94 => file.set_size(volume, random.below(size.saturating_add(1))),
        _ => volume.getattr(file.node),
    }
}

fn write(volume: &mut Volume, pool: &Pool, random: &mut Random, file: &mut OpenFile, offset: u64) {
    let from = random.below(500_000);
    let payload = pool.range(from, from.saturating_add(BLOCK));
    file.write(volume, offset, payload);
}
