//! A capture whose requests overlap: in each round a WRITE and a SETATTR of three files are under way at once, and only what is read next tells
//! which of the two came first. Each WRITE is answered before its SETATTR, as a proposal takes them; where the byte is still there the
//! SETATTR came first.

use fa_bodies::ROOT_ID;
use fa_sample::{REG, Sample};
use rand_core::{Rng, SeedableRng};
use rand_xoshiro::Xoshiro256PlusPlus;
use std::alloc::{AllocError, Global};

/// A file that is open.
#[derive(Clone, Copy)]
struct OpenFile {
    name: &'static [u8],
    node: u64,
    handle: u64,
}

static FILES: [OpenFile; 3] = [
    OpenFile {
        name: b"a",
        node: 2,
        handle: 1,
    },
    OpenFile {
        name: b"b",
        node: 3,
        handle: 2,
    },
    OpenFile {
        name: b"c",
        node: 4,
        handle: 3,
    },
];

/// What each of the files is, in `mode`.
const MODE: u32 = REG | 0o644;
/// By how much the uniques of two requests differ, as those of Linux do.
const UNIQUE_STEP: u64 = 2;

/// The capture of so many rounds.
pub fn capture(alloc: Global, seed: u64, rounds: u64) -> Result<Vec<u8>, AllocError> {
    let mut random = Xoshiro256PlusPlus::seed_from_u64(seed);
    let mut unique = UNIQUE_STEP;
    let mut sample = Sample::new(alloc).init(unique).init_answer(unique);
    for file in &FILES {
        unique = unique.wrapping_add(UNIQUE_STEP);
        sample = created(sample, unique, *file);
    }
    for _ in 0..rounds {
        let first = unique.wrapping_add(UNIQUE_STEP);
        sample = changed(sample, first);
        sample = read(sample, first.wrapping_add(100), random.next_u64());
        unique = first.wrapping_add(200);
    }
    sample.capture()
}

/// The file is made, and opened.
fn created(sample: Sample, unique: u64, file: OpenFile) -> Sample {
    sample
        .create(unique, ROOT_ID, file.name)
        .created(unique, file.node, MODE, 0, 1, file.handle)
}

/// A byte is written to each file and each is cut to nothing, all at once.
fn changed(sample: Sample, first: u64) -> Sample {
    let mut sample = sample;
    let mut unique = first;
    for file in &FILES {
        sample = sample
            .write(unique, file.node, file.handle, 0, b"x")
            .setattr_size(unique.wrapping_add(UNIQUE_STEP), file.node, 0);
        unique = unique.wrapping_add(2 * UNIQUE_STEP);
    }
    unique = first;
    for _ in &FILES {
        sample = sample
            .written(unique, 1)
            .attr(unique.wrapping_add(UNIQUE_STEP), MODE, 0, 1);
        unique = unique.wrapping_add(2 * UNIQUE_STEP);
    }
    sample
}

/// Each file is read, all at once. What is there is told by a bit for each.
fn read(sample: Sample, first: u64, choice: u64) -> Sample {
    let mut sample = sample;
    let mut unique = first;
    for file in &FILES {
        sample = sample.read(unique, file.node, file.handle, 0, 16);
        unique = unique.wrapping_add(UNIQUE_STEP);
    }
    unique = first;
    let mut bits = choice;
    for _ in &FILES {
        let bytes: &[u8] = if bits & 1 == 1 { b"x" } else { b"" };
        sample = sample.data(unique, bytes);
        unique = unique.wrapping_add(UNIQUE_STEP);
        bits >>= 1;
    }
    sample
}
