//! Very many new names in one directory.

use crate::volume::Volume;
use std::alloc::Global;

/// The capture of so many names.
pub fn volume(alloc: Global, seed: u64, names: u64) -> Volume {
    let mut volume = Volume::seeded(alloc, 20, seed);
    let directory = volume.mkdir(0);
    for _ in 0..names {
        volume.mknod(directory);
    }
    volume
}
