//! Digests of what stands in tables, by which equal trees are found.

use fa_capture::Seed;
use std::hash::{BuildHasher, Hash, Hasher};

/// A number for a value, the same for equal ones under one seed. Others may have it too. Time in what the value feeds a hasher.
pub fn digest_of<T: Hash>(seed: Seed, value: &T) -> u64 {
    let mut state = seed.build_hasher();
    value.hash(&mut state);
    state.finish()
}

/// A number for bytes at a place, the same for the same ones there under one seed. Others may have it too. Time in the bytes.
pub(crate) fn digest_of_bytes(seed: Seed, place: usize, bytes: &[u8]) -> u64 {
    let mut state = seed.build_hasher();
    place.hash(&mut state);
    // Of more than eight bytes at a time, a hasher's state would not be in each factor of what it multiplies.
    for part in bytes.chunks(8) {
        state.write(part);
    }
    state.finish()
}
