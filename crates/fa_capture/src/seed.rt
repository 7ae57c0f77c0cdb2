//! What tables are hashed with.

ghost use Rattle.std.specs.Prelude.{◌≡◌, fold};
ghost use Rattle.std.specs.Hash as fed;
ghost use Rattle.std.specs.Hash.FoldHasher as folding;
ghost use Rattle.fa_capture.specs.Seeds.{seed_state, seed_hasher, key_written, key_finished};

use std::hash::{BuildHasher, FoldHasher, Hasher};

/// What the tables of an audit hash their keys with, and what its digests begin from.
///
/// Keys come from a capture: uniques, node ids, file handles, offsets, names, and numbers of messages. Who writes one and knows the seed
/// can choose such as fall together in a table, so that a look-up goes through many of them. So a program that judges what strangers hand
/// it makes its seed from a random number, which it tells nobody. What an audit answers does not depend on the seed, only the time and the
/// memory that it takes. The default one is the same in each run.
#[derive(Clone, Copy, Debug, Default)]
pub struct Seed {
    hasher: FoldHasher,
}

impl Seed {
    /// The seed of this number.
    ///
    /// Takes no memory, in constant time.
    pub fn new(number: u64) -> Seed
        ensures fed { seed_state result ≡ fold folding.write folding.initial (fed.u64 number) }
    {
        let mut hasher = FoldHasher::default();
        hasher.write_u64(number);
        Seed { hasher }
    }
}

impl BuildHasher for Seed {
    type Hasher = KeyHasher;

    ghost build_hasher = { seed_hasher };

    fn build_hasher(&self) -> KeyHasher {
        KeyHasher { state: self.hasher }
    }
}

/// A hasher that begins from a seed, and ends with a product more than a [`FoldHasher`].
///
/// A table looks at a hash of 32 bits. Of a key of four bytes, or of eight of which the halves are alike, one product alone leaves little
/// but its carries in these, and whoever chooses such keys would not need the seed.
#[derive(Clone, Copy, Debug)]
pub struct KeyHasher {
    state: FoldHasher,
}

impl Hasher for KeyHasher {
    ghost write = { key_written };

    ghost finish = { key_finished };

    fn finish(&self) -> u64 {
        let mut state = self.state;
        state.write(&[]);
        state.finish()
    }

    fn write(&mut self, bytes: &[u8]) {
        self.state.write(bytes);
    }
}
