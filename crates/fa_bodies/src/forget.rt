//! What FORGET and BATCH_FORGET say.

ghost use Rattle.std.specs.Prelude.{refl};
ghost use Rattle.fa_bodies.specs.Structs.{forget_in, batch_forget_in};

use crate::block::Block;
use crate::fields::{skip, u32_at, u64_at};

/// How many lookups are taken back (`struct fuse_forget_in`).
#[derive(Clone, Copy)]
pub(crate) struct ForgetIn {
    pub nlookup: u64,
}

/// How many items follow (`struct fuse_batch_forget_in`).
#[derive(Clone, Copy)]
pub(crate) struct BatchForgetIn {
    pub count: u32,
}

impl Block for ForgetIn {
    const LEN: usize = 8;

    ghost LEN = { 8 };

    ghost fields = { λ f. forget_in f.nlookup };

    fn at(bytes: &[u8]) -> (ForgetIn, &[u8]) {
        let (nlookup, rest) = u64_at(bytes);
        (ForgetIn { nlookup }, rest)
    }

    ghost sized = { λ block. refl };
}

impl Block for BatchForgetIn {
    const LEN: usize = 8;

    ghost LEN = { 8 };

    ghost fields = { λ b. batch_forget_in b.count };

    fn at(bytes: &[u8]) -> (BatchForgetIn, &[u8]) {
        let (count, rest) = u32_at(bytes);
        let rest = skip(rest, 4);
        (BatchForgetIn { count }, rest)
    }

    ghost sized = { λ block. refl };
}
