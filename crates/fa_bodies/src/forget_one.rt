//! The items of BATCH_FORGET.

ghost use Rattle.std.specs.Prelude.{refl};
ghost use Rattle.fa_bodies.specs.Structs.{forget_one};

use crate::block::Block;
use crate::fields::u64_at;

/// An item of BATCH_FORGET (`struct fuse_forget_one`): a node id, and how many of its lookups are
/// taken back.
#[derive(Clone, Copy)]
pub(crate) struct ForgetOne {
    pub nodeid: u64,
    pub nlookup: u64,
}

impl Block for ForgetOne {
    const LEN: usize = 16;

    ghost LEN = { 16 };

    ghost fields = { λ item. forget_one item.nodeid item.nlookup };

    fn at(bytes: &[u8]) -> (ForgetOne, &[u8]) {
        let (nodeid, rest) = u64_at(bytes);
        let (nlookup, rest) = u64_at(rest);
        (ForgetOne { nodeid, nlookup }, rest)
    }

    ghost sized = { λ block. refl };
}

/// The items of BATCH_FORGET in their order: of each its node id, and how many lookups of that node are taken back
/// (`nodeid` and `nlookup` of `struct fuse_forget_one`). Made by [`items`](crate::items).
#[derive(Clone, Copy, Debug)]
pub struct Items<'a> {
    pub(crate) bytes: &'a [u8],
}

impl Iterator for Items<'_> {
    ghost use Rattle.std.specs.Iterator.{YieldsFirst, item_count};
    ghost use Rattle.fa_bodies.specs.Items.{items_left};

    type Item = (u64, u64);

    ghost next_gives = { YieldsFirst items_left };

    ghost remaining = { item_count items_left };

    /// The next item, in constant time.
    fn next(&mut self) -> Option<(u64, u64)> {
        if self.bytes.len() < ForgetOne::LEN {
            return None;
        }
        let (ForgetOne { nodeid, nlookup }, rest) = ForgetOne::at(self.bytes);
        self.bytes = rest;
        Some((nodeid, nlookup))
    }
}
