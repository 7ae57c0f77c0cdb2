//! What files are known by.

ghost use Rattle.std.specs.Prelude.{◌≡◌};
ghost use Rattle.fa_tree.specs.State.{file_pair, file_number};

use std::hash::{Hash, Hasher};

/// A file of a tree, by what made it. So requests that do not touch each other leave the same files, whichever comes first.
#[derive(Clone, Copy, Debug, PartialEq, Eq)]
pub enum FileId {
    /// The root.
    Root,
    /// The file that was put in by name ([`Tree::add`](crate::Tree::add)) when the tree had this many files, the root among
    /// them: before any step, the n-th.
    Added(u32),
    /// The file that the request of this message made.
    Made(u32),
}

impl Hash for FileId {
    ghost use Rattle.std.proofs.Common.{ap};
    ghost use Rattle.fa_tree.specs.State.{file_fed};
    ghost use Rattle.fa_tree.specs.parts.FileIdLaws.{same_equal};

    ghost hash_input = { file_fed };

    ghost respects_eq = { λ x y equal. ap file_fed (same_equal x y equal) };

    fn hash<H: Hasher>(&self, state: &mut H) {
        state.write_u64(self.number());
    }
}

impl FileId {
    /// Where the file stands in the order of files: what made it, and its number among those.
    pub(crate) fn rank(self) -> (u8, u64)
        ensures { result ≡ file_pair self }
    {
        match self {
            FileId::Root => (0, 0),
            FileId::Added(number) => (1, u64::from(number)),
            FileId::Made(asked) => (2, u64::from(asked)),
        }
    }

    /// A number for the file, which no other has (`number_apart`), so that a table of files hashes one word: the kind in the two low bits.
    #[inline(always)]
    fn number(self) -> u64
        ensures { result ≡ file_number self }
    {
        match self {
            FileId::Root => 0,
            FileId::Added(number) => u64::from(number) * 4 + 1,
            FileId::Made(asked) => u64::from(asked) * 4 + 2,
        }
    }
}
