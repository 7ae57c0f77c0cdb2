//! Files.

ghost use Rattle.std.specs.Prelude.{◌≡◌, IsTrue};
ghost use Rattle.fa_bodies.specs.Modes.{mode_bits};
ghost use Rattle.fa_tree.specs.Attributes.{permission_bits};
ghost use Rattle.fa_tree.specs.Building.{file_of_kind};
ghost use Rattle.fa_tree.specs.parts.FileParts.{file_shown};

use fa_bodies::{Kind, Mode};
use fa_capture::Seed;
use fa_store::{Contents, digest_of};
use std::alloc::AllocError;

/// A file, whatever names it has.
#[derive(Drop)]
pub(crate) struct File {
    /// What it is.
    pub kind: Kind,
    /// Its permission bits.
    pub bits: u32,
    /// Its bytes, or the target of a symbolic link.
    pub contents: Contents,
}

/// The permission bits of a mode, 0777.
pub(crate) fn permission_bits(mode: Mode) -> u32
    ensures { result ≡ permission_bits (mode_bits mode) }
{
    mode.bits() & 0o777
}

impl Clone for File {
    ghost is_clone = { λ file copy. copy ≡ file };

    /// The same file, its bytes in memory of their own. Time and memory in the pages that store them.
    fn clone(&self) -> Result<Self, AllocError> {
        Ok(File {
            kind: self.kind,
            bits: self.bits,
            contents: self.contents.copy()?,
        })
    }
}

impl File {
    /// Whether both have the same type, the same permission bits and the same bytes. Takes no memory, and time in the pages that
    /// store the bytes.
    pub fn is_same(&self, other: &File) -> bool
        ensures { IsTrue result → file_shown self.now ≡ file_shown other.now }
    {
        self.kind == other.kind && self.bits == other.bits && self.contents.is_same(&other.contents)
    }

    /// A number under the seed for the file, the same for the same ones: it looks at the permission bits and the bytes. Takes no memory, and
    /// time in the pages that store the bytes.
    pub fn digest(&self, seed: Seed) -> u64 {
        digest_of(seed, &(self.bits, self.contents.digest(seed)))
    }

    /// About so many bytes of memory are taken. Time in the pages that are there.
    pub fn weight(&self) -> u64 {
        self.contents.weight()
    }

    /// A file of this type, with these permission bits, but all where it is a symbolic link.
    pub fn new(kind: Kind, bits: u32, contents: Contents) -> Self
        ensures { file_shown result ≡ file_of_kind kind bits contents }
    {
        match kind {
            Kind::Symlink => File {
                kind,
                bits: 0o777,
                contents,
            },
            _ => File {
                kind,
                bits,
                contents,
            },
        }
    }
}
