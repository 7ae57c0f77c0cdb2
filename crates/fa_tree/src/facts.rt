//! What attributes of a file are judged by.

ghost use Rattle.std.specs.Prelude.{◌≡◌, ◌↔◌, ◌+◌, if◌then◌else◌, IsTrue};
ghost use Rattle.fa_bodies.specs.Views.{attributes_shown};
ghost use Rattle.fa_tree.specs.parts.FactParts.{AreFit, AreNewFacts};

use crate::file::permission_bits;
use fa_bodies::{AttributesBytes, Kind};

/// What attributes of a file are judged by.
#[derive(Clone, Copy, Debug)]
pub(crate) struct Facts {
    /// Its type.
    pub kind: Kind,
    /// Its permission bits.
    pub bits: u32,
    /// How many bytes it has.
    pub size: usize,
    /// How many names it has,
    pub links: usize,
    /// and whether it gets a further one.
    pub further: bool,
}

impl Facts {
    /// Those of a file that is made, with its one name.
    pub fn new(kind: Kind, bits: u32, size: usize) -> Self
        ensures { AreNewFacts kind bits size result }
    {
        Facts {
            kind,
            bits,
            size,
            links: 0,
            further: true,
        }
    }

    /// Whether the attributes of a reply are those of the file.
    pub fn fit(&self, attr: AttributesBytes<'_>) -> bool
        ensures { IsTrue result ↔ AreFit self.now (attributes_shown attr.entry) }
    {
        let mode = attr.mode();
        mode.file_type() == Some(self.kind)
            && (self.kind == Kind::Symlink || permission_bits(mode) == self.bits)
            && (self.kind != Kind::Regular || attr.size() == self.size as u64)
            && (self.kind == Kind::Directory || self.has_links(attr.nlink()))
    }

    /// Whether the file has so many names.
    fn has_links(&self, nlink: u32) -> bool
        ensures { IsTrue result ↔ (nlink ≡ self.now.links + (if self.now.further then 1 else 0)) }
    {
        if self.further {
            nlink > 0 && (nlink - 1) as usize == self.links
        } else {
            nlink as usize == self.links
        }
    }
}
