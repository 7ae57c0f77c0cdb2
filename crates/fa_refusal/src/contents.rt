//! Bytes and targets that are not those of the file: code 85.

use crate::case::Case;
use crate::history::{BytePlace, sized};
use fa_ledger::{Action, Outcome};
use fa_tree::{FileId, Tree};

/// What the answer to a READ says of the bytes of a file, or that to a READLINK of a target.
#[derive(Clone, Copy)]
pub struct Reading<'c> {
    /// The file.
    pub file: FileId,
    /// The place of the first byte in the file.
    pub offset: u64,
    /// The bytes that were answered.
    pub answered: &'c [u8],
    /// How many bytes were expected.
    pub expected: u64,
    /// Whether they are a target.
    pub is_target: bool,
}

/// A difference between the bytes that were answered and those of the file.
#[derive(Clone, Copy)]
pub struct Difference {
    /// The place of the first byte that differs, counted from the first that was answered.
    pub first: u64,
    /// How many of them differ.
    pub count: u64,
}

/// What the answer to a request says of the bytes of a file.
pub(crate) fn reading_of<'c>(tree: &Tree, case: &Case<'c>) -> Option<Reading<'c>> {
    let (file, size) = sized(tree, case.node_in(tree))?;
    match case.action() {
        Some(
            Action::Readlink {
                outcome: Outcome::Succeeds(answered),
            },
        ) => Some(Reading {
            file,
            offset: 0,
            answered: *answered,
            expected: size,
            is_target: true,
        }),
        Some(
            Action::Read {
                offset,
                size: asked,
                outcome: Outcome::Succeeds(answered),
            },
        ) => {
            Some(Reading {
                file,
                offset: *offset,
                answered: *answered,
                expected: size.saturating_sub(*offset).min(u64::from(*asked)),
                is_target: false,
            })
        }
        _ => None,
    }
}

impl Reading<'_> {
    /// How many bytes are there in both.
    pub fn common(&self) -> u64 {
        self.expected.min(self.answered.len() as u64)
    }

    /// The byte of the file at a place, counted from the first that was answered. None behind its end.
    pub fn byte(&self, tree: &Tree, place: u64) -> Option<u8> {
        tree.byte(self.file, self.offset.saturating_add(place))
    }

    /// Where the bytes that were answered differ from those of the file, as far as both go.
    ///
    /// Takes no memory, and time linear in them.
    pub fn difference(&self, tree: &Tree) -> Option<Difference> {
        let mut first = None;
        let mut count: u64 = 0;
        let mut place: u64 = 0;
        let common = self.common();
        for byte in self.answered {
            if place >= common {
                break;
            }
            if self.byte(tree, place) != Some(*byte) {
                count = count.saturating_add(1);
                if first.is_none() {
                    first = Some(place);
                }
            }
            place = place.saturating_add(1);
        }
        Some(Difference {
            first: first?,
            count,
        })
    }

    /// The first byte of the file that differs, or else the first that was asked for.
    pub(crate) fn byte_place(&self, tree: &Tree) -> BytePlace {
        let first = match self.difference(tree) {
            Some(difference) => difference.first,
            None => 0,
        };
        BytePlace {
            file: self.file,
            offset: self.offset.saturating_add(first),
        }
    }
}
