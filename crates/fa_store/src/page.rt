//! Pages of the bytes of a file.

ghost use Rattle.std.specs.Prelude.{◌≡◌, ◌↔◌, ◌+◌, ◌<◌, ◌≤◌, ℕ, List, [], get_or, length, take, IsTrue, IfOk, OnOk, OnErr};
ghost use Rattle.fa_store.specs.parts.PageParts.{IsPart, with_part};

use crate::digest::digest_of_bytes;
use fa_capture::Seed;
use std::alloc::{AllocError, Global};
use std::marker::Model;

/// A page has so many bytes.
pub(crate) const PAGE: usize = 4096;

/// A page takes about so many bytes beside those that it stores.
const PAGE_WEIGHT: u64 = 32;

/// The bytes of a page that are stored. Those behind them are zeros.
#[derive(Drop)]
pub(crate) struct Page {
    bytes: Vec<u8>,
}

impl Model for Page {
    ghost use Rattle.std.specs.Prelude.{◌≤◌, ℕ, List, length};

    ghost Value = { List ℕ };

    ghost view = { λ p. p.bytes.items };

    ghost invariant = { λ p. length p.bytes.items ≤ 4096 };
}

impl Clone for Page {
    ghost is_clone = { λ page copy. copy ≡ page };

    /// The same bytes, in memory of their own. Time and memory in their number.
    fn clone(&self) -> Result<Self, AllocError> {
        Ok(Page {
            bytes: Vec::from_slice(*self.bytes.allocator(), self.bytes.as_slice())?,
        })
    }
}

impl Page {
    /// Zeros. Takes no memory.
    pub fn new(alloc: Global) -> Self
        ensures { result ≡ [] }
    {
        Page {
            bytes: Vec::new(alloc),
        }
    }

    /// These bytes, and no memory beside them. Time and memory in their number.
    pub fn from_slice(alloc: Global, bytes: &[u8]) -> Result<Self, AllocError>
        requires { length bytes.now ≤ 4096 }
        ensures { IfOk result (λ page. page ≡ bytes.now) }
    {
        Ok(Page {
            bytes: Vec::from_slice(alloc, bytes)?,
        })
    }

    /// The bytes that are stored. Constant time.
    pub fn as_slice(&self) -> &[u8]
        ensures { result.now ≡ self.now }
    {
        self.bytes.as_slice()
    }

    /// A number under the seed for the page at this place of a file, the same for the same bytes, whichever zeros at the end are stored; 0
    /// for zeros alone. Takes no memory, and time in the bytes that are stored.
    pub fn digest(&self, seed: Seed, place: usize) -> u64 {
        let bytes = without_last_zeros(&self.bytes);
        if bytes.is_empty() {
            return 0;
        }
        digest_of_bytes(seed, place, bytes)
    }

    /// About so many bytes of memory are taken. Constant time.
    pub fn weight(&self) -> u64 {
        PAGE_WEIGHT.saturating_add(self.bytes.len() as u64)
    }

    /// Stores so many bytes at least, where those that were not stored are zeros still. An error says that memory was refused, and
    /// nothing is changed. Time in the bytes that were not stored, but where the page has to move.
    pub fn store(&mut self, size: usize) -> Result<(), AllocError>
        requires { size ≤ 4096 }
        ensures same { (i : ℕ) → get_or self.new i 0 ≡ get_or self.old i 0 }
        ensures kept { length self.old ≤ length self.new }
        ensures stored { OnOk result (size ≤ length self.new) }
    {
        if self.bytes.len() < size {
            self.bytes.resize(size, 0)?;
        }
        Ok(())
    }

    /// Puts these bytes at this place, where as many are stored. Takes no memory, and time in their number.
    pub fn put(&mut self, at: usize, part: &[u8])
        requires { at + length part.now ≤ length self.old }
        ensures { self.new ≡ with_part self.old at part.now }
    {
        self.bytes[at..at + part.len()].copy_from_slice(part);
    }

    /// Stores so many bytes at most: zeros follow. Keeps the memory.
    pub fn cut(&mut self, size: usize)
        ensures { self.new ≡ take size self.old }
    {
        self.bytes.truncate(size);
    }

    /// Stores no zeros at the end, and gives back the memory behind what is left: the bytes are the same. Takes no memory but to move
    /// what is left into less of it, and time in the bytes that are stored.
    pub fn give_back(&mut self)
        ensures { (i : ℕ) → get_or self.new i 0 ≡ get_or self.old i 0 }
    {
        drop_zeros(&mut self.bytes);
        self.bytes.shrink_to_fit();
    }

    /// Whether nothing is stored.
    pub fn is_empty(&self) -> bool
        ensures { IsTrue result → self.now ≡ [] }
    {
        self.bytes.is_empty()
    }

    /// The byte at a place. Takes no memory, in constant time.
    pub fn byte(&self, at: usize) -> u8
        ensures { result ≡ get_or self.now at 0 }
    {
        match self.bytes.get(at) {
            Some(byte) => *byte,
            None => 0,
        }
    }

    /// Whether these are the bytes from this place on. Takes no memory, and time in their number.
    pub fn has(&self, at: usize, part: &[u8]) -> bool
        ensures { IsTrue result ↔ IsPart self.now at part.now }
    {
        let bytes = self.bytes.as_slice();
        let rest = &bytes[bytes.len().min(at)..];
        let stored = rest.len().min(part.len());
        part[..stored] == rest[..stored] && are_zeros(&part[stored..])
    }
}

/// The bytes up to the last that is not zero. Takes no memory, and time in the zeros behind it.
fn without_last_zeros(bytes: &[u8]) -> &[u8] {
    match bytes.iter().rposition(|byte| *byte != 0) {
        Some(last) => &bytes[..=last],
        None => &[],
    }
}

/// Takes the zeros at the end away. Takes no memory, and time in their number.
fn drop_zeros(bytes: &mut Vec<u8>)
    ensures same { (i : ℕ) → get_or bytes.new.items i 0 ≡ get_or bytes.old.items i 0 }
    ensures fewer { length bytes.new.items ≤ length bytes.old.items }
{
    while bytes.last() == Some(&0) {
        bytes.pop();
    }
}

/// Whether all of these bytes are zeros: the first is, and each other is what the one before it is, which is one comparison of the
/// bytes with themselves. Takes no memory, and time in their number.
pub(crate) fn are_zeros(bytes: &[u8]) -> bool
    ensures { IsTrue result ↔ ((i : ℕ) → i < length bytes.now → get_or bytes.now i 0 ≡ 0) }
{
    let Some((first, rest)) = bytes.split_first() else {
        return true;
    };
    *first == 0 && rest == &bytes[..rest.len()]
}
