//! The bytes of a file.

ghost use Rattle.std.specs.Prelude.{◌≡◌, ◌↔◌, ◌+◌, ◌^◌, ◌<◌, [], length, slice_get, IsTrue, IfOk, OnOk, OnErr};
ghost use Rattle.fa_store.specs.Contents.{IsReadAs, readable, resized, written};
ghost use Rattle.fa_store.specs.parts.PageParts.{page_of, IsZeroFrom, SameBytes, IsStored, AreFrom, AreWritten, AreCut};

use crate::digest::digest_of;
use crate::page::PAGE;
use crate::pages::Pages;
use fa_capture::Seed;
use std::alloc::{AllocError, Global};
use std::marker::Model;

/// The list of pages has so many at most: 16 MiB of a file.
const NEAR: usize = 4096;

/// Bytes that begin so many pages behind the list, or more, don't make it go on: 256 KiB.
const AHEAD: usize = 64;

/// The bytes of a regular file, or the target of a symbolic link. To its callers it is the list of them.
///
/// Zeros that were never written take no memory, but for less than a page of 4,096 bytes beside bytes that were written, and 24 bytes for
/// each page of a hole of up to some 256 KiB in the first 16 MiB.
#[derive(Drop)]
pub struct Contents {
    alloc: Global,
    /// How many there are.
    len: usize,
    /// They are in pages, one after the other. A byte that its page does not store, or whose page is not there, is zero.
    pages: Pages,
}

impl Model for Contents {
    ghost use Rattle.std.specs.Prelude.{List, ℕ};
    ghost use Rattle.fa_store.specs.parts.PageParts.{page_of, bytes_of, IsZeroFrom};

    ghost Value = { List ℕ };

    ghost view = { λ c. bytes_of (page_of c.pages) c.len };

    // What is stored behind the end are zeros, so that growing changes the length alone.
    ghost invariant = { λ c. IsZeroFrom (page_of c.pages) c.len };
}

impl Contents {
    /// No bytes. Takes no memory.
    pub fn new(alloc: Global) -> Self
        ensures { result ≡ [] }
    {
        Contents {
            alloc,
            len: 0,
            pages: Pages::new(alloc),
        }
    }

    /// A copy of these bytes.
    ///
    /// # Errors
    ///
    /// [`AllocError`] where memory was refused.
    ///
    /// # Cost
    ///
    /// Time and memory in their number: as many pages as they are in, none longer than what it has of them.
    pub fn from_slice(alloc: Global, bytes: &[u8]) -> Result<Self, AllocError>
        ensures { IfOk result (λ contents. contents ≡ bytes.now) }
    {
        if bytes.is_empty() {
            return Ok(Contents::new(alloc));
        }
        let (first, rest) = bytes.split_at(bytes.len().min(PAGE));
        let mut contents = Contents {
            alloc,
            len: first.len(),
            pages: Pages::from_slice(alloc, first)?,
        };
        contents.write(PAGE as u64, rest)?;
        Ok(contents)
    }

    /// The same bytes once more, in memory of their own.
    ///
    /// # Errors
    ///
    /// [`AllocError`] where memory was refused.
    ///
    /// # Cost
    ///
    /// Time and memory of the pages that store them. Holes take none.
    pub fn copy(&self) -> Result<Self, AllocError>
        ensures { IfOk result (λ contents. contents ≡ self.now) }
    {
        Ok(Contents {
            alloc: self.alloc,
            len: self.len,
            pages: self.pages.copy(self.alloc)?,
        })
    }

    /// Whether both have the same bytes, whichever of them are stored. No clause says that it is true for all that have.
    ///
    /// Takes no memory, and time in the pages that store them.
    pub fn is_same(&self, other: &Contents) -> bool
        ensures { IsTrue result → self.now ≡ other.now }
    {
        self.len == other.len && self.pages.is_same(&other.pages)
    }

    /// A number under the seed for the bytes, the same for the same ones. Others may have it too. No clause says so.
    ///
    /// Takes no memory, and time in the pages that store them.
    pub fn digest(&self, seed: Seed) -> u64 {
        digest_of(seed, &(self.len, self.pages.digest(seed)))
    }

    /// About how many bytes of memory they take. No clause says so.
    ///
    /// Takes no memory, and time in the pages that are there.
    pub fn weight(&self) -> u64 {
        self.pages.weight()
    }

    /// How many there are. In constant time.
    pub fn len(&self) -> usize
        ensures { result ≡ length self.now }
    {
        self.len
    }

    /// The byte at an offset, if there is one.
    ///
    /// Takes no memory, in constant time, for a far page in the logarithm of those that are there.
    pub fn byte(&self, offset: u64) -> Option<u8>
        ensures { result ≡ slice_get self.now offset }
    {
        let at = offset as usize;
        if at < self.len {
            Some(self.pages.byte(at / PAGE, at % PAGE))
        } else {
            None
        }
    }

    /// Whether they are these.
    ///
    /// Takes no memory, and time in their number, for each far page in the logarithm of those that are there.
    pub fn is(&self, bytes: &[u8]) -> bool
        ensures { IsTrue result ↔ (bytes.now ≡ self.now) }
    {
        bytes.len() == self.len && are_from(&self.pages, 0, bytes)
    }

    /// Whether a read of so many bytes at an offset gives these (POSIX `pread`; this profile: all that there are); where the handle is
    /// direct (`FOPEN_DIRECT_IO` of `fuse.h`), whether it may give these, a front of what there is.
    ///
    /// Takes no memory, and time in the bytes given, for each far page in the logarithm of those that are there.
    pub fn is_read(&self, direct: bool, offset: u64, size: u32, given: &[u8]) -> bool
        ensures { IsTrue result ↔ IsReadAs direct (readable self.now offset size) given.now }
    {
        let start = self.len.min(offset as usize);
        let asked = (self.len - start).min(size as usize);
        let fits = if direct {
            given.len() <= asked
        } else {
            given.len() == asked
        };
        fits && are_from(&self.pages, start, given)
    }

    /// Writes bytes at an offset, with zeros between the end and the offset (POSIX `pwrite`). Writing none changes nothing.
    ///
    /// # Errors
    ///
    /// [`AllocError`] where memory was refused, or where the bytes would end at 2^64 or behind it, which no memory holds. Nothing is
    /// changed then.
    ///
    /// # Cost
    ///
    /// Time in the bytes written, a constant for each page in front of them that is added to the list, and for each far page that is
    /// written the logarithm of those that are there, and once more. Memory for the bytes, and of the zeros for those alone that are in
    /// one page with them, less than a page.
    pub fn write(&mut self, offset: u64, payload: &[u8]) -> Result<(), AllocError>
        ensures written { OnOk result (self.new ≡ written self.old offset payload.now) }
        ensures unchanged { OnErr result (self.new ≡ self.old) }
    {
        if payload.is_empty() {
            return Ok(());
        }
        let start = offset as usize;
        // No memory holds more bytes than a number of 64 bits counts.
        let end = start.checked_add(payload.len()).ok_or(AllocError)?;
        store(self.alloc, &mut self.pages, start, end)?;
        put(&mut self.pages, start, payload);
        self.len = self.len.max(end);
        Ok(())
    }

    /// Cuts the bytes to this length, or fills them with zeros up to it (POSIX `ftruncate`).
    ///
    /// # Errors
    ///
    /// None is ever answered, since it takes no memory; an error would leave all as it was.
    ///
    /// # Cost
    ///
    /// Constant time, and for each page that is cut a constant, or the logarithm of the far pages that are there: those in the list,
    /// which keep their memory for what is written next, as a `Vec` keeps its capacity, and far ones, which give it back.
    pub fn resize(&mut self, size: u64) -> Result<(), AllocError>
        ensures resized { OnOk result (self.new ≡ resized self.old size) }
        ensures unchanged { OnErr result (self.new ≡ self.old) }
    {
        let size = size as usize;
        if size < self.len {
            cut(&mut self.pages, size, self.len);
        }
        self.len = size;
        Ok(())
    }

    /// Takes all bytes away, in the time of [`resize`](Contents::resize). The pages in the list keep their memory.
    pub fn clear(&mut self)
        ensures { self.new ≡ [] }
    {
        cut(&mut self.pages, 0, self.len);
        self.len = 0;
    }
}

/// Whether these are the bytes of the pages from this place on. Takes no memory, and time in their number, for each far page in the
/// logarithm of those that are there: each page is compared as a whole, and zeros with themselves where there is none.
fn are_from(pages: &Pages, start: usize, bytes: &[u8]) -> bool
    requires { start + length bytes.now < 2 ^ 64 }
    ensures { IsTrue result ↔ AreFrom (page_of pages.now) start bytes.now }
{
    let mut done = 0;
    while done < bytes.len() {
        let at = start + done;
        let count = (PAGE - at % PAGE).min(bytes.len() - done);
        if !pages.has(at / PAGE, at % PAGE, &bytes[done..done + count]) {
            return false;
        }
        done += count;
    }
    true
}

/// Makes pages store the bytes from one place up to another. All are as they were, after an error too, which gives back the memory
/// that was taken before it. Time in the bytes that were not stored, in the pages that are added to the list, and for each far page in
/// the logarithm of those that are there, and once more.
fn store(alloc: Global, pages: &mut Pages, start: usize, end: usize) -> Result<(), AllocError>
    ensures same { SameBytes (page_of pages.new) (page_of pages.old) }
    ensures stored { OnOk result (IsStored (page_of pages.new) start end) }
{
    let count = pages.near_len();
    match store_each(alloc, pages, start, end) {
        Ok(()) => Ok(()),
        Err(error) => {
            pages.give_back(count, start / PAGE, end.div_ceil(PAGE));
            Err(error)
        }
    }
}

/// Makes pages store the bytes from one place up to another, page by page, as [`store`] does. What was taken before an error is kept.
fn store_each(alloc: Global, pages: &mut Pages, start: usize, end: usize) -> Result<(), AllocError>
    ensures same { SameBytes (page_of pages.new) (page_of pages.old) }
    ensures stored { OnOk result (IsStored (page_of pages.new) start end) }
{
    add_near(alloc, pages, start, end)?;
    let mut at = start;
    while at < end {
        let from = at % PAGE;
        let count = (PAGE - from).min(end - at);
        pages.store(alloc, at / PAGE, from + count)?;
        at += count;
    }
    Ok(())
}

/// Makes the list of pages go on over those that the bytes from one place up to another are in, where these begin near its end. All
/// bytes are as they were, after an error too. Time in the pages that are added, fewer than `AHEAD` beside those of the bytes, and in the
/// logarithm of the far pages that are there.
fn add_near(alloc: Global, pages: &mut Pages, start: usize, end: usize) -> Result<(), AllocError>
    ensures { SameBytes (page_of pages.new) (page_of pages.old) }
{
    if (start / PAGE).saturating_sub(pages.near_len()) < AHEAD {
        pages.add(alloc, end.div_ceil(PAGE).min(NEAR))
    } else {
        Ok(())
    }
}

/// Puts these bytes at this place, where as many are stored. Takes no memory, and time in their number.
fn put(pages: &mut Pages, start: usize, bytes: &[u8])
    requires fits { start + length bytes.now < 2 ^ 64 }
    requires stored { IsStored (page_of pages.old) start (start + length bytes.now) }
    ensures { AreWritten (page_of pages.new) (page_of pages.old) start bytes.now (length bytes.now) }
{
    let mut done = 0;
    while done < bytes.len() {
        let at = start + done;
        let from = at % PAGE;
        let count = (PAGE - from).min(bytes.len() - done);
        pages.put(at / PAGE, from, &bytes[done..done + count]);
        done += count;
    }
}

/// Takes the bytes from this place on away, up to the length before: zeros follow. The page that goes on behind the place is cut
/// there. Further ones in the list store nothing, stay there and keep their memory for what is written next; far ones are taken away.
/// Takes no memory. Constant time, and for each page that is cut a constant, or a logarithm of the far pages that are
/// there: those behind the length store zeros alone, and are not walked.
fn cut(pages: &mut Pages, size: usize, len: usize)
    requires { IsZeroFrom (page_of pages.old) len }
    ensures { AreCut (page_of pages.new) (page_of pages.old) size }
{
    let last = size / PAGE;
    pages.cut(last, size % PAGE);
    pages.cut_far(size.div_ceil(PAGE));
    let end = len.div_ceil(PAGE).min(pages.near_len());
    let mut at = last + 1;
    while at < end {
        pages.cut(at, 0);
        at += 1;
    }
}
