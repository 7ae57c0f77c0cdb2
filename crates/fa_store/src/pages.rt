//! The pages that the bytes of a file are in.

ghost use Rattle.std.specs.Prelude.{◌≡◌, ◌↔◌, ◌+◌, ◌<◌, ◌≤◌, ℕ, [], ◌∷◌, get_or, length, take, IfOk, IsTrue, OnErr, OnOk};
ghost use Rattle.fa_store.specs.parts.PageParts.{page_of, far_page, only_page, with_part, IsPart, IsSet, IsGrown, SameBytes};

use crate::many_pages::ManyPages;
use crate::page::{Page, are_zeros};
use fa_capture::Seed;
use std::alloc::{AllocError, Global};
use std::collections::BTreeMap;
use std::marker::Model;

/// One page by itself, which takes no memory for a list, or more of them.
#[derive(Drop)]
pub(crate) enum PageList {
    One(Page),
    Many(Box<ManyPages>),
}

/// Pages, each at its place. One that is not there stores nothing: those at the beginning of a file are in a list, which has a
/// constant for each of its places; the far ones, at places behind the list, are in a map, which has those alone that were written.
#[derive(Drop)]
pub(crate) struct Pages {
    list: PageList,
}

impl Model for Pages {
    ghost use Rattle.fa_store.specs.parts.PageParts.{PagesShown};
    ghost use Rattle.fa_store.specs.parts.PagesView.{pages_shown};

    ghost Value = { PagesShown };

    ghost view = { λ p. pages_shown p.list };
}

impl Pages {
    /// One page, that stores nothing. Takes no memory.
    pub fn new(alloc: Global) -> Self
        ensures { result ≡ only_page [] }
    {
        Pages {
            list: PageList::One(Page::new(alloc)),
        }
    }

    /// One page, that stores these bytes. Time in the bytes.
    pub fn from_slice(alloc: Global, bytes: &[u8]) -> Result<Self, AllocError>
        requires { length bytes.now ≤ 4096 }
        ensures { IfOk result (λ pages. pages ≡ only_page bytes.now) }
    {
        Ok(Pages {
            list: PageList::One(Page::from_slice(alloc, bytes)?),
        })
    }

    /// The same pages once more. Time and memory in the pages and the bytes that they store.
    pub fn copy(&self, alloc: Global) -> Result<Self, AllocError>
        ensures { IfOk result (λ pages. pages ≡ self.now) }
    {
        let list = match &self.list {
            PageList::One(page) => PageList::One(page.clone()?),
            PageList::Many(pages) => PageList::Many(Box::new(alloc, pages.copy()?)?),
        };
        Ok(Pages { list })
    }

    /// Whether the bytes are the same, whichever are stored. Takes no memory, and time in the bytes that are stored, for each page
    /// that is far in either in the logarithm of those that are there.
    pub fn is_same(&self, other: &Pages) -> bool
        ensures { IsTrue result → SameBytes (page_of self.now) (page_of other.now) }
    {
        self.is_within(other) && other.is_within(self)
    }

    /// Whether the bytes that each page stores are those of the other pages at its place. Takes no memory, and time in them, for each
    /// page that is far in either in the logarithm of those that are there.
    fn is_within(&self, other: &Pages) -> bool
        ensures { IsTrue result → (place : ℕ) → IsPart (page_of other.now place) 0 (page_of self.now place) }
    {
        match &self.list {
            PageList::One(page) => other.has(0, 0, page.as_slice()),
            PageList::Many(pages) => {
                is_near_within(pages.near(), other) && is_far_within(pages.far().by_place(), other)
            }
        }
    }

    /// A number under the seed for the bytes, the same for the same ones, whichever are stored. Takes no memory, and time in those that are.
    pub fn digest(&self, seed: Seed) -> u64 {
        match &self.list {
            PageList::One(page) => page.digest(seed, 0),
            PageList::Many(pages) => {
                let near = pages.near().iter().enumerate().fold(
                    0_u64,
                    |sum, (place, page)| sum.wrapping_add(page.digest(seed, place)),
                );
                pages.far().by_place().iter().fold(
                    near,
                    |sum, (place, page)| sum.wrapping_add(page.digest(seed, *place)),
                )
            }
        }
    }

    /// About so many bytes of memory are taken. Time in the pages that are there.
    pub fn weight(&self) -> u64 {
        match &self.list {
            PageList::One(page) => page.weight(),
            PageList::Many(pages) => {
                let near = pages
                    .near()
                    .iter()
                    .fold(0_u64, |sum, page| sum.saturating_add(page.weight()));
                pages
                    .far()
                    .by_place()
                    .values()
                    .fold(near, |sum, page| sum.saturating_add(page.weight()))
            }
        }
    }

    /// How many pages the list has.
    pub fn near_len(&self) -> usize
        ensures { result ≡ length self.now.near }
    {
        match &self.list {
            PageList::One(_) => 1,
            PageList::Many(pages) => pages.near_len(),
        }
    }

    /// Makes the list go on up to so many pages, or to the first far one. Those that are added store nothing: all bytes are as they
    /// were, after an error too. Time in the pages that are added, and in the logarithm of the far ones that are there.
    pub fn add(&mut self, alloc: Global, count: usize) -> Result<(), AllocError>
        ensures { SameBytes (page_of self.new) (page_of self.old) }
    {
        match &mut self.list {
            PageList::One(page) => {
                if count > 1 {
                    let mut pages = taken(alloc, page, count)?;
                    let added = pages.add(alloc, count);
                    self.list = PageList::Many(pages);
                    return added;
                }
                Ok(())
            }
            PageList::Many(pages) => pages.add(alloc, count),
        }
    }

    /// Whether these are the bytes from this place on in the page at a place; where there is none, they are zeros.
    /// Takes no memory, and time in their number, for a far page in the logarithm of those that are there too.
    pub fn has(&self, place: usize, at: usize, part: &[u8]) -> bool
        ensures { IsTrue result ↔ IsPart (page_of self.now place) at part.now }
    {
        match &self.list {
            PageList::One(page) if place == 0 => page.has(at, part),
            PageList::One(_) => are_zeros(part),
            PageList::Many(pages) => match pages.get(place) {
                Some(page) => page.has(at, part),
                None => are_zeros(part),
            },
        }
    }

    /// The byte at this place of the page at a place; zero where there is none. Takes no memory, in constant time, for a
    /// far page in the logarithm of those that are there.
    pub fn byte(&self, place: usize, at: usize) -> u8
        ensures { result ≡ get_or (page_of self.now place) at 0 }
    {
        match &self.list {
            PageList::One(page) if place == 0 => page.byte(at),
            PageList::One(_) => 0,
            PageList::Many(many) => match many.get(place) {
                Some(page) => page.byte(at),
                None => 0,
            },
        }
    }

    /// Makes the page at a place store so many bytes at least, as `Page::store` does. A far page is made where it is not there, and
    /// has no place before its memory is.
    pub fn store(&mut self, alloc: Global, place: usize, size: usize) -> Result<(), AllocError>
        requires { size ≤ 4096 }
        ensures grown { IsGrown (page_of self.new) (page_of self.old) place }
        ensures stored { OnOk result (size ≤ length (page_of self.new place)) }
    {
        match &mut self.list {
            PageList::One(page) if place == 0 => page.store(size),
            PageList::One(page) => {
                let mut pages = taken(alloc, page, 1)?;
                let stored = pages.store(alloc, place, size);
                self.list = PageList::Many(pages);
                stored
            }
            PageList::Many(pages) => pages.store(alloc, place, size),
        }
    }

    /// Puts these bytes at this place of the page at a place, where as many are stored, as `Page::put` does.
    pub fn put(&mut self, place: usize, at: usize, part: &[u8])
        requires { at + length part.now ≤ length (page_of self.old place) }
        ensures { IsSet (page_of self.new) (page_of self.old) place (with_part (page_of self.old place) at part.now) }
    {
        match &mut self.list {
            PageList::One(page) => {
                if place == 0 {
                    page.put(at, part);
                }
            }
            PageList::Many(pages) => pages.put(place, at, part),
        }
    }

    /// Makes the page at a place store so many bytes at most, as `Page::cut` does.
    pub fn cut(&mut self, place: usize, size: usize)
        ensures { IsSet (page_of self.new) (page_of self.old) place (take size (page_of self.old place)) }
    {
        match &mut self.list {
            PageList::One(page) => {
                if place == 0 {
                    page.cut(size);
                }
            }
            PageList::Many(pages) => pages.cut(place, size),
        }
    }

    /// Takes the far pages at this place and behind it away, and gives back their memory. Takes none. Time in the pages that are
    /// taken away, and a logarithm of those that are there for each.
    pub fn cut_far(&mut self, place: usize)
        ensures cut { (k : ℕ) → length self.new.near ≤ k → place ≤ k → page_of self.new k ≡ [] }
        ensures kept { (k : ℕ) → k < place → page_of self.new k ≡ page_of self.old k }
        ensures near { (k : ℕ) → k < length self.new.near → page_of self.new k ≡ page_of self.old k }
    {
        match &mut self.list {
            PageList::One(_) => {}
            PageList::Many(pages) => pages.cut_far(place),
        }
    }

    /// Gives back memory; all bytes are as they were. Pages from a place on give back the zeros at their ends, far ones in front of an
    /// end alone. Far ones there that store nothing else go, and so do pages at the end of the list that store nothing, as long as it
    /// has more than `count`. Where one page is left, it takes no memory for a list. Takes no memory but to move what a page stores into
    /// less of it, and time in the bytes that the pages store and the places up to the end.
    pub fn give_back(&mut self, count: usize, from: usize, end: usize)
        ensures { SameBytes (page_of self.new) (page_of self.old) }
    {
        match &mut self.list {
            PageList::One(page) => page.give_back(),
            PageList::Many(pages) => {
                pages.give_back(count, from, end);
                if let Some(page) = pages.take_only() {
                    self.list = PageList::One(page);
                }
            }
        }
    }
}

/// Whether the bytes that each page of a list stores are those of the pages at its place. Takes no memory, and time in them, for each
/// that is far there in the logarithm of those that are.
fn is_near_within(near: &[Page], pages: &Pages) -> bool
    ensures { IsTrue result → (place : ℕ) → IsPart (page_of pages.now place) 0 (get_or near.now place []) }
{
    near.iter()
        .enumerate()
        .all(|(place, page)| pages.has(place, 0, page.as_slice()))
}

/// Whether the bytes that each far page stores are those of the pages at its place. Takes no memory, and time in them, for each of
/// them in the logarithm of the far pages that are there.
fn is_far_within(far: &BTreeMap<usize, Page>, pages: &Pages) -> bool
    ensures { IsTrue result → (place : ℕ) → IsPart (page_of pages.now place) 0 (far_page far.now.entries place) }
{
    far.iter()
        .all(|(place, page)| pages.has(*place, 0, page.as_slice()))
}

/// More pages, of which a page that is moved there is the first and the only one, with room for so many in the list. Where memory is
/// refused, the page stays.
fn taken(alloc: Global, page: &mut Page, count: usize) -> Result<Box<ManyPages>, AllocError>
    ensures moved { IfOk result (λ pages. (pages.value.near ≡ page.old ∷ []) × (pages.value.far ≡ [])) }
    ensures kept { OnErr result (page.new ≡ page.old) }
{
    let mut pages = Box::new(alloc, ManyPages::with_capacity(alloc, count)?)?;
    pages.swap_first(page);
    Ok(pages)
}
