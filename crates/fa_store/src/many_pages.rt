//! The pages of a file of more than one.

ghost use Rattle.std.specs.Prelude.{◌≡◌, ◌+◌, ◌-◌, ◌<◌, ◌≤◌, ℕ, [], ◌∷◌, get_or, length, set, take, max, IfOk, IfNone, IfSome, IsTrue, OnOk};
ghost use Rattle.std.specs.Option.{option_copied, unwrap_or};
ghost use Rattle.fa_store.specs.parts.PageParts.{page_of, with_part, IsSet, IsGrown, SameBytes};

use crate::far_pages::FarPages;
use crate::page::Page;
use std::alloc::{AllocError, Global};
use std::marker::Model;
use std::mem;

/// The pages at the beginning of a file, one after the other, holes too, and those behind them that are there.
#[derive(Drop)]
pub(crate) struct ManyPages {
    near: Vec<Page>,
    far: FarPages,
}

impl Model for ManyPages {
    ghost use Rattle.fa_store.specs.parts.PageParts.{PagesShown};

    ghost Value = { PagesShown };

    ghost view = { λ p. record { near = p.near.items; far = p.far } };
}

impl ManyPages {
    /// One page, that stores nothing, with room for so many in the list.
    pub fn with_capacity(alloc: Global, count: usize) -> Result<Self, AllocError>
        ensures { IfOk result (λ pages. (pages.near ≡ [] ∷ []) × (pages.far ≡ [])) }
    {
        let mut near = Vec::with_capacity(alloc, count)?;
        near.push(Page::new(alloc))?;
        Ok(ManyPages {
            near,
            far: FarPages::new(alloc),
        })
    }

    /// The same pages once more. Time and memory in the pages and the bytes that they store.
    pub fn copy(&self) -> Result<Self, AllocError>
        ensures { IfOk result (λ pages. pages ≡ self.now) }
    {
        Ok(ManyPages {
            near: self.near.clone()?,
            far: self.far.copy()?,
        })
    }

    /// Those in the list, one after the other.
    pub fn near(&self) -> &[Page]
        ensures { result.now ≡ self.now.near }
    {
        self.near.as_slice()
    }

    /// Those behind them that are there.
    pub fn far(&self) -> &FarPages
        ensures { result.now ≡ self.now.far }
    {
        &self.far
    }

    /// Exchanges the first page with another.
    pub fn swap_first(&mut self, page: &mut Page)
        requires { 0 < length self.old.near }
        ensures first { page.new ≡ get_or self.old.near 0 [] }
        ensures near { self.new.near ≡ set self.old.near 0 page.old }
        ensures far { self.new.far ≡ self.old.far }
    {
        mem::swap(&mut self.near[0], page);
    }

    /// How many pages the list has.
    #[inline(always)]
    pub fn near_len(&self) -> usize
        ensures { result ≡ length self.now.near }
    {
        self.near.len()
    }

    /// The page at a place, if it is there. Constant time in the list, else in the logarithm of the far pages that are there.
    #[inline(always)]
    pub fn get(&self, place: usize) -> Option<&Page>
        ensures { unwrap_or (option_copied result) [] ≡ page_of self.now place }
    {
        if place < self.near.len() {
            self.near.get(place)
        } else {
            self.far.get(place)
        }
    }

    /// Makes the list go on up to so many pages, or to the first far one, as `Pages::add` does.
    pub fn add(&mut self, alloc: Global, count: usize) -> Result<(), AllocError>
        ensures { SameBytes (page_of self.new) (page_of self.old) }
    {
        let free = self.far.free_before(count);
        add_pages(alloc, &mut self.near, free)
    }

    /// Makes the page at a place store so many bytes at least, as `Pages::store` does.
    #[inline(always)]
    pub fn store(&mut self, alloc: Global, place: usize, size: usize) -> Result<(), AllocError>
        requires { size ≤ 4096 }
        ensures grown { IsGrown (page_of self.new) (page_of self.old) place }
        ensures stored { OnOk result (size ≤ length (page_of self.new place)) }
    {
        if place < self.near.len() {
            let page = &mut self.near[place];
            return page.store(size);
        }
        self.far.store(alloc, place, size)
    }

    /// Puts these bytes at this place of the page at a place, as `Pages::put` does.
    #[inline(always)]
    pub fn put(&mut self, place: usize, at: usize, part: &[u8])
        requires { at + length part.now ≤ length (page_of self.old place) }
        ensures { IsSet (page_of self.new) (page_of self.old) place (with_part (page_of self.old place) at part.now) }
    {
        if place < self.near.len() {
            let page = &mut self.near[place];
            page.put(at, part);
        } else {
            self.far.put(place, at, part);
        }
    }

    /// Makes the page at a place store so many bytes at most, as `Pages::cut` does.
    #[inline(always)]
    pub fn cut(&mut self, place: usize, size: usize)
        ensures { IsSet (page_of self.new) (page_of self.old) place (take size (page_of self.old place)) }
    {
        if place < self.near.len() {
            let page = &mut self.near[place];
            page.cut(size);
        } else {
            self.far.cut(place, size);
        }
    }

    /// Takes the far pages at this place and behind it away, as `Pages::cut_far` does.
    pub fn cut_far(&mut self, place: usize)
        ensures cut { (k : ℕ) → length self.new.near ≤ k → place ≤ k → page_of self.new k ≡ [] }
        ensures kept { (k : ℕ) → k < place → page_of self.new k ≡ page_of self.old k }
        ensures near { self.new.near ≡ self.old.near }
    {
        self.far.cut_from(place);
    }

    /// Gives back memory, as `Pages::give_back` does.
    pub fn give_back(&mut self, count: usize, from: usize, end: usize)
        ensures { SameBytes (page_of self.new) (page_of self.old) }
    {
        give_back_from(&mut self.near, from);
        shorten(&mut self.near, &self.far, count);
        self.near.shrink_to_fit();
        self.far.give_back(from, end);
    }

    /// Takes the page out, where there is one alone.
    pub fn take_only(&mut self) -> Option<Page>
        ensures some { IfSome result (λ page. (self.old.near ≡ page ∷ []) × (self.old.far ≡ [])) }
        ensures none { IfNone result (self.new ≡ self.old) }
    {
        if self.near.len() == 1 && self.far.is_empty() {
            self.near.pop()
        } else {
            None
        }
    }
}

/// Gives back what the pages from this place on store of zeros at their ends, as `Pages::give_back` does.
fn give_back_from(pages: &mut Vec<Page>, from: usize)
    ensures as_many { length pages.new.items ≡ length pages.old.items }
    ensures same { SameBytes (λ k. get_or pages.new.items k []) (λ k. get_or pages.old.items k []) }
{
    let mut place = from;
    while place < pages.len() {
        let page = &mut pages[place];
        page.give_back();
        place += 1;
    }
}

/// Takes pages that store nothing off the end of a list, down to so many. No far page is at a place of the list, and all pages that a
/// refused write added store nothing: both are asked here, since no invariant says them.
fn shorten(near: &mut Vec<Page>, far: &FarPages, count: usize)
    ensures { SameBytes (page_of (record { near = near.new.items; far = far.now })) (page_of (record { near = near.old.items; far = far.now })) }
{
    let free = far.free_before(near.len());
    while count < near.len() && near.len() <= free && is_last_empty(near) {
        near.truncate(near.len() - 1);
    }
}

/// Whether the last page of a list stores nothing.
fn is_last_empty(near: &Vec<Page>) -> bool
    ensures { IsTrue result → get_or near.now.items (length near.now.items - 1) [] ≡ [] }
{
    match near.last() {
        Some(page) => page.is_empty(),
        None => false,
    }
}

/// Adds pages up to so many to a list, as `Pages::add` does.
fn add_pages(alloc: Global, pages: &mut Vec<Page>, count: usize) -> Result<(), AllocError>
    ensures same { SameBytes (λ k. get_or pages.new.items k []) (λ k. get_or pages.old.items k []) }
    ensures kept { length pages.old.items ≤ length pages.new.items }
    ensures few { length pages.new.items ≤ max (length pages.old.items) count }
{
    if pages.len() < count {
        pages.reserve(count - pages.len())?;
    }
    while pages.len() < count {
        pages.push(Page::new(alloc))?;
    }
    Ok(())
}
