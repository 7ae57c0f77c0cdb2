//! The pages of a file that are far from its beginning.

ghost use Rattle.std.specs.Prelude.{◌≡◌, ◌↔◌, ◌+◌, ◌<◌, ◌≤◌, ℕ, [], length, take, false, IsTrue, IsSome, IfOk, OnOk};
ghost use Rattle.std.specs.Option.{option_copied, unwrap_or};
ghost use Rattle.fa_store.specs.parts.PageParts.{far_page, has_far, with_part, IsSet, IsGrown, SameBytes};

use crate::page::Page;
use std::alloc::{AllocError, Global};
use std::collections::BTreeMap;
use std::marker::Model;

/// Pages by their places, of which few may be there.
#[derive(Drop)]
pub(crate) struct FarPages {
    pages: BTreeMap<usize, Page>,
}

impl Model for FarPages {
    ghost use Rattle.std.specs.Prelude.{List, ℕ};

    ghost Value = { List (ℕ × List ℕ) };

    ghost view = { λ p. p.pages.entries };
}

impl FarPages {
    /// No pages. Takes no memory.
    pub fn new(alloc: Global) -> Self
        ensures { result ≡ [] }
    {
        FarPages {
            pages: BTreeMap::new(alloc),
        }
    }

    /// The same pages once more. Time and memory in the pages and the bytes that they store.
    pub fn copy(&self) -> Result<Self, AllocError>
        ensures { IfOk result (λ pages. pages ≡ self.now) }
    {
        Ok(FarPages {
            pages: self.pages.clone()?,
        })
    }

    /// The pages, by their places.
    pub fn by_place(&self) -> &BTreeMap<usize, Page>
        ensures { result.now.entries ≡ self.now }
    {
        &self.pages
    }

    /// Whether no page is there.
    pub fn is_empty(&self) -> bool
        ensures { IsTrue result → self.now ≡ [] }
    {
        self.pages.is_empty()
    }

    /// The page at a place, if it is there. Time in the logarithm of the pages that are there.
    pub fn get(&self, place: usize) -> Option<&Page>
        ensures { unwrap_or (option_copied result) [] ≡ far_page self.now place }
    {
        self.pages.get(&place)
    }

    /// How many places from the first on have no page, counted up to so many. Time in the logarithm of the pages that are there.
    pub fn free_before(&self, count: usize) -> usize
        ensures { (k : ℕ) → k < result → far_page self.now k ≡ [] }
    {
        match self.pages.first_key_value() {
            Some((first, _)) => count.min(*first),
            None => count,
        }
    }

    /// Makes the page at a place store so many bytes at least, as `Page::store` does; where it is not there, it is made, and not
    /// before its memory is. An error says that memory was refused, and nothing is changed but, maybe, how the pages that are there
    /// lie in memory.
    pub fn store(&mut self, alloc: Global, place: usize, size: usize) -> Result<(), AllocError>
        requires { size ≤ 4096 }
        ensures grown { IsGrown (far_page self.new) (far_page self.old) place }
        ensures stored { OnOk result (size ≤ length (far_page self.new place)) }
    {
        if let Some(page) = self.pages.get_mut(&place) {
            return page.store(size);
        }
        let mut page = Page::new(alloc);
        page.store(size)?;
        self.pages.insert(place, page)?;
        Ok(())
    }

    /// Puts these bytes at this place of the page at a place, where as many are stored, as `Page::put` does.
    pub fn put(&mut self, place: usize, at: usize, part: &[u8])
        requires { at + length part.now ≤ length (far_page self.old place) }
        ensures { IsSet (far_page self.new) (far_page self.old) place (with_part (far_page self.old place) at part.now) }
    {
        if let Some(page) = self.pages.get_mut(&place) {
            page.put(at, part);
        }
    }

    /// Makes the page at a place store so many bytes at most, as `Page::cut` does.
    pub fn cut(&mut self, place: usize, size: usize)
        ensures { IsSet (far_page self.new) (far_page self.old) place (take size (far_page self.old place)) }
    {
        if let Some(page) = self.pages.get_mut(&place) {
            page.cut(size);
        }
    }

    /// Whether a page is there at this place or behind it.
    fn has_from(&self, place: usize) -> bool
        ensures some { IsTrue result → (k : ℕ) × (place ≤ k) × IsSome (has_far self.now k) }
        ensures none { result ≡ false → (k : ℕ) → place ≤ k → far_page self.now k ≡ [] }
    {
        match self.pages.last_key_value() {
            Some((last, _)) => place <= *last,
            None => false,
        }
    }

    /// Takes the pages at this place and behind it away, and gives back their memory. Takes none. Time in the pages that are taken
    /// away, and a logarithm of those that are there for each.
    pub fn cut_from(&mut self, place: usize)
        ensures cut { (k : ℕ) → place ≤ k → far_page self.new k ≡ [] }
        ensures kept { (k : ℕ) → k < place → far_page self.new k ≡ far_page self.old k }
    {
        while self.has_from(place) {
            self.pages.pop_last();
        }
        if self.pages.is_empty() {
            self.pages.clear();
        }
    }

    /// Gives back what the page at a place stores of zeros at its end, and the page itself, where it stores nothing else: all bytes
    /// are as they were.
    fn give_back_page(&mut self, place: usize)
        ensures { SameBytes (far_page self.new) (far_page self.old) }
    {
        let Some(page) = self.pages.get_mut(&place) else {
            return;
        };
        page.give_back();
        if page.is_empty() {
            self.pages.remove(&place);
        }
    }

    /// Gives back what the pages from one place up to another store of zeros at their ends, and those that store nothing else: all
    /// bytes are as they were. The map may hold nodes that it took meanwhile, but where no page is left. Takes no memory but to move
    /// what a page stores into less of it, and time in the places and in the bytes that their pages store.
    pub fn give_back(&mut self, from: usize, end: usize)
        ensures { SameBytes (far_page self.new) (far_page self.old) }
    {
        for place in from..end {
            self.give_back_page(place);
        }
        if self.pages.is_empty() {
            self.pages.clear();
        }
    }
}
