//! The file handles that are open.

ghost use Rattle.std.specs.Prelude.{◌≡◌, [], ◌<◌, cond, OnOk, OnErr, IfSome, IsTrue, None, Some, is_none};
ghost use Rattle.indexmap.specs.IndexMap.{get, spare, IsUnchanged};
ghost use Rattle.fa_capture.specs.declared.limits.TheConstants.{MAX_MESSAGES};
ghost use Rattle.fa_ledger.specs.declared.handles.Handle.{Handle};
ghost use Rattle.fa_ledger.specs.declared.key.Key.{Key};
ghost use Rattle.fa_ledger.specs.Keys.{key_eq};
ghost use Rattle.fa_ledger.specs.parts.Steps.{opened_again, closed_once, opens_new, IsOpenedBy};

use crate::key::Key;
use bitflags::Flags;
use fa_bodies::{FopenFlags, OpenOut};
use fa_capture::Seed;
use indexmap::IndexMap;
use std::alloc::{AllocError, Global};

/// What is known of a key that is open.
#[derive(Clone, Copy, Debug)]
pub(crate) struct Handle {
    /// How many openings were not closed, more than none.
    pub openings: u32,
    /// The number of the request whose answer opened the key when it last stood at zero.
    pub name: u32,
    /// Whether it stood above one since then.
    pub shared: bool,
    /// Whether an opening since then was for direct input and output.
    pub direct: bool,
}

/// The keys that are open.
#[derive(Drop)]
pub(crate) struct Handles {
    pub opened: IndexMap<Key, Handle, Seed>,
}

impl Handles {
    /// No key is open. The table takes memory from `alloc` later.
    pub fn new(alloc: Global, seed: Seed) -> Self
        ensures { result.opened.entries ≡ [] }
    {
        Handles {
            opened: IndexMap::with_hasher(alloc, seed),
        }
    }

    /// How a key is open, if it is.
    pub fn get(&self, key: &Key) -> Option<Handle>
        ensures { result ≡ get key_eq self.now.opened key.now }
    {
        self.opened.get(key).copied()
    }

    /// Makes room for the key that a success opens, if any, so that it can be noted without memory.
    #[inline(always)]
    pub fn reserve(&mut self, opened: &Option<(Key, OpenOut)>) -> Result<(), AllocError>
        ensures kept { IsUnchanged self.old.opened self.new.opened }
        ensures room { OnOk result (IsTrue (opens_new self.old.opened.entries opened.now) → 0 < spare self.new.opened) }
        ensures wanted { OnErr result (IsTrue (opens_new self.old.opened.entries opened.now)) }
    {
        match opened {
            Some((key, _)) => self.reserve_key(*key),
            None => Ok(()),
        }
    }

    /// Makes room for a key, if it is not open. The key comes by value, so that its caller's need not lie in memory.
    fn reserve_key(&mut self, key: Key) -> Result<(), AllocError>
        ensures kept { IsUnchanged self.old.opened self.new.opened }
        ensures room { OnOk result (IsTrue (is_none (get key_eq self.old.opened key)) → 0 < spare self.new.opened) }
        ensures wanted { OnErr result (IsTrue (is_none (get key_eq self.old.opened key))) }
    {
        if self.get(&key).is_none() {
            self.opened.reserve(1)?;
        }
        Ok(())
    }

    /// Notes the key that the answer to the request of this number opens, if any: whether it opens one that was not open.
    #[inline(always)]
    pub fn note_opened(&mut self, asked: u32, opened: Option<(Key, OpenOut)>) -> bool
        requires room { IsTrue (opens_new self.old.opened.entries opened) → 0 < spare self.old.opened }
        requires few { (key : Key) (handle : Handle) → get key_eq self.old.opened key ≡ Some handle → handle.openings < MAX_MESSAGES }
        ensures anew { result ≡ opens_new self.old.opened.entries opened }
        ensures noted { IsOpenedBy asked opened self.old.opened.entries self.new.opened.entries }
    {
        let Some((key, out)) = opened else {
            return false;
        };
        self.open(key, asked, out.open_flags.contains(FopenFlags::DIRECT_IO))
    }

    /// Opens a key once more, by the answer to the request of this number: whether it was not open.
    fn open(&mut self, key: Key, asked: u32, direct: bool) -> bool
        requires room { get key_eq self.old.opened key ≡ None → 0 < spare self.old.opened }
        requires few { IfSome (get key_eq self.old.opened key) (λ handle. handle.openings < MAX_MESSAGES) }
        ensures anew { result ≡ is_none (get key_eq self.old.opened key) }
        ensures opened { (other : Key) → get key_eq self.new.opened other ≡ cond (key_eq key other) (Some (opened_again asked direct (get key_eq self.old.opened key))) (get key_eq self.old.opened other) }
    {
        let old = self.get(&key);
        let handle = opened_again(old, asked, direct);
        self.opened.insert(key, handle).unwrap();
        old.is_none()
    }

    /// Closes one opening of a key: whether none is left.
    pub fn close(&mut self, key: &Key) -> bool
        requires { IfSome (get key_eq self.old.opened key.now) (λ handle. 0 < handle.openings) }
        ensures gone { result ≡ is_none (closed_once (get key_eq self.old.opened key.now)) }
        ensures closed { (other : Key) → get key_eq self.new.opened other ≡ cond (key_eq key.now other) (closed_once (get key_eq self.old.opened key.now)) (get key_eq self.old.opened other) }
    {
        match closed_once(self.get(key)) {
            Some(handle) => {
                self.opened.insert(*key, handle).unwrap();
                false
            }
            None => {
                self.opened.swap_remove(key);
                true
            }
        }
    }
}

/// A key that the answer to the request of this number opens once more.
fn opened_again(old: Option<Handle>, asked: u32, direct: bool) -> Handle
    requires { IfSome old (λ handle. handle.openings < MAX_MESSAGES) }
    ensures { result ≡ opened_again asked direct old }
{
    match old {
        Some(handle) => Handle {
            openings: handle.openings + 1,
            shared: true,
            direct: handle.direct || direct,
            ..handle
        },
        None => Handle {
            openings: 1,
            name: asked,
            shared: false,
            direct,
        },
    }
}

/// A key of which one opening is closed, if it is still open then.
fn closed_once(old: Option<Handle>) -> Option<Handle>
    requires { IfSome old (λ handle. 0 < handle.openings) }
    ensures { result ≡ closed_once old }
{
    let handle = old?;
    if handle.openings == 1 {
        return None;
    }
    Some(Handle {
        openings: handle.openings - 1,
        ..handle
    })
}
