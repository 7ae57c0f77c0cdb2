//! The calls of a capture while steps are taken along them, with what was listed so far.

ghost use Rattle.std.specs.Prelude.{◌≡◌, ◌++◌, ◌<◌, length, take, slice_get, Some, IfOk, IfSome, IsTrue};
ghost use Rattle.fa_bodies.specs.Listing.{entries_left};
ghost use Rattle.fa_ledger.specs.declared.calls.Calls.{Calls as TheCalls};
ghost use Rattle.fa_ledger.specs.Calls.{call_shown};
ghost use Rattle.fa_ledger.specs.SoFar.{before_of, entries_answered, listing_so_far};
ghost use Rattle.fa_tree.specs.Directories.{times_listed};
ghost use Rattle.fa_tree.specs.parts.ReplayParts.{IsTallyAt, IsKeptAt, IsKept};
ghost use Rattle.fa_tree.specs.parts.TallyParts.{Tallies, ListsAt};

use crate::kept::{Kept, KeptListing};
use crate::so_far::{before, note_all, note_answered, note_so_far};
use crate::tally::Tally;
use fa_bodies::Entries;
use fa_capture::Seed;
use fa_ledger::{Call, Calls};
use std::alloc::{AllocError, Global};
use std::marker::Model;

/// The calls of a capture, for steps that are taken along them, one after the other ([`Tree::step_in`](crate::Tree::step_in)).
/// What was listed so far is kept from one step to the next, so that the names of each answer of a listing that goes straight on
/// are noted once, where there is room. Nothing that is kept shows in what a step answers: to its callers a `Replay` is its calls.
///
/// It takes memory for names of listings that did not reach their end: in all for as many as the tree has or had places when one was
/// kept last, and some thousands more, however many directories are opened and listed in part.
#[derive(Drop)]
pub struct Replay<'c> {
    calls: &'c Calls<'c>,
    /// What was listed so far, for the handles that are being listed.
    so_far: Kept<'c>,
    alloc: Global,
    seed: Seed,
}

impl<'c> Model for Replay<'c> {
    ghost use Rattle.fa_ledger.specs.declared.calls.Calls.{Calls};

    ghost Value = { Calls };

    ghost use Rattle.fa_tree.specs.parts.ReplayParts.{calls_of, AreKept};

    ghost view = { calls_of };

    ghost invariant = { AreKept };
}

impl<'c> Replay<'c> {
    /// The calls, before any step. What is kept later takes memory from `alloc`, and its tables are hashed with the seed.
    ///
    /// Takes no memory, in constant time.
    pub fn new(alloc: Global, seed: Seed, calls: &'c Calls<'c>) -> Self
        ensures { result ≡ calls.now }
    {
        Replay {
            calls,
            so_far: Kept::new(alloc, seed),
            alloc,
            seed,
        }
    }

    /// The calls.
    ///
    /// Takes no memory, in constant time.
    pub fn calls(&self) -> &'c Calls<'c>
        ensures { result.now ≡ self.now }
    {
        self.calls
    }

    /// What was listed so far for the call at this place, and then by its answer, whose entries these are. What is kept for its
    /// handle is taken away for it, where it goes on from another; `keep` puts it back. An error says that memory was refused, and
    /// nothing is kept for the handle then.
    ///
    /// Constant time where that is what is kept. Else expected time and memory in the names of these entries; where what is kept is that
    /// of the call that it goes on from, or of one that goes on from the same, time in the names of that one's answer too, and
    /// logarithmic in the calls; elsewhere as [`note_so_far`](crate::so_far::note_so_far) too.
    pub(crate) fn take(
        &mut self,
        k: usize,
        entries: Entries<'c>,
    ) -> Result<KeptListing<'c>, AllocError>
        requires { ListsAt self.old.list k (entries_left entries) }
        ensures told { IfOk result (λ listing. IsKeptAt self.old k (entries_left entries.entry) listing) }
        ensures same { self.new ≡ self.old }
    {
        let alloc = self.alloc;
        let seed = self.seed;
        let calls = self.calls;
        match self.take_kept(&calls.list.call(k)) {
            Some(kept) => take_on(alloc, seed, calls, kept, k, entries),
            None => note_answer(tally_anew(alloc, seed, calls, k)?, k, entries),
        }
    }

    /// Keeps a listing, if there is room for so many names in all: one that goes on from another call in the place of all that are
    /// kept, if need be; one that begins where nothing has to go for it. Where memory is refused it is not kept.
    ///
    /// Takes memory and time as [`Kept::put`].
    pub(crate) fn keep(&mut self, listing: KeptListing<'c>, room: usize)
        requires { IsKept self.old listing }
        ensures same { self.new ≡ self.old }
    {
        let calls = self.calls;
        let at = listing.at;
        let call = calls.list.call(at);
        if let Some(handle) = call.handle {
            if asked_before(&call).is_some() {
                self.so_far.put(handle, listing, room);
            } else {
                self.so_far.put_beside(handle, listing, room);
            }
        }
    }

    /// Takes away what is kept for the handle of a call, if the call goes on from another.
    ///
    /// Takes no memory, in constant time.
    fn take_kept(&mut self, call: &Call<'_>) -> Option<KeptListing<'c>>
        ensures told { IfSome result (IsKept self.old) }
        ensures same { self.new ≡ self.old }
    {
        let handle = handle_gone_on(call)?;
        self.so_far.take(handle)
    }
}

/// The handle of a call that goes on from another. One that begins a listing needs nothing that is kept.
fn handle_gone_on(call: &Call<'_>) -> Option<u32> {
    call.listing?.before?;
    call.handle
}

/// What a call goes on from: the number of a request, and how many entries of its answer count.
fn asked_before(call: &Call<'_>) -> Option<(u32, u32)>
    ensures { result ≡ before_of (call_shown call.now) }
{
    call.listing?.before
}

/// Whether two calls go on from the same.
fn go_on_alike(call: &Call<'_>, other: &Call<'_>) -> bool
    ensures { IsTrue result → before_of (call_shown call.now) ≡ before_of (call_shown other.now) }
{
    asked_before(call) == asked_before(other)
}

/// What was listed so far for the call at this place, gone through from the call back.
fn tally_anew<'c>(
    alloc: Global,
    seed: Seed,
    calls: &'c Calls<'c>,
    k: usize,
) -> Result<Tally<'c>, AllocError>
    requires { k < length calls.now.list }
    ensures { IfOk result (IsTallyAt calls.now k) }
{
    let mut tally = Tally::new(alloc, seed);
    note_so_far(&mut tally, calls, k)?;
    Ok(tally)
}

/// What was listed so far for a call that goes on from this one, where so many entries of this one's answer count. An error says that
/// memory was refused.
///
/// Takes no memory and constant time where all count. Else expected time in this one's answer.
fn note_first<'c>(
    kept: KeptListing<'c>,
    call: &Call<'c>,
    count: u32,
) -> Result<Tally<'c>, AllocError>
    ensures { IfOk result (λ tally. (calls : TheCalls) → IsKept calls kept.entry → slice_get calls.list kept.entry.at ≡ Some (call_shown call.now) → Tallies tally (λ name. times_listed name (listing_so_far calls.list kept.entry.at ++ take count (entries_answered (call_shown call.now).operation)))) }
{
    if count as usize >= kept.count {
        return Ok(kept.tally);
    }
    let mut tally = kept.without_answer();
    note_answered(&mut tally, call, count)?;
    Ok(tally)
}

/// What was listed so far for the call at this place, after what is kept of another one.
fn go_on<'c>(
    alloc: Global,
    seed: Seed,
    calls: &'c Calls<'c>,
    kept: KeptListing<'c>,
    k: usize,
) -> Result<Tally<'c>, AllocError>
    requires there { k < length calls.now.list }
    requires told { IsKept calls.now kept }
    ensures { IfOk result (IsTallyAt calls.now k) }
{
    let at = kept.at;
    let call = calls.list.call(k);
    let last = calls.list.call(at);
    if go_on_alike(&call, &last) {
        return Ok(kept.without_answer());
    }
    match before(calls, &call) {
        Some((earlier, count)) => {
            if earlier == at {
                note_first(kept, &last, count)
            } else {
                tally_anew(alloc, seed, calls, k)
            }
        }
        None => tally_anew(alloc, seed, calls, k),
    }
}

/// What was listed so far for the call at this place, and then by its answer, whose entries these are, after what is kept of a call on
/// its handle.
fn take_on<'c>(
    alloc: Global,
    seed: Seed,
    calls: &'c Calls<'c>,
    kept: KeptListing<'c>,
    k: usize,
    entries: Entries<'c>,
) -> Result<KeptListing<'c>, AllocError>
    requires kept { IsKept calls.now kept }
    requires answer { ListsAt calls.now.list k (entries_left entries) }
    ensures { IfOk result (λ listing. IsKeptAt calls.now k (entries_left entries.entry) listing) }
{
    let at = kept.at;
    if at == k {
        return Ok(kept);
    }
    note_answer(go_on(alloc, seed, calls, kept, k)?, k, entries)
}

/// What was listed so far for the call at this place, and then by its answer, whose entries these are.
fn note_answer<'c>(
    so_far: Tally<'c>,
    k: usize,
    entries: Entries<'c>,
) -> Result<KeptListing<'c>, AllocError>
    ensures { IfOk result (λ listing. (calls : TheCalls) → ListsAt calls.list k (entries_left entries.entry) → IsTallyAt calls k so_far.entry → IsKeptAt calls k (entries_left entries.entry) listing) }
{
    let mut tally = so_far;
    let before = tally.reach();
    let count = note_all(&mut tally, entries)?;
    tally.give_back();
    Ok(KeptListing {
        at: k,
        tally,
        before,
        count,
    })
}
