//! Which calls may come next, in the order in which they are tried.

ghost use Rattle.std.specs.Prelude.{◌≡◌, ◌∷◌, ◌++◌, [], List, AllPairs, IfOk, IfSome, OnOk};
ghost use Rattle.fa_capture.specs.Message.{Message};
ghost use Rattle.fa_ledger.specs.Calls.{call_shown};
ghost use Rattle.fa_ledger.specs.declared.calls.Calls.{Calls as TheCalls};
ghost use Rattle.fa_tree.specs.State.{TreeState};
ghost use Rattle.fa_order.specs.declared.entry.Entry.{Entry as TheEntry};
ghost use Rattle.fa_check.specs.Verdicts.{AreMessagesOf};
ghost use Rattle.fa_check.specs.Replays.{IsPlacing, IsReplayed, IsFront};
ghost use Rattle.fa_propose.specs.Proposals as proposals;
ghost use Rattle.fa_propose.specs.parts.Ready.{IsReady, AreAllSeen, IsOffered, MayEachComeNext, IsTriedSo, IsFirstRefused, IsGoneOnSo, IsRankedBefore};

use crate::candidates::Candidates;
use crate::proposing::MAX_TRIED;
use crate::rank::Rank;
use fa_check::Placing;
use fa_ledger::{Action, Call, Calls, Operation, Outcome};
use fa_order::Entry;
use fa_tree::{Replay, StepError, Tree};
use std::alloc::{AllocError, Global};

/// The entries that may come next.
#[derive(Drop)]
pub(crate) struct Ready {
    candidates: Candidates,
    /// How many calls of the list were looked at.
    seen: usize,
}

impl Ready {
    /// None, before the first call is looked at.
    pub fn new(alloc: Global) -> Self
        ensures { (c : List Message) (calls : TheCalls) → IsReady c calls.list [] result.seen result.candidates }
    {
        Ready {
            candidates: Candidates::new(alloc),
            seen: 0,
        }
    }

    /// Takes in the calls that were sent up to the front of the order so far.
    pub fn admit(&mut self, calls: &Calls<'_>, front: usize) -> Result<(), AllocError>
        ensures { OnOk result ((c : List Message) (es : List TheEntry) → AreMessagesOf calls.now c → IsFront c es front
            → IsReady c calls.now.list es self.old.seen self.old.candidates
            → IsReady c calls.now.list es self.new.seen self.new.candidates
            × AreAllSeen c calls.now.list es self.new.seen) }
    {
        while self.seen < calls.list.len() {
            let call = calls.list.call(self.seen);
            if front < call.asked as usize {
                break;
            }
            self.offer(&call)?;
            self.seen += 1;
        }
        Ok(())
    }

    /// Takes in a call, if an order may name it.
    fn offer(&mut self, call: &Call<'_>) -> Result<(), AllocError>
        ensures offered { OnOk result (IsOffered (call_shown call.now) self.old.candidates self.new.candidates) }
        ensures seen { self.new.seen ≡ self.old.seen }
    {
        let entry = entry_of(call);
        if call.allows(entry.wrote) {
            self.candidates.insert(Rank::of(call), entry)?;
        }
        Ok(())
    }

    /// Places the first entry that has a step, of those that are tried: the entry, or none where none has one.
    pub fn place_next(
        &mut self,
        replay: &mut Replay<'_>,
        tree: &mut Tree,
        placing: &mut Placing,
    ) -> Result<Option<Entry>, AllocError>
        requires { IsPlacing replay.old.list replay.old.messages placing.old }
        ensures replayed { IfOk result (λ next. (first : TreeState) (es : List TheEntry) → IsReplayed replay.old first tree.old es placing.old
            → IfSome next (λ entry. IsReplayed replay.old first tree.new (es ++ entry ∷ []) placing.new)) }
        ensures next { IfOk result (λ next. (c : List Message) (first : TreeState) (es : List TheEntry) → AreMessagesOf replay.old c
            → IsReplayed replay.old first tree.old es placing.old
            → IsReady c replay.old.list es self.old.seen self.old.candidates
            → AreAllSeen c replay.old.list es self.old.seen
            → IsGoneOnSo c replay.old.list tree.old tree.new es self.new.seen self.new.candidates next) }
        ensures same { replay.new ≡ replay.old }
    {
        let Some((rank, entry)) = place_first(&self.candidates, replay, tree, placing)? else {
            return Ok(None);
        };
        self.candidates.remove(rank);
        Ok(Some(entry))
    }
}

/// Places the first of these entries that has a step, of as many as are tried, with its rank.
fn place_first(
    candidates: &Candidates,
    replay: &mut Replay<'_>,
    tree: &mut Tree,
    placing: &mut Placing,
) -> Result<Option<(Rank, Entry)>, AllocError>
    requires { IsPlacing replay.old.list replay.old.messages placing.old }
    ensures replayed { IfOk result (λ found. (first : TreeState) (es : List TheEntry) → IsReplayed replay.old first tree.old es placing.old
        → IfSome found (λ found. IsReplayed replay.old first tree.new (es ++ found.1 ∷ []) placing.new)) }
    ensures tried { IfOk result (λ found. (c : List Message) (first : TreeState) (es : List TheEntry) → AreMessagesOf replay.old c
        → IsReplayed replay.old first tree.old es placing.old → MayEachComeNext c es candidates.now
        → IsTriedSo c tree.old tree.new candidates.now found) }
    ensures ordered { AllPairs IsRankedBefore candidates.now }
    ensures same { replay.new ≡ replay.old }
{
    let Some((rank, entry)) = candidates.first() else {
        return Ok(None);
    };
    match placing.place_in(replay, tree, entry) {
        Ok(()) => Ok(Some((rank, entry))),
        Err(StepError::Refused(_)) => place_other(candidates, replay, tree, placing),
        Err(StepError::Memory) => Err(AllocError),
    }
}

/// The same where the first of all was refused.
fn place_other(
    candidates: &Candidates,
    replay: &mut Replay<'_>,
    tree: &mut Tree,
    placing: &mut Placing,
) -> Result<Option<(Rank, Entry)>, AllocError>
    requires placing { IsPlacing replay.old.list replay.old.messages placing.old }
    requires refused { IsFirstRefused replay.old tree.old placing.old candidates.now }
    ensures replayed { IfOk result (λ found. (first : TreeState) (es : List TheEntry) → IsReplayed replay.old first tree.old es placing.old
        → IfSome found (λ found. IsReplayed replay.old first tree.new (es ++ found.1 ∷ []) placing.new)) }
    ensures tried { IfOk result (λ found. (c : List Message) (first : TreeState) (es : List TheEntry) → AreMessagesOf replay.old c
        → IsReplayed replay.old first tree.old es placing.old → MayEachComeNext c es candidates.now
        → IsTriedSo c tree.old tree.new candidates.now found) }
    ensures same { replay.new ≡ replay.old }
{
    let others = candidates.others();
    if others.is_empty() {
        return Ok(None);
    }
    for (rank, entry) in others.iter().take(MAX_TRIED - 1) {
        match placing.place_in(replay, tree, *entry) {
            Ok(()) => return Ok(Some((*rank, *entry))),
            Err(StepError::Refused(_)) => {}
            Err(StepError::Memory) => return Err(AllocError),
        }
    }
    Ok(None)
}

/// The entry that proposes a call.
fn entry_of(call: &Call<'_>) -> Entry
    ensures { result ≡ proposals.entry_of (call_shown call.now) }
{
    Entry {
        at: call.asked,
        wrote: count_proposed(call),
    }
}

/// The count of bytes that is proposed for a call: all of a WRITE without an answer.
fn count_proposed(call: &Call<'_>) -> Option<u32>
    ensures { result ≡ proposals.count_proposed (call_shown call.now).operation }
{
    // The messages of an answered call are not read for it.
    if call.is_answered() {
        return None;
    }
    match call.operation() {
        Operation::Act(
            Action::Write {
                size,
                outcome: Outcome::Unanswered,
                ..
            },
        ) => Some(size),
        _ => None,
    }
}
