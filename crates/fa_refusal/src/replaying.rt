//! Steps along the entries of an order.

ghost use Rattle.std.specs.Prelude.{◌<◌, length, IfSome};
ghost use Rattle.fa_ledger.specs.Choices.{Allows};
ghost use Rattle.fa_tree.specs.Steps.{OfCallAt};

use fa_order::Entry;
use fa_tree::{Replay, StepError, Tree};
use std::alloc::AllocError;

/// Takes the steps of entries that an order has before the one at fault. Whether each may be taken.
pub(crate) fn take_steps(
    tree: &mut Tree,
    replay: &mut Replay<'_>,
    entries: &[Entry],
) -> Result<bool, AllocError> {
    for entry in entries {
        if !take_step(tree, replay, *entry)? {
            return Ok(false);
        }
    }
    Ok(true)
}

/// Takes the step of an entry. Whether it may be taken.
pub(crate) fn take_step(
    tree: &mut Tree,
    replay: &mut Replay<'_>,
    entry: Entry,
) -> Result<bool, AllocError> {
    let Some(place) = place_allowed(replay, entry) else {
        return Ok(false);
    };
    match tree.step_in(replay, place, entry.wrote) {
        Ok(()) => Ok(true),
        Err(StepError::Refused(_)) => Ok(false),
        Err(StepError::Memory) => Err(AllocError),
    }
}

/// The place among the calls of the request that an entry names, if the entry may name it as it does.
fn place_allowed(replay: &Replay<'_>, entry: Entry) -> Option<usize>
    ensures there { IfSome result (λ place. place < length replay.now.list) }
    ensures allowed { IfSome result (λ place. OfCallAt replay.now.list place (λ call. Allows call entry.wrote)) }
{
    let calls = replay.calls();
    let Some(place) = calls.find(entry.at) else {
        return None;
    };
    if !calls.list.call(place).allows(entry.wrote) {
        return None;
    }
    Some(place)
}

/// The code with which the tree would refuse the answer to the request at this place among the calls, if it would.
pub(crate) fn refused_by(
    tree: &Tree,
    replay: &mut Replay<'_>,
    place: usize,
) -> Result<Option<u16>, AllocError> {
    if place >= replay.calls().list.len() {
        return Ok(None);
    }
    match tree.would(replay, place) {
        Ok(()) => Ok(None),
        Err(StepError::Refused(code)) => Ok(Some(code)),
        Err(StepError::Memory) => Err(AllocError),
    }
}
