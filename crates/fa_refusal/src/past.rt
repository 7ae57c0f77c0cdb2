//! What the entries before the one at fault did.

use crate::case::Case;
use crate::earlier::{Earlier, follow};
use crate::finding::Finding;
use crate::history::History;
use crate::refused::Refused;
use fa_tree::{Replay, Tree};
use std::alloc::AllocError;

/// What the entries before the one at fault did to what was found, and when the answer was right.
#[derive(Drop)]
pub struct Past {
    /// What they did to it.
    pub history: History,
    /// Until when the answer was right.
    pub earlier: Earlier,
}

impl Past {
    /// Takes the steps of the entries before the one at fault, from a copy of the first tree: what they did to all that is told of a
    /// request that this tree refuses for this reason. Whether the answer was right before is not tried where the request was not
    /// answered, nor of a listing.
    ///
    /// # Errors
    ///
    /// [`AllocError`] where memory was refused.
    ///
    /// # Cost
    ///
    /// That of the steps, of trying the answer behind 65,536 of them at most, and a copy of the first tree.
    pub fn of(
        refused: &Refused<'_>,
        tree: &Tree,
        case: &Case<'_>,
        finding: &Finding<'_, '_>,
    ) -> Result<Self, AllocError> {
        let mut history = History::new(refused.alloc);
        match note_past(refused, tree, case, finding, &mut history) {
            Ok(earlier) if !history.lacks_memory => Ok(Past { history, earlier }),
            _ => Err(AllocError),
        }
    }
}

/// Asks a history for all that is told, and takes the steps: until when the answer was right.
fn note_past(
    refused: &Refused<'_>,
    tree: &Tree,
    case: &Case<'_>,
    finding: &Finding<'_, '_>,
    history: &mut History,
) -> Result<Earlier, AllocError> {
    finding.ask(history, tree, case);
    let is_tried = case.call.answer.is_some() && !matches!(finding, Finding::Listed(_));
    let mut first = refused.first.copy()?;
    let earlier = past_along(refused, &mut first, case, is_tried, history);
    // It has many tables: they are proved to go in one place.
    drop(first);
    earlier
}

/// The same with the first tree lent, and a history that was asked.
fn past_along(
    refused: &Refused<'_>,
    tree: &mut Tree,
    case: &Case<'_>,
    is_tried: bool,
    history: &mut History,
) -> Result<Earlier, AllocError> {
    let mut replay = Replay::new(refused.alloc, tree.seed(), refused.calls);
    follow(refused, tree, &mut replay, case, is_tried, history)
}
