//! Whether an answer was right at an earlier moment of an order.

use crate::case::Case;
use crate::history::History;
use crate::refused::Refused;
use crate::replaying::{refused_by, take_step};
use fa_ledger::{Action, Operation};
use fa_order::Entry;
use fa_tree::{Replay, Tree};
use std::alloc::AllocError;

/// So many moments are tried at most.
const MOST_TRIES: u32 = 65_536;

/// Whether an answer was right before entries that come before its request.
#[derive(Clone, Copy, PartialEq, Eq)]
pub enum Earlier {
    /// Until the step of the request of this message number.
    Until(u32),
    /// At no moment.
    Never,
    /// It is not tried, or there are too many moments.
    Unknown,
}

/// A request whose answer is tried along the entries of an order.
#[derive(Clone, Copy)]
struct Trial {
    place: usize,
    /// Whether it is tried at all.
    is_tried: bool,
    was_right: bool,
    until: Option<u32>,
    tries: u32,
    /// Whether there were more moments than are tried.
    is_over: bool,
}

impl Trial {
    /// Takes the step of an entry, notes in a history what it changes, and tries the answer behind it if that may be another then: whether
    /// the step may be taken.
    fn follow(
        &mut self,
        refused: &Refused<'_>,
        tree: &mut Tree,
        replay: &mut Replay<'_>,
        entry: Entry,
        history: &mut History,
    ) -> Result<bool, AllocError> {
        let Some(step) = Case::of(refused.calls, entry.at) else {
            return Ok(false);
        };
        let before = history.before(tree, &step);
        if !take_step(tree, replay, entry)? {
            return Ok(false);
        }
        history.after(tree, &step, &before, entry.wrote);
        if self.is_tried && may_change(&step) {
            self.step(tree, replay, entry.at)?;
        }
        Ok(true)
    }

    /// Tries the answer behind the step of a request.
    fn step(&mut self, tree: &Tree, replay: &mut Replay<'_>, asked: u32) -> Result<(), AllocError> {
        if self.tries >= MOST_TRIES {
            self.is_over = true;
            return Ok(());
        }
        self.tries = self.tries.saturating_add(1);
        let is_right = refused_by(tree, replay, self.place)?.is_none();
        if self.was_right && !is_right {
            self.until = Some(asked);
        }
        self.was_right = is_right;
        Ok(())
    }

    /// What came of it.
    fn outcome(&self) -> Earlier {
        if !self.is_tried || self.is_over {
            return Earlier::Unknown;
        }
        match self.until {
            Some(asked) => Earlier::Until(asked),
            None => Earlier::Never,
        }
    }
}

/// Takes the steps of the entries before the one at fault, notes in a history what they change, and tries the answer to a request
/// behind each that changes something, if it is to be tried.
pub(crate) fn follow(
    refused: &Refused<'_>,
    tree: &mut Tree,
    replay: &mut Replay<'_>,
    case: &Case<'_>,
    is_tried: bool,
    history: &mut History,
) -> Result<Earlier, AllocError> {
    let mut trial = Trial {
        place: case.place,
        is_tried,
        was_right: false,
        until: None,
        tries: 0,
        is_over: false,
    };
    if is_tried {
        trial.was_right = refused_by(tree, replay, case.place)?.is_none();
    }
    for entry in refused.before {
        if !trial.follow(refused, tree, replay, *entry, history)? {
            break;
        }
    }
    Ok(trial.outcome())
}

/// Whether the step of a request may change what a tree answers: it changes files or names, opens a directory, or gives nodes.
fn may_change(case: &Case<'_>) -> bool {
    let opens_directory = matches!(&case.operation, Operation::Act(Action::Opendir { .. }));
    if opens_directory || !case.operation.keeps_tree() {
        return true;
    }
    match &case.call.answer {
        Some(answer) => !answer.given.names().is_empty(),
        None => false,
    }
}
