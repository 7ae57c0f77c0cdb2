//! The tree to which the entries before one lead, and the request that it refuses.

use crate::case::Case;
use crate::refused::Refused;
use crate::replaying::{refused_by, take_steps};
use fa_capture::codes;
use fa_tree::{Replay, Tree};
use std::alloc::AllocError;

/// A request, as the tree judges it to which the entries before one lead.
#[derive(Clone, Copy)]
pub struct Reached<'a> {
    /// The request of the entry at fault, or that of the first answer that the order leaves out.
    pub case: Case<'a>,
    /// The code with which the tree refuses it as the next entry. None where it would fit.
    pub code: Option<u16>,
}

impl<'a> Refused<'a> {
    /// Takes the steps of the entries before the one at fault, from a tree that is as the first one and becomes the one that they lead
    /// to: the request that it judges then. None where they lead to no tree, or where there is no such request: the fault is not that of
    /// the order then.
    ///
    /// # Errors
    ///
    /// [`AllocError`] where memory was refused.
    ///
    /// # Cost
    ///
    /// That of the steps, and where an answer is left out of a walk over the calls.
    pub fn reach(&self, tree: &mut Tree) -> Result<Option<Reached<'a>>, AllocError> {
        let mut replay = Replay::new(self.alloc, tree.seed(), self.calls);
        self.reach_along(tree, &mut replay)
    }

    /// The same with what was listed so far lent, which is nothing.
    fn reach_along(
        &self,
        tree: &mut Tree,
        replay: &mut Replay<'_>,
    ) -> Result<Option<Reached<'a>>, AllocError> {
        if take_steps(tree, replay, self.before)? {
            self.judged(tree, replay)
        } else {
            Ok(None)
        }
    }

    /// The request of which is told, as this tree judges it.
    fn judged(
        &self,
        tree: &Tree,
        replay: &mut Replay<'_>,
    ) -> Result<Option<Reached<'a>>, AllocError> {
        let Some(case) = self.case() else {
            return Ok(None);
        };
        let code = if self.code == codes::ANSWERED_LEFT_OUT {
            refused_by(tree, replay, case.place)?
        } else {
            Some(self.code)
        };
        Ok(Some(Reached { case, code }))
    }

    /// The request of the entry, or of the first answer that is left out.
    fn case(&self) -> Option<Case<'a>> {
        if self.code == codes::ANSWERED_LEFT_OUT {
            let (case, _) = self.placed.first_left(self.calls)?;
            Some(case)
        } else {
            Case::of(self.calls, self.at)
        }
    }
}
