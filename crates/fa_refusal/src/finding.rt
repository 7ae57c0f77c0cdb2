//! Why a tree refuses a step, and what is to be known of its history then.

use crate::attributes::{OtherAttributes, other_attributes};
use crate::bindings::{Binding, other_binding};
use crate::case::{Case, NamedPlace};
use crate::contents::{Reading, reading_of};
use crate::history::History;
use crate::listings::{Listing, listing_of};
use crate::refused::Refused;
use crate::unmet::{Unmet, first_unmet};
use fa_capture::codes;
use fa_ledger::Outcome;
use fa_tree::{FileId, Tree};
use std::alloc::AllocError;

/// Why a tree refuses a step, by its code.
#[derive(Drop)]
pub enum Finding<'a, 't> {
    /// The success is not allowed, 81: the first part of what it needs that does not hold, if one is known.
    NotAllowed(Option<Unmet<'a>>),
    /// The error has no cause, 82: its number.
    WithoutCause(i32),
    /// The attributes are not those of the file, 83.
    Attributes(OtherAttributes<'a>),
    /// The node is given for another file, 84.
    Given(Binding<'a>),
    /// The bytes are not those of the file, 85.
    Read(Reading<'a>),
    /// The listing is not that of the directory, 86.
    Listed(Listing<'a, 't>),
}

impl<'a, 't> Finding<'a, 't> {
    /// Why this tree refuses the step of a request with this code. None where it does not.
    ///
    /// # Errors
    ///
    /// [`AllocError`] where memory was refused.
    ///
    /// # Cost
    ///
    /// Time in what the request names and in what its answer says: of a listing in all answers from which it goes on, and in the names
    /// of the directory. Memory for the names of a listing.
    pub fn of(
        refused: &Refused<'a>,
        tree: &'t Tree,
        case: &Case<'a>,
        code: u16,
    ) -> Result<Option<Self>, AllocError> {
        Ok(match code {
            codes::SUCCESS_NOT_ALLOWED => Some(Finding::NotAllowed(first_unmet(tree, case))),
            codes::ERROR_WITHOUT_CAUSE => match case.operation.ended() {
                Outcome::Fails(error) => Some(Finding::WithoutCause(error)),
                _ => None,
            },
            codes::ATTRIBUTES => match other_attributes(tree, case) {
                Some(other) => Some(Finding::Attributes(other)),
                None => None,
            },
            codes::NODE_ID_OF_ANOTHER => {
                match other_binding(refused.alloc, tree, case)? {
                    Some(binding) => Some(Finding::Given(binding)),
                    None => None,
                }
            }
            codes::BYTES_READ => match reading_of(tree, case) {
                Some(reading) => Some(Finding::Read(reading)),
                None => None,
            },
            codes::LISTING => listed(refused, tree, case)?,
            _ => None,
        })
    }

    /// Its code.
    pub fn code(&self) -> u16 {
        match self {
            Finding::NotAllowed(_) => codes::SUCCESS_NOT_ALLOWED,
            Finding::WithoutCause(_) => codes::ERROR_WITHOUT_CAUSE,
            Finding::Attributes(_) => codes::ATTRIBUTES,
            Finding::Given(_) => codes::NODE_ID_OF_ANOTHER,
            Finding::Read(_) => codes::BYTES_READ,
            Finding::Listed(_) => codes::LISTING,
        }
    }

    /// Asks a history for all that is told of a request that this tree refuses.
    pub(crate) fn ask(&self, history: &mut History, tree: &Tree, case: &Case<'_>) {
        ask_for(history, case.node_in(tree));
        ask_for(history, case.other_in(tree));
        ask_for_name(history, tree, case.first_place());
        ask_for_name(history, tree, case.second_place());
        match self {
            Finding::NotAllowed(_) | Finding::WithoutCause(_) => {}
            Finding::Attributes(other) => match other {
                OtherAttributes::Told { .. } => {}
                OtherAttributes::Listed(listed) => history.ask_for_file(listed.file),
            },
            Finding::Given(binding) => {
                history.ask_for_node(binding.node, binding.file);
                history.ask_for_file(binding.other);
                ask_for(history, binding.file);
            }
            Finding::Read(reading) => history.ask_for_byte(reading.byte_place(tree)),
            Finding::Listed(listing) => listing.ask(history, tree),
        }
    }
}

/// What is wrong with the listing that answers a request.
fn listed<'a, 't>(
    refused: &Refused<'a>,
    tree: &'t Tree,
    case: &Case<'a>,
) -> Result<Option<Finding<'a, 't>>, AllocError> {
    let Some(opened) = case.opened_in(tree) else {
        return Ok(None);
    };
    let listing = listing_of(refused.alloc, refused.calls, tree, &opened, case)?;
    Ok(Some(Finding::Listed(listing)))
}

/// Asks for a file, if there is one.
fn ask_for(history: &mut History, file: Option<FileId>) {
    if let Some(file) = file {
        history.ask_for_file(file);
    }
}

/// Asks for a place, and for the file that has its name.
fn ask_for_name(history: &mut History, tree: &Tree, place: Option<NamedPlace<'_>>) {
    let Some(place) = place else {
        return;
    };
    let Some(directory) = tree.file_of(&place.node) else {
        return;
    };
    history.ask_for_place(directory, place.name);
    ask_for(history, tree.find(directory, place.name));
}
