//! Nodes that are given for another file: code 84.

use crate::case::Case;
use crate::listings::gives_node;
use fa_bodies::Entries;
use fa_capture::Seed;
use fa_ledger::{Action, List, NodeName, Operation, Outcome};
use fa_tree::{FileId, Tree};
use indexmap::IndexMap;
use std::alloc::{AllocError, Global};

/// A node that is given for one file and stands for another.
#[derive(Clone, Copy)]
pub struct Binding<'c> {
    /// The node.
    pub node: NodeName,
    /// The file that it stands for.
    pub other: FileId,
    /// The file for which it is given, if this is there before the request.
    pub file: Option<FileId>,
    /// The name of the file for which it is given.
    pub name: &'c [u8],
}

/// The first node that the answer to a request gives for another file than it stands for.
pub(crate) fn other_binding<'c>(
    alloc: Global,
    tree: &Tree,
    case: &Case<'c>,
) -> Result<Option<Binding<'c>>, AllocError> {
    match &case.operation {
        Operation::List(list) => other_listed(alloc, tree, case, list),
        Operation::Act(action) => Ok(given_by_action(tree, case, action)),
    }
}

/// The node that the answer to an action gives.
fn given_by_action<'c>(tree: &Tree, case: &Case<'c>, action: &Action<'_>) -> Option<Binding<'c>> {
    let (Some(node), Some(place)) = (node_given(case, 0), case.first_place()) else {
        return None;
    };
    let file = match action {
        Action::Link { .. } => case.other_in(tree),
        _ => case.named_in(tree),
    };
    match tree.file_of(&node) {
        Some(other) => Some(Binding {
            node,
            other,
            file,
            name: place.name,
        }),
        None => None,
    }
}

/// The first node of a listing that is given for another file.
fn other_listed<'c>(
    alloc: Global,
    tree: &Tree,
    case: &Case<'c>,
    list: &List<'c>,
) -> Result<Option<Binding<'c>>, AllocError> {
    let Outcome::Succeeds(entries) = &list.outcome else {
        return Ok(None);
    };
    let Some(directory) = directory_listed(tree, case) else {
        return Ok(None);
    };
    let mut fresh = IndexMap::with_hasher(alloc, tree.seed());
    other_among(tree, case, directory, *entries, &mut fresh)
}

/// The first of these entries that is given a node for another file, where the entries before it gave nodes for these files.
fn other_among<'c>(
    tree: &Tree,
    case: &Case<'_>,
    directory: FileId,
    entries: Entries<'c>,
    fresh: &mut IndexMap<NodeName, FileId, Seed>,
) -> Result<Option<Binding<'c>>, AllocError> {
    let mut given: usize = 0;
    for dirent in entries {
        if !gives_node(&dirent) {
            continue;
        }
        let node = node_given(case, given);
        given = given.saturating_add(1);
        let (Some(node), Some(file)) = (node, tree.find(directory, dirent.name)) else {
            continue;
        };
        let other = stands_for(tree, fresh, &node).unwrap_or(file);
        if other != file {
            return Ok(Some(Binding {
                node,
                other,
                file: Some(file),
                name: dirent.name,
            }));
        }
        fresh.insert(node, file)?;
    }
    Ok(None)
}

/// The directory that a request lists.
pub(crate) fn directory_listed(tree: &Tree, case: &Case<'_>) -> Option<FileId> {
    match case.opened_in(tree) {
        Some(opened) => Some(opened.directory()),
        None => None,
    }
}

/// The node at this place of those that an answer gives.
fn node_given(case: &Case<'_>, place: usize) -> Option<NodeName> {
    match &case.call.answer {
        Some(answer) => answer.given.names().get(place).copied(),
        None => None,
    }
}

/// The file that a node stands for, or was given for by an entry before.
fn stands_for(
    tree: &Tree,
    fresh: &IndexMap<NodeName, FileId, Seed>,
    node: &NodeName,
) -> Option<FileId> {
    match tree.file_of(node) {
        Some(file) => Some(file),
        None => fresh.get(node).copied(),
    }
}
