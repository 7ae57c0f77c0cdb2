//! What a tree holds: names, nodes and files.

use crate::scene::Scene;
use crate::wording::{self, node_number};
use fa_ledger::NodeName;
use fa_refusal::NamedPlace;
use fa_show::Text;
use fa_tree::{FileFacts, FileId, Kind};
use std::alloc::AllocError;

/// A target has at most so many bytes.
const MOST_TARGET: u64 = 65_536;

/// Writes the lines of the nodes and names of the request: what each of them is. A directory is told by the lines of its names,
/// unless it is none or has no name itself.
pub(crate) fn tree_lines(text: &mut Text, scene: &Scene<'_>) {
    node_lines(text, scene);
    name_lines(text, scene);
}

/// Writes the lines of the nodes that are told by no name.
pub(crate) fn node_lines(text: &mut Text, scene: &Scene<'_>) {
    let node = scene.case.call.node;
    if !is_told_by_name(scene, scene.case.first_place()) {
        tree_node(text, scene, node);
    }
    match scene.case.call.other {
        Some(other) if other != node && !is_told_by_name(scene, scene.case.second_place()) => {
            tree_node(text, scene, other)
        }
        _ => {}
    }
}

/// Writes the lines of names in directories that are told by them.
fn name_lines(text: &mut Text, scene: &Scene<'_>) {
    name_line(text, scene, scene.case.first_place());
    name_line(text, scene, scene.case.second_place());
}

/// Writes the line of a name, if there is one, in a directory that is told by it.
fn name_line(text: &mut Text, scene: &Scene<'_>, place: Option<NamedPlace<'_>>) {
    if let Some(named) = &place {
        if is_told_by_name(scene, place) {
            tree_name(text, scene, named);
        }
    }
}

/// Whether the directory of a name of the request is told by the line of that name: it is a directory, and has a name itself. Not where
/// there is no name.
fn is_told_by_name(scene: &Scene<'_>, place: Option<NamedPlace<'_>>) -> bool {
    let Some(place) = place else {
        return false;
    };
    match scene.tree.file_of(&place.node) {
        Some(file) => scene.is_of(file, Kind::Directory) && scene.tree.is_linked(file),
        None => false,
    }
}

/// Writes the line of a node.
pub(crate) fn tree_node(text: &mut Text, scene: &Scene<'_>, node: NodeName) {
    let Some(file) = scene.tree.file_of(&node) else {
        return;
    };
    text.field("tree     node ", node_number(&node));
    text.word(" is ");
    place(text, scene, file);
    text.word(": ");
    facts(text, scene, file);
    if file != scene.tree.root() {
        text.word(", ");
        changes(text, scene, file);
    }
    text.end_line();
}

/// Writes the line of a name: what it is, or since when it is not there.
pub(crate) fn tree_name(text: &mut Text, scene: &Scene<'_>, named: &NamedPlace<'_>) {
    let Some(directory) = scene.tree.file_of(&named.node) else {
        return;
    };
    text.word("tree     ");
    text.name(named.name);
    text.word(" in ");
    place(text, scene, directory);
    text.field(" (node ", node_number(&named.node));
    text.word(") is ");
    match scene.tree.find(directory, named.name) {
        Some(file) => {
            facts_and_changes(text, scene, file);
            named_by(text, scene, directory, named.name, file);
        }
        None => not_there(text, scene, directory, named.name),
    }
    text.end_line();
}

/// Writes which request named a file so, if it is not the one that made it.
fn named_by(text: &mut Text, scene: &Scene<'_>, directory: FileId, name: &[u8], file: FileId) {
    let Some(place) = scene.history.place(directory, name) else {
        return;
    };
    if let Some(asked) = place.named_by {
        if file != FileId::Made(asked) {
            wording::request(text, scene.calls, ", named so by ", asked);
        }
    }
}

/// Writes since when a name is not there.
fn not_there(text: &mut Text, scene: &Scene<'_>, directory: FileId, name: &[u8]) {
    text.word("not there");
    match taken_by(scene, directory, name) {
        Some(asked) => wording::request(text, scene.calls, ": taken away by ", asked),
        None => text.word(", and never was"),
    }
}

/// The request that took a name away last, if one did.
pub(crate) fn taken_by(scene: &Scene<'_>, directory: FileId, name: &[u8]) -> Option<u32> {
    scene.history.place(directory, name)?.taken_by
}

/// Writes where a file is: its path, or the one that it had last.
pub(crate) fn place(text: &mut Text, scene: &Scene<'_>, file: FileId) {
    match scene.path(file) {
        Some(path) => text.name(&path),
        None => nameless(text, scene, file),
    }
}

/// Writes of a file without a name the path that it had last.
fn nameless(text: &mut Text, scene: &Scene<'_>, file: FileId) {
    text.word("a file without a name");
    let Some(known) = scene.history.file(file) else {
        return;
    };
    if let Some(asked) = known.unnamed_by {
        text.word(" (");
        text.name(&known.last_path);
        wording::request(text, scene.calls, " until ", asked);
        text.word(")");
    }
}

/// Writes what a file is, and which requests made and changed it.
pub(crate) fn facts_and_changes(text: &mut Text, scene: &Scene<'_>, file: FileId) {
    facts(text, scene, file);
    text.word(", ");
    changes(text, scene, file);
}

/// Writes what a file is: of a directory how many names it has, of a symbolic link its target.
pub(crate) fn facts(text: &mut Text, scene: &Scene<'_>, file: FileId) {
    let Some(facts) = scene.tree.facts(file) else {
        return;
    };
    text.word(wording::kind(facts.kind));
    if facts.kind != Kind::Symlink {
        text.word(" ");
        text.octal(facts.bits, 4);
    }
    match facts.kind {
        Kind::Directory => {
            text.word(" with ");
            text.count(scene.tree.count_names_in(file), " name", " names");
        }
        Kind::Symlink => target(text, scene, file, &facts),
        Kind::Regular => text.field(" size ", facts.size),
        _ => {}
    }
    if facts.kind != Kind::Directory {
        text.field(" nlink ", facts.names as u64);
    }
}

/// Writes the target of a symbolic link.
fn target(text: &mut Text, scene: &Scene<'_>, file: FileId, facts: &FileFacts) {
    text.word(" to ");
    if let Some(target) = scene.memory.noted(target_of(scene, file, facts)) {
        text.name(&target);
    }
}

/// The target of a symbolic link.
fn target_of(scene: &Scene<'_>, file: FileId, facts: &FileFacts) -> Result<Vec<u8>, AllocError> {
    let mut bytes = Vec::new(scene.memory.alloc);
    for offset in 0..facts.size.min(MOST_TARGET) {
        if let Some(byte) = scene.tree.byte(file, offset) {
            bytes.push(byte)?;
        }
    }
    Ok(bytes)
}

/// Writes by which requests a file was made and changed.
pub(crate) fn changes(text: &mut Text, scene: &Scene<'_>, file: FileId) {
    match file {
        FileId::Made(asked) => wording::request(text, scene.calls, "made by ", asked),
        FileId::Root | FileId::Added(_) => text.word("there from the start"),
    }
    let Some(known) = scene.history.file(file) else {
        return;
    };
    wording::request_if_any(text, scene.calls, ", bytes by ", known.bytes_by);
    wording::request_if_any(text, scene.calls, ", bits by ", known.bits_by);
}
