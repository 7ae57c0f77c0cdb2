//! What a tree holds from the start on, and no answer told: there the tree text may be wrong.

use crate::causes::About;
use crate::scene::Scene;
use fa_refusal::{NamedPlace, Part, Subject, Unmet};
use fa_tree::FileId;

/// Whether a request made a file.
pub(crate) fn is_made(file: FileId) -> bool {
    matches!(file, FileId::Made(_))
}

/// Whether a file is there from the start, and no answer told its attributes.
pub(crate) fn has_file(scene: &Scene<'_>, file: FileId) -> bool {
    !is_made(file)
        && match scene.history.file(file) {
            Some(known) => !known.is_told,
            None => true,
        }
}

/// The same of its type: the root is a directory everywhere.
pub(crate) fn has_type(scene: &Scene<'_>, file: FileId) -> bool {
    file != FileId::Root && has_file(scene, file)
}

/// Which attributes of a file are so from the start, and no answer told them.
#[derive(Clone, Copy)]
pub(crate) struct FromStart {
    /// Its type,
    pub kind: bool,
    /// how many names it has,
    pub links: bool,
    /// its permission bits,
    pub bits: bool,
    /// and its size.
    pub size: bool,
}

impl FromStart {
    /// Those of a file.
    pub fn of(scene: &Scene<'_>, file: FileId) -> Self {
        let is_so = has_file(scene, file);
        let mut from_start = FromStart {
            kind: is_so && file != FileId::Root,
            links: is_so,
            bits: is_so,
            size: is_so,
        };
        if let Some(known) = scene.history.file(file) {
            from_start.links &= known.links_by.is_none();
            from_start.bits &= known.bits_by.is_none();
            from_start.size &= known.bytes_by.is_none();
        }
        from_start
    }
}

/// Whether a request set the permission bits of a file since it was made.
pub(crate) fn has_bits_set(scene: &Scene<'_>, file: FileId) -> bool {
    match scene.history.file(file) {
        Some(known) => known.bits_by.is_some(),
        None => false,
    }
}

/// Whether a file has the byte that was asked for from the start, and no answer told it.
pub(crate) fn has_byte(scene: &Scene<'_>, file: FileId) -> bool {
    !is_made(file) && scene.history.byte_by.is_none() && !scene.history.byte_is_told
}

/// Whether a name of a directory is there, or is not there, from the start on, and no answer told so.
pub(crate) fn has_name(scene: &Scene<'_>, directory: FileId, name: &[u8]) -> bool {
    !is_made(directory)
        && match scene.history.place(directory, name) {
            Some(place) => place.is_from_start(),
            None => false,
        }
}

/// The same of a name in the directory of a node.
fn has_place(scene: &Scene<'_>, place: Option<NamedPlace<'_>>) -> bool {
    let Some(place) = place else {
        return false;
    };
    match scene.tree.file_of(&place.node) {
        Some(directory) => has_name(scene, directory, place.name),
        None => false,
    }
}

/// The file that has a name in the directory of a node, if there is one.
fn file_at(scene: &Scene<'_>, place: Option<NamedPlace<'_>>) -> Option<FileId> {
    let place = place?;
    scene
        .tree
        .find(scene.tree.file_of(&place.node)?, place.name)
}

/// Whether a name is so from the start, or the type of the file that has it.
fn has_named_type(scene: &Scene<'_>, place: Option<NamedPlace<'_>>) -> bool {
    has_place(scene, place)
        || match file_at(scene, place) {
            Some(file) => has_type(scene, file),
            None => false,
        }
}

/// Whether what a cause is about is so from the start.
pub(crate) fn is_from_start(scene: &Scene<'_>, about: About) -> bool {
    let first = scene.case.first_place();
    let second = scene.case.second_place();
    match about {
        About::Name | About::Content => has_place(scene, first),
        About::NewName | About::NewContent => has_place(scene, second),
        About::EitherName => has_place(scene, first) || has_place(scene, second),
        About::NamedTypes => has_named_type(scene, first) || has_named_type(scene, second),
        About::NodeType => has_node_type(scene),
        About::File | About::Directory => false,
    }
}

/// Whether the type of the node is so from the start.
fn has_node_type(scene: &Scene<'_>) -> bool {
    match scene.case.node_in(scene.tree) {
        Some(file) => has_type(scene, file),
        None => false,
    }
}

/// Whether a part of what a success needs does not hold by what is so from the start.
pub(crate) fn denies_part(scene: &Scene<'_>, unmet: &Unmet<'_>) -> bool {
    match unmet.subject {
        Subject::File(file) => denies_part_of_file(scene, unmet.part, file),
        Subject::Name(name) => {
            denies_part_at(scene, unmet.part, name, scene.case.first_place())
                || denies_part_at(scene, unmet.part, name, scene.case.second_place())
        }
    }
}

/// The same of a part that does not hold of a file.
fn denies_part_of_file(scene: &Scene<'_>, part: Part, file: FileId) -> bool {
    match part {
        Part::WithoutName | Part::IntoItself => false,
        _ => has_type(scene, file),
    }
}

/// The same of a part that does not hold of a name, if that is the one of this place.
fn denies_part_at(
    scene: &Scene<'_>,
    part: Part,
    name: &[u8],
    place: Option<NamedPlace<'_>>,
) -> bool {
    let Some(found) = place else {
        return false;
    };
    if found.name != name {
        return false;
    }
    match part {
        Part::WithoutName | Part::IntoItself | Part::NotEmpty => false,
        Part::NotThere
        | Part::There
        | Part::ThereThoughExclusive
        | Part::ThereThoughNodeZero
        | Part::ThereThoughNotReplaced => has_place(scene, place),
        _ => has_named_type(scene, place),
    }
}
