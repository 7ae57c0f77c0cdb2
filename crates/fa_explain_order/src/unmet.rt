//! Which part of what a success needs does not hold: code 81.

use crate::allowed::allowed_line;
use crate::holding::{place, taken_by, tree_lines};
use crate::looks::Looks;
use crate::rules::success_line;
use crate::scene::Scene;
use crate::start;
use fa_ledger::Action;
use fa_refusal::{NamedPlace, Part, Subject, Unmet};
use fa_show::Text;

/// Writes why the tree does not allow a success: which of the lines of what to look at fit.
pub(crate) fn explain(text: &mut Text, scene: &Scene<'_>, unmet: &Option<Unmet<'_>>) -> Looks {
    success_line(text, &scene.case);
    let looks = match unmet {
        Some(unmet) => here_line(text, scene, unmet),
        None => Looks::at("all else", false),
    };
    tree_lines(text, scene);
    allowed_line(text, scene);
    looks
}

/// Writes the line of the part that does not hold.
fn here_line(text: &mut Text, scene: &Scene<'_>, unmet: &Unmet<'_>) -> Looks {
    text.word("here     ");
    match unmet.subject {
        Subject::Name(name) => text.name(name),
        Subject::File(file) => place(text, scene, file),
    }
    text.word(" ");
    text.word(words(unmet.part));
    text.end_line();
    Looks::at(key(scene, unmet), start::denies_part(scene, unmet))
}

/// A part in words, behind what it does not hold of.
fn words(part: Part) -> &'static str {
    match part {
        Part::NotThere => "is not there",
        Part::There => "is there already",
        Part::ThereThoughExclusive => "is there already, and O_EXCL was asked",
        Part::ThereThoughNodeZero => "is there, and node 0 says that it is not",
        Part::ThereThoughNotReplaced => "is there, and RENAME_NOREPLACE was asked",
        Part::NoDirectory => "is no directory",
        Part::NoDirectoryToReplace => "is no directory, and a directory can't take its place",
        Part::Directory => "is a directory",
        Part::DirectoryToReplace => "is a directory, and what is none can't take its place",
        Part::NotEmpty => "is not empty",
        Part::NotRegular => "is no regular file",
        Part::NotSymlink => "is no symbolic link",
        Part::WithoutName => "has no name any more",
        Part::IntoItself => "would come into itself or below itself",
    }
}

/// Which of the lines of what to look at fits.
fn key(scene: &Scene<'_>, unmet: &Unmet<'_>) -> &'static str {
    match unmet.part {
        Part::NotThere => {
            if is_taken(scene, unmet) {
                "a name is not there any more"
            } else if takes_away(scene) {
                "a name that was never there is taken away"
            } else {
                "a name was never there"
            }
        }
        Part::ThereThoughNodeZero => "a name is there, and node 0 says that it is not",
        Part::There => "a name is there already",
        Part::ThereThoughExclusive | Part::ThereThoughNotReplaced => {
            "a name is there, and a flag forbids it"
        }
        Part::NotEmpty => "a directory is not empty",
        Part::WithoutName => "a file or directory has no name any more",
        Part::IntoItself => "a directory would come into itself",
        Part::NoDirectory
        | Part::NoDirectoryToReplace
        | Part::Directory
        | Part::DirectoryToReplace
        | Part::NotRegular
        | Part::NotSymlink => "all else",
    }
}

/// Whether the request takes a name away.
fn takes_away(scene: &Scene<'_>) -> bool {
    matches!(
        scene.case.action(),
        Some(
            Action::Unlink { .. }
                | Action::Rmdir { .. }
                | Action::Rename { .. }
                | Action::Rename2 { .. }
        )
    )
}

/// Whether a request took the name away that is not there.
fn is_taken(scene: &Scene<'_>, unmet: &Unmet<'_>) -> bool {
    match unmet.subject {
        Subject::Name(name) => {
            is_taken_at(scene, name, scene.case.first_place())
                || is_taken_at(scene, name, scene.case.second_place())
        }
        Subject::File(_) => false,
    }
}

/// Whether a request took a name away, if it is that of this place.
fn is_taken_at(scene: &Scene<'_>, name: &[u8], place: Option<NamedPlace<'_>>) -> bool {
    let Some(place) = place else {
        return false;
    };
    match scene.tree.file_of(&place.node) {
        Some(directory) => { place.name == name && taken_by(scene, directory, name).is_some() }
        None => false,
    }
}
