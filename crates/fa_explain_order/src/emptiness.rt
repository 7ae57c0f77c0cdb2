//! Directories that are said not to be empty: EEXIST and ENOTEMPTY of RMDIR and RENAME.

use crate::causes::About;
use crate::scene::Scene;
use fa_bodies::errno::EEXIST;
use fa_refusal::Earlier;
use fa_tree::Kind;

/// Which of the lines of what to look at fits an error that says so of the directory that has the name, or of the one that has the new
/// name, if it is one.
pub(crate) fn of(scene: &Scene<'_>, error: i32, about: About) -> Option<&'static str> {
    let (place, is_new) = match about {
        About::Content => (scene.case.first_place(), false),
        About::NewContent => (scene.case.second_place(), true),
        _ => return None,
    };
    let place = place?;
    let directory = scene.tree.file_of(&place.node)?;
    let Some(file) = scene.tree.find(directory, place.name) else {
        return Some("a name that is not there is said not to be empty");
    };
    Some(if is_new && error == EEXIST {
        "a new name that is there is refused"
    } else if !scene.is_of(file, Kind::Directory) {
        "what is no directory is said not to be empty"
    } else if scene.earlier == Earlier::Never {
        "a directory that never had a name in it is said not to be empty"
    } else {
        "an empty directory is said not to be"
    })
}
