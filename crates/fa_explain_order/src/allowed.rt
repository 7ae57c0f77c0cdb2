//! Which answers a tree allows.

use crate::rules::DETERMINED;
use crate::scene::Scene;
use crate::wording::error_name;
use fa_ledger::Action;
use fa_show::Text;
use fa_tree::Kind;

/// Writes the line of the answers that the tree allows the request.
pub(crate) fn allowed_line(text: &mut Text, scene: &Scene<'_>) {
    text.word("allowed  ");
    let mut before = "";
    if let Some(success) = success_word(scene) {
        text.word(success);
        before = ", ";
    }
    before = errors(text, scene, true, before);
    text.word(if before.is_empty() {
        "any error but "
    } else {
        ", or any error but "
    });
    errors(text, scene, false, "");
    text.end_line();
}

/// Which success is allowed, if one is.
fn success_word(scene: &Scene<'_>) -> Option<&'static str> {
    if let Some(Action::Lookup { name, .. }) = scene.case.action() {
        return match scene.case.node_in(scene.tree) {
            Some(directory) if scene.is_of(directory, Kind::Directory) => {
                Some(match scene.tree.find(directory, name) {
                    Some(_) => "success with a node",
                    None => "success with node 0",
                })
            }
            _ => None,
        };
    }
    if scene.case.place >= scene.calls.list.len() {
        return None;
    }
    match scene.tree.allows_success(scene.calls, scene.case.place) {
        Some(true) => Some("success"),
        _ => None,
    }
}

/// Writes which of the errors that a tree determines have a cause, or which have none, the first behind this: what stands before the next
/// one.
fn errors(
    text: &mut Text,
    scene: &Scene<'_>,
    have_cause: bool,
    first: &'static str,
) -> &'static str {
    let mut before = first;
    for error in &DETERMINED {
        if has_cause(scene, *error) == have_cause {
            text.word(before);
            text.word(error_name(*error));
            before = ", ";
        }
    }
    before
}

/// Whether the tree gives a cause for an error of the request.
fn has_cause(scene: &Scene<'_>, error: i32) -> bool {
    if scene.case.place >= scene.calls.list.len() {
        return false;
    }
    matches!(
        scene.tree.gives_cause(scene.calls, scene.case.place, error),
        Some(true)
    )
}
