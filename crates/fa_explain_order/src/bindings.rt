//! Nodes that are given for another file: code 84.

use crate::holding::{facts_and_changes, place};
use crate::looks::Looks;
use crate::rules::{NODES, rule_line};
use crate::scene::Scene;
use crate::start;
use crate::wording::{self, node_number};
use fa_refusal::Binding;
use fa_show::Text;

/// Writes which node is given for two files: which of the lines of what to look at fit. Where both are files from the start, they may
/// be one.
pub(crate) fn explain(text: &mut Text, scene: &Scene<'_>, binding: &Binding<'_>) -> Looks {
    rule_line(text, NODES);
    let number = node_number(&binding.node);
    text.field("given    node ", number);
    match scene.history.node_by {
        Some(asked) => wording::request(text, scene.calls, " by ", asked),
        None => text.word(" by this answer"),
    }
    text.word(", for ");
    place(text, scene, binding.other);
    text.word(": ");
    facts_and_changes(text, scene, binding.other);
    text.end_line();
    text.word("here     ");
    text.name(binding.name);
    text.word(" is ");
    match binding.file {
        Some(file) => facts_and_changes(text, scene, file),
        None => text.word("made by this request"),
    }
    if let Some(own) = &scene.history.own_node {
        text.field(", was given node ", node_number(&own.node));
        wording::request(text, scene.calls, " by ", own.by);
    }
    text.field(", and is given node ", number);
    text.word(" too");
    text.end_line();
    let is_from_start = match binding.file {
        Some(file) => start::has_file(scene, file) && start::has_file(scene, binding.other),
        None => false,
    };
    let case = match scene.history.own_node {
        Some(_) => "a file that has a node of its own",
        None => "",
    };
    Looks::at(case, is_from_start)
}
