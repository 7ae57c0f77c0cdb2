//! Listings that are not those of the directory: code 86.

use crate::holding::{facts, place, taken_by};
use crate::looks::Looks;
use crate::rules::{LISTINGS, rule_line};
use crate::scene::Scene;
use crate::start;
use crate::wording::{self, numbered_kind};
use fa_refusal::{Listing, Twice};
use fa_show::Text;

/// Writes what is wrong with a listing: which of the lines of what to look at fit.
pub(crate) fn explain(text: &mut Text, scene: &Scene<'_>, listing: &Listing<'_, '_>) -> Looks {
    rule_line(text, LISTINGS);
    directory_line(text, scene, listing);
    listing_line(text, scene, listing);
    missing_line(text, scene, listing);
    twice_line(text, listing);
    never_line(text, scene, listing);
    types_line(text, listing);
    gone_line(text, scene, listing);
    looks(scene, listing)
}

/// Writes the line of the directory.
fn directory_line(text: &mut Text, scene: &Scene<'_>, listing: &Listing<'_, '_>) {
    text.word("tree     ");
    place(text, scene, listing.directory);
    let opened_by = scene.case.call.handle;
    wording::request_if_any(text, scene.calls, ", opened by ", opened_by);
    text.word(": ");
    facts(text, scene, listing.directory);
    text.end_line();
}

/// Writes the line of how far the directory was listed.
fn listing_line(text: &mut Text, scene: &Scene<'_>, listing: &Listing<'_, '_>) {
    let is_adrift = is_adrift(scene);
    text.word("listing  ");
    if listing.pieces.is_empty() {
        text.word(if is_adrift {
            "begins at an offset that no answer gave"
        } else {
            "begins here"
        });
    } else {
        text.word("goes on from ");
        let mut is_first = true;
        for asked in listing.pieces.iter().rev() {
            text.field(if is_first { "" } else { ", " }, u64::from(*asked));
            is_first = false;
        }
        text.word(": ");
        text.count(listing.listed, " entry so far", " entries so far");
        if is_adrift {
            text.word(", begun at an offset that no answer gave");
        }
    }
    text.word("; this answer has ");
    if listing.entries == 0 {
        text.word("none");
    } else {
        text.number(listing.entries as u64);
    }
    text.word(", `.` and `..` not counted");
    text.end_line();
}

/// Whether the listing begins at an offset that no answer gave.
fn is_adrift(scene: &Scene<'_>) -> bool {
    match &scene.case.call.listing {
        Some(from) => from.adrift,
        None => false,
    }
}

/// Writes how many more there are of a kind than those that are written, and ends the line, if there are some.
fn more(text: &mut Text, written: usize, count: usize) {
    if count > written {
        text.field(", and ", (count - written) as u64);
        text.word(" more");
    }
    if count > 0 {
        text.end_line();
    }
}

/// Writes the line of the names that are missing.
fn missing_line(text: &mut Text, scene: &Scene<'_>, listing: &Listing<'_, '_>) {
    let mut before = "missing  ";
    for name in &listing.missing.first {
        text.word(before);
        text.name(name);
        missing_name(text, scene, listing, name);
        before = ", ";
    }
    more(text, listing.missing.first.len(), listing.missing.count);
}

/// Writes of a name that is missing what it is, and since when it is there.
fn missing_name(text: &mut Text, scene: &Scene<'_>, listing: &Listing<'_, '_>, name: &[u8]) {
    text.word(" (");
    if let Some(file) = scene.tree.find(listing.directory, name) {
        if let Some(facts) = scene.tree.facts(file) {
            text.word(wording::kind(facts.kind));
            text.word(", ");
        }
    }
    text.word("in it ");
    let by = match scene.history.place(listing.directory, name) {
        Some(place) => place.named_by,
        None => None,
    };
    wording::since(text, scene.calls, by);
    text.word(")");
}

/// Writes the line of the names that are listed twice.
fn twice_line(text: &mut Text, listing: &Listing<'_, '_>) {
    let mut before = "twice    ";
    for twice in &listing.twice.first {
        text.word(before);
        text.name(twice.name);
        listed_by(text, twice);
        before = ", ";
    }
    more(text, listing.twice.first.len(), listing.twice.count);
}

/// Writes which requests have listed a name twice, or the one that did.
fn listed_by(text: &mut Text, twice: &Twice<'_>) {
    if twice.first == twice.second {
        text.field(" (twice by ", u64::from(twice.first));
    } else {
        text.field(" (by ", u64::from(twice.first));
        text.field(" and by ", u64::from(twice.second));
    }
    text.word(")");
}

/// Writes the line of the names that were never there since the opening.
fn never_line(text: &mut Text, scene: &Scene<'_>, listing: &Listing<'_, '_>) {
    let mut before = "never    ";
    for name in &listing.never.first {
        text.word(before);
        text.name(name);
        match taken_by(scene, listing.directory, name) {
            Some(asked) => {
                wording::request(text, scene.calls, " (taken away by ", asked);
                text.word(", before the opening)");
            }
            None => text.word(" (was never in it)"),
        }
        before = ", ";
    }
    more(text, listing.never.first.len(), listing.never.count);
}

/// Writes the line of the entries with other types.
fn types_line(text: &mut Text, listing: &Listing<'_, '_>) {
    let mut before = "type     ";
    for other in &listing.types.first {
        text.word(before);
        text.name(other.name);
        text.word(": answered ");
        numbered_kind(text, other.answered);
        text.word(", expected ");
        numbered_kind(text, other.expected);
        before = ", ";
    }
    more(text, listing.types.first.len(), listing.types.count);
}

/// Writes the line of the names that are gone and have nodes.
fn gone_line(text: &mut Text, scene: &Scene<'_>, listing: &Listing<'_, '_>) {
    let mut before = "gone     ";
    for name in &listing.gone.first {
        text.word(before);
        text.name(name);
        text.word(" has a node here");
        let taken_by = taken_by(scene, listing.directory, name);
        wording::request_if_any(text, scene.calls, ", and was taken away by ", taken_by);
        before = ", ";
    }
    more(text, listing.gone.first.len(), listing.gone.count);
}

/// Which of the lines of what to look at fit: those of the first two kinds of names that there are.
fn looks(scene: &Scene<'_>, listing: &Listing<'_, '_>) -> Looks {
    let mut looks = Looks::none();
    if listing.missing.count > 0 {
        let is_from_start = is_one_from_start(scene, listing, &listing.missing.first);
        looks.add("a name is missing", is_from_start);
    }
    if listing.twice.count > 0 {
        looks.add(of_names_twice(listing), false);
    }
    if listing.never.count > 0 {
        let is_from_start = is_one_from_start(scene, listing, &listing.never.first);
        looks.add(of_names_never_there(scene, listing), is_from_start);
    }
    if listing.types.count > 0 {
        looks.add("the type of an entry", is_type_from_start(scene, listing));
    }
    if looks.first.is_empty() {
        looks.add("a node of a name that is gone", false);
    }
    looks
}

/// Whether one of these names is there, or not there, from the start on.
fn is_one_from_start(scene: &Scene<'_>, listing: &Listing<'_, '_>, names: &[&[u8]]) -> bool {
    for name in names {
        if start::has_name(scene, listing.directory, name) {
            return true;
        }
    }
    false
}

/// Whether the type of one of the files whose entries have another is so from the start.
fn is_type_from_start(scene: &Scene<'_>, listing: &Listing<'_, '_>) -> bool {
    for other in &listing.types.first {
        if let Some(file) = scene.tree.find(listing.directory, other.name) {
            if start::has_type(scene, file) {
                return true;
            }
        }
    }
    false
}

/// The case of names that are listed twice: all in one answer, or in two.
fn of_names_twice(listing: &Listing<'_, '_>) -> &'static str {
    for twice in &listing.twice.first {
        if twice.first != twice.second {
            return "a name stands in two answers";
        }
    }
    "a name stands twice in an answer"
}

/// The case of names that were not there since the opening: a request took one of them away, or none was ever there.
fn of_names_never_there(scene: &Scene<'_>, listing: &Listing<'_, '_>) -> &'static str {
    for name in &listing.never.first {
        if taken_by(scene, listing.directory, name).is_some() {
            return "a name that went before the opening";
        }
    }
    "a name that was never there"
}
