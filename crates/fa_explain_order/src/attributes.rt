//! Attributes that are not those of the file: code 83.

use crate::causes::sets;
use crate::holding::{facts_and_changes, place, tree_name, tree_node};
use crate::looks::Looks;
use crate::rules::{ATTRIBUTES, ENTRY_TYPES, rule_line};
use crate::scene::Scene;
use crate::start::{self, FromStart};
use crate::wording::{self, numbered_kind};
use fa_bodies::{Attributes, FattrFlags, Mode};
use fa_ledger::Action;
use fa_refusal::{Case, Expected, ListedType, NamedPlace, OtherAttributes};
use fa_show::Text;
use fa_tree::FileId;

/// Writes which attributes are not those of the file: which of the lines of what to look at fit.
pub(crate) fn explain(text: &mut Text, scene: &Scene<'_>, other: &OtherAttributes<'_>) -> Looks {
    match other {
        OtherAttributes::Told { told, expected, .. } => {
            told_lines(text, scene, told, expected);
            looks(scene, other, told, expected)
        }
        OtherAttributes::Listed(listed) => listed_lines(text, scene, listed),
    }
}

/// Writes which entry of a READDIRPLUS has the type of another file.
fn listed_lines(text: &mut Text, scene: &Scene<'_>, listed: &ListedType<'_>) -> Looks {
    rule_line(text, ENTRY_TYPES);
    text.word("differs  type of ");
    text.name(listed.name);
    text.word(": answered ");
    mode_type(text, listed.mode);
    text.word(", expected ");
    text.word(wording::kind(listed.kind));
    text.end_line();
    text.word("tree     ");
    place(text, scene, listed.file);
    text.word(": ");
    facts_and_changes(text, scene, listed.file);
    text.end_line();
    let is_from_start = !listed.is_listed_so && start::has_type(scene, listed.file);
    Looks::at("type", is_from_start)
}

/// Writes the type that a mode tells.
fn mode_type(text: &mut Text, mode: Mode) {
    numbered_kind(text, (mode.bits() >> 12) & 15);
}

/// Writes which attributes of an action's answer are not those of the file.
fn told_lines(text: &mut Text, scene: &Scene<'_>, told: &Attributes, expected: &Expected) {
    rule_line(text, ATTRIBUTES);
    file_line(text, scene, expected);
    differing(text, scene, told, expected);
    same_line(text, told, expected);
}

/// Writes the line of the file whose attributes are told.
fn file_line(text: &mut Text, scene: &Scene<'_>, expected: &Expected) {
    let named = scene.case.first_place();
    if expected.file.is_none() {
        made_line(text, named);
    } else if is_link(&scene.case) {
        if let Some(other) = scene.case.call.other {
            tree_node(text, scene, other);
        }
    } else {
        match named {
            Some(place) => tree_name(text, scene, &place),
            None => tree_node(text, scene, scene.case.call.node),
        }
    }
}

/// Writes that a name is made by the request.
fn made_line(text: &mut Text, named: Option<NamedPlace<'_>>) {
    text.word("tree     ");
    if let Some(place) = named {
        text.name(place.name);
    }
    text.word(" is made by this request");
    text.end_line();
}

/// Which of the lines of what to look at fit: that of the type alone, or those of the last two attributes that differ. Attributes from
/// before the request have one cause, and so one line, and so have those that no request changed.
fn looks(
    scene: &Scene<'_>,
    other: &OtherAttributes<'_>,
    told: &Attributes,
    expected: &Expected,
) -> Looks {
    let is_from_start = is_one_from_start(scene, told, expected);
    if !expected.has_kind(told) {
        return Looks::at("type", is_from_start);
    }
    if expected.file.is_none() {
        return looks_of_new(scene, told, expected);
    }
    if is_from_start {
        return Looks::at("attributes that no request changed", true);
    }
    if are_those_before(other) && !is_link(&scene.case) {
        return Looks::at("attributes from before the request", false);
    }
    let mut looks = Looks::none();
    if !expected.has_links(told) {
        looks.add(of_links(scene, told, expected), false);
    }
    if !expected.has_size(told) {
        looks.add(of_size(scene, told, expected), false);
    }
    if looks.first.is_empty() || !expected.has_bits(told) {
        looks.add(of_bits(scene, expected), false);
    }
    looks
}

/// The case of a number of links: a request may have taken a name away.
fn of_links(scene: &Scene<'_>, told: &Attributes, expected: &Expected) -> &'static str {
    if u64::from(told.nlink) > expected.links && links_by(scene, expected).is_some() {
        "links that were taken away"
    } else {
        "links"
    }
}

/// The request that gave a file its last name, or took one away, but for the one that made it.
fn links_by(scene: &Scene<'_>, expected: &Expected) -> Option<u32> {
    let file = expected.file?;
    let asked = scene.history.file(file)?.links_by?;
    if file == FileId::Made(asked) {
        None
    } else {
        Some(asked)
    }
}

/// The case of permission bits: a file may have those with which a request made it.
fn of_bits(scene: &Scene<'_>, expected: &Expected) -> &'static str {
    match expected.file {
        Some(file) if start::is_made(file) && !start::has_bits_set(scene, file) => {
            "permission bits that a file was made with"
        }
        _ => "permission bits of a file that is there",
    }
}

/// The case of a size: the server may have cut the file at an OPEN that was to leave it.
fn of_size(scene: &Scene<'_>, told: &Attributes, expected: &Expected) -> &'static str {
    match left_whole_by(scene, told, expected) {
        Some(_) => "size, after an OPEN that does not cut",
        None => "size",
    }
}

/// The OPEN with O_TRUNC that was to leave a file whole of which size 0 is told, if there is one.
fn left_whole_by(scene: &Scene<'_>, told: &Attributes, expected: &Expected) -> Option<u32> {
    if told.size > 0 || expected.size == 0 || sets(&scene.case, FattrFlags::SIZE) {
        return None;
    }
    scene.history.file(expected.file?)?.left_whole_by
}

/// Which of the lines of what to look at fit the attributes of a file that the request makes.
fn looks_of_new(scene: &Scene<'_>, told: &Attributes, expected: &Expected) -> Looks {
    let mut looks = Looks::none();
    if !(expected.has_links(told) && expected.has_size(told)) {
        looks.add("size or links of a new file", false);
    }
    if looks.first.is_empty() || !expected.has_bits(told) {
        looks.add(of_new_bits(scene, told), false);
    }
    looks
}

/// The case of the permission bits of a file that the request makes.
fn of_new_bits(scene: &Scene<'_>, told: &Attributes) -> &'static str {
    match mode_of(scene) {
        Some((mode, _)) if told.mode.bits() & 0o777 & !mode.bits() != 0 => {
            "permission bits that the mode of a new file lacks"
        }
        _ => "permission bits of a new file",
    }
}

/// The mode and the umask with which a request makes a file.
fn mode_of(scene: &Scene<'_>) -> Option<(Mode, u32)> {
    match scene.case.action() {
        Some(
            Action::Create { mode, umask, .. }
            | Action::Mkdir { mode, umask, .. }
            | Action::Mknod { mode, umask, .. },
        ) => Some((*mode, *umask)),
        _ => None,
    }
}

/// Whether one of the attributes that differ is so from the start.
fn is_one_from_start(scene: &Scene<'_>, told: &Attributes, expected: &Expected) -> bool {
    let Some(file) = expected.file else {
        return false;
    };
    let from_start = FromStart::of(scene, file);
    (from_start.kind && !expected.has_kind(told))
        || (from_start.links && !expected.has_links(told))
        || (from_start.bits && !expected.has_bits(told) && !sets(&scene.case, FattrFlags::MODE))
        || (from_start.size && !expected.has_size(told) && !sets_size(&scene.case))
}

/// Writes a line for each attribute that differs.
fn differing(text: &mut Text, scene: &Scene<'_>, told: &Attributes, expected: &Expected) {
    if !expected.has_kind(told) {
        kind_line(text, told, expected);
    }
    if !expected.has_bits(told) {
        bits_line(text, scene, told, expected);
    }
    if !expected.has_size(told) {
        size_line(text, scene, told, expected);
    }
    if !expected.has_links(told) {
        links_line(text, scene, told, expected);
    }
}

/// Writes that the type differs.
fn kind_line(text: &mut Text, told: &Attributes, expected: &Expected) {
    text.word("differs  type: answered ");
    mode_type(text, told.mode);
    text.word(", expected ");
    text.word(wording::kind(expected.kind));
    if expected.file.is_none() {
        text.word(", as it is made");
    }
    text.end_line();
}

/// Writes that the permission bits differ.
fn bits_line(text: &mut Text, scene: &Scene<'_>, told: &Attributes, expected: &Expected) {
    text.word("differs  bits: answered ");
    text.octal(told.mode.bits() & 0o777, 4);
    text.word(", expected ");
    text.octal(expected.bits, 4);
    bits_origin(text, scene, expected);
    text.end_line();
}

/// Writes that the size differs.
fn size_line(text: &mut Text, scene: &Scene<'_>, told: &Attributes, expected: &Expected) {
    text.field("differs  size: answered ", told.size);
    text.field(", expected ", expected.size);
    size_origin(text, scene, expected);
    if let Some(asked) = left_whole_by(scene, told, expected) {
        wording::request(text, scene.calls, "; ", asked);
        text.word(" leaves it, as ATOMIC_O_TRUNC was not agreed");
    }
    text.end_line();
}

/// Writes that the links differ.
fn links_line(text: &mut Text, scene: &Scene<'_>, told: &Attributes, expected: &Expected) {
    text.field("differs  nlink: answered ", u64::from(told.nlink));
    text.field(", expected ", expected.links);
    links_origin(text, scene, expected);
    text.end_line();
}

/// Writes why permission bits are expected.
fn bits_origin(text: &mut Text, scene: &Scene<'_>, expected: &Expected) {
    let Some(file) = expected.file else {
        return asked_for(text, scene);
    };
    let by = match scene.history.file(file) {
        Some(known) => known.bits_by,
        None => None,
    };
    let is_set = sets(&scene.case, FattrFlags::MODE);
    origin(text, scene, file, is_set, by);
}

/// Writes which mode and umask a request that makes a file asks for.
fn asked_for(text: &mut Text, scene: &Scene<'_>) {
    if let Some((mode, umask)) = mode_of(scene) {
        text.word(", as mode ");
        text.octal(mode.bits() & 0o7777, 4);
        text.word(" less umask ");
        text.octal(umask, 3);
        text.word(" asks");
    }
}

/// Writes why a size is expected.
fn size_origin(text: &mut Text, scene: &Scene<'_>, expected: &Expected) {
    let Some(file) = expected.file else {
        return text.word(", as it is made");
    };
    let by = match scene.history.file(file) {
        Some(known) => known.bytes_by,
        None => None,
    };
    origin(text, scene, file, sets_size(&scene.case), by);
}

/// Whether a request sets a size: a SETATTR, or a CREATE that empties a file that is there.
fn sets_size(case: &Case<'_>) -> bool {
    match case.action() {
        Some(Action::Create { .. }) => case.call.truncates,
        _ => sets(case, FattrFlags::SIZE),
    }
}

/// Writes since which request an attribute is so: since this one, if that sets it, since that which changed it last, or else since that
/// which made the file.
fn origin(text: &mut Text, scene: &Scene<'_>, file: FileId, is_set: bool, by: Option<u32>) {
    if is_set {
        return text.word(", as this request sets it");
    }
    text.word(", ");
    let asked = match (by, file) {
        (None, FileId::Made(asked)) => Some(asked),
        _ => by,
    };
    wording::since(text, scene.calls, asked);
}

/// Writes for which names a number of links is expected.
fn links_origin(text: &mut Text, scene: &Scene<'_>, expected: &Expected) {
    let Some(file) = expected.file else {
        return text.word(", as it is made");
    };
    match scene.path(file) {
        Some(path) => {
            text.word(", for ");
            text.name(&path);
            further_names(text, scene, file);
            wording::request_if_any(text, scene.calls, ", since ", links_by(scene, expected));
        }
        None => text.word(", as it has no name any more"),
    }
}

/// Writes how many names a file has beside its least one.
fn further_names(text: &mut Text, scene: &Scene<'_>, file: FileId) {
    if let Some(facts) = scene.tree.facts(file) {
        if facts.names > 1 {
            text.field(", ", (facts.names - 1) as u64);
            text.word(" more");
        }
    }
    if is_link(&scene.case) {
        text.word(" and the new name");
    }
}

/// Writes the line of the attributes that are told rightly, if there are some.
fn same_line(text: &mut Text, told: &Attributes, expected: &Expected) {
    let bits = expected.tells_bits() && expected.has_bits(told);
    let size = expected.tells_size() && expected.has_size(told);
    let links = expected.tells_links() && expected.has_links(told);
    let kind = expected.has_kind(told);
    let mut before = "same     ";
    if kind {
        text.word(before);
        text.word("type ");
        text.word(wording::kind(expected.kind));
        before = ", ";
    }
    if bits {
        text.word(before);
        text.word("bits ");
        text.octal(expected.bits, 4);
        special_bits(text, told.mode);
        before = ", ";
    }
    if size {
        text.word(before);
        text.field("size ", expected.size);
        before = ", ";
    }
    if links {
        text.word(before);
        text.field("nlink ", expected.links);
    }
    if kind || bits || size || links {
        text.end_line();
    }
}

/// Writes that the bits beside the permission bits are not judged, where some are told.
fn special_bits(text: &mut Text, mode: Mode) {
    if mode.bits() & 0o7000 != 0 {
        text.word(" (setuid, setgid and sticky bits are not judged)");
    }
}

/// Whether a request gives a file a further name.
fn is_link(case: &Case<'_>) -> bool {
    matches!(case.action(), Some(Action::Link { .. }))
}

/// Whether the attributes that were told are those of the file before the request.
pub(crate) fn are_those_before(other: &OtherAttributes<'_>) -> bool {
    match other {
        OtherAttributes::Told {
            told,
            before: Some(before),
            ..
        } => before.are_in(told),
        _ => false,
    }
}
