//! Requests on names and on nodes.

use crate::text::Text;
use crate::words::{self, RENAME_FLAGS};
use fa_bodies::{Mode, RenameFlags, items};

/// How many items and entries are shown, unless all are.
pub(crate) const FEW: usize = 6;

/// Writes a name.
pub(crate) fn name(text: &mut Text, name: &[u8]) {
    text.word(" ");
    text.name(name);
}

/// Writes what SYMLINK makes.
pub(crate) fn symlink(text: &mut Text, link: &[u8], target: &[u8]) {
    name(text, link);
    text.word(" target ");
    text.name(target);
}

/// Writes from where to where a name moves.
pub(crate) fn moved(text: &mut Text, newdir: u64, old_name: &[u8], new_name: &[u8]) {
    name(text, old_name);
    text.field(" to node ", newdir);
    name(text, new_name);
}

/// Writes the flags of a RENAME2 that is judged.
pub(crate) fn rename_flags(text: &mut Text, flags: RenameFlags) {
    match flags {
        RenameFlags::Replace => {}
        RenameFlags::NoReplace => text.word(" flags RENAME_NOREPLACE"),
        RenameFlags::Exchange => text.word(" flags RENAME_EXCHANGE"),
    }
}

/// Writes the flags of any RENAME2.
pub(crate) fn rename_bits(text: &mut Text, bits: u32) {
    if bits != 0 {
        text.word(" flags ");
        words::flags(text, bits, &RENAME_FLAGS);
    }
}

/// Writes the further name of LINK.
pub(crate) fn link(text: &mut Text, oldnodeid: u64, new_name: &[u8]) {
    name(text, new_name);
    text.field(" of node ", oldnodeid);
}

/// Writes the mode of what is made.
pub(crate) fn made(text: &mut Text, mode: Mode, umask: u32) {
    text.word(" ");
    words::mode(text, mode.bits());
    text.word(" umask ");
    text.octal(umask, 3);
}

/// Writes the number of a device, if there is one.
pub(crate) fn device(text: &mut Text, rdev: u32) {
    if rdev != 0 {
        text.field(" rdev ", u64::from(rdev));
    }
}

/// Writes the items of BATCH_FORGET: how many there are, and the first of them.
pub(crate) fn forgotten(text: &mut Text, bytes: &[u8]) {
    let count = items(bytes).count();
    text.word(" ");
    text.count(count, " item", " items");
    let shown = if text.is_whole() { count } else { FEW };
    for (node, nlookup) in items(bytes).take(shown) {
        text.field(" [node ", node);
        text.field(" nlookup ", nlookup);
        text.word("]");
    }
    if shown < count {
        text.word(" ..");
    }
}
