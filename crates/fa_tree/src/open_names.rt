//! What is known of a directory since it was opened.

ghost use Rattle.fa_tree.specs.parts.BirthParts.{NoneStayedBehind};
ghost use Rattle.fa_tree.specs.parts.MemberParts.{members_of};

use crate::id::FileId;
use crate::slots::Slots;

/// A directory that is open, with the names that were in it since. Nothing of it is copied.
#[derive(Clone, Copy)]
pub(crate) struct OpenNames<'a> {
    pub slots: &'a Slots,
    pub directory: FileId,
    /// How many openings came before.
    pub at: usize,
    /// So many places of the directory, the first ones, may have a name whose file stayed since.
    pub old_places: usize,
    ghost later: { NoneStayedBehind slots.now.table.entries (members_of slots.now.members.table.entries directory) at old_places },
}
