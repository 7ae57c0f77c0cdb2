//! What kind an operation is.

ghost use Rattle.std.specs.Prelude.{◌↔◌, IsTrue};
ghost use Rattle.fa_ledger.specs.Kinds.{OnlyReads, KeepsTree};
ghost use Rattle.fa_ledger.specs.Operations.{operation_shown};

use crate::operation::{Action, Operation, Outcome};

impl Operation<'_> {
    /// Whether it only asks, and leaves what is stored, the names and the files, as it is, whatever came of it (this profile).
    /// Nodes and open directories are not stored: a LOOKUP may add one of the first, an OPENDIR one of the second.
    ///
    /// Takes no memory, in constant time.
    pub fn only_reads(&self) -> bool
        ensures { IsTrue result ↔ OnlyReads (operation_shown self.now) }
    {
        match self {
            Operation::List(_) => true,
            Operation::Act(action) => matches!(
                action,
                Action::Lookup { .. }
                    | Action::Getattr { .. }
                    | Action::Readlink { .. }
                    | Action::Read { .. }
                    | Action::Opendir { .. }
            ),
        }
    }

    /// Whether a request that came to this leaves what is stored, the names and the files, as it is: it failed, or it only reads.
    ///
    /// Takes no memory, in constant time.
    pub fn keeps_tree(&self) -> bool
        ensures { IsTrue result ↔ KeepsTree (operation_shown self.now) }
    {
        matches!(self.ended(), Outcome::Fails(_)) || self.only_reads()
    }
}
