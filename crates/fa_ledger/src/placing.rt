//! What an order may take as done though it was not answered.

ghost use Rattle.std.specs.Prelude.{◌↔◌, IsTrue};
ghost use Rattle.fa_ledger.specs.Choices.{MayBePlaced};
ghost use Rattle.fa_ledger.specs.Operations.{operation_shown};

use crate::operation::{Action, Operation};

/// Whether what was not answered may be taken as done, with this count of bytes written or without one.
pub(crate) fn may_be_placed(operation: &Operation<'_>, wrote: Option<u32>) -> bool
    ensures { IsTrue result ↔ MayBePlaced (operation_shown operation.now) wrote }
{
    match operation {
        Operation::Act(Action::Write { size, .. }) => match wrote {
            Some(count) => count <= *size,
            None => false,
        },
        _ => !operation.only_reads() && wrote.is_none(),
    }
}
