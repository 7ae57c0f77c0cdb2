//! In which order candidates are tried.

ghost use Rattle.fa_ledger.specs.Calls.{call_shown};
ghost use Rattle.fa_propose.specs.Proposals.{IsRank};

use fa_ledger::Call;

/// The groups of calls, in the order in which they are tried.
#[derive(Clone, Copy, Debug, PartialEq, Eq, PartialOrd, Ord, Hash)]
pub(crate) enum Group {
    /// Answered, and it leaves what is stored as it is: it only reads, or it was refused.
    Unchanging,
    /// Answered with the success of a changing request.
    Changing,
    /// Without an answer.
    Unanswered,
}

/// Where a call stands among the candidates.
#[derive(Clone, Copy, Debug, PartialEq, Eq, PartialOrd, Ord, Hash)]
pub(crate) struct Rank {
    pub group: Group,
    /// The number of the message that answers the call, or of its request where none does.
    pub position: u32,
}

impl Rank {
    /// The rank of a call.
    pub fn of(call: &Call<'_>) -> Self
        ensures { IsRank result (call_shown call.now) }
    {
        let Some(answer) = &call.answer else {
            return Rank {
                group: Group::Unanswered,
                position: call.asked,
            };
        };
        let group = if call.operation().keeps_tree() {
            Group::Unchanging
        } else {
            Group::Changing
        };
        Rank {
            group,
            position: answer.at,
        }
    }
}
