//! What holds of proposals. Each function does nothing: its contract is the law.

ghost use Rattle.std.specs.Prelude.{◌≡◌};
ghost use Rattle.fa_propose.specs.declared.proposing.TheConstants.{MAX_TRIED};
ghost use Rattle.fa_propose.specs.Laws.{ProposalIsOne, ProposalIsThere, ProposalIsPlaced, ProposalOnlyLeavesOut, WholeProposalIsLegal, SerialProposalIsLegal};

/// Messages and a first tree have one proposal at most.
pub fn proposal_is_one()
    ensures { ProposalIsOne }
{}

/// Good messages and a first tree have never no proposal.
pub fn proposal_is_there()
    ensures { ProposalIsThere }
{}

/// Each entry of a proposal is placed rightly, and the entries are a run.
pub fn proposal_is_placed()
    ensures { ProposalIsPlaced }
{}

/// Nothing is at fault in a proposal but that it leaves answered requests out.
pub fn proposal_only_leaves_out()
    ensures { ProposalOnlyLeavesOut }
{}

/// A proposal that leaves no answered request out is legal.
pub fn whole_proposal_is_legal()
    ensures { WholeProposalIsLegal }
{}

/// Where requests come one after the other, the proposal is legal if any order is.
pub fn serial_proposal_is_legal()
    ensures { SerialProposalIsLegal }
{}

/// How many candidates are tried at a place, as a number.
pub fn limits()
    ensures { MAX_TRIED ≡ 64 }
{}
