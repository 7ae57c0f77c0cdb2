//! What follows from the definitions alone.

ghost use Rattle.std.specs.Prelude.{◌≡◌};
ghost use Rattle.fa_audit.specs.declared.judge.TheConstants.{ROOT_BITS};
ghost use Rattle.fa_audit.specs.declared.running.TheConstants.{MAX_CAPTURE_INPUT_BYTES, MAX_TEXT_INPUT_BYTES};
ghost use Rattle.fa_audit.specs.Laws.{OneAnswer, AnswerIsThere, GivenTreeHasNoMadeFile, OneProposalAnswer, ProposalAnswerIsThere, OneCutAnswer, CutAnswerIsThere, AnswersSeeNoTimes, MigratedHasTheSameAnswers};

/// A capture, a tree text or none and an order text have one answer at most.
pub fn one_answer()
    ensures { OneAnswer }
{}

/// A capture of bytes, a tree text or none and an order text have never no answer.
pub fn answer_is_there()
    ensures { AnswerIsThere }
{}

/// In the tree that the server began with no request has made a file.
pub fn given_tree_has_no_made_file()
    ensures { GivenTreeHasNoMadeFile }
{}

/// A capture and a tree text or none have one answer of a proposal at most.
pub fn one_proposal_answer()
    ensures { OneProposalAnswer }
{}

/// A capture of bytes and a tree text or none have never no answer of a proposal.
pub fn proposal_answer_is_there()
    ensures { ProposalAnswerIsThere }
{}

/// A capture, an order text and a message at which is cut have one answer at most.
pub fn one_cut_answer()
    ensures { OneCutAnswer }
{}

/// A capture of bytes, an order text and a message at which is cut have never no answer.
pub fn cut_answer_is_there()
    ensures { CutAnswerIsThere }
{}

/// Captures that hold the same messages and the same framing fault have the same answers: none sees a format or a time.
pub fn answers_see_no_times()
    ensures { AnswersSeeNoTimes }
{}

/// A capture that was migrated has the answers that it had, for any tree and any order.
pub fn migrated_has_the_same_answers()
    ensures { MigratedHasTheSameAnswers }
{}

/// The limits of inputs, and the permission bits of a root without a tree text, 755 in octal, as numbers.
pub fn limits()
    ensures capture { MAX_CAPTURE_INPUT_BYTES ≡ 402653184 }
    ensures text { MAX_TEXT_INPUT_BYTES ≡ 268435456 }
    ensures root_bits { ROOT_BITS ≡ 493 }
{}
