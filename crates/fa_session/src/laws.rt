//! What holds of answers. Each function does nothing: its contract is the law.

ghost use Rattle.fa_session.specs.Laws.{AnswersOne, AnsweredOnce, EachReplyAnswers};

/// A message answers at most one request.
pub fn answers_one()
    ensures { AnswersOne }
{}

/// A request is answered by at most one message.
pub fn answered_once()
    ensures { AnsweredOnce }
{}

/// Among messages that are all allowed, each reply answers a request.
pub fn each_reply_answers()
    ensures { EachReplyAnswers }
{}
