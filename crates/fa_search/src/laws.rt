//! What holds of messages without an order. Each function does nothing: its contract is the law.

ghost use Rattle.fa_search.specs.Laws.{LegalExplainsAll, ExplainedFrontHasOrder, StopIsOne, StopHasNoOrder, StopIsThere, StopIsComeTo, StopIsRefused, OneCodeRefusesAll, NoneGoesOn, FirstWithoutIsOne, FirstWithoutIsThere, StopComesFirst};

/// Of good messages entries are legal exactly where they explain all replies.
pub fn legal_explains_all()
    ensures { LegalExplainsAll }
{}

/// Where entries explain the replies before a message of good messages, the messages before it have never no order.
pub fn explained_front_has_order()
    ensures { ExplainedFrontHasOrder }
{}

/// There is one message at most past which no order goes.
pub fn stop_is_one()
    ensures { StopIsOne }
{}

/// Messages with one past which no order goes have no order.
pub fn stop_has_no_order()
    ensures { StopHasNoOrder }
{}

/// Good messages without an order have never no message past which none goes.
pub fn stop_is_there()
    ensures { StopIsThere }
{}

/// Whatever entries explain the replies before the message past which no order goes leave out a tree request that it answers.
pub fn stop_is_come_to()
    ensures { StopIsComeTo }
{}

/// After all those entries that request is refused with some code.
pub fn stop_is_refused()
    ensures { StopIsRefused }
{}

/// Where there is one such code alone, the request is refused with it after all of them.
pub fn one_code_refuses_all()
    ensures { OneCodeRefusesAll }
{}

/// Where the first messages have no order, no more of them have one.
pub fn none_goes_on()
    ensures { NoneGoesOn }
{}

/// There is one message at most with which the first messages have no order any more.
pub fn first_without_is_one()
    ensures { FirstWithoutIsOne }
{}

/// Messages without an order have never no message with which the first ones have none any more.
pub fn first_without_is_there()
    ensures { FirstWithoutIsThere }
{}

/// The message past which no order goes comes no later than that with which the first messages have no order any more.
pub fn stop_comes_first()
    ensures { StopComesFirst }
{}
