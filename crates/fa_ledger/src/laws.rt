//! What holds of names, events, listings and calls. Each function does nothing: its contract is the law.

ghost use Rattle.fa_ledger.specs.Laws.{NameIsLeast, EventsAreOne, EventsAreThere, CallsAreOne, CallsAreThere, NamesLookBack, CallsStay, ListedIsOne, ListedIsThere, CountIsFirst, CallsListSoFar, CallsEndWhereAnswered};

/// A node other than the root has the name of the least event since which it is counted.
pub fn name_is_least()
    ensures { NameIsLeast }
{}

/// Messages have one list of events at most.
pub fn events_are_one()
    ensures { EventsAreOne }
{}

/// Messages that the session allows have a list of events.
pub fn events_are_there()
    ensures { EventsAreThere }
{}

/// Messages have one list of calls at most.
pub fn calls_are_one()
    ensures { CallsAreOne }
{}

/// Good messages have never no calls.
pub fn calls_are_there()
    ensures { CallsAreThere }
{}

/// The names of nodes, the names of file handles and the listings of requests, as of a message, depend on the messages
/// before it alone.
pub fn names_look_back()
    ensures { NamesLookBack }
{}

/// A call stays one when messages follow, but for an answer that is among these.
pub fn calls_stay()
    ensures { CallsStay }
{}

/// An offset on a handle has at most one listing so far.
pub fn listed_is_one()
    ensures { ListedIsOne }
{}

/// An offset on a handle has never no listing so far. For each call that lists, `calls_list_so_far` gives it.
pub fn listed_is_there()
    ensures { ListedIsThere }
{}

/// A count up to an offset is that up to and with the first entry that has it.
pub fn count_is_first()
    ensures { CountIsFirst }
{}

/// The listing so far that the calls of messages give for one of them is the listing so far of its request.
pub fn calls_list_so_far()
    ensures { CallsListSoFar }
{}

/// What came of a call is an error or a success exactly where it has an answer.
pub fn calls_end_where_answered()
    ensures { CallsEndWhereAnswered }
{}
