//! What holds of orders and verdicts. Each function does nothing: its contract is the law.

ghost use Rattle.fa_check.specs.Laws.{ValidWhereEachIsPlaced, RunIsOne, LegalHasNoFault, VerdictIsOne, VerdictIsThere, NeverUnknownHere, UnplacedMakesNone, CutIsLegal, ExplainedIsLegalCut, LegalExplains, ExplainsAllIsLegal, CutAgain, NoOrderStays, CutIsOne, CutIsThere, CutIsToldLegal};

/// An order is valid exactly where each entry is placed rightly after those before it, and none that was answered is left out.
pub fn valid_where_each_is_placed()
    ensures { ValidWhereEachIsPlaced }
{}

/// From a tree the entries of an order lead to one other at most.
pub fn run_is_one()
    ensures { RunIsOne }
{}

/// A legal run has no entry at fault.
pub fn legal_has_no_fault()
    ensures { LegalHasNoFault }
{}

/// An order has one verdict at most.
pub fn verdict_is_one()
    ensures { VerdictIsOne }
{}

/// An order has never no verdict.
pub fn verdict_is_there()
    ensures { VerdictIsThere }
{}

/// No entry is at fault because the tree does not know what its call names.
pub fn never_unknown_here()
    ensures { NeverUnknownHere }
{}

/// A run makes no file of a request that no entry names.
pub fn unplaced_makes_none()
    ensures { UnplacedMakesNone }
{}

/// An order that is legal stays so when it is cut at a message, for the messages before that one.
pub fn cut_is_legal()
    ensures { CutIsLegal }
{}

/// Entries that explain the replies before a message, and need not hold all answers, are legal when they are cut at it.
pub fn explained_is_legal_cut()
    ensures { ExplainedIsLegalCut }
{}

/// What is legal explains the replies before each message.
pub fn legal_explains()
    ensures { LegalExplains }
{}

/// Of good messages entries that explain all replies are legal.
pub fn explains_all_is_legal()
    ensures { ExplainsAllIsLegal }
{}

/// Entries that are each placed rightly, cut, and cut again at that message or an earlier one, are the entries cut there.
pub fn cut_again()
    ensures { CutAgain }
{}

/// Messages whose first ones have no legal order have none themselves.
pub fn no_order_stays()
    ensures { NoOrderStays }
{}

/// An order has one cut at a message at most.
pub fn cut_is_one()
    ensures { CutIsOne }
{}

/// Of good messages an order has never no cut.
pub fn cut_is_there()
    ensures { CutIsThere }
{}

/// The verdict of a legal order that is cut is, for the messages before, that it is legal.
pub fn cut_is_told_legal()
    ensures { CutIsToldLegal }
{}
