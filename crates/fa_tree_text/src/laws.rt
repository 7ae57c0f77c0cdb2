//! What follows from the definitions alone. Each function does nothing: its contract is the law.

ghost use Rattle.fa_tree_text.specs.Laws.{OneTreeText, OneTreeFault, TreeTextHasNoFault, TreeTextOrFault};

/// Bytes are the text of one tree at most.
pub fn one_tree()
    ensures { OneTreeText }
{}

/// Bytes have their fault as a tree text at one line at most.
pub fn one_tree_fault()
    ensures { OneTreeFault }
{}

/// A tree text has no fault.
pub fn tree_text_has_no_fault()
    ensures { TreeTextHasNoFault }
{}

/// Bytes that are no tree text have a fault.
pub fn tree_text_or_fault()
    ensures { TreeTextOrFault }
{}
