//! What follows from the definitions alone. Each function does nothing: its contract is the law.

ghost use Rattle.std.specs.Prelude.{◌≡◌};
ghost use Rattle.fa_order.specs.declared.lines.TheConstants.{MAX_TEXT_BYTES};
ghost use Rattle.fa_order.specs.Laws.{OneOrderText, OneOrderFault, OrderTextHasNoFault, OrderTextOrFault, EachOrderHasOneText};

/// Bytes are the text of one list of entries at most.
pub fn one_order()
    ensures { OneOrderText }
{}

/// Bytes have their fault as an order text at one line at most.
pub fn one_order_fault()
    ensures { OneOrderFault }
{}

/// An order text has no fault.
pub fn order_text_has_no_fault()
    ensures { OrderTextHasNoFault }
{}

/// Bytes that are no order text have a fault.
pub fn order_text_or_fault()
    ensures { OrderTextOrFault }
{}

/// Entries whose numbers are in range have a text, and one alone.
pub fn each_order_has_one_text()
    ensures { EachOrderHasOneText }
{}

/// The limit of a text, as a number.
pub fn limits()
    ensures { MAX_TEXT_BYTES ≡ 268435456 }
{}
