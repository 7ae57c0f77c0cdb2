//! Why an order does not explain a capture: the lines behind the line of a verdict.
//!
//! [`order_reasons`] tells of an entry of an order that a tree refuses which rule its answer breaks, what the tree holds there, which
//! request made it so, and until when the answer was right; of an entry whose place or form is at fault, why; and of an order that
//! explains all replies, which requests it leaves out. It answers a [`Text`](fa_show::Text), which is printing ASCII and line feeds
//! alone.
#![tactic(auto)]

mod all_orders;
mod allowed;
mod another;
mod answers;
mod attributes;
mod bindings;
mod causes;
mod contents;
mod directories;
mod emptiness;
mod holding;
mod looks;
mod misplaced;
mod no_order;
mod ordering;
mod rules;
mod scene;
mod start;
mod stepping;
mod unmet;
mod wording;

pub use all_orders::{AllOrders, NoSearch, Search};
pub use no_order::{Coming, NoOrderReasons, gave_up_reasons, no_order_reasons};
pub use ordering::{OrderReasons, order_reasons};
