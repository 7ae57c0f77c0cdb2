//! Searches for an order of the tree requests of a capture: finds one, or the message past which none goes, or gives up where a
//! budget is spent.
#![tactic(auto)]

mod budget;
mod coming;
mod configuration;
mod finding;
mod flight;
pub mod laws;
mod listener;
mod searching;
mod settling;

pub use budget::Budget;
pub use coming::{Alternatives, orders_to};
pub use finding::Finding;
pub use listener::{Listener, Nobody, SoFar};
pub use searching::search;
