//! Which orders of the tree requests of a capture are legal.
#![tactic(auto)]

mod checking;
mod cutting;
pub mod laws;
mod placing;
mod unplaced_answers;
mod verdict;

pub use checking::check;
pub use cutting::cut;
pub use placing::Placing;
pub use verdict::Verdict;
