//! Guesses an order of the tree requests of a capture.
#![tactic(auto)]

mod candidates;
pub mod laws;
mod proposing;
mod rank;
mod ready;

pub use proposing::{MAX_TRIED, propose};
