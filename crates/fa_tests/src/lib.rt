//! Tests of streams, captures, sessions and ledgers by what their crates offer, as tables. Those of single messages stand in
//! `fa_message_tests`, those of trees in `fa_tree_tests`, and what the program answers is shown by the files in `cases`.
//!
//! The expected values come from the formats (docs/formats.md), from `fuse.h` and from `errno.h`.
#![tactic(auto)]

#[cfg(test)]
mod captures;
pub mod devices;
#[cfg(test)]
mod first;
#[cfg(test)]
mod generations;
#[cfg(test)]
mod held;
#[cfg(test)]
mod ledgers;
#[cfg(test)]
mod listings;
pub mod messages;
pub mod paired;
#[cfg(test)]
mod pieces;
pub mod sent;
#[cfg(test)]
mod sessions;
#[cfg(test)]
mod standings;
#[cfg(test)]
mod streams;
#[cfg(test)]
mod tried;
