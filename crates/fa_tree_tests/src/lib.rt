//! Tests of trees and of their steps by what `fa_tree` offers, as tables.
//!
//! The expected values come from the formats (docs/formats.md), from `fuse.h` and from `errno.h`.
#![tactic(auto)]

#[cfg(test)]
mod held;
#[cfg(test)]
mod large;
#[cfg(test)]
mod lists;
#[cfg(test)]
mod same;
#[cfg(test)]
mod steps;
#[cfg(test)]
mod telling;
#[cfg(test)]
mod trees;
