//! Tests of what `fa_search` offers: what a search finds of captures whose requests overlap.
//!
//! The expected values come from what the requests do (POSIX) and from the definition of an order.
#![tactic(auto)]

#[cfg(test)]
mod finds;
