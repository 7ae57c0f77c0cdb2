//! Tests of what `fa_check` and `fa_propose` offer: each call on one capture, and the check where memory is refused.
//!
//! The expected values come from the formats (docs/formats.md) and from `errno.h`.
#![tactic(auto)]

#[cfg(test)]
mod calls;
#[cfg(test)]
mod memory;
