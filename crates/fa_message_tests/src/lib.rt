//! Tests of requests, replies and notifications by what `fa_bodies` offers, as tables.
//!
//! The expected values come from the formats (docs/formats.md) and from `fuse.h`.
#![tactic(auto)]

#[cfg(test)]
mod fields;
#[cfg(test)]
mod heads;
#[cfg(test)]
mod listings;
#[cfg(test)]
mod messages;
#[cfg(test)]
mod spelling;
