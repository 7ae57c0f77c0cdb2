//! Tests of what `fa_audit` and `fa_reasons` offer: each call over memory. Further verdicts stand in the repository's folder `cases`, as
//! calls of the program.
//!
//! The expected values come from the formats (docs/formats.md).
#![tactic(auto)]

#[cfg(test)]
mod answers;
#[cfg(test)]
mod devices;
#[cfg(test)]
mod runs;
