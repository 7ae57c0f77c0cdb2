//! What is said of each code of the audit's answers, for the author of a server.
//!
//! [`Paragraph::of`] gives it for one code: of what the code is told, where, and what to look at then. What to look at is advice. The
//! texts of the codes themselves are those of [`fa_capture::codes`].
#![tactic(auto)]

mod advice;
mod paragraph;

pub use paragraph::Paragraph;
