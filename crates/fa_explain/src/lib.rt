//! Why a capture has a fault, and why a text is none: the lines behind the line of a verdict.
//!
//! [`fault_reasons`] tells of a message that breaks the protocol, or of bytes that are no capture, which check fails, what the message
//! conflicts with, and what to look at in the server or the recorder. [`order_text_reasons`] and [`tree_text_reasons`] tell of texts
//! that are none. Each answers a [`Text`](fa_show::Text), which is printing ASCII and line feeds alone.
//!
//! Others that tell of a verdict take the same lines: [`cite`] writes what a message asks for or answers, [`look_at`] and
//! [`advice_of`] what to look at.
#![tactic(auto)]

mod advice;
mod bodies;
mod citing;
mod exchange;
mod explaining;
mod fault;
mod framing;
mod given;
mod handles;
mod headers;
mod listings;
mod misfits;
mod misplaced;
mod names;
mod nodes;
mod order_lines;
mod past;
mod sessions;
mod shapes;
mod successes;
mod texts;
mod tree_lines;
mod tree_paths;

pub use advice::{Advice, advice_of, look_at};
pub use citing::{asked_before, cite};
pub use explaining::fault_reasons;
pub use texts::{order_text_reasons, tree_text_reasons};
