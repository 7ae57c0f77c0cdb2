//! Order texts: the entries of an order, read from bytes and written.
#![tactic(auto)]

mod entry;
mod error;
pub mod laws;
mod lines;
mod order;

pub use entry::Entry;
pub use error::TextError;
pub use lines::{END_LINE, LINE_FEED, MAX_TEXT_BYTES};
pub use order::{read_order, write_order};
