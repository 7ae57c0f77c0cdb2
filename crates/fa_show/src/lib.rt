//! The messages of a capture, a line each, in the words of the protocol.
//!
//! [`show`] writes what each message asks for or answers, what other messages say of it, and the code with which it is refused; or, in
//! the place of these lines, a table of the requests of each operation. What it writes is printing ASCII and line feeds alone, whatever
//! the capture holds.
//!
//! Others that write of messages take the same words: [`Text`] is what is written, [`Line`] the line of one message, and [`words`]
//! has the names of numbers. [`request_in`] and [`message_in`] read a message as far as it can be read.
#![tactic(auto)]

mod asked;
mod choice;
mod choosing;
mod counting;
mod error;
mod following;
mod line;
mod naming;
mod notes;
mod opening;
mod pairing;
mod partly;
mod passed;
mod replies;
mod requests;
mod showing;
mod spelling;
mod summary;
mod tally;
mod text;
pub mod words;

pub use asked::{Asked, Told, message_in, request_in, said, u32_at, u64_at};
pub use choice::Choice;
pub use error::ShowError;
pub use line::{InitFields, Line};
pub use pairing::Fate;
pub use showing::show;
pub use text::Text;
