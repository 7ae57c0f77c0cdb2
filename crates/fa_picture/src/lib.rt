//! The picture of a capture: how its requests lie beside one another, and where an order places them; and a verdict as a page with it.
//!
//! [`picture`] draws each request as a bar over the messages from the one that asks to the one that answers, with the place at which an
//! order has it take effect, and what is at fault in red. It is SVG in printing ASCII and line feeds alone, whatever the capture holds;
//! what comes from the capture is [escaped](write_content), so that it is text there and nothing else.
//!
//! [`report`] writes an HTML page that stands by itself: the line of a verdict, why it is so, the picture of the requests around it, and
//! their messages. What comes from a capture is text in it and nothing else.
#![tactic(auto)]

mod band;
mod bars;
mod diamonds;
mod drawing;
mod effect;
mod escape;
mod exchanges;
mod fault;
mod fitting;
mod labels;
mod lanes;
mod layout;
mod legend;
mod look;
mod mark;
mod numbered;
mod outcome;
mod overlap;
mod page;
mod painting;
mod painting_bars;
mod painting_diamonds;
mod palette;
mod pieces;
mod reasons;
mod rows;
mod scene;
mod script;
mod shapes;
mod style;
mod table;
mod taking_effect;
mod window;
mod words;

pub use drawing::{Drawing, Heading, picture};
pub use escape::{write_content, write_markup};
pub use exchanges::Exchanges;
pub use fault::Fault;
pub use outcome::Outcome;
pub use page::{DEFAULT_ROWS, Findings, report};
pub use scene::{Subject, centre};
pub use taking_effect::moments;
pub use window::{DEFAULT_MESSAGES, View};
