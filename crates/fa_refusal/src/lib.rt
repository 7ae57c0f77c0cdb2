//! What an entry of an order conflicts with, of which a verdict tells that it is at fault.
//!
//! [`Refused`] is an order with that entry. [`Refused::reach`] takes the steps before it, to the tree that refuses its step;
//! [`Finding::of`] finds in that tree why it does; [`Past::of`] takes the steps once more, and notes which requests made, named, took
//! away and changed what was found, and until when the answer was right; [`Overlaps::of`] tells which requests were under way with it, so
//! that another order may explain its answer. [`Placed`] has which entry names which request. What is found is data: `fa_explain_order`
//! puts it into words.
#![tactic(auto)]

mod attributes;
mod bindings;
mod case;
mod contents;
mod earlier;
mod finding;
mod found;
mod history;
mod listings;
mod overlaps;
mod past;
mod paths;
mod placed;
mod reached;
mod refused;
mod replaying;
mod unmet;

pub use attributes::{Expected, ListedType, OtherAttributes};
pub use bindings::Binding;
pub use case::{Case, NamedPlace};
pub use contents::{Difference, Reading};
pub use earlier::Earlier;
pub use finding::Finding;
pub use found::Found;
pub use history::{FileHistory, History, NodeGiven, PlaceHistory};
pub use listings::{Listing, OtherType, Twice};
pub use overlaps::{Beside, Next, Overlaps};
pub use past::Past;
pub use paths::path_of;
pub use placed::Placed;
pub use reached::Reached;
pub use refused::{Refused, entries_before};
pub use unmet::{Part, Subject, Unmet};
