//! What the messages of /dev/fuse say of nodes and file handles: lookup counts, the names of nodes, which handles are
//! open, what each READDIR goes on from, and the tree requests with their answers.
#![tactic(auto)]

mod books;
mod call;
mod call_book;
mod call_list;
mod calls;
mod error;
mod giving;
mod handles;
mod key;
mod kinds;
pub mod laws;
mod ledger;
mod listings;
mod live;
mod messages;
mod name;
mod naming;
mod nodes;
mod operation;
mod placing;
mod row;
mod standing;
mod tables;

pub use call::{Answer, Call, GivenNodes, Listing};
pub use call_list::CallList;
pub use calls::Calls;
pub use error::LedgerError;
pub use ledger::Ledger;
pub use messages::CallMessages;
pub use name::NodeName;
pub use operation::{Action, List, Operation, Outcome};
pub use standing::Standing;
