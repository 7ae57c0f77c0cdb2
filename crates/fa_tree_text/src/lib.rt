//! Tree texts: the tree that a capture begins with, read from bytes.
#![tactic(auto)]

mod additions;
mod fields;
mod folders;
pub mod laws;
mod paths;
mod tree_text;

pub use tree_text::read_tree;
