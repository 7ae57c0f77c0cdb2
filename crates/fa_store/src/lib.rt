//! What a tree stores: the bytes of files.
//!
//! [`Contents`] are the bytes of one file. They lie in pages, so that holes, copies and files that grow cost little.
#![tactic(auto)]

mod contents;
mod digest;
mod far_pages;
mod many_pages;
mod page;
mod pages;

pub use contents::Contents;
pub use digest::digest_of;
