//! Tests of order texts and tree texts by what `fa_order` and `fa_tree_text` offer, as tables.
//!
//! The expected values come from the formats (docs/formats.md).
#![tactic(auto)]

#[cfg(test)]
mod orders;
#[cfg(test)]
mod trees;
