//! What a search of all orders found, where requests overlap.

use std::alloc::AllocError;

/// What a search of all orders of a capture's requests found, from the tree that the server began with.
#[derive(Clone, Copy)]
pub enum AllOrders {
    /// One is legal.
    Legal,
    /// None is: none explains the reply of this message and all replies before it, and some explain all before it.
    Stop(u32),
    /// The search gave up at this message: some explain all replies before it.
    GaveUp(u32),
}

/// A search of all orders of a capture's requests, which is made where it is asked for.
pub trait Search {
    /// What it finds; none where it is not to be made.
    ///
    /// # Errors
    ///
    /// [`AllocError`] where memory was refused.
    fn all_orders(&mut self) -> Result<Option<AllOrders>, AllocError>;
}

/// No search is made.
#[derive(Clone, Copy)]
pub struct NoSearch;

impl Search for NoSearch {
    fn all_orders(&mut self) -> Result<Option<AllOrders>, AllocError> {
        Ok(None)
    }
}
