//! Who is told how far a search has come.

/// How far a search has come.
#[derive(Clone, Copy, Debug, PartialEq, Eq)]
pub struct SoFar {
    /// How many messages it has passed: some entries explain all replies among them.
    pub messages: u32,
    /// How many trees it holds.
    pub trees: usize,
    /// How many steps of its budget are left.
    pub steps_left: u64,
}

/// Is told how far a search has come, while it goes on.
pub trait Listener {
    /// Is told so.
    fn hear(&mut self, so_far: &SoFar);
}

/// Nobody is told.
#[derive(Clone, Copy, Debug)]
pub struct Nobody;

impl Listener for Nobody {
    fn hear(&mut self, _so_far: &SoFar) {}
}
