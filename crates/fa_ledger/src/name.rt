//! Names of nodes.

/// The name of a node. A node id is used again once it is forgotten, and then has another name.
#[derive(Clone, Copy, Debug, PartialEq, Eq, Hash)]
pub enum NodeName {
    /// The root, node 1.
    Root,
    /// A node that a reply gave: the message number of the reply since which its lookup count has been positive, and its
    /// id.
    Given { by: u32, id: u64 },
}
