//! Keys of file handles.

use crate::name::NodeName;

/// What a file handle is open on.
#[derive(Clone, Copy, Debug, PartialEq, Eq, Hash)]
pub enum HandleKind {
    /// A file, by OPEN or CREATE.
    File,
    /// A directory, by OPENDIR.
    Directory,
}

/// What an open file handle is known by: servers may give one number to handles of several nodes.
#[derive(Clone, Copy, Debug, PartialEq, Eq, Hash)]
pub struct Key {
    /// The name of the node that it is open on.
    pub node: NodeName,
    /// The number that the server gave it (`fh` of `struct fuse_open_out` of `fuse.h`).
    pub fh: u64,
    /// What it is open on.
    pub kind: HandleKind,
}
