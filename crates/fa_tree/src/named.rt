//! What a call names in a tree.

use crate::id::FileId;
use crate::open_names::OpenNames;

/// The number of a request, and the files that it names.
#[derive(Clone, Copy, Debug)]
pub(crate) struct Named {
    /// The number of its message, by which a file is known that it makes.
    pub asked: u32,
    /// The file of the node of its header.
    pub node: FileId,
    /// The new directory of a RENAME or RENAME2, and the file of a LINK.
    pub other: Option<FileId>,
    /// The file of the name that its action gives in the directory of the node, of RENAME and RENAME2 of the old one, if the action gives
    /// one and it is there.
    pub file: Option<FileId>,
}

/// The files that a call names that lists, and the directory that it lists, which is open.
#[derive(Clone, Copy)]
pub(crate) struct NamedDirectory<'t> {
    pub named: Named,
    /// The directory of its handle.
    pub names: OpenNames<'t>,
}
