//! What the rules say of each operation: what a success of it needs, and where an error to it has a cause.

use bitflags::Flags;
use fa_bodies::errno::{EEXIST, EISDIR, ENOENT, ENOTDIR, ENOTEMPTY};
use fa_bodies::{FattrFlags, RenameFlags};
use fa_ledger::Action;
use fa_refusal::Case;

/// What the rules say of an operation.
pub(crate) struct Rule {
    /// Its name, of a RENAME with its flags. None of another one, which is named by its opcode.
    pub name: Option<&'static str>,
    /// What a success of it needs, behind the operation. None of GETATTR and SETATTR, of which the rule of sizes is told.
    pub success: Option<&'static str>,
    /// Of the errors that a tree determines those that it may have a cause for, each with that.
    pub causes: &'static [(i32, Cause)],
}

/// What the cause of an error is about.
#[derive(Clone, Copy)]
pub(crate) enum About {
    /// Whether the name is there.
    Name,
    /// Whether the new name is.
    NewName,
    /// Whether both names are.
    EitherName,
    /// Whether the directory that has the name has a name in it.
    Content,
    /// Whether the one that has the new name has.
    NewContent,
    /// The type of the node.
    NodeType,
    /// The types of the files that have the names.
    NamedTypes,
    /// Whether the file of the node has a name.
    File,
    /// The same of the directory in which a name is made, or of the file that gets it.
    Directory,
}

/// A cause of an error in words, and what it is about.
pub(crate) type Cause = (&'static str, About);

/// A node is of a file without a name,
const NAMELESS_FILE: Cause = ("the file of the node has no name any more", About::File);
/// or of a directory without one, in which a name is made;
const NAMELESS_DIRECTORY: Cause = (
    "the file of the node has no name any more",
    About::Directory,
);
/// or either is, the directory or the file that gets the name.
const NAMELESS_EITHER: Cause = (
    "the file or the directory has no name any more",
    About::Directory,
);
/// A node is of no directory,
const NODE_OF_NONE: Cause = ("the node is no directory", About::NodeType);
/// or it is of one.
const NODE_OF_DIRECTORY: Cause = ("the node is a directory", About::NodeType);
/// A name is not there,
const NOT_THERE: Cause = ("the name is not there", About::Name);
/// or it is,
const THERE: Cause = ("the name is there", About::Name);
/// and is of a directory,
const OF_DIRECTORY: Cause = ("the name is of a directory", About::NamedTypes);
/// of what is none,
const OF_NONE: Cause = (
    "the name is of no directory, or the node is none",
    About::NamedTypes,
);
/// or of a directory with names in it.
const NOT_EMPTY: Cause = ("the directory has a name in it", About::Content);
/// The name that moves is not there,
const OLD_NOT_THERE: Cause = (
    "the old name is not there, or one of the directories has no name itself",
    About::Name,
);
/// or of the two that are exchanged one is not.
const EITHER_NOT_THERE: Cause = (
    "one of the two names is not there, or one of the directories has no name itself",
    About::EitherName,
);
/// Either is to be in what is no directory,
const IN_NONE: Cause = ("one of the directories is none", About::NamedTypes);
/// or a directory is to replace what is none.
const REPLACES_NONE: Cause = (
    "one of the directories is none, or a directory is to replace what is none",
    About::NamedTypes,
);
/// What is none is to replace a directory,
const REPLACES_DIRECTORY: Cause = ("what is no directory is to replace one", About::NamedTypes);
/// or one with names in it is to be replaced.
const REPLACES_NAMES: Cause = (
    "the new name is of a directory that has a name in it",
    About::NewContent,
);
/// The new name is there.
const NEW_THERE: Cause = ("the new name is there", About::NewName);

/// READDIR, READDIRPLUS and OPENDIR.
static LISTING: Rule = Rule {
    name: None,
    success: Some(" is of a directory"),
    causes: &[(ENOENT, NAMELESS_FILE), (ENOTDIR, NODE_OF_NONE)],
};

/// LOOKUP.
static LOOKUP: Rule = Rule {
    name: None,
    success: Some(" gives a node where the name is there, and node 0 where it is not"),
    causes: &[(ENOENT, NOT_THERE), (ENOTDIR, NODE_OF_NONE)],
};

/// GETATTR, and SETATTR that sets no size.
static ATTRIBUTES: Rule = Rule {
    name: None,
    success: None,
    causes: &[(ENOENT, NAMELESS_FILE)],
};

/// SETATTR that sets a size.
static SIZE: Rule = Rule {
    name: None,
    success: None,
    causes: &[(ENOENT, NAMELESS_FILE), (EISDIR, NODE_OF_DIRECTORY)],
};

/// READLINK.
static READLINK: Rule = Rule {
    name: None,
    success: Some(" is of a symbolic link"),
    causes: &[(ENOENT, NAMELESS_FILE)],
};

/// SYMLINK, MKNOD and MKDIR.
static NEW_FILE: Rule = Rule {
    name: None,
    success: Some(" needs a directory that was not removed, without the new name"),
    causes: &[
        (ENOENT, NAMELESS_DIRECTORY),
        (ENOTDIR, NODE_OF_NONE),
        (EEXIST, THERE),
    ],
};

/// CREATE.
static CREATE: Rule = Rule {
    name: None,
    success: Some(
        " needs a directory that was not removed; the name is free, or of a regular file and without O_EXCL",
    ),
    causes: &[
        (ENOENT, NAMELESS_DIRECTORY),
        (ENOTDIR, NODE_OF_NONE),
        (EEXIST, THERE),
        (EISDIR, OF_DIRECTORY),
    ],
};

/// UNLINK.
static UNLINK: Rule = Rule {
    name: None,
    success: Some(" needs the name, of what is no directory"),
    causes: &[
        (ENOENT, NOT_THERE),
        (ENOTDIR, NODE_OF_NONE),
        (EISDIR, OF_DIRECTORY),
    ],
};

/// RMDIR.
static RMDIR: Rule = Rule {
    name: None,
    success: Some(" needs the name, of an empty directory"),
    causes: &[
        (ENOENT, NOT_THERE),
        (ENOTDIR, OF_NONE),
        (EEXIST, NOT_EMPTY),
        (ENOTEMPTY, NOT_EMPTY),
    ],
};

/// RENAME, and RENAME2 without flags.
static RENAME: Rule = Rule {
    name: Some("RENAME"),
    success: Some(
        " needs the old name and a new directory that has a name itself; what has the new name may be replaced, a file by a file and an empty directory by a directory; none moves below itself",
    ),
    causes: &[
        (ENOENT, OLD_NOT_THERE),
        (ENOTDIR, REPLACES_NONE),
        (EISDIR, REPLACES_DIRECTORY),
        (EEXIST, REPLACES_NAMES),
        (ENOTEMPTY, REPLACES_NAMES),
    ],
};

/// RENAME2 with RENAME_NOREPLACE.
static RENAME_NOREPLACE: Rule = Rule {
    name: Some("RENAME_NOREPLACE"),
    success: Some(" needs the old name, and that the new one is free"),
    causes: &[
        (ENOENT, OLD_NOT_THERE),
        (ENOTDIR, REPLACES_NONE),
        (EISDIR, REPLACES_DIRECTORY),
        (EEXIST, NEW_THERE),
        (ENOTEMPTY, REPLACES_NAMES),
    ],
};

/// RENAME2 with RENAME_EXCHANGE.
static RENAME_EXCHANGE: Rule = Rule {
    name: Some("RENAME_EXCHANGE"),
    success: Some(" needs both names; no directory comes into itself or below itself"),
    causes: &[(ENOENT, EITHER_NOT_THERE), (ENOTDIR, IN_NONE)],
};

/// LINK.
static LINK: Rule = Rule {
    name: None,
    success: Some(
        " needs a file that has a name and is no directory, and a directory that was not removed, without the new name",
    ),
    causes: &[
        (ENOENT, NAMELESS_EITHER),
        (ENOTDIR, NODE_OF_NONE),
        (EEXIST, THERE),
    ],
};

/// OPEN, READ and WRITE.
static BYTES: Rule = Rule {
    name: None,
    success: Some(" is of a regular file"),
    causes: &[(ENOENT, NAMELESS_FILE), (EISDIR, NODE_OF_DIRECTORY)],
};

impl Rule {
    /// What they say of the operation of a request.
    pub fn of(case: &Case<'_>) -> &'static Rule {
        let Some(action) = case.action() else {
            return &LISTING;
        };
        match action {
            Action::Lookup { .. } => &LOOKUP,
            Action::Getattr { .. } => &ATTRIBUTES,
            Action::Setattr { .. } => {
                if sets(case, FattrFlags::SIZE) {
                    &SIZE
                } else {
                    &ATTRIBUTES
                }
            }
            Action::Readlink { .. } => &READLINK,
            Action::Symlink { .. } | Action::Mknod { .. } | Action::Mkdir { .. } => &NEW_FILE,
            Action::Create { .. } => &CREATE,
            Action::Unlink { .. } => &UNLINK,
            Action::Rmdir { .. } => &RMDIR,
            Action::Rename { .. } => &RENAME,
            Action::Rename2 { flags, .. } => match flags {
                RenameFlags::Replace => &RENAME,
                RenameFlags::NoReplace => &RENAME_NOREPLACE,
                RenameFlags::Exchange => &RENAME_EXCHANGE,
            },
            Action::Link { .. } => &LINK,
            Action::Open { .. } | Action::Read { .. } | Action::Write { .. } => &BYTES,
            Action::Opendir { .. } => &LISTING,
        }
    }
}

/// Whether a request is a SETATTR that sets these.
pub(crate) fn sets(case: &Case<'_>, flags: FattrFlags) -> bool {
    match case.action() {
        Some(Action::Setattr { setattr, .. }) => setattr.valid().contains(flags),
        _ => false,
    }
}

/// The cause of an error to a request, if it may have one.
pub(crate) fn cause(case: &Case<'_>, error: i32) -> Option<Cause> {
    for (answered, cause) in Rule::of(case).causes {
        if *answered == error {
            return Some(*cause);
        }
    }
    None
}
