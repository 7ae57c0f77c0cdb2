//! Attributes that are not those of the file: code 83.

use crate::bindings::directory_listed;
use crate::case::Case;
use crate::listings::{gives_node, kind_number};
use bitflags::Flags;
use fa_bodies::{Attributes, Dirent, FattrFlags, Mode, SetattrBytes};
use fa_ledger::{Action, List, Operation, Outcome};
use fa_tree::{FileFacts, FileId, Kind, Tree};

/// Attributes that an answer tells and that are not those of their file.
#[derive(Clone, Copy)]
pub enum OtherAttributes<'a> {
    /// Those in the answer to a request that does not list.
    Told {
        /// What was told.
        told: Attributes,
        /// What has to be told.
        expected: Expected,
        /// What the file had before the request, if it was there.
        before: Option<Expected>,
    },
    /// The type in those of an entry of a READDIRPLUS.
    Listed(ListedType<'a>),
}

/// An entry of a READDIRPLUS whose attributes tell another type than that of the file.
#[derive(Clone, Copy)]
pub struct ListedType<'a> {
    /// The name.
    pub name: &'a [u8],
    /// The mode that is told.
    pub mode: Mode,
    /// Whether the entry itself tells the type of the file.
    pub is_listed_so: bool,
    /// The file of the name,
    pub file: FileId,
    /// and its type.
    pub kind: Kind,
}

/// What attributes of a file an answer has to tell.
#[derive(Clone, Copy)]
pub struct Expected {
    /// The file, if it is there before the request.
    pub file: Option<FileId>,
    /// Its type,
    pub kind: Kind,
    /// its permission bits,
    pub bits: u32,
    /// how many bytes it has,
    pub size: u64,
    /// and how many names.
    pub links: u64,
}

/// The attributes in the answer to a request that are not those of the file.
pub(crate) fn other_attributes<'a>(tree: &Tree, case: &Case<'a>) -> Option<OtherAttributes<'a>> {
    match &case.operation {
        Operation::List(list) => match other_listed(tree, case, list) {
            Some(listed) => Some(OtherAttributes::Listed(listed)),
            None => None,
        },
        Operation::Act(action) => other_told(tree, case, action),
    }
}

/// The first entry of a listing whose attributes tell another type.
fn other_listed<'a>(tree: &Tree, case: &Case<'_>, list: &List<'a>) -> Option<ListedType<'a>> {
    let (Outcome::Succeeds(entries), Some(directory)) = (
        &list.outcome,
        directory_listed(tree, case),
    ) else {
        return None;
    };
    for dirent in *entries {
        if let Some(other) = other_type(tree, directory, &dirent) {
            return Some(other);
        }
    }
    None
}

/// An entry whose attributes tell another type, if they do.
fn other_type<'a>(tree: &Tree, directory: FileId, dirent: &Dirent<'a>) -> Option<ListedType<'a>> {
    if !gives_node(dirent) {
        return None;
    }
    let (Some(entry), Some(file)) = (&dirent.entry, tree.find(directory, dirent.name)) else {
        return None;
    };
    let mode = entry.attr.mode;
    let kind = tree.facts(file)?.kind;
    if mode.file_type() == Some(kind) {
        return None;
    }
    Some(ListedType {
        name: dirent.name,
        mode,
        is_listed_so: dirent.kind == kind_number(kind),
        file,
        kind,
    })
}

/// What the answer to an action tells, and what it has to tell.
fn other_told<'a>(
    tree: &Tree,
    case: &Case<'_>,
    action: &Action<'_>,
) -> Option<OtherAttributes<'a>> {
    match (expected_of(tree, case, action), attributes_told(action)) {
        (Some(expected), Some(told)) => Some(OtherAttributes::Told {
            told,
            expected,
            before: of_file(tree, expected.file),
        }),
        _ => None,
    }
}

/// The attributes that an answer tells.
fn attributes_told(action: &Action<'_>) -> Option<Attributes> {
    match action {
        Action::Lookup { outcome, .. }
        | Action::Symlink { outcome, .. }
        | Action::Mknod { outcome, .. }
        | Action::Mkdir { outcome, .. }
        | Action::Link { outcome, .. } => match outcome {
            Outcome::Succeeds(entry) => Some(entry.attributes().read()),
            _ => None,
        },
        Action::Getattr { outcome } | Action::Setattr { outcome, .. } => match outcome {
            Outcome::Succeeds(told) => Some(told.attributes().read()),
            _ => None,
        },
        Action::Create { outcome, .. } => match outcome {
            Outcome::Succeeds((entry, _)) => Some(entry.attributes().read()),
            _ => None,
        },
        _ => None,
    }
}

/// What attributes an answer to an action has to tell.
fn expected_of(tree: &Tree, case: &Case<'_>, action: &Action<'_>) -> Option<Expected> {
    match action {
        Action::Create { mode, umask, .. } => {
            of_created(tree, case, made(Kind::Regular, *mode, *umask))
        }
        Action::Symlink { .. } | Action::Mkdir { .. } | Action::Mknod { .. } => of_made(action),
        _ => of_known(tree, case, action),
    }
}

/// The same of an action on a file that is there.
fn of_known(tree: &Tree, case: &Case<'_>, action: &Action<'_>) -> Option<Expected> {
    let known = of_file(tree, file_succeeded(tree, case, action))?;
    Some(match action {
        Action::Setattr { setattr, .. } => known.behind_setattr(setattr),
        Action::Link { .. } => known.with_a_link(),
        _ => known,
    })
}

/// The file whose attributes the success of an action tells, if it does.
pub(crate) fn file_succeeded(tree: &Tree, case: &Case<'_>, action: &Action<'_>) -> Option<FileId> {
    match action {
        Action::Getattr { .. } | Action::Setattr { .. } => case.node_in(tree),
        Action::Lookup { .. } | Action::Create { .. } => case.named_in(tree),
        Action::Link { .. } => case.other_in(tree),
        _ => None,
    }
}

/// The same of a CREATE, which opens the file that has the name: of a new one, where there is none.
fn of_created(tree: &Tree, case: &Case<'_>, new: Expected) -> Option<Expected> {
    let file = case.named_in(tree);
    if file.is_none() {
        return Some(new);
    }
    Some(of_file(tree, file)?.behind_open(case))
}

/// The same of an action that makes a file, but for a CREATE.
fn of_made(action: &Action<'_>) -> Option<Expected> {
    match action {
        Action::Symlink { .. } => Some(made(Kind::Symlink, Mode::from_bits(0), 0)),
        Action::Mkdir { mode, umask, .. } => Some(made(Kind::Directory, *mode, *umask)),
        Action::Mknod { mode, umask, .. } => {
            Some(made(mode.file_type().unwrap_or(Kind::Regular), *mode, *umask))
        }
        _ => None,
    }
}

/// The attributes of a file as it is, if it is there.
fn of_file(tree: &Tree, file: Option<FileId>) -> Option<Expected> {
    let FileFacts {
        kind,
        bits,
        size,
        names,
    } = tree.facts(file?)?;
    Some(Expected {
        file,
        kind,
        bits,
        size,
        links: names as u64,
    })
}

/// The attributes of a file that is made with this mode, less the umask.
fn made(kind: Kind, mode: Mode, umask: u32) -> Expected {
    Expected {
        file: None,
        kind,
        bits: mode.bits() & 0o777 & !umask,
        size: 0,
        links: 1,
    }
}

impl Expected {
    /// The same behind a SETATTR.
    fn behind_setattr(mut self, setattr: &SetattrBytes<'_>) -> Self {
        if setattr.valid().contains(FattrFlags::MODE) {
            self.bits = setattr.mode().bits() & 0o777;
        }
        if setattr.valid().contains(FattrFlags::SIZE) {
            self.size = setattr.size();
        }
        self
    }

    /// The same with a further name.
    fn with_a_link(mut self) -> Self {
        self.links = self.links.saturating_add(1);
        self
    }

    /// The same behind an opening.
    fn behind_open(mut self, case: &Case<'_>) -> Self {
        if case.call.truncates {
            self.size = 0;
        }
        self
    }

    /// Whether these attributes tell all of them rightly.
    pub fn are_in(&self, told: &Attributes) -> bool {
        self.has_kind(told) && self.has_bits(told) && self.has_size(told) && self.has_links(told)
    }

    /// Whether the type is told rightly,
    pub fn has_kind(&self, told: &Attributes) -> bool {
        told.mode.file_type() == Some(self.kind)
    }

    /// the permission bits,
    pub fn has_bits(&self, told: &Attributes) -> bool {
        !self.tells_bits() || told.mode.bits() & 0o777 == self.bits
    }

    /// the size,
    pub fn has_size(&self, told: &Attributes) -> bool {
        !self.tells_size() || told.size == self.size
    }

    /// and the links.
    pub fn has_links(&self, told: &Attributes) -> bool {
        !self.tells_links() || u64::from(told.nlink) == self.links
    }

    /// Whether permission bits are judged: those of a symbolic link are not,
    pub fn tells_bits(&self) -> bool {
        self.kind != Kind::Symlink
    }

    /// the size, of a regular file alone,
    pub fn tells_size(&self) -> bool {
        self.kind == Kind::Regular
    }

    /// and the links, but for a directory.
    pub fn tells_links(&self) -> bool {
        self.kind != Kind::Directory
    }
}
