//! Which part of what a success needs does not hold: code 81.

use crate::case::Case;
use crate::paths::is_within;
use bitflags::Flags;
use fa_bodies::{EntryBytes, FattrFlags, OpenFlags, RenameFlags, SetattrBytes};
use fa_ledger::{Action, Operation, Outcome};
use fa_tree::{FileId, Kind, Tree};

/// A part of what a success needs, where it does not hold.
#[derive(Clone, Copy)]
pub enum Part {
    /// The name is not there.
    NotThere,
    /// The name is there already,
    There,
    /// and O_EXCL was asked,
    ThereThoughExclusive,
    /// or node 0 was answered, which says that it is not there,
    ThereThoughNodeZero,
    /// or RENAME_NOREPLACE was asked.
    ThereThoughNotReplaced,
    /// The file is no directory,
    NoDirectory,
    /// and a directory was to take its place.
    NoDirectoryToReplace,
    /// The file is a directory,
    Directory,
    /// and what is none was to take its place.
    DirectoryToReplace,
    /// The directory has names in it.
    NotEmpty,
    /// The file is no regular file,
    NotRegular,
    /// or no symbolic link.
    NotSymlink,
    /// The file or directory has no name any more.
    WithoutName,
    /// The directory would come into itself or below itself.
    IntoItself,
}

/// What a part does not hold of.
#[derive(Clone, Copy)]
pub enum Subject<'a> {
    /// This name, or the file that has it.
    Name(&'a [u8]),
    /// This file.
    File(FileId),
}

/// A part of what a success needs that does not hold, and of what.
#[derive(Clone, Copy)]
pub struct Unmet<'a> {
    /// What it does not hold of.
    pub subject: Subject<'a>,
    /// The part.
    pub part: Part,
}

impl Part {
    /// That it does not hold of a name.
    fn of_name(self, name: &[u8]) -> Option<Unmet<'_>> {
        Some(Unmet {
            subject: Subject::Name(name),
            part: self,
        })
    }

    /// That it does not hold of a file.
    fn of_file<'a>(self, file: FileId) -> Option<Unmet<'a>> {
        Some(Unmet {
            subject: Subject::File(file),
            part: self,
        })
    }
}

/// The first part of what a success of the request needs that does not hold.
pub(crate) fn first_unmet<'a>(tree: &Tree, case: &Case<'a>) -> Option<Unmet<'a>> {
    let node = case.node_in(tree)?;
    match &case.operation {
        Operation::List(_) => no_directory(tree, node),
        Operation::Act(action) => unmet_of(tree, case, action, node),
    }
}

/// The first part of what a success of an action needs that does not hold.
fn unmet_of<'a>(
    tree: &Tree,
    case: &Case<'_>,
    action: &Action<'a>,
    node: FileId,
) -> Option<Unmet<'a>> {
    match action {
        Action::Getattr { .. } => None,
        Action::Setattr { setattr, .. } => not_set(tree, setattr, node),
        Action::Readlink { .. } => if_not(tree, node, Kind::Symlink, Part::NotSymlink),
        Action::Open { .. } | Action::Read { .. } | Action::Write { .. } => {
            if_not(tree, node, Kind::Regular, Part::NotRegular)
        }
        Action::Opendir { .. } => no_directory(tree, node),
        _ => match no_directory(tree, node) {
            Some(unmet) => Some(unmet),
            None => unmet_in(tree, case, action, node),
        },
    }
}

/// The first part of what a success of an action in this directory needs that does not hold.
fn unmet_in<'a>(
    tree: &Tree,
    case: &Case<'_>,
    action: &Action<'a>,
    node: FileId,
) -> Option<Unmet<'a>> {
    match action {
        Action::Lookup { name, outcome } => not_found(tree, node, *name, outcome),
        Action::Symlink { name, .. } | Action::Mknod { name, .. } | Action::Mkdir { name, .. } =>
            not_made(tree, node, *name),
        Action::Create { name, flags, .. } => not_created(tree, node, *name, *flags),
        Action::Link { new_name, .. } => not_linked(tree, case, node, *new_name),
        Action::Unlink { name, .. } => not_unlinked(tree, node, *name),
        Action::Rmdir { name, .. } => not_removed(tree, node, *name),
        Action::Rename {
            old_name,
            new_name,
            ..
        } => { not_renamed(tree, case, node, RenameFlags::Replace, *old_name, *new_name) }
        Action::Rename2 {
            flags,
            old_name,
            new_name,
            ..
        } => { not_renamed(tree, case, node, *flags, *old_name, *new_name) }
        _ => None,
    }
}

/// That a file is of another type, if it is.
fn if_not<'a>(tree: &Tree, file: FileId, kind: Kind, part: Part) -> Option<Unmet<'a>> {
    if is_of(tree, file, kind) {
        None
    } else {
        part.of_file(file)
    }
}

/// That a file is no directory, if it is none.
fn no_directory<'a>(tree: &Tree, file: FileId) -> Option<Unmet<'a>> {
    if_not(tree, file, Kind::Directory, Part::NoDirectory)
}

/// That a size can't be set of a file.
fn not_set<'a>(tree: &Tree, setattr: &SetattrBytes<'_>, file: FileId) -> Option<Unmet<'a>> {
    if setattr.valid().contains(FattrFlags::SIZE) {
        if_not(tree, file, Kind::Regular, Part::NotRegular)
    } else {
        None
    }
}

/// That a LOOKUP does not find a name, or finds one where it says that there is none.
fn not_found<'a>(
    tree: &Tree,
    directory: FileId,
    name: &'a [u8],
    outcome: &Outcome<EntryBytes<'_>>,
) -> Option<Unmet<'a>> {
    let says_none = match outcome {
        Outcome::Succeeds(entry) => entry.nodeid() == 0,
        _ => false,
    };
    match (tree.find(directory, name), says_none) {
        (Some(_), true) => Part::ThereThoughNodeZero.of_name(name),
        (None, false) => Part::NotThere.of_name(name),
        _ => None,
    }
}

/// That a directory has no name, or has the new one already.
fn not_made<'a>(tree: &Tree, directory: FileId, name: &'a [u8]) -> Option<Unmet<'a>> {
    if !tree.is_linked(directory) {
        return Part::WithoutName.of_file(directory);
    }
    match tree.find(directory, name) {
        Some(_) => Part::There.of_name(name),
        None => None,
    }
}

/// What a CREATE lacks.
fn not_created<'a>(
    tree: &Tree,
    directory: FileId,
    name: &'a [u8],
    flags: OpenFlags,
) -> Option<Unmet<'a>> {
    if !tree.is_linked(directory) {
        return Part::WithoutName.of_file(directory);
    }
    let file = tree.find(directory, name)?;
    if !is_of(tree, file, Kind::Regular) {
        return Part::NotRegular.of_name(name);
    }
    if flags.contains(OpenFlags::EXCL) {
        return Part::ThereThoughExclusive.of_name(name);
    }
    None
}

/// What a LINK lacks.
fn not_linked<'a>(
    tree: &Tree,
    case: &Case<'_>,
    directory: FileId,
    name: &'a [u8],
) -> Option<Unmet<'a>> {
    if let Some(unmet) = not_made(tree, directory, name) {
        return Some(unmet);
    }
    let file = case.other_in(tree)?;
    if !tree.is_linked(file) {
        return Part::WithoutName.of_file(file);
    }
    if is_of(tree, file, Kind::Directory) {
        return Part::Directory.of_file(file);
    }
    None
}

/// What an UNLINK lacks.
fn not_unlinked<'a>(tree: &Tree, directory: FileId, name: &'a [u8]) -> Option<Unmet<'a>> {
    let Some(file) = tree.find(directory, name) else {
        return Part::NotThere.of_name(name);
    };
    if is_of(tree, file, Kind::Directory) {
        return Part::Directory.of_name(name);
    }
    None
}

/// What an RMDIR lacks.
fn not_removed<'a>(tree: &Tree, directory: FileId, name: &'a [u8]) -> Option<Unmet<'a>> {
    let Some(file) = tree.find(directory, name) else {
        return Part::NotThere.of_name(name);
    };
    if !is_of(tree, file, Kind::Directory) {
        return Part::NoDirectory.of_name(name);
    }
    if tree.count_names_in(file) > 0 {
        return Part::NotEmpty.of_name(name);
    }
    None
}

/// What a RENAME lacks.
fn not_renamed<'a>(
    tree: &Tree,
    case: &Case<'_>,
    old_directory: FileId,
    flags: RenameFlags,
    old_name: &'a [u8],
    new_name: &'a [u8],
) -> Option<Unmet<'a>> {
    let new_directory = case.other_in(tree)?;
    if let Some(unmet) = no_directory(tree, new_directory) {
        return Some(unmet);
    }
    let Some(file) = tree.find(old_directory, old_name) else {
        return Part::NotThere.of_name(old_name);
    };
    let replaced = tree.find(new_directory, new_name);
    if flags == RenameFlags::Exchange {
        let Some(other) = replaced else {
            return Part::NotThere.of_name(new_name);
        };
        return match into_itself(tree, file, new_directory, old_name) {
            Some(unmet) => Some(unmet),
            None => into_itself(tree, other, old_directory, new_name),
        };
    }
    if !tree.is_linked(new_directory) {
        return Part::WithoutName.of_file(new_directory);
    }
    if let Some(other) = replaced {
        if flags == RenameFlags::NoReplace {
            return Part::ThereThoughNotReplaced.of_name(new_name);
        }
        if other == file {
            return None;
        }
        if let Some(unmet) = not_replaced(tree, file, other, new_name) {
            return Some(unmet);
        }
    }
    into_itself(tree, file, new_directory, old_name)
}

/// That a file can't take the place of another, which has this name.
fn not_replaced<'a>(tree: &Tree, file: FileId, other: FileId, name: &'a [u8]) -> Option<Unmet<'a>> {
    match (
        is_of(tree, file, Kind::Directory),
        is_of(tree, other, Kind::Directory),
    ) {
        (true, false) => Part::NoDirectoryToReplace.of_name(name),
        (true, true) => {
            if tree.count_names_in(other) > 0 {
                Part::NotEmpty.of_name(name)
            } else {
                None
            }
        }
        (false, true) => Part::DirectoryToReplace.of_name(name),
        (false, false) => None,
    }
}

/// That a directory of this name would come into itself or below itself.
fn into_itself<'a>(
    tree: &Tree,
    file: FileId,
    directory: FileId,
    name: &'a [u8],
) -> Option<Unmet<'a>> {
    if is_of(tree, file, Kind::Directory) && is_within(tree, file, directory) {
        Part::IntoItself.of_name(name)
    } else {
        None
    }
}

/// Whether a file is of this type.
fn is_of(tree: &Tree, file: FileId, kind: Kind) -> bool {
    match tree.facts(file) {
        Some(facts) => facts.kind == kind,
        None => false,
    }
}
