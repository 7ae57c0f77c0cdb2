//! What of a tree which request made, named, took away and changed last.

use crate::attributes::file_succeeded;
use crate::bindings::directory_listed;
use crate::case::{Case, NamedPlace};
use crate::paths::path_of;
use bitflags::Flags;
use fa_bodies::errno::{EEXIST, EISDIR, ENOENT, ENOTDIR, ENOTEMPTY};
use fa_bodies::{Entries, FattrFlags, OpenFlags, RenameFlags, RequestBody, SetattrBytes, request};
use fa_capture::{Direction, Packet};
use fa_ledger::{Action, NodeName, Operation, Outcome};
use fa_tree::{FileId, Kind, Tree};
use std::alloc::{AllocError, Global};

/// What requests did to a place of a directory.
#[derive(Drop)]
pub struct PlaceHistory {
    directory: FileId,
    name: Vec<u8>,
    /// The request that put the name there last,
    pub named_by: Option<u32>,
    /// and the one that took it away last.
    pub taken_by: Option<u32>,
    /// Whether an answer told that the name is there, or that it is not.
    pub is_told: bool,
}

impl PlaceHistory {
    /// Whether it is that of this name in a directory.
    fn is_of(&self, directory: FileId, name: &[u8]) -> bool {
        self.directory == directory && self.name.as_slice() == name
    }

    /// Whether the place is as it was from the start, and no answer told so: only the first tree does.
    pub fn is_from_start(&self) -> bool {
        self.named_by.is_none() && self.taken_by.is_none() && !self.is_told
    }
}

/// What requests did to a file.
#[derive(Drop)]
pub struct FileHistory {
    file: FileId,
    /// The request that set its bytes last,
    pub bytes_by: Option<u32>,
    /// the one that made it shorter,
    pub cut_by: Option<u32>,
    /// the one since the last that set its bytes that opened it with `O_TRUNC` and did not cut it, as ATOMIC_O_TRUNC was not agreed,
    pub left_whole_by: Option<u32>,
    /// the one that set its permission bits,
    pub bits_by: Option<u32>,
    /// the one that put or took a name of it,
    pub links_by: Option<u32>,
    /// and the one that took its last name away.
    pub unnamed_by: Option<u32>,
    /// Whether an answer told its attributes, or its type at least.
    pub is_told: bool,
    /// The path that it had before.
    pub last_path: Vec<u8>,
}

/// A byte of a file.
#[derive(Clone, Copy)]
pub(crate) struct BytePlace {
    pub file: FileId,
    pub offset: u64,
}

/// A node that an answer gave for a file.
#[derive(Clone, Copy)]
pub struct NodeGiven {
    /// The node,
    pub node: NodeName,
    /// and the request that was answered so.
    pub by: u32,
}

/// The last requests that changed the places, files and byte that are asked for, and those that gave nodes.
#[derive(Drop)]
pub struct History {
    alloc: Global,
    places: Vec<PlaceHistory>,
    files: Vec<FileHistory>,
    byte: Option<BytePlace>,
    /// The request that set the byte last.
    pub byte_by: Option<u32>,
    /// Whether that set it to zero, as it made the file longer.
    pub byte_is_filled: bool,
    /// Whether an answer told the byte.
    pub byte_is_told: bool,
    node: Option<NodeName>,
    /// The request whose answer gave the node first.
    pub node_by: Option<u32>,
    node_of: Option<FileId>,
    /// The first other node that was given for the file of which nodes are asked for.
    pub own_node: Option<NodeGiven>,
    /// Whether memory was refused for what is asked for, or for a path: it is not whole then.
    pub(crate) lacks_memory: bool,
}

/// A place as it is before a step.
#[derive(Clone, Copy)]
struct PlaceBefore<'c> {
    directory: FileId,
    name: &'c [u8],
    file: Option<FileId>,
}

/// What a step may change, as it is before it.
#[derive(Clone, Copy)]
pub(crate) struct Before<'c> {
    first: Option<PlaceBefore<'c>>,
    second: Option<PlaceBefore<'c>>,
    /// The file whose bytes or bits it may set, and how many bytes this has.
    file: Option<(FileId, u64)>,
}

impl History {
    /// Nothing is asked for.
    pub(crate) fn new(alloc: Global) -> Self {
        History {
            alloc,
            places: Vec::new(alloc),
            files: Vec::new(alloc),
            byte: None,
            byte_by: None,
            byte_is_filled: false,
            byte_is_told: false,
            node: None,
            node_by: None,
            node_of: None,
            own_node: None,
            lacks_memory: false,
        }
    }

    /// Asks for a place of a directory.
    pub(crate) fn ask_for_place(&mut self, directory: FileId, name: &[u8]) {
        if self.add_place(directory, name).is_err() {
            self.lacks_memory = true;
        }
    }

    /// The same, where memory may be refused.
    fn add_place(&mut self, directory: FileId, name: &[u8]) -> Result<(), AllocError> {
        let mut owned = Vec::new(self.alloc);
        owned.extend_from_slice(name)?;
        self.places.push(PlaceHistory {
            directory,
            name: owned,
            named_by: None,
            taken_by: None,
            is_told: false,
        })?;
        Ok(())
    }

    /// Asks for a file.
    pub(crate) fn ask_for_file(&mut self, file: FileId) {
        let asked = FileHistory {
            file,
            bytes_by: None,
            cut_by: None,
            left_whole_by: None,
            bits_by: None,
            links_by: None,
            unnamed_by: None,
            is_told: false,
            last_path: Vec::new(self.alloc),
        };
        if self.files.push(asked).is_err() {
            self.lacks_memory = true;
        }
    }

    /// Asks for a byte of a file.
    pub(crate) fn ask_for_byte(&mut self, byte: BytePlace) {
        self.byte = Some(byte);
    }

    /// Asks for a node, and for another one of this file, if there is one.
    pub(crate) fn ask_for_node(&mut self, node: NodeName, of: Option<FileId>) {
        self.node = Some(node);
        self.node_of = of;
    }

    /// What is known of a place, if it was asked for. Takes no memory, and time in the places that were.
    pub fn place(&self, directory: FileId, name: &[u8]) -> Option<&PlaceHistory> {
        for place in self.places.iter() {
            if place.is_of(directory, name) {
                return Some(place);
            }
        }
        None
    }

    /// The same, to note what becomes of it.
    fn place_mut(&mut self, directory: FileId, name: &[u8]) -> Option<&mut PlaceHistory> {
        for place in self.places.iter_mut() {
            if place.is_of(directory, name) {
                return Some(place);
            }
        }
        None
    }

    /// What is known of a file, if it was asked for. Takes no memory, and time in the files that were.
    pub fn file(&self, file: FileId) -> Option<&FileHistory> {
        for known in self.files.iter() {
            if known.file == file {
                return Some(known);
            }
        }
        None
    }

    /// The same, to note what becomes of it.
    fn file_mut(&mut self, file: FileId) -> Option<&mut FileHistory> {
        for known in self.files.iter_mut() {
            if known.file == file {
                return Some(known);
            }
        }
        None
    }

    /// Notes what a request may change, before its step.
    pub(crate) fn before<'c>(&mut self, tree: &Tree, case: &Case<'c>) -> Before<'c> {
        let before = Before {
            first: place_before(tree, case.first_place()),
            second: place_before(tree, case.second_place()),
            file: file_before(tree, case),
        };
        if let Some(file) = losing(case, &before) {
            self.note_path(tree, file);
        }
        before
    }

    /// Notes the path of a file that is asked for and has one name.
    fn note_path(&mut self, tree: &Tree, file: FileId) {
        if !has_one_name(tree, file) || self.file(file).is_none() {
            return;
        }
        match path_of(self.alloc, tree, file) {
            Ok(Some(path)) => self.set_path(file, path),
            Ok(None) => self.set_path(file, Vec::new(self.alloc)),
            Err(_) => self.lacks_memory = true,
        }
    }

    /// Keeps the path of a file.
    fn set_path(&mut self, file: FileId, path: Vec<u8>) {
        if let Some(known) = self.file_mut(file) {
            known.last_path = path;
        }
    }

    /// Notes what a request changed, behind its step: how many bytes an entry says that it wrote.
    pub(crate) fn after(
        &mut self,
        tree: &Tree,
        case: &Case<'_>,
        before: &Before<'_>,
        wrote: Option<u32>,
    ) {
        let asked = case.call.asked;
        if let Some(place) = &before.first {
            self.note_place(tree, asked, place);
        }
        if let Some(place) = &before.second {
            self.note_place(tree, asked, place);
        }
        if let (Some((file, size)), Some(action)) = (before.file, case.action()) {
            let touched = touched_by(tree, case, action, file, size, wrote);
            self.note_touched(asked, file, &touched);
        }
        self.note_told(tree, case, before);
        self.note_node(tree, asked);
        self.note_own_node(tree, case);
    }

    /// Notes what the answer to a request told.
    fn note_told(&mut self, tree: &Tree, case: &Case<'_>, before: &Before<'_>) {
        if let Some(place) = &before.first {
            if tells_name(case) {
                self.note_place_told(place);
            }
        }
        if let Some((directory, entries)) = entries_told(tree, case) {
            self.note_listed(tree, directory, entries);
        }
        if let Some(file) = file_told(tree, case) {
            self.note_file_told(file);
        }
        if let Some(byte) = self.byte {
            if tells_byte(tree, case, &byte) {
                self.byte_is_told = true;
            }
        }
    }

    /// Notes that an answer told whether a name is there.
    fn note_place_told(&mut self, told: &PlaceBefore<'_>) {
        if let Some(place) = self.place_mut(told.directory, told.name) {
            place.is_told = true;
        }
    }

    /// Notes that an answer listed a directory: of the names that it has, and of those that it lacks as the tree does.
    fn note_listed(&mut self, tree: &Tree, directory: FileId, entries: Entries<'_>) {
        for place in self.places.iter_mut() {
            let name = place.name.as_slice();
            if place.directory == directory
                && lists(entries, name) == tree.find(directory, name).is_some()
            {
                place.is_told = true;
            }
        }
        for dirent in entries {
            if dirent.kind != 0 {
                if let Some(file) = tree.find(directory, dirent.name) {
                    self.note_file_told(file);
                }
            }
        }
    }

    /// Notes that an answer told the attributes of a file.
    fn note_file_told(&mut self, file: FileId) {
        if let Some(known) = self.file_mut(file) {
            known.is_told = true;
        }
    }

    /// Notes what became of a place.
    fn note_place(&mut self, tree: &Tree, asked: u32, before: &PlaceBefore<'_>) {
        let file = tree.find(before.directory, before.name);
        if file == before.file {
            return;
        }
        if let Some(place) = self.place_mut(before.directory, before.name) {
            if before.file.is_some() {
                place.taken_by = Some(asked);
            }
            if file.is_some() {
                place.named_by = Some(asked);
            }
        }
        if let Some(lost) = before.file {
            self.note_links(tree, asked, lost);
        }
        if let Some(named) = file {
            self.note_links(tree, asked, named);
        }
    }

    /// Notes that a file came to have a name more or less, and whether it has none any more.
    fn note_links(&mut self, tree: &Tree, asked: u32, file: FileId) {
        let is_linked = tree.is_linked(file);
        if let Some(known) = self.file_mut(file) {
            known.links_by = Some(asked);
            if !is_linked {
                known.unnamed_by = Some(asked);
            }
        }
    }

    /// Notes what a request set of a file.
    fn note_touched(&mut self, asked: u32, file: FileId, touched: &Touched) {
        if let Some(known) = self.file_mut(file) {
            if touched.bits {
                known.bits_by = Some(asked);
            }
            if touched.bytes.is_some() {
                known.bytes_by = Some(asked);
                known.left_whole_by = None;
            }
            if touched.cuts {
                known.cut_by = Some(asked);
            }
            if touched.is_left_whole {
                known.left_whole_by = Some(asked);
            }
        }
        if let (Some(byte), Some((begin, end))) = (self.byte, touched.bytes) {
            if byte.file == file && begin <= byte.offset && byte.offset < end {
                self.byte_by = Some(asked);
                self.byte_is_filled = byte.offset < touched.filled;
            }
        }
    }

    /// Notes the request whose answer gave the node that is asked for.
    fn note_node(&mut self, tree: &Tree, asked: u32) {
        let Some(node) = &self.node else {
            return;
        };
        if self.node_by.is_none() && tree.file_of(node).is_some() {
            self.node_by = Some(asked);
        }
    }

    /// Notes the first other node that an answer gave for the file of which nodes are asked for.
    fn note_own_node(&mut self, tree: &Tree, case: &Case<'_>) {
        let (Some(file), Some(answer)) = (self.node_of, &case.call.answer) else {
            return;
        };
        for node in answer.given.names() {
            if self.own_node.is_none()
                && self.node != Some(*node)
                && tree.file_of(node) == Some(file)
            {
                self.own_node = Some(NodeGiven {
                    node: *node,
                    by: case.call.asked,
                });
            }
        }
    }
}

/// What a request set of a file.
#[derive(Clone, Copy)]
struct Touched {
    bits: bool,
    /// From which byte on it set bytes, and up to which.
    bytes: Option<(u64, u64)>,
    /// Up to which of them it filled the file with zeros.
    filled: u64,
    /// Whether the file has fewer bytes behind it.
    cuts: bool,
    /// Whether it opened the file with `O_TRUNC` and did not cut it.
    is_left_whole: bool,
}

/// A place before a step.
fn place_before<'c>(tree: &Tree, place: Option<NamedPlace<'c>>) -> Option<PlaceBefore<'c>> {
    let place = place?;
    match tree.file_of(&place.node) {
        Some(directory) => Some(PlaceBefore {
            directory,
            name: place.name,
            file: tree.find(directory, place.name),
        }),
        None => None,
    }
}

/// The file whose bytes or bits a request may set, and how many bytes it has.
fn file_before(tree: &Tree, case: &Case<'_>) -> Option<(FileId, u64)> {
    match case.action() {
        Some(Action::Create { .. }) => sized(tree, case.named_in(tree)),
        Some(_) => sized(tree, case.node_in(tree)),
        None => None,
    }
}

/// A file, if there is one, and how many bytes it has.
pub(crate) fn sized(tree: &Tree, file: Option<FileId>) -> Option<(FileId, u64)> {
    let file = file?;
    match tree.facts(file) {
        Some(facts) => Some((file, facts.size)),
        None => None,
    }
}

/// The file that may lose its last name by a request.
fn losing(case: &Case<'_>, before: &Before<'_>) -> Option<FileId> {
    let place = match case.action() {
        Some(Action::Unlink { .. } | Action::Rmdir { .. }) => before.first,
        Some(
            Action::Rename { .. }
            | Action::Rename2 {
                flags: RenameFlags::Replace | RenameFlags::NoReplace,
                ..
            },
        ) => before.second,
        _ => None,
    };
    match place {
        Some(place) => place.file,
        None => None,
    }
}

/// Whether a file has one name.
fn has_one_name(tree: &Tree, file: FileId) -> bool {
    match tree.facts(file) {
        Some(facts) => facts.names == 1,
        None => false,
    }
}

/// What a request set of a file that had so many bytes before its step.
fn touched_by(
    tree: &Tree,
    case: &Case<'_>,
    action: &Action<'_>,
    file: FileId,
    size: u64,
    wrote: Option<u32>,
) -> Touched {
    let none = Touched {
        bits: false,
        bytes: None,
        filled: 0,
        cuts: false,
        is_left_whole: false,
    };
    if let Outcome::Fails(_) = action.ended() {
        return none;
    }
    match action {
        Action::Setattr { setattr, .. } => Touched {
            bits: sets_bits(tree, file, setattr),
            bytes: if setattr.valid().contains(FattrFlags::SIZE) {
                Some((size.min(setattr.size()), size.max(setattr.size())))
            } else {
                None
            },
            filled: setattr.size(),
            cuts: setattr.valid().contains(FattrFlags::SIZE) && setattr.size() < size,
            ..none
        },
        Action::Open { .. } | Action::Create { .. } => Touched {
            bytes: if case.call.truncates {
                Some((0, size))
            } else {
                None
            },
            cuts: case.call.truncates && size > 0,
            is_left_whole: leaves_whole(case, action),
            ..none
        },
        Action::Write {
            offset,
            outcome,
            ..
        } => Touched {
            bytes: range_written(*offset, size, outcome, wrote),
            filled: *offset,
            ..none
        },
        _ => none,
    }
}

/// Whether a SETATTR sets the permission bits of a file: a symbolic link keeps its own.
fn sets_bits(tree: &Tree, file: FileId, setattr: &SetattrBytes<'_>) -> bool {
    setattr.valid().contains(FattrFlags::MODE)
        && match tree.facts(file) {
            Some(facts) => facts.kind != Kind::Symlink,
            None => false,
        }
}

/// The bytes that a WRITE set of a file of this size, if it wrote some: those that it wrote, and the zeros before them behind the end.
fn range_written(
    offset: u64,
    size: u64,
    outcome: &Outcome<u32>,
    wrote: Option<u32>,
) -> Option<(u64, u64)> {
    let count = match outcome {
        Outcome::Succeeds(count) => *count,
        Outcome::Unanswered => wrote.unwrap_or(0),
        Outcome::Fails(_) => 0,
    };
    if count == 0 {
        return None;
    }
    Some((offset.min(size), offset.saturating_add(u64::from(count))))
}

/// Whether a request is an OPEN with `O_TRUNC` that succeeded and does not cut the file, as ATOMIC_O_TRUNC was not agreed.
fn leaves_whole(case: &Case<'_>, action: &Action<'_>) -> bool {
    match action {
        Action::Open {
            outcome: Outcome::Succeeds(_),
        } => !case.call.truncates && asks_to_cut(case),
        _ => false,
    }
}

/// Whether a request is an OPEN with `O_TRUNC`.
fn asks_to_cut(case: &Case<'_>) -> bool {
    let packet = Packet {
        direction: Direction::ToServer,
        time: 0,
        bytes: case.call.messages.request,
    };
    match request(&packet) {
        Ok(asked) => match &asked.body {
            RequestBody::Open(open) => open.flags.contains(OpenFlags::TRUNC),
            _ => false,
        },
        Err(_) => false,
    }
}

/// Whether the answer to a request tells that its name is there, or that it is not.
fn tells_name(case: &Case<'_>) -> bool {
    match (case.operation.ended(), case.action()) {
        (Outcome::Succeeds(()), Some(_)) => true,
        (Outcome::Fails(error), Some(action)) => is_of_name(action, error),
        _ => false,
    }
}

/// Whether an error to an action tells that its name is there, or that it is not.
fn is_of_name(action: &Action<'_>, error: i32) -> bool {
    match action {
        Action::Lookup { .. } => error == ENOENT,
        Action::Unlink { .. } => error == ENOENT || is_of_type(action, error),
        Action::Rmdir { .. } => error == ENOENT || is_of_type(action, error),
        Action::Create { .. } => error == EEXIST || is_of_type(action, error),
        Action::Symlink { .. }
        | Action::Mknod { .. }
        | Action::Mkdir { .. }
        | Action::Link { .. } => error == EEXIST,
        _ => false,
    }
}

/// Whether an error to an action tells of which type the file is that has its name.
fn is_of_type(action: &Action<'_>, error: i32) -> bool {
    match action {
        Action::Unlink { .. } | Action::Create { .. } => error == EISDIR,
        Action::Rmdir { .. } => matches!(error, ENOTDIR | EEXIST | ENOTEMPTY),
        _ => false,
    }
}

/// The file whose attributes, or whose type at least, the answer to a request tells, if it does.
fn file_told(tree: &Tree, case: &Case<'_>) -> Option<FileId> {
    match (case.operation.ended(), case.action()) {
        (Outcome::Succeeds(()), Some(action)) => file_succeeded(tree, case, action),
        (Outcome::Fails(error), Some(action)) => if is_of_type(action, error) {
            case.named_in(tree)
        } else {
            None
        },
        _ => None,
    }
}

/// The entries that the answer to a request lists, and the directory that has them.
fn entries_told<'c>(tree: &Tree, case: &Case<'c>) -> Option<(FileId, Entries<'c>)> {
    match &case.operation {
        Operation::List(list) => match &list.outcome {
            Outcome::Succeeds(entries) => Some((directory_listed(tree, case)?, *entries)),
            _ => None,
        },
        Operation::Act(_) => None,
    }
}

/// Whether entries have a name among them.
fn lists(entries: Entries<'_>, name: &[u8]) -> bool {
    for dirent in entries {
        if dirent.name == name {
            return true;
        }
    }
    false
}

/// Whether the answer to a request tells a byte: of a READ, or as all of a target.
fn tells_byte(tree: &Tree, case: &Case<'_>, byte: &BytePlace) -> bool {
    if case.node_in(tree) != Some(byte.file) {
        return false;
    }
    match case.action() {
        Some(
            Action::Read {
                offset,
                outcome: Outcome::Succeeds(bytes),
                ..
            },
        ) => { *offset <= byte.offset && byte.offset < offset.saturating_add(bytes.len() as u64) }
        Some(
            Action::Readlink {
                outcome: Outcome::Succeeds(_),
            },
        ) => true,
        _ => false,
    }
}
