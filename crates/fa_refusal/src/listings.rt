//! Listings that are not those of the directory: code 86.

use crate::case::Case;
use crate::found::Found;
use crate::history::History;
use fa_bodies::{Dirent, Entries, MAX_NAME};
use fa_capture::Seed;
use fa_ledger::{Calls, Operation, Outcome};
use fa_tree::{FileId, Kind, OpenedDirectory, Tree};
use indexmap::IndexMap;
use std::alloc::{AllocError, Global};

/// So many names that are missing are sought at most.
const MOST_MISSING: u32 = 4_096;

/// A READDIR or READDIRPLUS without entries says that all is listed where it asked for this size at least: so much room the entry of
/// the longest name takes in a READDIRPLUS.
const ROOM_FOR_ANY: usize = 128 + 24 + MAX_NAME;

/// So many answers are kept from which a listing goes on.
const LAST_PIECES: usize = 4;

/// A name that is listed twice, with both requests.
#[derive(Clone, Copy)]
pub struct Twice<'a> {
    /// The name.
    pub name: &'a [u8],
    /// The number of the request whose answer lists it first,
    pub first: u32,
    /// and of the one whose answer lists it again.
    pub second: u32,
}

/// An entry with another type than that of its file, both as numbers of `struct fuse_dirent`.
#[derive(Clone, Copy)]
pub struct OtherType<'a> {
    /// The name.
    pub name: &'a [u8],
    /// The type that it has,
    pub answered: u32,
    /// and that of the file.
    pub expected: u32,
}

/// What is wrong with a listing: of names in messages, and of names in the tree.
#[derive(Drop)]
pub struct Listing<'a, 't> {
    /// The directory.
    pub directory: FileId,
    /// The last four requests from whose answers it goes on, the last first.
    pub pieces: Vec<u32>,
    /// How many entries all of these answers have that count, but for `.` and `..`,
    pub listed: usize,
    /// and how many the answer has.
    pub entries: usize,
    /// Names that stayed and are not listed, where it has come to its end.
    pub missing: Found<&'t [u8]>,
    /// Names that are listed twice,
    pub twice: Found<Twice<'a>>,
    /// that were never in the directory since it was opened,
    pub never: Found<&'a [u8]>,
    /// whose files have another type,
    pub types: Found<OtherType<'a>>,
    /// that give a node, and are not in the directory any more.
    pub gone: Found<&'a [u8]>,
    /// Whether memory was refused for something beside these.
    lacks_memory: bool,
}

/// What is listed so far: each name whose file stayed, with the request whose answer lists it last.
#[derive(Drop)]
struct SoFar<'a> {
    names: IndexMap<&'a [u8], u32, Seed>,
    /// Whether memory was refused for a name.
    lacks_memory: bool,
}

impl<'a> SoFar<'a> {
    /// Notes an entry of an answer: the request whose answer lists its name already, if one does.
    fn note(&mut self, opened: &OpenedDirectory<'_>, name: &'a [u8], asked: u32) -> Option<u32> {
        opened.stayed(name)?;
        match self.names.insert(name, asked) {
            Ok(before) => before,
            Err(_) => {
                self.lacks_memory = true;
                None
            }
        }
    }
}

/// An answer from which a listing goes on.
#[derive(Clone, Copy)]
struct Piece<'a> {
    asked: u32,
    entries: Entries<'a>,
    /// So many of them count.
    count: u32,
}

/// The entries that the answer to a request lists.
fn entries_of<'a>(case: &Case<'a>) -> Option<Entries<'a>> {
    match &case.operation {
        Operation::List(list) => match &list.outcome {
            Outcome::Succeeds(entries) => Some(*entries),
            _ => None,
        },
        Operation::Act(_) => None,
    }
}

/// Whether a request asks for as much as any entry may take.
fn has_room_for_any(case: &Case<'_>) -> bool {
    match &case.operation {
        Operation::List(list) => list.size as usize >= ROOM_FOR_ANY,
        Operation::Act(_) => false,
    }
}

/// The answer from which the listing of a request goes on.
fn piece_before<'a>(calls: &'a Calls<'_>, case: &Case<'a>) -> Option<(Case<'a>, Piece<'a>)> {
    let (asked, count) = case.call.listing?.before?;
    let before = Case::of(calls, asked)?;
    let entries = entries_of(&before)?;
    Some((
        before,
        Piece {
            asked,
            entries,
            count,
        },
    ))
}

/// The answers from which the listing of a request goes on, the last first.
fn pieces_before<'a>(
    alloc: Global,
    calls: &'a Calls<'_>,
    case: &Case<'a>,
) -> Result<Vec<Piece<'a>>, AllocError> {
    let mut pieces = Vec::new(alloc);
    let mut at = *case;
    for _ in 0..calls.list.len() {
        let Some((before, piece)) = piece_before(calls, &at) else {
            break;
        };
        pieces.push(piece)?;
        at = before;
    }
    Ok(pieces)
}

/// What is wrong with the listing that answers a request.
pub(crate) fn listing_of<'a, 't>(
    alloc: Global,
    calls: &'a Calls<'_>,
    tree: &Tree,
    opened: &OpenedDirectory<'t>,
    case: &Case<'a>,
) -> Result<Listing<'a, 't>, AllocError> {
    let pieces = pieces_before(alloc, calls, case)?;
    let mut listing = Listing::empty(alloc, opened.directory());
    listing.note_all(alloc, tree, opened, case, &pieces);
    if listing.is_short_of_memory() {
        return Err(AllocError);
    }
    Ok(listing)
}

/// Whether it is known from where the listing of a request goes on, and its handle was open once alone.
fn is_whole(case: &Case<'_>) -> bool {
    match &case.call.listing {
        Some(listing) => !listing.adrift && !listing.shared,
        None => false,
    }
}

impl<'a, 't> Listing<'a, 't> {
    /// Of no entries.
    fn empty(alloc: Global, directory: FileId) -> Self {
        Listing {
            directory,
            pieces: Vec::new(alloc),
            listed: 0,
            entries: 0,
            missing: Found::new(alloc),
            twice: Found::new(alloc),
            never: Found::new(alloc),
            types: Found::new(alloc),
            gone: Found::new(alloc),
            lacks_memory: false,
        }
    }

    /// Whether memory was refused for a part of it: it is not whole then.
    fn is_short_of_memory(&self) -> bool {
        self.lacks_memory
            || self.missing.lacks_memory
            || self.twice.lacks_memory
            || self.never.lacks_memory
            || self.types.lacks_memory
            || self.gone.lacks_memory
    }

    /// Notes the answers from which it goes on, and the entries of its own.
    fn note_all(
        &mut self,
        alloc: Global,
        tree: &Tree,
        opened: &OpenedDirectory<'t>,
        case: &Case<'a>,
        pieces: &[Piece<'a>],
    ) {
        let Some(entries) = entries_of(case) else {
            return;
        };
        let mut so_far = SoFar {
            names: IndexMap::with_hasher(alloc, tree.seed()),
            lacks_memory: false,
        };
        self.note_pieces(opened, pieces, &mut so_far);
        let is_judged = is_whole(case);
        self.note_entries(
            tree,
            opened,
            case.call.asked,
            entries,
            is_judged,
            &mut so_far,
        );
        if so_far.lacks_memory {
            self.lacks_memory = true;
        } else if is_judged && entries.take(1).count() == 0 && has_room_for_any(case) {
            self.note_missing(alloc, &so_far, opened);
        }
    }

    /// Notes the answers from which it goes on.
    fn note_pieces(
        &mut self,
        opened: &OpenedDirectory<'t>,
        pieces: &[Piece<'a>],
        so_far: &mut SoFar<'a>,
    ) {
        for piece in pieces {
            if self.pieces.len() < LAST_PIECES && self.pieces.push(piece.asked).is_err() {
                self.lacks_memory = true;
            }
        }
        for piece in pieces.iter().rev() {
            self.note_piece(opened, piece, so_far);
        }
    }

    /// Notes the entries of its own answer, and where it is judged those whose names are listed already.
    fn note_entries(
        &mut self,
        tree: &Tree,
        opened: &OpenedDirectory<'t>,
        asked: u32,
        entries: Entries<'a>,
        is_judged: bool,
        so_far: &mut SoFar<'a>,
    ) {
        for dirent in entries {
            self.note_entry(tree, opened, &dirent);
            if is_judged {
                self.note_again(so_far, opened, &dirent, asked);
            }
        }
    }

    /// Notes the entries that count of an answer from which it goes on.
    fn note_piece(
        &mut self,
        opened: &OpenedDirectory<'_>,
        piece: &Piece<'a>,
        so_far: &mut SoFar<'a>,
    ) {
        for dirent in piece.entries.take(piece.count as usize) {
            if !is_dots(dirent.name) {
                self.listed = self.listed.saturating_add(1);
            }
            so_far.note(opened, dirent.name, piece.asked);
        }
    }

    /// Notes an entry of the answer.
    fn note_entry(&mut self, tree: &Tree, opened: &OpenedDirectory<'_>, dirent: &Dirent<'a>) {
        let name = dirent.name;
        if is_dots(name) {
            return;
        }
        self.entries = self.entries.saturating_add(1);
        if !opened.had(name) {
            self.never.add(name);
        }
        if let Some(expected) = other_kind(tree, opened, dirent) {
            self.types.add(OtherType {
                name,
                answered: dirent.kind,
                expected,
            });
        }
        if gives_node(dirent) && tree.find(self.directory, name).is_none() {
            self.gone.add(name);
        }
    }

    /// Notes an entry whose name is listed already.
    fn note_again(
        &mut self,
        so_far: &mut SoFar<'a>,
        opened: &OpenedDirectory<'_>,
        dirent: &Dirent<'a>,
        asked: u32,
    ) {
        if let Some(first) = so_far.note(opened, dirent.name, asked) {
            self.twice.add(Twice {
                name: dirent.name,
                first,
                second: asked,
            });
        }
    }

    /// Notes the names that stayed and were not listed, the least first.
    fn note_missing(&mut self, alloc: Global, so_far: &SoFar<'_>, opened: &OpenedDirectory<'t>) {
        match missing_names(alloc, so_far, opened) {
            Ok(missing) => {
                for name in &missing {
                    self.missing.add(*name);
                }
            }
            Err(_) => self.lacks_memory = true,
        }
    }

    /// Asks a history for the places of which the lines tell, for the directory, and for the files whose entries have another type.
    pub(crate) fn ask(&self, history: &mut History, tree: &Tree) {
        history.ask_for_file(self.directory);
        for other in &self.types.first {
            if let Some(file) = tree.find(self.directory, other.name) {
                history.ask_for_file(file);
            }
        }
        ask_for_places(history, self.directory, &self.missing.first);
        ask_for_places(history, self.directory, &self.never.first);
        ask_for_places(history, self.directory, &self.gone.first);
    }
}

/// Asks for the places of these names.
fn ask_for_places(history: &mut History, directory: FileId, names: &[&[u8]]) {
    for name in names {
        history.ask_for_place(directory, name);
    }
}

/// The names that stayed and are not listed, the least first.
fn missing_names<'t>(
    alloc: Global,
    so_far: &SoFar<'_>,
    opened: &OpenedDirectory<'t>,
) -> Result<Vec<&'t [u8]>, AllocError> {
    let mut found = IndexMap::with_hasher(alloc, *so_far.names.hasher());
    missing_besides(alloc, so_far, opened, &mut found)
}

/// The same with those lent that are found already, which are none.
fn missing_besides<'t>(
    alloc: Global,
    so_far: &SoFar<'_>,
    opened: &OpenedDirectory<'t>,
    found: &mut IndexMap<&'t [u8], (), Seed>,
) -> Result<Vec<&'t [u8]>, AllocError> {
    let mut missing = Vec::new(alloc);
    for _ in 0..MOST_MISSING {
        let Some(name) = next_missing(opened, so_far, found) else {
            break;
        };
        missing.push(name)?;
        found.insert(name, ())?;
    }
    missing.sort_unstable();
    Ok(missing)
}

/// A name that stayed and is neither listed nor found to be missing already, if there is one.
fn next_missing<'t>(
    opened: &OpenedDirectory<'t>,
    so_far: &SoFar<'_>,
    found: &IndexMap<&'t [u8], (), Seed>,
) -> Option<&'t [u8]> {
    let names = &so_far.names;
    opened.find_stayed(|name| !names.contains_key(&name) && !found.contains_key(&name))
}

/// The number of the type of a file that stayed, if an entry tells another.
fn other_kind(tree: &Tree, opened: &OpenedDirectory<'_>, dirent: &Dirent<'_>) -> Option<u32> {
    let expected = kind_number(kind_of(tree, opened.stayed(dirent.name))?);
    if dirent.kind == 0 || dirent.kind == expected {
        None
    } else {
        Some(expected)
    }
}

/// The type of a file, if it is there.
pub(crate) fn kind_of(tree: &Tree, file: Option<FileId>) -> Option<Kind> {
    match tree.facts(file?) {
        Some(facts) => Some(facts.kind),
        None => None,
    }
}

/// Whether an entry of a READDIRPLUS gives a node: the entries `.` and `..` give none.
pub(crate) fn gives_node(dirent: &Dirent<'_>) -> bool {
    match &dirent.entry {
        Some(entry) => entry.nodeid != 0 && !is_dots(dirent.name),
        None => false,
    }
}

/// Whether a name is `.` or `..`.
fn is_dots(name: &[u8]) -> bool {
    matches!(name, [b'.'] | [b'.', b'.'])
}

/// The number of a type of files in `struct fuse_dirent`.
pub(crate) fn kind_number(kind: Kind) -> u32 {
    match kind {
        Kind::Fifo => 1,
        Kind::CharDevice => 2,
        Kind::Directory => 4,
        Kind::BlockDevice => 6,
        Kind::Regular => 8,
        Kind::Symlink => 10,
        Kind::Socket => 12,
    }
}
