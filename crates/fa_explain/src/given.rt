//! What replies give, and open.

use crate::names::is_dots;
use fa_bodies::{Dirent, Entries, Reply, Request, RequestBody, opcodes};

/// The nodes that a reply gives: each of them stands for one lookup.
#[derive(Clone, Copy)]
pub(crate) enum Given<'a> {
    Nothing,
    One(u64),
    /// Those of the entries that have one.
    Listed(Entries<'a>),
}

impl<'a> Given<'a> {
    /// The nodes that a reply to a request gives: to LOOKUP node 0 stands for none.
    pub fn by(asked: &Request<'_>, reply: &Reply<'a>) -> Self {
        match reply {
            Reply::Entry(entry) => {
                let node = entry.nodeid();
                if node == 0 && asked.opcode == opcodes::LOOKUP {
                    Given::Nothing
                } else {
                    Given::One(node)
                }
            }
            Reply::Created { entry, .. } => Given::One(entry.nodeid()),
            Reply::Listed(entries) if entries.is_plus() => Given::Listed(*entries),
            _ => Given::Nothing,
        }
    }

    /// Whether a node is one of them.
    pub fn has(self, node: u64) -> bool {
        match self {
            Given::Nothing => false,
            Given::One(given) => given == node,
            Given::Listed(entries) => name_listed(entries, node).is_some(),
        }
    }
}

/// The node that an entry of a READDIRPLUS gives, if any: the entries `.` and `..` give none.
///
/// Takes no memory, in constant time.
pub(crate) fn node_listed(dirent: &Dirent<'_>) -> Option<u64> {
    match &dirent.entry {
        Some(entry) if entry.nodeid != 0 && !is_dots(dirent.name) => Some(entry.nodeid),
        _ => None,
    }
}

/// The name of the first entry of a READDIRPLUS that gives a node, if one does.
///
/// Takes no memory, and time linear in the entries.
pub(crate) fn name_listed<'a>(entries: Entries<'a>, node: u64) -> Option<&'a [u8]> {
    for dirent in entries {
        if let Some(given) = node_listed(&dirent) {
            if given == node {
                return Some(dirent.name);
            }
        }
    }
    None
}

/// As what a file handle is opened and used.
#[derive(Clone, Copy, PartialEq, Eq)]
pub(crate) enum HandleKind {
    File,
    Directory,
}

impl HandleKind {
    /// The kind of handle that an operation opens or uses.
    pub fn of(opcode: u32) -> Self {
        match opcode {
            opcodes::OPENDIR | opcodes::READDIR | opcodes::READDIRPLUS | opcodes::RELEASEDIR =>
                HandleKind::Directory,
            _ => HandleKind::File,
        }
    }

    /// The other one.
    pub fn other(self) -> Self {
        match self {
            HandleKind::File => HandleKind::Directory,
            HandleKind::Directory => HandleKind::File,
        }
    }

    /// The word for it.
    pub fn word(self) -> &'static str {
        match self {
            HandleKind::File => "file",
            HandleKind::Directory => "directory",
        }
    }
}

/// A file handle: its number, and as what and for which node it is opened or used.
#[derive(Clone, Copy, PartialEq, Eq)]
pub(crate) struct Handle {
    pub fh: u64,
    pub kind: HandleKind,
    pub node: u64,
}

impl Handle {
    /// The handle of this number that a request opens or uses on its node.
    pub fn of(asked: &Request<'_>, fh: u64) -> Self {
        Handle {
            fh,
            kind: HandleKind::of(asked.opcode),
            node: asked.node,
        }
    }
}

/// The file handle that a success opens.
#[derive(Clone, Copy)]
pub(crate) struct Opened {
    pub handle: Handle,
    /// Whether it is on a node that the success gives, and not on one that the request named.
    pub is_on_given: bool,
}

impl Opened {
    /// The file handle that a reply to a request opens, if any.
    pub fn by(asked: &Request<'_>, reply: &Reply<'_>) -> Option<Self> {
        let (fh, node, is_on_given) = match reply {
            Reply::Opened(open) => (open.fh, asked.node, false),
            Reply::Created { entry, open } => (open.fh, entry.nodeid(), true),
            _ => return None,
        };
        let kind = HandleKind::of(asked.opcode);
        Some(Opened {
            handle: Handle { fh, kind, node },
            is_on_given,
        })
    }
}

/// The file handle of a request that is refused for it. A GETATTR or a SETATTR that uses none is not, so its flag is not looked at.
pub(crate) fn handle_used(asked: &Request<'_>) -> Option<Handle> {
    let fh = match &asked.body {
        RequestBody::Getattr(getattr) => getattr.fh,
        RequestBody::Setattr(setattr) => setattr.fh(),
        RequestBody::Read(read) | RequestBody::Readdir(read) | RequestBody::Readdirplus(read) => {
            read.fh
        }
        RequestBody::Write { fh, .. } => *fh,
        RequestBody::Release(release) | RequestBody::Releasedir(release) => release.fh,
        RequestBody::Flush(flush) => flush.fh,
        _ => return None,
    };
    Some(Handle::of(asked, fh))
}
