//! Requests, as the kernel sends them.

ghost use Rattle.std.specs.Prelude.{◌↔◌, IsTrue};
ghost use Rattle.fa_bodies.specs.Requests.{MayBeAnswered, body_shown};

use crate::flags::OpenFlags;
use crate::getattr::GetattrIn;
use crate::handles::{FlushIn, OpenIn, ReadIn, ReleaseIn};
use crate::init::InitIn;
use crate::mode::Mode;
use crate::rename_flags::RenameFlags;
use crate::views::SetattrBytes;

/// The node id of the root (`FUSE_ROOT_ID` of `fuse.h`).
pub const ROOT_ID: u64 = 1;

/// What a request asks for, by its operation (`enum fuse_opcode` of `fuse.h`). Fields have the names of `fuse.h`, and
/// what is of no use is left out. Names, targets and payloads are slices of the message, and what SETATTR asks for lies in
/// it.
#[derive(Clone, Copy, Debug)]
pub enum RequestBody<'a> {
    /// The file of a name in the directory of the request's node.
    Lookup {
        name: &'a [u8],
    },
    /// So many lookups of the node are taken back. It has no answer.
    Forget {
        nlookup: u64,
    },
    /// The attributes of the node's file.
    Getattr(GetattrIn),
    /// A change of attributes of the node's file.
    Setattr(SetattrBytes<'a>),
    /// The target of a symbolic link.
    Readlink,
    /// A new symbolic link with this name and target in the directory of the node.
    Symlink {
        name: &'a [u8],
        target: &'a [u8],
    },
    /// A new file in the directory of the node that is neither a directory nor a symbolic link.
    Mknod {
        mode: Mode,
        rdev: u32,
        umask: u32,
        name: &'a [u8],
    },
    /// A new directory in the directory of the node. The type in its mode is of no meaning.
    Mkdir {
        mode: Mode,
        umask: u32,
        name: &'a [u8],
    },
    /// A name of a file that is no directory goes.
    Unlink {
        name: &'a [u8],
    },
    /// A name of an empty directory goes.
    Rmdir {
        name: &'a [u8],
    },
    /// A name moves from the directory of the node to the directory `newdir`.
    Rename {
        newdir: u64,
        old_name: &'a [u8],
        new_name: &'a [u8],
    },
    /// The file of `oldnodeid` gets a further name in the directory of the node.
    Link {
        oldnodeid: u64,
        new_name: &'a [u8],
    },
    /// The node's file is opened.
    Open(OpenIn),
    /// Bytes of the node's file.
    Read(ReadIn),
    /// Bytes for the node's file, which are `payload`: `size` of them, from `offset` on.
    Write {
        fh: u64,
        offset: u64,
        size: u32,
        write_flags: u32,
        lock_owner: u64,
        flags: OpenFlags,
        payload: &'a [u8],
    },
    /// A file handle is closed for good.
    Release(ReleaseIn),
    /// A descriptor of a file handle was closed.
    Flush(FlushIn),
    /// The start of the session.
    Init(InitIn),
    /// The node's directory is opened.
    Opendir(OpenIn),
    /// Entries of the node's directory.
    Readdir(ReadIn),
    /// A directory handle is closed for good.
    Releasedir(ReleaseIn),
    /// A new file in the directory of the node, or one that is there, is opened.
    Create {
        flags: OpenFlags,
        mode: Mode,
        umask: u32,
        name: &'a [u8],
    },
    /// Lookups of `count` nodes are taken back. [`items`](crate::items) reads them. It has no answer.
    BatchForget {
        count: u32,
        items: &'a [u8],
    },
    /// Entries of the node's directory, whose names are looked up too.
    Readdirplus(ReadIn),
    /// A name moves from the directory of the node to the directory `newdir`, or the two names exchange their files.
    Rename2 {
        newdir: u64,
        flags: RenameFlags,
        old_name: &'a [u8],
        new_name: &'a [u8],
    },
    /// An operation that is read by its header alone, or a RENAME2 with flags that are not judged.
    Passed,
}

impl RequestBody<'_> {
    /// Whether the request may be answered, as all may but FORGET and BATCH_FORGET (this profile, as the kernel).
    ///
    /// Takes no memory, in constant time.
    pub fn may_be_answered(&self) -> bool
        ensures { IsTrue result ↔ MayBeAnswered (body_shown self.now) }
    {
        match self {
            RequestBody::Forget { .. } | RequestBody::BatchForget { .. } => false,
            RequestBody::Lookup { .. }
            | RequestBody::Getattr(_)
            | RequestBody::Setattr(_)
            | RequestBody::Readlink
            | RequestBody::Symlink { .. }
            | RequestBody::Mknod { .. }
            | RequestBody::Mkdir { .. }
            | RequestBody::Unlink { .. }
            | RequestBody::Rmdir { .. }
            | RequestBody::Rename { .. }
            | RequestBody::Link { .. }
            | RequestBody::Open(_)
            | RequestBody::Read(_)
            | RequestBody::Write { .. }
            | RequestBody::Release(_)
            | RequestBody::Flush(_)
            | RequestBody::Init(_)
            | RequestBody::Opendir(_)
            | RequestBody::Readdir(_)
            | RequestBody::Releasedir(_)
            | RequestBody::Create { .. }
            | RequestBody::Readdirplus(_)
            | RequestBody::Rename2 { .. }
            | RequestBody::Passed => true,
        }
    }
}

/// A request: the fields of its header (`struct fuse_in_header`) that are read, and its body.
#[derive(Clone, Copy, Debug)]
pub struct Request<'a> {
    /// The number that its reply repeats.
    pub unique: u64,
    /// The node id that it is about.
    pub node: u64,
    /// The operation's number in `fuse.h`.
    pub opcode: u32,
    pub body: RequestBody<'a>,
}
