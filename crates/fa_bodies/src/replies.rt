//! Replies, as the server sends them.

use crate::dirent::Entries;
use crate::handles::OpenOut;
use crate::init::Negotiated;
use crate::views::{AttrBytes, EntryBytes};

/// The head of a message from the server (`struct fuse_out_header`) without its length.
#[derive(Clone, Copy, Debug)]
pub struct ReplyHead {
    /// The number of the request that it answers, or 0 for a notification.
    pub unique: u64,
    /// 0 for success, or an error number below 0. The code of a notification (`enum
    /// fuse_notify_code`).
    pub error: i32,
}

/// What a reply says to its request. Payloads are slices of the message, and entries and attributes lie in it.
#[derive(Clone, Copy, Debug)]
pub enum Reply<'a> {
    /// The request failed with this error number, which is below 0.
    Refused(i32),
    /// It is done, and there is no more to say: UNLINK, RMDIR, RENAME, RENAME2, RELEASE, RELEASEDIR, FLUSH.
    Empty,
    /// The file of a name: LOOKUP, SYMLINK, MKNOD, MKDIR, LINK. To LOOKUP the node id 0 says that the
    /// name is not there.
    Entry(EntryBytes<'a>),
    /// The file of a name, and its open handle: CREATE.
    Created {
        entry: EntryBytes<'a>,
        open: OpenOut,
    },
    /// The attributes of a file: GETATTR, SETATTR.
    Attributes(AttrBytes<'a>),
    /// An open handle: OPEN, OPENDIR.
    Opened(OpenOut),
    /// How many bytes were written: WRITE.
    Written(u32),
    /// The bytes of a file or the target of a symbolic link: READ, READLINK.
    Bytes(&'a [u8]),
    /// Entries of a directory: READDIR, READDIRPLUS.
    Listed(Entries<'a>),
    /// The session is open: INIT.
    Negotiated(Negotiated),
    /// Success of an operation that is read by its header alone, or of a RENAME2 with flags that are not judged.
    Skipped,
}
