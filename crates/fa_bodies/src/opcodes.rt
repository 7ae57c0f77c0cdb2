//! The operations, by their numbers in `fuse.h` (`enum fuse_opcode`).

ghost use Rattle.std.specs.Prelude.{◌↔◌, IsTrue};
ghost use Rattle.fa_bodies.specs.Requests.{IsOneOf, IsOperation, bystanders, changers};

/// Looks up a name in a directory.
pub const LOOKUP: u32 = 1;
/// Takes back lookups of a node.
pub const FORGET: u32 = 2;
/// Asks for the attributes of a file.
pub const GETATTR: u32 = 3;
/// Changes attributes of a file, its size among them.
pub const SETATTR: u32 = 4;
/// Asks for the target of a symbolic link.
pub const READLINK: u32 = 5;
/// Makes a symbolic link.
pub const SYMLINK: u32 = 6;
/// Makes a file that is no directory.
pub const MKNOD: u32 = 8;
/// Makes a directory.
pub const MKDIR: u32 = 9;
/// Removes the name of a file that is no directory.
pub const UNLINK: u32 = 10;
/// Removes an empty directory.
pub const RMDIR: u32 = 11;
/// Moves a name.
pub const RENAME: u32 = 12;
/// Gives a file a further name.
pub const LINK: u32 = 13;
/// Opens a file.
pub const OPEN: u32 = 14;
/// Reads bytes of a file.
pub const READ: u32 = 15;
/// Writes bytes to a file.
pub const WRITE: u32 = 16;
/// Asks for figures of the file system.
pub const STATFS: u32 = 17;
/// Closes a file for good.
pub const RELEASE: u32 = 18;
/// Brings a file to its store.
pub const FSYNC: u32 = 20;
/// Sets an extended attribute.
pub const SETXATTR: u32 = 21;
/// Reads an extended attribute.
pub const GETXATTR: u32 = 22;
/// Lists the extended attributes of a file.
pub const LISTXATTR: u32 = 23;
/// Removes an extended attribute.
pub const REMOVEXATTR: u32 = 24;
/// Tells that a descriptor of a file was closed.
pub const FLUSH: u32 = 25;
/// Opens the session.
pub const INIT: u32 = 26;
/// Opens a directory.
pub const OPENDIR: u32 = 27;
/// Reads entries of a directory.
pub const READDIR: u32 = 28;
/// Closes a directory for good.
pub const RELEASEDIR: u32 = 29;
/// Brings a directory to its store.
pub const FSYNCDIR: u32 = 30;
/// Asks who holds a lock.
pub const GETLK: u32 = 31;
/// Takes a lock if it is free.
pub const SETLK: u32 = 32;
/// Takes a lock, and waits for it.
pub const SETLKW: u32 = 33;
/// Asks whether a file may be used so.
pub const ACCESS: u32 = 34;
/// Makes a file and opens it.
pub const CREATE: u32 = 35;
/// Asks to give up a request that waits.
pub const INTERRUPT: u32 = 36;
/// Asks for the block of a device that holds a part of a file.
pub const BMAP: u32 = 37;
/// Ends the session.
pub const DESTROY: u32 = 38;
/// Controls a device or a file.
pub const IOCTL: u32 = 39;
/// Asks whether a file is ready.
pub const POLL: u32 = 40;
/// Takes back lookups of several nodes.
pub const BATCH_FORGET: u32 = 42;
/// Reserves or frees room of a file.
pub const FALLOCATE: u32 = 43;
/// Reads entries of a directory and looks up their names.
pub const READDIRPLUS: u32 = 44;
/// Moves a name, with flags.
pub const RENAME2: u32 = 45;
/// Finds data or holes of a file.
pub const LSEEK: u32 = 46;
/// Copies bytes from file to file.
pub const COPY_FILE_RANGE: u32 = 47;

/// Whether this is the number of an operation of the set.
pub(crate) fn is_operation(opcode: u32) -> bool
    ensures { IsTrue result ↔ IsOperation opcode }
{
    matches!(opcode, LOOKUP..=SYMLINK | MKNOD..=RELEASE | FSYNC..=POLL | BATCH_FORGET..=COPY_FILE_RANGE)
}

/// Whether this operation is read by its header alone and has no effect.
pub(crate) fn is_bystander(opcode: u32) -> bool
    ensures { IsTrue result ↔ IsOneOf bystanders opcode }
{
    matches!(
        opcode,
        STATFS
            | FSYNC
            | SETXATTR
            | GETXATTR
            | LISTXATTR
            | REMOVEXATTR
            | FSYNCDIR
            | GETLK
            | SETLK
            | SETLKW
            | ACCESS
            | INTERRUPT
            | BMAP
            | DESTROY
            | POLL
            | LSEEK
    )
}

/// Whether this operation changes files in ways that are not judged: IOCTL, FALLOCATE, COPY_FILE_RANGE, and RENAME2, of which
/// some requests are (those with [`RenameFlags`](crate::RenameFlags)).
///
/// Takes no memory, in constant time.
pub fn is_changer(opcode: u32) -> bool
    ensures { IsTrue result ↔ IsOneOf changers opcode }
{
    matches!(opcode, IOCTL | FALLOCATE | RENAME2 | COPY_FILE_RANGE)
}
