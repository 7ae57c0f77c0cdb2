//! Error numbers of `errno.h`, with the generic numbers of Linux, as replies have them: negated.

/// A name is not there.
pub const ENOENT: i32 = -2;
/// Reading or writing failed.
pub const EIO: i32 = -5;
/// It is not permitted.
pub const EACCES: i32 = -13;
/// A name is there.
pub const EEXIST: i32 = -17;
/// It is not a directory.
pub const ENOTDIR: i32 = -20;
/// It is a directory.
pub const EISDIR: i32 = -21;
/// The operation is not there.
pub const ENOSYS: i32 = -38;
/// A directory is not empty.
pub const ENOTEMPTY: i32 = -39;
/// The protocol was broken.
pub const EPROTO: i32 = -71;
