//! The names of numbers: operations, errors, notifications, types of files and flags.

use crate::text::Text;

/// The names of operations by their numbers (`enum fuse_opcode` of `fuse.h` 7.31); none for a number that has no operation.
static OPERATIONS: [&str; 48] = [
    "",
    "LOOKUP",
    "FORGET",
    "GETATTR",
    "SETATTR",
    "READLINK",
    "SYMLINK",
    "",
    "MKNOD",
    "MKDIR",
    "UNLINK",
    "RMDIR",
    "RENAME",
    "LINK",
    "OPEN",
    "READ",
    "WRITE",
    "STATFS",
    "RELEASE",
    "",
    "FSYNC",
    "SETXATTR",
    "GETXATTR",
    "LISTXATTR",
    "REMOVEXATTR",
    "FLUSH",
    "INIT",
    "OPENDIR",
    "READDIR",
    "RELEASEDIR",
    "FSYNCDIR",
    "GETLK",
    "SETLK",
    "SETLKW",
    "ACCESS",
    "CREATE",
    "INTERRUPT",
    "BMAP",
    "DESTROY",
    "IOCTL",
    "POLL",
    "",
    "BATCH_FORGET",
    "FALLOCATE",
    "READDIRPLUS",
    "RENAME2",
    "LSEEK",
    "COPY_FILE_RANGE",
];

/// The names of errors by their numbers (`errno.h` with the generic numbers of Linux).
static ERRORS: [&str; 41] = [
    "",
    "EPERM",
    "ENOENT",
    "ESRCH",
    "EINTR",
    "EIO",
    "ENXIO",
    "E2BIG",
    "ENOEXEC",
    "EBADF",
    "ECHILD",
    "EAGAIN",
    "ENOMEM",
    "EACCES",
    "EFAULT",
    "ENOTBLK",
    "EBUSY",
    "EEXIST",
    "EXDEV",
    "ENODEV",
    "ENOTDIR",
    "EISDIR",
    "EINVAL",
    "ENFILE",
    "EMFILE",
    "ENOTTY",
    "ETXTBSY",
    "EFBIG",
    "ENOSPC",
    "ESPIPE",
    "EROFS",
    "EMLINK",
    "EPIPE",
    "EDOM",
    "ERANGE",
    "EDEADLK",
    "ENAMETOOLONG",
    "ENOLCK",
    "ENOSYS",
    "ENOTEMPTY",
    "ELOOP",
];

/// The names of notifications by their codes (`enum fuse_notify_code`).
static NOTIFICATIONS: [&str; 7] = [
    "",
    "POLL",
    "INVAL_INODE",
    "INVAL_ENTRY",
    "STORE",
    "RETRIEVE",
    "DELETE",
];

/// The names of types of files by the numbers of `struct fuse_dirent`, which are the `S_IFMT` bits of a mode shifted right by 12.
static TYPES: [&str; 13] = [
    "", "FIFO", "CHR", "", "DIR", "", "BLK", "", "REG", "", "LNK", "", "SOCK",
];

/// A flag by its bits, and its name.
pub type Flag = (u32, &'static str);

/// The flags of INIT.
pub static INIT_FLAGS: [Flag; 27] = [
    (1 << 0, "ASYNC_READ"),
    (1 << 1, "POSIX_LOCKS"),
    (1 << 2, "FILE_OPS"),
    (1 << 3, "ATOMIC_O_TRUNC"),
    (1 << 4, "EXPORT_SUPPORT"),
    (1 << 5, "BIG_WRITES"),
    (1 << 6, "DONT_MASK"),
    (1 << 7, "SPLICE_WRITE"),
    (1 << 8, "SPLICE_MOVE"),
    (1 << 9, "SPLICE_READ"),
    (1 << 10, "FLOCK_LOCKS"),
    (1 << 11, "HAS_IOCTL_DIR"),
    (1 << 12, "AUTO_INVAL_DATA"),
    (1 << 13, "DO_READDIRPLUS"),
    (1 << 14, "READDIRPLUS_AUTO"),
    (1 << 15, "ASYNC_DIO"),
    (1 << 16, "WRITEBACK_CACHE"),
    (1 << 17, "NO_OPEN_SUPPORT"),
    (1 << 18, "PARALLEL_DIROPS"),
    (1 << 19, "HANDLE_KILLPRIV"),
    (1 << 20, "POSIX_ACL"),
    (1 << 21, "ABORT_ERROR"),
    (1 << 22, "MAX_PAGES"),
    (1 << 23, "CACHE_SYMLINKS"),
    (1 << 24, "NO_OPENDIR_SUPPORT"),
    (1 << 25, "EXPLICIT_INVAL_DATA"),
    (1 << 26, "MAP_ALIGNMENT"),
];

/// The flags of an open handle (`open_flags` of `struct fuse_open_out`).
pub(crate) static FOPEN_FLAGS: [Flag; 5] = [
    (1 << 0, "FOPEN_DIRECT_IO"),
    (1 << 1, "FOPEN_KEEP_CACHE"),
    (1 << 2, "FOPEN_NONSEEKABLE"),
    (1 << 3, "FOPEN_CACHE_DIR"),
    (1 << 4, "FOPEN_STREAM"),
];

/// The flags of `open` in POSIX and Linux, with the generic numbers of Linux, but for the two bits of the access mode.
pub(crate) static OPEN_FLAGS: [Flag; 12] = [
    (0o100, "O_CREAT"),
    (0o200, "O_EXCL"),
    (0o400, "O_NOCTTY"),
    (0o1000, "O_TRUNC"),
    (0o2000, "O_APPEND"),
    (0o4000, "O_NONBLOCK"),
    (0o10000, "O_DSYNC"),
    (0o40000, "O_DIRECT"),
    (0o200000, "O_DIRECTORY"),
    (0o400000, "O_NOFOLLOW"),
    (0o1000000, "O_NOATIME"),
    (0o2000000, "O_CLOEXEC"),
];

/// The flags of WRITE (`write_flags` of `struct fuse_write_in`).
pub(crate) static WRITE_FLAGS: [Flag; 3] = [
    (1 << 0, "FUSE_WRITE_CACHE"),
    (1 << 1, "FUSE_WRITE_LOCKOWNER"),
    (1 << 2, "FUSE_WRITE_KILL_SUIDGID"),
];

/// The flags of RENAME2 (those of Linux `renameat2`).
pub static RENAME_FLAGS: [Flag; 3] = [
    (1 << 0, "RENAME_NOREPLACE"),
    (1 << 1, "RENAME_EXCHANGE"),
    (1 << 2, "RENAME_WHITEOUT"),
];

/// `O_LARGEFILE`, which x86-64 always sets, and which is not shown.
const O_LARGEFILE: u32 = 0o100000;

/// The name that a table has for a number.
fn named(names: &[&'static str], number: usize) -> Option<&'static str> {
    match names.get(number) {
        Some(name) if !name.is_empty() => Some(name),
        _ => None,
    }
}

/// The name of an operation.
pub(crate) fn operation_name(opcode: u32) -> Option<&'static str> {
    named(&OPERATIONS, opcode as usize)
}

/// Writes an operation: its name, or its number where it has none.
///
/// Takes no memory, in constant time.
pub fn operation(text: &mut Text, opcode: u32) {
    match operation_name(opcode) {
        Some(name) => text.word(name),
        None => text.field("opcode ", u64::from(opcode)),
    }
}

/// The name of an error that a reply has, which is its negated number, if it is known by one.
///
/// Takes no memory, in constant time.
pub fn error_name(error: i32) -> Option<&'static str> {
    match error {
        -61 => Some("ENODATA"),
        -71 => Some("EPROTO"),
        -75 => Some("EOVERFLOW"),
        -95 => Some("EOPNOTSUPP"),
        -103 => Some("ECONNABORTED"),
        -116 => Some("ESTALE"),
        -40..=-1 => named(&ERRORS, error.unsigned_abs() as usize),
        _ => None,
    }
}

/// Writes a number that may be below zero.
///
/// Takes no memory, in constant time.
pub fn signed(text: &mut Text, number: i32) {
    if number < 0 {
        text.word("-");
    }
    text.number(u64::from(number.unsigned_abs()));
}

/// Writes the error of a reply.
pub(crate) fn error(text: &mut Text, error: i32) {
    match error_name(error) {
        Some(name) => text.word(name),
        None => {
            text.word("error ");
            signed(text, error);
        }
    }
}

/// The name of a notification.
fn notification_name(code: i32) -> Option<&'static str> {
    if code < 0 {
        return None;
    }
    named(&NOTIFICATIONS, code as usize)
}

/// Writes the code of a notification.
pub(crate) fn notification(text: &mut Text, code: i32) {
    match notification_name(code) {
        Some(name) => text.word(name),
        None => signed(text, code),
    }
}

/// Writes the type of a file.
pub(crate) fn file_type(text: &mut Text, kind: u32) {
    match named(&TYPES, kind as usize) {
        Some(name) => text.word(name),
        None => text.field("type ", u64::from(kind)),
    }
}

/// Writes a mode: the type of a file, if there is one, and twelve permission bits in four octal digits.
pub(crate) fn mode(text: &mut Text, bits: u32) {
    let kind = (bits >> 12) & 15;
    if kind == 0 {
        text.word("mode");
    } else {
        file_type(text, kind);
    }
    text.word(" ");
    text.octal(bits & 0o7777, 4);
}

/// Writes the names of the flags that are set, and what is left in hexadecimal.
///
/// Takes no memory, in time linear in the names.
pub fn flags(text: &mut Text, bits: u32, names: &[Flag]) {
    let mut left = bits;
    for (flag, name) in names {
        if left & *flag != 0 {
            text.word(if left == bits { "" } else { "|" });
            text.word(name);
            left &= !*flag;
        }
    }
    if left != 0 || bits == 0 {
        text.word(if left == bits { "" } else { "|" });
        rest(text, left);
    }
}

/// Writes bits without names.
fn rest(text: &mut Text, bits: u32) {
    if bits == 0 {
        text.word("0");
    } else {
        text.hexadecimal(bits);
    }
}

/// Writes the flags with which a file is opened.
pub(crate) fn open_flags(text: &mut Text, bits: u32) {
    text.word(match bits & 3 {
        0 => "O_RDONLY",
        1 => "O_WRONLY",
        2 => "O_RDWR",
        _ => "O_ACCMODE",
    });
    let further = bits & !3 & !O_LARGEFILE;
    if further != 0 {
        text.word("|");
        flags(text, further, &OPEN_FLAGS);
    }
}
