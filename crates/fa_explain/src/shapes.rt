//! What the bodies of requests and of successes are.

use fa_bodies::opcodes;

/// What stands behind the struct of a body.
#[derive(Clone, Copy)]
pub(crate) enum Rest {
    Nothing,
    /// Any bytes.
    Any,
    Name,
    Names,
    NameAndTarget,
    /// The bytes that a WRITE writes.
    Payload,
    /// The items of a BATCH_FORGET.
    Items,
}

// The bodies of requests, in words.
const NAME: &str = "a name";

const NAME_AND_TARGET: &str = "a name, and a target";

const FORGET_IN: &str = "struct fuse_forget_in, 8 bytes";

const GETATTR_IN: &str = "struct fuse_getattr_in, 16 bytes";

const SETATTR_IN: &str = "struct fuse_setattr_in, 88 bytes";

const MKNOD_IN: &str = "struct fuse_mknod_in, 16 bytes, and a name";

const MKDIR_IN: &str = "struct fuse_mkdir_in, 8 bytes, and a name";

const RENAME_IN: &str = "struct fuse_rename_in, 8 bytes, and two names";

const RENAME2_IN: &str = "struct fuse_rename2_in, 16 bytes, and two names";

const LINK_IN: &str = "struct fuse_link_in, 8 bytes, and a name";

const OPEN_IN: &str = "struct fuse_open_in, 8 bytes";

const READ_IN: &str = "struct fuse_read_in, 40 bytes";

const WRITE_IN: &str = "struct fuse_write_in, 40 bytes, and as many bytes as size says";

const RELEASE_IN: &str = "struct fuse_release_in, 24 bytes";

const FLUSH_IN: &str = "struct fuse_flush_in, 24 bytes";

const INIT_IN: &str = "struct fuse_init_in, 16 bytes or more";

const CREATE_IN: &str = "struct fuse_create_in, 16 bytes, and a name";

const BATCH_FORGET_IN: &str = "struct fuse_batch_forget_in, 8 bytes, and 16 bytes an item";

// The structs of successes, in words.
const ENTRY_OUT: &str = "struct fuse_entry_out, 128 bytes";

const CREATE_OUT: &str = "struct fuse_entry_out and struct fuse_open_out, 144 bytes";

const ATTR_OUT: &str = "struct fuse_attr_out, 104 bytes";

const OPEN_OUT: &str = "struct fuse_open_out, 16 bytes";

const WRITE_OUT: &str = "struct fuse_write_out, 8 bytes";

/// What the body of each operation that is judged is: in words, how many bytes its struct has, and what stands behind that.
static REQUESTS: [(u32, &str, usize, Rest); 25] = [
    (opcodes::LOOKUP, NAME, 0, Rest::Name),
    (opcodes::FORGET, FORGET_IN, 8, Rest::Nothing),
    (opcodes::GETATTR, GETATTR_IN, 16, Rest::Nothing),
    (opcodes::SETATTR, SETATTR_IN, 88, Rest::Nothing),
    (opcodes::READLINK, "nothing", 0, Rest::Nothing),
    (opcodes::SYMLINK, NAME_AND_TARGET, 0, Rest::NameAndTarget),
    (opcodes::MKNOD, MKNOD_IN, 16, Rest::Name),
    (opcodes::MKDIR, MKDIR_IN, 8, Rest::Name),
    (opcodes::UNLINK, NAME, 0, Rest::Name),
    (opcodes::RMDIR, NAME, 0, Rest::Name),
    (opcodes::RENAME, RENAME_IN, 8, Rest::Names),
    (opcodes::LINK, LINK_IN, 8, Rest::Name),
    (opcodes::OPEN, OPEN_IN, 8, Rest::Nothing),
    (opcodes::READ, READ_IN, 40, Rest::Nothing),
    (opcodes::WRITE, WRITE_IN, 40, Rest::Payload),
    (opcodes::RELEASE, RELEASE_IN, 24, Rest::Nothing),
    (opcodes::FLUSH, FLUSH_IN, 24, Rest::Nothing),
    (opcodes::INIT, INIT_IN, 16, Rest::Any),
    (opcodes::OPENDIR, OPEN_IN, 8, Rest::Nothing),
    (opcodes::READDIR, READ_IN, 40, Rest::Nothing),
    (opcodes::RELEASEDIR, RELEASE_IN, 24, Rest::Nothing),
    (opcodes::CREATE, CREATE_IN, 16, Rest::Name),
    (opcodes::BATCH_FORGET, BATCH_FORGET_IN, 8, Rest::Items),
    (opcodes::READDIRPLUS, READ_IN, 40, Rest::Nothing),
    (opcodes::RENAME2, RENAME2_IN, 16, Rest::Names),
];

/// The structs of the successes that have any.
static SUCCESSES: [(u32, &str); 11] = [
    (opcodes::LOOKUP, ENTRY_OUT),
    (opcodes::GETATTR, ATTR_OUT),
    (opcodes::SETATTR, ATTR_OUT),
    (opcodes::SYMLINK, ENTRY_OUT),
    (opcodes::MKNOD, ENTRY_OUT),
    (opcodes::MKDIR, ENTRY_OUT),
    (opcodes::LINK, ENTRY_OUT),
    (opcodes::OPEN, OPEN_OUT),
    (opcodes::WRITE, WRITE_OUT),
    (opcodes::OPENDIR, OPEN_OUT),
    (opcodes::CREATE, CREATE_OUT),
];

/// What the body of a request is.
#[derive(Clone, Copy)]
pub(crate) struct Shape {
    /// It in words.
    pub words: &'static str,
    /// How many bytes its struct has.
    pub size: usize,
    pub rest: Rest,
}

/// What the body of an operation is, if it is judged.
pub(crate) fn shape_of(opcode: u32) -> Option<Shape> {
    for (judged, words, size, rest) in &REQUESTS {
        if *judged == opcode {
            return Some(Shape {
                words,
                size: *size,
                rest: *rest,
            });
        }
    }
    None
}

/// The structs of a success, in words; none where it is the header alone.
pub(crate) fn success_of(opcode: u32) -> Option<&'static str> {
    for (judged, words) in &SUCCESSES {
        if *judged == opcode {
            return Some(words);
        }
    }
    None
}
