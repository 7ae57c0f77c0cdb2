//! Modes of files: their types and permission bits (`st_mode` of POSIX `<sys/stat.h>`, with the
//! numbers of Linux).

ghost use Rattle.std.specs.Prelude.{◌≡◌, ◌↔◌, Option, IsTrue};
ghost use Rattle.fa_bodies.specs.Modes.{mode_bits, HasFileType, IsNodeMode};

/// The bits of a mode that tell the file's type.
const S_IFMT: u32 = 0o170000;

const S_IFIFO: u32 = 0o010000;

const S_IFCHR: u32 = 0o020000;

const S_IFDIR: u32 = 0o040000;

const S_IFBLK: u32 = 0o060000;

const S_IFREG: u32 = 0o100000;

const S_IFLNK: u32 = 0o120000;

const S_IFSOCK: u32 = 0o140000;

/// What a file is (`S_IFMT` of POSIX).
#[derive(Clone, Copy, Debug, PartialEq, Eq)]
pub enum Kind {
    /// A pipe with a name.
    Fifo,
    /// A device that gives and takes characters.
    CharDevice,
    Directory,
    /// A device that gives and takes blocks.
    BlockDevice,
    /// A file of bytes.
    Regular,
    /// A symbolic link.
    Symlink,
    Socket,
}

/// A mode (`mode_t` of POSIX): the type of a file, and its permission bits.
#[derive(Clone, Copy, Debug, Default, PartialEq, Eq)]
pub struct Mode(u32);

impl Mode {
    /// The mode of these bits.
    pub fn from_bits(bits: u32) -> Mode
        ensures { mode_bits result ≡ bits }
    {
        Mode(bits)
    }

    /// Its bits.
    pub fn bits(self) -> u32
        ensures { result ≡ mode_bits self }
    {
        self.0
    }

    /// The type that its bits tell (`S_IFMT`), or None where they tell none.
    pub fn file_type(self) -> Option<Kind>
        ensures { HasFileType (mode_bits self) result }
    {
        match self.0 & S_IFMT {
            S_IFIFO => Some(Kind::Fifo),
            S_IFCHR => Some(Kind::CharDevice),
            S_IFDIR => Some(Kind::Directory),
            S_IFBLK => Some(Kind::BlockDevice),
            S_IFREG => Some(Kind::Regular),
            S_IFLNK => Some(Kind::Symlink),
            S_IFSOCK => Some(Kind::Socket),
            _ => None,
        }
    }

    /// Whether MKNOD may make a file of this mode: of any type but a directory and a symbolic link. Type 0 stands for
    /// a regular file.
    pub(crate) fn is_node(self) -> bool
        ensures { IsTrue result ↔ IsNodeMode (mode_bits self) }
    {
        match self.file_type() {
            Some(Kind::Directory | Kind::Symlink) => false,
            Some(_) => true,
            None => self.0 & S_IFMT == 0,
        }
    }
}
