//! The files that requests make.

ghost use Rattle.std.specs.Prelude.{◌≡◌, IfOk};
ghost use Rattle.fa_tree.specs.Making.{node_kind, new_bits, new_symlink, new_node, new_directory, new_regular};
ghost use Rattle.fa_tree.specs.parts.FileParts.{file_shown};

use crate::file::{File, permission_bits};
use fa_bodies::{Kind, Mode};
use fa_store::Contents;
use std::alloc::{AllocError, Global};

/// The type of a file that MKNOD makes.
pub(crate) fn node_kind(mode: Mode) -> Kind
    ensures { result ≡ node_kind mode }
{
    match mode.file_type() {
        Some(Kind::Fifo) => Kind::Fifo,
        Some(Kind::CharDevice) => Kind::CharDevice,
        Some(Kind::BlockDevice) => Kind::BlockDevice,
        Some(Kind::Socket) => Kind::Socket,
        Some(Kind::Regular | Kind::Directory | Kind::Symlink) => Kind::Regular,
        None => Kind::Regular,
    }
}

/// The permission bits of a new file.
pub(crate) fn new_bits(mode: Mode, umask: u32) -> u32
    ensures { result ≡ new_bits mode umask }
{
    permission_bits(mode) & (0o777 - (umask & 0o777))
}

/// The file that SYMLINK makes.
pub(crate) fn new_symlink(alloc: Global, target: &[u8]) -> Result<File, AllocError>
    ensures { IfOk result (λ file. file_shown file ≡ new_symlink target.now) }
{
    let contents = Contents::from_slice(alloc, target)?;
    Ok(File {
        kind: Kind::Symlink,
        bits: 0o777,
        contents,
    })
}

/// The file that MKNOD makes.
pub(crate) fn new_node(alloc: Global, mode: Mode, umask: u32) -> File
    ensures { file_shown result ≡ new_node mode umask }
{
    File {
        kind: node_kind(mode),
        bits: new_bits(mode, umask),
        contents: Contents::new(alloc),
    }
}

/// The file that MKDIR makes.
pub(crate) fn new_directory(alloc: Global, mode: Mode, umask: u32) -> File
    ensures { file_shown result ≡ new_directory mode umask }
{
    File {
        kind: Kind::Directory,
        bits: new_bits(mode, umask),
        contents: Contents::new(alloc),
    }
}

/// The file that CREATE makes.
pub(crate) fn new_regular(alloc: Global, mode: Mode, umask: u32) -> File
    ensures { file_shown result ≡ new_regular mode umask }
{
    File {
        kind: Kind::Regular,
        bits: new_bits(mode, umask),
        contents: Contents::new(alloc),
    }
}
