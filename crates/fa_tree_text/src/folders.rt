//! The directories that the lines of a tree text named last. Lines come folder by folder, so the directory of a line's path is
//! mostly that of the line before, or one that was added just before.

ghost use Rattle.std.specs.Prelude.{◌≡◌, ◌++◌, ◌∷◌, ℕ, List, IfOk, IfSome, IfNone};
ghost use Rattle.fa_bodies.specs.Names.{LacksByte};
ghost use Rattle.fa_tree.specs.declared.id.FileId.{FileId};
ghost use Rattle.fa_tree.specs.State as state;
ghost use Rattle.fa_tree.specs.State.{Store};
ghost use Rattle.fa_tree_text.specs.parts.Ways.{Reaches, IsFileAt};
ghost use Rattle.fa_tree_text.specs.parts.Folders.{IsFound, AreFound};

use crate::paths::{decode_name, find_file};
use fa_bodies::Kind;
use fa_tree::{FileId, Tree};
use std::alloc::AllocError;

/// A directory, and the path that leads to it, as it is spelled.
#[derive(Clone, Copy)]
struct Folder<'a> {
    path: &'a [u8],
    directory: FileId,
}

/// The directories that the lines of a tree text named last.
#[derive(Drop)]
pub(crate) struct Folders<'a> {
    /// The directory of the path of the last line that names one: a path in the root leaves it.
    parent: Option<Folder<'a>>,
    /// The directory that a line added last.
    added: Option<Folder<'a>>,
}

/// The bytes before the last slash, and those behind it.
fn split_at_last_slash(path: &[u8]) -> Option<(&[u8], &[u8])>
    ensures found { IfSome result (λ r. LacksByte 47 r.1.now × (path.now ≡ r.0.now ++ 47 ∷ r.1.now)) }
    ensures none { IfNone result (LacksByte 47 path.now) }
{
    let place = path.iter().rposition(|byte| *byte == b'/')?;
    let (folder, behind) = path.split_at(place);
    let (_slash, last) = behind.split_at(1);
    Some((folder, last))
}

/// The directory of this folder, if its path is spelled so.
fn directory_of(folder: Option<Folder<'_>>, path: &[u8]) -> Option<FileId>
    ensures { (s : Store) → IfSome folder.entry (IsFound s) → IfSome result (IsFileAt s path.now) }
{
    let folder = folder?;
    if folder.path == path {
        Some(folder.directory)
    } else {
        None
    }
}

/// The root, to which a path of one name leads, if it is spelled as a name is. It is decoded into `name`.
fn root_of(tree: &Tree, path: &[u8], name: &mut Vec<u8>) -> Result<Option<FileId>, AllocError>
    requires { LacksByte 47 path.now }
    ensures found { IfOk result (λ found. IfSome found (λ parent. Reaches tree.now.store state.root path.now parent name.new.items)) }
    ensures none { IfOk result (λ found. IfNone found ((parent : FileId) (last : List ℕ) → Reaches tree.now.store state.root path.now parent last → ⊥)) }
{
    if decode_name(path, name)? {
        Ok(Some(tree.root()))
    } else {
        Ok(None)
    }
}

impl<'a> Folders<'a> {
    /// None yet.
    pub(crate) fn new() -> Folders<'a>
        ensures { (s : Store) → AreFound s result }
    {
        Folders {
            parent: None,
            added: None,
        }
    }

    /// The directory at this path, if it is one of these.
    fn known(&self, path: &[u8]) -> Option<FileId>
        ensures { (s : Store) → AreFound s self.now → IfSome result (IsFileAt s path.now) }
    {
        match directory_of(self.parent, path) {
            Some(directory) => Some(directory),
            None => directory_of(self.added, path),
        }
    }

    /// The directory at this path: one of these, or the one to which the path leads from the root, if it is there. What is
    /// decoded stands in `name` for a while.
    fn directory_at(
        &self,
        tree: &Tree,
        path: &[u8],
        name: &mut Vec<u8>,
    ) -> Result<Option<FileId>, AllocError>
        requires { AreFound tree.now.store self.now }
        ensures found { IfOk result (λ found. IfSome found (IsFileAt tree.now.store path.now)) }
        ensures none { IfOk result (λ found. IfNone found ((file : FileId) → IsFileAt tree.now.store path.now file → ⊥)) }
    {
        match self.known(path) {
            Some(directory) => Ok(Some(directory)),
            None => find_file(tree, path, name),
        }
    }

    /// The directory to which the directories of a path lead, if it is a path and they are there. Its last name is decoded into
    /// `name`.
    pub(crate) fn parent_of(
        &self,
        tree: &Tree,
        path: &[u8],
        name: &mut Vec<u8>,
    ) -> Result<Option<FileId>, AllocError>
        requires { AreFound tree.now.store self.now }
        ensures found { IfOk result (λ found. IfSome found (λ parent. Reaches tree.now.store state.root path.now parent name.new.items)) }
        ensures none { IfOk result (λ found. IfNone found ((parent : FileId) (last : List ℕ) → Reaches tree.now.store state.root path.now parent last → ⊥)) }
    {
        let Some((folder, last)) = split_at_last_slash(path) else {
            return root_of(tree, path, name);
        };
        let Some(directory) = self.directory_at(tree, folder, name)? else {
            return Ok(None);
        };
        if decode_name(last, name)? {
            Ok(Some(directory))
        } else {
            Ok(None)
        }
    }

    /// The file to which a path leads, if it is a path and the file is there. The path's last name is decoded into `name`.
    pub(crate) fn file_at(
        &self,
        tree: &Tree,
        path: &[u8],
        name: &mut Vec<u8>,
    ) -> Result<Option<FileId>, AllocError>
        requires { AreFound tree.now.store self.now }
        ensures found { IfOk result (λ found. IfSome found (IsFileAt tree.now.store path.now)) }
        ensures none { IfOk result (λ found. IfNone found ((file : FileId) → IsFileAt tree.now.store path.now file → ⊥)) }
    {
        match self.parent_of(tree, path, name)? {
            Some(parent) => Ok(tree.find(parent, name)),
            None => Ok(None),
        }
    }

    /// Keeps the directory to which the directories of a line's path lead. The root needs no keeping.
    pub(crate) fn keep_parent(&mut self, path: &'a [u8], directory: FileId)
        ensures { (s : Store) (last : List ℕ) → AreFound s self.old → Reaches s state.root path.now directory last → AreFound s self.new }
    {
        if directory == FileId::Root {
            return;
        }
        if let Some((folder, _)) = split_at_last_slash(path) {
            self.parent = Some(Folder {
                path: folder,
                directory,
            });
        }
    }

    /// Keeps what a line added at its path, if it is a directory.
    pub(crate) fn keep_added(&mut self, path: &'a [u8], kind: Kind, file: FileId)
        ensures { (s : Store) → AreFound s self.old → IsFileAt s path.now file → AreFound s self.new }
    {
        if kind == Kind::Directory {
            self.added = Some(Folder {
                path,
                directory: file,
            });
        }
    }
}
