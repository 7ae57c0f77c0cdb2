//! What there is in a tree.

ghost use Rattle.std.specs.Prelude.{◌≡◌, ◌↔◌, ℕ, List, option_map, IsTrue, IfSome, IfNone};
ghost use Rattle.std.specs.FinMap as map;
ghost use Rattle.fa_tree.specs.declared.id.FileId.{FileId};
ghost use Rattle.fa_tree.specs.Building.{IsNonDirectory};
ghost use Rattle.fa_tree.specs.State.{IsFree, IsParent, IsDirectory, IsRegular, IsSymlink, IsLinked, IsLinkedDirectory, IsEmptyDirectory, IsBelow};

use crate::id::FileId;
use crate::parents::Parent;
use crate::stored::Stored;
use fa_bodies::Kind;

impl Stored {
    /// The type of a file.
    pub(crate) fn kind(&self, file: FileId) -> Option<Kind>
        ensures { result ≡ option_map (λ f. f.kind) (map.get self.now.store.files file) }
    {
        match self.files.get(file) {
            Some(there) => Some(there.file.kind),
            None => None,
        }
    }

    /// Whether a file is a directory. The root is, and is not looked up.
    pub(crate) fn is_directory(&self, file: FileId) -> bool
        ensures { IsTrue result ↔ IsDirectory self.now.store file }
    {
        // A field is named for the invariant, by which the root is a directory.
        let _ = &self.files;
        file == self.root() || self.kind(file) == Some(Kind::Directory)
    }

    /// Whether there is this file, and it is no directory.
    pub(crate) fn is_non_directory(&self, file: FileId) -> bool
        ensures { IsTrue result ↔ IsNonDirectory self.now.store file }
    {
        match self.kind(file) {
            Some(kind) => kind != Kind::Directory,
            None => false,
        }
    }

    /// Whether it is a regular file.
    pub(crate) fn is_regular(&self, file: FileId) -> bool
        ensures { IsTrue result ↔ IsRegular self.now.store file }
    {
        self.kind(file) == Some(Kind::Regular)
    }

    /// Whether it is a symbolic link.
    pub(crate) fn is_symlink(&self, file: FileId) -> bool
        ensures { IsTrue result ↔ IsSymlink self.now.store file }
    {
        self.kind(file) == Some(Kind::Symlink)
    }

    /// The directory that a directory is in, if it has a name. The hint says where its entry is looked for first, and changes the time
    /// alone.
    ///
    /// Constant time where the hint is right, else expected constant time.
    fn parent(&self, file: FileId, hint: usize) -> Option<Parent>
        requires { IsDirectory self.now.store file }
        ensures there { IfSome result (λ parent. IsParent self.now.store parent.directory file) }
        ensures none { IfNone result ((directory : FileId) → IsParent self.now.store directory file → ⊥) }
    {
        self.parents.of(file, hint)
    }

    /// Whether no name is in a directory. In expected constant time.
    fn has_no_names(&self, directory: FileId) -> bool
        ensures { IsTrue result ↔ ((name : List ℕ) → IsFree self.now.store directory name) }
    {
        self.files.counts(directory).inside == 0
    }

    /// Whether it is the root or has a name. In expected constant time.
    pub(crate) fn is_linked(&self, file: FileId) -> bool
        ensures { IsTrue result ↔ IsLinked self.now.store file }
    {
        file == self.root() || self.files.counts(file).links != 0
    }

    /// Whether it is a directory that is linked.
    pub(crate) fn is_linked_directory(&self, file: FileId) -> bool
        ensures { IsTrue result ↔ IsLinkedDirectory self.now.store file }
    {
        self.is_directory(file) && self.is_linked(file)
    }

    /// Whether it is a directory in which no name is.
    pub(crate) fn is_empty_directory(&self, file: FileId) -> bool
        ensures { IsTrue result ↔ IsEmptyDirectory self.now.store file }
    {
        self.is_directory(file) && self.has_no_names(file)
    }

    /// Whether the directory `below` is below the file `above`.
    ///
    /// At most as many steps as there are directories on the way up. A step takes constant time where the entry of its directory stands
    /// where it stood when it was noted as a parent; else, and at the first step and at the root, it is a look-up by hash.
    pub(crate) fn is_below(&self, above: FileId, below: FileId) -> bool
        requires directory { IsDirectory self.now.store below }
        ensures { IsTrue result ↔ IsBelow self.now.store above below }
    {
        let mut at = below;
        // Nothing is known of where the first entry stands: any hint will do.
        let mut hint = 0;
        for _ in 0..self.files.len() {
            match self.parent(at, hint) {
                Some(parent) if parent.directory == above => return true,
                Some(parent) => {
                    at = parent.directory;
                    hint = parent.hint;
                }
                None => return false,
            }
        }
        false
    }
}
