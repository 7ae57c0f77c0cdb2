//! The tree.

ghost use Rattle.std.specs.Prelude.{◌≡◌, ◌↔◌, ◌≤◌, None, IsTrue, IfOk, IfErr, OnOk, OnErr};
ghost use Rattle.std.specs.FinMap as map;
ghost use Rattle.fa_capture.specs.declared.codes.TheConstants.{SUCCESS_NOT_ALLOWED};
ghost use Rattle.fa_tree.specs.State as state;
ghost use Rattle.fa_tree.specs.Alike.{AreAlike, IsInUse};
ghost use Rattle.fa_tree.specs.Attributes.{all_bits};
ghost use Rattle.fa_tree.specs.Building.{empty_tree, file_of_kind, MayHold, MayBeAdded, next_added, tree_added, MayBeLinkedTo, tree_linked};
ghost use Rattle.fa_tree.specs.Refusals.{IsRefusal};

use crate::error::StepError;
use crate::file::File;
use crate::id::FileId;
use crate::in_use::InUse;
use crate::nodes::Nodes;
use crate::stored::Stored;
use fa_bodies::{Kind, MAX_FILE_BYTES, is_name, is_target};
use fa_capture::{Seed, codes};
use fa_store::{Contents, digest_of};
use std::alloc::{AllocError, Global};
use std::marker::Model;

/// A tree of files: which file each name of a directory is, what each file is, for which file each node of a capture stands,
/// and which directories are open.
#[derive(Drop)]
pub struct Tree {
    pub(crate) stored: Stored,
    pub(crate) nodes: Nodes,
}

impl Model for Tree {
    ghost use Rattle.fa_tree.specs.State.{TreeState};
    ghost use Rattle.fa_tree.specs.parts.StateCodes.{tree_code};

    ghost Value = { TreeState };

    ghost coded = { tree_code };

    ghost use Rattle.fa_tree.specs.parts.TreeView.{tree_shown};

    ghost view = { tree_shown };
}

impl Tree {
    /// A tree that is a root with these permission bits (`S_IRWXU | S_IRWXG | S_IRWXO` of POSIX at most, 0777) and nothing
    /// in it. What is stored later takes memory from `alloc`, and its tables are hashed with the seed.
    ///
    /// Constant time and memory.
    pub fn empty(alloc: Global, seed: Seed, bits: u16) -> Result<Tree, AllocError>
        requires { bits ≤ all_bits }
        ensures { IfOk result (λ tree. tree ≡ empty_tree bits) }
    {
        let stored = Stored::new(alloc, seed, u32::from(bits))?;
        Ok(Tree {
            stored,
            nodes: Nodes::new(alloc, seed),
        })
    }

    /// What its tables are hashed with.
    ///
    /// Takes no memory, in constant time.
    pub fn seed(&self) -> Seed {
        self.stored.seed
    }

    /// The same tree once more, so that one of both may be changed and the other stays as it is. An error says that memory was
    /// refused.
    ///
    /// Expected time and memory in the size of the tree: the bytes of its names, and of the pages that store bytes of files,
    /// which are copied too. A name that went is copied as well, since directories may be open in which it was.
    pub fn copy(&self) -> Result<Tree, AllocError>
        ensures { IfOk result (λ tree. tree ≡ self.now) }
    {
        let nodes = self.nodes.copy()?;
        let stored = self.stored.copy()?;
        Ok(Tree { stored, nodes })
    }

    /// Whether both are the same tree: the same files, known by the same, the same names for them, the same nodes, and the same
    /// directories open by the same requests, where the same names were in each since it was opened, and the same files stayed.
    /// In which order all this came makes no difference, so trees that the same requests made in two orders may be the same.
    ///
    /// Proved: true of no two trees that are not the same. Tested alone: true of trees that are the same.
    ///
    /// Takes no memory. Expected time in the size of both, as [`copy`](Tree::copy) has it, and for each request that opened a
    /// directory in the names that this ever had.
    pub fn is_same(&self, other: &Tree) -> bool
        ensures { IsTrue result → self.now ≡ other.now }
    {
        self.nodes.is_same(&other.nodes) && self.stored.is_same(&other.stored)
    }

    /// Whether both are the same tree ([`is_same`](Tree::is_same)), but for openings of directories that are of no use: no request that
    /// lists on none of these can tell the trees apart, nor those that it leaves.
    ///
    /// Proved: true of no two trees that are not. Tested alone: true of trees that are.
    ///
    /// Takes no memory. Expected time in the size of both, as [`copy`](Tree::copy) has it, with a logarithm of the openings for each
    /// request that opened a directory, and for each opening that is of use in the names that the directory ever had.
    pub fn is_alike(&self, other: &Tree, in_use: &InUse<'_>) -> bool
        ensures { IsTrue result → AreAlike (IsInUse in_use.now) self.now other.now }
    {
        self.nodes.is_same(&other.nodes) && self.stored.is_alike(&other.stored, in_use)
    }

    /// A number for the tree, equal for trees that are alike ([`is_alike`](Tree::is_alike)) and have the same seed, in whichever order
    /// they came to be.
    /// Others may have it too: it only sorts trees, so that few are compared. It looks at names, at files with their permission bits
    /// and bytes, at nodes, and at each opening that is of use, with the names that were in its directory since, and the files that stayed.
    ///
    /// Takes no memory, and time as [`is_alike`](Tree::is_alike) does.
    pub fn digest(&self, in_use: &InUse<'_>) -> u64 {
        let seed = self.seed();
        digest_of(seed, &(self.stored.digest(in_use), self.nodes.digest(seed)))
    }

    /// About how many bytes of memory the tree holds, and a copy of it takes: what its tables and pages store, without what they have
    /// in reserve.
    ///
    /// Takes no memory, and time in its names and files and the pages that store bytes of these.
    pub fn weight(&self) -> u64 {
        self.stored.weight().saturating_add(self.nodes.weight())
    }

    /// The root.
    pub fn root(&self) -> FileId
        ensures { result ≡ state.root }
    {
        self.stored.root()
    }

    /// The file of a name in a directory, if the name is there.
    ///
    /// Takes no memory, in expected constant time but for reading the name.
    pub fn find(&self, directory: FileId, name: &[u8]) -> Option<FileId>
        ensures { result ≡ map.get self.now.store.names (directory, name.now) }
    {
        self.stored.find(directory, name)
    }

    /// Adds a file of this type to a directory under a name: its permission bits (0777 at most; those of a symbolic link are
    /// not used), and its bytes, or its target. Answers what it is known by.
    ///
    /// `Refused` with [`SUCCESS_NOT_ALLOWED`](fa_capture::codes::SUCCESS_NOT_ALLOWED) tells that the parent is no directory or
    /// is not linked, that the name is there or is not permitted, that a file of this type may not have this body (regular
    /// files have any, symbolic links a target, others none), or that the body has more than
    /// [`MAX_FILE_BYTES`](fa_bodies::MAX_FILE_BYTES) bytes; `Memory` that memory was refused, or that the tree has 2^32 files. The tree
    /// is then as it was.
    ///
    /// Expected time and memory in the bytes of the name and the body, but for what growing costs.
    pub fn add(
        &mut self,
        parent: FileId,
        name: &[u8],
        kind: Kind,
        bits: u16,
        body: &[u8],
    ) -> Result<FileId, StepError>
        requires bits { bits ≤ all_bits }
        ensures next { IfOk result (λ file. file ≡ next_added self.old) }
        ensures fresh { IfOk result (λ file. map.get self.old.store.files file ≡ None) }
        ensures added { OnOk result (self.new ≡ tree_added self.old parent name.now (file_of_kind kind bits body.now)) }
        ensures allowed { OnOk result (MayBeAdded self.old parent name.now kind body.now) }
        ensures refused { IfErr result (λ e. IsRefusal e SUCCESS_NOT_ALLOWED (MayBeAdded self.old parent name.now kind body.now)) }
        ensures unchanged { OnErr result (self.new ≡ self.old) }
    {
        if !self.may_be_added(parent, name, kind, body) {
            return Err(StepError::Refused(codes::SUCCESS_NOT_ALLOWED));
        }
        let contents = Contents::from_slice(self.stored.alloc, body)?;
        let file = File::new(kind, u32::from(bits), contents);
        Ok(self.stored.add(parent, name, file)?)
    }

    /// Adds a further name to a directory, for a file that is there.
    ///
    /// `Refused` with [`SUCCESS_NOT_ALLOWED`](fa_capture::codes::SUCCESS_NOT_ALLOWED) tells that the parent is no directory or
    /// is not linked, that the name is there or is not permitted, or that the file is a directory or is not in the tree;
    /// `Memory` that memory was refused. The tree is then as it was.
    ///
    /// Expected time and memory in the bytes of the name, but for what growing costs.
    pub fn add_link(&mut self, parent: FileId, name: &[u8], file: FileId) -> Result<(), StepError>
        ensures added { OnOk result (self.new ≡ tree_linked self.old parent name.now file) }
        ensures allowed { OnOk result (MayBeLinkedTo self.old parent name.now file) }
        ensures refused { IfErr result (λ e. IsRefusal e SUCCESS_NOT_ALLOWED (MayBeLinkedTo self.old parent name.now file)) }
        ensures unchanged { OnErr result (self.new ≡ self.old) }
    {
        if !self.may_be_linked_to(parent, name, file) {
            return Err(StepError::Refused(codes::SUCCESS_NOT_ALLOWED));
        }
        self.stored.link(parent, name, file)?;
        Ok(())
    }

    /// Whether a file of this type with this body may be added.
    fn may_be_added(&self, parent: FileId, name: &[u8], kind: Kind, body: &[u8]) -> bool
        ensures { IsTrue result ↔ MayBeAdded self.now parent name.now kind body.now }
    {
        self.stored.may_be_made(parent, name)
            && is_name(name)
            && may_hold(kind, body)
            && body.len() as u64 <= MAX_FILE_BYTES
    }

    /// Whether a further name may be added.
    fn may_be_linked_to(&self, parent: FileId, name: &[u8], file: FileId) -> bool
        ensures { IsTrue result ↔ MayBeLinkedTo self.now parent name.now file }
    {
        self.stored.may_be_made(parent, name) && is_name(name) && self.stored.is_non_directory(file)
    }
}

/// Whether a file of this type may have this body.
fn may_hold(kind: Kind, body: &[u8]) -> bool
    ensures { IsTrue result ↔ MayHold kind body.now }
{
    match kind {
        Kind::Regular => true,
        Kind::Symlink => is_target(body),
        Kind::Fifo => body.is_empty(),
        Kind::CharDevice => body.is_empty(),
        Kind::Directory => body.is_empty(),
        Kind::BlockDevice => body.is_empty(),
        Kind::Socket => body.is_empty(),
    }
}
