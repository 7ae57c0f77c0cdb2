//! What a tree tells of a directory that was opened.

ghost use Rattle.std.specs.Prelude.{◌≡◌, ◌↔◌, ℕ, List, Some, true, false, IsTrue, IfSome, IfNone};
ghost use Rattle.std.specs.Fn.{FnReturnsAt};
ghost use Rattle.std.specs.FinMap.{get};
ghost use Rattle.std.specs.FinSet.{contains};
ghost use Rattle.fa_tree.specs.declared.id.FileId.{FileId};

use crate::id::FileId;
use crate::open_names::OpenNames;
use crate::tree::Tree;
use std::marker::Model;

/// A directory that was opened, whether it was closed or not, with the names that were in it since. Nothing of it is copied.
#[derive(Drop)]
pub struct OpenedDirectory<'t> {
    names: OpenNames<'t>,
}

impl<'t> Model for OpenedDirectory<'t> {
    ghost use Rattle.fa_tree.specs.State.{OpenDirectory};
    ghost use Rattle.fa_tree.specs.parts.NameParts.{open_code};

    ghost Value = { OpenDirectory };

    ghost coded = { open_code };

    ghost use Rattle.fa_tree.specs.parts.OpenParts.{open_of};

    ghost view = { λ o. open_of o.names };
}

impl<'t> OpenedDirectory<'t> {
    /// The directory.
    ///
    /// Takes no memory, in constant time.
    pub fn directory(&self) -> FileId
        ensures { result ≡ self.now.directory }
    {
        self.names.directory()
    }

    /// Whether a name was in the directory at some moment since it was opened.
    ///
    /// Takes no memory, in expected constant time but for reading the name.
    pub fn had(&self, name: &[u8]) -> bool
        ensures { result ≡ contains self.now.since name.now }
    {
        self.names.since(name).0
    }

    /// The file that stayed in the directory under a name since it was opened, if one did.
    ///
    /// Takes no memory, in expected constant time but for reading the name.
    pub fn stayed(&self, name: &[u8]) -> Option<FileId>
        ensures { result ≡ get self.now.stayed name.now }
    {
        self.names.stayed(name)
    }

    /// A name of which this test holds, and whose file stayed in the directory since it was opened, if there is one. Which of several
    /// it is, is not said. A test that holds of the names that a listing did not give finds one that is missing, at the end of a
    /// listing that is neither adrift nor shared.
    ///
    /// Takes no memory, and time in the places of the directory that had ever had a name when it was opened, and in the tests.
    pub fn find_stayed<F: Fn(&[u8]) -> bool>(&self, is_sought: F) -> Option<&'t [u8]>
        requires { F.IsAlwaysCallable is_sought }
        ensures found { IfSome result (λ name. (file : FileId) × (get self.now.stayed name.now ≡ Some file) × FnReturnsAt F.Fn is_sought name.now true) }
        ensures none { IfNone result ((name : List ℕ) (file : FileId) → get self.now.stayed name ≡ Some file → FnReturnsAt F.Fn is_sought name false) }
    {
        self.names.find_stayed(is_sought)
    }
}

impl Tree {
    /// The directory that is open under a handle: under the `handle` of a call that lists, which is the number of the OPENDIR whose
    /// answer opened it when it was not open. None where no step of such an OPENDIR was taken; one whose answer gives a handle that is
    /// open has none of its own. It stays when it is closed.
    ///
    /// Takes no memory, in expected constant time.
    pub fn open_directory(&self, handle: u32) -> Option<OpenedDirectory<'_>>
        ensures { result ≡ get self.now.handles handle }
    {
        match self.stored.open_directory(handle) {
            Some(names) => Some(OpenedDirectory { names }),
            None => None,
        }
    }
}
