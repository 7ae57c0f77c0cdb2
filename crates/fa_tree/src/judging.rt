//! What an answer says of the files that its action leaves.

ghost use Rattle.std.specs.Prelude.{◌≡◌, ◌↔◌, ℕ, List, Bool, Option, false, None, IsTrue, IfSome, IfNone};
ghost use Rattle.std.specs.FinMap as map;
ghost use Rattle.fa_bodies.specs.Views.{attributes_shown, setattr_shown};
ghost use Rattle.fa_ledger.specs.Operations.{action_shown};
ghost use Rattle.fa_ledger.specs.Operations.PlainOperation.{Acts};
ghost use Rattle.fa_tree.specs.declared.id.FileId.{FileId};
ghost use Rattle.fa_tree.specs.State.{Store, OpenDirectory};
ghost use Rattle.fa_tree.specs.Contents.{IsReadFrom};
ghost use Rattle.fa_tree.specs.Lookups.{IsFoundAs, IsTargetOf, bits_set};
ghost use Rattle.fa_tree.specs.Making.{node_kind, new_bits};
ghost use Rattle.fa_tree.specs.Operations.{action_rule, action_said, changed};
ghost use Rattle.fa_tree.specs.parts.FactParts.{size_set, AreOpenedFacts, AreFactsOf, AreFactsIfAny, AreFurtherFacts, AreSetFacts, AreCreatedFacts, IsFoundOrMade, FitIfAny, AreFilesGiven};
ghost use Rattle.fa_tree.specs.parts.NamedParts.{named_shown, file_of_name, HasFileOfName};

use crate::facts::Facts;
use crate::file::permission_bits;
use crate::id::FileId;
use crate::making::{new_bits, node_kind};
use crate::named::Named;
use crate::stored::Stored;
use bitflags::Flags;
use fa_bodies::{AttributesBytes, FattrFlags, Kind, SetattrBytes};
use fa_ledger::{Action, Outcome};

/// The permission bits that SETATTR leaves.
fn bits_set(setattr: &SetattrBytes<'_>, kind: Kind, bits: u32) -> u32
    ensures { result ≡ bits_set (setattr_shown setattr.now) kind bits }
{
    if kind == Kind::Symlink || !setattr.valid().contains(FattrFlags::MODE) {
        bits
    } else {
        permission_bits(setattr.mode())
    }
}

/// How many bytes SETATTR leaves.
fn size_set(setattr: &SetattrBytes<'_>, size: usize) -> usize
    ensures { result ≡ size_set (setattr_shown setattr.now) size }
{
    if setattr.valid().contains(FattrFlags::SIZE) {
        setattr.size() as usize
    } else {
        size
    }
}

/// A file that was found, or that which this request makes where none was.
fn found_or_made(asked: u32, found: Option<FileId>) -> FileId
    ensures { IsFoundOrMade asked found result }
{
    match found {
        Some(file) => file,
        None => FileId::Made(asked),
    }
}

/// Whether a file was found, or none, as a node id says.
fn is_found_as(found: Option<FileId>, nodeid: u64) -> bool
    ensures { (s : Store) (directory : FileId) (name : List ℕ) → found ≡ map.get s.names (directory, name) → IsTrue result ↔ IsFoundAs s directory name nodeid }
{
    match found {
        Some(_) => nodeid != 0,
        None => nodeid == 0,
    }
}

/// Whether attributes fit what they are judged by.
fn fit(facts: Option<Facts>, attr: AttributesBytes<'_>) -> bool
    ensures { IsTrue result ↔ FitIfAny facts (attributes_shown attr.entry) }
{
    match facts {
        Some(facts) => facts.fit(attr),
        None => false,
    }
}

impl Stored {
    /// What attributes of a file are judged by, if it is there.
    fn facts(&self, file: FileId) -> Option<Facts>
        ensures of { IfSome result (λ facts. AreFactsOf self.now.store file facts) }
        ensures plain { IfSome result (λ facts. facts.further ≡ false) }
        ensures none { IfNone result (map.get self.now.store.files file ≡ None) }
    {
        match self.files.get(file) {
            Some(there) => Some(Facts {
                kind: there.file.kind,
                bits: there.file.bits,
                size: there.file.contents.len(),
                links: there.counts.links,
                further: false,
            }),
            None => None,
        }
    }

    /// The file of the name that an action gives in the directory of its node, of RENAME and RENAME2 of the old name, if it gives one
    /// and the name is there. Whether a success is allowed and what it says, ENOENT but of RENAME2, and EEXIST but of RMDIR, are judged
    /// by this file.
    ///
    /// Takes no memory, in expected constant time but for reading the name.
    pub(crate) fn file_of_name(&self, node: FileId, action: &Action<'_>) -> Option<FileId>
        ensures { result ≡ file_of_name self.now.store node (action_shown action.now) }
    {
        match action {
            Action::Lookup { name, .. } => self.find(node, name),
            Action::Symlink { name, .. } => self.find(node, name),
            Action::Mknod { name, .. } => self.find(node, name),
            Action::Mkdir { name, .. } => self.find(node, name),
            Action::Unlink { name, .. } => self.find(node, name),
            Action::Rmdir { name, .. } => self.find(node, name),
            Action::Rename { old_name, .. } => self.find(node, old_name),
            Action::Rename2 { old_name, .. } => self.find(node, old_name),
            Action::Link { new_name, .. } => self.find(node, new_name),
            Action::Create { name, .. } => self.find(node, name),
            _ => None,
        }
    }

    /// What attributes of a file that was found are judged by.
    fn facts_found(&self, found: Option<FileId>) -> Option<Facts>
        ensures { AreFactsIfAny self.now.store found result }
    {
        match found {
            Some(file) => self.facts(file),
            None => None,
        }
    }

    /// What attributes of a file are judged by after SETATTR.
    fn facts_set(&self, file: FileId, setattr: &SetattrBytes<'_>) -> Option<Facts>
        ensures { AreSetFacts self.now.store (setattr_shown setattr.now) file result }
    {
        match self.facts(file) {
            Some(facts) => Some(Facts {
                bits: bits_set(setattr, facts.kind, facts.bits),
                size: size_set(setattr, facts.size),
                ..facts
            }),
            None => None,
        }
    }

    /// What attributes of a file are judged by that gets a further name.
    fn facts_further(&self, file: Option<FileId>) -> Option<Facts>
        ensures { AreFurtherFacts self.now.store file result }
    {
        match file {
            Some(file) => match self.facts(file) {
                Some(facts) => Some(Facts {
                    further: true,
                    ..facts
                }),
                None => None,
            },
            None => None,
        }
    }

    /// What attributes of a file are judged by that is opened, and emptied where it is to be emptied.
    fn facts_opened(&self, file: FileId, truncates: bool) -> Option<Facts>
        ensures { AreOpenedFacts self.now.store truncates file result }
    {
        match self.facts(file) {
            Some(facts) => Some(Facts {
                size: if truncates { 0 } else { facts.size },
                ..facts
            }),
            None => None,
        }
    }

    /// What attributes of the file are judged by that CREATE makes or found.
    fn facts_created(&self, found: Option<FileId>, bits: u32, truncates: bool) -> Option<Facts>
        ensures { AreCreatedFacts self.now.store truncates found bits result }
    {
        match found {
            Some(file) => self.facts_opened(file, truncates),
            None => Some(Facts::new(Kind::Regular, bits, 0)),
        }
    }

    /// The file for the node that an answer gives, if it gives one: that of the name of an entry, after the action.
    pub(crate) fn file_given(&self, named: &Named, action: &Action<'_>) -> Option<FileId>
        requires { HasFileOfName self.now.store named.now (action_shown action.now) }
        ensures { (handle : Option OpenDirectory) (truncates direct : Bool) (count : ℕ) → (action_rule self.now.store (named_shown named.now handle) (action_shown action.now)).needs
            → AreFilesGiven (action_said self.now.store (changed self.now.store (named_shown named.now handle) truncates (Acts (action_shown action.now)) count) (named_shown named.now handle) direct (action_shown action.now)).files result }
    {
        match action {
            Action::Lookup {
                outcome: Outcome::Succeeds(_),
                ..
            } => named.file,
            Action::Symlink {
                outcome: Outcome::Succeeds(_),
                ..
            } => Some(FileId::Made(named.asked)),
            Action::Mknod {
                outcome: Outcome::Succeeds(_),
                ..
            } => Some(FileId::Made(named.asked)),
            Action::Mkdir {
                outcome: Outcome::Succeeds(_),
                ..
            } => Some(FileId::Made(named.asked)),
            Action::Link {
                outcome: Outcome::Succeeds(_),
                ..
            } => named.other,
            Action::Create {
                outcome: Outcome::Succeeds(_),
                ..
            } => Some(found_or_made(named.asked, named.file)),
            _ => None,
        }
    }

    /// Whether an answer finds what it says.
    fn finds_as_said(&self, named: &Named, action: &Action<'_>) -> bool
        requires { HasFileOfName self.now.store named.now (action_shown action.now) }
        ensures { (handle : Option OpenDirectory) (after : Store) (direct : Bool) → IsTrue result ↔ (action_said self.now.store after (named_shown named.now handle) direct (action_shown action.now)).found }
    {
        match action {
            Action::Lookup {
                outcome: Outcome::Succeeds(entry),
                ..
            } => is_found_as(named.file, entry.nodeid()),
            _ => true,
        }
    }

    /// Whether an answer may be a success of the action, and finds what it says.
    pub(crate) fn may_succeed(&self, named: &Named, action: &Action<'_>) -> bool
        requires { HasFileOfName self.now.store named.now (action_shown action.now) }
        ensures { (handle : Option OpenDirectory) (after : Store) (direct : Bool) → IsTrue result ↔ ((action_rule self.now.store (named_shown named.now handle) (action_shown action.now)).needs × (action_said self.now.store after (named_shown named.now handle) direct (action_shown action.now)).found) }
    {
        self.may_be_done(named, action) && self.finds_as_said(named, action)
    }

    /// Whether the attributes in an answer fit, after the action.
    pub(crate) fn attributes_fit(&self, named: &Named, action: &Action<'_>, truncates: bool) -> bool
        requires { HasFileOfName self.now.store named.now (action_shown action.now) }
        ensures { (handle : Option OpenDirectory) (direct : Bool) (count : ℕ) → (action_rule self.now.store (named_shown named.now handle) (action_shown action.now)).needs
            → IsTrue result ↔ (action_said self.now.store (changed self.now.store (named_shown named.now handle) truncates (Acts (action_shown action.now)) count) (named_shown named.now handle) direct (action_shown action.now)).attributes }
    {
        // A field is named for the invariant, by which no name is for a file that is not there.
        let _ = &self.names;
        let node = named.node;
        match action {
            Action::Lookup {
                outcome: Outcome::Succeeds(entry),
                ..
            } => entry.nodeid() == 0 || fit(self.facts_found(named.file), entry.attributes()),
            Action::Getattr {
                outcome: Outcome::Succeeds(out),
            } => fit(self.facts(node), out.attributes()),
            Action::Setattr {
                setattr,
                outcome: Outcome::Succeeds(out),
            } => fit(self.facts_set(node, setattr), out.attributes()),
            Action::Symlink {
                target,
                outcome: Outcome::Succeeds(entry),
                ..
            } => {
                let facts = Facts::new(Kind::Symlink, 0o777, target.len());
                facts.fit(entry.attributes())
            }
            Action::Mknod {
                mode,
                umask,
                outcome: Outcome::Succeeds(entry),
                ..
            } => {
                let facts = Facts::new(node_kind(*mode), new_bits(*mode, *umask), 0);
                facts.fit(entry.attributes())
            }
            Action::Mkdir {
                mode,
                umask,
                outcome: Outcome::Succeeds(entry),
                ..
            } => {
                let facts = Facts::new(Kind::Directory, new_bits(*mode, *umask), 0);
                facts.fit(entry.attributes())
            }
            Action::Link {
                outcome: Outcome::Succeeds(entry),
                ..
            } => fit(self.facts_further(named.other), entry.attributes()),
            Action::Create {
                mode,
                umask,
                outcome: Outcome::Succeeds((entry, _)),
                ..
            } => {
                let facts = self.facts_created(named.file, new_bits(*mode, *umask), truncates);
                fit(facts, entry.attributes())
            }
            _ => true,
        }
    }

    /// Whether a file has these bytes, which of a symbolic link are its target.
    fn is_target(&self, file: FileId, target: &[u8]) -> bool
        ensures { IsTrue result ↔ IsTargetOf self.now.store file target.now }
    {
        match self.files.get(file) {
            Some(there) => there.file.contents.is(target),
            None => false,
        }
    }

    /// Whether a READ of a file gives these bytes.
    fn is_read(&self, file: FileId, direct: bool, offset: u64, size: u32, given: &[u8]) -> bool
        ensures { IsTrue result ↔ IsReadFrom self.now.store file direct offset size given.now }
    {
        match self.files.get(file) {
            Some(there) => there.file.contents.is_read(direct, offset, size, given),
            None => false,
        }
    }

    /// Whether the bytes in an answer are those that the action asks for.
    pub(crate) fn bytes_fit(&self, named: &Named, action: &Action<'_>, direct: bool) -> bool
        ensures { (handle : Option OpenDirectory) (truncates : Bool) (count : ℕ)
            → IsTrue result ↔ (action_said self.now.store (changed self.now.store (named_shown named.now handle) truncates (Acts (action_shown action.now)) count) (named_shown named.now handle) direct (action_shown action.now)).bytes }
    {
        match action {
            Action::Readlink {
                outcome: Outcome::Succeeds(target),
            } => self.is_target(named.node, target),
            Action::Read {
                offset,
                size,
                outcome: Outcome::Succeeds(bytes),
            } => self.is_read(named.node, direct, *offset, *size, bytes),
            _ => true,
        }
    }
}
