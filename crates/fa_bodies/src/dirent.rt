//! Directory entries.

ghost use Rattle.std.specs.Prelude.{◌≡◌, ◌≤◌, ◌-◌, ◌%◌, [], ℕ, List, length, IsTrue, IfSome, IfNone, Option, refl};
ghost use Rattle.fa_bodies.specs.declared.entry.EntryOut.{EntryOut};
ghost use Rattle.fa_bodies.specs.Dirents.{PlainDirent, dirent_shown, HasEntry, IsPaddedName, IsDirent, AreEntries};
ghost use Rattle.fa_bodies.specs.Structs.{dirent_head};

use crate::block::{Block, front};
use crate::entry::EntryOut;
use crate::fields::{u32_at, u64_at};
use crate::names::is_filename;
use crate::views::EntryBytes;

/// A directory entry (`struct fuse_dirent`): the file's number, the offset behind the entry, the
/// file's type and its name, and for READDIRPLUS what LOOKUP says of the name (`struct
/// fuse_direntplus`). The name is a slice of the message.
#[derive(Clone, Copy, Debug)]
pub struct Dirent<'a> {
    pub ino: u64,
    pub off: u64,
    /// The file's type (`type` in `fuse.h`): its mode's `S_IFMT` bits, shifted right by 12. 0 is
    /// unknown, and any other number may stand here too.
    pub kind: u32,
    pub name: &'a [u8],
    pub entry: Option<EntryOut>,
}

/// What stands before the name of a directory entry.
#[derive(Clone, Copy)]
pub(crate) struct DirentHead {
    pub ino: u64,
    pub off: u64,
    pub namelen: u32,
    pub kind: u32,
}

/// The directory entries of a READDIR or READDIRPLUS reply in their order. Made by
/// [`entries`](crate::entries), and by the readers of replies.
#[derive(Clone, Copy, Debug)]
pub struct Entries<'a> {
    pub(crate) plus: bool,
    // What is left of the bytes.
    pub(crate) bytes: &'a [u8],
    // They are entries as a whole.
    pub(crate) ghost whole: { ∥ ((ds : List PlainDirent) × AreEntries plus bytes.now ds []) ∥₁ },
}

impl Block for DirentHead {
    const LEN: usize = 24;

    ghost LEN = { 24 };

    ghost fields = { λ h. dirent_head h.ino h.off h.namelen h.kind };

    fn at(bytes: &[u8]) -> (DirentHead, &[u8]) {
        let (ino, rest) = u64_at(bytes);
        let (off, rest) = u64_at(rest);
        let (namelen, rest) = u32_at(rest);
        let (kind, rest) = u32_at(rest);
        let head = DirentHead {
            ino,
            off,
            namelen,
            kind,
        };
        (head, rest)
    }

    ghost sized = { λ block. refl };
}

/// How many bytes of padding stand behind a name (`FUSE_DIRENT_ALIGN` of `fuse.h`).
#[inline(always)]
fn padding(name: &[u8]) -> usize
    ensures { result ≡ (8 - length name.now % 8) % 8 }
{
    (8 - name.len() % 8) % 8
}

/// The name of so many bytes at the front of bytes, and what stands behind its padding.
#[inline(always)]
fn padded_name(count: u32, bytes: &[u8]) -> Option<(&[u8], &[u8])>
    ensures found { IfSome result
        (λ r. (length r.0.now ≡ count) × IsPaddedName bytes.now r.0.now r.1.now) }
    ensures none { IfNone result
        ((name rest : List ℕ) → length name ≡ count → IsPaddedName bytes.now name rest → ⊥) }
{
    let (name, rest) = bytes.split_at_checked(count as usize)?;
    let (_padding, rest) = rest.split_at_checked(padding(name))?;
    if is_filename(name) {
        Some((name, rest))
    } else {
        None
    }
}

/// What stands behind the `struct fuse_entry_out` that READDIRPLUS puts before a directory entry: for READDIR all bytes.
#[inline(always)]
fn behind_entry_out(plus: bool, bytes: &[u8]) -> Option<&[u8]>
    ensures found { IfSome result (λ rest. (entry : Option EntryOut) × HasEntry plus bytes.now entry rest.now) }
    ensures none { IfNone result
        ((entry : Option EntryOut) (rest : List ℕ) → HasEntry plus bytes.now entry rest → ⊥) }
{
    if !plus {
        return Some(bytes);
    }
    let (_entry, rest) = EntryBytes::front(bytes)?;
    Some(rest)
}

/// What stands behind the directory entry at the front of bytes and behind its padding.
#[inline(always)]
pub(crate) fn behind_dirent(plus: bool, bytes: &[u8]) -> Option<&[u8]>
    ensures found { IfSome result (λ rest. (d : PlainDirent) × IsDirent plus bytes.now d rest.now) }
    ensures none { IfNone result
        ((d : PlainDirent) (rest : List ℕ) → IsDirent plus bytes.now d rest → ⊥) }
{
    let rest = behind_entry_out(plus, bytes)?;
    let (head, rest) = front::<DirentHead>(rest)?;
    let (_name, rest) = padded_name(head.namelen, rest)?;
    Some(rest)
}

/// The `struct fuse_entry_out` that READDIRPLUS puts before a directory entry, and what stands behind it, where there are bytes
/// enough.
#[inline(always)]
fn known_entry_out(plus: bool, bytes: &[u8]) -> (Option<EntryOut>, &[u8])
    requires { IsTrue plus → 128 ≤ length bytes.now }
    ensures { HasEntry plus bytes.now result.0 result.1.now }
{
    if !plus {
        return (None, bytes);
    }
    let (entry, rest) = EntryOut::at(bytes);
    (Some(entry), rest)
}

impl Entries<'_> {
    ghost use Rattle.std.specs.Prelude.{◌∷◌};
    ghost use Rattle.fa_bodies.specs.Listing.{entries_in, is_plus};

    /// Whether they are those of a READDIRPLUS, in which each entry of the directory has a `struct fuse_entry_out` before it.
    ///
    /// Takes no memory, in constant time.
    pub fn is_plus(&self) -> bool
        ensures { result ≡ is_plus self.now }
    {
        self.plus
    }

    /// The first of the entries that bytes are known to be as a whole, and what stands behind its padding. The name is not
    /// looked at.
    // It takes the slice itself, since of an argument it is known that it holds bytes. Its clause speaks of what names this type, so
    // it stands here.
    #[inline(always)]
    fn known_dirent_at(plus: bool, bytes: &[u8]) -> (Dirent<'_>, &[u8])
        requires whole { ∥ ((ds : List PlainDirent) × AreEntries plus bytes.now ds []) ∥₁ }
        requires some { 1 ≤ length bytes.now }
        ensures first { entries_in plus bytes.now ≡ dirent_shown result.0 ∷ entries_in plus result.1.now }
        ensures left { ∥ ((ds : List PlainDirent) × AreEntries plus result.1.now ds []) ∥₁ }
    {
        let (entry, rest) = known_entry_out(plus, bytes);
        let (head, rest) = DirentHead::at(rest);
        let (name, rest) = rest.split_at(head.namelen as usize);
        let (_padding, rest) = rest.split_at(padding(name));
        let dirent = Dirent {
            ino: head.ino,
            off: head.off,
            kind: head.kind,
            name,
            entry,
        };
        (dirent, rest)
    }
}

impl<'a> Iterator for Entries<'a> {
    ghost use Rattle.std.specs.Iterator.{YieldsFirstBy, item_count};
    ghost use Rattle.fa_bodies.specs.Listing.{entries_left};

    type Item = Dirent<'a>;

    ghost next_gives = { YieldsFirstBy dirent_shown entries_left };

    ghost remaining = { item_count entries_left };

    /// The next entry, in constant time.
    #[inline(always)]
    fn next(&mut self) -> Option<Dirent<'a>> {
        if self.bytes.is_empty() {
            return None;
        }
        let (dirent, rest) = Entries::known_dirent_at(self.plus, self.bytes);
        self.bytes = rest;
        Some(dirent)
    }
}
