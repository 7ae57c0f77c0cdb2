//! Walks over the lists that messages hold.

ghost use Rattle.std.specs.Prelude.{◌≡◌, ◌*◌, ◌≤◌, List, [], length, IfSome, IfNone};
ghost use Rattle.fa_bodies.specs.Dirents.{PlainDirent, AreEntries, HasNoDirent, HoldsEntries};
ghost use Rattle.fa_bodies.specs.ForgetOnes.{HoldsItems};
ghost use Rattle.fa_bodies.specs.Items.{items_in, items_left};
ghost use Rattle.fa_bodies.specs.Listing.{entries_in, entries_left};

use crate::dirent::{Entries, behind_dirent};
use crate::forget_one::Items;

/// The items of BATCH_FORGET that stand in bytes (`struct fuse_forget_one` of `fuse.h`, 16 bytes each), in their order,
/// as pairs of a node id and a number of lookups.
///
/// The walk ends before a rest of fewer than 16 bytes. It takes no memory, and constant time for
/// each item.
pub fn items(bytes: &[u8]) -> Items<'_>
    ensures held { HoldsItems bytes.now (items_left result) }
    ensures computed { items_left result ≡ items_in bytes.now }
    ensures few { 16 * length (items_left result) ≤ length bytes.now }
{
    Items { bytes }
}

/// The directory entries at the front of the payload of a READDIR reply (`struct fuse_dirent` of
/// `fuse.h`), or of a READDIRPLUS reply (`struct fuse_direntplus`) where `plus`, in their order.
///
/// An entry has a name of 1 to 1,024 bytes without zero byte and slash (it may be `.` or `..`), and
/// behind it as many bytes of padding as make the `struct fuse_dirent` a multiple of 8 bytes. The
/// walk ends before the first bytes that are no entry. It takes no memory. The call takes time linear in the
/// bytes that it passes, and the walk constant time for each entry.
pub fn entries(plus: bool, bytes: &[u8]) -> Entries<'_>
    ensures held { HoldsEntries plus bytes.now (entries_left result) }
    ensures computed { entries_left result ≡ entries_in plus bytes.now }
    ensures few { 32 * length (entries_left result) ≤ length bytes.now }
{
    let rest = behind_entries(plus, bytes);
    known_entries(plus, &bytes[..bytes.len() - rest.len()])
}

/// The directory entries that bytes are as a whole, with nothing behind the last. It takes no memory,
/// and time linear in the bytes.
pub(crate) fn listing(plus: bool, bytes: &[u8]) -> Option<Entries<'_>>
    ensures found { IfSome result (λ walk. AreEntries plus bytes.now (entries_left walk) []) }
    ensures none { IfNone result ((ds : List PlainDirent) → AreEntries plus bytes.now ds [] → ⊥) }
{
    let rest = behind_entries(plus, bytes);
    if rest.is_empty() {
        Some(known_entries(plus, bytes))
    } else {
        None
    }
}

/// The directory entries that bytes are known to be as a whole, with nothing behind the last. It takes no memory, in
/// constant time: they are not looked at.
pub(crate) fn known_entries(plus: bool, bytes: &[u8]) -> Entries<'_>
    requires { ∥ ((ds : List PlainDirent) × AreEntries plus bytes.now ds []) ∥₁ }
    ensures { AreEntries plus bytes.now (entries_left result) [] }
{
    Entries { plus, bytes }
}

/// What stands behind the directory entries at the front of bytes: nothing, or bytes that begin with no entry. It takes no
/// memory, and time linear in the bytes that it passes.
fn behind_entries(plus: bool, bytes: &[u8]) -> &[u8]
    ensures passed { (ds : List PlainDirent) × AreEntries plus bytes.now ds result.now }
    ensures ended { HasNoDirent plus result.now }
{
    let mut rest = bytes;
    while let Some(after) = behind_dirent(plus, rest) {
        rest = after;
    }
    rest
}
