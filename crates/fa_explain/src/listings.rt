//! Listings with an entry that is none.

use fa_bodies::{MAX_NAME, entries};
use fa_show::{Text, u32_at};

/// The bytes of `struct fuse_dirent` before the name.
const DIRENT: usize = 24;

/// The bytes of `struct fuse_entry_out`, which READDIRPLUS puts before it.
const ENTRY_OUT: usize = 128;

/// Where `namelen` stands in `struct fuse_dirent`.
const NAMELEN: usize = 16;

/// Writes which entry of a listing is none, and why.
pub(crate) fn refused(text: &mut Text, plus: bool, body: &[u8]) {
    let before = if plus { ENTRY_OUT } else { 0 };
    let mut whole: u64 = 0;
    let mut place: usize = 0;
    for dirent in entries(plus, body) {
        whole = whole.saturating_add(1);
        place = place
            .saturating_add(before)
            .saturating_add(padded(DIRENT, dirent.name.len()));
    }
    text.field("entry ", whole);
    text.field(", at byte ", place as u64);
    text.word(" behind the header, ");
    match body.split_at_checked(place.saturating_add(before)) {
        Some((_, dirent)) => dirent_refused(text, dirent),
        None => text.word("is cut off"),
    }
}

/// How many bytes a struct and a name have with their padding.
fn padded(size: usize, name: usize) -> usize {
    size.saturating_add(name).saturating_add(7) / 8 * 8
}

/// Writes why the bytes do not begin with a `struct fuse_dirent`.
fn dirent_refused(text: &mut Text, bytes: &[u8]) {
    let Some((head, behind)) = bytes.split_at_checked(DIRENT) else {
        return text.word("is cut off");
    };
    let namelen = u32_at(head, NAMELEN).unwrap_or(0) as usize;
    if namelen == 0 || namelen > MAX_NAME {
        text.word("states a name of ");
        return text.count(namelen, " byte", " bytes");
    }
    match behind.split_at_checked(padded(0, namelen)) {
        Some((name, _)) => {
            text.word("has the name ");
            let (name, _) = name.split_at(namelen.min(name.len()));
            text.name(name);
        }
        None => text.word("is cut off, or lacks its padding"),
    }
}
