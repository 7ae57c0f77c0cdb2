//! Twenty handles on one directory, which is listed on all of them by turns, with `.` and `..`.

use crate::recording::Entries;
use crate::volume::Volume;
use std::alloc::Global;

/// How many handles there are.
const HANDLES: u64 = 20;
/// How many bytes a READDIR asks for.
const ASKED: u32 = 4096;
/// At how many turns a new name comes.
const TURNS: u64 = 4;
/// The places of `.` and `..` in a listing, far from those of the names.
const DOT: u64 = 1 << 40;

const DOT_DOT: u64 = (1 << 40) + 1;

/// A listing on a handle: where it goes on, and whether it is at its end.
#[derive(Drop)]
struct Listing {
    handle: u64,
    plus: bool,
    next: usize,
    ended: bool,
}

/// The capture of a directory of so many names. At each of the first turns a new one comes.
pub fn volume(alloc: Global, seed: u64, names: u64) -> Volume {
    let mut volume = Volume::seeded(alloc, 20, seed);
    let directory = volume.mkdir(0);
    for _ in 0..names {
        volume.mknod(directory);
    }
    let mut listings: Vec<Listing> = Vec::new(alloc);
    for place in 0..HANDLES {
        let listing = Listing {
            handle: volume.opendir(directory),
            plus: place % 4 == 0,
            next: 0,
            ended: false,
        };
        volume.recording.note_refusal(listings.push(listing));
    }
    for turn in 0..names.saturating_add(TURNS) {
        for listing in listings.iter_mut() {
            list_more(&mut volume, directory, listing);
        }
        if listings.iter().all(|listing| listing.ended) {
            break;
        }
        if turn < TURNS {
            volume.mknod(directory);
        }
    }
    for listing in listings.iter() {
        volume.releasedir(directory, listing.handle);
    }
    volume
}

/// One answer of a listing, if it is not at its end.
fn list_more(volume: &mut Volume, directory: usize, listing: &mut Listing) {
    if listing.ended {
        return;
    }
    let mut entries = Entries::new(volume.alloc, listing.plus, ASKED);
    if listing.next == 0 {
        let node = volume.directory_node(directory);
        let attributes = volume.attributes(node);
        entries.add(b".", DOT, 0, attributes);
        entries.add(b"..", DOT_DOT, 0, attributes);
    }
    let next = volume.list_on(directory, listing.handle, listing.next, entries);
    listing.ended = next == listing.next;
    listing.next = next;
}
