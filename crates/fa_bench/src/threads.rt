//! A server with many threads: a hundred requests under way, and replies in another order.

use crate::random::Random;
use crate::recording::{Attributes, ENOENT};
use crate::volume::{Child, REG, Volume};
use fa_bodies::opcodes;
use std::alloc::Global;

/// How many requests are under way at most.
const UNDER_WAY: usize = 100;
/// How many directories there are; files of the first get further names and lose none.
const DIRECTORIES: u64 = 9;

/// A request that waits for its reply.
#[derive(Clone, Copy)]
struct Waiting {
    unique: u64,
    request: Request,
}

/// What was asked. What only reads is answered as of the moment at which it was sent, or as of its reply.
#[derive(Clone, Copy)]
enum Request {
    Statfs,
    Miss,
    Look {
        child: Child,
        then: Option<Attributes>,
    },
    Stat {
        node: u64,
        then: Option<Attributes>,
    },
    Create {
        directory: usize,
        label: u64,
    },
    Remove {
        node: u64,
    },
    Link {
        node: u64,
        label: u64,
    },
    Write {
        node: u64,
        end: u64,
        size: usize,
    },
}

/// The capture of so many requests.
pub fn volume(alloc: Global, seed: u64, requests: u64) -> Volume {
    let mut random = Random::new(seed);
    let mut volume = Volume::new(alloc, 20);
    for _ in 1..DIRECTORIES {
        volume.mkdir(0);
    }
    let open = open_files(&mut volume);
    let mut waiting: Vec<Waiting> = Vec::new(alloc);
    for _ in 0..requests {
        if waiting.len() >= UNDER_WAY || random.percent(2) {
            answer(&mut volume, &mut random, &mut waiting);
        }
        if let Some(asked) = ask(&mut volume, &mut random, open.as_slice()) {
            volume.recording.note_refusal(waiting.push(asked));
        }
    }
    for _ in 0..UNDER_WAY + 1 {
        answer(&mut volume, &mut random, &mut waiting);
    }
    volume
}

/// The nodes and the handles of files that are open, of which the first are in the first directory.
fn open_files(volume: &mut Volume) -> Vec<(u64, u64)> {
    let mut open = Vec::new(volume.alloc);
    for at in 0..400u64 {
        let directory = if at < 64 { 0 } else { at % DIRECTORIES };
        let file = volume.create(directory as usize);
        volume.recording.note_refusal(open.push(file));
    }
    open
}

/// Sends a request.
fn ask(volume: &mut Volume, random: &mut Random, open: &[(u64, u64)]) -> Option<Waiting> {
    let directory = random.below(DIRECTORIES) as usize;
    match random.below(100) {
        0..15 => Some(Waiting {
            unique: volume.recording.bare(opcodes::STATFS, 1),
            request: Request::Statfs,
        }),
        15..23 => {
            let label = volume.fresh_label();
            Some(Waiting {
                unique: volume.ask_named(opcodes::LOOKUP, directory, label),
                request: Request::Miss,
            })
        }
        23..46 => ask_look(volume, random, directory),
        46..66 => ask_stat(volume, random, directory),
        66..76 => {
            let directory = 1 + random.below(DIRECTORIES - 1) as usize;
            let label = volume.fresh_label();
            Some(Waiting {
                unique: volume.ask_create(directory, label),
                request: Request::Create { directory, label },
            })
        }
        76..84 => {
            let directory = 1 + random.below(DIRECTORIES - 1) as usize;
            ask_remove(volume, random, directory)
        }
        84..90 => {
            let (node, _) = *open.get(random.place(64))?;
            let label = volume.fresh_label();
            Some(Waiting {
                unique: volume.ask_link(node, 0, label),
                request: Request::Link { node, label },
            })
        }
        _ => ask_write(volume, random, open),
    }
}

fn ask_look(volume: &mut Volume, random: &mut Random, directory: usize) -> Option<Waiting> {
    let (_, child) = volume.some_child(random, directory)?;
    let unique = volume.ask_named(opcodes::LOOKUP, directory, child.label);
    let then = attributes_then(volume, random, child.node);
    Some(Waiting {
        unique,
        request: Request::Look { child, then },
    })
}

fn ask_stat(volume: &mut Volume, random: &mut Random, directory: usize) -> Option<Waiting> {
    let (_, Child { node, .. }) = volume.some_child(random, directory)?;
    let unique = volume.recording.getattr(node);
    let then = attributes_then(volume, random, node);
    Some(Waiting {
        unique,
        request: Request::Stat { node, then },
    })
}

/// What is said of a node now, one time of two.
fn attributes_then(volume: &Volume, random: &mut Random, node: u64) -> Option<Attributes> {
    if random.percent(50) {
        Some(volume.attributes(node))
    } else {
        None
    }
}

/// UNLINK of some name, which is asked for no more from then on
fn ask_remove(volume: &mut Volume, random: &mut Random, directory: usize) -> Option<Waiting> {
    let (place, child) = volume.some_child(random, directory)?;
    let unique = volume.ask_named(opcodes::UNLINK, directory, child.label);
    volume.take_child(directory, place);
    Some(Waiting {
        unique,
        request: Request::Remove { node: child.node },
    })
}

fn ask_write(volume: &mut Volume, random: &mut Random, open: &[(u64, u64)]) -> Option<Waiting> {
    let (node, handle) = *open.get(random.place(open.len()))?;
    let offset = random.below(64).saturating_mul(512);
    let payload = [7u8; 512];
    Some(Waiting {
        unique: volume.recording.write(node, handle, offset, &payload),
        request: Request::Write {
            node,
            end: offset.saturating_add(512),
            size: 512,
        },
    })
}

/// Answers some request that waits.
fn answer(volume: &mut Volume, random: &mut Random, waiting: &mut Vec<Waiting>) {
    let place = random.place(waiting.len());
    if place < waiting.len() {
        let Waiting { unique, request } = waiting.swap_remove(place);
        reply(volume, unique, request);
    }
}

/// Answers this request.
fn reply(volume: &mut Volume, unique: u64, request: Request) {
    match request {
        Request::Statfs => volume.recording.done(unique, 80),
        Request::Miss => volume.recording.error(unique, ENOENT),
        Request::Look { child, then } => {
            let attributes = match then {
                Some(attributes) => attributes,
                None => volume.attributes(child.node),
            };
            if attributes.links == 0 {
                volume.recording.error(unique, ENOENT);
            } else {
                volume.looked_up(child.node);
                volume.recording.entry(unique, child.node, attributes);
            }
        }
        Request::Stat { node, then } => {
            let attributes = match then {
                Some(attributes) => attributes,
                None => volume.attributes(node),
            };
            volume.recording.attributes(unique, node, attributes);
        }
        Request::Create { directory, label } => {
            volume.created(unique, directory, label);
        }
        Request::Remove { node } => {
            volume.set_links(node, 0);
            volume.recording.done(unique, 0);
        }
        Request::Link { node, label } => volume.linked(unique, node, 0, label),
        Request::Write { node, end, size } => {
            let before = volume.attributes(node).size;
            volume.set_size(node, before.max(end));
            volume.recording.wrote(unique, size);
        }
    }
}
