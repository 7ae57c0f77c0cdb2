//! Messages that tests of several modules and crates send.

use bitflags::Flags;
use fa_bodies::InitFlags;
use fa_capture::{Direction, Packet};
use fa_sample::Sample;
use std::alloc::Global;

/// INIT with these flags and its answer with those: the messages 0 and 1.
pub fn begun(alloc: Global, flags: (u32, u32)) -> Sample {
    let asked = InitFlags::from_bits_retain(flags.0);
    let answered = InitFlags::from_bits_retain(flags.1);
    Sample::new(alloc)
        .init_with(1, 7, 31, asked)
        .init_answer_with(1, 7, 31, answered, 64)
}

/// The bytes of a message: zeros but for these.
pub fn spelled<const N: usize>(bytes: &[(usize, u8)]) -> [u8; N] {
    let mut message = [0; N];
    for (at, byte) in bytes {
        if let Some(place) = message.get_mut(*at) {
            *place = *byte;
        }
    }
    message
}

/// 30 messages of one kind, which count up in their unique from 2, and at this place from 10.
pub fn thirty<const N: usize>(bytes: &[(usize, u8)], place: usize) -> [[u8; N]; 30] {
    let mut messages = [spelled(bytes); 30];
    for (number, message) in (0u8..30).zip(messages.iter_mut()) {
        if let Some(node) = message.get_mut(place) {
            *node = number.wrapping_add(10);
        }
        if let Some(unique) = message.get_mut(8) {
            *unique = number.wrapping_add(2);
        }
    }
    messages
}

/// INIT, and its answer of 24 bytes behind the header.
pub const INIT: &[(usize, u8)] = &[(0, 56), (4, 26), (8, 1), (40, 7), (44, 31)];

pub const INIT_ANSWER: &[(usize, u8)] = &[(0, 40), (8, 1), (16, 7), (20, 31)];

/// A message in this direction.
pub fn packet(direction: Direction, bytes: &[u8]) -> Packet<'_> {
    Packet {
        direction,
        time: 0,
        bytes,
    }
}
