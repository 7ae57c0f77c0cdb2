//! Bytes and targets that are not those of the file: code 85.

use crate::holding::node_lines;
use crate::looks::Looks;
use crate::rules::{BYTES, DIRECT, TARGETS, rule_line};
use crate::scene::Scene;
use crate::start::{self, FromStart};
use crate::wording;
use fa_refusal::{Difference, Reading};
use fa_show::Text;
use std::alloc::AllocError;

/// So many bytes are written from the first that differs on: one more than are shown.
const SHOWN: u64 = 17;

/// Writes which bytes are not those of the file: which of the lines of what to look at fit.
pub(crate) fn explain(text: &mut Text, scene: &Scene<'_>, reading: &Reading<'_>) -> Looks {
    rule(text, scene, reading);
    node_lines(text, scene);
    if reading.answered.len() as u64 != reading.expected {
        lengths_line(text, scene, reading);
    }
    let difference = reading.difference(scene.tree);
    if let Some(difference) = &difference {
        first_line(text, scene, reading, difference);
    }
    looks(scene, reading, difference.is_some())
}

/// Writes the rule of the bytes.
fn rule(text: &mut Text, scene: &Scene<'_>, reading: &Reading<'_>) {
    if reading.is_target {
        return rule_line(text, TARGETS);
    }
    text.word("rule     ");
    text.word(BYTES);
    if scene.case.call.direct {
        text.word(DIRECT);
    }
    text.end_line();
}

/// Writes how many bytes were answered, and how many were expected.
fn lengths_line(text: &mut Text, scene: &Scene<'_>, reading: &Reading<'_>) {
    let answered = reading.answered.len();
    text.word("differs  ");
    text.count(answered, " byte answered, ", " bytes answered, ");
    if scene.case.call.direct && answered as u64 <= reading.expected {
        text.word("at most ");
    }
    text.number(reading.expected);
    text.word(" expected");
    if let Some(asked) = left_whole_by(scene, reading) {
        wording::request(text, scene.calls, "; ", asked);
        text.word(" leaves them, as ATOMIC_O_TRUNC was not agreed");
    }
    text.end_line();
}

/// The OPEN with O_TRUNC that was to leave a file whole of which no byte is answered, if there is one.
fn left_whole_by(scene: &Scene<'_>, reading: &Reading<'_>) -> Option<u32> {
    if !reading.answered.is_empty() {
        return None;
    }
    scene.history.file(reading.file)?.left_whole_by
}

/// Writes the first byte that differs, with which request set it, and how many differ.
fn first_line(text: &mut Text, scene: &Scene<'_>, reading: &Reading<'_>, difference: &Difference) {
    text.word("differs  first at byte ");
    if reading.is_target {
        text.number(difference.first);
    } else {
        text.number(reading.offset.saturating_add(difference.first));
        text.word(" of the file");
        wording::request_if_any(text, scene.calls, ", set by ", scene.history.byte_by);
    }
    text.word(": answered ");
    text.data(answered_from(reading, difference.first));
    text.word(", expected ");
    if let Some(bytes) = scene
        .memory
        .noted(expected_from(scene, reading, difference.first))
    {
        text.data(&bytes);
    }
    text.word("; ");
    text.count(difference.count as usize, " byte of ", " bytes of ");
    text.number(reading.common());
    text.word(if difference.count == 1 {
        " differs"
    } else {
        " differ"
    });
    text.end_line();
}

/// The first of the bytes that were answered, from a place on.
fn answered_from<'a>(reading: &Reading<'a>, place: u64) -> &'a [u8] {
    let answered = reading.answered;
    let (_, behind) = answered.split_at((place as usize).min(answered.len()));
    let (shown, _) = behind.split_at((SHOWN as usize).min(behind.len()));
    shown
}

/// The first of the bytes that were expected, from a place on.
fn expected_from(
    scene: &Scene<'_>,
    reading: &Reading<'_>,
    place: u64,
) -> Result<Vec<u8>, AllocError> {
    let mut bytes = Vec::new(scene.memory.alloc);
    for behind in 0..SHOWN {
        let place = place.saturating_add(behind);
        if place < reading.expected {
            if let Some(byte) = reading.byte(scene.tree, place) {
                bytes.push(byte)?;
            }
        }
    }
    Ok(bytes)
}

/// Which of the lines of what to look at fit.
fn looks(scene: &Scene<'_>, reading: &Reading<'_>, differs: bool) -> Looks {
    let is_byte_from_start = start::has_byte(scene, reading.file);
    if reading.is_target {
        Looks::at("READLINK", is_byte_from_start)
    } else if differs {
        Looks::at(of_other_bytes(scene), is_byte_from_start)
    } else {
        Looks::at(
            of_lengths(scene, reading),
            FromStart::of(scene, reading.file).size,
        )
    }
}

/// The case of bytes that differ: a request may have set the first of them.
fn of_other_bytes(scene: &Scene<'_>) -> &'static str {
    match scene.history.byte_by {
        Some(_) if scene.history.byte_is_filled => "READ, other bytes where zeros are",
        Some(_) => "READ, other bytes",
        None => "READ, other bytes that no request set",
    }
}

/// The case of bytes that are too few or too many.
fn of_lengths(scene: &Scene<'_>, reading: &Reading<'_>) -> &'static str {
    let is_cut = match scene.history.file(reading.file) {
        Some(known) => known.cut_by.is_some(),
        None => false,
    };
    if (reading.answered.len() as u64) < reading.expected {
        if left_whole_by(scene, reading).is_some() {
            "READ, too short after an OPEN that does not cut"
        } else {
            "READ, too short"
        }
    } else if is_cut {
        "READ, too long after a truncation"
    } else {
        "READ, too long"
    }
}
