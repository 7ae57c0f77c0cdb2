//! Bands of columns, and what is drawn in them.

use crate::band::Band;
use crate::exchanges::Exchanges;
use crate::layout::{COLUMN, GAP, HEAD, NUMBER_LINE, PITCH, RULE_MARGINS};
use crate::painting_bars::paint_bar;
use crate::painting_diamonds::paint_diamond;
use crate::scene::{Scene, Strip};
use crate::shapes::{Anchor, close_line, open_text};
use crate::words::Words;
use fa_capture::Direction;
use fa_show::Text;

/// How high the bands of a scene are, with what is free between them.
pub(crate) fn height(scene: &Scene<'_>) -> u64 {
    let mut height: u64 = 0;
    for strip in scene.strips.iter() {
        height = height
            .saturating_add(strip_height(strip))
            .saturating_add(GAP);
    }
    height
}

/// How high a band is.
fn strip_height(strip: &Strip) -> u64 {
    HEAD + u64::from(strip.lanes) * PITCH
}

/// Writes the bands of a scene, one below the other.
pub(crate) fn paint(
    text: &mut Text,
    words: &mut Words,
    exchanges: &Exchanges,
    scene: &Scene<'_>,
    top: u64,
) {
    let mut top = top;
    for strip in scene.strips.iter() {
        let bottom = top.saturating_add(strip_height(strip));
        paint_columns(text, scene, &strip.band, top, bottom);
        paint_strip(
            text,
            words,
            exchanges,
            scene,
            strip,
            top.saturating_add(HEAD),
        );
        top = bottom.saturating_add(GAP);
    }
}

/// Writes the numbers of the messages of a band, with the ways that these went, and the lines between its columns.
fn paint_columns(text: &mut Text, scene: &Scene<'_>, band: &Band, top: u64, bottom: u64) {
    let mut left = band.left_of(band.first);
    for number in band.first..=band.last {
        paint_rule(text, left, top, bottom);
        paint_number(text, scene, number, left.saturating_add(COLUMN / 2), top);
        left = left.saturating_add(COLUMN);
    }
    paint_rule(text, left, top, bottom);
}

/// Writes a line between two columns.
fn paint_rule(text: &mut Text, left: u64, top: u64, bottom: u64) {
    let from = top.saturating_add(RULE_MARGINS.0);
    let to = bottom.saturating_sub(RULE_MARGINS.1);
    text.word("<line class=\"rule\"");
    close_line(text, (left, from), (left, to));
}

/// Writes the number of a message, and which way it went.
fn paint_number(text: &mut Text, scene: &Scene<'_>, number: u32, middle: u64, top: u64) {
    open_text(
        text,
        "n",
        middle,
        top.saturating_add(NUMBER_LINE),
        Anchor::Start,
    );
    text.number(u64::from(number));
    text.word(match scene.direction(number) {
        Some(Direction::FromServer) => " &lt;</text>",
        Some(Direction::ToServer) | None => " &gt;</text>",
    });
}

/// Writes the bars of a band, and what stands alone there.
fn paint_strip(
    text: &mut Text,
    words: &mut Words,
    exchanges: &Exchanges,
    scene: &Scene<'_>,
    strip: &Strip,
    top: u64,
) {
    for place in strip.bars.iter() {
        if let Some(bar) = scene.bars.get(*place) {
            paint_bar(text, words, exchanges, bar, &strip.band, top);
        }
    }
    for diamond in scene.diamonds_from(strip.band.first) {
        if diamond.at > strip.band.last {
            break;
        }
        paint_diamond(text, words, exchanges, diamond, &strip.band, top);
    }
}
