//! Bars, as they are drawn.

ghost use Rattle.std.specs.Prelude.{◌≤◌};

use crate::band::{Band, Extent};
use crate::bars::Bar;
use crate::escape::write_content;
use crate::exchanges::Exchanges;
use crate::fitting::{Letters, write_fitted};
use crate::labels::{Detail, objects};
use crate::layout::{
    BAR, CODE_LINE, CODE_ROOM, DIGIT_HALF, MARK_HALF, MARK_HEIGHT, MARK_LINES, PADDING, PITCH,
    ROUNDING, SIDE, WIDTH, WORD_LINES,
};
use crate::look::Look;
use crate::mark::Mark;
use crate::painting_diamonds::paint_code;
use crate::shapes::{
    Anchor, Area, close_line, close_rectangle, measure, open_group, open_text, rectangle,
};
use crate::words::Words;
use fa_show::Text;

/// How wide the thick edge of a bar is.
const EDGE: u64 = 40;

/// How wide a letter of an operation is that is not squeezed.
const OPERATION_LETTER: u64 = 77;

/// How wide one is that is squeezed, at least.
const SQUEEZED_LETTER: u64 = 50;

/// How wide a letter of other words is.
const LETTER: u64 = 62;

/// How wide a letter of an error is.
const ERROR_LETTER: u64 = 74;

/// In more room than this an operation is squeezed.
const LEAST_SQUEEZED: u64 = 200;

/// In more room than this words stand beside an answer.
const LEAST_BESIDE: u64 = 240;

/// What is free between words and an answer beside them.
const BETWEEN: u64 = 60;

/// What a bar has inside for words.
#[derive(Clone, Copy)]
struct Inside {
    left: u64,
    right: u64,
    /// How much room there is between them.
    room: u64,
    /// Where the words of the first line stand.
    first_line: u64,
    /// Where those of the second line stand.
    second_line: u64,
}

impl Inside {
    /// The room for words in a bar.
    fn of(extent: &Extent, look: &Look, top: u64) -> Inside {
        let edge = if look.has_edge { EDGE / 2 } else { 0 };
        let left = extent.left.saturating_add(edge).saturating_add(PADDING);
        let right = extent.right.saturating_sub(PADDING);
        Inside {
            left,
            right,
            room: right.saturating_sub(left),
            first_line: top.saturating_add(WORD_LINES.0),
            second_line: top.saturating_add(WORD_LINES.1),
        }
    }
}

/// How wide words are, of letters of this width.
fn width(words: &Text, letter: u64) -> u64 {
    (words.len() as u64).saturating_mul(letter)
}

/// Writes what a bar has in a band, of which the first lane begins there.
pub(crate) fn paint_bar(
    text: &mut Text,
    words: &mut Words,
    exchanges: &Exchanges,
    bar: &Bar<'_>,
    band: &Band,
    top: u64,
) {
    if !band.meets(bar.begins, bar.ends) {
        return;
    }
    let top = top.saturating_add(u64::from(bar.lane) * PITCH);
    let look = Look::of(bar, band, exchanges.fault);
    let extent = band.extent(bar.begins, bar.ends);
    let inside = Inside::of(&extent, &look, top);
    words.take_bar(exchanges, bar, &look);
    open_group(text, look.class, words.title_lines());
    paint_body(text, &look, &extent, top);
    paint_operation(text, words, bar, &look, &inside);
    paint_objects(text, words, bar, &look, &inside);
    if let Some(mark) = &bar.mark {
        paint_mark(text, bar, mark, band, top);
    }
    if look.is_at_fault {
        let left = inside.left.min(WIDTH - CODE_ROOM);
        paint_code(
            text,
            exchanges.fault,
            left,
            top.saturating_add(CODE_LINE),
            Anchor::Start,
        );
    }
    text.word("</g>");
}

/// Writes the rectangle of a bar, with lines at all sides but the open ones.
fn paint_body(text: &mut Text, look: &Look, extent: &Extent, top: u64) {
    let area = Area {
        x: extent.left,
        y: top,
        width: extent.right.saturating_sub(extent.left),
        height: BAR,
    };
    let rounding = if look.is_open { 0 } else { ROUNDING };
    look.open(text, "rect");
    text.word(if look.is_open { " open\"" } else { "\"" });
    close_rectangle(text, &area, rounding);
    if look.is_open {
        paint_sides(text, look, extent, top);
    }
    if look.has_edge {
        let edge = Area {
            width: EDGE,
            ..area
        };
        rectangle(text, "edge", &edge, rounding / 2);
    }
}

/// Writes the lines of a bar with open ends.
fn paint_sides(text: &mut Text, look: &Look, extent: &Extent, top: u64) {
    let bottom = top.saturating_add(BAR);
    let (left, right) = (extent.left, extent.right);
    paint_side(text, look, (left, top), (right, top));
    paint_side(text, look, (left, bottom), (right, bottom));
    if !look.is_begun {
        paint_side(text, look, (left, top), (left, bottom));
    }
    if !look.goes_on {
        paint_side(text, look, (right, top), (right, bottom));
    }
}

/// Writes a line of a bar.
fn paint_side(text: &mut Text, look: &Look, from: (u64, u64), to: (u64, u64)) {
    look.open(text, "line");
    text.word("\"");
    close_line(text, from, to);
}

/// Writes the operation, squeezed where it fits so alone. Where not even this one is shown, but the number of a request in a band before
/// is.
fn paint_operation(text: &mut Text, words: &Words, bar: &Bar<'_>, look: &Look, inside: &Inside) {
    let room = inside.room;
    let is_cut = width(&words.operation, SQUEEZED_LETTER) > room;
    let is_wide = width(&words.operation, OPERATION_LETTER) > room;
    text.word("<text class=\"op in\"");
    measure(text, "x", inside.left);
    measure(text, "y", inside.first_line);
    if is_wide && !is_cut && room > LEAST_SQUEEZED {
        measure(text, "textLength", room);
        text.word(" lengthAdjust=\"spacingAndGlyphs\"");
    }
    text.word(">");
    if !is_cut {
        write_content(text, words.operation.as_bytes());
    } else if look.is_begun {
        text.number(u64::from(bar.begins));
    } else {
        write_fitted(text, words.operation.as_bytes(), room, Letters::Bold);
    }
    text.word("</text>");
}

/// Writes what a request acts on, and at the right what came of it, where there is room for both; else the error, if it is one.
fn paint_objects(text: &mut Text, words: &mut Words, bar: &Bar<'_>, look: &Look, inside: &Inside) {
    let mut room = inside.room;
    if words.result.len() > 0 && !look.goes_on {
        let letter = if look.is_error { ERROR_LETTER } else { LETTER };
        let beside = room
            .saturating_sub(width(&words.result, letter))
            .saturating_sub(BETWEEN);
        if beside > LEAST_BESIDE || words.objects.len() == 0 {
            let class = if look.is_error { "err in" } else { "s in" };
            paint_fitted(
                text,
                class,
                words.result.as_bytes(),
                inside,
                room,
                Anchor::End,
            );
            room = beside;
            if width(&words.objects, LETTER) > room {
                words.objects.begin(0);
                objects(&mut words.objects, &bar.request, Detail::Node);
            }
        } else if look.is_error {
            let error = words.result.as_bytes();
            return paint_fitted(text, "err in", error, inside, room, Anchor::Start);
        }
    }
    paint_fitted(
        text,
        "in",
        words.objects.as_bytes(),
        inside,
        room,
        Anchor::Start,
    );
}

/// Writes words in the second line, at the right if they end there, else at the left, if there are any.
fn paint_fitted(
    text: &mut Text,
    class: &str,
    words: &[u8],
    inside: &Inside,
    room: u64,
    anchor: Anchor,
) {
    if words.is_empty() {
        return;
    }
    let x = if let Anchor::End = anchor {
        inside.right
    } else {
        inside.left
    };
    open_text(text, class, x, inside.second_line, anchor);
    write_fitted(text, words, room, Letters::Small);
    text.word("</text>");
}

/// Writes where the order places a request, with the place of its entry, if that is in the band.
fn paint_mark(text: &mut Text, bar: &Bar<'_>, mark: &Mark, band: &Band, top: u64) {
    let Some(entry) = bar.entry else {
        return;
    };
    let Some(middle) = band.place_of(mark) else {
        return;
    };
    let half = MARK_HALF + DIGIT_HALF * digits(entry);
    let x = middle.max(SIDE + half).min(WIDTH - SIDE - half);
    let area = Area {
        x: x.saturating_sub(half),
        y: top.saturating_add(MARK_LINES.0),
        width: 2 * half,
        height: MARK_HEIGHT,
    };
    rectangle(text, "mark", &area, MARK_HEIGHT / 2);
    open_text(
        text,
        "marked",
        x,
        top.saturating_add(MARK_LINES.1),
        Anchor::Start,
    );
    text.number(u64::from(entry));
    text.word("</text>");
}

/// How many digits a number has.
fn digits(number: u32) -> u64
    ensures { result ≤ 10 }
{
    match number.checked_ilog10() {
        // A number of 32 bits has ten at most.
        Some(log) => u64::from(log.min(9)) + 1,
        None => 1,
    }
}
