//! The elements of a picture. Lengths are in tenths of its unit.

use crate::escape::write_content;
use fa_show::Text;

/// Writes a length: with a point where it is no whole number of units.
pub(crate) fn length(text: &mut Text, tenths: u64) {
    text.number(tenths / 10);
    if tenths % 10 != 0 {
        text.field(".", tenths % 10);
    }
}

/// Writes an attribute that is a length.
pub(crate) fn measure(text: &mut Text, name: &str, tenths: u64) {
    text.character(b' ');
    text.word(name);
    text.word("=\"");
    length(text, tenths);
    text.character(b'"');
}

/// Writes the beginning of an element of a class, up to this, whose quote is left open.
pub(crate) fn open(text: &mut Text, element: &str, class: &str) {
    text.word("<");
    text.word(element);
    text.word(" class=\"");
    text.word(class);
}

/// Where a rectangle lies.
#[derive(Clone, Copy)]
pub(crate) struct Area {
    pub x: u64,
    pub y: u64,
    pub width: u64,
    pub height: u64,
}

/// Writes where a rectangle lies, how round its corners are, and its end.
pub(crate) fn close_rectangle(text: &mut Text, area: &Area, rounding: u64) {
    measure(text, "x", area.x);
    measure(text, "y", area.y);
    measure(text, "width", area.width);
    measure(text, "height", area.height);
    if rounding > 0 {
        measure(text, "rx", rounding);
    }
    text.word("/>");
}

/// Writes a rectangle of a class.
pub(crate) fn rectangle(text: &mut Text, name: &str, area: &Area, rounding: u64) {
    open(text, "rect", name);
    text.character(b'"');
    close_rectangle(text, area, rounding);
}

/// Writes from where to where a line goes, across or down, and its end.
pub(crate) fn close_line(text: &mut Text, from: (u64, u64), to: (u64, u64)) {
    measure(text, "x1", from.0);
    measure(text, "y1", from.1);
    measure(text, "x2", to.0);
    measure(text, "y2", to.1);
    text.word("/>");
}

/// To which side of its place a text goes.
#[derive(Clone, Copy)]
pub(crate) enum Anchor {
    /// It begins there, or lies as its class says.
    Start,
    Middle,
    End,
}

/// Writes the beginning of a text of a class.
pub(crate) fn open_text(text: &mut Text, name: &str, x: u64, y: u64, anchor: Anchor) {
    open(text, "text", name);
    text.character(b'"');
    measure(text, "x", x);
    measure(text, "y", y);
    match anchor {
        Anchor::Start => {}
        Anchor::Middle => text.word(" text-anchor=\"middle\""),
        Anchor::End => text.word(" text-anchor=\"end\""),
    }
    text.character(b'>');
}

/// Writes the beginning of a group of a class, with its title.
pub(crate) fn open_group(text: &mut Text, name: &str, title: &[u8]) {
    open(text, "g", name);
    text.word("\"><title>");
    write_content(text, title);
    text.word("</title>");
}
