//! What the looks of a picture mean.

use crate::fault::Fault;
use crate::layout::{MARK_HEIGHT, SIDE, WIDTH};
use crate::scene::Scene;
use crate::shapes::{Anchor, Area, open_text, rectangle};
use fa_show::Text;

/// When a look is explained.
#[derive(Clone, Copy)]
enum When {
    Always,
    /// Where a request was never answered.
    Unanswered,
    /// Where something is at fault.
    AtFault,
}

/// How a bar may look.
#[derive(Clone, Copy)]
struct Look {
    /// The classes of the style sheet.
    classes: &'static str,
    /// What it means.
    meaning: &'static str,
    /// Whether its left edge is thick.
    has_edge: bool,
    when: When,
}

/// All looks, as they are explained.
static LOOKS: [Look; 6] = [
    Look {
        classes: "read",
        meaning: "leaves the tree",
        has_edge: false,
        when: When::Always,
    },
    Look {
        classes: "change",
        meaning: "may change it",
        has_edge: true,
        when: When::Always,
    },
    Look {
        classes: "other",
        meaning: "does not act on it",
        has_edge: false,
        when: When::Always,
    },
    Look {
        classes: "read error",
        meaning: "answered by an error",
        has_edge: false,
        when: When::Always,
    },
    Look {
        classes: "read never",
        meaning: "never answered",
        has_edge: false,
        when: When::Unanswered,
    },
    Look {
        classes: "bad",
        meaning: "at fault",
        has_edge: false,
        when: When::AtFault,
    },
];

/// What a mark means.
const MARK: &str = "entry of the order, where it may have taken effect";

/// How wide a letter is.
const LETTER: u64 = 59;

/// How wide and how high the sample of a look is.
const SAMPLE: (u64, u64) = (140, 110);

/// How far below the top of a line the sample begins.
const SAMPLE_TOP: u64 = 30;

/// How round the corners of a sample are.
const ROUNDING: u64 = 20;

/// How wide the thick edge of a sample is.
const EDGE: u64 = 40;

/// How wide the sample of a mark is.
const MARK_WIDTH: u64 = 160;

/// How far below the top of a line the sample of a mark begins, and its number stands.
const MARK_LINES: (u64, u64) = (20, 125);

/// What is free between a sample and its words.
const BESIDE: u64 = 50;

/// What is free between words and the next sample.
const BETWEEN: u64 = 150;

/// How high a line is.
const LINE: u64 = 180;

/// What is free above and below the lines.
const FREE: (u64, u64) = (20, 60);

/// How far the words of a line stand below its top.
const BASELINE: u64 = 130;

/// How wide words are.
fn width(words: &str) -> u64 {
    (words.len() as u64).saturating_mul(LETTER)
}

impl Look {
    /// How wide its sample and its words are, with what is free behind them.
    fn width(&self) -> u64 {
        width(self.meaning).saturating_add(SAMPLE.0 + BESIDE + BETWEEN)
    }
}

/// Which looks are explained below a picture.
#[derive(Clone, Copy)]
pub(crate) struct Legend {
    has_unanswered: bool,
    has_fault: bool,
    has_order: bool,
}

impl Legend {
    /// The looks that a picture has.
    pub fn of(scene: &Scene<'_>, fault: Fault, has_order: bool) -> Legend {
        let mut legend = Legend {
            has_unanswered: false,
            has_fault: false,
            has_order,
        };
        for bar in scene.bars.iter() {
            legend.has_unanswered |= bar.is_unanswered();
            legend.has_fault |= bar.is_at_fault(fault);
        }
        for diamond in scene.diamonds.iter() {
            legend.has_fault |= fault.is_at(diamond.at);
        }
        legend
    }

    /// Whether it explains a look.
    fn explains(&self, look: &Look) -> bool {
        match look.when {
            When::Always => true,
            When::Unanswered => self.has_unanswered,
            When::AtFault => self.has_fault,
        }
    }

    /// Where the looks end on their line.
    fn end_of_looks(&self) -> u64 {
        let mut end = SIDE;
        for look in LOOKS.iter() {
            if self.explains(look) {
                end = end.saturating_add(look.width());
            }
        }
        end
    }

    /// How high it is.
    pub fn height(&self) -> u64 {
        if self.has_order && !has_room_for_mark(self.end_of_looks()) {
            FREE.0 + 2 * LINE + FREE.1
        } else {
            FREE.0 + LINE + FREE.1
        }
    }

    /// Writes it, below this height.
    pub fn write(&self, text: &mut Text, top: u64) {
        let top = top.saturating_add(FREE.0);
        let mut left = SIDE;
        for look in LOOKS.iter() {
            if self.explains(look) {
                write_look(text, look, left, top);
                left = left.saturating_add(look.width());
            }
        }
        if self.has_order {
            if has_room_for_mark(left) {
                write_mark(text, left, top);
            } else {
                write_mark(text, SIDE, top.saturating_add(LINE));
            }
        }
    }
}

/// Whether a mark and what it means have room on a line from here on.
fn has_room_for_mark(left: u64) -> bool {
    left.saturating_add(MARK_WIDTH + BESIDE)
        .saturating_add(width(MARK))
        <= WIDTH - SIDE
}

/// Writes a sample of a look, and what it means.
fn write_look(text: &mut Text, look: &Look, left: u64, top: u64) {
    let mut area = Area {
        x: left,
        y: top.saturating_add(SAMPLE_TOP),
        width: SAMPLE.0,
        height: SAMPLE.1,
    };
    rectangle(text, look.classes, &area, ROUNDING);
    if look.has_edge {
        area.width = EDGE;
        rectangle(text, "edge", &area, 0);
    }
    explain(
        text,
        left.saturating_add(SAMPLE.0 + BESIDE),
        top,
        look.meaning,
    );
}

/// Writes a mark, and what it means.
fn write_mark(text: &mut Text, left: u64, top: u64) {
    let area = Area {
        x: left,
        y: top.saturating_add(MARK_LINES.0),
        width: MARK_WIDTH,
        height: MARK_HEIGHT,
    };
    rectangle(text, "mark", &area, MARK_HEIGHT / 2);
    open_text(
        text,
        "marked",
        left.saturating_add(MARK_WIDTH / 2),
        top.saturating_add(MARK_LINES.1),
        Anchor::Start,
    );
    text.word("7</text>");
    explain(text, left.saturating_add(MARK_WIDTH + BESIDE), top, MARK);
}

/// Writes what a sample means.
fn explain(text: &mut Text, left: u64, top: u64, meaning: &str) {
    open_text(text, "s", left, top.saturating_add(BASELINE), Anchor::Start);
    text.word(meaning);
    text.word("</text>");
}
