//! Messages that stand alone, as they are drawn.

use crate::band::Band;
use crate::diamonds::Diamond;
use crate::exchanges::Exchanges;
use crate::fault::Fault;
use crate::fitting::{Letters, write_fitted};
use crate::layout::{COLUMN, DIAMOND_LINES, PITCH};
use crate::shapes::{Anchor, length, open_group, open_text};
use crate::words::Words;
use fa_show::Text;

/// Half of the width of a diamond.
const HALF: u64 = 70;

/// Writes a message that stands alone in a band, of which the first lane begins there.
pub(crate) fn paint_diamond(
    text: &mut Text,
    words: &mut Words,
    exchanges: &Exchanges,
    diamond: &Diamond<'_>,
    band: &Band,
    top: u64,
) {
    if diamond.at < band.first {
        return;
    }
    let top = top.saturating_add(u64::from(diamond.lane) * PITCH);
    let middle = band.left_of(diamond.at).saturating_add(COLUMN / 2);
    let is_at_fault = exchanges.fault.is_at(diamond.at);
    let (group, class, letters) = if is_at_fault {
        ("flag", "err", Letters::Bold)
    } else {
        ("mark", "s", Letters::Small)
    };
    words.take_diamond(exchanges, diamond);
    open_group(text, group, words.title_lines());
    text.word("<path d=\"M");
    length(text, middle.saturating_sub(HALF));
    text.word(" ");
    length(text, top.saturating_add(DIAMOND_LINES.0));
    text.word("l7 -7 7 7 -7 7z\"/></g>");
    open_text(
        text,
        class,
        middle,
        top.saturating_add(DIAMOND_LINES.1),
        Anchor::Middle,
    );
    write_fitted(text, words.result.as_bytes(), COLUMN, letters);
    text.word("</text>");
    if is_at_fault {
        paint_code(
            text,
            exchanges.fault,
            middle,
            top.saturating_add(DIAMOND_LINES.2),
            Anchor::Middle,
        );
    }
}

/// Writes the code of what is at fault.
pub(crate) fn paint_code(text: &mut Text, fault: Fault, x: u64, y: u64, anchor: Anchor) {
    let Some((_, code)) = fault.coded() else {
        return;
    };
    open_text(text, "err", x, y, anchor);
    text.field("code ", u64::from(code));
    text.word("</text>");
}
