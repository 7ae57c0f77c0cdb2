//! A picture, from a capture to its text.

use crate::escape::{write_content, write_markup, write_pieces};
use crate::exchanges::Exchanges;
use crate::fitting::{Letters, write_fitted};
use crate::layout::{HEADING_LINE, SIDE, WIDTH};
use crate::legend::Legend;
use crate::painting::{height, paint};
use crate::palette::STYLE;
use crate::scene::{Scene, Subject};
use crate::shapes::{Anchor, length, measure, open_text};
use crate::window::View;
use crate::words::Words;
use fa_show::Text;
use std::alloc::{AllocError, Global};

/// Whether a picture says above it what it is of.
#[derive(Clone, Copy)]
pub enum Heading {
    /// The line of the verdict, or how many messages there are.
    Verdict,
    /// Nothing, as in a page that says so itself.
    Nothing,
}

impl Heading {
    /// Where the line stands that says which messages are drawn, and where what is drawn begins.
    fn lines(self) -> (u64, u64) {
        match self {
            Heading::Verdict => (350, 440),
            Heading::Nothing => (180, 280),
        }
    }
}

/// The picture of a capture, with all places found.
#[derive(Drop)]
pub struct Drawing<'a, 'e> {
    exchanges: &'e Exchanges,
    scene: Scene<'a>,
    has_order: bool,
    words: Words,
}

impl<'a, 'e> Drawing<'a, 'e> {
    /// The picture of a capture, in which these messages go together.
    ///
    /// # Errors
    ///
    /// [`AllocError`] where memory was refused.
    ///
    /// # Cost
    ///
    /// The time of [`request_in`](fa_show::request_in) for each message of the capture up to the last one that is drawn, twice where nothing
    /// is at fault and it is not said around which message they are; for each entry of the order logarithmic time in the bars; for each bar
    /// linear time in the lanes, and constant time for each band in which it has a part. Memory for each bar, once for each of these bands,
    /// and four bytes for each entry.
    pub fn of(
        alloc: Global,
        subject: &Subject<'a, '_>,
        exchanges: &'e Exchanges,
        view: View,
    ) -> Result<Drawing<'a, 'e>, AllocError> {
        Ok(Drawing {
            exchanges,
            scene: Scene::of(alloc, subject, exchanges, view)?,
            has_order: !subject.order.is_empty(),
            words: Words::new(alloc)?,
        })
    }

    /// Writes the picture, which ends with a line feed. It is called by the line of a verdict, if there is one; else by how many messages the
    /// capture has.
    ///
    /// Takes no memory, in time linear in the messages that are drawn and in the bars, as often as these have a part in a band.
    pub fn write(&mut self, text: &mut Text, verdict: Option<&str>, heading: Heading) {
        let legend = Legend::of(&self.scene, self.exchanges.fault, self.has_order);
        let (_, top) = heading.lines();
        let bottom = top.saturating_add(height(&self.scene));
        let name = &mut self.words.title;
        name.begin(0);
        match verdict {
            Some(verdict) => name.word(verdict),
            None => name.count(self.scene.messages as usize, " message", " messages"),
        }
        self.open(text, bottom.saturating_add(legend.height()));
        self.write_heading(text, heading);
        paint(text, &mut self.words, self.exchanges, &self.scene, top);
        legend.write(text, bottom);
        write_markup(text, "</svg>\n");
    }

    /// The text of the picture under its heading: it is written twice, and first into no room, which tells how much it takes.
    fn text(&mut self, alloc: Global, verdict: Option<&str>) -> Result<Text, AllocError> {
        let mut measured = Text::new(alloc, 0, false)?;
        self.write(&mut measured, verdict, Heading::Verdict);
        let mut text = Text::new(alloc, measured.lost(), false)?;
        self.write(&mut text, verdict, Heading::Verdict);
        Ok(text)
    }

    /// Writes the beginning of a picture of this height, with its style and its background.
    fn open(&self, text: &mut Text, height: u64) {
        text.word("<svg xmlns=\"http://www.w3.org/2000/svg\" class=\"kp\" viewBox=\"0 0 ");
        length(text, WIDTH);
        text.word(" ");
        length(text, height);
        text.character(b'"');
        measure(text, "width", WIDTH);
        measure(text, "height", height);
        text.word(" role=\"img\" aria-label=\"");
        write_content(text, self.words.title.as_bytes());
        text.word("\">");
        write_pieces(text, &STYLE);
        text.word("<rect class=\"bg\"");
        measure(text, "width", WIDTH);
        measure(text, "height", height);
        text.word("/>");
    }

    /// Writes the heading, and which messages are drawn.
    fn write_heading(&self, text: &mut Text, heading: Heading) {
        if let Heading::Verdict = heading {
            open_text(text, "h", SIDE, HEADING_LINE, Anchor::Start);
            write_fitted(
                text,
                self.words.title.as_bytes(),
                WIDTH - 2 * SIDE,
                Letters::Large,
            );
            text.word("</text>");
        }
        let Some(window) = self.scene.window else {
            return;
        };
        let (subtitle, _) = heading.lines();
        open_text(text, "s", SIDE, subtitle, Anchor::Start);
        text.field("messages ", u64::from(window.first));
        text.field(" to ", u64::from(window.last));
        text.field(" of ", u64::from(self.scene.messages));
        text.word(", a column each: &gt; to the server, &lt; from it</text>");
    }
}

/// The picture of a capture: an SVG, which stands by itself, under the line of a verdict, if there is one.
///
/// Each message has a column, by its number. The bar of a request covers the columns from it to its answer. It has the operation, on what
/// this acts and what came of it, and as its title the lines that [`show`](fa_show::show) has for both messages. Its colour says whether
/// the request may change the tree; it is hollow where the answer is an error, dashed where none came, and red, with the code, at what is
/// at fault. A mark with the place of its entry stands where the order places it, at the [`moments`](crate::moments) of the entries
/// before what is at fault: read from left to right, the marks are the order. A message that is no part of a bar is a diamond.
///
/// Messages go together as [`Exchanges::of`] says. The text is printing ASCII and line feeds alone, and what comes from the capture is
/// [escaped](write_content).
///
/// # Errors
///
/// [`AllocError`] where memory was refused.
///
/// # Cost
///
/// That of [`Exchanges::of`] and [`Drawing::of`], and twice that of [`Drawing::write`]: linear time in the messages of the capture, and in
/// what is drawn of them. Memory for the text too.
pub fn picture(
    alloc: Global,
    subject: &Subject<'_, '_>,
    verdict: Option<&str>,
    view: View,
) -> Result<Text, AllocError> {
    let exchanges = Exchanges::of(alloc, &subject.capture, subject.fault)?;
    let mut drawing = Drawing::of(alloc, subject, &exchanges, view)?;
    drawing.text(alloc, verdict)
}
