//! A page, from a verdict to its text.

use crate::drawing::{Drawing, Heading};
use crate::escape::{write_content, write_markup, write_pieces};
use crate::exchanges::Exchanges;
use crate::outcome::Outcome;
use crate::reasons::write_reasons;
use crate::rows::write_rows;
use crate::scene::Subject;
use crate::script::SCRIPT;
use crate::style::BEHIND_TITLE;
use crate::table::Table;
use crate::window::{DEFAULT_MESSAGES, View};
use fa_show::Text;
use std::alloc::{AllocError, Global};

/// How many messages the table of a page has, where nothing else is asked for.
pub const DEFAULT_ROWS: u32 = 160;

/// How many bytes there is room for in the line of a message. Where names and data are shortened, it has fewer.
const LINE_ROOM: usize = 16_384;

/// The beginning of a page, up to its title: it takes nothing from elsewhere.
const HEAD: &str =
    "<!doctype html>\n<html lang=\"en\"><head><meta charset=\"utf-8\"><meta name=\"viewport\" content=\"width=device-width,initial-scale=1\">\n<meta http-equiv=\"Content-Security-Policy\" content=\"default-src 'none'; style-src 'unsafe-inline'; script-src 'unsafe-inline'\">\n<title>";

/// The heading of the messages, the filter, which is hidden until the script is there, and the heads of the columns.
const FILTER: &str =
    "<h2>Messages</h2>\n<div class=\"tools\" id=\"tools\" hidden><input id=\"filter\" type=\"search\" placeholder=\"filter: words such as  node 2  or  ENOENT\" aria-label=\"filter\"><span class=\"s\" id=\"told\"></span></div>\n<table><thead><tr><th>message</th><th>unique</th><th>what it says</th><th>entry</th></tr></thead><tbody>\n";

/// What stands behind the messages.
static END: [&str; 3] = [
    "</tbody></table></main><script>",
    SCRIPT,
    "</script></body></html>\n",
];

/// What a page tells of what was judged.
#[derive(Clone, Copy)]
pub struct Findings<'t> {
    /// What the verdict says of the server.
    pub outcome: Outcome,
    /// The line of the verdict, without a line feed.
    pub verdict: &'t str,
    /// The lines behind it, each of a label, padded to eight characters, a blank and a text, as `fa_explain` and `fa_explain_order` tell
    /// them.
    pub reasons: &'t Text,
    /// What was judged, as the names of files.
    pub source: &'t str,
}

/// What a page has of a capture.
#[derive(Drop)]
struct Page<'a, 'e> {
    exchanges: &'e Exchanges,
    drawing: Drawing<'a, 'e>,
    table: Table<'a>,
    /// How many messages the capture has.
    messages: u32,
    /// The line of the message that is written next.
    line: Text,
}

impl<'a, 'e> Page<'a, 'e> {
    /// What a page has of a capture in which these messages go together, with this table and a picture around the message that the view
    /// says.
    fn of(
        alloc: Global,
        subject: &Subject<'a, '_>,
        exchanges: &'e Exchanges,
        table: Table<'a>,
        view: View,
    ) -> Result<Page<'a, 'e>, AllocError> {
        let drawn = View {
            around: view.around,
            messages: DEFAULT_MESSAGES,
        };
        Ok(Page {
            exchanges,
            line: Text::new(alloc, LINE_ROOM, false)?,
            drawing: Drawing::of(alloc, subject, exchanges, drawn)?,
            table,
            messages: subject.capture.messages,
        })
    }

    /// The text of the page: it is written twice, and first into no room, which tells how much it takes.
    fn text(&mut self, alloc: Global, findings: Findings<'_>) -> Result<Text, AllocError> {
        let mut measured = Text::new(alloc, 0, false)?;
        self.write(&mut measured, findings);
        let mut text = Text::new(alloc, measured.lost(), false)?;
        self.write(&mut text, findings);
        Ok(text)
    }

    /// Writes the page.
    fn write(&mut self, text: &mut Text, findings: Findings<'_>) {
        write_beginning(text, findings, &self.table);
        write_markup(text, "<h2>The requests around it</h2>\n");
        self.drawing
            .write(text, Some(findings.verdict), Heading::Nothing);
        write_markup(text, FILTER);
        write_rows(
            text,
            &mut self.line,
            &self.table,
            self.exchanges,
            self.messages,
        );
        write_pieces(text, &END);
    }
}

/// Writes the beginning of a page: the verdict, what was judged, and the reasons.
fn write_beginning(text: &mut Text, findings: Findings<'_>, table: &Table<'_>) {
    let verdict = findings.verdict.as_bytes();
    write_markup(text, HEAD);
    write_content(text, verdict);
    write_pieces(text, &BEHIND_TITLE);
    text.word(findings.outcome.opening_tag());
    write_content(text, verdict);
    write_markup(text, "</h1>\n<p class=\"s\">");
    write_content(text, findings.source.as_bytes());
    write_markup(text, "</p>\n");
    write_reasons(text, findings.reasons.as_bytes(), table);
}

/// A verdict as an HTML page that stands by itself.
///
/// The page has the verdict, what was judged, the reasons, the [picture](crate::picture) of the requests around a message, and a table of
/// as many messages around the same one as the view says, and of those to which the reasons link, each with the one that goes with it. A
/// script in the page lets those messages be chosen that have some words; without it the table is whole. Nothing is taken from elsewhere,
/// which the page forbids itself. The text is printing ASCII and line feeds alone, and what comes from the capture or was handed in is
/// escaped.
///
/// # Errors
///
/// [`AllocError`] where memory was refused.
///
/// # Cost
///
/// That of [`Exchanges::of`] and [`Drawing::of`], a walk over the messages, sorting the numbers of those in the table, and twice the time
/// of writing: linear in the messages of the capture, in what is drawn of them, and in what the page has. Memory for these numbers and
/// messages, and for the text.
pub fn report(
    alloc: Global,
    subject: &Subject<'_, '_>,
    findings: Findings<'_>,
    view: View,
) -> Result<Text, AllocError> {
    let exchanges = Exchanges::of(alloc, &subject.capture, subject.fault)?;
    let table = Table::of(
        alloc,
        subject,
        &exchanges,
        findings.reasons.as_bytes(),
        view,
    )?;
    let mut page = Page::of(alloc, subject, &exchanges, table, view)?;
    page.text(alloc, findings)
}
