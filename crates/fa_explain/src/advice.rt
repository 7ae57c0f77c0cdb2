//! What to look at.

use fa_help::Paragraph;
use fa_show::Text;

/// How many lines a paragraph has at most.
const MOST_LINES: usize = 16;

/// Which of the `look at` lines of a code's paragraph fit.
#[derive(Clone, Copy)]
pub enum Advice {
    /// The first alone.
    First,
    /// The second alone.
    Second,
    /// The third alone.
    Third,
    /// The fourth alone.
    Fourth,
    /// The first and the second.
    FirstAndSecond,
    /// The first and the third.
    FirstAndThird,
    /// The second and the third.
    SecondAndThird,
    /// All of them.
    All,
}

impl Advice {
    /// Whether the line of this place fits, counted from 0.
    fn has(self, place: usize) -> bool {
        match self {
            Advice::First => place == 0,
            Advice::Second => place == 1,
            Advice::Third => place == 2,
            Advice::Fourth => place == 3,
            Advice::FirstAndSecond => place == 0 || place == 1,
            Advice::FirstAndThird => place == 0 || place == 2,
            Advice::SecondAndThird => place == 1 || place == 2,
            Advice::All => true,
        }
    }
}

/// Writes the lines of what to look at, where a code was told: of those that stand in its paragraph ([`Paragraph::of`]), the ones that
/// fit. Nothing where the code has none.
///
/// Takes no memory, and time linear in the paragraph.
pub fn look_at(text: &mut Text, code: u16, advice: Advice) {
    let Some(paragraph) = Paragraph::of(code) else {
        return;
    };
    let mut left = paragraph.lines;
    for place in 0..MOST_LINES {
        let Some((line, behind)) = next_advice(left) else {
            break;
        };
        if advice.has(place) {
            text.word("look at  ");
            text.word(line);
            text.end_line();
        }
        left = behind;
    }
}

/// The line of what to look at for a code that has one alone, or of these the one for this case, without its label and the case.
///
/// Takes no memory, and time linear in the paragraph.
pub fn advice_of(code: u16, case: &str) -> Option<&'static str> {
    let Some(paragraph) = Paragraph::of(code) else {
        return None;
    };
    let mut left = paragraph.lines;
    for _ in 0..MOST_LINES {
        let Some((advice, behind)) = next_advice(left) else {
            break;
        };
        if case.is_empty() {
            return Some(advice);
        }
        if let Some(rest) = advice.strip_prefix(case) {
            if let Some(words) = rest.strip_prefix(": ") {
                return Some(words);
            }
        }
        left = behind;
    }
    None
}

/// The first of the lines of what to look at, without its label, and the lines behind it.
fn next_advice(lines: &'static str) -> Option<(&'static str, &'static str)> {
    let mut left = lines;
    for _ in 0..MOST_LINES {
        let Some((line, behind)) = left.split_once('\n') else {
            break;
        };
        if let Some(advice) = line.strip_prefix("look at  ") {
            return Some((advice, behind));
        }
        left = behind;
    }
    None
}
