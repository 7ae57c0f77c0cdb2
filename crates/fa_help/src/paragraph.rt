//! The paragraph of a code.

ghost use Rattle.std.specs.Prelude.{◌≡◌, ◌↔◌, Some, IfSome, IsSome};
ghost use Rattle.fa_capture.specs.Codes.{text_of};
ghost use Rattle.fa_help.specs.Printing.{IsPrinting};

use crate::advice::lines_of;
use fa_capture::codes;
use std::fmt;

/// What is said of a code.
///
/// As text it is the line `CODE: TEXT`, and the lines behind it.
#[derive(Clone, Copy, Debug)]
pub struct Paragraph {
    pub code: u16,
    /// The text of the code.
    pub text: &'static str,
    /// Of what it is told, where, and what to look at then: lines of a label, padded to eight, a blank and a text, each with its line feed.
    pub lines: &'static str,
}

impl Paragraph {
    /// The paragraph of a code, if it is one.
    ///
    /// Takes no memory, in constant time.
    pub fn of(code: u16) -> Option<Self>
        ensures codes { IsSome result ↔ IsSome (text_of code) }
        ensures code { IfSome result (λ p. p.code ≡ code) }
        ensures text { IfSome result (λ p. Some p.text.now ≡ text_of code) }
        ensures printing { IfSome result (λ p. IsPrinting p.text.now × IsPrinting p.lines.now) }
    {
        let text = codes::text(code)?;
        let lines = lines_of(code)?;
        Some(Paragraph { code, text, lines })
    }
}

impl fmt::Display for Paragraph {
    fn fmt<W: fmt::Write>(&self, f: &mut fmt::Formatter<W>) -> fmt::Result {
        write!(f, "{}: {}\n{}", self.code, self.text, self.lines)
    }
}
