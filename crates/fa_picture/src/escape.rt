//! Text in markup.

ghost use Rattle.std.specs.Prelude.{◌≡◌};
ghost use Rattle.fa_picture.specs.Escape.{IsWrittenFor, entity_of};

use fa_show::Text;

/// A character that markup has a meaning for, by its entity.
#[derive(Clone, Copy)]
pub(crate) enum Named {
    Less,
    Greater,
    Quote,
    Ampersand,
}

impl Named {
    /// The entity.
    fn entity(self) -> &'static str
        ensures { result.now ≡ entity_of self }
    {
        match self {
            Named::Less => "&lt;",
            Named::Greater => "&gt;",
            Named::Quote => "&quot;",
            Named::Ampersand => "&amp;",
        }
    }
}

/// What is written for a byte of text in markup.
#[derive(Clone, Copy)]
pub(crate) enum Written {
    /// The byte.
    Itself(u8),
    /// An entity.
    Entity(Named),
}

/// What is written for a byte of text in markup: no byte of text begins or ends a tag, an attribute or an entity.
#[inline(always)]
fn in_markup(byte: u8) -> Written
    ensures { IsWrittenFor byte result }
{
    match byte {
        b'<' => Written::Entity(Named::Less),
        b'>' => Written::Entity(Named::Greater),
        b'"' => Written::Entity(Named::Quote),
        b'&' => Written::Entity(Named::Ampersand),
        _ => Written::Itself(byte),
    }
}

/// Writes bytes as text in markup, or between the quotes of an attribute: `&`, `<`, `>` and `"` as entities, line feeds as they are, and in
/// the place of what else does not print question marks.
///
/// Takes no memory, in linear time.
pub fn write_content(text: &mut Text, bytes: &[u8]) {
    for byte in bytes {
        match in_markup(*byte) {
            Written::Itself(b'\n') => text.end_line(),
            Written::Itself(byte) => text.character(byte),
            Written::Entity(named) => text.word(named.entity()),
        }
    }
}

/// Writes pieces of markup, one behind the other.
///
/// Takes no memory, in linear time.
pub(crate) fn write_pieces(text: &mut Text, pieces: &[&str]) {
    for piece in pieces {
        write_markup(text, piece);
    }
}

/// Writes markup as it stands, with its line feeds.
///
/// Takes no memory, in linear time.
pub fn write_markup(text: &mut Text, markup: &str) {
    for byte in markup.as_bytes() {
        if *byte == b'\n' {
            text.end_line();
        } else {
            text.character(*byte);
        }
    }
}
