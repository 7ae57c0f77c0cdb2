//! How much of a text fits. Letters are reckoned by what they have in the middle, as a picture can't know the font.

ghost use Rattle.std.specs.Prelude.{◌<◌};

use crate::escape::{write_content, write_markup};
use fa_show::Text;

/// The letters of a text.
#[derive(Clone, Copy)]
pub(crate) enum Letters {
    /// Of 11 units.
    Small,
    /// Bold ones of 11 units.
    Bold,
    /// Of 13 units, as in the heading.
    Large,
}

impl Letters {
    /// How wide a letter is, in hundredths of a unit.
    fn width(self) -> u64
        ensures { 0 < result }
    {
        match self {
            Letters::Small => 616,
            Letters::Bold => 770,
            Letters::Large => 728,
        }
    }
}

/// Three dots in one letter, by its number.
const ELLIPSIS: &str = "&#8230;";

/// Writes as much of a text as fits in so many tenths of a unit: where something is left out, an ellipsis in its place.
pub(crate) fn write_fitted(text: &mut Text, words: &[u8], room: u64, letters: Letters) {
    let most = room.saturating_mul(10) / letters.width();
    if words.len() as u64 <= most {
        return write_content(text, words);
    }
    if most <= 1 {
        return;
    }
    if let Some((front, _)) = words.split_at_checked((most - 1) as usize) {
        write_content(text, front);
        write_markup(text, ELLIPSIS);
    }
}
