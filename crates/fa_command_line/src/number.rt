//! Numbers of the command line.

ghost use Rattle.std.specs.Prelude.{ℕ, IfSome, IsNone};
ghost use Rattle.std.specs.Option.{option_copied};
ghost use Rattle.fa_command_line.specs.CommandLine.{IsNumberIfAny, IsNoNumber, IsNumberText};

/// The number that a text is in decimal digits.
pub(crate) fn number(text: &str) -> Option<u32>
    ensures found { IfSome result (IsNumberText 32 text.now) }
    ensures none { IsNone result → (number : ℕ) → IsNumberText 32 text.now number → ⊥ }
{
    text.parse().ok()
}

/// The same of a number of 64 bits.
fn wide_number(text: &str) -> Option<u64>
    ensures found { IfSome result (IsNumberText 64 text.now) }
    ensures none { IsNone result → (number : ℕ) → IsNumberText 64 text.now number → ⊥ }
{
    text.parse().ok()
}

/// The number that a text is, where there is one.
pub(crate) fn number_if_any(text: Option<&str>) -> Option<Option<u32>>
    ensures found { IfSome result (IsNumberIfAny 32 (option_copied text.entry)) }
    ensures none { IsNone result → IsNoNumber 32 (option_copied text.entry) }
{
    match text {
        Some(text) => Some(Some(number(text)?)),
        None => Some(None),
    }
}

/// The same of a number of 64 bits.
pub(crate) fn wide_number_if_any(text: Option<&str>) -> Option<Option<u64>>
    ensures found { IfSome result (IsNumberIfAny 64 (option_copied text.entry)) }
    ensures none { IsNone result → IsNoNumber 64 (option_copied text.entry) }
{
    match text {
        Some(text) => Some(Some(wide_number(text)?)),
        None => Some(None),
    }
}
