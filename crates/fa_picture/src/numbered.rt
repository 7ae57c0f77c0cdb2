//! What is found by the number of a message.

ghost use Rattle.std.specs.Prelude.{◌≤◌, length};

/// What is of a message.
pub(crate) trait Numbered {
    /// The number of the message.
    fn number(&self) -> u32;
}

/// How many of these, whose numbers rise, stand before the one of this number.
pub(crate) fn count_before<T: Numbered>(rising: &[T], number: u32) -> usize
    ensures { result ≤ length rising.now }
{
    rising.partition_point(|one| one.number() < number)
}
