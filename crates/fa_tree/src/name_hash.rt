//! How a name is handed to a hasher.

ghost use Rattle.std.specs.Prelude.{◌≡◌, fold};
ghost use Rattle.fa_tree.specs.parts.NameFed.{name_fed};

use std::hash::Hasher;

/// Hands a name on, eight bytes at a time.
///
/// Of more bytes at a time the hasher multiplies eight of them, joined with its state, with eight more, joined with a constant that anyone
/// knows: names whose last eight bytes are that constant would all come to zero, whatever the state. Of eight bytes or fewer, one factor
/// has the state in it, which nobody knows who does not know the seed, and the other is a constant. A name takes as many steps as it has
/// bytes, divided by eight.
///
/// Takes no memory, and time in the bytes of the name.
pub(crate) fn feed_name<H: Hasher>(name: &[u8], state: &mut H)
    ensures { state.new ≡ fold H.write state.old (name_fed name.now) }
{
    let mut left = name;
    while left.len() > 8 {
        let (part, behind) = left.split_at(8);
        state.write(part);
        left = behind;
    }
    state.write(left);
}
