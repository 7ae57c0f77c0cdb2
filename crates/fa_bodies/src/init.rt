//! What INIT asks for, and what its answer says.

ghost use Rattle.std.specs.Prelude.{refl, IfSome, IfNone};
ghost use Rattle.fa_bodies.specs.Structs.{init_in, init_out};
ghost use Rattle.fa_bodies.specs.Replies.{IsInitOut};

use crate::block::Block;
use crate::fields::u32_at;
use crate::flags::InitFlags;
use bitflags::Flags;

/// The bytes of a `struct fuse_init_out` of minors 5 to 22 (`FUSE_COMPAT_22_INIT_OUT_SIZE`).
const LEAST_INIT_OUT: usize = 24;
/// The bytes of a `struct fuse_init_out` of minor 31.
const MOST_INIT_OUT: usize = 64;

/// What the kernel asks for (`struct fuse_init_in`): its version, the bytes that it reads ahead at
/// most, and the flags that it knows.
#[derive(Clone, Copy, Debug)]
pub struct InitIn {
    pub major: u32,
    pub minor: u32,
    pub max_readahead: u32,
    pub flags: InitFlags,
}

/// What the server answers (the first fields of `struct fuse_init_out`): its version, the bytes to
/// read ahead at most, and the flags that it sets. Agreed are the flags that both sides set.
#[derive(Clone, Copy, Debug)]
pub struct Negotiated {
    pub major: u32,
    pub minor: u32,
    pub max_readahead: u32,
    pub flags: InitFlags,
}

impl InitIn {
    ghost use Rattle.std.specs.Prelude.{◌≡◌, ◌↔◌, ℕ};
    ghost use Rattle.std.specs.Int.RustNames.{bit_and};
    ghost use Rattle.fa_bodies.specs.Flags.{HasFlag, init_bits};

    /// The flags that are agreed: those that the answer sets too.
    ///
    /// Takes no memory, in constant time.
    pub fn agreed(&self, answer: &Negotiated) -> InitFlags
        ensures bits { init_bits result ≡ bit_and (init_bits self.now.flags) (init_bits answer.now.flags) }
        ensures both { (flag : ℕ) → HasFlag (init_bits result) flag ↔ (HasFlag (init_bits self.now.flags) flag × HasFlag (init_bits answer.now.flags) flag) }
    {
        InitFlags::from_bits_retain(self.flags.bits() & answer.flags.bits())
    }
}

impl Block for InitIn {
    const LEN: usize = 16;

    ghost LEN = { 16 };

    ghost fields = { init_in };

    fn at(bytes: &[u8]) -> (InitIn, &[u8]) {
        let (major, rest) = u32_at(bytes);
        let (minor, rest) = u32_at(rest);
        let (max_readahead, rest) = u32_at(rest);
        let (flags, rest) = u32_at(rest);
        let init = InitIn {
            major,
            minor,
            max_readahead,
            flags: InitFlags::from_bits_retain(flags),
        };
        (init, rest)
    }

    ghost sized = { λ block. refl };
}

impl Block for Negotiated {
    const LEN: usize = 16;

    ghost LEN = { 16 };

    ghost fields = { init_out };

    fn at(bytes: &[u8]) -> (Negotiated, &[u8]) {
        let (major, rest) = u32_at(bytes);
        let (minor, rest) = u32_at(rest);
        let (max_readahead, rest) = u32_at(rest);
        let (flags, rest) = u32_at(rest);
        let negotiated = Negotiated {
            major,
            minor,
            max_readahead,
            flags: InitFlags::from_bits_retain(flags),
        };
        (negotiated, rest)
    }

    ghost sized = { λ block. refl };
}

/// What the answer of INIT says, by its whole body.
pub(crate) fn negotiated_body(body: &[u8]) -> Option<Negotiated>
    ensures found { IfSome result (λ n. IsInitOut body.now n) }
    ensures none { IfNone result ((n : Negotiated) → IsInitOut body.now n → ⊥) }
{
    if body.len() < LEAST_INIT_OUT || body.len() > MOST_INIT_OUT {
        return None;
    }
    let (negotiated, _unread) = Negotiated::at(body);
    Some(negotiated)
}
