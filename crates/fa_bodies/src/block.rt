//! The structs of `fuse.h`, as blocks of bytes.

ghost use Rattle.std.specs.Prelude.{◌≡◌, ◌≤◌, ℕ, List, length, IfSome, IfNone};
ghost use Rattle.fa_bodies.specs.Fields.{Field, BeginsWith, IsSpelled, byte_count};

/// A struct of `fuse.h`: fields in a fixed order, without a gap.
pub(crate) trait Block: Sized + Drop {
    /// How many bytes it has.
    const LEN: usize;

    ghost LEN: { ℕ };

    ghost fields: { Self → List Field };

    /// The struct at the front of bytes, and what stands behind it.
    fn at(bytes: &[u8]) -> (Self, &[u8])
        requires { LEN ≤ length bytes.now }
        ensures { BeginsWith bytes.now (fields result.0) result.1.now };

    ghost sized: { (block : Self) → byte_count (fields block) ≡ LEN };
}

/// The struct at the front of bytes, and what stands behind it, if there are bytes enough.
pub(crate) fn front<B: Block>(bytes: &[u8]) -> Option<(B, &[u8])>
    ensures found { IfSome result (λ r. BeginsWith bytes.now (B.fields r.0) r.1.now) }
    ensures none { IfNone result
        ((block : B) (rest : List ℕ) → BeginsWith bytes.now (B.fields block) rest → ⊥) }
{
    if bytes.len() < B::LEN {
        return None;
    }
    Some(B::at(bytes))
}

/// The struct that bytes are as a whole.
pub(crate) fn whole<B: Block>(bytes: &[u8]) -> Option<B>
    ensures found { IfSome result (λ block. IsSpelled bytes.now (B.fields block)) }
    ensures none { IfNone result ((block : B) → IsSpelled bytes.now (B.fields block) → ⊥) }
{
    if bytes.len() != B::LEN {
        return None;
    }
    let (block, _end) = B::at(bytes);
    Some(block)
}
