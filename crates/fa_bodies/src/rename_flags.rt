//! How RENAME2 takes a new name that is there.

ghost use Rattle.std.specs.Prelude.{◌≡◌, IfSome, IfNone};
ghost use Rattle.fa_bodies.specs.Flags.{rename_bits};

/// No flag.
const NONE: u32 = 0;

/// `RENAME_NOREPLACE` of Linux.
const NOREPLACE: u32 = 1;

/// `RENAME_EXCHANGE` of Linux.
const EXCHANGE: u32 = 2;

/// The flags of a RENAME2 that is judged (`flags` of `struct fuse_rename2_in`, those of Linux `renameat2`). With any other,
/// `RENAME_WHITEOUT` or two at once, it is read by its form alone (this profile).
#[derive(Clone, Copy, Debug, PartialEq, Eq)]
pub enum RenameFlags {
    /// None: a file that has the new name loses it, as of RENAME.
    Replace,
    /// The new name may not be there (`RENAME_NOREPLACE`).
    NoReplace,
    /// Both names are there, and each gets the other's file (`RENAME_EXCHANGE`).
    Exchange,
}

impl RenameFlags {
    /// The flags of these bits, if they are judged.
    ///
    /// Takes no memory, in constant time.
    pub fn from_bits(bits: u32) -> Option<RenameFlags>
        ensures found { IfSome result (λ flags. rename_bits flags ≡ bits) }
        ensures none { IfNone result ((flags : RenameFlags) → rename_bits flags ≡ bits → ⊥) }
    {
        match bits {
            NONE => Some(RenameFlags::Replace),
            NOREPLACE => Some(RenameFlags::NoReplace),
            EXCHANGE => Some(RenameFlags::Exchange),
            _ => None,
        }
    }
}
