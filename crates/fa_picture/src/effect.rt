//! What requests may do to the tree.

use bitflags::Flags;
use fa_bodies::{FattrFlags, OpenFlags, RequestBody};

/// What a request may do to the tree, whatever it is answered.
#[derive(Clone, Copy)]
pub(crate) enum Effect {
    /// It acts on the tree, and leaves it as it is.
    Leaves,
    /// It may change names, types, permission bits, sizes or bytes.
    MayChange,
    /// It does not act on the tree.
    Apart,
}

impl Effect {
    /// What a request may do.
    pub fn of(body: &RequestBody<'_>) -> Effect {
        match body {
            RequestBody::Lookup { .. }
            | RequestBody::Getattr(_)
            | RequestBody::Readlink
            | RequestBody::Read(_)
            | RequestBody::Opendir(_)
            | RequestBody::Readdir(_)
            | RequestBody::Readdirplus(_) => Effect::Leaves,
            RequestBody::Open(open) => Effect::changing(open.flags.contains(OpenFlags::TRUNC)),
            RequestBody::Setattr(setattr) => {
                // Owners and times are not of the tree (this profile).
                let valid = setattr.valid();
                Effect::changing(
                    valid.contains(FattrFlags::MODE) || valid.contains(FattrFlags::SIZE),
                )
            }
            RequestBody::Symlink { .. }
            | RequestBody::Mknod { .. }
            | RequestBody::Mkdir { .. }
            | RequestBody::Unlink { .. }
            | RequestBody::Rmdir { .. }
            | RequestBody::Rename { .. }
            | RequestBody::Rename2 { .. }
            | RequestBody::Link { .. }
            | RequestBody::Write { .. }
            | RequestBody::Create { .. } => Effect::MayChange,
            RequestBody::Init(_)
            | RequestBody::Forget { .. }
            | RequestBody::BatchForget { .. }
            | RequestBody::Flush(_)
            | RequestBody::Release(_)
            | RequestBody::Releasedir(_)
            | RequestBody::Passed => Effect::Apart,
        }
    }

    /// `MayChange` if a request may change the tree, and else `Leaves`.
    fn changing(may_change: bool) -> Effect {
        if may_change {
            Effect::MayChange
        } else {
            Effect::Leaves
        }
    }

    /// The class of the style sheet that draws it.
    pub fn class(self) -> &'static str {
        match self {
            Effect::Leaves => "read",
            Effect::MayChange => "change",
            Effect::Apart => "other",
        }
    }
}
