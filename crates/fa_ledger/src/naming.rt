//! What a request names: nodes, a file handle, an offset; and what its success does.

ghost use Rattle.std.specs.Prelude.{◌≡◌, ◌↔◌, List, [], IsTrue};
ghost use Rattle.std.specs.Option.{option_map_or};
ghost use Rattle.fa_bodies.specs.FlagBits.{atomic_o_trunc};
ghost use Rattle.fa_bodies.specs.Requests.{body_shown, request_shown};
ghost use Rattle.fa_session.specs.Events.{PlainEvent};
ghost use Rattle.fa_ledger.specs.Calls.{IsNegotiatedFlag, Truncates};
ghost use Rattle.fa_ledger.specs.Handles.{is_closing};
ghost use Rattle.fa_ledger.specs.Listings.{offset_asked};
ghost use Rattle.fa_ledger.specs.Keys.{handle_used};
ghost use Rattle.fa_ledger.specs.Kinds.{IsTreeRequest};
ghost use Rattle.fa_ledger.specs.Names.{nodes_named};
ghost use Rattle.fa_ledger.specs.Standing.{OpensItsNode};
ghost use Rattle.fa_ledger.specs.parts.Steps.{named_list};

use crate::key::HandleKind;
use bitflags::Flags;
use fa_bodies::{FattrFlags, GetattrFlags, OpenFlags, Request, RequestBody};

/// The nodes that a request names.
#[derive(Clone, Copy, Debug)]
pub(crate) struct Named {
    /// That of its header.
    pub node: u64,
    /// The new directory of RENAME and RENAME2, and the file of LINK.
    pub other: Option<u64>,
}

/// The nodes that a request names, if any.
pub(crate) fn nodes_named(request: &Request<'_>) -> Option<Named>
    ensures { option_map_or named_list result [] ≡ nodes_named (request_shown request.now) }
{
    let other = match &request.body {
        RequestBody::Forget { .. }
        | RequestBody::Init(_)
        | RequestBody::BatchForget { .. }
        | RequestBody::Passed => return None,
        RequestBody::Rename { newdir, .. } | RequestBody::Rename2 { newdir, .. } => Some(*newdir),
        RequestBody::Link { oldnodeid, .. } => Some(*oldnodeid),
        RequestBody::Lookup { .. }
        | RequestBody::Getattr(_)
        | RequestBody::Setattr(_)
        | RequestBody::Readlink
        | RequestBody::Symlink { .. }
        | RequestBody::Mknod { .. }
        | RequestBody::Mkdir { .. }
        | RequestBody::Unlink { .. }
        | RequestBody::Rmdir { .. }
        | RequestBody::Open(_)
        | RequestBody::Read(_)
        | RequestBody::Write { .. }
        | RequestBody::Release(_)
        | RequestBody::Flush(_)
        | RequestBody::Opendir(_)
        | RequestBody::Readdir(_)
        | RequestBody::Releasedir(_)
        | RequestBody::Create { .. }
        | RequestBody::Readdirplus(_) => None,
    };
    Some(Named {
        node: request.node,
        other,
    })
}

/// The number and the kind of the file handle that a request uses, if any.
#[inline(always)]
pub(crate) fn handle_used(body: &RequestBody<'_>) -> Option<(u64, HandleKind)>
    ensures { result ≡ handle_used (body_shown body.now) }
{
    match body {
        RequestBody::Getattr(getattr) => {
            let used = getattr.getattr_flags.contains(GetattrFlags::FH);
            used.then_some((getattr.fh, HandleKind::File))
        }
        RequestBody::Setattr(setattr) => {
            let used = setattr.valid().contains(FattrFlags::FH);
            used.then_some((setattr.fh(), HandleKind::File))
        }
        RequestBody::Read(read) => Some((read.fh, HandleKind::File)),
        RequestBody::Write { fh, .. } => Some((*fh, HandleKind::File)),
        RequestBody::Release(release) => Some((release.fh, HandleKind::File)),
        RequestBody::Flush(flush) => Some((flush.fh, HandleKind::File)),
        RequestBody::Readdir(read) | RequestBody::Readdirplus(read) => {
            Some((read.fh, HandleKind::Directory))
        }
        RequestBody::Releasedir(release) => Some((release.fh, HandleKind::Directory)),
        _ => None,
    }
}

/// The offset at which a request begins to list a directory, if it lists one.
pub(crate) fn offset_asked(body: &RequestBody<'_>) -> Option<u64>
    ensures { result ≡ offset_asked (body_shown body.now) }
{
    match body {
        RequestBody::Readdir(read) | RequestBody::Readdirplus(read) => Some(read.offset),
        _ => None,
    }
}

/// Whether a request acts on the tree.
pub(crate) fn is_tree_request(body: &RequestBody<'_>) -> bool
    ensures { IsTrue result ↔ IsTreeRequest (body_shown body.now) }
{
    !matches!(
        body,
        RequestBody::Init(_)
            | RequestBody::Forget { .. }
            | RequestBody::BatchForget { .. }
            | RequestBody::Flush(_)
            | RequestBody::Release(_)
            | RequestBody::Releasedir(_)
            | RequestBody::Passed
    )
}

/// Whether a request closes one opening of its handle.
pub(crate) fn is_closing(body: &RequestBody<'_>) -> bool
    ensures { result ≡ is_closing (body_shown body.now) }
{
    matches!(body, RequestBody::Release(_) | RequestBody::Releasedir(_))
}

/// Whether its success opens a handle under the name that the node of its header had when it was asked.
pub(crate) fn opens_its_node(body: &RequestBody<'_>) -> bool
    ensures { IsTrue result ↔ OpensItsNode (body_shown body.now) }
{
    matches!(body, RequestBody::Open(_) | RequestBody::Opendir(_))
}

/// Whether success empties a file that is there, where OPEN may do so or not.
pub(crate) fn truncates(body: &RequestBody<'_>, truncating: bool) -> bool
    ensures { (es : List PlainEvent) → (IsTrue truncating ↔ IsNegotiatedFlag es atomic_o_trunc) → IsTrue result ↔ Truncates es (body_shown body.now) }
{
    match body {
        RequestBody::Open(open) => truncating && open.flags.contains(OpenFlags::TRUNC),
        RequestBody::Create { flags, .. } => flags.contains(OpenFlags::TRUNC),
        _ => false,
    }
}
