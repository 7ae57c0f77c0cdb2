//! What a reply gives, opens and settles.

ghost use Rattle.std.specs.Prelude.{◌≡◌, ◌≢◌, ◌↔◌, ℕ, List, [], ◌∷◌, map, nat_eq, All, IfOk, IfSome, IfNone, OnErr, IsTrue};
ghost use Rattle.indexmap.specs.IndexMap.{get};
ghost use Rattle.fa_bodies.specs.Dirents.{PlainDirent, dirent_shown};
ghost use Rattle.fa_bodies.specs.Listing.{entries_left};
ghost use Rattle.fa_bodies.specs.Requests.{body_shown};
ghost use Rattle.fa_bodies.specs.Replies.{reply_shown};
ghost use Rattle.fa_ledger.specs.Mentions.{node_with};
ghost use Rattle.fa_ledger.specs.Counts.{nodes_given, nodes_of_entry, nodes_of_listing};
ghost use Rattle.fa_ledger.specs.Passing.{MayBeGiven};
ghost use Rattle.std.specs.Option.{option_to_list};
ghost use Rattle.fa_ledger.specs.parts.Steps.{created_with, opened_with, given_to, SettlesTruncation, IsListedReply, IsOne, IsSeveral, given_names_shown};

use crate::key::{HandleKind, Key};
use crate::name::NodeName;
use crate::nodes::Nodes;
use bitflags::Flags;
use fa_bodies::{Dirent, Entries, InitFlags, OpenOut, ROOT_ID, Reply, RequestBody};
use std::alloc::{AllocError, Global};
use std::slice;

/// The names of the nodes that a reply gives, in its order.
#[derive(Drop)]
pub(crate) enum GivenNames {
    /// None.
    Nothing,
    /// One, without memory of its own.
    One(NodeName),
    /// Those of a listing, behind one pointer, so that what has at most one name stays small.
    Several(Box<Vec<NodeName>>),
}

impl GivenNames {
    /// The names, as a slice.
    pub fn as_slice(&self) -> &[NodeName]
        ensures { result.now ≡ given_names_shown self.now }
    {
        match self {
            GivenNames::Nothing => &[],
            GivenNames::One(name) => slice::from_ref(name),
            GivenNames::Several(names) => names,
        }
    }
}

/// The node with this id, if any: 0 stands for none.
fn node_with(nodeid: u64) -> Option<u64>
    ensures { option_to_list result ≡ node_with nodeid }
{
    if nodeid == 0 {
        return None;
    }
    Some(nodeid)
}

/// The node that an entry of a listing gives, if any: a READDIR and the entries `.` and `..` give none.
fn node_listed(dirent: &Dirent<'_>) -> Option<u64>
    ensures { option_to_list result ≡ nodes_of_entry (dirent_shown dirent.now).entry (dirent_shown dirent.now).name }
{
    let entry = dirent.entry.as_ref()?;
    if dirent.name == b".".as_slice() || dirent.name == b"..".as_slice() {
        return None;
    }
    node_with(entry.nodeid)
}

/// The node that a reply which is no listing gives, if any.
fn node_given(body: &RequestBody<'_>, reply: &Reply<'_>) -> Option<u64>
    ensures { (IsListedReply (reply_shown reply.now) → ⊥) → option_to_list result ≡ nodes_given (body_shown body.now) (reply_shown reply.now) }
{
    match reply {
        Reply::Entry(entry) => match body {
            RequestBody::Lookup { .. } => node_with(entry.nodeid()),
            RequestBody::Symlink { .. }
            | RequestBody::Mknod { .. }
            | RequestBody::Mkdir { .. }
            | RequestBody::Link { .. } => Some(entry.nodeid()),
            _ => None,
        },
        Reply::Created { entry, .. } => Some(entry.nodeid()),
        _ => None,
    }
}

/// Whether a reply may give the nodes that it gives: none of them is the root or, but for LOOKUP and READDIRPLUS, which
/// give no node by it, 0.
///
/// Takes no memory, in time linear in the entries of a listing.
#[inline(always)]
pub(crate) fn may_be_given(body: &RequestBody<'_>, reply: &Reply<'_>) -> bool
    ensures { IsTrue result ↔ All MayBeGiven (nodes_given (body_shown body.now) (reply_shown reply.now)) }
{
    match reply {
        Reply::Listed(listing) => may_be_listed(*listing),
        _ => node_given(body, reply).is_none_or(|id| id != 0 && id != ROOT_ID),
    }
}

/// Whether no entry of a listing gives the root. In constant time where it is that of a READDIR.
fn may_be_listed(listing: Entries<'_>) -> bool
    ensures { IsTrue result ↔ All MayBeGiven (nodes_of_listing (entries_left listing.entry)) }
{
    if !listing.is_plus() {
        return true;
    }
    for dirent in listing {
        if node_listed(&dirent) == Some(ROOT_ID) {
            return false;
        }
    }
    true
}

/// The names of the nodes that the reply of this number gives.
#[inline(always)]
pub(crate) fn names_given(
    alloc: Global,
    nodes: &Nodes,
    at: u32,
    body: &RequestBody<'_>,
    reply: &Reply<'_>,
) -> Result<GivenNames, AllocError>
    ensures named { IfOk result (λ given. given_names_shown given ≡ map (λ id. given_to id at (get nat_eq nodes.now.known id)) (nodes_given (body_shown body.now) (reply_shown reply.now))) }
    ensures one { IfOk result (λ given. IsOne given → IsListedReply (reply_shown reply.now) → ⊥) }
    ensures several { IfOk result (λ given. IsSeveral given → IsListedReply (reply_shown reply.now) × (nodes_given (body_shown body.now) (reply_shown reply.now) ≢ [])) }
    ensures wanted { OnErr result (IsListedReply (reply_shown reply.now) × (nodes_given (body_shown body.now) (reply_shown reply.now) ≢ [])) }
{
    match reply {
        Reply::Listed(listing) => names_listed(alloc, nodes, at, *listing),
        _ => Ok(match node_given(body, reply) {
            Some(id) => GivenNames::One(nodes.name_given(id, at)),
            None => GivenNames::Nothing,
        }),
    }
}

/// The names of the nodes that a listing gives. In constant time where it is that of a READDIR, which gives none.
#[inline(always)]
fn names_listed(
    alloc: Global,
    nodes: &Nodes,
    at: u32,
    listing: Entries<'_>,
) -> Result<GivenNames, AllocError>
    ensures named { IfOk result (λ given. given_names_shown given ≡ map (λ id. given_to id at (get nat_eq nodes.now.known id)) (nodes_of_listing (entries_left listing.entry))) }
    ensures not_one { IfOk result (λ given. IsOne given → ⊥) }
    ensures several { IfOk result (λ given. IsSeveral given → nodes_of_listing (entries_left listing.entry) ≢ []) }
    ensures wanted { OnErr result (nodes_of_listing (entries_left listing.entry) ≢ []) }
{
    if !listing.is_plus() {
        return Ok(GivenNames::Nothing);
    }
    let mut names = Vec::new(alloc);
    for dirent in listing {
        if let Some(id) = node_listed(&dirent) {
            names.push(nodes.name_given(id, at))?;
        }
    }
    if names.is_empty() {
        return Ok(GivenNames::Nothing);
    }
    Ok(GivenNames::Several(Box::new(alloc, names)?))
}

/// The key that a success opens, and how, where its request named this node, and the reply gives these.
#[inline(always)]
pub(crate) fn opened(
    node: NodeName,
    given: &[NodeName],
    body: &RequestBody<'_>,
    reply: &Reply<'_>,
) -> Option<(Key, OpenOut)>
    ensures { result ≡ opened_with node given.now (body_shown body.now) (reply_shown reply.now) }
{
    match (body, reply) {
        (RequestBody::Open(_), Reply::Opened(open)) => {
            Some((key(node, open, HandleKind::File), *open))
        }
        (RequestBody::Opendir(_), Reply::Opened(open)) => {
            Some((key(node, open, HandleKind::Directory), *open))
        }
        (RequestBody::Create { .. }, Reply::Created { .. }) => created(given, body, reply),
        _ => None,
    }
}

/// The key that CREATE opens, and how, where the reply gives these.
#[inline(always)]
pub(crate) fn created(
    given: &[NodeName],
    body: &RequestBody<'_>,
    reply: &Reply<'_>,
) -> Option<(Key, OpenOut)>
    ensures { result ≡ created_with (body_shown body.now) (reply_shown reply.now) given.now }
{
    match (body, reply) {
        (RequestBody::Create { .. }, Reply::Created { open, .. }) => {
            let [name] = given else { return None };
            Some((key(*name, open, HandleKind::File), *open))
        }
        _ => None,
    }
}

/// The key of a handle that is opened on a node.
fn key(node: NodeName, handle: &OpenOut, kind: HandleKind) -> Key
    ensures { result ≡ record { node = node; fh = handle.now.fh; kind = kind } }
{
    Key {
        node,
        fh: handle.fh,
        kind,
    }
}

/// Whether a reply settles that success of OPEN empties a file: both sides set `FUSE_ATOMIC_O_TRUNC` at INIT.
pub(crate) fn settles_truncation(body: &RequestBody<'_>, reply: &Reply<'_>) -> bool
    ensures { IsTrue result ↔ SettlesTruncation (body_shown body.now) (reply_shown reply.now) }
{
    match (body, reply) {
        (RequestBody::Init(init), Reply::Negotiated(answer)) => {
            init.agreed(answer).contains(InitFlags::ATOMIC_O_TRUNC)
        }
        _ => false,
    }
}
