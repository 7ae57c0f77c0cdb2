//! The tables of nodes and of file handles, and what a request finds in them.

ghost use Rattle.std.specs.Prelude.{◌≡◌, List, [], Some, IfOk, IfErr};
ghost use Rattle.fa_capture.specs.declared.codes.TheConstants.{FORGOTTEN_NODE, CLOSED_HANDLE};
ghost use Rattle.fa_bodies.specs.Requests.{request_shown};
ghost use Rattle.fa_session.specs.Events.{PlainEvent};
ghost use Rattle.fa_ledger.specs.Names.{name_at};
ghost use Rattle.fa_ledger.specs.Passing.{NamesKnown, UsesOpen};

use crate::handles::{Handle, Handles};
use crate::key::Key;
use crate::name::NodeName;
use crate::naming::{handle_used, nodes_named};
use crate::nodes::Nodes;
use fa_bodies::Request;
use fa_capture::{Seed, codes};
use std::alloc::Global;

/// The nodes that are known and the keys that are open.
#[derive(Drop)]
pub(crate) struct Tables {
    /// The nodes that are known.
    pub nodes: Nodes,
    /// The keys that are open.
    pub handles: Handles,
}

/// The names of the nodes that a request names.
#[derive(Clone, Copy, Debug)]
pub(crate) struct Names {
    /// That of the node of its header.
    pub node: NodeName,
    /// That of the new directory of RENAME and RENAME2, and of the file of LINK.
    pub other: Option<NodeName>,
}

/// The key of the file handle that a request uses, and how it is open.
#[derive(Clone, Copy, Debug)]
pub(crate) struct Used {
    pub key: Key,
    pub handle: Handle,
}

impl Tables {
    ghost use Rattle.fa_ledger.specs.parts.TableParts.{NodesShow, KeysShow, AreNamesIfAny, IsUsedIfAny};

    /// No node but the root is known, and no key is open. Both tables take memory from `alloc` later.
    pub fn new(alloc: Global, seed: Seed) -> Self
        ensures nodes { result.nodes.known.entries ≡ [] }
        ensures keys { result.handles.opened.entries ≡ [] }
    {
        Tables {
            nodes: Nodes::new(alloc, seed),
            handles: Handles::new(alloc, seed),
        }
    }

    /// The names of the nodes that a request names, if it names any. The error is the code where one of them is not known.
    #[inline(always)]
    pub fn names_of(&self, request: &Request<'_>) -> Result<Option<Names>, u16>
        ensures named { IfOk result (λ names. (es : List PlainEvent) → NodesShow es self.now.nodes.known.entries → AreNamesIfAny es (request_shown request.now) names) }
        ensures unknown { IfErr result (λ code. (code ≡ FORGOTTEN_NODE) × ((es : List PlainEvent) → NodesShow es self.now.nodes.known.entries → NamesKnown es (request_shown request.now) → ⊥)) }
    {
        let Some(named) = nodes_named(request) else {
            return Ok(None);
        };
        let Some(node) = self.nodes.name_of(named.node) else {
            return Err(codes::FORGOTTEN_NODE);
        };
        let Some(id) = named.other else {
            return Ok(Some(Names { node, other: None }));
        };
        let other = self.nodes.name_of(id);
        if other.is_none() {
            return Err(codes::FORGOTTEN_NODE);
        }
        Ok(Some(Names { node, other }))
    }

    /// The file handle that a request on a node of this name uses, if any. The error is the code where it is not open.
    #[inline(always)]
    pub fn handle_of(&self, node: NodeName, request: &Request<'_>) -> Result<Option<Used>, u16>
        ensures used { IfOk result (λ used. (es : List PlainEvent) → KeysShow es self.now.handles.opened.entries → name_at es request.now.node ≡ Some node → IsUsedIfAny es (request_shown request.now) self.now.handles.opened.entries used) }
        ensures closed { IfErr result (λ code. (code ≡ CLOSED_HANDLE) × ((es : List PlainEvent) → KeysShow es self.now.handles.opened.entries → name_at es request.now.node ≡ Some node → UsesOpen es (request_shown request.now) → ⊥)) }
    {
        let Some((fh, kind)) = handle_used(&request.body) else {
            return Ok(None);
        };
        let key = Key { node, fh, kind };
        match self.handles.get(&key) {
            Some(handle) => Ok(Some(Used { key, handle })),
            None => Err(codes::CLOSED_HANDLE),
        }
    }
}
