//! What the messages before one say of nodes, and of a file handle.

ghost use Rattle.std.specs.Prelude.{[]};
ghost use Rattle.fa_session.specs.Shows.{Shows};

use crate::exchange::Answered;
use crate::given::{Given, Handle, Opened, node_listed};
use crate::handles::HandlePast;
use crate::nodes::NodePast;
use fa_bodies::{ROOT_ID, Reply, Request, RequestBody, items};
use fa_capture::limits::MAX_MESSAGES;
use fa_capture::{Capture, Seed};
use fa_session::{Event, Session, SessionError};
use indexmap::IndexMap;
use std::alloc::{AllocError, Global};

/// What the messages so far say of some nodes, and of a file handle.
#[derive(Drop)]
pub(crate) struct Past {
    nodes: IndexMap<u64, NodePast, Seed>,
    /// What is said of the file handle that was asked for.
    pub handle: Option<HandlePast>,
    /// Whether memory was refused to a node that is asked for.
    lacks_memory: bool,
}

impl Past {
    /// No message came, and nothing is asked for.
    pub fn new(alloc: Global, seed: Seed) -> Self {
        Past {
            nodes: IndexMap::with_hasher(alloc, seed),
            handle: None,
            lacks_memory: false,
        }
    }

    /// Asks for what is said of a node. That memory was refused is told when the messages are read.
    pub fn ask_for(&mut self, node: u64) {
        if !self.lacks_memory && self.nodes.insert(node, NodePast::default()).is_err() {
            self.lacks_memory = true;
        }
    }

    /// Asks for what is said of a file handle, and of its node.
    pub fn ask_for_handle(&mut self, handle: Handle) {
        self.ask_for(handle.node);
        self.handle = Some(HandlePast::of(handle));
    }

    /// What is said of a node that was asked for.
    pub fn node(&self, node: u64) -> NodePast {
        match self.nodes.get(&node) {
            Some(past) => *past,
            None => NodePast::default(),
        }
    }

    /// Notes the messages before the one of this number.
    pub fn read(
        &mut self,
        alloc: Global,
        capture: &Capture<'_>,
        number: u32,
    ) -> Result<(), AllocError> {
        if self.lacks_memory {
            return Err(AllocError);
        }
        let mut session = Session::new(alloc, capture.seed);
        self.read_in(&mut session, capture, number)
    }

    /// The same with a session lent, in which no message came.
    fn read_in<'a>(
        &mut self,
        session: &mut Session<'a>,
        capture: &Capture<'a>,
        number: u32,
    ) -> Result<(), AllocError>
        requires { Shows [] session.old }
    {
        let mut packets = capture.packets();
        for taken in 0..(number as usize).min(MAX_MESSAGES) {
            let Some(packet) = packets.next() else {
                break;
            };
            match session.accept(&packet) {
                Ok(event) => self.note(&event),
                Err(SessionError::Refused(_)) => break,
                Err(SessionError::Memory) => return Err(AllocError),
            }
        }
        Ok(())
    }

    /// Notes a message.
    fn note(&mut self, event: &Event<'_>) {
        match event {
            Event::Asked { at, message } => self.asked(*at, &message.request),
            Event::Answered {
                at,
                asked,
                messages,
                ..
            } => {
                let answered = Answered {
                    at: *at,
                    asked: *asked,
                };
                self.answered(answered, &messages.to.request, &messages.reply);
            }
            Event::Notice { .. } => {}
        }
    }

    /// Notes a request.
    fn asked(&mut self, at: u32, request: &Request<'_>) {
        match &request.body {
            RequestBody::Forget { nlookup } => self.take(at, request.node, *nlookup),
            RequestBody::BatchForget { items: bytes, .. } => {
                for (node, nlookup) in items(bytes) {
                    self.take(at, node, nlookup);
                }
            }
            RequestBody::Release(release) | RequestBody::Releasedir(release) => {
                if let Some(handle) = &mut self.handle {
                    handle.close(at, Handle::of(request, release.fh));
                }
            }
            _ => {}
        }
    }

    /// Notes a reply.
    fn answered(&mut self, answered: Answered, request: &Request<'_>, reply: &Reply<'_>) {
        match Given::by(request, reply) {
            Given::Nothing => {}
            Given::One(node) => self.give(answered, node),
            Given::Listed(entries) => {
                for dirent in entries {
                    if let Some(node) = node_listed(&dirent) {
                        self.give(answered, node);
                    }
                }
            }
        }
        if let Some(opened) = Opened::by(request, reply) {
            self.open(answered, opened);
        }
    }

    /// Notes that an answer gives a node.
    fn give(&mut self, answered: Answered, node: u64) {
        let Some(past) = self.nodes.get_mut(&node) else {
            return;
        };
        if !past.is_known() {
            if let Some(handle) = &mut self.handle {
                handle.node_begins_anew(node, past.taken);
            }
        }
        past.give(answered);
    }

    /// Notes that a request takes lookups of a node back.
    pub fn take(&mut self, at: u32, node: u64, nlookup: u64) {
        if let Some(past) = self.nodes.get_mut(&node) {
            past.take(at, nlookup);
        }
    }

    /// Notes that an answer opens a handle.
    fn open(&mut self, answered: Answered, opened: Opened) {
        let node = opened.handle.node;
        let is_lasting = opened.is_on_given
            || node == ROOT_ID
            || self.node(node).is_known_since(answered.asked);
        if let Some(handle) = &mut self.handle {
            handle.open(answered, opened.handle, is_lasting);
        }
    }
}
