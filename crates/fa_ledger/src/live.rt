//! What is alive behind the messages of a stream, and how one event changes it.

ghost use Rattle.std.specs.Prelude.{◌≡◌, ◌∷◌, ◌++◌, [], List, All, IfErr, OnOk, OnErr, Some, nat_eq};
ghost use Rattle.std.specs.Map.{lookup};
ghost use Rattle.fa_capture.specs.Checks.{AllHold};
ghost use Rattle.fa_capture.specs.Message.{Message};
ghost use Rattle.fa_bodies.specs.Requests.{request_shown, body_shown};
ghost use Rattle.fa_bodies.specs.Replies.{reply_shown};
ghost use Rattle.fa_session.specs.Events.{PlainEvent, event_shown};
ghost use Rattle.fa_session.specs.Events.PlainEvent.{Asked, Answered};
ghost use Rattle.fa_ledger.specs.Counts.{nodes_given, request_takes};
ghost use Rattle.fa_ledger.specs.Names.{name_at};
ghost use Rattle.fa_ledger.specs.Passing.{MayBeGiven, ledger_checks};
ghost use Rattle.fa_ledger.specs.Refusals.{GivesMore};
ghost use Rattle.fa_ledger.specs.Standing.{OpensItsNode, IsMoreStanding};

use crate::error::LedgerError;
use crate::giving::{created, may_be_given, names_given, opened};
use crate::key::Key;
use crate::name::NodeName;
use crate::naming::{is_closing, opens_its_node};
use crate::tables::{Tables, Used};
use fa_bodies::{OpenOut, Reply, Request, RequestBody};
use fa_capture::{Seed, codes};
use fa_session::{Event, ReplyMessages};
use indexmap::IndexMap;
use std::alloc::{AllocError, Global};

/// What is alive: nodes that are known, file handles that are open, openings that wait for their answers.
#[derive(Drop)]
pub(crate) struct Live {
    /// Where names of nodes are kept.
    pub alloc: Global,
    /// The nodes that are known and the keys that are open.
    pub tables: Tables,
    /// For each OPEN and OPENDIR that waits for its answer, by the number of its message, the name that its node had when it was
    /// asked.
    pub opening: IndexMap<u32, NodeName, Seed>,
}

impl Live {
    ghost use Rattle.fa_ledger.specs.parts.LiveParts.{LiveShows, StandBefore, Stands, WhereStands, ShowNext, AreSame, opened_under};
    ghost use Rattle.fa_ledger.specs.parts.TableParts.{asked_checks, IsAskedRefusal, IsAnsweredRefusal, IsLedgerRefusal, IsUsedIfAny};

    /// What is alive before any event: the root. Its tables take memory from `alloc` later.
    pub fn new(alloc: Global, seed: Seed) -> Self
        ensures { LiveShows [] result }
    {
        Live {
            alloc,
            tables: Tables::new(alloc, seed),
            opening: IndexMap::with_hasher(alloc, seed),
        }
    }

    /// Notes an event, if its message keeps the rules of nodes and file handles.
    pub fn note(&mut self, event: &Event<'_>) -> Result<(), LedgerError>
        requires { StandBefore (event_shown event.now) self.old }
        ensures keeps { OnOk result (WhereStands (event_shown event.now) self.old (λ c m es. AllHold (ledger_checks c m))) }
        ensures shows { OnOk result (ShowNext (event_shown event.now) self.old self.new) }
        ensures refused { IfErr result (λ error. WhereStands (event_shown event.now) self.old (λ c m es. IsLedgerRefusal c m (IsMoreStanding es (event_shown event.now)) error)) }
        ensures unchanged { OnErr result (AreSame self.old self.new) }
    {
        match event {
            Event::Asked { at, message } => self.note_request(*at, &message.request),
            Event::Answered {
                at,
                asked,
                messages,
                ..
            } => self.note_reply(*at, *asked, messages),
            Event::Notice { .. } => Ok(()),
        }
    }

    /// Notes the request of this number, if it keeps the rules of nodes and file handles.
    fn note_request(&mut self, at: u32, request: &Request<'_>) -> Result<(), LedgerError>
        requires { StandBefore (Asked at (request_shown request.now)) self.old }
        ensures keeps { OnOk result (WhereStands (Asked at (request_shown request.now)) self.old (λ c m es. AllHold (asked_checks es (request_shown request.now)))) }
        ensures shows { OnOk result (ShowNext (Asked at (request_shown request.now)) self.old self.new) }
        ensures refused { IfErr result (λ error. WhereStands (Asked at (request_shown request.now)) self.old (λ c m es. IsAskedRefusal es (request_shown request.now) (OpensItsNode (body_shown request.now.body)) error)) }
        ensures unchanged { OnErr result (AreSame self.old self.new) }
    {
        match &request.body {
            RequestBody::Forget { nlookup } => self.tables.nodes.forget(request.node, *nlookup)?,
            RequestBody::BatchForget { items, .. } => self.tables.nodes.forget_all(items)?,
            _ => {
                if let Some(names) = self.tables.names_of(request)? {
                    let used = self.tables.handle_of(names.node, request)?;
                    self.note_use(at, request, names.node, used)?;
                }
            }
        }
        Ok(())
    }

    /// Notes a request on a node of this name that uses this file handle: one that opens under the name waits, and a closing closes
    /// its handle once.
    fn note_use(
        &mut self,
        at: u32,
        request: &Request<'_>,
        node: NodeName,
        used: Option<Used>,
    ) -> Result<(), AllocError>
        requires { (c : List Message) × (m : Message) × (es : List PlainEvent) × Stands c m es (Asked at (request_shown request.now)) self.old × IsUsedIfAny es (request_shown request.now) self.old.tables.handles.opened.entries used × (request_takes (request_shown request.now) ≡ []) }
        ensures shows { OnOk result (WhereStands (Asked at (request_shown request.now)) self.old (λ c m es. name_at es request.now.node ≡ Some node → IsUsedIfAny es (request_shown request.now) self.old.tables.handles.opened.entries used → LiveShows (es ++ Asked at (request_shown request.now) ∷ []) self.new)) }
        ensures wanted { OnErr result (OpensItsNode (body_shown request.now.body)) }
        ensures unchanged { OnErr result (AreSame self.old self.new) }
    {
        if opens_its_node(&request.body) {
            self.opening.insert(at, node)?;
        } else if is_closing(&request.body) {
            if let Some(used) = used {
                self.tables.handles.close(&used.key);
            }
        }
        Ok(())
    }

    /// Notes the answer of this number to a request, if it gives no node that it may not give.
    fn note_reply(
        &mut self,
        at: u32,
        asked: u32,
        messages: &ReplyMessages<'_>,
    ) -> Result<(), LedgerError>
        requires { StandBefore (Answered at asked (request_shown messages.now.to.request) (reply_shown messages.now.reply)) self.old }
        ensures allowed { OnOk result (All MayBeGiven (nodes_given (body_shown messages.now.to.request.body) (reply_shown messages.now.reply))) }
        ensures shows { OnOk result (ShowNext (Answered at asked (request_shown messages.now.to.request) (reply_shown messages.now.reply)) self.old self.new) }
        ensures refused { IfErr result (λ error. WhereStands (Answered at asked (request_shown messages.now.to.request) (reply_shown messages.now.reply)) self.old (λ c m es. IsAnsweredRefusal (request_shown messages.now.to.request) (reply_shown messages.now.reply) (GivesMore es at asked (request_shown messages.now.to.request) (reply_shown messages.now.reply)) error)) }
        ensures unchanged { OnErr result (AreSame self.old self.new) }
    {
        if !may_be_given(&messages.to.request.body, &messages.reply) {
            return Err(LedgerError::Refused(codes::NODE_ID_NOT_ALLOWED));
        }
        self.note_answer(at, asked, messages)?;
        Ok(())
    }

    /// Notes the answer of this number: what it gives and what it opens.
    fn note_answer(
        &mut self,
        at: u32,
        asked: u32,
        messages: &ReplyMessages<'_>,
    ) -> Result<(), AllocError>
        requires stands { StandBefore (Answered at asked (request_shown messages.now.to.request) (reply_shown messages.now.reply)) self.old }
        requires allowed { All MayBeGiven (nodes_given (body_shown messages.now.to.request.body) (reply_shown messages.now.reply)) }
        ensures shows { OnOk result (ShowNext (Answered at asked (request_shown messages.now.to.request) (reply_shown messages.now.reply)) self.old self.new) }
        ensures wanted { OnErr result (WhereStands (Answered at asked (request_shown messages.now.to.request) (reply_shown messages.now.reply)) self.old (λ c m es. GivesMore es at asked (request_shown messages.now.to.request) (reply_shown messages.now.reply))) }
        ensures unchanged { OnErr result (AreSame self.old self.new) }
    {
        let body = &messages.to.request.body;
        let reply = &messages.reply;
        let given = names_given(self.alloc, &self.tables.nodes, at, body, reply)?;
        let names = given.as_slice();
        let opened = self.opened(asked, names, body, reply);
        // All room first.
        self.tables.nodes.reserve(names)?;
        self.tables.handles.reserve(&opened)?;
        // Nothing fails from here on.
        self.tables.nodes.give(names, at);
        self.tables.handles.note_opened(asked, opened);
        self.opening.swap_remove(&asked);
        Ok(())
    }

    /// The key that the answer to the request of this number opens, and how, where it gives these.
    fn opened(
        &self,
        asked: u32,
        given: &[NodeName],
        body: &RequestBody<'_>,
        reply: &Reply<'_>,
    ) -> Option<(Key, OpenOut)>
        ensures { result ≡ opened_under (lookup (nat_eq asked) self.now.opening.entries) given.now (body_shown body.now) (reply_shown reply.now) }
    {
        match self.opening.get(&asked) {
            Some(name) => opened(*name, given, body, reply),
            None => created(given, body, reply),
        }
    }
}
