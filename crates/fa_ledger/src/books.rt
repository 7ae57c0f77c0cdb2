//! What a ledger keeps, and how one event changes it.

ghost use Rattle.std.specs.Prelude.{◌≡◌, ◌<◌, ◌∷◌, ◌++◌, [], ℕ, List, All, None, Some, IfErr, OnOk, OnErr, map};
ghost use Rattle.fa_capture.specs.Checks.{AllHold};
ghost use Rattle.fa_capture.specs.Message.{Message};
ghost use Rattle.fa_bodies.specs.Requests.{request_shown, body_shown};
ghost use Rattle.fa_bodies.specs.Replies.{reply_shown};
ghost use Rattle.fa_session.specs.Events.{PlainEvent, event_shown};
ghost use Rattle.fa_session.specs.Events.PlainEvent.{Asked, Answered};
ghost use Rattle.fa_ledger.specs.declared.error.LedgerError.TheVariants.{Memory};
ghost use Rattle.fa_ledger.specs.Counts.{nodes_given, request_takes};
ghost use Rattle.fa_ledger.specs.Kinds.{IsTreeRequest};
ghost use Rattle.fa_ledger.specs.Passing.{MayBeGiven, ledger_checks};
ghost use Rattle.fa_ledger.specs.Calls.{PlainCall};
ghost use Rattle.fa_ledger.specs.Refusals.{IsMoreKept};
ghost use Rattle.fa_ledger.specs.Listings.{offset_asked};
ghost use Rattle.fa_ledger.specs.parts.CallParts.{WaitsAt, waiting_of};
ghost use Rattle.fa_ledger.specs.parts.ListingParts.{place_of, listing_by, ListsStillIfAny};

use crate::call::{Call, Listing};
use crate::call_book::CallBook;
use crate::error::LedgerError;
use crate::giving::{may_be_given, names_given, opened, settles_truncation};
use crate::key::Key;
use crate::listings::{ListedOn, Listings, entries_count};
use crate::messages::CallMessages;
use crate::name::NodeName;
use crate::naming::{handle_used, is_closing, is_tree_request, offset_asked, truncates};
use crate::row::WaitingCall;
use crate::tables::{Names, Tables, Used};
use fa_bodies::{Reply, RequestBody};
use fa_capture::{Seed, codes};
use fa_session::{Event, ReplyMessages, RequestMessage};
use std::alloc::Global;

/// The books of a ledger: nodes, file handles, where offsets were last reached, and calls.
#[derive(Drop)]
pub(crate) struct Books<'a> {
    /// Where names of nodes are kept.
    pub alloc: Global,
    /// Whether both sides set `FUSE_ATOMIC_O_TRUNC` at INIT.
    pub truncating: bool,
    /// The nodes that are known and the keys that are open.
    pub tables: Tables,
    /// Where the offsets of the directories that are open were last reached.
    pub listings: Listings,
    /// The calls so far.
    pub calls: CallBook<'a>,
}

impl<'a> Books<'a> {
    ghost use Rattle.fa_ledger.specs.parts.BookParts.{BooksShow, StandBefore, Stands, WhereStands, ShowNext, AreSame};
    ghost use Rattle.fa_ledger.specs.parts.TableParts.{AreNames, IsUsedIfAny, asked_checks, IsAskedRefusal, IsAnsweredRefusal, IsLedgerRefusal};

    /// Books of no events. What they store later takes memory from `alloc`.
    pub fn new(alloc: Global, seed: Seed) -> Self
        ensures { BooksShow [] result }
    {
        Books {
            alloc,
            truncating: false,
            tables: Tables::new(alloc, seed),
            listings: Listings::new(alloc, seed),
            calls: CallBook::new(alloc),
        }
    }

    /// Notes an event, if its message keeps the rules of nodes and file handles.
    #[inline(always)]
    pub fn note(&mut self, event: &Event<'a>) -> Result<(), LedgerError>
        requires { StandBefore (event_shown event.now) self.old }
        ensures keeps { OnOk result (WhereStands (event_shown event.now) self.old (λ c m es. AllHold (ledger_checks c m))) }
        ensures shows { OnOk result (ShowNext (event_shown event.now) self.old self.new) }
        ensures refused { IfErr result (λ error. WhereStands (event_shown event.now) self.old (λ c m es. IsLedgerRefusal c m (IsMoreKept es (event_shown event.now)) error)) }
        ensures unchanged { OnErr result (AreSame self.old self.new) }
    {
        match event {
            Event::Asked { at, message } => self.note_request(*at, message),
            Event::Answered {
                at,
                asked,
                tag,
                messages,
            } => self.note_reply(*at, *asked, *tag, messages),
            Event::Notice { .. } => Ok(()),
        }
    }

    /// Notes the request of this number, if it keeps the rules of nodes and file handles.
    #[inline(always)]
    fn note_request(&mut self, at: u32, message: &RequestMessage<'a>) -> Result<(), LedgerError>
        requires { StandBefore (Asked at (request_shown message.now.request)) self.old }
        ensures keeps { OnOk result (WhereStands (Asked at (request_shown message.now.request)) self.old (λ c m es. AllHold (asked_checks es (request_shown message.now.request)))) }
        ensures shows { OnOk result (ShowNext (Asked at (request_shown message.now.request)) self.old self.new) }
        ensures refused { IfErr result (λ error. WhereStands (Asked at (request_shown message.now.request)) self.old (λ c m es. IsAskedRefusal es (request_shown message.now.request) (IsTreeRequest (body_shown message.now.request.body)) error)) }
        ensures unchanged { OnErr result (AreSame self.old self.new) }
    {
        let request = &message.request;
        match &request.body {
            RequestBody::Forget { nlookup } => self.tables.nodes.forget(request.node, *nlookup)?,
            RequestBody::BatchForget { items, .. } => self.tables.nodes.forget_all(items)?,
            _ => {
                if let Some(names) = self.tables.names_of(request)? {
                    let used = self.tables.handle_of(names.node, request)?;
                    self.note_use(at, message, names, used)?;
                }
            }
        }
        Ok(())
    }

    /// Notes the answer of this number to a request, if it gives no node that it may not give. Its call is looked for at the place
    /// `hint` first.
    #[inline(always)]
    fn note_reply(
        &mut self,
        at: u32,
        asked: u32,
        hint: u32,
        messages: &ReplyMessages<'a>,
    ) -> Result<(), LedgerError>
        requires { StandBefore (Answered at asked (request_shown messages.now.to.request) (reply_shown messages.now.reply)) self.old }
        ensures allowed { OnOk result (All MayBeGiven (nodes_given (body_shown messages.now.to.request.body) (reply_shown messages.now.reply))) }
        ensures shows { OnOk result (ShowNext (Answered at asked (request_shown messages.now.to.request) (reply_shown messages.now.reply)) self.old self.new) }
        ensures refused { IfErr result (λ error. WhereStands (Answered at asked (request_shown messages.now.to.request) (reply_shown messages.now.reply)) self.old (λ c m es. IsAnsweredRefusal (request_shown messages.now.to.request) (reply_shown messages.now.reply) (IsMoreKept es (Answered at asked (request_shown messages.now.to.request) (reply_shown messages.now.reply))) error)) }
        ensures unchanged { OnErr result (AreSame self.old self.new) }
    {
        if !may_be_given(&messages.to.request.body, &messages.reply) {
            return Err(LedgerError::Refused(codes::NODE_ID_NOT_ALLOWED));
        }
        if !is_tree_request(&messages.to.request.body) {
            self.truncating |= settles_truncation(&messages.to.request.body, &messages.reply);
            return Ok(());
        }
        // A tree request that is outstanding has a call that waits.
        let (place, waiting) = self.calls.find(asked, hint as usize).unwrap();
        self.note_answer(at, asked, place, waiting, messages)
    }

    /// Notes a request that names these nodes and uses this file handle: a tree request is one more call, and a closing
    /// closes its handle once; where no opening is left, the offsets that were reached on it go.
    #[inline(always)]
    fn note_use(
        &mut self,
        at: u32,
        message: &RequestMessage<'a>,
        names: Names,
        used: Option<Used>,
    ) -> Result<(), LedgerError>
        requires { (c : List Message) × (m : Message) × (es : List PlainEvent) × Stands c m es (Asked at (request_shown message.now.request)) self.old × AreNames es (request_shown message.now.request) names × IsUsedIfAny es (request_shown message.now.request) self.old.tables.handles.opened.entries used × (request_takes (request_shown message.now.request) ≡ []) }
        ensures shows { OnOk result (WhereStands (Asked at (request_shown message.now.request)) self.old (λ c m es. AreNames es (request_shown message.now.request) names → IsUsedIfAny es (request_shown message.now.request) self.old.tables.handles.opened.entries used → BooksShow (es ++ Asked at (request_shown message.now.request) ∷ []) self.new)) }
        ensures memory { IfErr result (λ error. (error ≡ Memory) × IsTreeRequest (body_shown message.now.request.body)) }
        ensures unchanged { OnErr result (AreSame self.old self.new) }
    {
        if is_tree_request(&message.request.body) {
            let call = Call {
                asked: at,
                messages: CallMessages::asked(message),
                node: names.node,
                other: names.other,
                handle: used.map(|used| used.handle.name),
                direct: used.is_some_and(|used| used.handle.direct),
                truncates: truncates(&message.request.body, self.truncating),
                listing: self.listing_of(&message.request.body, used),
                answer: None,
            };
            self.calls.push(call)?;
        } else if is_closing(&message.request.body) {
            if let Some(used) = used {
                if self.tables.handles.close(&used.key) {
                    self.listings.close(&used.key);
                }
            }
        }
        Ok(())
    }

    /// What a request that uses this file handle goes on from, if it lists.
    #[inline(always)]
    fn listing_of(&self, body: &RequestBody<'_>, used: Option<Used>) -> Option<Listing>
        ensures { result ≡ listing_by (offset_asked (body_shown body.now)) used (place_of self.now.listings.by_key.entries) }
    {
        let offset = offset_asked(body)?;
        let used = used?;
        Some(self.listings.listing(&used.key, offset, used.handle.shared))
    }

    /// What the answer to this call lists on its file handle, if that is open still.
    fn listed<'b>(
        &self,
        waiting: WaitingCall,
        body: &RequestBody<'_>,
        reply: &Reply<'b>,
    ) -> Option<ListedOn<'b>>
        ensures { ListsStillIfAny self.now.tables.handles.opened.entries waiting (body_shown body.now) (reply_shown reply.now) result }
    {
        let Reply::Listed(entries) = reply else {
            return None;
        };
        let (fh, kind) = handle_used(body)?;
        let key = Key {
            node: waiting.node,
            fh,
            kind,
        };
        let handle = self.tables.handles.get(&key)?;
        if waiting.handle != Some(handle.name) {
            return None;
        }
        let count = entries_count(*entries);
        if count == 0 {
            return None;
        }
        Some(ListedOn {
            key,
            adrift: waiting.adrift,
            entries: *entries,
            count,
        })
    }

    /// Notes the answer to this call: what it gives, what it opens, what it lists, and the answer.
    fn note_answer(
        &mut self,
        at: u32,
        asked: u32,
        place: usize,
        waiting: WaitingCall,
        messages: &ReplyMessages<'a>,
    ) -> Result<(), LedgerError>
        requires stands { StandBefore (Answered at asked (request_shown messages.now.to.request) (reply_shown messages.now.reply)) self.old }
        requires allowed { All MayBeGiven (nodes_given (body_shown messages.now.to.request.body) (reply_shown messages.now.reply)) }
        requires waits { (call : PlainCall) × WaitsAt self.old.calls.calls asked place call × (waiting ≡ waiting_of call) }
        ensures shows { OnOk result (ShowNext (Answered at asked (request_shown messages.now.to.request) (reply_shown messages.now.reply)) self.old self.new) }
        ensures memory { IfErr result (λ error. (error ≡ Memory) × (WhereStands (Answered at asked (request_shown messages.now.to.request) (reply_shown messages.now.reply)) self.old (λ c m es. IsMoreKept es (Answered at asked (request_shown messages.now.to.request) (reply_shown messages.now.reply))))) }
        ensures unchanged { OnErr result (AreSame self.old self.new) }
    {
        let given = names_given(
            self.alloc,
            &self.tables.nodes,
            at,
            &messages.to.request.body,
            &messages.reply,
        )?;
        let names = given.as_slice();
        let opened = opened(
            waiting.node,
            names,
            &messages.to.request.body,
            &messages.reply,
        );
        let listed = self.listed(waiting, &messages.to.request.body, &messages.reply);
        // All room first.
        self.calls.reserve_names(&given)?;
        self.tables.nodes.reserve(names)?;
        self.tables.handles.reserve(&opened)?;
        self.listings.reserve(&listed)?;
        // Nothing fails from here on.
        self.tables.nodes.give(names, at);
        let opens = self.tables.handles.note_opened(asked, opened);
        self.listings.note(asked, listed);
        let both = CallMessages::answered(messages);
        self.calls.answer(place, both, at, given, opens);
        Ok(())
    }
}
