//! A session, message by message.

ghost use Rattle.std.specs.Prelude.{◌≡◌, ◌↔◌, ◌<◌, ◌∷◌, ◌++◌, List, [], OnOk, OnErr, IfOk, IfErr, IfSome, IsTrue, option_map};
ghost use Rattle.fa_capture.specs.Checks.{AllHold, FirstFailure};
ghost use Rattle.fa_capture.specs.Message.{Message, message};
ghost use Rattle.fa_capture.specs.declared.packet.Direction.TheVariants.{ToServer, FromServer};
ghost use Rattle.fa_capture.specs.declared.limits.TheConstants.{MAX_MESSAGES};
ghost use Rattle.fa_bodies.specs.Requests.{request_shown};
ghost use Rattle.fa_session.specs.declared.error.SessionError.TheVariants.{Memory};
ghost use Rattle.fa_session.specs.Allowed.{IsAllowed};
ghost use Rattle.fa_session.specs.Events.{event_shown, IsEvent, HasBytes};
ghost use Rattle.fa_session.specs.Refusals.{IsRefusal};
ghost use Rattle.fa_session.specs.Shows.{Shows};
ghost use Rattle.fa_session.specs.parts.Steps.{request_checked, waiting_for, NotesRequest, IsMemoryWanted, NotesReply, noticed};
ghost use Rattle.fa_session.specs.parts.View.{waiting_shown};

use crate::error::SessionError;
use crate::event::{Event, ReplyMessages, RequestMessage};
use crate::outstanding::Outstanding;
use crate::rules::{agreed_flags, check_reply, is_init, may_replace};
use crate::waiting::Waiting;
use fa_bodies::{Request, reply_body, reply_head, request};
use fa_capture::{Direction, Packet, Seed, codes};
use std::alloc::Global;
use std::marker::Model;

/// What the messages of a capture leave open, one after the other: how many came, whether INIT was answered, and the
/// requests that are outstanding.
#[derive(Drop)]
pub struct Session<'a> {
    /// How many messages came.
    pub(crate) messages: u32,
    /// The tag of the requests that come next.
    pub(crate) tag: u32,
    /// The flags that both sides set at INIT, once it was answered.
    pub(crate) negotiated: Option<u32>,
    /// The outstanding requests.
    pub(crate) waiting: Outstanding<'a>,
}

impl<'a> Model for Session<'a> {
    ghost use Rattle.fa_session.specs.Plain.{PlainSession};

    ghost Value = { PlainSession };

    ghost use Rattle.fa_session.specs.parts.View.{session_shown};

    ghost view = { session_shown };
}

impl<'a> Session<'a> {
    /// A session of no messages. Its table takes memory from `alloc` later, and is hashed with the seed.
    ///
    /// Takes no memory, in constant time.
    pub fn new(alloc: Global, seed: Seed) -> Self
        ensures { Shows [] result }
    {
        Session {
            messages: 0,
            tag: 0,
            negotiated: None,
            waiting: Outstanding::new(alloc, seed),
        }
    }

    /// The flags that both sides set at INIT (`flags` of `struct fuse_init_in` and of `struct fuse_init_out`), or None
    /// until INIT is answered.
    ///
    /// Takes no memory, in constant time.
    #[inline(always)]
    pub fn negotiated(&self) -> Option<u32>
        ensures { result ≡ self.now.negotiated }
    {
        self.negotiated
    }

    /// Gives the requests that come from now on a tag, a number of the caller's, until another one is given. The event of an answer
    /// has the tag of its request. A session begins with the tag 0, also where it was put aside; the requests that were outstanding
    /// then keep theirs.
    ///
    /// Takes no memory, in constant time.
    // What a session shows has no tags, so that no clause says which one comes back: who reads it has to look whether it fits.
    #[inline(always)]
    pub fn set_tag(&mut self, tag: u32)
        ensures { self.new ≡ self.old }
    {
        self.tag = tag;
    }

    /// Takes the next message, if it is allowed after the messages so far: what it is.
    ///
    /// The direction alone says how the message is read (`struct fuse_in_header` and `struct fuse_out_header` of
    /// `fuse.h` 7.31). A reply answers the last request before it with its unique, where that request may be answered
    /// and no reply came between. A request that may be answered is outstanding from its record to its answer. FORGET
    /// and BATCH_FORGET have no answer, and a notification, whose unique is 0, answers nothing. An INTERRUPT may repeat
    /// the unique of an outstanding INTERRUPT and takes its place.
    ///
    /// The message's number is that of the messages accepted before it. Fewer than 16,777,216 were. A request has
    /// the bytes of `packet`, and so has a reply. The request that it answers has bytes that are this request.
    ///
    /// # Errors
    ///
    /// The session is as it was after each of them.
    ///
    /// - [`SessionError::Refused`] where the message is not allowed, with the code of the first check that it fails, one
    ///   of [`fa_capture::codes`]. For a message to the server these are the codes of [`fa_bodies::request`],
    ///   `UNIQUE_ZERO` for the unique 0, `FIRST_NOT_INIT` for a first message that is not INIT, `SECOND_INIT` for INIT
    ///   at any other place, `BEFORE_INIT_ANSWERED` for another request before INIT's answer, and `UNIQUE_IN_USE` for
    ///   the unique of an outstanding request. For a message from the server these are the codes of
    ///   [`fa_bodies::reply_head`], `FIRST_NOT_INIT` for the first message, `NO_REQUEST_WAITS` for a reply that answers
    ///   no request, and then for the reply to a request `REPLY_BODY` as [`fa_bodies::reply_body`] tells it,
    ///   `INIT_REFUSED` for an error to INIT, `VERSION` where a major is not 7 or the least of the minors is not 31,
    ///   `NEGOTIATED_FLAGS` where both sides set WRITEBACK_CACHE or POSIX_ACL, `LEFT_OUT_SUCCEEDED` for a success of
    ///   IOCTL, FALLOCATE, COPY_FILE_RANGE or a RENAME2 with flags that are not judged, and `OPEN_WITHOUT_HANDLE` for
    ///   ENOSYS to OPEN or OPENDIR.
    /// - [`SessionError::Memory`] where memory for one more outstanding request was refused. The message is allowed, and
    ///   may be handed in again. What was made room for it stays: at most what it takes then.
    ///
    /// # Cost
    ///
    /// Expected constant time, as of a hash table, but for the bytes of names and of listings, which are read once, and
    /// those of an outstanding MKNOD, SYMLINK, RENAME or RENAME2 once more for each reply and each INTERRUPT with its
    /// unique. The table keeps three numbers and where the message lies for each outstanding request, and grows by
    /// doubling. No message bytes are copied.
    pub fn accept(&mut self, packet: &Packet<'a>) -> Result<Event<'a>, SessionError>
        requires { self.old.messages < MAX_MESSAGES }
        ensures passes { OnOk result ((c : List Message) → Shows c self.old → IsAllowed c (message packet.now)) }
        ensures shows { OnOk result ((c : List Message) → Shows c self.old → Shows (c ++ message packet.now ∷ []) self.new) }
        ensures event { IfOk result (λ event. (c : List Message) → Shows c self.old → IsEvent c (message packet.now) (event_shown event)) }
        ensures bytes { IfOk result (HasBytes packet.now.bytes.now) }
        ensures refused { IfErr result (λ error. (c : List Message) → Shows c self.old → IsRefusal c (message packet.now) error) }
        ensures unchanged { OnErr result (self.new ≡ self.old) }
    {
        // A function for each direction: each is small enough to be inlined, and both together are not.
        match packet.direction {
            Direction::ToServer => self.accept_to_server(packet),
            Direction::FromServer => self.accept_from_server(packet),
        }
    }

    /// Takes the next message, one to the server, as [`accept`](Session::accept) does. The caller has to see to it that
    /// `packet.direction` is `ToServer`, and that fewer than 16,777,216 messages were accepted.
    ///
    /// # Errors
    ///
    /// Those of `accept` for such a message.
    ///
    /// # Cost
    ///
    /// That of `accept`. This function is small enough to be inlined, and `accept` is not: so its event is not moved.
    #[inline(always)]
    pub fn accept_to_server(&mut self, packet: &Packet<'a>) -> Result<Event<'a>, SessionError>
        requires few { self.old.messages < MAX_MESSAGES }
        requires direction { packet.now.direction ≡ ToServer }
        ensures passes { OnOk result ((c : List Message) → Shows c self.old → IsAllowed c (message packet.now)) }
        ensures shows { OnOk result ((c : List Message) → Shows c self.old → Shows (c ++ message packet.now ∷ []) self.new) }
        ensures event { IfOk result (λ event. (c : List Message) → Shows c self.old → IsEvent c (message packet.now) (event_shown event)) }
        ensures bytes { IfOk result (HasBytes packet.now.bytes.now) }
        ensures refused { IfErr result (λ error. (c : List Message) → Shows c self.old → IsRefusal c (message packet.now) error) }
        ensures unchanged { OnErr result (self.new ≡ self.old) }
    {
        let message = RequestMessage {
            bytes: packet.bytes,
            request: request(packet)?,
        };
        self.check_request(&message.request)?;
        let at = self.note_request(&message)?;
        Ok(Event::Asked { at, message })
    }

    /// Takes the next message, one from the server, as [`accept`](Session::accept) does. The caller has to see to it that
    /// `packet.direction` is `FromServer`, and that fewer than 16,777,216 messages were accepted.
    ///
    /// # Errors
    ///
    /// Those of `accept` for such a message.
    ///
    /// # Cost
    ///
    /// That of `accept`. This function is small enough to be inlined, and `accept` is not: so its event is not moved.
    #[inline(always)]
    pub fn accept_from_server(&mut self, packet: &Packet<'a>) -> Result<Event<'a>, SessionError>
        requires few { self.old.messages < MAX_MESSAGES }
        requires direction { packet.now.direction ≡ FromServer }
        ensures passes { OnOk result ((c : List Message) → Shows c self.old → IsAllowed c (message packet.now)) }
        ensures shows { OnOk result ((c : List Message) → Shows c self.old → Shows (c ++ message packet.now ∷ []) self.new) }
        ensures event { IfOk result (λ event. (c : List Message) → Shows c self.old → IsEvent c (message packet.now) (event_shown event)) }
        ensures bytes { IfOk result (HasBytes packet.now.bytes.now) }
        ensures refused { IfErr result (λ error. (c : List Message) → Shows c self.old → IsRefusal c (message packet.now) error) }
        ensures unchanged { OnErr result (self.new ≡ self.old) }
    {
        let head = reply_head(packet)?;
        if self.is_empty() {
            return Err(SessionError::Refused(codes::FIRST_NOT_INIT));
        }
        if head.unique == 0 {
            let at = self.next_number();
            return Ok(Event::Notice { at });
        }
        let Some(waiting) = self.waiting_for(head.unique) else {
            return Err(SessionError::Refused(codes::NO_REQUEST_WAITS));
        };
        let (asked, tag) = (waiting.at, waiting.tag);
        let message = waiting.message();
        let messages = ReplyMessages {
            to: message,
            bytes: packet.bytes,
            reply: reply_body(&message.request, packet)?,
        };
        check_reply(&messages.to.request, &messages.reply)?;
        let flags = agreed_flags(&messages.to.request.body, &messages.reply);
        let at = self.note_reply(head.unique, flags);
        Ok(Event::Answered {
            at,
            asked,
            tag,
            messages,
        })
    }

    /// How many messages came.
    #[inline(always)]
    fn len(&self) -> u32
        ensures { result ≡ self.now.messages }
    {
        self.messages
    }

    /// Whether no message came.
    #[inline(always)]
    fn is_empty(&self) -> bool
        ensures { IsTrue result ↔ (self.now.messages ≡ 0) }
    {
        self.len() == 0
    }

    /// The outstanding request with this unique.
    #[inline(always)]
    fn waiting_for(&self, unique: u64) -> Option<&Waiting<'a>>
        ensures found { option_map (λ w. waiting_shown w.now) result ≡ waiting_for self.now unique }
        ensures unique { IfSome result (λ w. w.now.unique ≡ unique) }
    {
        self.waiting.get(unique)
    }

    /// Looks whether a request keeps the rules after the messages so far. The error is the code of the first rule that
    /// it breaks.
    #[inline(always)]
    fn check_request(&self, request: &Request<'_>) -> Result<(), u16>
        ensures ok { OnOk result ((c : List Message) → Shows c self.now → AllHold (request_checked c (request_shown request.now))) }
        ensures fault { IfErr result (λ code. (c : List Message) → Shows c self.now → FirstFailure (request_checked c (request_shown request.now)) code) }
    {
        if request.unique == 0 {
            return Err(codes::UNIQUE_ZERO);
        }
        if is_init(&request.body) {
            if !self.is_empty() {
                return Err(codes::SECOND_INIT);
            }
            return Ok(());
        }
        if self.is_empty() {
            return Err(codes::FIRST_NOT_INIT);
        }
        if self.negotiated().is_none() {
            return Err(codes::BEFORE_INIT_ANSWERED);
        }
        let Some(waiting) = self.waiting_for(request.unique) else {
            return Ok(());
        };
        if !may_replace(waiting, request) {
            return Err(codes::UNIQUE_IN_USE);
        }
        Ok(())
    }

    /// Gives the next message its number, and counts it.
    #[inline(always)]
    fn next_number(&mut self) -> u32
        requires { self.old.messages < MAX_MESSAGES }
        ensures at { result ≡ self.old.messages }
        ensures counted { self.new ≡ noticed self.old }
    {
        let at = self.messages;
        self.messages += 1;
        at
    }

    /// Notes a request, which is outstanding from now on if it may be answered: the number of its message.
    #[inline(always)]
    fn note_request(&mut self, message: &RequestMessage<'a>) -> Result<u32, SessionError>
        requires { self.old.messages < MAX_MESSAGES }
        ensures at { IfOk result (λ at. at ≡ self.old.messages) }
        ensures noted { OnOk result (NotesRequest self.old self.new (request_shown message.now.request)) }
        ensures memory { IfErr result (λ error. (error ≡ Memory) × IsMemoryWanted self.old (request_shown message.now.request)) }
        ensures unchanged { OnErr result (self.new ≡ self.old) }
    {
        if !message.request.body.may_be_answered() {
            return Ok(self.next_number());
        }
        let waiting = Waiting::new(self.messages, self.tag, message);
        self.waiting.insert(waiting)?;
        Ok(self.next_number())
    }

    /// Notes the reply to the request with this unique, and the flags that it settles if the request is INIT: the
    /// number of its message.
    #[inline(always)]
    fn note_reply(&mut self, unique: u64, flags: Option<u32>) -> u32
        requires { self.old.messages < MAX_MESSAGES }
        ensures at { result ≡ self.old.messages }
        ensures noted { NotesReply self.old self.new unique flags }
    {
        self.waiting.remove(unique);
        self.negotiated = flags.or(self.negotiated);
        self.next_number()
    }
}
