//! A ledger, event by event.

ghost use Rattle.std.specs.Prelude.{◌≡◌, ◌<◌, ◌^◌, ◌∷◌, ◌++◌, [], ℕ, List, length, IfErr, OnOk, OnErr};
ghost use Rattle.fa_capture.specs.Message.{Message};
ghost use Rattle.fa_session.specs.Events.{event_shown};
ghost use Rattle.fa_ledger.specs.Passing.{Passes};
ghost use Rattle.fa_ledger.specs.Calls.{AreCalls};
ghost use Rattle.fa_ledger.specs.Shows.{Shows};
ghost use Rattle.fa_ledger.specs.Refusals.{IsNext, IsRefusal};

use crate::books::Books;
use crate::call_list::CallList;
use crate::calls::Calls;
use crate::error::LedgerError;
use fa_capture::Seed;
use fa_session::Event;
use std::alloc::Global;
use std::marker::Model;

/// What the events of a capture leave: which nodes are known and by which names, which file handles are open, and the tree
/// requests with their answers. The messages that it took all keep the protocol.
#[derive(Drop)]
pub struct Ledger<'a> {
    /// How many messages came.
    messages: u32,
    /// What they left.
    books: Books<'a>,
}

impl<'a> Model for Ledger<'a> {
    ghost use Rattle.fa_ledger.specs.Plain.{PlainLedger};

    ghost Value = { PlainLedger };

    ghost use Rattle.fa_ledger.specs.parts.View.{ledger_shown, ShowsSome};

    ghost view = { ledger_shown };

    ghost invariant = { ShowsSome };
}

impl<'a> Ledger<'a> {
    /// A ledger of no messages. What it stores later takes memory from `alloc`, and its tables are hashed with the seed.
    ///
    /// Takes no memory, in constant time.
    pub fn new(alloc: Global, seed: Seed) -> Self
        ensures { Shows [] result }
    {
        Ledger {
            messages: 0,
            books: Books::new(alloc, seed),
        }
    }

    /// Takes the event of the next message, if the message keeps the rules of nodes and file handles.
    ///
    /// The event is what [`Session::accept`](fa_session::Session::accept) says of that message, and the ledger took those
    /// of all messages before it, fewer than 16,777,216.
    ///
    /// **Nodes.** Each success of SYMLINK, MKNOD, MKDIR, LINK and CREATE, each success of LOOKUP with a node id other than
    /// 0, and each entry of a READDIRPLUS reply with a node id other than 0 whose name is neither `.` nor `..` gives its
    /// node id: the node's lookup count rises by one. FORGET and each item of BATCH_FORGET, in their order, take `nlookup`
    /// back (`struct fuse_forget_in` and `struct fuse_forget_one` of `fuse.h`). The root, node 1, is always known, and a
    /// forget of it takes nothing. A node has the name of the reply since which its count has been positive. A request names
    /// the node of its header, RENAME and RENAME2 `newdir` and LINK `oldnodeid` too; FORGET, BATCH_FORGET, INIT and
    /// [`RequestBody::Passed`](fa_bodies::RequestBody::Passed), as a RENAME2 with flags that are not judged, name none.
    ///
    /// **File handles.** A key is a node's name, a number `fh` and whether a file or a directory is open. A success of OPEN
    /// or OPENDIR opens the key under the name that its node had when it was asked, CREATE under that of the node which it
    /// gives. RELEASE and RELEASEDIR close one opening when they are asked, whatever is answered. READ, WRITE, FLUSH,
    /// RELEASE, and GETATTR and SETATTR with `GETATTR_FH` and `FATTR_FH`, use the key of a file; READDIR, READDIRPLUS and
    /// RELEASEDIR that of a directory. These are the rules of this profile.
    ///
    /// **Listings.** A READDIR or READDIRPLUS begins at an `offset` (`struct fuse_read_in`). At one other than 0 it goes on
    /// from the last answer to either on its file handle that has an entry with that `off` (`struct fuse_dirent`), `.` and
    /// `..` included; where there is none it is adrift, and so is what goes on from it ([`Listing`](crate::Listing)).
    /// Nothing is refused for it. What is kept for a handle goes when its key has no opening left. These are rules of this
    /// profile.
    ///
    /// # Errors
    ///
    /// The ledger is as it was after each of them.
    ///
    /// - [`LedgerError::Refused`] where the message does not keep the rules, with the code of the first that it breaks, one
    ///   of [`fa_capture::codes`]: for a request `FORGOTTEN_NODE` where a node that it names is not known, then
    ///   `FORGOTTEN_TOO_OFTEN` where a forget takes more than is left, then `CLOSED_HANDLE` where the key that it uses is not
    ///   open; for a reply `NODE_ID_NOT_ALLOWED` where it gives the root, or 0 where that does not say that there is no node.
    /// - [`LedgerError::Memory`] where memory was refused for one more call, node or key, or for what a listing leaves,
    ///   the names of its nodes and its offsets. The message keeps the rules, and its event may be handed in again.
    ///   What was made room for it stays: at most what it takes then.
    ///
    /// # Cost
    ///
    /// Expected constant time, as of hash tables, for each event, for each item of a BATCH_FORGET and for each entry of a
    /// listing, and for an answer whose event has not the place of its call for a tag ([`next_place`](Ledger::next_place)) a
    /// logarithm of the calls. It keeps 64 bytes for each tree request, with where its messages lie, and 16 more for one that names
    /// another node or lists; an entry for each node that is known, for each key that is open and for each offset that an answer on
    /// such a key has; all grow by doubling. The names of the nodes that a READDIRPLUS gives take a list of their own, and an entry that
    /// tells where it lies. No message bytes are copied.
    #[inline(always)]
    pub fn accept(&mut self, event: &Event<'a>) -> Result<(), LedgerError>
        requires { (c : List Message) × (m : Message) × IsNext c m self.old (event_shown event.now) }
        ensures passes { OnOk result ((c : List Message) (m : Message) → IsNext c m self.old (event_shown event.now) → Passes c m) }
        ensures shows { OnOk result ((c : List Message) (m : Message) → IsNext c m self.old (event_shown event.now) → Shows (c ++ m ∷ []) self.new) }
        ensures refused { IfErr result (λ error. (c : List Message) (m : Message) → IsNext c m self.old (event_shown event.now) → IsRefusal c m (event_shown event.now) error) }
        ensures unchanged { OnErr result (self.new ≡ self.old) }
    {
        self.books.note(event)?;
        self.messages += 1;
        Ok(())
    }

    /// The place that the next tree request has among the calls: how many there are. Where the session has it for a tag before each
    /// message to the server ([`Session::set_tag`](fa_session::Session::set_tag)), the answer to each tree request tells at which place its call
    /// stands.
    ///
    /// Takes no memory, in constant time.
    // There are fewer than 2 ^ 24 messages, so the condition always holds.
    #[inline(always)]
    pub fn next_place(&self) -> u32
        ensures { length self.now.calls < 2 ^ 32 → result ≡ length self.now.calls }
    {
        u32::try_from(self.books.calls.len()).unwrap_or(u32::MAX)
    }

    /// The calls of the messages.
    ///
    /// Takes no memory, in constant time but for giving back the tables of nodes, handles and listings.
    pub fn into_calls(self) -> Calls<'a>
        ensures { (c : List Message) → Shows c self.entry → (result.messages ≡ length c) × AreCalls c result.list }
    {
        let Ledger { messages, books } = self;
        Calls {
            messages,
            list: CallList::new(books.calls),
        }
    }
}
