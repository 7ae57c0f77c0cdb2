//! What stands behind the messages of a stream, event by event.

ghost use Rattle.std.specs.Prelude.{◌≡◌, ◌∷◌, ◌++◌, [], List, length, IfErr, OnOk, OnErr};
ghost use Rattle.fa_capture.specs.Message.{Message};
ghost use Rattle.fa_session.specs.Events.{event_shown};
ghost use Rattle.fa_ledger.specs.Passing.{Passes};
ghost use Rattle.fa_ledger.specs.Standing.{ShowsStanding, IsNextBehind, IsStandingRefusal};

use crate::error::LedgerError;
use crate::live::Live;
use fa_capture::Seed;
use fa_session::Event;
use std::alloc::Global;
use std::marker::Model;

/// What stands behind the messages of a stream: which nodes are known and by which names, which file handles are open, and which
/// openings wait for their answers. It keeps no message and no call. The messages that it took all keep the protocol.
#[derive(Drop)]
pub struct Standing {
    /// How many messages came.
    messages: u32,
    /// What is alive behind them.
    live: Live,
}

impl Model for Standing {
    ghost use Rattle.fa_ledger.specs.Standing.{PlainStanding};

    ghost Value = { PlainStanding };

    ghost use Rattle.fa_ledger.specs.parts.StandingView.{standing_shown};

    ghost view = { standing_shown };
}

impl Standing {
    /// What stands before any message: the root alone. What it stores later takes memory from `alloc`, and its tables are hashed with the
    /// seed.
    ///
    /// Takes no memory, in constant time.
    pub fn new(alloc: Global, seed: Seed) -> Self
        ensures { ShowsStanding [] result }
    {
        Standing {
            messages: 0,
            live: Live::new(alloc, seed),
        }
    }

    /// Takes the event of the next message, if the message keeps the rules of nodes and file handles.
    ///
    /// The event is what [`Session::accept`](fa_session::Session::accept) says of that message, and those of all messages before
    /// it, fewer than 16,777,216, were taken. The rules are those of [`Ledger::accept`](crate::Ledger::accept), so of the same
    /// messages both refuse the same one first, with the same code.
    ///
    /// # Errors
    ///
    /// All is as it was after each of them.
    ///
    /// - [`LedgerError::Refused`] where the message does not keep the rules, with the code of the first that it breaks, one
    ///   of [`fa_capture::codes`], as [`Ledger::accept`](crate::Ledger::accept) tells it: `FORGOTTEN_NODE`,
    ///   `FORGOTTEN_TOO_OFTEN` or `CLOSED_HANDLE` for a request, `NODE_ID_NOT_ALLOWED` for a reply.
    /// - [`LedgerError::Memory`] where memory was refused for one more OPEN or OPENDIR that waits, for one more node or key, or
    ///   for the names of the nodes of a listing. The message keeps the rules, and its event may be handed in again.
    ///   What was made room for it stays: at most what it takes then.
    ///
    /// # Cost
    ///
    /// Expected constant time, as of hash tables, for each event, for each item of a BATCH_FORGET and for each entry of a
    /// READDIRPLUS reply. It keeps an entry for each node that is known, for each key that is open and for each OPEN or OPENDIR that
    /// waits for its answer; these tables grow by doubling, and do not shrink. The names of the nodes that a listing gives take a list
    /// for the time of the call. Nothing of the messages is kept.
    pub fn accept(&mut self, event: &Event<'_>) -> Result<(), LedgerError>
        requires { (c : List Message) × (m : Message) × IsNextBehind c m self.old (event_shown event.now) }
        ensures passes { OnOk result ((c : List Message) (m : Message) → IsNextBehind c m self.old (event_shown event.now) → Passes c m) }
        ensures shows { OnOk result ((c : List Message) (m : Message) → IsNextBehind c m self.old (event_shown event.now) → ShowsStanding (c ++ m ∷ []) self.new) }
        ensures refused { IfErr result (λ error. (c : List Message) (m : Message) → IsNextBehind c m self.old (event_shown event.now) → IsStandingRefusal c m (event_shown event.now) error) }
        ensures unchanged { OnErr result (self.new ≡ self.old) }
    {
        self.live.note(event)?;
        self.messages += 1;
        Ok(())
    }

    /// How many messages it took.
    ///
    /// Takes no memory, in constant time.
    pub fn len(&self) -> u32
        ensures { (c : List Message) → ShowsStanding c self.now → result ≡ length c }
    {
        self.messages
    }
}
