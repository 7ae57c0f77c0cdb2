//! Which requests are in flight.

ghost use Rattle.std.specs.Prelude.{◌≡◌, ◌↔◌, ◌∷◌, ◌+◌, ◌<◌, ◌^◌, [], ℕ, false, List, Some, All, IsTrue, IfSome, IsNone, IfOk, OnOk};
ghost use Rattle.fa_capture.specs.Message.{Message};
ghost use Rattle.fa_ledger.specs.Calls.{call_shown};
ghost use Rattle.fa_ledger.specs.declared.calls.Calls.{Calls as TheCalls};
ghost use Rattle.fa_ledger.specs.Kinds.{OnlyReads};
ghost use Rattle.fa_tree.specs.Steps.{names_given, opens_anew};
ghost use Rattle.fa_check.specs.Replays.{IsAnswerAt};
ghost use Rattle.fa_check.specs.Verdicts.{AreMessagesOf};
ghost use Rattle.fa_search.specs.parts.Configurations.{most_written, KeepsTrees, IsGivenUpTo, GivesUpTo};
ghost use Rattle.fa_tree.specs.Alike.{IsInUse, IsLastFrom};
ghost use Rattle.fa_search.specs.parts.Flight.{IsInFlight, IsFlight, IsDue, IsPendingOf, IsSent, IsAlone, IsUseNoted, AreLastUses, AreLater};

use fa_ledger::{Action, Call, Calls, GivenNodes, NodeName, Operation, Outcome};
use fa_tree::InUse;
use std::alloc::{AllocError, Global};
use std::collections::BTreeMap;

/// When a request in flight is answered. Those come first that are answered, by the numbers of the messages that answer them.
#[derive(Clone, Copy, Debug, PartialEq, Eq, PartialOrd, Ord, Hash)]
pub(crate) struct Due {
    /// Whether it never is.
    pub never: bool,
    /// The number of the message that answers it, or of its own where none does.
    pub position: u32,
}

impl Due {
    /// When the call is answered.
    fn of(call: &Call<'_>) -> Self
        ensures { IsDue result (call_shown call.now) }
    {
        match &call.answer {
            Some(answer) => Due {
                never: false,
                position: answer.at,
            },
            None => Due {
                never: true,
                position: call.asked,
            },
        }
    }
}

/// A request in flight that an order may name.
#[derive(Clone, Copy, Debug)]
pub(crate) struct Pending {
    /// The place of its call in the list.
    pub place: usize,
    /// The number of its message.
    pub asked: u32,
    /// Whether it is never answered.
    pub unanswered: bool,
    /// How many bytes at most an order may say that it wrote: of a WRITE that is never answered.
    pub most: Option<u32>,
    /// Whether it leaves each tree as it is, by what came of it: an error, or a success that only reads, gives no node and opens no
    /// directory.
    pub keeps_trees: bool,
    /// Of a success that only reads and opens no directory: the last of the replies that were the first to give the nodes that it gives. It
    /// leaves each tree that knows them.
    pub gives_up_to: Option<u32>,
    /// The node that it gives, if it gives one alone.
    pub gives: Option<NodeName>,
}

impl Pending {
    /// The call at this place.
    fn of(place: usize, call: &Call<'_>) -> Self
        ensures { IsPendingOf place (call_shown call.now) result }
    {
        Pending {
            place,
            asked: call.asked,
            unanswered: call.answer.is_none(),
            most: most_written(call),
            keeps_trees: keeps_trees(call),
            gives_up_to: gives_up_to(call),
            gives: only_given(call),
        }
    }

    /// Whether it gives this node, and no other.
    pub fn gives(&self, name: NodeName) -> bool
        ensures { IsTrue result → self.now.gives ≡ Some name }
    {
        match self.gives {
            Some(given) => given == name,
            None => false,
        }
    }
}

/// The requests in flight at a message that an order may name.
#[derive(Drop)]
pub(crate) struct InFlight {
    pub requests: BTreeMap<Due, Pending>,
    /// How many calls of the list were sent.
    seen: usize,
    /// How many messages came.
    pub at: u32,
    /// Of each opening on which an answered request lists, at whatever time, the message of the last of these answers.
    pub last_uses: BTreeMap<u32, u32>,
}

impl InFlight {
    /// None, before the first message.
    ///
    /// Time in the calls, with a logarithm of the openings for each that lists, and memory for each opening on which one does.
    pub fn new(alloc: Global, calls: &Calls<'_>) -> Result<Self, AllocError>
        ensures first { IfOk result (λ flight. flight.at ≡ 0) }
        ensures flight { IfOk result (λ flight. IsFlight calls.now.list flight) }
    {
        Ok(InFlight {
            requests: BTreeMap::new(alloc),
            seen: 0,
            at: 0,
            last_uses: last_uses(alloc, calls)?,
        })
    }

    /// Which openings of directories are of use from the next message on.
    pub fn in_use(&self) -> InUse<'_>
        ensures { (opened : ℕ) → IsInUse result opened ↔ IsLastFrom self.now.last_uses self.now.at opened }
    {
        InUse {
            last: &self.last_uses,
            from: self.at,
        }
    }

    /// The request that the next message answers, if it answers one.
    pub fn answered(&self) -> Option<Pending>
        ensures some { IfSome result (λ pending. (calls : TheCalls) → IsFlight calls.list self.now →
            IsInFlight calls.list self.now.at pending × IsAnswerAt calls.list pending.place self.now.at) }
        ensures none { IsNone result → (c : List Message) (calls : TheCalls) → AreMessagesOf calls c → IsFlight calls.list self.now →
            (place : ℕ) → IsAnswerAt calls.list place self.now.at → ⊥ }
    {
        self.requests
            .get(&Due {
                never: false,
                position: self.at,
            })
            .copied()
    }

    /// Passes the next message, which answers none of the calls.
    pub fn pass(&mut self, calls: &Calls<'_>) -> Result<(), AllocError>
        requires { self.old.at < calls.now.messages }
        ensures at { OnOk result (self.new.at ≡ self.old.at + 1) }
        ensures flight { OnOk result ((c : List Message) → AreMessagesOf calls.now c → IsFlight calls.now.list self.old →
            ((place : ℕ) → IsAnswerAt calls.now.list place self.old.at → ⊥) → IsFlight calls.now.list self.new) }
    {
        // There are as many messages as a u32 counts, so `at` has room for one more.
        prove!(self.at < calls.messages);
        if self.seen < calls.list.len() {
            let call = calls.list.call(self.seen);
            if call.asked == self.at {
                self.send(&call)?;
            }
        }
        self.at += 1;
        Ok(())
    }

    /// Takes in the next call of the list, which this message sent, if an order may name it.
    fn send(&mut self, call: &Call<'_>) -> Result<(), AllocError>
        requires { self.old.seen + 1 < 2 ^ 64 }
        ensures at { OnOk result (self.new.at ≡ self.old.at) }
        ensures seen { OnOk result (self.new.seen ≡ self.old.seen + 1) }
        ensures sent { OnOk result (IsSent self.old.seen (call_shown call.now) self.old.requests.entries self.new.requests.entries) }
        ensures uses { OnOk result (self.new.last_uses ≡ self.old.last_uses) }
    {
        let place = self.seen;
        self.seen += 1;
        if call.answer.is_none() && call.operation().only_reads() {
            return Ok(());
        }
        self.requests
            .insert(Due::of(call), Pending::of(place, call))?;
        Ok(())
    }

    /// Passes the next message, which answers this request.
    pub fn answer(&mut self, calls: &Calls<'_>, pending: &Pending)
        requires { self.old.at < calls.now.messages }
        ensures at { self.new.at ≡ self.old.at + 1 }
        ensures flight { (c : List Message) → AreMessagesOf calls.now c → IsFlight calls.now.list self.old →
            IsAnswerAt calls.now.list pending.now.place self.old.at → IsFlight calls.now.list self.new }
    {
        // There are as many messages as a u32 counts, so `at` has room for one more.
        prove!(self.at < calls.messages);
        // `len` is called for its clause that the keys ascend.
        let _ = self.requests.len();
        self.requests.remove(&Due {
            never: false,
            position: self.at,
        });
        self.at += 1;
    }

    /// Whether this request alone is in flight.
    ///
    /// In constant time where it is the next that is answered.
    pub fn is_alone(&self, pending: &Pending) -> bool
        ensures { IsTrue result ↔ IsAlone self.now pending.now.place }
    {
        self.requests
            .values()
            .all(|other| other.place == pending.place)
    }
}

/// Of each opening on which an answered call lists, the message of the last of these answers.
fn last_uses(alloc: Global, calls: &Calls<'_>) -> Result<BTreeMap<u32, u32>, AllocError>
    ensures { IfOk result (AreLastUses calls.now.list) }
{
    let mut last_uses = BTreeMap::new(alloc);
    for place in 0..calls.list.len() {
        note_use(&mut last_uses, &calls.list.call(place))?;
    }
    Ok(last_uses)
}

/// Takes note of the opening on which a call lists, if it lists on one and is answered.
fn note_use(last_uses: &mut BTreeMap<u32, u32>, call: &Call<'_>) -> Result<(), AllocError>
    ensures noted { OnOk result (IsUseNoted (call_shown call.now) last_uses.new) }
    ensures kept { OnOk result (AreLater last_uses.old last_uses.new) }
{
    match (&call.answer, &call.listing, call.handle) {
        (Some(answer), Some(_), Some(opened)) => note_last(last_uses, opened, answer.at),
        _ => Ok(()),
    }
}

/// Takes note of a message that answers a request which lists on an opening.
fn note_last(last_uses: &mut BTreeMap<u32, u32>, opened: u32, at: u32) -> Result<(), AllocError>
    ensures noted { OnOk result (IsLastFrom last_uses.new at opened) }
    ensures kept { OnOk result (AreLater last_uses.old last_uses.new) }
{
    let before = last_uses.get(&opened).copied().unwrap_or(0);
    last_uses.insert(opened, at.max(before))?;
    Ok(())
}

/// How many bytes at most an order may say that the call wrote: all of a WRITE without an answer.
fn most_written(call: &Call<'_>) -> Option<u32>
    ensures { result ≡ most_written (call_shown call.now).answer (call_shown call.now).operation }
{
    if call.answer.is_some() {
        return None;
    }
    match call.operation() {
        Operation::Act(Action::Write { size, .. }) => Some(size),
        _ => None,
    }
}

/// Whether the call leaves each tree as it is, by what came of it.
fn keeps_trees(call: &Call<'_>) -> bool
    ensures { IsTrue result → KeepsTrees (call_shown call.now) }
{
    let operation = call.operation();
    if matches!(operation.ended(), Outcome::Fails(_)) {
        return true;
    }
    match &call.answer {
        Some(answer) => operation.only_reads() && answer.given.names().is_empty() && !answer.opens,
        None => operation.only_reads(),
    }
}

/// The last of the replies that were the first to give the nodes that the call gives, if it only reads and opens no directory; the first
/// message where it gives none. None where it gives the root.
fn gives_up_to(call: &Call<'_>) -> Option<u32>
    ensures { IfSome result (λ reply. GivesUpTo reply (call_shown call.now)) }
{
    if !reads_alone(call) {
        return None;
    }
    match &call.answer {
        Some(answer) => last_giving(answer.given.names()),
        None => None,
    }
}

/// The last of the replies that were the first to give these nodes; the first message where there are none. None where one is the root.
fn last_giving(names: &[NodeName]) -> Option<u32>
    ensures { IfSome result (λ reply. All (IsGivenUpTo reply) names.now) }
{
    let mut last = 0;
    for name in names {
        match name {
            NodeName::Given { by, .. } => last = last.max(*by),
            NodeName::Root => return None,
        }
    }
    Some(last)
}

/// Whether the call only reads, and opens no directory.
fn reads_alone(call: &Call<'_>) -> bool
    ensures { IsTrue result → OnlyReads (call_shown call.now).operation × (opens_anew (call_shown call.now) ≡ false) }
{
    match &call.answer {
        Some(answer) => !answer.opens && call.operation().only_reads(),
        None => false,
    }
}

/// The node that the call gives, if it gives one alone.
fn only_given(call: &Call<'_>) -> Option<NodeName>
    ensures { IfSome result (λ name. names_given (call_shown call.now) ≡ name ∷ []) }
{
    match &call.answer {
        Some(answer) => match answer.given {
            GivenNodes::One(name) => Some(name),
            _ => None,
        },
        None => None,
    }
}
