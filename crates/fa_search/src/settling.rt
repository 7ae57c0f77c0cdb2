//! What a search does where a reply comes: its request is placed, and others before it.

ghost use Rattle.std.specs.Prelude.{◌≡◌, ◌+◌, ◌-◌, ◌<◌, ◌≤◌, ◌^◌, min, ◌++◌, ◌∷◌, [], ℕ, List, length, slice_get, Some, None, Contains, IsTrue, IfOk, IfErr, IsErrOf, OnOk};
ghost use Rattle.std.specs.Map.{values_of};
ghost use Rattle.fa_capture.specs.Message.{Message};
ghost use Rattle.fa_tree.specs.Alike.{IsInUse};
ghost use Rattle.fa_tree.specs.State.{TreeState};
ghost use Rattle.fa_order.specs.declared.entry.Entry.{Entry as TheEntry};
ghost use Rattle.fa_check.specs.Runs.{EntrySteps};
ghost use Rattle.fa_check.specs.Verdicts.{AreMessagesOf};
ghost use Rattle.fa_check.specs.Replays.{IsAnswerAt};
ghost use Rattle.fa_search.specs.Searches.{IsRefusedFrom, IsEndless};
ghost use Rattle.fa_search.specs.declared.budget.Halt.TheVariants.{Spent, Memory};
ghost use Rattle.fa_search.specs.declared.flight.Pending.{Pending as ThePending};
ghost use Rattle.fa_search.specs.parts.Configurations.{PlainConfiguration, IsCountUpTo, LeavesIfKnown, IsFollowed, IsSpent};
ghost use Rattle.fa_search.specs.parts.Flight.{IsInFlight, IsFlight, IsAlone, IsGivenByPlaced, IsToldIdle};
ghost use Rattle.fa_search.specs.parts.Placed.{MayBePlacedAt};
ghost use Rattle.fa_search.specs.parts.Settling.{IsTraced, AreHeldBy, AreSettlingBy, AreSettlingStill, IsOnlyPending, IsTakenIn, IsSettled, IsFurther, IsIn, AreGrown, IsPushedNew, IsPut, IsLeastOf, HasNoStep, HaveNoStep};

use crate::budget::{Halt, Spending};
use crate::configuration::{Configuration, Known, push};
use crate::flight::{InFlight, Pending};
use fa_ledger::NodeName;
use fa_order::Entry;
use fa_tree::{InUse, Replay, StepError};
use std::alloc::{AllocError, Global};
use std::mem;

/// Takes steps along the calls of a capture, as many as a budget has.
#[derive(Drop)]
pub(crate) struct Tries<'c> {
    pub replay: Replay<'c>,
    pub spending: Spending,
}

/// Configurations while a request is settled.
#[derive(Drop)]
pub(crate) struct Settling {
    /// Those in which it is not placed.
    pub work: Vec<Configuration>,
    /// Those in which it is.
    pub settled: Vec<Configuration>,
    known_work: Known,
    known_settled: Known,
    /// About how many bytes both hold.
    bytes: u64,
}

/// A configuration from which requests are tried.
#[derive(Drop)]
struct Origin {
    /// Its place among those in which the request is not placed.
    place: usize,
    /// The same once more, for the next step.
    copy: Configuration,
}

/// Settles the request that the next message answers: from each of these configurations the requests in flight are tried, in all orders, until
/// it is placed.
///
/// Steps are spent for those that are looked at and tried and for copies, but where the request alone is in flight and one configuration
/// alone is held.
pub(crate) fn settle(
    alloc: Global,
    tries: &mut Tries<'_>,
    held: Vec<Configuration>,
    flight: &InFlight,
    asked: Pending,
) -> Result<Settling, Halt>
    requires in_flight { IsInFlight tries.old.replay.list flight.now.at asked }
    requires answered { IsAnswerAt tries.old.replay.list asked.place flight.now.at }
    requires flight { IsFlight tries.old.replay.list flight.now }
    ensures settled { IfOk result (λ settling. (c : List Message) (first : TreeState) (common : List TheEntry) → AreMessagesOf tries.old.replay c →
        AreHeldBy c first common flight.now.at held.items → IsSettled c first common flight.now.at asked.asked settling.work.items settling.settled.items) }
    ensures fewer { IfOk result (λ settling. IsAlone flight.now asked.place → length settling.settled.items ≤ length held.items) }
    ensures spent { IsErrOf result Spent → IsAlone flight.now asked.place → 1 < length held.items }
    ensures same { tries.new.replay ≡ tries.old.replay }
    ensures budget { tries.new.spending.budget ≡ tries.old.spending.budget }
    ensures endless { IsErrOf result Spent → IsEndless tries.old.spending.budget → ⊥ }
{
    if flight.is_alone(&asked) {
        return settle_alone(alloc, tries, held, asked);
    }
    settle_among(alloc, tries, held, flight, asked)
}

/// Settles a request that alone is in flight: each configuration takes its step in place.
fn settle_alone(
    alloc: Global,
    tries: &mut Tries<'_>,
    held: Vec<Configuration>,
    asked: Pending,
) -> Result<Settling, Halt>
    requires { MayBePlacedAt tries.old.replay.list asked.place (record { at = asked.asked; wrote = None }) }
    ensures settled { IfOk result (λ settling. (c : List Message) (first : TreeState) (common : List TheEntry) (at : ℕ) → AreMessagesOf tries.old.replay c →
        IsOnlyPending c at asked.asked → AreHeldBy c first common at held.items → IsSettled c first common at asked.asked settling.work.items settling.settled.items) }
    ensures fewer { IfOk result (λ settling. length settling.settled.items ≤ length held.items) }
    ensures spent { IsErrOf result Spent → 1 < length held.items }
    ensures same { tries.new.replay ≡ tries.old.replay }
    ensures budget { tries.new.spending.budget ≡ tries.old.spending.budget }
    ensures endless { IsErrOf result Spent → IsEndless tries.old.spending.budget → ⊥ }
{
    let mut settling = Settling::new(alloc);
    let choice = held.len() > 1;
    for one in held {
        settle_one(tries, &mut settling, one, asked, choice)?;
    }
    Ok(settling)
}

/// Takes in a configuration with the step of the request that alone is in flight, if it has one. Where there is a choice a step is spent.
fn settle_one(
    tries: &mut Tries<'_>,
    settling: &mut Settling,
    one: Configuration,
    asked: Pending,
    choice: bool,
) -> Result<(), Halt>
    requires { MayBePlacedAt tries.old.replay.list asked.place (record { at = asked.asked; wrote = None }) }
    ensures taken { OnOk result ((c : List Message) → AreMessagesOf tries.old.replay c →
        IsTakenIn c asked.asked one settling.old.work.items settling.old.settled.items settling.new.work.items settling.new.settled.items) }
    ensures fewer { OnOk result (length settling.new.settled.items ≤ length settling.old.settled.items + 1) }
    ensures spent { IsErrOf result Spent → IsTrue choice }
    ensures same { tries.new.replay ≡ tries.old.replay }
    ensures budget { tries.new.spending.budget ≡ tries.old.spending.budget }
    ensures endless { IsErrOf result Spent → IsEndless tries.old.spending.budget → ⊥ }
{
    let mut one = one;
    if one.has(asked.asked) {
        push(&mut settling.settled, one)?;
        return Ok(());
    }
    spend_at_choice(&mut tries.spending, choice)?;
    let entry = Entry {
        at: asked.asked,
        wrote: None,
    };
    match one.place(&mut tries.replay, asked.place, entry) {
        Ok(()) => push(&mut settling.settled, one)?,
        Err(StepError::Refused(_)) => push(&mut settling.work, one)?,
        Err(StepError::Memory) => return Err(Halt::Memory),
    }
    Ok(())
}

/// Spends a step where there is a choice.
fn spend_at_choice(spending: &mut Spending, choice: bool) -> Result<(), Halt>
    ensures halt { IfErr result (λ halt. (halt ≡ Spent) × IsTrue choice) }
    ensures spent { OnOk result (IsTrue choice → spending.new.steps ≡ min (spending.old.steps + 1) (2 ^ 64 - 1)) }
    ensures free { (IsTrue choice → ⊥) → spending.new ≡ spending.old }
    ensures budget { spending.new.budget ≡ spending.old.budget }
    ensures endless { IsErrOf result Spent → IsEndless spending.old.budget → ⊥ }
{
    if !choice {
        return Ok(());
    }
    spending.spend(1)
}

/// Settles a request where others are in flight too.
fn settle_among(
    alloc: Global,
    tries: &mut Tries<'_>,
    held: Vec<Configuration>,
    flight: &InFlight,
    asked: Pending,
) -> Result<Settling, Halt>
    requires in_flight { IsInFlight tries.old.replay.list flight.now.at asked }
    requires answered { IsAnswerAt tries.old.replay.list asked.place flight.now.at }
    requires flight { IsFlight tries.old.replay.list flight.now }
    ensures settled { IfOk result (λ settling. (c : List Message) (first : TreeState) (common : List TheEntry) → AreMessagesOf tries.old.replay c →
        AreHeldBy c first common flight.now.at held.items → IsSettled c first common flight.now.at asked.asked settling.work.items settling.settled.items) }
    ensures same { tries.new.replay ≡ tries.old.replay }
    ensures budget { tries.new.spending.budget ≡ tries.old.spending.budget }
    ensures endless { IsErrOf result Spent → IsEndless tries.old.spending.budget → ⊥ }
{
    let mut settling = Settling::new(alloc);
    for one in held {
        settling.take_in(tries, one, flight, asked.asked)?;
    }
    let mut next = 0;
    while next < settling.work.len() {
        settling.try_from(tries, next, flight, asked.asked)?;
        next += 1;
    }
    Ok(settling)
}

impl Settling {
    /// None.
    fn new(alloc: Global) -> Self
        ensures work { result.work.items ≡ [] }
        ensures settled { result.settled.items ≡ [] }
    {
        Settling {
            work: Vec::new(alloc),
            settled: Vec::new(alloc),
            known_work: Known::new(alloc),
            known_settled: Known::new(alloc),
            bytes: 0,
        }
    }

    /// Takes in a configuration, unless the same one is there. The requests in flight that leave its tree as it is, and each later one, are
    /// placed in it first, where they have a step.
    fn take_in(
        &mut self,
        tries: &mut Tries<'_>,
        one: Configuration,
        flight: &InFlight,
        asked: u32,
    ) -> Result<(), Halt>
        requires { IsFlight tries.old.replay.list flight.now }
        ensures grown { OnOk result (AreGrown self.old.work.items self.old.settled.items self.new.work.items self.new.settled.items) }
        ensures taken { OnOk result ((c : List Message) → AreMessagesOf tries.old.replay c → IsIn c flight.now.at one self.new.work.items self.new.settled.items) }
        ensures settling { OnOk result ((c : List Message) (first : TreeState) (common : List TheEntry) (held : List PlainConfiguration) → AreMessagesOf tries.old.replay c →
            IsTraced c first common flight.now.at one → AreSettlingBy c first common flight.now.at asked held self.old.work.items self.old.settled.items →
            AreSettlingBy c first common flight.now.at asked held self.new.work.items self.new.settled.items) }
        ensures same { tries.new.replay ≡ tries.old.replay }
        ensures budget { tries.new.spending.budget ≡ tries.old.spending.budget }
        ensures endless { IsErrOf result Spent → IsEndless tries.old.spending.budget → ⊥ }
    {
        let mut one = one;
        place_keeping(tries, &mut one, flight, asked)?;
        let in_use = flight.in_use();
        one.reckon(&in_use);
        self.put(one, asked, &in_use)?;
        tries
            .spending
            .hold(self.work.len(), self.settled.len(), self.bytes)
    }

    /// Puts a configuration among those in which the request is placed, or among the others, unless the same one is there, where these
    /// openings are of use.
    fn put(&mut self, one: Configuration, asked: u32, in_use: &InUse<'_>) -> Result<(), AllocError>
        ensures { OnOk result (IsPut (IsInUse in_use.now) asked one self.old.work.items self.old.settled.items self.new.work.items self.new.settled.items) }
    {
        if one.has(asked) {
            return push_new(
                &mut self.known_settled,
                &mut self.settled,
                one,
                &mut self.bytes,
                in_use,
            );
        }
        push_new(
            &mut self.known_work,
            &mut self.work,
            one,
            &mut self.bytes,
            in_use,
        )
    }

    /// Tries from one of the configurations in which the request is not placed whatever is in flight.
    fn try_from(
        &mut self,
        tries: &mut Tries<'_>,
        place: usize,
        flight: &InFlight,
        asked: u32,
    ) -> Result<(), Halt>
        requires there { place < length self.old.work.items }
        requires flight { IsFlight tries.old.replay.list flight.now }
        ensures grown { OnOk result (AreGrown self.old.work.items self.old.settled.items self.new.work.items self.new.settled.items) }
        ensures settling { OnOk result (AreSettlingStill tries.old.replay flight.now.at asked self.old.work.items self.old.settled.items self.new.work.items self.new.settled.items) }
        ensures spent { OnOk result ((c : List Message) (x : PlainConfiguration) → AreMessagesOf tries.old.replay c → slice_get self.old.work.items place ≡ Some x →
            IsSpent c flight.now.at x self.new.work.items self.new.settled.items) }
        ensures same { tries.new.replay ≡ tries.old.replay }
        ensures budget { tries.new.spending.budget ≡ tries.old.spending.budget }
        ensures endless { IsErrOf result Spent → IsEndless tries.old.spending.budget → ⊥ }
    {
        let mut origin = Origin {
            place,
            copy: copied(&mut tries.spending, &self.work[place])?,
        };
        self.try_each(tries, &mut origin, flight, asked)
    }

    /// Tries from a configuration each of the requests in flight.
    fn try_each(
        &mut self,
        tries: &mut Tries<'_>,
        origin: &mut Origin,
        flight: &InFlight,
        asked: u32,
    ) -> Result<(), Halt>
        requires origin { slice_get self.old.work.items origin.old.place ≡ Some origin.old.copy }
        requires flight { IsFlight tries.old.replay.list flight.now }
        ensures grown { OnOk result (AreGrown self.old.work.items self.old.settled.items self.new.work.items self.new.settled.items) }
        ensures settling { OnOk result (AreSettlingStill tries.old.replay flight.now.at asked self.old.work.items self.old.settled.items self.new.work.items self.new.settled.items) }
        ensures spent { OnOk result ((c : List Message) → AreMessagesOf tries.old.replay c → IsSpent c flight.now.at origin.old.copy self.new.work.items self.new.settled.items) }
        ensures same { tries.new.replay ≡ tries.old.replay }
        ensures budget { tries.new.spending.budget ≡ tries.old.spending.budget }
        ensures endless { IsErrOf result Spent → IsEndless tries.old.spending.budget → ⊥ }
    {
        tries.spending.spend(flight.requests.len() as u64)?;
        for pending in flight.requests.values() {
            self.try_request(tries, origin, *pending, flight, asked)?;
        }
        Ok(())
    }

    /// Tries a request with each count that an order may carry, unless it is placed.
    fn try_request(
        &mut self,
        tries: &mut Tries<'_>,
        origin: &mut Origin,
        pending: Pending,
        flight: &InFlight,
        asked: u32,
    ) -> Result<(), Halt>
        requires origin { slice_get self.old.work.items origin.old.place ≡ Some origin.old.copy }
        requires pending { IsInFlight tries.old.replay.list flight.now.at pending }
        requires flight { IsFlight tries.old.replay.list flight.now }
        ensures grown { OnOk result (AreGrown self.old.work.items self.old.settled.items self.new.work.items self.new.settled.items) }
        ensures settling { OnOk result (AreSettlingStill tries.old.replay flight.now.at asked self.old.work.items self.old.settled.items self.new.work.items self.new.settled.items) }
        ensures followed { OnOk result ((c : List Message) (e : TheEntry) (new : TreeState) → AreMessagesOf tries.old.replay c → e.at ≡ pending.asked → IsCountUpTo pending.most e.wrote →
            (Contains origin.old.copy.placed e.at → ⊥) → EntrySteps origin.old.copy.tree new c e → IsFollowed c flight.now.at origin.old.copy e new self.new.work.items self.new.settled.items) }
        ensures origin { OnOk result (origin.new ≡ origin.old) }
        ensures same { tries.new.replay ≡ tries.old.replay }
        ensures budget { tries.new.spending.budget ≡ tries.old.spending.budget }
        ensures endless { IsErrOf result Spent → IsEndless tries.old.spending.budget → ⊥ }
    {
        if origin.copy.has(pending.asked) {
            return Ok(());
        }
        match pending.most {
            None => self.try_entry(tries, origin, pending, None, flight, asked),
            Some(most) => self.try_counts(tries, origin, pending, most, flight, asked),
        }
    }

    /// Tries a request with each count up to this one.
    fn try_counts(
        &mut self,
        tries: &mut Tries<'_>,
        origin: &mut Origin,
        pending: Pending,
        most: u32,
        flight: &InFlight,
        asked: u32,
    ) -> Result<(), Halt>
        requires origin { slice_get self.old.work.items origin.old.place ≡ Some origin.old.copy }
        requires pending { IsInFlight tries.old.replay.list flight.now.at pending }
        requires lacks { Contains origin.old.copy.placed pending.asked → ⊥ }
        requires most { pending.most ≡ Some most }
        requires flight { IsFlight tries.old.replay.list flight.now }
        ensures grown { OnOk result (AreGrown self.old.work.items self.old.settled.items self.new.work.items self.new.settled.items) }
        ensures settling { OnOk result (AreSettlingStill tries.old.replay flight.now.at asked self.old.work.items self.old.settled.items self.new.work.items self.new.settled.items) }
        ensures followed { OnOk result ((c : List Message) (count : ℕ) (new : TreeState) → AreMessagesOf tries.old.replay c → count ≤ most →
            EntrySteps origin.old.copy.tree new c (record { at = pending.asked; wrote = Some count }) →
            IsFollowed c flight.now.at origin.old.copy (record { at = pending.asked; wrote = Some count }) new self.new.work.items self.new.settled.items) }
        ensures origin { OnOk result (origin.new ≡ origin.old) }
        ensures same { tries.new.replay ≡ tries.old.replay }
        ensures budget { tries.new.spending.budget ≡ tries.old.spending.budget }
        ensures endless { IsErrOf result Spent → IsEndless tries.old.spending.budget → ⊥ }
    {
        for count in 0..=most {
            self.try_entry(tries, origin, pending, Some(count), flight, asked)?;
        }
        Ok(())
    }

    /// Tries a request with a count, or without one.
    fn try_entry(
        &mut self,
        tries: &mut Tries<'_>,
        origin: &mut Origin,
        pending: Pending,
        wrote: Option<u32>,
        flight: &InFlight,
        asked: u32,
    ) -> Result<(), Halt>
        requires origin { slice_get self.old.work.items origin.old.place ≡ Some origin.old.copy }
        requires pending { IsInFlight tries.old.replay.list flight.now.at pending }
        requires lacks { Contains origin.old.copy.placed pending.asked → ⊥ }
        requires count { IsCountUpTo pending.most wrote }
        requires flight { IsFlight tries.old.replay.list flight.now }
        ensures grown { OnOk result (AreGrown self.old.work.items self.old.settled.items self.new.work.items self.new.settled.items) }
        ensures settling { OnOk result (AreSettlingStill tries.old.replay flight.now.at asked self.old.work.items self.old.settled.items self.new.work.items self.new.settled.items) }
        ensures followed { OnOk result ((c : List Message) (new : TreeState) → AreMessagesOf tries.old.replay c →
            EntrySteps origin.old.copy.tree new c (record { at = pending.asked; wrote = wrote }) →
            IsFollowed c flight.now.at origin.old.copy (record { at = pending.asked; wrote = wrote }) new self.new.work.items self.new.settled.items) }
        ensures origin { OnOk result (origin.new ≡ origin.old) }
        ensures same { tries.new.replay ≡ tries.old.replay }
        ensures budget { tries.new.spending.budget ≡ tries.old.spending.budget }
        ensures endless { IsErrOf result Spent → IsEndless tries.old.spending.budget → ⊥ }
    {
        tries.spending.spend(1)?;
        let entry = Entry {
            at: pending.asked,
            wrote,
        };
        match origin.copy.place(&mut tries.replay, pending.place, entry) {
            Ok(()) => {}
            Err(StepError::Refused(_)) => return Ok(()),
            Err(StepError::Memory) => return Err(Halt::Memory),
        }
        let from = &self.work[origin.place];
        let one = mem::replace(&mut origin.copy, copied(&mut tries.spending, from)?);
        // Without an answer, a request that changes nothing may as well be placed later, or not at all.
        if pending.unanswered && one.has_same_tree(from) {
            return Ok(());
        }
        self.take_in(tries, one, flight, asked)
    }
}

/// Pushes a configuration, unless the same one is known, where these openings are of use, and counts the bytes that were added.
fn push_new(
    known: &mut Known,
    list: &mut Vec<Configuration>,
    one: Configuration,
    bytes: &mut u64,
    in_use: &InUse<'_>,
) -> Result<(), AllocError>
    ensures { OnOk result (IsPushedNew (IsInUse in_use.now) list.old.items one list.new.items) }
{
    let added = known.push_new(list, one, in_use)?;
    *bytes = bytes.saturating_add(added);
    Ok(())
}

/// The same configuration once more, for the steps that it costs.
fn copied(spending: &mut Spending, one: &Configuration) -> Result<Configuration, Halt>
    ensures copy { IfOk result (λ copy. copy ≡ one.now) }
    ensures budget { spending.new.budget ≡ spending.old.budget }
    ensures endless { IsErrOf result Spent → IsEndless spending.old.budget → ⊥ }
{
    spending.spend(one.copy_steps())?;
    Ok(one.copy()?)
}

/// Places the requests in flight that leave the tree as it is, and each later one, where they have a step, unless this one is placed already.
/// The steps that are spent are for them, and for its number, which is reckoned next.
///
/// One pass is enough: none of them changes the tree, and none gives a node that was not known before.
fn place_keeping(
    tries: &mut Tries<'_>,
    one: &mut Configuration,
    flight: &InFlight,
    asked: u32,
) -> Result<(), Halt>
    requires { IsFlight tries.old.replay.list flight.now }
    ensures further { OnOk result ((c : List Message) → AreMessagesOf tries.old.replay c → IsFurther c flight.now.at one.old one.new) }
    ensures same { tries.new.replay ≡ tries.old.replay }
    ensures budget { tries.new.spending.budget ≡ tries.old.spending.budget }
    ensures endless { IsErrOf result Spent → IsEndless tries.old.spending.budget → ⊥ }
{
    let looked_at = flight.requests.len() as u64;
    tries
        .spending
        .spend(looked_at.saturating_add(one.copy_steps()))?;
    if one.has(asked) {
        return Ok(());
    }
    for pending in flight.requests.values() {
        place_if_keeping(tries, one, *pending, flight)?;
    }
    Ok(())
}

/// Places a request if it leaves the tree as it is, and each later one, is not placed and has a step.
fn place_if_keeping(
    tries: &mut Tries<'_>,
    one: &mut Configuration,
    pending: Pending,
    flight: &InFlight,
) -> Result<(), Halt>
    requires in_flight { IsInFlight tries.old.replay.list flight.now.at pending }
    requires flight { IsFlight tries.old.replay.list flight.now }
    ensures further { OnOk result ((c : List Message) → AreMessagesOf tries.old.replay c → IsFurther c flight.now.at one.old one.new) }
    ensures same { tries.new.replay ≡ tries.old.replay }
    ensures budget { tries.new.spending.budget ≡ tries.old.spending.budget }
    ensures endless { IsErrOf result Spent → IsEndless tries.old.spending.budget → ⊥ }
{
    if one.has(pending.asked) {
        return Ok(());
    }
    let idle = is_idle(&mut tries.spending, one, &pending, flight)?;
    if idle {
        return place_if_it_steps(&mut tries.replay, one, pending);
    }
    Ok(())
}

/// Whether a request leaves the tree of this configuration as it is, and each later one, if it has a step from it: by what came of it, or
/// since it gives nodes that a reply gave which came already, or one that a request gives which is placed. Where that is looked for, a step is
/// spent for each request in flight.
fn is_idle(
    spending: &mut Spending,
    one: &Configuration,
    pending: &Pending,
    flight: &InFlight,
) -> Result<bool, Halt>
    ensures idle { IfOk result (λ idle. IsTrue idle → IsToldIdle flight.now one.now pending.now) }
    ensures budget { spending.new.budget ≡ spending.old.budget }
    ensures endless { IsErrOf result Spent → IsEndless spending.old.budget → ⊥ }
{
    if pending.keeps_trees {
        return Ok(true);
    }
    match pending.gives_up_to {
        None => Ok(false),
        Some(reply) => {
            if reply < flight.at {
                return Ok(true);
            }
            spending.spend(flight.requests.len() as u64)?;
            Ok(is_given_by_placed(one, pending, flight))
        }
    }
}

/// Whether the only node that a request gives is that of a request in flight that is placed.
fn is_given_by_placed(one: &Configuration, pending: &Pending, flight: &InFlight) -> bool
    ensures { IsTrue result → IsGivenByPlaced flight.now one.now pending.now }
{
    match pending.gives {
        Some(name) => is_placed_giving(one, name, flight),
        None => false,
    }
}

/// Whether a request in flight gives this node, and no other, and is placed.
fn is_placed_giving(one: &Configuration, name: NodeName, flight: &InFlight) -> bool
    ensures { IsTrue result → (other : ThePending) × Contains (values_of flight.now.requests.entries) other × Contains one.now.placed other.asked × (other.gives ≡ Some name) }
{
    for other in flight.requests.values() {
        if is_giver(one, other, name) {
            return true;
        }
    }
    false
}

/// Whether this request gives this node, and no other, and is placed.
fn is_giver(one: &Configuration, other: &Pending, name: NodeName) -> bool
    ensures { IsTrue result → Contains one.now.placed other.now.asked × (other.now.gives ≡ Some name) }
{
    other.gives(name) && one.has(other.asked)
}

/// Places a request that leaves the tree as it is, and each later one, if it has a step.
fn place_if_it_steps(
    replay: &mut Replay<'_>,
    one: &mut Configuration,
    pending: Pending,
) -> Result<(), Halt>
    requires allowed { MayBePlacedAt replay.old.list pending.place (record { at = pending.asked; wrote = None }) }
    requires lacks { Contains one.old.placed pending.asked → ⊥ }
    ensures further { OnOk result ((c : List Message) (at : ℕ) → AreMessagesOf replay.old c → IsInFlight replay.old.list at pending → IsCountUpTo pending.most None →
        LeavesIfKnown c at one.old pending.asked → IsFurther c at one.old one.new) }
    ensures same { replay.new ≡ replay.old }
    ensures memory { IfErr result (λ halt. halt ≡ Memory) }
{
    let entry = Entry {
        at: pending.asked,
        wrote: None,
    };
    match one.place(replay, pending.place, entry) {
        Ok(()) => Ok(()),
        Err(StepError::Refused(_)) => Ok(()),
        Err(StepError::Memory) => Err(Halt::Memory),
    }
}

/// The least code with which the request is refused from these configurations, where it has a step from none of them. They are kept behind
/// those that are.
pub(crate) fn least_code(
    replay: &mut Replay<'_>,
    work: Vec<Configuration>,
    asked: Pending,
    kept: &mut Vec<Configuration>,
) -> Result<u16, AllocError>
    requires { MayBePlacedAt replay.old.list asked.place (record { at = asked.asked; wrote = None }) }
    ensures least { IfOk result (λ code. (c : List Message) → AreMessagesOf replay.old c → 0 < length work.items → HaveNoStep c asked.asked work.items → IsLeastOf c asked.asked work.items code) }
    ensures kept { OnOk result ((c : List Message) → AreMessagesOf replay.old c → HaveNoStep c asked.asked work.items → kept.new.items ≡ kept.old.items ++ work.items) }
    ensures same { replay.new ≡ replay.old }
{
    let mut least = u16::MAX;
    for mut one in work {
        let code = code_from(replay, &mut one, asked);
        push(kept, one)?;
        least = least.min(code?);
    }
    Ok(least)
}

/// The code with which the request is refused from this configuration, where it has no step.
fn code_from(
    replay: &mut Replay<'_>,
    one: &mut Configuration,
    asked: Pending,
) -> Result<u16, AllocError>
    requires { MayBePlacedAt replay.old.list asked.place (record { at = asked.asked; wrote = None }) }
    ensures refused { IfOk result (λ code. (c : List Message) → AreMessagesOf replay.old c → HasNoStep c asked.asked one.old → IsRefusedFrom one.old.tree c asked.asked code) }
    ensures still { OnOk result ((c : List Message) → AreMessagesOf replay.old c → HasNoStep c asked.asked one.old → one.new ≡ one.old) }
    ensures same { replay.new ≡ replay.old }
{
    let entry = Entry {
        at: asked.asked,
        wrote: None,
    };
    match one.place(replay, asked.place, entry) {
        Ok(()) => Ok(u16::MAX),
        Err(StepError::Refused(code)) => Ok(code),
        Err(StepError::Memory) => Err(AllocError),
    }
}
