//! The search.

ghost use Rattle.std.specs.Prelude.{◌≡◌, ◌+◌, ◌<◌, ◌≤◌, ◌++◌, ℕ, List, length, Contains, Ok, Some, IfOk, IfSome, IsSomeAnd, IsNone, IsErrOf, OnOk};
ghost use Rattle.fa_capture.specs.Message.{Message};
ghost use Rattle.fa_tree.specs.Alike.{IsInUse};
ghost use Rattle.fa_tree.specs.State.{TreeState};
ghost use Rattle.fa_order.specs.declared.entry.Entry.{Entry as TheEntry};
ghost use Rattle.fa_check.specs.Runs.{IsLegalRun};
ghost use Rattle.fa_check.specs.Replays.{IsAnswerAt};
ghost use Rattle.fa_check.specs.Verdicts.{AreMessagesOf};
ghost use Rattle.fa_propose.specs.Proposals.{IsProposal};
ghost use Rattle.fa_search.specs.Searches.{IsStop, IsLeastCode, IsExplainedUpTo, AreSerialBefore, IfLegal, IsFound, IsEndless};
ghost use Rattle.fa_search.specs.declared.budget.Halt.TheVariants.{Spent};
ghost use Rattle.fa_search.specs.declared.finding.Finding.TheVariants.{NoOrder, GaveUp};
ghost use Rattle.fa_search.specs.declared.searching.Ended.TheVariants.{Stop};
ghost use Rattle.fa_search.specs.declared.searching.Ended.TheVariants as Ended;
ghost use Rattle.fa_search.specs.parts.Configurations.{PlainConfiguration};
ghost use Rattle.fa_search.specs.parts.Flight.{IsInFlight, IsFlight, CoversFrom};
ghost use Rattle.fa_search.specs.parts.Settling.{AreHeldBy, AreMerged, AreWithoutBy, IsSearching, AreLeft, IfOrder, EndsEarly};

use crate::budget::{Budget, Halt, Spending};
use crate::configuration::{Configuration, Known};
use crate::finding::Finding;
use crate::flight::{InFlight, Pending};
use crate::listener::{Listener, SoFar};
use crate::settling::{Tries, least_code, settle};
use fa_check::{Verdict, check};
use fa_ledger::Calls;
use fa_order::Entry;
use fa_propose::propose;
use fa_tree::{InUse, Replay, Tree};
use std::alloc::{AllocError, Global};
use std::mem;

/// How many steps are spent at least between two tidings of how far a search has come.
const STEPS_BETWEEN: u64 = 100_000;

/// Searches for an order of the tree requests of a capture that is legal from the tree that the server began with.
///
/// First comes the order that is proposed ([`propose`](fa_propose::propose)): it is the answer where it is legal. Else all orders are
/// searched, message by message. What is held are configurations: a tree, and which of the requests in flight are placed in the entries
/// that lead to it. Where a reply comes, its request has to be placed: from each configuration that lacks it the requests in flight are
/// tried in every order, an unanswered WRITE with each count, until it is. Configurations with the same tree and the same requests placed
/// fall together, where one request alone is in flight behind some of the replies; an opening of a directory makes no difference to them
/// where no request lists on it whose answer is still to come. Where none is left, no order explains that reply and those before it. The listener is told how far
/// the search has come behind a message, where 100,000 steps or more were spent since it was told last.
///
/// # Errors
///
/// `AllocError` where memory was refused.
///
/// # Cost
///
/// That of a proposal and of a check, and of two copies of the tree. Where the proposal is not legal, that of a search, of two copies of
/// the tree more, and of a check of the order that is found. A search takes a step for each tree that is held where one request alone is in
/// flight. Elsewhere it holds a tree for each set of the requests in flight that may have come first, and more where their order or the
/// count of an unanswered WRITE tells, or what a directory had when it was opened, as long as a listing of it is to come. Errors are no such choice,
/// nor is a request that only reads, opens no directory, and gives no node but such as are known: they are placed at once. For each tree it
/// looks through the requests in flight, and through them once more for each that gives a node alone which no reply gave before, copies the
/// tree where one of them steps, and looks through the tree once more. The budget ends it, but for [`Budget::endless`], which is never
/// spent. The listener is told of it between two messages alone.
pub fn search<L: Listener>(
    alloc: Global,
    calls: &Calls<'_>,
    tree: Tree,
    budget: Budget,
    listener: &mut L,
) -> Result<Finding, AllocError>
    ensures found { IfOk result (λ finding. (c : List Message) → AreMessagesOf calls.now c → IfLegal c tree finding) }
    ensures none { (c : List Message) (at code : ℕ) → AreMessagesOf calls.now c → result ≡ Ok (NoOrder at code) → IsStop c tree at }
    ensures code { (c : List Message) (at code : ℕ) → AreMessagesOf calls.now c → result ≡ Ok (NoOrder at code) → IsLeastCode c tree at code }
    ensures gave_up { (c : List Message) (at : ℕ) → AreMessagesOf calls.now c → result ≡ Ok (GaveUp at) → IsExplainedUpTo c tree at }
    ensures proposed { (c : List Message) (es : List TheEntry) → AreMessagesOf calls.now c → IsProposal c tree es → IsLegalRun c tree es → IfOk result (IsFound es) }
    ensures serial { (c : List Message) (at : ℕ) → AreMessagesOf calls.now c → AreSerialBefore c at → result ≡ Ok (GaveUp at) → ⊥ }
    ensures decides { (at : ℕ) → IsEndless budget → result ≡ Ok (GaveUp at) → ⊥ }
{
    let finding = search_from(alloc, calls, &tree, budget, listener);
    // It has many tables: they are proved to go in one place.
    drop(tree);
    finding
}

/// The same from a tree that is lent.
fn search_from<L: Listener>(
    alloc: Global,
    calls: &Calls<'_>,
    tree: &Tree,
    budget: Budget,
    listener: &mut L,
) -> Result<Finding, AllocError>
    ensures found { IfOk result (λ finding. (c : List Message) → AreMessagesOf calls.now c → IfLegal c tree.now finding) }
    ensures none { (c : List Message) (at code : ℕ) → AreMessagesOf calls.now c → result ≡ Ok (NoOrder at code) → IsStop c tree.now at }
    ensures code { (c : List Message) (at code : ℕ) → AreMessagesOf calls.now c → result ≡ Ok (NoOrder at code) → IsLeastCode c tree.now at code }
    ensures gave_up { (c : List Message) (at : ℕ) → AreMessagesOf calls.now c → result ≡ Ok (GaveUp at) → IsExplainedUpTo c tree.now at }
    ensures proposed { (c : List Message) (es : List TheEntry) → AreMessagesOf calls.now c → IsProposal c tree.now es → IsLegalRun c tree.now es → IfOk result (IsFound es) }
    ensures serial { (c : List Message) (at : ℕ) → AreMessagesOf calls.now c → AreSerialBefore c at → result ≡ Ok (GaveUp at) → ⊥ }
    ensures decides { (at : ℕ) → IsEndless budget → result ≡ Ok (GaveUp at) → ⊥ }
{
    match legal_proposal(alloc, calls, tree)? {
        Some(found) => Ok(found),
        None => search_orders(alloc, calls, tree, budget, listener),
    }
}

/// What is found by a search of all orders.
fn search_orders<L: Listener>(
    alloc: Global,
    calls: &Calls<'_>,
    tree: &Tree,
    budget: Budget,
    listener: &mut L,
) -> Result<Finding, AllocError>
    ensures found { IfOk result (λ finding. (c : List Message) → AreMessagesOf calls.now c → IfLegal c tree.now finding) }
    ensures none { (c : List Message) (at code : ℕ) → AreMessagesOf calls.now c → result ≡ Ok (NoOrder at code) → IsStop c tree.now at }
    ensures code { (c : List Message) (at code : ℕ) → AreMessagesOf calls.now c → result ≡ Ok (NoOrder at code) → IsLeastCode c tree.now at code }
    ensures gave_up { (c : List Message) (at : ℕ) → AreMessagesOf calls.now c → result ≡ Ok (GaveUp at) → IsExplainedUpTo c tree.now at }
    ensures serial { (c : List Message) (at : ℕ) → AreMessagesOf calls.now c → AreSerialBefore c at → result ≡ Ok (GaveUp at) → ⊥ }
    ensures decides { (at : ℕ) → IsEndless budget → result ≡ Ok (GaveUp at) → ⊥ }
{
    match search_all(alloc, calls, tree.copy()?, budget, listener)? {
        Ended::Order(order) => legal(alloc, calls, tree.copy()?, order),
        Ended::Stop { at, code } => Ok(Finding::NoOrder { at, code }),
        Ended::Spent { at } => Ok(Finding::GaveUp { at }),
    }
}

/// What is found by the order that is proposed, if that is legal.
fn legal_proposal(
    alloc: Global,
    calls: &Calls<'_>,
    tree: &Tree,
) -> Result<Option<Finding>, AllocError>
    ensures legal { IfOk result (λ found. IfSome found (λ finding. (c : List Message) → AreMessagesOf calls.now c → IfLegal c tree.now finding)) }
    ensures order { IfOk result (λ found. IfSome found (λ finding. (es : List TheEntry) × IsFound es finding)) }
    ensures proposed { (c : List Message) (es : List TheEntry) → AreMessagesOf calls.now c → IsProposal c tree.now es → IsLegalRun c tree.now es →
        IfOk result (λ found. IsSomeAnd found (IsFound es)) }
{
    let proposal = propose(alloc, calls, tree.copy()?)?;
    found_by(alloc, calls, tree.copy()?, proposal)
}

/// What is found by an order that is legal.
fn legal(
    alloc: Global,
    calls: &Calls<'_>,
    tree: Tree,
    order: Vec<Entry>,
) -> Result<Finding, AllocError>
    requires { (c : List Message) → AreMessagesOf calls.now c → IsLegalRun c tree order.items }
    ensures legal { IfOk result (λ finding. (c : List Message) → AreMessagesOf calls.now c → IfLegal c tree finding) }
    ensures order { IfOk result (IsFound order.items) }
{
    match found_by(alloc, calls, tree, order)? {
        Some(found) => Ok(found),
        None => unreachable!(),
    }
}

/// What is found by an order, if that is legal.
fn found_by(
    alloc: Global,
    calls: &Calls<'_>,
    tree: Tree,
    order: Vec<Entry>,
) -> Result<Option<Finding>, AllocError>
    ensures legal { IfOk result (λ found. IfSome found (λ finding. (c : List Message) → AreMessagesOf calls.now c → IfLegal c tree finding)) }
    ensures order { IfOk result (λ found. IfSome found (IsFound order.items)) }
    ensures none { IfOk result (λ found. IsNone found → (c : List Message) → AreMessagesOf calls.now c → IsLegalRun c tree order.items → ⊥) }
{
    match check(alloc, calls, tree, &order)? {
        Verdict::Legal { placed, left, .. } => Ok(Some(Finding::Found {
            order,
            placed,
            left,
        })),
        _ => Ok(None),
    }
}

/// How a search of all orders ends.
#[derive(Drop)]
pub(crate) enum Ended {
    /// This order is legal.
    Order(Vec<Entry>),
    /// No order goes past this message, and its request is refused with this code.
    Stop { at: u32, code: u16 },
    /// The budget is spent at this message.
    Spent { at: u32 },
}

/// Searches all orders, message by message.
fn search_all<L: Listener>(
    alloc: Global,
    calls: &Calls<'_>,
    tree: Tree,
    budget: Budget,
    listener: &mut L,
) -> Result<Ended, AllocError>
    ensures found { IfOk result (λ ended. (c : List Message) → AreMessagesOf calls.now c → IfOrder ended (IsLegalRun c tree)) }
    ensures none { (c : List Message) (at code : ℕ) → AreMessagesOf calls.now c → result ≡ Ok (Stop at code) → IsStop c tree at × IsLeastCode c tree at code }
    ensures gave_up { (c : List Message) (at : ℕ) → AreMessagesOf calls.now c → result ≡ Ok (Ended.Spent at) → IsExplainedUpTo c tree at × (AreSerialBefore c at → ⊥) }
    ensures decides { (at : ℕ) → IsEndless budget → result ≡ Ok (Ended.Spent at) → ⊥ }
{
    let mut progress = Progress::new(alloc, calls, tree, budget)?;
    let ended = progress.run(alloc, listener);
    // It has many tables: they are proved to go in one place.
    drop(progress);
    ended
}

/// A search of all orders, so far.
#[derive(Drop)]
pub(crate) struct Progress<'c> {
    pub tries: Tries<'c>,
    pub flight: InFlight,
    /// The entries that all configurations have in common, before their own.
    pub common: Vec<Entry>,
    /// What is held: never none. Where no order goes on, those in which the request is not placed.
    pub held: Vec<Configuration>,
    lull: Lull,
}

/// A stretch of replies each of whose requests alone was in flight. There each configuration takes its step by itself, so that trees that
/// become the same stay apart until they are compared: behind one reply, two, four and so on that may change trees.
#[derive(Clone, Copy, Debug, Default)]
struct Lull {
    /// How many such replies there were that may change trees.
    replies: u32,
}

impl Lull {
    /// Takes note of a reply to this request, which alone was in flight or not: whether trees are to be compared behind it. Any answer is
    /// right, it costs time alone.
    fn goes_on(&mut self, asked: &Pending, alone: bool) -> bool {
        if !alone {
            self.replies = 0;
            return false;
        }
        if asked.keeps_trees {
            return false;
        }
        self.replies = self.replies.saturating_add(1);
        self.replies.is_power_of_two()
    }
}

impl<'c> Progress<'c> {
    /// Before the first message.
    pub fn new(
        alloc: Global,
        calls: &'c Calls<'c>,
        tree: Tree,
        budget: Budget,
    ) -> Result<Self, AllocError>
        ensures along { IfOk result (λ progress. progress.tries.replay ≡ calls.now) }
        ensures flight { IfOk result (λ progress. IsFlight calls.now.list progress.flight) }
        ensures some { IfOk result (λ progress. 0 < length progress.held.items) }
        ensures first { IfOk result (λ progress. progress.flight.at ≡ 0) }
        ensures budget { IfOk result (λ progress. progress.tries.spending.budget ≡ budget) }
        ensures searching { IfOk result (λ progress. (c : List Message) → AreMessagesOf calls.now c → IsSearching c tree progress) }
    {
        let seed = tree.seed();
        let mut held = Vec::new(alloc);
        held.push(Configuration::first(alloc, tree))?;
        let flight = InFlight::new(alloc, calls)?;
        Ok(Progress {
            tries: Tries {
                replay: Replay::new(alloc, seed, calls),
                spending: Spending::new(budget),
            },
            flight,
            common: Vec::new(alloc),
            held,
            lull: Lull::default(),
        })
    }

    /// Passes all messages that are left, or those before the one where it ends. After that it is of no use any more.
    fn run<L: Listener>(&mut self, alloc: Global, listener: &mut L) -> Result<Ended, AllocError>
        requires within { self.old.flight.at ≤ self.old.tries.replay.messages }
        requires flight { IsFlight self.old.tries.replay.list self.old.flight }
        requires some { 0 < length self.old.held.items }
        ensures found { IfOk result (λ ended. (c : List Message) (first : TreeState) → AreMessagesOf self.old.tries.replay c → IsSearching c first self.old →
            IfOrder ended (IsLegalRun c first)) }
        ensures stop { (c : List Message) (first : TreeState) (at code : ℕ) → AreMessagesOf self.old.tries.replay c → IsSearching c first self.old → result ≡ Ok (Stop at code) →
            IsStop c first at × IsLeastCode c first at code }
        ensures gave_up { (c : List Message) (first : TreeState) (at : ℕ) → AreMessagesOf self.old.tries.replay c → IsSearching c first self.old → result ≡ Ok (Ended.Spent at) →
            IsExplainedUpTo c first at × (AreSerialBefore c at → ⊥) }
        ensures endless { (at : ℕ) → IsEndless self.old.tries.spending.budget → result ≡ Ok (Ended.Spent at) → ⊥ }
    {
        let messages = self.tries.replay.calls().messages;
        match self.pass_until(alloc, messages, listener)? {
            Some(ended) => Ok(ended),
            None => Ok(Ended::Order(self.take_order(alloc)?)),
        }
    }

    /// Passes the messages before this one: how it ends, if it ends before. After that and after an error it is of no use any more.
    pub fn pass_until<L: Listener>(
        &mut self,
        alloc: Global,
        until: u32,
        listener: &mut L,
    ) -> Result<Option<Ended>, AllocError>
        requires behind { self.old.flight.at ≤ until }
        requires within { until ≤ self.old.tries.replay.messages }
        requires flight { IsFlight self.old.tries.replay.list self.old.flight }
        requires some { 0 < length self.old.held.items }
        ensures ended { IfOk result (λ ended. IfSome ended (λ ended. (c : List Message) (first : TreeState) → AreMessagesOf self.old.tries.replay c → IsSearching c first self.old →
            EndsEarly c first self.new ended)) }
        ensures at { IfOk result (λ ended. IsNone ended → self.new.flight.at ≡ until) }
        ensures flight { IfOk result (λ ended. IsNone ended → IsFlight self.old.tries.replay.list self.new.flight) }
        ensures some { IfOk result (λ ended. IsNone ended → 0 < length self.new.held.items) }
        ensures on { IfOk result (λ ended. IsNone ended → (c : List Message) (first : TreeState) → AreMessagesOf self.old.tries.replay c → IsSearching c first self.old →
            IsSearching c first self.new) }
        ensures same { IfOk result (λ ended. IsNone ended → self.new.tries.replay ≡ self.old.tries.replay) }
        ensures endless { (at : ℕ) → IsEndless self.old.tries.spending.budget → result ≡ Ok (Some (Ended.Spent at)) → ⊥ }
    {
        let mut told = self.tries.spending.steps_left();
        while self.flight.at < until {
            let at = self.flight.at;
            match self.pass_next(alloc) {
                Ok(None) => {}
                Ok(Some(code)) => return Ok(Some(Ended::Stop { at, code })),
                Err(Halt::Spent) => return Ok(Some(Ended::Spent { at })),
                Err(Halt::Memory) => return Err(AllocError),
            }
            told = self.tell_if_due(listener, told);
        }
        Ok(None)
    }

    /// Tells how far it has come, if many steps were spent since so many were left: how many were left when that was told last.
    fn tell_if_due<L: Listener>(&self, listener: &mut L, told: u64) -> u64 {
        let steps_left = self.tries.spending.steps_left();
        if told.saturating_sub(steps_left) < STEPS_BETWEEN {
            return told;
        }
        listener.hear(&SoFar {
            messages: self.flight.at,
            trees: self.held.len(),
            steps_left,
        });
        steps_left
    }

    /// Passes the next message: the code with which its request is refused, if no order goes past it. After that and after an error it is
    /// of no use any more.
    fn pass_next(&mut self, alloc: Global) -> Result<Option<u16>, Halt>
        requires next { self.old.flight.at < self.old.tries.replay.messages }
        requires flight { IsFlight self.old.tries.replay.list self.old.flight }
        requires some { 0 < length self.old.held.items }
        ensures at { IfOk result (λ code. IsNone code → self.new.flight.at ≡ self.old.flight.at + 1) }
        ensures flight { IfOk result (λ code. IsNone code → IsFlight self.old.tries.replay.list self.new.flight) }
        ensures some { IfOk result (λ code. IsNone code → 0 < length self.new.held.items) }
        ensures on { IfOk result (λ code. IsNone code → (c : List Message) (first : TreeState) → AreMessagesOf self.old.tries.replay c → IsSearching c first self.old →
            IsSearching c first self.new) }
        ensures stop { IfOk result (λ code. IfSome code (λ code. (c : List Message) (first : TreeState) → AreMessagesOf self.old.tries.replay c → IsSearching c first self.old →
            IsStop c first self.old.flight.at × IsLeastCode c first self.old.flight.at code)) }
        ensures left { IfOk result (λ code. IfSome code (λ code. (c : List Message) (first : TreeState) → AreMessagesOf self.old.tries.replay c → IsSearching c first self.old →
            AreLeft c first self.new.common.items self.old.flight.at self.new.held.items × CoversFrom c self.old.flight.at self.new.flight.last_uses)) }
        ensures spent { IsErrOf result Spent → (c : List Message) (first : TreeState) → AreMessagesOf self.old.tries.replay c → IsSearching c first self.old →
            IsExplainedUpTo c first self.old.flight.at × (AreSerialBefore c self.old.flight.at → ⊥) }
        ensures same { IfOk result (λ code. IsNone code → self.new.tries.replay ≡ self.old.tries.replay) }
        ensures budget { IfOk result (λ code. IsNone code → self.new.tries.spending.budget ≡ self.old.tries.spending.budget) }
        ensures endless { IsErrOf result Spent → IsEndless self.old.tries.spending.budget → ⊥ }
    {
        match self.flight.answered() {
            Some(asked) => self.pass_answer(alloc, asked),
            None => {
                self.flight.pass(self.tries.replay.calls())?;
                Ok(None)
            }
        }
    }

    /// Passes the next message, which answers this request, as [`pass_next`](Progress::pass_next).
    fn pass_answer(&mut self, alloc: Global, asked: Pending) -> Result<Option<u16>, Halt>
        requires next { self.old.flight.at < self.old.tries.replay.messages }
        requires flight { IsFlight self.old.tries.replay.list self.old.flight }
        requires some { 0 < length self.old.held.items }
        requires in_flight { IsInFlight self.old.tries.replay.list self.old.flight.at asked }
        requires answered { IsAnswerAt self.old.tries.replay.list asked.place self.old.flight.at }
        ensures at { IfOk result (λ code. IsNone code → self.new.flight.at ≡ self.old.flight.at + 1) }
        ensures flight { IfOk result (λ code. IsNone code → IsFlight self.old.tries.replay.list self.new.flight) }
        ensures some { IfOk result (λ code. IsNone code → 0 < length self.new.held.items) }
        ensures on { IfOk result (λ code. IsNone code → (c : List Message) (first : TreeState) → AreMessagesOf self.old.tries.replay c → IsSearching c first self.old →
            IsSearching c first self.new) }
        ensures stop { IfOk result (λ code. IfSome code (λ code. (c : List Message) (first : TreeState) → AreMessagesOf self.old.tries.replay c → IsSearching c first self.old →
            IsStop c first self.old.flight.at × IsLeastCode c first self.old.flight.at code)) }
        ensures left { IfOk result (λ code. IfSome code (λ code. (c : List Message) (first : TreeState) → AreMessagesOf self.old.tries.replay c → IsSearching c first self.old →
            AreLeft c first self.new.common.items self.old.flight.at self.new.held.items × CoversFrom c self.old.flight.at self.new.flight.last_uses)) }
        ensures spent { IsErrOf result Spent → (c : List Message) (first : TreeState) → AreMessagesOf self.old.tries.replay c → IsSearching c first self.old →
            IsExplainedUpTo c first self.old.flight.at × (AreSerialBefore c self.old.flight.at → ⊥) }
        ensures same { IfOk result (λ code. IsNone code → self.new.tries.replay ≡ self.old.tries.replay) }
        ensures budget { IfOk result (λ code. IsNone code → self.new.tries.spending.budget ≡ self.old.tries.spending.budget) }
        ensures endless { IsErrOf result Spent → IsEndless self.old.tries.spending.budget → ⊥ }
    {
        let due = self.lull.goes_on(&asked, self.flight.is_alone(&asked));
        let held = mem::replace(&mut self.held, Vec::new(alloc));
        let settling = settle(alloc, &mut self.tries, held, &self.flight, asked)?;
        if settling.settled.is_empty() {
            let replay = &mut self.tries.replay;
            let code = least_code(replay, settling.work, asked, &mut self.held)?;
            return Ok(Some(code));
        }
        self.flight.answer(self.tries.replay.calls(), &asked);
        let left = without(alloc, settling.settled, asked.asked)?;
        let in_use = self.flight.in_use();
        self.held = merged_if_due(alloc, &mut self.tries.spending, left, due, &in_use)?;
        join(&mut self.common, &mut self.held)?;
        Ok(None)
    }

    /// The entries that lead to one of those that are held.
    fn take_order(&mut self, alloc: Global) -> Result<Vec<Entry>, AllocError>
        requires { 0 < length self.old.held.items }
        ensures { IfOk result (λ order. (one : PlainConfiguration) × Contains self.old.held.items one × (order.items ≡ self.old.common.items ++ one.entries)) }
    {
        let mut entries = self.held[0].take_entries();
        self.common.append(&mut entries)?;
        Ok(mem::replace(&mut self.common, Vec::new(alloc)))
    }
}

/// The configurations without this request, which is in flight no more.
fn without(
    alloc: Global,
    settled: Vec<Configuration>,
    asked: u32,
) -> Result<Vec<Configuration>, AllocError>
    ensures without { IfOk result (λ held. AreWithoutBy settled.items asked held.items) }
    ensures length { IfOk result (λ held. length held.items ≡ length settled.items) }
{
    let mut held = Vec::new(alloc);
    for mut one in settled {
        one.forget(asked);
        held.push(one)?;
    }
    Ok(held)
}

/// The configurations, each once, if that is to be looked at and there are several, where these openings are of use.
#[tactic(auto, using(crate::proofs::MergedLemmas::merged_same))]
pub(crate) fn merged_if_due(
    alloc: Global,
    spending: &mut Spending,
    held: Vec<Configuration>,
    due: bool,
    in_use: &InUse<'_>,
) -> Result<Vec<Configuration>, Halt>
    ensures merged { IfOk result (λ different. AreMerged (IsInUse in_use.now) held.items different.items) }
    ensures fewer { IfOk result (λ different. length different.items ≤ length held.items) }
    ensures spent { IsErrOf result Spent → 1 < length held.items }
    ensures budget { spending.new.budget ≡ spending.old.budget }
    ensures endless { IsErrOf result Spent → IsEndless spending.old.budget → ⊥ }
{
    if !due || held.len() < 2 {
        return Ok(held);
    }
    merged(alloc, spending, held, in_use)
}

/// The configurations, each once, where these openings are of use.
fn merged(
    alloc: Global,
    spending: &mut Spending,
    held: Vec<Configuration>,
    in_use: &InUse<'_>,
) -> Result<Vec<Configuration>, Halt>
    ensures merged { IfOk result (λ different. AreMerged (IsInUse in_use.now) held.items different.items) }
    ensures fewer { IfOk result (λ different. length different.items ≤ length held.items) }
    ensures budget { spending.new.budget ≡ spending.old.budget }
    ensures endless { IsErrOf result Spent → IsEndless spending.old.budget → ⊥ }
{
    let mut different = Vec::new(alloc);
    let mut known = Known::new(alloc);
    let mut bytes: u64 = 0;
    for mut one in held {
        one.reckon(in_use);
        spending.spend(one.copy_steps())?;
        let added = known.push_new(&mut different, one, in_use)?;
        bytes = bytes.saturating_add(added);
    }
    spending.hold(different.len(), 0, bytes)?;
    Ok(different)
}

/// Takes the entries of the only configuration, if there is one alone, to those that all have in common.
fn join(common: &mut Vec<Entry>, held: &mut Vec<Configuration>) -> Result<(), AllocError>
    ensures held { OnOk result ((c : List Message) (first : TreeState) (at : ℕ) → AreHeldBy c first common.old.items at held.old.items → AreHeldBy c first common.new.items at held.new.items) }
    ensures length { OnOk result (length held.new.items ≡ length held.old.items) }
{
    if held.len() == 1 {
        let mut entries = held[0].take_entries();
        common.append(&mut entries)?;
    }
    Ok(())
}
