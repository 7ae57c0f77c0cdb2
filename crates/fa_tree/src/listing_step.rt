//! One step of a call that lists: READDIR and READDIRPLUS.

ghost use Rattle.std.specs.Prelude.{◌≡◌, ◌≢◌, ◌↔◌, ℕ, Option, None, Some, slice_get, [], All, IsTrue, IsFalse, IfOk, IfSome, IfNone, IfErr, OnOk, OnErr};
ghost use Rattle.std.specs.FinMap.{get};
ghost use Rattle.std.specs.Option.{option_map};
ghost use Rattle.fa_capture.specs.Checks.{AllHold, FirstFailure};
ghost use Rattle.fa_bodies.specs.Listing.{entries_left};
ghost use Rattle.fa_ledger.specs.Calls.{call_shown};
ghost use Rattle.fa_ledger.specs.Operations.{bare, list_shown};
ghost use Rattle.fa_ledger.specs.Operations.PlainOperation.{Lists};
ghost use Rattle.fa_ledger.specs.SoFar.{listing_so_far};
ghost use Rattle.fa_tree.specs.State.{IsDirectory};
ghost use Rattle.fa_tree.specs.Resolved.{Resolved, resolved};
ghost use Rattle.fa_tree.specs.Directories.{judged, IsTypedIfLookedUp, EntriesAre, files_listed};
ghost use Rattle.fa_tree.specs.Opening.{directory_rule};
ghost use Rattle.fa_tree.specs.Rules.{HasCause};
ghost use Rattle.fa_tree.specs.Bindings.{AreBound, bound};
ghost use Rattle.fa_tree.specs.Steps.{names_given, given_in, operation_checks, step_checks, Steps};
ghost use Rattle.fa_tree.specs.Refusals.{DoneAnd, TellsOf};
ghost use Rattle.fa_tree.specs.declared.error.StepError.TheVariants.{Refused};
ghost use Rattle.fa_tree.specs.parts.OpenParts.{open_of};
ghost use Rattle.fa_tree.specs.parts.NamedParts.{named_shown, directory_shown};
ghost use Rattle.fa_tree.specs.parts.ListingParts.{entries_checks, settled, TellsSuch};
ghost use Rattle.fa_tree.specs.parts.TallyParts.{ListsAt};

use crate::error::StepError;
use crate::id::FileId;
use crate::named::{Named, NamedDirectory};
use crate::replay::Replay;
use crate::step::names_given;
use crate::tree::Tree;
use fa_bodies::Entries;
use fa_capture::codes;
use fa_ledger::{Call, List, NodeName, Outcome};
use std::alloc::AllocError;

impl Tree {
    /// Files that are named, with the directory that the request of this number opened, if one did.
    fn directory_of(&self, named: Named, asked: u32) -> Option<NamedDirectory<'_>>
        ensures { option_map directory_shown result ≡ option_map (λ h. named_shown named (Some h)) (get self.now.handles asked) }
    {
        match self.stored.open_directory(asked) {
            Some(names) => Some(NamedDirectory { named, names }),
            None => None,
        }
    }

    /// The files that a call names, and the open directory that it lists, if the tree knows all of them.
    pub(crate) fn directory_named(&self, call: &Call<'_>) -> Option<NamedDirectory<'_>>
        requires { call.now.listing ≢ None }
        ensures found { IfSome result (λ at. resolved self.now (call_shown call.now) ≡ Some (directory_shown at)) }
        ensures none { IfNone result (resolved self.now (call_shown call.now) ≡ None) }
    {
        match (self.files_named(call), call.handle) {
            (Some(named), Some(asked)) => self.directory_of(named, asked),
            _ => None,
        }
    }

    /// Whether entries are what the rule of listings allows for a call.
    fn entries_are<'c>(
        &self,
        at: &NamedDirectory<'_>,
        replay: &mut Replay<'c>,
        k: usize,
        call: &Call<'_>,
        size: u32,
        entries: Entries<'c>,
    ) -> Result<bool, AllocError>
        requires { ListsAt replay.old.list k (entries_left entries) }
        ensures are { IfOk result (λ are. IsTrue are ↔ EntriesAre self.now.store size (Some (open_of at.now.names)) call.now.listing (listing_so_far replay.old.list k) (entries_left entries.entry)) }
        ensures same { replay.new ≡ replay.old }
    {
        match &call.listing {
            Some(listing) => self
                .stored
                .is_listed(&at.names, replay, k, listing, entries, size),
            None => Ok(false),
        }
    }

    /// Whether a request that lists may succeed.
    pub(crate) fn may_list(&self, at: &NamedDirectory<'_>) -> bool
        ensures { IsTrue result ↔ IsDirectory self.now.store (directory_shown at.now).node }
    {
        self.stored.is_directory(at.named.node)
    }

    /// Whether a request that lists may be refused so.
    pub(crate) fn may_refuse(&self, at: &NamedDirectory<'_>, error: i32) -> bool
        ensures { IsTrue result ↔ HasCause (directory_rule self.now.store (directory_shown at.now).node) error }
    {
        self.stored.may_refuse_to_list(at.named.node, error)
    }

    /// Whether the types in the attributes of entries fit.
    fn types_fit(&self, at: &NamedDirectory<'_>, entries: Entries<'_>) -> bool
        ensures { IsTrue result ↔ All (IsTypedIfLookedUp self.now.store (open_of at.now.names).directory) (judged (entries_left entries.entry)) }
    {
        self.stored.all_typed(at.names.directory(), entries)
    }

    /// The names of nodes that entries give, each with its file.
    fn nodes_listed(
        &self,
        at: &NamedDirectory<'_>,
        given: &[NodeName],
        entries: Entries<'_>,
    ) -> Result<Vec<(NodeName, FileId)>, AllocError>
        ensures { IfOk result (λ nodes. nodes.items ≡ bound given.now (files_listed self.now.store (open_of at.now.names).directory (entries_left entries.entry))) }
    {
        self.stored
            .nodes_listed(at.names.directory(), given, entries)
    }

    /// Whether names of nodes may be given for these files.
    fn may_bind_all(&self, nodes: &[(NodeName, FileId)]) -> Result<bool, AllocError>
        ensures { IfOk result (λ may. IsTrue may ↔ AreBound self.now.nodes nodes.now) }
    {
        self.nodes.may_bind_all(self.stored.alloc, nodes)
    }

    /// Judges entries that answer a call which lists: the names of nodes that they give, each with its file.
    fn judge_entries<'c>(
        &self,
        at: &NamedDirectory<'_>,
        replay: &mut Replay<'c>,
        k: usize,
        call: &Call<'_>,
        size: u32,
        entries: Entries<'c>,
    ) -> Result<Vec<(NodeName, FileId)>, StepError>
        requires { ListsAt replay.old.list k (entries_left entries) }
        ensures ok { IfOk result (λ nodes. AllHold (entries_checks self.now.nodes self.now.store (directory_shown at.now) call.now.listing size (listing_so_far replay.old.list k) (names_given (call_shown call.now)) (entries_left entries.entry)) × (nodes.items ≡ bound (names_given (call_shown call.now)) (files_listed self.now.store (open_of at.now.names).directory (entries_left entries.entry)))) }
        ensures refused { IfErr result (λ e. TellsSuch e (FirstFailure (entries_checks self.now.nodes self.now.store (directory_shown at.now) call.now.listing size (listing_so_far replay.old.list k) (names_given (call_shown call.now)) (entries_left entries.entry))) (Unit {0})) }
        ensures same { replay.new ≡ replay.old }
    {
        if !self.may_list(at) {
            return Err(StepError::Refused(codes::SUCCESS_NOT_ALLOWED));
        }
        if !self.types_fit(at, entries) {
            return Err(StepError::Refused(codes::ATTRIBUTES));
        }
        let nodes = self.nodes_listed(at, names_given(call), entries)?;
        if !self.may_bind_all(&nodes)? {
            return Err(StepError::Refused(codes::NODE_ID_OF_ANOTHER));
        }
        if !self.entries_are(at, replay, k, call, size, entries)? {
            return Err(StepError::Refused(codes::LISTING));
        }
        Ok(nodes)
    }

    /// No names of nodes, where this holds; else a refusal with this code.
    fn nothing_given(&self, holds: bool, code: u16) -> Result<Vec<(NodeName, FileId)>, StepError>
        ensures ok { IfOk result (λ nodes. IsTrue holds × (nodes.items ≡ [])) }
        ensures refused { IfErr result (λ e. (e ≡ Refused code) × IsFalse holds) }
    {
        if holds {
            Ok(Vec::new(self.stored.alloc))
        } else {
            Err(StepError::Refused(code))
        }
    }

    /// Judges what came of a call that lists: the names of nodes that come with it, each with its file.
    fn judge_listing<'c>(
        &self,
        at: &NamedDirectory<'_>,
        replay: &mut Replay<'c>,
        k: usize,
        call: &Call<'_>,
        list: &List<'c>,
    ) -> Result<Vec<(NodeName, FileId)>, StepError>
        requires there { slice_get replay.old.list k ≡ Some (call_shown call.now) }
        requires asks { (call_shown call.now).operation ≡ Lists (list_shown list.now) }
        ensures ok { IfOk result (λ nodes. AllHold (operation_checks self.now.nodes (settled self.now.store (directory_shown at.now) call.now.listing (listing_so_far replay.old.list k)) (call_shown call.now) (Lists (list_shown list.now))) × (nodes.items ≡ given_in (settled self.now.store (directory_shown at.now) call.now.listing (listing_so_far replay.old.list k)) (call_shown call.now) (Lists (list_shown list.now)))) }
        ensures refused { IfErr result (λ e. TellsSuch e (FirstFailure (operation_checks self.now.nodes (settled self.now.store (directory_shown at.now) call.now.listing (listing_so_far replay.old.list k)) (call_shown call.now) (Lists (list_shown list.now)))) (DoneAnd (bare (list_shown list.now).outcome) (Unit {0}))) }
        ensures same { replay.new ≡ replay.old }
    {
        match list.outcome {
            Outcome::Fails(error) => {
                self.nothing_given(self.may_refuse(at, error), codes::ERROR_WITHOUT_CAUSE)
            }
            Outcome::Succeeds(entries) => {
                self.judge_entries(at, replay, k, call, list.size, entries)
            }
            Outcome::Unanswered => {
                self.nothing_given(self.may_list(at), codes::SUCCESS_NOT_ALLOWED)
            }
        }
    }

    /// Judges a call that lists, whether the tree knows what it names too: the names of nodes that come with it, each with its file.
    pub(crate) fn judge_named<'c>(
        &self,
        replay: &mut Replay<'c>,
        k: usize,
        call: &Call<'_>,
        list: &List<'c>,
    ) -> Result<Vec<(NodeName, FileId)>, StepError>
        requires there { slice_get replay.old.list k ≡ Some (call_shown call.now) }
        requires asks { (call_shown call.now).operation ≡ Lists (list_shown list.now) }
        requires listing { call.now.listing ≢ None }
        ensures ok { IfOk result (λ nodes. (x : Resolved) × (resolved self.now (call_shown call.now) ≡ Some x) × AllHold (operation_checks self.now.nodes (settled self.now.store x call.now.listing (listing_so_far replay.old.list k)) (call_shown call.now) (Lists (list_shown list.now))) × (nodes.items ≡ given_in (settled self.now.store x call.now.listing (listing_so_far replay.old.list k)) (call_shown call.now) (Lists (list_shown list.now)))) }
        ensures refused { IfErr result (λ e. (wrote : Option ℕ) → TellsOf e (call_shown call.now) (step_checks self.now (call_shown call.now) wrote (listing_so_far replay.old.list k))) }
        ensures same { replay.new ≡ replay.old }
    {
        match self.directory_named(call) {
            None => Err(StepError::Refused(codes::UNKNOWN_HERE)),
            Some(at) => self.judge_listing(&at, replay, k, call, list),
        }
    }

    /// One step, of a call that lists.
    pub(crate) fn list<'c>(
        &mut self,
        replay: &mut Replay<'c>,
        k: usize,
        call: &Call<'_>,
        list: &List<'c>,
    ) -> Result<(), StepError>
        requires there { slice_get replay.old.list k ≡ Some (call_shown call.now) }
        requires asks { (call_shown call.now).operation ≡ Lists (list_shown list.now) }
        requires listing { call.now.listing ≢ None }
        ensures steps { OnOk result ((wrote : Option ℕ) → Steps self.old self.new (call_shown call.now) wrote (listing_so_far replay.old.list k)) }
        ensures refused { IfErr result (λ e. (wrote : Option ℕ) → TellsOf e (call_shown call.now) (step_checks self.old (call_shown call.now) wrote (listing_so_far replay.old.list k))) }
        ensures same { replay.new ≡ replay.old }
        ensures unchanged { OnErr result (self.new ≡ self.old) }
    {
        let nodes = self.judge_named(replay, k, call, list)?;
        if !nodes.is_empty() {
            self.nodes.reserve_for(nodes.len())?;
            self.nodes.bind_all(&nodes);
        }
        Ok(())
    }
}
