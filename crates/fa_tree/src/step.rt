//! One step of a tree: a call is judged, and then the tree is what it leaves.

ghost use Rattle.std.specs.Prelude.{◌≡◌, ◌↔◌, ◌<◌, ℕ, Bool, List, Option, None, Some, length, IsTrue, IfSome, IfNone, IfErr, OnOk, OnErr};
ghost use Rattle.fa_tree.specs.declared.id.FileId.{FileId};
ghost use Rattle.std.specs.Option.{option_to_list};
ghost use Rattle.fa_capture.specs.Checks.{AllHold, FirstFailure};
ghost use Rattle.fa_bodies.specs.Dirents.{PlainDirent};
ghost use Rattle.fa_ledger.specs.Calls.{call_shown};
ghost use Rattle.fa_ledger.specs.Choices.{Allows};
ghost use Rattle.fa_ledger.specs.Operations.{action_shown, action_ended};
ghost use Rattle.fa_ledger.specs.Operations.PlainOperation.{Acts};
ghost use Rattle.fa_ledger.specs.SoFar.{listing_so_far};
ghost use Rattle.fa_tree.specs.State.{Store, file_of};
ghost use Rattle.fa_tree.specs.Resolved.{resolved, other_of};
ghost use Rattle.fa_tree.specs.Rules.{HasCause};
ghost use Rattle.fa_tree.specs.Bindings.{AreBound};
ghost use Rattle.fa_tree.specs.Operations.{action_rule, action_said, count_written, said};
ghost use Rattle.fa_tree.specs.Steps.{OfCallAt, names_given, opens_anew, setting, given_in, operation_checks, step_checks, tree_done, tree_after, Steps};
ghost use Rattle.fa_tree.specs.Refusals.{DoneAnd, MayGrow, TellsOf};
ghost use Rattle.fa_tree.specs.parts.NamedParts.{named_shown, HasFileOfName};
ghost use Rattle.fa_tree.specs.parts.StepParts.{done_checks};

use crate::error::StepError;
use crate::id::FileId;
use crate::named::Named;
use crate::replay::Replay;
use crate::tree::Tree;
use fa_capture::codes;
use fa_ledger::{Action, Call, Calls, NodeName, Operation, Outcome};
use std::alloc::AllocError;

/// How many bytes an action wrote: as its answer says, and as the order says where it has none.
fn count_written(action: &Action<'_>, wrote: Option<u32>) -> u32
    ensures { result ≡ count_written (Acts (action_shown action.now)) wrote }
{
    match action {
        Action::Write {
            outcome: Outcome::Succeeds(count),
            ..
        } => *count,
        _ => wrote.unwrap_or(0),
    }
}

/// The names of nodes that the answer to a call gives, in their order.
#[inline(always)]
pub(crate) fn names_given<'c>(call: &'c Call<'_>) -> &'c [NodeName]
    ensures { result.now ≡ names_given (call_shown call.now) }
{
    match &call.answer {
        Some(answer) => answer.given.names(),
        None => &[],
    }
}

/// Whether the answer to a call opens a handle that was not open.
#[inline(always)]
fn opens_anew(call: &Call<'_>) -> bool
    ensures { result ≡ opens_anew (call_shown call.now) }
{
    match &call.answer {
        Some(answer) => answer.opens,
        None => false,
    }
}

impl Tree {
    /// One step: the call at this place in the list, taken as done now. `wrote` is what an order says of it: how many bytes an
    /// unanswered WRITE wrote, nothing else. Where the call was answered, the tree judges whether it would have answered so;
    /// after a success it is the tree that the request leaves, after an error it stays as it is. A request without an answer is
    /// done as a success without one.
    ///
    /// `Refused` tells the least code that applies:
    /// [`UNKNOWN_HERE`](fa_capture::codes::UNKNOWN_HERE) that the tree knows no file for a node that the call names, or no open
    /// directory for its handle;
    /// [`SUCCESS_NOT_ALLOWED`](fa_capture::codes::SUCCESS_NOT_ALLOWED) that the request can't succeed here, or not with such an
    /// answer, or has made its file already; [`ERROR_WITHOUT_CAUSE`](fa_capture::codes::ERROR_WITHOUT_CAUSE) that an error of POSIX that has one cause is
    /// answered without it; [`ATTRIBUTES`](fa_capture::codes::ATTRIBUTES) that attributes (`struct fuse_attr`) are not those of
    /// the file; [`NODE_ID_OF_ANOTHER`](fa_capture::codes::NODE_ID_OF_ANOTHER) that a node is given for another file than
    /// before; [`BYTES_READ`](fa_capture::codes::BYTES_READ) that bytes are not those of the file, or a target another one;
    /// [`LISTING`](fa_capture::codes::LISTING) that entries are not what the rule of listings allows.
    /// `Memory` tells that memory was refused. The tree is then as it was.
    ///
    /// Errors, GETATTR, READLINK, READ, OPEN, UNLINK, RMDIR, SETATTR without a size and RENAME2 with `RENAME_EXCHANGE` take no
    /// memory. Time and memory otherwise
    /// in the bytes of names and targets, and in those that are read and written; where a directory is moved, time in the
    /// directories on the way up too. READDIR and READDIRPLUS take memory in the names that were listed so far and time in all
    /// names of the answers that they go on from (this profile), and at the end of a listing time in the places that the
    /// directory had, or had had, when it was opened. Both messages of the call are read again.
    pub fn step(&mut self, calls: &Calls<'_>, k: usize, wrote: Option<u32>) -> Result<(), StepError>
        requires there { k < length calls.now.list }
        requires allowed { OfCallAt calls.now.list k (λ call. Allows call wrote) }
        ensures steps { OnOk result (OfCallAt calls.now.list k (λ call. Steps self.old self.new call wrote (listing_so_far calls.now.list k))) }
        ensures refused { IfErr result (λ e. OfCallAt calls.now.list k (λ call. TellsOf e call (step_checks self.old call wrote (listing_so_far calls.now.list k)))) }
        ensures unchanged { OnErr result (self.new ≡ self.old) }
    {
        let mut replay = Replay::new(self.stored.alloc, self.stored.seed, calls);
        self.step_in(&mut replay, k, wrote)
    }

    /// The same step, for whoever takes several steps along one list of calls: it answers what [`step`](Tree::step) does of the
    /// calls of the replay, which stay the same, and leaves the same tree.
    ///
    /// `Refused` tells the code that `step` tells; `Memory` that memory was refused. The tree is then as it was, and the next
    /// step may be taken along the same replay.
    ///
    /// Time and memory as `step`, but for READDIR and READDIRPLUS. These take time and memory in the names that they answer, and in
    /// those of the answer that they go on from where only a part of it counts, and time in those of the step before on the handle, where
    /// that step was that of this answer, or of a request that goes on from the same and did not end the listing, and there was room for
    /// its names in what the replay keeps; elsewhere also in all names of the answers that they go on from. The replay keeps these names,
    /// their own too, until the next such step on the handle, which may end the listing, or until there is no room for others beside
    /// them. Time in the names that were listed more than once comes on top, and at the end of a listing in the places of the directory
    /// that had ever had a name when it was opened.
    pub fn step_in(
        &mut self,
        replay: &mut Replay<'_>,
        k: usize,
        wrote: Option<u32>,
    ) -> Result<(), StepError>
        requires there { k < length replay.old.list }
        requires allowed { OfCallAt replay.old.list k (λ call. Allows call wrote) }
        ensures steps { OnOk result (OfCallAt replay.old.list k (λ call. Steps self.old self.new call wrote (listing_so_far replay.old.list k))) }
        ensures refused { IfErr result (λ e. OfCallAt replay.old.list k (λ call. TellsOf e call (step_checks self.old call wrote (listing_so_far replay.old.list k)))) }
        ensures unchanged { OnErr result (self.new ≡ self.old) }
        ensures same { replay.new ≡ replay.old }
    {
        let call = replay.calls().list.call(k);
        let operation = call.operation();
        match &operation {
            Operation::List(list) => self.list(replay, k, &call, list),
            Operation::Act(action) => self.act(&call, action, wrote),
        }
    }

    /// The file that the name of a node stands for, if a step gave it one. It stands for that for good, also when the last name that a
    /// directory has for the file goes.
    ///
    /// Takes no memory, in expected constant time.
    #[inline(always)]
    pub fn file_of(&self, name: &NodeName) -> Option<FileId>
        ensures { result ≡ file_of self.now name.now }
    {
        match name {
            NodeName::Root => Some(self.root()),
            NodeName::Given { .. } => self.nodes.get(name),
        }
    }

    /// The files that the nodes of a call stand for, if the tree knows all of them. Its file of a name is none yet: [`named`](Tree::named)
    /// finds that.
    #[inline(always)]
    pub(crate) fn files_named(&self, call: &Call<'_>) -> Option<Named>
        ensures found { IfSome result (λ named. (file_of self.now call.now.node ≡ Some named.node) × (other_of self.now call.now.other ≡ Some named.other) × (named.asked ≡ call.now.asked)) }
        ensures none { IfNone result ((node : FileId) (other : Option FileId) → file_of self.now call.now.node ≡ Some node → other_of self.now call.now.other ≡ Some other → ⊥) }
    {
        let node = self.file_of(&call.node)?;
        match &call.other {
            None => Some(Named {
                asked: call.asked,
                node,
                other: None,
                file: None,
            }),
            Some(name) => match self.file_of(name) {
                None => None,
                Some(file) => Some(Named {
                    asked: call.asked,
                    node,
                    other: Some(file),
                    file: None,
                }),
            },
        }
    }

    /// The files that a call names that does not list, if the tree knows all of them, with the file of the name of its action.
    #[inline(always)]
    pub(crate) fn named(&self, call: &Call<'_>, action: &Action<'_>) -> Option<Named>
        requires { call.now.listing ≡ None }
        ensures found { IfSome result (λ named. resolved self.now (call_shown call.now) ≡ Some (named_shown named None)) }
        ensures file { IfSome result (λ named. HasFileOfName self.now.store named (action_shown action.now)) }
        ensures none { IfNone result (resolved self.now (call_shown call.now) ≡ None) }
    {
        match self.files_named(call) {
            None => None,
            Some(named) => Some(Named {
                file: self.stored.file_of_name(named.node, action),
                ..named
            }),
        }
    }

    /// The name of a node that an answer gives, with the file for which it is given, if it gives one.
    fn binding(
        &self,
        named: &Named,
        call: &Call<'_>,
        action: &Action<'_>,
    ) -> Option<(NodeName, FileId)>
        requires { HasFileOfName self.now.store named.now (action_shown action.now) }
        ensures { (count : ℕ) (so_far : List PlainDirent) → (action_rule self.now.store (named_shown named.now None) (action_shown action.now)).needs
            → given_in (setting self.now.store (named_shown named.now None) (call_shown call.now) (Acts (action_shown action.now)) count so_far) (call_shown call.now) (Acts (action_shown action.now)) ≡ option_to_list result }
    {
        let file = self.stored.file_given(named, action)?;
        match names_given(call).first() {
            Some(name) => Some((*name, file)),
            None => None,
        }
    }

    /// Whether the name of a node may be given for this file.
    fn may_bind(&self, binding: &Option<(NodeName, FileId)>) -> bool
        ensures { IsTrue result ↔ AreBound self.now.nodes (option_to_list binding.now) }
    {
        match binding {
            None => true,
            Some((name, file)) => match self.nodes.get(name) {
                None => true,
                Some(other) => other == *file,
            },
        }
    }

    /// Whether an action may succeed, and finds what its answer says.
    fn may_succeed(&self, named: &Named, action: &Action<'_>) -> bool
        requires { HasFileOfName self.now.store named.now (action_shown action.now) }
        ensures { (after : Store) (direct : Bool) → IsTrue result ↔ ((action_rule self.now.store (named_shown named.now None) (action_shown action.now)).needs × (action_said self.now.store after (named_shown named.now None) direct (action_shown action.now)).found) }
    {
        self.stored.may_succeed(named, action)
    }

    /// Whether the attributes in an answer fit.
    fn attributes_fit(&self, named: &Named, call: &Call<'_>, action: &Action<'_>) -> bool
        requires file { HasFileOfName self.now.store named.now (action_shown action.now) }
        requires needs { (action_rule self.now.store (named_shown named.now None) (action_shown action.now)).needs }
        ensures { (count : ℕ) (so_far : List PlainDirent) → IsTrue result ↔ (said (setting self.now.store (named_shown named.now None) (call_shown call.now) (Acts (action_shown action.now)) count so_far) (Acts (action_shown action.now))).attributes }
    {
        self.stored.attributes_fit(named, action, call.truncates)
    }

    /// Whether the names of nodes in an answer may be given for their files.
    fn nodes_fit(&self, named: &Named, call: &Call<'_>, action: &Action<'_>) -> bool
        requires file { HasFileOfName self.now.store named.now (action_shown action.now) }
        requires needs { (action_rule self.now.store (named_shown named.now None) (action_shown action.now)).needs }
        ensures { (count : ℕ) (so_far : List PlainDirent) → IsTrue result ↔ AreBound self.now.nodes (given_in (setting self.now.store (named_shown named.now None) (call_shown call.now) (Acts (action_shown action.now)) count so_far) (call_shown call.now) (Acts (action_shown action.now))) }
    {
        self.may_bind(&self.binding(named, call, action))
    }

    /// Whether the bytes in an answer are those that the action asks for.
    fn bytes_fit(&self, named: &Named, call: &Call<'_>, action: &Action<'_>) -> bool
        ensures { (count : ℕ) (so_far : List PlainDirent) → IsTrue result ↔ (said (setting self.now.store (named_shown named.now None) (call_shown call.now) (Acts (action_shown action.now)) count so_far) (Acts (action_shown action.now))).bytes }
    {
        self.stored.bytes_fit(named, action, call.direct)
    }

    /// Judges an action that did not fail: a success, or one that an order takes as done though it was not answered.
    fn judge_done(&self, named: &Named, call: &Call<'_>, action: &Action<'_>) -> Result<(), u16>
        requires { HasFileOfName self.now.store named.now (action_shown action.now) }
        ensures ok { OnOk result ((count : ℕ) (so_far : List PlainDirent) → AllHold (done_checks self.now.nodes (setting self.now.store (named_shown named.now None) (call_shown call.now) (Acts (action_shown action.now)) count so_far) (call_shown call.now) (Acts (action_shown action.now)))) }
        ensures fault { IfErr result (λ code. (count : ℕ) (so_far : List PlainDirent) → FirstFailure (done_checks self.now.nodes (setting self.now.store (named_shown named.now None) (call_shown call.now) (Acts (action_shown action.now)) count so_far) (call_shown call.now) (Acts (action_shown action.now))) code) }
    {
        if !self.may_succeed(named, action) {
            return Err(codes::SUCCESS_NOT_ALLOWED);
        }
        if !self.attributes_fit(named, call, action) {
            return Err(codes::ATTRIBUTES);
        }
        if !self.nodes_fit(named, call, action) {
            return Err(codes::NODE_ID_OF_ANOTHER);
        }
        if !self.bytes_fit(named, call, action) {
            return Err(codes::BYTES_READ);
        }
        Ok(())
    }

    /// Whether an error has its cause.
    pub(crate) fn has_cause(&self, named: &Named, action: &Action<'_>, error: i32) -> bool
        requires { HasFileOfName self.now.store named.now (action_shown action.now) }
        ensures { IsTrue result ↔ HasCause (action_rule self.now.store (named_shown named.now None) (action_shown action.now)) error }
    {
        self.stored.has_cause(named, action, error)
    }

    /// Judges what came of a call that names these files, by the file of its name.
    pub(crate) fn judge(
        &self,
        named: &Named,
        call: &Call<'_>,
        action: &Action<'_>,
    ) -> Result<(), u16>
        requires { HasFileOfName self.now.store named.now (action_shown action.now) }
        ensures ok { OnOk result ((count : ℕ) (so_far : List PlainDirent) → AllHold (operation_checks self.now.nodes (setting self.now.store (named_shown named.now None) (call_shown call.now) (Acts (action_shown action.now)) count so_far) (call_shown call.now) (Acts (action_shown action.now)))) }
        ensures fault { IfErr result (λ code. (count : ℕ) (so_far : List PlainDirent) → FirstFailure (operation_checks self.now.nodes (setting self.now.store (named_shown named.now None) (call_shown call.now) (Acts (action_shown action.now)) count so_far) (call_shown call.now) (Acts (action_shown action.now))) code) }
    {
        match action.ended() {
            Outcome::Fails(error) => {
                if self.has_cause(named, action, error) {
                    Ok(())
                } else {
                    Err(codes::ERROR_WITHOUT_CAUSE)
                }
            }
            _ => self.judge_done(named, call, action),
        }
    }

    /// Takes an action over that was judged and did not fail, with the file of its name.
    fn take_done(
        &mut self,
        named: &Named,
        call: &Call<'_>,
        action: &Action<'_>,
        count: u32,
    ) -> Result<(), AllocError>
        requires file { HasFileOfName self.old.store named.now (action_shown action.now) }
        requires needs { (action_rule self.old.store (named_shown named.now None) (action_shown action.now)).needs }
        ensures taken { OnOk result (self.new ≡ tree_done self.old (named_shown named.now None) (call_shown call.now) (Acts (action_shown action.now)) count) }
        ensures memory { OnErr result (MayGrow (action_shown action.now)) }
        ensures unchanged { OnErr result (self.new ≡ self.old) }
    {
        let opens = opens_anew(call);
        let truncates = call.truncates;
        match self.binding(named, call, action) {
            None => self
                .stored
                .leave(named, action, truncates, count, call.asked, opens),
            Some(given) => {
                self.nodes.reserve()?;
                self.stored
                    .leave(named, action, truncates, count, call.asked, opens)?;
                self.nodes.bind(given);
                Ok(())
            }
        }
    }

    /// Takes a call over that was judged, with the file of its name.
    fn take(
        &mut self,
        named: &Named,
        call: &Call<'_>,
        action: &Action<'_>,
        count: u32,
    ) -> Result<(), AllocError>
        requires file { HasFileOfName self.old.store named.now (action_shown action.now) }
        requires judged { (count : ℕ) (so_far : List PlainDirent) → AllHold (operation_checks self.old.nodes (setting self.old.store (named_shown named.now None) (call_shown call.now) (Acts (action_shown action.now)) count so_far) (call_shown call.now) (Acts (action_shown action.now))) }
        ensures taken { OnOk result (self.new ≡ tree_after self.old (named_shown named.now None) (call_shown call.now) (Acts (action_shown action.now)) count) }
        ensures memory { OnErr result (DoneAnd (action_ended (action_shown action.now)) (MayGrow (action_shown action.now))) }
        ensures unchanged { OnErr result (self.new ≡ self.old) }
    {
        match action.ended() {
            Outcome::Fails(_) => Ok(()),
            _ => self.take_done(named, call, action, count),
        }
    }

    /// One step, of a call that does not list.
    fn act(
        &mut self,
        call: &Call<'_>,
        action: &Action<'_>,
        wrote: Option<u32>,
    ) -> Result<(), StepError>
        requires asks { (call_shown call.now).operation ≡ Acts (action_shown action.now) }
        requires plain { call.now.listing ≡ None }
        ensures steps { OnOk result ((so_far : List PlainDirent) → Steps self.old self.new (call_shown call.now) wrote so_far) }
        ensures refused { IfErr result (λ e. (so_far : List PlainDirent) → TellsOf e (call_shown call.now) (step_checks self.old (call_shown call.now) wrote so_far)) }
        ensures unchanged { OnErr result (self.new ≡ self.old) }
    {
        match self.named(call, action) {
            None => Err(StepError::Refused(codes::UNKNOWN_HERE)),
            Some(named) => {
                let count = count_written(action, wrote);
                self.judge(&named, call, action)?;
                self.take(&named, call, action, count)?;
                Ok(())
            }
        }
    }
}
