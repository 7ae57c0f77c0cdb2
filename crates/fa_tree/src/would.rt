//! What a step would answer, of a tree that stays as it is.

ghost use Rattle.std.specs.Prelude.{◌≡◌, ◌≢◌, ◌<◌, ℕ, List, Option, None, Some, length, slice_get, IfErr, OnOk};
ghost use Rattle.fa_capture.specs.Checks.{AllHold, FirstFailure};
ghost use Rattle.fa_bodies.specs.Dirents.{PlainDirent};
ghost use Rattle.fa_ledger.specs.Calls.{call_shown};
ghost use Rattle.fa_ledger.specs.Operations.{action_shown, list_shown};
ghost use Rattle.fa_ledger.specs.Operations.PlainOperation.{Acts, Lists};
ghost use Rattle.fa_ledger.specs.SoFar.{listing_so_far};
ghost use Rattle.fa_tree.specs.Telling.{Foretells};
ghost use Rattle.fa_tree.specs.Steps.{OfCallAt, step_checks};

use crate::error::StepError;
use crate::replay::Replay;
use crate::tree::Tree;
use fa_capture::codes;
use fa_ledger::{Action, Call, Operation};

impl Tree {
    /// What [`step_in`](Tree::step_in) would answer of the call at this place, however many bytes an order says that it wrote; the
    /// tree stays as it is. Whether `step_in` would find memory for what comes it does not say.
    ///
    /// `Refused` tells the code that `step_in` tells; `Memory` that memory was refused to a READDIR or READDIRPLUS, for the names that
    /// were listed so far and for the nodes that the answer gives.
    ///
    /// Takes no memory but for READDIR and READDIRPLUS, these as `step_in`. Time as `step_in`, but none for what is written. It counts as
    /// a step for what the replay keeps of listings: to try a listing between the steps of others on its handle, have a replay of its
    /// own.
    pub fn would(&self, replay: &mut Replay<'_>, k: usize) -> Result<(), StepError>
        requires { k < length replay.old.list }
        ensures allowed { OnOk result (OfCallAt replay.old.list k (λ call. (wrote : Option ℕ) → AllHold (step_checks self.now call wrote (listing_so_far replay.old.list k)))) }
        ensures refused { IfErr result (λ e. OfCallAt replay.old.list k (λ call. (wrote : Option ℕ) → Foretells e call.operation (step_checks self.now call wrote (listing_so_far replay.old.list k)))) }
        ensures same { replay.new ≡ replay.old }
    {
        let call = replay.calls().list.call(k);
        let operation = call.operation();
        match &operation {
            Operation::List(list) => self.would_list(replay, k, &call, list),
            Operation::Act(action) => Ok(self.would_act(&call, action)?),
        }
    }

    /// The same of a call that does not list.
    fn would_act(&self, call: &Call<'_>, action: &Action<'_>) -> Result<(), u16>
        requires asks { (call_shown call.now).operation ≡ Acts (action_shown action.now) }
        requires plain { call.now.listing ≡ None }
        ensures allowed { OnOk result ((wrote : Option ℕ) (so_far : List PlainDirent) → AllHold (step_checks self.now (call_shown call.now) wrote so_far)) }
        ensures refused { IfErr result (λ code. (wrote : Option ℕ) (so_far : List PlainDirent) → FirstFailure (step_checks self.now (call_shown call.now) wrote so_far) code) }
    {
        match self.named(call, action) {
            None => Err(codes::UNKNOWN_HERE),
            Some(named) => self.judge(&named, call, action),
        }
    }

    /// The same of a call that lists.
    fn would_list<'c>(
        &self,
        replay: &mut Replay<'c>,
        k: usize,
        call: &Call<'_>,
        list: &fa_ledger::List<'c>,
    ) -> Result<(), StepError>
        requires there { slice_get replay.old.list k ≡ Some (call_shown call.now) }
        requires asks { (call_shown call.now).operation ≡ Lists (list_shown list.now) }
        requires listing { call.now.listing ≢ None }
        ensures allowed { OnOk result ((wrote : Option ℕ) → AllHold (step_checks self.now (call_shown call.now) wrote (listing_so_far replay.old.list k))) }
        ensures refused { IfErr result (λ e. (wrote : Option ℕ) → Foretells e (Lists (list_shown list.now)) (step_checks self.now (call_shown call.now) wrote (listing_so_far replay.old.list k))) }
        ensures same { replay.new ≡ replay.old }
    {
        self.judge_named(replay, k, call, list)?;
        Ok(())
    }
}
