//! What a tree allows a call, whatever the call was answered: whether a success has what it needs, and whether an error has its cause.

ghost use Rattle.std.specs.Prelude.{◌≡◌, ◌≢◌, ◌↔◌, ◌<◌, None, length, IsTrue, IfSome, IfNone};
ghost use Rattle.fa_ledger.specs.Calls.{call_shown};
ghost use Rattle.fa_ledger.specs.Operations.{action_shown, list_shown};
ghost use Rattle.fa_ledger.specs.Operations.PlainOperation.{Acts, Lists};
ghost use Rattle.fa_tree.specs.Operations.{action_rule};
ghost use Rattle.fa_tree.specs.Resolved.{resolved};
ghost use Rattle.fa_tree.specs.Rules.{HasCause};
ghost use Rattle.fa_tree.specs.Steps.{OfCallAt};
ghost use Rattle.fa_tree.specs.Telling.{OfRule};
ghost use Rattle.fa_tree.specs.parts.NamedParts.{named_shown, HasFileOfName};

use crate::named::Named;
use crate::tree::Tree;
use fa_ledger::{Action, Call, Calls, List, Operation};

impl Tree {
    /// Whether a success of an action has what it needs of the files that it names.
    fn may_be_done(&self, named: &Named, action: &Action<'_>) -> bool
        requires { HasFileOfName self.now.store named.now (action_shown action.now) }
        ensures { IsTrue result ↔ (action_rule self.now.store (named_shown named.now None) (action_shown action.now)).needs }
    {
        self.stored.may_be_done(named, action)
    }

    /// Whether a success of the call at this place in the list has what it needs of the tree, whatever the call was answered. A
    /// LOOKUP may succeed in any directory: whether the name is there says which success is right.
    ///
    /// None where the tree knows no file for a node that the call names, or no open directory for its handle.
    ///
    /// Takes no memory. Time in the bytes of the names of the call, which are looked up, and that of
    /// [`Call::operation`](fa_ledger::Call::operation); where a directory is moved, time in the directories on the way up too.
    pub fn allows_success(&self, calls: &Calls<'_>, k: usize) -> Option<bool>
        requires { k < length calls.now.list }
        ensures known { IfSome result (λ allowed. OfCallAt calls.now.list k (λ call. OfRule self.now call (λ rule. IsTrue allowed ↔ rule.needs))) }
        ensures unknown { IfNone result (OfCallAt calls.now.list k (λ call. resolved self.now call ≡ None)) }
    {
        let call = calls.list.call(k);
        let operation = call.operation();
        match &operation {
            Operation::List(list) => self.allows_list(&call, list),
            Operation::Act(action) => self.allows_act(&call, action),
        }
    }

    /// Whether this error to the call at this place in the list has its cause in the tree, or is one that may come at any time,
    /// whatever the call was answered. It is the `error` of `struct fuse_out_header`, below 0, as [`fa_bodies::errno`] has them: any
    /// but ENOENT, EEXIST, ENOTDIR, EISDIR and ENOTEMPTY may come at any time. An error may have its cause where a success is allowed
    /// too.
    ///
    /// None where the tree knows no file for a node that the call names, or no open directory for its handle.
    ///
    /// Takes no memory. Time in the bytes of the names of the call, which are looked up, and that of
    /// [`Call::operation`](fa_ledger::Call::operation).
    pub fn gives_cause(&self, calls: &Calls<'_>, k: usize, error: i32) -> Option<bool>
        requires { k < length calls.now.list }
        ensures known { IfSome result (λ gives. OfCallAt calls.now.list k (λ call. OfRule self.now call (λ rule. IsTrue gives ↔ HasCause rule error))) }
        ensures unknown { IfNone result (OfCallAt calls.now.list k (λ call. resolved self.now call ≡ None)) }
    {
        let call = calls.list.call(k);
        let operation = call.operation();
        match &operation {
            Operation::List(list) => self.gives_list_cause(&call, list, error),
            Operation::Act(action) => self.gives_act_cause(&call, action, error),
        }
    }

    /// Whether a success of a call that does not list has what it needs.
    fn allows_act(&self, call: &Call<'_>, action: &Action<'_>) -> Option<bool>
        requires asks { (call_shown call.now).operation ≡ Acts (action_shown action.now) }
        requires plain { call.now.listing ≡ None }
        ensures known { IfSome result (λ allowed. OfRule self.now (call_shown call.now) (λ rule. IsTrue allowed ↔ rule.needs)) }
        ensures unknown { IfNone result (resolved self.now (call_shown call.now) ≡ None) }
    {
        match self.named(call, action) {
            Some(named) => Some(self.may_be_done(&named, action)),
            None => None,
        }
    }

    /// Whether a success of a call that lists has what it needs.
    fn allows_list(&self, call: &Call<'_>, list: &List<'_>) -> Option<bool>
        requires asks { (call_shown call.now).operation ≡ Lists (list_shown list.now) }
        requires listing { call.now.listing ≢ None }
        ensures known { IfSome result (λ allowed. OfRule self.now (call_shown call.now) (λ rule. IsTrue allowed ↔ rule.needs)) }
        ensures unknown { IfNone result (resolved self.now (call_shown call.now) ≡ None) }
    {
        match self.directory_named(call) {
            Some(at) => Some(self.may_list(&at)),
            None => None,
        }
    }

    /// Whether an error of a call that does not list has its cause.
    fn gives_act_cause(&self, call: &Call<'_>, action: &Action<'_>, error: i32) -> Option<bool>
        requires asks { (call_shown call.now).operation ≡ Acts (action_shown action.now) }
        requires plain { call.now.listing ≡ None }
        ensures known { IfSome result (λ gives. OfRule self.now (call_shown call.now) (λ rule. IsTrue gives ↔ HasCause rule error)) }
        ensures unknown { IfNone result (resolved self.now (call_shown call.now) ≡ None) }
    {
        match self.named(call, action) {
            Some(named) => Some(self.has_cause(&named, action, error)),
            None => None,
        }
    }

    /// Whether an error of a call that lists has its cause.
    fn gives_list_cause(&self, call: &Call<'_>, list: &List<'_>, error: i32) -> Option<bool>
        requires asks { (call_shown call.now).operation ≡ Lists (list_shown list.now) }
        requires listing { call.now.listing ≢ None }
        ensures known { IfSome result (λ gives. OfRule self.now (call_shown call.now) (λ rule. IsTrue gives ↔ HasCause rule error)) }
        ensures unknown { IfNone result (resolved self.now (call_shown call.now) ≡ None) }
    {
        match self.directory_named(call) {
            Some(at) => Some(self.may_refuse(&at, error)),
            None => None,
        }
    }
}
