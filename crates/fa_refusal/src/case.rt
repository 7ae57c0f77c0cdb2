//! Tree requests.

ghost use Rattle.std.specs.Prelude.{◌≡◌, Some, slice_get, IfSome};
ghost use Rattle.fa_ledger.specs.Calls.{call_shown};

use fa_ledger::{Action, Call, Calls, NodeName, Operation};
use fa_tree::{FileId, OpenedDirectory, Tree};

/// A tree request, with what it asks for and what came of it.
#[derive(Clone, Copy)]
pub struct Case<'c> {
    /// Its place among the calls.
    pub place: usize,
    /// Its call.
    pub call: Call<'c>,
    /// The operation of the call.
    pub operation: Operation<'c>,
}

/// A name, and the node of the directory in which it is sought.
#[derive(Clone, Copy)]
pub struct NamedPlace<'c> {
    /// The node.
    pub node: NodeName,
    /// The name.
    pub name: &'c [u8],
}

impl<'c> Case<'c> {
    /// The request at this place among the calls, if there is one.
    ///
    /// Takes no memory, in the time of [`Call::operation`](fa_ledger::Call::operation).
    pub fn at(calls: &'c Calls<'_>, place: usize) -> Option<Self>
        ensures found { IfSome result (λ case. slice_get calls.now.list place ≡ Some (call_shown case.call)) }
    {
        let call = calls.list.get(place)?;
        Some(Case {
            place,
            call,
            operation: call.operation(),
        })
    }

    /// The request of this message number, if it is a tree request.
    ///
    /// Takes no memory, and time as [`at`](Case::at) and logarithmic in the calls.
    pub fn of(calls: &'c Calls<'_>, asked: u32) -> Option<Self>
        ensures found { IfSome result (λ case. case.call.asked ≡ asked) }
    {
        Case::at(calls, calls.find(asked)?)
    }

    /// Whether an order may name it.
    pub fn may_be_placed(&self) -> bool {
        self.call.answer.is_some() || !self.operation.keeps_tree()
    }

    /// The action that it is, if it does not list.
    pub fn action(&self) -> Option<&Action<'c>> {
        match &self.operation {
            Operation::Act(action) => Some(action),
            Operation::List(_) => None,
        }
    }

    /// The name in the directory of its node, if it has one, with that node.
    pub fn first_place(&self) -> Option<NamedPlace<'c>> {
        match name_of(self.action()) {
            Some(name) => Some(NamedPlace {
                node: self.call.node,
                name,
            }),
            None => None,
        }
    }

    /// The new name of a RENAME, with the node of the new directory.
    pub fn second_place(&self) -> Option<NamedPlace<'c>> {
        match (self.call.other, new_name_of(self.action())) {
            (Some(node), Some(name)) => Some(NamedPlace { node, name }),
            _ => None,
        }
    }

    /// The file of its node in a tree, if the tree knows the node. Takes no memory.
    pub fn node_in(&self, tree: &Tree) -> Option<FileId> {
        tree.file_of(&self.call.node)
    }

    /// The file of its second node in a tree, if it has one: of the new directory of a RENAME, of what a LINK gives a further name.
    pub fn other_in(&self, tree: &Tree) -> Option<FileId> {
        match &self.call.other {
            Some(other) => tree.file_of(other),
            None => None,
        }
    }

    /// The file in a tree that has its name in the directory of its node, if it has a name and there is one. Takes no memory.
    pub(crate) fn named_in(&self, tree: &Tree) -> Option<FileId> {
        match (self.node_in(tree), name_of(self.action())) {
            (Some(directory), Some(name)) => tree.find(directory, name),
            _ => None,
        }
    }

    /// The directory that it lists, as it was opened in a tree, if it was. Takes no memory.
    pub(crate) fn opened_in<'t>(&self, tree: &'t Tree) -> Option<OpenedDirectory<'t>> {
        match self.call.handle {
            Some(handle) => tree.open_directory(handle),
            None => None,
        }
    }
}

/// The name that an action has in the directory of its node, if it has one.
fn name_of<'c>(action: Option<&Action<'c>>) -> Option<&'c [u8]> {
    match action {
        Some(
            Action::Lookup { name, .. }
            | Action::Symlink { name, .. }
            | Action::Mknod { name, .. }
            | Action::Mkdir { name, .. }
            | Action::Unlink { name, .. }
            | Action::Rmdir { name, .. }
            | Action::Create { name, .. },
        ) => Some(*name),
        Some(Action::Rename { old_name, .. } | Action::Rename2 { old_name, .. }) => {
            Some(*old_name)
        }
        Some(Action::Link { new_name, .. }) => Some(*new_name),
        _ => None,
    }
}

/// The name to which an action moves another, if it does.
fn new_name_of<'c>(action: Option<&Action<'c>>) -> Option<&'c [u8]> {
    match action {
        Some(Action::Rename { new_name, .. } | Action::Rename2 { new_name, .. }) => {
            Some(*new_name)
        }
        _ => None,
    }
}
