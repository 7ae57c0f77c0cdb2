//! Calls: the requests that act on the tree, each with what it names and with its answer.

ghost use Rattle.std.specs.Prelude.{◌≡◌, ◌≢◌, ◌↔◌, IsTrue};
ghost use Rattle.fa_ledger.specs.Calls.{call_shown, given_shown};
ghost use Rattle.fa_ledger.specs.Choices.{Allows};
ghost use Rattle.fa_ledger.specs.declared.operation.Outcome.TheVariants.{Unanswered};
ghost use Rattle.fa_ledger.specs.Operations.{ended, operation_shown};

use crate::messages::CallMessages;
use crate::name::NodeName;
use crate::operation::Operation;
use crate::placing::may_be_placed;
use std::slice;

/// The names of the nodes that an answer gives, in its order. [`names`](GivenNodes::names) has them as a slice.
#[derive(Clone, Copy, Debug)]
pub enum GivenNodes<'c> {
    /// It gives none.
    Nothing,
    /// One: LOOKUP, SYMLINK, MKNOD, MKDIR, LINK, CREATE.
    One(NodeName),
    /// Those of the entries of a READDIRPLUS.
    Several(&'c [NodeName]),
}

impl GivenNodes<'_> {
    /// The names, as a slice.
    ///
    /// Takes no memory, in constant time.
    #[inline(always)]
    pub fn names(&self) -> &[NodeName]
        ensures { result.now ≡ given_shown self.now }
    {
        match self {
            GivenNodes::Nothing => &[],
            GivenNodes::One(name) => slice::from_ref(name),
            GivenNodes::Several(names) => names,
        }
    }
}

/// The answer to a tree request. What it says is in the call's operation.
#[derive(Clone, Copy, Debug)]
pub struct Answer<'c> {
    /// The number of its message.
    pub at: u32,
    /// The nodes that it gives.
    pub given: GivenNodes<'c>,
    /// Whether it opens a file handle that was not open.
    pub opens: bool,
}

/// What a READDIR or READDIRPLUS goes on from.
#[derive(Clone, Copy, Debug, PartialEq, Eq)]
pub struct Listing {
    /// The number of the request that it goes on from, and how many entries of its answer count: those up to and with the
    /// first whose `off` (`struct fuse_dirent` of `fuse.h`) is this request's `offset` (`struct fuse_read_in`). Of several
    /// earlier answers on the handle with such an entry the last counts, by its message number. None where it begins at
    /// offset 0, and where there is no such answer (this profile).
    pub before: Option<(u32, u32)>,
    /// Whether it begins at an offset other than 0 that no earlier answer on the handle has, or goes on from a listing that
    /// is adrift.
    pub adrift: bool,
    /// Whether the handle's key stood above one since it was opened, as of this request.
    pub shared: bool,
}

/// A tree request, with its answer where it has one.
///
/// It is what [`CallList`](crate::CallList) shows of one that it keeps, and what it refers to lives as long as that list.
#[derive(Clone, Copy, Debug)]
pub struct Call<'c> {
    /// The number of the request's message.
    pub asked: u32,
    /// Its request, and the reply where it has one. [`operation`](Call::operation) reads them.
    pub messages: CallMessages<'c>,
    /// The node of its header, by name.
    pub node: NodeName,
    /// The new directory of a RENAME or RENAME2, and the file of a LINK.
    pub other: Option<NodeName>,
    /// The file handle that it uses: the number of the request whose answer opened its key when that last stood at zero.
    pub handle: Option<u32>,
    /// Whether an opening of that handle which was answered before this request is for direct input and output
    /// (`FOPEN_DIRECT_IO` of `fuse.h`).
    pub direct: bool,
    /// Whether its success empties a file that is there (`O_TRUNC` of POSIX `open`): CREATE by that flag, OPEN where
    /// `FUSE_ATOMIC_O_TRUNC` of `fuse.h` was negotiated too. It is the request's, answered or not.
    pub truncates: bool,
    /// What a READDIR or READDIRPLUS goes on from, answered or not. None for any other call.
    pub listing: Option<Listing>,
    /// Its answer.
    pub answer: Option<Answer<'c>>,
}

impl<'c> Call<'c> {
    /// What it asks for, with what came of it.
    ///
    /// Takes no memory, in constant time, but for the bytes of the names and targets of MKNOD, SYMLINK, RENAME and RENAME2: both
    /// messages are read again.
    #[inline(always)]
    pub fn operation(&self) -> Operation<'c>
        ensures { operation_shown result ≡ (call_shown self.now).operation }
    {
        self.messages.operation()
    }

    /// Whether its messages have a reply: of the calls of a capture these are the ones with an `answer`
    /// ([`laws`](crate::laws)).
    ///
    /// Takes no memory, in constant time.
    #[inline(always)]
    pub fn is_answered(&self) -> bool
        ensures { IsTrue result ↔ (ended (call_shown self.now).operation ≢ Unanswered) }
    {
        self.messages.is_answered()
    }

    /// Whether an order may name the request with this count of bytes written, or without one: an answered request
    /// without one; one that was not answered and may change what is stored without one as well, but for a WRITE, which
    /// has a count of at most its size; one that only reads, and was not answered, not at all (this profile).
    ///
    /// Takes no memory, in constant time where it is answered, and otherwise in that of [`operation`](Call::operation).
    pub fn allows(&self, wrote: Option<u32>) -> bool
        ensures { IsTrue result ↔ Allows (call_shown self.now) wrote }
    {
        match &self.answer {
            Some(_) => wrote.is_none(),
            None => may_be_placed(&self.operation(), wrote),
        }
    }
}
