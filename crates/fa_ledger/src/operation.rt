//! Operations: what tree requests ask for, and what came of each.

ghost use Rattle.std.specs.Prelude.{◌≡◌};
ghost use Rattle.std.specs.Option.{option_map};
ghost use Rattle.fa_bodies.specs.Listing.{entries_left};
ghost use Rattle.fa_bodies.specs.Requests.{body_shown};
ghost use Rattle.fa_bodies.specs.Replies.{reply_shown};
ghost use Rattle.fa_bodies.specs.Views.{entry_shown, attr_shown, setattr_shown};
ghost use Rattle.fa_ledger.specs.Operations.PlainAction.{Lookup, Getattr, Setattr, Readlink, Symlink, Mknod, Mkdir, Unlink, Rmdir, Rename, Rename2, Link, Open, Read, Write, Opendir, Create};
ghost use Rattle.fa_ledger.specs.Operations.{action_shown, created_shown, operation_shown, with_success, action_of, operation_of, action_ended, ended, bare, came_to, done_in, entry_in, created_in, attributes_in, handle_in, count_in, bytes_in, dirents_in};

use fa_bodies::{
    AttrBytes, Entries, EntryBytes, Mode, OpenFlags, OpenOut, RenameFlags, Reply, RequestBody,
    SetattrBytes,
};

/// What came of a request whose success says a `T`.
#[derive(Clone, Copy, Debug)]
pub enum Outcome<T> {
    /// This error was answered: `error` of `struct fuse_out_header`, which is below 0.
    Fails(i32),
    /// It was done, and this was answered.
    Succeeds(T),
    /// It was not answered.
    Unanswered,
}

/// What a tree request that does not list asks for, each with what came of it. Nodes and file handles stand by name in its
/// [`Call`](crate::Call), and are not here. Entries, attributes and what SETATTR asks for stay where they lie in their messages,
/// and of them a field is read when it is asked for.
#[derive(Clone, Copy, Debug)]
pub enum Action<'a> {
    /// The file of a name in a directory. The node id 0 says that the name is not there.
    Lookup {
        name: &'a [u8],
        outcome: Outcome<EntryBytes<'a>>,
    },
    /// The attributes of a file.
    Getattr {
        outcome: Outcome<AttrBytes<'a>>,
    },
    /// A change of attributes of a file.
    Setattr {
        setattr: SetattrBytes<'a>,
        outcome: Outcome<AttrBytes<'a>>,
    },
    /// The target of a symbolic link.
    Readlink {
        outcome: Outcome<&'a [u8]>,
    },
    /// A new symbolic link with this name and target in a directory.
    Symlink {
        name: &'a [u8],
        target: &'a [u8],
        outcome: Outcome<EntryBytes<'a>>,
    },
    /// A new file in a directory that is neither a directory nor a symbolic link.
    Mknod {
        mode: Mode,
        umask: u32,
        name: &'a [u8],
        outcome: Outcome<EntryBytes<'a>>,
    },
    /// A new directory in a directory. The type in its mode is of no meaning.
    Mkdir {
        mode: Mode,
        umask: u32,
        name: &'a [u8],
        outcome: Outcome<EntryBytes<'a>>,
    },
    /// A name of a file that is no directory goes.
    Unlink {
        name: &'a [u8],
        outcome: Outcome<()>,
    },
    /// A name of an empty directory goes.
    Rmdir {
        name: &'a [u8],
        outcome: Outcome<()>,
    },
    /// A name moves from one directory to another, which is the call's `other`.
    Rename {
        old_name: &'a [u8],
        new_name: &'a [u8],
        outcome: Outcome<()>,
    },
    /// The same by RENAME2, or the two names exchange their files, by the flags.
    Rename2 {
        flags: RenameFlags,
        old_name: &'a [u8],
        new_name: &'a [u8],
        outcome: Outcome<()>,
    },
    /// A file, which is the call's `other`, gets a further name in a directory.
    Link {
        new_name: &'a [u8],
        outcome: Outcome<EntryBytes<'a>>,
    },
    /// A file is opened.
    Open {
        outcome: Outcome<OpenOut>,
    },
    /// Bytes of a file: at most `size` of them, from `offset` on.
    Read {
        offset: u64,
        size: u32,
        outcome: Outcome<&'a [u8]>,
    },
    /// Bytes for a file, which are `payload`: `size` of them, from `offset` on. Its success says how many were written.
    Write {
        offset: u64,
        size: u32,
        payload: &'a [u8],
        outcome: Outcome<u32>,
    },
    /// A directory is opened.
    Opendir {
        outcome: Outcome<OpenOut>,
    },
    /// A new file in a directory, or one that is there, is opened.
    Create {
        flags: OpenFlags,
        mode: Mode,
        umask: u32,
        name: &'a [u8],
        outcome: Outcome<(EntryBytes<'a>, OpenOut)>,
    },
}

/// What READDIR and READDIRPLUS ask for, with what came of it: entries of a directory, in at most `size` bytes. READDIRPLUS
/// looks their names up too.
#[derive(Clone, Copy, Debug)]
pub struct List<'a> {
    pub size: u32,
    pub outcome: Outcome<Entries<'a>>,
}

/// What a tree request asks for, with what came of it.
#[derive(Clone, Copy, Debug)]
pub enum Operation<'a> {
    /// READDIR or READDIRPLUS.
    List(List<'a>),
    /// Any other.
    Act(Action<'a>),
}

/// What a reply that says no more than that it is done comes to.
fn done_as(reply: Option<&Reply<'_>>) -> Option<Outcome<()>>
    ensures { result ≡ came_to done_in (option_map (λ r. reply_shown r.now) reply.entry) }
{
    match reply {
        None => Some(Outcome::Unanswered),
        Some(Reply::Refused(error)) => Some(Outcome::Fails(*error)),
        Some(Reply::Empty) => Some(Outcome::Succeeds(())),
        Some(_) => None,
    }
}

/// What an entry comes to.
fn entry_as<'a>(reply: Option<&Reply<'a>>) -> Option<Outcome<EntryBytes<'a>>>
    ensures { option_map (λ o. with_success entry_shown o) result ≡ came_to entry_in (option_map (λ r. reply_shown r.now) reply.entry) }
{
    match reply {
        None => Some(Outcome::Unanswered),
        Some(Reply::Refused(error)) => Some(Outcome::Fails(*error)),
        Some(Reply::Entry(entry)) => Some(Outcome::Succeeds(*entry)),
        Some(_) => None,
    }
}

/// What an entry with an open handle comes to.
fn created_as<'a>(reply: Option<&Reply<'a>>) -> Option<Outcome<(EntryBytes<'a>, OpenOut)>>
    ensures { option_map (λ o. with_success created_shown o) result ≡ came_to created_in (option_map (λ r. reply_shown r.now) reply.entry) }
{
    match reply {
        None => Some(Outcome::Unanswered),
        Some(Reply::Refused(error)) => Some(Outcome::Fails(*error)),
        Some(Reply::Created { entry, open }) => Some(Outcome::Succeeds((*entry, *open))),
        Some(_) => None,
    }
}

/// What attributes come to.
fn attributes_as<'a>(reply: Option<&Reply<'a>>) -> Option<Outcome<AttrBytes<'a>>>
    ensures { option_map (λ o. with_success attr_shown o) result ≡ came_to attributes_in (option_map (λ r. reply_shown r.now) reply.entry) }
{
    match reply {
        None => Some(Outcome::Unanswered),
        Some(Reply::Refused(error)) => Some(Outcome::Fails(*error)),
        Some(Reply::Attributes(attributes)) => Some(Outcome::Succeeds(*attributes)),
        Some(_) => None,
    }
}

/// What an open handle comes to.
fn opened_as(reply: Option<&Reply<'_>>) -> Option<Outcome<OpenOut>>
    ensures { result ≡ came_to handle_in (option_map (λ r. reply_shown r.now) reply.entry) }
{
    match reply {
        None => Some(Outcome::Unanswered),
        Some(Reply::Refused(error)) => Some(Outcome::Fails(*error)),
        Some(Reply::Opened(open)) => Some(Outcome::Succeeds(*open)),
        Some(_) => None,
    }
}

/// What a count of bytes written comes to.
fn written_as(reply: Option<&Reply<'_>>) -> Option<Outcome<u32>>
    ensures { result ≡ came_to count_in (option_map (λ r. reply_shown r.now) reply.entry) }
{
    match reply {
        None => Some(Outcome::Unanswered),
        Some(Reply::Refused(error)) => Some(Outcome::Fails(*error)),
        Some(Reply::Written(count)) => Some(Outcome::Succeeds(*count)),
        Some(_) => None,
    }
}

/// What bytes come to.
fn bytes_as<'a>(reply: Option<&Reply<'a>>) -> Option<Outcome<&'a [u8]>>
    ensures { option_map (λ o. with_success (λ bytes. bytes.now) o) result ≡ came_to bytes_in (option_map (λ r. reply_shown r.now) reply.entry) }
{
    match reply {
        None => Some(Outcome::Unanswered),
        Some(Reply::Refused(error)) => Some(Outcome::Fails(*error)),
        Some(Reply::Bytes(bytes)) => Some(Outcome::Succeeds(*bytes)),
        Some(_) => None,
    }
}

/// What entries of a directory come to.
fn listed_as<'a>(reply: Option<&Reply<'a>>) -> Option<Outcome<Entries<'a>>>
    ensures { option_map (λ o. with_success entries_left o) result ≡ came_to dirents_in (option_map (λ r. reply_shown r.now) reply.entry) }
{
    match reply {
        None => Some(Outcome::Unanswered),
        Some(Reply::Refused(error)) => Some(Outcome::Fails(*error)),
        Some(Reply::Listed(entries)) => Some(Outcome::Succeeds(*entries)),
        Some(_) => None,
    }
}

impl<T> Outcome<T> {
    /// The same, but for what its success says.
    fn bare(&self) -> Outcome<()>
        ensures { result ≡ bare self.now }
    {
        match self {
            Outcome::Fails(error) => Outcome::Fails(*error),
            Outcome::Succeeds(_) => Outcome::Succeeds(()),
            Outcome::Unanswered => Outcome::Unanswered,
        }
    }
}

impl<'a> Action<'a> {
    /// What a request of this body asks for that was answered so, or was not answered, if it is a tree request that does
    /// not list. Each kind has a function of its own, so that a call makes room for what one kind needs, not for that of all.
    fn of(body: &RequestBody<'a>, reply: Option<&Reply<'a>>) -> Option<Action<'a>>
        ensures { option_map action_shown result ≡ action_of (body_shown body.now) (option_map (λ r. reply_shown r.now) reply.entry) }
    {
        match body {
            RequestBody::Lookup { name } => Action::lookup(*name, reply),
            RequestBody::Getattr(_) => Action::getattr(reply),
            RequestBody::Setattr(setattr) => Action::setattr(*setattr, reply),
            RequestBody::Readlink => Action::readlink(reply),
            RequestBody::Symlink { name, target } => Action::symlink(*name, *target, reply),
            RequestBody::Mknod {
                mode,
                umask,
                name,
                ..
            } => Action::mknod(*mode, *umask, *name, reply),
            RequestBody::Mkdir { mode, umask, name } => Action::mkdir(*mode, *umask, *name, reply),
            RequestBody::Unlink { name } => Action::unlink(*name, reply),
            RequestBody::Rmdir { name } => Action::rmdir(*name, reply),
            RequestBody::Rename {
                old_name,
                new_name,
                ..
            } => Action::rename(*old_name, *new_name, reply),
            RequestBody::Rename2 {
                flags,
                old_name,
                new_name,
                ..
            } => Action::rename2(*flags, *old_name, *new_name, reply),
            RequestBody::Link { new_name, .. } => Action::link(*new_name, reply),
            RequestBody::Open(_) => Action::open(reply),
            RequestBody::Read(read) => Action::read(read.offset, read.size, reply),
            RequestBody::Write {
                offset,
                size,
                payload,
                ..
            } => Action::write(*offset, *size, *payload, reply),
            RequestBody::Opendir(_) => Action::opendir(reply),
            RequestBody::Create {
                flags,
                mode,
                umask,
                name,
            } => Action::create(*flags, *mode, *umask, *name, reply),
            RequestBody::Forget { .. }
            | RequestBody::Release(_)
            | RequestBody::Flush(_)
            | RequestBody::Init(_)
            | RequestBody::Releasedir(_)
            | RequestBody::BatchForget { .. }
            | RequestBody::Readdir(_)
            | RequestBody::Readdirplus(_)
            | RequestBody::Passed => None,
        }
    }

    /// What a LOOKUP asks for that was answered so, or was not answered.
    fn lookup(name: &'a [u8], reply: Option<&Reply<'a>>) -> Option<Action<'a>>
        ensures { option_map action_shown result ≡ option_map (λ o. Lookup name.now o) (came_to entry_in (option_map (λ r. reply_shown r.now) reply.entry)) }
    {
        Some(Action::Lookup {
            name,
            outcome: entry_as(reply)?,
        })
    }

    /// What a GETATTR asks for that was answered so, or was not answered.
    fn getattr(reply: Option<&Reply<'a>>) -> Option<Action<'a>>
        ensures { option_map action_shown result ≡ option_map (λ o. Getattr o) (came_to attributes_in (option_map (λ r. reply_shown r.now) reply.entry)) }
    {
        Some(Action::Getattr {
            outcome: attributes_as(reply)?,
        })
    }

    /// What a SETATTR asks for that was answered so, or was not answered.
    fn setattr(setattr: SetattrBytes<'a>, reply: Option<&Reply<'a>>) -> Option<Action<'a>>
        ensures { option_map action_shown result ≡ option_map (λ o. Setattr (setattr_shown setattr.entry) o) (came_to attributes_in (option_map (λ r. reply_shown r.now) reply.entry)) }
    {
        Some(Action::Setattr {
            setattr,
            outcome: attributes_as(reply)?,
        })
    }

    /// What a READLINK asks for that was answered so, or was not answered.
    fn readlink(reply: Option<&Reply<'a>>) -> Option<Action<'a>>
        ensures { option_map action_shown result ≡ option_map (λ o. Readlink o) (came_to bytes_in (option_map (λ r. reply_shown r.now) reply.entry)) }
    {
        Some(Action::Readlink {
            outcome: bytes_as(reply)?,
        })
    }

    /// What a SYMLINK asks for that was answered so, or was not answered.
    fn symlink(name: &'a [u8], target: &'a [u8], reply: Option<&Reply<'a>>) -> Option<Action<'a>>
        ensures { option_map action_shown result ≡ option_map (λ o. Symlink name.now target.now o) (came_to entry_in (option_map (λ r. reply_shown r.now) reply.entry)) }
    {
        Some(Action::Symlink {
            name,
            target,
            outcome: entry_as(reply)?,
        })
    }

    /// What an MKNOD asks for that was answered so, or was not answered.
    fn mknod(
        mode: Mode,
        umask: u32,
        name: &'a [u8],
        reply: Option<&Reply<'a>>,
    ) -> Option<Action<'a>>
        ensures { option_map action_shown result ≡ option_map (λ o. Mknod mode umask name.now o) (came_to entry_in (option_map (λ r. reply_shown r.now) reply.entry)) }
    {
        Some(Action::Mknod {
            mode,
            umask,
            name,
            outcome: entry_as(reply)?,
        })
    }

    /// What an MKDIR asks for that was answered so, or was not answered.
    fn mkdir(
        mode: Mode,
        umask: u32,
        name: &'a [u8],
        reply: Option<&Reply<'a>>,
    ) -> Option<Action<'a>>
        ensures { option_map action_shown result ≡ option_map (λ o. Mkdir mode umask name.now o) (came_to entry_in (option_map (λ r. reply_shown r.now) reply.entry)) }
    {
        Some(Action::Mkdir {
            mode,
            umask,
            name,
            outcome: entry_as(reply)?,
        })
    }

    /// What an UNLINK asks for that was answered so, or was not answered.
    fn unlink(name: &'a [u8], reply: Option<&Reply<'a>>) -> Option<Action<'a>>
        ensures { option_map action_shown result ≡ option_map (λ o. Unlink name.now o) (came_to done_in (option_map (λ r. reply_shown r.now) reply.entry)) }
    {
        Some(Action::Unlink {
            name,
            outcome: done_as(reply)?,
        })
    }

    /// What an RMDIR asks for that was answered so, or was not answered.
    fn rmdir(name: &'a [u8], reply: Option<&Reply<'a>>) -> Option<Action<'a>>
        ensures { option_map action_shown result ≡ option_map (λ o. Rmdir name.now o) (came_to done_in (option_map (λ r. reply_shown r.now) reply.entry)) }
    {
        Some(Action::Rmdir {
            name,
            outcome: done_as(reply)?,
        })
    }

    /// What a RENAME asks for that was answered so, or was not answered.
    fn rename(
        old_name: &'a [u8],
        new_name: &'a [u8],
        reply: Option<&Reply<'a>>,
    ) -> Option<Action<'a>>
        ensures { option_map action_shown result ≡ option_map (λ o. Rename old_name.now new_name.now o) (came_to done_in (option_map (λ r. reply_shown r.now) reply.entry)) }
    {
        Some(Action::Rename {
            old_name,
            new_name,
            outcome: done_as(reply)?,
        })
    }

    /// What a RENAME2 asks for that was answered so, or was not answered.
    fn rename2(
        flags: RenameFlags,
        old_name: &'a [u8],
        new_name: &'a [u8],
        reply: Option<&Reply<'a>>,
    ) -> Option<Action<'a>>
        ensures { option_map action_shown result ≡ option_map (λ o. Rename2 flags old_name.now new_name.now o) (came_to done_in (option_map (λ r. reply_shown r.now) reply.entry)) }
    {
        Some(Action::Rename2 {
            flags,
            old_name,
            new_name,
            outcome: done_as(reply)?,
        })
    }

    /// What a LINK asks for that was answered so, or was not answered.
    fn link(new_name: &'a [u8], reply: Option<&Reply<'a>>) -> Option<Action<'a>>
        ensures { option_map action_shown result ≡ option_map (λ o. Link new_name.now o) (came_to entry_in (option_map (λ r. reply_shown r.now) reply.entry)) }
    {
        Some(Action::Link {
            new_name,
            outcome: entry_as(reply)?,
        })
    }

    /// What an OPEN asks for that was answered so, or was not answered.
    fn open(reply: Option<&Reply<'a>>) -> Option<Action<'a>>
        ensures { option_map action_shown result ≡ option_map (λ o. Open o) (came_to handle_in (option_map (λ r. reply_shown r.now) reply.entry)) }
    {
        Some(Action::Open {
            outcome: opened_as(reply)?,
        })
    }

    /// What a READ asks for that was answered so, or was not answered.
    fn read(offset: u64, size: u32, reply: Option<&Reply<'a>>) -> Option<Action<'a>>
        ensures { option_map action_shown result ≡ option_map (λ o. Read offset size o) (came_to bytes_in (option_map (λ r. reply_shown r.now) reply.entry)) }
    {
        Some(Action::Read {
            offset,
            size,
            outcome: bytes_as(reply)?,
        })
    }

    /// What a WRITE asks for that was answered so, or was not answered.
    fn write(
        offset: u64,
        size: u32,
        payload: &'a [u8],
        reply: Option<&Reply<'a>>,
    ) -> Option<Action<'a>>
        ensures { option_map action_shown result ≡ option_map (λ o. Write offset size payload.now o) (came_to count_in (option_map (λ r. reply_shown r.now) reply.entry)) }
    {
        Some(Action::Write {
            offset,
            size,
            payload,
            outcome: written_as(reply)?,
        })
    }

    /// What an OPENDIR asks for that was answered so, or was not answered.
    fn opendir(reply: Option<&Reply<'a>>) -> Option<Action<'a>>
        ensures { option_map action_shown result ≡ option_map (λ o. Opendir o) (came_to handle_in (option_map (λ r. reply_shown r.now) reply.entry)) }
    {
        Some(Action::Opendir {
            outcome: opened_as(reply)?,
        })
    }

    /// What a CREATE asks for that was answered so, or was not answered.
    fn create(
        flags: OpenFlags,
        mode: Mode,
        umask: u32,
        name: &'a [u8],
        reply: Option<&Reply<'a>>,
    ) -> Option<Action<'a>>
        ensures { option_map action_shown result ≡ option_map (λ o. Create flags mode umask name.now o) (came_to created_in (option_map (λ r. reply_shown r.now) reply.entry)) }
    {
        Some(Action::Create {
            flags,
            mode,
            umask,
            name,
            outcome: created_as(reply)?,
        })
    }

    /// What came of it, but for what its success says.
    ///
    /// Takes no memory, in constant time.
    pub fn ended(&self) -> Outcome<()>
        ensures { result ≡ action_ended (action_shown self.now) }
    {
        match self {
            Action::Lookup { outcome, .. }
            | Action::Symlink { outcome, .. }
            | Action::Mknod { outcome, .. }
            | Action::Mkdir { outcome, .. }
            | Action::Link { outcome, .. } => outcome.bare(),
            Action::Getattr { outcome } | Action::Setattr { outcome, .. } => outcome.bare(),
            Action::Readlink { outcome } | Action::Read { outcome, .. } => outcome.bare(),
            Action::Unlink { outcome, .. }
            | Action::Rmdir { outcome, .. }
            | Action::Rename { outcome, .. }
            | Action::Rename2 { outcome, .. } => *outcome,
            Action::Open { outcome } | Action::Opendir { outcome } => outcome.bare(),
            Action::Write { outcome, .. } => outcome.bare(),
            Action::Create { outcome, .. } => outcome.bare(),
        }
    }
}

impl<'a> Operation<'a> {
    /// What came of it, but for what its success says.
    ///
    /// Takes no memory, in constant time.
    pub fn ended(&self) -> Outcome<()>
        ensures { result ≡ ended (operation_shown self.now) }
    {
        match self {
            Operation::List(list) => list.outcome.bare(),
            Operation::Act(action) => action.ended(),
        }
    }

    /// What a request of this body asks for that was answered so, or was not answered, if it is a tree request. A reply
    /// of another form than that of its success makes no operation; the message grammar refuses it before.
    ///
    /// Takes no memory, in constant time.
    pub(crate) fn of(body: &RequestBody<'a>, reply: Option<&Reply<'a>>) -> Option<Operation<'a>>
        ensures { option_map operation_shown result ≡ operation_of (body_shown body.now) (option_map (λ r. reply_shown r.now) reply.entry) }
    {
        match body {
            RequestBody::Readdir(read) | RequestBody::Readdirplus(read) => {
                Some(Operation::List(List {
                    size: read.size,
                    outcome: listed_as(reply)?,
                }))
            }
            _ => match Action::of(body, reply) {
                Some(action) => Some(Operation::Act(action)),
                None => None,
            },
        }
    }
}
