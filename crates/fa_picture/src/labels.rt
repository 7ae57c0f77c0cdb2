//! The words in a bar.

use bitflags::Flags;
use fa_bodies::{Attributes, Entries, FattrFlags, Kind, OpenFlags, Reply, Request, RequestBody};
use fa_capture::Packet;
use fa_show::{Text, Told, message_in, said, words};

/// What a notification is called, by its code (`enum fuse_notify_code` of `fuse.h`): first what one is called that has no name.
static NOTIFICATIONS: [&str; 7] = [
    "notification",
    "POLL",
    "INVAL_INODE",
    "INVAL_ENTRY",
    "STORE",
    "RETRIEVE",
    "DELETE",
];

/// How much is said of what a request acts on.
#[derive(Clone, Copy)]
pub(crate) enum Detail {
    /// Of a node the size and the offset too.
    Extent,
    /// Of a node its number alone.
    Node,
}

/// Writes the operation, and that it empties a file that is there.
pub(crate) fn operation(text: &mut Text, request: &Request<'_>) {
    words::operation(text, request.opcode);
    let flags = match &request.body {
        RequestBody::Open(open) => open.flags,
        RequestBody::Create { flags, .. } => *flags,
        _ => return,
    };
    if flags.contains(OpenFlags::TRUNC) {
        text.word(" O_TRUNC");
    }
}

/// Writes on what a request acts: names, or its node.
pub(crate) fn objects(text: &mut Text, request: &Request<'_>, detail: Detail) {
    match &request.body {
        RequestBody::Rename {
            old_name,
            new_name,
            ..
        }
        | RequestBody::Rename2 {
            old_name,
            new_name,
            ..
        } => {
            text.name(old_name);
            text.word(" to ");
            text.name(new_name);
        }
        RequestBody::Lookup { name }
        | RequestBody::Unlink { name }
        | RequestBody::Rmdir { name }
        | RequestBody::Symlink { name, .. }
        | RequestBody::Mknod { name, .. }
        | RequestBody::Mkdir { name, .. }
        | RequestBody::Create { name, .. }
        | RequestBody::Link { new_name: name, .. } => text.name(name),
        RequestBody::Init(_) | RequestBody::BatchForget { .. } => {}
        body => {
            text.field("node ", request.node);
            if let Detail::Extent = detail {
                extent(text, body);
            }
        }
    }
}

/// Writes the size and the offset of a request on a node.
fn extent(text: &mut Text, body: &RequestBody<'_>) {
    match body {
        RequestBody::Read(read) => range(text, read.size, read.offset),
        RequestBody::Write { size, offset, .. } => range(text, *size, *offset),
        RequestBody::Readdir(read) | RequestBody::Readdirplus(read) => {
            text.field(", at ", read.offset)
        }
        RequestBody::Setattr(setattr) if setattr.valid().contains(FattrFlags::SIZE) => {
            text.field(", size ", setattr.size())
        }
        _ => {}
    }
}

/// Writes which bytes are read or written.
fn range(text: &mut Text, size: u32, offset: u64) {
    text.field(", ", u64::from(size));
    text.field(" at ", offset);
}

/// The error of an answer; 0, if it is none.
pub(crate) fn error_of(answer: &Packet<'_>) -> i32 {
    match message_in(answer) {
        Some(told) => told.error,
        None => 0,
    }
}

/// Writes what an answer says to a request: its error, or the size of a file, or how many bytes or entries it has.
pub(crate) fn result(text: &mut Text, request: &Request<'_>, answer: &Packet<'_>) {
    let code = error_of(answer);
    if code != 0 {
        error(text, code);
    } else if let Some(reply) = said(request, answer) {
        success(text, &reply);
    }
}

/// Writes an error.
pub(crate) fn error(text: &mut Text, error: i32) {
    match words::error_name(error) {
        Some(name) => text.word(name),
        None => words::signed(text, error),
    }
}

/// Writes what a success says.
fn success(text: &mut Text, reply: &Reply<'_>) {
    match reply {
        Reply::Entry(entry) | Reply::Created { entry, .. } => size(text, &entry.read().attr),
        Reply::Attributes(told) => size(text, &told.read().attr),
        Reply::Bytes(bytes) => text.count(bytes.len(), " byte", " bytes"),
        Reply::Listed(entries) => listed(text, *entries),
        _ => {}
    }
}

/// Writes the size of a file, if it is a regular one.
fn size(text: &mut Text, attributes: &Attributes) {
    if attributes.mode.file_type() == Some(Kind::Regular) {
        text.field("size ", attributes.size);
    }
}

/// Writes how many entries there are.
fn listed(text: &mut Text, entries: Entries<'_>) {
    let mut count: usize = 0;
    for _ in entries {
        count = count.saturating_add(1);
    }
    if count == 0 {
        text.word("no entry");
    } else {
        text.count(count, " entry", " entries");
    }
}

/// Writes what a message of the server is that answers nothing: a notification, an error or a success.
pub(crate) fn alone(text: &mut Text, told: &Told<'_>) {
    if told.unique == 0 {
        text.word(match NOTIFICATIONS.get(told.error.max(0) as usize) {
            Some(name) => name,
            None => "notification",
        });
    } else if told.error == 0 {
        text.word("ok");
    } else {
        error(text, told.error);
    }
}
