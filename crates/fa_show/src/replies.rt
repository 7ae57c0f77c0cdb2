//! What a message of the server says.

use crate::asked::{Asked, Told, said};
use crate::naming::FEW;
use crate::opening;
use crate::text::Text;
use crate::words::{self, FOPEN_FLAGS};
use bitflags::Flags;
use fa_bodies::{
    Attributes, Dirent, Entries, EntryOut, Negotiated, OpenOut, Reply, RequestBody, opcodes,
};
use fa_capture::Packet;

/// Writes what a message of the server says, to a request if it is known.
pub(crate) fn say(
    text: &mut Text,
    packet: &Packet<'_>,
    told: &Told<'_>,
    asked: Option<&Asked<'_>>,
) {
    if told.unique == 0 {
        notification(text, told);
    } else if told.error != 0 {
        words::error(text, told.error);
    } else {
        success(text, packet, told, asked);
    }
}

/// Writes a notification.
fn notification(text: &mut Text, told: &Told<'_>) {
    text.word("notification ");
    words::notification(text, told.error);
    text.word(" body ");
    text.count(told.behind.len(), " byte", " bytes");
}

/// Writes a success.
fn success(text: &mut Text, packet: &Packet<'_>, told: &Told<'_>, asked: Option<&Asked<'_>>) {
    let Some(asked) = asked else {
        return done(text, told.behind);
    };
    let Ok(request) = &asked.request else {
        return done(text, told.behind);
    };
    match said(request, packet) {
        Some(reply) => answer(text, asked, told, &reply),
        None => unread(text, &request.body, told.behind),
    }
}

/// Writes a success of which no more is read.
fn done(text: &mut Text, body: &[u8]) {
    text.word("ok");
    if !body.is_empty() {
        text.word(", body ");
        text.count(body.len(), " byte", " bytes");
    }
}

/// Writes what could be read of a success that has not the body of one.
fn unread(text: &mut Text, asked: &RequestBody<'_>, body: &[u8]) {
    match (asked, body) {
        (RequestBody::Read(_), _) => data(text, body),
        (RequestBody::Write { .. }, [a, b, c, d, _, _, _, _]) => {
            text.field("written ", u64::from(u32::from_le_bytes([*a, *b, *c, *d])))
        }
        _ => done(text, body),
    }
}

/// Writes what a reply says to its request.
fn answer(text: &mut Text, asked: &Asked<'_>, told: &Told<'_>, reply: &Reply<'_>) {
    match reply {
        Reply::Refused(error) => words::error(text, *error),
        Reply::Empty => text.word("ok"),
        Reply::Entry(entry) => entry_of(text, asked.opcode, &entry.read()),
        Reply::Created { entry, open } => created(text, &entry.read(), open),
        Reply::Attributes(found) => attributes(text, &found.read().attr),
        Reply::Opened(open) => opened(text, open),
        Reply::Written(count) => text.field("written ", u64::from(*count)),
        Reply::Bytes(bytes) => bytes_of(text, asked.opcode, bytes),
        Reply::Listed(entries) => listed(text, entries),
        Reply::Negotiated(init) => {
            version(text, init);
            opening::init(text, init.max_readahead, init.flags);
        }
        Reply::Skipped => done(text, told.behind),
    }
}

/// Writes the version of the protocol that a success of INIT tells.
pub(crate) fn version(text: &mut Text, init: &Negotiated) {
    text.field("", u64::from(init.major));
    text.field(".", u64::from(init.minor));
}

/// Writes attributes.
fn attributes(text: &mut Text, attributes: &Attributes) {
    words::mode(text, attributes.mode.bits());
    text.field(" size ", attributes.size);
    text.field(" nlink ", u64::from(attributes.nlink));
}

/// Writes the file of a name, or that the name is not there.
fn entry_of(text: &mut Text, opcode: u32, entry: &EntryOut) {
    if entry.nodeid == 0 && opcode == opcodes::LOOKUP {
        text.word("node 0");
    } else {
        file_of(text, entry);
    }
}

/// Writes the file of a name.
fn file_of(text: &mut Text, entry: &EntryOut) {
    text.field("node ", entry.nodeid);
    text.word(" ");
    attributes(text, &entry.attr);
}

/// Writes an open handle.
fn opened(text: &mut Text, open: &OpenOut) {
    text.field("fh ", open.fh);
    let bits = open.open_flags.bits();
    if bits != 0 {
        text.word(" open_flags ");
        words::flags(text, bits, &FOPEN_FLAGS);
    }
}

/// Writes what CREATE is answered.
fn created(text: &mut Text, entry: &EntryOut, open: &OpenOut) {
    file_of(text, entry);
    text.word(" ");
    opened(text, open);
}

/// Writes the bytes of a file, or a target.
fn bytes_of(text: &mut Text, opcode: u32, bytes: &[u8]) {
    if opcode == opcodes::READLINK {
        text.name(bytes);
    } else {
        data(text, bytes);
    }
}

/// Writes the bytes of a file.
fn data(text: &mut Text, bytes: &[u8]) {
    text.count(bytes.len(), " byte ", " bytes ");
    text.data(bytes);
}

/// Writes the entries of a directory: how many there are, and the first of them.
fn listed(text: &mut Text, entries: &Entries<'_>) {
    let count = count(*entries);
    if count == 0 {
        return text.word("no entry");
    }
    text.count(count, " entry", " entries");
    let shown = if text.is_whole() { count } else { FEW };
    for dirent in entries.take(shown) {
        text.word(" ");
        entry(text, &dirent);
    }
    if shown < count {
        text.word(" ..");
    }
}

/// How many entries there are.
fn count(entries: Entries<'_>) -> usize {
    let mut count: usize = 0;
    for _ in entries {
        count = count.saturating_add(1);
    }
    count
}

/// Writes an entry of a directory.
fn entry(text: &mut Text, dirent: &Dirent<'_>) {
    text.word("[");
    text.name(dirent.name);
    text.field(" off ", dirent.off);
    text.word(" ");
    words::file_type(text, dirent.kind);
    match &dirent.entry {
        Some(entry) if entry.nodeid != 0 => looked_up(text, entry),
        _ => {}
    }
    text.word("]");
}

/// Writes what a READDIRPLUS says of an entry.
fn looked_up(text: &mut Text, entry: &EntryOut) {
    text.field(" node ", entry.nodeid);
    text.word(" ");
    words::mode(text, entry.attr.mode.bits());
}
