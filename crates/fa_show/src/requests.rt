//! What a request asks for: what its answer's line repeats, and what stands behind it.

use crate::asked::Asked;
use crate::text::Text;
use crate::{naming, opening, partly, passed, words};
use fa_bodies::{RequestBody, opcodes};
use fa_capture::codes;

/// Writes the operation, the node, names, the file handle, the offset and the size.
pub(crate) fn about(text: &mut Text, asked: &Asked<'_>) {
    words::operation(text, asked.opcode);
    if asked.opcode != opcodes::INIT && asked.opcode != opcodes::BATCH_FORGET {
        text.field(" node ", asked.node);
    }
    match &asked.request {
        Ok(request) => about_body(text, asked, &request.body),
        Err(codes::REQUEST_BODY | codes::PROFILE_LIMIT) => partly::about(text, asked),
        Err(_) => {}
    }
}

/// Writes what a body says of names, the file handle, the offset and the size.
fn about_body(text: &mut Text, asked: &Asked<'_>, body: &RequestBody<'_>) {
    match body {
        RequestBody::Lookup { name } | RequestBody::Unlink { name } | RequestBody::Rmdir { name } =>
            { naming::name(text, name) }
        RequestBody::Mknod { name, .. }
        | RequestBody::Mkdir { name, .. }
        | RequestBody::Create { name, .. } => naming::name(text, name),
        RequestBody::Symlink { name, target } => naming::symlink(text, name, target),
        RequestBody::Rename {
            newdir,
            old_name,
            new_name,
        } => { naming::moved(text, *newdir, old_name, new_name) }
        RequestBody::Rename2 {
            newdir,
            flags,
            old_name,
            new_name,
        } => {
            naming::moved(text, *newdir, old_name, new_name);
            naming::rename_flags(text, *flags);
        }
        RequestBody::Link {
            oldnodeid,
            new_name,
        } => naming::link(text, *oldnodeid, new_name),
        RequestBody::Getattr(getattr) => opening::getattr(text, getattr),
        RequestBody::Setattr(setattr) => opening::setattr(text, &setattr.read()),
        RequestBody::Read(read) | RequestBody::Readdir(read) | RequestBody::Readdirplus(read) => {
            opening::range(text, read.fh, read.offset, read.size)
        }
        RequestBody::Write {
            fh,
            offset,
            size,
            ..
        } => opening::range(text, *fh, *offset, *size),
        RequestBody::Release(release) | RequestBody::Releasedir(release) => {
            text.field(" fh ", release.fh)
        }
        RequestBody::Flush(flush) => text.field(" fh ", flush.fh),
        RequestBody::Init(init) => opening::version(text, init.major, init.minor),
        RequestBody::Passed => passed::about(text, asked),
        RequestBody::Forget { .. }
        | RequestBody::Readlink
        | RequestBody::Open(_)
        | RequestBody::Opendir(_)
        | RequestBody::BatchForget { .. } => {}
    }
}

/// Writes what else a request says.
pub(crate) fn further(text: &mut Text, asked: &Asked<'_>) {
    match &asked.request {
        Ok(request) => further_body(text, asked, &request.body),
        Err(codes::REQUEST_BODY | codes::PROFILE_LIMIT) => partly::further(text, asked),
        Err(_) => {}
    }
}

/// Writes what else a body says.
fn further_body(text: &mut Text, asked: &Asked<'_>, body: &RequestBody<'_>) {
    match body {
        RequestBody::Forget { nlookup } => text.field(" nlookup ", *nlookup),
        RequestBody::BatchForget { items, .. } => naming::forgotten(text, items),
        RequestBody::Mknod {
            mode,
            rdev,
            umask,
            ..
        } => {
            naming::made(text, *mode, *umask);
            naming::device(text, *rdev);
        }
        RequestBody::Mkdir { mode, umask, .. } => naming::made(text, *mode, *umask),
        RequestBody::Create {
            flags,
            mode,
            umask,
            ..
        } => {
            opening::flags(text, *flags);
            naming::made(text, *mode, *umask);
        }
        RequestBody::Open(open) => opening::flags(text, open.flags),
        RequestBody::Setattr(setattr) => opening::set(text, &setattr.read()),
        RequestBody::Write {
            write_flags,
            payload,
            ..
        } => { opening::payload(text, *write_flags, payload) }
        RequestBody::Init(init) => opening::init(text, init.max_readahead, init.flags),
        RequestBody::Passed => passed::further(text, asked),
        RequestBody::Lookup { .. }
        | RequestBody::Getattr(_)
        | RequestBody::Readlink
        | RequestBody::Symlink { .. }
        | RequestBody::Unlink { .. }
        | RequestBody::Rmdir { .. }
        | RequestBody::Rename { .. }
        | RequestBody::Rename2 { .. }
        | RequestBody::Link { .. }
        | RequestBody::Read(_)
        | RequestBody::Release(_)
        | RequestBody::Flush(_)
        | RequestBody::Opendir(_)
        | RequestBody::Readdir(_)
        | RequestBody::Releasedir(_)
        | RequestBody::Readdirplus(_) => {}
    }
}
