//! The bodies of requests: one reader for each shape.

ghost use Rattle.std.specs.Prelude.{◌↔◌, ◌++◌, ℕ, List, [], ◌∷◌, IsTrue, IfSome, IfNone, IfOk, IfErr};
ghost use Rattle.fa_capture.specs.Checks.{FirstFailure, checks_of};
ghost use Rattle.fa_bodies.specs.Fields.{IsSpelled};
ghost use Rattle.fa_bodies.specs.Fields.Field.{Name};
ghost use Rattle.fa_bodies.specs.Requests.{PlainBody, IsRequestBody, IsWithinLimit, body_rules, body_shown};

use crate::block::{Block, front, whole};
use crate::flags::FattrFlags;
use crate::forget::{BatchForgetIn, ForgetIn};
use crate::forget_one::ForgetOne;
use crate::handles::WriteIn;
use crate::making::{CreateIn, LinkIn, MkdirIn, MknodIn, Rename2In, RenameIn};
use crate::names::{known_name, name_at, whole_name, whole_target};
use crate::opcodes::*;
use crate::rename_flags::RenameFlags;
use crate::requests::RequestBody;
use crate::views::SetattrBytes;
use bitflags::Flags;
use fa_capture::codes;

/// The most bytes that a file may have, 1 TiB.
pub const MAX_FILE_BYTES: u64 = 1_099_511_627_776;

/// The body of a request with this opcode. The error is the code of the first check that fails.
#[inline(always)]
pub(crate) fn request_body(opcode: u32, body: &[u8]) -> Result<RequestBody<'_>, u16>
    ensures found { IfOk result (λ b. IsRequestBody opcode body.now (body_shown b)) }
    ensures limit { IfOk result (λ b. IsWithinLimit (body_shown b)) }
    ensures fault { IfErr result
        (FirstFailure (checks_of (λ Such. Such opcode body.now) body_rules)) }
{
    if !is_operation(opcode) {
        return Err(codes::OPERATION);
    }
    let Some(body) = body_of(opcode, body) else {
        return Err(codes::REQUEST_BODY);
    };
    if !is_within_limit(&body) {
        return Err(codes::PROFILE_LIMIT);
    }
    Ok(body)
}

/// The body of a request with this opcode, if the bytes are one.
// It is inlined, and so is each reader of a body: one call of a function that is not would keep the body in memory for all of them.
#[inline(always)]
fn body_of(opcode: u32, body: &[u8]) -> Option<RequestBody<'_>>
    ensures found { IfSome result (λ b. IsRequestBody opcode body.now (body_shown b)) }
    ensures none { IfNone result ((b : PlainBody) → IsRequestBody opcode body.now b → ⊥) }
{
    match opcode {
        LOOKUP => Some(RequestBody::Lookup {
            name: whole_name(body)?,
        }),
        FORGET => forget(body),
        GETATTR => Some(RequestBody::Getattr(whole(body)?)),
        SETATTR => Some(RequestBody::Setattr(SetattrBytes::whole(body)?)),
        READLINK => readlink(body),
        SYMLINK => symlink(body),
        MKNOD => mknod(body),
        MKDIR => mkdir(body),
        UNLINK => Some(RequestBody::Unlink {
            name: whole_name(body)?,
        }),
        RMDIR => Some(RequestBody::Rmdir {
            name: whole_name(body)?,
        }),
        RENAME => rename(body),
        LINK => link(body),
        OPEN => Some(RequestBody::Open(whole(body)?)),
        READ => Some(RequestBody::Read(whole(body)?)),
        WRITE => write(body),
        RELEASE => Some(RequestBody::Release(whole(body)?)),
        FLUSH => Some(RequestBody::Flush(whole(body)?)),
        INIT => init(body),
        OPENDIR => Some(RequestBody::Opendir(whole(body)?)),
        READDIR => Some(RequestBody::Readdir(whole(body)?)),
        RELEASEDIR => Some(RequestBody::Releasedir(whole(body)?)),
        CREATE => create(body),
        BATCH_FORGET => batch_forget(body),
        READDIRPLUS => Some(RequestBody::Readdirplus(whole(body)?)),
        RENAME2 => rename2(body),
        _ if is_bystander(opcode) || is_changer(opcode) => Some(RequestBody::Passed),
        _ => None,
    }
}

/// The body of a request with this opcode that bytes are known to be. The name of a LOOKUP, MKDIR, UNLINK, RMDIR, LINK or CREATE
/// is not looked at.
#[inline(always)]
pub(crate) fn known_body(opcode: u32, body: &[u8]) -> RequestBody<'_>
    requires { ∥ ((b : PlainBody) × IsRequestBody opcode body.now b) ∥₁ }
    ensures { (b : PlainBody) → IsRequestBody opcode body.now b → IsRequestBody opcode body.now (body_shown result) }
{
    match opcode {
        LOOKUP => RequestBody::Lookup {
            name: known_name(body),
        },
        MKDIR => {
            let (MkdirIn { mode, umask }, name) = known_named(body);
            RequestBody::Mkdir { mode, umask, name }
        }
        UNLINK => RequestBody::Unlink {
            name: known_name(body),
        },
        RMDIR => RequestBody::Rmdir {
            name: known_name(body),
        },
        LINK => {
            let (LinkIn { oldnodeid }, new_name) = known_named(body);
            RequestBody::Link {
                oldnodeid,
                new_name,
            }
        }
        CREATE => {
            let (CreateIn { flags, mode, umask }, name) = known_named(body);
            RequestBody::Create {
                flags,
                mode,
                umask,
                name,
            }
        }
        _ => body_of(opcode, body).unwrap(),
    }
}

/// A struct of `fuse.h`, and a name behind it that is known to end the bytes.
#[inline(always)]
fn known_named<B: Block>(bytes: &[u8]) -> (B, &[u8])
    requires { ∥ ((block : B) × (name : List ℕ) × IsSpelled bytes.now (B.fields block ++ Name name ∷ [])) ∥₁ }
    ensures { (block : B) (name : List ℕ) → IsSpelled bytes.now (B.fields block ++ Name name ∷ []) → IsSpelled bytes.now (B.fields result.0 ++ Name result.1.now ∷ []) }
{
    let (block, rest) = B::at(bytes);
    (block, known_name(rest))
}

/// A struct of `fuse.h`, and a name behind it that ends the bytes.
#[inline(always)]
fn named<B: Block>(bytes: &[u8]) -> Option<(B, &[u8])>
    ensures found { IfSome result (λ r. IsSpelled bytes.now (B.fields r.0 ++ Name r.1.now ∷ [])) }
    ensures none { IfNone result
        ((block : B) (name : List ℕ) → IsSpelled bytes.now (B.fields block ++ Name name ∷ []) → ⊥) }
{
    let (block, rest): (B, &[u8]) = front(bytes)?;
    let name = whole_name(rest)?;
    Some((block, name))
}

/// A struct of `fuse.h`, and two names behind it, of which the second ends the bytes.
#[inline(always)]
fn two_named<B: Block>(bytes: &[u8]) -> Option<(B, &[u8], &[u8])>
    ensures found { IfSome result (λ r. IsSpelled bytes.now (B.fields r.0 ++ Name r.1.now ∷ Name r.2.now ∷ [])) }
    ensures none { IfNone result
        ((block : B) (first second : List ℕ) → IsSpelled bytes.now (B.fields block ++ Name first ∷ Name second ∷ []) → ⊥) }
{
    let (block, rest): (B, &[u8]) = front(bytes)?;
    let (first, rest) = name_at(rest)?;
    let second = whole_name(rest)?;
    Some((block, first, second))
}

#[inline(always)]
fn forget(body: &[u8]) -> Option<RequestBody<'_>>
    ensures found { IfSome result (λ b. IsRequestBody FORGET body.now (body_shown b)) }
    ensures none { IfNone result ((b : PlainBody) → IsRequestBody FORGET body.now b → ⊥) }
{
    let ForgetIn { nlookup } = whole(body)?;
    Some(RequestBody::Forget { nlookup })
}

#[inline(always)]
fn readlink(body: &[u8]) -> Option<RequestBody<'_>>
    ensures found { IfSome result (λ b. IsRequestBody READLINK body.now (body_shown b)) }
    ensures none { IfNone result ((b : PlainBody) → IsRequestBody READLINK body.now b → ⊥) }
{
    if !body.is_empty() {
        return None;
    }
    Some(RequestBody::Readlink)
}

#[inline(always)]
fn symlink(body: &[u8]) -> Option<RequestBody<'_>>
    ensures found { IfSome result (λ b. IsRequestBody SYMLINK body.now (body_shown b)) }
    ensures none { IfNone result ((b : PlainBody) → IsRequestBody SYMLINK body.now b → ⊥) }
{
    let (name, rest) = name_at(body)?;
    let target = whole_target(rest)?;
    Some(RequestBody::Symlink { name, target })
}

#[inline(always)]
fn mknod(body: &[u8]) -> Option<RequestBody<'_>>
    ensures found { IfSome result (λ b. IsRequestBody MKNOD body.now (body_shown b)) }
    ensures none { IfNone result ((b : PlainBody) → IsRequestBody MKNOD body.now b → ⊥) }
{
    let (MknodIn { mode, rdev, umask }, name) = named(body)?;
    if !mode.is_node() {
        return None;
    }
    Some(RequestBody::Mknod {
        mode,
        rdev,
        umask,
        name,
    })
}

#[inline(always)]
fn mkdir(body: &[u8]) -> Option<RequestBody<'_>>
    ensures found { IfSome result (λ b. IsRequestBody MKDIR body.now (body_shown b)) }
    ensures none { IfNone result ((b : PlainBody) → IsRequestBody MKDIR body.now b → ⊥) }
{
    let (MkdirIn { mode, umask }, name) = named(body)?;
    Some(RequestBody::Mkdir { mode, umask, name })
}

#[inline(always)]
fn rename(body: &[u8]) -> Option<RequestBody<'_>>
    ensures found { IfSome result (λ b. IsRequestBody RENAME body.now (body_shown b)) }
    ensures none { IfNone result ((b : PlainBody) → IsRequestBody RENAME body.now b → ⊥) }
{
    let (RenameIn { newdir }, old_name, new_name) = two_named(body)?;
    Some(RequestBody::Rename {
        newdir,
        old_name,
        new_name,
    })
}

#[inline(always)]
fn rename2(body: &[u8]) -> Option<RequestBody<'_>>
    ensures found { IfSome result (λ b. IsRequestBody RENAME2 body.now (body_shown b)) }
    ensures none { IfNone result ((b : PlainBody) → IsRequestBody RENAME2 body.now b → ⊥) }
{
    let (Rename2In { newdir, flags }, old_name, new_name) = two_named(body)?;
    match RenameFlags::from_bits(flags) {
        Some(flags) => Some(RequestBody::Rename2 {
            newdir,
            flags,
            old_name,
            new_name,
        }),
        None => Some(RequestBody::Passed),
    }
}

#[inline(always)]
fn link(body: &[u8]) -> Option<RequestBody<'_>>
    ensures found { IfSome result (λ b. IsRequestBody LINK body.now (body_shown b)) }
    ensures none { IfNone result ((b : PlainBody) → IsRequestBody LINK body.now b → ⊥) }
{
    let (LinkIn { oldnodeid }, new_name) = named(body)?;
    Some(RequestBody::Link {
        oldnodeid,
        new_name,
    })
}

#[inline(always)]
fn write(body: &[u8]) -> Option<RequestBody<'_>>
    ensures found { IfSome result (λ b. IsRequestBody WRITE body.now (body_shown b)) }
    ensures none { IfNone result ((b : PlainBody) → IsRequestBody WRITE body.now b → ⊥) }
{
    let (write, payload): (WriteIn, &[u8]) = front(body)?;
    if write.size as usize != payload.len() {
        return None;
    }
    Some(RequestBody::Write {
        fh: write.fh,
        offset: write.offset,
        size: write.size,
        write_flags: write.write_flags,
        lock_owner: write.lock_owner,
        flags: write.flags,
        payload,
    })
}

#[inline(always)]
fn init(body: &[u8]) -> Option<RequestBody<'_>>
    ensures found { IfSome result (λ b. IsRequestBody INIT body.now (body_shown b)) }
    ensures none { IfNone result ((b : PlainBody) → IsRequestBody INIT body.now b → ⊥) }
{
    let (init, _newer) = front(body)?;
    Some(RequestBody::Init(init))
}

#[inline(always)]
fn create(body: &[u8]) -> Option<RequestBody<'_>>
    ensures found { IfSome result (λ b. IsRequestBody CREATE body.now (body_shown b)) }
    ensures none { IfNone result ((b : PlainBody) → IsRequestBody CREATE body.now b → ⊥) }
{
    let (CreateIn { flags, mode, umask }, name) = named(body)?;
    Some(RequestBody::Create {
        flags,
        mode,
        umask,
        name,
    })
}

#[inline(always)]
fn batch_forget(body: &[u8]) -> Option<RequestBody<'_>>
    ensures found { IfSome result (λ b. IsRequestBody BATCH_FORGET body.now (body_shown b)) }
    ensures none { IfNone result ((b : PlainBody) → IsRequestBody BATCH_FORGET body.now b → ⊥) }
{
    let (BatchForgetIn { count }, items) = front(body)?;
    if items.len() != ForgetOne::LEN * count as usize {
        return None;
    }
    Some(RequestBody::BatchForget { count, items })
}

/// Whether a request stays within the file limit.
fn is_within_limit(body: &RequestBody<'_>) -> bool
    ensures { IsTrue result ↔ IsWithinLimit (body_shown body.now) }
{
    match body {
        RequestBody::Write { offset, size, .. } => {
            *offset <= MAX_FILE_BYTES && u64::from(*size) <= MAX_FILE_BYTES - *offset
        }
        RequestBody::Setattr(setattr) => {
            !setattr.valid().contains(FattrFlags::SIZE) || setattr.size() <= MAX_FILE_BYTES
        }
        RequestBody::Lookup { .. }
        | RequestBody::Forget { .. }
        | RequestBody::Getattr(_)
        | RequestBody::Readlink
        | RequestBody::Symlink { .. }
        | RequestBody::Mknod { .. }
        | RequestBody::Mkdir { .. }
        | RequestBody::Unlink { .. }
        | RequestBody::Rmdir { .. }
        | RequestBody::Rename { .. }
        | RequestBody::Link { .. }
        | RequestBody::Open(_)
        | RequestBody::Read(_)
        | RequestBody::Release(_)
        | RequestBody::Flush(_)
        | RequestBody::Init(_)
        | RequestBody::Opendir(_)
        | RequestBody::Readdir(_)
        | RequestBody::Releasedir(_)
        | RequestBody::Create { .. }
        | RequestBody::BatchForget { .. }
        | RequestBody::Readdirplus(_)
        | RequestBody::Rename2 { .. }
        | RequestBody::Passed => true,
    }
}
