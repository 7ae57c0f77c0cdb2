//! Names and targets in requests.

ghost use Rattle.std.specs.Prelude.{◌≡◌, ◌↔◌, ◌≤◌, ℕ, List, [], ◌∷◌, ◌++◌, length, IsTrue, IfSome, IfNone};
ghost use Rattle.fa_bodies.specs.Names.{LacksByte, IsFilename, IsName, IsTarget};
ghost use Rattle.fa_bodies.specs.Fields.{BeginsWith, IsSpelled};
ghost use Rattle.fa_bodies.specs.Fields.Field.{Name, Target};

/// The most bytes that a name may have (`FUSE_NAME_MAX` of Linux).
pub const MAX_NAME: usize = 1024;

/// Whether none of the bytes is this one.
#[inline(always)]
fn lacks_byte(bytes: &[u8], byte: u8) -> bool
    ensures { IsTrue result ↔ LacksByte byte bytes.now }
{
    // `contains` looks at many bytes at a time, as a test of one's own in `all` or `any` does not.
    !bytes.contains(&byte)
}

/// Whether bytes are a filename: 1 to 1,024 bytes without zero byte and slash.
pub(crate) fn is_filename(bytes: &[u8]) -> bool
    ensures { IsTrue result ↔ IsFilename bytes.now }
{
    !bytes.is_empty() && bytes.len() <= MAX_NAME && lacks_byte(bytes, 0) && lacks_byte(bytes, b'/')
}

/// Whether bytes are a name as a request may have it: a filename of POSIX, which is 1 to 1,024 bytes without zero byte and
/// slash, but neither `.` nor `..`.
///
/// Takes no memory, in time linear in the bytes.
pub fn is_name(bytes: &[u8]) -> bool
    ensures { IsTrue result ↔ IsName bytes.now }
{
    is_filename(bytes) && !matches!(bytes, [b'.'] | [b'.', b'.'])
}

/// Whether bytes are the target of a symbolic link (POSIX `symlink`): one byte or more, none of them zero. Slashes, `.` and
/// `..` may stand in it.
///
/// Takes no memory, in time linear in the bytes.
pub fn is_target(bytes: &[u8]) -> bool
    ensures { IsTrue result ↔ IsTarget bytes.now }
{
    !bytes.is_empty() && lacks_byte(bytes, 0)
}

/// The bytes before the first of this value, and those behind it.
///
/// Takes no memory, in time linear in the bytes.
pub fn split_at_byte(bytes: &[u8], byte: u8) -> Option<(&[u8], &[u8])>
    ensures found { IfSome result (λ r. LacksByte byte r.0.now × (bytes.now ≡ r.0.now ++ byte ∷ r.1.now)) }
    ensures none { IfNone result (LacksByte byte bytes.now) }
{
    let place = bytes.iter().position(|b| *b == byte)?;
    let (front, behind) = bytes.split_at(place);
    let (_byte, rest) = behind.split_at(1);
    Some((front, rest))
}

/// The name at the front of bytes, and what stands behind the zero byte that ends it.
pub(crate) fn name_at(bytes: &[u8]) -> Option<(&[u8], &[u8])>
    ensures found { IfSome result (λ r. BeginsWith bytes.now (Name r.0.now ∷ []) r.1.now) }
    ensures none { IfNone result
        ((name rest : List ℕ) → BeginsWith bytes.now (Name name ∷ []) rest → ⊥) }
{
    let (name, rest) = split_at_byte(bytes, 0)?;
    if is_name(name) {
        Some((name, rest))
    } else {
        None
    }
}

/// The name of bytes that are a name and the zero byte behind it.
pub(crate) fn whole_name(bytes: &[u8]) -> Option<&[u8]>
    ensures found { IfSome result (λ name. IsSpelled bytes.now (Name name.now ∷ [])) }
    ensures none { IfNone result ((name : List ℕ) → IsSpelled bytes.now (Name name ∷ []) → ⊥) }
{
    match bytes.split_last() {
        Some((0, name)) if is_name(name) => Some(name),
        _ => None,
    }
}

/// The bytes before the last: the name, where bytes are known to be a name and the zero byte behind it. They are not looked at.
///
/// Takes no memory, in constant time.
#[inline(always)]
pub(crate) fn known_name(bytes: &[u8]) -> &[u8]
    requires { 1 ≤ length bytes.now }
    ensures { (name : List ℕ) → IsSpelled bytes.now (Name name ∷ []) → result.now ≡ name }
{
    &bytes[..bytes.len() - 1]
}

/// The target of bytes that are a target and the zero byte behind it.
pub(crate) fn whole_target(bytes: &[u8]) -> Option<&[u8]>
    ensures found { IfSome result (λ target. IsSpelled bytes.now (Target target.now ∷ [])) }
    ensures none { IfNone result ((target : List ℕ) → IsSpelled bytes.now (Target target ∷ []) → ⊥) }
{
    match bytes.split_last() {
        Some((0, target)) if is_target(target) => Some(target),
        _ => None,
    }
}
