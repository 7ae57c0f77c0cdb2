//! Paths in a tree text: which directory they lead to, and their last name.

ghost use Rattle.std.specs.Prelude.{◌≡◌, ◌↔◌, ◌<◌, ◌+◌, ℕ, List, length, All, IsTrue, IfOk, IfSome, IfNone, OnOk};
ghost use Rattle.percent_encoding.specs.Percent.{percent_decode};
ghost use Rattle.fa_tree.specs.declared.id.FileId.{FileId};
ghost use Rattle.fa_tree.specs.State as state;
ghost use Rattle.fa_tree_text.specs.Paths.{IsSpelledByte, HasHexDigit, HasWholeEscapes, IsSpelledName};
ghost use Rattle.fa_tree_text.specs.parts.Unescaped.{IsUnescapedByte};
ghost use Rattle.fa_tree_text.specs.parts.Ways.{Reaches, IsFileAt};

use fa_bodies::{is_name, split_at_byte};
use fa_tree::{FileId, Tree};
use percent_encoding::percent_decode;
use std::alloc::AllocError;

/// Whether a hexadecimal digit stands at a place.
fn has_hex_digit(bytes: &[u8], place: usize) -> bool
    ensures { IsTrue result ↔ HasHexDigit bytes.now place }
{
    bytes
        .get(place)
        .is_some_and(|byte| byte.is_ascii_hexdigit())
}

/// Whether two hexadecimal digits stand behind a place.
fn has_two_behind(bytes: &[u8], place: usize) -> bool
    requires { place < length bytes.now }
    ensures { IsTrue result ↔ HasHexDigit bytes.now (place + 1) × HasHexDigit bytes.now (place + 2) }
{
    has_hex_digit(bytes, place + 1) && has_hex_digit(bytes, place + 2)
}

/// Whether two hexadecimal digits stand behind each `%`.
fn has_whole_escapes(spelled: &[u8]) -> bool
    ensures { IsTrue result ↔ HasWholeEscapes spelled.now }
{
    for (place, byte) in spelled.iter().enumerate() {
        if *byte == b'%' && !has_two_behind(spelled, place) {
            return false;
        }
    }
    true
}

/// Whether a spelled name may have this byte.
fn is_spelled_byte(byte: u8) -> bool
    ensures { IsTrue result ↔ IsSpelledByte byte }
{
    byte.is_ascii_graphic() && byte != b'/'
}

/// Whether each byte is one that a spelled name may have.
fn has_spelled_bytes(spelled: &[u8]) -> bool
    ensures { IsTrue result ↔ All IsSpelledByte spelled.now }
{
    spelled.iter().all(|byte| is_spelled_byte(*byte))
}

/// Whether each byte of a spelled name may stand there, and stands for itself.
fn is_unescaped(spelled: &[u8]) -> bool
    ensures { IsTrue result ↔ All IsUnescapedByte spelled.now }
{
    spelled
        .iter()
        .all(|byte| is_spelled_byte(*byte) && *byte != b'%')
}

/// Decodes a name into `name`, in the place of what stands there, and answers whether it is spelled as a name is.
pub(crate) fn decode_name(spelled: &[u8], name: &mut Vec<u8>) -> Result<bool, AllocError>
    ensures decoded { OnOk result (name.new.items ≡ percent_decode spelled.now) }
    ensures spelled { IfOk result (λ is_spelled. IsTrue is_spelled ↔ IsSpelledName spelled.now) }
{
    name.clear();
    if is_unescaped(spelled) {
        name.extend_from_slice(spelled)?;
        return Ok(is_name(name));
    }
    percent_decode(spelled).append_to(name)?;
    Ok(has_spelled_bytes(spelled) && has_whole_escapes(spelled) && is_name(name))
}

/// The directory to which the directories of a path lead, from the root on, if it is a path and they are there. Its last name is
/// decoded into `name`.
fn find_parent(tree: &Tree, path: &[u8], name: &mut Vec<u8>) -> Result<Option<FileId>, AllocError>
    ensures found { IfOk result (λ found. IfSome found (λ parent. Reaches tree.now.store state.root path.now parent name.new.items)) }
    ensures none { IfOk result (λ found. IfNone found ((parent : FileId) (last : List ℕ) → Reaches tree.now.store state.root path.now parent last → ⊥)) }
{
    let mut directory = tree.root();
    let mut left = path;
    while let Some((spelled, rest)) = split_at_byte(left, b'/') {
        if !decode_name(spelled, name)? {
            return Ok(None);
        }
        let Some(next) = tree.find(directory, name) else {
            return Ok(None);
        };
        directory = next;
        left = rest;
    }
    if decode_name(left, name)? {
        Ok(Some(directory))
    } else {
        Ok(None)
    }
}

/// The file to which a path leads, from the root on, if it is a path and the file is there. The path's last name is decoded into
/// `name`.
pub(crate) fn find_file(
    tree: &Tree,
    path: &[u8],
    name: &mut Vec<u8>,
) -> Result<Option<FileId>, AllocError>
    ensures found { IfOk result (λ found. IfSome found (IsFileAt tree.now.store path.now)) }
    ensures none { IfOk result (λ found. IfNone found ((file : FileId) → IsFileAt tree.now.store path.now file → ⊥)) }
{
    match find_parent(tree, path, name)? {
        Some(parent) => Ok(tree.find(parent, name)),
        None => Ok(None),
    }
}
