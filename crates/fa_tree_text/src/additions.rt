//! What the lines of a tree text add to a tree.

ghost use Rattle.std.specs.Prelude.{◌≡◌, ◌≤◌, ◌++◌, ℕ, List, IfOk, IfSome, IfNone, OnOk};
ghost use Rattle.std.specs.Option.{option_copied};
ghost use Rattle.fa_tree.specs.Attributes.{all_bits};
ghost use Rattle.fa_tree_text.specs.TreeLines.{TreeLine, line_text, SpellsBytes, SpellsBody, Adds};
ghost use Rattle.fa_tree_text.specs.TreeText.{LacksAddition};
ghost use Rattle.fa_tree_text.specs.parts.Folders.{AreFound};
ghost use Rattle.fa_tree_text.specs.parts.Outcomes.{IsFileAdded, IsNameAdded, IsLineAdded};

use crate::fields::{Fields, FileFields, NameFields, fields_of};
use crate::folders::Folders;
use fa_bodies::{Kind, split_at_byte};
use fa_tree::{StepError, Tree};
use hex::FromHexError;
use std::alloc::{AllocError, Global};

/// The bytes that hexadecimal digits spell, two or more.
fn decode_bytes(alloc: Global, digits: Option<&[u8]>) -> Result<Option<Vec<u8>>, AllocError>
    ensures found { IfOk result (λ found. IfSome found (λ bytes. SpellsBytes (option_copied digits.entry) bytes.items)) }
    ensures none { IfOk result (λ found. IfNone found ((bytes : List ℕ) → SpellsBytes (option_copied digits.entry) bytes → ⊥)) }
{
    let Some(digits) = digits else {
        return Ok(None);
    };
    if digits.len() < 2 {
        return Ok(None);
    }
    match hex::decode(alloc, digits) {
        Ok(bytes) => Ok(Some(bytes)),
        Err(FromHexError::OutOfMemory) => Err(AllocError),
        Err(_) => Ok(None),
    }
}

/// The bytes of a new file of this type, by what spells them.
fn decode_body(
    alloc: Global,
    kind: Kind,
    spelled: Option<&[u8]>,
) -> Result<Option<Vec<u8>>, AllocError>
    ensures found { IfOk result (λ found. IfSome found (λ body. SpellsBody kind (option_copied spelled.entry) body.items)) }
    ensures none { IfOk result (λ found. IfNone found ((body : List ℕ) → SpellsBody kind (option_copied spelled.entry) body → ⊥)) }
{
    match kind {
        Kind::Regular => {
            if spelled == Some(b"-".as_slice()) {
                return Ok(Some(Vec::new(alloc)));
            }
            decode_bytes(alloc, spelled)
        }
        Kind::Symlink => decode_bytes(alloc, spelled),
        Kind::Directory | Kind::Fifo | Kind::CharDevice | Kind::BlockDevice | Kind::Socket => {
            if spelled.is_some() {
                return Ok(None);
            }
            Ok(Some(Vec::new(alloc)))
        }
    }
}

/// Adds a new file to a tree, and answers whether it may be added. The last name of its path is decoded into `last_name`.
fn add_file<'a>(
    alloc: Global,
    tree: &mut Tree,
    folders: &mut Folders<'a>,
    last_name: &mut Vec<u8>,
    file: &FileFields<'a>,
) -> Result<bool, AllocError>
    requires in_range { file.now.bits ≤ all_bits }
    requires are_found { AreFound tree.old.store folders.old }
    ensures added { IfOk result (λ added. IsFileAdded added tree.old tree.new file.now.kind file.now.bits file.now.path.now (option_copied file.now.body)) }
    ensures kept { OnOk result (AreFound tree.new.store folders.new) }
{
    let Some(parent) = folders.parent_of(tree, file.path, last_name)? else {
        return Ok(false);
    };
    let Some(body) = decode_body(alloc, file.kind, file.body)? else {
        return Ok(false);
    };
    match tree.add(parent, last_name, file.kind, file.bits, &body) {
        Ok(added) => {
            folders.keep_parent(file.path, parent);
            folders.keep_added(file.path, file.kind, added);
            Ok(true)
        }
        Err(StepError::Refused(_)) => Ok(false),
        Err(StepError::Memory) => Err(AllocError),
    }
}

/// Adds a further name to a tree, and answers whether it may be added. The last name of each path is decoded into `last_name`.
fn add_name<'a>(
    tree: &mut Tree,
    folders: &mut Folders<'a>,
    last_name: &mut Vec<u8>,
    name: &NameFields<'a>,
) -> Result<bool, AllocError>
    requires { AreFound tree.old.store folders.old }
    ensures added { IfOk result (λ added. IsNameAdded added tree.old tree.new name.now.path.now name.now.older.now) }
    ensures kept { OnOk result (AreFound tree.new.store folders.new) }
{
    let Some(file) = folders.file_at(tree, name.older, last_name)? else {
        return Ok(false);
    };
    let Some(parent) = folders.parent_of(tree, name.path, last_name)? else {
        return Ok(false);
    };
    match tree.add_link(parent, last_name, file) {
        Ok(()) => {
            folders.keep_parent(name.path, parent);
            Ok(true)
        }
        Err(StepError::Refused(_)) => Ok(false),
        Err(StepError::Memory) => Err(AllocError),
    }
}

/// Adds what a line says, which stands without its line feed, and answers whether it may be added. The last names of paths are
/// decoded into `last_name`.
fn add_fields<'a>(
    alloc: Global,
    tree: &mut Tree,
    folders: &mut Folders<'a>,
    last_name: &mut Vec<u8>,
    line: &'a [u8],
) -> Result<bool, AllocError>
    requires { AreFound tree.old.store folders.old }
    ensures added { IfOk result (λ added. IsLineAdded added tree.old tree.new line.now) }
    ensures kept { OnOk result (AreFound tree.new.store folders.new) }
{
    match fields_of(line) {
        Some(Fields::File(file)) => add_file(alloc, tree, folders, last_name, &file),
        Some(Fields::Name(name)) => add_name(tree, folders, last_name, &name),
        None => Ok(false),
    }
}

/// Adds what the line at the front says, and answers what stands behind it. None where no line stands there that may be added;
/// the tree is then as it was. The last names of paths are decoded into `last_name`, whose memory serves from line to line.
pub(crate) fn add_line<'a>(
    alloc: Global,
    tree: &mut Tree,
    folders: &mut Folders<'a>,
    last_name: &mut Vec<u8>,
    left: &'a [u8],
) -> Result<Option<&'a [u8]>, AllocError>
    requires { AreFound tree.old.store folders.old }
    ensures added { IfOk result (λ r. IfSome r (λ rest. (line : TreeLine) × Adds tree.old tree.new line × (left.now ≡ line_text line ++ rest.now))) }
    ensures none { IfOk result (λ r. IfNone r (LacksAddition tree.old left.now)) }
    ensures unchanged { IfOk result (λ r. IfNone r (tree.new ≡ tree.old)) }
    ensures kept { OnOk result (AreFound tree.new.store folders.new) }
{
    let Some((line, rest)) = split_at_byte(left, b'\n') else {
        return Ok(None);
    };
    if add_fields(alloc, tree, folders, last_name, line)? {
        Ok(Some(rest))
    } else {
        Ok(None)
    }
}
