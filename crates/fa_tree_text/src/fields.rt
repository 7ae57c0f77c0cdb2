//! The fields of a tree text's lines, as they are spelled.

ghost use Rattle.std.specs.Prelude.{◌≡◌, ◌≤◌, ◌<◌, ◌+◌, ℕ, [], ◌∷◌, ◌++◌, IfSome, IfNone};
ghost use Rattle.fa_bodies.specs.declared.mode.Kind.{Kind};
ghost use Rattle.fa_tree.specs.Attributes.{all_bits};
ghost use Rattle.fa_order.specs.Lines.{LacksLine};
ghost use Rattle.fa_tree_text.specs.TreeLines.{letter, octal};
ghost use Rattle.fa_tree_text.specs.parts.Fields.{HasFields, LacksFile, LacksName};

use fa_bodies::{Kind, split_at_byte};

/// A new file: its type, its permission bits, its path, and what spells its bytes.
#[derive(Clone, Copy)]
pub(crate) struct FileFields<'a> {
    pub kind: Kind,
    pub bits: u16,
    pub path: &'a [u8],
    pub body: Option<&'a [u8]>,
}

/// A further name: its path, and the older path of its file.
#[derive(Clone, Copy)]
pub(crate) struct NameFields<'a> {
    pub path: &'a [u8],
    pub older: &'a [u8],
}

/// What a line adds.
#[derive(Clone, Copy)]
pub(crate) enum Fields<'a> {
    File(FileFields<'a>),
    Name(NameFields<'a>),
}

/// The value of an octal digit.
fn octal_digit(byte: u8) -> Option<u16>
    ensures found { IfSome result (λ digit. (digit < 8) × (byte ≡ 48 + digit)) }
    ensures none { IfNone result ((digit : ℕ) → digit < 8 → byte ≡ 48 + digit → ⊥) }
{
    match byte {
        b'0'..=b'7' => Some(u16::from(byte - b'0')),
        _ => None,
    }
}

/// The permission bits at the front, three octal digits, and what stands behind them.
pub(crate) fn read_bits(bytes: &[u8]) -> Option<(u16, &[u8])>
    ensures found { IfSome result (λ r. bytes.now ≡ octal r.0 ++ r.1.now) }
    ensures in_range { IfSome result (λ r. r.0 ≤ all_bits) }
    ensures none { IfNone result ((bits : ℕ) → bits ≤ all_bits → LacksLine bytes.now (octal bits)) }
{
    let [high, middle, low, rest @ ..] = bytes else {
        return None;
    };
    let high = octal_digit(*high)?;
    let middle = octal_digit(*middle)?;
    let low = octal_digit(*low)?;
    Some((64 * high + 8 * middle + low, rest))
}

/// The type of a file, by its letter.
fn kind_of(byte: u8) -> Option<Kind>
    ensures found { IfSome result (λ kind. letter kind ≡ byte ∷ []) }
    ensures none { IfNone result ((kind : Kind) → letter kind ≡ byte ∷ [] → ⊥) }
{
    match byte {
        b'd' => Some(Kind::Directory),
        b'f' => Some(Kind::Regular),
        b's' => Some(Kind::Symlink),
        b'p' => Some(Kind::Fifo),
        b'c' => Some(Kind::CharDevice),
        b'b' => Some(Kind::BlockDevice),
        b'k' => Some(Kind::Socket),
        _ => None,
    }
}

/// The fields of a line that adds a file.
fn file_fields(line: &[u8]) -> Option<FileFields<'_>>
    ensures found { IfSome result (λ f. HasFields line.now (Fields.File f)) }
    ensures none { IfNone result (LacksFile line.now) }
{
    let [letter, b' ', rest @ ..] = line else {
        return None;
    };
    let kind = kind_of(*letter)?;
    let (bits, rest) = read_bits(rest)?;
    let [b' ', rest @ ..] = rest else {
        return None;
    };
    match split_at_byte(rest, b' ') {
        Some((path, body)) => Some(FileFields {
            kind,
            bits,
            path,
            body: Some(body),
        }),
        None => Some(FileFields {
            kind,
            bits,
            path: rest,
            body: None,
        }),
    }
}

/// The fields of a line that adds a further name.
fn name_fields(line: &[u8]) -> Option<NameFields<'_>>
    ensures found { IfSome result (λ n. HasFields line.now (Fields.Name n)) }
    ensures none { IfNone result (LacksName line.now) }
{
    let [b'h', b' ', rest @ ..] = line else {
        return None;
    };
    let (path, older) = split_at_byte(rest, b' ')?;
    Some(NameFields { path, older })
}

/// The fields of a line, which stands without its line feed.
pub(crate) fn fields_of(line: &[u8]) -> Option<Fields<'_>>
    ensures found { IfSome result (λ fields. HasFields line.now fields) }
    ensures no_file { IfNone result (LacksFile line.now) }
    ensures no_name { IfNone result (LacksName line.now) }
{
    match name_fields(line) {
        Some(name) => Some(Fields::Name(name)),
        None => match file_fields(line) {
            Some(file) => Some(Fields::File(file)),
            None => None,
        },
    }
}
