//! What comes after a change that bytes begin with, found without memory: each function here does what the reader of
//! `specs/Encoding` says that its clause names, and makes no value of it.
ghost use Rattle.std.specs.Prelude.{◌≡◌, List, ℕ, MatchOption, Some, None};
ghost use Rattle.reg_names.specs.Names.{is_key_name, is_name_unit, is_key_unit, is_value_name};
ghost use Rattle.reg_tree.specs.declared.op.Op.{Op};
ghost use Rattle.change_codec.specs.Readers.{repeat, string_at};
ghost use Rattle.change_codec.specs.Changes.{Skips, SkipsMany, SkipsFields, SkipsOp};
ghost use Rattle.change_codec.specs.Encoding.{key_name_at, path_at, value_name_at, set_fields_at, hive_at, by_kind, op_at, fields_at, element_at};

use crate::fields::{first_bytes, first_u8, first_u16, first_u32, first_u64};
use refusals::limits::{MOST_KEY_NAME_UNITS, MOST_PATH_NAMES, MOST_VALUE_NAME_UNITS};

/// The bytes after the change that bytes begin with, its hives all below `hives`; nothing exactly if they begin with
/// none.
#[tactic(auto, unfolding(crate::specs::Encoding::element_at))]
pub(crate) fn skip_change(hives: u16, bytes: &[u8]) -> Option<&[u8]>
    ensures { MatchOption result (element_at hives bytes.now ≡ None)
        (λ rest. Skips (element_at hives bytes.now) rest.now) }
{
    let (len, count, rest) = skip_fields(hives, bytes)?;
    if count > 0 && len as usize + rest.len() == bytes.len() {
        Some(rest)
    } else {
        None
    }
}

/// The length that bytes begin with, how many operations come after it, and the bytes after these.
fn skip_fields(hives: u16, bytes: &[u8]) -> Option<(u32, u32, &[u8])>
    ensures { MatchOption result (fields_at hives bytes.now ≡ None)
        (λ got. SkipsFields (fields_at hives bytes.now) got.0 got.1 got.2.now) }
{
    let (len, rest) = first_u32(bytes)?;
    let (_, rest) = first_u64(rest)?;
    let (count, rest) = first_u32(rest)?;
    let rest = skip_ops(hives, count, rest)?;
    Some((len, count, rest))
}

/// The bytes after `count` operations.
fn skip_ops(hives: u16, count: u32, bytes: &[u8]) -> Option<&[u8]>
    ensures { MatchOption result (repeat count (op_at hives) bytes.now ≡ None)
        (λ rest. SkipsMany (repeat count (op_at hives) bytes.now) count rest.now) }
{
    let mut rest = bytes;
    for _skipped in 0..count {
        rest = skip_op(hives, rest)?.1;
    }
    Some(rest)
}

/// The hive of the operation that bytes begin with, and the bytes after it.
pub(crate) fn skip_op(hives: u16, bytes: &[u8]) -> Option<(u8, &[u8])>
    ensures { MatchOption result (op_at hives bytes.now ≡ None)
        (λ got. SkipsOp (op_at hives bytes.now) got.0 got.1.now) }
{
    let (kind, rest) = first_u8(bytes)?;
    let (hive, rest) = first_hive(hives, rest)?;
    let rest = skip_path(rest)?;
    let rest = skip_tail(kind, rest)?;
    Some((hive, rest))
}

/// The bytes after the fields that follow the head of an operation of a kind.
fn skip_tail(kind: u8, bytes: &[u8]) -> Option<&[u8]>
    ensures { MatchOption result
        ((hive : ℕ) (path : List (List ℕ)) → by_kind kind hive path bytes.now ≡ None)
        (λ rest. (hive : ℕ) (path : List (List ℕ)) →
        SkipsOp (by_kind kind hive path bytes.now) hive rest.now) }
{
    match kind {
        1 => Some(bytes),
        2 => Some(bytes),
        3 => Some(skip_set_fields(bytes)?),
        4 => Some(first_value_name(bytes)?.1),
        _ => None,
    }
}

/// A hive below `hives`, and the bytes after it.
pub(crate) fn first_hive(hives: u16, bytes: &[u8]) -> Option<(u8, &[u8])>
    ensures { MatchOption result (hive_at hives bytes.now ≡ None)
        (λ got. hive_at hives bytes.now ≡ Some (got.0, got.1.now)) }
{
    let (hive, rest) = first_u8(bytes)?;
    if u16::from(hive) < hives {
        Some((hive, rest))
    } else {
        None
    }
}

/// The bytes after a value's name, its type and its data.
fn skip_set_fields(bytes: &[u8]) -> Option<&[u8]>
    ensures { MatchOption result (set_fields_at bytes.now ≡ None)
        (λ rest. Skips (set_fields_at bytes.now) rest.now) }
{
    let (_, rest) = first_value_name(bytes)?;
    let (_, rest) = first_u32(rest)?;
    let (_, rest) = first_data(rest)?;
    Some(rest)
}

/// The data of a value, and the bytes after them.
fn first_data(bytes: &[u8]) -> Option<(&[u8], &[u8])>
    ensures { MatchOption result (string_at 4 bytes.now ≡ None)
        (λ got. string_at 4 bytes.now ≡ Some (got.0.now, got.1.now)) }
{
    let (len, rest) = first_u32(bytes)?;
    first_bytes(rest, len as usize)
}

/// The name of a value, and the bytes after it.
fn first_value_name(bytes: &[u8]) -> Option<(&[u8], &[u8])>
    ensures { MatchOption result (value_name_at bytes.now ≡ None)
        (λ got. value_name_at bytes.now ≡ Some (got.0.now, got.1.now)) }
{
    let (len, rest) = first_u16(bytes)?;
    let (name, rest) = first_bytes(rest, usize::from(len))?;
    if is_value_name_bytes(name) {
        Some((name, rest))
    } else {
        None
    }
}

/// The bytes after a path.
fn skip_path(bytes: &[u8]) -> Option<&[u8]>
    ensures { MatchOption result (path_at bytes.now ≡ None) (λ rest. Skips (path_at bytes.now) rest.now) }
{
    let (count, rest) = first_u16(bytes)?;
    if usize::from(count) > MOST_PATH_NAMES {
        return None;
    }
    skip_names(count, rest)
}

/// The bytes after `count` key names.
fn skip_names(count: u16, bytes: &[u8]) -> Option<&[u8]>
    ensures { MatchOption result (repeat count key_name_at bytes.now ≡ None)
        (λ rest. SkipsMany (repeat count key_name_at bytes.now) count rest.now) }
{
    let mut rest = bytes;
    for _skipped in 0..count {
        rest = first_key_name(rest)?.1;
    }
    Some(rest)
}

/// The name of a key, and the bytes after it.
fn first_key_name(bytes: &[u8]) -> Option<(&[u8], &[u8])>
    ensures { MatchOption result (key_name_at bytes.now ≡ None)
        (λ got. key_name_at bytes.now ≡ Some (got.0.now, got.1.now)) }
{
    let (len, rest) = first_u8(bytes)?;
    let (name, rest) = first_bytes(rest, usize::from(len))?;
    if is_key_name_bytes(name) {
        Some((name, rest))
    } else {
        None
    }
}

// whether bytes are the name of a key that a call may name
fn is_key_name_bytes(bytes: &[u8]) -> bool
    ensures { result ≡ is_key_name bytes.now }
{
    let known = bytes.iter().all(|byte| may_name_key(*byte));
    !bytes.is_empty() && bytes.len() <= MOST_KEY_NAME_UNITS && known
}

// whether bytes are the name of a value that a call may name
fn is_value_name_bytes(bytes: &[u8]) -> bool
    ensures { result ≡ is_value_name bytes.now }
{
    let known = bytes.iter().all(|byte| may_name(*byte));
    bytes.len() <= MOST_VALUE_NAME_UNITS && known
}

fn may_name(byte: u8) -> bool
    ensures { result ≡ is_name_unit byte }
{
    byte >= 0x20 && byte <= 0x7e
}

fn may_name_key(byte: u8) -> bool
    ensures { result ≡ is_key_unit byte }
{
    may_name(byte) && byte != b'\\'
}
