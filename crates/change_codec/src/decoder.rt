//! Bytes to changes, by the readers of `specs/Encoding`: each function here does what one of them says.
ghost use Rattle.std.specs.Prelude.{◌≡◌, MatchResult, IfOk, Some, None, length, true};
ghost use Rattle.std.specs.List.{list_all};
ghost use Rattle.reg_names.specs.Names.{is_key_name};
ghost use Rattle.refusals.specs.Answers.{RefusedFor};
ghost use Rattle.refusals.specs.declared.refusal.Refusal.TheVariants.{JournalDamaged};
ghost use Rattle.change_codec.specs.Readers.{repeat};
ghost use Rattle.change_codec.specs.Encoding.{key_name_at, name_count_at, path_at, value_name_at, hive_at, by_kind, op_at, fields_at, element_at};

use crate::fields::{take_bytes, take_u8, take_u16, take_u32, take_u64};
use refusals::Refusal;
use refusals::limits::MOST_PATH_NAMES;
use reg_names::{Name, Path, ValueName};
use reg_tree::{Data, Element, Op, Ops};
use std::alloc::Global;

/// The change that bytes begin with, its hives all below `hives`, and the bytes after it.
///
/// Refused with `JournalDamaged` exactly if the bytes begin with no encoding of such a change, and with `NoMemory`.
pub fn read(alloc: Global, hives: u8, bytes: &[u8]) -> Result<(Element, &[u8]), Refusal>
    ensures { MatchResult result (λ got. element_at hives bytes.now ≡ Some (got.0, got.1.now))
        (RefusedFor JournalDamaged (element_at hives bytes.now ≡ None)) }
{
    take_change(alloc, u16::from(hives), bytes)
}

/// The same, for up to 256 hives, as many as a byte can number.
#[tactic(auto, unfolding(crate::specs::Encoding::element_at))]
pub(crate) fn take_change(
    alloc: Global,
    hives: u16,
    bytes: &[u8],
) -> Result<(Element, &[u8]), Refusal>
    ensures { MatchResult result (λ got. element_at hives bytes.now ≡ Some (got.0, got.1.now))
        (RefusedFor JournalDamaged (element_at hives bytes.now ≡ None)) }
{
    let (fields, rest) = take_fields(alloc, hives, bytes)?;
    if fields.len as usize + rest.len() != bytes.len() {
        return Err(Refusal::JournalDamaged);
    }
    match Ops::from_vec(fields.ops) {
        Some(ops) => {
            let moment = fields.moment;
            Ok((Element { moment, ops }, rest))
        }
        None => Err(Refusal::JournalDamaged),
    }
}

/// The fields of a change's encoding as they are there.
#[derive(Drop)]
struct Fields {
    /// The bytes of the encoding, these included.
    len: u32,
    moment: u64,
    ops: Vec<Op>,
}

fn take_fields(alloc: Global, hives: u16, bytes: &[u8]) -> Result<(Fields, &[u8]), Refusal>
    ensures { MatchResult result
        (λ got. fields_at hives bytes.now ≡ Some (
          (got.0.len, (got.0.moment, got.0.ops.items)),
          got.1.now,
        ))
        (RefusedFor JournalDamaged (fields_at hives bytes.now ≡ None)) }
{
    let (len, rest) = take_u32(bytes)?;
    let (moment, rest) = take_u64(rest)?;
    let (count, rest) = take_u32(rest)?;
    let (ops, rest) = take_ops(alloc, hives, count, rest)?;
    Ok((Fields { len, moment, ops }, rest))
}

/// This many operations, one after another, and the bytes after them.
fn take_ops(
    alloc: Global,
    hives: u16,
    count: u32,
    bytes: &[u8],
) -> Result<(Vec<Op>, &[u8]), Refusal>
    ensures { MatchResult result (λ got. repeat count (op_at hives) bytes.now ≡ Some (
      got.0.items,
      got.1.now,
    ))
        (RefusedFor JournalDamaged (repeat count (op_at hives) bytes.now ≡ None)) }
{
    // most changes have one operation: a list that grows would begin with room for four
    let mut ops = Vec::with_capacity(alloc, usize::from(count > 0))?;
    let mut rest = bytes;
    for _taken in 0..count {
        let (op, behind) = take_op(alloc, hives, rest)?;
        ops.push(op)?;
        rest = behind;
    }
    Ok((ops, rest))
}

/// An operation on a hive below `hives`, and the bytes after it.
pub(crate) fn take_op(alloc: Global, hives: u16, bytes: &[u8]) -> Result<(Op, &[u8]), Refusal>
    ensures { MatchResult result (λ got. op_at hives bytes.now ≡ Some (got.0, got.1.now))
        (RefusedFor JournalDamaged (op_at hives bytes.now ≡ None)) }
{
    let (kind, rest) = take_u8(bytes)?;
    let (hive, rest) = take_hive(hives, rest)?;
    let (path, rest) = take_path(alloc, rest)?;
    match kind {
        1 => Ok((Op::CreateKey { hive, path }, rest)),
        2 => Ok((Op::DeleteKey { hive, path }, rest)),
        3 => take_set_value(alloc, hive, path, rest),
        4 => take_delete_value(alloc, hive, path, rest),
        _ => Err(Refusal::JournalDamaged),
    }
}

/// A hive below `hives`.
fn take_hive(hives: u16, bytes: &[u8]) -> Result<(u8, &[u8]), Refusal>
    ensures { MatchResult result (λ got. hive_at hives bytes.now ≡ Some (got.0, got.1.now))
        (RefusedFor JournalDamaged (hive_at hives bytes.now ≡ None)) }
{
    let (hive, rest) = take_u8(bytes)?;
    if u16::from(hive) < hives {
        Ok((hive, rest))
    } else {
        Err(Refusal::JournalDamaged)
    }
}

/// The fields of a value that is written, after its key.
fn take_set_value(alloc: Global, hive: u8, path: Path, bytes: &[u8]) -> Result<(Op, &[u8]), Refusal>
    ensures { MatchResult result (λ got. by_kind 3 hive path bytes.now ≡ Some (got.0, got.1.now))
        (RefusedFor JournalDamaged (by_kind 3 hive path bytes.now ≡ None)) }
{
    let (name, rest) = take_value_name(alloc, bytes)?;
    let (kind, rest) = take_u32(rest)?;
    let (len, rest) = take_u32(rest)?;
    let (bytes, rest) = take_bytes(rest, len as usize)?;
    let data = Data::new(alloc, bytes)?;
    let op = Op::SetValue {
        hive,
        path,
        name,
        kind,
        data,
    };
    Ok((op, rest))
}

/// The name of a value that is deleted, after its key.
fn take_delete_value(
    alloc: Global,
    hive: u8,
    path: Path,
    bytes: &[u8],
) -> Result<(Op, &[u8]), Refusal>
    ensures { MatchResult result (λ got. by_kind 4 hive path bytes.now ≡ Some (got.0, got.1.now))
        (RefusedFor JournalDamaged (by_kind 4 hive path bytes.now ≡ None)) }
{
    let (name, rest) = take_value_name(alloc, bytes)?;
    Ok((Op::DeleteValue { hive, path, name }, rest))
}

fn take_value_name(alloc: Global, bytes: &[u8]) -> Result<(ValueName, &[u8]), Refusal>
    ensures { MatchResult result (λ got. value_name_at bytes.now ≡ Some (got.0, got.1.now))
        (RefusedFor JournalDamaged (value_name_at bytes.now ≡ None)) }
{
    let (len, rest) = take_u16(bytes)?;
    let (encoding, rest) = take_bytes(rest, len as usize)?;
    match Name::value_in_bytes(alloc, encoding) {
        Ok(name) => Ok((name, rest)),
        Err(Refusal::NoMemory) => Err(Refusal::NoMemory),
        Err(_) => Err(Refusal::JournalDamaged),
    }
}

fn take_path(alloc: Global, bytes: &[u8]) -> Result<(Path, &[u8]), Refusal>
    ensures { MatchResult result (λ got. path_at bytes.now ≡ Some (got.0, got.1.now))
        (RefusedFor JournalDamaged (path_at bytes.now ≡ None)) }
{
    let (count, rest) = take_name_count(bytes)?;
    let (names, rest) = take_names(alloc, count, rest)?;
    let path = Path::from_names(names)?;
    Ok((path, rest))
}

/// A count of names that a path may have.
fn take_name_count(bytes: &[u8]) -> Result<(u16, &[u8]), Refusal>
    ensures { MatchResult result (λ got. name_count_at bytes.now ≡ Some (got.0, got.1.now))
        (RefusedFor JournalDamaged (name_count_at bytes.now ≡ None)) }
{
    let (count, rest) = take_u16(bytes)?;
    if count as usize <= MOST_PATH_NAMES {
        Ok((count, rest))
    } else {
        Err(Refusal::JournalDamaged)
    }
}

/// This many key names, one after another, and the bytes after them.
fn take_names(alloc: Global, count: u16, bytes: &[u8]) -> Result<(Vec<Name>, &[u8]), Refusal>
    ensures names { MatchResult result (λ got.
        repeat count key_name_at bytes.now ≡ Some (got.0.items, got.1.now))
        (RefusedFor JournalDamaged (repeat count key_name_at bytes.now ≡ None)) }
    ensures keys { IfOk result (λ got. list_all is_key_name got.0.items ≡ true) }
    ensures count { IfOk result (λ got. length got.0.items ≡ count) }
{
    // each name has a byte at least
    let mut names = Vec::with_capacity(alloc, usize::from(count).min(bytes.len()))?;
    let mut rest = bytes;
    for _taken in 0..count {
        let (name, behind) = take_key_name(alloc, rest)?;
        names.push(name)?;
        rest = behind;
    }
    Ok((names, rest))
}

fn take_key_name(alloc: Global, bytes: &[u8]) -> Result<(Name, &[u8]), Refusal>
    ensures name { MatchResult result (λ got. key_name_at bytes.now ≡ Some (got.0, got.1.now))
        (RefusedFor JournalDamaged (key_name_at bytes.now ≡ None)) }
    ensures key { IfOk result (λ got. is_key_name got.0 ≡ true) }
{
    let (len, rest) = take_u8(bytes)?;
    let (encoding, rest) = take_bytes(rest, len as usize)?;
    match Name::key_in_bytes(alloc, encoding) {
        Ok(name) => Ok((name, rest)),
        Err(Refusal::NoMemory) => Err(Refusal::NoMemory),
        Err(_) => Err(Refusal::JournalDamaged),
    }
}
