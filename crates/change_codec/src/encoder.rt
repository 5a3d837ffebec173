//! Changes to bytes, in the layout of `specs/Encoding`.
ghost use Rattle.std.specs.Prelude.{◌≡◌, ◌+◌, ◌++◌, ◌<◌, ◌^◌, length, All, true, ℕ, OnOk};
ghost use Rattle.std.specs.List.{AllByRecursion, flat_map, list_all};
ghost use Rattle.reg_tree.specs.Operations.{hive_of};
ghost use Rattle.reg_tree.specs.Encodings.{op_encoded_len, ops_encoded_len, element_encoded_len};
ghost use Rattle.reg_names.specs.Names.{is_path, is_key_name, is_value_name};
ghost use Rattle.change_codec.specs.Encoding.{path_bytes, string, kind_of, op_bytes, tail_bytes, element_bytes, TailFits, HasEncoding, Fits};

use crate::fields::{put_u8, put_u16, put_u32, put_u64};
use reg_names::{Name, Path, ValueName};
use reg_tree::{Data, Element, Op};
use std::alloc::AllocError;

/// Appends the encoding of a change to some bytes. The caller ensures that its length fits the 32-bit field for it.
///
/// By its types a change in memory meets each condition of `Fits` but the number of hives. So if each operation's hive
/// is below a number of hives, the change fits that number. Refused only if there is no memory; a part of the encoding
/// may then be appended.
pub fn write(element: &Element, bytes: &mut Vec<u8>) -> Result<(), AllocError>
    requires { element_encoded_len element.now < 2 ^ 32 }
    ensures encoding { OnOk result (bytes.new.items ≡ bytes.old.items ++ element_bytes element.now) }
    ensures fits { OnOk result ((hives : ℕ) →
        AllByRecursion (λ op. hive_of op < hives) element.now.ops → Fits hives element.now) }
{
    let len = element.text_len() as u32;
    write_change(element.moment, element.ops.list(), &[], len, bytes)
}

/// Appends the encoding of the change that these operations, and some more after them, make at a moment: `len` bytes.
pub(crate) fn write_change(
    moment: u64,
    ops: &[Op],
    more: &[Op],
    len: u32,
    bytes: &mut Vec<u8>,
) -> Result<(), AllocError>
    requires some { 0 < length ops.now }
    requires len { len ≡ 16 + ops_encoded_len (ops.now ++ more.now) }
    ensures encoding { OnOk result (bytes.new.items
        ≡ bytes.old.items ++ element_bytes (record { moment = moment; ops = ops.now ++ more.now })) }
    ensures fits { OnOk result ((hives : ℕ) →
        AllByRecursion (λ op. hive_of op < hives) (ops.now ++ more.now) →
        Fits hives (record { moment = moment; ops = ops.now ++ more.now })) }
    ensures all { OnOk result (Fits 256 (record { moment = moment; ops = ops.now ++ more.now })) }
{
    put_u32(bytes, len)?;
    put_u64(bytes, moment)?;
    put_u32(bytes, (ops.len() + more.len()) as u32)?;
    write_ops(ops, bytes)?;
    write_ops(more, bytes)
}

/// Appends the encodings of operations.
fn write_ops(ops: &[Op], bytes: &mut Vec<u8>) -> Result<(), AllocError>
    requires { ops_encoded_len ops.now < 2 ^ 32 }
    ensures encoding { OnOk result (bytes.new.items ≡ bytes.old.items ++ flat_map op_bytes ops.now) }
    ensures has { OnOk result (AllByRecursion HasEncoding ops.now) }
{
    for op in ops {
        write_op(op, bytes)?;
    }
    Ok(())
}

fn write_op(op: &Op, bytes: &mut Vec<u8>) -> Result<(), AllocError>
    requires { op_encoded_len op.now < 2 ^ 32 }
    ensures encoding { OnOk result (bytes.new.items ≡ bytes.old.items ++ op_bytes op.now) }
    ensures has { OnOk result (HasEncoding op.now) }
{
    put_u8(bytes, kind_number(op))?;
    put_u8(bytes, op.hive())?;
    write_path(op.path(), bytes)?;
    write_tail(op, bytes)
}

/// The number of an operation's kind.
fn kind_number(op: &Op) -> u8
    ensures { result ≡ kind_of op.now }
{
    match op {
        Op::CreateKey { .. } => 1,
        Op::DeleteKey { .. } => 2,
        Op::SetValue { .. } => 3,
        Op::DeleteValue { .. } => 4,
    }
}

/// What follows kind, hive and path.
fn write_tail(op: &Op, bytes: &mut Vec<u8>) -> Result<(), AllocError>
    requires { op_encoded_len op.now < 2 ^ 32 }
    ensures encoding { OnOk result (bytes.new.items ≡ bytes.old.items ++ tail_bytes op.now) }
    ensures fits { OnOk result (TailFits op.now) }
{
    match op {
        Op::CreateKey { .. } | Op::DeleteKey { .. } => Ok(()),
        Op::SetValue {
            name,
            kind,
            data,
            ..
        } => {
            write_value_name(name, bytes)?;
            put_u32(bytes, *kind)?;
            write_data(data, bytes)
        }
        Op::DeleteValue { name, .. } => write_value_name(name, bytes),
    }
}

fn write_data(bytes_of: &Data, bytes: &mut Vec<u8>) -> Result<(), AllocError>
    requires { length bytes_of.now < 2 ^ 32 }
    ensures { OnOk result (bytes.new.items ≡ bytes.old.items ++ string 4 bytes_of.now) }
{
    put_u32(bytes, bytes_of.bytes().len() as u32)?;
    bytes.extend_from_slice(bytes_of.bytes())
}

fn write_value_name(name: &ValueName, bytes: &mut Vec<u8>) -> Result<(), AllocError>
    ensures encoding { OnOk result (bytes.new.items ≡ bytes.old.items ++ string 2 name.now) }
    ensures fits { OnOk result (is_value_name name.now ≡ true) }
{
    let units = name.name().units();
    put_u16(bytes, units.len() as u16)?;
    write_units(units, bytes)
}

fn write_path(path: &Path, bytes: &mut Vec<u8>) -> Result<(), AllocError>
    ensures encoding { OnOk result (bytes.new.items ≡ bytes.old.items ++ path_bytes path.now) }
    ensures fits { OnOk result (is_path path.now ≡ true) }
{
    let names = path.names();
    put_u16(bytes, names.len() as u16)?;
    write_names(names, bytes)
}

fn write_names(names: &[Name], bytes: &mut Vec<u8>) -> Result<(), AllocError>
    requires { list_all is_key_name names.now ≡ true }
    ensures { OnOk result (bytes.new.items ≡ bytes.old.items ++ flat_map (string 1) names.now) }
{
    for name in names {
        write_key_name(name, bytes)?;
    }
    Ok(())
}

fn write_key_name(name: &Name, bytes: &mut Vec<u8>) -> Result<(), AllocError>
    requires { is_key_name name.now ≡ true }
    ensures { OnOk result (bytes.new.items ≡ bytes.old.items ++ string 1 name.now) }
{
    let units = name.units();
    put_u8(bytes, units.len() as u8)?;
    write_units(units, bytes)
}

/// Units that are bytes, one byte each.
fn write_units(units: &[u16], bytes: &mut Vec<u8>) -> Result<(), AllocError>
    requires { All (λ unit. unit < 256) units.now }
    ensures { OnOk result (bytes.new.items ≡ bytes.old.items ++ units.now) }
{
    for unit in units {
        bytes.push(*unit as u8)?;
    }
    Ok(())
}
