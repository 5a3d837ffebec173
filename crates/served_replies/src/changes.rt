//! A change as the lines that make it.
ghost use Rattle.std.specs.Prelude.{◌≡◌, OnOk, length};
ghost use Rattle.std.specs.List.{filter, flat_map};
ghost use Rattle.std.specs.Option.{option_copied};
ghost use Rattle.std.specs.Io.KnownBytes.{Appends};
ghost use Rattle.served_replies.specs.ServedReplies.{change_text, head_text, is_named, line_in, op_line, ops_text, set_line, unit_in, unit_text, unset_line, value_text};

use reg_names::{Name, ValueName};
use reg_tree::{Element, Op};
use reply_lines::{write_data, write_name};
use std::io;
use std::io::Write;
use tree_printer::write_path;

/// Writes a change: a head with its number and moment, how many lines follow, and the unit of work that it commits; and a
/// line for each operation on the hives that calls name, the first `named` ones.
pub(crate) fn write_change<W: Write>(
    writer: &mut W,
    named: usize,
    number: u64,
    change: &Element,
) -> io::Result<()>
    ensures { OnOk result (Appends (W.contents writer.old) (W.contents writer.new)
        (change_text named number change.now)) }
{
    write_ops(writer, named, number, change.moment, change.ops.list())
}

// writes the change that these operations make at a moment
fn write_ops<W: Write>(
    writer: &mut W,
    named: usize,
    number: u64,
    moment: u64,
    ops: &[Op],
) -> io::Result<()>
    ensures { OnOk result (Appends (W.contents writer.old) (W.contents writer.new)
        (ops_text named number moment ops.now)) }
{
    write_head(writer, number, moment, count_named(named, ops))?;
    write_unit(writer, named, ops)?;
    writer.write_all(b"\n")?;
    write_lines(writer, named, ops)
}

// the head of a change, without its unit of work
fn write_head<W: Write>(writer: &mut W, number: u64, moment: u64, lines: usize) -> io::Result<()>
    ensures { OnOk result (Appends (W.contents writer.old) (W.contents writer.new)
        (head_text number moment lines)) }
{
    write!(writer, "change {number} ")?;
    write!(writer, "{moment}")?;
    writer.write_all(b" ")?;
    write!(writer, "{lines}")?;
    writer.write_all(b" ")
}

// how many operations are on the hives that calls name
fn count_named(named: usize, ops: &[Op]) -> usize
    ensures { result ≡ length (filter (is_named named) ops.now) }
{
    let mut count = 0;
    for op in ops {
        if usize::from(op.hive()) < named {
            count += 1;
        }
    }
    count
}

// writes the name of the unit of work that the operations commit, if there is one
fn write_unit<W: Write>(writer: &mut W, named: usize, ops: &[Op]) -> io::Result<()>
    ensures { OnOk result (Appends (W.contents writer.old) (W.contents writer.new)
        (unit_text (unit_in named ops.now))) }
{
    match unit_of(named, ops) {
        Some(name) => write_name(writer, name.name().units()),
        None => writer.write_all(b"-"),
    }
}

// the name of the value that the operations write in the hive of outcomes, if they write one
fn unit_of(named: usize, ops: &[Op]) -> Option<&ValueName>
    ensures { option_copied result ≡ unit_in named ops.now }
{
    for op in ops {
        if let Op::SetValue { hive, name, .. } = op {
            if usize::from(*hive) == named {
                return Some(name);
            }
        }
    }
    None
}

// a line for each operation on the hives that calls name
fn write_lines<W: Write>(writer: &mut W, named: usize, ops: &[Op]) -> io::Result<()>
    ensures { OnOk result (Appends (W.contents writer.old) (W.contents writer.new)
        (flat_map (line_in named) ops.now)) }
{
    for op in ops {
        write_if_named(writer, named, op)?;
    }
    Ok(())
}

fn write_if_named<W: Write>(writer: &mut W, named: usize, op: &Op) -> io::Result<()>
    ensures { OnOk result (Appends (W.contents writer.old) (W.contents writer.new)
        (line_in named op.now)) }
{
    if usize::from(op.hive()) < named {
        write_op(writer, op)?;
    }
    Ok(())
}

// the line that makes an operation
fn write_op<W: Write>(writer: &mut W, op: &Op) -> io::Result<()>
    ensures { OnOk result (Appends (W.contents writer.old) (W.contents writer.new)
        (op_line op.now)) }
{
    match op {
        Op::CreateKey { hive, path } => {
            write!(writer, "create {hive}:")?;
            write_path(writer, path.names())?;
            writer.write_all(b"\n")
        }
        Op::DeleteKey { hive, path } => {
            write!(writer, "delete {hive}:")?;
            write_path(writer, path.names())?;
            writer.write_all(b"\n")
        }
        Op::SetValue {
            hive,
            path,
            name,
            kind,
            data,
        } => write_set(
            writer,
            *hive,
            path.names(),
            name.name().units(),
            *kind,
            data.bytes(),
        ),
        Op::DeleteValue { hive, path, name } => {
            write_unset(writer, *hive, path.names(), name.name().units())
        }
    }
}

// the line that writes a value
fn write_set<W: Write>(
    writer: &mut W,
    hive: u8,
    path: &[Name],
    name: &[u16],
    kind: u32,
    bytes: &[u8],
) -> io::Result<()>
    ensures { OnOk result (Appends (W.contents writer.old) (W.contents writer.new)
        (set_line hive path.now name.now kind bytes.now)) }
{
    write_value(writer, hive, path, name)?;
    write!(writer, "{kind}")?;
    writer.write_all(b" ")?;
    write_data(writer, bytes)?;
    writer.write_all(b"\n")
}

// the line that writes a value, up to the value's type
fn write_value<W: Write>(writer: &mut W, hive: u8, path: &[Name], name: &[u16]) -> io::Result<()>
    ensures { OnOk result (Appends (W.contents writer.old) (W.contents writer.new)
        (value_text hive path.now name.now)) }
{
    write!(writer, "set {hive}:")?;
    write_path(writer, path)?;
    writer.write_all(b" ")?;
    write_name(writer, name)?;
    writer.write_all(b" ")
}

// the line that deletes a value
fn write_unset<W: Write>(writer: &mut W, hive: u8, path: &[Name], name: &[u16]) -> io::Result<()>
    ensures { OnOk result (Appends (W.contents writer.old) (W.contents writer.new)
        (unset_line hive path.now name.now)) }
{
    write!(writer, "unset {hive}:")?;
    write_path(writer, path)?;
    writer.write_all(b" ")?;
    write_name(writer, name)?;
    writer.write_all(b"\n")
}
