//! Trees in memory, printed.
ghost use Rattle.std.specs.Prelude.{◌≡◌, OnOk, IfOk, IfErr, map};
ghost use Rattle.std.specs.Io.KnownBytes.{Appends};
ghost use Rattle.reg_export.specs.Hives.{keys_of};
ghost use Rattle.store_export.specs.Exports.{EndsEarly, MayRefuse, PrintsJson, ShowsHives, ShowsAsked, CannotShow, all_rows, tsv_text, with_prefix};

use crate::lines::{print_json, print_tsv};
use crate::part::print_part;
use crate::report::ExportError;
use crate::request::{ExportRequest, Form};
use reg_export::{HiveKeys, write_reg};
use reg_tree::Trees;
use std::alloc::{AllocError, Global};
use std::io::{self, Write};

/// Prints trees, or a key of one of them with all below it. Refused with `NotFound` if that key isn't there, and with
/// `BadName` if a registration file can't show a name; nothing is printed then.
pub(crate) fn print_trees<W: Write>(
    alloc: Global,
    writer: &mut W,
    trees: &Trees,
    request: &ExportRequest<'_>,
) -> Result<(), ExportError>
    ensures shown { OnOk result (ShowsAsked request.now trees.now (W.contents writer.old)
        (W.contents writer.new)) }
    ensures refused { IfErr result (λ error. EndsEarly (MayRefuse request.now trees.now)
        (W.contents writer.old) (W.contents writer.new) error) }
{
    match request.selection {
        Some(selection) => print_part(writer, trees, request, selection),
        None => print_all(alloc, writer, trees, request),
    }
}

// prints all keys of all hives
fn print_all<W: Write>(
    alloc: Global,
    writer: &mut W,
    trees: &Trees,
    request: &ExportRequest<'_>,
) -> Result<(), ExportError>
    ensures shown { OnOk result (ShowsHives request.now.form request.now.prefixes.now
        (all_rows 0 trees.now) (W.contents writer.old) (W.contents writer.new)) }
    ensures refused { IfErr result (λ error. EndsEarly (CannotShow request.now (all_rows 0 trees.now))
        (W.contents writer.old) (W.contents writer.new) error) }
{
    match request.form {
        Form::Reg(encoding) => {
            let hives = hive_keys(alloc, trees, request)?;
            Ok(write_reg(writer, encoding, &hives)?)
        }
        Form::Json => Ok(print_all_json(writer, trees)?),
        Form::Tsv => Ok(print_all_tsv(writer, trees)?),
    }
}

// each tree with the prefix of its hive
fn hive_keys<'a>(
    alloc: Global,
    trees: &'a Trees,
    request: &ExportRequest<'a>,
) -> Result<Vec<HiveKeys<'a>>, AllocError>
    ensures { IfOk result (λ hives. map keys_of hives.items
        ≡ map (with_prefix request.now.prefixes.now) (all_rows 0 trees.now)) }
{
    let mut hives = Vec::with_capacity(alloc, trees.len())?;
    for hive in 0..trees.len() {
        let Some(tree) = trees.tree(hive as u8) else {
            unreachable!();
        };
        let prefix = request.prefix(hive as u8);
        hives.push(HiveKeys { prefix, tree })?;
    }
    Ok(hives)
}

fn print_all_json<W: Write>(writer: &mut W, trees: &Trees) -> io::Result<()>
    ensures { OnOk result (PrintsJson (all_rows 0 trees.now) (W.contents writer.old) (W.contents writer.new)) }
{
    for hive in 0..trees.len() {
        let Some(tree) = trees.tree(hive as u8) else {
            unreachable!();
        };
        print_json(writer, hive as u8, tree)?;
    }
    Ok(())
}

fn print_all_tsv<W: Write>(writer: &mut W, trees: &Trees) -> io::Result<()>
    ensures { OnOk result (Appends (W.contents writer.old) (W.contents writer.new)
        (tsv_text (all_rows 0 trees.now))) }
{
    for hive in 0..trees.len() {
        let Some(tree) = trees.tree(hive as u8) else {
            unreachable!();
        };
        print_tsv(writer, hive as u8, tree)?;
    }
    Ok(())
}
