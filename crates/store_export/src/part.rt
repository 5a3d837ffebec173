//! A key of a tree in memory with all below it, printed.
ghost use Rattle.std.specs.Prelude.{◌≡◌, ◌∷◌, [], OnOk, IfErr, slice_get, true};
ghost use Rattle.reg_names.specs.Names.{folded_path};
ghost use Rattle.reg_tree.specs.Maps.{is_there};
ghost use Rattle.key_walk.specs.SubtreeRows.{rows_below};
ghost use Rattle.store_export.specs.Exports.{CannotShow, EndsEarly, RowsRefused, ShowsHives, ShowsRows, part_rows};

use crate::lines::{print_json_below, print_tsv_below};
use crate::report::ExportError;
use crate::request::{ExportRequest, Form, Selection};
use key_walk::walk_below;
use refusals::Refusal;
use reg_export::{HiveKeys, NameScan, write_reg_below};
use reg_names::Name;
use reg_tree::{Tree, Trees};
use std::io::Write;

/// Prints a key of a hive with all below it. Refused with `NotFound` if it isn't there, and with `BadName` if a
/// registration file can't show a name; nothing is printed then.
pub(crate) fn print_part<W: Write>(
    writer: &mut W,
    trees: &Trees,
    request: &ExportRequest<'_>,
    selection: &Selection,
) -> Result<(), ExportError>
    ensures shown { OnOk result (ShowsRows request.now (part_rows selection.now.hive
        (folded_path selection.now.path) (slice_get trees.now selection.now.hive))
        (W.contents writer.old) (W.contents writer.new)) }
    ensures refused { IfErr result (λ error. EndsEarly (RowsRefused request.now
        (part_rows selection.now.hive (folded_path selection.now.path)
        (slice_get trees.now selection.now.hive))) (W.contents writer.old) (W.contents writer.new)
        error) }
{
    let Some(tree) = trees.tree(selection.hive) else {
        return Err(ExportError::Refused(Refusal::NotFound));
    };
    let names = selection.path.names();
    if !has_key(tree, names) {
        return Err(ExportError::Refused(Refusal::NotFound));
    }
    print_below(writer, request, selection.hive, tree, names)
}

// whether a key is there
fn has_key(tree: &Tree, path: &[Name]) -> bool
    ensures { result ≡ is_there tree.now (folded_path path.now) }
{
    let Ok(there) = walk_below(&mut NameScan::new(), tree, path);
    there
}

// prints the key at a path, which is there, and all below it
fn print_below<W: Write>(
    writer: &mut W,
    request: &ExportRequest<'_>,
    hive: u8,
    tree: &Tree,
    path: &[Name],
) -> Result<(), ExportError>
    requires there { is_there tree.now (folded_path path.now) ≡ true }
    ensures shown { OnOk result (ShowsHives request.now.form request.now.prefixes.now
        ((hive, rows_below tree.now (folded_path path.now)) ∷ []) (W.contents writer.old)
        (W.contents writer.new)) }
    ensures refused { IfErr result (λ error. EndsEarly (CannotShow request.now
        ((hive, rows_below tree.now (folded_path path.now)) ∷ [])) (W.contents writer.old)
        (W.contents writer.new) error) }
{
    match request.form {
        Form::Reg(encoding) => {
            let prefix = request.prefix(hive);
            write_reg_below(writer, encoding, &HiveKeys { prefix, tree }, path)?;
            Ok(())
        }
        Form::Json => Ok(print_json_below(writer, hive, tree, path)?),
        Form::Tsv => Ok(print_tsv_below(writer, hive, tree, path)?),
    }
}
