//! A key of a hive's image with all keys below it, found by its path and printed.
ghost use Rattle.std.specs.Prelude.{◌≡◌, ◌≤◌, ◌+◌, ◌∷◌, [], length, IfOk, IfErr, MatchResult};
ghost use Rattle.std.specs.List.{flat_map};
ghost use Rattle.std.specs.Io.KnownBytes.{Appends};
ghost use Rattle.refusals.specs.declared.limits.TheConstants.{MOST_PATH_NAMES};
ghost use Rattle.refusals.specs.declared.refusal.Refusal.TheVariants.{NoMemory};
ghost use Rattle.reg_names.specs.Names.{folded_path};
ghost use Rattle.reg_tree.specs.Maps.{TreeMap};
ghost use Rattle.key_walk.specs.KeyPaths.{names_on};
ghost use Rattle.key_walk.specs.KeyRows.{tree_rows};
ghost use Rattle.hive_records.specs.Images.{BinsEncodeTree};
ghost use Rattle.hive_walk.specs.Walks.{IsNoFault, rows_under};
ghost use Rattle.reg_export.specs.Encodings.{Prints, PrintsFile};
ghost use Rattle.reg_export.specs.RegTexts.{reg_key_lines, reg_units};
ghost use Rattle.reg_export.specs.TsvTexts.{tsv_key_lines};
ghost use Rattle.reg_export.specs.Scans.{new_scan, scan_with, shown_names};
ghost use Rattle.store_export.specs.declared.report.ExportError.TheVariants.{Refused};
ghost use Rattle.store_export.specs.Exports.{PrintsLines};
ghost use Rattle.store_export.specs.HivePrints.{AnswersPart, AnswersScanned, AnswersWalk, IsPrinted};

use crate::hive::HIVE;
use crate::report::ExportError;
use crate::request::{ExportRequest, Form};
use hive_cells::Image;
use hive_lookup::find_subkey;
use hive_records::laws::one_tree;
use hive_walk::{SoundImage, WalkError};
use key_walk::{KeyPath, KeySink};
use refusals::Refusal;
use reg_export::{Encoding, JsonSink, NameScan, RegSink, TsvSink, write_reg_header};
use reg_names::Name;
use std::alloc::Global;
use std::io::{self, Write};

/// Prints the key to which a path leads from another, and all keys below it. The other is at an offset of an image of a
/// minor version, and `way` leads to it from the hive's root.
///
/// Refused as `find_subkey` is at each step, as `SoundImage::part_judged` is, with `BadName` if a registration file can't
/// show a name, and with `NoMemory`. Only if memory is wanting may something be printed before.
pub(crate) fn print_below<W: Write>(
    alloc: Global,
    image: &Image,
    minor: u32,
    request: &ExportRequest<'_>,
    way: &KeyPath<'_>,
    key: u32,
    path: &[Name],
    writer: &mut W,
) -> Result<(), ExportError>
    requires depth { length (names_on way.now) + length path.now ≤ MOST_PATH_NAMES }
    ensures { AnswersPart request.now image.now.bytes minor key (names_on way.now) (folded_path path.now)
        (W.contents writer.old) (W.contents writer.new) result }
{
    let Some((name, rest)) = path.split_first() else {
        return print_part(alloc, image, minor, request, &*way, key, writer);
    };
    match find_subkey(alloc, image, key, name) {
        Ok((subkey, spelled)) => {
            let below = KeyPath::Below(&*way, &spelled);
            print_below(alloc, image, minor, &*request, &below, subkey, rest, writer)
        }
        Err(error) => Err(ExportError::of_lookup(error)),
    }
}

// prints the key at an offset, to which a way leads, and all keys below it
#[inline(never)] // so that each name of a path takes little stack
fn print_part<W: Write>(
    alloc: Global,
    image: &Image,
    minor: u32,
    request: &ExportRequest<'_>,
    way: &KeyPath<'_>,
    at: u32,
    writer: &mut W,
) -> Result<(), ExportError>
    requires depth { length (names_on way.now) ≤ MOST_PATH_NAMES }
    ensures { AnswersPart request.now image.now.bytes minor at (names_on way.now) []
        (W.contents writer.old) (W.contents writer.new) result }
{
    match SoundImage::part_judged(alloc, image, at, minor, way) {
        Ok(part) => print_keys(
            alloc,
            &part,
            request.form,
            request.prefix(HIVE),
            way,
            writer,
        ),
        Err(error) => Err(ExportError::of_image(error)),
    }
}

// prints the keys of a part, to whose first a way leads, once a first walk has found that they can be printed
fn print_keys<W: Write>(
    alloc: Global,
    part: &SoundImage<'_>,
    form: Form,
    prefix: &[u8],
    way: &KeyPath<'_>,
    writer: &mut W,
) -> Result<(), ExportError>
    ensures { (tree : TreeMap) → BinsEncodeTree part.now.0 part.now.1.0 part.now.1.1 tree →
        AnswersScanned form prefix.now (rows_under (names_on way.now) (tree_rows tree)) (W.contents writer.old)
        (W.contents writer.new) result }
{
    let names = scan(alloc, part, way)?;
    print_scanned(alloc, part, form, names, prefix, way, writer)
}

// prints the keys, whose names were looked at
fn print_scanned<W: Write>(
    alloc: Global,
    part: &SoundImage<'_>,
    form: Form,
    names: NameScan,
    prefix: &[u8],
    way: &KeyPath<'_>,
    writer: &mut W,
) -> Result<(), ExportError>
    ensures { (tree : TreeMap) → BinsEncodeTree part.now.0 part.now.1.0 part.now.1.1 tree →
        names ≡ scan_with new_scan (flat_map shown_names (rows_under (names_on way.now) (tree_rows tree))) →
        AnswersScanned form prefix.now (rows_under (names_on way.now) (tree_rows tree)) (W.contents writer.old)
        (W.contents writer.new) result }
{
    match form {
        Form::Reg(encoding) => print_file(alloc, part, encoding, names, prefix, way, writer),
        Form::Json => print_json(alloc, part, way, writer),
        Form::Tsv => print_tsv(alloc, part, way, writer),
    }
}

// prints the keys as a registration file in this encoding, if it can show their names
fn print_file<W: Write>(
    alloc: Global,
    part: &SoundImage<'_>,
    encoding: Encoding,
    names: NameScan,
    prefix: &[u8],
    way: &KeyPath<'_>,
    writer: &mut W,
) -> Result<(), ExportError>
    ensures { (tree : TreeMap) → BinsEncodeTree part.now.0 part.now.1.0 part.now.1.1 tree →
        names ≡ scan_with new_scan (flat_map shown_names (rows_under (names_on way.now) (tree_rows tree))) →
        AnswersScanned (Form.Reg encoding) prefix.now (rows_under (names_on way.now) (tree_rows tree))
        (W.contents writer.old) (W.contents writer.new) result }
{
    if !names.can_show(encoding) {
        return Err(ExportError::Refused(Refusal::BadName));
    }
    print_reg(alloc, part, encoding, prefix, way, writer)
}

// what the names of the keys mean for a registration file
fn scan(alloc: Global, part: &SoundImage<'_>, way: &KeyPath<'_>) -> Result<NameScan, ExportError>
    ensures scanned { (tree : TreeMap) → BinsEncodeTree part.now.0 part.now.1.0 part.now.1.1 tree →
        IfOk result (λ scan. scan ≡ scan_with new_scan (flat_map shown_names (rows_under (names_on way.now) (tree_rows tree)))) }
    ensures refused { IfErr result (λ stopped. stopped ≡ Refused NoMemory) }
{
    let mut names = NameScan::new();
    match walk_part(alloc, part, way, &mut names) {
        Ok(()) => Ok(names),
        Err(WalkError::Image(_)) => Err(ExportError::Refused(Refusal::NoMemory)),
        Err(WalkError::Sink(never)) => match never {},
    }
}

// prints the keys as a registration file in this encoding
fn print_reg<W: Write>(
    alloc: Global,
    part: &SoundImage<'_>,
    encoding: Encoding,
    prefix: &[u8],
    way: &KeyPath<'_>,
    writer: &mut W,
) -> Result<(), ExportError>
    ensures { (tree : TreeMap) → BinsEncodeTree part.now.0 part.now.1.0 part.now.1.1 tree →
        IsPrinted (PrintsFile encoding (W.contents writer.old) (W.contents writer.new)
        (reg_units ((prefix.now, rows_under (names_on way.now) (tree_rows tree)) ∷ []))) result }
{
    write_reg_header(writer, encoding)?;
    print_reg_lines(alloc, part, encoding, prefix, way, writer)
}

// prints the lines of the keys in a registration file
fn print_reg_lines<W: Write>(
    alloc: Global,
    part: &SoundImage<'_>,
    encoding: Encoding,
    prefix: &[u8],
    way: &KeyPath<'_>,
    writer: &mut W,
) -> Result<(), ExportError>
    ensures { (tree : TreeMap) → BinsEncodeTree part.now.0 part.now.1.0 part.now.1.1 tree →
        IsPrinted (Prints encoding (W.contents writer.old) (W.contents writer.new)
        (flat_map (reg_key_lines prefix.now) (rows_under (names_on way.now) (tree_rows tree)))) result }
{
    let mut sink = RegSink {
        writer,
        encoding,
        prefix,
    };
    printed(walk_part(alloc, part, way, &mut sink))
}

// prints the keys as lines of JSON
fn print_json<W: Write>(
    alloc: Global,
    part: &SoundImage<'_>,
    way: &KeyPath<'_>,
    writer: &mut W,
) -> Result<(), ExportError>
    ensures { (tree : TreeMap) → BinsEncodeTree part.now.0 part.now.1.0 part.now.1.1 tree →
        IsPrinted (PrintsLines 0 (rows_under (names_on way.now) (tree_rows tree)) (W.contents writer.old)
        (W.contents writer.new)) result }
{
    let mut sink = JsonSink { writer, hive: HIVE };
    printed(walk_part(alloc, part, way, &mut sink))
}

// prints the keys as lines of fields between tabs
fn print_tsv<W: Write>(
    alloc: Global,
    part: &SoundImage<'_>,
    way: &KeyPath<'_>,
    writer: &mut W,
) -> Result<(), ExportError>
    ensures { (tree : TreeMap) → BinsEncodeTree part.now.0 part.now.1.0 part.now.1.1 tree →
        IsPrinted (Appends (W.contents writer.old) (W.contents writer.new)
        (flat_map (tsv_key_lines 0) (rows_under (names_on way.now) (tree_rows tree)))) result }
{
    let mut sink = TsvSink { writer, hive: HIVE };
    printed(walk_part(alloc, part, way, &mut sink))
}

// what is answered of keys that were printed
fn printed(walked: Result<(), WalkError<io::Error>>) -> Result<(), ExportError>
    ensures { AnswersWalk walked result }
{
    match walked {
        Ok(()) => Ok(()),
        Err(WalkError::Image(_)) => Err(ExportError::Refused(Refusal::NoMemory)),
        Err(WalkError::Sink(error)) => Err(ExportError::Write(error)),
    }
}

// hands a sink the keys of a part, to whose first a way leads
fn walk_part<S: KeySink>(
    alloc: Global,
    part: &SoundImage<'_>,
    way: &KeyPath<'_>,
    sink: &mut S,
) -> Result<(), WalkError<S::Error>>
    ensures { (tree : TreeMap) → BinsEncodeTree part.now.0 part.now.1.0 part.now.1.1 tree →
        MatchResult result (λ _. S.Took sink.old sink.new (rows_under (names_on way.now) (tree_rows tree))) IsNoFault }
{
    one_tree(); // for the prover
    part.walk_below(alloc, way, sink)
}
