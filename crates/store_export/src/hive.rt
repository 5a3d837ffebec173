//! The export of a hive's file.
ghost use Rattle.std.specs.Prelude.{◌≡◌, ◌≤◌, length, IfOk, IfErr, IfSome};
ghost use Rattle.std.specs.Option.{option_map};
ghost use Rattle.refusals.specs.declared.limits.TheConstants.{MOST_PATH_NAMES};
ghost use Rattle.hive_file_reader.specs.Hives.{FileHasBins};
ghost use Rattle.store_export.specs.HiveExports.{ReportsFile, path_asked};
ghost use Rattle.store_export.specs.HivePrints.{AnswersAsked, AnswersFile, BinsStopped};

use crate::hive_part::print_below;
use crate::report::{ExportError, reported};
use crate::request::ExportRequest;
use base_block::BaseBlock;
use hive_cells::Image;
use hive_file_reader::{ReadError, read_image};
use key_walk::KeyPath;
use refusals::Refusal;
use reg_names::Name;
use reply_lines::Status;
use std::alloc::Global;
use std::io::{Read, Write};

/// The number as which the hive of a file is printed.
pub(crate) const HIVE: u8 = 0;

const _: () = prove!(HIVE == 0);

/// Prints the keys of a clean hive's file as hive 0, or a key of it with all below it. Beside the file's image it takes
/// memory for a key at a time. Of the keys beside the one that is asked for, and beside the way to it, only the names on
/// the way are read.
///
/// Refused, in a line, if the file is no clean hive, as `read_image` is; as `find_subkey` of `hive_lookup` is on the way,
/// with `NotFound` if no key has the name; as `SoundImage::part_judged` is of the key and all below it; with `BadName` if
/// a registration file can't show a name; and with `NoMemory`. The line stands alone, unless memory is wanting: then some
/// of the keys may be printed before it. `Err` says that a write failed, or that the file can't be read, or read on;
/// nothing was printed then.
pub fn export_hive<R: Read, W: Write>(
    alloc: Global,
    reader: &mut R,
    request: &ExportRequest<'_>,
    writer: &mut W,
) -> Result<Status, ExportError>
    ensures reports { IfOk result (λ status. IfSome (R.remaining reader.old) (λ file.
        ReportsFile request.now file (W.contents writer.old) (W.contents writer.new) status)) }
{
    let printed = print_file(alloc, reader, request, writer);
    reported(writer, printed)
}

// prints the keys that are asked for of a file
fn print_file<R: Read, W: Write>(
    alloc: Global,
    reader: &mut R,
    request: &ExportRequest<'_>,
    writer: &mut W,
) -> Result<(), ExportError>
    ensures { AnswersFile (R.remaining reader.old) request.now (W.contents writer.old)
        (W.contents writer.new) result }
{
    let read = read_bins(alloc, reader)?;
    let (block, image) = read;
    print_asked(alloc, &image, block.root, block.minor, request, writer)
}

// the base block and the image of a file
fn read_bins<R: Read>(alloc: Global, reader: &mut R) -> Result<(BaseBlock, Image), ExportError>
    ensures read { IfOk result (λ read. IfSome (R.remaining reader.old) (λ file.
        FileHasBins file read.0 read.1.bytes)) }
    ensures refused { IfErr result (λ error. IfSome (R.remaining reader.old) (λ file.
        BinsStopped file error)) }
{
    match read_image(alloc, reader, HIVE) {
        Ok(read) => Ok(read),
        Err(ReadError::Refused(refusal)) => Err(ExportError::Refused(refusal)),
        Err(ReadError::SourceFailed) => Err(ExportError::CannotRead),
    }
}

// prints the keys that are asked for of an image of a minor version
fn print_asked<W: Write>(
    alloc: Global,
    image: &Image,
    root: u32,
    minor: u32,
    request: &ExportRequest<'_>,
    writer: &mut W,
) -> Result<(), ExportError>
    ensures { AnswersAsked request.now (path_asked request.now.selection) image.now.bytes minor root
        (W.contents writer.old) (W.contents writer.new) result }
{
    match asked_path(request) {
        Some(path) => print_below(
            alloc,
            image,
            minor,
            request,
            &KeyPath::Root,
            root,
            path,
            writer,
        ),
        None => Err(ExportError::Refused(Refusal::NotFound)),
    }
}

// the path of the key that is asked for, or the root's if all keys are; none if it is of another hive
fn asked_path<'a>(request: &ExportRequest<'a>) -> Option<&'a [Name]>
    ensures asked { option_map (λ path. path.now) result ≡ path_asked request.now.selection }
    ensures short { IfSome result (λ path. length path.now ≤ MOST_PATH_NAMES) }
{
    match request.selection {
        None => Some(&[]),
        Some(selection) if selection.hive == HIVE => Some(selection.path.names()),
        Some(_) => None,
    }
}
