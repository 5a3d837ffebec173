//! What is found by names in a hive's file.
ghost use Rattle.std.specs.Prelude.{◌≡◌, IfErr, IfOk, IfSome, MatchResult};
ghost use Rattle.reg_names.specs.Names.{folded, folded_path};
ghost use Rattle.hive_cells.specs.Bins.{Cells, Shows};
ghost use Rattle.hive_records.specs.Images.{splits};
ghost use Rattle.hive_file_reader.specs.Hives.{FileHasBins};
ghost use Rattle.hive_file_reader.specs.Readings.{FileBinsRefusedAs};
ghost use Rattle.store_values.specs.FileAnswers.{HasKey, HasValue, InFile, LacksKey, LacksValue, NotInFile, refusal_of};
ghost use Rattle.store_values.specs.FileLookups.{FileStops, IsNoHiveOf};

use base_block::BaseBlock;
use hive_cells::Image;
use hive_file_reader::{ReadError, read_image};
use hive_lookup::{LookupError, find_key, read_key, read_value, subkey_names};
use refusals::Refusal;
use reg_names::{Name, Path, ValueName};
use reg_tree_parts::{Key, Value};
use std::alloc::Global;
use std::io::Read;

/// The number as which the hive of a file is read.
const HIVE: u8 = 0;

const _: () = prove!(HIVE == 0);

// the refusal that an error is told by
fn refusal_of(error: LookupError) -> Refusal
    ensures { result ≡ refusal_of error }
{
    match error {
        LookupError::NoMemory => Refusal::NoMemory,
        LookupError::NotFound => Refusal::NotFound,
        LookupError::Damaged { refusal, .. } => refusal,
    }
}

// the value of a name of the key to which a path leads, of an image of a minor version
fn value_of_image(
    alloc: Global,
    image: &Image,
    root: u32,
    minor: u32,
    path: &Path,
    name: &ValueName,
) -> Result<Value, Refusal>
    ensures { (cells : Cells) → Shows image.now.bytes cells → MatchResult result
        (HasValue (splits minor) cells root (folded_path path.now) (folded name.now))
        (LacksValue (splits minor) cells root (folded_path path.now) (folded name.now)) }
{
    let key = match find_key(alloc, image, root, path) {
        Ok(key) => key,
        Err(end) => return Err(refusal_of(end.error)),
    };
    match read_value(alloc, image, minor, key, name) {
        Ok(value) => Ok(value),
        Err(error) => Err(refusal_of(error)),
    }
}

// the key to which a path leads with the names of its subkeys, of an image of a minor version
fn key_of_image(
    alloc: Global,
    image: &Image,
    root: u32,
    minor: u32,
    path: &Path,
) -> Result<(Vec<Name>, Key), Refusal>
    ensures { (cells : Cells) → Shows image.now.bytes cells → MatchResult result
        (λ found. HasKey (splits minor) cells root (folded_path path.now) found.0.items found.1)
        (LacksKey (splits minor) cells root (folded_path path.now)) }
{
    let at = match find_key(alloc, image, root, path) {
        Ok(at) => at,
        Err(end) => return Err(refusal_of(end.error)),
    };
    let names = match subkey_names(alloc, image, at) {
        Ok(names) => names,
        Err(error) => return Err(refusal_of(error)),
    };
    match read_key(alloc, image, minor, at) {
        Ok(key) => Ok((names, key)),
        Err(error) => Err(refusal_of(error)),
    }
}

// the base block and the image of a file, which is hive 0
fn image_asked<R: Read>(
    alloc: Global,
    reader: &mut R,
    hive: u8,
) -> Result<(BaseBlock, Image), ReadError>
    ensures read { IfOk result (λ read. (hive ≡ 0) × IfSome (R.remaining reader.old) (λ file.
        FileHasBins file read.0 read.1.bytes)) }
    ensures refused { IfErr result (λ error. IfSome (R.remaining reader.old) (λ file.
        FileStops (IsNoHiveOf hive file) error)) }
{
    let read = match read_image(alloc, reader, HIVE) {
        Ok(read) => read,
        Err(error) => return Err(error),
    };
    if hive != HIVE {
        return Err(ReadError::Refused(Refusal::NotFound));
    }
    Ok(read)
}

/// The value of a name of the key at a path of the hive in a file.
pub(crate) fn value_in_file<R: Read>(
    alloc: Global,
    reader: &mut R,
    hive: u8,
    path: &Path,
    name: &ValueName,
) -> Result<Value, ReadError>
    ensures found { IfOk result (λ value. IfSome (R.remaining reader.old) (λ file. InFile file hive
        (λ split cells root. HasValue split cells root (folded_path path.now) (folded name.now) value))) }
    ensures missing { IfErr result (λ error. IfSome (R.remaining reader.old) (λ file. FileStops
        (NotInFile file hive (λ split cells root. LacksValue split cells root (folded_path path.now) (folded name.now))) error)) }
{
    let (block, image) = match image_asked(alloc, reader, hive) {
        Ok(read) => read,
        Err(error) => return Err(error),
    };
    match value_of_image(alloc, &image, block.root, block.minor, path, name) {
        Ok(value) => Ok(value),
        Err(refusal) => Err(ReadError::Refused(refusal)),
    }
}

/// The key at a path of the hive in a file, and the names of its subkeys, in their order.
pub(crate) fn key_in_file<R: Read>(
    alloc: Global,
    reader: &mut R,
    hive: u8,
    path: &Path,
) -> Result<(Vec<Name>, Key), ReadError>
    ensures found { IfOk result (λ found. IfSome (R.remaining reader.old) (λ file. InFile file hive
        (λ split cells root. HasKey split cells root (folded_path path.now) found.0.items found.1))) }
    ensures missing { IfErr result (λ error. IfSome (R.remaining reader.old) (λ file. FileStops
        (NotInFile file hive (λ split cells root. LacksKey split cells root (folded_path path.now))) error)) }
{
    let (block, image) = match image_asked(alloc, reader, hive) {
        Ok(read) => read,
        Err(error) => return Err(error),
    };
    match key_of_image(alloc, &image, block.root, block.minor, path) {
        Ok(found) => Ok(found),
        Err(refusal) => Err(ReadError::Refused(refusal)),
    }
}
