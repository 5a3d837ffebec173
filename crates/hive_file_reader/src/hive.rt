//! The image and the tree of a hive's file.
ghost use Rattle.std.specs.Prelude.{◌≡◌, ℕ, List, Option, IfOk, IfErr, IfSome};
ghost use Rattle.hive_file_reader.specs.Hives.{FileHasBins, FileHoldsHive};
ghost use Rattle.hive_file_reader.specs.declared.hive.ReadError.TheVariants.{Refused};
ghost use Rattle.hive_file_reader.specs.Readings.{BinsOrRefusal, IsReadError, RefusalFitsFile, RefusalFitsFileAs, BinsRefusalFitsFile, BinsRefusalFitsFileAs, of_hive};

use crate::parts::read_parts;
use base_block::BaseBlock;
use hive_cells::{Image, Looks};
use hive_load::load;
use refusals::Refusal;
use reg_tree::Tree;
use std::alloc::Global;
use std::io;
use std::io::{ErrorKind, Read};

/// Why a file gives no image or no tree.
#[derive(Drop)]
pub enum ReadError {
    /// The file's bytes are refused, or memory for them.
    Refused(Refusal),
    /// The file can't be read, or read on.
    SourceFailed,
}

impl From<io::Error> for ReadError {
    ghost from_gives = { λ _ unread. IsReadError unread };

    fn from(error: io::Error) -> ReadError {
        match error.kind() {
            ErrorKind::OutOfMemory => ReadError::Refused(Refusal::NoMemory),
            _ => ReadError::SourceFailed,
        }
    }
}

impl From<Refusal> for ReadError {
    ghost from_gives = { λ refusal unread. unread ≡ Refused refusal };

    fn from(refusal: Refusal) -> ReadError {
        ReadError::Refused(refusal)
    }
}

/// The base block of a hive's primary file and the image of its bins data, read from where the reader is: the block's
/// bytes, and as many as it says. What follows is left unread. Whoever reads several files gives each its number, which
/// only a refusal names.
///
/// Refused with `HiveDamaged` of the hive of this number and a cause. `Truncated` if the file ends early. `BadBase` if
/// it is no hive at all or has a wrong base block. `NotClean` if it isn't clean. Another cause if bins and cells don't
/// tile the bins data. Refused with `Unsupported` for a version, a format or a type outside the profile, with
/// `TooLarge` for bins data over the limit, and with `NoMemory`. A reader that fails is `SourceFailed`.
pub fn read_image<R: Read>(
    alloc: Global,
    reader: &mut R,
    hive: u8,
) -> Result<(BaseBlock, Image), ReadError>
    ensures image { IfOk result (λ read. IfSome (R.remaining reader.old) (λ file. FileHasBins file read.0 read.1.bytes)) }
    ensures unread { IfErr result (BinsRefusalFitsFileAs hive (R.remaining reader.old)) }
{
    match read_bins(alloc, reader) {
        Ok(read) => Ok(read),
        Err(ReadError::Refused(why)) => Err(ReadError::Refused(with_number(why, hive))),
        Err(ReadError::SourceFailed) => Err(ReadError::SourceFailed),
    }
}

/// The tree that a hive's primary file holds, read as by [`read_image`].
///
/// Refused as there, with another cause if the bins data encode no tree, with `Unsupported` for a flag in them, and with
/// `TooLarge` for a tree's weight or a path over the limits.
pub fn read_hive<R: Read>(alloc: Global, reader: &mut R, hive: u8) -> Result<Tree, ReadError>
    ensures hive { IfOk result (λ tree. IfSome (R.remaining reader.old) (λ file. FileHoldsHive file tree)) }
    ensures unread { IfErr result (RefusalFitsFileAs hive (R.remaining reader.old)) }
{
    match read_tree(alloc, reader) {
        Ok(tree) => Ok(tree),
        Err(ReadError::Refused(why)) => Err(ReadError::Refused(with_number(why, hive))),
        Err(ReadError::SourceFailed) => Err(ReadError::SourceFailed),
    }
}

// the block and the image of a hive's file, refused as hive 0
fn read_bins<R: Read>(alloc: Global, reader: &mut R) -> Result<(BaseBlock, Image), ReadError>
    ensures image { IfOk result (λ read. IfSome (R.remaining reader.old) (λ file. FileHasBins file read.0 read.1.bytes)) }
    ensures unread { IfErr result (BinsRefusalFitsFile (R.remaining reader.old)) }
{
    let parts = read_parts(alloc, reader)?;
    opened(alloc, parts.bins)
}

// the block and the image of bins data that were read, or why there are none
fn opened(
    alloc: Global,
    bins: Result<(BaseBlock, Vec<u8>), Refusal>,
) -> Result<(BaseBlock, Image), ReadError>
    ensures image { IfOk result (λ read. (known : Option (List ℕ)) → BinsOrRefusal known bins →
        IfSome known (λ file. FileHasBins file read.0 read.1.bytes)) }
    ensures unread { IfErr result (λ error. (known : Option (List ℕ)) → BinsOrRefusal known bins →
        BinsRefusalFitsFile known error) }
{
    match bins {
        Ok((block, bytes)) => match Image::open(alloc, bytes) {
            Ok(image) => Ok((block, image)),
            Err(unopened) => Err(ReadError::Refused(unopened.refusal)),
        },
        Err(why) => Err(ReadError::Refused(why)),
    }
}

// the tree that a hive's file holds, refused as hive 0
fn read_tree<R: Read>(alloc: Global, reader: &mut R) -> Result<Tree, ReadError>
    ensures hive { IfOk result (λ tree. IfSome (R.remaining reader.old) (λ file. FileHoldsHive file tree)) }
    ensures unread { IfErr result (RefusalFitsFile (R.remaining reader.old)) }
{
    let (block, image) = match read_bins(alloc, reader) {
        Ok(read) => read,
        Err(error) => return Err(error),
    };
    let mut looks = Looks::new();
    match load(alloc, &image, block.root, block.minor, &mut looks) {
        Ok(tree) => Ok(tree),
        Err(why) => Err(ReadError::Refused(why)),
    }
}

/// A refusal, reported of the hive of this number.
pub(crate) fn with_number(why: Refusal, hive: u8) -> Refusal
    ensures { result ≡ of_hive hive why }
{
    match why {
        Refusal::HiveDamaged { hive: _, cause } => Refusal::HiveDamaged { hive, cause },
        _ => why,
    }
}
