//! The first sector and the bins data of a hive's file, before they are opened as an image.
ghost use Rattle.std.specs.Prelude.{◌≡◌, ◌≤◌, ◌<◌, ℕ, List, Option, length, take, IfOk, IfSome, MatchOption, Err};
ghost use Rattle.std.specs.Io.KnownBytes.{Consumes, IsAtEnd};
ghost use Rattle.hive_file_reader.specs.Readings.{BinsOrRefusal};

use crate::bytes::{fill, read_part};
use crate::head::{HEAD_BYTES, judged};
use base_block::BaseBlock;
use refusals::{Cause, Refusal};
use std::alloc::Global;
use std::io;
use std::io::{ErrorKind, Read};

/// The bytes of a first sector.
const SECTOR_BYTES: usize = 512;

const _: () = prove!(SECTOR_BYTES == 512);

/// The parts of a hive's file.
#[derive(Drop)]
pub struct FileParts {
    /// The first 512 bytes, if there are so many.
    pub sector: Option<[u8; 512]>,
    /// The base block and the bins data, whether bins and cells tile them or not; or why the file has none.
    pub bins: Result<(BaseBlock, Vec<u8>), Refusal>,
}

/// The parts of a hive's primary file, read from where the reader is: the first sector, and the bins data if the base
/// block is one of a clean hive. What follows is left unread.
///
/// The bins data are refused with `HiveDamaged` of hive 0 and a cause. `Truncated` if the file ends early. `BadBase` if
/// it is no hive at all or has a wrong base block. `NotClean` if it isn't clean. Refused with `Unsupported` for a
/// version, a format or a type outside the profile, with `TooLarge` for bins data over the limit, and with `NoMemory`.
/// `Err` is a reader's that failed.
pub fn read_parts<R: Read>(alloc: Global, reader: &mut R) -> io::Result<FileParts>
    ensures sector { IfOk result (λ parts. IfSome (R.remaining reader.old) (λ file. MatchOption parts.sector
        (length file < 512) (λ sector. (sector ≡ take 512 file) × (512 ≤ length file)))) }
    ensures bins { IfOk result (λ parts. BinsOrRefusal (R.remaining reader.old) parts.bins) }
{
    let mut head = [0; HEAD_BYTES];
    let count = fill(reader, &mut head)?;
    let bins = bins_after(alloc, reader, &head[..count])?;
    Ok(FileParts {
        sector: first_sector(&head[..count]),
        bins,
    })
}

// the base block and the bins data of a file that begins with these bytes, of which the reader has the rest
fn bins_after<R: Read>(
    alloc: Global,
    reader: &mut R,
    head: &[u8],
) -> io::Result<Result<(BaseBlock, Vec<u8>), Refusal>>
    requires { length head.now ≤ 4096 }
    ensures { IfOk result (λ bins. (known : Option (List ℕ)) → Consumes known (R.remaining reader.old) head.now →
        (length head.now < 4096 → IsAtEnd (R.remaining reader.old)) → BinsOrRefusal known bins) }
{
    let block = match judged(head) {
        Ok(block) => block,
        Err(why) => return Ok(Err(why)),
    };
    let size = block.bins_size as usize;
    let bins = match read_part(alloc, reader, size) {
        Ok(bins) => bins,
        Err(error) => return unread(error),
    };
    if bins.len() < size {
        return Ok(Err(Refusal::from(Cause::Truncated)));
    }
    Ok(Ok((block, bins)))
}

// why bins data aren't read: memory wasn't given, or the reader failed
fn unread(error: io::Error) -> io::Result<Result<(BaseBlock, Vec<u8>), Refusal>>
    ensures { IfOk result (λ bins. bins ≡ Err Refusal.NoMemory) }
{
    match error.kind() {
        ErrorKind::OutOfMemory => Ok(Err(Refusal::NoMemory)),
        _ => Err(error),
    }
}

// the first sector of a file that begins with these bytes, or is these bytes if they are fewer than 4,096
fn first_sector(head: &[u8]) -> Option<[u8; 512]>
    ensures { MatchOption result (length head.now < 512)
        (λ sector. (sector ≡ take 512 head.now) × (512 ≤ length head.now)) }
{
    if head.len() < SECTOR_BYTES {
        return None;
    }
    let mut sector = [0; SECTOR_BYTES];
    sector.copy_from_slice(&head[..SECTOR_BYTES]);
    Some(sector)
}
