//! A hive's file whose bytes are in memory.
ghost use Rattle.std.specs.Prelude.{IfOk, IfErr, IfSome, MatchResult};
ghost use Rattle.std.specs.Io.KnownBytes.{Consumes};
ghost use Rattle.hive_file_reader.specs.Hives.{FileHasBins, FileLacksBins, IsEnoughOf, EndsWithinHive};
ghost use Rattle.hive_file_reader.specs.Readings.{FileRefusedAs, ShallowFileRefused, ShallowFileRefusedAs, IsReadError};
ghost use Rattle.hive_load.specs.Limits.{BinsEncodeTreeInLimits, BinsEncodeShallowTree};

use crate::bytes::append_part;
use crate::head::{HEAD_BYTES, judged};
use crate::hive::{ReadError, with_number};
use base_block::BaseBlock;
use hive_load::{judge_weight, load_bins_any_weight};
use refusals::{Cause, Refusal};
use reg_tree::Tree;
use std::alloc::Global;
use std::io::Read;

/// The hive that a file holds.
#[derive(Drop)]
pub struct FileHive {
    /// The base block.
    pub block: BaseBlock,
    /// The bins data.
    pub bins: Vec<u8>,
    /// The tree that the bins data encode.
    pub tree: Tree,
}

/// The hive that a file with these bytes holds, whatever its tree weighs. The bins data stay in the vector's memory: the
/// base block's bytes are taken off its front, and what follows the bins data off its end.
///
/// Refused as [`read_hive`](crate::read_hive) is, but not for a tree's weight.
pub fn load_file_any_weight(alloc: Global, file: Vec<u8>, hive: u8) -> Result<FileHive, Refusal>
    ensures has { IfOk result (λ held. FileHasBins file.items held.block held.bins.items) }
    ensures tree { IfOk result (λ held.
        BinsEncodeShallowTree held.bins.items held.block.root held.block.minor held.tree) }
    ensures refused { IfErr result (ShallowFileRefusedAs hive file.items) }
{
    match loaded(alloc, file) {
        Ok(held) => Ok(held),
        Err(why) => Err(with_number(why, hive)),
    }
}

/// The hive that a file with these bytes holds, as [`load_file_any_weight`] loads it, if its tree weighs at most
/// 16,777,216.
///
/// Refused as [`read_hive`](crate::read_hive) is.
pub fn load_file(alloc: Global, file: Vec<u8>, hive: u8) -> Result<FileHive, Refusal>
    ensures has { IfOk result (λ held. FileHasBins file.items held.block held.bins.items) }
    ensures tree { IfOk result (λ held.
        BinsEncodeTreeInLimits held.bins.items held.block.root held.block.minor held.tree) }
    ensures refused { IfErr result (FileRefusedAs hive file.items) }
{
    let held = match load_file_any_weight(alloc, file, hive) {
        Ok(held) => held,
        Err(why) => return Err(why),
    };
    match judge_weight(&held.tree) {
        Ok(()) => Ok(held),
        Err(why) => Err(why),
    }
}

// the hive that a file with these bytes holds, whatever its tree weighs, refused as hive 0
fn loaded(alloc: Global, file: Vec<u8>) -> Result<FileHive, Refusal>
    ensures has { IfOk result (λ held. FileHasBins file.items held.block held.bins.items) }
    ensures tree { IfOk result (λ held.
        BinsEncodeShallowTree held.bins.items held.block.root held.block.minor held.tree) }
    ensures refused { IfErr result (ShallowFileRefused file.items) }
{
    let (block, bins) = match bins_of(file) {
        Ok(parts) => parts,
        Err(why) => return Err(why),
    };
    match load_bins_any_weight(alloc, bins, block.root, block.minor) {
        Ok((tree, image)) => Ok(FileHive {
            block,
            bins: image.into_bytes(),
            tree,
        }),
        Err(why) => Err(why),
    }
}

// the base block and the bins data of a file with these bytes, in the same memory; or why there are none, as hive 0
fn bins_of(file: Vec<u8>) -> Result<(BaseBlock, Vec<u8>), Refusal>
    ensures { MatchResult result (λ parts. FileHasBins file.items parts.0 parts.1.items)
        (FileLacksBins file.items) }
{
    let block = match judged(&file) {
        Ok(block) => block,
        Err(why) => return Err(why),
    };
    let size = block.bins_size as usize;
    let end = HEAD_BYTES + size;
    if file.len() < end {
        return Err(Refusal::from(Cause::Truncated));
    }
    let mut bins = file;
    bins.truncate(end);
    // takes no memory, and moves the bins data in long runs: the base block fits the room that std has on the stack
    bins.rotate_left(HEAD_BYTES);
    bins.truncate(size);
    Ok((block, bins))
}

/// As many bytes of a file, from where the reader is, as decide which hive it holds: those of the base block, and the
/// bins data if the block is that of a clean hive; or all that there are, if they are fewer. What follows is left
/// unread. Room is made a chunk at a time, or a quarter of the bytes that are there.
///
/// Refused with `NoMemory` alone. A reader that fails is `SourceFailed`.
pub fn read_file<R: Read>(alloc: Global, reader: &mut R) -> Result<Vec<u8>, ReadError>
    ensures front { IfOk result (λ front. IfSome (R.remaining reader.old) (IsEnoughOf front.items)) }
    ensures within { IfOk result (λ front. EndsWithinHive front.items) }
    ensures rest { IfOk result (λ front. Consumes (R.remaining reader.old) (R.remaining reader.new)
        front.items) }
    ensures unread { IfErr result IsReadError }
{
    let mut front = Vec::new(alloc);
    append_part(reader, &mut front, HEAD_BYTES)?;
    let Ok(block) = judged(&front) else {
        return Ok(front);
    };
    append_part(reader, &mut front, block.bins_size as usize)?;
    Ok(front)
}
