//! The bytes of a whole hive file.
ghost use Rattle.std.specs.Prelude.{◌≡◌, ◌≤◌, ◌++◌, length, replicate, ℕ, List, IfOk, IfErr};
ghost use Rattle.refusals.specs.declared.limits.TheConstants.{MOST_BINS_BYTES};
ghost use Rattle.base_block.specs.declared.block.TheConstants.{MINOR_VERSION};
ghost use Rattle.base_block.specs.Judgements.{IsBinsSize};
ghost use Rattle.base_block.specs.Layout.{block_at, fresh_primary};
ghost use Rattle.reg_tree.specs.Maps.{weight};
ghost use Rattle.hive_load.specs.Limits.{BinsEncodeTreeInLimits};
ghost use Rattle.hive_emit.specs.EmittedKeys.{EmitRefused};
ghost use Rattle.regtx_c.specs.Handles.{tree_in};
ghost use Rattle.regtx_c.specs.Files.{CopiesFile, CopiesOpen};

use crate::codes::{NOT_OPEN, code_of};
use crate::handle::{Handle, put, take};
use crate::room::copy_parts;
use base_block::{BaseBlock, MINOR_VERSION, SequenceNumber};
use hive_emit::{Emitted, emit};
use refusals::Refusal;
use reg_tree::Tree;
use std::alloc::Global;
use uuid::Uuid;

/// The bytes of a first sector, in which all fields of a base block are.
const SECTOR_BYTES: usize = 512;

/// The bytes that a base block takes in a file; the bins data begin after them.
const BASE_BYTES: usize = 4_096;

/// The least bins data: one bin of one page.
const LEAST_BINS_BYTES: u32 = 4_096;

/// The sequence number of a hive that was never flushed.
const FIRST_NUMBER: u32 = 1;

const _: () = prove!(LEAST_BINS_BYTES == 4_096);

// an image of a tree, of a size that bins data may have
fn image_of(alloc: Global, tree: &Tree) -> Result<Emitted, Refusal>
    ensures stands { IfOk result (λ made.
        BinsEncodeTreeInLimits made.image.bytes made.root MINOR_VERSION tree.now) }
    ensures size { IfOk result (λ made. IsBinsSize (length made.image.bytes)) }
    ensures limit { IfOk result (λ made. length made.image.bytes ≤ MOST_BINS_BYTES) }
    ensures refused { IfErr result (EmitRefused (weight tree.now) LEAST_BINS_BYTES) }
{
    let _ = tree.root(); // for the prover
    let emitted = match emit(alloc, tree, LEAST_BINS_BYTES) {
        Ok(emitted) => emitted,
        Err(why) => return Err(why),
    };
    emitted.image.tiles(0); // for the prover
    Ok(emitted)
}

// the base block of a hive that was never flushed and is of no store, with zeros up to where bins data begin
fn base_of(root: u32, size: u32) -> [u8; BASE_BYTES]
    ensures long { length result ≡ 4_096 }
    ensures sector { (sector : List ℕ) × (result ≡ sector ++ replicate 3_584 0) × (length sector ≡ 512)
        × (block_at sector ≡ fresh_primary FIRST_NUMBER MINOR_VERSION root size (replicate 16 0)) }
{
    let number = SequenceNumber(FIRST_NUMBER);
    let block = BaseBlock::of_primary(number, MINOR_VERSION, root, size, Uuid::nil());
    let mut base = [0; BASE_BYTES];
    base[..SECTOR_BYTES].copy_from_slice(&block.write());
    base
}

// copies the bytes of a file that holds a tree
fn write(alloc: Global, tree: &Tree, file: &mut [u8], len: &mut usize) -> u32
    ensures { CopiesFile tree.now file.old file.new len.old len.new result }
{
    let Emitted { image, root } = match image_of(alloc, tree) {
        Ok(emitted) => emitted,
        Err(why) => return code_of(why),
    };
    let base = base_of(root, image.len() as u32);
    let bins = image.into_bytes();
    copy_parts(&base, &bins, file, len)
}

/// Writes the hive that is open as the bytes of a whole file: a clean primary file, as `regtx_hive_open` and other
/// programs read it.
///
/// Refused with `TooLarge` if the tree weighs more than 16,777,216, which no edit leaves.
#[unsafe(no_mangle)]
pub extern "C" fn regtx_hive_write(
    alloc: Global,
    hive: &mut Handle,
    file: &mut [u8],
    len: &mut usize,
) -> u32
    ensures same { tree_in hive.new ≡ tree_in hive.old }
    ensures copied { CopiesOpen (tree_in hive.old) file.old file.new len.old len.new result }
{
    let Some(block) = take(alloc, hive) else {
        return NOT_OPEN;
    };
    let code = write(alloc, block.tree(), file, len);
    put(alloc, hive, Some(block));
    code
}
