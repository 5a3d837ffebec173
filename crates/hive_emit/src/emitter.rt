//! Whole trees.
ghost use Rattle.std.specs.Prelude.{◌≡◌, ℕ, ◌+◌, ◌<◌, ◌≤◌, length, IfOk, IfErr};
ghost use Rattle.hive_records.specs.Images.{BinsEncodeTree};
ghost use Rattle.hive_emit.specs.CellWrites.{HasFreeRoomAt};
ghost use Rattle.reg_tree.specs.Maps.{weight};
ghost use Rattle.hive_emit.specs.EmittedKeys.{EmitRefused};
ghost use Rattle.hive_emit.specs.Forms.{IsFormed};

use crate::cells::NIL;
use crate::key_costs::keys_cost;
use crate::keys::put_key;
use crate::security::SecurityTable;
use hive_cells::Image;
use refusals::Refusal;
use refusals::limits::{MOST_BINS_BYTES, MOST_WEIGHT};
use reg_tree::Tree;
use std::alloc::Global;

/// An image that encodes a tree, and where its root is.
#[derive(Drop)]
pub struct Emitted {
    /// The image.
    pub image: Image,
    /// The cell of the root's record.
    pub root: u32,
}

// the bytes of a page
const PAGE: usize = 4_096;

// what a bin's header and a cell's size take of its first page
const HEADERS: usize = 36;

// bytes that are never taken of the free cell, so that each cell gets the size that was reckoned
const SPARED: usize = 8;

// an image of at least a size, of one bin with one free cell, in which `needed` bytes can be taken
fn room(alloc: Global, needed: usize, least_size: u32) -> Result<Image, Refusal>
    requires needed { needed + 4_096 ≤ MOST_BINS_BYTES }
    requires size { least_size ≤ MOST_BINS_BYTES }
    ensures roomy { IfOk result (λ image. HasFreeRoomAt image.bytes 32 needed) }
    ensures least { IfOk result (λ image. least_size ≤ length image.bytes) }
    ensures page { IfOk result (λ image. 4_096 ≤ length image.bytes) }
    ensures memory { IfErr result (λ why. why ≡ Refusal.NoMemory) }
{
    let mut image = match Image::open(alloc, Vec::new(alloc)) {
        Ok(image) => image,
        Err(unopened) => return Err(unopened.refusal),
    };
    let size = (needed + HEADERS + SPARED).max(least_size as usize);
    let at = match image.alloc(size.max(PAGE) - HEADERS) {
        Ok(at) => at,
        Err(why) => return Err(why),
    };
    match image.free(at) {
        Ok(_) => Ok(image),
        Err(why) => Err(why),
    }
}

/// A new image for a tree, of at least a size in bytes and at least a page of 4,096. It has one bin, as long as it has
/// to be.
///
/// It is written in the form that other tools expect. Values and subkeys are in the order of their names. Lists of
/// subkeys have hashes unless a name is past ASCII, in leaves of at most 500. There is one security cell for each
/// distinct descriptor, in a ring, with the count of the keys that have it.
///
/// Refused with `TooLarge` exactly if the tree is over the weight or the least size is over the limit of bins data.
/// Otherwise refused with `NoMemory` alone.
pub fn emit(alloc: Global, tree: &Tree, least_size: u32) -> Result<Emitted, Refusal>
    ensures stands { IfOk result (λ emitted. (minor : ℕ) → 4 ≤ minor →
        BinsEncodeTree emitted.image.bytes emitted.root minor tree.now) }
    ensures formed { IfOk result (λ emitted. IsFormed emitted.image.bytes emitted.root tree.now) }
    ensures least { IfOk result (λ emitted. least_size ≤ length emitted.image.bytes) }
    ensures page { IfOk result (λ emitted. 4_096 ≤ length emitted.image.bytes) }
    ensures limit { IfOk result (λ emitted. length emitted.image.bytes ≤ MOST_BINS_BYTES) }
    ensures heavy { MOST_WEIGHT < weight tree.now → result ≡ Err Refusal.TooLarge }
    ensures long { MOST_BINS_BYTES < least_size → result ≡ Err Refusal.TooLarge }
    ensures refused { IfErr result (EmitRefused (weight tree.now) least_size) }
{
    if MOST_WEIGHT < tree.weight() || MOST_BINS_BYTES < least_size as usize {
        return Err(Refusal::TooLarge);
    }
    let root = tree.root();
    let mut securities = SecurityTable::new(alloc);
    securities.count_all(alloc, root)?;
    let mut encoding = Vec::new(alloc);
    let mut image = room(alloc, securities.cost() + keys_cost(root), least_size)?;
    image.tiles(0); // for the prover
    match securities.put(&mut image, &mut encoding) {
        Ok(()) => {}
        Err(why) => return Err(why),
    }
    let at = match put_key(alloc, &mut image, &mut encoding, &securities, root, NIL) {
        Ok(at) => at,
        Err(why) => return Err(why),
    };
    image.tiles(0); // for the prover
    Ok(Emitted { image, root: at })
}
