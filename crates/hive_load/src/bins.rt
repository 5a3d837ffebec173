//! The tree of hive bins data as they are in a file.
ghost use Rattle.std.specs.Prelude.{◌≡◌, IfOk, IfErr};
ghost use Rattle.hive_load.specs.Limits.{BinsEncodeTreeInLimits, BinsEncodeShallowTree, BinsRefused, ShallowBinsRefused};

use crate::tree::{judge_weight, load_any_weight};
use hive_cells::{Image, Looks};
use refusals::Refusal;
use reg_tree::Tree;
use std::alloc::Global;

/// The registry tree that hive bins data encode, from the key node at an offset on, whatever it weighs, and the image of
/// the data. The answer is what [`Image::open`] and [`load_any_weight`] answer one after the other.
///
/// Refused as they are: with `HiveDamaged` of hive 0 and a cause that is true of the data, with `Unsupported`, with
/// `TooLarge` for a path over the limit, and with `NoMemory`.
pub fn load_bins_any_weight(
    alloc: Global,
    bins: Vec<u8>,
    root: u32,
    minor: u32,
) -> Result<(Tree, Image), Refusal>
    ensures same { IfOk result (λ loaded. loaded.1.bytes ≡ bins.items) }
    ensures stands { IfOk result (λ loaded. BinsEncodeShallowTree bins.items root minor loaded.0) }
    ensures refused { IfErr result (ShallowBinsRefused bins.items root minor) }
{
    let image = match Image::open(alloc, bins) {
        Ok(image) => image,
        Err(unopened) => return Err(unopened.refusal),
    };
    let mut looks = Looks::new();
    match load_any_weight(alloc, &image, root, minor, &mut looks) {
        Ok(tree) => Ok((tree, image)),
        Err(why) => Err(why),
    }
}

/// The registry tree that hive bins data encode, and their image, as [`load_bins_any_weight`] loads them, if the tree
/// weighs at most 16,777,216.
///
/// Refused as there, and with `TooLarge` if the data encode a tree that weighs more.
pub fn load_bins(
    alloc: Global,
    bins: Vec<u8>,
    root: u32,
    minor: u32,
) -> Result<(Tree, Image), Refusal>
    ensures same { IfOk result (λ loaded. loaded.1.bytes ≡ bins.items) }
    ensures stands { IfOk result (λ loaded. BinsEncodeTreeInLimits bins.items root minor loaded.0) }
    ensures refused { IfErr result (BinsRefused bins.items root minor) }
{
    let (tree, image) = match load_bins_any_weight(alloc, bins, root, minor) {
        Ok(loaded) => loaded,
        Err(why) => return Err(why),
    };
    match judge_weight(&tree) {
        Ok(()) => Ok((tree, image)),
        Err(why) => Err(why),
    }
}
