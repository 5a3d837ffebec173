//! What a hive in memory has.
ghost use Rattle.std.specs.Prelude.{◌≡◌, ◌≤◌, length};
ghost use Rattle.refusals.specs.declared.limits.TheConstants.{MOST_WEIGHT};
ghost use Rattle.reg_tree.specs.Maps.{weight};
ghost use Rattle.hive_files.specs.Blocks.{IsPlanned};
ghost use Rattle.hive_load.specs.Limits.{BinsEncodeTreeInLimits};
ghost use Rattle.hive_flush.specs.NextBlocks.{IsSteady};

use dirty_vector::DirtyVector;
use hive_savepoint::SavepointImage;
use hive_writer::HiveWriter;
use reg_tree::Tree;
use std::snapshot::Snapshot;

/// A hive of a store: its tree in memory and the image that encodes it. Also the pages in which the primary file may
/// differ from the image. Between calls the image's savepoint is what the image has.
#[derive(Drop)]
pub struct HiveFile {
    /// What is surely durable in the files: known to contracts alone.
    pub(crate) held: Snapshot<Tree>,
    pub(crate) tree: Tree,
    pub(crate) image: SavepointImage,
    pub(crate) pages: DirtyVector,
    pub(crate) writer: HiveWriter,
    ghost sizes: { length image.bytes ≡ pages.bins_size },
    ghost savepoint: { image.saved ≡ image.bytes },
    ghost planned: { IsPlanned writer.block pages },
    ghost steady: { IsSteady writer held.value tree },
    ghost ahead: { writer.base.applied.0 ≤ writer.block.applied.0 },
    ghost encodes: { ∥ BinsEncodeTreeInLimits image.bytes writer.block.root writer.block.minor tree ∥₁ },
    ghost light: { weight tree ≤ MOST_WEIGHT },
}
