//! A hive's files before they are made.
ghost use Rattle.std.specs.Prelude.{◌≡◌, ◌≤◌, true, length};
ghost use Rattle.base_block.specs.declared.block.TheConstants.{MINOR_VERSION, OLDEST_MINOR_VERSION};
ghost use Rattle.dirty_vector.specs.Pages.{is_bins_size};

use uuid::Uuid;

/// The files of a hive of a store that are to be made of a tree, or of a hive's file, in memory.
#[derive(Drop)]
pub struct HiveImage {
    pub(crate) store: Uuid,
    pub(crate) root: u32,
    pub(crate) minor: u32,
    // the number up to which changes are applied
    pub(crate) number: u64,
    pub(crate) bins: Vec<u8>,
    ghost size: { is_bins_size (length bins.items) ≡ true },
    ghost oldest: { OLDEST_MINOR_VERSION ≤ minor },
    ghost newest: { minor ≤ MINOR_VERSION },
}
