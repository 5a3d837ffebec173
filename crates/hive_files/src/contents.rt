//! What is found in a hive's two files.
ghost use Rattle.std.specs.Prelude.{◌≡◌, false, length};
ghost use Rattle.base_block.specs.declared.block.TheConstants.{MINOR_VERSION};
ghost use Rattle.hive_files.specs.Blocks.{IsBlockFor};

use base_block::BaseBlock;
use dirty_vector::DirtyVector;

/// What two files hold, but for the tree.
#[derive(Drop)]
pub struct HiveContents {
    /// The base block that is in use, as the block of a primary file.
    pub block: BaseBlock,
    /// The hive bins data that are in use.
    pub bins: Vec<u8>,
    /// The pages that a repair has to write: none of a clean primary file.
    pub pages: DirtyVector,
    /// Whether the primary file is clean.
    pub is_clean: bool,
    pub ghost sizes: { length bins.items ≡ pages.bins_size },
    pub ghost used: { IsBlockFor block pages },
    // what a log repairs is of the version that is written
    pub ghost repaired: { is_clean ≡ false → block.minor ≡ MINOR_VERSION },
}
