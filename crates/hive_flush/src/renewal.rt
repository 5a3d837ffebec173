//! The image of a hive in the minor version that is written.
ghost use Rattle.std.specs.Prelude.{◌≡◌, length, IfErr, IfOk};
ghost use Rattle.hive_flush.specs.Renewals.{IsInWrittenVersion};
ghost use Rattle.hive_load.specs.Limits.{BinsEncodeTreeInLimits};
ghost use Rattle.refusals.specs.declared.refusal.Refusal.TheVariants.{NoMemory};

use crate::application::encoded_tree;
use base_block::{BaseBlock, MINOR_VERSION};
use dirty_vector::{DirtyVector, mark_changes};
use hive_cells::Image;
use hive_emit::Emitted;
use refusals::Refusal;
use reg_tree::Tree;
use std::alloc::Global;

/// The image that encodes a tree in the minor version that is written, where an image encodes it under a block. It is
/// the same image if the block is of that version. Otherwise it is made anew, no shorter, and the pages in which it
/// differs are marked.
///
/// Refused with `NoMemory`. Then no page is marked.
pub(crate) fn in_written_version(
    alloc: Global,
    tree: &Tree,
    block: &BaseBlock,
    image: Image,
    pages: &mut DirtyVector,
) -> Result<Emitted, Refusal>
    requires size { length image.bytes ≡ pages.old.bins_size }
    requires stands { BinsEncodeTreeInLimits image.bytes block.now.root block.now.minor tree.now }
    ensures made { IfOk result (λ made. IsInWrittenVersion block.now image.bytes pages.old tree.now
        made.image.bytes made.root pages.new) }
    ensures refused { IfErr result (λ why. (why ≡ NoMemory) × (pages.new ≡ pages.old)) }
{
    let _ = pages.bins_size(); // for the prover
    if block.minor == MINOR_VERSION {
        return Ok(Emitted {
            image,
            root: block.root,
        });
    }
    let mut image = image;
    let mut made = encoded_tree(alloc, tree, image.len())?;
    mark_changes(pages, image.bytes(), made.image.bytes());
    Ok(made)
}
