//! What a flush writes.
ghost use Rattle.std.specs.Prelude.{◌≡◌, ◌<◌, ◌≤◌, ◌^◌, ◌+◌, ◌*◌, ℕ, List, length, drop, true, Some};
ghost use Rattle.reg_tree.specs.Maps.{TreeMap};
ghost use Rattle.base_block.specs.Layout.{block_at, sector_of};
ghost use Rattle.hive_flush_model.specs.StoredTrees.{TreeDecoder, tree_under};
ghost use Rattle.hive_flush_model.specs.Plans.{IsBehind, PlanFitsImage};
ghost use Rattle.dirt_log.specs.WholeLog.{IsCovered, LogIsWhole, block_of, page_bytes_in, pages_in, repaired};
ghost use Rattle.hive_files.specs.Contents.{as_primary};
ghost use Rattle.dirty_vector.specs.Pages.{dirty_count};
ghost use Rattle.hive_writer.specs.WriterSteps.{calls_left, plan_of};
ghost use Rattle.hive_writer.specs.declared.stage.FlushStage.TheVariants as stage;
ghost use Rattle.hive_files.specs.Blocks.{IsPlanned};
ghost use Rattle.hive_flush.specs.NextBlocks.{block_after, block_for, repair_plan};

use base_block::{AppliedNumber, BaseBlock, FileType, MINOR_VERSION, SequenceNumber};
use dirt_log::write_steps;
use dirty_vector::DirtyVector;
use hive_files::sector;
use hive_writer::HiveWriter;
use reg_tree::Tree;

/// The block with which a flush ends that follows a flush that ended with this block. It is of the minor version that is
/// written, for a root and bins data of a size, and has the moment and the number of the last change in them.
pub(crate) fn next_block(
    base: &BaseBlock,
    root: u32,
    bins_size: u32,
    time: u64,
    applied: u64,
) -> BaseBlock
    ensures { result ≡ block_after base.now root bins_size time applied }
{
    let number = base.secondary.next();
    BaseBlock {
        primary: number,
        secondary: number,
        last_written: time,
        minor: MINOR_VERSION,
        root,
        bins_size,
        applied: AppliedNumber(applied),
        ..*base
    }
}

/// Plans the block for an image of a size with a root, and the moment and number of the last change in it.
pub(crate) fn plan_for(writer: &mut HiveWriter, root: u32, bins_size: u32, time: u64, number: u64)
    requires { writer.old.stage ≡ stage.AtRest }
    ensures { writer.new ≡ record writer.old {
      block = block_for writer.old.block root bins_size time number;
    } }
{
    let block = BaseBlock {
        last_written: time,
        root,
        bins_size,
        applied: AppliedNumber(number),
        ..writer.block
    };
    writer.plan(block);
}

/// A law: what a writer is to write of an image fits the image, if its block is planned for the image's pages.
pub(crate) fn plan_fits(writer: &HiveWriter, image: &[u8], pages: &DirtyVector)
    requires size { length image.now ≡ pages.now.bins_size }
    requires planned { IsPlanned writer.now.block pages.now }
    ensures short { length (plan_of writer.now image.now pages.now).encoding < 2 ^ 32 }
    ensures few { calls_left (length (plan_of writer.now image.now pages.now).encoding) pages.now
        stage.AtRest ≤ 2 * dirty_count pages.now + 7 }
    ensures ready { (stands : TreeDecoder TreeMap) (memory : TreeMap × ℕ) →
        tree_under stands writer.now.block image.now ≡ Some memory.0 →
        writer.now.block.applied.0 ≡ memory.1 →
        PlanFitsImage stands memory image.now pages.now (plan_of writer.now image.now pages.now) }
{
    hive_flush_model::laws::plans::<Tree>();
    hive_writer::laws::step_bounds();
    let number = bounded(writer.base.secondary);
    let raised = BaseBlock {
        primary: number.next(),
        ..writer.base
    };
    let _ = sector(&raised); // for the prover
    let _ = sector(&writer.block); // for the prover
    let log = BaseBlock {
        file_type: FileType::LOG,
        ..writer.block
    };
    let _ = sector(&log); // for the prover
    let _ = write_steps(image, pages, &writer.block); // for the prover
}

/// A law: what a repair by a whole log writes fits the bins data that it repairs, and the primary file is behind them.
pub(crate) fn repair_fits(block: &BaseBlock)
    ensures { (stands : TreeDecoder TreeMap) (memory : TreeMap × ℕ) (primary log : List ℕ) →
        block.now ≡ as_primary (block_of log) → LogIsWhole log →
        IsCovered (length (drop 4096 primary)) (pages_in log) →
        tree_under stands (block_of log)
        (repaired (drop 4096 primary) (pages_in log) (page_bytes_in log)) ≡ Some memory.0 →
        (block_of log).applied.0 ≡ memory.1 →
        PlanFitsImage stands memory (repaired (drop 4096 primary) (pages_in log) (page_bytes_in log))
        (pages_in log) (repair_plan block.now log)
        × IsBehind (repaired (drop 4096 primary) (pages_in log) (page_bytes_in log))
        (pages_in log) primary }
{
    hive_flush_model::laws::plans::<Tree>();
    let number = bounded(block.secondary);
    let raised = BaseBlock {
        primary: number.next(),
        ..*block
    };
    let _ = sector(&raised); // for the prover
    let _ = sector(block); // for the prover
}

// a law: a sequence number has 32 bits
fn bounded(number: SequenceNumber) -> SequenceNumber
    ensures same { result ≡ number }
    ensures fits { number.0 < 2 ^ 32 }
{
    number
}
