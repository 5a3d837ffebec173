//! How many steps a flush and a repair take.
ghost use Rattle.std.specs.Prelude.{◌≡◌, ◌≤◌, ℕ, ◌+◌, ◌*◌, List, length};
ghost use Rattle.dirty_vector.specs.Pages.{Pages, dirty_count};
ghost use Rattle.dirt_log.specs.LogEncoding.{bytes_behind};
ghost use Rattle.hive_writer.specs.WriterSteps.{calls_left};
ghost use Rattle.hive_writer.specs.declared.stage.Purpose.TheVariants as purpose;
ghost use Rattle.hive_writer.specs.declared.stage.FlushStage.TheVariants as stage;
ghost use Rattle.refusals.specs.declared.limits.TheConstants.{MOST_BINS_BYTES};

/// A law: if none is refused, a flush of `p` dirty pages is done within `2 * p + 7` of its steps, and one of none within
/// 4. A repair of `p` marked pages is done within `p + 3`. Each step that is not the last leaves fewer calls. At the
/// beginning as many calls as these are left, the log being the encoding after a first sector.
pub fn step_bounds()
    ensures flush { (image sector : List ℕ) (pages : Pages) → length image ≡ pages.bins_size →
        length sector ≡ 512 → pages.bins_size ≤ MOST_BINS_BYTES →
        calls_left (length (bytes_behind image pages sector)) pages stage.AtRest
        ≤ 2 * dirty_count pages + 7 }
    ensures unchanged { (image sector : List ℕ) (pages : Pages) → length image ≡ pages.bins_size →
        length sector ≡ 512 → pages.bins_size ≤ MOST_BINS_BYTES → dirty_count pages ≡ 0 →
        calls_left (length (bytes_behind image pages sector)) pages stage.AtRest ≤ 4 }
    ensures repair { (total : ℕ) (pages : Pages) →
        calls_left total pages (stage.WritingPages purpose.Repair 0) ≤ dirty_count pages + 3 }
{}
