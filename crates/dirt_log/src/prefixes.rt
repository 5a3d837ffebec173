//! Which bytes of a log and of a primary file are needed, so that both are read in chunks.

ghost use Rattle.std.specs.Prelude.{◌≡◌, ◌≤◌, ◌*◌, ◌%◌, ◌↔◌, List, ℕ, take, length};
ghost use Rattle.dirt_log.specs.LogEncoding.{bitmap_end};
ghost use Rattle.dirt_log.specs.WholeLog.{LogIsWhole, HasBitmap, IsCovered, block_of, pages_in, page_bytes_in, log_end, repaired};
ghost use Rattle.dirty_vector.specs.Pages.{Pages, dirty_count};

/// A law: a log is read by its front, whatever follows. Its block depends on the first 512 bytes
/// alone, and its marks on the bytes up to the end of the bitmap. Whether it is whole and what it
/// logs depends on the bytes up to the end of the last page that it marks.
pub fn log_prefix_decides()
    ensures block { (log : List ℕ) (n : ℕ) → 512 ≤ n → block_of (take n log) ≡ block_of log }
    ensures marked { (log : List ℕ) (n : ℕ) → bitmap_end (block_of log).bins_size ≤ n →
        pages_in (take n log) ≡ pages_in log }
    ensures bitmap { (log : List ℕ) (n : ℕ) → bitmap_end (block_of log).bins_size ≤ n →
        HasBitmap (take n log) (block_of log).bins_size ↔ HasBitmap log (block_of log).bins_size }
    ensures whole { (log : List ℕ) (n : ℕ) → log_end log ≤ n → LogIsWhole (take n log) ↔ LogIsWhole log }
    ensures pages { (log : List ℕ) (n : ℕ) → log_end log ≤ n →
        page_bytes_in (take n log) ≡ page_bytes_in log }
{}

/// A law of the repair of bins data. It takes as many bytes of the primary file as the repaired
/// data have, and the bytes of the marked pages, whatever follows either.
pub fn repair_prefix_decides()
    ensures covered { (primary : List ℕ) (v : Pages) (n : ℕ) → v.bins_size ≤ n →
        IsCovered (length (take n primary)) v ↔ IsCovered (length primary) v }
    ensures primary { (primary pages : List ℕ) (v : Pages) (n : ℕ) → v.bins_size ≤ n →
        repaired (take n primary) v pages ≡ repaired primary v pages }
    ensures pages { (primary pages : List ℕ) (v : Pages) (n : ℕ) → v.bins_size % 512 ≡ 0 →
        512 * dirty_count v ≤ n → repaired primary v (take n pages) ≡ repaired primary v pages }
{}
