//! What a primary file and its log hold together.

ghost use Rattle.std.specs.Prelude.{◌≡◌, ◌%◌, List, ℕ, true, length};
ghost use Rattle.base_block.specs.declared.block.BaseBlock.{BaseBlock};
ghost use Rattle.dirt_log.specs.FileContents.{is_clean_file, FilesDecodeTo, PrimaryDecodesTo, SameWhereClean};
ghost use Rattle.dirt_log.specs.LogEncoding.{pages_from};
ghost use Rattle.dirt_log.specs.WholeLog.{repaired};
ghost use Rattle.dirty_vector.specs.Pages.{Pages};

/// A law: beside a clean primary file any log, a whole one too, is left unread. What is in use is the
/// primary file's own, whatever the log.
pub fn clean_primary_decides()
    ensures own { (primary log : List ℕ) (block : BaseBlock) (bins : List ℕ) →
        is_clean_file primary ≡ true → FilesDecodeTo primary log block bins → PrimaryDecodesTo primary block bins }
    ensures any { (primary log other : List ℕ) (block : BaseBlock) (bins : List ℕ) →
        is_clean_file primary ≡ true → FilesDecodeTo primary log block bins →
        FilesDecodeTo primary other block bins }
{}

/// A law of bins data that have the bytes of an image in each page that isn't dirty. The log of the
/// image and its dirty pages repairs them to that image.
pub fn log_repairs()
    ensures { (image primary : List ℕ) (v : Pages) → length image ≡ v.bins_size →
        v.bins_size % 512 ≡ 0 → SameWhereClean image primary v →
        repaired primary v (pages_from image v 0) ≡ image }
{}
