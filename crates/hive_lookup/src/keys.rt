//! A key with all that is its own.
ghost use Rattle.std.specs.Prelude.{◌≡◌, MatchResult};
ghost use Rattle.hive_cells.specs.Bins.{Cells, Shows};
ghost use Rattle.hive_records.specs.Images.{splits};
ghost use Rattle.hive_lookup.specs.Lookups.{ErrorTells};
ghost use Rattle.hive_lookup.specs.Listings.{KeyBreaks, KeySays};

use crate::errors::{LookupError, refused_at};
use crate::lists::no_marks;
use hive_cells::{Image, Looks};
use hive_load_parts::{Descriptors, key};
use hive_records::has_segments;
use reg_tree_parts::Key;
use std::alloc::Global;

/// The key at an offset with all its values, of an image of a minor version. Its subkeys are listed, and not read.
///
/// `Damaged` comes if its node, class, descriptor, list of values, one of the values or its list of subkeys isn't read, if
/// two values have one name (`BadName`), and if one cell is read twice (`Shared`).
pub fn read_key(alloc: Global, image: &Image, minor: u32, at: u32) -> Result<Key, LookupError>
    ensures { (cells : Cells) → Shows image.now.bytes cells → MatchResult result
        (λ its. KeySays (splits minor) cells at its) (ErrorTells ⊥ (KeyBreaks (splits minor) cells at)) }
{
    let mut seen = no_marks(alloc, image)?;
    let mut looks = Looks::new();
    let mut known = Descriptors::new(alloc);
    let split = has_segments(minor);
    match key(alloc, image, &mut seen, &mut looks, &mut known, split, at) {
        Ok((its, _)) => Ok(its),
        Err(refusal) => Err(refused_at(refusal, at)),
    }
}
