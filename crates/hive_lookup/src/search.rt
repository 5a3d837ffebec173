//! The search for a name among what a key lists.
ghost use Rattle.std.specs.Prelude.{◌≡◌, MatchResult};
ghost use Rattle.reg_names.specs.Names.{folded};
ghost use Rattle.hive_cells.specs.Bins.{Cells, Shows};
ghost use Rattle.hive_lookup.specs.Records.{AreRecords, offsets_named};
ghost use Rattle.hive_lookup.specs.declared.list_kind.ListKind.TheVariants.{Subkeys};
ghost use Rattle.hive_lookup.specs.Lookups.{ErrorTells, IsSpelled, ListBreaks, ListsNone, ListsOne, SearchBreaks, one_or_none};

use crate::errors::{LookupError, refused_at};
use crate::list_kind::ListKind;
use crate::lists::offsets_of;
use crate::records::{has_name, record_name};
use hive_cells::Image;
use refusals::{Cause, Refusal};
use reg_names::Name;
use std::alloc::Global;

// of the records that a key lists, all of which are read, the one of a name
fn one_named(
    alloc: Global,
    image: &Image,
    kind: ListKind,
    key: u32,
    listed: &[u32],
    name: &Name,
) -> Result<Option<u32>, LookupError>
    ensures { (cells : Cells) → Shows image.now.bytes cells → MatchResult result
        (λ found. AreRecords kind cells listed.now
        × (offsets_named kind cells (folded name.now) listed.now ≡ one_or_none found))
        (ErrorTells ⊥ (ListBreaks kind cells key (folded name.now) listed.now)) }
{
    let mut found = None;
    for at in listed {
        let same = match has_name(alloc, image, kind, *at, name) {
            Ok(same) => same,
            Err(refusal) => return Err(refused_at(refusal, *at)),
        };
        if same {
            if found.is_some() {
                return Err(refused_at(Refusal::from(Cause::BadName), key));
            }
            found = Some(*at);
        }
    }
    Ok(found)
}

/// The offset of the record of a name among those that the key at an offset lists. Each of them is read, but no more of
/// it than its name.
///
/// `NotFound` comes only if each was read and none has the name. `Damaged` comes if the key's node, its list or one of
/// the records isn't read, or, with `BadName`, if two have the name.
pub fn find_listed(
    alloc: Global,
    image: &Image,
    kind: ListKind,
    key: u32,
    name: &Name,
) -> Result<u32, LookupError>
    ensures { (cells : Cells) → Shows image.now.bytes cells → MatchResult result
        (λ at. ListsOne kind cells key (folded name.now) at)
        (ErrorTells (ListsNone kind cells key (folded name.now)) (SearchBreaks kind cells key (folded name.now))) }
{
    let listed = match offsets_of(alloc, image, kind, key) {
        Ok(listed) => listed,
        Err(refusal) => return Err(refused_at(refusal, key)),
    };
    match one_named(alloc, image, kind, key, &listed, name) {
        Ok(Some(at)) => Ok(at),
        Ok(None) => Err(LookupError::NotFound),
        Err(error) => Err(error),
    }
}

/// The offset of the subkey of a name of the key at an offset, and the name as the subkey spells it.
///
/// Refused as [`find_listed`] is.
pub fn find_subkey(
    alloc: Global,
    image: &Image,
    key: u32,
    name: &Name,
) -> Result<(u32, Name), LookupError>
    ensures { (cells : Cells) → Shows image.now.bytes cells → MatchResult result
        (λ found. ListsOne Subkeys cells key (folded name.now) found.0 × IsSpelled cells found.0 found.1)
        (ErrorTells (ListsNone Subkeys cells key (folded name.now)) (SearchBreaks Subkeys cells key (folded name.now))) }
{
    let at = match find_listed(alloc, image, ListKind::Subkeys, key, name) {
        Ok(at) => at,
        Err(error) => return Err(error),
    };
    match record_name(alloc, image, ListKind::Subkeys, at) {
        Ok(spelled) => Ok((at, spelled)),
        Err(refusal) => Err(refused_at(refusal, at)),
    }
}
