//! The names of a key's subkeys, in their order.
ghost use Rattle.std.specs.Prelude.{◌≡◌, true, false, length, MatchOption, MatchResult};
ghost use Rattle.std.specs.List.{IsDistinct};
ghost use Rattle.std.specs.List.Sorted.{IsPermutation, IsSorted};
ghost use Rattle.std.specs.Ordering.{eq_by_cmp};
ghost use Rattle.reg_names.specs.Names.{name_cmp};
ghost use Rattle.hive_cells.specs.Bins.{Cells, Shows};
ghost use Rattle.hive_lookup.specs.declared.list_kind.ListKind.TheVariants.{Subkeys};
ghost use Rattle.hive_lookup.specs.Records.{AreRecords};
ghost use Rattle.hive_lookup.specs.Lookups.{ErrorTells};
ghost use Rattle.hive_lookup.specs.Listings.{IsUnreadIn, ListsNames, NamesBreak, names_listed};

use crate::errors::{LookupError, refused_at};
use crate::list_kind::ListKind;
use crate::lists::offsets_of;
use crate::records::record_name;
use hive_cells::Image;
use refusals::{Cause, Refusal};
use reg_names::Name;
use std::alloc::Global;

// the names of the keys at some offsets
fn listed_names(alloc: Global, image: &Image, listed: &[u32]) -> Result<Vec<Name>, LookupError>
    ensures { (cells : Cells) → Shows image.now.bytes cells → MatchResult result
        (λ names. AreRecords Subkeys cells listed.now × (names.items ≡ names_listed cells listed.now))
        (ErrorTells ⊥ (IsUnreadIn cells listed.now)) }
{
    let mut names = Vec::new(alloc);
    for at in listed {
        let name = match record_name(alloc, image, ListKind::Subkeys, *at) {
            Ok(name) => name,
            Err(refusal) => return Err(refused_at(refusal, *at)),
        };
        names.push(name)?;
    }
    Ok(names)
}

// whether two names are the same in any case of their letters
fn are_alike(one: &Name, other: &Name) -> bool
    ensures { result ≡ eq_by_cmp name_cmp one.now other.now }
{
    one == other
}

// whether names in order are all different
fn are_distinct(names: &[Name]) -> bool
    requires { IsSorted name_cmp names.now }
    ensures yes { result ≡ true → IsDistinct (eq_by_cmp name_cmp) names.now }
    ensures no { result ≡ false → ¬ IsDistinct (eq_by_cmp name_cmp) names.now }
{
    for index in 1..names.len() {
        let alike = are_alike(&names[index - 1], &names[index]);
        if alike {
            return false;
        }
    }
    true
}

// brings names into their order; whether they are all different
fn sort(names: &mut [Name]) -> bool
    ensures len { length names.new ≡ length names.old }
    ensures same { IsPermutation names.old names.new }
    ensures sorted { IsSorted name_cmp names.new }
    ensures yes { result ≡ true → IsDistinct (eq_by_cmp name_cmp) names.old }
    ensures no { result ≡ false → ¬ IsDistinct (eq_by_cmp name_cmp) names.old }
{
    names.sort_unstable();
    are_distinct(names)
}

// names in their order, if they are all different
fn in_order(mut names: Vec<Name>) -> Option<Vec<Name>>
    ensures { MatchOption result (¬ IsDistinct (eq_by_cmp name_cmp) names.items)
        (λ sorted. IsDistinct (eq_by_cmp name_cmp) names.items × IsPermutation names.items sorted.items
        × IsSorted name_cmp sorted.items) }
{
    if sort(&mut names) { Some(names) } else { None }
}

/// The names of the subkeys of the key at an offset, in their order.
///
/// `Damaged` comes if the key's node, its list or the node of a subkey isn't read, or, with `BadName`, if two subkeys have
/// one name.
pub fn subkey_names(alloc: Global, image: &Image, key: u32) -> Result<Vec<Name>, LookupError>
    ensures { (cells : Cells) → Shows image.now.bytes cells → MatchResult result
        (λ names. ListsNames cells key names.items) (ErrorTells ⊥ (NamesBreak cells key)) }
{
    let listed = match offsets_of(alloc, image, ListKind::Subkeys, key) {
        Ok(listed) => listed,
        Err(refusal) => return Err(refused_at(refusal, key)),
    };
    let names = match listed_names(alloc, image, &listed) {
        Ok(names) => names,
        Err(error) => return Err(error),
    };
    match in_order(names) {
        Some(names) => Ok(names),
        None => Err(refused_at(Refusal::from(Cause::BadName), key)),
    }
}
