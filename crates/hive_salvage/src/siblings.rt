//! Subkeys of one key, in the order of their names.
ghost use Rattle.std.specs.Prelude.{◌≡◌, ◌≢◌, ◌⊎◌, ◌≤◌, ◌<◌, ◌*◌, [], true, false, length, MatchResult};
ghost use Rattle.std.specs.Ordering.{eq_by_cmp};
ghost use Rattle.reg_names.specs.Names.{name_cmp};
ghost use Rattle.std.specs.List.Sorted.{IsPermutation};
ghost use Rattle.refusals.specs.declared.refusal.Refusal.TheVariants.{NoMemory};
ghost use Rattle.hive_cells.specs.Bins.{Cells, Shows};
ghost use Rattle.hive_load_parts.specs.CellReads.{marks_of};
ghost use Rattle.hive_salvage.specs.Readings.{NodeIs, NodeFails};
ghost use Rattle.hive_salvage.specs.Salvage.{is_repeated};

use crate::loss::Part;
use hive_cells::{Image, Looks};
use hive_load_parts::{Flags, look_once};
use hive_lookup::{ListKind, record_name};
use refusals::{Cause, Refusal};
use reg_names::Name;
use std::alloc::Global;
use std::cmp::Ordering;

/// A subkey among those of one key.
#[derive(Drop)]
pub(crate) struct Sibling {
    /// Its name.
    pub(crate) name: Name,
    /// Its offset.
    pub(crate) at: u32,
    /// The place of its list in a list of lists, or 0 if there is none.
    pub(crate) leaf: u32,
    /// Its place in that list.
    pub(crate) place: u32,
}

// whether a name is empty
fn is_nameless(name: &Name) -> bool
    ensures yes { result ≡ true → name.now ≡ [] }
    ensures no { result ≡ false → name.now ≢ [] }
{
    name.units().is_empty()
}

// whether two names are the same in any case of their letters
fn are_alike(one: &Name, other: &Name) -> bool
    ensures { result ≡ eq_by_cmp name_cmp one.now other.now }
{
    one == other
}

/// The name of the key at an offset, whose cell is taken. Refused if its node isn't read, has no name or is taken. The node is
/// looked at first, so that what is no node isn't taken.
pub(crate) fn take_node(
    alloc: Global,
    image: &Image,
    seen: &mut Flags,
    at: u32,
) -> Result<Name, Refusal>
    requires covers { length image.now.bytes ≤ 8 * length seen.old }
    ensures covers { length seen.new ≡ length seen.old }
    ensures taken { (cells : Cells) → Shows image.now.bytes cells → MatchResult result
        (λ name. NodeIs cells at (marks_of seen.old) (marks_of seen.new) name)
        (λ why. (why ≡ NoMemory) ⊎ NodeFails cells at (marks_of seen.old) why) }
{
    let name = match record_name(alloc, image, ListKind::Subkeys, at) {
        Ok(name) => name,
        Err(why) => return Err(why),
    };
    if is_nameless(&name) {
        return Err(Refusal::from(Cause::BadName));
    }
    let mut looks = Looks::new();
    match look_once(image, seen, &mut looks, at) {
        Ok(_) => Ok(name),
        Err(why) => Err(why),
    }
}

impl Sibling {
    /// What it is of the key that lists it.
    pub(crate) fn part(&self) -> Part
        ensures { result ≡ Part.Subkey self.now.leaf self.now.place }
    {
        Part::Subkey {
            leaf: self.leaf,
            place: self.place,
        }
    }
}

// how two siblings compare: by their names, and then by where they are listed
fn by_name(one: &Sibling, other: &Sibling) -> Ordering {
    one.name
        .cmp(&other.name)
        .then(one.leaf.cmp(&other.leaf))
        .then(one.place.cmp(&other.place))
}

/// Siblings in the order of their names.
pub(crate) fn in_order(mut siblings: Vec<Sibling>) -> Vec<Sibling>
    ensures same { IsPermutation siblings.items result.items }
{
    siblings.sort_unstable_by(|one, other| by_name(one, other));
    siblings
}

/// Whether the sibling at a place has the name of the one before it.
pub(crate) fn is_repeated(siblings: &[Sibling], place: usize) -> bool
    requires { place < length siblings.now }
    ensures { result ≡ is_repeated siblings.now place }
{
    if place == 0 {
        return false;
    }
    are_alike(&siblings[place - 1].name, &siblings[place].name)
}
