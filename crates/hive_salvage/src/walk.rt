//! The walk over what is left of an image.
ghost use Rattle.std.specs.Prelude.{◌≡◌, ◌<◌, ◌≤◌, ◌*◌, ◌++◌, ◌≢◌, ◌⊎◌, List, [], false, ℕ, Ok, Err, length, IfOk, OnOk, MatchResult};
ghost use Rattle.refusals.specs.declared.refusal.Refusal.TheVariants.{NoMemory};
ghost use Rattle.refusals.specs.declared.limits.TheConstants.{MOST_PATH_NAMES};
ghost use Rattle.hive_cells.specs.Bins.{Cells, Shows};
ghost use Rattle.hive_tree_model.specs.Loads.{CellMarks};
ghost use Rattle.hive_load_parts.specs.CellReads.{marks_of};
ghost use Rattle.hive_load_parts.specs.Descriptors.{AreDescriptors};
ghost use Rattle.hive_lookup.specs.declared.list_kind.ListKind.TheVariants.{Subkeys};
ghost use Rattle.hive_lookup.specs.Records.{record_at};
ghost use Rattle.hive_records.specs.Heads.{IsKeyNode};
ghost use Rattle.hive_records.specs.Follows.{Follows};
ghost use Rattle.hive_records.specs.Readers.{look};
ghost use Rattle.hive_records.specs.Images.{splits};
ghost use Rattle.key_walk.specs.KeyPaths.{names_on};
ghost use Rattle.hive_salvage.specs.Events.{Event, Steps, Tells};
ghost use Rattle.hive_salvage.specs.Salvage.{DeeperThan, EndIs, InTurn, KeyIs, OwnIs, RowIs, SalvageIs, TakenKey};

use crate::errors::{SalvageError, StepError, ended};
use crate::loss::Part;
use crate::own_parts::{kept_class, kept_descriptor};
use crate::siblings::{Sibling, in_order, is_repeated};
use crate::sink::{SalvageSink, tell};
use crate::subkeys::kept_subkeys;
use crate::value_list::kept_values;
use hive_cells::{Image, Looks};
use hive_load_parts::{Descriptors, Flags, look_once, name_of};
use hive_lookup::{key_node, no_marks};
use hive_records::{KeyNode, has_segments};
use key_walk::KeyPath;
use refusals::limits::MOST_PATH_NAMES;
use refusals::{Cause, Refusal};
use reg_tree_parts::Key;
use std::alloc::Global;

// the key of a node, with what is read of it; what isn't is told
fn own_key<S: SalvageSink>(
    alloc: Global,
    image: &Image,
    seen: &mut Flags,
    known: &mut Descriptors,
    split: bool,
    sink: &mut S,
    path: &KeyPath<'_>,
    node: &KeyNode<'_>,
) -> Result<Key, StepError<S::Error>>
    requires covers { length image.now.bytes ≤ 8 * length seen.old }
    requires known { AreDescriptors image.now.bytes known.old }
    ensures covers { length seen.new ≡ length seen.old }
    ensures known { AreDescriptors image.now.bytes known.new }
    ensures kept { IfOk result (λ key. Tells S.Took sink.old sink.new image.now.bytes (λ cells told.
        OwnIs split cells (names_on path.now) node.now (marks_of seen.old) (marks_of seen.new) key told)) }
{
    let class = match kept_class(alloc, image, seen, sink, path, node.class_len, node.class) {
        Ok(class) => class,
        Err(error) => return Err(error),
    };
    let descriptor = match kept_descriptor(alloc, image, known, sink, path, node.security) {
        Ok(descriptor) => descriptor,
        Err(error) => return Err(error),
    };
    let values = match kept_values(
        alloc,
        image,
        seen,
        split,
        sink,
        path,
        node.value_count,
        node.values,
    ) {
        Ok(values) => values,
        Err(error) => return Err(error),
    };
    let name = name_of(alloc, &node.name)?;
    let key = Key::new(
        alloc, name, class, node.flags, descriptor, node.time, values,
    )?;
    Ok(key)
}

// hands a sink the key of a node, with what is read of it; what isn't is told
#[inline(never)] // so that each level takes little stack
fn take_row<S: SalvageSink>(
    alloc: Global,
    image: &Image,
    seen: &mut Flags,
    known: &mut Descriptors,
    split: bool,
    sink: &mut S,
    path: &KeyPath<'_>,
    node: &KeyNode<'_>,
) -> Result<(), StepError<S::Error>>
    requires covers { length image.now.bytes ≤ 8 * length seen.old }
    requires known { AreDescriptors image.now.bytes known.old }
    ensures covers { length seen.new ≡ length seen.old }
    ensures known { AreDescriptors image.now.bytes known.new }
    ensures kept { OnOk result (Tells S.Took sink.old sink.new image.now.bytes (λ cells told.
        RowIs split cells (names_on path.now) node.now (marks_of seen.old) (marks_of seen.new) told)) }
{
    let key = match own_key(alloc, image, seen, known, split, sink, path, node) {
        Ok(key) => key,
        Err(error) => return Err(error),
    };
    match sink.found(path, &key) {
        Ok(()) => Ok(()),
        Err(error) => Err(StepError::Sink(error)),
    }
}

// hands a sink the key of a node, to which a path leads; its subkeys in the order of its lists
fn take_key<S: SalvageSink>(
    alloc: Global,
    image: &Image,
    seen: &mut Flags,
    known: &mut Descriptors,
    split: bool,
    sink: &mut S,
    path: &KeyPath<'_>,
    node: &KeyNode<'_>,
) -> Result<Vec<Sibling>, StepError<S::Error>>
    requires covers { length image.now.bytes ≤ 8 * length seen.old }
    requires known { AreDescriptors image.now.bytes known.old }
    ensures covers { length seen.new ≡ length seen.old }
    ensures known { AreDescriptors image.now.bytes known.new }
    ensures kept { IfOk result (λ siblings. Tells S.Took sink.old sink.new image.now.bytes (λ cells told.
        TakenKey split cells (names_on path.now) node.now (marks_of seen.old)
        (marks_of seen.new, siblings.items) told)) }
{
    match take_row(alloc, image, seen, known, split, sink, path, node) {
        Ok(()) => kept_subkeys(
            alloc,
            image,
            seen,
            sink,
            path,
            node.subkey_count,
            node.subkeys,
        ),
        Err(error) => Err(error),
    }
}

// the key of a node, to which a path leads, and all keys below it down to so many levels
#[cycle(salvaging)]
fn salvage_key<S: SalvageSink>(
    alloc: Global,
    image: &Image,
    seen: &mut Flags,
    known: &mut Descriptors,
    split: bool,
    sink: &mut S,
    path: &KeyPath<'_>,
    levels: usize,
    node: &KeyNode<'_>,
) -> Result<(), StepError<S::Error>>
    requires covers { length image.now.bytes ≤ 8 * length seen.old }
    requires known { AreDescriptors image.now.bytes known.old }
    ensures covers { length seen.new ≡ length seen.old }
    ensures known { AreDescriptors image.now.bytes known.new }
    ensures kept { OnOk result (Tells S.Took sink.old sink.new image.now.bytes (λ cells told.
        KeyIs split cells levels (names_on path.now) node.now (marks_of seen.old) (marks_of seen.new)
        told)) }
{
    let listed = match take_key(alloc, image, seen, known, split, sink, path, node) {
        Ok(listed) => listed,
        Err(error) => return Err(error),
    };
    let siblings = in_order(listed);
    salvage_keys(
        alloc, image, seen, known, split, sink, &*path, levels, &siblings,
    )
}

// the subkeys of a key, to which a path leads, one after another
#[cycle(salvaging)]
fn salvage_keys<S: SalvageSink>(
    alloc: Global,
    image: &Image,
    seen: &mut Flags,
    known: &mut Descriptors,
    split: bool,
    sink: &mut S,
    above: &KeyPath<'_>,
    levels: usize,
    siblings: &[Sibling],
) -> Result<(), StepError<S::Error>>
    requires covers { length image.now.bytes ≤ 8 * length seen.old }
    requires known { AreDescriptors image.now.bytes known.old }
    ensures covers { length seen.new ≡ length seen.old }
    ensures known { AreDescriptors image.now.bytes known.new }
    ensures kept { OnOk result (Tells S.Took sink.old sink.new image.now.bytes (λ cells told.
        Steps (InTurn cells (DeeperThan split cells levels) (names_on above.now) siblings.now)
        (length siblings.now) (marks_of seen.old) (marks_of seen.new) told)) }
{
    for place in 0..siblings.len() {
        match salvage_sibling(
            alloc, image, seen, known, split, sink, &*above, levels, siblings, place,
        ) {
            Ok(()) => {}
            Err(error) => return Err(error),
        }
    }
    Ok(())
}

// a subkey in its turn
#[cycle(salvaging)]
fn salvage_sibling<S: SalvageSink>(
    alloc: Global,
    image: &Image,
    seen: &mut Flags,
    known: &mut Descriptors,
    split: bool,
    sink: &mut S,
    above: &KeyPath<'_>,
    levels: usize,
    siblings: &[Sibling],
    place: usize,
) -> Result<(), StepError<S::Error>>
    requires covers { length image.now.bytes ≤ 8 * length seen.old }
    requires known { AreDescriptors image.now.bytes known.old }
    requires place { place < length siblings.now }
    ensures covers { length seen.new ≡ length seen.old }
    ensures known { AreDescriptors image.now.bytes known.new }
    ensures kept { OnOk result (Tells S.Took sink.old sink.new image.now.bytes (λ cells told.
        InTurn cells (DeeperThan split cells levels) (names_on above.now) siblings.now place
        (marks_of seen.old) (marks_of seen.new) told)) }
{
    let sibling = &siblings[place];
    if is_repeated(siblings, place) {
        let why = Refusal::from(Cause::BadName);
        return tell(sink, above, sibling.part(), sibling.at, why);
    }
    let node = match key_node(image, sibling.at) {
        Ok(node) => node,
        Err(why) => return tell(sink, above, sibling.part(), sibling.at, why),
    };
    if levels == 0 {
        return tell(sink, above, sibling.part(), sibling.at, Refusal::TooLarge);
    }
    let path = KeyPath::Below(&*above, &sibling.name);
    salvage_key(
        alloc,
        image,
        seen,
        known,
        split,
        sink,
        &path,
        levels - 1,
        &node,
    )
}

// tells it if a security cell whose descriptor was read is another record too
fn tell_shared<S: SalvageSink>(
    image: &Image,
    seen: &Flags,
    known: &Descriptors,
    sink: &mut S,
    root: u32,
) -> Result<(), StepError<S::Error>>
    requires known { AreDescriptors image.now.bytes known.now }
    ensures { OnOk result (Tells S.Took sink.old sink.new image.now.bytes (λ cells told.
        EndIs cells root (marks_of seen.now) told)) }
{
    if known.are_apart(seen) {
        return Ok(());
    }
    let why = Refusal::from(Cause::Shared);
    tell(sink, &KeyPath::Root, Part::Security, root, why)
}

// takes the root's cell, and gives its node
fn take_root<'a>(image: &'a Image, seen: &mut Flags, root: u32) -> Result<KeyNode<'a>, Refusal>
    requires covers { length image.now.bytes ≤ 8 * length seen.old }
    requires unset { (at : ℕ) → marks_of seen.old at ≡ false }
    ensures covers { length seen.new ≡ length seen.old }
    ensures root { (cells : Cells) → Shows image.now.bytes cells → MatchResult result
        (λ node. (bytes its_data : List ℕ) × (record_at Subkeys cells root ≡ Ok bytes) × IsKeyNode node bytes
        × Follows (look root) cells (marks_of seen.old) (marks_of seen.new) (Ok its_data))
        (λ why. (why ≡ NoMemory) ⊎ (record_at Subkeys cells root ≡ Err why)) }
{
    let node = match key_node(image, root) {
        Ok(node) => node,
        Err(why) => return Err(why),
    };
    let mut looks = Looks::new();
    match look_once(image, seen, &mut looks, root) {
        Ok(_) => Ok(node),
        Err(why) => Err(why),
    }
}

// the keys from the root on, whose node was read
fn salvage_from<S: SalvageSink>(
    alloc: Global,
    image: &Image,
    seen: &mut Flags,
    root: u32,
    minor: u32,
    node: &KeyNode<'_>,
    sink: &mut S,
) -> Result<(), StepError<S::Error>>
    requires covers { length image.now.bytes ≤ 8 * length seen.old }
    ensures kept { OnOk result (Tells S.Took sink.old sink.new image.now.bytes (λ cells told.
        (keys rest : List Event) × (new : CellMarks)
        × KeyIs (splits minor) cells MOST_PATH_NAMES [] node.now (marks_of seen.old) new keys
        × EndIs cells root new rest × (told ≡ keys ++ rest))) }
{
    let mut known = Descriptors::new(alloc);
    let split = has_segments(minor);
    let path = KeyPath::Root;
    match salvage_key(
        alloc,
        image,
        seen,
        &mut known,
        split,
        sink,
        &path,
        MOST_PATH_NAMES,
        node,
    ) {
        Ok(()) => tell_shared(image, seen, &known, sink, root),
        Err(error) => Err(error),
    }
}

// that the root isn't read, for this reason
fn no_root<E>(why: Refusal) -> SalvageError<E>
    ensures { (result ≡ SalvageError.NoMemory) ⊎ ((result ≡ SalvageError.NoRoot why) × (why ≢ NoMemory)) }
{
    if why == Refusal::NoMemory {
        return SalvageError::NoMemory;
    }
    SalvageError::NoRoot(why)
}

/// Hands a sink each key of an image that can be read, from the key node at an offset on, and each loss. Siblings come in the
/// order of their names. Below minor version 4 big data lie in one cell, from it on in segments.
///
/// `NoRoot` comes exactly if the root's node can't be read, unless memory is wanting. Then the sink took nothing.
pub fn salvage<S: SalvageSink>(
    alloc: Global,
    image: &Image,
    root: u32,
    minor: u32,
    sink: &mut S,
) -> Result<(), SalvageError<S::Error>>
    ensures kept { OnOk result (Tells S.Took sink.old sink.new image.now.bytes (λ cells told.
        SalvageIs (splits minor) cells root told)) }
    ensures no_root { (why : Refusal) → result ≡ Err (SalvageError.NoRoot why) → (sink.new ≡ sink.old)
        × ((cells : Cells) → Shows image.now.bytes cells → record_at Subkeys cells root ≡ Err why) }
{
    let mut seen = match no_marks(alloc, image) {
        Ok(seen) => seen,
        Err(_) => return Err(SalvageError::NoMemory),
    };
    let node = match take_root(image, &mut seen, root) {
        Ok(node) => node,
        Err(why) => return Err(no_root(why)),
    };
    match salvage_from(alloc, image, &mut seen, root, minor, &node, sink) {
        Ok(()) => Ok(()),
        Err(error) => Err(ended(error)),
    }
}
