//! Keys, each with all that is its own alone.
ghost use Rattle.std.specs.Prelude.{◌≡◌, ◌≢◌, ◌<◌, ◌≤◌, ◌+◌, ◌*◌, length, OnOk};
ghost use Rattle.hive_cells.specs.Bins.{Cells, Shows};
ghost use Rattle.hive_tree_model.specs.Loads.{CellMarks};
ghost use Rattle.hive_records.specs.Numbers.{nil_offset};
ghost use Rattle.hive_records.specs.KeyNodes.{class_at, descriptor_at, key_at, lends_in};
ghost use Rattle.hive_load_parts.specs.Descriptors.{AreDescriptors, KeepsDescriptors, SaysLent};
ghost use Rattle.hive_load_parts.specs.CellReads.{Spreads, AnswersLikeReader, FollowsIn, Works, KeyWorks, set_flags};

use crate::cells::{cell_prefix, look_once};
use crate::descriptors::Descriptors;
use crate::flags::Flags;
use crate::lists::subkey_list;
use crate::names::name_of;
use crate::values::values;
use hive_cells::{Image, Looks};
use hive_records::{KeyNode, Security};
use refusals::Refusal;
use reg_tree_parts::{Data, Descriptor, Key};
use std::alloc::Global;

// the offset of none
const NIL: u32 = 0xffff_ffff;

const _: () = prove!(NIL == 0xffff_ffff);

/// The class of a key: the first bytes, of which `len` are asked, of the cell at an offset; none is read if `len` is 0.
///
/// Refused as the definition of a class refuses, with `Shared` at a cell that was met before, and with `NoMemory`.
#[tactic(auto, using(crate::proofs::Spread::spreads_on))]
pub fn class(
    alloc: Global,
    image: &Image,
    seen: &mut Flags,
    looks: &mut Looks,
    len: u16,
    at: u32,
) -> Result<Data, Refusal>
    requires covers { length image.now.bytes ≤ 8 * length seen.old }
    ensures reads { AnswersLikeReader (λ class. class) (class_at len at) image.now.bytes seen.old seen.new result }
    ensures covers { length seen.new ≡ length seen.old }
    ensures spreads { Spreads image.now.bytes seen.old seen.new }
    ensures works { Works looks.old looks.new seen.old seen.new result }
{
    if len == 0 {
        return Ok(Data::new(alloc, &[])?);
    }
    let bytes = match cell_prefix(image, seen, looks, len as usize, at) {
        Ok(bytes) => bytes,
        Err(refusal) => return Err(refusal),
    };
    Ok(Data::new(alloc, bytes)?)
}

// the descriptor in the security cell at an offset, which is lent and so not marked
fn security(alloc: Global, image: &Image, looks: &mut Looks, at: u32) -> Result<Descriptor, Refusal>
    requires { at ≢ nil_offset }
    ensures reads { (cells : Cells) → Shows image.now.bytes cells → SaysLent at cells result }
    ensures look { looks.new ≤ looks.old + 1 }
{
    let cell = match image.cell(at, looks) {
        Ok(cell) => cell,
        Err(refusal) => return Err(refusal),
    };
    let security = match Security::read(cell) {
        Ok(security) => security,
        Err(refusal) => return Err(refusal),
    };
    Ok(Descriptor::new(alloc, security.descriptor)?)
}

/// The descriptor in the security cell at an offset, or an empty one at the offset of none. It is kept, and not read again.
///
/// Refused as the definition of a descriptor refuses, and with `NoMemory`. No cell is marked: a descriptor is shared.
pub fn descriptor(
    alloc: Global,
    image: &Image,
    looks: &mut Looks,
    known: &mut Descriptors,
    at: u32,
) -> Result<Descriptor, Refusal>
    requires { AreDescriptors image.now.bytes known.old }
    ensures reads { (cells : Cells) → Shows image.now.bytes cells → (marks : CellMarks) → FollowsIn
        (λ its. its) (descriptor_at at) cells marks marks result }
    ensures known { AreDescriptors image.now.bytes known.new }
    ensures keeps { (cells : Cells) → Shows image.now.bytes cells →
        OnOk result (KeepsDescriptors known.old known.new (descriptor_at at cells).lent) }
    ensures look { looks.new ≤ looks.old + 1 }
{
    if at == NIL {
        return Ok(Descriptor::new(alloc, &[])?);
    }
    if let Some(descriptor) = known.get(at)? {
        return Ok(descriptor);
    }
    let descriptor = match security(alloc, image, looks, at) {
        Ok(descriptor) => descriptor,
        Err(refusal) => return Err(refusal),
    };
    let kept = descriptor.clone()?;
    known.keep(at, kept)?;
    Ok(descriptor)
}

/// The key at an offset, and its subkeys' offsets in the order of its list. `split` says whether data past 16,344 bytes
/// are in segments. A flag for each 8 bytes of the bins data says which cells were met before. A descriptor that is
/// known is not read again: the key shares it.
///
/// Refused with the cause that the definition of a key gives, with `Shared` at a cell that was met before, and with
/// `NoMemory`.
#[tactic(auto, using(crate::proofs::Spread::spreads_on))]
pub fn key(
    alloc: Global,
    image: &Image,
    seen: &mut Flags,
    looks: &mut Looks,
    known: &mut Descriptors,
    split: bool,
    at: u32,
) -> Result<(Key, Vec<u32>), Refusal>
    requires covers { length image.now.bytes ≤ 8 * length seen.old }
    requires known { AreDescriptors image.now.bytes known.old }
    ensures reads { AnswersLikeReader (λ its. (its.0, its.1.items)) (key_at split at) image.now.bytes seen.old
        seen.new result }
    ensures covers { length seen.new ≡ length seen.old }
    ensures spreads { Spreads image.now.bytes seen.old seen.new }
    ensures works { KeyWorks looks.old looks.new seen.old seen.new result }
    ensures more { OnOk result (set_flags seen.old < set_flags seen.new) }
    ensures known { AreDescriptors image.now.bytes known.new }
    ensures keeps { (cells : Cells) → Shows image.now.bytes cells →
        OnOk result (KeepsDescriptors known.old known.new (lends_in split cells at)) }
{
    let cell = match look_once(image, seen, looks, at) {
        Ok(cell) => cell,
        Err(refusal) => return Err(refusal),
    };
    let node = match KeyNode::read(cell) {
        Ok(node) => node,
        Err(refusal) => return Err(refusal),
    };
    let class = match class(alloc, image, seen, looks, node.class_len, node.class) {
        Ok(class) => class,
        Err(refusal) => return Err(refusal),
    };
    let descriptor = match descriptor(alloc, image, looks, known, node.security) {
        Ok(descriptor) => descriptor,
        Err(refusal) => return Err(refusal),
    };
    let values = match values(
        alloc,
        image,
        seen,
        looks,
        split,
        node.value_count,
        node.values,
    ) {
        Ok(values) => values,
        Err(refusal) => return Err(refusal),
    };
    let subkey_list = match subkey_list(
        alloc,
        image,
        seen,
        looks,
        node.subkey_count,
        node.subkeys,
    ) {
        Ok(subkey_list) => subkey_list,
        Err(refusal) => return Err(refusal),
    };
    let name = name_of(alloc, &node.name)?;
    let key = Key::new(
        alloc, name, class, node.flags, descriptor, node.time, values,
    )?;
    Ok((key, subkey_list))
}
