//! The encodings of records, each put after some bytes. If memory is refused, a beginning of the encoding may be there.
ghost use Rattle.std.specs.Prelude.{◌≡◌, ◌<◌, ◌≤◌, ◌^◌, ◌+◌, ◌++◌, true, false, OnOk, length};
ghost use Rattle.hive_records.specs.Fields.{u16_bytes, u32_bytes, u64_bytes};
ghost use Rattle.hive_records.specs.NameEncodings.{is_latin, latin_flag, name_bytes, wide};
ghost use Rattle.hive_records.specs.ValueEncodings.{value_record, small_value, large_value};
ghost use Rattle.reg_names.specs.Names.{folded};
ghost use Rattle.hive_records.specs.Names.{has_flag};
ghost use Rattle.hive_records.specs.ListEncodings.{offsets_bytes, plain_leaf, indirect, hashed};
ghost use Rattle.hive_records.specs.KeyEncodings.{security_bytes, node_bytes, node_head, node_bounds};

use crate::hashes::name_hash;
use crate::key_node_fields::KeyNodeFields;
use crate::names::{is_latin, stored_len};
use byteorder::{ByteOrder, LittleEndian};
use reg_tree_parts::Value;
use std::alloc::AllocError;

// the letters of records, as numbers of two bytes
const KEY_NODE: u16 = 0x6b6e;

const VALUE: u16 = 0x6b76;

const SECURITY: u16 = 0x6b73;

const BIG_DATA: u16 = 0x6264;

const PLAIN: u16 = 0x696c;

const HASHED: u16 = 0x686c;

const INDIRECT: u16 = 0x6972;

// the flag of a key's name in Latin-1
const LATIN: u16 = 0x20;

// the offset of none
const NIL: u32 = 0xffff_ffff;

// the top bit of a size field, set if the data lie in the record
const IN_RECORD: u32 = 0x8000_0000;

/// Puts a number of two bytes after some bytes, the lowest byte first.
fn put_u16(bytes: &mut Vec<u8>, number: u16) -> Result<(), AllocError>
    ensures { OnOk result (bytes.new.items ≡ bytes.old.items ++ u16_bytes number) }
{
    let mut field = [0; 2];
    LittleEndian::write_u16(&mut field, number);
    bytes.extend_from_slice(&field)
}

/// Puts a number of four bytes.
fn put_u32(bytes: &mut Vec<u8>, number: u32) -> Result<(), AllocError>
    ensures { OnOk result (bytes.new.items ≡ bytes.old.items ++ u32_bytes number) }
{
    let mut field = [0; 4];
    LittleEndian::write_u32(&mut field, number);
    bytes.extend_from_slice(&field)
}

/// Puts a number of eight bytes.
fn put_u64(bytes: &mut Vec<u8>, number: u64) -> Result<(), AllocError>
    ensures { OnOk result (bytes.new.items ≡ bytes.old.items ++ u64_bytes number) }
{
    let mut field = [0; 8];
    LittleEndian::write_u64(&mut field, number);
    bytes.extend_from_slice(&field)
}

/// Puts a name, in Latin-1 if all its units are below 0x100, else in UTF-16.
fn put_name(bytes: &mut Vec<u8>, name: &[u16]) -> Result<(), AllocError>
    ensures { OnOk result (bytes.new.items ≡ bytes.old.items ++ name_bytes name.now) }
{
    if is_latin(name) {
        put_latin(bytes, name)?;
    } else {
        put_wide(bytes, name)?;
    }
    Ok(())
}

// puts a byte for each unit
fn put_latin(bytes: &mut Vec<u8>, name: &[u16]) -> Result<(), AllocError>
    requires { is_latin name.now ≡ true }
    ensures { OnOk result (bytes.new.items ≡ bytes.old.items ++ name.now) }
{
    for unit in name {
        bytes.push(*unit as u8)?;
    }
    Ok(())
}

// puts two bytes for each unit
fn put_wide(bytes: &mut Vec<u8>, name: &[u16]) -> Result<(), AllocError>
    ensures { OnOk result (bytes.new.items ≡ bytes.old.items ++ wide name.now) }
{
    for unit in name {
        put_u16(bytes, *unit)?;
    }
    Ok(())
}

// puts a value's record with a size field and the bytes of the offset field
fn put_value(bytes: &mut Vec<u8>, value: &Value, size: u32, field: &[u8]) -> Result<(), AllocError>
    requires { length (name_bytes value.now.name) < 2 ^ 16 }
    ensures { OnOk result (bytes.new.items ≡ bytes.old.items ++ value_record value.now size
        field.now) }
{
    let name = value.name.units();
    put_u16(bytes, VALUE)?;
    put_u16(bytes, stored_len(name))?;
    put_u32(bytes, size)?;
    bytes.extend_from_slice(field)?;
    put_u32(bytes, value.kind)?;
    put_u16(bytes, u16::from(is_latin(name)))?;
    put_u16(bytes, 0)?;
    put_name(bytes, name)?;
    Ok(())
}

/// Puts the record of a value whose data of at most 4 bytes lie in it.
pub fn put_small_value(bytes: &mut Vec<u8>, value: &Value) -> Result<(), AllocError>
    requires name { length (name_bytes value.now.name) < 2 ^ 16 }
    requires few { length value.now.data ≤ 4 }
    ensures { OnOk result (bytes.new.items ≡ bytes.old.items ++ small_value value.now) }
{
    let data = value.data.bytes();
    let mut field = [0; 4];
    field[..data.len()].copy_from_slice(data);
    put_value(bytes, value, IN_RECORD + data.len() as u32, &field)
}

/// Puts the record of a value whose data lie in the cell at an offset, or in the segments that it leads to.
pub fn put_large_value(bytes: &mut Vec<u8>, value: &Value, at: u32) -> Result<(), AllocError>
    requires name { length (name_bytes value.now.name) < 2 ^ 16 }
    requires few { length value.now.data < 2 ^ 31 }
    ensures { OnOk result (bytes.new.items ≡ bytes.old.items ++ large_value value.now at) }
{
    let mut field = [0; 4];
    LittleEndian::write_u32(&mut field, at);
    put_value(bytes, value, value.data.bytes().len() as u32, &field)
}

/// Puts the record of big data in `count` segments, whose offsets are in a cell.
pub fn put_big_data(bytes: &mut Vec<u8>, count: u16, segments: u32) -> Result<(), AllocError>
    ensures { OnOk result (bytes.new.items ≡ bytes.old.items ++
        (u16_bytes 0x6264 ++ u16_bytes count ++ u32_bytes segments)) }
{
    put_u16(bytes, BIG_DATA)?;
    put_u16(bytes, count)?;
    put_u32(bytes, segments)?;
    Ok(())
}

/// Puts offsets one after the other, as the list of a key's values and the list of big data's segments have them.
pub fn put_offsets(bytes: &mut Vec<u8>, offsets: &[u32]) -> Result<(), AllocError>
    ensures { OnOk result (bytes.new.items ≡ bytes.old.items ++ offsets_bytes offsets.now) }
{
    for offset in offsets {
        put_u32(bytes, *offset)?;
    }
    Ok(())
}

/// Puts a list of subkeys that has offsets alone.
pub fn put_plain_leaf(bytes: &mut Vec<u8>, offsets: &[u32]) -> Result<(), AllocError>
    requires { length offsets.now < 2 ^ 16 }
    ensures { OnOk result (bytes.new.items ≡ bytes.old.items ++ plain_leaf offsets.now) }
{
    put_u16(bytes, PLAIN)?;
    put_u16(bytes, offsets.len() as u16)?;
    put_offsets(bytes, offsets)?;
    Ok(())
}

/// Puts a list of lists of subkeys.
pub fn put_indirect(bytes: &mut Vec<u8>, offsets: &[u32]) -> Result<(), AllocError>
    requires { length offsets.now < 2 ^ 16 }
    ensures { OnOk result (bytes.new.items ≡ bytes.old.items ++ indirect offsets.now) }
{
    put_u16(bytes, INDIRECT)?;
    put_u16(bytes, offsets.len() as u16)?;
    put_offsets(bytes, offsets)?;
    Ok(())
}

/// Puts a security cell: its links in the ring, the number of keys that name it, and the descriptor.
pub fn put_security(
    bytes: &mut Vec<u8>,
    next: u32,
    previous: u32,
    count: u32,
    descriptor: &[u8],
) -> Result<(), AllocError>
    requires { length descriptor.now < 2 ^ 32 }
    ensures { OnOk result (bytes.new.items ≡ bytes.old.items ++ security_bytes next previous count
        descriptor.now) }
{
    put_u16(bytes, SECURITY)?;
    put_u16(bytes, 0)?;
    put_u32(bytes, next)?;
    put_u32(bytes, previous)?;
    put_u32(bytes, count)?;
    put_u32(bytes, descriptor.len() as u32)?;
    bytes.extend_from_slice(descriptor)?;
    Ok(())
}

/// Puts the fields with which a list of `count` subkeys with hashes begins.
pub fn put_hashed_head(bytes: &mut Vec<u8>, count: u16) -> Result<(), AllocError>
    ensures { OnOk result (bytes.new.items ≡ bytes.old.items ++ (u16_bytes 0x686c ++ u16_bytes count)) }
{
    put_u16(bytes, HASHED)?;
    put_u16(bytes, count)?;
    Ok(())
}

/// Puts an element of such a list: the cell of a subkey, and the hash of its name.
pub fn put_hashed(bytes: &mut Vec<u8>, at: u32, name: &[u16]) -> Result<(), AllocError>
    ensures { OnOk result (bytes.new.items ≡ bytes.old.items ++ hashed
        (record { at = at; name = folded name.now })) }
{
    put_u32(bytes, at)?;
    put_u32(bytes, name_hash(name))?;
    Ok(())
}

/// Puts a key's record: its name, its flags, when it was written last, the length of its class, and what the record
/// says beside these.
pub fn put_key_node(
    bytes: &mut Vec<u8>,
    name: &[u16],
    flags: u16,
    time: u64,
    class_len: u16,
    its: &KeyNodeFields,
) -> Result<(), AllocError>
    requires name { length (name_bytes name.now) < 2 ^ 16 }
    requires flags { has_flag 0x20 flags ≡ false }
    ensures { OnOk result (bytes.new.items ≡ bytes.old.items ++ node_bytes name.now flags time
        class_len its.now) }
{
    put_node_head(bytes, stored_flags(name, flags), time, its)?;
    put_node_bounds(bytes, its)?;
    put_u16(bytes, stored_len(name))?;
    put_u16(bytes, class_len)?;
    put_name(bytes, name)?;
    Ok(())
}

// the flags, with the flag of Latin-1 set if the name is stored so
fn stored_flags(name: &[u16], flags: u16) -> u16
    requires { has_flag 0x20 flags ≡ false }
    ensures { result ≡ flags + latin_flag 0x20 name.now }
{
    if is_latin(name) { flags + LATIN } else { flags }
}

// puts a key's record up to the offset of its class
fn put_node_head(
    bytes: &mut Vec<u8>,
    flags: u16,
    time: u64,
    its: &KeyNodeFields,
) -> Result<(), AllocError>
    ensures { OnOk result (bytes.new.items ≡ bytes.old.items ++ node_head flags time its.now) }
{
    put_u16(bytes, KEY_NODE)?;
    put_u16(bytes, flags)?;
    put_u64(bytes, time)?;
    put_u32(bytes, 0)?;
    put_u32(bytes, its.parent)?;
    put_u32(bytes, its.subkey_total)?;
    put_u32(bytes, 0)?;
    put_u32(bytes, its.subkey_list)?;
    put_u32(bytes, NIL)?;
    put_u32(bytes, its.value_count)?;
    put_u32(bytes, its.values)?;
    put_u32(bytes, its.security)?;
    put_u32(bytes, its.class)?;
    Ok(())
}

// puts the upper bounds after it
fn put_node_bounds(bytes: &mut Vec<u8>, its: &KeyNodeFields) -> Result<(), AllocError>
    ensures { OnOk result (bytes.new.items ≡ bytes.old.items ++ node_bounds its.now) }
{
    put_u16(bytes, its.longest_subkey)?;
    put_u16(bytes, 0)?;
    put_u32(bytes, its.longest_class)?;
    put_u32(bytes, its.longest_value)?;
    put_u32(bytes, its.largest_data)?;
    put_u32(bytes, 0)?;
    Ok(())
}
