//! Records of hives: what the cells of one key say, and which tree hive bins data encode. Also the encodings of
//! records, which read back (regf format: nk, vk, sk, li, lf, lh, ri, db).
//!
//! Each record is read from the data of its cell, from which it borrows what isn't a number: [`KeyNode`], [`ValueRec`],
//! [`SubkeyList`], [`Security`], [`BigData`]. A reader gives the fields at the format's offsets, or the refusal of the
//! first rule that the record breaks by itself. The laws are contracts of functions that do nothing. `specs/` has the
//! definitions. `Images` there says which tree hive bins data encode, and which faults are in data that encode none.
#![tactic(auto)]

mod big_data;
mod encoder;
mod example_laws;
mod hashes;
mod image_laws;
mod joined_laws;
mod key_node;
mod key_node_fields;
pub mod laws;
mod list_record;
mod names;
mod numbers;
mod reading_laws;
mod round_trip_laws;
mod security_cell;
mod stored_name;
mod value_record;

pub use big_data::{BigData, SEGMENT_BYTES, has_segments, segment_count};
pub use encoder::{
    put_big_data, put_hashed, put_hashed_head, put_indirect, put_key_node, put_large_value,
    put_offsets, put_plain_leaf, put_security, put_small_value,
};
pub use hashes::name_hash;
pub use key_node::KeyNode;
pub use key_node_fields::KeyNodeFields;
pub use list_record::SubkeyList;
pub use names::{is_latin, stored_len};
pub use numbers::u32_at;
pub use security_cell::Security;
pub use stored_name::StoredName;
pub use value_record::ValueRec;
