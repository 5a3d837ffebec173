//! Keys and values as text: a registration file (.reg), lines of JSON, or lines of tab-separated fields.
//!
//! Each form is a [`KeySink`](key_walk::KeySink), so it prints the keys of a tree as well as the keys of a hive's image,
//! and takes no memory. A registration file is UTF-16, or UTF-8, as its caller chooses. A first walk with a [`NameScan`]
//! says whether a file can hold the names at all; then come [`write_reg_header`] and a walk with a [`RegSink`].
//! [`write_reg`] does both for hives in memory, and [`write_reg_below`] for a part of one.
//!
//! A text is written in small pieces: whoever calls hands in a writer with a buffer.
#![tactic(auto)]

mod block;
mod byte_units;
mod characters;
mod encoding;
mod json_key;
mod json_sink;
mod json_value;
mod key_names;
mod meaning;
mod moment;
mod name_scan;
mod reg_data;
mod reg_part;
mod reg_sink;
mod reg_units;
mod reg_value;
mod tsv_names;
mod tsv_sink;
mod type_name;
mod unit_form;
mod whole_file;

pub use byte_units::first_unit;
pub use encoding::Encoding;
pub use json_sink::JsonSink;
pub use moment::utc_text;
pub use name_scan::NameScan;
pub use reg_part::write_reg_below;
pub use reg_sink::{RegSink, write_reg_header};
pub use tsv_sink::TsvSink;
pub use whole_file::{HiveKeys, RegFileError, write_reg};
