//! Keys as lines of JSON.
ghost use Rattle.std.specs.Prelude.{OnOk};
ghost use Rattle.std.specs.List.{flat_map};
ghost use Rattle.std.specs.FinMap as finite;
ghost use Rattle.std.specs.Io.KnownBytes.{Appends};
ghost use Rattle.key_walk.specs.KeyPaths.{names_on};
ghost use Rattle.reg_export.specs.Moments.{utc_field};
ghost use Rattle.reg_export.specs.JsonTexts.{json_key_fields, json_key_lines, json_value_line};
ghost use Rattle.reg_export.specs.JsonLaws.{JsonPrinted, json_printed_none, json_printed_more};

use crate::json_key::write_own_fields;
use crate::json_value::write_fields;
use crate::key_names::write_json_path;
use crate::moment::utc_text;
use key_walk::{KeyPath, KeySink};
use reg_tree_parts::{Key, Value};
use std::io;
use std::io::Write;

/// Prints keys as lines of JSON: a line for each key, and after it one for each of its values. It takes no memory.
///
/// Lines are ASCII and end with LF. Each has the hive's number, the path of its key, and the moment of the key's last
/// write: as a FILETIME, and as a date and time in UTC unless it is past 9999-12-30T22:00:00.9999999Z. The line of a
/// key also has its flags, its class and its descriptor. The line of a value has its name, its type, its data as hex
/// digits, and what the data mean by their type.
#[derive(Drop)]
pub struct JsonSink<'a, W> {
    /// What is written into.
    pub writer: &'a mut W,
    /// The number of the hive whose keys come now.
    pub hive: u8,
}

impl<W: Write> KeySink for JsonSink<'_, W> {
    ghost Took = { λ old new keys. JsonPrinted (W.contents old.writer.now)
        (W.contents new.writer.now) old.hive new.hive old.writer.ghost_name
        new.writer.ghost_name keys };

    type Error = io::Error;

    /// Prints the lines of a key. `Err` says that a write failed.
    #[inline(never)] // so that each level takes little stack
    fn take(&mut self, path: &KeyPath<'_>, key: &Key) -> io::Result<()> {
        match utc_text(key.time()) {
            Some(text) => {
                let utc = Some(text.as_str().as_bytes());
                write_key(self.writer, self.hive, utc, path, key)
            }
            None => write_key(self.writer, self.hive, None, path, key),
        }
    }

    ghost took_none = { λ sink. json_printed_none (W.contents sink.writer.now) sink.hive
        sink.writer.ghost_name };

    ghost took_more = { λ before between after front rest one two. json_printed_more
        (W.contents before.writer.now) (W.contents between.writer.now)
        (W.contents after.writer.now) before.hive between.hive after.hive
        before.writer.ghost_name between.writer.ghost_name after.writer.ghost_name front rest one
        two };
}

// the lines of a key
fn write_key<W: Write>(
    writer: &mut W,
    hive: u8,
    utc: Option<&[u8]>,
    path: &KeyPath<'_>,
    key: &Key,
) -> io::Result<()>
    ensures { OnOk result (Appends (W.contents writer.old) (W.contents writer.new)
        (json_key_lines hive (utc_field utc.entry) (names_on path.now, key.now))) }
{
    write_key_fields(writer, hive, utc, path, key)?;
    write_own_fields(writer, key)?;
    writer.write_all(b"}\n")?;
    write_values(writer, hive, utc, path, key)
}

// the lines of a key's values
fn write_values<W: Write>(
    writer: &mut W,
    hive: u8,
    utc: Option<&[u8]>,
    path: &KeyPath<'_>,
    key: &Key,
) -> io::Result<()>
    ensures { OnOk result (Appends (W.contents writer.old) (W.contents writer.new)
        (flat_map
        (json_value_line (json_key_fields hive (utc_field utc.entry) (names_on path.now, key.now)))
        (finite.values key.now.values))) }
{
    let values = key.values();
    for index in 0..values.len() {
        let Some(value) = values.at(index) else {
            unreachable!();
        };
        write_value(writer, hive, utc, path, key, value)?;
    }
    Ok(())
}

// the line of a value
fn write_value<W: Write>(
    writer: &mut W,
    hive: u8,
    utc: Option<&[u8]>,
    path: &KeyPath<'_>,
    key: &Key,
    value: &Value,
) -> io::Result<()>
    ensures { OnOk result (Appends (W.contents writer.old) (W.contents writer.new)
        (json_value_line (json_key_fields hive (utc_field utc.entry) (names_on path.now, key.now))
        value.now)) }
{
    write_key_fields(writer, hive, utc, path, key)?;
    write_fields(writer, value)?;
    writer.write_all(b"}\n")
}

// the fields with which each line of a key begins
fn write_key_fields<W: Write>(
    writer: &mut W,
    hive: u8,
    utc: Option<&[u8]>,
    path: &KeyPath<'_>,
    key: &Key,
) -> io::Result<()>
    ensures { OnOk result (Appends (W.contents writer.old) (W.contents writer.new)
        (json_key_fields hive (utc_field utc.entry) (names_on path.now, key.now))) }
{
    write!(writer, "{{\"hive\":{hive},\"key\":\"")?;
    write_json_path(writer, path)?;
    write!(writer, "\",\"time\":\"{}\"", key.time())?;
    write_utc(writer, utc)
}

// the field of a moment's text, if there is one
fn write_utc<W: Write>(writer: &mut W, utc: Option<&[u8]>) -> io::Result<()>
    ensures { OnOk result (Appends (W.contents writer.old) (W.contents writer.new)
        (utc_field utc.entry)) }
{
    let Some(text) = utc else {
        return Ok(());
    };
    writer.write_all(b",\"utc\":\"")?;
    writer.write_all(text)?;
    writer.write_all(b"\"")
}
