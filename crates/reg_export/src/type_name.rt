//! The names of the types of values.
ghost use Rattle.std.specs.Prelude.{OnOk};
ghost use Rattle.std.specs.Io.KnownBytes.{Appends};
ghost use Rattle.reg_export.specs.TypeNames.{type_name};

use std::io;
use std::io::Write;

/// Writes the name of a type, as in winnt.h; one without a name as `0x` and its number.
pub(crate) fn write_type<W: Write>(writer: &mut W, kind: u32) -> io::Result<()>
    ensures { OnOk result (Appends (W.contents writer.old) (W.contents writer.new)
        (type_name kind)) }
{
    match kind {
        0 => writer.write_all(b"REG_NONE"),
        1 => writer.write_all(b"REG_SZ"),
        2 => writer.write_all(b"REG_EXPAND_SZ"),
        3 => writer.write_all(b"REG_BINARY"),
        4 => writer.write_all(b"REG_DWORD"),
        5 => writer.write_all(b"REG_DWORD_BIG_ENDIAN"),
        6 => writer.write_all(b"REG_LINK"),
        7 => writer.write_all(b"REG_MULTI_SZ"),
        8 => writer.write_all(b"REG_RESOURCE_LIST"),
        9 => writer.write_all(b"REG_FULL_RESOURCE_DESCRIPTOR"),
        10 => writer.write_all(b"REG_RESOURCE_REQUIREMENTS_LIST"),
        11 => writer.write_all(b"REG_QWORD"),
        _ => write!(writer, "0x{kind:x}"),
    }
}
