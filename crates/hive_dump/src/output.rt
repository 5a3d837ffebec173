//! The dump itself.
ghost use Rattle.std.specs.Prelude.{◌≡◌, ◌++◌, ◌∷◌, [], IfOk, Err};
ghost use Rattle.std.specs.Io.KnownBytes.{Appends, Keeps};
ghost use Rattle.refusals.specs.Refusals.{refusal_text};
ghost use Rattle.tree_printer.specs.TreeTexts.{tree_text};
ghost use Rattle.hive_dump.specs.declared.output.DumpError.TheVariants.{CannotWrite};
ghost use Rattle.hive_dump.specs.Dumps.{DumpWrites};

use hive_file_reader::{ReadError, read_hive};
use refusals::Refusal;
use reg_tree::Tree;
use reply_lines::Status;
use std::alloc::Global;
use std::io;
use std::io::{Read, Write};
use tree_printer::write_tree;

/// The number as which the hive of a file is reported.
const HIVE: u8 = 0;

const _: () = prove!(HIVE == 0);

/// Why a dump ended before its text was written whole.
#[derive(Clone, Copy, Debug, PartialEq, Eq)]
pub enum DumpError {
    /// The file can't be read, or read on. Nothing was written.
    CannotRead,
    /// A write failed.
    CannotWrite,
}

impl From<io::Error> for DumpError {
    ghost from_gives = { λ _ fault. fault ≡ CannotWrite };

    fn from(_: io::Error) -> DumpError {
        DumpError::CannotWrite
    }
}

/// Writes the text of the tree that a hive's primary file holds, as hive 0, or of why it holds none, and answers the
/// status. The file is read from where the reader is. Its base block is read, and as many bytes of bins data as that
/// says. What follows is left unread.
///
/// Refused, in the text, with `HiveDamaged` of hive 0 and a cause. `Truncated` if the file ends early. `BadBase` if it
/// is no hive at all or has a wrong base block. `NotClean` if it isn't clean. Another cause if its bins data encode no
/// tree. Refused with `Unsupported` for a version, a format, a type or a flag outside the profile. Refused with
/// `TooLarge` for bins data, a tree's weight or a path over the limits. Refused with `NoMemory`. Nothing is written
/// before the whole tree is in memory, and writing takes none.
pub fn dump<R: Read, W: Write>(
    alloc: Global,
    reader: &mut R,
    writer: &mut W,
) -> Result<Status, DumpError>
    ensures dumped { IfOk result (λ status. DumpWrites (R.remaining reader.old) (W.contents writer.old)
        (W.contents writer.new) status) }
    ensures unread { result ≡ Err DumpError.CannotRead →
        Keeps (W.contents writer.old) (W.contents writer.new) }
{
    match read_hive(alloc, reader, HIVE) {
        Ok(tree) => Ok(write_dump(writer, &tree)?),
        Err(ReadError::Refused(why)) => Ok(write_refusal(writer, why)?),
        Err(ReadError::SourceFailed) => Err(DumpError::CannotRead),
    }
}

// writes the text of a tree
fn write_dump<W: Write>(writer: &mut W, tree: &Tree) -> io::Result<Status>
    ensures { IfOk result (λ status. (status ≡ Status.Clean)
        × Appends (W.contents writer.old) (W.contents writer.new) (tree_text 0 tree.now)) }
{
    write_tree(writer, HIVE, tree)?;
    writer.flush()?;
    Ok(Status::Clean)
}

// writes the line of a refusal
fn write_refusal<W: Write>(writer: &mut W, why: Refusal) -> io::Result<Status>
    ensures { IfOk result (λ status. (status ≡ Status.Refused)
        × Appends (W.contents writer.old) (W.contents writer.new) (refusal_text why ++ 10 ∷ [])) }
{
    writeln!(writer, "{why}")?;
    writer.flush()?;
    Ok(Status::Refused)
}
