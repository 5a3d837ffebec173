//! The lines of a script, as they are read.
ghost use Rattle.std.specs.Prelude.{◌≡◌, [], Some, OnOk, IfErr};
ghost use Rattle.std.specs.Io.BufRead.{strip_last};
ghost use Rattle.script_loop.specs.Lines.{TakesLine, WereRead};

use crate::end_of_script::EndOfScript;
use std::io;
use std::io::BufRead;

/// The byte that ends a line.
const LINE_END: u8 = b'\n';

/// Reads the next line of a script into the buffer, without the byte that ends it; or answers why there is none.
pub fn next_line<R: BufRead>(reader: &mut R, line: &mut Vec<u8>) -> Result<(), EndOfScript>
    ensures line { OnOk result (TakesLine (R.remaining reader.old)
        (R.remaining reader.new) line.new.items) }
    ensures none { IfErr result (λ end_of_script. WereRead (R.remaining reader.old) [] (Some end_of_script)) }
{
    line.clear();
    match reader.read_until(LINE_END, line) {
        Ok(0) => Err(EndOfScript::Ended),
        Ok(_) => {
            strip_end(line);
            Ok(())
        }
        Err(error) if error.kind() == io::ErrorKind::OutOfMemory => Err(EndOfScript::OutOfMemory),
        Err(_) => Err(EndOfScript::Broken),
    }
}

// removes the byte that ends a line from its end, if it is there
fn strip_end(line: &mut Vec<u8>)
    ensures { line.new.items ≡ strip_last 10 line.old.items }
{
    let len = line.len();
    if len > 0 && line[len - 1] == LINE_END {
        line.truncate(len - 1);
    }
}
