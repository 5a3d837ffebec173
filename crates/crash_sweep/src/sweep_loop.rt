//! Sweeps power cuts over the run of a script.
use crate::sweep_error::SweepError;
use crate::sweep_steps::begun;
use crate::table::write_heading;
use reply_lines::Status;
use script_loop::{EndOfScript, end, next_line, wrong};
use std::alloc::Global;
use std::io;
use std::io::{BufRead, Write};

/// Runs a script over a store of its own in memory, cuts the power after each device call with each tear, and opens
/// what is left. Writes a table of the numbers that open, each row as soon as it is found. Only one line of the script
/// is in memory at a time.
///
/// The lines are those of [`play`](script_runner::play), and the steps those of a run over a disk. The status
/// is clean if each opening gives a number from the last acknowledged change to the last accepted one, with its trees,
/// and no line was refused.
///
/// `Err` says that a write failed, which ends the sweep.
pub fn sweep<R: BufRead, W: Write>(
    alloc: Global,
    reader: &mut R,
    writer: &mut W,
) -> io::Result<Status> {
    let status = match swept(alloc, reader, writer) {
        Ok(status) => status,
        Err(SweepError::NoMemory) => end(writer, EndOfScript::OutOfMemory)?,
        Err(SweepError::Unwritten(error)) => return Err(error),
    };
    writer.flush()?;
    Ok(status)
}

fn swept<R: BufRead, W: Write>(
    alloc: Global,
    reader: &mut R,
    writer: &mut W,
) -> Result<Status, SweepError> {
    let mut line = Vec::new(alloc);
    match next_line(reader, &mut line) {
        Ok(()) => {}
        Err(EndOfScript::Ended) => return Ok(wrong(writer, 1)?),
        Err(end_of_script) => return Ok(end(writer, end_of_script)?),
    }
    let Some(mut run) = begun(alloc, &line)? else {
        return Ok(wrong(writer, 1)?);
    };
    write_heading(writer)?;
    for number in 2..u64::MAX {
        match next_line(reader, &mut line) {
            Ok(()) => {}
            Err(EndOfScript::Ended) => return run.finish(writer),
            Err(end_of_script) => return Ok(end(writer, end_of_script)?),
        }
        let is_understood = if number == 2 {
            run.take_second(&line, writer)?
        } else {
            run.take(&line, number, writer)?
        };
        if !is_understood {
            return Ok(wrong(writer, number)?);
        }
    }
    // a script of so many lines isn't read further
    Ok(end(writer, EndOfScript::Broken)?)
}
