//! What the words `about` and `usage` print.
use crate::build_mark::BuildMark;
use crate::command_error::CommandError;
use crate::terminal::TerminalOutput;
use crate::usages::USAGES;
use reply_lines::Status;
use std::fs::File;
use std::io::{self, BufWriter, Eprint, Write};
use std::rt::Files;

/// The version of the program.
const VERSION: &str = "0.9.0";

/// What is printed of a program whose file has no mark.
const UNMARKED: &[u8] = b"commit and proof unknown: tools/build.py marks what it makes\n";

/// Prints which program this is: its version, and its mark, if it has one.
pub fn print_about<'a, R: Files<File = File> + Print + Eprint + AllocGlobal>(
    rt: &R,
    output: TerminalOutput,
) -> Result<Status, CommandError<'a>> {
    let mut writer = BufWriter::new(rt.alloc(), io::writer(rt))?;
    let told = write_about(&mut writer, BuildMark::read(rt).as_ref());
    Ok(output.status(rt, told))
}

/// Prints how the command of this name is used, or each of them. A word that is no command's name is wrong.
pub fn print_usages<'a, R: Print + Eprint + AllocGlobal>(
    rt: &R,
    output: TerminalOutput,
    name: Option<&'a str>,
) -> Result<Status, CommandError<'a>> {
    if let Some(name) = name {
        if !USAGES.iter().any(|usage| usage.name == name) {
            return Err(CommandError::WrongWord(name));
        }
    }
    let mut writer = BufWriter::new(rt.alloc(), io::writer(rt))?;
    let told = write_usages(&mut writer, name);
    Ok(output.status(rt, told))
}

fn write_about<W: Write>(writer: &mut W, mark: Option<&BuildMark>) -> io::Result<Status> {
    writeln!(writer, "regtx {VERSION}")?;
    writer.write_all(mark.map_or(UNMARKED, |mark| mark.lines()))?;
    writer.flush()?;
    Ok(Status::Clean)
}

fn write_usages<W: Write>(writer: &mut W, name: Option<&str>) -> io::Result<Status> {
    for usage in &USAGES {
        if name.is_none() || name == Some(usage.name) {
            writeln!(writer, "{usage}")?;
        }
    }
    writer.flush()?;
    Ok(Status::Clean)
}
