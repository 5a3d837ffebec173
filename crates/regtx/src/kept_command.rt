//! The word `kept`: whether the store in a folder keeps the commit of a unit of work.
use crate::command_error::CommandError;
use crate::ending::Ending;
use crate::script_commands::store_in;
use crate::store_disk::StoreDisk;
use crate::terminal::TerminalOutput;
use crate::value_commands::{ended, status_of};
use file_disk::LockError;
use refusals::Refusal;
use std::io::{self, BufWriter, Eprint};
use store_values::{ChangeResult, find_commit};
use uuid::Uuid;

/// `kept DIR ID`: what is asked.
#[derive(Clone, Copy)]
pub struct KeptQuestion<'a> {
    /// The folder of the store.
    pub folder: &'a str,
    /// The word that is the unit of work, in any text form of a UUID.
    pub unit: &'a str,
}

/// What the words ask, of which the first two are the program and the command; `None` if the command is another one.
pub fn parse_kept<'a>(words: &'a [String]) -> Result<Option<KeptQuestion<'a>>, CommandError<'a>> {
    let [_, command, rest @ ..] = words else {
        return Ok(None);
    };
    if command.as_str() != "kept" {
        return Ok(None);
    }
    let [folder, unit] = rest else {
        return Err(CommandError::WrongWords);
    };
    Ok(Some(KeptQuestion {
        folder: folder.as_str(),
        unit: unit.as_str(),
    }))
}

/// Prints the number of the commit of a unit of work that the store in a folder keeps. The store is only read.
pub fn tell_kept<
    'a,
    R: Print + Eprint + AllocGlobal,
    D: StoreDisk + Drop,
    F: FnOnce(&'a str) -> Result<D, LockError>,
>(
    rt: &R,
    output: TerminalOutput,
    opener: F,
    question: KeptQuestion<'a>,
) -> Result<Ending, CommandError<'a>>
    requires { F.pre opener question.folder }
{
    let KeptQuestion { folder, unit } = question;
    let Ok(unit) = Uuid::parse_str(unit) else {
        return Err(CommandError::WrongWord(unit));
    };
    let alloc = rt.alloc();
    let disk = store_in(opener(folder), folder)?;
    let mut writer = BufWriter::new(alloc, io::writer(rt))?;
    let (disk, told) = find_commit(alloc, disk, &unit, &mut writer);
    if is_not_kept(&told) {
        return Ok(Ending::NotKept);
    }
    let status = ended(rt, output, folder, &disk, status_of(told));
    Ok(Ending::Replied(status))
}

// whether it was told that the store keeps no commit of the unit
fn is_not_kept(told: &io::Result<ChangeResult>) -> bool {
    match told {
        Ok(told) => told.refusal == Some(Refusal::NotFound),
        Err(_) => false,
    }
}
