//! What the words `play`, `lab`, `sweep` and `run` do with files: the script, and the folder of the store that `run`
//! works on.
//!
//! `script_runner` plays the script, `registry_runner` runs it on a store, `crash_lab` and `crash_sweep` try it; each
//! writes the replies. Of a store's files it is trusted that they are what they answer, and that the system keeps what it
//! has synced. Then what is proved of runs over any disk holds of them.
use crate::command_error::CommandError;
use crate::files::{Source, Trouble};
use crate::hint::Hint;
use crate::input_file::{length_of, open_input};
use crate::store_disk::StoreDisk;
use crate::terminal::{TerminalOutput, end, reading};
use crate::typed_lines::TypedLines;
use crash_lab::lab;
use crash_sweep::sweep;
use disk_model::Disk;
use file_disk::LockError;
use progress_line::{Moved, ProgressLine, WatchedDisk, WatchedReader, Work, WorkStage};
use refusals::Refusal;
use registry_runner::{run, run_unread};
use reply_lines::Status;
use script_loop::refuse_script;
use script_runner::play;
use std::alloc::Global;
use std::fs::File;
use std::io::{self, BufReader, BufWriter, Eprint, Input, LineWriter, Read, Write};
use std::rt::Files;
use std::sync::Wait;
use std::thread::Threads;
use std::time::Clock;

/// What is done with a script over a store in memory.
#[derive(Clone, Copy, PartialEq, Eq)]
pub enum InMemory {
    /// It is played.
    Play,
    /// It is run in the laboratory.
    Lab,
    /// Power cuts are swept over its run.
    Sweep,
}

impl InMemory {
    // what a line shows
    fn work(self) -> Work {
        match self {
            InMemory::Play => Work::Play,
            InMemory::Lab => Work::Lab,
            InMemory::Sweep => Work::Sweep,
        }
    }

    // does it: reads the script's lines and writes the replies; the inner answer reports writes that failed
    fn carry_out<'b, T: Read + Drop, W: Write>(
        self,
        alloc: Global,
        script: T,
        writer: &mut W,
    ) -> Result<io::Result<Status>, CommandError<'b>> {
        let mut reader = BufReader::new(alloc, script)?;
        Ok(match self {
            InMemory::Play => play(alloc, &mut reader, writer),
            InMemory::Lab => lab(alloc, &mut reader, writer),
            InMemory::Sweep => sweep(alloc, &mut reader, writer),
        })
    }
}

/// Does this with the script of a path.
pub fn play_script<'a, R: Files + Input + Print + Eprint + Clock + AllocGlobal>(
    rt: &R,
    output: TerminalOutput,
    how: InMemory,
    script: &'a str,
) -> Result<Status, CommandError<'a>> {
    let alloc = rt.alloc();
    let played = if how != InMemory::Sweep && is_plain_file(rt, script) {
        let mut writer = BufWriter::new(alloc, io::writer(rt))?;
        play_file(rt, output, how, script, &mut writer)?
    } else {
        // whoever sends the script may wait for a reply before the next line, and a row of a sweep takes a while: each
        // line is written out as soon as it is made
        let mut writer = LineWriter::new(alloc, io::writer(rt))?;
        play_file(rt, output, how, script, &mut writer)?
    };
    Ok(output.status(rt, played))
}

/// Runs the script of this path over the store in a folder, which no other program has open until this ends.
pub fn run_script<
    'a,
    R: Files<File = File> + Input + Print + Eprint + Clock + AllocGlobal + Threads + Wait + Sync,
    D: StoreDisk + Drop + Send,
    F: FnOnce(&'a str) -> Result<D, LockError>,
>(
    rt: &R,
    output: TerminalOutput,
    opener: F,
    folder: &'a str,
    script: &'a str,
) -> Result<Status, CommandError<'a>>
    requires { F.pre opener folder }
{
    let alloc = rt.alloc();
    let disk = store_in(opener(folder), folder)?;
    let ran = if is_plain_file(rt, script) {
        let mut writer = BufWriter::new(alloc, io::writer(rt))?;
        run_file(rt, output, (folder, disk), script, &mut writer)?
    } else {
        let mut writer = LineWriter::new(alloc, io::writer(rt))?;
        run_file(rt, output, (folder, disk), script, &mut writer)?
    };
    Ok(output.status(rt, ran))
}

/// Says what the system refused of a store, or else, if a refusal was printed, which part of the store is missing
pub fn hint_at<R: Eprint + AllocGlobal, D: StoreDisk>(
    rt: &R,
    output: TerminalOutput,
    folder: &str,
    disk: &D,
    ran: &io::Result<Status>,
) {
    if let Some(denial) = disk.first_denial() {
        output.hint(rt, Hint::of_denial(folder, Some(denial)));
    } else if !matches!(ran, Ok(Status::Clean)) {
        output.hint(rt, Hint::of_absence(folder, disk));
    }
}

/// The files of the store in a folder, as a disk, if it could be opened.
pub fn store_in<'a, D>(
    opened: Result<D, LockError>,
    folder: &'a str,
) -> Result<D, CommandError<'a>> {
    match opened {
        Ok(disk) => Ok(disk),
        Err(lock_error) => match Hint::of_lock_error(folder, &lock_error) {
            Some(hint) => Err(CommandError::CannotOpenStore(hint)),
            None => Err(CommandError::Refused(Refusal::NoMemory)),
        },
    }
}

// whether reading the script never waits for input, such as from a plain file
fn is_plain_file<R: Files>(rt: &R, script: &str) -> bool {
    length_of(rt, script).is_some()
}

// does this with the script; the inner answer reports writes that failed
fn play_file<'a, R: Files + Input + Eprint + Clock + AllocGlobal, W: Write>(
    rt: &R,
    output: TerminalOutput,
    how: InMemory,
    script: &'a str,
    writer: &mut W,
) -> Result<io::Result<Status>, CommandError<'a>> {
    let file = match open_input(rt, script) {
        Ok(file) => file,
        Err(error) => {
            let told = refuse_script(writer);
            output.hint(rt, Some(Hint::denied(script, error)));
            return Ok(told);
        }
    };
    let trouble = Trouble::new(None);
    let line = output.line(rt, reading(rt, how.work(), script));
    let source = WatchedReader::new(Source::new(file, &trouble), line.as_ref(), None);
    let played = how.carry_out(rt.alloc(), source, writer);
    end(line);
    hint_unread(rt, output, script, &trouble);
    played
}

// says why a script can't be read on, if it can't
fn hint_unread<R: Eprint + AllocGlobal>(
    rt: &R,
    output: TerminalOutput,
    script: &str,
    trouble: &Trouble,
) {
    if let Some(error) = trouble.get() {
        output.hint(rt, Some(Hint::denied(script, error)));
    }
}

// runs the script over the store in a folder; the inner answer reports writes that failed
fn run_file<
    'a,
    R: Files<File = File> + Input + Print + Eprint + Clock + AllocGlobal + Threads + Wait + Sync,
    D: StoreDisk + Drop + Send,
    W: Write,
>(
    rt: &R,
    output: TerminalOutput,
    store: (&'a str, D),
    script: &'a str,
    writer: &mut W,
) -> Result<io::Result<Status>, CommandError<'a>> {
    let (folder, mut disk) = store;
    let opening = WorkStage {
        work: Work::Opening,
        whole: Some(disk.bytes()),
    };
    let trouble = Trouble::new(None);
    let line = output.line(rt, opening);
    let ran = run_watched(
        rt,
        disk,
        (script, output.is_typed(script)),
        &trouble,
        line.as_ref(),
        writer,
    );
    end(line);
    let (disk, ran) = ran?;
    hint_at(rt, output, folder, &disk, &ran);
    hint_unread(rt, output, script, &trouble);
    Ok(ran)
}

// the same, with a line for it if there is one; the script is a word, and whether a person types what its file gives
fn run_watched<
    'a,
    R: Files + Input + Print + Eprint + Clock + AllocGlobal + Threads + Wait + Sync,
    D: Disk + Drop + Send,
    W: Write,
>(
    rt: &R,
    disk: D,
    script: (&'a str, bool),
    trouble: &Trouble,
    line: Option<&ProgressLine<'_, R>>,
    writer: &mut W,
) -> Result<(D, io::Result<Status>), CommandError<'a>> {
    let alloc = rt.alloc();
    let (script, is_typed) = script;
    let disk = WatchedDisk::new(disk, Moved::Read, line);
    let (disk, ran) = match open_input(rt, script) {
        Ok(file) => {
            let source = Source::new(file, trouble);
            let source = WatchedReader::new(source, line, Some(reading(rt, Work::Run, script)));
            let lines = TypedLines::new(rt, alloc, source, is_typed);
            let mut reader = BufReader::new(alloc, lines)?;
            run(rt, alloc, disk, &mut reader, writer)
        }
        Err(error) => {
            trouble.set(Some(error));
            run_unread(rt, alloc, disk, writer)
        }
    };
    Ok((disk.into_disk(), ran))
}
