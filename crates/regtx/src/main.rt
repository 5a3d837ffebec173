//! The program `regtx`: reads the words of its command line, and leaves the work to the crates below: scripts to
//! `script_runner`, `registry_runner`, `crash_lab` and `crash_sweep`, a service to `store_server`, stores and hives to
//! those that the page names.
//!
//! Everything is printed to standard output, each reply at once if a script comes from a pipe or a keyboard. If
//! standard error is a terminal, or `REGTX_HINTS` is `1`, it shows why something can't be done. If standard output is
//! no terminal, standard error also shows on a terminal how far a long script is read. The status is 0 if no refusal
//! was printed. It is 1 if one was, a script or a file can't be read, a store can't be made or opened, or a write fails.
//! It is 2 at a line that is none or at wrong words, and 3 if `kept` finds nothing, if `recover-damaged` makes a file that is
//! no whole hive, or if `salvage` leaves something out.
#![tactic(auto)]

mod about;
mod apply_command;
mod build_mark;
mod check_command;
mod command_error;
mod ending;
mod export_command;
mod files;
mod follow_command;
mod hint;
mod input_file;
mod kept_command;
mod key_words;
mod lock_wait;
mod made_file;
mod read_command;
mod recover_command;
mod salvage_command;
mod script_commands;
mod serve_command;
mod served_file;
mod store_commands;
mod store_disk;
mod tasks;
mod terminal;
mod typed_lines;
mod usages;
mod value_commands;
mod value_file;
mod value_words;
mod words;

use crate::about::{print_about, print_usages};
use crate::apply_command::{apply_file, check_file};
use crate::check_command::check;
use crate::command_error::CommandError;
use crate::ending::Ending;
use crate::export_command::export;
use crate::files::{Source, Target, Trouble, last_error};
use crate::follow_command::follow;
use crate::hint::Hint;
use crate::input_file::opened;
use crate::kept_command::{parse_kept, tell_kept};
use crate::lock_wait::{Access, LockWait, take_wait};
use crate::read_command::read_source;
use crate::recover_command::recover_hive;
use crate::salvage_command::salvage_hive;
use crate::script_commands::{InMemory, play_script, run_script};
use crate::serve_command::serve_store;
use crate::store_commands::{import_store, new_store, upgrade_store};
use crate::store_disk::StoreDisk;
use crate::tasks::Task;
use crate::terminal::TerminalOutput;
use crate::value_commands::write_store;
use crate::words::parse_task;
use file_backups::BackupsIn;
use file_disk::LockError;
use hive_dump::{DumpError, dump};
use reply_lines::Status;
use std::alloc::Global;
use std::fs::File;
use std::io::{BufWriter, Eprint, Input};
use std::process::ExitCode;
use std::rt::{Env, Files};
use std::sync::Wait;
use std::thread::Threads;
use std::time::Clock;
use std::{env, io};
use store_backup::BackupFolder;

fn main(rt: HostRuntime) -> ExitCode {
    let output = TerminalOutput::of(&rt, &rt.stderr(), &rt.stdout(), &rt.stdin());
    let alloc = rt.alloc();
    let ending = match words_given(&rt, alloc) {
        Ok((wait, words)) => answer(
            &rt,
            output,
            |folder| wait.open(&rt, alloc, Access::ReadWrite, folder),
            |folder| wait.open(&rt, alloc, Access::ReadOnly, folder),
            |folder| BackupsIn::new(&rt, folder),
            &words,
        ),
        Err(command_error) => Ending::Replied(print_error(&rt, output, None, &command_error)),
    };
    ExitCode::from(ending.code())
}

// does what the words ask for, or reports why that can't be begun
fn answer<
    'a,
    R: Files<File = File> + Input + Print + Eprint + Clock + AllocGlobal + Threads + Wait + Sync,
    D: StoreDisk + Drop + Send,
    F: FnOnce(&'a str) -> Result<D, LockError> + Drop,
    G: FnOnce(&'a str) -> Result<D, LockError> + Drop,
    B: BackupFolder + Sync + Drop,
    H: FnOnce(Option<&'a str>) -> B + Drop,
>(
    rt: &'a R,
    output: TerminalOutput,
    opener: F,
    reader: G,
    backups_in: H,
    words: &'a [String],
) -> Ending
    requires opens { F.IsAlwaysCallable opener }
    requires reads { G.IsAlwaysCallable reader }
    requires backs_up { H.IsAlwaysCallable backups_in }
{
    match act(rt, output, opener, reader, backups_in, words) {
        Ok(ending) => ending,
        Err(command_error) => {
            Ending::Replied(print_error(rt, output, words.get(1), &command_error))
        }
    }
}

// tells whether a unit of work is kept, if the words ask that; else does what they ask for
fn act<
    'a,
    R: Files<File = File> + Input + Print + Eprint + Clock + AllocGlobal + Threads + Wait + Sync,
    D: StoreDisk + Drop + Send,
    F: FnOnce(&'a str) -> Result<D, LockError> + Drop,
    G: FnOnce(&'a str) -> Result<D, LockError> + Drop,
    B: BackupFolder + Sync + Drop,
    H: FnOnce(Option<&'a str>) -> B + Drop,
>(
    rt: &'a R,
    output: TerminalOutput,
    opener: F,
    reader: G,
    backups_in: H,
    words: &'a [String],
) -> Result<Ending, CommandError<'a>>
    requires opens { F.IsAlwaysCallable opener }
    requires reads { G.IsAlwaysCallable reader }
    requires backs_up { H.IsAlwaysCallable backups_in }
{
    match parse_kept(words)? {
        Some(question) => tell_kept(rt, output, reader, question),
        None => run(rt, output, opener, reader, backups_in, words),
    }
}

// does what the words ask for; a write that fails ends it with the status of a refusal
fn run<
    'a,
    R: Files<File = File> + Input + Print + Eprint + Clock + AllocGlobal + Threads + Wait + Sync,
    D: StoreDisk + Drop + Send,
    F: FnOnce(&'a str) -> Result<D, LockError> + Drop,
    G: FnOnce(&'a str) -> Result<D, LockError> + Drop,
    B: BackupFolder + Sync + Drop,
    H: FnOnce(Option<&'a str>) -> B + Drop,
>(
    rt: &'a R,
    output: TerminalOutput,
    opener: F,
    reader: G,
    backups_in: H,
    words: &'a [String],
) -> Result<Ending, CommandError<'a>>
    requires opens { F.IsAlwaysCallable opener }
    requires reads { G.IsAlwaysCallable reader }
    requires backs_up { H.IsAlwaysCallable backups_in }
{
    let replied = match parse_task(rt.alloc(), words)? {
        Task::Recover(asked) => return recover_hive(rt, output, &asked),
        Task::Salvage { file, form, words } => {
            return salvage_hive(rt, output, file, form, &words);
        }
        Task::Play { script } => play_script(rt, output, InMemory::Play, script),
        Task::Lab { script } => play_script(rt, output, InMemory::Lab, script),
        Task::Sweep { script } => play_script(rt, output, InMemory::Sweep, script),
        Task::Dump { file } => dump_file(rt, output, file),
        Task::New { folder, id, count } => new_store(rt, output, folder, id, count),
        Task::Import {
            folder,
            id,
            sources,
        } => import_store(rt, output, folder, id, &sources),
        Task::Upgrade { source, folder } => upgrade_store(rt, output, opener, source, folder),
        Task::Run { folder, script } => run_script(rt, output, opener, folder, script),
        Task::Serve { folder, backups } => {
            serve_store(rt, output, opener, folder, &backups_in(backups))
        }
        Task::Apply {
            folder,
            file,
            words,
        } => apply_file(rt, output, opener, folder, file, &words),
        Task::ApplyCheck {
            folder,
            file,
            words,
        } => check_file(rt, output, reader, folder, file, &words),
        Task::Export {
            source,
            form,
            words,
        } => export(rt, output, reader, source, form, &words),
        Task::Read { source, reading } => read_source(rt, output, reader, source, reading),
        Task::Write { folder, writing } => write_store(rt, output, opener, folder, writing),
        Task::Check { source, logs } => check(rt, output, reader, source, &logs),
        Task::Follow { folder, after } => follow(rt, output, reader, folder, after),
        Task::About => print_about(rt, output),
        Task::Usage { word } => print_usages(rt, output, word),
    };
    Ok(Ending::Replied(replied?))
}

// prints why nothing could be begun; a terminal shows more: which word is wrong, and the usage of the command of this
// name if the words are
fn print_error<R: Files + Print + Eprint + AllocGlobal>(
    rt: &R,
    output: TerminalOutput,
    name: Option<&String>,
    command_error: &CommandError<'_>,
) -> Status {
    if let Err(error) = println!(rt; "{command_error}") {
        return output.status(rt, Err(error));
    }
    output.hint_at_start(rt, command_error.hint());
    if command_error.status() == Status::Wrong {
        output.usage(rt, name.map(|name| name.as_str()));
    }
    command_error.status()
}

// prints the hive in the file of this path
fn dump_file<'a, R: Files + Input + Print + Eprint + AllocGlobal>(
    rt: &R,
    output: TerminalOutput,
    path: &'a str,
) -> Result<Status, CommandError<'a>> {
    let alloc = rt.alloc();
    let trouble = Trouble::new(None);
    let mut writer = BufWriter::new(alloc, Target::new(io::writer(rt), &trouble))?;
    let mut file = Source::new(opened(rt, path)?, &trouble);
    match dump(alloc, &mut file, &mut writer) {
        Ok(status) => Ok(status),
        Err(DumpError::CannotRead) => Err(CommandError::CannotReadFile(Hint::denied(
            path,
            last_error(&trouble),
        ))),
        Err(DumpError::CannotWrite) => Ok(output.status(rt, Err(last_error(&trouble)))),
    }
}

// the words of the command line, and how long the command waits for a store
fn words_given<'a, R: Env + AllocGlobal>(
    rt: &R,
    alloc: Global,
) -> Result<(LockWait, Vec<String>), CommandError<'a>> {
    let mut words = Vec::new(alloc);
    for word in env::args(rt)? {
        words.push(word)?;
    }
    let wait = take_wait(&mut words)?;
    Ok((wait, words))
}
