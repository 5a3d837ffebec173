//! What the words `new`, `import` and `upgrade` do with files: the folder of a store that is to be made, the files of an
//! import, and the folder of the store that is upgraded.
//!
//! `store_create` makes the store and reports it, over the folder as a disk. Of real files it is trusted that they are
//! what they answer, and that the system keeps what it has synced, a folder's entries too. Nothing is supposed of their
//! first content, for all of a store's files are made anew.
ghost use Rattle.std.specs.Prelude.{◌≤◌, IfOk};

use crate::command_error::CommandError;
use crate::files::{Source, Trouble, last_error};
use crate::hint::Hint;
use crate::input_file::{length_of, opened};
use crate::script_commands::{hint_at, store_in};
use crate::store_disk::StoreDisk;
use crate::tasks::{HiveCount, Sources};
use crate::terminal::{TerminalOutput, end};
use disk_model::Disk;
use file_disk::{Denial, FileDisk, LockError, Unknown, sync_parent};
use progress_line::{Moved, ProgressLine, WatchedDisk, WatchedReader, Work, WorkStage};
use refusals::Refusal;
use reply_lines::Status;
use std::alloc::Global;
use std::fs::{self, File};
use std::io::{self, BufWriter, Eprint, ErrorKind, Input, Write};
use std::path::Path;
use std::rt::Files;
use std::time::Clock;
use store_create::{Import, SourceFailed, make_new, upgrade};
use uuid::Uuid;

/// Makes a store of `count` empty hives in a folder, and prints whether it is made.
pub fn new_store<'a, R: Files<File = File> + Print + Eprint + AllocGlobal>(
    rt: &R,
    output: TerminalOutput,
    folder: &'a str,
    id: Uuid,
    count: HiveCount,
) -> Result<Status, CommandError<'a>> {
    let alloc = rt.alloc();
    let mut writer = BufWriter::new(alloc, io::writer(rt))?;
    let mut disk = held_folder(rt, folder)?;
    let made = make_new(alloc, &mut disk, id, count.number, &mut writer);
    output.hint(rt, Hint::of_denial(folder, disk.denial()));
    Ok(output.status(rt, made))
}

/// Makes a store of the hives of some files in a folder, and prints whether it is made. All files are read first, then
/// the folder is looked at, and last the files' content is judged.
pub fn import_store<'a, R: Files<File = File> + Input + Print + Eprint + Clock + AllocGlobal>(
    rt: &R,
    output: TerminalOutput,
    folder: &'a str,
    id: Uuid,
    sources: &Sources<'a>,
) -> Result<Status, CommandError<'a>> {
    let line = output.line(rt, importing(rt, sources));
    let made = import_watched(rt, folder, id, sources, line.as_ref());
    end(line);
    let (denial, made) = made?;
    output.hint(rt, Hint::of_denial(folder, denial));
    Ok(output.status(rt, made))
}

/// Makes a store with outcomes in a folder, of the store without them in another, and prints whether it is made. No
/// other program has either open until this ends. The folder is looked at before the store without them is read.
pub fn upgrade_store<
    'a,
    R: Files<File = File> + Print + Eprint + AllocGlobal,
    D: StoreDisk + Drop,
    F: FnOnce(&'a str) -> Result<D, LockError>,
>(
    rt: &R,
    output: TerminalOutput,
    opener: F,
    source: &'a str,
    folder: &'a str,
) -> Result<Status, CommandError<'a>>
    requires { F.pre opener source }
{
    let alloc = rt.alloc();
    let mut writer = BufWriter::new(alloc, io::writer(rt))?;
    let old = store_in(opener(source), source)?;
    let mut disk = held_folder(rt, folder)?;
    let (old, made) = upgrade(alloc, old, &mut disk, &mut writer);
    hint_at(rt, output, source, &old, &made);
    output.hint(rt, Hint::of_denial(folder, disk.denial()));
    Ok(output.status(rt, made))
}

// the same as an import, with a line for it if there is one; answers what the system refused of the store's files, too
fn import_watched<'a, R: Files<File = File> + Input + Print + Eprint + Clock + AllocGlobal>(
    rt: &R,
    folder: &'a str,
    id: Uuid,
    sources: &Sources<'a>,
    line: Option<&ProgressLine<'_, R>>,
) -> Result<(Option<Denial>, io::Result<Status>), CommandError<'a>> {
    let alloc = rt.alloc();
    let mut writer = BufWriter::new(alloc, io::writer(rt))?;
    let import = import_of(rt, sources, line)?;
    let disk = held_folder(rt, folder)?;
    let (disk, made) = make_watched(alloc, import, disk, id, line, &mut writer);
    Ok((disk.denial(), made))
}

// makes the store of an import, with a line for what is written; the disk is handed back
fn make_watched<D: Disk + Drop, R: Eprint + Clock, W: Write>(
    alloc: Global,
    import: Import,
    disk: D,
    id: Uuid,
    line: Option<&ProgressLine<'_, R>>,
    writer: &mut W,
) -> (D, io::Result<Status>)
    requires some { 1 ≤ import.count }
{
    let mut disk = WatchedDisk::new(disk, Moved::Written, line);
    let made = import.make(alloc, &mut disk, id, writer);
    (disk.into_disk(), made)
}

// the work of an import: files are read, and hives of about their size are written
fn importing<R: Files>(rt: &R, sources: &Sources<'_>) -> WorkStage {
    let mut whole: u64 = 0;
    for path in &sources.paths {
        whole = whole.saturating_add(length_of(rt, path).unwrap_or(0));
    }
    WorkStage {
        work: Work::Import,
        whole: Some(whole.saturating_mul(2)),
    }
}

// the import of files, each read as the hive of its index
fn import_of<'a, R: Files + Input + Eprint + Clock + AllocGlobal>(
    rt: &R,
    sources: &Sources<'a>,
    line: Option<&ProgressLine<'_, R>>,
) -> Result<Import, CommandError<'a>>
    ensures some { IfOk result (λ import. 1 ≤ import.count) }
{
    let mut import = Import::new(rt.alloc());
    for path in &sources.paths {
        let trouble = Trouble::new(None);
        let source = Source::new(opened(rt, path)?, &trouble);
        let mut file = WatchedReader::new(source, line, None);
        if let Err(SourceFailed) = import.take(rt.alloc(), &mut file) {
            let hint = Hint::denied(path, last_error(&trouble));
            return Err(CommandError::CannotReadFile(hint));
        }
    }
    Ok(import)
}

// the folder of a store that is to be made, as a disk: it is made if it is missing, and locked; a journal is looked for
// once no other program can make a store there
fn held_folder<'a, 'b, R: Files<File = File> + AllocGlobal>(
    rt: &'b R,
    folder: &'a str,
) -> Result<FileDisk<&'b R, Unknown>, CommandError<'a>> {
    make_folder(rt, folder)?;
    let disk = match FileDisk::open_locked(rt, rt.alloc(), folder) {
        Ok(disk) => disk,
        Err(lock_error) => match Hint::of_lock_error(folder, &lock_error) {
            Some(hint) => return Err(CommandError::CannotMakeStore(hint)),
            None => return Err(CommandError::Refused(Refusal::NoMemory)),
        },
    };
    look_for_journal(rt, folder)?;
    Ok(disk)
}

// makes a folder if it is missing, so that a power cut leaves it
fn make_folder<'a, R: Files<File = File>>(rt: &R, folder: &'a str) -> Result<(), CommandError<'a>> {
    match fs::create_dir(rt, folder) {
        Ok(()) => sync_parent(rt, folder).map_err(|error| unmade(folder, error)),
        Err(error) if error.kind() == ErrorKind::AlreadyExists => find_folder(rt, folder),
        Err(error) => Err(unmade(folder, error)),
    }
}

// looks that what is there is a folder, and not a file or a link that leads nowhere
fn find_folder<'a, R: Files>(rt: &R, folder: &'a str) -> Result<(), CommandError<'a>> {
    match fs::metadata(rt, folder) {
        Ok(metadata) if metadata.is_dir() => Ok(()),
        Ok(_) => Err(unmade(folder, ErrorKind::NotADirectory.into())),
        Err(error) => Err(unmade(folder, error)),
    }
}

// looks that a folder has no entry of a journal's name, whatever that is
fn look_for_journal<'a, R: Files + AllocGlobal>(
    rt: &R,
    folder: &'a str,
) -> Result<(), CommandError<'a>> {
    let journal = Path::new(folder).join(rt.alloc(), "journal")?;
    match fs::symlink_metadata(rt, journal.as_path()) {
        Ok(_) => Err(CommandError::CannotMakeStore(Hint::of_journal(folder))),
        Err(error) if error.kind() == ErrorKind::NotFound => Ok(()),
        Err(error) => Err(unmade(folder, error)),
    }
}

// why the folder of a store can't be made or locked
fn unmade<'a>(folder: &'a str, error: io::Error) -> CommandError<'a> {
    match error.kind() {
        ErrorKind::OutOfMemory => CommandError::Refused(Refusal::NoMemory),
        _ => CommandError::CannotMakeStore(Hint::denied(folder, error)),
    }
}
