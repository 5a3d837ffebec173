//! The word `serve`: the service of the store in a folder to the clients of a broker.
//!
//! The broker writes frames to standard input and reads them from standard output. One thread reads them, and the sessions
//! of `store_server` answer.
use crate::command_error::CommandError;
use crate::script_commands::{hint_at, store_in};
use crate::store_disk::StoreDisk;
use crate::terminal::TerminalOutput;
use client_desks::{Desks, FramesEnd, MOST_CLIENTS, read_frames};
use disk_model::Disk;
use file_disk::LockError;
use refusals::Refusal;
use refusals::limits::MOST_HISTORY;
use reply_lines::Status;
use std::alloc::Global;
use std::io::{self, BufReader, Eprint, Input};
use std::sync::Wait;
use std::thread::{self, Threads};
use store_backup::BackupFolder;
use store_server::serve_desks;

/// Serves the store in a folder, which no other program has open until this ends, up to the end of standard input. Copies of
/// it are made in a folder of backups.
pub fn serve_store<
    'a,
    R: Input + Print + Eprint + AllocGlobal + Threads + Wait + Sync,
    D: StoreDisk + Drop + Send,
    F: FnOnce(&'a str) -> Result<D, LockError>,
    B: BackupFolder + Sync,
>(
    rt: &R,
    output: TerminalOutput,
    opener: F,
    folder: &'a str,
    backups: &B,
) -> Result<Status, CommandError<'a>>
    requires { F.pre opener folder }
{
    let alloc = rt.alloc();
    let disk = store_in(opener(folder), folder)?;
    let desks = Desks::new(alloc, MOST_CLIENTS)?;
    let (frames, (disk, served)) = serve_beside_input(rt, alloc, disk, &desks, backups);
    let ran = match frames {
        FramesEnd::Broken => Ok(Status::Wrong),
        // what the broker sent since wasn't read
        FramesEnd::NoMemory => tell(rt, Refusal::NoMemory),
        FramesEnd::Ended if desks.has_failed(rt) => Ok(Status::Refused),
        FramesEnd::Ended => served,
    };
    hint_at(rt, output, folder, &disk, &ran);
    Ok(output.status(rt, ran))
}

// serves the store on a thread of its own, and reads frames on the caller's
fn serve_beside_input<
    R: Input + Print + Threads + Wait + Sync,
    D: Disk + Drop + Send,
    B: BackupFolder + Sync,
>(
    rt: &R,
    alloc: Global,
    disk: D,
    desks: &Desks,
    backups: &B,
) -> (FramesEnd, (D, io::Result<Status>)) {
    let (served, frames) = thread::join(
        rt,
        move || serve_to_end(rt, alloc, disk, desks, backups),
        || read_input(rt, alloc, desks),
    );
    (frames, served)
}

// puts what the broker says on the desks, to the end of standard input
fn read_input<R: Input + Wait>(rt: &R, alloc: Global, desks: &Desks) -> FramesEnd {
    match BufReader::new(alloc, rt.reader()) {
        Ok(mut reader) => read_frames(rt, alloc, desks, &mut reader),
        Err(_) => {
            desks.stop(rt);
            FramesEnd::NoMemory
        }
    }
}

// serves the clients at the desks until they are told to stop, and prints a refusal of the opening or of the end
fn serve_to_end<R: Print + Threads + Wait + Sync, D: Disk + Drop + Send, B: BackupFolder + Sync>(
    rt: &R,
    alloc: Global,
    disk: D,
    desks: &Desks,
    backups: &B,
) -> (D, io::Result<Status>) {
    let (disk, served) = serve_desks(rt, alloc, disk, desks, backups, MOST_HISTORY);
    // nobody is served any more
    desks.stop(rt);
    let told = match served {
        Ok(()) => Ok(Status::Clean),
        Err(why) => tell(rt, why),
    };
    (disk, told)
}

// prints a refusal
fn tell<R: Print>(rt: &R, why: Refusal) -> io::Result<Status> {
    println!(rt; "{why}")?;
    Ok(Status::Refused)
}
