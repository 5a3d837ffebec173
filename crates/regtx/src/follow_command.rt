//! What the word `follow` does with the folder of a store.
//!
//! `store_changes` tells the changes, over the folder as a disk that is only read.
use crate::command_error::CommandError;
use crate::script_commands::{hint_at, store_in};
use crate::store_disk::StoreDisk;
use crate::terminal::TerminalOutput;
use file_disk::LockError;
use reply_lines::Status;
use std::io::{self, BufWriter, Eprint};
use store_changes::follow_store;

/// Prints the changes of the store in a folder after a number, as far as its journal holds them.
pub fn follow<
    'a,
    R: Print + Eprint + AllocGlobal,
    D: StoreDisk + Drop,
    F: FnOnce(&'a str) -> Result<D, LockError>,
>(
    rt: &R,
    output: TerminalOutput,
    opener: F,
    folder: &'a str,
    after: u64,
) -> Result<Status, CommandError<'a>>
    requires { F.pre opener folder }
{
    let alloc = rt.alloc();
    let disk = store_in(opener(folder), folder)?;
    let mut writer = BufWriter::new(alloc, io::writer(rt))?;
    let (disk, told) = follow_store(alloc, disk, after, &mut writer);
    hint_at(rt, output, folder, &disk, &told);
    Ok(output.status(rt, told))
}
