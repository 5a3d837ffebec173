//! A new file that the words name, which is there whole or not at all.
use crate::command_error::CommandError;
use crate::hint::{Hint, Why};
use new_file::{MakeError, SystemFile, make};
use std::alloc::Global;
use std::fs::File;
use std::rt::Files;

/// Makes a file with these bytes, and syncs it and its folder.
///
/// Refused if there is anything of this name, or of the name with `.part` behind; or if the file can't be made, written or
/// synced. Nothing is left of a file that was refused, but for a sync of its folder or a removal that failed.
pub fn make_file<'a, R: Files<File = File>>(
    rt: &R,
    alloc: Global,
    path: &'a str,
    bytes: &[u8],
) -> Result<(), CommandError<'a>> {
    let mut file = SystemFile::new(rt, alloc, path)?;
    match make(&mut file, bytes) {
        Ok(()) => Ok(()),
        Err(error) => Err(CommandError::CannotWriteFile(Hint::of(path, why_not(error)))),
    }
}

// what a terminal shows of it
fn why_not<'a>(error: MakeError) -> Why<'a> {
    match error {
        MakeError::IsThere => Why::IsThere,
        MakeError::PartIsThere => Why::PartIsThere,
        MakeError::Denied(error) | MakeError::NotKept(error) => Why::Denied(error),
    }
}
