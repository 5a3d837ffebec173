//! The folder in which a folder is.

use std::fs::File;
use std::io;
use std::path::Path;
use std::rt::Files;

/// Syncs the folder in which a folder is, so that a power cut leaves the folder there.
pub fn sync_parent<R: Files<File = File>>(rt: &R, folder: &str) -> io::Result<()> {
    let parent = match Path::new(folder).parent() {
        Some(parent) if !parent.as_os_str().is_empty() => parent,
        _ => Path::new("."),
    };
    match File::open(rt, parent) {
        Ok(handle) => handle.sync_all(),
        Err(error) => Err(error),
    }
}
