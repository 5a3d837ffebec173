//! The file by which a broker tells where a store is served.
use crate::input_file::length_of;
use std::alloc::Global;
use std::fs::File;
use std::io::{self, Read};
use std::rt::Files;

/// The name of the file, in the folder of the store.
const FILE_NAME: &str = "served";

/// The most bytes of the file. A path of a socket has fewer.
const MOST_BYTES: u64 = 4_096;

/// The path of the socket at which the store in a folder is served, if a file there tells it.
pub fn socket_of<R: Files>(rt: &R, alloc: Global, folder: &str) -> Option<String> {
    let line = line_in(rt, alloc, folder).ok()?;
    let path = line.trim_end_matches('\n');
    // a terminal would take other characters as its own
    if path.is_empty() || path.chars().any(|c| c.is_control()) {
        return None;
    }
    format!(in alloc; "{path}").ok()
}

// what the file has, if it is no longer than it may be
fn line_in<R: Files>(rt: &R, alloc: Global, folder: &str) -> io::Result<String> {
    let path = format!(in alloc; "{folder}/{FILE_NAME}")?;
    let mut text = String::new(alloc);
    if length_of(rt, &path).is_some_and(|bytes| bytes <= MOST_BYTES) {
        File::open(rt, &path)?
            .take(MOST_BYTES)
            .read_to_string(&mut text)?;
    }
    Ok(text)
}
