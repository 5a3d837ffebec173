//! The mark at the end of the program's own file: which commit it was built of, and whether it was proved.
//!
//! `tools/mark.py` writes it: 256 bytes, which are the line `regtx build`, the lines that `about` prints, and zeros.

use std::fs::File;
use std::io::{Read, Seek, SeekFrom};
use std::rt::Files;

/// How long a mark is, in bytes.
const MARK_BYTES: usize = 256;

/// What a mark begins with.
const HEAD: &[u8] = b"\nregtx build\n";

/// The file of the program that runs.
const OWN_FILE: &str = "/proc/self/exe";

/// The bytes of a mark.
#[derive(Drop)]
pub struct BuildMark {
    bytes: [u8; MARK_BYTES],
}

impl BuildMark {
    /// The mark of the program that runs, if it has one and its file can be read.
    pub fn read<R: Files<File = File>>(rt: &R) -> Option<BuildMark> {
        let mut file = File::open(rt, OWN_FILE).ok()?;
        file.seek(SeekFrom::End(-(MARK_BYTES as i64))).ok()?;
        let mut bytes = [0; MARK_BYTES];
        file.read_exact(&mut bytes).ok()?;
        if bytes.starts_with(HEAD) {
            Some(BuildMark { bytes })
        } else {
            None
        }
    }

    /// Its lines, each with its end.
    pub fn lines(&self) -> &[u8] {
        let lines = self.bytes.strip_prefix(HEAD).unwrap_or(&[]);
        let end = lines.iter().position(|byte| *byte == 0);
        lines.get(..end.unwrap_or(lines.len())).unwrap_or(&[])
    }
}
