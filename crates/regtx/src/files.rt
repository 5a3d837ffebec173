//! Files that are read, and where replies go: each keeps why it failed.
use std::cell::Cell;
use std::io::{self, ErrorKind, Read, Write};

/// Why a file or a device failed last, if it did.
pub type Trouble = Cell<Option<io::Error>>;

/// A file that is read.
#[derive(Drop)]
pub struct Source<'a, F> {
    file: F,
    trouble: &'a Trouble,
}

impl<'a, F: Read + Drop> Source<'a, F> {
    /// Stores in `trouble` why a read of the file fails.
    pub fn new(file: F, trouble: &'a Trouble) -> Source<'a, F> {
        Source { file, trouble }
    }
}

impl<'a, F: Read + Drop> Read for Source<'a, F> {
    fn read(&mut self, buf: &mut [u8]) -> io::Result<usize> {
        match self.file.read(buf) {
            Ok(count) => Ok(count),
            Err(error) => {
                self.trouble.set(Some(error));
                Err(error)
            }
        }
    }
}

/// A device that is written to.
#[derive(Drop)]
pub struct Target<'a, W> {
    writer: W,
    trouble: &'a Trouble,
}

impl<'a, W: Write + Drop> Target<'a, W> {
    /// Stores in `trouble` why a write fails.
    pub fn new(writer: W, trouble: &'a Trouble) -> Target<'a, W> {
        Target { writer, trouble }
    }
}

impl<'a, W: Write + Drop> Write for Target<'a, W> {
    fn write(&mut self, buf: &[u8]) -> io::Result<usize> {
        match self.writer.write(buf) {
            Ok(count) => Ok(count),
            Err(error) => {
                self.trouble.set(Some(error));
                Err(error)
            }
        }
    }

    fn flush(&mut self) -> io::Result<()> {
        self.writer.flush()
    }
}

/// The last failure. A failure without a reported error is that of a device that was interrupted again and again.
pub fn last_error(trouble: &Trouble) -> io::Error {
    trouble.get().unwrap_or(ErrorKind::Interrupted.into())
}
