//! The lines of a script that is typed: one that isn't understood doesn't end the run.
use script_syntax::{Line, read_line};
use std::alloc::Global;
use std::io::{self, Read};
use word_syntax::ParseError;

/// The byte that ends a line.
const LINE_END: u8 = b'\n';

/// A script that is read from a terminal, if it is one. Its lines are handed on one by one. A line that no run takes is
/// told on standard output, in the words of a run that it ends, and left out. A script from elsewhere is handed on as it
/// is.
#[derive(Drop)]
pub struct TypedLines<'a, T, R> {
    script: T,
    rt: &'a R,
    alloc: Global,
    is_typed: bool,
    // the line that is handed on, from an offset on
    line: Vec<u8>,
    offset: usize,
    // how many lines were read
    number: u64,
}

impl<'a, T: Read + Drop, R: Print> TypedLines<'a, T, R> {
    /// A script, which is read from a terminal or isn't.
    pub fn new(rt: &'a R, alloc: Global, script: T, is_typed: bool) -> TypedLines<'a, T, R> {
        TypedLines {
            script,
            rt,
            alloc,
            is_typed,
            line: Vec::new(alloc),
            offset: 0,
            number: 0,
        }
    }

    // reads the next line that a run takes; it is empty at the script's end
    fn read_on(&mut self) -> io::Result<()> {
        for _ in 0..u64::MAX {
            self.read_line()?;
            self.number = self.number.saturating_add(1);
            if self.line.is_empty() || is_taken(self.alloc, &self.line) {
                return Ok(());
            }
            println!(self.rt; "line {}: not understood", self.number)?;
        }
        Ok(())
    }

    // reads the next line with its end, byte by byte, as what is typed comes slowly; it is empty at the script's end
    fn read_line(&mut self) -> io::Result<()> {
        self.offset = 0;
        self.line.clear();
        let mut byte = [0; 1];
        for _ in 0..u64::MAX {
            if self.script.read(&mut byte)? == 0 {
                return Ok(());
            }
            self.line.push(byte[0])?;
            if byte[0] == LINE_END {
                return Ok(());
            }
        }
        Ok(())
    }
}

impl<'a, T: Read + Drop, R: Print> Read for TypedLines<'a, T, R> {
    fn read(&mut self, buf: &mut [u8]) -> io::Result<usize> {
        if !self.is_typed {
            return self.script.read(buf);
        }
        if self.offset >= self.line.len() {
            self.read_on()?;
        }
        let Some(rest) = self.line.get(self.offset..) else {
            return Ok(0);
        };
        let count = rest.len().min(buf.len());
        buf[..count].copy_from_slice(&rest[..count]);
        self.offset += count;
        Ok(count)
    }
}

// whether a run takes a line. For want of memory it isn't known, and the run tells that itself
fn is_taken(alloc: Global, line: &[u8]) -> bool {
    match read_line(alloc, line.strip_suffix(&[LINE_END]).unwrap_or(line)) {
        Ok(Line::Hives { .. } | Line::History { .. } | Line::Served { .. } | Line::Lab { .. }) =>
            false,
        Ok(_) => true,
        Err(ParseError::NotUnderstood) => false,
        Err(ParseError::NoMemory) => true,
    }
}
