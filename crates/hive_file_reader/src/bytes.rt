//! Bytes of a reader, as far as there are any.
ghost use Rattle.std.specs.Prelude.{◌≡◌, ◌+◌, ◌≤◌, ◌<◌, length, take, IfOk, OnOk};
ghost use Rattle.std.specs.Io.{StartsWith, appended_bytes};
ghost use Rattle.std.specs.Io.KnownBytes.{Consumes, IsAtEnd};

use std::alloc::{AllocError, Global};
use std::io;
use std::io::{ErrorKind, Read};

/// The most bytes for which room is made before those ahead of them are there.
const CHUNK_BYTES: usize = 65_536;

/// Fills a buffer as far as the reader has bytes; answers how many there were. Fewer than the buffer has are the last.
pub(crate) fn fill<R: Read>(reader: &mut R, buffer: &mut [u8]) -> io::Result<usize>
    ensures within { IfOk result (λ count. count ≤ length buffer.new) }
    ensures bytes { IfOk result (λ count. Consumes (R.remaining reader.old) (R.remaining reader.new)
        (take count buffer.new)) }
    ensures end { IfOk result (λ count. count < length buffer.new → IsAtEnd (R.remaining reader.new)) }
{
    let mut count = 0;
    'reads: for _ in 0..u64::MAX {
        if count == buffer.len() {
            return Ok(count);
        }
        match reader.read(&mut buffer[count..]) {
            Ok(0) => return Ok(count),
            Ok(more) => count += more,
            Err(error) => {
                if error.kind() != ErrorKind::Interrupted {
                    return Err(error);
                }
            }
        }
    }
    // a reader that is interrupted so often isn't read on
    Err(io::Error::from(ErrorKind::Interrupted))
}

// makes room for `least` bytes more; or, up to `most`, for a quarter of those that are there, so that bytes are moved
// seldom and the room isn't twice what they need
fn make_room(part: &mut Vec<u8>, least: usize, most: usize) -> Result<(), AllocError>
    ensures { part.new.items ≡ part.old.items }
{
    if part.capacity() - part.len() >= least {
        return Ok(());
    }
    part.reserve_exact((part.len() / 4).min(most).max(least))
}

/// Reads as many bytes as are asked for, or all that are left if they are fewer, to the end of those that are there.
/// Room is made a chunk at a time. After an error nothing is said of the bytes.
pub(crate) fn append_part<R: Read>(
    reader: &mut R,
    bytes: &mut Vec<u8>,
    size: usize,
) -> io::Result<()>
    ensures appends { OnOk result (StartsWith bytes.new.items bytes.old.items) }
    ensures within { OnOk result (length bytes.new.items ≤ length bytes.old.items + size) }
    ensures bytes { OnOk result (Consumes (R.remaining reader.old) (R.remaining reader.new)
        (appended_bytes bytes.old.items bytes.new.items)) }
    ensures end { OnOk result (length bytes.new.items < length bytes.old.items + size →
        IsAtEnd (R.remaining reader.new)) }
{
    let mut left = size;
    'pieces: while left > 0 {
        let from = bytes.len();
        let most = left.min(CHUNK_BYTES);
        make_room(bytes, most, left)?;
        bytes.resize(from + most, 0)?;
        let count = fill(reader, &mut bytes[from..])?;
        bytes.truncate(from + count);
        if count < most {
            return Ok(());
        }
        left -= most;
    }
    Ok(())
}

/// As many bytes as are asked for, or all that are left if they are fewer, read as by [`append_part`].
pub(crate) fn read_part<R: Read>(alloc: Global, reader: &mut R, size: usize) -> io::Result<Vec<u8>>
    ensures within { IfOk result (λ part. length part.items ≤ size) }
    ensures bytes { IfOk result (λ part. Consumes (R.remaining reader.old) (R.remaining reader.new)
        part.items) }
    ensures end { IfOk result (λ part. length part.items < size → IsAtEnd (R.remaining reader.new)) }
{
    let mut part = Vec::new(alloc);
    append_part(reader, &mut part, size)?;
    Ok(part)
}
