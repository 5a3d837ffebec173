//! Reading frames.
ghost use Rattle.std.specs.Prelude.{◌≡◌, ◌⊎◌, ◌≤◌, ◌<◌, ◌∷◌, ◌++◌, [], ℕ, List, Some, length, take, Result, IfOk, OnOk, IfErr, IfSome, MatchOption};
ghost use Rattle.std.specs.Io.KnownBytes.{Consumes, IsAtEnd};
ghost use Rattle.client_frames.specs.Frames.{IsFrame, encode, head_of, payload};
ghost use Rattle.client_frames.specs.Heads.{IsFrameHead, IsPieceLength, Lacks, head_text};
ghost use Rattle.client_frames.specs.Readings.{HasReading, IsByChance, GiveNoFrame, IsRestRefused, IsPieceRefused};
ghost use Rattle.client_frames.specs.declared.frame.Frame.{Frame};
ghost use Rattle.client_frames.specs.declared.frame_error.FrameError.{FrameError};
ghost use Rattle.client_frames.specs.declared.frame_error.FrameError.TheVariants.{Unreadable};
ghost use Rattle.client_frames.specs.declared.head.TheConstants.{LONGEST_HEAD};

use crate::frame::Frame;
use crate::frame_error::FrameError;
use crate::head::{Head, LONGEST_HEAD, parse_head};
use crate::piece::Piece;
use std::alloc::Global;
use std::io::{BufRead, ErrorKind, Read};

/// Reads a frame, and no byte after it. Memory is taken for the bytes that it carries alone, and after their count was
/// read and is one.
pub fn read_frame<R: BufRead>(alloc: Global, reader: &mut R) -> Result<Frame, FrameError>
    ensures frame { IfOk result (λ frame. Consumes (R.remaining reader.old) (R.remaining reader.new)
        (encode frame)) }
    ensures refused { IfErr result (λ why. IfSome (R.remaining reader.old) (λ bytes.
        GiveNoFrame bytes why)) }
    ensures exact { (bytes : List ℕ) (wanted : Result Frame FrameError) →
        R.remaining reader.old ≡ Some bytes → HasReading bytes wanted →
        IsByChance result ⊎ (IsByChance wanted ⊎ (result ≡ wanted)) }
{
    let head = read_head(reader)?;
    read_rest(alloc, reader, head)
}

// reads a head, and the line feed after it
fn read_head<R: Read>(reader: &mut R) -> Result<Head, FrameError>
    ensures head { IfOk result (λ head. IsFrameHead head × Consumes (R.remaining reader.old) (R.remaining reader.new)
        (head_text head ++ 10 ∷ [])) }
    ensures refused { IfErr result (λ why. IfSome (R.remaining reader.old) (λ bytes.
        GiveNoFrame bytes why)) }
{
    let mut text = [0; LONGEST_HEAD];
    let len = read_text(reader, &mut text)?;
    parse_head(&text[..len]).ok_or(FrameError::NotFrame)
}

// reads what follows a head
fn read_rest<R: Read>(alloc: Global, reader: &mut R, head: Head) -> Result<Frame, FrameError>
    requires { IsFrameHead head }
    ensures frame { IfOk result (λ frame. IsFrame frame × (head_of frame ≡ head)
        × Consumes (R.remaining reader.old) (R.remaining reader.new) (payload frame)) }
    ensures refused { IfErr result (λ why. IfSome (R.remaining reader.old) (λ bytes.
        IsRestRefused head bytes why)) }
{
    match head {
        Head::Ready => Ok(Frame::Ready),
        Head::Open { place } => Ok(Frame::Open { place }),
        Head::Data { place, count } => {
            let piece = read_piece(alloc, reader, count)?;
            Ok(Frame::Data { place, piece })
        }
        Head::More { place } => Ok(Frame::More { place }),
        Head::End { place } => Ok(Frame::End { place }),
        Head::Gone { place } => Ok(Frame::Gone { place }),
    }
}

// reads a text up to a line feed, which is taken too; answers how long it is
fn read_text<R: Read>(reader: &mut R, text: &mut [u8]) -> Result<usize, FrameError>
    requires { length text.old ≡ LONGEST_HEAD }
    ensures within { IfOk result (λ len. len ≤ length text.new) }
    ensures text { IfOk result (λ len. Lacks 10 (take len text.new)
        × Consumes (R.remaining reader.old) (R.remaining reader.new) (take len text.new ++ 10 ∷ [])) }
    ensures refused { IfErr result (λ why. IfSome (R.remaining reader.old) (λ bytes.
        GiveNoFrame bytes why)) }
{
    let mut len = 0;
    'bytes: loop {
        match next_byte(reader)? {
            Some(b'\n') => return Ok(len),
            Some(byte) if len < text.len() => {
                text[len] = byte;
                len += 1;
            }
            Some(_) => return Err(FrameError::NotFrame),
            None if len == 0 => return Err(FrameError::Ended),
            None => return Err(FrameError::Broken),
        }
    }
}

// the next byte, or `None` at the end
fn next_byte<R: Read>(reader: &mut R) -> Result<Option<u8>, FrameError>
    ensures byte { IfOk result (λ next. MatchOption next (IsAtEnd (R.remaining reader.old))
        (λ byte. Consumes (R.remaining reader.old) (R.remaining reader.new) (byte ∷ []))) }
    ensures failed { IfErr result (λ why. why ≡ Unreadable) }
{
    let mut buffer = [0];
    match read_more(reader, &mut buffer)? {
        0 => Ok(None),
        _ => Ok(Some(buffer[0])),
    }
}

// reads as many bytes as a head says
fn read_piece<R: Read>(alloc: Global, reader: &mut R, count: usize) -> Result<Piece, FrameError>
    requires { IsPieceLength count }
    ensures piece { IfOk result (λ piece. (length piece ≡ count)
        × Consumes (R.remaining reader.old) (R.remaining reader.new) piece) }
    ensures refused { IfErr result (λ why. IfSome (R.remaining reader.old) (λ bytes.
        IsPieceRefused count bytes why)) }
{
    let mut bytes = vec![in alloc; 0; count]?;
    read_all(reader, &mut bytes)?;
    Ok(Piece::new(bytes))
}

// fills a buffer
fn read_all<R: Read>(reader: &mut R, buffer: &mut [u8]) -> Result<(), FrameError>
    ensures bytes { OnOk result (Consumes (R.remaining reader.old) (R.remaining reader.new) buffer.new) }
    ensures refused { IfErr result (λ why. IfSome (R.remaining reader.old) (λ bytes.
        IsPieceRefused (length buffer.old) bytes why)) }
{
    let mut from = 0;
    'reads: while from < buffer.len() {
        match read_more(reader, &mut buffer[from..])? {
            0 => return Err(FrameError::Broken),
            more => from += more,
        }
    }
    Ok(())
}

// one read, which is made again as long as it is interrupted; 0 at the end, or if there is no room
fn read_more<R: Read>(reader: &mut R, buffer: &mut [u8]) -> Result<usize, FrameError>
    ensures within { IfOk result (λ count. count ≤ length buffer.new) }
    ensures bytes { IfOk result (λ count. Consumes (R.remaining reader.old) (R.remaining reader.new)
        (take count buffer.new)) }
    ensures end { IfOk result (λ count. count ≡ 0 → 0 < length buffer.new →
        IsAtEnd (R.remaining reader.old)) }
    ensures failed { IfErr result (λ why. why ≡ Unreadable) }
{
    'tries: for _ in 0..u64::MAX {
        match reader.read(buffer) {
            Ok(count) => return Ok(count),
            Err(error) if error.kind() == ErrorKind::Interrupted => {}
            Err(_) => return Err(FrameError::Unreadable),
        }
    }
    Err(FrameError::Unreadable)
}
