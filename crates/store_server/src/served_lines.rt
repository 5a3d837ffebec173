//! The lines of a client, one after another.
ghost use Rattle.std.specs.Prelude.{◌≡◌, IfErr, List, OnOk, ℕ};
ghost use Rattle.std.specs.Io.KnownBytes.{Appends, Keeps};
ghost use Rattle.reply_lines.specs.Replies.{reply_line};
ghost use Rattle.served_replies.specs.ServedReplies.{served_texts};
ghost use Rattle.served_replies.specs.declared.reply.ServedReply.{ServedReply as AnyReply};
ghost use Rattle.registry_lines.specs.Interpreters.{script_of};
ghost use Rattle.store_server.specs.OwnLines.{AnswersTold};
ghost use Rattle.store_server.specs.Visits.{ServesLines};

use crate::client_lines::ClientLines;
use crate::own_lines::{answer_own, own_line};
use crate::served_script::{ServedScript, Workplace};
use histories::Start;
use registry_lines::Caller;
use reply_lines::ReplyLine;
use script_loop::EndOfScript;
use std::alloc::AllocError;
use std::io;
use std::io::Write;
use std::sync::Wait;
use store_backup::BackupFolder;
use store_engine::StoreEngine;

/// How the lines of a client end.
#[derive(Clone, Copy, Debug, PartialEq, Eq)]
pub enum LinesServed {
    /// No further line is read.
    Over,
    /// The last line that was read is none.
    NotUnderstood,
    /// There was no memory for a line.
    OutOfMemory,
    /// A reply could not be written. Its line was carried out.
    Unwritten,
}

/// Reads the lines of a client and lets each be answered, up to one that is none. A reply is written out before its session
/// waits for a further line.
pub fn serve_lines<B: BackupFolder, E: StoreEngine, O: Start, R: Wait + Print, W: Write>(
    caller: &Caller<'_, E, O, R>,
    at: &Workplace<'_, B>,
    session: &mut ServedScript<O>,
    lines: &mut ClientLines<'_, R>,
    writer: &mut W,
) -> LinesServed
    ensures { ServesLines B.holds O.store O.sole O.start O.trees O.number O.hives (script_of session.old.script)
        (W.contents writer.old) result (script_of session.new.script) (W.contents writer.new) }
{
    for _ in 0..u64::MAX {
        match serve_line(caller, at, session, lines, writer) {
            Ok(()) => {}
            Err(end) => return end,
        }
    }
    LinesServed::Over
}

// reads a line and writes the replies to it
fn serve_line<B: BackupFolder, E: StoreEngine, O: Start, R: Wait + Print, W: Write>(
    caller: &Caller<'_, E, O, R>,
    at: &Workplace<'_, B>,
    session: &mut ServedScript<O>,
    lines: &mut ClientLines<'_, R>,
    writer: &mut W,
) -> Result<(), LinesServed>
    ensures served { OnOk result ((bytes : List ℕ) × (told : List AnyReply)
        × AnswersTold B.holds O.store O.sole O.start O.trees O.number O.hives (script_of session.old.script) bytes told
        (script_of session.new.script)
        × Appends (W.contents writer.old) (W.contents writer.new) (served_texts O.hives told)) }
    ensures ended { IfErr result (λ end. ServesLines B.holds O.store O.sole O.start O.trees O.number O.hives
        (script_of session.old.script) (W.contents writer.old) end (script_of session.new.script)
        (W.contents writer.new)) }
{
    match lines.next_line(session.open.count() == 0) {
        Ok(()) => {}
        Err(EndOfScript::OutOfMemory) => return Err(LinesServed::OutOfMemory),
        Err(_) => return Err(LinesServed::Over),
    }
    match session.reply_to(caller, at, lines.bytes()) {
        Ok(Some(reply)) => {
            lines.note_reply(&reply);
            match write_reply(writer, &reply, lines.has_line()) {
                Ok(()) => Ok(()),
                Err(_) => Err(LinesServed::Unwritten),
            }
        }
        Ok(None) => serve_own_line(caller, at, session, lines, writer),
        Err(AllocError) => Err(LinesServed::OutOfMemory),
    }
}

// serves the line that was read, which scripts don't have
fn serve_own_line<B: BackupFolder, E: StoreEngine, O: Start, R: Wait + Print, W: Write>(
    caller: &Caller<'_, E, O, R>,
    at: &Workplace<'_, B>,
    session: &mut ServedScript<O>,
    lines: &ClientLines<'_, R>,
    writer: &mut W,
) -> Result<(), LinesServed>
    ensures served { OnOk result ((bytes : List ℕ) × (told : List AnyReply)
        × AnswersTold B.holds O.store O.sole O.start O.trees O.number O.hives (script_of session.old.script) bytes told
        (script_of session.new.script)
        × Appends (W.contents writer.old) (W.contents writer.new) (served_texts O.hives told)) }
    ensures ended { IfErr result (λ end. ServesLines B.holds O.store O.sole O.start O.trees O.number O.hives
        (script_of session.old.script) (W.contents writer.old) end (script_of session.new.script)
        (W.contents writer.new)) }
{
    match own_line(caller.alloc, lines.bytes()) {
        Ok(Some(line)) => {
            answer_own(caller, at.backups, &mut session.script, lines, writer, line)?;
            match flush_unless_followed(writer, lines.has_line()) {
                Ok(()) => Ok(()),
                Err(_) => Err(LinesServed::Unwritten),
            }
        }
        Ok(None) => Err(LinesServed::NotUnderstood),
        Err(AllocError) => Err(LinesServed::OutOfMemory),
    }
}

// writes a reply, and writes it out unless another line follows at once, whose reply goes with it
fn write_reply<W: Write>(writer: &mut W, reply: &ReplyLine, is_followed: bool) -> io::Result<()>
    ensures { OnOk result (Appends (W.contents writer.old) (W.contents writer.new)
        (reply_line reply.now)) }
{
    reply.write(writer)?;
    flush_unless_followed(writer, is_followed)
}

// writes out what was written, unless another line follows at once
fn flush_unless_followed<W: Write>(writer: &mut W, is_followed: bool) -> io::Result<()>
    ensures { Keeps (W.contents writer.old) (W.contents writer.new) }
{
    if !is_followed {
        writer.flush()?;
    }
    Ok(())
}
