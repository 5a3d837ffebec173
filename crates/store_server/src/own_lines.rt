//! The lines that only a session of a served store takes.
ghost use Rattle.std.specs.Prelude.{◌≡◌, ◌<◌, ◌∷◌, [], ℕ, Err, IfErr, IfOk, IfSome, List, MatchOption, Ok, OnOk, Some, Option};
ghost use Rattle.std.specs.Io.KnownBytes.{Appends};
ghost use Rattle.reg_names.specs.Names.{path_of};
ghost use Rattle.served_replies.specs.ServedReplies.{served_texts};
ghost use Rattle.served_replies.specs.declared.reply.ServedReply.{ServedReply as AnyReply};
ghost use Rattle.script_syntax.specs.Lines.{line_of};
ghost use Rattle.script_syntax.specs.declared.line.Line.TheVariants as line;
ghost use Rattle.registry_lines.specs.Interpreters.{script_of};
ghost use Rattle.store_server.specs.OwnLines.{AnswersOwn, BacksUp, MayNotWatch, TellsStats, Watches};
ghost use Rattle.store_server.specs.declared.subject.Subject.TheVariants.{Key};

use crate::client_lines::ClientLines;
use crate::following::follow;
use crate::served_lines::LinesServed;
use crate::subject::Subject;
use histories::Start;
use refusals::Refusal;
use reg_names::Path;
use registry_lines::{Caller, Script};
use reply_lines::ReplyLine;
use script_runner::is_refusal;
use script_syntax::{KeyRef, Line, ServedLine, Text, read_line};
use served_replies::ServedReply;
use std::alloc::{AllocError, Global};
use std::io::Write;
use std::sync::Wait;
use store_backup::BackupFolder;
use store_engine::StoreEngine;
use word_syntax::ParseError;

/// The line that only a session of a served store takes, if the bytes are one.
pub(crate) fn own_line(alloc: Global, bytes: &[u8]) -> Result<Option<ServedLine>, AllocError>
    ensures { IfOk result (λ found. IfSome found (λ own. line_of bytes.now ≡ Some (line.Served own))) }
{
    match read_line(alloc, bytes) {
        Ok(Line::Served { line }) => Ok(Some(line)),
        Ok(_) | Err(ParseError::NotUnderstood) => Ok(None),
        Err(ParseError::NoMemory) => Err(AllocError),
    }
}

/// Answers such a line, and writes what is told. `Unwritten` if that fails.
pub(crate) fn answer_own<B: BackupFolder, E: StoreEngine, O: Start, R: Wait + Print, W: Write>(
    caller: &Caller<'_, E, O, R>,
    backups: &B,
    script: &mut Script<O>,
    lines: &ClientLines<'_, R>,
    writer: &mut W,
    line: ServedLine,
) -> Result<(), LinesServed>
    ensures told { OnOk result ((told : List AnyReply)
        × AnswersOwn B.holds O.store O.sole O.start O.trees O.number O.hives (script_of script.old) line told
        (script_of script.new)
        × Appends (W.contents writer.old) (W.contents writer.new) (served_texts O.hives told)) }
    ensures unwritten { IfErr result (λ end. (end ≡ LinesServed.Unwritten) × (told : List AnyReply)
        × AnswersOwn B.holds O.store O.sole O.start O.trees O.number O.hives (script_of script.old) line told
        (script_of script.new)) }
{
    match line {
        ServedLine::Backup { name } => {
            let reply = back_up(caller, backups, script, &name);
            lines.note_durable();
            tell(script, writer, &reply)
        }
        ServedLine::Follow { number } => {
            follow(caller, script, lines, writer, &Subject::All, number)
        }
        ServedLine::Watch { key_ref } => watch(caller, script, lines, writer, key_ref),
        ServedLine::Stats => {
            let reply = stats(caller, script, lines);
            tell(script, writer, &reply)
        }
    }
}

// how full the store is, and how many clients there are and wait
fn stats<E: StoreEngine, O: Start, R: Wait + Print>(
    caller: &Caller<'_, E, O, R>,
    script: &mut Script<O>,
    lines: &ClientLines<'_, R>,
) -> ServedReply
    ensures { TellsStats O.start O.number (script_of script.old) (result ∷ []) (script_of script.new) }
{
    let stats = script.stats(caller);
    ServedReply::Stats {
        number: stats.number,
        durable: stats.durable,
        room: stats.room,
        clients: lines.clients() as u64,
        waiting: stats.waiting,
    }
}

// makes a copy of the store as of all that was accepted, once it is durable
fn back_up<B: BackupFolder, E: StoreEngine, O: Start, R: Wait>(
    caller: &Caller<'_, E, O, R>,
    backups: &B,
    script: &mut Script<O>,
    name: &Text,
) -> ServedReply
    ensures { BacksUp B.holds O.store O.sole O.start O.trees O.number O.hives (script_of script.old) (result ∷ [])
        (script_of script.new) }
{
    let snapshot = match script.snapshot(caller) {
        Ok(snapshot) => snapshot,
        Err(refusal) => return refused(refusal),
    };
    let reply = script.flush(caller);
    if is_refusal(&reply) {
        return ServedReply::Line { reply };
    }
    match backups.save(caller.alloc, name.units(), &snapshot) {
        Ok(()) => ServedReply::Saved {
            number: snapshot.number,
        },
        Err(refusal) => refused(refusal),
    }
}

// tells the number of the last change, and then of each later one that meets a key
fn watch<E: StoreEngine, O: Start, R: Wait + Print, W: Write>(
    caller: &Caller<'_, E, O, R>,
    script: &mut Script<O>,
    lines: &ClientLines<'_, R>,
    writer: &mut W,
    key_ref: KeyRef,
) -> Result<(), LinesServed>
    ensures told { OnOk result ((told : List AnyReply)
        × Watches O.sole O.start O.trees O.number O.hives (script_of script.old) key_ref told (script_of script.new)
        × Appends (W.contents writer.old) (W.contents writer.new) (served_texts O.hives told)) }
    ensures unwritten { IfErr result (λ end. (end ≡ LinesServed.Unwritten) × (told : List AnyReply)
        × Watches O.sole O.start O.trees O.number O.hives (script_of script.old) key_ref told (script_of script.new)) }
{
    let subject = match subject_of(caller.alloc, script.hives(), key_ref) {
        Ok(subject) => subject,
        Err(refusal) => return tell(script, writer, &refused(refusal)),
    };
    let number = match script.snapshot(caller) {
        Ok(snapshot) => snapshot.number,
        Err(refusal) => return tell(script, writer, &refused(refusal)),
    };
    tell(script, writer, &ServedReply::Watching { number })?;
    follow(caller, script, lines, writer, &subject, number)
}

// the key that is watched
fn subject_of(alloc: Global, hives: usize, key_ref: KeyRef) -> Result<Subject, Refusal>
    ensures subject { IfOk result (λ subject. (path : List (List ℕ)) × (path_of key_ref.path ≡ Ok path)
        × (subject ≡ Key key_ref.hive path) × (key_ref.hive < hives)) }
    ensures refused { IfErr result (MayNotWatch hives key_ref) }
{
    let KeyRef { hive, path } = key_ref;
    let path = Path::parse(alloc, path.units())?;
    if usize::from(hive) >= hives {
        return Err(Refusal::NotFound);
    }
    Ok(Subject::Key { hive, path })
}

// a refusal
fn refused(refusal: Refusal) -> ServedReply
    ensures { result ≡ AnyReply.Line (ReplyLine.Refused refusal) }
{
    ServedReply::Line {
        reply: ReplyLine::Refused { refusal },
    }
}

// writes one reply
pub(crate) fn tell<O: Start, W: Write>(
    script: &Script<O>,
    writer: &mut W,
    reply: &ServedReply,
) -> Result<(), LinesServed>
    ensures told { OnOk result (Appends (W.contents writer.old) (W.contents writer.new)
        (served_texts O.hives (reply.now ∷ []))) }
    ensures unwritten { IfErr result (λ end. end ≡ LinesServed.Unwritten) }
{
    match reply.write(writer, script.hives()) {
        Ok(()) => Ok(()),
        Err(_) => Err(LinesServed::Unwritten),
    }
}
