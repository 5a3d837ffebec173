//! The visit of one client.
ghost use Rattle.std.specs.Prelude.{◌≡◌};
ghost use Rattle.registry_lines.specs.Interpreters.{script_of};
ghost use Rattle.store_server.specs.Visits.{HasServed, ServesClient};

use crate::client_lines::ClientLines;
use crate::clients::Clients;
use crate::served_lines::{LinesServed, serve_lines};
use crate::served_script::{ServedScript, Workplace};
use crate::session_ends::SessionEnds;
use client_desks::{Desk, DeskWriter, InputEnd};
use histories::Start;
use ktm_calls::Asker;
use refusals::Refusal;
use registry_lines::{Caller, Script};
use reply_lines::ReplyLine;
use script_loop::wrong;
use std::io;
use std::io::Write;
use std::sync::Wait;
use store_backup::BackupFolder;
use store_engine::StoreEngine;

/// Where the session of a client begins.
#[derive(Clone, Copy)]
pub struct VisitStart {
    /// The moment of what follows.
    pub moment: u64,
    /// The number of the next line, from 1 on.
    pub line: u64,
    /// Whether the client goes on after a rest. If it doesn't, it is told that its session was opened.
    pub is_resumed: bool,
}

// how a visit ends
#[derive(Clone, Copy)]
enum VisitEnd {
    // the client's session has ended for good
    Left,
    // the client stays, and goes on with this line
    Rests { line: u64 },
}

impl<B: BackupFolder> Clients<'_, B> {
    /// Serves a client from here to its last line, or to a rest. Its session ends with all of its transactions, whatever
    /// ended the lines; then its place is free, or the client waits for its next session.
    pub(crate) fn serve_client<E: StoreEngine, O: Start, R: Wait + Print>(
        &self,
        caller: &Caller<'_, E, O, R>,
        desk: Desk<'_>,
        start: VisitStart,
        asker: Asker<O>,
    ) -> (Asker<O>, SessionEnds)
        ensures { ServesClient B.holds O.store O.sole O.start O.trees O.number O.hives asker result.0 result.1 }
    {
        let mut writer = DeskWriter::new(caller.rt, caller.alloc, desk);
        let script = match Script::begin(caller, asker, start.moment) {
            Ok(script) => script,
            Err((why, asker)) => {
                // a client that can't be told has gone
                let _ = tell(&mut writer, why);
                desk.clear(caller.rt);
                return (asker, SessionEnds::Granted);
            }
        };
        let mut session = ServedScript::new(caller.alloc, script);
        let end = self.serve_session(caller, desk, start, &mut session, &mut writer);
        let moment = session.script.moment;
        let open = session.open.count();
        let (asker, ends) = session.finish(caller);
        if ends == SessionEnds::Denied {
            // its transactions stay open up to the end of the service
            self.desks.stop(caller.rt);
        }
        self.units.leave_all(caller.rt, desk.place());
        self.share.close_transactions(caller.rt, self.desks, open);
        match end {
            VisitEnd::Left => desk.clear(caller.rt),
            VisitEnd::Rests { line } => desk.park(caller.rt, moment, line),
        }
        (asker, ends)
    }

    // tells a client that its session was opened, and serves its lines; all replies were written, or nobody reads them
    fn serve_session<E: StoreEngine, O: Start, R: Wait + Print>(
        &self,
        caller: &Caller<'_, E, O, R>,
        desk: Desk<'_>,
        start: VisitStart,
        session: &mut ServedScript<O>,
        writer: &mut DeskWriter<'_, R>,
    ) -> VisitEnd
        ensures { HasServed B.holds O.store O.sole O.start O.trees O.number O.hives (script_of session.old.script)
            (script_of session.new.script) }
    {
        let flushed = session.script.flush(caller);
        if self.welcome(caller, start, &flushed, writer).is_err() {
            return VisitEnd::Left;
        }
        let lines = ClientLines::new(
            caller.rt,
            caller.alloc,
            self.desks,
            desk,
            self.share,
            start.line,
        );
        let Ok(mut lines) = lines else {
            let _ = tell(writer, Refusal::NoMemory);
            return VisitEnd::Left;
        };
        let at = Workplace {
            place: desk.place(),
            units: self.units,
            share: self.share,
            desks: self.desks,
            backups: self.backups,
        };
        let served = serve_lines(caller, &at, session, &mut lines, writer);
        let _ = write_end(served, &lines, writer);
        let _ = writer.flush();
        match lines.end() {
            Some(InputEnd::Rest) if served == LinesServed::Over => VisitEnd::Rests {
                line: lines.number,
            },
            _ => VisitEnd::Left,
        }
    }

    // tells up to which change all is durable as a client comes, which its session sees; or why that isn't so
    fn welcome<E: StoreEngine, O: Start, R: Wait + Print, W: Write>(
        &self,
        caller: &Caller<'_, E, O, R>,
        start: VisitStart,
        flushed: &ReplyLine,
        writer: &mut W,
    ) -> io::Result<()> {
        let ReplyLine::Flushed { number } = flushed else {
            flushed.write(writer)?;
            writer.flush()?;
            return Err(io::ErrorKind::Other.into());
        };
        self.share.note_opening(caller.rt, *number);
        self.desks.tell_news(caller.rt);
        if start.is_resumed {
            return Ok(());
        }
        writeln!(writer, "opened {number}")?;
        writer.flush()
    }
}

// writes a refusal as a line of its own, and writes it out
fn tell<W: Write>(writer: &mut W, refusal: Refusal) -> io::Result<()> {
    ReplyLine::Refused { refusal }.write(writer)?;
    writer.flush()
}

// tells why no line of a client is read any more, unless that is what the client asked for
fn write_end<R: Wait + Print, W: Write>(
    served: LinesServed,
    lines: &ClientLines<'_, R>,
    writer: &mut W,
) -> io::Result<()> {
    match (served, lines.end()) {
        (LinesServed::NotUnderstood, _) => wrong(writer, lines.number.saturating_sub(1)).map(
            |_| (),
        ),
        (LinesServed::OutOfMemory, _) | (LinesServed::Over, Some(InputEnd::NoMemory)) => {
            tell(writer, Refusal::NoMemory)
        }
        (LinesServed::Over, Some(InputEnd::TooLong)) => tell(writer, Refusal::TooLarge),
        _ => Ok(()),
    }
}
