//! Telling a session of durable changes, until its client or the service has something else for it.
ghost use Rattle.std.specs.Prelude.{◌≡◌, ◌∷◌, [], List, IfErr, IfNone, IfOk, OnOk};
ghost use Rattle.std.specs.Io.KnownBytes.{Appends, Keeps};
ghost use Rattle.reg_tree.specs.declared.element.Element.{Element as Change};
ghost use Rattle.served_replies.specs.ServedReplies.{served_texts};
ghost use Rattle.served_replies.specs.declared.reply.ServedReply.{ServedReply as AnyReply};
ghost use Rattle.registry_lines.specs.Interpreters.{script_of};
ghost use Rattle.registry_lines.specs.Scripts.{AsksNothing};
ghost use Rattle.store_server.specs.Following.{FollowsOn, MayFlush};
ghost use Rattle.store_server.specs.Steps.{IsFollowStep};
ghost use Rattle.store_server.specs.declared.following.FollowStep.TheVariants.{Ended};
ghost use Rattle.refusals.specs.declared.refusal.Refusal.TheVariants.{NoMemory};

use crate::client_lines::ClientLines;
use crate::own_lines::tell;
use crate::served_lines::LinesServed;
use crate::subject::Subject;
use client_desks::NewsWait;
use histories::Start;
use ktm_calls::FollowRefusal;
use refusals::Refusal;
use registry_lines::{Caller, Script};
use reply_lines::ReplyLine;
use served_replies::ServedReply;
use std::io::Write;
use std::sync::Wait;
use store_engine::StoreEngine;

/// What came of one question for durable changes.
#[derive(Drop)]
pub enum FollowStep {
    /// Some were told, up to this number.
    Told {
        /// The number.
        at: u64,
    },
    /// No later change is durable.
    UpToDate,
    /// No more are told, but this.
    Ended {
        /// What is told at last.
        last: ServedReply,
    },
}

// how far one who follows has come
#[derive(Clone, Copy, Debug, PartialEq, Eq)]
enum Stage {
    // others may have changes made
    Open,
    // the same, and a rest or a stop is asked for
    Ending,
    // nobody else can, and all that was accepted was asked to be durable
    Last,
}

/// Tells the durable changes after a number, and each later one as it becomes durable, until the client has something else for
/// the session or no more can be told, which is told at last. At a rest or a stop it ends once all other sessions have: what
/// they had accepted is made durable, and told. What is told is written out before anything else is waited for.
pub(crate) fn follow<E: StoreEngine, O: Start, R: Wait + Print, W: Write>(
    caller: &Caller<'_, E, O, R>,
    script: &mut Script<O>,
    lines: &ClientLines<'_, R>,
    writer: &mut W,
    subject: &Subject,
    after: u64,
) -> Result<(), LinesServed>
    ensures told { OnOk result ((chunks : List (List Change)) × (told : List AnyReply)
        × FollowsOn O.sole O.start O.trees O.number O.hives subject.now (script_of script.old) after chunks told
        (script_of script.new)
        × Appends (W.contents writer.old) (W.contents writer.new) (served_texts O.hives told)) }
    ensures unwritten { IfErr result (λ end. (end ≡ LinesServed.Unwritten)
        × MayFlush O.sole O.start O.trees O.number O.hives (script_of script.old) (script_of script.new)) }
{
    lines.follow();
    let followed = follow_on(caller, script, lines, writer, subject, after);
    lines.unfollow();
    followed
}

// the same, while the desk counts the session among those that follow
fn follow_on<E: StoreEngine, O: Start, R: Wait + Print, W: Write>(
    caller: &Caller<'_, E, O, R>,
    script: &mut Script<O>,
    lines: &ClientLines<'_, R>,
    writer: &mut W,
    subject: &Subject,
    after: u64,
) -> Result<(), LinesServed>
    ensures told { OnOk result ((chunks : List (List Change)) × (told : List AnyReply)
        × FollowsOn O.sole O.start O.trees O.number O.hives subject.now (script_of script.old) after chunks told
        (script_of script.new)
        × Appends (W.contents writer.old) (W.contents writer.new) (served_texts O.hives told)) }
    ensures unwritten { IfErr result (λ end. (end ≡ LinesServed.Unwritten)
        × MayFlush O.sole O.start O.trees O.number O.hives (script_of script.old) (script_of script.new)) }
{
    let mut at = after;
    let mut stage = Stage::Open;
    for _ in caller.rt.forever() {
        let news = lines.news();
        match follow_step(caller, script, writer, subject, at)? {
            FollowStep::Told { at: next } => at = next,
            FollowStep::Ended { last } => return tell(script, writer, &last),
            FollowStep::UpToDate => match next_stage(caller, script, lines, writer, stage, news)? {
                Some(next) => stage = next,
                None => return tell(script, writer, &ServedReply::Followed { number: at }),
            },
        }
    }
    unreachable!()
}

// Waits for news, if all is told that is durable. Nothing if no more is told. After `Ending` nothing is written out any more,
// so that what is told then goes together: after a stop the broker takes one piece at most.
fn next_stage<E: StoreEngine, O: Start, R: Wait + Print, W: Write>(
    caller: &Caller<'_, E, O, R>,
    script: &mut Script<O>,
    lines: &ClientLines<'_, R>,
    writer: &mut W,
    stage: Stage,
    news: u64,
) -> Result<Option<Stage>, LinesServed>
    ensures asks { MayFlush O.sole O.start O.trees O.number O.hives (script_of script.old) (script_of script.new) }
    ensures same { IfOk result (λ next. IfNone next (script_of script.new ≡ script_of script.old)) }
    ensures keeps { OnOk result (Keeps (W.contents writer.old) (W.contents writer.new)) }
    ensures unwritten { IfErr result (λ end. end ≡ LinesServed.Unwritten) }
{
    match stage {
        Stage::Last => return Ok(None),
        Stage::Ending if lines.is_followed_alone() => {
            // a refusal that the device gave is told as the service ends
            let _ = script.flush(caller);
            return Ok(Some(Stage::Last));
        }
        Stage::Ending => {}
        Stage::Open => {
            if writer.flush().is_err() {
                return Err(LinesServed::Unwritten);
            }
        }
    }
    Ok(match lines.wait_for_news(news, stage == Stage::Ending) {
        NewsWait::News => Some(stage),
        NewsWait::Ending => Some(Stage::Ending),
        NewsWait::Client => None,
    })
}

// tells the first of the durable changes after a number
fn follow_step<E: StoreEngine, O: Start, R: Wait + Print, W: Write>(
    caller: &Caller<'_, E, O, R>,
    script: &mut Script<O>,
    writer: &mut W,
    subject: &Subject,
    at: u64,
) -> Result<FollowStep, LinesServed>
    ensures quiet { AsksNothing (script_of script.old) (script_of script.new) }
    ensures told { IfOk result (IsFollowStep O.start O.number O.hives subject.now at (script_of script.new).session.seen
        (W.contents writer.old) (W.contents writer.new)) }
    ensures unwritten { IfErr result (λ end. end ≡ LinesServed.Unwritten) }
{
    let named = script.hives();
    match script.durable_changes(caller, at) {
        Ok(changes) => {
            if changes.is_empty() {
                return Ok(FollowStep::UpToDate);
            }
            let Some(next) = at.checked_add(changes.len() as u64) else {
                return Ok(lacks_memory());
            };
            match subject.tell(writer, named, at, changes) {
                Ok(()) => Ok(FollowStep::Told { at: next }),
                Err(_) => Err(LinesServed::Unwritten),
            }
        }
        Err(FollowRefusal::Ahead { last: after } | FollowRefusal::Discarded { from: after }) => {
            Ok(FollowStep::Ended {
                last: ServedReply::NotFound { after },
            })
        }
        Err(FollowRefusal::NoMemory) => Ok(lacks_memory()),
    }
}

// there is no memory to tell more
fn lacks_memory() -> FollowStep
    ensures { result ≡ Ended (AnyReply.Line (ReplyLine.Refused NoMemory)) }
{
    FollowStep::Ended {
        last: ServedReply::Line {
            reply: ReplyLine::Refused {
                refusal: Refusal::NoMemory,
            },
        },
    }
}
