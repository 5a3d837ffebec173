//! What a terminal shows beside the replies: how far long work has come, and why something can't be done. Also whether
//! lines are typed at one.
use crate::hint::Hint;
use crate::input_file::{is_standard_input, length_of};
use crate::served_file::socket_of;
use crate::usages::{USAGES, Usage};
use progress_line::{ProgressLine, Work, WorkStage};
use reply_lines::Status;
use std::io::{self, Eprint, IsTerminal};
use std::rt::{Env, Files};
use std::time::Clock;

/// The variable of the environment by which a caller asks for hints, if it is `1`.
const ASKED_BY: &str = "REGTX_HINTS";

/// What standard error shows, which is nothing unless it is a terminal or hints are asked for; and whether standard input
/// is a terminal.
#[derive(Clone, Copy)]
pub struct TerminalOutput {
    // why something can't be done
    hints: bool,
    // how far long work has come, in a line
    line: bool,
    is_typed: bool,
}

impl TerminalOutput {
    /// What the three standard streams allow. If the replies go to a terminal too, they show enough of long work, and a
    /// line between them would spoil them. Hints are also for whoever reads standard error and asks for them.
    pub fn of<R: Env, E: IsTerminal, O: IsTerminal, I: IsTerminal>(
        rt: &R,
        errors: &E,
        replies: &O,
        input: &I,
    ) -> TerminalOutput {
        let is_terminal = errors.is_terminal();
        TerminalOutput {
            hints: is_terminal || are_hints_asked(rt),
            line: is_terminal && !replies.is_terminal(),
            is_typed: input.is_terminal(),
        }
    }

    /// Whether a person types what the file of this word gives.
    pub fn is_typed(self, word: &str) -> bool {
        self.is_typed && is_standard_input(word)
    }

    /// A line for work that begins with this stage, if lines are shown.
    pub fn line<R: Eprint + Clock>(self, rt: &R, first: WorkStage) -> Option<ProgressLine<'_, R>> {
        if self.line {
            Some(ProgressLine::new(rt, first))
        } else {
            None
        }
    }

    /// Says why something can't be done, if there is a hint.
    pub fn hint<R: Eprint + AllocGlobal>(self, rt: &R, hint: Option<Hint<'_>>) {
        if let Some(hint) = hint {
            if self.hints {
                hint.say(rt, rt.alloc());
            }
        }
    }

    /// Says why nothing could be begun, if there is a hint. Of a store that another program has it says at which socket that
    /// serves it, if the folder tells.
    pub fn hint_at_start<R: Files + Eprint + AllocGlobal>(self, rt: &R, hint: Option<Hint<'_>>) {
        let folder = match hint {
            Some(hint) if self.hints => hint.folder_in_use(),
            _ => None,
        };
        match (
            hint,
            folder.and_then(|folder| socket_of(rt, rt.alloc(), folder)),
        ) {
            (Some(hint), Some(socket)) => self.hint(rt, Some(hint.served_at(&socket))),
            _ => self.hint(rt, hint),
        }
    }

    /// The status of what was printed. A write that failed makes it that of a refusal, and why it failed is said.
    pub fn status<R: Eprint + AllocGlobal>(self, rt: &R, printed: io::Result<Status>) -> Status {
        match printed {
            Ok(status) => status,
            Err(error) => {
                self.hint(rt, Some(Hint::unwritten(error)));
                Status::Refused
            }
        }
    }

    /// Says how a command is used, or each of them if this is no command's name.
    pub fn usage<R: Eprint>(self, rt: &R, name: Option<&str>) {
        if self.hints && !print_usage(rt, name) {
            for usage in &USAGES {
                let _ = eprintln!(rt; "{usage}");
            }
        }
    }
}

// whether the environment asks for hints
fn are_hints_asked<R: Env>(rt: &R) -> bool {
    let mut text = [0; 1];
    matches!(rt.var(ASKED_BY, &mut text), Ok(1)) && text == *b"1"
}

// says how the command of this name is used; whether there is one
fn print_usage<R: Eprint>(rt: &R, name: Option<&str>) -> bool {
    for usage in &USAGES {
        if name == Some(usage.name) {
            let _ = eprintln!(rt; "{usage}");
            return true;
        }
    }
    false
}

/// The work is done: its line, if it has one, goes away.
pub fn end<R: Eprint + Clock>(line: Option<ProgressLine<'_, R>>) {
    if let Some(line) = line {
        line.end();
    }
}

/// The stage in which the file of this path is read.
pub fn reading<R: Files>(rt: &R, work: Work, path: &str) -> WorkStage {
    WorkStage {
        work,
        whole: length_of(rt, path),
    }
}
