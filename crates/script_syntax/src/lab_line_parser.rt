//! Reads the lines that only a laboratory takes.
ghost use Rattle.std.specs.Prelude.{◌≡◌};
ghost use Rattle.std.specs.Option.{option_copied};
ghost use Rattle.word_syntax.specs.Parts.{parts_of};
ghost use Rattle.script_syntax.specs.Lines.{call_in, device_line, hive_in, step_line, tear_in, tear_of};
ghost use Rattle.word_syntax.specs.Reads.{Reads};

use crate::lab_line::{CrashTear, LabLine};
use crate::line::Line;
use crate::line_parser::{alone, label_alone};
use crate::numbers::number;
use crate::served_line_parser::served_line;
use crate::word_parser::small_number;
use crate::words::one_word;
use std::alloc::Global;
use word_syntax::ParseError;

/// A line of a single step, one that has to do with the device, one of a served store, or a request alone.
pub(crate) fn step_line(alloc: Global, verb: &[u8], rest: Option<&[u8]>) -> Result<Line, ParseError>
    ensures { Reads result (step_line verb.now (parts_of 32 (option_copied rest.entry))) }
{
    if verb == b"accept".as_slice() {
        let label = label_alone(rest)?;
        Ok(lab(LabLine::Accept { label }))
    } else if verb == b"jstep".as_slice() {
        alone(lab(LabLine::JournalStep), rest)
    } else if verb == b"fstep".as_slice() {
        let hive = hive(rest)?;
        Ok(lab(LabLine::FlusherStep { hive }))
    } else if verb == b"tstep".as_slice() {
        alone(lab(LabLine::TrimStep), rest)
    } else if verb == b"fall".as_slice() {
        let hive = hive(rest)?;
        Ok(lab(LabLine::FlushWhole { hive }))
    } else {
        device_line(alloc, verb, rest)
    }
}

// a failure of the device to come, a loss of power, a line of a served store, or a request alone
fn device_line(alloc: Global, verb: &[u8], rest: Option<&[u8]>) -> Result<Line, ParseError>
    ensures { Reads result (device_line verb.now (parts_of 32 (option_copied rest.entry))) }
{
    if verb == b"stop".as_slice() {
        let call = call(rest)?;
        Ok(lab(LabLine::StopAt { call }))
    } else if verb == b"fail".as_slice() {
        let call = call(rest)?;
        Ok(lab(LabLine::FailAt { call }))
    } else if verb == b"crash".as_slice() {
        let tear = tear(one_word(rest)?)?;
        Ok(lab(LabLine::Crash { tear }))
    } else {
        served_line(alloc, verb, rest)
    }
}

fn lab(line: LabLine) -> Line
    ensures { result ≡ Line.Lab line }
{
    Line::Lab { line }
}

// the number of a hive
fn hive(rest: Option<&[u8]>) -> Result<u8, ParseError>
    ensures { Reads result (hive_in (parts_of 32 (option_copied rest.entry))) }
{
    small_number(one_word(rest)?, u8::MAX)
}

// which call it is: calls are counted from 1
fn call(rest: Option<&[u8]>) -> Result<u64, ParseError>
    ensures { Reads result (call_in (parts_of 32 (option_copied rest.entry))) }
{
    match number(one_word(rest)?, u64::MAX) {
        None | Some(0) => Err(ParseError::NotUnderstood),
        Some(call) => Ok(call),
    }
}

fn tear(word: &[u8]) -> Result<CrashTear, ParseError>
    ensures { Reads result (tear_of word.now) }
{
    if word == b"old".as_slice() {
        Ok(CrashTear::Old)
    } else if word == b"new".as_slice() {
        Ok(CrashTear::New)
    } else if word == b"torn".as_slice() {
        Ok(CrashTear::Torn)
    } else {
        Err(ParseError::NotUnderstood)
    }
}
