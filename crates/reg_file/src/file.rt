//! Registration files.
ghost use Rattle.std.specs.Prelude.{◌≡◌, ◌+◌, ◌<◌, ◌≤◌, ◌^◌, [], ◌∷◌, ◌++◌, IfOk, IfSome, OnOk, Some, None, false, length, ℕ, List, map, ◌⊎◌};
ghost use Rattle.std.specs.Option.{option_copied};
ghost use Rattle.reg_file.specs.Files.{reg_file_of, lines_file, file_from, onto_file, after_turn};
ghost use Rattle.reg_file.specs.Lines.{lines_left, file_lines};
ghost use Rattle.reg_file.specs.Grammar.{IsFile, IsStopped, IsNoHeader};
ghost use Rattle.reg_file.specs.declared.statement.NumberedStatement.{NumberedStatement};
ghost use Rattle.reg_file.specs.Views.{lines_of, left_of, GoesOnBy, StopsOrLess};

use crate::fault::{Fault, FaultKind};
use crate::header::header;
use crate::lines::{Lines, NextLine};
use crate::statement::NumberedStatement;
use crate::turn::{Item, Turn, take_end, take_line, take_no_text};
use std::alloc::{AllocError, Global};
use std::marker::Model;

/// Statements in the order of the file.
#[derive(Drop)]
pub struct Statements {
    statements: Vec<NumberedStatement>,
}

impl Model for Statements {
    ghost use Rattle.std.specs.Prelude.{List};
    ghost use Rattle.reg_file.specs.declared.statement.NumberedStatement.{NumberedStatement};

    ghost Value = { List NumberedStatement };

    ghost view = { λ inside. inside.statements.items };
}

impl Statements {
    fn new(alloc: Global) -> Statements
        ensures { result ≡ [] }
    {
        Statements {
            statements: Vec::new(alloc),
        }
    }

    fn push(&mut self, statement: NumberedStatement) -> Result<(), AllocError>
        ensures { OnOk result (self.new ≡ self.old ++ statement ∷ []) }
    {
        self.statements.push(statement)?;
        Ok(())
    }

    /// The statements in order.
    pub fn as_slice(&self) -> &[NumberedStatement]
        ensures { result.now ≡ self.now }
    {
        &self.statements
    }

    /// The statements as a vector, without taking memory.
    pub fn into_vec(self) -> Vec<NumberedStatement>
        ensures { result.items ≡ self }
    {
        self.statements
    }
}

/// What a registration file has.
#[derive(Drop)]
pub struct RegFile {
    /// The statements before the first fault, or all.
    pub statements: Statements,
    /// The first fault, if there is one.
    pub fault: Option<Fault>,
}

/// The statements of a file's bytes in order, up to its first fault, and that fault.
///
/// The old form is that of a file whose first line is `REGEDIT4`. UTF-16 is read behind its mark FF FE, and UTF-8 behind
/// its mark EF BB BF. Without a mark a file of the old form is text in Windows' code page 1252, even if it would be UTF-8
/// too, and any other file is UTF-8. In the old form the bytes of a list of type 1, 2 or 7 are text in the code page: its
/// data are the units of that text. A line ends with a line feed, or with a carriage return and a line feed. A fault has
/// the number of the first line of what is wrong, from 1.
///
/// | fault | where it stands |
/// |---|---|
/// | `NoHeader` | the first line is none of the two headers |
/// | `NotText` | a line of the statement, or the first line, isn't well formed in the file's encoding |
/// | `NotUnderstood` | no statement, remark or empty line begins here |
/// | `NoKey` | a value's statement begins here, and no key is current |
/// | `TooLarge` | a statement begins here whose lines have more than 4,194,304 units, with the line feeds between them |
///
/// The lines of a statement are taken in order, and each has to be text before it is read. A list with something wrong in
/// it is refused where its last line ends. `NoKey` and `TooLarge` are told of a statement that is understood, in this
/// order.
pub fn parse(alloc: Global, bytes: &[u8]) -> Result<RegFile, AllocError>
    // What is parsed, with a fault or without.
    ensures exact { IfOk result (λ file. file ≡ reg_file_of bytes.now) }
    // Without a fault the lines are a file with these statements.
    ensures whole { IfOk result (λ file. file.fault ≡ None →
        (lines : List (List ℕ)) × (file_lines bytes.now ≡ map Some lines) × IsFile lines file.statements) }
    // A file with statements is parsed to them, without a fault.
    ensures read { (lines : List (List ℕ)) (statements : List NumberedStatement) →
        file_lines bytes.now ≡ map Some lines → IsFile lines statements →
        IfOk result (λ file. file ≡ record { statements = statements; fault = None }) }
    // A fault stands behind entries with these statements, or in the first line.
    ensures fault { IfOk result (λ file. IfSome file.fault (λ fault.
        IsStopped (file_lines bytes.now) file.statements fault
        ⊎ IsNoHeader (file_lines bytes.now) file.statements fault)) }
{
    parse_lines(alloc, bytes)
}

fn parse_lines(alloc: Global, bytes: &[u8]) -> Result<RegFile, AllocError>
    ensures { IfOk result (λ file. file ≡ reg_file_of bytes.now) }
{
    let mut lines = Lines::new(alloc, bytes)?;
    let mut line = Vec::new(alloc);
    match lines.next_line(&mut line)? {
        NextLine::Text => match header(&line) {
            Some(old) => read_statements(alloc, lines, old),
            None => Ok(stopped(alloc, 1, FaultKind::NoHeader)),
        },
        NextLine::NotText => Ok(stopped(alloc, 1, FaultKind::NotText)),
        NextLine::End => Ok(stopped(alloc, 1, FaultKind::NoHeader)),
    }
}

// a file that a fault ends
fn stopped(alloc: Global, line: u64, kind: FaultKind) -> RegFile
    ensures { result ≡ record { statements = []; fault = Some (record { line = line; kind = kind }) } }
{
    let fault = Fault { line, kind };
    RegFile {
        statements: Statements::new(alloc),
        fault: Some(fault),
    }
}

// the statements of the lines behind the header
fn read_statements(alloc: Global, lines: Lines, old: bool) -> Result<RegFile, AllocError>
    requires { left_of lines + 2 < 2 ^ 64 }
    ensures { IfOk result (λ file. file ≡ file_from old false 2 None (lines_of lines.entry)) }
{
    let mut lines = lines;
    let mut statements = Statements::new(alloc);
    let mut line = Vec::new(alloc);
    let mut number = 2;
    let mut has_key = false;
    let mut item = None;
    'lines: loop {
        match next_turn(alloc, old, has_key, number, item, &mut lines, &mut line)? {
            Turn::Next {
                has_key: key,
                item: pending,
            } => {
                has_key = key;
                item = pending;
            }
            Turn::Done {
                has_key: key,
                statement,
            } => {
                statements.push(statement)?;
                has_key = key;
                item = None;
            }
            Turn::Stop { fault } => return Ok(RegFile { statements, fault }),
        }
        number += 1;
    }
}

// what the next line does, which is read into `line`
fn next_turn(
    alloc: Global,
    old: bool,
    has_key: bool,
    number: u64,
    item: Option<Item>,
    lines: &mut Lines,
    line: &mut Vec<u16>,
) -> Result<Turn, AllocError>
    ensures turn { IfOk result (λ turn. GoesOnBy old has_key number item lines.old turn lines.new) }
    ensures left { IfOk result (λ turn. StopsOrLess turn (left_of lines.old) (left_of lines.new)) }
{
    match lines.next_line(line)? {
        NextLine::Text => take_line(alloc, old, has_key, number, item, line),
        NextLine::NotText => Ok(take_no_text(number, item)),
        NextLine::End => Ok(take_end(item)),
    }
}
