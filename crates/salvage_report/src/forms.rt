//! What is left of a hive, in each form of an export.
ghost use Rattle.std.specs.Prelude.{◌≡◌, List, Ok, Some, IfOk};
ghost use Rattle.std.specs.List.{flat_map};
ghost use Rattle.hive_salvage.specs.Events.{Event};
ghost use Rattle.reg_export.specs.RegTexts.{reg_key_lines};
ghost use Rattle.reg_export.specs.Encodings.{Prints};
ghost use Rattle.salvage_report.specs.Told.{is_among, rows_shown};
ghost use Rattle.salvage_report.specs.Reports.{IsFoundIn, Reports, RegReported, JsonReported, TsvReported};

use crate::damaged_hive::DamagedHive;
use crate::printer::{PrintError, SalvagePrinter};
use crate::seeker::Seeker;
use crate::totals::Totals;
use hive_salvage::{SalvageError, salvage};
use key_walk::KeySink;
use refusals::Refusal;
use reg_export::{Encoding, JsonSink, RegSink, TsvSink, write_reg_header};
use reg_names::Name;
use std::alloc::Global;
use std::io::{self, Write};

// the number as which the hive of a file is printed
const HIVE: u8 = 0;

const _: () = prove!(HIVE == 0);

/// Why a salvage isn't printed whole.
#[derive(Drop)]
pub enum ReportError {
    /// A refusal, such as want of memory.
    Refused(Refusal),
    /// A write of keys or of losses failed.
    Write(io::Error),
}

impl From<io::Error> for ReportError {
    ghost use Rattle.salvage_report.specs.declared.forms.ReportError.TheVariants as report_error;

    ghost from_gives = { λ error report. report ≡ report_error.Write error };

    fn from(error: io::Error) -> ReportError {
        ReportError::Write(error)
    }
}

/// Prints the beginning of a registration file, and in it the keys at a path and below it, behind a prefix. Losses are told. A key
/// with a name that the file can't show is left out, and this is told.
pub fn print_reg<W: Write, L: Write>(
    alloc: Global,
    hive: &DamagedHive,
    encoding: Encoding,
    prefix: &[u8],
    path: &[Name],
    writer: &mut W,
    losses: &mut L,
) -> Result<Totals, ReportError>
    ensures { IfOk result (λ totals. RegReported hive.now encoding prefix.now path.now
        (W.contents writer.old) (W.contents writer.new) (L.contents losses.old)
        (L.contents losses.new) totals) }
{
    match write_reg_header(writer, encoding) {
        Ok(()) => {}
        Err(error) => return Err(ReportError::Write(error)),
    }
    print_reg_lines(alloc, hive, encoding, prefix, path, writer, losses)
}

// prints the keys of a registration file
fn print_reg_lines<W: Write, L: Write>(
    alloc: Global,
    hive: &DamagedHive,
    encoding: Encoding,
    prefix: &[u8],
    path: &[Name],
    writer: &mut W,
    losses: &mut L,
) -> Result<Totals, ReportError>
    ensures { IfOk result (λ totals. (events : List Event)
        × Reports hive.now (Some encoding) path.now (L.contents losses.old) (L.contents losses.new) totals events
        × Prints encoding (W.contents writer.old) (W.contents writer.new)
        (flat_map (reg_key_lines prefix.now) (rows_shown (Some encoding, path.now) events))) }
{
    let mut keys = RegSink {
        writer,
        encoding,
        prefix,
    };
    counted(walk_keys(alloc, hive, Some(encoding), path, &mut keys, losses))
}

/// Prints lines of JSON for the keys at a path and below it. Losses are told.
pub fn print_json<W: Write, L: Write>(
    alloc: Global,
    hive: &DamagedHive,
    path: &[Name],
    writer: &mut W,
    losses: &mut L,
) -> Result<Totals, ReportError>
    ensures { IfOk result (λ totals. JsonReported hive.now path.now (W.contents writer.old)
        (W.contents writer.new) (L.contents losses.old) (L.contents losses.new) totals) }
{
    let mut keys = JsonSink { writer, hive: HIVE };
    counted(walk_keys(alloc, hive, None, path, &mut keys, losses))
}

/// Prints lines of fields between tabs for the keys at a path and below it. Losses are told.
pub fn print_tsv<W: Write, L: Write>(
    alloc: Global,
    hive: &DamagedHive,
    path: &[Name],
    writer: &mut W,
    losses: &mut L,
) -> Result<Totals, ReportError>
    ensures { IfOk result (λ totals. TsvReported hive.now path.now (W.contents writer.old)
        (W.contents writer.new) (L.contents losses.old) (L.contents losses.new) totals) }
{
    let mut keys = TsvSink { writer, hive: HIVE };
    counted(walk_keys(alloc, hive, None, path, &mut keys, losses))
}

// hands a printer of keys those of a hive, and tells losses
fn walk_keys<'a, K: KeySink, L: Write>(
    alloc: Global,
    hive: &DamagedHive,
    encoding: Option<Encoding>,
    path: &'a [Name],
    keys: &'a mut K,
    losses: &'a mut L,
) -> Result<Totals, SalvageError<PrintError<K::Error>>>
    ensures { IfOk result (λ totals. (events : List Event)
        × Reports hive.now encoding path.now (L.contents losses.old) (L.contents losses.new) totals events
        × K.Took keys.old keys.new (rows_shown (encoding, path.now) events)) }
{
    let mut printer = SalvagePrinter {
        keys,
        losses,
        encoding,
        path,
        totals: Totals::none(),
    };
    match salvage(alloc, &hive.image, hive.root, hive.minor, &mut printer) {
        Ok(()) => Ok(printer.totals),
        Err(error) => Err(error),
    }
}

// the totals of a walk that came to its end
fn counted(
    walked: Result<Totals, SalvageError<PrintError<io::Error>>>,
) -> Result<Totals, ReportError>
    ensures { IfOk result (λ totals. walked ≡ Ok totals) }
{
    match walked {
        Ok(totals) => Ok(totals),
        Err(SalvageError::NoMemory) => Err(ReportError::Refused(Refusal::NoMemory)),
        Err(SalvageError::NoRoot(why)) => Err(ReportError::Refused(why)),
        Err(SalvageError::Sink(PrintError::Keys(error))) => Err(ReportError::Write(error)),
        Err(SalvageError::Sink(PrintError::Losses(error))) => Err(ReportError::Write(error)),
    }
}

/// Whether a key at a path or below it is found.
pub fn is_found(alloc: Global, hive: &DamagedHive, path: &[Name]) -> Result<bool, Refusal>
    ensures { IfOk result (λ is. (events : List Event) × IsFoundIn hive.now events
        × (is ≡ is_among path.now events)) }
{
    let mut seeker = Seeker { path, found: false };
    match salvage(alloc, &hive.image, hive.root, hive.minor, &mut seeker) {
        Ok(()) => Ok(seeker.found),
        Err(SalvageError::NoMemory) => Err(Refusal::NoMemory),
        Err(SalvageError::NoRoot(why)) => Err(why),
        Err(SalvageError::Sink(never)) => match never {},
    }
}
