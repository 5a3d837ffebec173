//! Lines that name a value.
ghost use Rattle.std.specs.Prelude.{◌≡◌, IfOk, [], ◌∷◌, ◌++◌, false};
ghost use Rattle.std.specs.Option.{option_map, option_copied};
ghost use Rattle.reg_file.specs.Scanning.{ListScan, list_scan, quote_at, onto_quote, number_at};
ghost use Rattle.reg_file.specs.Reading.{name_at, value_scan, equals_scan, data_scan, typed_scan, kind_or_not, kind_scan, number_scan, typed_list, bytes_scan, list_value, list_data, wrong_list, is_text_kind, text_scan, text_data};
ghost use Rattle.reg_file.specs.Views.{name_view, list_view, number_view};

use crate::blanks::{ends_statement, skip_blanks, strip};
use crate::hex_number::number;
use crate::list::{ListEnd, goes_on, read_first};
use crate::quote::{QuoteEnd, read_quote};
use crate::scan::{Pending, Scan};
use crate::statement::Statement;
use crate::text::{Utf16Text, ValueData};
use std::alloc::{AllocError, Global};

/// The type of a text.
const TEXT_KIND: u32 = 1;

/// The type of bytes.
const BYTES_KIND: u32 = 3;

/// The type of a number of 32 bits.
const NUMBER_KIND: u32 = 4;

/// What a line comes to that begins with a value's name; `old` is the old form.
pub(crate) fn scan_value(alloc: Global, old: bool, line: &[u16]) -> Result<Scan, AllocError>
    ensures { IfOk result (λ scan. scan ≡ value_scan old (name_at line.now)) }
{
    match read_name(alloc, line)? {
        Some((name, rest)) => scan_equals(alloc, old, name, skip_blanks(rest)),
        None => Ok(Scan::NotUnderstood),
    }
}

// the name that a line begins with, and what is behind it
fn read_name(alloc: Global, line: &[u16]) -> Result<Option<(Utf16Text, &[u16])>, AllocError>
    ensures { IfOk result (λ found. option_map name_view found ≡ name_at line.now) }
{
    let mut name = Utf16Text::new(alloc);
    match line.split_first() {
        Some((0x40, rest)) => Ok(Some((name, rest))),
        Some((0x22, others)) => match read_quote(&mut name, others)? {
            QuoteEnd::Closed(rest) => Ok(Some((name, rest))),
            QuoteEnd::Open | QuoteEnd::Wrong => Ok(None),
        },
        _ => Ok(None),
    }
}

// an equals sign and the data
fn scan_equals(alloc: Global, old: bool, name: Utf16Text, line: &[u16]) -> Result<Scan, AllocError>
    ensures { IfOk result (λ scan. scan ≡ equals_scan old name line.now) }
{
    match line.split_first() {
        Some((0x3d, rest)) => scan_data(alloc, old, name, skip_blanks(rest)),
        _ => Ok(Scan::NotUnderstood),
    }
}

// the data: a text, a minus, or something with a type
fn scan_data(alloc: Global, old: bool, name: Utf16Text, line: &[u16]) -> Result<Scan, AllocError>
    ensures { IfOk result (λ scan. scan ≡ data_scan old name line.now) }
{
    match line.split_first() {
        Some((0x22, rest)) => scan_text(alloc, name, Utf16Text::new(alloc), rest),
        Some((0x2d, rest)) if ends_statement(rest) => Ok(Scan::Complete {
            statement: Statement::DeleteValue { name },
        }),
        _ => scan_typed(alloc, old, name, line),
    }
}

/// What a line of a text in quotes comes to, by what it has of the text; `text` is what came before.
pub(crate) fn scan_text(
    alloc: Global,
    name: Utf16Text,
    text: Utf16Text,
    line: &[u16],
) -> Result<Scan, AllocError>
    ensures { IfOk result (λ scan. scan ≡ text_scan name (onto_quote text (quote_at false line.now))) }
{
    let mut text = text;
    match read_quote(&mut text, line)? {
        QuoteEnd::Closed(rest) if ends_statement(rest) => complete_text(alloc, name, text),
        QuoteEnd::Open => open_text(name, text),
        QuoteEnd::Closed(_) | QuoteEnd::Wrong => Ok(Scan::NotUnderstood),
    }
}

// a text that its closing quote ended
fn complete_text(alloc: Global, name: Utf16Text, text: Utf16Text) -> Result<Scan, AllocError>
    ensures { IfOk result (λ scan. scan
        ≡ Scan.Complete (Statement.SetValue name TEXT_KIND (text_data text))) }
{
    let bytes = ValueData::of_text(alloc, text.units())?;
    let kind = TEXT_KIND;
    let statement = Statement::SetValue { name, kind, bytes };
    Ok(Scan::Complete { statement })
}

// a text that goes on: the line's end is a unit of it
fn open_text(name: Utf16Text, text: Utf16Text) -> Result<Scan, AllocError>
    ensures { IfOk result (λ scan. scan ≡ Scan.GoesOn (Pending.Text name (text ++ 10 ∷ []))) }
{
    let mut text = text;
    text.push(0x0a)?;
    let pending = Pending::Text { name, text };
    Ok(Scan::GoesOn { pending })
}

// a number, or bytes with or without a type
fn scan_typed(alloc: Global, old: bool, name: Utf16Text, line: &[u16]) -> Result<Scan, AllocError>
    ensures { IfOk result (λ scan. scan ≡ typed_scan old name line.now) }
{
    if let Some(rest) = strip(b"dword:".as_slice(), line) {
        scan_number(alloc, name, number(rest))
    } else if let Some(rest) = strip(b"hex:".as_slice(), line) {
        scan_first(alloc, old, name, BYTES_KIND, rest)
    } else if let Some(rest) = strip(b"hex(".as_slice(), line) {
        scan_kind(alloc, old, name, number(rest))
    } else {
        Ok(Scan::NotUnderstood)
    }
}

// a number of 32 bits
fn scan_number(
    alloc: Global,
    name: Utf16Text,
    found: Option<(u32, &[u16])>,
) -> Result<Scan, AllocError>
    ensures { IfOk result (λ scan. scan ≡ number_scan name (option_map number_view found.entry)) }
{
    match found {
        Some((number, rest)) if ends_statement(rest) => {
            let bytes = ValueData::of_number(alloc, number)?;
            let kind = NUMBER_KIND;
            let statement = Statement::SetValue { name, kind, bytes };
            Ok(Scan::Complete { statement })
        }
        _ => Ok(Scan::NotUnderstood),
    }
}

// bytes with a type in brackets
fn scan_kind(
    alloc: Global,
    old: bool,
    name: Utf16Text,
    found: Option<(u32, &[u16])>,
) -> Result<Scan, AllocError>
    ensures { IfOk result (λ scan. scan ≡ kind_scan old name (option_map number_view found.entry)) }
{
    let Some((kind, rest)) = found else {
        return Ok(Scan::NotUnderstood);
    };
    match strip(b"):".as_slice(), rest) {
        Some(list) => scan_first(alloc, old, name, kind, list),
        None => Ok(Scan::NotUnderstood),
    }
}

// the first line of a list
fn scan_first(
    alloc: Global,
    old: bool,
    name: Utf16Text,
    kind: u32,
    line: &[u16],
) -> Result<Scan, AllocError>
    ensures { IfOk result (λ scan. scan ≡ bytes_scan old name kind line.now (list_scan line.now)) }
{
    let mut bytes = ValueData::new(alloc);
    let end = read_first(&mut bytes, line)?;
    scan_bytes(alloc, old, name, kind, bytes, end, line)
}

/// What a line of a list comes to, by where it ended, and all bytes so far.
pub(crate) fn scan_bytes(
    alloc: Global,
    old: bool,
    name: Utf16Text,
    kind: u32,
    bytes: ValueData,
    end: ListEnd,
    line: &[u16],
) -> Result<Scan, AllocError>
    ensures { IfOk result (λ scan. scan ≡ bytes_scan old name kind line.now (list_view end bytes)) }
{
    match end {
        ListEnd::Whole => complete_list(alloc, old, name, kind, bytes),
        ListEnd::Broken => Ok(Scan::GoesOn {
            pending: Pending::List { name, kind, bytes },
        }),
        ListEnd::Wrong => Ok(scan_wrong(line)),
    }
}

// a list that ends
fn complete_list(
    alloc: Global,
    old: bool,
    name: Utf16Text,
    kind: u32,
    bytes: ValueData,
) -> Result<Scan, AllocError>
    ensures { IfOk result (λ scan. scan ≡ list_value old name kind bytes) }
{
    let bytes = list_data(alloc, old, kind, bytes)?;
    let statement = Statement::SetValue { name, kind, bytes };
    Ok(Scan::Complete { statement })
}

// the data of a list: text in the code page, if it has such a type in the old form
fn list_data(alloc: Global, old: bool, kind: u32, bytes: ValueData) -> Result<ValueData, AllocError>
    ensures { IfOk result (λ made. made ≡ list_data old kind bytes) }
{
    if old && is_text_kind(kind) {
        return ValueData::of_ansi(alloc, bytes.bytes());
    }
    Ok(bytes)
}

/// What a line comes to in a list that is wrong.
pub(crate) fn scan_wrong(line: &[u16]) -> Scan
    ensures { result ≡ wrong_list line.now }
{
    if goes_on(line) {
        Scan::GoesOn {
            pending: Pending::WrongList,
        }
    } else {
        Scan::NotUnderstood
    }
}

// types whose data are text
fn is_text_kind(kind: u32) -> bool
    ensures { result ≡ is_text_kind kind }
{
    kind == 1 || kind == 2 || kind == 7
}
