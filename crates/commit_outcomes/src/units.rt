//! Names of units of work: the lower-case hyphenated form of a UUID.
ghost use Rattle.std.specs.Prelude.{◌≡◌, IfOk, IfSome, Some, None, is_some, ◌==◌, ◌&&◌, length, if◌then◌else◌};
ghost use Rattle.std.specs.List.{list_all};
ghost use Rattle.commit_outcomes.specs.Units as units;

use refusals::Refusal;
use reg_names::{Name, ValueName};
use std::alloc::{AllocError, Global};
use uuid::Uuid;

/// How many units a unit of work's name has.
const NAME_UNITS: usize = 36;

/// The name of a unit of work.
pub fn unit_name(alloc: Global, unit: &Uuid) -> Result<ValueName, AllocError>
    ensures { IfOk result (λ name. name ≡ units.unit_name unit.now) }
{
    let mut buffer = [0; NAME_UNITS];
    let text = unit.hyphenated().encode_lower(&mut buffer);
    match Name::value_in_bytes(alloc, text.as_bytes()) {
        Ok(name) => Ok(name),
        Err(Refusal::NoMemory) => Err(AllocError),
        Err(_) => unreachable!(),
    }
}

/// The unit of work of a name, or nothing if the name is that of none. Takes no memory.
pub fn unit_of(name: &Name) -> Option<Uuid>
    ensures is { is_some result ≡ units.is_unit_name name.now }
    ensures named { IfSome result (λ unit. units.unit_name unit ≡ name.now) }
{
    let text = lower_text(name.units())?;
    match Uuid::try_parse_ascii(&text) {
        Ok(unit) => Some(unit),
        Err(_) => None,
    }
}

// the bytes of a text that has as many units as a name, all of them hyphens and digits in lower case
fn lower_text(text: &[u16]) -> Option<[u8; NAME_UNITS]>
    ensures { result ≡ (if (length text.now == 36) && list_all units.is_text_unit text.now then Some text.now else None) }
{
    if text.len() != NAME_UNITS {
        return None;
    }
    let mut bytes = [0; NAME_UNITS];
    for place in 0..NAME_UNITS {
        let unit = text[place];
        if !is_text_unit(unit) {
            return None;
        }
        bytes[place] = unit as u8;
    }
    Some(bytes)
}

// whether a unit may stand in a name
fn is_text_unit(unit: u16) -> bool
    ensures { result ≡ units.is_text_unit unit }
{
    matches!(unit, 0x2d | 0x30..=0x39 | 0x61..=0x66)
}
