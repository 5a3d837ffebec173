//! Lists that a statement has: a text of units, and the bytes of a value.
ghost use Rattle.std.specs.Prelude.{◌≡◌, ◌++◌, ◌∷◌, [], OnOk, IfOk, flat_map};
ghost use Rattle.std.specs.Int.{w16, w32, to_le_bytes};
ghost use Rattle.reg_file.specs.CodePage.{ansi_unit, ansi_data};
ghost use Rattle.reg_file.specs.Reading.{text_data};

use crate::code_page::ansi_unit;
use std::alloc::{AllocError, Global};
use std::marker::Model;

/// A text as UTF-16 units, as they stand: a surrogate may stand alone.
#[derive(Drop)]
pub struct Utf16Text {
    units: Vec<u16>,
}

impl Model for Utf16Text {
    ghost use Rattle.std.specs.Prelude.{List, ℕ};

    ghost Value = { List ℕ };

    ghost view = { λ inside. inside.units.items };
}

impl Utf16Text {
    pub(crate) fn new(alloc: Global) -> Utf16Text
        ensures { result ≡ [] }
    {
        Utf16Text {
            units: Vec::new(alloc),
        }
    }

    pub(crate) fn push(&mut self, unit: u16) -> Result<(), AllocError>
        ensures { OnOk result (self.new ≡ self.old ++ unit ∷ []) }
    {
        self.units.push(unit)?;
        Ok(())
    }

    /// A copy of the units.
    pub(crate) fn copy(alloc: Global, units: &[u16]) -> Result<Utf16Text, AllocError>
        ensures { IfOk result (λ made. made ≡ units.now) }
    {
        let mut copied = Vec::with_capacity(alloc, units.len())?;
        copied.extend_from_slice(units)?;
        Ok(Utf16Text { units: copied })
    }

    /// The units in order.
    pub fn units(&self) -> &[u16]
        ensures { result.now ≡ self.now }
    {
        &self.units
    }

    /// The units as a vector, without taking memory.
    pub fn into_vec(self) -> Vec<u16>
        ensures { result.items ≡ self }
    {
        self.units
    }
}

/// The data of a value: a list of bytes.
#[derive(Drop)]
pub struct ValueData {
    bytes: Vec<u8>,
}

impl Model for ValueData {
    ghost use Rattle.std.specs.Prelude.{List, ℕ};

    ghost Value = { List ℕ };

    ghost view = { λ inside. inside.bytes.items };
}

impl ValueData {
    pub(crate) fn new(alloc: Global) -> ValueData
        ensures { result ≡ [] }
    {
        ValueData {
            bytes: Vec::new(alloc),
        }
    }

    pub(crate) fn push(&mut self, byte: u8) -> Result<(), AllocError>
        ensures { OnOk result (self.new ≡ self.old ++ byte ∷ []) }
    {
        self.bytes.push(byte)?;
        Ok(())
    }

    /// The data of a text: each unit as two bytes, the low one first, and two zero bytes.
    pub(crate) fn of_text(alloc: Global, units: &[u16]) -> Result<ValueData, AllocError>
        ensures { IfOk result (λ made. made ≡ text_data units.now) }
    {
        let mut bytes = Vec::new(alloc);
        push_units(&mut bytes, units)?;
        bytes.extend_from_slice(&[0, 0])?;
        Ok(ValueData { bytes })
    }

    /// The data of a text of the code page: each byte's unit as two bytes, the low one first.
    pub(crate) fn of_ansi(alloc: Global, bytes: &[u8]) -> Result<ValueData, AllocError>
        ensures { IfOk result (λ made. made ≡ ansi_data bytes.now) }
    {
        let mut units = Vec::new(alloc);
        push_ansi_units(&mut units, bytes)?;
        Ok(ValueData { bytes: units })
    }

    /// The data of a number of 32 bits: four bytes, the lowest first.
    pub(crate) fn of_number(alloc: Global, number: u32) -> Result<ValueData, AllocError>
        ensures { IfOk result (λ made. made ≡ to_le_bytes w32 number) }
    {
        let mut bytes = Vec::new(alloc);
        bytes.extend_from_slice(&number.to_le_bytes())?;
        Ok(ValueData { bytes })
    }

    /// The bytes in order.
    pub fn bytes(&self) -> &[u8]
        ensures { result.now ≡ self.now }
    {
        &self.bytes
    }

    /// The bytes as a vector, without taking memory.
    pub fn into_vec(self) -> Vec<u8>
        ensures { result.items ≡ self }
    {
        self.bytes
    }
}

// each unit as two bytes, the low one first
fn push_units(bytes: &mut Vec<u8>, units: &[u16]) -> Result<(), AllocError>
    ensures { OnOk result (bytes.new.items ≡ bytes.old.items ++ flat_map (to_le_bytes w16) units.now) }
{
    for unit in units {
        bytes.extend_from_slice(&unit.to_le_bytes())?;
    }
    Ok(())
}

// each byte's unit as two bytes, the low one first
fn push_ansi_units(units: &mut Vec<u8>, bytes: &[u8]) -> Result<(), AllocError>
    ensures { OnOk result (units.new.items
        ≡ units.old.items ++ flat_map (λ byte. to_le_bytes w16 (ansi_unit byte)) bytes.now) }
{
    for byte in bytes {
        units.extend_from_slice(&ansi_unit(*byte).to_le_bytes())?;
    }
    Ok(())
}
