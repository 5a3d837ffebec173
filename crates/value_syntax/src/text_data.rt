//! Data of texts.
ghost use Rattle.std.specs.Prelude.{◌≡◌, ◌++◌, ◌∷◌, ℕ, List, OnOk, IfOk, chars};
ghost use Rattle.std.specs.List.{flat_map};
ghost use Rattle.std.specs.Int.{w16, to_le_bytes};
ghost use Rattle.value_syntax.specs.Data.{char_bytes, text_data, texts_data, with_zeros};
ghost use Rattle.value_syntax.specs.Steps.{held, written_before};

use std::alloc::{AllocError, Global};

/// The data of a text: its UTF-16 units, two bytes each, the low one first, and a unit 0.
pub(crate) fn text_data(alloc: Global, text: &str) -> Result<Vec<u8>, AllocError>
    ensures { IfOk result (λ made. made.items ≡ text_data (chars text.now)) }
{
    let mut bytes = Vec::new(alloc);
    push_text(&mut bytes, text)?;
    bytes.extend_from_slice(&[0, 0])?;
    Ok(bytes)
}

/// The data of texts with `\0` between each two: each text with a unit 0, and a unit 0 after all. No characters are no
/// texts.
pub(crate) fn texts_data(alloc: Global, text: &str) -> Result<Vec<u8>, AllocError>
    ensures { IfOk result (λ made. made.items ≡ texts_data (chars text.now)) }
{
    let mut bytes = Vec::new(alloc);
    if text.is_empty() {
        bytes.extend_from_slice(&[0, 0])?;
        return Ok(bytes);
    }
    push_texts(&mut bytes, text)?;
    bytes.extend_from_slice(&[0, 0, 0, 0])?;
    Ok(bytes)
}

fn push_text(bytes: &mut Vec<u8>, text: &str) -> Result<(), AllocError>
    ensures { OnOk result (bytes.new.items ≡ bytes.old.items ++ flat_map char_bytes (chars text.now)) }
{
    for c in text.chars() {
        push_char(bytes, c)?;
    }
    Ok(())
}

// a character, as its units
fn push_char(bytes: &mut Vec<u8>, c: char) -> Result<(), AllocError>
    ensures { OnOk result (bytes.new.items ≡ bytes.old.items ++ char_bytes c) }
{
    let mut pair = [0; 2];
    push_units(bytes, c.encode_utf16(&mut pair))
}

// each unit as two bytes, the low one first
fn push_units(bytes: &mut Vec<u8>, units: &[u16]) -> Result<(), AllocError>
    ensures { OnOk result (bytes.new.items ≡ bytes.old.items ++ flat_map (to_le_bytes w16) units.now) }
{
    for unit in units {
        bytes.extend_from_slice(&unit.to_le_bytes())?;
    }
    Ok(())
}

// a text, with the unit 0 for each `\0`
fn push_texts(bytes: &mut Vec<u8>, text: &str) -> Result<(), AllocError>
    ensures { OnOk result (bytes.new.items
        ≡ bytes.old.items ++ flat_map char_bytes (with_zeros (chars text.now))) }
{
    let mut is_held = false;
    for c in text.chars() {
        is_held = push_next(bytes, is_held, c)?;
    }
    push_held(bytes, is_held)?;
    Ok(())
}

// the next character; a backslash is held back, since a `0` may follow it. Answers whether one is
fn push_next(bytes: &mut Vec<u8>, is_held: bool, c: char) -> Result<bool, AllocError>
    ensures { IfOk result (λ holds. (rest : List ℕ) → written_before bytes.new.items holds rest
        ≡ written_before bytes.old.items is_held (c ∷ rest)) }
{
    if is_held && c == '0' {
        push_char(bytes, '\0')?;
        return Ok(false);
    }
    push_held(bytes, is_held)?;
    if c == '\\' {
        return Ok(true);
    }
    push_char(bytes, c)?;
    Ok(false)
}

// a backslash that was held back, if there is one
fn push_held(bytes: &mut Vec<u8>, is_held: bool) -> Result<(), AllocError>
    ensures { OnOk result (bytes.new.items ≡ bytes.old.items ++ flat_map char_bytes (held is_held)) }
{
    if is_held {
        push_char(bytes, '\\')?;
    }
    Ok(())
}
