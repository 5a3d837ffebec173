//! Bytes as units, and paths behind paths.
ghost use Rattle.std.specs.Prelude.{◌≡◌, ◌++◌, IfOk, OnOk};
ghost use Rattle.reg_prefixes.specs.Places.{joined_path};

use crate::matching::SEPARATOR;
use std::alloc::{AllocError, Global};

/// Each byte as a unit.
pub(crate) fn wide(alloc: Global, bytes: &[u8]) -> Result<Vec<u16>, AllocError>
    ensures { IfOk result (λ units. units.items ≡ bytes.now) }
{
    let mut units = Vec::new(alloc);
    push_bytes(&mut units, bytes)?;
    Ok(units)
}

// each byte as a unit
fn push_bytes(units: &mut Vec<u16>, bytes: &[u8]) -> Result<(), AllocError>
    ensures { OnOk result (units.new.items ≡ units.old.items ++ bytes.now) }
{
    for byte in bytes {
        units.push(u16::from(*byte))?;
    }
    Ok(())
}

/// The path of a key, and of what lies at a path behind it.
pub(crate) fn joined(alloc: Global, key: &[u8], rest: &[u16]) -> Result<Vec<u16>, AllocError>
    ensures { IfOk result (λ path. path.items ≡ joined_path key.now rest.now) }
{
    let mut path = wide(alloc, key)?;
    push_behind(&mut path, rest)?;
    Ok(path)
}

// a path behind another one
fn push_behind(path: &mut Vec<u16>, rest: &[u16]) -> Result<(), AllocError>
    ensures { OnOk result (path.new.items ≡ joined_path path.old.items rest.now) }
{
    if path.is_empty() {
        path.extend_from_slice(rest)?;
        return Ok(());
    }
    if rest.is_empty() {
        return Ok(());
    }
    path.push(SEPARATOR)?;
    path.extend_from_slice(rest)?;
    Ok(())
}
