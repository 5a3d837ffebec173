//! What one statement asks of the hives of a store.
ghost use Rattle.std.specs.Prelude.{◌≡◌, ◌⊎◌, [], Ok, Err, Some, None, IfOk, IfErr};
ghost use Rattle.std.specs.Option.{option_copied};
ghost use Rattle.refusals.specs.declared.refusal.Refusal.{Refusal as AnyRefusal};
ghost use Rattle.refusals.specs.declared.refusal.Refusal.TheVariants.{NoMemory};
ghost use Rattle.reg_tree.specs.declared.op.Op.TheVariants as op;
ghost use Rattle.change_plan.specs.declared.edit.Edit.TheVariants.{Operation};
ghost use Rattle.reg_file.specs.declared.statement.Statement.TheVariants.{SetValue, DeleteValue};
ghost use Rattle.reg_apply.specs.declared.place.Place.{Place as AnyPlace};
ghost use Rattle.reg_apply.specs.declared.place.Denial.TheVariants.{Refused};
ghost use Rattle.reg_apply.specs.Statements.{asked, current_key, resolved, value_name};

use change_plan::Edit;
use refusals::Refusal;
use reg_file::{Statement, Utf16Text, ValueData};
use reg_names::{Name, Path, ValueName};
use reg_prefixes::Prefixes;
use reg_tree::{Data, Op};
use std::alloc::{AllocError, Global};

/// A key of a hive.
#[derive(Drop)]
pub(crate) struct Place {
    pub(crate) hive: u8,
    pub(crate) path: Path,
}

impl Clone for Place {
    ghost is_clone = { λ place copy. copy ≡ place };

    fn clone(&self) -> Result<Place, AllocError>
        ensures { IfOk result (λ copy. copy ≡ self.now) }
    {
        let path = self.path.clone()?;
        Ok(Place {
            hive: self.hive,
            path,
        })
    }
}

/// Why a statement asks for nothing that the store could do.
#[derive(Clone, Copy, Debug, PartialEq, Eq)]
pub(crate) enum Denial {
    /// Its path begins with no prefix of a hive, or the store lacks that hive.
    NoHive,
    /// No key is current.
    NoKey,
    /// A name is none, or memory was not given.
    Refused(Refusal),
}

impl From<Refusal> for Denial {
    ghost from_gives = { λ refusal denial. denial ≡ Refused refusal };

    fn from(refusal: Refusal) -> Denial {
        Denial::Refused(refusal)
    }
}

impl From<AllocError> for Denial {
    ghost from_gives = { λ _ denial. denial ≡ Refused NoMemory };

    fn from(_: AllocError) -> Denial {
        Denial::Refused(Refusal::NoMemory)
    }
}

/// The key that a path's text names, in a store with this many hives.
pub(crate) fn place_of(
    alloc: Global,
    prefixes: &Prefixes,
    hives: usize,
    text: &Utf16Text,
) -> Result<Place, Denial>
    ensures found { IfOk result (λ place. resolved prefixes.now hives text.now ≡ Ok place) }
    ensures denied { IfErr result (λ denial. (resolved prefixes.now hives text.now ≡ Err denial)
        ⊎ (denial ≡ Refused NoMemory)) }
{
    let Some(place) = prefixes.place(alloc, text.units())? else {
        return Err(Denial::NoHive);
    };
    if usize::from(place.hive) >= hives {
        return Err(Denial::NoHive);
    }
    let path = Path::parse(alloc, &place.path)?;
    Ok(Place {
        hive: place.hive,
        path,
    })
}

/// The edit that a statement asks for, and the key that is current after it.
pub(crate) fn edit_of(
    alloc: Global,
    prefixes: &Prefixes,
    hives: usize,
    current: Option<&Place>,
    statement: Statement,
) -> Result<(Edit, Option<Place>), Denial>
    ensures asked { IfOk result (λ it.
        asked prefixes.now hives (option_copied current.entry) statement ≡ Ok (it.0, it.1)) }
    ensures denied { IfErr result (λ denial.
        (asked prefixes.now hives (option_copied current.entry) statement ≡ Err denial)
        ⊎ (denial ≡ Refused NoMemory)) }
{
    match statement {
        Statement::CreateKey { path } => create_key(place_of(alloc, prefixes, hives, &path)?),
        Statement::DeleteKey { path } => {
            let Place { hive, path } = place_of(alloc, prefixes, hives, &path)?;
            Ok((Edit::RemoveKey { hive, path }, None))
        }
        Statement::SetValue { name, kind, bytes } => set_value(alloc, current, &name, kind, bytes),
        Statement::DeleteValue { name } => delete_value(alloc, current, &name),
    }
}

// the creation of a key, which is current then
fn create_key(place: Place) -> Result<(Edit, Option<Place>), Denial>
    ensures asked { IfOk result (λ it. (it.0 ≡ Operation (op.CreateKey place.hive place.path))
        × (it.1 ≡ Some place)) }
    ensures denied { IfErr result (λ denial. denial ≡ Refused NoMemory) }
{
    let op = Op::CreateKey {
        hive: place.hive,
        path: place.path.clone()?,
    };
    Ok((Edit::Operation { op }, Some(place)))
}

// the write of a value of the current key
fn set_value(
    alloc: Global,
    current: Option<&Place>,
    name: &Utf16Text,
    kind: u32,
    bytes: ValueData,
) -> Result<(Edit, Option<Place>), Denial>
    ensures asked { IfOk result (λ it.
        asked [] 0 (option_copied current.entry) (SetValue name.now kind bytes) ≡ Ok (it.0, it.1)) }
    ensures denied { IfErr result (λ denial.
        (asked [] 0 (option_copied current.entry) (SetValue name.now kind bytes) ≡ Err denial)
        ⊎ (denial ≡ Refused NoMemory)) }
{
    let (place, name) = value_of(alloc, current, name)?;
    let data = Data::from_vec(bytes.into_vec())?;
    let edit = Edit::WriteValue {
        hive: place.hive,
        path: place.path.clone()?,
        name,
        kind,
        data,
    };
    Ok((edit, Some(place)))
}

// the deletion of a value of the current key
fn delete_value(
    alloc: Global,
    current: Option<&Place>,
    name: &Utf16Text,
) -> Result<(Edit, Option<Place>), Denial>
    ensures asked { IfOk result (λ it.
        asked [] 0 (option_copied current.entry) (DeleteValue name.now) ≡ Ok (it.0, it.1)) }
    ensures denied { IfErr result (λ denial.
        (asked [] 0 (option_copied current.entry) (DeleteValue name.now) ≡ Err denial)
        ⊎ (denial ≡ Refused NoMemory)) }
{
    let (place, name) = value_of(alloc, current, name)?;
    let edit = Edit::RemoveValue {
        hive: place.hive,
        path: place.path.clone()?,
        name,
    };
    Ok((edit, Some(place)))
}

// the current key, and the name of one of its values
fn value_of(
    alloc: Global,
    current: Option<&Place>,
    name: &Utf16Text,
) -> Result<(Place, ValueName), Denial>
    ensures found { IfOk result (λ it. (current_key (option_copied current.entry) ≡ Ok it.0)
        × (value_name name.now ≡ Ok it.1)) }
    ensures denied { IfErr result (λ denial. (denial ≡ Refused NoMemory)
        ⊎ ((current_key (option_copied current.entry) ≡ Err denial)
        ⊎ ((place : AnyPlace) × (why : AnyRefusal) × (current_key (option_copied current.entry) ≡ Ok place)
        × (value_name name.now ≡ Err why) × (denial ≡ Refused why)))) }
{
    let Some(place) = current else {
        return Err(Denial::NoKey);
    };
    let name = Name::value(alloc, name.units())?;
    Ok((place.clone()?, name))
}
