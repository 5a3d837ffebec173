//! The removal of a key with all keys below it.
ghost use Rattle.std.specs.Prelude.{◌≡◌, ◌≢◌, ◌⊎◌, [], ◌∷◌, ◌++◌, IfOk, IfErr, OnOk, length};
ghost use Rattle.std.specs.List.{list_all};
ghost use Rattle.refusals.specs.declared.refusal.Refusal.TheVariants.{NoMemory};
ghost use Rattle.reg_names.specs.Names.{folded_path, is_key_name};
ghost use Rattle.reg_tree.specs.Judgement.{applied};
ghost use Rattle.change_plan.specs.Edits.{RemovesKey, RemovalRefused};
ghost use Rattle.change_plan.specs.Removals.{DeletesMore, IsGone, IsChild, ChildRefused};

use crate::extension::Extension;
use refusals::Refusal;
use reg_names::{Name, Path};
use reg_tree::Trees;
use std::alloc::Global;

/// The deletions of a key and all keys below it, each key after those below it, the last names first; none if the key
/// isn't there.
pub(crate) fn removal(
    alloc: Global,
    view: &Trees,
    hive: u8,
    path: &Path,
    moment: u64,
) -> Result<Extension, Refusal>
    ensures made { IfOk result (λ made. RemovesKey view.now moment hive path.now made.ops.items
        × (made.view ≡ applied view.now made.ops.items moment)) }
    ensures refused { IfErr result (λ why.
        (why ≡ NoMemory) ⊎ RemovalRefused view.now moment hive path.now why) }
{
    let mut made = Extension::none(alloc, view)?;
    if view.query_info(hive, path).is_err() {
        return Ok(made);
    }
    if path.names().is_empty() {
        return Err(Refusal::Fixed);
    }
    remove(alloc, &mut made, hive, path, moment)?;
    Ok(made)
}

// deletes a key after all keys below it
#[cycle(levels)]
fn remove(
    alloc: Global,
    made: &mut Extension,
    hive: u8,
    path: &Path,
    moment: u64,
) -> Result<(), Refusal>
    requires some { path.now ≢ [] }
    ensures deleted { OnOk result (DeletesMore made.old moment hive path.now made.new) }
    ensures gone { OnOk result (IsGone made.new.view hive path.now) }
    ensures refused { IfErr result (λ why.
        (why ≡ NoMemory) ⊎ RemovalRefused made.old.view moment hive path.now why) }
{
    let names = made.view.subkey_names(alloc, hive, path)?;
    let names = names.list();
    for index in (0..names.len()).rev() {
        remove_child(alloc, made, hive, path, &names[index], moment)?;
    }
    made.delete(alloc, hive, path.clone()?, moment)
}

// deletes the subkey of this name after all keys below it
#[cycle(levels)]
fn remove_child(
    alloc: Global,
    made: &mut Extension,
    hive: u8,
    path: &Path,
    name: &Name,
    moment: u64,
) -> Result<(), Refusal>
    ensures deleted { OnOk result (DeletesMore made.old moment hive path.now made.new) }
    ensures refused { IfErr result (λ why. (why ≡ NoMemory) ⊎ (ChildRefused path.now name.now why
        ⊎ RemovalRefused made.old.view moment hive path.now why)) }
{
    let child = child_of(alloc, path, name)?;
    remove(alloc, made, hive, &child, moment)
}

// the path of the subkey of this name
#[inline(never)] // so that each level takes little stack
fn child_of(alloc: Global, path: &Path, name: &Name) -> Result<Path, Refusal>
    ensures made { IfOk result (IsChild path.now name.now) }
    ensures refused { IfErr result (λ why. (why ≡ NoMemory) ⊎ ChildRefused path.now name.now why) }
{
    let mut names = Vec::with_capacity(alloc, path.names().len().saturating_add(1))?;
    for above in path.names() {
        names.push(above.clone()?)?;
    }
    names.push(Name::key(alloc, name.units())?)?;
    Path::from_names(names)
}
