//! One operation, in place.
ghost use Rattle.std.specs.Prelude.{◌≡◌, Ok, IfErr};
ghost use Rattle.base_block.specs.declared.block.TheConstants.{MINOR_VERSION};
ghost use Rattle.reg_tree.specs.Maps.{TreeMap};
ghost use Rattle.reg_tree.specs.Operations.{tree_after};
ghost use Rattle.reg_tree.specs.Judgement.{judged};
ghost use Rattle.reg_tree.specs.declared.op.Legality.TheVariants.{Legal};
ghost use Rattle.refusals.specs.declared.refusal.Refusal.TheVariants.{NoMemory};
ghost use Rattle.hive_records.specs.Images.{BinsEncodeTree};
ghost use Rattle.hive_load.specs.Limits.{BinsEncodeTreeInLimits};
ghost use Rattle.hive_edit.specs.Presences.{IsPresence};
ghost use Rattle.hive_edit.specs.declared.outcome.Edit.TheVariants as edit;

use crate::key_create::create_key;
use crate::key_delete::delete_key;
use crate::outcome::Edit;
use crate::presence::Presence;
use crate::value_add::add_value;
use crate::value_data::NewValue;
use crate::value_delete::delete_value;
use crate::value_edit::set_value;
use hive_savepoint::SavepointImage;
use refusals::Refusal;
use reg_tree::Op;
use std::alloc::Global;

/// Carries out an operation in the cells of an image, from a root on. The operation is legal in the tree that the image
/// encodes, and changes it.
///
/// Refused with `NoMemory` alone. If it isn't done, for whatever cause, a part of the edit may be there: the caller
/// rolls the image back.
pub fn edit_in_place(
    alloc: Global,
    image: &mut SavepointImage,
    root: u32,
    presence: &Presence,
    op: &Op,
    moment: u64,
) -> Result<Edit, Refusal>
    requires stands { (tree : TreeMap) × BinsEncodeTreeInLimits image.old.bytes root MINOR_VERSION tree
        × (judged tree op.now ≡ Ok Legal) × IsPresence tree op.now presence.now }
    ensures done { result ≡ Ok edit.Done → (tree : TreeMap) →
        BinsEncodeTreeInLimits image.old.bytes root MINOR_VERSION tree →
        BinsEncodeTree image.new.bytes root MINOR_VERSION (tree_after tree op.now moment) }
    ensures saved { image.new.saved ≡ image.old.saved }
    ensures refused { IfErr result (λ why. why ≡ NoMemory) }
{
    match op {
        Op::CreateKey { path, .. } => {
            create_key(alloc, image, root, path.names(), presence.names, moment)
        }
        Op::DeleteKey { path, .. } => delete_key(image, root, path.names(), moment),
        Op::SetValue {
            path,
            name,
            kind,
            data,
            ..
        } => {
            let value = NewValue {
                name: name.name(),
                kind: *kind,
                data: data.bytes(),
            };
            if presence.value {
                set_value(alloc, image, root, path.names(), &value, moment)
            } else {
                add_value(alloc, image, root, path.names(), &value, moment)
            }
        }
        Op::DeleteValue { path, name, .. } => {
            delete_value(image, root, path.names(), name.name(), moment)
        }
    }
}
