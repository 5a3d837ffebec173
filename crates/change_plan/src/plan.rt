//! The plan.
ghost use Rattle.std.specs.Prelude.{◌≡◌, ◌⊎◌, ◌≤◌, ◌<◌, [], ◌++◌, ◌+◌, min, IfOk, IfErr, OnOk, length};
ghost use Rattle.refusals.specs.declared.refusal.Refusal.TheVariants.{NoMemory, TooLarge};
ghost use Rattle.refusals.specs.declared.limits.TheConstants.{MOST_ELEMENT_BYTES};
ghost use Rattle.reg_tree.specs.declared.element.TheConstants.{CHANGE_BYTES};
ghost use Rattle.reg_tree.specs.Encodings.{ops_encoded_len};
ghost use Rattle.reg_tree.specs.Judgement.{applied};
ghost use Rattle.change_plan.specs.Edits.{EditAsks, EditRefused};
ghost use Rattle.change_plan.specs.Plans.{TakesEdit, NotTaken, ops_len};

use crate::datum::has_datum;
use crate::edit::Edit;
use crate::extension::Extension;
use crate::removal::removal;
use refusals::Refusal;
use refusals::limits::MOST_ELEMENT_BYTES;
use reg_tree::{CHANGE_BYTES, Op, Trees};
use std::alloc::Global;
use std::marker::Model;

/// The operations of one change at a moment, and the trees after them. Their encoding is as long as a change may be, at
/// most, with the bytes that are set aside for what the change's commit adds.
#[derive(Drop)]
pub struct Plan {
    view: Trees,
    ops: Vec<Op>,
    moment: u64,
    // how many bytes are set aside
    aside: u64,
    // how long the encoding of the operations is, with these
    bytes: u64,
}

impl Model for Plan {
    ghost use Rattle.std.specs.Prelude.{◌≡◌, ◌≤◌, ◌+◌};
    ghost use Rattle.refusals.specs.declared.limits.TheConstants.{MOST_ELEMENT_BYTES};
    ghost use Rattle.change_plan.specs.Plans.{Planned, planned_code, ops_len};

    ghost Value = { Planned };

    ghost coded = { planned_code };

    ghost view = { λ inside. record {
      view = inside.view;
      ops = inside.ops.items;
      moment = inside.moment;
      aside = inside.aside;
    } };

    ghost invariant = { λ inside. (inside.bytes ≡ ops_len inside.ops.items + inside.aside)
        × (inside.bytes ≤ MOST_ELEMENT_BYTES) };
}

impl Plan {
    /// A plan on these trees, without operations. All of its operations are carried out at this moment. So many bytes of
    /// its change are set aside for what the commit adds.
    pub fn new(alloc: Global, trees: Trees, moment: u64, aside: u64) -> Plan
        requires { CHANGE_BYTES + aside ≤ MOST_ELEMENT_BYTES }
        ensures { result ≡ record { view = trees; ops = []; moment = moment; aside = aside } }
    {
        Plan {
            view: trees,
            ops: Vec::new(alloc),
            moment,
            aside,
            bytes: CHANGE_BYTES + aside,
        }
    }

    /// Takes one edit more, on the trees after those before it.
    ///
    /// Refused as the edit's operations are, with `TooLarge` also if the change would be longer than 4,194,304 bytes
    /// with those that are set aside, and with `NoMemory`. A key that is to be removed with all below it is refused with
    /// `Fixed` if it is the root or one of these keys may not be deleted, and with `BadName` if one of them has a name
    /// that no call may name. The plan is as before then.
    pub fn take(&mut self, alloc: Global, edit: Edit) -> Result<(), Refusal>
        ensures taken { OnOk result (TakesEdit self.old edit self.new) }
        ensures refused { IfErr result (NotTaken self.old edit) }
        ensures kept { IfErr result (λ why. self.new ≡ self.old) }
    {
        let extension = extension_by(alloc, &self.view, edit, self.moment)?;
        self.extend(extension)
    }

    /// The operations, in order.
    pub fn into_ops(self) -> Vec<Op>
        ensures { result.items ≡ self.ops }
    {
        self.ops
    }

    // adds operations, and makes the trees after them those of the plan
    fn extend(&mut self, extension: Extension) -> Result<(), Refusal>
        ensures added { OnOk result ((self.new ≡ record {
          view = extension.view;
          ops = self.old.ops ++ extension.ops.items;
          moment = self.old.moment;
          aside = self.old.aside;
        }) × (ops_len self.new.ops + self.new.aside ≤ MOST_ELEMENT_BYTES)) }
        ensures refused { IfErr result (λ why. (why ≡ NoMemory) ⊎ ((why ≡ TooLarge)
            × (MOST_ELEMENT_BYTES < ops_len (self.old.ops ++ extension.ops.items) + self.old.aside))) }
        ensures kept { IfErr result (λ why. self.new ≡ self.old) }
    {
        let Extension { view, mut ops } = extension;
        let bytes = len_with(self.bytes, &ops);
        if bytes > MOST_ELEMENT_BYTES {
            return Err(Refusal::TooLarge);
        }
        self.ops.append(&mut ops)?;
        self.view = view;
        self.bytes = bytes;
        Ok(())
    }
}

// how long an encoding gets by some operations more, or the greatest number of 64 bits if it gets longer
fn len_with(bytes: u64, ops: &[Op]) -> u64
    ensures { result ≡ min (bytes + ops_encoded_len ops.now) u64.MAX }
{
    let mut total = bytes;
    for op in ops {
        total = total.saturating_add(op.text_len());
    }
    total
}

// what an edit adds to trees at a moment
fn extension_by(alloc: Global, view: &Trees, edit: Edit, moment: u64) -> Result<Extension, Refusal>
    ensures made { IfOk result (λ made. EditAsks view.now moment edit made.ops.items
        × (made.view ≡ applied view.now made.ops.items moment)) }
    ensures refused { IfErr result (λ why. (why ≡ NoMemory) ⊎ EditRefused view.now moment edit why) }
{
    match edit {
        Edit::Operation { op } => Extension::one(alloc, view, op, moment),
        Edit::WriteValue {
            hive,
            path,
            name,
            kind,
            data,
        } => {
            if has_datum(view, hive, &path, &name, kind, &data) {
                return Ok(Extension::none(alloc, view)?);
            }
            let op = Op::SetValue {
                hive,
                path,
                name,
                kind,
                data,
            };
            Extension::one(alloc, view, op, moment)
        }
        Edit::RemoveValue { hive, path, name } => match view.get_value(hive, &path, name.name()) {
            Ok(_) => Extension::one(alloc, view, Op::DeleteValue { hive, path, name }, moment),
            Err(_) => Ok(Extension::none(alloc, view)?),
        },
        Edit::RemoveKey { hive, path } => removal(alloc, view, hive, &path, moment),
    }
}
