//! Accepted changes: operations that are applied together at one moment.
ghost use Rattle.std.specs.Prelude.{◌≡◌, ◌<◌, ◌++◌, ◌∷◌, [], List, length, IfOk, IfSome, IsNone, ◌↔◌, min, if◌then◌else◌, is_ok};
ghost use Rattle.reg_tree.specs.Encodings.{ops_encoded_len, op_encoded_len, element_encoded_len};

use crate::op::Op;
use std::alloc::{AllocError, Global};
use std::marker::Model;

/// Bytes of an encoded change beside its operations.
pub const CHANGE_BYTES: u64 = 16;

const _: () = prove!(CHANGE_BYTES == 16);

/// One or more operations, in their order.
pub struct Ops {
    items: Vec<Op>,
}

impl Drop for Ops {
    // one drop for all that own operations, whose proofs see no more of it than that
    fn drop(self) {
        let Ops { items: _ } = self;
    }
}

impl Model for Ops {
    ghost use Rattle.std.specs.Prelude.{◌<◌, List, length};
    ghost use Rattle.reg_tree.specs.declared.op.Op.{Op};

    ghost Value = { List Op };

    ghost view = { λ inside. inside.items.items };

    ghost invariant = { λ inside. 0 < length inside.items.items };
}

impl Ops {
    /// One operation.
    pub fn one(alloc: Global, op: Op) -> Result<Ops, AllocError>
        ensures { IfOk result (λ ops. ops ≡ op ∷ []) }
    {
        let mut items = Vec::with_capacity(alloc, 1)?;
        items.push(op)?;
        Ok(Ops { items })
    }

    /// These operations, or nothing if there are none.
    pub fn from_vec(items: Vec<Op>) -> Option<Ops>
        ensures some { IfSome result (λ ops. ops ≡ items.items) }
        ensures none { IsNone result ↔ (items.items ≡ []) }
    {
        if items.is_empty() {
            None
        } else {
            Some(Ops { items })
        }
    }

    /// The operations; there is at least one.
    pub fn list(&self) -> &[Op]
        ensures all { result.now ≡ self.now }
        ensures some { 0 < length self.now }
    {
        &self.items
    }
}

/// An accepted change: a moment, and the operations that are applied at it in their order.
pub struct Element {
    /// The moment, which is written into the keys that the change touches.
    pub moment: u64,
    /// The operations.
    pub ops: Ops,
}

impl Drop for Element {
    // one drop for all that own a change, whose proofs see no more of it than that
    fn drop(self) {
        let Element { moment: _, ops: _ } = self;
    }
}

impl Element {
    /// The bytes of the encoded change, or the greatest number of 64 bits if they are more. These are 16, and for each
    /// operation 4. For each name of its path they are 1 and its units, for a value's name 2 and its units. For a value
    /// that is written they are 8 and its data.
    pub fn text_len(&self) -> u64
        ensures { result ≡ min (element_encoded_len self.now) u64.MAX }
    {
        let mut total = CHANGE_BYTES;
        for op in self.ops.list() {
            total = total.saturating_add(op.text_len());
        }
        total
    }
}
