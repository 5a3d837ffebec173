//! A change's operations on one hive, decoded from its encoding: those on others are skipped.
ghost use Rattle.std.specs.Prelude.{◌≡◌, ◌==◌, List, None, IfOk, filter};
ghost use Rattle.reg_tree.specs.declared.op.Op.{Op};
ghost use Rattle.reg_tree.specs.Operations.{hive_of};
ghost use Rattle.change_codec.specs.Readers.{repeat};
ghost use Rattle.change_codec.specs.Encoding.{op_at};
ghost use Rattle.change_codec.specs.Changes.{AreOps, HasOps, TakesOp};

use crate::decoder::take_op;
use crate::encoded_change::ALL_HIVES;
use crate::hives::hive_in;
use crate::skipper::skip_op;
use refusals::Refusal;
use reg_tree::Op;
use std::alloc::{AllocError, Global};

/// The operations on a hive, of the `count` operations that bytes begin with.
pub(crate) fn take_ops_on(
    alloc: Global,
    hive: u8,
    count: u32,
    bytes: &[u8],
) -> Result<Vec<Op>, AllocError>
    requires { AreOps count bytes.now }
    ensures { IfOk result (λ made. (ops : List Op) →
        HasOps (repeat count (op_at 256) bytes.now) ops → made.items ≡ filter (λ op. hive_of op == hive) ops) }
{
    let mut made = Vec::new(alloc);
    let mut rest = bytes;
    for _taken in 0..count {
        rest = take_if_on(alloc, hive, rest, &mut made)?;
    }
    Ok(made)
}

/// The bytes after the operation that bytes begin with. The operation is appended to others if it is on a hive.
fn take_if_on<'a>(
    alloc: Global,
    hive: u8,
    bytes: &'a [u8],
    made: &mut Vec<Op>,
) -> Result<&'a [u8], AllocError>
    requires { ¬ (op_at 256 bytes.now ≡ None) }
    ensures { IfOk result (λ rest.
        TakesOp (op_at 256 bytes.now) hive made.old.items made.new.items rest.now) }
{
    if hive_in(bytes) != hive {
        let Some((_, rest)) = skip_op(ALL_HIVES, bytes) else {
            unreachable!();
        };
        return Ok(rest);
    }
    match take_op(alloc, ALL_HIVES, bytes) {
        Ok((op, rest)) => {
            made.push(op)?;
            Ok(rest)
        }
        Err(Refusal::NoMemory) => Err(AllocError),
        Err(_) => unreachable!(),
    }
}
