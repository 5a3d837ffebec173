//! What a tree takes of an image's free cell at most, reckoned before the image is made.
ghost use Rattle.std.specs.Prelude.{◌≡◌, ◌<◌, ◌^◌, []};
ghost use Rattle.hive_emit.specs.EmittedKeys.{CanPutKey, CanPutKeys};
ghost use Rattle.hive_emit.specs.KeyCosts.{class_cost, row_cost, keys_cost};

use crate::cell_costs::{cell_cost, values_cost};
use crate::keys::record_len;
use reg_tree_parts::{Key, Node};

// what a key takes in the list of its parent's subkeys at most
const IN_LIST: usize = 16;

// what a class takes at most
fn class_cost(len: usize) -> usize
    requires { len < 2 ^ 32 }
    ensures { result ≡ class_cost len }
{
    len.div_ceil(8) * 16
}

// what a key takes of its own
fn row_cost(key: &Key) -> usize
    requires can { CanPutKey [] key.now }
    requires fits { row_cost key.now < 2 ^ 32 }
    ensures { result ≡ row_cost key.now }
{
    let _time = key.time(); // for the prover
    let record = cell_cost(record_len(key.name().units()));
    record + class_cost(key.class().len()) + values_cost(key.values())
}

/// What a key and all keys below it take.
pub(crate) fn keys_cost(node: &Node) -> usize
    requires can { CanPutKeys node.now }
    requires fits { keys_cost node.now < 2 ^ 32 }
    ensures { result ≡ keys_cost node.now }
{
    let mut sum = row_cost(node.key());
    for index in 0..node.subkey_count() {
        let Some(subkey) = node.subkey_at(index) else {
            unreachable!();
        };
        sum += IN_LIST + keys_cost(subkey);
    }
    sum
}
