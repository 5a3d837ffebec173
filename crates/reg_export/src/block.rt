//! Bytes that are gathered before they are written.
ghost use Rattle.std.specs.Prelude.{◌≡◌, ◌+◌, ◌++◌, ◌≤◌, length};
ghost use Rattle.arrayvec.specs.ArrayVec.{array_vec_len};

use arrayvec::ArrayVec;

/// The bytes that a block has room for.
pub(crate) const BLOCK_BYTES: usize = 128;

/// Bytes that are written together, since each write has its price.
pub(crate) type Block = ArrayVec<u8, BLOCK_BYTES>;

/// Adds bytes that there is room for.
pub(crate) fn add(block: &mut Block, bytes: &[u8])
    requires room { array_vec_len block.old + length bytes.now ≤ 128 }
    ensures { block.new.items ≡ block.old.items ++ bytes.now }
{
    if block.try_extend_from_slice(bytes).is_err() {
        unreachable!()
    }
}
