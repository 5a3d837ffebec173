//! Moving bytes within a slice, a block at a time.
ghost use Rattle.std.specs.Prelude.{◌≡◌, ◌+◌, ◌≤◌, ◌<◌, ℕ, length, slice_index};
ghost use Rattle.hive_cells.specs.Changes.{RewritesWithin};

// The bytes that are moved at once. `copy_within` moves one at a time in a build without proofs.
const BLOCK_BYTES: usize = 512;

const _: () = prove!(BLOCK_BYTES == 512);

/// Moves bytes from one offset to another. The two places may overlap.
pub(crate) fn move_bytes(bytes: &mut [u8], from: usize, to: usize, len: usize)
    requires source { from + len ≤ length bytes.old }
    requires target { to + len ≤ length bytes.old }
    ensures written { RewritesWithin bytes.old bytes.new to (to + len) }
    ensures moved { (j : ℕ) → j < len →
        slice_index bytes.new (to + j) ≡ slice_index bytes.old (from + j) }
{
    if to <= from {
        move_down(bytes, from, to, len);
    } else {
        move_up(bytes, from, to, len);
    }
}

// moves bytes to a lower offset, the first block first: what is written lies before what is still to be read
fn move_down(bytes: &mut [u8], from: usize, to: usize, len: usize)
    requires source { from + len ≤ length bytes.old }
    requires order { to ≤ from }
    ensures written { RewritesWithin bytes.old bytes.new to (to + len) }
    ensures moved { (j : ℕ) → j < len →
        slice_index bytes.new (to + j) ≡ slice_index bytes.old (from + j) }
{
    let mut buffer = [0; BLOCK_BYTES];
    let mut moved = 0;
    while moved < len {
        let count = (len - moved).min(BLOCK_BYTES);
        move_block(bytes, &mut buffer, from + moved, to + moved, count);
        moved += count;
    }
}

// moves bytes to a higher offset, the last block first: what is written lies after what is still to be read
fn move_up(bytes: &mut [u8], from: usize, to: usize, len: usize)
    requires target { to + len ≤ length bytes.old }
    requires order { from ≤ to }
    ensures written { RewritesWithin bytes.old bytes.new to (to + len) }
    ensures moved { (j : ℕ) → j < len →
        slice_index bytes.new (to + j) ≡ slice_index bytes.old (from + j) }
{
    let mut buffer = [0; BLOCK_BYTES];
    let mut left = len;
    while 0 < left {
        let count = left.min(BLOCK_BYTES);
        left -= count;
        move_block(bytes, &mut buffer, from + left, to + left, count);
    }
}

// moves a block by a buffer, which has the whole of it before any byte is written
fn move_block(bytes: &mut [u8], buffer: &mut [u8; BLOCK_BYTES], from: usize, to: usize, len: usize)
    requires few { len ≤ BLOCK_BYTES }
    requires source { from + len ≤ length bytes.old }
    requires target { to + len ≤ length bytes.old }
    ensures written { RewritesWithin bytes.old bytes.new to (to + len) }
    ensures moved { (j : ℕ) → j < len →
        slice_index bytes.new (to + j) ≡ slice_index bytes.old (from + j) }
{
    let block = &mut buffer[..len];
    block.copy_from_slice(&bytes[from..from + len]);
    bytes[to..to + len].copy_from_slice(block);
}
