//! Moving bytes to the front of a slice, a block at a time.
ghost use Rattle.std.specs.Prelude.{◌≡◌, ◌+◌, ◌-◌, ◌<◌, ◌≤◌, ℕ, length, take, drop, slice_index};

// The bytes that are moved at once. `copy_within` moves one at a time in a build without proofs.
const BLOCK_BYTES: usize = 512;

const _: () = prove!(BLOCK_BYTES == 512);

/// Moves the bytes from `start` up to `end` to the front. The first block is moved first: what is written lies before
/// what is still to be read.
pub(crate) fn move_to_front(bytes: &mut [u8], start: usize, end: usize)
    requires order { start ≤ end }
    requires inside { end ≤ length bytes.old }
    ensures len { length bytes.new ≡ length bytes.old }
    ensures moved { take (end - start) bytes.new ≡ take (end - start) (drop start bytes.old) }
{
    let len = end - start;
    let mut moved = 0;
    while moved < len {
        let count = (len - moved).min(BLOCK_BYTES);
        move_block(bytes, start + moved, moved, count);
        moved += count;
    }
}

// moves a block, which is read whole before it is written
fn move_block(bytes: &mut [u8], from: usize, to: usize, len: usize)
    requires few { len ≤ BLOCK_BYTES }
    requires source { from + len ≤ length bytes.old }
    requires target { to + len ≤ length bytes.old }
    ensures len { length bytes.new ≡ length bytes.old }
    ensures before { (i : ℕ) → i < to → slice_index bytes.new i ≡ slice_index bytes.old i }
    ensures after { (i : ℕ) → to + len ≤ i → slice_index bytes.new i ≡ slice_index bytes.old i }
    ensures moved { (j : ℕ) → j < len →
        slice_index bytes.new (to + j) ≡ slice_index bytes.old (from + j) }
{
    let mut buffer = [0; BLOCK_BYTES];
    let block = &mut buffer[..len];
    block.copy_from_slice(&bytes[from..from + len]);
    bytes[to..to + len].copy_from_slice(block);
}
