//! Cells that are written into an image.
ghost use Rattle.std.specs.Prelude.{◌≤◌, ◌+◌, ℕ, length, MatchResult};
ghost use Rattle.hive_emit.specs.CellWrites.{Makes, Opens, Puts, Lands, WriteRefused, Fills, IsLongCell, cell_cost};

use hive_cells::Image;
use refusals::Refusal;

/// The offset of none.
pub const NIL: u32 = 0xffff_ffff;

const _: () = prove!(NIL == 0xffff_ffff);

/// A new cell with room for data of a length.
///
/// Refused with `NoMemory`. Refused otherwise only if the image has no free cell that is long enough, or has several.
pub fn new_cell(image: &mut Image, len: usize) -> Result<u32, Refusal>
    ensures { MatchResult result
        (λ at. Makes image.old.bytes image.new.bytes (Opens at len)
        × IsLongCell image.new.bytes at len
        × Lands image.old.bytes image.new.bytes at (cell_cost len))
        (λ why. WriteRefused image.old.bytes (cell_cost len) why) }
{
    match image.alloc(len) {
        Ok(at) => {
            image.tiles(0); // for the prover
            Ok(at)
        }
        Err(why) => Err(why),
    }
}

/// Fills bytes into a cell that is there and long enough for them.
pub fn fill(image: &mut Image, at: u32, encoding: &[u8])
    requires { IsLongCell image.old.bytes at (length encoding.now) }
    ensures { Fills image.old.bytes image.new.bytes at encoding.now }
{
    match image.write(at, 0, encoding) {
        Ok(()) => {}
        Err(_) => unreachable!(),
    }
}

/// Puts bytes into a new cell with room for data of a length, which is at least the number of the bytes.
///
/// Refused with `NoMemory`. Refused otherwise only if the image has no free cell that is long enough, or has several.
pub fn put_cell(image: &mut Image, encoding: &[u8], len: usize) -> Result<u32, Refusal>
    requires { length encoding.now ≤ len }
    ensures { MatchResult result
        (λ at. Makes image.old.bytes image.new.bytes (Puts at encoding.now)
        × Lands image.old.bytes image.new.bytes at (cell_cost len))
        (λ why. WriteRefused image.old.bytes (cell_cost len) why) }
{
    let at = match new_cell(image, len) {
        Ok(at) => at,
        Err(why) => return Err(why),
    };
    fill(image, at, encoding);
    Ok(at)
}
