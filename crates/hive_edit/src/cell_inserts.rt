//! Cells that are inserted.
ghost use Rattle.std.specs.Prelude.{◌≡◌, ◌<◌, ◌+◌, ◌^◌, ℕ, length, OnOk, IfOk, IfSome, IfErr};
ghost use Rattle.refusals.specs.declared.refusal.Refusal.TheVariants.{NoMemory};
ghost use Rattle.hive_savepoint.specs.Puts.{HasData, AddsCell};

use hive_savepoint::SavepointImage;
use refusals::Refusal;

/// Inserts a cell with a text and `room` bytes more. None if the image has no room.
pub(crate) fn insert_cell(
    image: &mut SavepointImage,
    text: &[u8],
    room: usize,
) -> Result<Option<u32>, Refusal>
    ensures added { IfOk result (λ made. IfSome made (λ at. AddsCell image.old.bytes image.new.bytes
        at text.now)) }
    ensures room { IfOk result (λ made. IfSome made (λ at. HasData image.new.bytes at
        (length text.now + room))) }
    ensures near { IfOk result (λ made. IfSome made (λ at. at < 2 ^ 32)) }
    ensures sizes { OnOk result ((cell len : ℕ) → HasData image.old.bytes cell len →
        HasData image.new.bytes cell len) }
    ensures saved { image.new.saved ≡ image.old.saved }
    ensures refused { IfErr result (λ why. why ≡ NoMemory) }
{
    match image.insert(text, room) {
        Ok(at) => Ok(Some(at)),
        Err(Refusal::TooLarge) => Ok(None),
        Err(why) => Err(why),
    }
}
