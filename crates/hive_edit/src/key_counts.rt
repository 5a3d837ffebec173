//! How many keys name a security cell.
ghost use Rattle.std.specs.Prelude.{◌≡◌, ℕ, List, OnOk, IfSome, IfErr};
ghost use Rattle.base_block.specs.declared.block.TheConstants.{MINOR_VERSION};
ghost use Rattle.refusals.specs.declared.refusal.Refusal.TheVariants.{NoMemory};
ghost use Rattle.reg_tree.specs.Maps.{TreeMap};
ghost use Rattle.hive_savepoint.specs.Puts.{HasData};
ghost use Rattle.hive_edit_laws.specs.Found.{KeyFound};

use crate::new_keys::security_of_key;
use crate::numbers::u32_bytes;
use hive_cells::Looks;
use hive_records::u32_at;
use hive_savepoint::SavepointImage;
use refusals::Refusal;

// the offset that means none
const NIL: u32 = 0xffff_ffff;

const _: () = prove!(NIL == 0xffff_ffff);

// where a security cell has its count
const COUNT: usize = 12;

/// What comes to the count of a security cell.
#[derive(Clone, Copy)]
pub(crate) enum CountChange {
    /// A key more.
    More,
    /// A key less.
    Fewer,
}

/// Counts a key more, or less, in the security cell that the node of a key names. Nothing is done if it names none, or
/// there is none. A count of 0 stays.
pub(crate) fn count_key(
    image: &mut SavepointImage,
    key: u32,
    change: CountChange,
) -> Result<(), Refusal>
    ensures found { OnOk result ((root : ℕ) (tree other : TreeMap) (path way : List (List ℕ)) (to : ℕ) →
        KeyFound image.old.bytes root MINOR_VERSION tree path key →
        KeyFound image.old.bytes root MINOR_VERSION other way to →
        KeyFound image.new.bytes root MINOR_VERSION other way to) }
    ensures saved { image.new.saved ≡ image.old.saved }
    ensures refused { IfErr result (λ why. why ≡ NoMemory) }
{
    let Some(at) = security_of_key(image, key) else {
        return Ok(());
    };
    if at == NIL {
        return Ok(());
    }
    let Some(count) = security_count(image, at) else {
        return Ok(());
    };
    let count = match change {
        CountChange::More => count.saturating_add(1),
        CountChange::Fewer => count.saturating_sub(1),
    };
    image.write(at, COUNT, &u32_bytes(count))
}

// the count of the security cell at an offset
fn security_count(image: &SavepointImage, at: u32) -> Option<u32>
    ensures { IfSome result (λ count. HasData image.now.bytes at 16) }
{
    let mut looks = Looks::new();
    let Ok(cell) = image.cell(at, &mut looks) else {
        return None;
    };
    if cell.len() < COUNT + 4 {
        return None;
    }
    Some(u32_at(cell, COUNT))
}
