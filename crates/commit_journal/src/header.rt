//! The header of a journal.
ghost use Rattle.std.specs.Prelude.{◌≡◌, ◌≤◌, IfOk, MatchResult, length, take, codes};
ghost use Rattle.refusals.specs.Answers.{RefusedFor};
ghost use Rattle.refusals.specs.declared.refusal.Refusal.TheVariants.{JournalDamaged};
ghost use Rattle.commit_journal.specs.Store.{Store, IsStore, header_bytes};

use crate::layout::{EMPTY_ROOM, HEADER_BYTES, HIVES_AT, ID_AT, MARK_AT};
use crate::scan::StoreHeader;
use crate::store_layout::Layout;
use byteorder::{ByteOrder, LittleEndian};
use change_codec::put_u32;
use refusals::Refusal;
use refusals::limits::MOST_HIVES;
use std::alloc::{AllocError, Global};
use uuid::Uuid;

/// The zeros after the fields of a header.
const ZEROS: [u8; 36] = [0; 36];

/// The header of a store's journal. There is room for a gate after it.
pub(crate) fn encode(
    alloc: Global,
    id: Uuid,
    hives: u8,
    layout: Layout,
) -> Result<Vec<u8>, AllocError>
    ensures { IfOk result (λ header. header.items
        ≡ header_bytes (record { id = id; hives = hives; layout = layout })) }
{
    let mut header = Vec::with_capacity(alloc, EMPTY_ROOM as usize)?;
    header.extend_from_slice(&layout.magic())?;
    header.extend_from_slice(id.as_bytes())?;
    put_u32(&mut header, u32::from(hives))?;
    header.extend_from_slice(&ZEROS)?;
    Ok(header)
}

/// The store whose header the bytes begin with. Refused with `JournalDamaged` only if they begin with the header of no
/// store, of whatever layout, and with `NoMemory`.
pub(crate) fn decode(alloc: Global, bytes: &[u8]) -> Result<StoreHeader, Refusal>
    requires { 64 ≤ length bytes.now }
    ensures { MatchResult result
        (λ got. IsStore (record { id = got.id; hives = got.hives; layout = got.layout })
        × (take 64 bytes.now ≡ header_bytes (record { id = got.id; hives = got.hives; layout = got.layout })))
        (RefusedFor JournalDamaged ((store : Store) → IsStore store →
        ¬ (take 64 bytes.now ≡ header_bytes store))) }
{
    let hives = LittleEndian::read_u32(&bytes[HIVES_AT..]);
    if hives == 0 || hives > MOST_HIVES as u32 {
        return Err(Refusal::JournalDamaged);
    }
    let hives = hives as u8;
    let mut id = [0; 16];
    id.copy_from_slice(&bytes[ID_AT..HIVES_AT]);
    let id = Uuid::from_bytes(id);
    let layout = Layout::of_mark(bytes[MARK_AT]);
    let header = encode(alloc, id, hives, layout)?;
    if bytes[..HEADER_BYTES] != header[..] {
        return Err(Refusal::JournalDamaged);
    }
    Ok(StoreHeader { id, hives, layout })
}
