//! What a change of one cell by an image leaves of its cells, and of the record in it: laws.

ghost use Rattle.std.specs.Prelude.{◌≡◌, ◌≢◌, ◌⊎◌, ◌+◌, ◌-◌, ◌*◌, ◌<◌, ◌≤◌, ◌++◌, ◌||◌, true, ℕ, List, Some, None, length, drop, slice_index, slice_range};
ghost use Rattle.hive_tree_model.specs.Cells.{SameBut};
ghost use Rattle.hive_cells.specs.Tiles.{Tiles, IsAllocatedCell, cell_size, cell_data, u32_at};
ghost use Rattle.hive_cells.specs.Bins.{Cells, Shows};
ghost use Rattle.hive_cells.specs.Changes.{StaysAt, Writes, Allocates, Frees};
ghost use Rattle.hive_records.specs.Numbers.{u16_at, u64_at};
ghost use Rattle.hive_records.specs.Lists.{is_plain, is_hinted, is_indirect};
ghost use Rattle.hive_records.specs.Heads.{key_node_fault, value_fault, list_fault, stride_of};
ghost use Rattle.hive_edit_laws.specs.Shifts.{ShiftsIn, ShiftsOut};
ghost use Rattle.hive_edit_laws.specs.RecordEdits.{NodeTimeChanges, NodeListsChange, ValueFieldsChange};
ghost use Rattle.hive_savepoint.specs.Puts.{HasData, Overlays};

/// The cells after a change of one of them.
///
/// - `stay`: a cell that stays has its data.
/// - `written`: bytes are written into a cell, from a byte of its data on. All other cells stay.
/// - `allocated`: a cell comes where none was. All other cells stay.
/// - `freed`: a cell goes. All other cells stay.
/// - `long`: the data of a cell are four bytes shorter than the cell.
pub fn cells_after()
    ensures stay { (old new : List ℕ) (before after : Cells) → Shows old before → Shows new after →
        (at : ℕ) → StaysAt old new at → after at ≡ before at }
    ensures written { (old new : List ℕ) (before after : Cells) → Shows old before →
        Shows new after → (at from : ℕ) (source : List ℕ) → Tiles old →
        HasData old at (from + length source) →
        Writes old new at (at + 4 + from) (at + 4 + from + length source) →
        slice_range new (at + 4 + from) (at + 4 + from + length source) ≡ source →
        SameBut at before after × (before at ≡ Some (cell_data old at))
        × (after at ≡ Some (cell_data new at))
        × Overlays (cell_data old at) (cell_data new at) from source }
    ensures allocated { (old new : List ℕ) (before after : Cells) → Shows old before →
        Shows new after → (len offset : ℕ) → Allocates old new len offset →
        SameBut offset before after × (before offset ≡ None)
        × (after offset ≡ Some (cell_data new offset)) }
    ensures freed { (old new : List ℕ) (before after : Cells) → Shows old before →
        Shows new after → (offset from : ℕ) → Frees old new offset from →
        SameBut offset before after × (before offset ≡ Some (cell_data old offset))
        × (after offset ≡ None) }
    ensures long { (bytes : List ℕ) (at : ℕ) → Tiles bytes → IsAllocatedCell bytes at →
        length (cell_data bytes at) + 4 ≡ cell_size bytes at }
{}

/// Room for data in cells.
///
/// - `written`, `allocated`, `freed`: what a cell has room for stays, but for the freed cell.
/// - `new`: a new cell has room for what it was allocated for.
/// - `by_data`: a cell has room for as many bytes as its data are.
pub fn rooms_after()
    ensures written { (old new : List ℕ) (at from to cell len : ℕ) → Writes old new at from to →
        HasData old cell len → HasData new cell len }
    ensures allocated { (old new : List ℕ) (size offset cell len : ℕ) →
        Allocates old new size offset → HasData old cell len → HasData new cell len }
    ensures freed { (old new : List ℕ) (offset from cell len : ℕ) → Frees old new offset from →
        cell ≢ offset → HasData old cell len → HasData new cell len }
    ensures new { (old new : List ℕ) (len offset : ℕ) → Allocates old new len offset →
        HasData new offset len }
    ensures by_data { (bytes : List ℕ) (at len : ℕ) → Tiles bytes → IsAllocatedCell bytes at →
        len ≤ length (cell_data bytes at) → HasData bytes at len }
{}

/// A key node after bytes were written over it.
///
/// - `time`: eight bytes from byte 4 on are the time.
/// - `bounds`: bytes 52 to 67 may be written too.
/// - `lists`, `lists_on`: bytes that are none of flags, security cell, class and name; one write after another.
pub fn nodes_after()
    ensures time { (old new source : List ℕ) (time : ℕ) → Overlays old new 4 source →
        length source ≡ 8 → u64_at source 0 ≡ time → NodeTimeChanges old new time }
    ensures bounds { (old mid new source : List ℕ) (time from : ℕ) → NodeTimeChanges old mid time →
        Overlays mid new from source → 52 ≤ from → from + length source ≤ 68 →
        NodeTimeChanges old new time }
    ensures lists { (old new source : List ℕ) (from : ℕ) → Overlays old new from source →
        ((4 ≤ from) × (from + length source ≤ 44)) ⊎ ((52 ≤ from) × (from + length source ≤ 72)) →
        NodeListsChange old new }
    ensures lists_on { (old mid new : List ℕ) → NodeListsChange old mid →
        NodeListsChange mid new → NodeListsChange old new }
{}

/// A value's record, and its data, after bytes were written over them.
///
/// - `fields`: twelve bytes from byte 4 on are its size, its data field and its type.
/// - `small`: data in the data field.
/// - `begins`: data at the beginning of a cell.
pub fn values_after()
    ensures fields { (old new source : List ℕ) → Overlays old new 4 source → length source ≡ 12 →
        ValueFieldsChange old new (u32_at source 8) × (u32_at new 4 ≡ u32_at source 0)
        × (u32_at new 8 ≡ u32_at source 4) }
    ensures small { (old new source its : List ℕ) → Overlays old new 4 source → length source ≡ 12 →
        20 ≤ length old → length its ≤ 4 → ((i : ℕ) → i < length its →
        slice_index source (4 + i) ≡ slice_index its i) →
        slice_range new 8 (8 + length its) ≡ its }
    ensures begins { (old new source : List ℕ) → Overlays old new 0 source →
        length source ≤ length old → new ≡ source ++ drop (length source) new }
{}

/// How long the data are of a record that keeps its own rules.
///
/// - `node`, `value`: the fields and the name.
/// - `list`: the fields and the elements.
pub fn records_are_long()
    ensures node { (bytes : List ℕ) → key_node_fault bytes ≡ None →
        76 + u16_at bytes 72 ≤ length bytes }
    ensures value { (bytes : List ℕ) → value_fault bytes ≡ None →
        20 + u16_at bytes 2 ≤ length bytes }
    ensures list { (bytes : List ℕ) → list_fault bytes ≡ None →
        ((is_plain bytes || (is_hinted bytes || is_indirect bytes)) ≡ true)
        × (4 + stride_of bytes * u16_at bytes 2 ≤ length bytes) }
{}

/// Elements of a list after bytes were written over it, in place or into another cell that has the elements before it.
///
/// - `more`: the bytes are an element, then the old elements from an index on.
/// - `fewer`: the bytes are the old elements after an index.
/// - `more_kept`, `fewer_kept`: another write, which is before the elements.
pub fn elements_after()
    ensures more { (old mid new source : List ℕ) (from stride count index word : ℕ) → 4 ≤ stride →
        index ≤ count → ((j : ℕ) → from ≤ j → j < from + stride * index →
        slice_index mid j ≡ slice_index old j) →
        Overlays mid new (from + stride * index) source →
        length source ≡ stride + stride * (count - index) → u32_at source 0 ≡ word → ((j : ℕ) →
        j < stride * (count - index) → slice_index source (stride + j)
        ≡ slice_index old (from + stride * index + j)) →
        ShiftsIn old new from stride count index word }
    ensures fewer { (old mid new source : List ℕ) (from stride count index : ℕ) → 4 ≤ stride →
        index ≤ count → ((j : ℕ) → from ≤ j → j < from + stride * index →
        slice_index mid j ≡ slice_index old j) →
        Overlays mid new (from + stride * index) source →
        length source ≡ stride * (count - index) → ((j : ℕ) → j < stride * (count - index) →
        slice_index source j ≡ slice_index old (from + stride * index + stride + j)) →
        ShiftsOut old new from stride count index }
    ensures more_kept { (old mid new source : List ℕ) (at from stride count index word : ℕ) →
        ShiftsIn old mid from stride count index word → Overlays mid new at source →
        at + length source ≤ from → ShiftsIn old new from stride count index word }
    ensures fewer_kept { (old mid new source : List ℕ) (at from stride count index : ℕ) →
        ShiftsOut old mid from stride count index → Overlays mid new at source →
        at + length source ≤ from → ShiftsOut old new from stride count index }
{}
