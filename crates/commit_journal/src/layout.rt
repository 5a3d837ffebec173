//! The layout of a journal. Offsets and lengths are in bytes.

/// The length of a header. The first gate follows it.
pub(crate) const HEADER_BYTES: usize = 64;

/// The offset of the byte in which the headers of the two layouts differ, the last before the id.
pub(crate) const MARK_AT: usize = 7;

/// The offset of the store's id in a header, 16 bytes.
pub(crate) const ID_AT: usize = 8;

/// The offset of the number of hives in a header, 4 bytes.
pub(crate) const HIVES_AT: usize = 24;

/// The gate before a body that counts. A gate of any other byte is closed.
pub const OPEN_GATE: u8 = 0xc3;

/// The gate that is written if none is to be open.
pub(crate) const CLOSED_GATE: u8 = 0;

/// The offset of the first gate, after the header.
pub const FIRST_GATE: u64 = 64;

/// The used room of a journal without elements: its header and a gate.
pub(crate) const EMPTY_ROOM: u64 = 65;

/// The most bytes that a body may have.
pub const MOST_BODY_BYTES: u64 = 8_388_608;

/// The bytes of a body's head: its size (4 bytes), its first number (8) and the count of its elements (4).
pub(crate) const HEAD_BYTES: u64 = 16;

/// The offset of the first element's number in a body's head.
pub(crate) const FIRST_NUMBER_AT: usize = 4;

/// The offset of the count of elements in a body's head.
pub(crate) const COUNT_AT: usize = 12;

/// The bytes of an element's length, with which it begins.
pub(crate) const LENGTH_BYTES: usize = 4;

/// The least bytes of an element: its length, its moment and the count of its operations.
pub(crate) const LEAST_ELEMENT_BYTES: u64 = 16;

/// The room that each element uses beside its bytes: a gate and a body's head, as if it were alone in its body.
pub(crate) const ELEMENT_ROOM: u64 = 17;

/// The most bytes that one call reads.
pub(crate) const CHUNK_BYTES: usize = 65_536;

const _: () = prove!(OPEN_GATE == 0xc3);

const _: () = prove!(FIRST_GATE == 64);

const _: () = prove!(MOST_BODY_BYTES == 8 * 1_048_576);
