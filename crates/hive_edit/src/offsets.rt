//! The offsets in a list's data.
ghost use Rattle.std.specs.Prelude.{◌≡◌, ◌≤◌, ◌<◌, ◌*◌, length};

use hive_records::u32_at;

/// The bytes of an offset.
pub(crate) const OFFSET: usize = 4;

const _: () = prove!(OFFSET == 4);

/// Offsets of records in a list's data: each is the first four bytes of an element.
#[derive(Drop)]
pub(crate) struct Offsets<'a> {
    /// The elements.
    pub(crate) bytes: &'a [u8],
    /// The bytes of an element.
    pub(crate) stride: usize,
    /// How many elements there are.
    pub(crate) count: usize,
    ghost wide: { 4 ≤ stride },
    ghost fits: { stride * count ≤ length bytes.now },
}

impl Offsets<'_> {
    ghost use Rattle.hive_edit.specs.Lists.{offset_at};

    /// The offset at an index.
    pub(crate) fn get(&self, index: usize) -> u32
        requires { index < self.now.count }
        ensures { result ≡ offset_at self.now index }
    {
        u32_at(self.bytes, self.stride * index)
    }
}
