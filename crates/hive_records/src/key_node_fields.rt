//! What a key's record says beside its row.

/// What a key's record says beside the key's row: the offsets and the numbers of the cells that belong to it, and upper
/// bounds. The bounds are not read. An offset beside a 0 is the offset of none.
#[derive(Drop)]
pub struct KeyNodeFields {
    /// The parent's cell.
    pub parent: u32,
    /// The number of subkeys.
    pub subkey_total: u32,
    /// The cell of their list.
    pub subkey_list: u32,
    /// The number of values.
    pub value_count: u32,
    /// The cell of their list.
    pub values: u32,
    /// The security cell.
    pub security: u32,
    /// The cell of the class.
    pub class: u32,
    /// The most bytes of a subkey's name, as if in UTF-16.
    pub longest_subkey: u16,
    /// The most bytes of a subkey's class.
    pub longest_class: u32,
    /// The most bytes of a value's name, as if in UTF-16.
    pub longest_value: u32,
    /// The most bytes of a value's data.
    pub largest_data: u32,
}
