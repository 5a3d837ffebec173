//! What of a hive isn't read.

use refusals::Refusal;

/// A part of a key. Places count from 0 on.
#[derive(Clone, Copy, Debug, PartialEq, Eq)]
pub enum Part {
    /// Its class.
    Class,
    /// Its security descriptor.
    Descriptor,
    /// The cell of its list of values.
    ValueList,
    /// The values that its list has no room for.
    ValueCount,
    /// The value at this place of its list.
    Value(u32),
    /// Its list of subkeys.
    SubkeyList,
    /// The list at this place of its list of lists.
    Leaf(u32),
    /// The number of its subkeys: its lists have another.
    SubkeyCount,
    /// The subkey at a place of its list, or of one of the lists that its list names.
    Subkey {
        /// The place of that list in the list of lists, or 0 if there is none.
        leaf: u32,
        /// The place in that list.
        place: u32,
    },
    /// Security cells of all keys: one of them is also another record.
    Security,
}

/// A part of a key that isn't read.
#[derive(Clone, Copy, Debug, PartialEq, Eq)]
pub struct Loss {
    /// What isn't read.
    pub part: Part,
    /// The offset that leads to it in the bins data. Of a number it is that of the list, of security cells the root's.
    pub at: u32,
    /// Why: `HiveDamaged` of hive 0, `Unsupported`, or `TooLarge` for a key that lies too deep.
    pub why: Refusal,
}
