//! The limits of the project, each named once.

/// Names in a path of a call, and so levels of a tree below its root.
pub const MOST_PATH_NAMES: usize = 512;

/// Units in a key name that a call hands in.
pub const MOST_KEY_NAME_UNITS: usize = 255;

/// Units in a value name that a call hands in.
pub const MOST_VALUE_NAME_UNITS: usize = 16_383;

/// Levels that one creation of a key may add.
pub const MOST_NEW_LEVELS: usize = 32;

/// Hives that a store is made with.
pub const MOST_HIVES: usize = 16;

/// Trees that a store has room for: its hives' trees, and one more.
pub const MOST_TREES: usize = 17;

/// Bytes of data in one value.
pub const MOST_VALUE_BYTES: usize = 1_048_576;

/// The weight of one tree.
pub const MOST_WEIGHT: u64 = 16_777_216;

/// Bytes of one encoded change.
pub const MOST_ELEMENT_BYTES: u64 = 4_194_304;

/// Bytes of journal room.
pub const MOST_JOURNAL_BYTES: u64 = 67_108_864;

/// Changes accepted in one opening of a store.
pub const MOST_HISTORY: u64 = 1_048_576;

/// The greatest number of an accepted change.
pub const GREATEST_NUMBER: u64 = 9_223_372_036_854_775_807;

/// Sessions open at once.
pub const MOST_SESSIONS: usize = 32;

/// Transactions kept at once, ended and unclosed ones included.
pub const MOST_TRANSACTIONS: usize = 1_024;

/// Bytes of hive bins data.
pub const MOST_BINS_BYTES: usize = 67_108_864;

// The numbers once more. Contracts and definitions name the constants above and say no number of their own. So these
// lines alone refuse a limit that is one off.
const _: () = prove!(MOST_PATH_NAMES == 512);

const _: () = prove!(MOST_KEY_NAME_UNITS == 255);

const _: () = prove!(MOST_VALUE_NAME_UNITS == 16_383);

const _: () = prove!(MOST_NEW_LEVELS == 32);

const _: () = prove!(MOST_HIVES == 16);

const _: () = prove!(MOST_TREES == 17);

const _: () = prove!(MOST_VALUE_BYTES == 1_048_576);

const _: () = prove!(MOST_WEIGHT == 16_777_216);

const _: () = prove!(MOST_ELEMENT_BYTES == 4_194_304);

const _: () = prove!(MOST_JOURNAL_BYTES == 67_108_864);

const _: () = prove!(MOST_HISTORY == 1_048_576);

const _: () = prove!(GREATEST_NUMBER == 9_223_372_036_854_775_807);

const _: () = prove!(MOST_SESSIONS == 32);

const _: () = prove!(MOST_TRANSACTIONS == 1_024);

const _: () = prove!(MOST_BINS_BYTES == 67_108_864);
