//! The two layouts of a store, which the headers of journals tell.
ghost use Rattle.std.specs.Prelude.{◌≡◌, ◌<◌, get_or};
ghost use Rattle.commit_journal.specs.Store.{hives_in, magic};

/// Which hives a store has.
#[derive(Clone, Copy, PartialEq, Eq)]
pub enum Layout {
    /// The hives that calls name, and no more: `KTMJRNL1`.
    HivesAlone,
    /// One hive more, which keeps the outcomes of commits: `KTMJRNL2`.
    WithOutcomes,
}

impl Layout {
    /// How many hives a store of this layout has, if calls name `hives` of them. The one more is number `hives`.
    pub fn all_hives(self, hives: u8) -> u8
        requires { hives < 255 }
        ensures { result ≡ hives_in self hives }
    {
        match self {
            Layout::HivesAlone => hives,
            Layout::WithOutcomes => hives + 1,
        }
    }

    /// The bytes that a header of this layout begins with.
    pub(crate) fn magic(self) -> [u8; 8]
        ensures { result ≡ magic self }
    {
        match self {
            Layout::HivesAlone => *b"KTMJRNL1",
            Layout::WithOutcomes => *b"KTMJRNL2",
        }
    }

    /// The layout whose headers have this eighth byte, or the first layout if no header has it.
    pub(crate) fn of_mark(mark: u8) -> Layout
        ensures { (layout : Layout) → mark ≡ get_or (magic layout) 7 0 → result ≡ layout }
    {
        if mark == b'2' {
            Layout::WithOutcomes
        } else {
            Layout::HivesAlone
        }
    }
}
