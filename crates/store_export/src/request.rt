//! What is to be printed, and how.
ghost use Rattle.std.specs.Prelude.{◌≡◌};
ghost use Rattle.store_export.specs.Exports.{prefix_of};

use reg_export::Encoding;
use reg_names::Path;
use reg_prefixes::Prefixes;

/// How keys and values are printed.
#[derive(Clone, Copy, Debug, PartialEq, Eq)]
pub enum Form {
    /// A registration file in this encoding.
    Reg(Encoding),
    /// Lines of JSON.
    Json,
    /// Lines of fields between tabs.
    Tsv,
}

/// A key, which is printed with all keys below it.
#[derive(Drop)]
pub struct Selection {
    /// The hive's number.
    pub hive: u8,
    /// The key's path.
    pub path: Path,
}

/// What is to be printed.
#[derive(Clone, Copy)]
pub struct ExportRequest<'a> {
    /// How.
    pub form: Form,
    /// The key, if not all is printed.
    pub selection: Option<&'a Selection>,
    /// The prefixes of the hives.
    pub prefixes: &'a Prefixes,
}

impl<'a> ExportRequest<'a> {
    /// The prefix by which a hive is shown.
    pub(crate) fn prefix(&self, hive: u8) -> &'a [u8]
        ensures { result.now ≡ prefix_of self.now.prefixes.now hive }
    {
        match self.prefixes.shown(hive) {
            Some(prefix) => prefix,
            None => &[],
        }
    }
}
