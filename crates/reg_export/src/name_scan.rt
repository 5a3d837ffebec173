//! A look at names before they are printed.
ghost use Rattle.std.specs.Prelude.{◌≡◌, ◌∷◌, [], map};
ghost use Rattle.std.specs.List.{list_all, flat_map};
ghost use Rattle.std.specs.FinMap as finite;
ghost use Rattle.reg_tree_parts.specs.declared.value.Value.{Value};
ghost use Rattle.reg_export.specs.NameTests.{fits_line};
ghost use Rattle.key_walk.specs.KeyPaths.{names_on};
ghost use Rattle.reg_export.specs.Scans.{seen_can_show};

use crate::characters::are_chars;
use crate::encoding::Encoding;
use key_walk::{KeyPath, KeySink};
use reg_tree_parts::{Key, Values};
use std::convert::Infallible;

/// What the names of keys and of values mean for a registration file. It takes the keys of all hives that the file is to
/// show, and prints nothing.
#[derive(Clone, Copy)]
pub struct NameScan {
    /// All names so far are characters: in none stands half of a pair of surrogates. If it does, UTF-8 can't show the
    /// name.
    pub are_chars: bool,
    /// No name so far has the unit 0, 10 or 13. If one has, a file of lines can't show it.
    pub fit_lines: bool,
}

impl NameScan {
    ghost use Rattle.reg_export.specs.Scans.{new_scan, scan_with};

    /// A scan that has seen no names.
    pub fn new() -> NameScan
        ensures { result ≡ new_scan }
    {
        NameScan {
            are_chars: true,
            fit_lines: true,
        }
    }

    /// Whether a file in this encoding can show all names so far.
    pub fn can_show(&self, encoding: Encoding) -> bool
        ensures { result ≡ seen_can_show encoding self.now }
    {
        match encoding {
            Encoding::Utf8 => self.fit_lines && self.are_chars,
            Encoding::Utf16 => self.fit_lines,
        }
    }

    // sees one name more
    fn see(&mut self, name: &[u16])
        ensures { self.new ≡ scan_with self.old (name.now ∷ []) }
    {
        self.are_chars = self.are_chars && are_chars(name);
        self.fit_lines = self.fit_lines && fits(name);
    }

    // sees the names on a path
    fn see_path(&mut self, path: &KeyPath<'_>)
        ensures { self.new ≡ scan_with self.old (names_on path.now) }
    {
        let KeyPath::Below(above, name) = path else {
            return;
        };
        self.see_path(above);
        self.see(name.units());
    }

    // sees the names of values
    fn see_values(&mut self, values: &Values)
        ensures { self.new ≡ scan_with self.old
            (map (λ (value : Value). value.name) (finite.values values.now)) }
    {
        for index in 0..values.len() {
            let Some(value) = values.at(index) else {
                unreachable!();
            };
            self.see(value.name.units());
        }
    }
}

impl KeySink for NameScan {
    ghost use Rattle.reg_export.specs.Scans.{scan_with, shown_names};
    ghost use Rattle.reg_export.specs.ScanLaws.{scan_nothing, scan_more};

    ghost Took = { λ old new keys. new ≡ scan_with old (flat_map shown_names keys) };

    type Error = Infallible;

    fn take(&mut self, path: &KeyPath<'_>, key: &Key) -> Result<(), Infallible> {
        self.see_path(path);
        self.see_values(key.values());
        Ok(())
    }

    ghost took_none = { scan_nothing };

    ghost took_more = { scan_more };
}

// whether a name has none of the units 0, 10 and 13
fn fits(name: &[u16]) -> bool
    ensures { result ≡ fits_line name.now }
{
    name.iter().all(|unit| !matches!(*unit, 0 | 10 | 13))
}
