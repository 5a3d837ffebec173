//! Names of keys and values: lists of UTF-16 units, compared by their folded units.
ghost use Rattle.std.specs.Prelude.{◌≡◌, List, ℕ, IfOk, true, refl};
ghost use Rattle.std.specs.Ordering.{eq_by_cmp, as_partial_cmp};
ghost use Rattle.std.specs.Cmp.{eq_by_cmp_equiv, partial_equiv_from_equiv, partial_order_from_agreeing_total};
ghost use Rattle.std.specs.Cmp.Lexicographic.{on_texts};
ghost use Rattle.reg_names.specs.Names.{fold_unit, folded, name_cmp, is_name_unit, is_key_unit, is_key_name, is_value_name, name_if};
ghost use Rattle.refusals.specs.Answers.{IsOrNoMemory};

use crate::path::SEPARATOR;
use crate::units::Units;
use refusals::Refusal;
use refusals::limits::{MOST_KEY_NAME_UNITS, MOST_VALUE_NAME_UNITS};
use std::alloc::{AllocError, Global};
use std::cmp::Ordering;
use std::marker::Model;

/// The unit with `a` to `z` replaced by `A` to `Z`; any other unit is its own fold.
pub fn folded_unit(unit: u16) -> u16
    ensures { result ≡ fold_unit unit }
{
    match unit {
        0x61..=0x7a => unit - 0x20,
        _ => unit,
    }
}

/// The name of a key or a value, with its spelling. Names compare by their folded units.
///
/// A name from a hive file may have any units. The calls of the project make and name only names of [`Name::key`] and
/// [`Name::value`]. A name of up to 11 units takes no memory; the clones of a longer one share its units.
#[derive(Drop)]
pub struct Name {
    units: Units,
}

impl Model for Name {
    ghost Value = { List ℕ };

    ghost view = { λ name. name.units };
}

impl Name {
    /// A key name: 1 to 255 units from 0x20 to 0x7e, none of them the backslash.
    ///
    /// Refused with `BadName` exactly if the units are not such a name.
    pub fn key(alloc: Global, units: &[u16]) -> Result<Name, Refusal>
        ensures { IsOrNoMemory result (name_if (is_key_name units.now) units.now) }
    {
        if is_key_text(units) {
            Ok(Name::stored(alloc, units)?)
        } else {
            Err(Refusal::BadName)
        }
    }

    /// A value name: at most 16,383 units from 0x20 to 0x7e. The empty one is the default value's.
    ///
    /// Refused with `BadName` exactly if the units are not such a name.
    pub fn value(alloc: Global, units: &[u16]) -> Result<ValueName, Refusal>
        ensures { IsOrNoMemory result (name_if (is_value_name units.now) units.now) }
    {
        if is_value_text(units) {
            let name = Name::stored(alloc, units)?;
            Ok(ValueName { name })
        } else {
            Err(Refusal::BadName)
        }
    }

    /// The key name of these bytes, each of which is a unit. Refused as by [`Name::key`].
    pub fn key_in_bytes(alloc: Global, bytes: &[u8]) -> Result<Name, Refusal>
        ensures { IsOrNoMemory result (name_if (is_key_name bytes.now) bytes.now) }
    {
        let units = Units::widened(alloc, bytes)?;
        if is_key_text(units.as_slice()) {
            Ok(Name { units })
        } else {
            Err(Refusal::BadName)
        }
    }

    /// The value name of these bytes, each of which is a unit. Refused as by [`Name::value`].
    pub fn value_in_bytes(alloc: Global, bytes: &[u8]) -> Result<ValueName, Refusal>
        ensures { IsOrNoMemory result (name_if (is_value_name bytes.now) bytes.now) }
    {
        let units = Units::widened(alloc, bytes)?;
        if is_value_text(units.as_slice()) {
            let name = Name { units };
            Ok(ValueName { name })
        } else {
            Err(Refusal::BadName)
        }
    }

    /// A name as a hive file stores it, of any units. Refused only if there is no memory.
    pub fn stored(alloc: Global, units: &[u16]) -> Result<Name, AllocError>
        ensures { IfOk result (λ name. name ≡ units.now) }
    {
        let units = Units::new(alloc, units)?;
        Ok(Name { units })
    }

    /// The units as they are spelled.
    pub fn units(&self) -> &[u16]
        ensures { result.now ≡ self.now }
    {
        self.units.as_slice()
    }
}

impl Clone for Name {
    ghost is_clone = { λ name copy. copy ≡ name };

    fn clone(&self) -> Result<Name, AllocError>
        ensures { IfOk result (λ copy. copy ≡ self.now) }
    {
        let units = self.units.clone()?;
        Ok(Name { units })
    }
}

impl PartialEq for Name {
    ghost eq = { eq_by_cmp name_cmp };

    ghost laws = { partial_equiv_from_equiv (eq_by_cmp_equiv (on_texts folded)) };

    fn eq(&self, other: &Name) -> bool {
        self.cmp(other).is_eq()
    }
}

impl Eq for Name {
    ghost laws = { eq_by_cmp_equiv (on_texts folded) };
}

impl PartialOrd for Name {
    ghost partial_cmp = { as_partial_cmp name_cmp };

    ghost laws = { partial_order_from_agreeing_total name_cmp (on_texts folded) (λ _ _. refl)
        (λ _ _. refl) };

    fn partial_cmp(&self, other: &Name) -> Option<Ordering> {
        Some(self.cmp(other))
    }
}

impl Ord for Name {
    ghost cmp = { name_cmp };

    ghost total = { on_texts folded };

    ghost matches_partial_cmp = { λ _ _. refl };

    ghost matches_eq = { λ _ _. refl };

    fn cmp(&self, other: &Name) -> Ordering {
        let mine = self.units().iter().map(|unit| folded_unit(*unit));
        let theirs = other.units().iter().map(|unit| folded_unit(*unit));
        mine.cmp(theirs)
    }
}

/// A value name that a call may hand in, by the rule of [`Name::value`].
#[derive(Drop)]
pub struct ValueName {
    name: Name,
}

impl Model for ValueName {
    ghost Value = { List ℕ };

    ghost view = { λ value. value.name };

    ghost invariant = { λ value. is_value_name value.name ≡ true };
}

impl ValueName {
    /// The name itself.
    pub fn name(&self) -> &Name
        ensures same { result.now ≡ self.now }
        ensures may { is_value_name self.now ≡ true }
    {
        &self.name
    }
}

impl Clone for ValueName {
    ghost is_clone = { λ name copy. copy ≡ name };

    fn clone(&self) -> Result<ValueName, AllocError>
        ensures { IfOk result (λ copy. copy ≡ self.now) }
    {
        let name = self.name.clone()?;
        Ok(ValueName { name })
    }
}

fn may_name(unit: u16) -> bool
    ensures { result ≡ is_name_unit unit }
{
    unit >= 0x20 && unit <= 0x7e
}

fn may_name_key(unit: u16) -> bool
    ensures { result ≡ is_key_unit unit }
{
    may_name(unit) && unit != SEPARATOR
}

fn is_key_text(units: &[u16]) -> bool
    ensures { result ≡ is_key_name units.now }
{
    let known = units.iter().all(|unit| may_name_key(*unit));
    !units.is_empty() && units.len() <= MOST_KEY_NAME_UNITS && known
}

fn is_value_text(units: &[u16]) -> bool
    ensures { result ≡ is_value_name units.now }
{
    let known = units.iter().all(|unit| may_name(*unit));
    units.len() <= MOST_VALUE_NAME_UNITS && known
}
