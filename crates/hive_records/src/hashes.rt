//! Hashes of names, as lists of subkeys have them.
ghost use Rattle.std.specs.Prelude.{◌≡◌};
ghost use Rattle.reg_names.specs.Names.{folded};
ghost use Rattle.hive_records.specs.ListEncodings.{hash_from};

use reg_names::folded_unit;

/// The hash of a name: from 0 on, for each unit of the folded name 37 times the hash and the unit, modulo 2^32.
pub fn name_hash(name: &[u16]) -> u32
    ensures { result ≡ hash_from 0 (folded name.now) }
{
    let mut hash = 0u32;
    for unit in name {
        hash = hash
            .wrapping_mul(37)
            .wrapping_add(u32::from(folded_unit(*unit)));
    }
    hash
}
