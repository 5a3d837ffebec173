//! How names are stored.
ghost use Rattle.std.specs.Prelude.{◌≡◌, ◌<◌, ◌^◌, length};
ghost use Rattle.hive_records.specs.NameEncodings.{is_latin, name_bytes};

/// Whether all units of a name are below 0x100: such a name is stored in Latin-1.
pub fn is_latin(name: &[u16]) -> bool
    ensures { result ≡ is_latin name.now }
{
    name.iter().all(|unit| *unit < 0x100)
}

/// How many bytes a name is stored in.
pub fn stored_len(name: &[u16]) -> u16
    requires { length (name_bytes name.now) < 2 ^ 16 }
    ensures { result ≡ length (name_bytes name.now) }
{
    if is_latin(name) {
        name.len() as u16
    } else {
        (2 * name.len()) as u16
    }
}
