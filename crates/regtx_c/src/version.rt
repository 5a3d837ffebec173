//! Which library this is.
ghost use Rattle.std.specs.Prelude.{◌≡◌, true};

/// The version, as `REGTX_VERSION` of `regtx.h` has it: 10,000 times its first number, 100 times its second, and its third.
const VERSION: u32 = 900;

const _: () = prove!(VERSION == 900);

/// Whether the library was proved. `tools/c_library.py` turns it in the copy that it builds without proofs.
const IS_PROVED: bool = true;

/// Tells the version of the library, and whether it was proved. Takes no memory.
#[unsafe(no_mangle)]
pub extern "C" fn regtx_version(is_proved: &mut bool) -> u32
    ensures version { result ≡ VERSION }
    ensures proved { is_proved.new ≡ true }
{
    *is_proved = IS_PROVED;
    VERSION
}
