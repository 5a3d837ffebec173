//! Windows' code page 1252, in which a file of the old form is written.
ghost use Rattle.std.specs.Prelude.{◌≡◌};
ghost use Rattle.reg_file.specs.CodePage.{ansi_unit};

/// The units of the bytes 0x80 to 0x9f. Five of these bytes have no character: they stand for the controls of the same
/// number, as Windows maps them.
const UNITS_FROM_80: [u16; 32] = [
    0x20ac, 0x0081, 0x201a, 0x0192, 0x201e, 0x2026, 0x2020, 0x2021, 0x02c6, 0x2030, 0x0160, 0x2039,
    0x0152, 0x008d, 0x017d, 0x008f, 0x0090, 0x2018, 0x2019, 0x201c, 0x201d, 0x2022, 0x2013, 0x2014,
    0x02dc, 0x2122, 0x0161, 0x203a, 0x0153, 0x009d, 0x017e, 0x0178,
];

/// The unit that a byte stands for.
pub(crate) fn ansi_unit(byte: u8) -> u16
    ensures { result ≡ ansi_unit byte }
{
    match byte {
        0x80..=0x9f => UNITS_FROM_80[usize::from(byte - 0x80)],
        _ => u16::from(byte),
    }
}
