//! Whether a base block may be used. A block is judged only if it is used. It is the block of a
//! clean primary file, or of the log from which an unclean one is repaired.

ghost use Rattle.std.specs.Prelude.{◌≡◌, ◌↔◌, IsOk, IfErr, IsTrue};
ghost use Rattle.base_block.specs.Judgements.{IsPrimary, IsLog, IsUsable, IsBinsSize, IsPrimaryVersion, IsLogVersion, PrimaryRefused};

use crate::block::{BaseBlock, FILE_FORMAT, MAJOR_VERSION, MINOR_VERSION, OLDEST_MINOR_VERSION};
use crate::fields::{FileType, Signature};
use refusals::limits::MOST_BINS_BYTES;
use refusals::{Cause, Refusal};

// bins data come in bins of this many bytes, or of multiples of it
const BIN_BYTES: u32 = 4096;

// the numbers of the format, so that the crate isn't built with a wrong one
const _: () = prove!(MAJOR_VERSION == 1);

const _: () = prove!(MINOR_VERSION == 5);

const _: () = prove!(OLDEST_MINOR_VERSION == 3);

const _: () = prove!(FILE_FORMAT == 1);

const _: () = prove!(BIN_BYTES == 4096);

impl BaseBlock {
    /// Judges the block of a primary file that is used. Refused with `HiveDamaged` of hive 0 and
    /// the cause `BadBase` if the signature isn't `regf`. Refused so too if the bins size is 0 or
    /// no multiple of 4,096. Refused with `Unsupported` if a version, the format or the type is
    /// outside a primary file's profile (1.3 to 1.5, format 1, type 0). Refused with `TooLarge` if the
    /// bins size is over the limit. If several of these hold, one of them is reported.
    pub fn judge_primary(&self) -> Result<(), Refusal>
        ensures ok { IsOk result ↔ IsPrimary self.now }
        ensures why { IfErr result (PrimaryRefused self.now) }
    {
        if self.signature != Signature::REGF || !self.has_bins_size() {
            return Err(Refusal::from(Cause::BadBase));
        }
        if !self.is_primary_version() || self.file_type != FileType::PRIMARY {
            return Err(Refusal::Unsupported);
        }
        if self.bins_size as usize > MOST_BINS_BYTES {
            return Err(Refusal::TooLarge);
        }
        Ok(())
    }

    /// Judges the block of a log that is used. Refused with `HiveDamaged` of hive 0 and the cause
    /// `BadLog` alone. Refused if the sum is wrong, the numbers differ, or the signature isn't
    /// `regf`. Refused if a version or the format is outside a log's profile (1.5, format 1), or
    /// the type is neither 1 nor 2. Refused if the bins size is 0, no multiple of 4,096 or over the
    /// limit.
    pub fn judge_log(&self) -> Result<(), Refusal>
        ensures ok { IsOk result ↔ IsLog self.now }
        ensures why { IfErr result (λ e. e ≡ Refusal.HiveDamaged 0 Cause.BadLog) }
    {
        if self.is_usable() && self.is_clean() && self.is_log_version() && self.file_type.is_log() {
            return Ok(());
        }
        Err(Refusal::from(Cause::BadLog))
    }

    // whether the signature and the bins size are right for a block that is used, whatever its file
    // is
    fn is_usable(&self) -> bool
        ensures { IsTrue result ↔ IsUsable self.now }
    {
        self.signature == Signature::REGF
            && self.has_bins_size()
            && self.bins_size as usize <= MOST_BINS_BYTES
    }

    // whether a primary file may have the versions and the format
    fn is_primary_version(&self) -> bool
        ensures { IsTrue result ↔ IsPrimaryVersion self.now }
    {
        self.major == MAJOR_VERSION
            && self.minor >= OLDEST_MINOR_VERSION
            && self.minor <= MINOR_VERSION
            && self.format == FILE_FORMAT
    }

    // whether a log may have them
    fn is_log_version(&self) -> bool
        ensures { IsTrue result ↔ IsLogVersion self.now }
    {
        self.major == MAJOR_VERSION && self.minor == MINOR_VERSION && self.format == FILE_FORMAT
    }

    // whether the bins size is a multiple of 4,096 and not 0
    fn has_bins_size(&self) -> bool
        ensures { IsTrue result ↔ IsBinsSize self.now.bins_size }
    {
        self.bins_size.is_multiple_of(BIN_BYTES) && self.bins_size != 0
    }
}
