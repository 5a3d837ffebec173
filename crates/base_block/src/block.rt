//! A base block, read from a sector and written to one.

ghost use Rattle.std.specs.Prelude.{◌≡◌, ◌+◌, ◌≤◌, ◌<◌, ◌^◌, ◌++◌, true, length, take, IfSome, IfNone};
ghost use Rattle.base_block.specs.Layout.{block_at, number_at, sector_of, fresh_primary, body_of, put_at, zeros, AllFit, is_clean_block};
ghost use Rattle.byteorder.specs.Endian.{little_bytes};

use crate::fields::{AppliedNumber, FileType, SequenceNumber, Signature};
use crate::sums::sum_of_prefix;
use byteorder::{ByteOrder, LittleEndian};
use uuid::Uuid;

/// The major version of the profile.
pub const MAJOR_VERSION: u32 = 1;

/// The minor version that is written, and the newest one that is read.
pub const MINOR_VERSION: u32 = 5;

/// The oldest minor version that is read, in a primary file alone.
pub const OLDEST_MINOR_VERSION: u32 = 3;

/// The file format of the profile.
pub const FILE_FORMAT: u32 = 1;

// the bytes of a first sector, in which all fields are
const SECTOR_BYTES: usize = 512;

const _: () = prove!(SECTOR_BYTES == 512);

// the clustering factor, which is never read
const CLUSTERING_FACTOR: u32 = 1;

/// The fields of a base block, as they were read or are to be written. The file name at offset 48 and
/// the clustering factor at 44 are not read, and not kept.
#[derive(Clone, Copy)]
pub struct BaseBlock {
    /// Offset 0: `regf` in each block that is used.
    pub signature: Signature,
    /// Offset 4: the number of the write that was begun last.
    pub primary: SequenceNumber,
    /// Offset 8: the number of the write that was ended last.
    pub secondary: SequenceNumber,
    /// Offset 12: when the hive was written last, in units of 100 nanoseconds since 1601.
    pub last_written: u64,
    /// Offset 20: the major version.
    pub major: u32,
    /// Offset 24: the minor version.
    pub minor: u32,
    /// Offset 28: a primary file or a log.
    pub file_type: FileType,
    /// Offset 32: the file format.
    pub format: u32,
    /// Offset 36: the root's cell, counted in bytes from the start of the hive bins data.
    pub root: u32,
    /// Offset 40: the bytes of hive bins data.
    pub bins_size: u32,
    /// Offset 176: the store that the hive belongs to.
    pub store: Uuid,
    /// Offset 192: the last accepted change that the hive has.
    pub applied: AppliedNumber,
    /// Whether the sum at offset 508 is the sum of the 508 bytes before it. What is written has the
    /// right sum, whatever this field says.
    pub sum_is_right: bool,
}

impl BaseBlock {
    /// A clean block of a primary file of a minor version, which was never written since it was
    /// made. It was last written at 0, and no change is applied.
    pub fn of_primary(
        number: SequenceNumber,
        minor: u32,
        root: u32,
        bins_size: u32,
        store: Uuid,
    ) -> BaseBlock
        ensures { result ≡ fresh_primary number.0 minor root bins_size store }
    {
        BaseBlock {
            signature: Signature::REGF,
            primary: number,
            secondary: number,
            last_written: 0,
            major: MAJOR_VERSION,
            minor,
            file_type: FileType::PRIMARY,
            format: FILE_FORMAT,
            root,
            bins_size,
            store,
            applied: AppliedNumber(0),
            sum_is_right: true,
        }
    }

    /// The fields of any sector, whatever its bytes are.
    pub fn read(sector: &[u8; 512]) -> BaseBlock
        ensures { result ≡ block_at sector.now }
    {
        let mut store = [0; 16];
        store.copy_from_slice(&sector[176..192]);
        BaseBlock {
            signature: Signature(u32_at(sector, 0)),
            primary: SequenceNumber(u32_at(sector, 4)),
            secondary: SequenceNumber(u32_at(sector, 8)),
            last_written: u64_at(sector, 12),
            major: u32_at(sector, 20),
            minor: u32_at(sector, 24),
            file_type: FileType(u32_at(sector, 28)),
            format: u32_at(sector, 32),
            root: u32_at(sector, 36),
            bins_size: u32_at(sector, 40),
            store: Uuid::from_bytes(store),
            applied: AppliedNumber(u64_at(sector, 192)),
            sum_is_right: u32_at(sector, 508) == sum_of_prefix(sector),
        }
    }

    /// The fields of the first sector of a file that begins with these bytes, if they have one.
    pub fn read_first(bytes: &[u8]) -> Option<BaseBlock>
        ensures some { IfSome result (λ block. (block ≡ block_at (take 512 bytes.now))
            × (512 ≤ length bytes.now)) }
        ensures none { IfNone result (length bytes.now < 512) }
    {
        if bytes.len() < SECTOR_BYTES {
            return None;
        }
        let mut sector = [0; SECTOR_BYTES];
        sector.copy_from_slice(&bytes[..SECTOR_BYTES]);
        Some(BaseBlock::read(&sector))
    }

    /// The sector of these fields: each at its offset, the clustering factor 1, the right sum, and zeros
    /// elsewhere. Reading it gives these fields again.
    pub fn write(&self) -> [u8; 512]
        ensures encoding { result ≡ sector_of self.now }
        ensures again { block_at result ≡ record self.now { sum_is_right = true } }
    {
        let mut sector = [0; 512];
        self.put_fields(&mut sector);
        let sum = sum_of_prefix(&sector);
        put_u32(&mut sector, 508, sum);
        sector
    }

    /// Whether the sum is right and the two numbers are equal. A primary file that is not clean is
    /// repaired from its log before anything of it is used.
    pub fn is_clean(&self) -> bool
        ensures { result ≡ is_clean_block self.now }
    {
        self.sum_is_right && self.primary == self.secondary
    }

    // writes the fields at their offsets into a sector of zeros
    fn put_fields(&self, sector: &mut [u8; 512])
        requires { sector.old ≡ zeros 512 }
        ensures put { sector.new ≡ body_of self.now ++ zeros 4 }
        ensures long { length (body_of self.now) ≡ 508 }
        ensures fits { AllFit self.now }
    {
        put_u32(sector, 0, self.signature.0);
        put_u32(sector, 4, self.primary.0);
        put_u32(sector, 8, self.secondary.0);
        put_u64(sector, 12, self.last_written);
        put_u32(sector, 20, self.major);
        put_u32(sector, 24, self.minor);
        put_u32(sector, 28, self.file_type.0);
        put_u32(sector, 32, self.format);
        put_u32(sector, 36, self.root);
        put_u32(sector, 40, self.bins_size);
        put_u32(sector, 44, CLUSTERING_FACTOR);
        put_store(sector, &self.store);
        put_u64(sector, 192, self.applied.0);
    }
}

// the number of 32 bits at an offset
fn u32_at(sector: &[u8], offset: usize) -> u32
    requires { offset + 4 ≤ length sector.now }
    ensures { result ≡ number_at offset 4 sector.now }
{
    LittleEndian::read_u32(&sector[offset..])
}

// the number of 64 bits at an offset
fn u64_at(sector: &[u8], offset: usize) -> u64
    requires { offset + 8 ≤ length sector.now }
    ensures { result ≡ number_at offset 8 sector.now }
{
    LittleEndian::read_u64(&sector[offset..])
}

#[tactic(auto, unfolding(crate::specs::Layout::put_at))]
// writes a number of 32 bits at an offset
fn put_u32(sector: &mut [u8; 512], offset: usize, number: u32)
    requires { offset ≤ 508 }
    ensures put { sector.new ≡ put_at offset (little_bytes 4 number) sector.old }
    ensures fits { number < 2 ^ 32 }
{
    LittleEndian::write_u32(&mut sector[offset..offset + 4], number);
}

#[tactic(auto, unfolding(crate::specs::Layout::put_at))]
// writes a number of 64 bits at an offset
fn put_u64(sector: &mut [u8; 512], offset: usize, number: u64)
    requires { offset ≤ 504 }
    ensures put { sector.new ≡ put_at offset (little_bytes 8 number) sector.old }
    ensures fits { number < 2 ^ 64 }
{
    LittleEndian::write_u64(&mut sector[offset..offset + 8], number);
}

#[tactic(auto, unfolding(crate::specs::Layout::put_at))]
// writes the store's bytes at their offset
fn put_store(sector: &mut [u8; 512], store: &Uuid)
    ensures put { sector.new ≡ put_at 176 store.now sector.old }
    ensures long { length store.now ≡ 16 }
{
    sector[176..192].copy_from_slice(store.as_bytes());
}
