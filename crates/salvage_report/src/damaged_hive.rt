//! A hive's file that may be damaged.
ghost use Rattle.std.specs.Prelude.{◌≡◌, ◌≢◌, ◌≤◌, ◌⊎◌, ℕ, List, [], length, true, false, Ok, Err, IfOk, IfErr, IfSome, MatchResult};
ghost use Rattle.refusals.specs.declared.refusal.Refusal.TheVariants.{TooLarge, Unsupported};
ghost use Rattle.hive_cells.specs.Bins.{Cells, Shows};
ghost use Rattle.hive_lookup.specs.Records.{record_at};
ghost use Rattle.hive_lookup.specs.declared.list_kind.ListKind.TheVariants.{Subkeys};
ghost use Rattle.salvage_report.specs.OpenedHives.{IsDecided, IsOpenedOn, IsStateOf, IsUnusable, IsWanted, OpenRefused, bins_in, head_of, state_is_whole};

use base_block::{BaseBlock, Signature};
use hive_cells::Image;
use hive_lookup::key_node;
use hive_mending::{Gap, MendedImage, mend};
use refusals::{Cause, Refusal};
use std::alloc::Global;

// the offset of the bins data in a file
const HEAD_BYTES: usize = 4096;

// bins data are whole pages of these bytes
const PAGE_BYTES: usize = 4096;

const _: () = prove!(HEAD_BYTES == 4096);

const _: () = prove!(PAGE_BYTES == 4096);

/// What a file's base block says, and how much of the bins data is there.
#[derive(Clone, Copy, Debug, PartialEq, Eq)]
pub struct HiveState {
    /// Whether the base block's sum is right. If it is wrong, all that follows the base block is taken as bins data.
    pub sum_is_right: bool,
    /// Whether its numbers are equal. If they differ, the hive's logs have changes that its file hasn't.
    pub is_clean: bool,
    /// The bytes of whole pages of bins data that are there.
    pub bins_bytes: u64,
    /// The bytes that are missing at their end.
    pub missing_bytes: u64,
}

impl HiveState {
    /// Whether there is nothing to be told.
    pub fn is_whole(&self) -> bool
        ensures { result ≡ state_is_whole self.now }
    {
        self.sum_is_right && (self.is_clean && self.missing_bytes == 0)
    }
}

/// A hive whose bins data are mended, and whose root can be read.
#[derive(Drop)]
pub struct DamagedHive {
    /// The mended bins data.
    pub image: Image,
    /// Where no bin or no cell stood, in the order of their offsets.
    pub gaps: Vec<Gap>,
    /// The offset of the root's node in the bins data.
    pub root: u32,
    /// The minor version.
    pub minor: u32,
    /// What is to be told of the file.
    pub state: HiveState,
}

impl DamagedHive {
    /// The hive in a file's bytes. The base block is used as it is.
    ///
    /// Refused with `HiveDamaged` of hive 0 if there is no base block (`Truncated`), if it doesn't begin with `regf` (`BadBase`), or
    /// with the cause that the root's node isn't read. Refused with `Unsupported` if the sum is right, and the version or the type
    /// isn't one that is read. Refused with `TooLarge` over 64 MiB of bins data, and with `NoMemory`.
    pub fn opened(alloc: Global, file: Vec<u8>) -> Result<DamagedHive, Refusal>
        ensures opened { IfOk result (IsOpenedOn file.items) }
        ensures refused { IfErr result (OpenRefused file.items) }
    {
        let block = match judged_block(&file) {
            Ok(block) => block,
            Err(why) => return Err(why),
        };
        let size = wanted_size(&block, &file);
        let bins = bins_of(file, size);
        let state = state_of(&block, size, bins.len());
        let MendedImage { image, gaps } = match mend(alloc, bins) {
            Ok(mended) => mended,
            Err(why) => return Err(why),
        };
        let root = block.root;
        let minor = block.minor;
        match root_is_read(&image, root) {
            Ok(()) => Ok(DamagedHive {
                image,
                gaps,
                root,
                minor,
                state,
            }),
            Err(why) => Err(why),
        }
    }

    /// Whether neither the file nor a gap is to be told.
    pub fn is_whole(&self) -> bool
        ensures state { result ≡ true → state_is_whole self.now.state ≡ true }
        ensures gaps { result ≡ true → self.now.gaps.items ≡ [] }
        ensures damaged { result ≡ false → (state_is_whole self.now.state ≡ false) ⊎ (self.now.gaps.items ≢ []) }
    {
        self.state.is_whole() && self.gaps.is_empty()
    }

    /// The bytes that are in no bin or in no cell, or missing.
    pub fn lost_bytes(&self) -> u64 {
        let mut bytes = self.state.missing_bytes;
        for gap in &self.gaps {
            bytes = bytes.saturating_add(gap.bytes as u64);
        }
        bytes
    }
}

// the base block of a file, if it can be used
fn judged_block(file: &[u8]) -> Result<BaseBlock, Refusal>
    ensures block { IfOk result (λ block. (block ≡ head_of file.now) × (512 ≤ length file.now)) }
    ensures signature { IfOk result (λ block. block.signature.0 ≡ 0x6667_6572) }
    ensures refused { IfErr result (IsUnusable file.now) }
{
    let block = match BaseBlock::read_first(file) {
        Some(block) => block,
        None => return Err(Refusal::from(Cause::Truncated)),
    };
    if block.signature != Signature::REGF {
        return Err(Refusal::from(Cause::BadBase));
    }
    match decided_fault(&block) {
        Some(why) => Err(why),
        None => Ok(block),
    }
}

// why a base block whose sum is right can't be used. A size that can't be is no such reason: it is wrong then, and all that
// follows the base block is taken
fn decided_fault(block: &BaseBlock) -> Option<Refusal>
    ensures { IfSome result (IsDecided block.now) }
{
    if !block.sum_is_right {
        return None;
    }
    match block.judge_primary() {
        Err(why) if is_decided(why) => Some(why),
        _ => None,
    }
}

// whether a refusal is of a version or a type, or of a size that is over the limit
fn is_decided(why: Refusal) -> bool
    ensures { result ≡ true → (why ≡ Unsupported) ⊎ (why ≡ TooLarge) }
{
    match why {
        Refusal::Unsupported => true,
        Refusal::TooLarge => true,
        _ => false,
    }
}

// how many bytes of a file are wanted as bins data: those that its base block says, if its sum is right
fn wanted_size(block: &BaseBlock, file: &[u8]) -> usize
    requires head { block.now ≡ head_of file.now }
    ensures { IsWanted file.now result }
{
    if block.sum_is_right && block.judge_primary().is_ok() {
        block.bins_size as usize
    } else {
        file.len().saturating_sub(HEAD_BYTES)
    }
}

// the bins data of a file, up to a size, in the same memory
fn bins_of(file: Vec<u8>, size: usize) -> Vec<u8>
    ensures { result.items ≡ bins_in file.items size }
{
    let mut bins = file;
    if bins.len() <= HEAD_BYTES {
        bins.clear();
        return bins;
    }
    let there = bins.len() - HEAD_BYTES;
    // takes no memory, and moves the bins data in long runs: the base block fits the room that std has on the stack
    bins.rotate_left(HEAD_BYTES);
    bins.truncate(there.min(size));
    bins
}

// what is to be told of a file with so many bytes of bins data
fn state_of(block: &BaseBlock, size: usize, there: usize) -> HiveState
    ensures { (file : List ℕ) → block.now ≡ head_of file → there ≡ length (bins_in file size) →
        IsStateOf file size result }
{
    let whole = there / PAGE_BYTES * PAGE_BYTES;
    HiveState {
        sum_is_right: block.sum_is_right,
        is_clean: block.primary == block.secondary,
        bins_bytes: whole as u64,
        missing_bytes: size.saturating_sub(whole) as u64,
    }
}

// that the root's node can be read
fn root_is_read(image: &Image, root: u32) -> Result<(), Refusal>
    ensures { (cells : Cells) → Shows image.now.bytes cells → MatchResult result
        (λ _. (bytes : List ℕ) × (record_at Subkeys cells root ≡ Ok bytes))
        (λ why. record_at Subkeys cells root ≡ Err why) }
{
    match key_node(image, root) {
        Ok(_) => Ok(()),
        Err(why) => Err(why),
    }
}
