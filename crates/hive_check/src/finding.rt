//! What is found of the bins data of a hive's file.
ghost use Rattle.std.specs.Prelude.{◌≡◌, ◌<◌, ◌^◌, ℕ, List, IfOk, IfSome};
ghost use Rattle.reply_lines.specs.declared.status.Status.{Status};
ghost use Rattle.hive_file_reader.specs.Hives.{FileHasBins};
ghost use Rattle.hive_check.specs.CellCounts.{CellsAreCounted};
ghost use Rattle.hive_check.specs.Findings.{BinsAreOf, IsFinding, IsReportOf, status_of};

use crate::block_report::{BlockReport, block_report};
use crate::cell_counts::{CellCounts, TileFault, count_cells};
use crate::key_counts::KeyCounts;
use base_block::BaseBlock;
use hive_cells::Image;
use hive_file_reader::{FileParts, read_parts};
use hive_walk::{ImageError, WalkError, walk_hive};
use refusals::Refusal;
use refusals::limits::MOST_WEIGHT;
use reply_lines::Status;
use std::alloc::Global;
use std::io::{self, Read};

/// What is found of the bins data of a hive's file.
#[derive(Drop)]
pub enum Finding {
    /// The file has none that can be used, for this reason.
    Refused(Refusal),
    /// Bins and cells don't tile them.
    Untiled(TileFault),
    /// They have these cells and encode no tree, for this reason.
    Unwalked(CellCounts, ImageError),
    /// They have these cells and encode a tree of these keys.
    Walked(CellCounts, KeyCounts),
}

/// What is found of a hive's file.
#[derive(Drop)]
pub struct HiveReport {
    /// Its base block, if it has a hive's.
    pub block: Option<BlockReport>,
    /// What is found of its bins data.
    pub finding: Finding,
}

impl HiveReport {
    /// The status of a check: whether the file is a clean hive of a tree within the limits.
    pub fn status(&self) -> Status
        ensures { result ≡ status_of self.now }
    {
        match &self.finding {
            Finding::Walked(_, keys) if keys.weight <= MOST_WEIGHT => Status::Clean,
            _ => Status::Refused,
        }
    }
}

/// What is found of a hive's primary file, read from where the reader is. `Err` is a reader's that failed.
pub fn report_of<R: Read>(alloc: Global, reader: &mut R) -> io::Result<HiveReport>
    ensures { IfOk result (λ report. IfSome (R.remaining reader.old) (λ file. IsReportOf file report)) }
{
    let FileParts { sector, bins } = read_parts(alloc, reader)?;
    Ok(HiveReport {
        block: block_report(&sector),
        finding: finding_of(alloc, bins),
    })
}

// what is found of bins data that were read, or of a file that has none
fn finding_of(alloc: Global, bins: Result<(BaseBlock, Vec<u8>), Refusal>) -> Finding
    ensures { (file : List ℕ) → BinsAreOf file bins → IsFinding file result }
{
    match bins {
        Ok((block, bytes)) => finding_in(alloc, &block, bytes),
        Err(why) => Finding::Refused(why),
    }
}

// what is found of a file's bins data
fn finding_in(alloc: Global, block: &BaseBlock, bytes: Vec<u8>) -> Finding
    ensures { (file : List ℕ) → FileHasBins file block.now bytes.items → IsFinding file result }
{
    let cells = match count_cells(&bytes) {
        Ok(cells) => cells,
        Err(fault) => return Finding::Untiled(fault),
    };
    match Image::open(alloc, bytes) {
        Ok(image) => walked(alloc, block, &image, cells),
        // bins and cells tile the data
        Err(_) => Finding::Refused(Refusal::NoMemory),
    }
}

// what is found of the keys of a file's image, which has these cells
fn walked(alloc: Global, block: &BaseBlock, image: &Image, cells: CellCounts) -> Finding
    ensures { (file : List ℕ) → FileHasBins file block.now image.now.bytes →
        CellsAreCounted image.now.bytes cells → IsFinding file result }
{
    let mut keys = KeyCounts::new();
    match walk_hive(alloc, image, block.root, block.minor, &mut keys) {
        Ok(()) => {
            are_capped(keys); // for the prover
            Finding::Walked(cells, keys)
        }
        Err(WalkError::Image(error)) => Finding::Unwalked(cells, error),
        Err(WalkError::Sink(never)) => match never {},
    }
}

// the law of counts: each is a number of 64 bits
fn are_capped(counts: KeyCounts)
    ensures keys { counts.keys < 2 ^ 64 }
    ensures values { counts.values < 2 ^ 64 }
    ensures weight { counts.weight < 2 ^ 64 }
{
    let _ = counts; // for the prover
}
