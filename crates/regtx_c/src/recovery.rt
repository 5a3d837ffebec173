//! Opening a hive that wasn't closed, by its logs.
ghost use Rattle.std.specs.Prelude.{◌≡◌, ℕ, List, IfOk, IfErr};
ghost use Rattle.refusals.specs.declared.refusal.Refusal.TheVariants.{NoMemory};
ghost use Rattle.hive_file_reader.specs.Hives.{FileHoldsShallowTree};
ghost use Rattle.recovery_report.specs.declared.judgement.RecoveryOutcome.TheVariants.{Refused};
ghost use Rattle.regtx_c.specs.Handles.{tree_in};
ghost use Rattle.regtx_c.specs.Recoveries.{AreLogs, GivesFile, GivesNone, HasBytes, IsOpenedByLogs, RecoveryRefused};

use crate::block::Block;
use crate::codes::{OK, code_of};
use crate::handle::{Handle, put};
use crate::opening::loaded;
use hive_recovery::{Log, RecoveryLimits, read_log};
use recovery_report::{RecoveryOutcome, recover};
use refusals::Refusal;
use std::alloc::Global;

/// The bytes of the file of a log.
#[repr(C)]
#[derive(Clone, Copy)]
pub struct LogBytes<'a> {
    /// All of them.
    pub bytes: &'a [u8],
}

// what is in logs
fn logs_read<'a>(alloc: Global, logs: &[LogBytes<'a>]) -> Result<Vec<Log<'a>>, Refusal>
    ensures read { IfOk result (λ read. AreLogs logs.now read.items) }
    ensures refused { IfErr result (λ why. why ≡ NoMemory) }
{
    let mut read = Vec::new(alloc);
    'logs: for index in 0..logs.len() {
        let log = read_log(alloc, logs[index].bytes)?;
        read.push(log)?;
    }
    Ok(read)
}

// the bytes of the file that comes of a recovery, a whole hive or not
fn bytes_of(its: RecoveryOutcome) -> Result<Vec<u8>, Refusal>
    ensures made { IfOk result (λ bytes. HasBytes its bytes.items) }
    ensures refused { IfErr result (λ why. its ≡ Refused why) }
{
    match its {
        RecoveryOutcome::Whole(made) => Ok(made.bytes),
        RecoveryOutcome::NotWhole(made) => Ok(made.bytes),
        RecoveryOutcome::Refused(why) => Err(why),
    }
}

// the same of a hive's file and its logs
fn recovered(alloc: Global, file: &[u8], logs: &[LogBytes<'_>]) -> Result<Vec<u8>, Refusal>
    ensures made { IfOk result (λ bytes. GivesFile file.now logs.now bytes.items) }
    ensures refused { IfErr result (GivesNone file.now logs.now) }
{
    let read = logs_read(alloc, logs)?;
    let found = recover(alloc, file, &read, RecoveryLimits::NONE)?;
    bytes_of(found.outcome)
}

// the hive that a recovery makes
fn recovered_hive(
    alloc: Global,
    file: &[u8],
    logs: &[LogBytes<'_>],
) -> Result<Box<Block, Global>, Refusal>
    ensures holds { IfOk result (λ block. (bytes : List ℕ) × GivesFile file.now logs.now bytes
        × FileHoldsShallowTree bytes block.value.tree) }
    ensures refused { IfErr result (RecoveryRefused file.now logs.now) }
{
    match recovered(alloc, file, logs) {
        Ok(bytes) => loaded(alloc, bytes),
        Err(why) => Err(why),
    }
}

/// Opens the hive that the bytes of a file and of its logs make: what a system that was switched off would find. The logs are
/// those of Windows, in any order. No bytes are kept. What was open by the handle before is closed. The hive may have any
/// weight. A hive that was closed is opened as it is, whatever the logs are.
///
/// Refused as [`recover`] is, if no file comes of the bytes: with `BadLog` if no log fits. Else as `regtx_hive_open` is of
/// the file that comes of them. Then the handle stays as it was.
#[unsafe(no_mangle)]
pub extern "C" fn regtx_hive_recover(
    alloc: Global,
    file: &[u8],
    logs: &[LogBytes<'_>],
    hive: &mut Handle,
) -> u32
    ensures { IsOpenedByLogs file.now logs.now (tree_in hive.old) (tree_in hive.new) result }
{
    match recovered_hive(alloc, file, logs) {
        Ok(block) => {
            put(alloc, hive, Some(block));
            OK
        }
        Err(why) => code_of(why),
    }
}
