//! A new store on a disk in memory.
ghost use Rattle.std.specs.Prelude.{◌≡◌, ◌≤◌, ◌++◌, ◌∷◌, [], ℕ, Some, None, IfOk, IfSome, IfNone, OnOk, length};
ghost use Rattle.refusals.specs.declared.limits.TheConstants.{MOST_HIVES, MOST_JOURNAL_BYTES};
ghost use Rattle.disk_model.specs.Room.{IsRoomy};
ghost use Rattle.reg_tree.specs.Fresh.{fresh_tree};
ghost use Rattle.store_model.specs.Machine.{bounds_for, fresh_machine, opened_machine};
ghost use Rattle.store_model.specs.Steps.{with_session};
ghost use Rattle.commit_journal.specs.Store.{Store};
ghost use Rattle.recovery.specs.Recovered.{IsRecovered, seen_in};
ghost use Rattle.recovery.specs.Shown.{StoreIsRepaired, store_of};
ghost use Rattle.script_loop.specs.FirstLines.{hives_asked};

use disk_model::{Disk, MemDisk, Plan};
use engine::Engine;
use recovery::{Opened, create, open};
use refusals::Refusal;
use refusals::limits::MOST_JOURNAL_BYTES;
use reg_tree::Trees;
use script_syntax::{Line, read_line};
use std::alloc::{AllocError, Global};
use std::sync::Arc;
use store_driver::ask;
use store_model::{Event, Reply};
use uuid::Uuid;
use word_syntax::ParseError;

/// The journal's file alone grows once a store is made: it is file 0.
const GROWING_FILES: u32 = 1;

/// More writes than the journal makes between two syncs.
const MOST_WRITES: usize = 8;

/// The store that a script's first line asks for, on a disk that fails in no call, with session 0 open; or `None` if
/// the bytes are no such line.
pub(crate) fn begin(alloc: Global, bytes: &[u8]) -> Result<Option<Engine<MemDisk>>, AllocError>
    ensures none { IfOk result (λ made. IfNone made (hives_asked bytes.now ≡ None)) }
    ensures some { IfOk result (λ made. IfSome made
        (λ engine. (hives : ℕ) × (hives_asked bytes.now ≡ Some hives)
        × (engine.machine ≡ with_session (fresh_machine (bounds_for hives)) 0))) }
{
    begin_on(alloc, bytes, Arc::new(alloc, Plan::new())?)
}

/// The store that a script's first line asks for, on a new disk in memory that fails as the plan says, with session 0
/// open; or `None` if the bytes are no such line.
///
/// Refused only for lack of memory. That is also the answer if the plan lets a call fail while the store is made.
pub fn begin_on(
    alloc: Global,
    bytes: &[u8],
    plan: Arc<Plan>,
) -> Result<Option<Engine<MemDisk>>, AllocError>
    ensures none { IfOk result (λ made. IfNone made (hives_asked bytes.now ≡ None)) }
    ensures some { IfOk result (λ made. IfSome made
        (λ engine. (hives : ℕ) × (hives_asked bytes.now ≡ Some hives)
        × (engine.machine ≡ with_session (fresh_machine (bounds_for hives)) 0))) }
{
    script_syntax::grammar::parses_what_is_printed();
    match read_line(alloc, bytes) {
        // a disk in memory fails only if it finds no memory, so only a lack of memory can keep a new store from being
        // made
        Ok(Line::Hives { count }) => match store_in_session_0(alloc, count, plan) {
            Ok(engine) => Ok(Some(engine)),
            Err(_) => Err(AllocError),
        },
        Ok(_) | Err(ParseError::NotUnderstood) => Ok(None),
        Err(ParseError::NoMemory) => Err(AllocError),
    }
}

// a store of this many new hives, in which session 0 is open
fn store_in_session_0(alloc: Global, hives: u8, plan: Arc<Plan>) -> Result<Engine<MemDisk>, Refusal>
    requires some { 1 ≤ hives }
    requires few { hives ≤ MOST_HIVES }
    ensures { IfOk result (λ engine. engine.machine ≡ with_session (fresh_machine (bounds_for hives)) 0) }
{
    let mut engine = new_store(alloc, hives, plan)?;
    match ask(&mut engine, Event::StartSession { session: 0 }) {
        Reply::Done => Ok(engine),
        _ => Err(Refusal::NoMemory),
    }
}

// a store of this many new hives
fn new_store(alloc: Global, hives: u8, plan: Arc<Plan>) -> Result<Engine<MemDisk>, Refusal>
    requires some { 1 ≤ hives }
    requires few { hives ≤ MOST_HIVES }
    ensures { IfOk result (λ engine. engine.machine ≡ fresh_machine (bounds_for hives)) }
{
    recovery::laws::one_is_recovered();
    let trees = Trees::new(alloc, usize::from(hives))?;
    let disk = disk_with(alloc, &trees, plan)?;
    let opened = opened_on(alloc, disk)?;
    // what was just made needs no repair
    if !opened.is_whole() {
        return Err(Refusal::Faulted);
    }
    begun(alloc, opened)
}

// a disk with a new store of these trees, which has a new hive for outcomes besides
fn disk_with(alloc: Global, trees: &Trees, plan: Arc<Plan>) -> Result<MemDisk, Refusal>
    requires few { length trees.now ≤ MOST_HIVES }
    ensures { IfOk result (λ disk. (store : Store) × (store.hives ≡ length trees.now)
        × IsRecovered (seen_in (⟦<MemDisk as Disk>⟧.state_at disk (⟦<MemDisk as Disk>⟧.clock disk)))
        store 0 (trees.now ++ fresh_tree ∷ [])) }
{
    let mut disk = roomy_disk(alloc, plan)?;
    create(alloc, &mut disk, Uuid::nil(), trees)?;
    Ok(disk)
}

// the store that is on a disk
fn opened_on(alloc: Global, disk: MemDisk) -> Result<Opened<MemDisk>, Refusal>
    ensures { IfOk result (λ opened.
        IsRecovered (seen_in (⟦<MemDisk as Disk>⟧.state_at disk (⟦<MemDisk as Disk>⟧.clock disk)))
        (store_of opened) opened.found.number opened.found.trees) }
{
    match open(alloc, disk) {
        Ok(opened) => Ok(opened),
        Err((why, _)) => Err(why),
    }
}

// an engine over a store: if that was opened at number 0, its journal has no change
fn begun(alloc: Global, opened: Opened<MemDisk>) -> Result<Engine<MemDisk>, Refusal>
    requires { StoreIsRepaired opened }
    ensures { IfOk result (λ engine. opened.found.number ≡ 0 →
        engine.machine
        ≡ opened_machine (bounds_for (store_of opened).hives) opened.found.trees 0 [] 0) }
{
    // in two parts its invariant is known
    let (disk, found) = opened.into_parts();
    match Engine::new(alloc, Opened::from_parts(disk, found)) {
        Ok(engine) => Ok(engine),
        Err((why, _)) => Err(why),
    }
}

// A disk on which no call that a journal makes takes memory, up to the limit of its room: so a reply reports a fault of
// the device only if the plan asks for it.
fn roomy_disk(alloc: Global, plan: Arc<Plan>) -> Result<MemDisk, AllocError>
    ensures { IfOk result (IsRoomy GROWING_FILES MOST_JOURNAL_BYTES MOST_WRITES) }
{
    let mut disk = MemDisk::new(alloc, plan);
    make_journal_room(&mut disk)?;
    Ok(disk)
}

/// Takes memory ahead for the journal of the store on a disk, so that no call that it makes takes any, up to the limit
/// of its room. The disk's files stay as they are.
pub fn make_journal_room(disk: &mut MemDisk) -> Result<(), AllocError>
    ensures room { OnOk result (IsRoomy GROWING_FILES MOST_JOURNAL_BYTES MOST_WRITES disk.new) }
    ensures files { (k f : ℕ) →
        ⟦<MemDisk as Disk>⟧.state_at disk.new k f ≡ ⟦<MemDisk as Disk>⟧.state_at disk.old k f }
    ensures clock { ⟦<MemDisk as Disk>⟧.clock disk.new ≡ ⟦<MemDisk as Disk>⟧.clock disk.old }
    ensures failures { ⟦<MemDisk as Disk>⟧.failures disk.new
        ≡ ⟦<MemDisk as Disk>⟧.failures disk.old }
{
    disk.room(GROWING_FILES, MOST_JOURNAL_BYTES as usize, MOST_WRITES)
}
