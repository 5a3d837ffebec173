//! Makes a store in the folder `store`. Three threads count in it, while a flusher moves their changes into its hive.
#![tactic(auto)]

ghost use Rattle.std.specs.Prelude.{◌≤◌, IfOk};
ghost use Rattle.histories.specs.Histories.{end_of};

use file_disk::{FileDisk, Unknown};
use histories::Start;
use ktm_calls::{Key, Registry, Session};
use refusals::Refusal;
use reg_names::{Name, Path};
use reg_tree::{Data, Trees};
use shared_store::{BusyGate, InSession, Served, SessionClient, serve};
use std::alloc::Global;
use std::fs;
use std::io::{self, ErrorKind};
use std::sync::Wait;
use store_engine::StoreEngine;
use uuid::Uuid;

/// The registry's number of the type REG_DWORD.
const REG_DWORD: u32 = 4;

/// Each of the three threads makes a key, and sets its value a hundred times.
const CHANGES: u64 = 3 * 101;

/// Each thread counts to a hundred in a value of its own, in one transaction after another. It reports the number of its
/// last change.
#[derive(Drop)]
struct Counters(Global);

impl<R: Wait + Print> SessionClient<R, u64> for Counters {
    ghost use Rattle.std.specs.Prelude.{◌≤◌};
    ghost use Rattle.histories.specs.Histories.{end_of};

    // the number that a thread reports is durable
    ghost tells = { λ begun was is number. number ≤ (end_of begun is.history).machine.durable };

    fn run<E: StoreEngine, O: Start>(
        &self,
        rt: &R,
        registry: &Registry<E, O>,
        session: &mut Session<O>,
        thread: usize,
    ) -> u64 {
        let letter = [b'A', b'B', b'C'][thread % 3];
        match count(rt, self.0, registry, session, u16::from(letter)) {
            Ok(number) => number,
            Err(why) => {
                let _ = println!(rt; "{why}");
                0
            }
        }
    }
}

fn count<E: StoreEngine, O: Start, R: Wait>(
    rt: &R,
    alloc: Global,
    registry: &Registry<E, O>,
    session: &mut Session<O>,
    letter: u16,
) -> Result<u64, Refusal>
    ensures { IfOk result (λ number. number ≤ (end_of O.start session.new.seen.history).machine.durable) }
{
    let mut key = Key::new(0, Path::parse(alloc, &[letter])?);
    registry.reg_create_key(rt, session, &key, 0)?;
    for round in 0..100u32 {
        let moment = u64::from(round);
        let (tx, _) = registry.create_transaction(rt, session, Uuid::nil())?;
        key.tx = Some(tx);
        let name = Name::value(alloc, &[u16::from(b'n')])?;
        let data = Data::new(alloc, &round.to_le_bytes())?;
        registry.set_value(rt, session, &key, name, REG_DWORD, data, moment)?;
        registry.commit_transaction(rt, session, tx, moment)?;
        registry.close_transaction(rt, session, tx)?;
    }
    let (receipt, _) = registry.flush_key(rt, session, &key)?;
    Ok(receipt.number())
}

fn main(rt: HostRuntime) -> io::Result<()> {
    let alloc = rt.alloc();
    fs::create_dir(&rt, "store")?;
    let Ok(mut disk) = FileDisk::<_, Unknown>::open_locked(&rt, alloc, "store") else {
        return Err(ErrorKind::PermissionDenied.into());
    };
    let trees = Trees::new(alloc, 1)?;
    if let Err(why) = recovery::create(alloc, &mut disk, Uuid::nil(), &trees) {
        return refused(&rt, why);
    }
    let (_disk, served) = serve(&rt, alloc, disk, &InSession(Counters(alloc)), 3, &BusyGate);
    match served {
        Ok(served) => tell(&rt, &served),
        Err(why) => refused(&rt, why),
    }
}

// says how many changes are durable, or why not all are
fn tell<R: Print>(rt: &R, served: &Served<Result<u64, Refusal>>) -> io::Result<()> {
    if let Some(why) = served.undone {
        return refused(rt, why);
    }
    for account in &served.accounts {
        match account.report {
            Ok(0) => return Err(ErrorKind::Other.into()),
            Ok(_) => {}
            Err(why) => return refused(rt, why),
        }
    }
    if served.durable != CHANGES {
        return Err(ErrorKind::Other.into());
    }
    println!(rt; "{CHANGES} changes are durable")
}

// prints a refusal, and ends the program with status 1
fn refused<R: Print>(rt: &R, why: Refusal) -> io::Result<()> {
    println!(rt; "{why}")?;
    Err(ErrorKind::Other.into())
}
