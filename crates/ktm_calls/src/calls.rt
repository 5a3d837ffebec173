//! Writes: by themselves, or in the transaction of a key. Each is one event, in one hold.
ghost use Rattle.std.specs.Prelude.{◌≡◌, ◌+◌, ◌≤◌, length, IfOk, IfErr, None, Some};
ghost use Rattle.reg_tree.specs.declared.op.Op.TheVariants as op;
ghost use Rattle.store_model.specs.declared.event.Event.TheVariants as event;
ghost use Rattle.ktm_calls.specs.Calls.{Disposes, IsDeniedAlone, StandsAlone, write_event};
ghost use Rattle.ktm_calls.specs.Answers.{WriteStands};
ghost use Rattle.ktm_calls.specs.Moments.{SeesMore, Tells, TellsDurably};
ghost use Rattle.ktm_calls.specs.Denials.{IsCommitDenied, IsDenied, IsRefusal};

use crate::key::Key;
use crate::locked::Told;
use crate::receipt::Receipt;
use crate::registry::{Denied, Disposition, Registry};
use crate::session::Session;
use crate::waiting::MemoryPolicy;
use histories::Start;
use reg_names::ValueName;
use reg_tree::{Data, Op};
use std::sync::Wait;
use store_engine::StoreEngine;
use store_model::{Event, Reply, Tx};

impl<E: StoreEngine, O: Start> Registry<E, O> {
    /// Creates a key, with the missing keys above it, or opens it if it is there. Through a key of a transaction it is
    /// created in that.
    pub fn reg_create_key<R: Wait>(
        &self,
        rt: &R,
        session: &mut Session<O>,
        key: &Key,
        moment: u64,
    ) -> Result<(Disposition, Told), Denied>
        ensures seen { SeesMore session.old.seen session.new.seen }
        ensures number { session.new.number ≡ session.old.number }
        ensures told { IfOk result (λ r. Tells O.sole O.start O.trees O.number O.hives session.old.seen session.new.seen
            (write_event session.old.number key.now.tx moment (op.CreateKey key.now.hive key.now.path)) r.1) }
        ensures granted { IfOk result (λ r. ¬ (IsRefusal r.1.reply)) }
        ensures stands { IfOk result (λ r. StandsAlone O.trees O.number O.hives session.new.seen.list key.now.tx moment
            (op.CreateKey key.now.hive key.now.path) r.1.reply) }
        ensures disposition { IfOk result (λ r. Disposes r.0 r.1.reply) }
        ensures denied { IfErr result (IsDenied O.sole O.start O.trees O.number O.hives session.old.seen session.new.seen
            (write_event session.old.number key.now.tx moment (op.CreateKey key.now.hive key.now.path))) }
        ensures refused { IfErr result (IsDeniedAlone O.trees O.number O.hives session.new.seen.list key.now.tx moment
            (op.CreateKey key.now.hive key.now.path)) }
    {
        self.create_key(rt, session, key, key.tx, moment)
    }

    /// Creates a key in a transaction, or opens it if it is there in its view.
    pub fn reg_create_key_transacted<R: Wait>(
        &self,
        rt: &R,
        session: &mut Session<O>,
        tx: Tx,
        key: &Key,
        moment: u64,
    ) -> Result<(Disposition, Told), Denied>
        ensures seen { SeesMore session.old.seen session.new.seen }
        ensures number { session.new.number ≡ session.old.number }
        ensures told { IfOk result (λ r. Tells O.sole O.start O.trees O.number O.hives session.old.seen session.new.seen
            (write_event session.old.number (Some tx) moment (op.CreateKey key.now.hive key.now.path)) r.1) }
        ensures granted { IfOk result (λ r. ¬ (IsRefusal r.1.reply)) }
        ensures stands { IfOk result (λ r. StandsAlone O.trees O.number O.hives session.new.seen.list (Some tx) moment
            (op.CreateKey key.now.hive key.now.path) r.1.reply) }
        ensures disposition { IfOk result (λ r. Disposes r.0 r.1.reply) }
        ensures denied { IfErr result (IsDenied O.sole O.start O.trees O.number O.hives session.old.seen session.new.seen
            (write_event session.old.number (Some tx) moment (op.CreateKey key.now.hive key.now.path))) }
        ensures refused { IfErr result (IsDeniedAlone O.trees O.number O.hives session.new.seen.list (Some tx) moment
            (op.CreateKey key.now.hive key.now.path)) }
    {
        self.create_key(rt, session, key, Some(tx), moment)
    }

    /// Deletes a key that has no subkeys. Through a key of a transaction it is deleted in that.
    pub fn reg_delete_key<R: Wait>(
        &self,
        rt: &R,
        session: &mut Session<O>,
        key: &Key,
        moment: u64,
    ) -> Result<Told, Denied>
        ensures seen { SeesMore session.old.seen session.new.seen }
        ensures number { session.new.number ≡ session.old.number }
        ensures told { IfOk result (λ t. Tells O.sole O.start O.trees O.number O.hives session.old.seen session.new.seen
            (write_event session.old.number key.now.tx moment (op.DeleteKey key.now.hive key.now.path)) t) }
        ensures granted { IfOk result (λ t. ¬ (IsRefusal t.reply)) }
        ensures stands { IfOk result (λ t. StandsAlone O.trees O.number O.hives session.new.seen.list key.now.tx moment
            (op.DeleteKey key.now.hive key.now.path) t.reply) }
        ensures denied { IfErr result (IsDenied O.sole O.start O.trees O.number O.hives session.old.seen session.new.seen
            (write_event session.old.number key.now.tx moment (op.DeleteKey key.now.hive key.now.path))) }
        ensures refused { IfErr result (IsDeniedAlone O.trees O.number O.hives session.new.seen.list key.now.tx moment
            (op.DeleteKey key.now.hive key.now.path)) }
    {
        self.delete_key(rt, session, key, key.tx, moment)
    }

    /// Deletes a key in a transaction.
    pub fn reg_delete_key_transacted<R: Wait>(
        &self,
        rt: &R,
        session: &mut Session<O>,
        tx: Tx,
        key: &Key,
        moment: u64,
    ) -> Result<Told, Denied>
        ensures seen { SeesMore session.old.seen session.new.seen }
        ensures number { session.new.number ≡ session.old.number }
        ensures told { IfOk result (λ t. Tells O.sole O.start O.trees O.number O.hives session.old.seen session.new.seen
            (write_event session.old.number (Some tx) moment (op.DeleteKey key.now.hive key.now.path)) t) }
        ensures granted { IfOk result (λ t. ¬ (IsRefusal t.reply)) }
        ensures stands { IfOk result (λ t. StandsAlone O.trees O.number O.hives session.new.seen.list (Some tx) moment
            (op.DeleteKey key.now.hive key.now.path) t.reply) }
        ensures denied { IfErr result (IsDenied O.sole O.start O.trees O.number O.hives session.old.seen session.new.seen
            (write_event session.old.number (Some tx) moment (op.DeleteKey key.now.hive key.now.path))) }
        ensures refused { IfErr result (IsDeniedAlone O.trees O.number O.hives session.new.seen.list (Some tx) moment
            (op.DeleteKey key.now.hive key.now.path)) }
    {
        self.delete_key(rt, session, key, Some(tx), moment)
    }

    /// Sets a value of a key: its kind is the registry's number of the type, such as 1 for REG_SZ. Through a key of a
    /// transaction it is set in that.
    #[tactic(auto, using(crate::proofs::Seen::seen_self))]
    pub fn set_value<R: Wait>(
        &self,
        rt: &R,
        session: &mut Session<O>,
        key: &Key,
        name: ValueName,
        kind: u32,
        data: Data,
        moment: u64,
    ) -> Result<Told, Denied>
        ensures seen { SeesMore session.old.seen session.new.seen }
        ensures number { session.new.number ≡ session.old.number }
        ensures told { IfOk result (λ t. Tells O.sole O.start O.trees O.number O.hives session.old.seen session.new.seen
            (write_event session.old.number key.now.tx moment (op.SetValue key.now.hive key.now.path name kind «data»)) t) }
        ensures granted { IfOk result (λ t. ¬ (IsRefusal t.reply)) }
        ensures stands { IfOk result (λ t. StandsAlone O.trees O.number O.hives session.new.seen.list key.now.tx moment
            (op.SetValue key.now.hive key.now.path name kind «data») t.reply) }
        ensures denied { IfErr result (IsDenied O.sole O.start O.trees O.number O.hives session.old.seen session.new.seen
            (write_event session.old.number key.now.tx moment (op.SetValue key.now.hive key.now.path name kind «data»))) }
        ensures refused { IfErr result (IsDeniedAlone O.trees O.number O.hives session.new.seen.list key.now.tx moment
            (op.SetValue key.now.hive key.now.path name kind «data»)) }
    {
        let op = Op::SetValue {
            hive: key.hive,
            path: key.path_copy()?,
            name,
            kind,
            data,
        };
        self.write(rt, session, key.tx, moment, op)
    }

    /// Deletes a value of a key. Through a key of a transaction it is deleted in that.
    #[tactic(auto, using(crate::proofs::Seen::seen_self))]
    pub fn delete_value<R: Wait>(
        &self,
        rt: &R,
        session: &mut Session<O>,
        key: &Key,
        name: ValueName,
        moment: u64,
    ) -> Result<Told, Denied>
        ensures seen { SeesMore session.old.seen session.new.seen }
        ensures number { session.new.number ≡ session.old.number }
        ensures told { IfOk result (λ t. Tells O.sole O.start O.trees O.number O.hives session.old.seen session.new.seen
            (write_event session.old.number key.now.tx moment (op.DeleteValue key.now.hive key.now.path name)) t) }
        ensures granted { IfOk result (λ t. ¬ (IsRefusal t.reply)) }
        ensures stands { IfOk result (λ t. StandsAlone O.trees O.number O.hives session.new.seen.list key.now.tx moment
            (op.DeleteValue key.now.hive key.now.path name) t.reply) }
        ensures denied { IfErr result (IsDenied O.sole O.start O.trees O.number O.hives session.old.seen session.new.seen
            (write_event session.old.number key.now.tx moment (op.DeleteValue key.now.hive key.now.path name))) }
        ensures refused { IfErr result (IsDeniedAlone O.trees O.number O.hives session.new.seen.list key.now.tx moment
            (op.DeleteValue key.now.hive key.now.path name)) }
    {
        let op = Op::DeleteValue {
            hive: key.hive,
            path: key.path_copy()?,
            name,
        };
        self.write(rt, session, key.tx, moment, op)
    }

    // a key, by itself or in a transaction
    #[tactic(auto, using(crate::proofs::Seen::seen_self))]
    fn create_key<R: Wait>(
        &self,
        rt: &R,
        session: &mut Session<O>,
        key: &Key,
        tx: Option<Tx>,
        moment: u64,
    ) -> Result<(Disposition, Told), Denied>
        ensures seen { SeesMore session.old.seen session.new.seen }
        ensures number { session.new.number ≡ session.old.number }
        ensures told { IfOk result (λ r. Tells O.sole O.start O.trees O.number O.hives session.old.seen session.new.seen
            (write_event session.old.number tx moment (op.CreateKey key.now.hive key.now.path)) r.1) }
        ensures granted { IfOk result (λ r. ¬ (IsRefusal r.1.reply)) }
        ensures stands { IfOk result (λ r. StandsAlone O.trees O.number O.hives session.new.seen.list tx moment
            (op.CreateKey key.now.hive key.now.path) r.1.reply) }
        ensures disposition { IfOk result (λ r. Disposes r.0 r.1.reply) }
        ensures denied { IfErr result (IsDenied O.sole O.start O.trees O.number O.hives session.old.seen session.new.seen
            (write_event session.old.number tx moment (op.CreateKey key.now.hive key.now.path))) }
        ensures refused { IfErr result (IsDeniedAlone O.trees O.number O.hives session.new.seen.list tx moment
            (op.CreateKey key.now.hive key.now.path)) }
    {
        let op = Op::CreateKey {
            hive: key.hive,
            path: key.path_copy()?,
        };
        let told = self.write(rt, session, tx, moment, op)?;
        Ok((disposition_of(&told), told))
    }

    // a key goes, by itself or in a transaction
    #[tactic(auto, using(crate::proofs::Seen::seen_self))]
    fn delete_key<R: Wait>(
        &self,
        rt: &R,
        session: &mut Session<O>,
        key: &Key,
        tx: Option<Tx>,
        moment: u64,
    ) -> Result<Told, Denied>
        ensures seen { SeesMore session.old.seen session.new.seen }
        ensures number { session.new.number ≡ session.old.number }
        ensures told { IfOk result (λ t. Tells O.sole O.start O.trees O.number O.hives session.old.seen session.new.seen
            (write_event session.old.number tx moment (op.DeleteKey key.now.hive key.now.path)) t) }
        ensures granted { IfOk result (λ t. ¬ (IsRefusal t.reply)) }
        ensures stands { IfOk result (λ t. StandsAlone O.trees O.number O.hives session.new.seen.list tx moment
            (op.DeleteKey key.now.hive key.now.path) t.reply) }
        ensures denied { IfErr result (IsDenied O.sole O.start O.trees O.number O.hives session.old.seen session.new.seen
            (write_event session.old.number tx moment (op.DeleteKey key.now.hive key.now.path))) }
        ensures refused { IfErr result (IsDeniedAlone O.trees O.number O.hives session.new.seen.list tx moment
            (op.DeleteKey key.now.hive key.now.path)) }
    {
        let op = Op::DeleteKey {
            hive: key.hive,
            path: key.path_copy()?,
        };
        self.write(rt, session, tx, moment, op)
    }

    /// An operation by itself, or in a transaction. The calls on keys and values above are such operations.
    pub fn write<R: Wait>(
        &self,
        rt: &R,
        session: &mut Session<O>,
        tx: Option<Tx>,
        moment: u64,
        op: Op,
    ) -> Result<Told, Denied>
        ensures seen { SeesMore session.old.seen session.new.seen }
        ensures number { session.new.number ≡ session.old.number }
        ensures told { IfOk result (λ t. Tells O.sole O.start O.trees O.number O.hives session.old.seen session.new.seen
            (write_event session.old.number tx moment op) t) }
        ensures granted { IfOk result (λ t. ¬ (IsRefusal t.reply)) }
        ensures stands { IfOk result (λ t. StandsAlone O.trees O.number O.hives session.new.seen.list tx moment
            op t.reply) }
        ensures denied { IfErr result (IsDenied O.sole O.start O.trees O.number O.hives session.old.seen session.new.seen
            (write_event session.old.number tx moment op)) }
        ensures refused { IfErr result (IsDeniedAlone O.trees O.number O.hives session.new.seen.list tx moment
            op) }
    {
        match tx {
            None => {
                let answer = self.write_alone(rt, session, moment, op);
                self.wake_flusher();
                answer
            }
            Some(tx) => {
                let event = Event::TxWrite {
                    session: session.number(),
                    tx,
                    moment,
                    op,
                };
                self.serve(rt, session, event)
            }
        }
    }

    // an operation by itself
    fn write_alone<R: Wait>(
        &self,
        rt: &R,
        session: &mut Session<O>,
        moment: u64,
        op: Op,
    ) -> Result<Told, Denied>
        ensures seen { SeesMore session.old.seen session.new.seen }
        ensures number { session.new.number ≡ session.old.number }
        ensures told { IfOk result (λ t. Tells O.sole O.start O.trees O.number O.hives session.old.seen session.new.seen
            (event.Write session.old.number moment op) t) }
        ensures granted { IfOk result (λ t. ¬ (IsRefusal t.reply)) }
        ensures stands { IfOk result (λ t.
            WriteStands O.trees O.number O.hives session.new.seen.list moment op t.reply) }
        ensures denied { IfErr result (IsDenied O.sole O.start O.trees O.number O.hives session.old.seen session.new.seen
            (event.Write session.old.number moment op)) }
        ensures refused { IfErr result (IsDeniedAlone O.trees O.number O.hives session.new.seen.list None moment op) }
    {
        let event = Event::Write {
            session: session.number(),
            moment,
            op,
        };
        self.serve(rt, session, event)
    }

    /// Makes all that was accepted durable. The receipt's number is not below what the session has seen. Nothing is
    /// judged of the key.
    ///
    /// Refused with `NoMemory`, also of a step of the journal; and with `Faulted` or `DiskFault` of its own question or
    /// of such a step.
    pub fn flush_key<R: Wait>(
        &self,
        rt: &R,
        session: &mut Session<O>,
        _key: &Key,
    ) -> Result<(Receipt<O>, Told), Denied>
        ensures seen { SeesMore session.old.seen session.new.seen }
        ensures number { session.new.number ≡ session.old.number }
        ensures told { IfOk result (λ r. TellsDurably O.sole O.start O.trees O.number O.hives session.old.seen session.new.seen
            event.FlushAsk r.0 r.1) }
        ensures all { IfOk result (λ r. O.number + length session.old.seen.list ≤ r.0.number) }
        ensures denied { IfErr result (IsCommitDenied O.sole O.start O.trees O.number O.hives session.old.seen session.new.seen
            event.FlushAsk) }
    {
        let answer = self.serve_durably(rt, session, Event::FlushAsk, MemoryPolicy::GiveUp)?;
        Ok(answer)
    }
}

// whether a key was there
fn disposition_of(told: &Told) -> Disposition
    ensures { Disposes result told.now.reply }
{
    match told.reply() {
        Reply::Opened => Disposition::Opened,
        _ => Disposition::Created,
    }
}
