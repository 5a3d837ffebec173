//! Sessions: each reads what is published, and waits for nobody.
ghost use Rattle.std.specs.Prelude.{◌≡◌, ◌⊎◌, ◌≤◌, Some, None, IfOk, IfErr, OnOk};
ghost use mathlib.Core.List.{IsPrefix};
ghost use Rattle.refusals.specs.declared.refusal.Refusal.TheVariants.{NoMemory, NoSuchHandle};
ghost use Rattle.reg_tree.specs.Sequences.{after_elements};
ghost use Rattle.store_model.specs.Machine.{read_refusal};
ghost use Rattle.store_model.specs.declared.event.Question.TheVariants as question;
ghost use Rattle.store_model.specs.declared.event.ReadResult.TheVariants as found;
ghost use Rattle.published_trees.specs.declared.rule.TheConstants.{MOST_READERS};
ghost use Rattle.ktm_calls.specs.Moments.{SeesMore};
ghost use Rattle.ktm_calls.specs.Outcomes.{HasNoOutcome, HasOutcome};
ghost use Rattle.ktm_calls.specs.Reads.{read_within};

use crate::asker::Asker;
use crate::key::Key;
use crate::receipt::Receipt;
use crate::sight::Sight;
use commit_outcomes::number_in;
use histories::Start;
use published_trees::{Entered, MOST_READERS, SeenChanges, TreesReader, TreesSnapshot};
use refusals::Refusal;
use reg_names::{Name, ValueName};
use reg_tree::{Info, Trees, Value};
use std::alloc::Global;
use std::marker::Model;
use std::mem;
use store_model::{Question, ReadResult, look_up};
use uuid::Uuid;

/// The handle of a session: its number, and the reader by which it reads. It asks for nothing by itself.
pub struct SessionHandle<O: Start> {
    alloc: Global,
    number: u32,
    // how many hives calls may name
    hives: usize,
    reader: Option<TreesReader<O>>,
}

impl<O: Start> Drop for SessionHandle<O> {
    // one drop for all that own one, whose proofs see no more of it than that
    fn drop(self) {
        let SessionHandle {
            alloc: _,
            number: _,
            hives: _,
            reader: _,
        } = self;
    }
}

impl<O: Start> Model for SessionHandle<O> {
    ghost use Rattle.std.specs.Prelude.{◌≡◌, ℕ};
    ghost use Rattle.std.specs.Coded.{coded_ℕ};

    ghost Value = { ℕ };

    ghost coded = { coded_ℕ };

    ghost view = { λ h. h.number };

    ghost invariant = { λ h. h.hives ≡ O.hives };
}

impl<O: Start> SessionHandle<O> {
    pub(crate) fn new(
        alloc: Global,
        number: u32,
        reader: Option<TreesReader<O>>,
        hives: usize,
    ) -> SessionHandle<O>
        requires hives { hives ≡ O.hives }
        ensures { result ≡ number }
    {
        SessionHandle {
            alloc,
            number,
            hives,
            reader,
        }
    }

    pub(crate) fn into_parts(self) -> (u32, Option<TreesReader<O>>)
        ensures { result.0 ≡ self }
    {
        let SessionHandle {
            alloc: _,
            number,
            hives: _,
            reader,
        } = self;
        (number, reader)
    }

    // the handle of a session that isn't open, whose number none has that is
    fn closed(&self) -> SessionHandle<O>
        ensures { result ≡ MOST_READERS }
    {
        SessionHandle {
            alloc: self.alloc,
            number: MOST_READERS as u32,
            hives: self.hives,
            reader: None,
        }
    }
}

/// A session: its handle, and who asks in it, with what that one has seen of the changes and of the history. Its later
/// reads have all that it saw, wrote or learnt.
///
/// A read looks at the trees that are published. It answers `NoSuchHandle` if the session has seen more than is
/// published to it, or the registry has ended.
pub struct Session<O: Start> {
    handle: SessionHandle<O>,
    pub(crate) asker: Asker<O>,
}

impl<O: Start> Drop for Session<O> {
    // one drop for all that own one, whose proofs see no more of it than that
    fn drop(self) {
        let Session {
            handle: _,
            asker: _,
        } = self;
    }
}

impl<O: Start> Model for Session<O> {
    ghost use Rattle.ktm_calls.specs.Moments.{NumberedSight, numbered_code};

    ghost Value = { NumberedSight };

    ghost coded = { numbered_code };

    ghost view = { λ s. record { number = s.handle; seen = s.asker } };
}

impl<O: Start> Session<O> {
    /// The session of this handle, in which this one asks.
    pub fn new(handle: SessionHandle<O>, asker: Asker<O>) -> Session<O>
        ensures { result ≡ record { number = handle; seen = asker } }
    {
        Session { handle, asker }
    }

    /// Its handle, and who asked in it.
    pub fn into_parts(self) -> (SessionHandle<O>, Asker<O>)
        ensures handle { result.0 ≡ self.number }
        ensures asker { result.1 ≡ self.seen }
    {
        let Session { handle, asker } = self;
        (handle, asker)
    }

    /// Another session from now on, in which the same one asks. The handle of the one before comes back.
    pub fn switch_to(&mut self, handle: SessionHandle<O>) -> SessionHandle<O>
        ensures now { self.new ≡ record self.old { number = handle } }
        ensures before { result ≡ self.old.number }
    {
        mem::replace(&mut self.handle, handle)
    }

    /// The handle of a session that isn't open: each call of it is refused as one of a session that has ended.
    pub fn closed_handle(&self) -> SessionHandle<O>
        ensures { result ≡ MOST_READERS }
    {
        self.handle.closed()
    }

    /// Its number, which its events have.
    pub fn number(&self) -> u32
        ensures { result ≡ self.now.number }
    {
        self.handle.number
    }

    /// How many hives its calls may name.
    pub fn hives(&self) -> usize
        ensures { result ≡ O.hives }
    {
        self.handle.hives
    }

    /// What it has seen.
    pub fn sight(&self) -> &Sight<O>
        ensures { result.now ≡ self.now.seen }
    {
        self.asker.sight()
    }

    /// Takes in what a receipt carries: later reads have the changes of its list.
    pub fn learn(&mut self, receipt: &Receipt<O>)
        ensures own { SeesMore self.old.seen self.new.seen }
        ensures learnt { SeesMore receipt.now.seen self.new.seen }
        ensures asked { self.new.seen.asked ≡ self.old.seen.asked }
        ensures number { self.new.number ≡ self.old.number }
    {
        self.asker.learn(receipt.sight());
    }

    /// The answer to a question on a key. Refused with `NotFound` exactly if there is no such key or value, or calls name
    /// no such hive; with `NoMemory`; and with `NoSuchHandle`, as told above.
    pub fn look_up(&mut self, key: &Key, question: Question) -> Result<ReadResult, Refusal>
        ensures later { IsPrefix self.old.seen.list self.new.seen.list }
        ensures history { self.new.seen.history ≡ self.old.seen.history }
        ensures asked { self.new.seen.asked ≡ self.old.seen.asked }
        ensures number { self.new.number ≡ self.old.number }
        ensures found { IfOk result (λ found. read_within O.hives (after_elements O.trees self.new.seen.list)
            key.now.hive key.now.path question ≡ Some found) }
        ensures refused { IfErr result (λ why. (why ≡ NoMemory) ⊎ (why ≡ NoSuchHandle)
            ⊎ (read_refusal (read_within O.hives (after_elements O.trees self.new.seen.list)
            key.now.hive key.now.path question) ≡ Some why)) }
    {
        let Some(reader) = self.handle.reader.take() else {
            return Err(Refusal::NoSuchHandle);
        };
        match reader.enter_as::<Entered<O>>() {
            Ok(reading) => {
                let snapshot = reading.get();
                let answer = look_up_in::<O>(
                    self.handle.alloc,
                    &mut self.asker.seen.changes,
                    snapshot,
                    self.handle.hives,
                    key,
                    question,
                );
                self.handle.reader.replace(reading.leave());
                answer
            }
            Err(reader) => {
                self.handle.reader.replace(reader);
                Err(Refusal::NoSuchHandle)
            }
        }
    }

    /// A value of a key, by its name. Refused as `look_up`.
    pub fn get_value(&mut self, key: &Key, name: ValueName) -> Result<Value, Refusal>
        ensures later { IsPrefix self.old.seen.list self.new.seen.list }
        ensures history { self.new.seen.history ≡ self.old.seen.history }
        ensures asked { self.new.seen.asked ≡ self.old.seen.asked }
        ensures number { self.new.number ≡ self.old.number }
        ensures found { IfOk result (λ value. read_within O.hives (after_elements O.trees self.new.seen.list)
            key.now.hive key.now.path (question.ValueOf name) ≡ Some (found.Value value)) }
        ensures refused { IfErr result (λ why. (why ≡ NoMemory) ⊎ (why ≡ NoSuchHandle)
            ⊎ (read_refusal (read_within O.hives (after_elements O.trees self.new.seen.list)
            key.now.hive key.now.path (question.ValueOf name)) ≡ Some why)) }
    {
        match self.look_up(key, Question::ValueOf { name })? {
            ReadResult::Value { value } => Ok(value),
            _ => unreachable!(),
        }
    }

    /// The value of a key at an index, in the order of names. Refused as `look_up`.
    pub fn enum_value(&mut self, key: &Key, index: usize) -> Result<Value, Refusal>
        ensures later { IsPrefix self.old.seen.list self.new.seen.list }
        ensures history { self.new.seen.history ≡ self.old.seen.history }
        ensures asked { self.new.seen.asked ≡ self.old.seen.asked }
        ensures number { self.new.number ≡ self.old.number }
        ensures found { IfOk result (λ value. read_within O.hives (after_elements O.trees self.new.seen.list)
            key.now.hive key.now.path (question.ValueAt index) ≡ Some (found.Value value)) }
        ensures refused { IfErr result (λ why. (why ≡ NoMemory) ⊎ (why ≡ NoSuchHandle)
            ⊎ (read_refusal (read_within O.hives (after_elements O.trees self.new.seen.list)
            key.now.hive key.now.path (question.ValueAt index)) ≡ Some why)) }
    {
        match self.look_up(key, Question::ValueAt { index })? {
            ReadResult::Value { value } => Ok(value),
            _ => unreachable!(),
        }
    }

    /// The name of the subkey of a key at an index, in the order of names. Refused as `look_up`.
    pub fn enum_key(&mut self, key: &Key, index: usize) -> Result<Name, Refusal>
        ensures later { IsPrefix self.old.seen.list self.new.seen.list }
        ensures history { self.new.seen.history ≡ self.old.seen.history }
        ensures asked { self.new.seen.asked ≡ self.old.seen.asked }
        ensures number { self.new.number ≡ self.old.number }
        ensures found { IfOk result (λ name. read_within O.hives (after_elements O.trees self.new.seen.list)
            key.now.hive key.now.path (question.KeyAt index) ≡ Some (found.Key name)) }
        ensures refused { IfErr result (λ why. (why ≡ NoMemory) ⊎ (why ≡ NoSuchHandle)
            ⊎ (read_refusal (read_within O.hives (after_elements O.trees self.new.seen.list)
            key.now.hive key.now.path (question.KeyAt index)) ≡ Some why)) }
    {
        match self.look_up(key, Question::KeyAt { index })? {
            ReadResult::Key { name } => Ok(name),
            _ => unreachable!(),
        }
    }

    /// How many subkeys and values a key has, and its last written time. Refused as `look_up`.
    pub fn query_info(&mut self, key: &Key) -> Result<Info, Refusal>
        ensures later { IsPrefix self.old.seen.list self.new.seen.list }
        ensures history { self.new.seen.history ≡ self.old.seen.history }
        ensures asked { self.new.seen.asked ≡ self.old.seen.asked }
        ensures number { self.new.number ≡ self.old.number }
        ensures found { IfOk result (λ info. read_within O.hives (after_elements O.trees self.new.seen.list)
            key.now.hive key.now.path question.InfoOf ≡ Some (found.Counts info)) }
        ensures refused { IfErr result (λ why. (why ≡ NoMemory) ⊎ (why ≡ NoSuchHandle)
            ⊎ (read_refusal (read_within O.hives (after_elements O.trees self.new.seen.list)
            key.now.hive key.now.path question.InfoOf) ≡ Some why)) }
    {
        match self.look_up(key, Question::InfoOf)? {
            ReadResult::Counts { info } => Ok(info),
            _ => unreachable!(),
        }
    }

    /// The number of a unit of work's commit, in a store that keeps outcomes: that of its last commit, as long as it is
    /// one of the last 4,096. The session need not be the one that committed.
    ///
    /// Refused with `Unsupported` if the store keeps none; with `NotFound` if it has none of the unit; with `NoMemory`;
    /// and with `NoSuchHandle`, as told above.
    pub fn outcome_of(&mut self, unit: &Uuid) -> Result<u64, Refusal>
        ensures later { IsPrefix self.old.seen.list self.new.seen.list }
        ensures history { self.new.seen.history ≡ self.old.seen.history }
        ensures asked { self.new.seen.asked ≡ self.old.seen.asked }
        ensures number { self.new.number ≡ self.old.number }
        ensures found { IfOk result (λ number. HasOutcome O.hives
            (after_elements O.trees self.new.seen.list) unit.now number) }
        ensures refused { IfErr result (λ why. (why ≡ NoMemory) ⊎ (why ≡ NoSuchHandle)
            ⊎ HasNoOutcome O.hives (after_elements O.trees self.new.seen.list) unit.now why) }
    {
        let Some(reader) = self.handle.reader.take() else {
            return Err(Refusal::NoSuchHandle);
        };
        match reader.enter_as::<Entered<O>>() {
            Ok(reading) => {
                let snapshot = reading.get();
                let answer = outcome_in::<O>(
                    self.handle.alloc,
                    &mut self.asker.seen.changes,
                    snapshot,
                    self.handle.hives,
                    unit,
                );
                self.handle.reader.replace(reading.leave());
                answer
            }
            Err(reader) => {
                self.handle.reader.replace(reader);
                Err(Refusal::NoSuchHandle)
            }
        }
    }
}

// takes in the list of what is published, if that has all that was seen
fn take_in(mine: &mut SeenChanges, snapshot: &TreesSnapshot) -> Result<(), Refusal>
    requires book { snapshot.now.book ≡ mine.old.book }
    ensures book { mine.new.book ≡ mine.old.book }
    ensures later { IsPrefix mine.old.list mine.new.list }
    ensures all { OnOk result (mine.new.list ≡ snapshot.now.list) }
    ensures refused { IfErr result (λ why. why ≡ NoSuchHandle) }
{
    if snapshot.seen().len() < mine.len() {
        return Err(Refusal::NoSuchHandle);
    }
    mine.learn(snapshot.seen());
    Ok(())
}

// the answer of what is published, whose list is taken in
fn look_up_in<O: Start>(
    alloc: Global,
    mine: &mut SeenChanges,
    snapshot: &TreesSnapshot,
    hives: usize,
    key: &Key,
    question: Question,
) -> Result<ReadResult, Refusal>
    requires book { snapshot.now.book ≡ mine.old.book }
    requires trees { snapshot.now.trees ≡ after_elements O.trees snapshot.now.list }
    requires hives { hives ≡ O.hives }
    ensures book { mine.new.book ≡ mine.old.book }
    ensures later { IsPrefix mine.old.list mine.new.list }
    ensures found { IfOk result (λ found. read_within O.hives (after_elements O.trees mine.new.list)
        key.now.hive key.now.path question ≡ Some found) }
    ensures refused { IfErr result (λ why. (why ≡ NoMemory) ⊎ (why ≡ NoSuchHandle)
        ⊎ (read_refusal (read_within O.hives (after_elements O.trees mine.new.list)
        key.now.hive key.now.path question) ≡ Some why)) }
{
    take_in(mine, snapshot)?;
    if usize::from(key.hive) >= hives {
        return Err(Refusal::NotFound);
    }
    look_up(alloc, snapshot.trees(), key.hive, &key.path, question)
}

// the outcome of a unit of work in what is published, whose list is taken in
fn outcome_in<O: Start>(
    alloc: Global,
    mine: &mut SeenChanges,
    snapshot: &TreesSnapshot,
    hives: usize,
    unit: &Uuid,
) -> Result<u64, Refusal>
    requires book { snapshot.now.book ≡ mine.old.book }
    requires trees { snapshot.now.trees ≡ after_elements O.trees snapshot.now.list }
    requires hives { hives ≡ O.hives }
    ensures book { mine.new.book ≡ mine.old.book }
    ensures later { IsPrefix mine.old.list mine.new.list }
    ensures found { IfOk result (λ number. HasOutcome O.hives (after_elements O.trees mine.new.list)
        unit.now number) }
    ensures refused { IfErr result (λ why. (why ≡ NoMemory) ⊎ (why ≡ NoSuchHandle)
        ⊎ HasNoOutcome O.hives (after_elements O.trees mine.new.list) unit.now why) }
{
    take_in(mine, snapshot)?;
    number_of_unit(alloc, snapshot.trees(), hives, unit)
}

// the number of a unit's commit in the tree after those that calls name
fn number_of_unit(alloc: Global, trees: &Trees, hives: usize, unit: &Uuid) -> Result<u64, Refusal>
    ensures found { IfOk result (λ number. HasOutcome hives trees.now unit.now number) }
    ensures refused { IfErr result (λ why. (why ≡ NoMemory) ⊎ HasNoOutcome hives trees.now unit.now why) }
{
    if trees.len() <= hives {
        return Err(Refusal::Unsupported);
    }
    let Some(tree) = trees.tree(hives as u8) else {
        unreachable!();
    };
    match number_in(alloc, tree, unit)? {
        Some(number) => Ok(number),
        None => Err(Refusal::NotFound),
    }
}
