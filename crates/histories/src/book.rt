//! The book of a history.
ghost use Rattle.std.specs.Prelude.{◌≡◌, ◌+◌, ◌==◌, ◌<◌, ◌≤◌, ◌++◌, ◌∷◌, [], length, MatchBool, ⊤};
ghost use mathlib.Core.List.{IsPrefix};
ghost use Rattle.published_trees.specs.Book.{count_of};

use crate::noted::{AnyEvent, Noted};
use logbook::{Gain, Offer, Plain, Play, Rule, Seen, Start, Word};
use std::marker::Model;
use std::sync::Wait;
use store_engine::StoreEngine;

/// The rule of the book: its word is the length of the history.
pub struct HistoryRule;

impl Rule<AnyEvent, u64> for HistoryRule {
    ghost use Rattle.std.specs.Prelude.{[]};
    ghost use base.Fml.{ftrue};
    ghost use Rattle.histories.specs.Book.{CountsEvents};

    ghost holds = { λ cells log. CountsEvents cells log };

    ghost first = { [] };

    ghost hinted = { λ n log. Unit {0} };

    ghost shows = { λ log. [] };

    ghost keeps = { λ names log. ftrue };

    ghost moves = { λ ask before after answer. Unit {0} };
}

/// Callers gain nothing.
pub struct NoGain;

impl Gain<AnyEvent, u64> for NoGain {
    ghost use base.Fml.{ftrue};

    ghost after = { λ names about answer. ftrue };
}

/// A step that adds an event.
pub struct Extension;

impl Play<AnyEvent, u64> for Extension {
    ghost use Rattle.histories.specs.Book.{AddsEvent};

    ghost then = { AddsEvent };
}

impl<E: StoreEngine> Plain<Noted<E>, AnyEvent, u64> for Extension {
    ghost use Rattle.std.specs.Prelude.{None};

    ghost ask = { λ note. note };

    ghost state = { λ note. None };
}

/// A step that adds nothing.
pub struct Glance;

impl Play<AnyEvent, u64> for Glance {
    ghost use Rattle.histories.specs.Book.{SeesAllEvents};

    ghost then = { SeesAllEvents };
}

impl Plain<u64, AnyEvent, u64> for Glance {
    ghost use Rattle.std.specs.Prelude.{None};
    ghost use Rattle.histories.specs.Points.{no_entry};

    ghost ask = { λ n. no_entry n };

    ghost state = { λ n. None };
}

type SeenLog = Seen<AnyEvent, u64, HistoryRule>;

/// A beginning of the history that was seen. It has no bytes.
pub struct SeenEvents {
    seen: SeenLog,
}

impl Drop for SeenEvents {
    fn drop(self) {
        let SeenEvents { seen: _ } = self;
    }
}

impl Model for SeenEvents {
    ghost use Rattle.histories.specs.Points.{SeenHistory, seen_code};

    ghost Value = { SeenHistory };

    ghost coded = { seen_code };

    ghost view = { λ s. record { book = s.seen.book; log = s.seen.log } };
}

impl SeenEvents {
    /// A copy.
    pub fn again(&self) -> SeenEvents
        ensures { result ≡ self.now }
    {
        SeenEvents {
            seen: self.seen.again(),
        }
    }

    /// Takes in another beginning of the same history. What is seen then begins with both.
    pub fn learn(&mut self, other: &SeenEvents)
        requires book { other.now.book ≡ self.old.book }
        ensures book { self.new.book ≡ self.old.book }
        ensures this { IsPrefix self.old.log self.new.log }
        ensures that { IsPrefix other.now.log self.new.log }
    {
        self.seen.learn(&other.seen);
    }
}

/// The length of the history, a word that a single owner steps, and the whole history.
pub struct EventCount {
    word: Word<AnyEvent, u64, HistoryRule>,
    count: u64,
    all: SeenEvents,
}

impl Drop for EventCount {
    fn drop(self) {
        let EventCount {
            word: _,
            count: _,
            all: _,
        } = self;
    }
}

impl Model for EventCount {
    ghost use Rattle.std.specs.Prelude.{◌≡◌, length};
    ghost use Rattle.histories.specs.Points.{SeenHistory, seen_code};
    ghost use Rattle.published_trees.specs.Book.{count_of};

    ghost Value = { SeenHistory };

    ghost coded = { seen_code };

    ghost view = { λ c. c.all };

    ghost invariant = { λ c. (c.word ≡ count_of c.all.book) × (c.count ≡ length c.all.log) };
}

impl EventCount {
    /// A new history, without events.
    pub fn open() -> EventCount
        ensures { result.log ≡ [] }
    {
        let (seen, mut first, _second) = Seen::open(Start::alone(), 0, 0);
        EventCount {
            word: Word::tracked(0, &mut first),
            count: 0,
            all: SeenEvents { seen },
        }
    }

    /// Adds an event to the history. All of it is seen then.
    ///
    /// One owner steps the word, so the first try succeeds, which no clause of the library says.
    pub fn add<E: StoreEngine, R: Wait>(&mut self, rt: &R, note: &Noted<E>, mine: &mut SeenEvents)
        requires book { mine.old.book ≡ self.old.book }
        ensures added { self.new ≡ record { book = self.old.book; log = self.old.log ++ note.now ∷ [] } }
        ensures seen { mine.new ≡ self.new }
        ensures before { IsPrefix mine.old.log self.old.log }
    {
        let count = next_count(rt, self.count);
        extend_surely(rt, &self.word, self.count, &self.all, mine, note);
        self.count = count;
        self.all = mine.again();
    }

    /// All of the history is seen, which begins with what was seen.
    pub fn show<R: Wait>(&self, rt: &R, mine: &mut SeenEvents)
        requires book { mine.old.book ≡ self.now.book }
        ensures seen { mine.new ≡ self.now }
        ensures before { IsPrefix mine.old.log self.now.log }
    {
        look_surely(rt, &self.word, self.count, &self.all, mine);
    }

    /// The whole history.
    pub fn all(&self) -> &SeenEvents
        ensures { result.now ≡ self.now }
    {
        &self.all
    }
}

// the number after this one
fn next_count<R: Wait>(rt: &R, count: u64) -> u64
    ensures { result ≡ count + 1 }
{
    for _ in rt.forever() {
        if count < u64::MAX {
            return count + 1;
        }
    }
    unreachable!()
}

// adds an event to what was seen, if that is the whole history, and says whether it is
fn extend<E: StoreEngine>(
    word: &Word<AnyEvent, u64, HistoryRule>,
    count: u64,
    mine: &mut SeenEvents,
    note: &Noted<E>,
) -> bool
    requires word { word.now ≡ count_of mine.old.book }
    requires long { count ≤ length mine.old.log }
    requires room { count < u64.MAX }
    ensures book { mine.new.book ≡ mine.old.book }
    ensures added { MatchBool result
        ((mine.new.log ≡ mine.old.log ++ note.now ∷ []) × (length mine.old.log ≡ count)) ⊤ }
{
    let mut offer: Offer<AnyEvent, u64, HistoryRule, NoGain> = mine
        .seen
        .plain::<NoGain, Noted<E>, Extension>(note);
    let mut pen = mine.seen.no_pen();
    let found = word.compare_exchange::<Extension, NoGain>(
        count,
        count + 1,
        &mut mine.seen,
        &mut offer,
        &mut pen,
    );
    found == count
}

fn extend_surely<E: StoreEngine, R: Wait>(
    rt: &R,
    word: &Word<AnyEvent, u64, HistoryRule>,
    count: u64,
    all: &SeenEvents,
    mine: &mut SeenEvents,
    note: &Noted<E>,
)
    requires word { word.now ≡ count_of all.now.book }
    requires count { count ≡ length all.now.log }
    requires room { count < u64.MAX }
    requires book { mine.old.book ≡ all.now.book }
    ensures added { mine.new ≡ record { book = all.now.book; log = all.now.log ++ note.now ∷ [] } }
    ensures before { IsPrefix mine.old.log all.now.log }
{
    for _ in rt.forever() {
        let mut next = mine.again();
        next.learn(all);
        if extend(word, count, &mut next, note) {
            *mine = next;
            return;
        }
    }
    unreachable!()
}

// how long the history is; all of it is seen
fn look(word: &Word<AnyEvent, u64, HistoryRule>, mine: &mut SeenEvents) -> u64
    requires word { word.now ≡ count_of mine.old.book }
    ensures book { mine.new.book ≡ mine.old.book }
    ensures length { length mine.new.log ≡ result }
    ensures before { IsPrefix mine.old.log mine.new.log }
{
    let mut offer: Offer<AnyEvent, u64, HistoryRule, NoGain> = mine
        .seen
        .plain::<NoGain, u64, Glance>(&0);
    word.load::<Glance, NoGain>(&mut mine.seen, &mut offer)
}

fn look_surely<R: Wait>(
    rt: &R,
    word: &Word<AnyEvent, u64, HistoryRule>,
    count: u64,
    all: &SeenEvents,
    mine: &mut SeenEvents,
)
    requires word { word.now ≡ count_of all.now.book }
    requires count { count ≡ length all.now.log }
    requires book { mine.old.book ≡ all.now.book }
    ensures seen { mine.new ≡ all.now }
    ensures before { IsPrefix mine.old.log all.now.log }
{
    for _ in rt.forever() {
        let mut next = mine.again();
        next.learn(all);
        if look(word, &mut next) == count {
            *mine = next;
            return;
        }
    }
    unreachable!()
}
