//! The list of accepted changes, which exists in proofs alone: its length is a word, and beginnings of it that were
//! seen are carried by those who saw them.
ghost use Rattle.std.specs.Prelude.{◌≡◌, ◌+◌, ◌==◌, ◌<◌, ◌≤◌, ◌++◌, ◌∷◌, ◌⊎◌, [], length, MatchBool};
ghost use mathlib.Core.List.{IsPrefix};
ghost use Rattle.published_trees.specs.Lists.{IsLonger};

use change_codec::EncodedChange;
use logbook::{Gain, Offer, Plain, Play, Rule, Seen, Start, Word};
use reg_tree::Element;
use std::marker::Model;
use std::snapshot::Snapshot;

/// The rule of the book: its word is the length of the list.
pub struct CountRule;

impl Rule<Element, u64> for CountRule {
    ghost use Rattle.std.specs.Prelude.{[]};
    ghost use base.Fml.{ftrue};
    ghost use Rattle.published_trees.specs.Book.{IsCounted};

    ghost holds = { λ cells log. IsCounted cells log };

    ghost first = { [] };

    ghost hinted = { λ n log. Unit {0} };

    ghost shows = { λ log. [] };

    ghost keeps = { λ names log. ftrue };

    ghost moves = { λ ask before after answer. Unit {0} };
}

/// Callers trade nothing.
pub struct NoTrade;

impl Gain<Element, u64> for NoTrade {
    ghost use base.Fml.{ftrue};

    ghost after = { λ names about answer. ftrue };
}

/// A step that adds a change.
pub struct Addition;

impl Play<Element, u64> for Addition {
    ghost use Rattle.published_trees.specs.Book.{Adds};

    ghost then = { Adds };
}

impl Plain<Snapshot<EncodedChange>, Element, u64> for Addition {
    ghost use Rattle.std.specs.Prelude.{None};

    ghost ask = { λ change. change.value };

    ghost state = { λ change. None };
}

/// The length of the list, a word that a single owner steps.
pub struct ChangeCount {
    word: Word<Element, u64, CountRule>,
}

impl Drop for ChangeCount {
    fn drop(self) {
        let ChangeCount { word: _ } = self;
    }
}

impl Model for ChangeCount {
    ghost use Rattle.std.specs.Prelude.{◌≡◌};
    ghost use Rattle.logbook.specs.Pages.{Book};
    ghost use Rattle.published_trees.specs.Book.{count_of};

    ghost Value = { Book };

    ghost view = { λ c. c.word.book };

    ghost invariant = { λ c. c.word ≡ count_of c.word.book };
}

impl ChangeCount {
    /// A new list, and the beginning of it to which nothing was added.
    pub fn open() -> (ChangeCount, SeenChanges)
        ensures { result.1 ≡ record { book = result.0; list = [] } }
    {
        let (seen, mut first, _second) = Seen::open(Start::alone(), 0, 0);
        (
            ChangeCount {
                word: Word::tracked(0, &mut first),
            },
            SeenChanges { count: 0, seen },
        )
    }
}

/// A beginning of the list that was seen.
pub struct SeenChanges {
    count: u64,
    seen: Seen<Element, u64, CountRule>,
}

impl Drop for SeenChanges {
    fn drop(self) {
        let SeenChanges { count: _, seen: _ } = self;
    }
}

impl Model for SeenChanges {
    ghost use Rattle.std.specs.Prelude.{◌≡◌, length};
    ghost use Rattle.published_trees.specs.Lists.{SeenList, seen_code};

    ghost Value = { SeenList };

    ghost coded = { seen_code };

    ghost view = { λ s. record { book = s.seen.book; list = s.seen.log } };

    ghost invariant = { λ s. s.count ≡ length s.seen.log };
}

impl SeenChanges {
    /// How many changes it has.
    pub fn len(&self) -> u64
        ensures length { result ≡ length self.now.list }
    {
        self.count
    }

    /// A copy.
    pub fn again(&self) -> SeenChanges
        ensures { result ≡ self.now }
    {
        SeenChanges {
            count: self.count,
            seen: self.seen.again(),
        }
    }

    /// The longer of two beginnings of one list, which the other begins.
    pub fn longer(&self, other: &SeenChanges) -> SeenChanges
        requires book { other.now.book ≡ self.now.book }
        ensures book { result.book ≡ self.now.book }
        ensures one { (result ≡ self.now) ⊎ (result ≡ other.now) }
        ensures ahead { length self.now.list ≤ length other.now.list → result ≡ other.now }
        ensures this { IsPrefix self.now.list result.list }
        ensures that { IsPrefix other.now.list result.list }
    {
        let mut both = self.seen.again();
        both.learn(&other.seen);
        if self.count <= other.count {
            other.again()
        } else {
            self.again()
        }
    }

    /// Takes in another beginning of the same list: it is then the longer of the two.
    pub fn learn(&mut self, other: &SeenChanges)
        requires book { other.now.book ≡ self.old.book }
        ensures book { self.new.book ≡ self.old.book }
        ensures ahead { length self.old.list ≤ length other.now.list → self.new ≡ other.now }
        ensures this { IsPrefix self.old.list self.new.list }
        ensures that { IsPrefix other.now.list self.new.list }
    {
        *self = self.longer(other);
    }

    /// Adds a change after all that was seen, and says whether it did. It did not if the list is longer.
    pub(crate) fn add(&mut self, count: &ChangeCount, change: &Snapshot<EncodedChange>) -> bool
        requires book { count.now ≡ self.old.book }
        requires room { length self.old.list < u64.MAX }
        ensures book { self.new.book ≡ self.old.book }
        ensures added { MatchBool result
            (self.new.list ≡ self.old.list ++ change.now.value ∷ [])
            (IsLonger self.old.list self.new.list) }
    {
        let mut offer: Offer<Element, u64, CountRule, NoTrade> = self
            .seen
            .plain::<NoTrade, Snapshot<EncodedChange>, Addition>(change);
        let mut pen = self.seen.no_pen();
        let seen = self.count;
        let found = count
            .word
            .compare_exchange::<Addition, NoTrade>(
                seen,
                seen + 1,
                &mut self.seen,
                &mut offer,
                &mut pen,
            );
        self.count = if found == seen { seen + 1 } else { found };
        found == seen
    }
}
