//! The commits that a store keeps, in the order of their numbers.
ghost use Rattle.std.specs.Prelude.{◌≡◌, ◌↔◌, ◌<◌, ◌≤◌, ◌+◌, ◌++◌, ◌∷◌, [], ℕ, true, false, Some, IfOk, IfSome, IfNone, Contains, length, slice_get, vec_capacity};
ghost use Rattle.std.specs.List.{AllByRecursion};
ghost use Rattle.std.specs.List.Sorted.{IsPermutation, IsNonDecreasingBy};
ghost use Rattle.std.specs.Option.{option_map};
ghost use Rattle.std.specs.VecDeque.{deque_capacity, deque_len};
ghost use Rattle.commit_outcomes.specs.Units as units;
ghost use Rattle.commit_outcomes.specs.Commits.{AreUpTo, kept};
ghost use Rattle.commit_outcomes.specs.Trees.{HasCommits, are_outcomes};
ghost use Rattle.commit_outcomes.specs.CommitLists.{named_commit, NumbersRise, last_number, others_of, last_commits, tell_commits};
ghost use Rattle.commit_outcomes.specs.ListRoom.{TellsCommits};
ghost use Rattle.commit_outcomes.specs.declared.kept_commit.KeptCommit.{KeptCommit};

use crate::kept_commit::{KeptCommit, commit_in};
use reg_tree::{Tree, Values};
use std::alloc::{AllocError, Global};
use std::collections::VecDeque;
use std::marker::Model;
use uuid::Uuid;

/// The most commits that a store keeps.
pub const MOST_COMMITS: usize = 4_096;

/// The type of a commit's value: `REG_QWORD`.
pub const COMMIT_KIND: u32 = 11;

const _: () = prove!(MOST_COMMITS == 4_096);

const _: () = prove!(COMMIT_KIND == 11);

/// The commits that a store keeps, of each unit of work the last one, in the order of their numbers: at most 4,096.
///
/// It has room for one commit more from its making, so that a commit is recorded without memory.
#[derive(Drop)]
pub struct CommitList {
    // a ring: the first one goes as fast as one comes at the end
    commits: VecDeque<KeptCommit>,
}

impl Model for CommitList {
    ghost use Rattle.std.specs.Prelude.{ℕ, List};
    ghost use Rattle.std.specs.Coded.{coded×, coded_ℕ, coded_list};
    ghost use Rattle.commit_outcomes.specs.Commits.{Commit};
    ghost use Rattle.commit_outcomes.specs.CommitLists.{named_commits};
    ghost use Rattle.commit_outcomes.specs.ListRoom.{ListFits};

    ghost Value = { List Commit };

    ghost coded = { coded_list (coded× coded_ℕ (coded_list coded_ℕ)) };

    ghost view = { λ inside. named_commits inside.commits.items };

    ghost invariant = { λ inside. ListFits inside.commits };
}

impl CommitList {
    /// No commits.
    pub fn new(alloc: Global) -> Result<CommitList, AllocError>
        ensures { IfOk result (λ list. list ≡ []) }
    {
        let commits = VecDeque::with_capacity(alloc, MOST_COMMITS + 1)?;
        Ok(CommitList { commits })
    }

    /// The commits that a tree of outcomes up to a number has, or nothing exactly if it is no such tree.
    pub fn of(alloc: Global, tree: &Tree, number: u64) -> Result<Option<CommitList>, AllocError>
        ensures some { IfOk result (λ list. IfSome list (λ list. (are_outcomes number tree.now ≡ true)
            × HasCommits list tree.now × AreUpTo number list)) }
        ensures none { IfOk result (λ list. IfNone list (are_outcomes number tree.now ≡ false)) }
    {
        let root = tree.root();
        if root.subkey_count() != 0 {
            return Ok(None);
        }
        let Some(mut commits) = commits_in(alloc, root.key().values(), number)? else {
            return Ok(None);
        };
        in_order(&mut commits);
        if rises(&commits) {
            let commits = VecDeque::from_vec(commits);
            Ok(Some(CommitList { commits }))
        } else {
            Ok(None)
        }
    }

    /// How many commits there are.
    pub fn len(&self) -> usize
        ensures { result ≡ length self.now }
    {
        self.commits.len()
    }

    /// The number of the last commit, or 0 if there is none. No commit has a greater one.
    pub fn last_number(&self) -> u64
        ensures last { result ≡ last_number self.now }
        ensures up_to { AreUpTo result self.now }
    {
        match self.commits.back() {
            Some(commit) => commit.number,
            None => 0,
        }
    }

    /// The commit with the least number.
    pub fn oldest(&self) -> Option<&KeptCommit>
        ensures { option_map (λ commit. named_commit commit.now) result ≡ slice_get self.now 0 }
    {
        self.commits.front()
    }

    /// Records the commit of a unit of work, whose number is above all others, and lets go of what need not be kept.
    ///
    /// `earlier` is the number of the commit of this unit that is listed, if one is. Takes no memory.
    pub fn record(&mut self, unit: &Uuid, number: u64, earlier: Option<u64>)
        requires above { AllByRecursion (λ c. c.0 < number) self.old }
        requires from_one { 0 < number }
        requires earlier { (n : ℕ) → (earlier ≡ Some n) ↔ Contains self.old (n, units.unit_name unit.now) }
        ensures { self.new ≡ kept (self.old ++ (number, units.unit_name unit.now) ∷ []) }
    {
        remove_earlier(&mut self.commits, earlier);
        let unit = *unit;
        push_last(&mut self.commits, KeptCommit { number, unit });
    }
}

// the commits that values tell of, with room for one more; nothing if they are too many, or one tells of none
fn commits_in(
    alloc: Global,
    values: &Values,
    most: u64,
) -> Result<Option<Vec<KeptCommit>>, AllocError>
    ensures some { IfOk result (λ commits. IfSome commits (TellsCommits most values.now)) }
    ensures none { IfOk result (λ commits. IfNone commits (tell_commits most values.now ≡ false)) }
{
    if values.len() > MOST_COMMITS {
        return Ok(None);
    }
    let mut commits = Vec::with_capacity(alloc, MOST_COMMITS + 1)?;
    for index in 0..values.len() {
        let Some(value) = values.at(index) else {
            unreachable!();
        };
        let Some(commit) = commit_in(value, most) else {
            return Ok(None);
        };
        commits.push_reserved(commit);
    }
    Ok(Some(commits))
}

// brings commits into the order of their numbers
fn in_order(commits: &mut Vec<KeptCommit>)
    ensures same { IsPermutation commits.old.items commits.new.items }
    ensures capacity { vec_capacity commits.new ≡ vec_capacity commits.old }
    ensures sorted { IsNonDecreasingBy (λ (commit : KeptCommit). commit.number) commits.new.items }
{
    commits.sort_unstable_by_key(|commit| commit.number);
}

// whether the numbers of commits rise
fn rises(commits: &[KeptCommit]) -> bool
    ensures rise { result ≡ true → NumbersRise commits.now }
    ensures not { result ≡ false → NumbersRise commits.now → ⊥ }
{
    for index in 1..commits.len() {
        if commits[index - 1].number >= commits[index].number {
            return false;
        }
    }
    true
}

// removes the commit with this number
fn remove_earlier(commits: &mut VecDeque<KeptCommit>, earlier: Option<u64>)
    requires { NumbersRise commits.old.items }
    ensures items { commits.new.items ≡ others_of earlier commits.old.items }
    ensures capacity { deque_capacity commits.new ≡ deque_capacity commits.old }
{
    let Some(number) = earlier else {
        return;
    };
    if let Ok(place) = commits.binary_search_by_key(&number, |commit| commit.number) {
        commits.remove(place);
    }
}

// one commit more, at the end; the first one goes if they are too many then
fn push_last(commits: &mut VecDeque<KeptCommit>, commit: KeptCommit)
    requires few { deque_len commits.old ≤ MOST_COMMITS }
    requires room { MOST_COMMITS + 1 ≤ deque_capacity commits.old }
    ensures items { commits.new.items ≡ last_commits MOST_COMMITS (commits.old.items ++ commit ∷ []) }
    ensures capacity { deque_capacity commits.new ≡ deque_capacity commits.old }
{
    commits.push_back_reserved(commit);
    if commits.len() > MOST_COMMITS {
        commits.pop_front();
    }
}
