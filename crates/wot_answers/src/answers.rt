//! The answers that a view keeps, each with its question and with the fingerprints that it depends on. An answer is
//! returned again only if their stamps and root amounts are unchanged. The table of reach of the view is here too.
//! `ask` and `recall` use it; `basis` asks it whether watches may have changed.
ghost use Rattle.std.specs.Prelude.{◌≡◌, ◌≤◌, ◌<◌, ◌+◌, ℕ, [], true, length, IfOk, IfSome, OnOk, OnErr, None};
ghost use Rattle.std.specs.BTreeMap.{insert_entry, is_at};
ghost use Rattle.std.specs.List.Sorted.{IsStrictlySortedBy};
ghost use Rattle.std.specs.Map.{keys_of, lookup};
ghost use Rattle.std.specs.Ordering.{nat_cmp};
ghost use Rattle.wot_keyring_spec.specs.Keyring.{Keyring as Held};
ghost use Rattle.wot_reach.specs.Making.{IsMaking};
ghost use Rattle.wot_reach.specs.Reach.{IsReach};
ghost use Rattle.wot_network.specs.Net.{network_for};
ghost use Rattle.wot_answers.specs.Answers.{AllStill, AreFew, AreRight, AreRightIn, StayRight, StayRightWith};
ghost use Rattle.wot_answers.specs.Answers.{IsAmong, IsTheAnswer, IsFound, IsGood, IsRight};
ghost use Rattle.wot_answers.specs.Answers.{looked_by, looked_in, looked_of, IsSameBut, WereKept, WereKeptOr};
ghost use Rattle.wot_answers.specs.Asked.{AreSettled, IsAnswered, IsAskedIn};
ghost use Rattle.wot_answers.specs.Question.{present_in};

use crate::asked::Asked;
use crate::budget::Budget;
use crate::key::key_of;
use crate::looked::{Looked, are_still};
use crate::parts::Parts;
use crate::reach::KeptReach;
use crate::roots::{are_same, listed};
use std::alloc::Global;
use std::collections::BTreeMap;
use std::marker::Model;
use wot_auth::Answer;
use wot_edge::Roots;
use wot_keyring::Keyring;
use wot_keyring::laws::later_is_order;
use wot_search::{Making, Reach};
use wot_types::{Fpr, Memory, UserId};

/// The most answers that a view keeps.
const MOST: usize = 1024;

/// The most consulted fingerprints that a view keeps with its answers.
const MOST_LOOKED: usize = 1_048_576;

/// A question from a view at a time, its answer, and the fingerprints that were consulted for it. `looked` is None if a
/// table of reach was used: then the answer depends on the whole keyring.
#[derive(Drop)]
pub struct KeptAnswer {
    pub key: u64,
    pub target: Fpr,
    pub wanted: u32,
    pub uid: UserId,
    pub time: u32,
    pub looked: Option<Vec<Looked>>,
    pub answer: Answer,
    /// The count of changes at which the answer was last found valid.
    pub count: u64,
    /// The revision of the view's roots at which it was.
    pub revision: u64,
}

impl KeptAnswer {
    /// Whether this is its question.
    pub fn is_of(&self, asked: &Asked<'_>, time: u32) -> bool
        ensures same { result ≡ true → IsAskedIn asked.now self.now time }
    {
        self.time == time
            && self.wanted == asked.wanted
            && self.target == *asked.target
            && self.uid.octets() == asked.uid
    }

    /// Whether the answer still holds: no stamp and no root amount changed. Nothing is compared if neither the count of
    /// changes nor the revision of the roots changed since it was last found valid.
    fn is_good(&mut self, keyring: &Keyring, roots: &Roots, revision: u64) -> bool
        requires right { IsRight keyring.now self.old }
        requires good { IsGood keyring.now roots.now revision self.old }
        ensures same { IsSameBut self.old self.new }
        ensures good { IsGood keyring.now roots.now revision self.new }
        ensures now { result ≡ true → IsTheAnswer keyring.now roots.now self.old }
    {
        later_is_order();
        let count = keyring.changes();
        if self.count == count && self.revision == revision {
            return true;
        }
        if !all_still(&self.looked, keyring, roots) {
            return false;
        }
        self.count = count;
        self.revision = revision;
        true
    }

    /// The answer, if it is for this question and everything that it depends on is unchanged. None also when out of
    /// memory.
    fn give(&mut self, parts: &Parts<'_>, revision: u64, asked: &Asked<'_>) -> Option<Answer>
        requires right { IsRight parts.now.keyring.now self.old }
        requires good { IsGood parts.now.keyring.now parts.now.roots.now revision self.old }
        ensures same { IsSameBut self.old self.new }
        ensures good { IsGood parts.now.keyring.now parts.now.roots.now revision self.new }
        ensures answered { IfSome result (IsAnswered parts.now asked.now) }
    {
        if !self.is_of(asked, parts.t) {
            return None;
        }
        if !self.is_good(parts.keyring, parts.roots, revision) {
            return None;
        }
        match self.answer.duplicate() {
            Ok(answer) => Some(answer),
            Err(Memory) => None,
        }
    }
}

/// Whether the answer depends on some fingerprints only, with unchanged stamps and root amounts.
fn all_still(grounds: &Option<Vec<Looked>>, keyring: &Keyring, roots: &Roots) -> bool
    ensures still { result ≡ true → AllStill keyring.now roots.now grounds.now }
{
    match grounds {
        Some(looked) => are_still(looked.as_slice(), keyring, roots),
        None => false,
    }
}

type Table = BTreeMap<u64, KeptAnswer, Global>;

/// The number of fingerprints that are kept with an answer.
fn count_looked(answer: &KeptAnswer) -> usize
    ensures count { result ≡ looked_in answer.now }
{
    match &answer.looked {
        Some(looked) => looked.len(),
        None => 0,
    }
}

/// Keeps an answer under its key, where it replaces an earlier one. Returns the number of that one's fingerprints.
fn replace(table: &mut Table, answer: KeptAnswer) -> Result<usize, Memory>
    ensures entries { OnOk result (table.new.entries ≡ insert_entry nat_cmp table.old.entries answer.key answer) }
    ensures earlier { IfOk result (λ count. count ≡ looked_by (lookup (is_at (nat_cmp answer.key)) table.old.entries)) }
    ensures order { IsStrictlySortedBy nat_cmp (keys_of table.old.entries) }
    ensures kept { OnErr result (table.new.entries ≡ table.old.entries) }
{
    let key = answer.key;
    match table.insert(key, answer) {
        Ok(Some(earlier)) => Ok(count_looked(&earlier)),
        Ok(None) => Ok(0),
        Err(_) => Err(Memory),
    }
}

/// Makes room for an answer with `count` fingerprints: if a limit would be passed, all answers are dropped. Returns the
/// number of fingerprints that are left.
fn make_room(table: &mut Table, looked: usize, count: usize) -> usize
    requires few { AreFew table.old.entries looked }
    requires count { count ≤ 1048576 }
    ensures few { AreFew table.new.entries result }
    ensures room { length table.new.entries < 1024 }
    ensures fits { result + count ≤ 1048576 }
    ensures right { StayRight table.old.entries table.new.entries }
    ensures kept { WereKept table.old.entries table.new.entries }
{
    if table.len() < MOST && looked + count <= MOST_LOOKED {
        return looked;
    }
    table.clear();
    0
}

/// Adds an answer for which there is room. Returns the new number of fingerprints.
fn add(table: &mut Table, looked: usize, answer: KeptAnswer) -> usize
    requires few { AreFew table.old.entries looked }
    requires room { length table.old.entries < 1024 }
    requires fits { looked + looked_in answer ≤ 1048576 }
    ensures few { AreFew table.new.entries result }
    ensures right { StayRightWith answer table.old.entries table.new.entries }
    ensures kept { WereKeptOr (IsSameBut answer) table.old.entries table.new.entries }
{
    let count = count_looked(&answer);
    match replace(table, answer) {
        Ok(earlier) => looked + count - earlier,
        Err(Memory) => looked,
    }
}

/// The answer that is kept for a question.
fn give(table: &mut Table, parts: &Parts<'_>, revision: u64, asked: &Asked<'_>) -> Option<Answer>
    requires right { AreRight parts.now.keyring.now parts.now.roots.now revision table.old.entries }
    ensures right { AreRight parts.now.keyring.now parts.now.roots.now revision table.new.entries }
    ensures few { (looked : ℕ) → AreFew table.old.entries looked → AreFew table.new.entries looked }
    ensures kept { WereKept table.old.entries table.new.entries }
    ensures answered { IfSome result (IsAnswered parts.now asked.now) }
{
    match table.get_mut(&key_of(asked)) {
        Some(kept) => kept.give(parts, revision, asked),
        None => None,
    }
}

/// The answers of one view, by the key of the question. When a limit would be passed, all earlier ones are dropped. The
/// view's table of reach, or its making, is kept with them.
#[derive(Drop)]
pub struct Answers {
    table: Table,
    // The number of consulted fingerprints of all answers together.
    looked: usize,
    // The roots for which answers were last found valid, and how often they changed.
    roots: Vec<(Fpr, u8)>,
    revision: u64,
    reach: Option<KeptReach>,
    budget: Budget,
}

impl Model for Answers {
    ghost use Rattle.wot_answers.specs.Answers.{OfView, AreFew};

    ghost Value = { OfView };

    ghost view = { λ a. record {
      entries = a.table.entries;
      roots = a.roots.items;
      revision = a.revision;
      reach = a.reach;
    } };

    ghost invariant = { λ a. AreFew a.table.entries a.looked };
}

impl Answers {
    /// No answers.
    pub fn new(alloc: Global) -> Answers
        ensures none { result.entries ≡ [] }
        ensures no_reach { result.reach ≡ None }
    {
        Answers {
            table: BTreeMap::new(alloc),
            looked: 0,
            roots: Vec::new(alloc),
            revision: 0,
            reach: None,
            budget: Budget::new(),
        }
    }

    /// Makes these the roots for which answers are found valid. False when out of memory. All calls below are for the
    /// roots that were taken last.
    pub fn take_roots(&mut self, alloc: Global, roots: &Roots) -> bool
        ensures roots { result ≡ true → self.new.roots ≡ roots.now }
        ensures right { (k : Held) → AreRightIn k self.old → AreRightIn k self.new }
        ensures kept { self.new.entries ≡ self.old.entries }
    {
        if are_same(self.roots.as_slice(), roots) {
            return true;
        }
        let Some(revision) = self.revision.checked_add(1) else {
            return false;
        };
        let Ok(roots) = listed(alloc, roots) else {
            return false;
        };
        self.roots = roots;
        self.revision = revision;
        true
    }

    /// The answer that is kept for a question, if everything that it depends on is unchanged. None also when out of
    /// memory.
    pub fn give(&mut self, parts: &Parts<'_>, asked: &Asked<'_>) -> Option<Answer>
        requires settled { AreSettled parts.now self.old }
        ensures settled { AreSettled parts.now self.new }
        ensures kept { WereKept self.old.entries self.new.entries }
        ensures answered { IfSome result (IsAnswered parts.now asked.now) }
    {
        give(&mut self.table, parts, self.revision, asked)
    }

    /// The number of kept answers. Together they depend on at most 2^20 fingerprints.
    pub fn len(&self) -> usize
        ensures count { result ≡ length self.now.entries }
        ensures few { result ≤ 1024 }
        ensures looked { looked_of self.now.entries ≤ 1048576 }
    {
        self.table.len()
    }

    /// The answer under a question's key, which may be another question's.
    pub fn kept(&self, asked: &Asked<'_>) -> Option<&KeptAnswer>
        ensures right { (k : Held) → AreRightIn k self.now → IfSome result (λ kept. IsRight k kept.now) }
        ensures found { IfSome result (λ kept. IsAmong self.now.entries kept.now) }
    {
        match self.table.get(&key_of(asked)) {
            Some(kept) => Some(kept),
            None => None,
        }
    }

    /// Keeps an answer that is valid for the roots, unless it consulted too many fingerprints or memory runs out.
    pub fn keep(&mut self, answer: KeptAnswer)
        ensures right { (k : Held) → AreRightIn k self.old → IsRight k answer → IsFound k self.old.roots answer →
            AreRightIn k self.new }
        ensures roots { self.new.roots ≡ self.old.roots }
        ensures kept { WereKeptOr (IsSameBut answer) self.old.entries self.new.entries }
    {
        let count = count_looked(&answer);
        if MOST_LOOKED < count {
            return;
        }
        let revision = self.revision;
        self.looked = make_room(&mut self.table, self.looked, count);
        self.looked = add(
            &mut self.table,
            self.looked,
            KeptAnswer { revision, ..answer },
        );
    }

    /// The table of reach, if it is for the current keyring, these roots and this time.
    pub fn reach(&self, parts: &Parts<'_>) -> Option<&Reach>
        requires settled { AreSettled parts.now self.now }
        ensures reach { IfSome result (λ r. IsReach (network_for (present_in parts.now)) parts.now.roots.now r.now) }
    {
        match &self.reach {
            Some(kept) => kept.give(parts, self.revision),
            None => None,
        }
    }

    /// Keeps the making of a table of reach, in place of an earlier one.
    pub fn keep_making(&mut self, parts: &Parts<'_>, making: Making)
        requires making { IsMaking (network_for (present_in parts.now)) parts.now.roots.now making }
        requires settled { AreSettled parts.now self.old }
        ensures settled { AreSettled parts.now self.new }
        ensures kept { self.new.entries ≡ self.old.entries }
    {
        self.budget.learn(&making);
        self.reach = Some(KeptReach::new(parts, self.revision, making));
    }

    /// Takes out the making of a table of reach, if it is for the current keyring, these roots and this time. Otherwise
    /// it is dropped.
    pub fn take_making(&mut self, parts: &Parts<'_>) -> Option<Making>
        requires settled { AreSettled parts.now self.old }
        ensures settled { AreSettled parts.now self.new }
        ensures kept { self.new.entries ≡ self.old.entries }
        ensures making { IfSome result (IsMaking (network_for (present_in parts.now)) parts.now.roots.now) }
    {
        match self.reach.take() {
            Some(kept) => {
                if kept.is_now(parts, self.revision) {
                    Some(kept.making)
                } else {
                    None
                }
            }
            None => None,
        }
    }

    /// How many looks searches may still take before a table of reach is made.
    pub fn looks(&self, parts: &Parts<'_>) -> u64 {
        self.budget.left(parts.keyring, self.revision, parts.t)
    }

    /// How many looks one search may take.
    pub fn most_looks(&self, parts: &Parts<'_>) -> u64 {
        self.budget.most(parts.keyring)
    }

    /// Notes how many looks a search left.
    pub fn leave_looks(&mut self, parts: &Parts<'_>, left: u64)
        ensures same { self.new ≡ self.old }
    {
        self.budget
            .leave(parts.keyring.changes(), self.revision, parts.t, left);
    }
}
