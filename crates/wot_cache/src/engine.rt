//! The engine's public calls: changes of the keyring and of views, questions, and the parts that listings read. Each
//! contract says what changes and what doesn't, in the terms of specs/State.antt. wot_machine is proved from these
//! alone.
ghost use Rattle.std.specs.Prelude.{◌≡◌, ◌<◌, ◌≤◌, ◌+◌, ◌-◌, ◌^◌, ◌++◌, ℕ, List, [], length};
ghost use Rattle.std.specs.Prelude.{Some, is_ok, is_some, IfOk, IfSome, IsSomeAnd, OnOk, OnErr};
ghost use Rattle.wot_policy.specs.Kept.{rows_of};
ghost use Rattle.wot_keyring_spec.specs.Keyring.{verdict_on};
ghost use Rattle.wot_keyring_spec.specs.Held.{held_of, cert_in, removing, verdict_set, verdict_cleared};
ghost use Rattle.wot_keyring_spec.specs.Judging.{IsJudging, StaysJudging};
ghost use Rattle.wot_keyring_spec.specs.Kept.{AreSmall, StaysJudged};
ghost use Rattle.wot_keyring_spec.specs.Import.{ImportAsks, ImportReturns};
ghost use Rattle.wot_keyring_spec.specs.Removal.{without_cert};
ghost use Rattle.wot_keyring_spec.specs.Verdict.{without_verdict_on, SetsVerdict, TellsFull};
ghost use Rattle.wot_edge.specs.Answer.{IsAnswer, amount_of};
ghost use Rattle.wot_edge.specs.Capacity.{AllFit};
ghost use Rattle.wot_edge.specs.Lawful.{AreEntries};
ghost use Rattle.wot_edge.specs.Record.{IsRecord};
ghost use Rattle.wot_network.specs.Net.{signatures_in, network_for};
ghost use Rattle.wot_network.specs.Roads.{present_of};
ghost use Rattle.wot_keyring.specs.Dump.{lines_of, AreLines};
ghost use Rattle.wot_policy.specs.declared.rows.PolicyRows.{PolicyRows as Rows};
ghost use Rattle.wot_cache.specs.Changes.{ChangesKeyring, IsImported};
ghost use Rattle.wot_cache.specs.Consulted.{ConsultsLeads};
ghost use Rattle.wot_cache.specs.Dump.{commands_of, IsRestored};
ghost use Rattle.wot_cache.specs.Marks.{IsRefreshed};
ghost use Rattle.wot_cache.specs.Parts.{ArePartsOf};
ghost use Rattle.wot_cache.specs.Question.{AreWithinRoots, IsLocalTo, IsOnlyAnswer, OfQuestion, TellsSpent};
ghost use Rattle.wot_cache.specs.State.{empty, state_of, IsStateAfter};
ghost use Rattle.wot_cache.specs.Views.{view_at, TellsOpen};

mod keeping;
mod load;
mod resting;
mod view;

use crate::dump::put_engine;
use crate::laws::kept_fits_later;
use crate::present::Networked;
use crate::revisions::Revisions;
use std::alloc::Global;
use std::collections::BTreeMap;
use std::marker::Model;
use wot_answers::{AllAnswers, AskFault, Asked, Parts, answer};
use wot_auth::Answer;
use wot_keyring::{Absent, Imported, Keyring, Refusal};
use wot_network::NetRoads;
use wot_policy::{Ask, Policy};
use wot_types::{Fpr, Limits, Memory, SigNumber, Steps, ViewName};
use wot_verdict::Verdict;

/// One keyring and the views over it. Calls that change the keyring leave the views unchanged, and the converse.
#[derive(Drop)]
pub struct Engine {
    alloc: Global,
    networked: Networked,
    answers: AllAnswers,
    revisions: Revisions,
}

impl Model for Engine {
    ghost use Rattle.wot_cache.specs.State.{Engine as TheEngine};
    ghost use Rattle.wot_cache.specs.Inside.{IsEngine};
    ghost use Rattle.wot_cache.specs.Marks.{shown};

    ghost Value = { TheEngine };

    ghost view = { λ a. shown a.networked.keyring a.networked.views.entries a.networked.networks.entries a.revisions
        a.answers.entries };

    ghost invariant = { λ a. IsEngine a.networked.keyring a.networked.views.entries a.networked.networks.entries
        a.answers.entries a.revisions };
}

impl Engine {
    ghost use Rattle.std.specs.Borrow.{sem};
    ghost use Rattle.wot_cache.specs.Lent.{RestsRefreshed};

    /// An engine with no certificates, verdicts or views. Takes no memory.
    pub fn new(alloc: Global, limits: Limits) -> Engine
        requires small { AreSmall limits }
        ensures empty { result ≡ empty limits }
    {
        Engine {
            alloc,
            networked: Networked {
                keyring: Keyring::new(alloc, limits),
                views: BTreeMap::new(alloc),
                networks: BTreeMap::new(alloc),
            },
            answers: BTreeMap::new(alloc),
            revisions: Revisions::new(alloc),
        }
    }

    /// The engine's keyring.
    pub fn keyring(&self) -> &Keyring
        ensures keyring { result.now ≡ self.now.keyring }
    {
        &self.networked.keyring
    }

    /// `Keyring::import` on the engine's keyring.
    pub fn import<F: Fn(Ask) -> bool>(
        &mut self,
        bytes: &[u8],
        policy: &mut Policy<F>,
    ) -> Result<Imported, Refusal>
        requires countable { self.old.keyring.changes < 2 ^ 64 - 1 }
        requires short { length bytes.now < 2 ^ 29 }
        requires judging { IsJudging F.Fn policy.old self.old.keyring }
        ensures answer { ImportReturns result (rows_of policy.old) self.old.keyring bytes.now }
        ensures imported { OnOk result (IsImported (rows_of policy.old) bytes.now self.old self.new) }
        ensures kept { OnErr result (self.new ≡ self.old) }
        ensures asked { ImportAsks result self.old.keyring bytes.now policy.old policy.new }
        ensures judging { StaysJudging F.Fn policy.old policy.new self.new.keyring }
        ensures changes { ChangesKeyring self.old self.new }
    {
        kept_fits_later();
        self.networked.keyring.import(self.alloc, bytes, policy)
    }

    /// `Keyring::remove` on the engine's keyring. Takes no memory.
    pub fn remove(&mut self, fpr: &Fpr) -> Result<(), Absent>
        requires countable { self.old.keyring.changes < 2 ^ 64 - 1 }
        ensures removed { OnOk result (self.new.keyring ≡ without_cert fpr.now self.old.keyring) }
        ensures state { OnOk result (IsStateAfter (removing fpr.now) self.old self.new) }
        ensures absent { is_ok result ≡ is_some (cert_in (held_of self.old.keyring) fpr.now) }
        ensures kept { OnErr result (self.new ≡ self.old) }
        ensures judged { StaysJudged self.old.keyring self.new.keyring }
        ensures changes { ChangesKeyring self.old self.new }
    {
        kept_fits_later();
        self.networked.keyring.remove(fpr)
    }

    /// `Keyring::set_verdict` on the engine's keyring.
    pub fn set_verdict(&mut self, number: SigNumber, verdict: Verdict) -> Result<(), Refusal>
        requires countable { self.old.keyring.changes < 2 ^ 64 - 1 }
        ensures same { verdict_on self.old.keyring number ≡ Some verdict → (result ≡ Ok tt) × (self.new ≡ self.old) }
        ensures state { OnOk result (IsStateAfter (verdict_set number verdict) self.old self.new) }
        ensures set { OnOk result (SetsVerdict number verdict self.old.keyring self.new.keyring) }
        ensures full { TellsFull result self.old.keyring number }
        ensures kept { OnErr result (self.new ≡ self.old) }
        ensures judged { StaysJudged self.old.keyring self.new.keyring }
        ensures changes { ChangesKeyring self.old self.new }
    {
        kept_fits_later();
        self.networked.keyring.set_verdict(number, verdict)
    }

    /// `Keyring::clear_verdict` on the engine's keyring. Takes no memory.
    pub fn clear_verdict(&mut self, number: &SigNumber) -> Result<(), Absent>
        requires countable { self.old.keyring.changes < 2 ^ 64 - 1 }
        ensures cleared { OnOk result (self.new.keyring ≡ without_verdict_on number.now self.old.keyring) }
        ensures state { OnOk result (IsStateAfter (verdict_cleared number.now) self.old self.new) }
        ensures absent { is_ok result ≡ is_some (verdict_on self.old.keyring number.now) }
        ensures kept { OnErr result (self.new ≡ self.old) }
        ensures judged { StaysJudged self.old.keyring self.new.keyring }
        ensures changes { ChangesKeyring self.old self.new }
    {
        kept_fits_later();
        self.networked.keyring.clear_verdict(number)
    }

    /// How confident one can be that a user ID belongs to a target, from an open view: the next paths until their sum
    /// reaches `wanted`, or until no valid path of positive amount is left. Before that the view's network is refreshed
    /// for stale certificates, and each edge made is counted in `steps`. Only the view's marks and kept answers change.
    ///
    /// Alice, the root with 120, certified Carol with 40 and made Bob an introducer with 80, and Bob certified Carol:
    ///
    /// ```text
    /// let answer = engine.ask(&me, &carol, 120, b"Carol <carol@example.org>", &mut steps)?;
    /// answer.sum == 120
    /// answer.paths: Alice ─40─▶ Carol, then Alice ─80─▶ Bob ─120─▶ Carol (80)
    /// ```
    pub fn ask(
        &mut self,
        view: &ViewName,
        target: &Fpr,
        wanted: u32,
        uid: &[u8],
        steps: &mut Steps,
    ) -> Result<Answer, AskFault>
        requires wanted { 1 ≤ wanted }
        ensures answer { IfOk result (λ a. OfQuestion self.old view.now target.now uid.now
            (λ q. IsAnswer q wanted a.paths)) }
        // No other list of paths is an answer to the question.
        ensures one { IfOk result (λ a. OfQuestion self.old view.now target.now uid.now
            (λ q. IsOnlyAnswer q wanted a.paths)) }
        ensures sum { IfOk result (λ a. a.sum ≡ amount_of a.paths) }
        // The amount is 0 exactly if no valid path of positive amount exists.
        ensures zero { IfOk result (λ a. OfQuestion self.old view.now target.now uid.now (λ q. TellsSpent q a.sum)) }
        // Each path takes from an edge at most what the paths before it left, and all paths together take from a root
        // at most its amount.
        ensures pairs { IfOk result (λ a. AllFit [] a.paths) }
        ensures roots { IfOk result (λ a. IfSome (view_at self.old.views view.now)
            (λ v. AreWithinRoots v.roots a.paths)) }
        ensures open { TellsOpen result (view_at self.old.views view.now) }
        ensures refreshed { IsRefreshed result view.now self.old self.new steps.old.made steps.new.made }
        // The search notes no more than what leads to the target now.
        ensures consulted { ConsultsLeads view.now target.now wanted uid.now self.old self.new }
        ensures made_most { steps.new.made ≤ steps.old.made + signatures_in self.old.keyring }
        ensures never_less { steps.old.made ≤ steps.new.made }
    {
        let before = steps.made;
        self.networked.refresh(self.alloc, view, steps)?;
        let made = steps.made.saturating_sub(before);
        let parts = self.networked.parts(view);
        let asked = Asked {
            target,
            wanted,
            uid,
        };
        answer(self.alloc, &mut self.answers, &parts, view, &asked, made)
    }

    /// The roads that a question from an open view is asked over: those of the current keyring at the view's time. The
    /// view's network is refreshed first, as in `ask`. Only the view's marks change.
    pub fn roads(&mut self, view: &ViewName, steps: &mut Steps) -> Result<NetRoads<'_>, AskFault>
        ensures* refreshed { sem 𝓛 (RestsRefreshed self.entry result view.now steps.old.made steps.new.made) }
        ensures keyring { IfOk result (λ r. (present_of r).keyring ≡ self.old.keyring) }
        ensures time { IfOk result (λ r. IfSome (view_at self.old.views view.now) (λ v. (present_of r).time ≡ v.time)) }
        ensures entries { IfOk result (λ r. (u : List ℕ) → AreEntries (network_for (present_of r) u)) }
        ensures lawful { IfOk result (λ r. (u : List ℕ) → IsRecord (network_for (present_of r) u)) }
        ensures local { IfOk result (λ r. IfSome (view_at self.old.views view.now) (λ v.
            IsLocalTo self.old.keyring v.time (present_of r))) }
        ensures open { TellsOpen result (view_at self.old.views view.now) }
        ensures made_most { steps.new.made ≤ steps.old.made + signatures_in self.old.keyring }
        ensures never_less { steps.old.made ≤ steps.new.made }
    {
        self.networked.refresh(self.alloc, view, steps)?;
        Ok(self.networked.parts(view).roads)
    }

    /// What listings and explanations need from an open view: the keyring, its roads at the view's time, the view's
    /// roots and its time. The view's network is refreshed first, as in `ask`. Only the view's marks change.
    pub fn parts(&mut self, view: &ViewName, steps: &mut Steps) -> Result<Parts<'_>, AskFault>
        ensures* refreshed { sem 𝓛 (RestsRefreshed self.entry result view.now steps.old.made steps.new.made) }
        ensures parts { IfOk result (λ p. IsSomeAnd (view_at self.old.views view.now)
            (λ v. ArePartsOf self.old.keyring v p)) }
        ensures few { IfOk result (λ p. length p.roots.now ≤ 64) }
        ensures entries { IfOk result (λ p. (u : List ℕ) → AreEntries (network_for (present_of p.roads) u)) }
        ensures lawful { IfOk result (λ p. (u : List ℕ) → IsRecord (network_for (present_of p.roads) u)) }
        ensures local { IfOk result (λ p. IfSome (view_at self.old.views view.now) (λ v.
            IsLocalTo self.old.keyring v.time (present_of p.roads))) }
        ensures open { TellsOpen result (view_at self.old.views view.now) }
        ensures made_most { steps.new.made ≤ steps.old.made + signatures_in self.old.keyring }
        ensures never_less { steps.old.made ≤ steps.new.made }
    {
        self.networked.refresh(self.alloc, view, steps)?;
        Ok(self.networked.parts(view))
    }

    /// Appends a line for each certificate, each verdict, and each view with its roots: the commands that restore this
    /// state. Returns their number. After `Memory`, `out` is unchanged.
    pub fn dump(&self, out: &mut Vec<u8>) -> Result<u64, Memory>
        ensures lines { OnOk result (out.new.items ≡ out.old.items ++ lines_of (commands_of (state_of self.now))) }
        ensures count { IfOk result (λ count. count ≡ length (commands_of (state_of self.now))) }
        ensures kept { OnErr result (out.new.items ≡ out.old.items) }
        // Each command is printed as one line, from which it is read back.
        ensures read_back { OnOk result (AreLines (commands_of (state_of self.now))) }
        // So one run can read the whole dump.
        ensures size { OnOk result (length (lines_of (commands_of (state_of self.now))) < 2 ^ 30) }
        // The fresh engine may judge by any policy rows.
        ensures restored { OnOk result ((rows : Rows) → IsRestored rows self.now) }
    {
        put_engine(
            self.alloc,
            &self.networked.keyring,
            &self.networked.views,
            out,
        )
    }
}
