//! Questions whose answers are watched: the sum of an answer, together with what it depends on. wot_watch_commands
//! calls it for each watch; `basis` then says how long the sum stays the same.
ghost use Rattle.std.specs.Prelude.{◌≡◌, ◌≤◌, ◌+◌, false, true, IfOk, IfSome, OnErr};
ghost use Rattle.wot_edge.specs.Answer.{IsAnswer, amount_of};
ghost use Rattle.wot_network.specs.Net.{signatures_in};
ghost use Rattle.wot_cache.specs.Basis.{CarriesOn, HasGrown, IsPresent, IsRested, IsUndisturbed};
ghost use Rattle.wot_cache.specs.Marks.{IsRefreshed};
ghost use Rattle.wot_cache.specs.Question.{OfQuestion};
ghost use Rattle.wot_cache.specs.Views.{view_at, TellsOpen};

use crate::basis::{Basis, kept_sum};
use crate::engine::Engine;
use crate::views;
use wot_answers::{AskFault, Asked};
use wot_auth::Answer;
use wot_types::{Steps, ViewName};

impl Engine {
    /// The sum of the answer that `ask` returns. The basis has to be at the engine's current counts. Afterwards it
    /// depends on everything that the answer depends on, and while it is undisturbed this stays the sum.
    pub fn sum(
        &mut self,
        view: &ViewName,
        asked: &Asked<'_>,
        steps: &mut Steps,
        basis: &mut Basis,
    ) -> Result<u32, AskFault>
        requires wanted { 1 ≤ asked.now.wanted }
        requires present { IsPresent self.old basis.old }
        ensures rested { IfOk result (IsRested self.old view.now asked.now basis.new) }
        ensures grown { HasGrown basis.old basis.new }
        ensures kept { OnErr result (basis.new ≡ basis.old) }
        ensures open { TellsOpen result (view_at self.old.views view.now) }
        ensures refreshed { IsRefreshed result view.now self.old self.new steps.old.made steps.new.made }
        ensures made_most { steps.new.made ≤ steps.old.made + signatures_in self.old.keyring }
        ensures never_less { steps.old.made ≤ steps.new.made }
    {
        match self.ask(view, asked.target, asked.wanted, asked.uid, steps) {
            Ok(answer) => Ok(self.rested(view, asked, &answer, basis)),
            Err(fault) => Err(fault),
        }
    }

    /// The sum of this answer. The basis then depends on what the kept answer depends on, or on the whole keyring if
    /// none is kept.
    fn rested(&self, view: &ViewName, asked: &Asked<'_>, answer: &Answer, basis: &mut Basis) -> u32
        requires present { IsPresent self.now basis.old }
        requires answer { OfQuestion self.now view.now asked.now.target.now asked.now.uid.now
            (λ q. IsAnswer q asked.now.wanted answer.now.paths) }
        requires sum { answer.now.sum ≡ amount_of answer.now.paths }
        ensures rested { IsRested self.now view.now asked.now basis.new result }
        ensures grown { HasGrown basis.old basis.new }
    {
        match self.rest(view, asked, basis) {
            Some(sum) => sum,
            None => {
                basis.rest_on_all();
                answer.sum
            }
        }
    }

    /// The sum of the answer that is kept for a question, if everything that it depends on is unchanged. The basis then
    /// depends on that too.
    fn rest(&self, view: &ViewName, asked: &Asked<'_>, basis: &mut Basis) -> Option<u32>
        requires present { IsPresent self.now basis.old }
        ensures rested { IfSome result (IsRested self.now view.now asked.now basis.new) }
        ensures grown { HasGrown basis.old basis.new }
    {
        let keyring = &self.networked.keyring;
        // Its contract says that stamps are at most the count of changes.
        let _count = keyring.len();
        match views::find(&self.networked.views, view) {
            Some(from) => kept_sum(&self.answers, keyring, view, from, asked, basis),
            None => None,
        }
    }

    /// Whether all sums that depend on this basis are current. If so, the basis is moved to the engine's current
    /// counts. False doesn't mean that a sum changed: if many fingerprints changed, they aren't checked.
    pub fn still_current(&self, basis: &mut Basis) -> bool
        ensures current { result ≡ true → IsUndisturbed self.now basis.old }
        ensures present { result ≡ true → IsPresent self.now basis.new }
        // It is true if nothing was counted since.
        ensures still { IsPresent self.now basis.old → result ≡ true }
        ensures carries_on { CarriesOn self.now basis.old basis.new }
        ensures kept { result ≡ false → basis.new ≡ basis.old }
    {
        basis.still_current(&self.networked.keyring, self.revisions.count())
    }
}
