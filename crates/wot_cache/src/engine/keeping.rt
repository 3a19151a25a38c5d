//! What an engine keeps of its answers, and how much. Kept answers change no answer: these clauses, and `consulted` of
//! `Engine::ask`, only bound them.
ghost use Rattle.std.specs.Prelude.{◌≡◌, ◌≤◌, None, IfSome, length};
ghost use Rattle.wot_answers.specs.Answers.{RestsOnLeads, looked_of};
ghost use Rattle.wot_cache.specs.Consulted.{IsKeptFor, AllRestOnLeads, kept_for};
ghost use Rattle.wot_cache.specs.Views.{view_at};

use crate::Engine;
use wot_answers::{Asked, KeptAnswer};
use wot_types::{Fpr, ViewName};

impl Engine {
    /// How many answers are kept for a view: at most 1,024, and none if it isn't open. So the limit on views also
    /// bounds the number of kept answers. Those of one view depend on at most 2^20 fingerprints together. Each depends
    /// on no more than its search had to look at.
    pub fn kept_answers(&self, view: &ViewName) -> usize
        ensures count { result ≡ length (kept_for self.now view.now) }
        ensures looked { looked_of (kept_for self.now view.now) ≤ 1048576 }
        ensures leads { AllRestOnLeads self.now view.now }
        ensures few { result ≤ 1024 }
        ensures closed { view_at self.now.views view.now ≡ None → result ≡ 0 }
    {
        match self.answers.get(view) {
            Some(of_view) => of_view.len(),
            None => 0,
        }
    }

    /// The answer under the key of a question from a view, which may be another question's. It depends on no more than
    /// its search had to look at: every fingerprint led to the target.
    pub fn kept_answer(
        &self,
        view: &ViewName,
        target: &Fpr,
        wanted: u32,
        uid: &[u8],
    ) -> Option<&KeptAnswer>
        ensures leads { IfSome result (λ kept. RestsOnLeads self.now.keyring kept.now) }
        ensures kept { IfSome result (λ kept. IsKeptFor self.now view.now kept.now) }
    {
        match self.answers.get(view) {
            Some(of_view) => of_view.kept(&Asked {
                target,
                wanted,
                uid,
            }),
            None => None,
        }
    }
}
