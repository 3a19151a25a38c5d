//! The certification network as a view sees it now: it refreshes the view's network and returns the parts that borrow
//! from it. Every question and listing goes through here first.
ghost use Rattle.std.specs.Prelude.{◌≡◌, ◌≤◌, ◌+◌, ℕ, List, IfSome, IsSomeAnd, OnOk};
ghost use Rattle.wot_edge.specs.Lawful.{AreEntries};
ghost use Rattle.wot_edge.specs.Record.{IsRecord};
ghost use Rattle.wot_network.specs.Net.{signatures_in, network_for};
ghost use Rattle.wot_network.specs.Roads.{present_of};
ghost use Rattle.wot_cache.specs.Question.{IsLocalTo};
ghost use Rattle.wot_cache.specs.Inside.{AllFit, IsReady};
ghost use Rattle.wot_cache.specs.Marks.{IsMadeOver, IsUnmade, OthersStay};
ghost use Rattle.wot_cache.specs.Parts.{ArePartsOf};
ghost use Rattle.wot_cache.specs.Views.{view_at, TellsOpen};

use crate::networks::{self, Networks};
use crate::views::{self, Views};
use std::alloc::Global;
use wot_answers::{AskFault, Parts};
use wot_keyring::Keyring;
use wot_network::laws::stale_are_some;
use wot_types::{Memory, Steps, ViewName};

/// A keyring, the views over it, and the networks that are kept for them. Parts borrow from all three.
#[derive(Drop)]
pub struct Networked {
    pub keyring: Keyring,
    pub views: Views,
    pub networks: Networks,
}

impl Networked {
    /// Brings the network of an open view up to date with the current keyring, at the view's time.
    pub fn refresh(
        &mut self,
        alloc: Global,
        view: &ViewName,
        steps: &mut Steps,
    ) -> Result<(), AskFault>
        requires fit { AllFit self.old.networks.entries self.old.keyring }
        ensures fit { AllFit self.new.networks.entries self.new.keyring }
        ensures keyring { self.new.keyring ≡ self.old.keyring }
        ensures views { self.new.views.entries ≡ self.old.views.entries }
        ensures open { TellsOpen result (view_at self.old.views.entries view.now) }
        ensures ready { OnOk result (IsReady self.new.keyring self.new.views.entries self.new.networks.entries
            view.now) }
        ensures made { IsMadeOver result view.now (self.old, steps.old.made) (self.new, steps.new.made) }
        ensures others { OthersStay view.now self.old.networks.entries self.new.networks.entries }
        ensures closed { IsUnmade view.now self.old self.new steps.old.made steps.new.made }
        ensures made_most { steps.new.made ≤ steps.old.made + signatures_in self.old.keyring }
        ensures never_less { steps.old.made ≤ steps.new.made }
    {
        let Some(open) = views::find(&self.views, view) else {
            return Err(AskFault::View);
        };
        stale_are_some();
        match networks::refresh(
            alloc,
            &mut self.networks,
            view,
            &self.keyring,
            open.time,
            steps,
        ) {
            Ok(()) => Ok(()),
            Err(Memory) => Err(AskFault::Memory),
        }
    }

    /// The parts of a view whose network was refreshed.
    pub fn parts(&self, view: &ViewName) -> Parts<'_>
        requires ready { IsReady self.now.keyring self.now.views.entries self.now.networks.entries view.now }
        ensures parts { IsSomeAnd (view_at self.now.views.entries view.now)
            (λ v. ArePartsOf self.now.keyring v result) }
        ensures entries { (u : List ℕ) → AreEntries (network_for (present_of result.roads) u) }
        ensures lawful { (u : List ℕ) → IsRecord (network_for (present_of result.roads) u) }
        ensures local { IfSome (view_at self.now.views.entries view.now)
            (λ v. IsLocalTo self.now.keyring v.time (present_of result.roads)) }
    {
        let Some(open) = views::find(&self.views, view) else {
            unreachable!()
        };
        let Some(network) = networks::find(&self.networks, view) else {
            unreachable!()
        };
        Parts {
            keyring: &self.keyring,
            roads: network.roads(&self.keyring),
            roots: &open.roots,
            t: open.time,
        }
    }
}
