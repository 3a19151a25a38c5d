//! One watch: a question to a view, and the amount last reported. It only changes when an amount is reported.
ghost use Rattle.std.specs.Prelude.{◌≡◌};

use std::marker::Model;
use wot_types::{Fpr, UserId, ViewName};

/// A question to a view whose amount is reported to a client whenever it changes.
#[derive(Drop)]
pub struct Watch {
    view: ViewName,
    target: Fpr,
    wanted: u32,
    uid: UserId,
    told: u32,
}

impl Model for Watch {
    ghost use Rattle.wot_watch.specs.Watches.{Watch as TheWatch};

    ghost Value = { TheWatch };

    ghost view = { λ a. record { view = a.view; target = a.target; wanted = a.wanted; uid = a.uid; told = a.told } };
}

impl Watch {
    /// A watch on the answer of a view to a wanted amount, for this user ID of this key. `told` is the amount that
    /// opens it.
    pub fn new(view: ViewName, target: Fpr, wanted: u32, uid: UserId, told: u32) -> Watch
        ensures whole { result ≡ record { view = view; target = target; wanted = wanted; uid = uid; told = told } }
    {
        Watch {
            view,
            target,
            wanted,
            uid,
            told,
        }
    }

    /// The view that is asked.
    pub fn view(&self) -> &ViewName
        ensures view { result.now ≡ self.now.view }
    {
        &self.view
    }

    /// The key that is asked about.
    pub fn target(&self) -> Fpr
        ensures target { result ≡ self.now.target }
    {
        self.target
    }

    /// The wanted amount.
    pub fn wanted(&self) -> u32
        ensures wanted { result ≡ self.now.wanted }
    {
        self.wanted
    }

    /// The octets of the user ID that is asked about.
    pub fn uid(&self) -> &[u8]
        ensures uid { result.now ≡ self.now.uid }
    {
        self.uid.octets()
    }

    /// The amount last reported.
    pub fn told(&self) -> u32
        ensures reported { result ≡ self.now.told }
    {
        self.told
    }

    /// Records that this amount was reported.
    pub(crate) fn tell(&mut self, amount: u32)
        ensures reported { self.new ≡ record self.old { told = amount } }
    {
        self.told = amount;
    }
}
