//! What `explain` returns: a word for the target, and a word for each certification. The words are numbers here;
//! wot_reply_lines spells them, so a new reason needs a word there.
ghost use Rattle.std.specs.Prelude.{◌≡◌};

use std::alloc::Global;
use std::marker::Model;
use wot_edge::Step;
use wot_types::SigNumber;

/// A certification on a user ID: its number, the number of its word and, if and only if that is 0, its step.
pub type Reason = (SigNumber, u8, Option<Step>);

/// The reasons of the certifications on a user ID, in the order of their bodies.
#[derive(Drop)]
pub struct ReasonList {
    items: Vec<Reason, Global>,
}

impl Model for ReasonList {
    ghost use Rattle.std.specs.Prelude.{List};
    ghost use Rattle.wot_explain.specs.Reasons.{Reason};

    ghost Value = { List Reason };

    ghost view = { λ list. list.items.items };
}

impl ReasonList {
    /// A list of these reasons.
    pub fn new(items: Vec<Reason>) -> ReasonList
        ensures items { result ≡ items.items }
    {
        ReasonList { items }
    }

    pub fn as_slice(&self) -> &[Reason]
        ensures items { result.now ≡ self.now }
    {
        self.items.as_slice()
    }

    pub fn into_vec(self) -> Vec<Reason>
        ensures items { result.items ≡ self }
    {
        self.items
    }
}

/// Why a certificate is or isn't in order for one of its user IDs, and each certification on it.
#[derive(Drop)]
pub struct Explained {
    /// The number of the target's word. 0 if it is in order for the user ID.
    pub target: u8,
    pub certs: ReasonList,
}

#[derive(Clone, Copy, Debug, PartialEq, Eq)]
pub enum ExplainFault {
    /// The certificate or the user ID isn't there.
    Absent,
    /// Out of memory.
    Memory,
}
