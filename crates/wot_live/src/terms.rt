//! The terms of an edge: what a certification says about depth, amount and scope, with the rule for
//! self-certifications. A change here changes every answer; `edge_with` in specs/Found.antt and `edge_facts` in
//! specs/Edge.antt have to say the same.
ghost use Rattle.std.specs.Prelude.{◌≡◌};
ghost use Rattle.wot_live.specs.Found.{edge_with as edge_with_spec};

use std::cmp::Ordering;
use wot_cert::Terms;
use wot_edge::EdgeFacts;
use wot_types::{Fpr, compare_fprs};

/// The terms of the edge that this certification makes, at these places.
pub fn edge_with(issuer: Fpr, target: Fpr, uid: u32, sig: u32, said: Terms) -> EdgeFacts
    ensures { result ≡ edge_with_spec issuer target uid sig said }
{
    let own = compare_fprs(&issuer, &target) == Ordering::Equal;
    EdgeFacts {
        issuer,
        target,
        uid,
        sig,
        made: said.made,
        depth: if own { 0 } else { said.depth },
        amount: if own { 120 } else { said.amount },
        scoped: if own { false } else { said.scoped },
    }
}
