//! What a merge would add, without merging: how many keys, components, signatures and octets.
//!
//! It uses `wot_component`, which says it of sorted lists. No crate of the program calls it: `Cert::grow` merges
//! and says what was added.
ghost use Rattle.std.specs.Prelude.{◌≡◌, ◌<◌, ◌^◌, ◌+◌};
ghost use Rattle.wot_component.specs.Certificate.{unite};
ghost use Rattle.wot_component.specs.Counts.{items_of, signatures_of};
ghost use Rattle.wot_component.specs.Text.{size_of};

use crate::{Adds, Cert};
use wot_component::adds::{added_parts, added_sigs, plus};

/// What the second certificate adds to the first.
fn added(a: &Cert, b: &Cert) -> Adds
    requires { size_of (unite a.now b.now) < 2 ^ 63 }
    ensures items { result.items + items_of a.now ≡ items_of (unite a.now b.now) }
    ensures signatures { result.signatures + signatures_of a.now ≡ signatures_of (unite a.now b.now) }
    ensures octets { result.octets + size_of a.now ≡ size_of (unite a.now b.now) }
{
    let direct = added_sigs(a.direct(), b.direct());
    let user_ids = added_parts(a.user_ids(), b.user_ids());
    let attributes = added_parts(a.attributes(), b.attributes());
    let subkeys = added_parts(a.subkeys(), b.subkeys());
    let named = plus(direct, user_ids);
    let others = plus(attributes, subkeys);
    plus(named, others)
}

impl Cert {
    /// What merging a certificate of the same key would add.
    pub fn adds(&self, other: &Cert) -> Adds
        requires same { self.now.key ≡ other.now.key }
        requires sizes { size_of self.now + size_of other.now < 2 ^ 63 }
        ensures items { result.items + items_of self.now ≡ items_of (unite self.now other.now) }
        ensures signatures { result.signatures + signatures_of self.now ≡ signatures_of (unite self.now other.now) }
        ensures octets { result.octets + size_of self.now ≡ size_of (unite self.now other.now) }
    {
        added(self, other)
    }
}
