//! The iterator of `Keyring::certs` and `Keyring::certs_from`: certificates in the order of their fingerprints. It
//! wraps a range of the map, so that a listing in pieces costs its piece and not the keyring. The dump walks over it
//! here; wot_network and the replies to `list` and `keys` do above.
ghost use Rattle.std.specs.Prelude.{◌≡◌, map};
ghost use Rattle.std.specs.Iterator.{YieldsFirstRef, item_count};
ghost use Rattle.wot_types.specs.declared.fpr.Fpr.{Fpr as TheFpr};
ghost use Rattle.wot_keyring_spec.specs.From.{entries_from};
ghost use Rattle.wot_keyring_spec.specs.declared.kept.Kept.{Kept as TheKept};

use crate::kept::Kept;
use std::alloc::Global;
use std::collections::BTreeMap;
use std::collections::btree_map::Range;
use std::marker::Model;
use wot_cert::Cert;
use wot_types::Fpr;

/// The certificates that are still to come, in the order of their fingerprints.
#[derive(Drop)]
pub struct CertsIter<'a> {
    entries: Range<'a, Fpr, Kept>,
}

impl<'a> Model for CertsIter<'a> {
    ghost use Rattle.std.specs.Prelude.{List, map};
    ghost use Rattle.wot_types.specs.declared.fpr.Fpr.{Fpr};
    ghost use Rattle.wot_component.specs.Certificate.{Certificate};
    ghost use Rattle.wot_keyring_spec.specs.declared.kept.Kept.{Kept};

    ghost Value = { List Certificate };

    ghost view = { λ i. map (λ (e : Fpr × Kept). e.1.cert) i.entries };
}

impl<'a> Iterator for CertsIter<'a> {
    type Item = &'a Cert;

    ghost next_gives = { YieldsFirstRef (λ i. i) };

    ghost remaining = { item_count (λ i. i) };

    fn next(&mut self) -> Option<&'a Cert> {
        match self.entries.next() {
            Some((_, kept)) => Some(&kept.cert),
            None => None,
        }
    }
}

/// All certificates of a map.
pub fn certs_of(certs: &BTreeMap<Fpr, Kept, Global>) -> CertsIter<'_>
    ensures certs { result ≡ map (λ (e : TheFpr × TheKept). e.1.cert) certs.now.entries }
{
    listed_from(certs, None)
}

/// The certificates of a map from a fingerprint on. Doesn't walk over those before it.
pub fn listed_from(certs: &BTreeMap<Fpr, Kept, Global>, from: Option<Fpr>) -> CertsIter<'_>
    ensures certs { result ≡ map (λ (e : TheFpr × TheKept). e.1.cert) (entries_from from certs.now.entries) }
{
    let entries = match from {
        Some(fpr) => certs.range(fpr..),
        None => certs.range(..),
    };
    CertsIter { entries }
}
