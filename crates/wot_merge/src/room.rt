//! A quick check for room: whether a certificate fits even if everything in it is new. If so, an import needs no trial
//! merge. The answer may be "no" when there is room, and then `trial` tries.
ghost use Rattle.std.specs.Prelude.{◌≡◌, ◌≤◌, ◌+◌, [], ◌∷◌, true};
ghost use Rattle.std.specs.Option.{option_copied, IfSome};
ghost use Rattle.wot_component.specs.Text.{size_of};
ghost use Rattle.wot_merge.specs.Room.{BringsFew, FitsBeside, HasRoom};

use crate::tally::{Weight, are_held, is_held};
use std::alloc::Global;
use std::collections::BTreeMap;
use wot_cert::Cert;
use wot_keyring_spec::{Kept, find};
use wot_types::{Fpr, Limits};

/// The only certificate of a list, if there is exactly one.
pub fn only(list: &[Cert]) -> Option<&Cert>
    ensures { IfSome (option_copied result) (λ cert. list.now ≡ cert ∷ []) }
{
    match list {
        [cert] => Some(cert),
        _ => None,
    }
}

/// Whether both together are at most `most`.
fn within(a: u64, b: u64, most: u64) -> bool
    ensures { result ≡ true → a + b ≤ most }
{
    a <= most && b <= most - a
}

/// Whether both have the same key, and together stay within the limit.
fn fit(kept: &Cert, cert: &Cert, limit: u64) -> bool
    ensures key { result ≡ true → kept.now.key ≡ cert.now.key }
    ensures sizes { result ≡ true → size_of kept.now + size_of cert.now ≤ limit }
{
    kept.has_key_of(cert) && are_held(kept, cert) && within(kept.size(), cert.size(), limit)
}

/// Whether the kept certificate, if there is one, has the same key, and both together stay within the limit.
fn fits_beside(kept: Option<&Kept>, cert: &Cert, limit: u64) -> bool
    ensures { result ≡ true → FitsBeside (option_copied kept.entry) cert.now limit }
{
    match kept {
        Some(kept) => fit(&kept.cert, cert, limit),
        None => is_held(cert) && cert.size() <= limit,
    }
}

/// Whether all totals stay within their limits with this certificate added.
fn brings_few(total: &Weight, cert: &Cert, limits: &Limits) -> bool
    ensures { result ≡ true → BringsFew total.now cert.now limits.now }
{
    is_held(cert)
        && within(total.octets, cert.size(), limits.octets)
        && within(total.signatures, cert.signatures(), limits.signatures)
}

/// Whether all limits hold with this certificate added, even if everything in it is new.
pub fn has_room(
    certs: &BTreeMap<Fpr, Kept, Global>,
    total: &Weight,
    cert: &Cert,
    limits: &Limits,
) -> bool
    ensures { result ≡ true → HasRoom certs.now.entries total.now cert.now limits.now }
{
    let count = certs.len() as u64;
    count < limits.certificates
        && brings_few(total, cert, limits)
        && fits_beside(find(certs, &cert.fpr()), cert, limits.certificate)
}
