//! The totals of a certificate: octets, components and signatures, counted up to `u64::MAX`.
//!
//! It uses `sizes` and `specs/Totals.antt`. Limits of `wot_keyring` are compared with them.
ghost use Rattle.std.specs.Prelude.{◌<◌, ◌^◌, [], length};
ghost use Rattle.std.specs.List.{AllByRecursion};
ghost use Rattle.wot_component.specs.Fitting.{SigFits, PartFits};
ghost use Rattle.wot_component.specs.Certificate.{of_parts};
ghost use Rattle.wot_component.specs.Sizes.{sig_size, part_items, part_signatures, part_size};
ghost use Rattle.wot_component.specs.Totals.{AreTotals, FollowSigs, FollowParts, IsCappedSum, WeighsCapped};

use crate::sizes::packet_octets;
use crate::{Adds, Part, Sig};

/// Totals with this much more.
pub(crate) fn with(totals: Adds, more: Adds) -> Adds
    ensures { IsCappedSum result totals more }
{
    Adds {
        items: totals.items.saturating_add(more.items),
        signatures: totals.signatures.saturating_add(more.signatures),
        octets: totals.octets.saturating_add(more.octets),
    }
}

/// The totals of one signature.
pub(crate) fn of_sig(sig: &Sig) -> Adds
    requires { SigFits sig.now }
    ensures { WeighsCapped (λ _. 1) (λ _. 1) sig_size result sig.now }
{
    Adds {
        items: 1,
        signatures: 1,
        octets: packet_octets(sig.body()),
    }
}

/// Totals with those of the signatures added.
fn with_sigs(totals: Adds, sigs: &[Sig]) -> Adds
    requires { AllByRecursion SigFits sigs.now }
    ensures { FollowSigs totals result [] sigs.now }
{
    let mut sum = totals;
    let mut rest = sigs;
    'rest: while let Some((sig, others)) = rest.split_first() {
        sum = with(sum, of_sig(sig));
        rest = others;
    }
    sum
}

/// The totals of a component with its signatures.
pub(crate) fn of_part(part: &Part) -> Adds
    requires { PartFits part.now }
    ensures { WeighsCapped part_items part_signatures part_size result part.now }
{
    let own = Adds {
        items: 1,
        signatures: 0,
        octets: packet_octets(part.body()),
    };
    with_sigs(own, part.sigs())
}

/// Totals with those of the components added.
fn with_parts(totals: Adds, parts: &[Part]) -> Adds
    requires { AllByRecursion PartFits parts.now }
    ensures { FollowParts totals result [] parts.now }
{
    let mut sum = totals;
    let mut rest = parts;
    'rest: while let Some((part, others)) = rest.split_first() {
        sum = with(sum, of_part(part));
        rest = others;
    }
    sum
}

/// The totals of the certificate of these parts.
pub fn totals_of(
    key: &[u8],
    direct: &[Sig],
    user_ids: &[Part],
    attributes: &[Part],
    subkeys: &[Part],
) -> Adds
    requires key { length key.now < 2 ^ 32 }
    requires direct { AllByRecursion SigFits direct.now }
    requires user_ids { AllByRecursion PartFits user_ids.now }
    requires attributes { AllByRecursion PartFits attributes.now }
    requires subkeys { AllByRecursion PartFits subkeys.now }
    ensures { AreTotals result (of_parts key.now direct.now user_ids.now attributes.now subkeys.now) }
{
    let own = Adds {
        items: 1,
        signatures: 0,
        octets: packet_octets(key),
    };
    let direct = with_sigs(own, direct);
    let user_ids = with_parts(direct, user_ids);
    let attributes = with_parts(user_ids, attributes);
    with_parts(attributes, subkeys)
}
