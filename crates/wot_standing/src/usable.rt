//! Usable edges and valid targets, by the standing of a key.
//!
//! It uses `status` and `specs/Usable.antt`. `wot_network` asks it for each edge and target; `docs/PROFILE.md`
//! states the rules.
ghost use Rattle.std.specs.Prelude.{◌≡◌, true};
ghost use Rattle.wot_standing.specs.Usable.{is_usable as is_usable_spec, is_key_in_order as is_key_in_order_spec};
ghost use Rattle.wot_standing.specs.Usable.{is_after as is_after_spec};

use crate::Standing;

fn ends_after(t: u32, end: Option<u64>) -> bool
    ensures { result ≡ is_after_spec t end }
{
    match end {
        Some(end) => (t as u64) < end,
        None => true,
    }
}

fn is_after(t: u32, moment: Option<u32>) -> bool
    ensures { result ≡ is_after_spec t moment }
{
    match moment {
        Some(moment) => t < moment,
        None => true,
    }
}

/// Whether an edge created then is usable, by the standing of its issuer: the issuer stands, already existed, hadn't
/// expired, isn't hard revoked, and wasn't soft revoked by then.
pub fn is_usable(issuer: &Standing, made: u32) -> bool
    ensures usable { result ≡ is_usable_spec issuer.now made }
{
    issuer.has
        && issuer.created <= made
        && ends_after(made, issuer.end)
        && !issuer.hard
        && is_after(made, issuer.soft)
}

/// Whether a key is a valid target at a time, by its standing then: it stands, already exists, hasn't expired and isn't
/// revoked.
pub fn is_key_in_order(target: &Standing, t: u32) -> bool
    ensures in_order { result ≡ is_key_in_order_spec target.now t }
{
    target.has
        && target.created <= t
        && ends_after(t, target.end)
        && !target.hard
        && target.soft.is_none()
}
