//! The totals that limits are compared with: sizes, signatures and certificates that are too long, and how much of an
//! import was new. `staging` updates them at each step, so that no limit needs a walk over the keyring.
ghost use Rattle.std.specs.Prelude.{◌≡◌, ◌+◌, ◌≤◌, ◌<◌, ◌^◌, IfOk, OnOk, OnErr, true, false};
ghost use Rattle.wot_component.specs.Text.{size_of};
ghost use Rattle.wot_merge.specs.Staging.{CanMove, Moves, Weighs};

use crate::staging::Step;
use wot_cert::Cert;
use wot_types::Memory;

/// A certificate with this many octets doesn't fit in memory.
const MOST: u64 = 1 << 62;

/// The size and the signatures of a certificate, or of all of them.
#[derive(Clone, Copy)]
pub struct Weight {
    pub octets: u64,
    pub signatures: u64,
    /// How many certificates exceed the limit on their size.
    pub long: u64,
}

/// The totals of no certificates.
pub const NOTHING: Weight = Weight {
    octets: 0,
    signatures: 0,
    long: 0,
};

/// The totals of all certificates, and how many keys, components and signatures are new.
#[derive(Clone, Copy)]
pub struct Tally {
    pub total: Weight,
    pub fresh: u64,
}

/// Whether memory can hold a certificate.
pub fn is_held(cert: &Cert) -> bool
    ensures held { result ≡ true → size_of cert.now < 2 ^ 62 }
    ensures great { result ≡ false → 2 ^ 62 ≤ size_of cert.now }
{
    cert.size() < MOST
}

/// Whether memory can hold both certificates merged.
pub fn are_held(a: &Cert, b: &Cert) -> bool
    ensures held { result ≡ true → size_of a.now + size_of b.now < 2 ^ 63 }
    ensures great { result ≡ false → 2 ^ 62 ≤ size_of a.now + size_of b.now }
{
    a.size() < MOST && b.size() < MOST
}

/// The size and the signatures of a certificate, and whether it exceeds a limit on its size.
pub fn weigh_cert(cert: &Cert, limit: u64) -> Weight
    requires { size_of cert.now < 2 ^ 63 }
    ensures weighs { Weighs limit result cert.now }
{
    let octets = cert.size();
    Weight {
        octets,
        signatures: cert.signatures(),
        long: if limit < octets { 1 } else { 0 },
    }
}

/// A total after one part replaces another.
fn moved(total: u64, before: u64, after: u64) -> Result<u64, Memory>
    requires { before ≤ total + after }
    ensures moved { IfOk result (λ new. new + before ≡ total + after) }
    ensures great { OnErr result (2 ^ 64 ≤ total + after) }
{
    match total.checked_add(after) {
        Some(both) => Ok(both - before),
        None => Err(Memory),
    }
}

/// The totals after one weight replaces another.
fn moved_weight(total: &Weight, before: &Weight, after: &Weight) -> Result<Weight, Memory>
    requires can { CanMove before.now after.now total.now }
    ensures moved { IfOk result (λ new. Moves before.now after.now total.now new) }
{
    let octets = moved(total.octets, before.octets, after.octets)?;
    let signatures = moved(total.signatures, before.signatures, after.signatures)?;
    let long = moved(total.long, before.long, after.long)?;
    Ok(Weight {
        octets,
        signatures,
        long,
    })
}

/// Their sum, unless it overflows.
fn plus(count: u64, more: u64) -> Result<u64, Memory>
    ensures sum { IfOk result (λ sum. sum ≡ count + more) }
    ensures great { OnErr result (2 ^ 64 ≤ count + more) }
{
    match count.checked_add(more) {
        Some(sum) => Ok(sum),
        None => Err(Memory),
    }
}

/// Updates the tally for what one certificate changed.
pub(crate) fn count(tally: &mut Tally, step: &Step) -> Result<(), Memory>
    requires can { CanMove step.now.before step.now.after tally.old.total }
    ensures moved { OnOk result (Moves step.now.before step.now.after tally.old.total tally.new.total) }
    ensures fresh { OnOk result (tally.new.fresh ≡ tally.old.fresh + step.now.items + step.now.keys) }
{
    let total = moved_weight(&tally.total, &step.before, &step.after)?;
    let more = plus(tally.fresh, step.items)?;
    let fresh = plus(more, step.keys)?;
    tally.total = total;
    tally.fresh = fresh;
    Ok(())
}
