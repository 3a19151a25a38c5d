//! The span of a time: between which moments no signature of a certificate begins or ends.
//!
//! It uses `specs/Span.antt`. Edges are kept for as long as a view's time stays in the span, so a moment that is
//! missed here would keep stale edges; the contract rules that out.
ghost use Rattle.std.specs.Prelude.{◌≡◌, ℕ, [], ◌∷◌};
ghost use Rattle.std.specs.List.{flat_map};
ghost use Rattle.wot_component.specs.Counts.{sigs_on};
ghost use Rattle.wot_cert.specs.Narrowed.{Narrowed, times_moments};
ghost use Rattle.wot_cert.specs.Span.{span_of, sig_moments, unless_zero, created_of};
ghost use Rattle.wot_cert.specs.Span.{InSpan, AreLiveAlike};
ghost use Rattle.wot_cert.specs.Time.{live_at};

use crate::{Cert, Part, Sig, Span, Times};

/// The last moment so far that isn't after a time, and the first one after it.
#[derive(Drop)]
pub(crate) struct Bounds {
    pub(crate) from: u32,
    pub(crate) until: u64,
}

fn narrow(bounds: &mut Bounds, moment: u64, t: u32)
    ensures { Narrowed bounds.old bounds.new (moment ∷ []) t }
{
    if moment <= t as u64 {
        bounds.from = bounds.from.max(moment as u32);
    } else {
        bounds.until = bounds.until.min(moment);
    }
}

/// A moment, if the period that leads to it isn't 0.
fn narrow_unless_zero(bounds: &mut Bounds, said: u32, moment: u64, t: u32)
    ensures { Narrowed bounds.old bounds.new (unless_zero said moment) t }
{
    if said != 0 {
        narrow(bounds, moment, t);
    }
}

fn narrow_times(bounds: &mut Bounds, times: Times, created: u32, t: u32)
    ensures { Narrowed bounds.old bounds.new (times_moments created times) t }
{
    let made = times.made as u64;
    narrow(bounds, made, t);
    narrow_unless_zero(bounds, times.lasts, made + times.lasts as u64, t);
    narrow_unless_zero(
        bounds,
        times.key_lasts,
        created as u64 + times.key_lasts as u64,
        t,
    );
}

fn narrow_sig(bounds: &mut Bounds, sig: &Sig, created: u32, t: u32)
    ensures { Narrowed bounds.old bounds.new (sig_moments created sig.now) t }
{
    match sig.times() {
        Some(times) => narrow_times(bounds, times, created, t),
        None => {}
    }
}

fn narrow_sigs(bounds: &mut Bounds, sigs: &[Sig], created: u32, t: u32)
    ensures { Narrowed bounds.old bounds.new (flat_map (sig_moments created) sigs.now) t }
{
    for sig in sigs {
        narrow_sig(bounds, sig, created, t);
    }
}

fn narrow_part(bounds: &mut Bounds, part: &Part, created: u32, t: u32)
    ensures { Narrowed bounds.old bounds.new (flat_map (sig_moments created) part.now.sigs) t }
{
    narrow_sigs(bounds, part.sigs(), created, t);
}

fn narrow_parts(bounds: &mut Bounds, parts: &[Part], created: u32, t: u32)
    ensures { Narrowed bounds.old bounds.new (flat_map (sig_moments created) (sigs_on parts.now)) t }
{
    for part in parts {
        narrow_part(bounds, part, created, t);
    }
}

fn created(cert: &Cert) -> u32
    ensures { result ≡ created_of cert.now }
{
    cert.key().created
}

/// The span of a time: from the certificate's last moment that isn't after it, or 0, up to the second before the next
/// moment, or the last time that there is. The moments are the key's creation and, for each signature that can be
/// parsed, when it was created, when it expires, and when it makes the key expire.
pub fn span(cert: &Cert, t: u32) -> Span
    ensures span { result ≡ span_of cert.now t }
    ensures live { (u : ℕ) → InSpan result u → live_at t cert.now ≡ live_at u cert.now }
    ensures alike { (u : ℕ) → InSpan result u → AreLiveAlike cert.now t u }
{
    let mut bounds = Bounds {
        from: 0,
        until: 1 << 32,
    };
    let created = created(cert);
    narrow(&mut bounds, created as u64, t);
    narrow_sigs(&mut bounds, cert.direct(), created, t);
    narrow_parts(&mut bounds, cert.user_ids(), created, t);
    narrow_parts(&mut bounds, cert.attributes(), created, t);
    narrow_parts(&mut bounds, cert.subkeys(), created, t);
    Span {
        from: bounds.from,
        to: (bounds.until - 1) as u32,
    }
}
