//! The span of times throughout which the same signatures of a certificate are live.
//!
//! It uses `Cert::span` and the law in `proofs/SpanLaw.antt`. `wot_network` keeps edges for as long as the time
//! stays in it.
ghost use Rattle.std.specs.Prelude.{ℕ, ◌≡◌};
ghost use Rattle.wot_types.specs.declared.fpr.Fpr.{Fpr};
ghost use Rattle.wot_verdict.specs.Verdicts.{Entries};
ghost use Rattle.wot_cert.specs.Span.{span_of, InSpan};
ghost use Rattle.wot_standing.specs.Standing.{standing_of};
ghost use Rattle.wot_standing.specs.Steady.{AreSameBy, IsSteady};

use wot_cert::{Cert, Span, span};

/// The span of times around `t` throughout which the same signatures are live.
pub fn steady_span(cert: &Cert, t: u32) -> Span
    ensures span { result ≡ span_of cert.now t }
    ensures steady { (u : ℕ) → InSpan result u → IsSteady cert.now t u }
    ensures standings { (u : ℕ) → InSpan result u → (verdicts : Entries)
        → standing_of verdicts cert.now u ≡ standing_of verdicts cert.now t }
    ensures certifications { (u : ℕ) → InSpan result u → (verdicts : Entries) (issuer : Fpr)
        → AreSameBy verdicts issuer t u cert.now }
{
    span(cert, t)
}
