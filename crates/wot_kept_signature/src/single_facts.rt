//! Single facts of a signature in its octets.
//!
//! It uses `kept_facts`, which reads all of them, and `specs/SingleFacts.antt`. A question asks each signature
//! for one fact after another, and shouldn't copy all of them each time.
ghost use Rattle.std.specs.Prelude.{◌≡◌, ◌≤◌, false, length};
ghost use Rattle.std.specs.Option.{option_map, option_map_or};
ghost use Rattle.wot_kept_signature.specs.KeptOctets.{ReachesBody, head_size};
ghost use Rattle.wot_kept_signature.specs.KeptFacts.{facts_kept, facts_by, full_facts};
ghost use Rattle.wot_kept_signature.specs.SingleFacts.{times_in as times_in_spec, terms_in as terms_in_spec};

use crate::issuer_place::{issuer_at, octet_at};
use crate::kept_facts::{flag_at, u32_at};
use crate::octets::{body_in, shape_in};
use crate::said::{Terms, Times};
use crate::shape::Shape;
use wot_signature::{SigFacts, read_signature};
use wot_types::Fpr;

/// The signature type.
#[inline(always)]
pub(crate) fn kind_in(kept: &[u8]) -> Option<u8>
    requires { ReachesBody kept.now }
    ensures { result ≡ option_map (λ f. f.kind) (facts_kept kept.now) }
{
    kind_by(shape_in(kept), kept, body_in(kept))
}

#[inline(always)]
fn kind_by(shape: Shape, kept: &[u8], body: &[u8]) -> Option<u8>
    requires { head_size shape ≤ length kept.now }
    ensures { result ≡ option_map (λ f. f.kind) (facts_by shape kept.now body.now) }
{
    match shape {
        Shape::Unparseable => None,
        Shape::Plain => Some(octet_at(body, 1)),
        Shape::Full => Some(octet_at(body, 1)),
        Shape::NotKept => kind_of(read_signature(body)),
    }
}

fn kind_of(facts: Option<SigFacts>) -> Option<u8>
    ensures { result ≡ option_map (λ f. f.kind) facts }
{
    match facts {
        Some(facts) => Some(facts.kind),
        None => None,
    }
}

/// When it was created, and what expires when.
#[inline(always)]
pub(crate) fn times_kept(kept: &[u8]) -> Option<Times>
    requires { ReachesBody kept.now }
    ensures { result ≡ option_map times_in_spec (facts_kept kept.now) }
{
    times_by(shape_in(kept), kept, body_in(kept))
}

#[inline(always)]
fn times_by(shape: Shape, kept: &[u8], body: &[u8]) -> Option<Times>
    requires { head_size shape ≤ length kept.now }
    ensures { result ≡ option_map times_in_spec (facts_by shape kept.now body.now) }
{
    match shape {
        Shape::Unparseable => None,
        Shape::Plain => Some(Times {
            made: u32_at(kept, 1),
            lasts: 0,
            key_lasts: 0,
        }),
        Shape::Full => Some(Times {
            made: u32_at(kept, 1),
            lasts: u32_at(kept, 11),
            key_lasts: u32_at(kept, 15),
        }),
        Shape::NotKept => times_of(read_signature(body)),
    }
}

fn times_of(facts: Option<SigFacts>) -> Option<Times>
    ensures { result ≡ option_map times_in_spec facts }
{
    match facts {
        Some(facts) => Some(Times {
            made: facts.made,
            lasts: facts.lasts,
            key_lasts: facts.key_lasts,
        }),
        None => None,
    }
}

/// The terms of a certification.
#[inline(always)]
pub(crate) fn terms_kept(kept: &[u8]) -> Option<Terms>
    requires { ReachesBody kept.now }
    ensures { result ≡ option_map terms_in_spec (facts_kept kept.now) }
{
    terms_by(shape_in(kept), kept, body_in(kept))
}

#[inline(always)]
fn terms_by(shape: Shape, kept: &[u8], body: &[u8]) -> Option<Terms>
    requires { head_size shape ≤ length kept.now }
    ensures { result ≡ option_map terms_in_spec (facts_by shape kept.now body.now) }
{
    match shape {
        Shape::Unparseable => None,
        Shape::Plain => Some(Terms {
            made: u32_at(kept, 1),
            depth: kept[9],
            amount: kept[10],
            scoped: false,
        }),
        Shape::Full => Some(Terms {
            made: u32_at(kept, 1),
            depth: kept[9],
            amount: kept[10],
            scoped: flag_at(kept, 19),
        }),
        Shape::NotKept => terms_of(read_signature(body)),
    }
}

fn terms_of(facts: Option<SigFacts>) -> Option<Terms>
    ensures { result ≡ option_map terms_in_spec facts }
{
    match facts {
        Some(facts) => Some(Terms {
            made: facts.made,
            depth: facts.depth,
            amount: facts.amount,
            scoped: facts.scoped,
        }),
        None => None,
    }
}

/// Whether it can be parsed and is well-formed.
#[inline(always)]
pub(crate) fn is_sound_in(kept: &[u8]) -> bool
    requires { ReachesBody kept.now }
    ensures { result ≡ option_map_or (λ f. f.sound) (facts_kept kept.now) false }
{
    is_sound_by(shape_in(kept), kept, body_in(kept))
}

#[inline(always)]
fn is_sound_by(shape: Shape, kept: &[u8], body: &[u8]) -> bool
    requires { head_size shape ≤ length kept.now }
    ensures { result ≡ option_map_or (λ f. f.sound) (facts_by shape kept.now body.now) false }
{
    match shape {
        Shape::Unparseable => false,
        Shape::Plain => true,
        Shape::Full => flag_at(kept, 22),
        Shape::NotKept => is_sound(read_signature(body)),
    }
}

fn is_sound(facts: Option<SigFacts>) -> bool
    ensures { result ≡ option_map_or (λ f. f.sound) facts false }
{
    match facts {
        Some(facts) => facts.sound,
        None => false,
    }
}

/// The issuer that it names, if it can be parsed.
#[inline(always)]
pub(crate) fn issuer_in(kept: &[u8]) -> Option<Option<Fpr>>
    requires { ReachesBody kept.now }
    ensures { result ≡ option_map (λ f. f.issuer) (facts_kept kept.now) }
{
    issuer_by(shape_in(kept), kept, body_in(kept))
}

#[inline(always)]
fn issuer_by(shape: Shape, kept: &[u8], body: &[u8]) -> Option<Option<Fpr>>
    requires { head_size shape ≤ length kept.now }
    ensures { result ≡ option_map (λ f. f.issuer) (facts_by shape kept.now body.now) }
{
    match shape {
        Shape::Unparseable => None,
        Shape::Plain => Some(issuer_at(body, u32_at(kept, 5))),
        Shape::Full => Some(named_issuer(kept, body)),
        Shape::NotKept => issuer_of(read_signature(body)),
    }
}

#[inline(always)]
fn named_issuer(kept: &[u8], body: &[u8]) -> Option<Fpr>
    requires { 26 ≤ length kept.now }
    ensures { result ≡ (full_facts kept.now body.now).issuer }
{
    if flag_at(kept, 25) {
        issuer_at(body, u32_at(kept, 5))
    } else {
        None
    }
}

fn issuer_of(facts: Option<SigFacts>) -> Option<Option<Fpr>>
    ensures { result ≡ option_map (λ f. f.issuer) facts }
{
    match facts {
        Some(facts) => Some(facts.issuer),
        None => None,
    }
}
