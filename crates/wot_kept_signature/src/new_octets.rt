//! The octets of a new signature.
//!
//! It uses `read_signature`, `issuer_place` and `shape`, and `specs/KeptFacts.antt`. `kept_facts` reads what
//! is written here.
ghost use Rattle.std.specs.Prelude.{◌≡◌, ◌<◌, ◌≤◌, ◌^◌, ◌+◌, ◌++◌, IfOk, Some, true, length};
ghost use Rattle.wot_signature.specs.Signature.{facts_of};
ghost use Rattle.wot_kept_signature.specs.KeptFacts.{AreNew, IsPlain, StandIn, head as head_spec};
ghost use Rattle.wot_kept_signature.specs.KeptFacts.{others as others_spec};

use crate::issuer_place::{octet_at, place_of};
use crate::shape::Shape;
use std::alloc::Global;
use wot_signature::{SigFacts, read_signature};
use wot_types::Memory;

/// The octets of the signature with this number and this body, without a mark.
pub(crate) fn octets_of(alloc: Global, number: &[u8; 32], body: &[u8]) -> Result<Vec<u8>, Memory>
    requires { length body.now < 2 ^ 32 }
    ensures { IfOk result (λ v. AreNew number.now body.now v.items) }
{
    match read_signature(body) {
        Some(facts) => with_facts(alloc, facts, number, body),
        None => assembled(alloc, &[0, Shape::Unparseable.octet()], &[], number, body),
    }
}

fn with_facts(
    alloc: Global,
    facts: SigFacts,
    number: &[u8; 32],
    body: &[u8],
) -> Result<Vec<u8>, Memory>
    requires body { length body.now < 2 ^ 32 }
    requires facts { facts_of body.now ≡ Some facts }
    ensures { IfOk result (λ v. AreNew number.now body.now v.items) }
{
    if octet_at(body, 1) != facts.kind || octet_at(body, 3) != facts.hash {
        return assembled(alloc, &[0, Shape::NotKept.octet()], &[], number, body);
    }
    match facts.issuer {
        None => in_full(alloc, facts, false, 0, number, body),
        Some(issuer) => match place_of(&issuer, body) {
            None => assembled(alloc, &[0, Shape::NotKept.octet()], &[], number, body),
            Some(at) => with_issuer(alloc, facts, at, number, body),
        },
    }
}

/// The octets of a signature whose issuer stands at this place in its body.
fn with_issuer(
    alloc: Global,
    facts: SigFacts,
    at: u32,
    number: &[u8; 32],
    body: &[u8],
) -> Result<Vec<u8>, Memory>
    requires body { length body.now < 2 ^ 32 }
    requires facts { facts_of body.now ≡ Some facts }
    requires found { StandIn facts true at body.now }
    ensures new { IfOk result (λ v. AreNew number.now body.now v.items) }
    // What most certifications take, and a keyring may hold a million of them.
    ensures small { IsPlain facts → IfOk result (λ v. length v.items ≡ length body.now + 44) }
{
    if is_plain(facts) {
        let head = head(Shape::Plain, facts, at);
        return assembled(alloc, &head, &[], number, body);
    }
    in_full(alloc, facts, true, at, number, body)
}

/// The octets with all facts. If the signature names an issuer, that stands at this place in its body.
fn in_full(
    alloc: Global,
    facts: SigFacts,
    named: bool,
    at: u32,
    number: &[u8; 32],
    body: &[u8],
) -> Result<Vec<u8>, Memory>
    requires body { length body.now < 2 ^ 32 }
    requires facts { facts_of body.now ≡ Some facts }
    requires found { StandIn facts named at body.now }
    ensures { IfOk result (λ v. AreNew number.now body.now v.items) }
{
    let head = head(Shape::Full, facts, at);
    let others = others(facts, named);
    assembled(alloc, &head, &others, number, body)
}

/// Whether it says nothing beyond its creation time, its depth, its amount and its issuer.
fn is_plain(facts: SigFacts) -> bool
    ensures plain { result ≡ true → IsPlain facts }
    ensures every { IsPlain facts → result ≡ true }
{
    if facts.lasts != 0 || facts.key_lasts != 0 || facts.scoped || !facts.revocable {
        return false;
    }
    !facts.primary && facts.reason.is_none() && facts.sound
}

/// No mark, the shape and what plain facts are, with the issuer at this place.
fn head(shape: Shape, facts: SigFacts, at: u32) -> [u8; 12]
    ensures made { facts.made < 2 ^ 32 }
    ensures at { at < 2 ^ 32 }
    ensures head { result ≡ head_spec shape facts at }
{
    let [a, b, c, d] = facts.made.to_be_bytes();
    let [e, f, g, h] = at.to_be_bytes();
    let (shape, depth, amount) = (shape.octet(), facts.depth, facts.amount);
    [0, shape, a, b, c, d, e, f, g, h, depth, amount]
}

/// What all facts are besides.
fn others(facts: SigFacts, named: bool) -> [u8; 15]
    ensures lasts { facts.lasts < 2 ^ 32 }
    ensures key_lasts { facts.key_lasts < 2 ^ 32 }
    ensures others { result ≡ others_spec facts named }
{
    let [a, b, c, d] = facts.lasts.to_be_bytes();
    let [e, f, g, h] = facts.key_lasts.to_be_bytes();
    let (scoped, revocable) = (u8::from(facts.scoped), u8::from(facts.revocable));
    let (primary, sound) = (u8::from(facts.primary), u8::from(facts.sound));
    let (given, reason) = (u8::from(facts.reason.is_some()), facts.reason.unwrap_or(0));
    let named = u8::from(named);
    [
        a, b, c, d, e, f, g, h, scoped, revocable, primary, sound, given, reason, named,
    ]
}

/// These octets, a number and a body, in a piece of memory of their size.
fn assembled(
    alloc: Global,
    head: &[u8],
    others: &[u8],
    number: &[u8; 32],
    body: &[u8],
) -> Result<Vec<u8>, Memory>
    requires sizes { length head.now + length others.now ≤ 27 }
    requires body { length body.now < 2 ^ 32 }
    requires new { AreNew number.now body.now (head.now ++ others.now ++ number.now ++ body.now) }
    ensures new { IfOk result (λ v. AreNew number.now body.now v.items) }
    ensures size { IfOk result (λ v. length v.items ≡ length head.now + length others.now + 32 + length body.now) }
{
    let mut octets = Vec::with_capacity(alloc, head.len() + others.len() + 32 + body.len())?;
    octets.extend_from_slice(head)?;
    octets.extend_from_slice(others)?;
    octets.extend_from_slice(number)?;
    octets.extend_from_slice(body)?;
    Ok(octets)
}
