//! The facts of a signature in its octets: what octets they are, and how they are read again.
//!
//! It uses `read_signature`, `octets` and `issuer_place`, and `specs/KeptFacts.antt`. `single_facts` reads
//! one fact without the others. A keyring may hold a million signatures, so most of them keep 10 octets of facts: what
//! stands at a known place in the body isn't kept again.
ghost use Rattle.std.specs.Prelude.{◌≡◌, ◌≤◌, ◌<◌, ◌+◌, length};
ghost use Rattle.wot_kept_signature.specs.KeptOctets.{ReachesBody, head_size};
ghost use Rattle.wot_kept_signature.specs.KeptFacts.{facts_kept, facts_by as facts_by_spec};
ghost use Rattle.wot_kept_signature.specs.KeptFacts.{plain_facts as plain_facts_spec};
ghost use Rattle.wot_kept_signature.specs.KeptFacts.{full_facts as full_facts_spec, u32_at as u32_at_spec};
ghost use Rattle.wot_kept_signature.specs.KeptFacts.{flag_at as flag_at_spec, reason_at as reason_at_spec};

use crate::issuer_place::{issuer_at, octet_at};
use crate::octets::{body_in, shape_in};
use crate::shape::Shape;
use wot_signature::{SigFacts, read_signature};

/// The facts in the octets after the mark; `None` if the body can't be parsed.
#[inline(always)]
pub(crate) fn facts_in(kept: &[u8]) -> Option<SigFacts>
    requires { ReachesBody kept.now }
    ensures { result ≡ facts_kept kept.now }
{
    facts_by(shape_in(kept), kept, body_in(kept))
}

#[inline(always)]
fn facts_by(shape: Shape, kept: &[u8], body: &[u8]) -> Option<SigFacts>
    requires { head_size shape ≤ length kept.now }
    ensures { result ≡ facts_by_spec shape kept.now body.now }
{
    match shape {
        Shape::Unparseable => None,
        Shape::Plain => Some(plain_facts(kept, body)),
        Shape::Full => Some(full_facts(kept, body)),
        Shape::NotKept => read_signature(body),
    }
}

#[inline(always)]
fn plain_facts(kept: &[u8], body: &[u8]) -> SigFacts
    requires { 11 ≤ length kept.now }
    ensures { result ≡ plain_facts_spec kept.now body.now }
{
    SigFacts {
        kind: octet_at(body, 1),
        hash: octet_at(body, 3),
        made: u32_at(kept, 1),
        lasts: 0,
        key_lasts: 0,
        depth: kept[9],
        amount: kept[10],
        scoped: false,
        revocable: true,
        primary: false,
        reason: None,
        issuer: issuer_at(body, u32_at(kept, 5)),
        sound: true,
    }
}

#[inline(always)]
fn full_facts(kept: &[u8], body: &[u8]) -> SigFacts
    requires { 26 ≤ length kept.now }
    ensures { result ≡ full_facts_spec kept.now body.now }
{
    let plain = plain_facts(kept, body);
    SigFacts {
        lasts: u32_at(kept, 11),
        key_lasts: u32_at(kept, 15),
        scoped: flag_at(kept, 19),
        revocable: flag_at(kept, 20),
        primary: flag_at(kept, 21),
        sound: flag_at(kept, 22),
        reason: reason_at(kept, 23),
        issuer: if flag_at(kept, 25) {
            plain.issuer
        } else {
            None
        },
        ..plain
    }
}

#[inline(always)]
pub(crate) fn u32_at(kept: &[u8], at: usize) -> u32
    requires { at + 4 ≤ length kept.now }
    ensures { result ≡ u32_at_spec kept.now at }
{
    u32::from_be_bytes([kept[at], kept[at + 1], kept[at + 2], kept[at + 3]])
}

#[inline(always)]
pub(crate) fn flag_at(kept: &[u8], at: usize) -> bool
    requires { at < length kept.now }
    ensures { result ≡ flag_at_spec kept.now at }
{
    kept[at] == 1
}

#[inline(always)]
fn reason_at(kept: &[u8], at: usize) -> Option<u8>
    requires { at + 2 ≤ length kept.now }
    ensures { result ≡ reason_at_spec kept.now at }
{
    flag_at(kept, at).then_some(kept[at + 1])
}
