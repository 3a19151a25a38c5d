//! From a draft to the lists of a certificate: every signature gets its number, since the key is known now.
//!
//! It uses `draft` and `specs/Drafting.antt`. `places` calls it for each kind of component.
ghost use Rattle.std.specs.Prelude.{◌≡◌, ◌<◌, ◌^◌, ◌++◌, ◌∷◌, [], OnOk, IfOk, map, length};
ghost use Rattle.std.specs.List.{AllByRecursion};
ghost use Rattle.wot_component.specs.Certificate.{fresh};
ghost use Rattle.wot_cert.specs.Drafting.{AddsFresh, IsShort, IsShortGroup, body_cmp, part_drafted};
ghost use Rattle.wot_cert.specs.Drafting.{bodies_in, groups_in};
ghost use Rattle.wot_component.specs.Ranked.{IsRising};

use crate::draft::{Bodies, Groups};
use crate::{Part, Sig};
use std::alloc::Global;
use wot_types::Memory;
use wot_verdict::Numbering;

/// The kinds of component in a signature's number: the key, a user ID, a user attribute, a subkey.
pub(crate) const ON_KEY: u8 = 0;

pub(crate) const ON_USER_ID: u8 = 1;

pub(crate) const ON_ATTRIBUTE: u8 = 2;

pub(crate) const ON_SUBKEY: u8 = 3;

fn push_fresh(
    alloc: Global,
    sigs: &mut Vec<Sig>,
    numbering: &Numbering,
    body: &[u8],
) -> Result<(), Memory>
    requires body { length body.now < 2 ^ 32 }
    ensures pushed { OnOk result (AddsFresh numbering.now body.now sigs.old.items sigs.new.items) }
{
    let sig = Sig::fresh(alloc, numbering, body)?;
    sigs.push(sig)?;
    Ok(())
}

/// Puts the signatures with these bodies on one component, in order, into an empty list.
pub(crate) fn put_fresh_sigs(
    alloc: Global,
    sigs: &mut Vec<Sig>,
    key: &[u8],
    kind: u8,
    component: &[u8],
    bodies: &Bodies,
) -> Result<(), Memory>
    requires empty { sigs.old.items ≡ [] }
    requires key { length key.now < 2 ^ 32 }
    requires component { length component.now < 2 ^ 32 }
    requires bodies { AllByRecursion IsShort (bodies_in bodies.now) }
    ensures sigs { OnOk result (sigs.new.items ≡ map (fresh key.now kind component.now) (bodies_in bodies.now)) }
{
    // Many keys have no signature on the key itself. Nothing is digested for them.
    if bodies.is_empty() {
        return Ok(());
    }
    // The lists of a certificate that comes alone are kept as they are made, so they get no room to spare.
    sigs.reserve_exact(bodies.len())?;
    let numbering = Numbering::on(key, kind, component);
    for body in bodies {
        push_fresh(alloc, sigs, &numbering, body)?;
    }
    Ok(())
}

/// The component with this body and the signatures with these bodies on it, without marks.
fn drafted_part(
    alloc: Global,
    key: &[u8],
    kind: u8,
    body: &[u8],
    sigs: &Bodies,
) -> Result<Part, Memory>
    requires key { length key.now < 2 ^ 32 }
    requires body { length body.now < 2 ^ 32 }
    requires sigs { AllByRecursion IsShort (bodies_in sigs.now) }
    requires rises { IsRising body_cmp (bodies_in sigs.now) }
    ensures part { IfOk result (λ p. p ≡ part_drafted key.now kind (body.now, bodies_in sigs.now)) }
{
    let mut on_it = Vec::new(alloc);
    put_fresh_sigs(alloc, &mut on_it, key, kind, body, sigs)?;
    let body = Vec::from_slice(alloc, body)?;
    Ok(Part::new(body, on_it))
}

fn push_drafted(
    alloc: Global,
    parts: &mut Vec<Part>,
    key: &[u8],
    kind: u8,
    body: &[u8],
    sigs: &Bodies,
) -> Result<(), Memory>
    requires key { length key.now < 2 ^ 32 }
    requires body { length body.now < 2 ^ 32 }
    requires sigs { AllByRecursion IsShort (bodies_in sigs.now) }
    requires rises { IsRising body_cmp (bodies_in sigs.now) }
    ensures pushed { OnOk result (parts.new.items
        ≡ parts.old.items ++ part_drafted key.now kind (body.now, bodies_in sigs.now) ∷ []) }
{
    let part = drafted_part(alloc, key, kind, body, sigs)?;
    parts.push(part)?;
    Ok(())
}

/// Puts the components of one kind, in order, into an empty list.
pub(crate) fn put_fresh_parts(
    alloc: Global,
    parts: &mut Vec<Part>,
    key: &[u8],
    kind: u8,
    groups: &Groups,
) -> Result<(), Memory>
    requires empty { parts.old.items ≡ [] }
    requires key { length key.now < 2 ^ 32 }
    requires groups { AllByRecursion IsShortGroup (groups_in groups.now.entries) }
    requires rises { AllByRecursion (λ g. IsRising body_cmp g.1) (groups_in groups.now.entries) }
    ensures parts { OnOk result (parts.new.items ≡ map (part_drafted key.now kind) (groups_in groups.now.entries)) }
{
    parts.reserve_exact(groups.len())?;
    for (body, sigs) in groups {
        push_drafted(alloc, parts, key, kind, body, sigs)?;
    }
    Ok(())
}
