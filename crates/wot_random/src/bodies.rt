//! The bodies of the packets: keys, user IDs and signatures, octet by octet as in specs/Bodies.antt. `keys` and
//! `certification` put them into packets.
ghost use Rattle.std.specs.Prelude.{◌≡◌, ◌+◌, ◌<◌, ◌≤◌, ◌^◌, true, [], ◌∷◌, length, vec_len, IfOk};
ghost use Rattle.wot_key.specs.Key.{is_readable};
ghost use Rattle.wot_random.specs.Bodies.{hashed_area, key_body_with, signature_over};
ghost use Rattle.wot_random.specs.Bodies.{signature_body as signature_of, user_id as user_id_of};
ghost use Rattle.wot_types.specs.Fpr.{octets_in, version_of};

use std::alloc::Global;
use wot_types::{Fpr, Memory, UserId};

/// The body of a version 4 key that was created then, with four words as its key material.
#[tactic(auto, using(crate::proofs::Shapes::key_is_readable), unfolding(crate::specs::Bodies::key_body))]
pub fn key_body(alloc: Global, made: u32, material: [u64; 4]) -> Result<Vec<u8>, Memory>
    ensures body { IfOk result (λ body. body.items ≡ key_body_with made material) }
    ensures readable { IfOk result (λ body. is_readable body.items ≡ true) }
    ensures size { IfOk result (λ body. vec_len body ≡ 38) }
{
    let [a, b, c, d] = material;
    let mut body = Vec::new(alloc);
    body.push(4)?;
    body.extend_from_slice(&made.to_be_bytes())?;
    body.push(27)?;
    body.extend_from_slice(&a.to_be_bytes())?;
    body.extend_from_slice(&b.to_be_bytes())?;
    body.extend_from_slice(&c.to_be_bytes())?;
    body.extend_from_slice(&d.to_be_bytes())?;
    Ok(body)
}

/// The user ID of an index.
pub fn user_id(alloc: Global, index: u32) -> Result<UserId, Memory>
    ensures uid { IfOk result (λ uid. uid ≡ user_id_of index) }
    ensures short { IfOk result (λ uid. length uid < 2 ^ 32) }
{
    let text = format!(in alloc; "user {index} <u{index}@example.org>")?;
    UserId::new(alloc, text.as_bytes())
}

/// The length, the type and the version before an issuer fingerprint.
fn before_issuer(issuer: &Fpr) -> [u8; 3]
    ensures head { result ≡ (octets_in issuer.now + 2) ∷ 33 ∷ version_of issuer.now ∷ [] }
    ensures most { octets_in issuer.now ≤ 32 }
{
    match issuer {
        Fpr::V4(_) => [22, 33, 4],
        Fpr::V6(_) => [34, 33, 6],
    }
}

#[tactic(auto, unfolding(crate::specs::Bodies::hashed_area))]
fn area(alloc: Global, made: u32, issuer: &Fpr, extra: &[u8]) -> Result<Vec<u8>, Memory>
    requires { length extra.now ≤ 4 }
    ensures area { IfOk result (λ area. area.items ≡ hashed_area made issuer.now extra.now) }
    ensures size { IfOk result (λ area. vec_len area ≤ 45) }
{
    let mut area = Vec::new(alloc);
    area.extend_from_slice(&[5, 2])?;
    area.extend_from_slice(&made.to_be_bytes())?;
    area.extend_from_slice(&before_issuer(issuer))?;
    area.extend_from_slice(issuer.octets())?;
    area.extend_from_slice(extra)?;
    Ok(area)
}

#[tactic(auto, unfolding(crate::specs::Bodies::signature_over))]
fn over(alloc: Global, kind: u8, area: &[u8]) -> Result<Vec<u8>, Memory>
    requires { length area.now ≤ 45 }
    ensures body { IfOk result (λ body. body.items ≡ signature_over kind area.now) }
    ensures size { IfOk result (λ body. vec_len body ≤ 55) }
{
    let mut body = Vec::new(alloc);
    body.extend_from_slice(&[4, kind, 27, 8])?;
    body.extend_from_slice(&(area.len() as u16).to_be_bytes())?;
    body.extend_from_slice(area)?;
    body.extend_from_slice(&[0, 0, 0, 0])?;
    Ok(body)
}

/// The body of a version 4 signature of this type: when it was created, by whom, and these subpackets.
pub fn signature_body(
    alloc: Global,
    kind: u8,
    made: u32,
    issuer: &Fpr,
    extra: &[u8],
) -> Result<Vec<u8>, Memory>
    requires { length extra.now ≤ 4 }
    ensures body { IfOk result (λ body. body.items ≡ signature_of kind made issuer.now extra.now) }
    ensures size { IfOk result (λ body. vec_len body ≤ 55) }
{
    let area = area(alloc, made, issuer, extra)?;
    over(alloc, kind, &area)
}
