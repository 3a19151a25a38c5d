//! The keys, each with a user ID and a direct key signature. They are all made first, since certifications need the
//! fingerprints of their issuers.
ghost use Rattle.std.specs.Prelude.{◌≡◌, ◌+◌, ◌*◌, ◌<◌, ◌≤◌, ◌^◌, true, [], ◌∷◌, length, IfOk, OnOk};
ghost use Rattle.wot_key.specs.Key.{fpr_of, is_readable};
ghost use Rattle.wot_packet.specs.Writing.{written_all};
ghost use Rattle.wot_random.specs.Identities.{AreIdentities, IsIdentity};

use crate::bodies::{key_body, signature_body, user_id};
use crate::identity::Identity;
use crate::words::Words;
use std::alloc::Global;
use wot_fields::Octets;
use wot_key::fingerprint;
use wot_packet::write_packet;
use wot_types::{Fpr, Memory};
use wot_verdict::number_of;

/// The packets of a key, of a signature on it and of a user ID.
fn packets(alloc: Global, body: &[u8], direct: &[u8], uid: &[u8]) -> Result<Octets, Memory>
    requires body { length body.now < 2 ^ 32 }
    requires direct { length direct.now < 2 ^ 32 }
    requires uid { length uid.now < 2 ^ 32 }
    ensures { IfOk result (λ packets. packets ≡ written_all ((6, body.now) ∷ (2, direct.now) ∷ (13, uid.now) ∷ [])) }
{
    let mut text = Vec::new(alloc);
    write_packet(6, body, &mut text)?;
    write_packet(2, direct, &mut text)?;
    write_packet(13, uid, &mut text)?;
    Ok(Octets::from_vec(text))
}

/// The fingerprint of a key with this body.
fn fpr_of_key(body: &[u8]) -> Fpr
    requires { is_readable body.now ≡ true }
    ensures { result ≡ fpr_of body.now }
{
    let Some(fpr) = fingerprint(body) else {
        unreachable!()
    };
    fpr
}

/// The key of an index. It takes four words.
fn make_identity(alloc: Global, words: &mut Words, index: u32) -> Result<Identity, Memory>
    requires index { index < 2000 }
    requires round { words.old.drawn ≡ 4 * index }
    ensures made { IfOk result (IsIdentity words.old.start index) }
    ensures start { words.new.start ≡ words.old.start }
    ensures drawn { OnOk result (words.new.drawn ≡ words.old.drawn + 4) }
{
    let made = 1_000_000_000 + index;
    let material = [words.draw(), words.draw(), words.draw(), words.draw()];
    let body = key_body(alloc, made, material)?;
    let fpr = fpr_of_key(&body);
    let uid = user_id(alloc, index)?;
    let signature = signature_body(alloc, 0x1f, made, &fpr, &[])?;
    let direct = number_of(&body, 0, &[], &signature);
    let packets = packets(alloc, &body, &signature, uid.octets())?;
    Ok(Identity {
        body: Octets::from_vec(body),
        fpr,
        uid,
        direct,
        packets,
    })
}

/// The keys of all indices below a count.
pub fn identities(alloc: Global, words: &mut Words, count: u32) -> Result<Vec<Identity>, Memory>
    requires count { count ≤ 2000 }
    requires first { words.old.drawn ≡ 0 }
    ensures made { IfOk result (λ made. AreIdentities words.old.start count made.items) }
    ensures start { words.new.start ≡ words.old.start }
    ensures drawn { OnOk result (words.new.drawn ≡ 4 * count) }
{
    let mut made = Vec::new(alloc);
    for index in 0..count {
        made.push(make_identity(alloc, words, index)?)?;
    }
    Ok(made)
}
