//! The certifications: three on each user ID but the first, each by a key with a lower index. Random words choose
//! issuer, depth and amount.
ghost use Rattle.std.specs.Prelude.{◌≡◌, ◌+◌, ◌<◌, ◌≤◌, ◌^◌, ℕ, length, IfOk, OnOk};
ghost use Rattle.wot_random.specs.Certifications.{certification_by, certifications_at, drawn_before, issuer_by};
ghost use Rattle.wot_random.specs.Identities.{AreIdentities};
ghost use Rattle.wot_random.specs.Words.{word};

use crate::bodies::signature_body;
use crate::identity::Identity;
use crate::words::Words;
use std::alloc::Global;
use wot_fields::Octets;
use wot_packet::write_packet;
use wot_types::{Fpr, Memory, SigNumber};
use wot_verdict::number_of;

/// A certification of a user ID.
#[derive(Drop)]
pub struct Certification {
    pub packet: Octets,
    pub number: SigNumber,
    pub issuer: Fpr,
}

/// What two words choose: the index of the issuer, and the word for depth and amount.
#[derive(Clone, Copy)]
struct Chosen {
    issuer: u64,
    trust: u64,
}

/// Draws the two words of a certification, below this index.
fn choose(words: &mut Words, index: u32) -> Chosen
    requires drawn { words.old.drawn < 2 ^ 32 }
    requires index { 0 < index }
    ensures issuer { result.issuer ≡ issuer_by words.old.start words.old.drawn index }
    ensures below { result.issuer < index }
    ensures trust { result.trust ≡ word words.old.start (words.old.drawn + 1) }
    ensures start { words.new.start ≡ words.old.start }
    ensures drawn { words.new.drawn ≡ words.old.drawn + 2 }
{
    let issuer = words.draw() % u64::from(index);
    let trust = words.draw();
    Chosen { issuer, trust }
}

/// The certification made in this round.
fn certify(
    alloc: Global,
    words: &mut Words,
    identities: &[Identity],
    index: u32,
    round: u32,
) -> Result<Certification, Memory>
    requires drawn { words.old.drawn < 2 ^ 32 }
    requires round { round ≤ 3 }
    requires index { 0 < index }
    requires identities { (count : ℕ) × (index < count) × AreIdentities words.old.start count identities.now }
    ensures made { IfOk result (λ made. made ≡ certification_by words.old.start words.old.drawn index round) }
    ensures start { words.new.start ≡ words.old.start }
    ensures drawn { words.new.drawn ≡ words.old.drawn + 2 }
{
    let Chosen { issuer, trust } = choose(words, index);
    let issuer = identities[issuer as usize].fpr;
    let depth = (trust % 4) as u8;
    let amount = (60 + trust / 4 % 61) as u8;
    let made = 1_100_000_000 + round;
    let body = signature_body(alloc, 0x10, made, &issuer, &[3, 5, depth, amount])?;
    let subject = &identities[index as usize];
    let number = number_of(subject.body.items(), 1, subject.uid.octets(), &body);
    let mut packet = Vec::new(alloc);
    write_packet(2, &body, &mut packet)?;
    Ok(Certification {
        packet: Octets::from_vec(packet),
        number,
        issuer,
    })
}

/// The certifications of the user ID of an index.
#[tactic(auto, unfolding(crate::specs::Certifications::certifications_at))]
pub fn certifications(
    alloc: Global,
    words: &mut Words,
    identities: &[Identity],
    index: u32,
) -> Result<Vec<Certification>, Memory>
    requires few { length identities.now ≤ 2000 }
    requires index { index < length identities.now }
    requires identities { AreIdentities words.old.start (length identities.now) identities.now }
    requires drawn { words.old.drawn ≡ drawn_before (length identities.now) index }
    ensures made { IfOk result (λ made. made.items ≡ certifications_at words.old.start (length identities.now) index) }
    ensures start { words.new.start ≡ words.old.start }
    ensures drawn { OnOk result (words.new.drawn ≡ drawn_before (length identities.now) (index + 1)) }
{
    let mut made = Vec::new(alloc);
    if index == 0 {
        return Ok(made);
    }
    made.push(certify(alloc, words, identities, index, 1)?)?;
    made.push(certify(alloc, words, identities, index, 2)?)?;
    made.push(certify(alloc, words, identities, index, 3)?)?;
    Ok(made)
}
