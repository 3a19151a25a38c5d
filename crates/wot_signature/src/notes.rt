//! The walk over the hashed subpackets that collects the facts of a signature.
//!
//! It uses `known` and `specs/Notes.antt`, which says what each further subpacket changes. `read_signature`
//! returns what it collects.
ghost use Rattle.std.specs.Prelude.{◌≡◌, drop, length, [], true};
ghost use Rattle.wot_subpacket.specs.Seen.{seen};
ghost use Rattle.wot_signature.specs.Facts.{number_in as number_in_spec, issuer_in as issuer_in_spec};
ghost use Rattle.wot_signature.specs.Known.{is_issuer};
ghost use Rattle.wot_signature.specs.Notes.{notes_in, note_more, facts_from};

use crate::SigFacts;
use crate::known::{self, is_known};
use wot_subpacket::{Area, Sub};
use wot_types::Fpr;

/// What the hashed subpackets read so far say.
#[derive(Clone, Copy)]
pub(crate) struct Notes {
    /// The facts; `sound` isn't decided yet.
    pub(crate) facts: SigFacts,
    /// There was a creation time.
    pub(crate) dated: bool,
    /// There was an unknown critical subpacket.
    pub(crate) refused: bool,
}

/// What all subpackets of the area say.
pub(crate) fn notes_of(kind: u8, hash: u8, hashed: &Area<'_>) -> Notes
    ensures { result ≡ notes_in kind hash hashed.now }
{
    let mut notes = Notes::new(kind, hash);
    for sub in hashed.iter() {
        notes.note(&sub);
    }
    notes
}

impl Notes {
    /// The facts, after the last subpacket.
    pub(crate) fn facts(self) -> SigFacts
        ensures { result ≡ facts_from self }
    {
        SigFacts {
            sound: self.dated && !self.refused,
            ..self.facts
        }
    }

    fn new(kind: u8, hash: u8) -> Notes
        ensures { result ≡ notes_in kind hash [] }
    {
        Notes {
            facts: SigFacts {
                kind,
                hash,
                made: 0,
                lasts: 0,
                key_lasts: 0,
                depth: 0,
                amount: 120,
                scoped: false,
                revocable: true,
                primary: false,
                reason: None,
                issuer: None,
                sound: false,
            },
            dated: false,
            refused: false,
        }
    }

    fn note(&mut self, sub: &Sub<'_>)
        ensures { self.new ≡ note_more self.old (seen sub.now) }
    {
        if !is_known(sub) {
            self.refused = sub.critical || self.refused;
            return;
        }
        match sub.kind {
            known::CREATION_TIME => {
                self.facts.made = number_in(sub.body);
                self.dated = true;
            }
            known::EXPIRATION => self.facts.lasts = number_in(sub.body),
            known::KEY_EXPIRATION => self.facts.key_lasts = number_in(sub.body),
            known::TRUST => {
                self.facts.depth = sub.body[0];
                self.facts.amount = sub.body[1];
            }
            known::PATTERN => self.facts.scoped = true,
            known::REVOCABLE => self.facts.revocable = sub.body[0] != 0,
            known::PRIMARY_USER_ID => self.facts.primary = sub.body[0] != 0,
            known::REASON => self.facts.reason = Some(sub.body[0]),
            known::ISSUER_FINGERPRINT => self.facts.issuer = Some(issuer_in(sub.body)),
            _ => {}
        }
    }
}

fn number_in(body: &[u8]) -> u32
    requires { length body.now ≡ 4 }
    ensures { result ≡ number_in_spec body.now }
{
    u32::from_be_bytes([body[0], body[1], body[2], body[3]])
}

/// The fingerprint after the octet of its version.
fn issuer_in(body: &[u8]) -> Fpr
    requires { is_issuer body.now ≡ true }
    ensures { result ≡ issuer_in_spec body.now }
{
    if body[0] == 6 {
        Fpr::V6(fingerprint_v6(body))
    } else {
        Fpr::V4(fingerprint_v4(body))
    }
}

fn fingerprint_v4(body: &[u8]) -> [u8; 20]
    requires { length body.now ≡ 21 }
    ensures { result ≡ drop 1 body.now }
{
    let mut octets = [0u8; 20];
    octets.copy_from_slice(&body[1..]);
    octets
}

fn fingerprint_v6(body: &[u8]) -> [u8; 32]
    requires { length body.now ≡ 33 }
    ensures { result ≡ drop 1 body.now }
{
    let mut octets = [0u8; 32];
    octets.copy_from_slice(&body[1..]);
    octets
}
