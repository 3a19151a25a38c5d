//! `assemble`: the packets of a text to certificates.
//!
//! It uses `draft` for the packets after each key, `first_fault` for errors, and `specs/Assembly.antt` (RFC
//! 9580, section 10.1). Imports, loads and dumps are assembled here.
ghost use Rattle.std.specs.Prelude.{◌≡◌, ◌<◌, ◌≤◌, ◌^◌, ◌+◌, ◌++◌, OnOk, IfOk, length, take, drop};
ghost use Rattle.std.specs.List.{AllByRecursion};
ghost use Rattle.wot_packet.specs.Spelling.{AreShort, spelled_all, spelled_of};
ghost use Rattle.wot_cert.specs.Packets.{begins_component, is_key};
ghost use Rattle.wot_cert.specs.Assembly.{cut_at, certificate_with, certificates_of, skipped_in};
ghost use Rattle.wot_cert.specs.Answers.{IsWhereReadable, TellsFirstFault};
ghost use Rattle.wot_cert.specs.Drafting.{seen, sketched, BeginsWithKey, certs_in, skipped_by};
ghost use Rattle.wot_component.specs.Whole.{IsCertificate};

use crate::draft::Draft;
use crate::first_fault::first_fault_of;
use crate::laws::assembled;
use crate::{Cert, CertFault, CertList};
use std::alloc::Global;
use wot_packet::Packet;
use wot_types::Memory;

/// The draft from the packets after a key.
fn draft_of<'a>(alloc: Global, packets: &[Packet<'a>]) -> Result<Draft<'a>, Memory>
    ensures draft { IfOk result (λ draft. seen draft ≡ sketched (spelled_all packets.now)) }
{
    let mut draft = Draft::new(alloc);
    let mut left = packets.len();
    'back: while left > 0 {
        left -= 1;
        draft.put_packet(alloc, &packets[left])?;
    }
    Ok(draft)
}

/// How many packets come before the next key.
fn before_key(packets: &[Packet]) -> usize
    ensures within { result ≤ length packets.now }
    ensures before { (cut_at is_key (spelled_all packets.now)).0 ≡ take result (spelled_all packets.now) }
    ensures behind { (cut_at is_key (spelled_all packets.now)).1
        ≡ (cut_at is_key (drop result (spelled_all packets.now))).1 }
    ensures begins { BeginsWithKey (drop result (spelled_all packets.now)) }
{
    let mut count = 0;
    'packets: while count < packets.len() {
        if packets[count].kind == 6 {
            return count;
        }
        count += 1;
    }
    count
}

/// The certificate of a key and the packets after it; `None` if and only if the key can't be parsed.
fn certificate(alloc: Global, key: &[u8], behind: &[Packet]) -> Result<Option<Cert>, Memory>
    requires short { AreShort (spelled_all behind.now) }
    ensures certificate { IfOk result
        (IsWhereReadable key.now (certificate_with key.now (cut_at begins_component (spelled_all behind.now)))) }
{
    let draft = draft_of(alloc, behind)?;
    Cert::drafted(alloc, key, &draft)
}

/// The certificates of a list of packets, and how many were skipped because their keys can't be parsed.
#[derive(Drop)]
pub struct Assembled {
    /// One for each key packet that can be parsed, in the order of the packets, without marks.
    pub certs: CertList,
    /// How many keys can't be parsed.
    pub skipped: u64,
}

/// Adds the certificate of a key and the packets up to the next key.
fn take_key(
    alloc: Global,
    certs: &mut Vec<Cert>,
    skipped: &mut u64,
    key: &Packet,
    section: &[Packet],
) -> Result<(), Memory>
    requires short { AreShort (spelled_all section.now) }
    requires few { skipped.old < 2 ^ 28 }
    ensures certs { OnOk result (certs.new.items
        ≡ certs.old.items ++ certs_in (spelled_of key.now, spelled_all section.now)) }
    ensures skipped { OnOk result (skipped.new
        ≡ skipped.old + skipped_by (spelled_of key.now, spelled_all section.now)) }
{
    match certificate(alloc, key.body, section)? {
        Some(cert) => {
            certs.push(cert)?;
            Ok(())
        }
        None => {
            *skipped += 1;
            Ok(())
        }
    }
}

/// The certificates of the keys among these packets, and how many keys were skipped.
fn certificates(alloc: Global, packets: &[Packet]) -> Result<Assembled, Memory>
    requires few { length packets.now < 2 ^ 28 }
    requires short { AreShort (spelled_all packets.now) }
    ensures certs { IfOk result (λ assembled. assembled.certs ≡ certificates_of (spelled_all packets.now)) }
    ensures skipped { IfOk result (λ assembled. assembled.skipped ≡ skipped_in (spelled_all packets.now)) }
{
    let mut certs = Vec::new(alloc);
    let mut skipped = 0;
    let (_, mut rest) = packets.split_at(before_key(packets));
    'keys: while let Some((key, behind)) = rest.split_first() {
        let (section, others) = behind.split_at(before_key(behind));
        take_key(alloc, &mut certs, &mut skipped, key, section)?;
        rest = others;
    }
    Ok(Assembled {
        certs: CertList::new(certs),
        skipped,
    })
}

/// Assembles certificates from the packets of a text: one for each key packet that can be parsed, from that packet and
/// those up to the next key. Keys that can't be parsed are skipped, with the packets after them, and counted. The first
/// fault in the order of the packets is returned, even if it is in a skipped part. No policy is asked, and no mark is
/// set.
pub fn assemble(alloc: Global, packets: &[Packet<'_>]) -> Result<Assembled, CertFault>
    requires few { length packets.now < 2 ^ 28 }
    requires short { AreShort (spelled_all packets.now) }
    ensures assembled { IfOk result (λ assembled. assembled.certs ≡ certificates_of (spelled_all packets.now)) }
    ensures skipped { IfOk result (λ assembled. assembled.skipped ≡ skipped_in (spelled_all packets.now)) }
    ensures whole { IfOk result (λ assembled. AllByRecursion IsCertificate assembled.certs) }
    ensures faults { TellsFirstFault (spelled_all packets.now) result }
{
    assembled();
    if let Some(fault) = first_fault_of(packets) {
        return Err(fault);
    }
    match certificates(alloc, packets) {
        Ok(assembled) => Ok(assembled),
        Err(Memory) => Err(CertFault::Memory),
    }
}
