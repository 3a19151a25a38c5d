//! The text that `store` writes: the kept certificate alone if there is no entry, and else merged with the entry's. It
//! uses wot_cert for the merge, and wot_keyring for reading an entry by the rules of `load`.
ghost use Rattle.std.specs.Prelude.{◌≡◌, ◌<◌, ◌^◌, Ok, length, IfErr, IfOk};
ghost use Rattle.wot_types.specs.declared.name.Name.TheVariants.{Cert as CertName};
ghost use Rattle.wot_component.specs.Text.{text_of};
ghost use Rattle.wot_keyring_spec.specs.Entry.{entry_in};
ghost use Rattle.wot_certd.specs.Shelf.{FitsEntry};
ghost use Rattle.wot_plain.specs.Storing.{text_unless, united as united_of, unless_great, writing};
ghost use Rattle.wot_command.specs.StoredText.{IsShort, answer_of, merged_entry, TellsCert, TellsUnwritten};

use std::alloc::Global;
use wot_cert::laws::marks_weigh_nothing;
use wot_cert::{Cert, MergeFault};
use wot_certd::Given;
use wot_keyring::{Refusal, read_entry};
use wot_plain::{Refused, reply_to};
use wot_script::Reply;
use wot_types::{Fpr, Limit, Limits, Memory, Name};

/// Why nothing is written in place of an entry.
#[derive(Drop)]
pub enum Unwritten {
    /// The reply says why.
    Refused(Reply),
    /// Out of memory.
    Memory,
}

/// What is to be written, by what was read of the entry.
pub fn text_for(alloc: Global, fpr: &Fpr, kept: &Cert, given: Given) -> Result<Vec<u8>, Unwritten>
    requires within { FitsEntry given }
    ensures text { IfOk result (λ text. writing fpr.now kept.now (answer_of given) ≡ Ok text.items) }
    ensures reported { IfErr result (TellsUnwritten (writing fpr.now kept.now (answer_of given))) }
    ensures short { IfErr result IsShort }
{
    match given {
        Given::Bytes(octets) => union_text(alloc, fpr, kept, &octets),
        Given::Absent => cert_text(alloc, kept),
        Given::Long => Err(Unwritten::Refused(Reply::Long)),
    }
}

/// The text of a certificate.
fn cert_text(alloc: Global, cert: &Cert) -> Result<Vec<u8>, Unwritten>
    ensures text { IfOk result (λ text. text.items ≡ text_of cert.now) }
    ensures memory { IfErr result (λ why. why ≡ Unwritten.Memory) }
{
    let mut text = Vec::new(alloc);
    match cert.export(&mut text) {
        Ok(()) => Ok(text),
        Err(Memory) => Err(Unwritten::Memory),
    }
}

/// The text of the certificate merged with that of an entry with these octets.
fn union_text(alloc: Global, fpr: &Fpr, kept: &Cert, octets: &[u8]) -> Result<Vec<u8>, Unwritten>
    requires short { length octets.now < 2 ^ 29 }
    ensures text { IfOk result (λ text.
        text_unless (merged_entry kept.now (entry_in (CertName fpr.now) octets.now)) ≡ Ok text.items) }
    ensures reported { IfErr result
        (TellsUnwritten (text_unless (merged_entry kept.now (entry_in (CertName fpr.now) octets.now)))) }
    ensures short { IfErr result IsShort }
{
    match united_entry(alloc, fpr, kept, octets) {
        Ok(union) => cert_text(alloc, &union),
        Err(refusal) => match reply_to(Refused::Keyring(refusal)) {
            Ok(reply) => Err(Unwritten::Refused(reply)),
            Err(Memory) => Err(Unwritten::Memory),
        },
    }
}

/// The certificate merged with that of an entry with these octets.
fn united_entry(alloc: Global, fpr: &Fpr, kept: &Cert, octets: &[u8]) -> Result<Cert, Refusal>
    requires short { length octets.now < 2 ^ 29 }
    ensures union { TellsCert result (merged_entry kept.now (entry_in (CertName fpr.now) octets.now)) }
{
    let name = Name::Cert(*fpr);
    match read_entry(alloc, &name, octets) {
        Ok(entry) => united(alloc, kept, &entry),
        Err(refusal) => Err(refusal),
    }
}

/// Two certificates with the same primary key, merged. No signature of the result is judged.
fn united(alloc: Global, kept: &Cert, entry: &Cert) -> Result<Cert, Refusal>
    ensures union { TellsCert result (united_of kept.now entry.now) }
{
    marks_weigh_nothing();
    let Ok(mut union) = kept.duplicate(alloc) else {
        return Err(Refusal::Memory);
    };
    match union.unite(alloc, entry) {
        Ok(()) => unless_full(union),
        Err(MergeFault::Clash) => Err(Refusal::Clash),
        Err(MergeFault::Memory) => Err(Refusal::Memory),
    }
}

/// A certificate, unless it is larger than the limit.
fn unless_full(cert: Cert) -> Result<Cert, Refusal>
    ensures full { result ≡ unless_great cert }
{
    if cert.size() > Limits::standard().certificate {
        return Err(Refusal::Full(Limit::Certificate));
    }
    Ok(cert)
}
