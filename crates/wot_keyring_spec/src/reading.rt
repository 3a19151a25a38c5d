//! From octets to certificates: the packets are read and assembled, and a directory entry has to be the one certificate
//! that its name demands. It uses wot_packet and wot_cert. `import`, `load` and the shelf of wot_machine read with
//! it, so a further refusal here is a further reply.
ghost use Rattle.std.specs.Prelude.{◌≡◌, ◌<◌, ◌^◌, length};
ghost use Rattle.wot_keyring_spec.specs.Import.{is_entry, stands_under};
ghost use Rattle.wot_keyring_spec.specs.Entry.{TellsEntry, TellsParts};
ghost use Rattle.wot_keyring_spec.specs.Importing.{TellsRead};

use crate::refusal::Refusal;
use std::alloc::Global;
use std::cmp::Ordering;
use wot_cert::laws::assembled;
use wot_cert::{Assembled, Cert, CertFault, assemble};
use wot_packet::{ReadFault, read_packets};
use wot_types::{Name, compare_fprs};

/// The certificates in these octets, not yet marked by a policy, or the reason why there are none.
pub fn read_certs(alloc: Global, bytes: &[u8]) -> Result<Assembled, Refusal>
    requires short { length bytes.now < 2 ^ 29 }
    ensures read { TellsRead result bytes.now }
    ensures parts { TellsParts result bytes.now }
{
    assembled();
    let packets = match read_packets(alloc, bytes) {
        Ok(packets) => packets,
        Err(ReadFault::Packet(fault)) => return Err(Refusal::Packet(fault)),
        Err(ReadFault::Memory) => return Err(Refusal::Memory),
    };
    match assemble(alloc, &packets) {
        Ok(found) => Ok(found),
        Err(CertFault::Memory) => Err(Refusal::Memory),
        Err(fault) => Err(Refusal::Cert(fault)),
    }
}

/// Whether a directory entry of this name may hold the certificate.
fn stands_under(name: &Name, cert: &Cert) -> bool
    ensures { result ≡ stands_under name.now cert.now }
{
    match name {
        Name::Cert(fpr) => compare_fprs(fpr, &cert.fpr()) == Ordering::Equal,
        Name::TrustRoot => true,
    }
}

/// Whether the octets held exactly one certificate, the one that the name demands.
pub fn is_entry(name: &Name, read: &Assembled) -> bool
    ensures { result ≡ is_entry name.now read.now.certs read.now.skipped }
{
    match read.certs.as_slice() {
        [cert] => read.skipped == 0 && stands_under(name, cert),
        _ => false,
    }
}

/// The one certificate of a directory entry, not yet marked by a policy. Returns `Misfiled` if the octets hold more or
/// less than one certificate, another key next to it, or if the name is the fingerprint of another certificate.
pub fn read_entry(alloc: Global, name: &Name, octets: &[u8]) -> Result<Cert, Refusal>
    requires short { length octets.now < 2 ^ 29 }
    ensures entry { TellsEntry result name.now octets.now }
{
    let found = match read_certs(alloc, octets) {
        Ok(found) => found,
        Err(refusal) => return Err(refusal),
    };
    if !is_entry(name, &found) {
        return Err(Refusal::Misfiled);
    }
    let mut certs = found.certs.into_vec();
    match certs.pop() {
        Some(cert) => Ok(cert),
        None => Err(Refusal::Misfiled),
    }
}
