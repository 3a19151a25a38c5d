//! The text of a certificate, appended packet by packet.
//!
//! It uses `write_packet` and `specs/Text.antt`. `export` replies, dumps and directory entries are written
//! here.
ghost use Rattle.std.specs.Prelude.{◌≡◌, ◌≤◌, ◌++◌, OnOk, OnErr};
ghost use Rattle.std.specs.List.{AllByRecursion};
ghost use Rattle.wot_component.specs.Fitting.{SigFits, PartFits};
ghost use Rattle.wot_cert.specs.ReadBack.{ReadBack};
ghost use Rattle.wot_component.specs.Text.{Appends, components_text, sigs_text, part_text, parts_text, text_of};

use crate::laws::read_back;
use crate::{Cert, Part, Sig};
use wot_packet::write_packet;
use wot_types::Memory;

/// Appends the signatures, or only some of them if memory runs out.
fn append_sigs(sigs: &[Sig], out: &mut Vec<u8>) -> Result<(), Memory>
    requires { AllByRecursion SigFits sigs.now }
    ensures { Appends result out.old.items out.new.items (sigs_text sigs.now) }
{
    let mut rest = sigs;
    'rest: while let Some((sig, others)) = rest.split_first() {
        write_packet(2, sig.body(), out)?;
        rest = others;
    }
    Ok(())
}

/// Appends a component and its signatures, or only some of it if memory runs out.
fn append_part(kind: u8, part: &Part, out: &mut Vec<u8>) -> Result<(), Memory>
    requires kind { kind ≤ 63 }
    requires fits { PartFits part.now }
    ensures { Appends result out.old.items out.new.items (part_text kind part.now) }
{
    write_packet(kind, part.body(), out)?;
    append_sigs(part.sigs(), out)
}

/// Appends components of one kind, or only some of them if memory runs out.
fn append_parts(kind: u8, parts: &[Part], out: &mut Vec<u8>) -> Result<(), Memory>
    requires kind { kind ≤ 63 }
    requires fit { AllByRecursion PartFits parts.now }
    ensures { Appends result out.old.items out.new.items (parts_text kind parts.now) }
{
    let mut rest = parts;
    'rest: while let Some((part, others)) = rest.split_first() {
        append_part(kind, part, out)?;
        rest = others;
    }
    Ok(())
}

/// Appends all components of a certificate, or only some of them if memory runs out.
fn append_components(cert: &Cert, out: &mut Vec<u8>) -> Result<(), Memory>
    ensures { Appends result out.old.items out.new.items (components_text cert.now) }
{
    append_parts(13, cert.user_ids(), out)?;
    append_parts(17, cert.attributes(), out)?;
    append_parts(14, cert.subkeys(), out)
}

/// Appends the text of a certificate, or only some of it if memory runs out.
fn append_cert(cert: &Cert, out: &mut Vec<u8>) -> Result<(), Memory>
    ensures { Appends result out.old.items out.new.items (text_of cert.now) }
{
    write_packet(6, cert.body(), out)?;
    append_sigs(cert.direct(), out)?;
    append_components(cert, out)
}

/// A law: the text of this certificate is read back as it.
fn reads_back(cert: &Cert)
    ensures { ReadBack cert.now }
{
    let _ = cert.body();
    read_back();
}

impl Cert {
    /// Appends its text: the key and its signatures, then the user IDs, the attributes and the subkeys, each followed
    /// by its signatures, every packet in its shortest spelling (RFC 9580, section 10.1). After `Memory`, `out` is
    /// unchanged.
    pub fn export(&self, out: &mut Vec<u8>) -> Result<(), Memory>
        ensures text { OnOk result (out.new.items ≡ out.old.items ++ text_of self.now) }
        ensures kept { OnErr result (out.new.items ≡ out.old.items) }
        // The text is read back as exactly this certificate.
        ensures read_back { ReadBack self.now }
    {
        reads_back(self);
        let before = out.len();
        match append_cert(self, out) {
            Ok(()) => Ok(()),
            Err(memory) => {
                out.truncate(before);
                Err(memory)
            }
        }
    }
}
