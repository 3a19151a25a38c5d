//! The dump: the lines that rebuild a keyring, an import for each certificate and a line for each verdict. wot_fields
//! spells them, and reads each back. `replayed` is the law that these lines restore the keyring; wot_cache adds the
//! lines of the views. A change of what is held has to be added here.
ghost use Rattle.std.specs.Prelude.{◌≡◌, ◌≤◌, ◌++◌, map, OnOk, OnErr};
ghost use Rattle.std.specs.List.{AllByRecursion};
ghost use Rattle.wot_types.specs.Limits.{standard_limits};
ghost use Rattle.wot_policy.specs.declared.rows.PolicyRows.{PolicyRows as Rows};
ghost use Rattle.wot_fields.specs.StateLine.{most_octets};
ghost use Rattle.wot_verdict.specs.Verdicts.{AreSortedByNumber};
ghost use Rattle.wot_component.specs.Certificate.{Certificate};
ghost use Rattle.wot_component.specs.Text.{size_of};
ghost use Rattle.wot_keyring.specs.Dump.{AreLines, IsLine, IsRestored, command_line_of, lines_of, setting, setting_of};
ghost use Rattle.wot_keyring.specs.Dump.{text_import};
ghost use Rattle.wot_keyring_spec.specs.Keyring.{Keyring as Seen};
ghost use Rattle.wot_keyring_spec.specs.Kept.{IsKeyring};

use std::alloc::Global;
use wot_cert::Cert;
use wot_cert::laws::{judging, marks_weigh_nothing, read_back};
use wot_fields::{Octets, StateLine, print_state_line};
use wot_keyring_spec::CertsIter;
use wot_types::{Memory, SigNumber};
use wot_verdict::{Verdict, Verdicts};

/// A law: the lines of a dump restore what was dumped when a fresh keyring runs them.
pub fn replayed()
    ensures { (rows : Rows) (k : Seen) → IsKeyring k → AreSortedByNumber k.verdicts → IsRestored rows k }
{
    read_back();
    marks_weigh_nothing();
    judging();
}

/// Appends a line, with its line feed. Like all functions in this file it leaves `out` unchanged on
/// `Memory`.
#[tactic(auto, using(crate::proofs::Lines::is_line))]
pub fn put_line(line: &StateLine, out: &mut Vec<u8>) -> Result<(), Memory>
    requires short { most_octets line.now ≤ 16777216 }
    ensures appended { OnOk result (out.new.items ≡ out.old.items ++ command_line_of line.now) }
    ensures line { OnOk result (IsLine line.now) }
    ensures kept { OnErr result (out.new.items ≡ out.old.items) }
{
    let start = out.len();
    print_state_line(line, out)?;
    match out.push(b'\n') {
        Ok(()) => Ok(()),
        Err(_) => {
            out.truncate(start);
            Err(Memory)
        }
    }
}

/// Appends the line that imports a certificate.
fn put_cert(alloc: Global, cert: &Cert, out: &mut Vec<u8>) -> Result<(), Memory>
    requires { size_of cert.now ≤ standard_limits.certificate }
    ensures appended { OnOk result (out.new.items ≡ out.old.items ++ command_line_of (text_import cert.now)) }
    ensures line { OnOk result (IsLine (text_import cert.now)) }
    ensures kept { OnErr result (out.new.items ≡ out.old.items) }
{
    let mut text = Vec::new(alloc);
    cert.export(&mut text)?;
    put_line(&StateLine::Import(Octets::from_vec(text)), out)
}

/// Appends a line for each certificate that imports it.
pub fn put_certs(alloc: Global, certs: CertsIter<'_>, out: &mut Vec<u8>) -> Result<(), Memory>
    requires { AllByRecursion (λ (c : Certificate). size_of c ≤ standard_limits.certificate) certs }
    ensures appended { OnOk result (out.new.items ≡ out.old.items ++ lines_of (map text_import certs.entry)) }
    ensures lines { OnOk result (AreLines (map text_import certs.entry)) }
    ensures kept { OnErr result (out.new.items ≡ out.old.items) }
{
    let start = out.len();
    'certs: for cert in certs {
        if let Err(fault) = put_cert(alloc, cert, out) {
            out.truncate(start);
            return Err(fault);
        }
    }
    Ok(())
}

/// Appends the line that sets a verdict.
fn put_verdict(number: SigNumber, verdict: Verdict, out: &mut Vec<u8>) -> Result<(), Memory>
    ensures appended { OnOk result (out.new.items ≡ out.old.items ++ command_line_of (setting number verdict)) }
    ensures line { OnOk result (IsLine (setting number verdict)) }
    ensures kept { OnErr result (out.new.items ≡ out.old.items) }
{
    match verdict {
        Verdict::Good(fpr) => put_line(&StateLine::Good(number, fpr), out),
        Verdict::Bad => put_line(&StateLine::Bad(number), out),
    }
}

/// Appends a line for each verdict that sets it.
pub fn put_verdicts(verdicts: &Verdicts, out: &mut Vec<u8>) -> Result<(), Memory>
    ensures appended { OnOk result (out.new.items ≡ out.old.items ++ lines_of (map setting_of verdicts.now.entries)) }
    ensures lines { OnOk result (AreLines (map setting_of verdicts.now.entries)) }
    ensures sorted { AreSortedByNumber verdicts.now.entries }
    ensures kept { OnErr result (out.new.items ≡ out.old.items) }
{
    let start = out.len();
    'verdicts: for (number, verdict) in verdicts.iter() {
        if let Err(fault) = put_verdict(number, verdict, out) {
            out.truncate(start);
            return Err(fault);
        }
    }
    Ok(())
}
