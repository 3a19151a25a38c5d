//! Replies with one line for each certificate or command: `keys`, `export` and `dump`. It uses the iterators of
//! wot_keyring and `Engine::dump`.
ghost use Rattle.std.specs.Prelude.{◌≡◌, ◌≤◌, map, IfOk, OnOk};
ghost use Rattle.std.specs.List.{AllByRecursion};
ghost use Rattle.std.specs.Option.{option_copied};
ghost use Rattle.wot_types.specs.Limits.{standard_limits};
ghost use Rattle.wot_policy.specs.declared.rows.PolicyRows.{PolicyRows};
ghost use Rattle.wot_component.specs.Certificate.{Certificate};
ghost use Rattle.wot_component.specs.Text.{size_of};
ghost use Rattle.wot_keyring_spec.specs.Held.{held_of, cert_in};
ghost use Rattle.wot_cache.specs.State.{state_of};
ghost use Rattle.wot_plain.specs.Classes.{reading};
ghost use Rattle.wot_plain.specs.Outcome.{key_line_of};
ghost use Rattle.wot_plain.specs.declared.class.Read.TheVariants as reads;
ghost use Rattle.wot_plain.specs.Fresh.{IsMadeAnew};

use crate::fresh::dump_makes_the_state_anew;
use std::alloc::Global;
use wot_cache::Engine;
use wot_cert::Cert;
use wot_keyring::CertsIter;
use wot_plain::{Missing, reply_to_missing};
use wot_script::{KeyLine, KeyLines, Octets, Reply};
use wot_types::{Fpr, Memory};

/// A line for each of these certificates.
fn key_lines(alloc: Global, certs: CertsIter<'_>) -> Result<KeyLines, Memory>
    requires { AllByRecursion (λ (c : Certificate). size_of c ≤ standard_limits.certificate) certs }
    ensures lines { IfOk result (λ lines. lines ≡ map key_line_of certs.entry) }
{
    let mut lines = KeyLines::new(alloc);
    'certs: for cert in certs {
        lines.push(KeyLine(cert.fpr(), cert.user_ids().len() as u64, cert.signatures()))?;
    }
    Ok(lines)
}

/// The reply to `keys`: a line for each certificate.
pub fn keys(alloc: Global, engine: &Engine) -> Result<Reply, Memory>
    ensures keys { IfOk result (λ reply. reply ≡ reading (state_of engine.now) reads.Keys) }
{
    let lines = key_lines(alloc, engine.keyring().certs())?;
    Ok(Reply::Keys(lines.items().len() as u64, lines))
}

/// The certificate with this fingerprint.
pub fn cert_of<'a>(engine: &'a Engine, fpr: &Fpr) -> Option<&'a Cert>
    ensures found { option_copied result ≡ cert_in (held_of engine.now.keyring) fpr.now }
{
    engine.keyring().get(fpr)
}

/// The reply to `export`: the octets of a certificate (RFC 9580, section 10.1), or that it is absent.
pub fn export(alloc: Global, engine: &Engine, fpr: &Fpr) -> Result<Reply, Memory>
    ensures export { IfOk result (λ reply. reply ≡ reading (state_of engine.now) (reads.Export fpr.now)) }
{
    let Some(cert) = cert_of(engine, fpr) else {
        return Ok(reply_to_missing(Missing::Named));
    };
    let mut text = Vec::new(alloc);
    cert.export(&mut text)?;
    Ok(Reply::Export(Octets::from_vec(text)))
}

/// The reply to `dump`: the commands that restore the state.
pub fn dump(alloc: Global, engine: &Engine) -> Result<Reply, Memory>
    requires standard { engine.now.keyring.limits ≡ standard_limits }
    ensures dump { IfOk result (λ reply. reply ≡ reading (state_of engine.now) reads.Dump) }
    ensures anew { OnOk result ((rows : PolicyRows) → IsMadeAnew rows (state_of engine.now)) }
{
    dump_makes_the_state_anew();
    let mut text = Vec::new(alloc);
    let count = engine.dump(&mut text)?;
    Ok(Reply::Dump(count, Octets::from_vec(text)))
}
