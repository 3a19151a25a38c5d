//! Notes in the index on which certificates signatures are, and undoes it if memory runs out halfway. An import calls
//! it before it merges. It uses `index`, and visits the places that `forgetting` visits: change both together.
ghost use Rattle.std.specs.Prelude.{◌&&◌, OnOk, OnErr};
ghost use Rattle.wot_types.specs.declared.fpr.Fpr.{Fpr as TheFpr};
ghost use Rattle.wot_types.specs.declared.number.SigNumber.{SigNumber as TheNumber};
ghost use Rattle.wot_index.specs.Index.{stands_among, stands_on, Notes, NotesNothing, SaysSame, StillLogged};
ghost use Rattle.wot_keyring_spec.specs.Keyring.{is_fpr};
ghost use Rattle.wot_keyring_spec.specs.Verdict.{is_among, is_on};

use crate::index::{Index, forget_logged, note};
use std::alloc::Global;
use wot_cert::{Cert, Part, Sig};
use wot_types::{Fpr, Memory, SigNumber};

fn note_sigs(
    index: &mut Index,
    log: &mut Vec<SigNumber>,
    sigs: &[Sig],
    fpr: Fpr,
) -> Result<(), Memory>
    ensures noted { OnOk result (Notes index.old index.new
        (λ (n : TheNumber) (q : TheFpr). is_among n sigs.now && is_fpr fpr q)) }
    ensures log { StillLogged index.old log.old.items index.new log.new.items }
    ensures verdicts { SaysSame index.old.verdicts index.new.verdicts }
{
    let mut left = sigs;
    'sigs: while let Some((sig, rest)) = left.split_first() {
        note(index, log, sig.number(), fpr)?;
        left = rest;
    }
    Ok(())
}

fn note_parts(
    index: &mut Index,
    log: &mut Vec<SigNumber>,
    parts: &[Part],
    fpr: Fpr,
) -> Result<(), Memory>
    ensures noted { OnOk result (Notes index.old index.new
        (λ (n : TheNumber) (q : TheFpr). is_on n parts.now && is_fpr fpr q)) }
    ensures log { StillLogged index.old log.old.items index.new log.new.items }
    ensures verdicts { SaysSame index.old.verdicts index.new.verdicts }
{
    let mut left = parts;
    'parts: while let Some((part, rest)) = left.split_first() {
        note_sigs(index, log, part.sigs(), fpr)?;
        left = rest;
    }
    Ok(())
}

fn note_cert(index: &mut Index, log: &mut Vec<SigNumber>, cert: &Cert) -> Result<(), Memory>
    ensures noted { OnOk result (Notes index.old index.new (stands_on cert.now)) }
    ensures log { StillLogged index.old log.old.items index.new log.new.items }
    ensures verdicts { SaysSame index.old.verdicts index.new.verdicts }
{
    let fpr = cert.fpr();
    note_sigs(index, log, cert.direct(), fpr)?;
    note_parts(index, log, cert.user_ids(), fpr)?;
    note_parts(index, log, cert.attributes(), fpr)?;
    note_parts(index, log, cert.subkeys(), fpr)
}

fn note_certs(index: &mut Index, log: &mut Vec<SigNumber>, certs: &[Cert]) -> Result<(), Memory>
    ensures noted { OnOk result (Notes index.old index.new (stands_among certs.now)) }
    ensures log { StillLogged index.old log.old.items index.new log.new.items }
    ensures verdicts { SaysSame index.old.verdicts index.new.verdicts }
{
    let mut left = certs;
    'certs: while let Some((cert, rest)) = left.split_first() {
        note_cert(index, log, cert)?;
        left = rest;
    }
    Ok(())
}

/// Notes on which certificates these signatures are. On `Memory` the index is unchanged.
pub fn note_all(alloc: Global, index: &mut Index, certs: &[Cert]) -> Result<(), Memory>
    ensures noted { OnOk result (Notes index.old index.new (stands_among certs.now)) }
    ensures same { OnErr result (NotesNothing index.old index.new) }
    ensures verdicts { SaysSame index.old.verdicts index.new.verdicts }
{
    let mut log = Vec::new(alloc);
    match note_certs(index, &mut log, certs) {
        Ok(()) => Ok(()),
        Err(Memory) => {
            forget_logged(&mut index.verdicts, log);
            Err(Memory)
        }
    }
}
