//! The reply to `store FPR`: a kept certificate is merged with its entry of the certificate directory, and written
//! back. The keyring doesn't change. It uses wot_certd, and `stored` for what is written.
ghost use Rattle.std.specs.Prelude.{◌≡◌, ◌≤◌, None, Some, true, IfOk, OnErr};
ghost use Rattle.wot_policy.specs.declared.rows.PolicyRows.{PolicyRows};
ghost use Rattle.wot_keyring_spec.specs.Held.{cert_in};
ghost use Rattle.wot_script.specs.Replies.{is_short};
ghost use Rattle.wot_cache.specs.State.{State, state_of};
ghost use Rattle.wot_plain.specs.Both.{ends};
ghost use Rattle.wot_plain.specs.Entry.{MayPutTo, MayReplace, stores};
ghost use Rattle.wot_command.specs.CommandRun.{StoresBy, across, seen};
ghost use Rattle.wot_command.specs.Stored.{Puts, Stores};

use crate::listing::cert_of;
use crate::stored::{Unwritten, text_for};
use std::alloc::Global;
use wot_cache::Engine;
use wot_cert::Cert;
use wot_certd::Shelf;
use wot_plain::{Missing, Refused, reply_to, reply_to_missing};
use wot_script::Reply;
use wot_types::{Fpr, Memory, Name};

/// The reply to `store`: writes a certificate, merged with its entry of the certificate directory, in place of the
/// entry, or replies that it is absent. What is held doesn't change, and the policy isn't asked. After `Memory` the
/// entry may have been written.
pub fn store<D: Shelf>(
    alloc: Global,
    engine: &Engine,
    fpr: &Fpr,
    shelf: &mut D,
) -> Result<Reply, Memory>
    ensures did { (rows : PolicyRows) → IfOk result (StoresBy rows fpr.now (state_of engine.now)
        (ends (seen D.world D.faults) shelf)) }
    ensures untouched { cert_in (state_of engine.now).held fpr.now ≡ None → shelf.new ≡ shelf.old }
    ensures entries { OnErr result (MayPutTo (state_of engine.now) (stores fpr.now) (ends D.world shelf)) }
    ensures later { D.faults shelf.old ≤ D.faults shelf.new }
    ensures short { IfOk result (λ reply. is_short reply ≡ true) }
{
    match cert_of(engine, fpr) {
        Some(kept) => store_kept(alloc, fpr, kept, shelf),
        None => Ok(reply_to_missing(Missing::Named)),
    }
}

/// Merges and writes a certificate that was found.
fn store_kept<D: Shelf>(
    alloc: Global,
    fpr: &Fpr,
    kept: &Cert,
    shelf: &mut D,
) -> Result<Reply, Memory>
    ensures stores { IfOk result (across (Stores fpr.now kept.now) (ends (seen D.world D.faults) shelf)) }
    ensures entries { (s : State) → cert_in s.held fpr.now ≡ Some kept.now →
        OnErr result (MayPutTo s (stores fpr.now) (ends D.world shelf)) }
    ensures later { D.faults shelf.old ≤ D.faults shelf.new }
    ensures short { IfOk result (λ reply. is_short reply ≡ true) }
{
    let name = Name::Cert(*fpr);
    match shelf.read(&name) {
        Ok(given) => match text_for(alloc, fpr, kept, given) {
            Ok(text) => put(&name, &text, shelf),
            Err(Unwritten::Refused(reply)) => Ok(reply),
            Err(Unwritten::Memory) => Err(Memory),
        },
        Err(fault) => reply_to(Refused::from(fault)),
    }
}

/// Writes octets under a name.
fn put<D: Shelf>(name: &Name, octets: &[u8], shelf: &mut D) -> Result<Reply, Memory>
    ensures puts { IfOk result (across (Puts name.now octets.now) (ends (seen D.world D.faults) shelf)) }
    ensures entries { OnErr result (MayReplace name.now octets.now (D.world shelf.old) (D.world shelf.new)) }
    ensures later { D.faults shelf.old ≤ D.faults shelf.new }
    ensures short { IfOk result (λ reply. is_short reply ≡ true) }
{
    match shelf.replace(name, octets) {
        Ok(()) => Ok(Reply::Stored(octets.len() as u64)),
        Err(fault) => reply_to(Refused::from(fault)),
    }
}
