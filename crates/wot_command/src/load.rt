//! The reply to `load NAME`: an entry of the certificate directory is read and merged with what is held. It uses
//! wot_certd for the entry and `Keyring::load` for the rest.
ghost use Rattle.std.specs.Prelude.{◌≡◌, ◌≤◌, ◌<◌, ◌^◌, length, true, IfOk, OnErr};
ghost use Rattle.wot_policy.specs.Kept.{rows_of};
ghost use Rattle.wot_script.specs.Replies.{is_short};
ghost use Rattle.wot_cache.specs.State.{state_of};
ghost use Rattle.wot_command.specs.Asked.{AsksForNew};
ghost use Rattle.wot_command.specs.Lasting.{CanChange, ChangesHeld, IsJudging, StaysJudging};
ghost use Rattle.wot_plain.specs.Both.{ends};
ghost use Rattle.wot_plain.specs.Entry.{MayPutTo, loads};
ghost use Rattle.wot_plain.specs.LineStep.{Loads};
ghost use Rattle.wot_command.specs.CommandRun.{LoadsBy, seen};

use wot_cache::Engine;
use wot_certd::{Given, Shelf};
use wot_plain::{Missing, Refused, reply_to, reply_to_missing};
use wot_policy::{Ask, Policy};
use wot_script::Reply;
use wot_types::{Memory, Name};

/// The reply to `load`: reads an entry of the certificate directory, and merges its one certificate with what is held.
/// Refused if the directory fails, if the entry is absent or has more than 8,388,608 octets, or if `import` would
/// refuse its octets or they aren't exactly the certificate of the entry's name. After `Memory` the engine is
/// unchanged.
pub fn load<D: Shelf, F: Fn(Ask) -> bool>(
    engine: &mut Engine,
    name: &Name,
    shelf: &mut D,
    policy: &mut Policy<F>,
) -> Result<Reply, Memory>
    requires ready { CanChange engine.old }
    requires judging { IsJudging F.Fn policy.old engine.old.keyring }
    ensures did { IfOk result (LoadsBy (rows_of policy.old) name.now
        (ends state_of engine) (ends (seen D.world D.faults) shelf)) }
    ensures entries { OnErr result (MayPutTo (state_of engine.old) (loads name.now) (ends D.world shelf)) }
    ensures later { D.faults shelf.old ≤ D.faults shelf.new }
    ensures short { IfOk result (λ reply. is_short reply ≡ true) }
    ensures kept { OnErr result (engine.new ≡ engine.old) }
    ensures held { ChangesHeld engine.old engine.new }
    ensures asked { AsksForNew result (state_of engine.old) (state_of engine.new) policy.old policy.new }
    ensures judging { StaysJudging F.Fn policy.old policy.new engine.new.keyring }
{
    match shelf.read(name) {
        Ok(Given::Bytes(octets)) => enter(engine, name, &octets, policy),
        Ok(Given::Absent) => Ok(reply_to_missing(Missing::Named)),
        Ok(Given::Long) => Ok(Reply::Long),
        Err(fault) => reply_to(Refused::from(fault)),
    }
}

/// Merges the one certificate of an entry's octets with what is held.
fn enter<F: Fn(Ask) -> bool>(
    engine: &mut Engine,
    name: &Name,
    octets: &[u8],
    policy: &mut Policy<F>,
) -> Result<Reply, Memory>
    requires ready { CanChange engine.old }
    requires small { length octets.now < 2 ^ 29 }
    requires judging { IsJudging F.Fn policy.old engine.old.keyring }
    ensures gives { IfOk result (Loads (rows_of policy.old) (ends state_of engine) name.now octets.now) }
    ensures short { IfOk result (λ reply. is_short reply ≡ true) }
    ensures kept { OnErr result (engine.new ≡ engine.old) }
    ensures held { ChangesHeld engine.old engine.new }
    ensures asked { AsksForNew result (state_of engine.old) (state_of engine.new) policy.old policy.new }
    ensures judging { StaysJudging F.Fn policy.old policy.new engine.new.keyring }
{
    match engine.load(name, octets, policy) {
        Ok(counts) => Ok(Reply::Taken(counts.taken, counts.skipped, counts.fresh)),
        Err(refusal) => reply_to(Refused::Keyring(refusal)),
    }
}
