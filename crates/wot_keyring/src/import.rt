//! The two ways in: `import` takes the octets of any certificates, `load` those of one directory entry. Both read with
//! wot_keyring_spec, and merge all or nothing through `Keyring::take`. What an import accepts, replies and asks of the
//! policy is on their contracts, so a change here reaches wot_cache and wot_machine.
ghost use Rattle.std.specs.Prelude.{◌≡◌, ◌<◌, ◌^◌, ◌-◌, length, OnOk, OnErr};
ghost use Rattle.wot_policy.specs.Kept.{rows_of};
ghost use Rattle.wot_keyring_spec.specs.Held.{held_of};
ghost use Rattle.wot_keyring_spec.specs.Import.{ImportAsks, ImportReturns, IsNext, ReturnsUnder};
ghost use Rattle.wot_keyring_spec.specs.Import.{imported, importing, is_entry};
ghost use Rattle.wot_keyring_spec.specs.Judging.{IsJudging, StaysJudging};

use crate::Keyring;
use std::alloc::Global;
use wot_keyring_spec::{Imported, Refusal, is_entry, read_certs};
use wot_policy::{Ask, Policy};
use wot_types::Name;

impl Keyring {
    /// Merges the certificates in these octets (RFC 9580, sections 4 and 10.1) with the kept ones: all of them, or none
    /// if anything is refused. The policy is asked once for each well-formed signature that is new.
    pub fn import<F: Fn(Ask) -> bool>(
        &mut self,
        alloc: Global,
        bytes: &[u8],
        policy: &mut Policy<F>,
    ) -> Result<Imported, Refusal>
        requires countable { self.old.changes < 2 ^ 64 - 1 }
        requires short { length bytes.now < 2 ^ 29 }
        requires judging { IsJudging F.Fn policy.old self.old }
        ensures answer { ImportReturns result (rows_of policy.old) self.old bytes.now }
        ensures imported { OnOk result (self.new ≡ imported (rows_of policy.old) self.old bytes.now) }
        ensures held { OnOk result (held_of self.new ≡ importing (rows_of policy.old) bytes.now (held_of self.old)) }
        ensures kept { OnErr result (self.new ≡ self.old) }
        ensures asked { ImportAsks result self.old bytes.now policy.old policy.new }
        ensures next { IsNext self.old self.new }
        ensures judging { StaysJudging F.Fn policy.old policy.new self.new }
    {
        let read = match read_certs(alloc, bytes) {
            Ok(read) => read,
            Err(refusal) => return Err(refusal),
        };
        self.take(alloc, read, policy)
    }

    /// Merges the one certificate of a directory entry with the kept ones. The octets are read as by `import`. Returns
    /// `Misfiled` if they hold more or less than one certificate, another key next to it, or if the entry's name is the
    /// fingerprint of another certificate.
    pub fn load<F: Fn(Ask) -> bool>(
        &mut self,
        alloc: Global,
        name: &Name,
        bytes: &[u8],
        policy: &mut Policy<F>,
    ) -> Result<Imported, Refusal>
        requires countable { self.old.changes < 2 ^ 64 - 1 }
        requires short { length bytes.now < 2 ^ 29 }
        requires judging { IsJudging F.Fn policy.old self.old }
        ensures answer { ReturnsUnder (is_entry name.now) result (rows_of policy.old) self.old bytes.now }
        ensures imported { OnOk result (self.new ≡ imported (rows_of policy.old) self.old bytes.now) }
        ensures held { OnOk result (held_of self.new ≡ importing (rows_of policy.old) bytes.now (held_of self.old)) }
        ensures kept { OnErr result (self.new ≡ self.old) }
        ensures asked { ImportAsks result self.old bytes.now policy.old policy.new }
        ensures next { IsNext self.old self.new }
        ensures judging { StaysJudging F.Fn policy.old policy.new self.new }
    {
        let found = match read_certs(alloc, bytes) {
            Ok(found) => found,
            Err(refusal) => return Err(refusal),
        };
        if !is_entry(name, &found) {
            return Err(Refusal::Misfiled);
        }
        self.take(alloc, found, policy)
    }
}
