//! Merges an entry of a certificate directory with what the engine's keyring holds.
ghost use Rattle.std.specs.Prelude.{◌≡◌, ◌<◌, ◌-◌, ◌^◌, length, OnOk, OnErr};
ghost use Rattle.wot_policy.specs.Kept.{rows_of};
ghost use Rattle.wot_keyring_spec.specs.Import.{ImportAsks, ReturnsUnder, is_entry};
ghost use Rattle.wot_keyring_spec.specs.Judging.{IsJudging, StaysJudging};
ghost use Rattle.wot_cache.specs.Changes.{ChangesKeyring, IsImported};

use crate::Engine;
use crate::laws::kept_fits_later;
use wot_keyring::{Imported, Refusal};
use wot_policy::{Ask, Policy};
use wot_types::Name;

impl Engine {
    /// `Keyring::load` on the engine's keyring.
    pub fn load<F: Fn(Ask) -> bool>(
        &mut self,
        name: &Name,
        bytes: &[u8],
        policy: &mut Policy<F>,
    ) -> Result<Imported, Refusal>
        requires countable { self.old.keyring.changes < 2 ^ 64 - 1 }
        requires short { length bytes.now < 2 ^ 29 }
        requires judging { IsJudging F.Fn policy.old self.old.keyring }
        ensures answer { ReturnsUnder (is_entry name.now) result (rows_of policy.old) self.old.keyring bytes.now }
        ensures imported { OnOk result (IsImported (rows_of policy.old) bytes.now self.old self.new) }
        ensures kept { OnErr result (self.new ≡ self.old) }
        ensures asked { ImportAsks result self.old.keyring bytes.now policy.old policy.new }
        ensures judging { StaysJudging F.Fn policy.old policy.new self.new.keyring }
        ensures changes { ChangesKeyring self.old self.new }
    {
        kept_fits_later();
        self.networked.keyring.load(self.alloc, name, bytes, policy)
    }
}
