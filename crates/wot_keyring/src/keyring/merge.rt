//! Merges certificates that were read with the kept ones: all, or none if two clash or a limit would be exceeded. It
//! gathers, tries and merges with wot_merge, and keeps totals, index and log in step. A new certificate that came alone
//! is kept as it was read, without a copy. `import` and `load` call `take`, whose contract theirs use.
ghost use Rattle.std.specs.Prelude.{◌≡◌, ◌<◌, ◌^◌, ◌+◌, ◌-◌, nat_lt, if◌then◌else◌, Some};
ghost use Rattle.std.specs.Prelude.{true, Ok, OnOk, OnErr};
ghost use Rattle.std.specs.List.{AllByRecursion};
ghost use Rattle.wot_component.specs.Whole.{IsCertificate};
ghost use Rattle.wot_keyring_spec.specs.Keyring.{certificates_in};
ghost use Rattle.wot_keyring_spec.specs.Kept.{IsKeyring};
ghost use Rattle.wot_policy.specs.Kept.{rows_of};
ghost use Rattle.wot_keyring_spec.specs.Import.{Asked, IsNext, with_united};
ghost use Rattle.wot_keyring_spec.specs.Judging.{IsJudging, StaysJudging};
ghost use Rattle.wot_keyring_spec.specs.Importing.{asked_for, AnswersUnited, MayUnite, TellsUnion};
ghost use Rattle.wot_merge.specs.Staging.{IsTally};
ghost use Rattle.wot_keyring.specs.Merging.{refused, AnswersCounting};

use crate::Keyring;
use crate::uniting::unite_all;
use std::alloc::Global;
use wot_cert::laws::{marks_weigh_nothing, nothing_added, united_grows, united_whole};
use wot_cert::{Assembled, Cert};
use wot_index::log;
use wot_keyring_spec::{Imported, Refusal};
use wot_merge::{Fault, Terms, Weight, gathered, has_room, only, try_all};
use wot_policy::{Ask, Policy};
use wot_types::Memory;

impl Keyring {
    /// Merges certificates that were read with the kept ones. Those of one key are first merged with each other, so
    /// that a kept certificate is copied at most once, however often its key was read.
    pub(crate) fn take<F: Fn(Ask) -> bool>(
        &mut self,
        alloc: Global,
        read: Assembled,
        policy: &mut Policy<F>,
    ) -> Result<Imported, Refusal>
        requires countable { self.old.changes < 2 ^ 64 - 1 }
        requires judging { IsJudging F.Fn policy.old self.old }
        ensures answer { AnswersUnited result (rows_of policy.old) self.old read.certs read.skipped }
        ensures united { OnOk result (self.new ≡ with_united (rows_of policy.old) self.old read.certs) }
        ensures kept { OnErr result (self.new ≡ self.old) }
        ensures asked { Asked result (asked_for (rows_of policy.old) self.old read.certs) policy.old policy.new }
        ensures next { IsNext self.old self.new }
        ensures judging { StaysJudging F.Fn policy.old policy.new self.new }
    {
        self.lawful();
        let Assembled { certs, skipped } = read;
        let certs = certs.into_vec();
        let taken = certs.len();
        let list = match gathered(alloc, certs) {
            Ok(list) => list,
            Err(fault) => return Err(refused(fault)),
        };
        if let Some(refusal) = self.refusal(alloc, list.as_slice()) {
            return Err(refusal);
        }
        self.accept(alloc, list, taken as u64, skipped, policy)
    }

    /// Whether these certificates fit even if everything in them is new. Only answered for a single certificate.
    fn has_room_for(&self, list: &[Cert]) -> bool
        ensures { result ≡ true → MayUnite self.now.limits (certificates_in self.now) list.now }
    {
        united_grows();
        marks_weigh_nothing();
        match only(list) {
            Some(cert) => has_room(&self.certs, &self.total(), cert, &self.limits),
            None => false,
        }
    }

    /// Why these certificates can't be merged with the kept ones. Nothing changes, and no policy of the caller is
    /// asked.
    fn refusal(&mut self, alloc: Global, list: &[Cert]) -> Option<Refusal>
        requires countable { self.old.changes < 2 ^ 64 - 1 }
        ensures reported { TellsUnion result self.old.limits (certificates_in self.old) list.now }
        ensures same { self.new ≡ self.old }
    {
        if self.has_room_for(list) {
            return None;
        }
        let terms = self.terms();
        match try_all(alloc, &mut self.certs, list, &terms, &self.limits) {
            Ok(Some(limit)) => Some(Refusal::Full(limit)),
            Ok(None) => None,
            Err(Fault::Clash) => Some(Refusal::Clash),
            Err(Fault::Memory) => Some(Refusal::Memory),
        }
    }

    /// Merges certificates that clash with nothing and exceed no limit. The counts say that this many were read.
    fn accept<F: Fn(Ask) -> bool>(
        &mut self,
        alloc: Global,
        list: Vec<Cert>,
        taken: u64,
        skipped: u64,
        policy: &mut Policy<F>,
    ) -> Result<Imported, Refusal>
        requires countable { self.old.changes < 2 ^ 64 - 1 }
        requires judging { IsJudging F.Fn policy.old self.old }
        requires whole { AllByRecursion IsCertificate list.items }
        requires may { MayUnite self.old.limits (certificates_in self.old) list.items }
        ensures answer { AnswersCounting taken result (rows_of policy.old) self.old list.items skipped }
        ensures united { OnOk result (self.new ≡ with_united (rows_of policy.old) self.old list.items) }
        ensures kept { OnErr result (self.new ≡ self.old) }
        ensures asked { Asked result (asked_for (rows_of policy.old) self.old list.items) policy.old policy.new }
        ensures next { IsNext self.old self.new }
        ensures judging { StaysJudging F.Fn policy.old policy.new self.new }
    {
        united_grows();
        united_whole();
        nothing_added();
        let terms = self.terms();
        log::make_room(&mut self.log, list.len(), self.certs.len());
        match unite_all(
            alloc,
            &mut self.certs,
            &mut self.index,
            &mut self.log,
            list,
            &terms,
            policy,
        ) {
            Ok(tally) => {
                self.octets = tally.total.octets;
                self.signatures = tally.total.signatures;
                self.changes = raised(self.changes, tally.fresh);
                Ok(Imported {
                    taken,
                    skipped,
                    fresh: tally.fresh,
                })
            }
            // Nothing clashes, so memory ran out.
            Err(_) => Err(Refusal::Memory),
        }
    }

    /// The stamp of the next change, the limit on a certificate's size, and the totals of what is held.
    fn terms(&self) -> Terms
        requires countable { self.now.changes < 2 ^ 64 - 1 }
        ensures stamp { result.stamp ≡ self.now.changes + 1 }
        ensures limit { result.limit ≡ self.now.limits.certificate }
        ensures total { IsTally self.now.limits.certificate self.now.certs result.total }
        ensures keyring { IsKeyring self.now }
    {
        Terms {
            stamp: self.changes + 1,
            limit: self.limits.certificate,
            total: self.total(),
        }
    }

    /// A law: what holds for every keyring.
    fn lawful(&self)
        ensures keyring { IsKeyring self.now }
    {
        let _ = &self.limits;
    }

    /// The totals of what is held.
    fn total(&self) -> Weight
        ensures total { IsTally self.now.limits.certificate self.now.certs result }
        ensures keyring { IsKeyring self.now }
        ensures none_long { result.long ≡ 0 }
    {
        Weight {
            octets: self.octets,
            signatures: self.signatures,
            long: 0,
        }
    }
}

/// The refusal for a fault.
fn refused(fault: Fault) -> Refusal
    ensures refused { result ≡ refused fault }
{
    match fault {
        Fault::Clash => Refusal::Clash,
        Fault::Memory => Refusal::Memory,
    }
}

/// The count of changes after a change that added this many items.
fn raised(changes: u64, fresh: u64) -> u64
    requires countable { changes < 2 ^ 64 - 1 }
    ensures raised { result ≡ (if nat_lt 0 fresh then changes + 1 else changes) }
{
    if fresh > 0 { changes + 1 } else { changes }
}
