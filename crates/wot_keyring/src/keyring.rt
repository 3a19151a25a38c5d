//! The keyring itself: its fields, its model, and its public calls except `import` and `load`, which are in `import`.
//! Each change raises the count of changes by one, stamps what it altered and logs that, so that the network above
//! makes only these edges again. The calls here are the contract of the crate: wot_network, wot_cache and wot_machine
//! use them.
ghost use Rattle.std.specs.Prelude.{◌≡◌, ◌≢◌, ◌<◌, ◌≤◌, ◌^◌, ◌+◌, ◌-◌, ◌++◌, map, Some};
ghost use Rattle.std.specs.Prelude.{Ok, is_ok, is_some, IsSomeAnd, length, IfOk, MatchBool, OnOk, OnErr};
ghost use Rattle.std.specs.Option.{option_copied, IfSome, MatchOption};
ghost use Rattle.wot_types.specs.declared.fpr.Fpr.{Fpr as TheFpr};
ghost use Rattle.wot_key.specs.Key.{fpr_of};
ghost use Rattle.wot_types.specs.Limits.{standard_limits};
ghost use Rattle.wot_component.specs.Text.{size_of, text_of};
ghost use Rattle.wot_keyring_spec.specs.declared.kept.Kept.{Kept as TheKept};
ghost use Rattle.wot_keyring_spec.specs.From.{entries_from};
ghost use Rattle.wot_keyring_spec.specs.Keyring.{empty, cert_at, stamp_at, verdict_on, TellsAbsent};
ghost use Rattle.wot_keyring_spec.specs.Kept.{AreSortedByFpr, AreNamed, AreSized, AreSmall, AreStamped, IsKeyring};
ghost use Rattle.wot_keyring_spec.specs.Kept.{StaysJudged};
ghost use Rattle.wot_policy.specs.declared.rows.PolicyRows.{PolicyRows as Rows};
ghost use Rattle.wot_keyring.specs.Dump.{commands_of, lines_of, most_dumped, AreLines, IsRestored};
ghost use Rattle.wot_keyring_spec.specs.Import.{IsOneChange};
ghost use Rattle.wot_keyring_spec.specs.Held.{held_of, removing, verdict_set, verdict_cleared};
ghost use Rattle.wot_keyring_spec.specs.Later.{IsLater};
ghost use Rattle.wot_index.specs.Log.{HasChangedSince};
ghost use Rattle.wot_keyring_spec.specs.Pending.{pending_in};
ghost use Rattle.wot_keyring_spec.specs.Removal.{without_cert};
ghost use Rattle.wot_keyring_spec.specs.Verdict.{without_verdict_on, would_pass, counted_at, SetsVerdict, TellsFull};
ghost use Rattle.wot_verdict.specs.Verdicts.{AreSortedByNumber};

mod merge;

use crate::dump::{put_certs, put_verdicts, replayed};
use std::alloc::Global;
use std::collections::BTreeMap;
use std::marker::Model;
use wot_cert::Cert;
use wot_index::log::{self, Log};
use wot_index::{Index, forget_cert, restamp_noted};
use wot_keyring_spec::{
    Absent, CertsIter, ExportFault, Kept, Pending, Refusal, certs_of, find, listed_from, take_out,
    waiting,
};
use wot_types::{Fpr, Limit, Limits, Memory, SigNumber};
use wot_verdict::{Verdict, Verdicts};

/// Certificates by fingerprint and verdicts by signature number, within limits. Each certificate has a stamp: the count
/// of changes at which it, or a verdict on one of its signatures, was last altered.
#[derive(Drop)]
pub struct Keyring {
    limits: Limits,
    certs: BTreeMap<Fpr, Kept, Global>,
    changes: u64,
    /// The total size of the certificates.
    octets: u64,
    /// How many signatures the certificates have.
    signatures: u64,
    /// The verdicts, and on which certificate each signature is.
    index: Index,
    /// What was altered recently.
    log: Log,
}

impl Model for Keyring {
    ghost use Rattle.wot_keyring_spec.specs.Keyring.{Keyring, of_parts};
    ghost use Rattle.wot_keyring.specs.Parts.{HoldTogether};

    ghost Value = { Keyring };

    ghost view = { λ a. of_parts a.limits a.certs.entries a.index.verdicts.entries a.changes };

    ghost invariant = { λ a. HoldTogether (of_parts a.limits a.certs.entries a.index.verdicts.entries a.changes)
        a.octets a.signatures a.index a.log };
}

impl Keyring {
    /// An empty keyring. Doesn't allocate.
    pub fn new(alloc: Global, limits: Limits) -> Keyring
        requires small { AreSmall limits }
        ensures empty { result ≡ empty limits }
    {
        Keyring {
            limits,
            certs: BTreeMap::new(alloc),
            changes: 0,
            octets: 0,
            signatures: 0,
            index: Index::new(alloc),
            log: Log::new(alloc),
        }
    }

    /// The limits on what it holds.
    pub fn limits(&self) -> Limits
        ensures limits { result ≡ self.now.limits }
        ensures small { AreSmall result }
    {
        self.limits
    }

    /// The certificate of a fingerprint.
    pub fn get(&self, fpr: &Fpr) -> Option<&Cert>
        ensures found { option_copied result ≡ cert_at self.now fpr.now }
        ensures named { IfSome result (λ c. fpr_of c.now.key ≡ fpr.now) }
        ensures size { IfSome result (λ c. size_of c.now ≤ standard_limits.certificate) }
    {
        match find(&self.certs, fpr) {
            Some(kept) => Some(&kept.cert),
            None => None,
        }
    }

    /// All certificates, in the order of their fingerprints.
    pub fn certs(&self) -> CertsIter<'_>
        ensures certs { result ≡ map (λ (e : TheFpr × TheKept). e.1.cert) self.now.certs }
        ensures named { AreNamed self.now.certs }
        ensures sorted { AreSortedByFpr self.now.certs }
        ensures sizes { AreSized standard_limits.certificate self.now.certs }
    {
        certs_of(&self.certs)
    }

    /// The number of certificates.
    pub fn len(&self) -> usize
        ensures len { result ≡ length self.now.certs }
        ensures named { AreNamed self.now.certs }
        ensures sorted { AreSortedByFpr self.now.certs }
        ensures stamped { AreStamped self.now.changes self.now.certs }
        ensures whole { IsKeyring self.now }
    {
        self.certs.len()
    }

    /// The certificates from a fingerprint on, in the order of their fingerprints. All of them if none is given.
    pub fn certs_from(&self, from: Option<Fpr>) -> CertsIter<'_>
        ensures certs { result ≡ map (λ (e : TheFpr × TheKept). e.1.cert) (entries_from from self.now.certs) }
        ensures named { AreNamed self.now.certs }
    {
        listed_from(&self.certs, from)
    }

    /// All verdicts, by signature number.
    pub fn verdicts(&self) -> &Verdicts
        ensures verdicts { result.now.entries ≡ self.now.verdicts }
    {
        &self.index.verdicts
    }

    /// The count of changes at which a certificate, or a verdict on one of its signatures, was last altered. It is 0 if
    /// and only if the certificate isn't kept.
    pub fn stamp(&self, fpr: &Fpr) -> u64
        ensures stamp { result ≡ stamp_at self.now fpr.now }
        ensures absent { MatchOption (cert_at self.now fpr.now) (result ≡ 0) (λ _. 0 < result) }
        ensures past { result ≤ self.now.changes }
    {
        match find(&self.certs, fpr) {
            Some(kept) => kept.stamp,
            None => 0,
        }
    }

    /// The number of calls that altered something.
    pub fn changes(&self) -> u64
        ensures changes { result ≡ self.now.changes }
    {
        self.changes
    }

    /// The stamps and fingerprints of the certificates altered since this count of changes, in the order of stamps. The
    /// slice may list more, and lists a certificate that was altered twice with its earlier stamp too. Returns `None`
    /// if the log doesn't go back that far: then any certificate may have been altered. Doesn't walk over the
    /// certificates.
    pub fn changed_since(&self, count: u64) -> Option<&[(u64, Fpr)]>
        ensures since { IfSome result (λ logged. HasChangedSince self.now count logged.now) }
    {
        if count < self.log.from {
            return None;
        }
        Some(log::since(self.log.entries.as_slice(), count))
    }

    /// Removes a certificate. The verdicts on its signatures stay. Doesn't allocate.
    #[tactic(auto, using(crate::proofs::Judged::removed_judged))]
    pub fn remove(&mut self, fpr: &Fpr) -> Result<(), Absent>
        requires countable { self.old.changes < 2 ^ 64 - 1 }
        ensures removed { OnOk result (self.new ≡ without_cert fpr.now self.old) }
        ensures held { OnOk result (held_of self.new ≡ removing fpr.now (held_of self.old)) }
        ensures absent { is_ok result ≡ is_some (cert_at self.old fpr.now) }
        ensures limits { self.new.limits ≡ self.old.limits }
        ensures kept { OnErr result (self.new ≡ self.old) }
        ensures counted { IsOneChange self.old self.new }
        ensures later { IsLater self.old self.new }
        ensures judged { StaysJudged self.old self.new }
    {
        let Some(kept) = find(&self.certs, fpr) else {
            return Err(Absent);
        };
        let octets = kept.cert.size();
        let signatures = kept.cert.signatures();
        forget_cert(&mut self.index.verdicts, &kept.cert);
        take_out(&mut self.certs, fpr);
        self.octets -= octets;
        self.signatures -= signatures;
        self.changes += 1;
        log::log_at(&mut self.log, self.changes, *fpr);
        Ok(())
    }

    /// Sets or replaces the verdict on a signature number. If it already is this one, nothing changes and nothing is
    /// allocated. A verdict may come before its signature, and outlives it.
    pub fn set_verdict(&mut self, number: SigNumber, verdict: Verdict) -> Result<(), Refusal>
        requires countable { self.old.changes < 2 ^ 64 - 1 }
        ensures same { verdict_on self.old number ≡ Some verdict → (result ≡ Ok tt) × (self.new ≡ self.old) }
        ensures set { OnOk result (SetsVerdict number verdict self.old self.new) }
        ensures held { OnOk result (held_of self.new ≡ verdict_set number verdict (held_of self.old)) }
        ensures full { TellsFull result self.old number }
        ensures limits { self.new.limits ≡ self.old.limits }
        ensures kept { OnErr result (self.new ≡ self.old) }
        ensures counted { IsOneChange self.old self.new }
        ensures later { IsLater self.old self.new }
        ensures judged { StaysJudged self.old self.new }
    {
        if self.says(&number, verdict) {
            return Ok(());
        }
        if self.would_pass(&number) {
            return Err(Refusal::Full(Limit::Verdicts));
        }
        log::make_room(&mut self.log, 1, self.certs.len());
        match self.index.verdicts.set(number, verdict) {
            Ok(_) => {
                self.altered_at(&number);
                Ok(())
            }
            Err(Memory) => Err(Refusal::Memory),
        }
    }

    /// Removes the verdict on a signature number. Doesn't allocate.
    pub fn clear_verdict(&mut self, number: &SigNumber) -> Result<(), Absent>
        requires countable { self.old.changes < 2 ^ 64 - 1 }
        ensures cleared { OnOk result (self.new ≡ without_verdict_on number.now self.old) }
        ensures held { OnOk result (held_of self.new ≡ verdict_cleared number.now (held_of self.old)) }
        ensures absent { is_ok result ≡ is_some (verdict_on self.old number.now) }
        ensures limits { self.new.limits ≡ self.old.limits }
        ensures kept { OnErr result (self.new ≡ self.old) }
        ensures counted { IsOneChange self.old self.new }
        ensures later { IsLater self.old self.new }
        ensures judged { StaysJudged self.old self.new }
    {
        if self.index.verdicts.get(number).is_none() {
            return Err(Absent);
        }
        let _ = self.index.verdicts.clear(number);
        self.altered_at(number);
        Ok(())
    }

    /// Appends the packets of a certificate (RFC 9580, section 10.1). On an error `out` is unchanged.
    pub fn export(&self, fpr: &Fpr, out: &mut Vec<u8>) -> Result<(), ExportFault>
        ensures text { OnOk result
            (IsSomeAnd (cert_at self.now fpr.now) (λ c. out.new.items ≡ out.old.items ++ text_of c)) }
        ensures absent { TellsAbsent result (cert_at self.now fpr.now) }
        ensures kept { OnErr result (out.new.items ≡ out.old.items) }
    {
        let Some(cert) = self.get(fpr) else {
            return Err(ExportFault::Absent);
        };
        match cert.export(out) {
            Ok(()) => Ok(()),
            Err(Memory) => Err(ExportFault::Memory),
        }
    }

    /// Appends a line for each certificate and each verdict: the commands that rebuild this keyring. Returns the number
    /// of lines. On `Memory` `out` is unchanged.
    pub fn dump(&self, alloc: Global, out: &mut Vec<u8>) -> Result<u64, Memory>
        ensures lines { OnOk result (out.new.items ≡ out.old.items ++ lines_of (commands_of (held_of self.now))) }
        ensures count { IfOk result (λ count. count ≡ length (commands_of (held_of self.now))) }
        ensures few { IfOk result (λ count. count < 2 ^ 32) }
        ensures kept { OnErr result (out.new.items ≡ out.old.items) }
        // Each command is printed as one line, which is read as that command.
        ensures read_back { OnOk result (AreLines (commands_of (held_of self.now))) }
        ensures size { OnOk result (length (lines_of (commands_of (held_of self.now))) ≤ most_dumped self.now.limits) }
        // Whatever policy the fresh keyring has.
        ensures restored { OnOk result ((rows : Rows) → IsRestored rows self.now) }
    {
        replayed();
        let start = out.len();
        put_certs(alloc, self.certs(), out)?;
        match put_verdicts(&self.index.verdicts, out) {
            Ok(()) => Ok(self.certs.len() as u64 + self.index.verdicts.len() as u64),
            Err(fault) => {
                out.truncate(start);
                Err(fault)
            }
        }
    }

    /// The well-formed signatures without a verdict, of all types and in all places, by certificate and then in the
    /// order in which `export` writes them.
    pub fn pending(&self, alloc: Global) -> Result<Vec<Pending>, Memory>
        ensures pending { IfOk result (λ list. list.items ≡ pending_in (held_of self.now)) }
    {
        waiting(alloc, &self.certs, &self.index.verdicts)
    }

    fn says(&self, number: &SigNumber, verdict: Verdict) -> bool
        ensures says { MatchBool result
            (verdict_on self.now number.now ≡ Some verdict) (verdict_on self.now number.now ≢ Some verdict) }
    {
        self.index.verdicts.get(number) == Some(verdict)
    }

    fn would_pass(&self, number: &SigNumber) -> bool
        ensures passes { result ≡ would_pass self.now number.now }
        ensures sorted { AreSortedByNumber self.now.verdicts }
    {
        let count = self.index.verdicts.len() as u64;
        // The number is looked up only if the limit is reached.
        self.limits.verdicts <= count && self.index.verdicts.get(number).is_none()
    }

    /// Counts a change of the verdict on a number.
    #[tactic(auto, using(crate::proofs::Judged::restamped_judged))]
    fn altered_at(&mut self, number: &SigNumber)
        requires countable { self.old.changes < 2 ^ 64 - 1 }
        ensures counted { self.new ≡ counted_at number.now self.old }
        ensures judged { StaysJudged self.old self.new }
    {
        self.changes += 1;
        let stamp = self.changes;
        restamp_noted(&mut self.certs, &self.index, &mut self.log, number, stamp);
    }
}
