//! The type `Cert` and its calls: build, read, mark, merge, grow and shrink.
//!
//! It uses `wot_component` and `places`; `export` and `adds` have its other calls. Their public clauses are what
//! all crates above know of a certificate.
ghost use Rattle.std.specs.Prelude.{◌≡◌, ◌≢◌, ◌+◌, ◌-◌, ◌<◌, ◌^◌, min, MatchBool, Some, true, false, []};
ghost use Rattle.std.specs.Prelude.{OnOk, OnErr, IfOk, IfSome};
ghost use Rattle.std.specs.Option.{MatchOption};
ghost use Rattle.wot_key.specs.Key.{is_readable, key_of, fpr_of};
ghost use Rattle.wot_cert.specs.Answers.{ClashesExactly, IsWhereReadable};
ghost use Rattle.wot_component.specs.Asking.{Asks, AsksOnOk};
ghost use Rattle.wot_cert.specs.Assembly.{bare};
ghost use Rattle.wot_cert.specs.Drafting.{IsWholeSketch, completed, seen};
ghost use Rattle.wot_component.specs.Certificate.{Certificate, unite, unmarked, with_each};
ghost use Rattle.wot_component.specs.Certificate.{on_key, on_user_id, on_attribute, on_subkey};
ghost use Rattle.wot_component.specs.Copied.{copied};
ghost use Rattle.wot_component.specs.Counts.{items_of, signatures_of};
ghost use Rattle.wot_component.specs.Judged.{judged, IsJudged, sound_of};
ghost use Rattle.wot_cert.specs.Parts.{IsCertOf, of_places};
ghost use Rattle.wot_cert.specs.Growing.{AsksForCert, LeadsBack, shrunk};
ghost use Rattle.wot_component.specs.New.{judged_beside, sound_beside};
ghost use Rattle.wot_component.specs.Text.{size_of};
ghost use Rattle.wot_policy.specs.Kept.{IsFaithful, rows_of};
ghost use Rattle.wot_component.specs.Whole.{IsCertificate, AreSigsAt, ArePartsOf};

use crate::draft::Draft;
use crate::places::Places;
use crate::{Adds, Growth, MergeFault, Part, Sig};
use std::alloc::Global;
use std::marker::Model;
use wot_component::judge::{judge_new, judge_new_parts};
use wot_component::measure::totals_of;
use wot_component::sig::Marks;
use wot_key::{Key, fingerprint, read_key};
use wot_policy::{Ask, Policy};
use wot_types::{Fpr, Memory};

/// A certificate: a key, its user IDs, attributes and subkeys, and the signatures on each. All lists are in the order
/// of the bodies, without duplicates.
#[derive(Drop)]
pub struct Cert {
    body: Vec<u8>,
    key: Key,
    fpr: Fpr,
    places: Places,
    totals: Adds,
}

impl Model for Cert {
    ghost use Rattle.wot_component.specs.Certificate.{Certificate};
    ghost use Rattle.wot_cert.specs.Parts.{IsCertOf, of_places};
    ghost use Rattle.wot_component.specs.Totals.{AreTotals};

    ghost Value = { Certificate };

    ghost view = { λ a. of_places a.body.items a.places };

    ghost invariant = { λ a. IsCertOf a.key a.fpr (of_places a.body.items a.places)
        × AreTotals a.totals (of_places a.body.items a.places) };
}

impl Cert {
    /// The certificate with this key and nothing else; `None` if and only if the key can't be parsed.
    pub fn bare(alloc: Global, body: &[u8]) -> Result<Option<Cert>, Memory>
        ensures bare { IfOk result
            (λ found. MatchOption found (is_readable body.now ≡ false) (λ c. c ≡ bare body.now)) }
        ensures readable { IfOk result (λ found. IfSome found (λ _. is_readable body.now ≡ true)) }
    {
        let Some(key) = read_key(body) else {
            return Ok(None);
        };
        let Some(fpr) = fingerprint(body) else {
            return Ok(None);
        };
        let body = Vec::from_slice(alloc, body)?;
        let places = Places::new(alloc);
        Ok(Some(Cert::whole(body, key, fpr, places)))
    }

    /// The certificate with this key and the draft from the packets after it; `None` if and only if the key can't be
    /// parsed.
    pub(crate) fn drafted(alloc: Global, body: &[u8], draft: &Draft) -> Result<Option<Cert>, Memory>
        requires whole { IsWholeSketch (seen draft.now) }
        ensures completed { IfOk result (IsWhereReadable body.now (completed body.now (seen draft.now))) }
    {
        let Some(key) = read_key(body) else {
            return Ok(None);
        };
        let Some(fpr) = fingerprint(body) else {
            return Ok(None);
        };
        let mut places = Places::new(alloc);
        places.put_drafted(alloc, body, draft)?;
        let body = Vec::from_slice(alloc, body)?;
        Ok(Some(Cert::whole(body, key, fpr, places)))
    }

    /// The certificate of these parts, its totals counted.
    fn whole(body: Vec<u8>, key: Key, fpr: Fpr, places: Places) -> Cert
        requires { IsCertOf key fpr (of_places body.items places) }
        ensures { result ≡ of_places body.items places }
    {
        let totals = totals_of(
            &body,
            &places.direct,
            &places.user_ids,
            &places.attributes,
            &places.subkeys,
        );
        Cert {
            body,
            key,
            fpr,
            places,
            totals,
        }
    }

    /// The fingerprint of its key.
    pub fn fpr(&self) -> Fpr
        ensures fpr { result ≡ fpr_of self.now.key }
        ensures whole { IsCertificate self.now }
    {
        self.fpr
    }

    /// What the key's body says.
    pub fn key(&self) -> Key
        ensures key { Some result ≡ key_of self.now.key }
    {
        self.key
    }

    /// The octets of its key's body.
    pub fn body(&self) -> &[u8]
        ensures body { result.now ≡ self.now.key }
        ensures whole { IsCertificate self.now }
    {
        &self.body
    }

    /// The length of its text in octets, at most `u64::MAX`.
    pub fn size(&self) -> u64
        ensures size { result ≡ min (size_of self.now) (2 ^ 64 - 1) }
    {
        self.totals.octets
    }

    /// How many keys, components and signatures it has, at most `u64::MAX`.
    pub fn items(&self) -> u64
        ensures items { result ≡ min (items_of self.now) (2 ^ 64 - 1) }
    {
        self.totals.items
    }

    /// How many signatures it has.
    pub fn signatures(&self) -> u64
        requires { size_of self.now < 2 ^ 63 }
        ensures signatures { result ≡ signatures_of self.now }
    {
        self.totals.signatures
    }

    /// The signatures on the key itself.
    pub fn direct(&self) -> &[Sig]
        ensures direct { result.now ≡ self.now.direct }
        ensures set { AreSigsAt self.now.key on_key [] self.now.direct }
    {
        &self.places.direct
    }

    /// The user IDs.
    pub fn user_ids(&self) -> &[Part]
        ensures user_ids { result.now ≡ self.now.user_ids }
        ensures set { ArePartsOf self.now.key on_user_id self.now.user_ids }
    {
        &self.places.user_ids
    }

    /// The user attributes.
    pub fn attributes(&self) -> &[Part]
        ensures attributes { result.now ≡ self.now.attributes }
        ensures set { ArePartsOf self.now.key on_attribute self.now.attributes }
    {
        &self.places.attributes
    }

    /// The subkeys.
    pub fn subkeys(&self) -> &[Part]
        ensures subkeys { result.now ≡ self.now.subkeys }
        ensures set { ArePartsOf self.now.key on_subkey self.now.subkeys }
    {
        &self.places.subkeys
    }

    /// A copy, marks included.
    pub fn duplicate(&self, alloc: Global) -> Result<Cert, Memory>
        ensures equal { IfOk result (λ c. c ≡ self.now) }
    {
        self.copied(alloc, Marks::Kept)
    }

    fn copied(&self, alloc: Global, marks: Marks) -> Result<Cert, Memory>
        ensures { IfOk result (λ c. c ≡ with_each (copied marks) self.now) }
    {
        let body = Vec::from_slice(alloc, &self.body)?;
        let mut places = Places::new(alloc);
        places.put_copies(alloc, &self.places, marks)?;
        Ok(Cert::whole(body, self.key, self.fpr, places))
    }

    /// Merges with a certificate of the same key into a new one.
    fn union(&self, alloc: Global, other: &Cert) -> Result<Cert, Memory>
        requires { self.now.key ≡ other.now.key }
        ensures { IfOk result (λ c. c ≡ unite self.now other.now) }
    {
        let body = Vec::from_slice(alloc, &self.body)?;
        let mut places = Places::new(alloc);
        places.put_unions(alloc, &self.places, &other.places)?;
        Ok(Cert::whole(body, self.key, self.fpr, places))
    }

    /// Marks the signatures that the old certificate doesn't have.
    fn judge_new<F: Fn(Ask) -> bool>(&mut self, old: &Cert, policy: &mut Policy<F>)
        requires { IsFaithful F.Fn policy.old }
        ensures judged { self.new ≡ judged_beside (rows_of policy.old) old.now self.old }
        ensures asked { Asks policy.old policy.new (λ k. k ≡ sound_beside old.now self.old) }
        ensures faithful { IsFaithful F.Fn policy.new }
    {
        judge_new(&mut self.places.direct, &old.places.direct, policy);
        judge_new_parts(&mut self.places.user_ids, &old.places.user_ids, policy);
        judge_new_parts(&mut self.places.attributes, &old.places.attributes, policy);
        judge_new_parts(&mut self.places.subkeys, &old.places.subkeys, policy);
    }

    /// Asks the policy about each well-formed signature, and marks it by the answer, whatever its mark was. Signatures
    /// that aren't well-formed are left without a mark.
    pub fn judge<F: Fn(Ask) -> bool>(&mut self, policy: &mut Policy<F>)
        requires faithful { IsFaithful F.Fn policy.old }
        ensures judged { self.new ≡ judged (rows_of policy.old) self.old }
        ensures asked { Asks policy.old policy.new (λ k. k ≡ sound_of self.old) }
        ensures faithful { IsFaithful F.Fn policy.new }
    {
        judge_new(&mut self.places.direct, &[], policy);
        judge_new_parts(&mut self.places.user_ids, &[], policy);
        judge_new_parts(&mut self.places.attributes, &[], policy);
        judge_new_parts(&mut self.places.subkeys, &[], policy);
    }

    /// Merges with a certificate of the same key into a new one, with new signatures marked.
    fn merged<F: Fn(Ask) -> bool>(
        &self,
        alloc: Global,
        other: &Cert,
        policy: &mut Policy<F>,
    ) -> Result<Cert, Memory>
        requires faithful { IsFaithful F.Fn policy.old }
        requires whole { IsCertificate self.now × IsCertificate other.now }
        requires same { self.now.key ≡ other.now.key }
        ensures union { IfOk result (λ c. c ≡ judged_beside (rows_of policy.old) self.now (unite self.now other.now)) }
        ensures asked { AsksOnOk result policy.old policy.new
            (λ k. k ≡ sound_beside self.now (unite self.now other.now)) }
        ensures faithful { IsFaithful F.Fn policy.new }
    {
        let mut union = self.union(alloc, other)?;
        union.judge_new(self, policy);
        Ok(union)
    }

    /// Whether both have one key, which `adds` requires.
    pub fn has_key_of(&self, other: &Cert) -> bool
        ensures same { MatchBool result (self.now.key ≡ other.now.key) (self.now.key ≢ other.now.key) }
        ensures whole { IsCertificate self.now × IsCertificate other.now }
    {
        self.body.as_slice() == other.body.as_slice()
    }

    /// Merges into a new certificate without marks.
    fn unmarked_union(&self, alloc: Global, other: &Cert) -> Result<Cert, Memory>
        requires { self.now.key ≡ other.now.key }
        ensures { IfOk result (λ c. c ≡ unmarked (unite self.now other.now)) }
    {
        let union = self.union(alloc, other)?;
        union.copied(alloc, Marks::Dropped)
    }

    /// Merges a certificate of the same key into this one, and removes all marks. No policy is asked. After an error
    /// nothing changed.
    pub fn unite(&mut self, alloc: Global, other: &Cert) -> Result<(), MergeFault>
        ensures union { OnOk result (self.new ≡ unmarked (unite self.old other.now)) }
        ensures clash { ClashesExactly self.old other.now result }
        ensures kept { OnErr result (self.new ≡ self.old) }
    {
        if !self.has_key_of(other) {
            return Err(MergeFault::Clash);
        }
        match self.unmarked_union(alloc, other) {
            Ok(union) => {
                *self = union;
                Ok(())
            }
            Err(Memory) => Err(MergeFault::Memory),
        }
    }

    /// Merges a certificate of the same key into this one, and asks the policy about each new well-formed signature.
    /// Returns how many components and signatures were added. After an error the certificate is unchanged, and the
    /// policy wasn't asked. The clause `asked` says how many questions there were, not which.
    pub fn merge<F: Fn(Ask) -> bool>(
        &mut self,
        alloc: Global,
        other: &Cert,
        policy: &mut Policy<F>,
    ) -> Result<u64, MergeFault>
        requires faithful { IsFaithful F.Fn policy.old }
        requires sizes { size_of self.old + size_of other.now < 2 ^ 63 }
        ensures union { OnOk result (self.new ≡ unite self.old (judged (rows_of policy.old) other.now)) }
        ensures judged { IsJudged (rows_of policy.old) self.old → IsJudged (rows_of policy.old) self.new }
        ensures items { IfOk result (λ items. items + items_of self.old ≡ items_of self.new) }
        ensures asked { AsksOnOk result policy.old policy.new (λ k. k + sound_of self.old ≡ sound_of self.new) }
        ensures clash { ClashesExactly self.old other.now result }
        ensures kept { OnErr result (self.new ≡ self.old) }
        ensures faithful { IsFaithful F.Fn policy.new }
    {
        if !self.has_key_of(other) {
            return Err(MergeFault::Clash);
        }
        match self.merged(alloc, other, policy) {
            Ok(union) => {
                let added = union.items() - self.items();
                *self = union;
                Ok(added)
            }
            Err(Memory) => Err(MergeFault::Memory),
        }
    }

    /// Merges as `merge` does, but in place: what is already there is neither copied nor walked over. Returns how many
    /// components and signatures were added, and what `shrink` needs to undo the merge. After an error the certificate
    /// is unchanged; if memory ran out, the policy may have been asked about some of what is new.
    pub fn grow<F: Fn(Ask) -> bool>(
        &mut self,
        alloc: Global,
        other: &Cert,
        policy: &mut Policy<F>,
    ) -> Result<Growth, MergeFault>
        requires faithful { IsFaithful F.Fn policy.old }
        requires sizes { size_of self.old + size_of other.now < 2 ^ 63 }
        ensures union { OnOk result (self.new ≡ unite self.old (judged (rows_of policy.old) other.now)) }
        ensures judged { IsJudged (rows_of policy.old) self.old → IsJudged (rows_of policy.old) self.new }
        ensures back { IfOk result (λ growth. LeadsBack growth self.old self.new) }
        ensures items { IfOk result (λ growth. growth.items + items_of self.old ≡ items_of self.new) }
        ensures asked { AsksForCert result policy.old policy.new self.old other.now }
        ensures clash { ClashesExactly self.old other.now result }
        ensures kept { OnErr result (self.new ≡ self.old) }
        ensures faithful { IsFaithful F.Fn policy.new }
    {
        if !self.has_key_of(other) {
            return Err(MergeFault::Clash);
        }
        let before = self.totals;
        let mut growth = Growth::new(alloc, before);
        let mut totals = before;
        match self
            .places
            .grow(alloc, &mut growth, &mut totals, other, policy)
        {
            Ok(()) => {
                self.totals = totals;
                growth.items = totals.items - before.items;
                Ok(growth)
            }
            Err(Memory) => {
                self.places.take_back(growth);
                Err(MergeFault::Memory)
            }
        }
    }

    /// Undoes `grow`: the certificate is as it was before. Takes no memory.
    pub fn shrink(&mut self, growth: Growth)
        requires leads { (old : Certificate) × LeadsBack growth old self.old }
        ensures shrunk { self.new ≡ shrunk growth self.old }
    {
        let before = growth.before;
        self.places.take_back(growth);
        self.totals = before;
    }
}
