//! Everything in a certificate but its key: the signatures on the key, and the three lists of components.
//!
//! It uses `wot_component` and `complete`, and `specs/Parts.antt`. `Cert` forwards its calls to it.
ghost use Rattle.std.specs.Prelude.{◌<◌, ◌^◌, [], OnOk, length};
ghost use Rattle.wot_cert.specs.Drafting.{IsWholeSketch, seen};
ghost use Rattle.wot_cert.specs.Growing.{AreUnited, AsksForCert, PlacesFollow, PlacesRise, StillLeadsBack, TakesBack};
ghost use Rattle.wot_cert.specs.Parts.{AreBare, AreCopies, AreDrafted, AreUnions};
ghost use Rattle.wot_cert.specs.Parts.{of_places};
ghost use Rattle.wot_policy.specs.Kept.{IsFaithful, rows_of};

use crate::complete::{
    ON_ATTRIBUTE, ON_KEY, ON_SUBKEY, ON_USER_ID, put_fresh_parts, put_fresh_sigs,
};
use crate::draft::Draft;
use crate::growth::Growth;
use crate::{Adds, Cert, Part, Sig};
use std::alloc::Global;
use wot_component::growing::{put_parts, put_sigs};
use wot_component::part::{push_copies as push_copies_of_parts, put_union as put_union_of_parts};
use wot_component::shrinking::{take_parts_back, take_sigs_back};
use wot_component::sig::{Marks, push_copies, put_union};
use wot_policy::{Ask, Policy};
use wot_types::Memory;

/// The signatures and components of a key. Each list is in the order of the bodies, without duplicates.
#[derive(Drop)]
pub(crate) struct Places {
    pub direct: Vec<Sig>,
    pub user_ids: Vec<Part>,
    pub attributes: Vec<Part>,
    pub subkeys: Vec<Part>,
}

impl Places {
    /// Empty lists.
    pub(crate) fn new(alloc: Global) -> Places
        ensures bare { AreBare result }
    {
        Places {
            direct: Vec::new(alloc),
            user_ids: Vec::new(alloc),
            attributes: Vec::new(alloc),
            subkeys: Vec::new(alloc),
        }
    }

    /// Fills empty lists from the draft of the packets after a key.
    pub(crate) fn put_drafted(
        &mut self,
        alloc: Global,
        key: &[u8],
        draft: &Draft,
    ) -> Result<(), Memory>
        requires bare { AreBare self.old }
        requires short { length key.now < 2 ^ 32 }
        requires whole { IsWholeSketch (seen draft.now) }
        ensures drafted { OnOk result (AreDrafted key.now (seen draft.now) self.new) }
    {
        put_fresh_sigs(alloc, &mut self.direct, key, ON_KEY, &[], &draft.sigs)?;
        put_fresh_parts(alloc, &mut self.user_ids, key, ON_USER_ID, &draft.user_ids)?;
        put_fresh_parts(
            alloc,
            &mut self.attributes,
            key,
            ON_ATTRIBUTE,
            &draft.attributes,
        )?;
        put_fresh_parts(alloc, &mut self.subkeys, key, ON_SUBKEY, &draft.subkeys)?;
        Ok(())
    }

    /// Fills empty lists with copies of other ones.
    pub(crate) fn put_copies(
        &mut self,
        alloc: Global,
        from: &Places,
        marks: Marks,
    ) -> Result<(), Memory>
        requires bare { AreBare self.old }
        ensures copies { OnOk result (AreCopies marks from.now self.new) }
    {
        push_copies(alloc, &mut self.direct, &from.direct, marks)?;
        push_copies_of_parts(alloc, &mut self.user_ids, &from.user_ids, marks)?;
        push_copies_of_parts(alloc, &mut self.attributes, &from.attributes, marks)?;
        push_copies_of_parts(alloc, &mut self.subkeys, &from.subkeys, marks)?;
        Ok(())
    }

    /// Fills empty lists with two others, merged.
    pub(crate) fn put_unions(&mut self, alloc: Global, a: &Places, b: &Places) -> Result<(), Memory>
        requires bare { AreBare self.old }
        requires a { PlacesRise a.now }
        requires b { PlacesRise b.now }
        ensures unions { OnOk result (AreUnions a.now b.now self.new) }
    {
        put_union(alloc, &mut self.direct, &a.direct, &b.direct)?;
        put_union_of_parts(alloc, &mut self.user_ids, &a.user_ids, &b.user_ids)?;
        put_union_of_parts(alloc, &mut self.attributes, &a.attributes, &b.attributes)?;
        put_union_of_parts(alloc, &mut self.subkeys, &a.subkeys, &b.subkeys)?;
        Ok(())
    }

    /// Merges a certificate's lists into these, and marks what is new. After `Memory` the log undoes what was inserted.
    pub(crate) fn grow<F: Fn(Ask) -> bool>(
        &mut self,
        alloc: Global,
        growth: &mut Growth,
        totals: &mut Adds,
        other: &Cert,
        policy: &mut Policy<F>,
    ) -> Result<(), Memory>
        requires faithful { IsFaithful F.Fn policy.old }
        requires rise { PlacesRise self.old }
        ensures united { OnOk result (AreUnited (rows_of policy.old) self.old self.new other.now) }
        ensures back { StillLeadsBack growth.old growth.new self.old self.new }
        ensures follow { OnOk result (PlacesFollow totals.old totals.new self.old self.new) }
        ensures asked { AsksForCert result policy.old policy.new (of_places [] self.old) other.now }
        ensures faithful { IsFaithful F.Fn policy.new }
    {
        match put_sigs(
            alloc,
            &mut self.direct,
            &mut growth.direct,
            totals,
            other.direct(),
            policy,
        ) {
            Ok(()) => {}
            Err(memory) => return Err(memory),
        }
        match put_parts(
            alloc,
            &mut self.user_ids,
            &mut growth.user_ids,
            totals,
            other.user_ids(),
            policy,
        ) {
            Ok(()) => {}
            Err(memory) => return Err(memory),
        }
        match put_parts(
            alloc,
            &mut self.attributes,
            &mut growth.attributes,
            totals,
            other.attributes(),
            policy,
        ) {
            Ok(()) => {}
            Err(memory) => return Err(memory),
        }
        match put_parts(
            alloc,
            &mut self.subkeys,
            &mut growth.subkeys,
            totals,
            other.subkeys(),
            policy,
        ) {
            Ok(()) => Ok(()),
            Err(memory) => Err(memory),
        }
    }

    /// Removes what was inserted by this log. Takes no memory.
    pub(crate) fn take_back(&mut self, growth: Growth)
        ensures { TakesBack growth self.old self.new }
    {
        let Growth {
            direct,
            user_ids,
            attributes,
            subkeys,
            ..
        } = growth;
        take_sigs_back(&mut self.direct, direct);
        take_parts_back(&mut self.user_ids, user_ids);
        take_parts_back(&mut self.attributes, attributes);
        take_parts_back(&mut self.subkeys, subkeys);
    }
}
