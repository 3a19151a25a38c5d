//! A certificate before its key is known: sorted sets of signature bodies. Packets are read from the last to the first,
//! so that the signatures after a component are there when it comes.
//!
//! It uses std's maps and `specs/Drafting.antt`. `assembling` fills it.
ghost use Rattle.std.specs.Prelude.{◌≡◌, [], OnOk};
ghost use Rattle.wot_packet.specs.Spelling.{spelled_of};
ghost use Rattle.wot_component.specs.Ranked.{put, IsRising};
ghost use Rattle.wot_cert.specs.Drafting.{body_cmp, first_stays, unite_bodies, group_cmp, put_group};
ghost use Rattle.wot_cert.specs.Drafting.{with_component, with_packet, bodies_in, groups_in, seen, IsSketch};
ghost use Rattle.wot_cert.specs.Drafting.{without, sigs_at};

use crate::first_fault::{test_component, test_unknown};
use std::alloc::Global;
use std::collections::{BTreeMap, BTreeSet};
use std::mem;
use wot_packet::Packet;
use wot_types::Memory;

/// Bodies of signatures, in order.
pub(crate) type Bodies<'a> = BTreeSet<&'a [u8]>;

/// Components by body, with the bodies of the signatures on each.
pub(crate) type Groups<'a> = BTreeMap<&'a [u8], BTreeSet<&'a [u8]>>;

/// A certificate whose key isn't known yet. It borrows the packets' bodies.
#[derive(Drop)]
pub(crate) struct Draft<'a> {
    /// The signatures in front of the first component.
    pub(crate) sigs: Bodies<'a>,
    pub(crate) user_ids: Groups<'a>,
    pub(crate) attributes: Groups<'a>,
    pub(crate) subkeys: Groups<'a>,
}

fn put_body<'a>(bodies: &mut Bodies<'a>, body: &'a [u8]) -> Result<(), Memory>
    ensures put { OnOk result (bodies_in bodies.new ≡ put body_cmp first_stays body.now (bodies_in bodies.old)) }
{
    bodies.insert(body)?;
    Ok(())
}

/// Puts each body of one set into another.
fn pour<'a>(bodies: &mut Bodies<'a>, from: &mut Bodies<'a>) -> Result<(), Memory>
    ensures poured { OnOk result (bodies_in bodies.new ≡ unite_bodies (bodies_in bodies.old) (bodies_in from.old)) }
{
    while let Some(body) = from.pop_last() {
        put_body(bodies, body)?;
    }
    Ok(())
}

/// Takes the signatures on a component out of the groups.
fn take_out<'a>(alloc: Global, groups: &mut Groups<'a>, body: &'a [u8]) -> Bodies<'a>
    ensures groups { groups_in groups.new.entries ≡ without body.now (groups_in groups.old.entries) }
    ensures sigs { bodies_in result ≡ sigs_at body.now (groups_in groups.old.entries) }
{
    match groups.remove(&body) {
        Some(sigs) => sigs,
        None => BTreeSet::new(alloc),
    }
}

/// Adds signatures to a component, which may already be there.
fn put_group<'a>(
    alloc: Global,
    groups: &mut Groups<'a>,
    body: &'a [u8],
    sigs: &mut Bodies<'a>,
) -> Result<(), Memory>
    requires groups { IsRising group_cmp (groups_in groups.old.entries) }
    requires sigs { IsRising body_cmp (bodies_in sigs.old) }
    ensures put { OnOk result (groups_in groups.new.entries
        ≡ put_group (body.now, bodies_in sigs.old) (groups_in groups.old.entries)) }
{
    let mut all = take_out(alloc, groups, body);
    pour(&mut all, sigs)?;
    groups.insert(body, all)?;
    Ok(())
}

impl<'a> Draft<'a> {
    pub(crate) fn new(alloc: Global) -> Draft<'a>
        ensures empty { seen result ≡ record { sigs = []; user_ids = []; attributes = []; subkeys = [] } }
    {
        Draft {
            sigs: BTreeSet::new(alloc),
            user_ids: BTreeMap::new(alloc),
            attributes: BTreeMap::new(alloc),
            subkeys: BTreeMap::new(alloc),
        }
    }

    /// Puts a component in front. The signatures drafted so far belong to it.
    fn put_component(&mut self, alloc: Global, kind: u8, body: &'a [u8]) -> Result<(), Memory>
        requires sketch { IsSketch (seen self.old) }
        ensures put { OnOk result (seen self.new ≡ with_component kind body.now (seen self.old)) }
    {
        let mut sigs = mem::replace(&mut self.sigs, BTreeSet::new(alloc));
        match kind {
            13 => put_group(alloc, &mut self.user_ids, body, &mut sigs),
            17 => put_group(alloc, &mut self.attributes, body, &mut sigs),
            14 => put_group(alloc, &mut self.subkeys, body, &mut sigs),
            _ => Ok(()),
        }
    }

    /// Puts a packet in front.
    pub(crate) fn put_packet(&mut self, alloc: Global, packet: &Packet<'a>) -> Result<(), Memory>
        requires sketch { IsSketch (seen self.old) }
        ensures put { OnOk result (seen self.new ≡ with_packet (spelled_of packet.now) (seen self.old)) }
    {
        let kind = packet.kind;
        if test_component(kind) || test_unknown(kind) {
            self.put_component(alloc, kind, packet.body)
        } else if kind == 2 {
            put_body(&mut self.sigs, packet.body)
        } else {
            Ok(())
        }
    }
}
