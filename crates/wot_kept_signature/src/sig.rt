//! A signature of a certificate: its body, its number, what it says, and the policy's mark.
//!
//! It uses `octets`, `new_octets`, `kept_facts` and `single_facts`, and `specs/Signature.antt` and
//! `specs/KeptFacts.antt`.
ghost use Rattle.std.specs.Prelude.{◌≡◌, ◌<◌, ◌^◌, IfOk, false, length};
ghost use Rattle.std.specs.Option.{option_map, option_map_or};
ghost use Rattle.wot_kept_signature.specs.Signature.{IsFreshBy, said_by};
ghost use Rattle.wot_kept_signature.specs.SingleFacts.{times_in, terms_in};

use crate::kept_facts::facts_in;
use crate::new_octets::octets_of;
use crate::octets::{after_mark, body_in, mark_in, number_in, set_mark};
use crate::said::{Terms, Times};
use crate::single_facts::{is_sound_in, issuer_in, kind_in, terms_kept, times_kept};
use std::alloc::Global;
use std::marker::Model;
use std::mem::size_of;
use wot_signature::SigFacts;
use wot_types::{Fpr, Memory, SigNumber};
use wot_verdict::Numbering;

/// A signature of a certificate. All that it has is in one piece of memory: a keyring may hold a million of them.
#[derive(Drop)]
pub struct Sig {
    octets: Vec<u8>,
}

// An insertion into a list moves all signatures after it, so it matters that each takes 24 octets there.
const _: () = prove!(size_of::<Sig>() <= 24);

impl Model for Sig {
    ghost use Rattle.wot_kept_signature.specs.Signature.{Signature};
    ghost use Rattle.wot_kept_signature.specs.KeptFacts.{signature_in, IsWhole};

    ghost Value = { Signature };

    ghost view = { λ a. signature_in a.octets.items };

    ghost invariant = { λ a. IsWhole a.octets.items };
}

impl Sig {
    /// The octets of its packet's body.
    pub fn body(&self) -> &[u8]
        ensures body { result.now ≡ self.now.body }
    {
        body_in(after_mark(&self.octets))
    }

    /// Its number, by which verdicts are kept.
    pub fn number(&self) -> SigNumber
        ensures number { result ≡ self.now.number }
    {
        number_in(after_mark(&self.octets))
    }

    /// What it says; `None` if it can't be parsed. Whoever needs one of the facts has `kind`, `times`, `terms`,
    /// `is_sound` and `issuer`, which read no other ones.
    #[inline(always)]
    pub fn facts(&self) -> Option<SigFacts>
        ensures said { result ≡ said_by self.now }
    {
        facts_in(after_mark(&self.octets))
    }

    /// Its signature type; `None` if it can't be parsed.
    #[inline(always)]
    pub fn kind(&self) -> Option<u8>
        ensures kind { result ≡ option_map (λ f. f.kind) (said_by self.now) }
    {
        kind_in(after_mark(&self.octets))
    }

    /// When it was created, and what expires when; `None` if it can't be parsed.
    #[inline(always)]
    pub fn times(&self) -> Option<Times>
        ensures times { result ≡ option_map times_in (said_by self.now) }
    {
        times_kept(after_mark(&self.octets))
    }

    /// What it says of the trust that it gives; `None` if it can't be parsed.
    #[inline(always)]
    pub fn terms(&self) -> Option<Terms>
        ensures terms { result ≡ option_map terms_in (said_by self.now) }
    {
        terms_kept(after_mark(&self.octets))
    }

    /// Whether it can be parsed and is well-formed.
    #[inline(always)]
    pub fn is_sound(&self) -> bool
        ensures sound { result ≡ option_map_or (λ f. f.sound) (said_by self.now) false }
    {
        is_sound_in(after_mark(&self.octets))
    }

    /// The issuer that it names; `None` if it can't be parsed.
    #[inline(always)]
    pub fn issuer(&self) -> Option<Option<Fpr>>
        ensures issuer { result ≡ option_map (λ f. f.issuer) (said_by self.now) }
    {
        issuer_in(after_mark(&self.octets))
    }

    /// Whether the policy admitted it.
    pub fn admitted(&self) -> bool
        ensures mark { result ≡ self.now.admitted }
    {
        mark_in(&self.octets)
    }

    /// The signature with this body on the component that `numbering` was made for, without a mark.
    pub fn fresh(alloc: Global, numbering: &Numbering, body: &[u8]) -> Result<Sig, Memory>
        requires body { length body.now < 2 ^ 32 }
        ensures fresh { IfOk result (IsFreshBy numbering.now body.now) }
    {
        let number = numbering.number(body);
        let octets = octets_of(alloc, &number.0, body)?;
        Ok(Sig { octets })
    }

    /// A copy with this mark.
    pub fn marked(&self, alloc: Global, mark: bool) -> Result<Sig, Memory>
        ensures marked { IfOk result (λ s. s ≡ record self.now { admitted = mark }) }
    {
        let mut octets = Vec::from_slice(alloc, &self.octets)?;
        set_mark(&mut octets, mark);
        Ok(Sig { octets })
    }

    /// Sets or removes the mark.
    pub fn mark(&mut self, mark: bool)
        ensures marked { self.new ≡ record self.old { admitted = mark } }
    {
        set_mark(&mut self.octets, mark);
    }
}
