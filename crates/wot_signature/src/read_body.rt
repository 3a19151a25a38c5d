//! A signature body with its hashed area parsed.
//!
//! It uses `parts` and `Area` of `wot_subpacket`. Facts, hints and regular expressions are read from it; which
//! bodies can be parsed is decided here.
ghost use Rattle.std.specs.Prelude.{IfSome};
ghost use Rattle.wot_subpacket.specs.Slice.{HaveSlicesOf};
ghost use Rattle.wot_signature.specs.Lent.{Lends, lent_body};
ghost use Rattle.wot_signature.specs.Signature.{read_body_of as read_body_of_spec};

use crate::parts::parts_of;
use wot_subpacket::Area;

/// A signature body that can be parsed: its parts, of which the hashed area is a list of subpackets.
#[derive(Drop)]
pub(crate) struct ReadBody<'a> {
    pub(crate) kind: u8,
    pub(crate) hash: u8,
    pub(crate) hashed: Area<'a>,
    pub(crate) unhashed: &'a [u8],
}

/// `None` if the body can't be parsed.
#[tactic(auto, unfolding(crate::specs::Signature::read_body_of))]
pub(crate) fn read_body_of(body: &[u8]) -> Option<ReadBody<'_>>
    ensures reading { Lends (read_body_of_spec body.now) result lent_body }
    ensures slices { IfSome result (λ reading. HaveSlicesOf body.now reading.hashed) }
{
    let parts = parts_of(body)?;
    let Ok(hashed) = Area::new(parts.hashed) else {
        return None;
    };
    Some(ReadBody {
        kind: parts.kind,
        hash: parts.hash,
        hashed,
        unhashed: parts.unhashed,
    })
}
