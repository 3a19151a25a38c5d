//! The regular expressions of a signature, as texts in place (RFC 9580, section 5.2.3.22).
//!
//! It uses `read_body` and `texts`. `wot_scope` parses and matches them.
ghost use Rattle.std.specs.Prelude.{◌≡◌, IfSome};
ghost use Rattle.std.specs.Option.{option_map};
ghost use Rattle.std.specs.List.{AllByRecursion};
ghost use Rattle.wot_subpacket.specs.Slice.{IsSliceOf, HaveSlicesOf};
ghost use Rattle.wot_signature.specs.Signature.{ReadBody, read_body_of as read_body_of_spec, scopes_of};

use crate::Scopes;
use crate::read_body::read_body_of;
use wot_subpacket::AreaIter;

/// The texts of a signature's regular expressions in order, each a slice of the body without one zero octet at its end.
/// None for a body that can't be parsed. They needn't be well-formed.
#[tactic(auto, unfolding(crate::specs::Signature::scopes_of))]
pub fn scopes(body: &[u8]) -> Scopes<'_>
    ensures texts { result ≡ scopes_of body.now }
    ensures slices { AllByRecursion (λ text. IsSliceOf text body.now) result }
{
    Scopes {
        subs: subs_of(body),
    }
}

fn subs_of(body: &[u8]) -> Option<AreaIter<'_>>
    ensures hashed { result ≡ option_map (λ (r : ReadBody). r.hashed) (read_body_of_spec body.now) }
    ensures slices { IfSome result (HaveSlicesOf body.now) }
{
    let reading = read_body_of(body)?;
    Some(reading.hashed.iter())
}
