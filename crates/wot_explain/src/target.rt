//! Why a certificate isn't in order for a user ID: the first of six reasons, in the order of specs/Target.antt.
//! wot_reply_lines has the words for the numbers.
ghost use Rattle.std.specs.Prelude.{◌≡◌};
ghost use Rattle.wot_explain.specs.Target.{target_word as target_word_spec};

use crate::moments::ends_after;
use wot_standing::Standing;

/// The number of the word that says why a certificate isn't in order for a user ID, from its standing at `t` and from
/// whether its own key revoked the user ID.
pub(crate) fn target_word(target: &Standing, t: u32, revoked: bool) -> u8
    ensures word { result ≡ target_word_spec target.now t revoked }
{
    if !target.has {
        return 1;
    }
    if t < target.created {
        return 2;
    }
    if !ends_after(t, target.end) {
        return 3;
    }
    if target.hard {
        return 4;
    }
    if target.soft.is_some() {
        return 5;
    }
    if revoked { 6 } else { 0 }
}
