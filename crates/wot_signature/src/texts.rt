//! The iterator over a signature's regular expressions. It uses `AreaIter` of `wot_subpacket`; `scopes` makes it,
//! and `wot_scope` takes one text after another from it.
ghost use Rattle.std.specs.Prelude.{◌≡◌};
ghost use Rattle.std.specs.Iterator.{YieldsFirstRef};
ghost use Rattle.wot_signature.specs.Signature.{texts_in, trimmed};

use crate::known::PATTERN;
use std::marker::Model;
use wot_subpacket::AreaIter;

/// Iterates over the texts of a signature's regular expressions. Contracts see the list of those that are left.
#[derive(Drop)]
pub struct Scopes<'a> {
    pub(crate) subs: Option<AreaIter<'a>>,
}

impl<'a> Model for Scopes<'a> {
    ghost use Rattle.std.specs.Prelude.{List, ℕ, []};
    ghost use Rattle.std.specs.Option.{option_map_or};
    ghost use Rattle.wot_signature.specs.Signature.{texts_in};

    ghost Value = { List (List ℕ) };

    ghost view = { λ scopes. option_map_or texts_in scopes.subs [] };
}

impl<'a> Iterator for Scopes<'a> {
    ghost use Rattle.std.specs.Iterator.{YieldsFirstRef, item_count};

    type Item = &'a [u8];

    ghost next_gives = { YieldsFirstRef (λ left. left) };

    ghost remaining = { item_count (λ left. left) };

    fn next(&mut self) -> Option<&'a [u8]> {
        next_text(self.subs.as_mut()?)
    }
}

fn next_text<'a>(subs: &mut AreaIter<'a>) -> Option<&'a [u8]>
    ensures { YieldsFirstRef texts_in subs.old result subs.new }
{
    'walk: while let Some(sub) = subs.next() {
        if sub.kind == PATTERN {
            return Some(text_of(sub.body));
        }
    }
    None
}

/// The text of a body: without one zero octet at its end.
fn text_of(body: &[u8]) -> &[u8]
    ensures { result.now ≡ trimmed body.now }
{
    match body.split_last() {
        Some((0, text)) => text,
        _ => body,
    }
}
