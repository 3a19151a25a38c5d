//! Single atoms: which characters they take, and where they match nothing at all.
//!
//! It uses `item` and `specs/Meaning.antt`. Both passes of the matcher use it.
ghost use Rattle.std.specs.Prelude.{◌≡◌};
ghost use Rattle.wot_pattern.specs.Nodes.{atom_of};
ghost use Rattle.wot_pattern.specs.MeaningTest.{in_items, takes};
ghost use Rattle.wot_pattern.specs.Passes.{holds_empty};

use crate::item::Item;
use crate::node::Leaf;

fn in_items(items: &[Item], character: char) -> bool
    ensures { result ≡ in_items character items.now }
{
    for item in items {
        if item.from <= character && character <= item.to {
            return true;
        }
    }
    false
}

/// Whether the atom matches this one character.
pub fn takes(leaf: &Leaf, character: char) -> bool
    ensures { result ≡ takes (atom_of leaf.now) character }
{
    match leaf {
        Leaf::Exactly(own) => character == *own,
        Leaf::Any => true,
        Leaf::Start => false,
        Leaf::End => false,
        Leaf::Range { negated, items } => {
            let inside = in_items(items, character);
            if *negated { !inside } else { inside }
        }
    }
}

/// Whether the atom matches the empty text at a position, which may be the text's first or its last.
pub fn holds_empty(leaf: &Leaf, first: bool, last: bool) -> bool
    ensures { result ≡ holds_empty first last (atom_of leaf.now) }
{
    match leaf {
        Leaf::Start => first,
        Leaf::End => last,
        _ => false,
    }
}
