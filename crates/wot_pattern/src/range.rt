//! Reads bracket expressions: their items, a dash, and the negating caret.
//!
//! It uses `item` and `specs/Grammar.antt`. `parser` calls `read_range` at each opening bracket.
ghost use Rattle.std.specs.Prelude.{◌≡◌, ℕ, ◌+◌, ◌<◌, ◌≤◌, List, Some, None, length, drop, IfOk, IfErr, IfSome, IsNone};
ghost use Rattle.wot_pattern.specs.Reading.{Atom};
ghost use Rattle.wot_pattern.specs.Nodes.{atom_of};
ghost use Rattle.wot_pattern.specs.Grammar.{AddsItems, Items, NoItems, Range, ReadsRange, first_item, item};
ghost use Rattle.wot_pattern.specs.declared.item.Item.{Item};
ghost use Rattle.wot_pattern.specs.declared.fault.PatternFault.TheVariants.{Unreadable};

use crate::fault::PatternFault;
use crate::item::Item;
use crate::node::Leaf;
use std::alloc::Global;

/// Reads the item at the beginning of a text. Returns it with its number of characters.
fn read_item(text: &[char]) -> Option<(Item, usize)>
    ensures some { IfSome result (λ read. item text.now ≡ Some (read.0, drop read.1 text.now)) }
    ensures within { IfSome result (λ read. (0 < read.1) × (read.1 ≤ length text.now)) }
    ensures none { IsNone result → item text.now ≡ None }
{
    match text {
        [] => None,
        [from, dash, to, ..] => {
            if *dash == '-' && *to != ']' {
                if *from <= *to {
                    Some((
                        Item {
                            from: *from,
                            to: *to,
                        },
                        3,
                    ))
                } else {
                    None
                }
            } else {
                Some((
                    Item {
                        from: *from,
                        to: *from,
                    },
                    1,
                ))
            }
        }
        [only, ..] => Some((
            Item {
                from: *only,
                to: *only,
            },
            1,
        )),
    }
}

/// Reads the first item of a bracket expression, in which a dash stands for itself.
fn read_first_item(text: &[char]) -> Option<(Item, usize)>
    ensures some { IfSome result (λ read. first_item text.now ≡ Some (read.0, drop read.1 text.now)) }
    ensures within { IfSome result (λ read. (0 < read.1) × (read.1 ≤ length text.now)) }
    ensures none { IsNone result → first_item text.now ≡ None }
{
    match text {
        ['-', ..] => Some((Item { from: '-', to: '-' }, 1)),
        _ => read_item(text),
    }
}

/// Reads the items after the first, up to the closing bracket. Returns the position after that.
fn read_items(items: &mut Vec<Item>, text: &[char], start: usize) -> Result<usize, PatternFault>
    requires { start ≤ length text.now }
    ensures read { IfOk result (λ end.
        AddsItems items.old.items items.new.items (drop start text.now) (drop end text.now)) }
    ensures within { IfOk result (λ end. (start < end) × (end ≤ length text.now)) }
    ensures unreadable { IfErr result (λ e. e ≡ Unreadable → (xs : List Item) (r : List ℕ)
        → Items (drop start text.now) xs r → ⊥) }
{
    let mut at = start;
    'items: while at < text.len() {
        if text[at] == ']' {
            return Ok(at + 1);
        }
        let Some((item, taken)) = read_item(&text[at..]) else {
            return Err(PatternFault::Unreadable);
        };
        items.push(item)?;
        at += taken;
    }
    Err(PatternFault::Unreadable)
}

/// Reads a bracket expression after its opening bracket and its caret, if any.
fn read_all_items(
    alloc: Global,
    text: &[char],
    start: usize,
    negated: bool,
) -> Result<(Leaf, usize), PatternFault>
    requires { start ≤ length text.now }
    ensures read { IfOk result (λ read.
        ReadsRange negated (drop start text.now) (atom_of read.0) (drop read.1 text.now)) }
    ensures within { IfOk result (λ read. (start < read.1) × (read.1 ≤ length text.now)) }
    ensures unreadable { IfErr result (λ e. e ≡ Unreadable → NoItems (drop start text.now)) }
{
    let Some((first, taken)) = read_first_item(&text[start..]) else {
        return Err(PatternFault::Unreadable);
    };
    let mut items = Vec::new(alloc);
    items.push(first)?;
    let end = read_items(&mut items, text, start + taken)?;
    Ok((Leaf::Range { negated, items }, end))
}

/// Reads a bracket expression after its opening bracket. Returns the position after the closing one.
pub fn read_range(alloc: Global, text: &[char], start: usize) -> Result<(Leaf, usize), PatternFault>
    requires { start ≤ length text.now }
    ensures read { IfOk result (λ read. Range (drop start text.now) (atom_of read.0) (drop read.1 text.now)) }
    ensures within { IfOk result (λ read. (start < read.1) × (read.1 ≤ length text.now)) }
    ensures unreadable { IfErr result (λ e. e ≡ Unreadable → (a : Atom) (r : List ℕ) → Range (drop start text.now) a r
        → ⊥) }
{
    if start < text.len() && text[start] == '^' {
        let (leaf, end) = read_all_items(alloc, text, start + 1, true)?;
        return Ok((leaf, end));
    }
    let (leaf, end) = read_all_items(alloc, text, start, false)?;
    Ok((leaf, end))
}
