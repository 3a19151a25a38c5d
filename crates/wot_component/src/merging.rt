//! Merges two sorted lists into an empty one: lists of signatures, and lists of components. `sig` and `part` say what
//! one item is: its order, its copy, and what two items of one rank become.
//!
//! It uses `specs/Ranked.antt`.
ghost use Rattle.std.specs.Prelude.{◌≡◌, OnOk, IfOk, [], ◌∷◌, ◌++◌};
ghost use Rattle.std.specs.Cmp.{IsTotalOrder};
ghost use Rattle.std.specs.declared.cmp.Ordering.{Ordering as TheOrdering};
ghost use Rattle.wot_component.specs.Ranked.{united, IsRising, KeepsRank};

use std::alloc::Global;
use std::cmp::Ordering;
use wot_types::Memory;

/// An item of sorted lists.
pub(crate) trait Ranked: Drop {
    /// The order of items. Two are of one rank if it says that they are equal.
    ghost rank: { Self → Self → TheOrdering };

    /// What two items of one rank become.
    ghost join: { Self → Self → Self };

    /// Compares two items.
    fn against(&self, other: &Self) -> Ordering
        ensures { result ≡ rank self.now other.now };

    /// A copy.
    fn again(&self, alloc: Global) -> Result<Self, Memory>
        ensures { IfOk result (λ made. made ≡ self.now) };

    /// A new item that is both of one rank.
    fn joined(&self, alloc: Global, other: &Self) -> Result<Self, Memory>
        ensures { IfOk result (λ made. made ≡ join self.now other.now) };
}

fn push_again<T: Ranked>(alloc: Global, out: &mut Vec<T>, item: &T) -> Result<(), Memory>
    ensures { OnOk result (out.new.items ≡ out.old.items ++ item.now ∷ []) }
{
    let made = item.again(alloc)?;
    out.push(made)?;
    Ok(())
}

fn push_joined<T: Ranked>(alloc: Global, out: &mut Vec<T>, a: &T, b: &T) -> Result<(), Memory>
    ensures { OnOk result (out.new.items ≡ out.old.items ++ T.join a.now b.now ∷ []) }
{
    let made = a.joined(alloc, b)?;
    out.push(made)?;
    Ok(())
}

fn push_all<T: Ranked>(alloc: Global, out: &mut Vec<T>, items: &[T]) -> Result<(), Memory>
    ensures { OnOk result (out.new.items ≡ out.old.items ++ items.now) }
{
    let mut rest = items;
    'rest: while let Some((item, others)) = rest.split_first() {
        push_again(alloc, out, item)?;
        rest = others;
    }
    Ok(())
}

/// Puts two sorted lists, merged, into an empty one.
pub(crate) fn put_merged<T: Ranked>(
    alloc: Global,
    out: &mut Vec<T>,
    a: &[T],
    b: &[T],
) -> Result<(), Memory>
    requires total { IsTotalOrder T.rank }
    requires keeps { KeepsRank T.rank T.join }
    requires empty { out.old.items ≡ [] }
    requires a { IsRising T.rank a.now }
    requires b { IsRising T.rank b.now }
    ensures union { OnOk result (out.new.items ≡ united T.rank T.join a.now b.now) }
    ensures rises { OnOk result (IsRising T.rank out.new.items) }
{
    let mut left = a;
    let mut right = b;
    'walk: while let Some((x, xs)) = left.split_first() {
        let Some((y, ys)) = right.split_first() else {
            push_all(alloc, out, left)?;
            return Ok(());
        };
        match x.against(y) {
            Ordering::Less => {
                push_again(alloc, out, x)?;
                left = xs;
            }
            Ordering::Equal => {
                push_joined(alloc, out, x, y)?;
                left = xs;
                right = ys;
            }
            Ordering::Greater => {
                push_again(alloc, out, y)?;
                right = ys;
            }
        }
    }
    push_all(alloc, out, right)?;
    Ok(())
}
