//! Undoing a merge in place. Nothing here takes memory, so it can't fail.
//!
//! It uses `growth` and `specs/Growing.antt`. `wot_keyring` calls it, through `Cert::shrink`, if a later part
//! of an import fails.
ghost use Rattle.std.specs.Prelude.{◌≡◌};
ghost use Rattle.std.specs.List.{remove};
ghost use Rattle.wot_component.specs.Growing.{without_all, step_back, parts_back};

use crate::growth::PartStep;
use crate::{Part, Sig};

/// Removes the item at a place, if there is one.
fn take_out<T: Drop>(items: &mut Vec<T>, at: usize)
    ensures { items.new.items ≡ remove items.old.items at }
{
    if at < items.len() {
        let _ = items.remove(at);
    }
}

/// Removes what was inserted at these places, the last one first.
pub fn take_sigs_back(sigs: &mut Vec<Sig>, mut log: Vec<usize>)
    ensures { sigs.new.items ≡ without_all log.items sigs.old.items }
{
    'log: while let Some(at) = log.pop() {
        take_out(sigs, at);
    }
}

fn take_step_back(parts: &mut Vec<Part>, step: PartStep)
    ensures { parts.new.items ≡ step_back step parts.old.items }
{
    match step {
        PartStep::New(at) => take_out(parts, at),
        PartStep::Grown(at, log) => {
            if at < parts.len() {
                let part = &mut parts[at];
                part.take_back(log);
            }
        }
    }
}

/// Undoes steps on components, the last one first.
pub fn take_parts_back(parts: &mut Vec<Part>, mut log: Vec<PartStep>)
    ensures { parts.new.items ≡ parts_back log.items parts.old.items }
{
    'log: while let Some(step) = log.pop() {
        take_step_back(parts, step);
    }
}
