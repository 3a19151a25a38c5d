//! Makes a view's table of reach in parts, next to the searches that pay for it. It uses `budget` and on
//! wot_search's `Making`, and keeps the progress in `answers`.
ghost use Rattle.std.specs.Prelude.{◌≡◌, IfOk, IfSome};
ghost use Rattle.wot_network.specs.Net.{network_for};
ghost use Rattle.wot_network.specs.Roads.{present_of};
ghost use Rattle.wot_reach.specs.Making.{IsMaking};
ghost use Rattle.wot_answers.specs.Answers.{AreRightIn};
ghost use Rattle.wot_answers.specs.Question.{present_in};
ghost use Rattle.wot_answers.specs.Asked.{AreSettled};

use crate::answers::Answers;
use crate::parts::Parts;
use std::alloc::Global;
use wot_keyring::Keyring;
use wot_search::Making;
use wot_types::{Fpr, Memory};

/// The least number of looks for which the making of a table is continued.
const LEAST: u64 = 4096;

/// The primary fingerprints of the keyring's certificates.
pub fn fprs_of(alloc: Global, keyring: &Keyring) -> Result<Vec<Fpr>, Memory> {
    let mut fprs = Vec::new(alloc);
    for cert in keyring.certs() {
        fprs.push(cert.fpr())?;
    }
    Ok(fprs)
}

/// A making, taken further by `looks` looks. A new one is begun if there is none.
fn advanced(
    alloc: Global,
    parts: &Parts<'_>,
    taken: Option<Making>,
    looks: u64,
) -> Result<Making, Memory>
    requires present { present_of parts.now.roads ≡ present_in parts.now }
    requires taken { IfSome taken (IsMaking (network_for (present_in parts.now)) parts.now.roots.now) }
    ensures making { IfOk result (IsMaking (network_for (present_in parts.now)) parts.now.roots.now) }
{
    match taken {
        Some(making) => making.advanced(alloc, &parts.roads, parts.roots, looks),
        None => {
            let fprs = fprs_of(alloc, parts.keyring)?;
            Ok(Making::Begun(fprs))
        }
    }
}

/// Continues the making of the view's table of reach by `looks` looks, unless memory runs out.
fn make_more(alloc: Global, of_view: &mut Answers, parts: &Parts<'_>, looks: u64)
    requires present { present_of parts.now.roads ≡ present_in parts.now }
    requires settled { AreSettled parts.now of_view.old }
    ensures right { AreRightIn parts.now.keyring.now of_view.new }
    ensures kept { of_view.new.entries ≡ of_view.old.entries }
{
    let taken = of_view.take_making(parts);
    match advanced(alloc, parts, taken, looks) {
        Ok(making) => of_view.keep_making(parts, making),
        Err(Memory) => {}
    }
}

/// Subtracts `looked` looks from the view's budget. Once the budget is spent, each call also makes as much of the table
/// as was looked at. So a question takes about twice its search, and a table costs about as much as the searches next
/// to it.
pub fn spend(alloc: Global, of_view: &mut Answers, parts: &Parts<'_>, looked: u64)
    requires present { present_of parts.now.roads ≡ present_in parts.now }
    requires settled { AreSettled parts.now of_view.old }
    ensures right { AreRightIn parts.now.keyring.now of_view.new }
    ensures kept { of_view.new.entries ≡ of_view.old.entries }
{
    let left = of_view.looks(parts);
    if left > 0 {
        of_view.leave_looks(parts, left.saturating_sub(looked));
    } else {
        make_more(alloc, of_view, parts, looked.max(LEAST));
    }
}
