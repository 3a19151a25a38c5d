//! The reply to `explain`: the word for the certificate, and a line for each certification on the user ID. It uses
//! wot_explain over the parts that a view sees. `specs/Listing.antt` of wot_plain defines what its lines say,
//! and `specs/EdgeLines.antt` which of them say `edge`.
ghost use Rattle.std.specs.Prelude.{◌≡◌, map, IfOk, OnOk};
ghost use Rattle.wot_network.specs.Net.{network_for};
ghost use Rattle.wot_network.specs.Roads.{present_of};
ghost use Rattle.wot_cache.specs.Marks.{IsRefreshed};
ghost use Rattle.wot_cache.specs.State.{state_of};
ghost use Rattle.wot_cache.specs.Views.{view_at};
ghost use Rattle.wot_explain.specs.Usable.{AreRoadsOf};
ghost use Rattle.wot_command.specs.EdgeLines.{EdgesAreTold, MarksFrom};
ghost use Rattle.wot_plain.specs.Listing.{Explains, explained_from, reason_line as reason_line_of};

use std::alloc::Global;
use wot_cache::{Engine, Parts};
use wot_explain::Reason;
use wot_plain::{Refused, reply_to};
use wot_script::{ReasonLine, ReasonLines, Reply};
use wot_types::{Fpr, Memory, Steps, ViewName};

/// The reply to `explain`: why a certificate is or isn't usable for a user ID, and why each certification on it counts
/// or doesn't, at the time of a view. Refused if the view isn't open, and absent if the certificate or the user ID is.
pub fn explain(
    alloc: Global,
    engine: &mut Engine,
    steps: &mut Steps,
    view: &ViewName,
    fpr: &Fpr,
    uid: &[u8],
) -> Result<Reply, Memory>
    ensures explains { IfOk result (λ reply.
        reply ≡ explained_from (state_of engine.old) (view_at engine.old.views view.now) fpr.now uid.now) }
    // A line of the reply says `edge` exactly for each usable edge, by the definition of edges alone.
    ensures edges { OnOk result (MarksFrom engine.old view.now fpr.now uid.now) }
    ensures keyring { engine.new.keyring ≡ engine.old.keyring }
    ensures views { engine.new.views ≡ engine.old.views }
    ensures refreshed { IsRefreshed result view.now engine.old engine.new steps.old.made steps.new.made }
{
    match engine.parts(view, steps) {
        Ok(parts) => explain_from(alloc, &parts, fpr, uid),
        Err(fault) => reply_to(Refused::from(fault)),
    }
}

/// The reply over the parts of the view.
fn explain_from(alloc: Global, parts: &Parts<'_>, fpr: &Fpr, uid: &[u8]) -> Result<Reply, Memory>
    requires present { AreRoadsOf (network_for (present_of parts.now.roads)) parts.now.keyring.now parts.now.t }
    ensures explains { IfOk result (Explains parts.now.keyring.now parts.now.t fpr.now uid.now) }
    ensures edges { OnOk result (EdgesAreTold parts.now.keyring.now parts.now.t fpr.now uid.now) }
{
    match wot_explain::explain(alloc, parts.keyring, &parts.roads, parts.t, fpr, uid) {
        Ok(explained) => {
            let lines = reason_lines(alloc, explained.certs.as_slice())?;
            Ok(Reply::Explained(explained.target, lines.items().len() as u64, lines))
        }
        Err(fault) => reply_to(Refused::from(fault)),
    }
}

fn reason_line(reason: &Reason) -> ReasonLine
    ensures line { result ≡ reason_line_of reason.now }
{
    let (number, word, step) = reason;
    match step {
        Some(step) => ReasonLine::Edge(*number, step.issuer, step.depth, step.amount),
        None => ReasonLine::Word(*number, *word),
    }
}

/// A line for each of these certifications.
fn reason_lines(alloc: Global, reasons: &[Reason]) -> Result<ReasonLines, Memory>
    ensures lines { IfOk result (λ lines. lines ≡ map reason_line_of reasons.now) }
{
    let mut lines = ReasonLines::new(alloc);
    let mut left = reasons;
    'reasons: while let Some((reason, others)) = left.split_first() {
        lines.push(reason_line(reason))?;
        left = others;
    }
    Ok(lines)
}
