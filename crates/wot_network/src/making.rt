//! Makes the line of one certificate from wot_live's edges and the standing that they give. `refreshing` calls it for
//! each stale certificate, and it is the only place where edges of the network are made.
ghost use Rattle.std.specs.Prelude.{◌<◌, ◌≤◌, ◌+◌, ◌^◌, min, length, IfOk, OnOk};
ghost use Rattle.wot_component.specs.Counts.{signatures_of};
ghost use Rattle.wot_component.specs.Text.{size_of};
ghost use Rattle.wot_live.specs.Rows.{edges_of};
ghost use Rattle.wot_network.specs.Refreshing.{IsMade};

use crate::line::NetLine;
use std::alloc::Global;
use wot_cert::Cert;
use wot_live::{rows, standing_by_edges};
use wot_types::{Memory, Steps};
use wot_verdict::Verdicts;

/// The line of a certificate with this stamp at `t`.
pub(crate) fn make(
    alloc: Global,
    cert: &Cert,
    verdicts: &Verdicts,
    stamp: u64,
    t: u32,
    steps: &mut Steps,
) -> Result<NetLine, Memory>
    requires size { size_of cert.now < 2 ^ 32 }
    ensures made { IfOk result (λ line. IsMade verdicts.now.entries cert.now stamp t line) }
    ensures made_least { OnOk result
        (min (steps.old.made + length (edges_of verdicts.now.entries cert.now t)) u64.MAX ≤ steps.new.made) }
    ensures made_most { steps.new.made ≤ steps.old.made + signatures_of cert.now }
    ensures never_less { steps.old.made ≤ steps.new.made }
{
    let (rows, span) = rows(alloc, cert, verdicts, t, steps)?;
    let standing = standing_by_edges(cert, verdicts, t, &rows.edges);
    Ok(NetLine {
        stamp,
        edges: rows.edges,
        standing,
        revoked: rows.revoked,
        span,
    })
}
