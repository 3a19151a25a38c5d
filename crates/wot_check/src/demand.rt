//! Whether an edge may come at a place on a path: its demand, usability, scope and residual amount.
//!
//! It uses `wot_edge`, which tests demands, and `specs/Demand.antt`. It shares nothing else with the search.
ghost use Rattle.std.specs.Prelude.{◌≡◌, ℕ, List, IfOk};
ghost use Rattle.wot_edge.specs.Demand.{demand_of};
ghost use Rattle.wot_edge.specs.Record.{EachRow, Has, edges_into};
ghost use Rattle.wot_check.specs.Asked.{TellsEach, question_of, used_in};
ghost use Rattle.wot_check.specs.Demand.{is_in_scope, promises, may_stand};

use crate::asked::Asked;
use wot_edge::{Demand, Edge, EdgeFacts, Roads, demand_at, left_of_step, meets, step_from};
use wot_types::Memory;

/// What is demanded of edges with `size` edges after them.
pub fn demanded<R: Roads>(roads: &R, asked: &Asked, size: u8) -> Demand
    ensures { result ≡ demand_of (question_of (R.network roads.now) asked.now) size }
{
    demand_at(roads, asked.target, asked.uid, size)
}

fn offers(asked: &Asked, demand: Demand, edge: &EdgeFacts) -> bool
    ensures { result ≡ promises asked.now.target.now (used_in asked.now) demand edge.now }
{
    meets(asked.target, demand, edge) && left_of_step(asked.used, &step_from(edge)) > 0
}

/// Whether the scope of an edge holds if it has to.
fn holds<R: Roads>(roads: &R, asked: &Asked, demand: Demand, edge: &Edge) -> Result<bool, Memory>
    requires row { (id : List ℕ) → Has (edges_into (R.network roads.now id) edge.now.target) edge.now }
    ensures { IfOk result (λ holds. EachRow (R.network roads.now asked.now.uid.now) edge.now
        (λ row. is_in_scope demand row ≡ holds)) }
{
    match demand {
        Demand::On(_) => Ok(true),
        Demand::Before(_) => {
            let holds = roads.scope(edge, asked.uid)?;
            Ok(holds)
        }
    }
}

/// Whether an edge meets a demand, is usable, and has something left.
pub fn carries<R: Roads>(
    roads: &R,
    asked: &Asked,
    demand: Demand,
    edge: &Edge,
) -> Result<bool, Memory>
    requires row { (id : List ℕ) → Has (edges_into (R.network roads.now id) edge.now.target) edge.now }
    ensures { IfOk result (λ it. TellsEach (R.network roads.now) asked.now edge.now
        (λ target used. may_stand target used demand) it) }
{
    if !offers(asked, demand, &edge.facts()) || !roads.usable(edge) {
        return Ok(false);
    }
    holds(roads, asked, demand, edge)
}
