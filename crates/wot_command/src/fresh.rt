//! The law that a dump restores the state, line by line. It carries the promise of `Engine::dump` to whole lines, and
//! `listing` calls it.
ghost use Rattle.wot_policy.specs.declared.rows.PolicyRows.{PolicyRows};
ghost use Rattle.wot_cache.specs.State.{Engine};
ghost use Rattle.wot_plain.specs.Fresh.{DumpMakesAnew};

/// A law: the lines of a dump of an engine with the standard limits restore its state, by the contract of
/// `Engine::dump`.
pub fn dump_makes_the_state_anew()
    ensures { (rows : PolicyRows) (engine : Engine) → DumpMakesAnew rows engine }
{}
