//! A law of certifications. The function does nothing: its contract is the law, which crates above cite by a call. It
//! uses `specs/Standing.antt`.
ghost use Rattle.std.specs.Prelude.{ℕ};
ghost use Rattle.wot_verdict.specs.Verdicts.{Entries};
ghost use Rattle.wot_standing.specs.Standing.{OnlyCounted};

/// An issuer with no counting signature on a user ID has no certification there.
pub fn certifications_count()
    ensures only { (verdicts : Entries) (t : ℕ) → OnlyCounted verdicts t }
{}
