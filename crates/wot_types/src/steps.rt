//! The count of the edges that were made, which benches and tests read to see how much was computed again. It uses
//! nothing, and no reply depends on it.
ghost use Rattle.std.specs.Prelude.{◌≡◌};

/// Counts how many edges were computed.
#[derive(Debug, Drop, PartialEq, Eq)]
pub struct Steps {
    /// How many so far. The count stays at `u64::MAX`.
    pub made: u64,
}

impl Steps {
    /// A count of zero.
    pub fn new() -> Steps
        ensures none { result.made ≡ 0 }
    {
        Steps { made: 0 }
    }
}
