//! A view: a time and trust roots. With it the errors of calls that name a view; wot_machine turns them into refusals.
ghost use Rattle.std.specs.Prelude.{◌≡◌};
ghost use Rattle.wot_cache.specs.declared.view.ViewFault.TheVariants as faults;

use wot_edge::Roots;
use wot_types::{Limit, Memory};

/// A point of view: a time in seconds since 1970, and trust roots with their amounts.
#[derive(Drop)]
pub struct View {
    pub time: u32,
    pub roots: Roots,
}

/// Why a view wasn't changed.
#[derive(Clone, Copy, Debug, PartialEq, Eq)]
pub enum ViewFault {
    /// The view isn't open.
    View,
    /// There is no such root to remove.
    Absent,
    /// This limit is reached.
    Full(Limit),
    /// Out of memory.
    Memory,
}

impl From<Memory> for ViewFault {
    ghost from_gives = { λ _ e. e ≡ faults.Memory };

    fn from(_: Memory) -> ViewFault {
        ViewFault::Memory
    }
}

/// The view isn't open.
#[derive(Clone, Copy, Debug, PartialEq, Eq)]
pub struct NoView;
