//! Why a text couldn't be parsed as a regular expression. `wot_scope` takes a malformed one as one that matches
//! nothing.
ghost use Rattle.std.specs.Prelude.{◌≡◌};
ghost use Rattle.wot_pattern.specs.declared.fault.PatternFault.TheVariants.{Memory};

use std::alloc::{AllocError, AllocFailed};

/// Why a text couldn't be parsed.
#[derive(Clone, Copy, Debug, PartialEq, Eq)]
pub enum PatternFault {
    /// The text isn't a regular expression of RFC 9580, or exceeds a limit.
    Unreadable,
    /// Out of memory.
    Memory,
}

impl From<AllocError> for PatternFault {
    ghost from_gives = { λ _ e. e ≡ Memory };

    fn from(_: AllocError) -> PatternFault {
        PatternFault::Memory
    }
}

impl<T: Drop> From<AllocFailed<T>> for PatternFault {
    ghost from_gives = { λ _ e. e ≡ Memory };

    fn from(_: AllocFailed<T>) -> PatternFault {
        PatternFault::Memory
    }
}
