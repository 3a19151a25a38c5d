//! Why a question has no answer. wot_machine turns it into a refusal.

/// Why there is no answer.
#[derive(Clone, Copy, Debug, PartialEq, Eq)]
pub enum AskFault {
    /// The view isn't open.
    View,
    /// Out of memory.
    Memory,
}
