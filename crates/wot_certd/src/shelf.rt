//! The trait `Shelf`: how entries of a certificate directory are read and replaced.
//!
//! It uses `specs/World.antt` and `specs/Shelf.antt`. `FolderShelf` and `MemoryShelf` implement it, and
//! `wot_machine` calls it. The longest entry is set here; `docs/PROTOCOL.md` states that limit.
ghost use Rattle.std.specs.Prelude.{◌≤◌, ℕ, Option, IfOk, IfSome, IsErrOf};
ghost use Rattle.wot_io.specs.Counts.{Rose};
ghost use Rattle.wot_certd.specs.World.{World, called, fails_next, read_answer};
ghost use Rattle.wot_certd.specs.Shelf.{FitsEntry, ReadReturns, ReplaceReturns, Becomes, Replaces};

use wot_types::Name;

/// The most octets of an entry that can be read.
pub const LONGEST: usize = 8_388_608;

/// What a read of a name found.
#[derive(Drop)]
pub enum Given {
    /// The octets of the entry.
    Bytes(Vec<u8>),
    /// There is no such entry.
    Absent,
    /// The entry has more than 8,388,608 octets.
    Long,
}

/// Why a call failed.
#[derive(Clone, Copy, Debug, PartialEq, Eq)]
pub enum ShelfFault {
    /// The directory failed.
    Failed,
    /// Out of memory.
    Memory,
}

/// A certificate directory, whose entries can be read and replaced.
pub trait Shelf {
    /// The entries, the number of calls so far, and which calls fail, if the directory shows them to contracts.
    ghost world: { Self → Option World };

    /// How often the directory failed. The count stays at its last value.
    ghost faults: { Self → ℕ };

    /// Reads the entry under a name. No entry changes.
    fn read(&mut self, name: &Name) -> Result<Given, ShelfFault>
        ensures within { IfOk result (λ given. FitsEntry given) }
        ensures answers { IfSome (world self.old) (λ old. ReadReturns result (read_answer old name.now)) }
        ensures after { Becomes (world self.old) called (world self.new) }
        ensures later { faults self.old ≤ faults self.new }
        ensures cause { IsErrOf result ShelfFault.Failed → Rose (faults self.old) (faults self.new) };

    /// Stores these octets under a name, in place of the old entry. After `Failed` they are stored if and only if the
    /// call is one of the late ones. After `Memory` they may be.
    fn replace(&mut self, name: &Name, bytes: &[u8]) -> Result<(), ShelfFault>
        ensures answers { IfSome (world self.old) (λ old. ReplaceReturns result (fails_next old)) }
        ensures after { Replaces (world self.old) name.now bytes.now result (world self.new) }
        ensures later { faults self.old ≤ faults self.new }
        ensures cause { IsErrOf result ShelfFault.Failed → Rose (faults self.old) (faults self.new) };
}
