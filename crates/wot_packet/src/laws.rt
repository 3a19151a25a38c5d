//! Laws of the framing. Each function does nothing: its contract is the law, and the crates above cite it by a call.
//! They use `specs/Spelling.antt`, `specs/Reading.antt` and `specs/Writing.antt`.
ghost use Rattle.std.specs.Prelude.{◌≡◌, ◌<◌, ◌^◌, ◌⊎◌, ◌↔◌, ℕ, List, Ok, Err};
ghost use Rattle.wot_packet.specs.Header.{IsOpenpgpHeader};
ghost use Rattle.wot_packet.specs.Reading.{packets_of};
ghost use Rattle.wot_packet.specs.Spelling.{AreOctets, HasFault, IsFirstFault, Spelled, Spells, SpellsBoth, SpellsSome};
ghost use Rattle.wot_packet.specs.Writing.{AllCanBeWritten, CanBeWritten, IsNoShorter, SpellsBefore};
ghost use Rattle.wot_packet.specs.Writing.{placed, shortest_header, written_all};
ghost use Rattle.wot_packet.specs.declared.packet.PacketFault.{PacketFault};

/// A text spells at most one list of packets.
pub fn one_list()
    ensures { (text : List ℕ) (packets others : List Spelled) →
        Spells text packets → Spells text others → packets ≡ others }
{}

/// A text has at most one first fault.
pub fn one_fault()
    ensures { (text : List ℕ) (fault other : PacketFault) →
        IsFirstFault text fault → IsFirstFault text other → fault ≡ other }
{}

/// A text spells a list of packets or has a first fault, and never both.
pub fn list_or_fault()
    ensures either { (text : List ℕ) → AreOctets text → SpellsSome text ⊎ HasFault text }
    ensures never_both { (text : List ℕ) (packets : List Spelled) (fault : PacketFault) →
        Spells text packets → IsFirstFault text fault → ⊥ }
{}

/// The concatenation of two texts spells the concatenation of their lists.
pub fn joined()
    ensures { (text more : List ℕ) (packets others : List Spelled)
        → Spells text packets → SpellsBoth text more packets others }
{}

/// A packet that is written in front of a text is spelled in front of that text's list.
pub fn written_first()
    ensures { (kind : ℕ) (body text : List ℕ) (packets : List Spelled)
        → CanBeWritten kind body → SpellsBefore kind body text packets }
{}

/// Packets that are written one after another are spelled in that order, and read back.
pub fn written_back()
    ensures spelled { (packets : List (ℕ × List ℕ)) → AllCanBeWritten packets
        → Spells (written_all packets) (placed 0 packets) }
    ensures reader { (packets : List (ℕ × List ℕ)) → AllCanBeWritten packets
        → packets_of (written_all packets) ≡ Ok (placed 0 packets) }
{}

/// A written packet has the shortest header in the OpenPGP format: every other one is longer.
pub fn shortest()
    ensures is_header { (kind size : ℕ) → kind < 64 → size < 2 ^ 32 →
        IsOpenpgpHeader (shortest_header kind size) kind size }
    ensures least { (header : List ℕ) (kind size : ℕ)
        → AreOctets header → IsOpenpgpHeader header kind size → IsNoShorter header kind size }
{}

/// The plain reader of the definitions returns what a text spells, or its first fault.
pub fn plain_reader()
    ensures lists { (text : List ℕ) (packets : List Spelled) → AreOctets text →
        ((packets_of text ≡ Ok packets) ↔ Spells text packets) }
    ensures faults { (text : List ℕ) (fault : PacketFault) → AreOctets text →
        ((packets_of text ≡ Err fault) ↔ IsFirstFault text fault) }
{}
