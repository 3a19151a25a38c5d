//! A law of the definition of a list of subpackets. The function does nothing: its contract is the law, which proofs of
//! the crates above cite by a call.
ghost use Rattle.std.specs.Prelude.{◌≡◌, ◌≤◌, ℕ, List, [], ◌∷◌, length, Ok};
ghost use Rattle.wot_subpacket.specs.Area.{first_of, spelled, subpackets_of, then_read};

/// A list of subpackets is empty, or it is the first subpacket and the list that follows. The definition recurs on a
/// bound, and the bound doesn't matter: every bound of at least the number of octets yields this list.
pub fn reading_has_no_bound()
    ensures nothing { subpackets_of [] ≡ Ok [] }
    ensures first { (o : ℕ) (octets : List ℕ)
        → subpackets_of (o ∷ octets) ≡ then_read (first_of (o ∷ octets)) subpackets_of }
    ensures any_bound { (most : ℕ) (octets : List ℕ) → length octets ≤ most
        → spelled most octets ≡ subpackets_of octets }
{}
