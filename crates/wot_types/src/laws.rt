//! Laws of fingerprints, on `specs/Fpr.antt` and `specs/FprOrder.antt`. Each function does nothing: its contract is the
//! law. No code calls them; proofs of the crates above cite the order's facts from `specs/FprLaws.antt`.
ghost use Rattle.std.specs.Prelude.{◌≡◌, ◌↔◌, ℕ, List, Some, IsTrue};
ghost use Rattle.std.specs.Cmp.{IsTotalOrder};
ghost use Rattle.hex.specs.Hex.{encode_lower};
ghost use Rattle.wot_types.specs.Digits.{array_of_digits};
ghost use Rattle.wot_types.specs.Fpr.{digits_of, fpr_cmp, fpr_of_digits, same_fpr};
ghost use Rattle.wot_types.specs.declared.fpr.Fpr.{Fpr};

/// The order of fingerprints is total, and two fingerprints that tie in it are equal.
pub fn fingerprints_tie_where_equal()
    ensures total { IsTotalOrder fpr_cmp }
    ensures tied { (a b : Fpr) → IsTrue (same_fpr a b) ↔ a ≡ b }
{}

/// Version 6 changes nothing for version 4: its fingerprints, and no others, are read from 40 digits and printed as 40.
pub fn forty_digits_are_of_version_4()
    ensures read { (digits octets : List ℕ) → array_of_digits 20 digits ≡ Some octets
        → fpr_of_digits digits ≡ Some (Fpr.V4 octets) }
    ensures only { (digits octets : List ℕ) → fpr_of_digits digits ≡ Some (Fpr.V4 octets)
        → array_of_digits 20 digits ≡ Some octets }
    ensures printed { (octets : List ℕ) → digits_of (Fpr.V4 octets) ≡ encode_lower octets }
{}
