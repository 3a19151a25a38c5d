//! Laws of key bodies. Each function does nothing: its contract is the law. They use the definitions alone; a new
//! version of keys has to keep them.
ghost use Rattle.std.specs.Prelude.{◌≡◌, ℕ, List};
ghost use Rattle.wot_key.specs.Key.{fingerprint_of, key_of, version_in};
ghost use Rattle.wot_key.specs.VersionFour.{fingerprint_v4, key_v4};

/// A body that begins with the octet 4 is read as it was before version 6: the same bodies are readable, with the same
/// facts and the same fingerprint.
#[tactic(auto, unfolding(crate::specs::Key::fpr_of, crate::specs::Key::v4_digest))]
pub fn version_four_is_read_alone()
    ensures key { (body : List ℕ) → version_in body ≡ 4 → key_of body ≡ key_v4 body }
    ensures fingerprint { (body : List ℕ) → version_in body ≡ 4 → fingerprint_of body ≡ fingerprint_v4 body }
{}
