//! Laws of signature bodies. Each function does nothing: its contract is the law.
//!
//! They use the definitions alone. A change to how a version is read has to keep them.
ghost use Rattle.std.specs.Prelude.{◌≡◌, ◌∷◌, ℕ, List};
ghost use Rattle.wot_signature.specs.Signature.{facts_of, hint_of, scopes_of};
ghost use Rattle.wot_signature.specs.VersionFour.{NamesNoV6, facts_v4, hint_v4, scopes_v4};

/// A body that begins with the octet 4 is read as it was before version 6: the same bodies can be parsed, with the same
/// facts. The one difference is an issuer fingerprint of version 6 among its hashed subpackets: it was unknown, and now
/// names the issuer.
pub fn facts_of_version_four()
    ensures facts { (rest : List ℕ) → NamesNoV6 (4 ∷ rest) → facts_of (4 ∷ rest) ≡ facts_v4 (4 ∷ rest) }
{}

/// Its regular expressions are read as they were, whatever issuers it names.
pub fn scopes_of_version_four()
    ensures scopes { (rest : List ℕ) → scopes_of (4 ∷ rest) ≡ scopes_v4 (4 ∷ rest) }
{}

/// So is the key ID of its issuer.
pub fn hint_of_version_four()
    ensures hint { (rest : List ℕ) → hint_of (4 ∷ rest) ≡ hint_v4 (4 ∷ rest) }
{}
