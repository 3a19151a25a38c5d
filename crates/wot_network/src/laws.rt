//! Laws of the definitions. Each function does nothing: its contract is the law. They carry the facts about a whole
//! record (sorted, local, resting on trust signatures) from the definitions to the crates that use them: wot_answers,
//! wot_cache and wot_laws.
ghost use Rattle.std.specs.Prelude.{◌≤◌, ◌↔◌, ℕ, List, IsTrue};
ghost use Rattle.wot_verdict.specs.Verdicts.{Entries};
ghost use Rattle.wot_component.specs.Certificate.{Component};
ghost use Rattle.wot_edge.specs.declared.edge.EdgeFacts.{EdgeFacts as TheEdge};
ghost use Rattle.wot_edge.specs.Record.{IsRecord};
ghost use Rattle.wot_keyring_spec.specs.Keyring.{Certificates, Keyring};
ghost use Rattle.wot_keyring_spec.specs.Later.{IsLater};
ghost use Rattle.wot_network.specs.Certified.{RestsOnCertifications, RestsOnTrust};
ghost use Rattle.wot_network.specs.Local.{IsLocal};
ghost use Rattle.wot_network.specs.Net.{Marks, Net, Fits, signatures_in, stale_signatures};
ghost use Rattle.wot_network.specs.Standings.{DecideStandings, DecideUserIds};
ghost use Rattle.wot_network.specs.Records.{AreOwn, IsInScope, TellsRows, is_in_scope, record_of};

use wot_edge::laws::entries_are_record;
use wot_live::laws::edges_are_rows;
use wot_scope::laws::scope_is_told;

/// A network that fits a keyring fits every later one.
pub fn fits_later()
    ensures later { (n : Net) (old new : Keyring) → Fits n old → IsLater old new → Fits n new }
{}

/// The stale certificates have at most as many signatures as all certificates.
pub fn stale_are_some()
    ensures some { (marks : Marks) (t : ℕ) (k : Keyring) → stale_signatures marks t k ≤ signatures_in k }
{}

/// The edges that certificates under their own fingerprints make form a record, whose rows are sorted by issuer and
/// user ID.
pub fn record_is_lawful()
    ensures ordered { (certs : Certificates) (verdicts : Entries) (t : ℕ) (u : List ℕ) → AreOwn certs
        → TellsRows certs verdicts t u }
    ensures lawful { (certs : Certificates) (verdicts : Entries) (t : ℕ) (u : List ℕ) → AreOwn certs
        → IsRecord (record_of certs verdicts t u) }
{
    entries_are_record();
    edges_are_rows();
}

/// An edge is in scope for a user ID exactly if it has no scope, or the scope of its signature holds for the user ID.
pub fn scopes_are_decided()
    ensures exact { (uids : List Component) (u : List ℕ) (edge : TheEdge)
        → IsTrue (is_in_scope uids u edge) ↔ IsInScope uids u edge }
{
    scope_is_told();
}

/// What certificates and verdicts make of a set of fingerprints depends only on the certificates of the set and on the
/// verdicts on their signatures.
pub fn records_agree()
    ensures local { (certs : Certificates) (verdicts : Entries) (t : ℕ)
        → IsLocal certs verdicts t (record_of certs verdicts t) }
{}

/// An edge leads to a certificate that its issuer certified, and one with a depth of at least 1 to a certificate that
/// its issuer certified with such a depth. These certifications are found without regard to times, policy or
/// revocations.
pub fn edges_rest_on_trust()
    ensures made { (certs : Certificates) (verdicts : Entries) (t : ℕ) (u : List ℕ)
        → RestsOnCertifications certs verdicts t u }
    ensures trust { (certs : Certificates) (verdicts : Entries) (t : ℕ) (u : List ℕ) → RestsOnTrust certs verdicts t u }
{}

/// What verdicts give one certificate depends on the verdicts on its signatures alone: the standing of its key, and on
/// each user ID what counts and what is revoked.
pub fn own_verdicts_decide()
    ensures standings { DecideStandings }
    ensures user_ids { DecideUserIds }
{}
