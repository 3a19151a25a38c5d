//! Laws of the definitions. Each function does nothing: its contract is the law. wot_network calls it to know that a
//! certificate's edges are sorted and complete.
ghost use Rattle.std.specs.Prelude.{ℕ};
ghost use Rattle.wot_verdict.specs.Verdicts.{Entries};
ghost use Rattle.wot_component.specs.Certificate.{Certificate};
ghost use Rattle.wot_standing.specs.Standing.{own};
ghost use Rattle.wot_live.specs.Found.{FoundAreAll};
ghost use Rattle.wot_live.specs.Rows.{AreInto, AreRows, edges_of};
ghost use Rattle.wot_live.specs.SelfCertified.{IsPrimary};

use wot_cert::Cert;
use wot_standing::laws::certifications_count;

/// The edges into a certificate are sorted by issuer and user ID, and are exactly the edges of each issuer and user ID.
pub fn edges_are_rows()
    ensures rows { (verdicts : Entries) (c : Certificate) (t : ℕ) → AreRows verdicts c t (edges_of verdicts c t) }
    ensures into { (verdicts : Entries) (c : Certificate) (t : ℕ) → AreInto (own c) (edges_of verdicts c t) }
{
    certifications_count();
}

/// The edges of the newest certifications that are found are all edges into the certificate.
pub(crate) fn found_are_edges()
    ensures all { (verdicts : Entries) (c : Certificate) (t : ℕ) → FoundAreAll verdicts c t }
{
    certifications_count();
}

/// The primary self-certification of this certificate is the greatest of those that make its edges.
pub(crate) fn self_edges(cert: &Cert)
    ensures primary { (verdicts : Entries) (t : ℕ) → IsPrimary verdicts cert.now t }
{
    certifications_count();
    let _ = cert.user_ids().len();
}
