//! Laws of certificates. Each function does nothing: its contract is the law, and the crates above cite it by a call.
//! They use `specs/Certificate.antt` and the definitions that it names.
ghost use Rattle.std.specs.Prelude.{◌≡◌, ◌≤◌, ◌+◌, ℕ, List};
ghost use Rattle.std.specs.List.{AllByRecursion};
ghost use Rattle.wot_packet.specs.Spelling.{AreShort, Spelled};
ghost use Rattle.wot_policy.specs.declared.rows.PolicyRows.{PolicyRows};
ghost use Rattle.wot_cert.specs.Assembly.{bare, certificates_of};
ghost use Rattle.wot_cert.specs.Both.{AreOfBoth, HasSig, IsOfBoth};
ghost use Rattle.wot_component.specs.Certificate.{Certificate, unite, unmarked};
ghost use Rattle.wot_component.specs.Counts.{items_of, signatures_of};
ghost use Rattle.wot_component.specs.Judged.{IsJudged, judged, sound_of};
ghost use Rattle.wot_cert.specs.ReadBack.{ReadBack};
ghost use Rattle.wot_component.specs.Text.{size_of, text_of};
ghost use Rattle.wot_component.specs.Whole.{IsCertificate, OfAnyThree, OfTwoOfOneKey};

use wot_packet::laws::written_back;

/// The text of a certificate is read back as exactly this certificate, without marks.
pub fn read_back()
    ensures { (c : Certificate) → IsCertificate c → ReadBack c }
{
    written_back();
}

/// From packets with short bodies come certificates whose keys can be parsed, whose lists are sorted, and whose
/// signatures have the numbers of their places and no marks.
pub fn assembled()
    ensures whole { (packets : List Spelled) → AreShort packets
        → AllByRecursion IsCertificate (certificates_of packets) }
    ensures unmarked { (packets : List Spelled)
        → AllByRecursion (λ (c : Certificate). unmarked c ≡ c) (certificates_of packets) }
{}

/// Two merged certificates of one key are a certificate of that key, and so is each with other marks.
pub fn united_whole()
    ensures united { OfTwoOfOneKey (λ a b. IsCertificate (unite a b)) }
    ensures unmarked { (c : Certificate) → IsCertificate c → IsCertificate (unmarked c) }
    ensures judged { (rows : PolicyRows) (c : Certificate) → IsCertificate c → IsCertificate (judged rows c) }
{}

/// A certificate merged with nothing is itself.
pub fn united_with_nothing()
    ensures first { (c : Certificate) → IsCertificate c → unite (bare c.key) c ≡ c }
    ensures last { (c : Certificate) → unite c (bare c.key) ≡ c }
{}

/// If a merge adds nothing to the first certificate, the result is that certificate, marks included.
pub fn nothing_added()
    ensures items { (a b : Certificate) → items_of (unite a b) ≡ items_of a → unite a b ≡ a }
    ensures sizes { (a b : Certificate) → size_of (unite a b) ≡ size_of a → unite a b ≡ a }
{}

/// A merge loses nothing of the first certificate, and its text and its signatures are no more than those of both.
pub fn united_grows()
    ensures items { (a b : Certificate) → items_of a ≤ items_of (unite a b) }
    ensures signatures { (a b : Certificate) → signatures_of a ≤ signatures_of (unite a b) }
    ensures sizes { (a b : Certificate) → size_of a ≤ size_of (unite a b) }
    ensures sound { (a b : Certificate) → sound_of a ≤ sound_of (unite a b) }
    ensures together { (a b : Certificate) → size_of (unite a b) ≤ size_of a + size_of b }
    ensures signed { (a b : Certificate) → signatures_of (unite a b) ≤ signatures_of a + signatures_of b }
{}

/// A merge loses nothing of the second certificate, if both are certificates of one key.
pub fn united_holds_both()
    ensures items { OfTwoOfOneKey (λ a b. items_of b ≤ items_of (unite a b)) }
    ensures signatures { OfTwoOfOneKey (λ a b. signatures_of b ≤ signatures_of (unite a b)) }
    ensures sizes { OfTwoOfOneKey (λ a b. size_of b ≤ size_of (unite a b)) }
{}

/// A merge has exactly what is in one of both: a component is in it if and only if one of both has it, and a signature
/// is on the key or on a component if and only if it is there in one of both. They are distinguished by their bodies.
pub fn united_has_both()
    ensures direct { (body : List ℕ) → IsOfBoth (λ c. HasSig body c.direct) }
    ensures user_ids { AreOfBoth (λ c. c.user_ids) }
    ensures attributes { AreOfBoth (λ c. c.attributes) }
    ensures subkeys { AreOfBoth (λ c. c.subkeys) }
{}

/// Certificates of one key can be merged in any order, in any groups, and more than once: the result has the same
/// signatures with the same numbers. Only the marks depend on the order: a signature in both keeps the mark of the
/// first.
pub fn united_in_any_order()
    ensures groups { OfAnyThree (λ a b c. unite (unite a b) c ≡ unite a (unite b c)) }
    ensures order { OfTwoOfOneKey (λ a b. unmarked (unite a b) ≡ unmarked (unite b a)) }
    ensures twice { (a : Certificate) → IsCertificate a → unite a a ≡ a }
{}

/// Marks don't change what is counted, sized or written.
pub fn marks_weigh_nothing()
    ensures items { (c : Certificate) → items_of (unmarked c) ≡ items_of c }
    ensures judged_items { (rows : PolicyRows) (c : Certificate) → items_of (judged rows c) ≡ items_of c }
    ensures signatures { (c : Certificate) → signatures_of (unmarked c) ≡ signatures_of c }
    ensures judged_signatures { (rows : PolicyRows) (c : Certificate)
        → signatures_of (judged rows c) ≡ signatures_of c }
    ensures sound { (c : Certificate) → sound_of (unmarked c) ≡ sound_of c }
    ensures judged_sound { (rows : PolicyRows) (c : Certificate) → sound_of (judged rows c) ≡ sound_of c }
    ensures text { (c : Certificate) → text_of (unmarked c) ≡ text_of c }
    ensures judged_text { (rows : PolicyRows) (c : Certificate) → text_of (judged rows c) ≡ text_of c }
{}

/// Marking doesn't look at earlier marks. Marking a merge, or removing its marks, is merging what was marked or has
/// none. So what is marked after a merge doesn't depend on the order of the two.
pub fn judging()
    ensures unmarked { (rows : PolicyRows) (c : Certificate) → judged rows (unmarked c) ≡ judged rows c }
    ensures united { (rows : PolicyRows) (a b : Certificate)
        → judged rows (unite a b) ≡ unite (judged rows a) (judged rows b) }
    ensures unmarked_union { (a b : Certificate) → unmarked (unite a b) ≡ unite (unmarked a) (unmarked b) }
    ensures order { (rows : PolicyRows) → OfTwoOfOneKey (λ a b. judged rows (unite a b) ≡ judged rows (unite b a)) }
    ensures judged { (rows : PolicyRows) (c : Certificate) → IsJudged rows (judged rows c) }
    ensures forgotten { (rows : PolicyRows) (c : Certificate) → unmarked (judged rows c) ≡ unmarked c }
{}
