//! Laws of paths and answers. Each function does nothing: its contract is the law, and the crates above cite it by a
//! call. They use `specs/Path.antt`, `specs/Answer.antt` and `specs/Capacity.antt`.
ghost use Rattle.std.specs.Prelude.{◌≡◌, ◌≤◌, ◌*◌, ◌↔◌, ℕ, List, [], length};
ghost use Rattle.wot_types.specs.declared.fpr.Fpr.{Fpr};
ghost use Rattle.wot_edge.specs.declared.path.Path.{Path};
ghost use Rattle.wot_edge.specs.Record.{Record, IsRecord};
ghost use Rattle.wot_edge.specs.Lawful.{AreEntries};
ghost use Rattle.wot_edge.specs.Roots.{NoneOver, root_amount};
ghost use Rattle.wot_edge.specs.Path.{Question, Use, use_of, IsNextPath};
ghost use Rattle.wot_edge.specs.Answer.{IsAnswer, EachNext, NoPath, amount_of};
ghost use Rattle.wot_edge.specs.Capacity.{AllFit};

/// There is at most one next path.
pub fn next_path_is_one()
    ensures one { (q : Question) (used : Use) (a b : Path) → IsRecord q.network
        → IsNextPath q used a → IsNextPath q used b → a ≡ b }
{}

/// Each question has an answer, and only one.
pub fn answer_is_one()
    ensures some { (q : Question) (wanted : ℕ) → 1 ≤ wanted → (paths : List Path) × IsAnswer q wanted paths }
    ensures one { (q : Question) (wanted : ℕ) (a b : List Path) → IsRecord q.network
        → IsAnswer q wanted a → IsAnswer q wanted b → a ≡ b }
{}

/// The amount is 0 if and only if there is no valid path of positive amount at all.
pub fn zero_is_no_path()
    ensures zero { (q : Question) (wanted : ℕ) (paths : List Path) → 1 ≤ wanted → IsAnswer q wanted paths
        → (amount_of paths ≡ 0) ↔ NoPath q }
{}

/// Next paths stay within the amounts of their edges, of their roots, and of all roots together.
pub fn paths_fit()
    ensures pairs { (q : Question) (paths : List Path) → EachNext q [] paths → AllFit [] paths }
    ensures roots { (q : Question) (paths : List Path) (fpr : Fpr) → EachNext q [] paths
        → (use_of paths).root fpr ≤ root_amount q.roots fpr }
    ensures sum { (q : Question) (paths : List Path) → EachNext q [] paths → NoneOver 255 q.roots
        → amount_of paths ≤ 255 * length q.roots }
{}

/// Rows into each fingerprint that are in the order of issuer and user ID are a record.
pub fn entries_are_record()
    ensures lawful { (network : Record) → AreEntries network → IsRecord network }
{}
