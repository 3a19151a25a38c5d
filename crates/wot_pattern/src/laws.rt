//! Laws of the definitions. Each function does nothing: its contract is the law. They say that the functions of
//! `specs/Deciding.antt` and `specs/MeaningTest.antt` agree with the grammar and the meaning, so that `wot_scope` can
//! decide a scope.
ghost use Rattle.std.specs.Prelude.{◌≡◌, ◌↔◌, ℕ, List, IsTrue, Some};
ghost use Rattle.wot_pattern.specs.Reading.{Reading};
ghost use Rattle.wot_pattern.specs.Grammar.{Says};
ghost use Rattle.wot_pattern.specs.Meaning.{Matches};
ghost use Rattle.wot_pattern.specs.Deciding.{pattern_of};
ghost use Rattle.wot_pattern.specs.MeaningTest.{matches_in};

/// What a text says as a regular expression is a function of the text.
pub fn reading_is_told()
    ensures reported { (text : List ℕ) (reading : Reading) → (pattern_of text ≡ Some reading) ↔ Says text reading }
{}

/// Whether a regular expression matches a text is a function of both.
pub fn matching_is_told()
    ensures reported { (text : List ℕ) (reading : Reading) → IsTrue (matches_in reading text) ↔ Matches text reading }
{}
