//! Laws of answers. Each function does nothing: its contract is the law, which says what part of a network is enough
//! for an answer. They use `specs/Slices.antt`, and the laws of questions in `wot_laws` call them.
ghost use Rattle.wot_auth.specs.Slices.{AreWithinSlices, DoPathsAnswer, DoSlicesAnswer};

/// An answer depends on a slice: the roots, whatever a member certified with a depth of at least 1, and the target.
/// Each issuer on a valid path is a member, and two questions that agree on a slice of both have the same valid paths,
/// next paths and answers.
pub fn answers_rest_on_slices()
    ensures within { AreWithinSlices }
    ensures alike { DoSlicesAnswer }
{}

/// An answer depends only on the target and on what valid paths go through: questions that agree on the target and on a
/// set within which the valid paths of both stay have the same valid paths, next paths and answers.
pub fn answers_rest_on_paths()
    ensures { DoPathsAnswer }
{}
