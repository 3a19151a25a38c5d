//! Lists of lines, made from vectors and turned back into vectors without a copy. Contracts see them as lists. Replies
//! and commands hold them, so that a reply can be compared with its definition; a further kind of lines needs an alias.
ghost use Rattle.std.specs.Prelude.{◌≡◌, [], ◌∷◌, ◌++◌, OnOk, OnErr};

use crate::{
    AnswerLine, BindLine, ClaimLine, ClaimStepLine, KeyLine, LabelLine, PendingLine, ReasonLine,
};
use std::alloc::Global;
use std::marker::Model;
use wot_types::Memory;

/// Lines of one kind, in order.
#[derive(Drop)]
pub struct Lines<T> {
    lines: Vec<T>,
}

/// The lines of an answer.
pub type AnswerLines = Lines<AnswerLine>;

/// The lines of a listing of bindings.
pub type BindLines = Lines<BindLine>;

/// The lines of reasons.
pub type ReasonLines = Lines<ReasonLine>;

/// The lines of signatures without a verdict.
pub type PendingLines = Lines<PendingLine>;

/// The lines of a list of certificates.
pub type KeyLines = Lines<KeyLine>;

/// Claimed paths.
pub type ClaimLines = Lines<ClaimLine>;

/// The steps of a claimed path.
pub type ClaimStepLines = Lines<ClaimStepLine>;

/// A table of labels.
pub type LabelLines = Lines<LabelLine>;

impl<T> Model for Lines<T> {
    ghost use Rattle.std.specs.Prelude.{List};

    ghost Value = { List T };

    ghost view = { λ a. a.lines.items };
}

impl<T> Lines<T> {
    /// No lines.
    pub fn new(alloc: Global) -> Lines<T>
        ensures none { result ≡ [] }
    {
        Lines {
            lines: Vec::new(alloc),
        }
    }

    /// These lines, without a copy.
    pub fn from_vec(lines: Vec<T>) -> Lines<T>
        ensures same { result ≡ lines.items }
    {
        Lines { lines }
    }

    /// The lines, without a copy.
    pub fn into_vec(self) -> Vec<T>
        ensures same { result.items ≡ self }
    {
        let Lines { lines } = self;
        lines
    }

    /// The lines in order.
    pub fn items(&self) -> &[T]
        ensures whole { result.now ≡ self.now }
    {
        self.lines.as_slice()
    }
}

impl<T: Drop> Lines<T> {
    /// Appends one line. After `Memory` the list is unchanged.
    pub fn push(&mut self, line: T) -> Result<(), Memory>
        ensures pushed { OnOk result (self.new ≡ self.old ++ line ∷ []) }
        ensures kept { OnErr result (self.new ≡ self.old) }
    {
        self.lines.push(line)?;
        Ok(())
    }
}
