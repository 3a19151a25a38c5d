//! Builds the nodes of an expression while it is read, one piece after another, with a level for each open parenthesis.
//!
//! It uses `node` and `specs/Steps.antt`. `parser` calls it; the limit on nesting is set here.
ghost use Rattle.std.specs.Prelude.{◌≡◌, [], IfErr, IfOk, OnOk};
ghost use Rattle.wot_pattern.specs.Reading.{Reading, single};
ghost use Rattle.wot_pattern.specs.Nodes.{atom_of};
ghost use Rattle.wot_pattern.specs.Steps.{Applies, Builds, Enters, IsJoined, Leaves, State};
ghost use Rattle.wot_pattern.specs.Steps.{atom, barred, flat, fresh, level_so_far, with_atom};
ghost use Rattle.wot_pattern.specs.declared.fault.PatternFault.TheVariants.{Unreadable, Memory};

use crate::fault::PatternFault;
use crate::node::{Leaf, Node};
use crate::pattern::Pattern;
use std::alloc::Global;

/// The end of the current branch.
#[derive(Clone, Copy)]
pub enum LastRead {
    Nothing,
    /// An atom, to which an operator may still apply.
    Atom,
    /// An atom with its operator.
    Piece,
}

/// The operator after an atom.
#[derive(Clone, Copy)]
pub enum Operator {
    Star,
    Plus,
    Optional,
}

/// How many parentheses may be open at once.
const LEVELS: usize = 64;

/// Builds the nodes of an expression from its beginning on.
#[derive(Drop)]
pub struct Builder {
    pub nodes: Vec<Node>,
    /// For each enclosing level: whether it has a branch before the current one.
    pub outer: Vec<bool>,
    /// Whether the current level has a branch before the current one.
    pub earlier: bool,
    pub last: LastRead,
}

impl Builder {
    pub fn new(alloc: Global) -> Result<Builder, PatternFault>
        ensures fault { IfErr result (λ e. e ≡ Memory) }
        ensures fresh { IfOk result (λ b. Builds b (fresh 64 [])) }
    {
        let mut nodes = Vec::new(alloc);
        nodes.push(Node::Nothing)?;
        Ok(Builder {
            nodes,
            outer: Vec::new(alloc),
            earlier: false,
            last: LastRead::Nothing,
        })
    }

    /// Appends what was read last to the branch.
    fn flush(&mut self) -> Result<(), PatternFault>
        ensures fault { IfErr result (λ e. e ≡ Memory) }
        ensures flat { OnOk result ((s : State) → Builds self.old s → Builds self.new (flat s)) }
        ensures outer { OnOk result (self.new.outer.items ≡ self.old.outer.items) }
    {
        match self.last {
            LastRead::Nothing => {}
            LastRead::Atom => self.nodes.push(Node::Sequence)?,
            LastRead::Piece => self.nodes.push(Node::Sequence)?,
        }
        self.last = LastRead::Nothing;
        Ok(())
    }

    /// Joins the branches of the current level.
    fn join(&mut self) -> Result<(), PatternFault>
        ensures fault { IfErr result (λ e. e ≡ Memory) }
        ensures joined { OnOk result (IsJoined self.old self.new) }
        ensures outer { OnOk result (self.new.outer.items ≡ self.old.outer.items) }
    {
        self.flush()?;
        if self.earlier {
            self.nodes.push(Node::Either)?;
        }
        Ok(())
    }

    pub fn atom(&mut self, leaf: Leaf) -> Result<(), PatternFault>
        ensures fault { IfErr result (λ e. e ≡ Memory) }
        ensures builds { OnOk result ((s : State) → Builds self.old s
            → Builds self.new (with_atom s (single (atom_of leaf)))) }
    {
        self.flush()?;
        self.nodes.push(Node::Single(leaf))?;
        self.last = LastRead::Atom;
        Ok(())
    }

    /// An opening parenthesis. `Unreadable` if too many are open.
    pub fn open(&mut self) -> Result<(), PatternFault>
        ensures builds { OnOk result (Enters self.old self.new) }
        ensures unreadable { IfErr result (λ e. e ≡ Unreadable → (s : State) → Builds self.old s → s.levels ≡ 0) }
    {
        if self.outer.len() >= LEVELS {
            return Err(PatternFault::Unreadable);
        }
        self.flush()?;
        self.outer.push(self.earlier)?;
        self.nodes.push(Node::Nothing)?;
        self.earlier = false;
        Ok(())
    }

    /// A closing parenthesis. `Unreadable` if none is open.
    pub fn close(&mut self) -> Result<(), PatternFault>
        ensures builds { OnOk result (Leaves self.old self.new) }
        ensures unreadable { IfErr result (λ e. e ≡ Unreadable → (s : State) → Builds self.old s → s.outer ≡ []) }
    {
        self.join()?;
        let Some(earlier) = self.outer.pop() else {
            return Err(PatternFault::Unreadable);
        };
        self.earlier = earlier;
        self.last = LastRead::Atom;
        Ok(())
    }

    /// A bar: the end of a branch that another one follows.
    pub fn bar(&mut self) -> Result<(), PatternFault>
        ensures fault { IfErr result (λ e. e ≡ Memory) }
        ensures builds { OnOk result ((s : State) → Builds self.old s → Builds self.new (barred s)) }
    {
        self.join()?;
        self.nodes.push(Node::Nothing)?;
        self.earlier = true;
        self.last = LastRead::Nothing;
        Ok(())
    }

    /// An operator. `Unreadable` if no atom comes right before it.
    pub fn repeat(&mut self, operator: Operator) -> Result<(), PatternFault>
        ensures builds { OnOk result (Applies operator self.old self.new) }
        ensures unreadable { IfErr result (λ e. e ≡ Unreadable → (s : State) (a : Reading) → Builds self.old s
            → s.last ≡ atom a → ⊥) }
    {
        let LastRead::Atom = self.last else {
            return Err(PatternFault::Unreadable);
        };
        let node = match operator {
            Operator::Star => Node::Star,
            Operator::Plus => Node::Plus,
            Operator::Optional => Node::Optional,
        };
        self.nodes.push(node)?;
        self.last = LastRead::Piece;
        Ok(())
    }

    /// The end of the text. `Unreadable` if a parenthesis is open.
    pub fn finish(mut self) -> Result<Pattern, PatternFault>
        requires { (s : State) × Builds self s }
        ensures whole { IfOk result (λ p. (s : State) → Builds self s → (s.outer ≡ []) × (p ≡ level_so_far s)) }
        ensures unreadable { IfErr result (λ e. e ≡ Unreadable → (s : State) → Builds self s → s.outer ≡ [] → ⊥) }
    {
        self.join()?;
        if !self.outer.is_empty() {
            return Err(PatternFault::Unreadable);
        }
        let Builder { nodes, .. } = self;
        Ok(Pattern::from_nodes(nodes))
    }
}
