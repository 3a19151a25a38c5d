//! The lists of steps and of paths that contracts see as lists.
//!
//! They are made from vectors and become vectors again without a copy. Paths, answers and proofs of absence consist of
//! them.
ghost use Rattle.std.specs.Prelude.{◌≡◌, IfOk};

use crate::{Path, Step};
use std::alloc::Global;
use std::marker::Model;
use wot_types::Memory;

/// The steps of a path, from the root to the target.
#[derive(Debug, Drop)]
pub struct StepList {
    items: Vec<Step, Global>,
}

impl Model for StepList {
    ghost use Rattle.std.specs.Prelude.{List};
    ghost use Rattle.wot_edge.specs.declared.path.Step.{Step};

    ghost Value = { List Step };

    ghost view = { λ list. list.items.items };
}

impl StepList {
    /// The list of these steps, without a copy.
    pub fn new(items: Vec<Step>) -> StepList
        ensures items { result ≡ items.items }
    {
        StepList { items }
    }

    pub fn as_slice(&self) -> &[Step]
        ensures items { result.now ≡ self.now }
    {
        self.items.as_slice()
    }

    pub fn into_vec(self) -> Vec<Step>
        ensures items { result.items ≡ self }
    {
        self.items
    }

    /// A copy.
    pub fn duplicate(&self) -> Result<StepList, Memory>
        ensures same { IfOk result (λ made. made ≡ self.now) }
    {
        let mut items = Vec::new(*self.items.allocator());
        items.extend_from_slice(&self.items)?;
        Ok(StepList { items })
    }
}

/// Paths, in the order in which they were taken.
#[derive(Debug, Drop)]
pub struct PathList {
    items: Vec<Path, Global>,
}

impl Model for PathList {
    ghost use Rattle.std.specs.Prelude.{List};
    ghost use Rattle.wot_edge.specs.declared.path.Path.{Path};

    ghost Value = { List Path };

    ghost view = { λ list. list.items.items };
}

impl PathList {
    /// The list of these paths, without a copy.
    pub fn new(items: Vec<Path>) -> PathList
        ensures items { result ≡ items.items }
    {
        PathList { items }
    }

    pub fn as_slice(&self) -> &[Path]
        ensures items { result.now ≡ self.now }
    {
        self.items.as_slice()
    }

    pub fn into_vec(self) -> Vec<Path>
        ensures items { result.items ≡ self }
    {
        self.items
    }

    /// A copy.
    pub fn duplicate(&self) -> Result<PathList, Memory>
        ensures same { IfOk result (λ made. made ≡ self.now) }
    {
        let items = copy_paths(*self.items.allocator(), &self.items)?;
        Ok(PathList { items })
    }
}

fn copy_paths(alloc: Global, paths: &[Path]) -> Result<Vec<Path>, Memory>
    ensures same { IfOk result (λ made. made.items ≡ paths.now) }
{
    let mut made = Vec::new(alloc);
    'paths: for path in paths {
        let copy = path.duplicate()?;
        made.push(copy)?;
    }
    Ok(made)
}
