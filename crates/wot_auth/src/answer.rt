//! An answer: its sum and its paths. `specs` of `wot_edge` say which answer is right; replies to `ask` print it.
ghost use Rattle.std.specs.Prelude.{◌≡◌, IfOk};

use wot_edge::PathList;
use wot_types::Memory;

/// The answer to a question: paths, each the next one after those before it.
#[derive(Debug, Drop)]
pub struct Answer {
    /// The sum of the paths' amounts.
    pub sum: u32,
    pub paths: PathList,
}

impl Answer {
    /// A copy.
    pub fn duplicate(&self) -> Result<Answer, Memory>
        ensures same { IfOk result (λ made. made ≡ self.now) }
    {
        let paths = self.paths.duplicate()?;
        Ok(Answer {
            sum: self.sum,
            paths,
        })
    }
}
