//! What the matcher keeps for each part of an expression at the current position. `closure` computes it, `advance` uses
//! it.
/// Which matches of a tree end at one position of the text.
#[derive(Clone, Copy)]
pub struct Flow {
    /// The empty match at this position.
    pub empty: bool,
    /// A match that began at an earlier position where it may begin, and ends here.
    pub ended: bool,
}

impl Flow {
    pub const NONE: Flow = Flow {
        empty: false,
        ended: false,
    };
}
