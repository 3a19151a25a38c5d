//! An item of a bracket expression. `range` reads items, and `leaf` tests characters against them.
/// An item of a bracket expression: the code points from one to the other, both included.
#[derive(Clone, Copy)]
pub struct Item {
    pub from: char,
    pub to: char,
}
