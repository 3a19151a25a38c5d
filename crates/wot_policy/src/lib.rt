//! The one place that knows which hash algorithms still count, and for which creation times of signatures.
//!
//! Code above can only ask a [`Policy`], which keeps the closure that its maker passed in. That this closure answers by
//! the rows is not part of the type: `Policy::new` promises it, and each call that takes a policy requires it and
//! returns it.
#![tactic(auto)]

mod policy;
mod rows;
mod standard;

pub use policy::Policy;
pub use rows::{Ask, PolicyRows, Row, admits};
pub use standard::standard_rows;
