//! Regular expressions that limit the scope of a trust signature (RFC 9580, section 8): parsed into a tree, and matched
//! in time proportional to both lengths.
//!
//! It uses std and `wot_types`. `wot_scope` parses and matches through it; its public contracts speak of
//! `specs/Grammar.antt` and `specs/Meaning.antt` only.
#![tactic(auto)]

mod advance;
mod builder;
mod closure;
mod fault;
mod flow;
mod item;
pub mod laws;
mod leaf;
mod mark;
mod matcher;
mod node;
mod parser;
mod pattern;
mod range;
mod stack;

pub use fault::PatternFault;
pub use matcher::Matcher;
pub use parser::{one_reading, parse};
pub use pattern::Pattern;
