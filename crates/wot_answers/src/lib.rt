//! Kept answers: the answer to a question from a view, a kept one or by a new search, and what it depends on. wot_cache
//! keeps them for each view and says when they are asked. They use wot_auth and wot_search, over the network that
//! wot_network shows. What is kept is speed only: no definition of a reply mentions it.
#![tactic(auto)]

mod answers;
mod ask;
mod asked;
mod budget;
mod fault;
mod key;
mod looked;
mod making;
mod parts;
mod reach;
mod recall;
mod roots;

pub use answers::{Answers, KeptAnswer};
pub use ask::answer;
pub use asked::Asked;
pub use fault::AskFault;
pub use looked::{Looked, are_still};
pub use parts::Parts;
pub use recall::{AllAnswers, forget};
