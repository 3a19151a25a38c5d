//! An entry of the list of bindings. Replies print it, and a cursor remembers the last one as its place.
use wot_types::{Fpr, UserId};

/// A binding of a user ID to a key, with the amount to which it is authenticated.
#[derive(Drop)]
pub struct Bind {
    pub sum: u32,
    pub fpr: Fpr,
    pub uid: UserId,
}
